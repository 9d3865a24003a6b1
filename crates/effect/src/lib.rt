// What an accepted operation does to the state area and to the answer area.

#![tactic(auto)]

mod moves;
pub mod owners;
mod transfers;

ghost use Rattle.std.specs.Prelude.{◌≡◌};
ghost use Rattle.model.specs.State.{view, layout};
ghost use Rattle.model.specs.Operation.{family_of};
ghost use Rattle.model.specs.Effect.{answered};
ghost use Rattle.model.specs.Gate.{applied};
ghost use Rattle.effect.specs.Fit.{Fit};

use crate::moves::{created_status, move_concerned};
use crate::transfers::{copy_contents, write_items};
use model::{CONTENT_BYTES, Config, Family, MOST_ITEMS, Operation};
use operation::codes::{actor_of, family_of};
use state::change::{set_lock, set_status};
use state::{DESTROYED, LOCKED, UNLOCKED};

// What the answer area has at least: room for the contents of every item.
pub const ANSWER_BYTES: usize = CONTENT_BYTES * MOST_ITEMS;

// An operation that questions 7, 8, 10 and 11 let by, on an area with `room` object records.
pub fn carry_out(area: &mut [u8], room: usize, config: &Config, op: &Operation, answer: &mut [u8])
    requires { Fit room op.now area.old answer.old }
    ensures area_after { area.new ≡ layout (applied config.now op.now (view room area.old)) }
    ensures answer_after { answer.new
        ≡ answered op.now (family_of op.now.code) (view room area.old) answer.old }
{
    let actor = actor_of(op.code);
    match family_of(op.code) {
        Family::Write => write_items(area, room, op),
        Family::Copy => copy_contents(area, room, op, answer),
        Family::Create => set_status(area, room, op.partition, created_status(op.code)),
        Family::Destroy => set_status(area, room, op.partition, DESTROYED),
        Family::Activate => {
            move_concerned(area, room, config, op, actor, op.partition as u8, true)
        }
        Family::Deactivate => move_concerned(area, room, config, op, actor, 0, false),
        Family::Lock => set_lock(area, room, op.subject, LOCKED),
        Family::Unlock => set_lock(area, room, op.subject, UNLOCKED),
    }
}
