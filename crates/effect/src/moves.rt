// Drivers, devices and objects put into a partition and taken out of it.
ghost use Rattle.std.specs.Prelude.{◌≡◌, true, cond, length, eqb};
ghost use Rattle.model.specs.Config.{owns};
ghost use Rattle.model.specs.State.{area_length, plain_status, green_status, view, layout};
ghost use Rattle.model.specs.Operation.{green_code};
ghost use Rattle.model.specs.Effect.{concerned};
ghost use Rattle.effect.specs.Moves.{moved_at, clearable, listed, moved, with_subject};

use crate::owners::owns;
use model::{
    Actor, Config, DEVICE_CLASS, DRIVER_CLASS, GREEN_CODE, HARDCODED_KIND, Operation, byte_at,
};
use operation::columns::number_of;
use state::change::{clear, set_device, set_driver, set_object};
use state::{EXISTING, GREEN};

// The status that creation sets, by its code: a green zone by 13.
pub(crate) fn created_status(code: usize) -> u8
    ensures { result ≡ cond (eqb code green_code) green_status plain_status }
{
    if code == GREEN_CODE { GREEN } else { EXISTING }
}

// Is object n cleared, where clearing is asked? Not if it is of kind 4.
fn is_clearable(config: &Config, clears: bool, n: usize) -> bool
    ensures { result ≡ clearable config.now clears n }
{
    clears && byte_at(&config.objects.kind, n) != HARDCODED_KIND
}

// Object n goes to partition p, and is then cleared, unless it is of kind 4, if that is asked.
fn move_one(area: &mut [u8], room: usize, config: &Config, n: usize, p: u8, clears: bool)
    requires { length area.old ≡ area_length room }
    ensures { area.new
        ≡ layout (moved_at true (clearable config.now clears n) n p (view room area.old)) }
{
    set_object(area, room, n, p);
    if is_clearable(config, clears, n) {
        clear(area, room, n);
    }
}

// All objects of driver or device k go to partition p. Records of absent objects are nobody's.
fn move_owned(
    area: &mut [u8],
    room: usize,
    config: &Config,
    class: u8,
    k: usize,
    p: u8,
    clears: bool,
)
    requires { length area.old ≡ area_length room }
    ensures { area.new
        ≡ layout (moved (owns config.now class k) config.now clears p (view room area.old)) }
{
    let last = room.min(usize::from(config.counts.objects));
    for n in 1..last + 1 {
        if owns(config, class, k, n) {
            move_one(area, room, config, n, p, clears);
        }
    }
}

// The objects that an operation lists go to partition p.
fn move_listed(area: &mut [u8], room: usize, config: &Config, op: &Operation, p: u8, clears: bool)
    requires { length area.old ≡ area_length room }
    ensures { area.new ≡ layout
        (moved (listed op.now.objects op.now.count) config.now clears p (view room area.old)) }
{
    for i in 0..op.count {
        move_one(area, room, config, number_of(&op.objects, i), p, clears);
    }
}

// Codes 7 to 12: what an operation concerns goes to partition p: a driver or a device and its objects, or the objects
// that it lists.
pub(crate) fn move_concerned(
    area: &mut [u8],
    room: usize,
    config: &Config,
    op: &Operation,
    actor: Actor,
    p: u8,
    clears: bool,
)
    requires { length area.old ≡ area_length room }
    ensures { area.new ≡ layout (moved (concerned config.now op.now actor) config.now clears p
        (with_subject op.now actor p (view room area.old))) }
{
    match actor {
        Actor::Driver => {
            set_driver(area, room, op.subject, p);
            move_owned(area, room, config, DRIVER_CLASS, op.subject, p, clears);
        }
        Actor::Device => {
            set_device(area, room, op.subject, p);
            move_owned(area, room, config, DEVICE_CLASS, op.subject, p, clears);
        }
        Actor::External => move_listed(area, room, config, op, p, clears),
    }
}
