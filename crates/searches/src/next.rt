// Questions 19 and 21: in the state that would follow no entry crosses.
ghost use Rattle.std.specs.Prelude.{◌≡◌, ◌&&◌, ◌≤◌, length, replicate};
ghost use Rattle.model.specs.Config.{small_room, most_objects};
ghost use Rattle.model.specs.State.{area_length, layout, view};
ghost use Rattle.model.specs.Effect.{answer_bytes};
ghost use Rattle.model.specs.Closure.{confined};
ghost use Rattle.model.specs.Questions.{q19, q21};
ghost use Rattle.model.specs.Gate.{applied};
ghost use Rattle.state.specs.Shown.{shown};
ghost use Rattle.effect.specs.Fit.{Fit};
ghost use Rattle.scene.specs.Scene.{Searchable};
ghost use Rattle.searches.specs.Ready.{Ready, Asked};
ghost use Rattle.searches.specs.Asking.{enters, follows};

use crate::transfers::is_storing;
use closure::answer::crossing;
use effect::{ANSWER_BYTES, carry_out};
use green::rule::{is_by_device, zone_of};
use model::{Actor, Config, Family, Operation, SMALL_ROOM};
use state::area::Area;
use state::{AREA_BYTES, SMALL_AREA_BYTES};

// How much of a scratch area is lent for an area's copy: a small room's whole, so that the compiler sees that the copy
// overwrites all of it; of the longest as much as the area at hand has.
#[inline(always)]
fn lent(scratch: usize, area: usize) -> usize
    requires { scratch ≤ area_length small_room → area ≡ scratch }
    ensures { result ≡ area }
{
    if scratch <= SMALL_AREA_BYTES {
        scratch
    } else {
        area
    }
}

// No entry in the closure crosses in the area after an operation, which is made in a scratch area of N bytes: clearing
// the longest for every room would cost a small line a third of its call.
fn is_confined_in<const N: usize>(config: &Config, area: &Area, op: &Operation) -> bool
    requires long { length area.now.bytes.now ≤ N }
    requires whole { N ≤ area_length small_room → length area.now.bytes.now ≡ N }
    requires most { N ≤ area_length most_objects }
    requires fit { Fit area.now.room op.now area.now.bytes.now (replicate answer_bytes 0) }
    requires searchable { Searchable config.now area.now.room (applied config.now op.now (shown area.now)) }
    ensures { result ≡ confined config.now (applied config.now op.now (shown area.now)) }
{
    let mut scratch = [0u8; N];
    let size = lent(N, area.bytes.len());
    let next = &mut scratch[..size];
    next.copy_from_slice(&area.bytes[..size]);
    let mut spare = [0u8; ANSWER_BYTES];
    carry_out(next, area.room, config, op, &mut spare);
    let after = Area {
        bytes: next,
        room: area.room,
    };
    crossing(config, &after).is_none()
}

// A device is brought in.
pub fn is_entering(f: Family, a: Actor) -> bool
    ensures { result ≡ enters f a }
{
    matches!(f, Family::Activate) && is_by_device(a)
}

// 19 is put to writes and copies outside green zones, unless a device acts, and 21 where a device is brought in.
fn is_followed(area: &Area, op: &Operation, f: Family, a: Actor) -> bool
    ensures { result ≡ follows (shown area.now) op.now f a }
{
    if !is_storing(f) {
        return is_entering(f, a);
    }
    !is_by_device(a) && !area.is_green(zone_of(area, op, a))
}

// 19 and 21: no entry crosses in the state that would follow, of whichever device. One function asks both: at most one
// of them is put to an operation, and both are the same search.
pub fn follows_confined(config: &Config, area: &Area, op: &Operation, f: Family, a: Actor) -> bool
    requires ready { Ready config.now area.now.room area.now.bytes.now }
    requires asked { Asked config.now op.now f a }
    ensures { result ≡ (q19 config.now (shown area.now) op.now f a
        && q21 config.now (shown area.now) op.now f a) }
{
    if !is_followed(area, op, f, a) {
        return true;
    }
    if area.room == usize::from(SMALL_ROOM) {
        is_confined_in::<SMALL_AREA_BYTES>(config, area, op)
    } else {
        is_confined_in::<AREA_BYTES>(config, area, op)
    }
}
