// Questions 14 to 17 and 23: partitions, who is in them, and locks, by a state area.
ghost use Rattle.std.specs.Prelude.{◌≡◌};
ghost use Rattle.model.specs.Answers.{answer_of};
ghost use Rattle.model.specs.Base.{below};
ghost use Rattle.model.specs.Questions.{q14, q15, q16, q17, q23, nothing_in, within};
ghost use Rattle.state.specs.Shown.{shown};
ghost use Rattle.questions.specs.Items.{activity, lockage, places_no};

use crate::lookups::{ask, names_partition};
use model::{Actor, Family, Operation, Question};
use operation::columns::number_of;
use state::area::Area;
use state::{DEVICE_BYTES, DRIVER_BYTES, UNLOCKED, UNUSED};

// 14: the partition to create was never used; another that is named exists.
pub fn status_fits(area: &Area, op: &Operation, f: Family, a: Actor) -> bool
    ensures { result ≡ q14 (shown area.now) op.now f a }
{
    match f {
        Family::Create => area.status(op.partition) == UNUSED,
        _ => !names_partition(f, a) || area.is_existing(op.partition),
    }
}

// Nothing is in partition p.
fn nothing_in(area: &Area, p: usize) -> bool
    ensures { result ≡ nothing_in (shown area.now) p }
{
    (1..DRIVER_BYTES + 1).all(|d| usize::from(area.driver(d)) != p)
        && (1..DEVICE_BYTES + 1).all(|c| usize::from(area.device(c)) != p)
        && (1..area.room + 1).all(|o| usize::from(area.object(o)) != p)
}

// 15: nothing is in a partition that is destroyed.
pub fn left_empty(area: &Area, op: &Operation, f: Family) -> bool
    ensures { result ≡ q15 (shown area.now) op.now f }
{
    !matches!(f, Family::Destroy) || nothing_in(area, op.partition)
}

// The driver or device is active, or all listed objects are; or all are inactive, as wanted.
fn is_active(area: &Area, op: &Operation, a: Actor, wanted: bool) -> bool
    ensures { result ≡ activity (shown area.now) op.now a wanted }
{
    match a {
        Actor::Driver => (area.driver(op.subject) != 0) == wanted,
        Actor::Device => (area.device(op.subject) != 0) == wanted,
        Actor::External => {
            (0..op.count).all(|i| (area.object(number_of(&op.objects, i)) != 0) == wanted)
        }
    }
}

// 16: inactive before activation, locking and unlocking, active before anything else.
pub fn activity_fits(area: &Area, op: &Operation, f: Family, a: Actor) -> bool
    ensures { result ≡ q16 (shown area.now) op.now f a }
{
    match f {
        Family::Create | Family::Destroy => true,
        Family::Activate | Family::Lock | Family::Unlock => is_active(area, op, a, false),
        Family::Write | Family::Copy | Family::Deactivate => is_active(area, op, a, true),
    }
}

// The device has a lock, or has none, as wanted; drivers and objects are not locked.
fn is_locked(area: &Area, op: &Operation, a: Actor, wanted: bool) -> bool
    ensures { result ≡ lockage (shown area.now) op.now a wanted }
{
    match a {
        Actor::Device => (area.lock(op.subject) != UNLOCKED) == wanted,
        _ => true,
    }
}

// 23: a device that comes in or is to be locked has no lock, one that is to be unlocked has one.
pub fn lock_fits(area: &Area, op: &Operation, f: Family, a: Actor) -> bool
    ensures { result ≡ q23 (shown area.now) op.now f a }
{
    match f {
        Family::Activate | Family::Lock => is_locked(area, op, a, false),
        Family::Unlock => is_locked(area, op, a, true),
        _ => true,
    }
}

// Item i is in partition p, its destination too.
fn item_within(area: &Area, op: &Operation, f: Family, p: usize, i: usize) -> bool
    ensures { result ≡ within (shown area.now) op.now f p i }
{
    let here = usize::from(area.object(number_of(&op.objects, i))) == p;
    match f {
        Family::Write | Family::Deactivate => here,
        Family::Copy => {
            let v = number_of(&op.seconds, i);
            here && (v == 0 || usize::from(area.object(v)) == p)
        }
        _ => true,
    }
}

// Every item is.
fn items_within(area: &Area, op: &Operation, f: Family, p: usize) -> bool
    ensures { result ≡ below op.now.count (within (shown area.now) op.now f p) }
{
    (0..op.count).all(|i| item_within(area, op, f, p, i))
}

// 17: a driver's objects are in its partition, those of code 12 in the one named.
pub fn placed(area: &Area, op: &Operation, f: Family, a: Actor) -> bool
    ensures { result ≡ q17 (shown area.now) op.now f a }
{
    match a {
        Actor::Driver => items_within(area, op, f, usize::from(area.driver(op.subject))),
        Actor::Device => true,
        Actor::External => items_within(area, op, f, op.partition),
    }
}

// The first of these questions that is answered with no, if one is.
pub fn judge_places(area: &Area, op: &Operation, f: Family, a: Actor) -> Result<(), Question>
    ensures { answer_of result ≡ places_no (shown area.now) op.now f a 0 }
{
    ask(Question::StatusFits, status_fits(area, op, f, a))?;
    ask(Question::LeftEmpty, left_empty(area, op, f))?;
    ask(Question::ActivityFits, activity_fits(area, op, f, a))?;
    ask(Question::LockFits, lock_fits(area, op, f, a))?;
    ask(Question::Placed, placed(area, op, f, a))
}
