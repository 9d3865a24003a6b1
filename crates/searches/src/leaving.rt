// Question 20: no other device has an entry in the closure for an object that a deactivation concerns, and in a green
// zone no descriptor that stays names one.
ghost use Rattle.std.specs.Prelude.{◌≡◌, true, ◌≤◌, get_or, eqb};
ghost use Rattle.model.specs.Config.{most_objects, owns};
ghost use Rattle.model.specs.Effect.{concerned};
ghost use Rattle.model.specs.Closure.{unnamed};
ghost use Rattle.model.specs.Questions.{q17, q20, itself};
ghost use Rattle.model.specs.declared.Actor.TheVariants.{External};
ghost use Rattle.state.specs.Shown.{shown};
ghost use Rattle.effect.specs.Moves.{listed};
ghost use Rattle.scene.specs.Scene.{Searchable};
ghost use Rattle.searches.specs.Ready.{Ready, Asked};
ghost use Rattle.searches.specs.Asking.{leaves, Marks, InTable};

use closure::answer::naming;
use effect::owners::owns;
use green::rule::zone_of;
use green::staying::zone_lets_go;
use model::{Actor, Config, DEVICE_CLASS, DRIVER_CLASS, Family, OBJECT_SLOTS, Operation};
use operation::columns::number_of;
use state::area::Area;

// A deactivation.
pub fn is_leaving(f: Family) -> bool
    ensures { result ≡ leaves f }
{
    matches!(f, Family::Deactivate)
}

// A 1 at each object of driver k or of device k, by the class.
fn mark_owned(config: &Config, class: u8, k: usize) -> [u8; OBJECT_SLOTS]
    requires { config.now.counts.objects ≤ most_objects }
    ensures { Marks result (owns config.now class k) }
{
    let mut table = [0u8; OBJECT_SLOTS];
    for n in 1..usize::from(config.counts.objects) + 1 {
        table[n] = u8::from(owns(config, class, k, n));
    }
    table
}

// A 1 at each of the first `count` objects of a list.
fn mark_listed(list: &[u32], count: usize) -> [u8; OBJECT_SLOTS]
    requires { InTable list.now count }
    ensures { Marks result (listed list.now count) }
{
    let mut table = [0u8; OBJECT_SLOTS];
    for i in 0..count {
        table[number_of(list, i)] = 1;
    }
    table
}

// A 1 at each object concerned.
fn mark_concerned(config: &Config, op: &Operation, a: Actor) -> [u8; OBJECT_SLOTS]
    requires objects_le_most_objects { config.now.counts.objects ≤ most_objects }
    requires in_table { a ≡ External → InTable op.now.objects op.now.count }
    ensures { Marks result (concerned config.now op.now a) }
{
    match a {
        Actor::Driver => mark_owned(config, DRIVER_CLASS, op.subject),
        Actor::Device => mark_owned(config, DEVICE_CLASS, op.subject),
        Actor::External => mark_listed(&op.objects, op.count),
    }
}

// The device whose own entries do not count, or 0.
fn left_out(op: &Operation, a: Actor) -> usize
    ensures { result ≡ itself op.now a }
{
    match a {
        Actor::Device => op.subject,
        _ => 0,
    }
}

// No device but one has an entry in the closure for an object with a 1 in the table.
fn is_unnamed(config: &Config, area: &Area, table: &[u8; OBJECT_SLOTS], but: usize) -> bool
    requires { Searchable config.now area.now.room (shown area.now) }
    ensures { result ≡ unnamed config.now (shown area.now) (λ o. eqb (get_or table.now o 0) 1) but }
{
    naming(config, area, table, but).is_none()
}

// 20: no other device has an entry for what is deactivated, nor has a descriptor that stays in its green zone. The
// second is asked first: it needs no search.
pub fn stays_unnamed(config: &Config, area: &Area, op: &Operation, f: Family, a: Actor) -> bool
    requires ready { Ready config.now area.now.room area.now.bytes.now }
    requires asked { Asked config.now op.now f a }
    requires a_value { q17 (shown area.now) op.now f a ≡ true }
    ensures { result ≡ q20 config.now (shown area.now) op.now f a }
{
    if !is_leaving(f) {
        return true;
    }
    let table = mark_concerned(config, op, a);
    zone_lets_go(config, area, &table, zone_of(area, op, a))
        && is_unnamed(config, area, &table, left_out(op, a))
}
