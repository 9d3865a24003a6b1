// Question 22: what is stored in a green zone, and what comes into one, keeps the zone's rule.
ghost use Rattle.std.specs.Prelude.{◌≡◌, ◌≤◌, ◌<◌};
ghost use Rattle.model.specs.Config.{entry_at};
ghost use Rattle.model.specs.Questions.{zone_of, quiet_entry, ringless, green_entry, green_value, green_item};
ghost use Rattle.model.specs.Questions.{green_items, q22};
ghost use Rattle.model.specs.declared.Config.{Config};
ghost use Rattle.model.specs.declared.Family.TheVariants.{Activate};
ghost use Rattle.state.specs.Shown.{shown};
ghost use Rattle.sound.specs.Sound.{far_place};
ghost use Rattle.green.specs.Rule.{Narrow, by_device};

use model::{
    Actor, BOTH_MODE, Config, Family, HARDCODED_KIND, Operation, TRANSFER_KIND, WRITE_MODE, byte_at,
};
use operation::columns::number_of;
use sound::entries_all;
use state::area::Area;

// A device acts.
pub fn is_by_device(a: Actor) -> bool
    ensures { result ≡ by_device a }
{
    matches!(a, Actor::Device)
}

// The zone in which a write or a copy stores, and which a deactivation leaves.
pub fn zone_of(area: &Area, op: &Operation, a: Actor) -> usize
    ensures { result ≡ zone_of (shown area.now) op.now a }
{
    match a {
        Actor::Driver => usize::from(area.driver(op.subject)),
        Actor::Device => usize::from(area.device(op.subject)),
        Actor::External => op.partition,
    }
}

// The entry at a place of the table writes no kind 1 object.
fn is_quiet(config: &Config, at: usize) -> bool
    requires { at ≤ far_place }
    ensures { result ≡ quiet_entry config.now (entry_at config.now.values.entries at) }
{
    let entries = &config.values.entries;
    let o = usize::from(byte_at(entries, at));
    byte_at(&config.objects.kind, o) != TRANSFER_KIND
        || !matches!(byte_at(entries, at + 1), WRITE_MODE | BOTH_MODE)
}

// It is such, and names an object of zone p that is not of kind 4.
fn is_green(config: &Config, area: &Area, p: usize, at: usize) -> bool
    requires { at ≤ far_place }
    ensures { result ≡ green_entry config.now (shown area.now) p (entry_at config.now.values.entries at) }
{
    let o = usize::from(byte_at(&config.values.entries, at));
    usize::from(area.object(o)) == p
        && byte_at(&config.objects.kind, o) != HARDCODED_KIND
        && is_quiet(config, at)
}

// The entries of value v are such: it may be stored in green zone p.
fn value_passes(config: &Config, area: &Area, p: usize, v: u8) -> bool
    ensures { result ≡ green_value config.now (shown area.now) p v }
{
    entries_all(&config.values, v, |at| is_green(config, area, p, at))
}

// What item i stores into kind 1 may be stored in green zone p.
fn item_passes(config: &Config, area: &Area, op: &Operation, f: Family, p: usize, i: usize) -> bool
    requires narrow { Narrow config.now.objects.kind op.now f }
    requires listed { i < op.now.count }
    ensures { result ≡ green_item config.now (shown area.now) op.now f p i }
{
    let kind = &config.objects.kind;
    let o = number_of(&op.objects, i);
    let v = number_of(&op.seconds, i);
    match f {
        Family::Write => {
            byte_at(kind, o) != TRANSFER_KIND || value_passes(config, area, p, v as u8)
        }
        Family::Copy => {
            v == 0
                || byte_at(kind, v) != TRANSFER_KIND
                || value_passes(config, area, p, area.value(o))
        }
        _ => true,
    }
}

// 22, of a write or a copy: in a green zone every item is such. It is not asked where a device acts.
fn stores_keep(config: &Config, area: &Area, op: &Operation, f: Family, a: Actor) -> bool
    requires { Narrow config.now.objects.kind op.now f }
    ensures { result ≡ green_items config.now (shown area.now) op.now f a }
{
    if is_by_device(a) {
        return true;
    }
    let p = zone_of(area, op, a);
    !area.is_green(p) || (0..op.count).all(|i| item_passes(config, area, op, f, p, i))
}

// The hardcoded value of device c writes no kind 1 object.
fn is_ringless(config: &Config, c: usize) -> bool
    ensures { result ≡ ringless config.now c }
{
    let v = byte_at(&config.devices.hardcoded, c);
    entries_all(&config.values, v, |at| is_quiet(config, at))
}

// 22, of an activation: into a green zone comes no device whose hardcoded value writes a kind 1 object.
fn enters_keeping(config: &Config, area: &Area, op: &Operation, a: Actor) -> bool
    ensures { result ≡ q22 config.now (shown area.now) op.now Activate a }
{
    !is_by_device(a) || !area.is_green(op.partition) || is_ringless(config, op.subject)
}

// 22, of an operation of any family: of writes and copies by what they store, of activations by what comes in. Of the
// configuration it looks at kinds, hardcoded values, entry counts and entries: this is the answer by any with these.
pub fn keeps_rule(config: &Config, area: &Area, op: &Operation, f: Family, a: Actor) -> bool
    requires { Narrow config.now.objects.kind op.now f }
    ensures value { result ≡ q22 config.now (shown area.now) op.now f a }
    ensures by_columns { (m : Config) → m.objects.kind ≡ config.now.objects.kind
        → m.devices.hardcoded ≡ config.now.devices.hardcoded
        → m.values.count ≡ config.now.values.count → m.values.entries ≡ config.now.values.entries
        → result ≡ q22 m (shown area.now) op.now f a }
{
    match f {
        Family::Write | Family::Copy => stores_keep(config, area, op, f, a),
        Family::Activate => enters_keeping(config, area, op, a),
        _ => true,
    }
}
