// The walk over the object records (request N3): which is the first that breaks a rule of question 9?
ghost use Rattle.std.specs.Prelude.{◌≡◌};
ghost use Rattle.model.specs.State.{right_object, first_bad};
ghost use Rattle.state.specs.Shown.{shown};
ghost use Rattle.state.specs.Formed.{is_value, is_value_to, content_right, place_right, TablesOf, found};

use crate::area::Area;
use crate::tables::Tables;
use model::{
    CONTENT_BYTES, Config, DEVICE_CLASS, DRIVER_CLASS, HARDCODED_KIND, TRANSFER_KIND, byte_at,
};

// Sixteen bytes are those of value number v: as a number, the first the lowest, they are v.
fn is_value(c: [u8; CONTENT_BYTES], v: u8) -> bool
    ensures { result ≡ is_value c v }
{
    u128::from_le_bytes(c) == u128::from(v)
}

// They are those of a value number of at most `most`.
fn is_value_to(c: [u8; CONTENT_BYTES], most: u8) -> bool
    ensures { result ≡ is_value_to c most }
{
    u128::from_le_bytes(c) <= u128::from(most)
}

// The contents of object n, which is present, read out by value where they are tested. Those of kinds 2 and 3 are free.
#[inline(always)]
fn is_filled(area: &Area, config: &Config, n: usize) -> bool
    ensures { result ≡ content_right config.now (shown area.now) n }
{
    match byte_at(&config.objects.kind, n) {
        HARDCODED_KIND => {
            let o = byte_at(&config.objects.owner, n);
            let v = byte_at(&config.devices.hardcoded, usize::from(o));
            is_value(area.content(n), v)
        }
        TRANSFER_KIND => is_value_to(area.content(n), config.counts.values),
        _ => true,
    }
}

// The partition of object n, which is present: its owner's, if it has one; and none, or one that exists.
#[inline(always)]
fn is_placed(area: &Area, config: &Config, tables: &Tables, n: usize) -> bool
    requires { TablesOf (shown area.now) tables.now }
    ensures { result ≡ place_right config.now (shown area.now) n }
{
    let p = area.object(n);
    let o = usize::from(byte_at(&config.objects.owner, n));
    match byte_at(&config.objects.class, n) {
        DEVICE_CLASS => tables.is_home(p, tables.devices[o]),
        DRIVER_CLASS => tables.is_home(p, tables.drivers[o]),
        _ => tables.is_assigned(p),
    }
}

// The record of object n: its partition, and its contents, which are read out by value, once, where they are tested; of
// an absent object all bytes are 0.
#[inline(always)]
fn is_right(area: &Area, config: &Config, tables: &Tables, n: usize) -> bool
    requires { TablesOf (shown area.now) tables.now }
    ensures { result ≡ right_object config.now (shown area.now) n }
{
    if n <= usize::from(config.counts.objects) {
        is_placed(area, config, tables, n) && is_filled(area, config, n)
    } else {
        area.object(n) == 0 && is_value(area.content(n), 0)
    }
}

// The walk: one record after the other, from the first to the last of the room, up to the first that breaks a rule.
// Its number, if there is one.
#[inline(always)]
pub(crate) fn walk(area: &Area, config: &Config, tables: &Tables) -> Option<usize>
    requires { TablesOf (shown area.now) tables.now }
    ensures { result ≡ found (first_bad area.now.room config.now (shown area.now)) }
{
    for before in 0..area.room {
        let n = before + 1;
        if !is_right(area, config, tables, n) {
            return Some(n);
        }
    }
    None
}

// The number of the first object record that breaks a rule of question 9, or 0, whatever stands in the head.
pub fn first_bad(area: &Area, config: &Config) -> usize
    ensures { result ≡ first_bad area.now.room config.now (shown area.now) }
{
    let mut tables = Tables::blank();
    tables.fill(area);
    walk(area, config, &tables).unwrap_or(0)
}
