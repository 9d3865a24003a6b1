// The stricter question 20: no descriptor that stays in the zone names an object that leaves it, which the table has a
// 1 for.
ghost use Rattle.std.specs.Prelude.{◌≡◌, not, ◌||◌, ◌≤◌};
ghost use Rattle.model.specs.Base.{all, every};
ghost use Rattle.model.specs.Config.{most_values, entry_at, entries};
ghost use Rattle.model.specs.State.{green};
ghost use Rattle.state.specs.Shown.{shown};
ghost use Rattle.sound.specs.Sound.{far_place};
ghost use Rattle.scene.specs.Scene.{In, AreaOk};
ghost use Rattle.green.specs.Rule.{spared_by, Spares, goes_by};

use model::{Config, HARDCODED_KIND, OBJECT_SLOTS, TRANSFER_KIND, VALUE_SLOTS, byte_at};
use scene::area;
use sound::entries_all;
use state::area::Area;

// The entries of value v name none of them.
fn is_spared(config: &Config, table: &[u8; OBJECT_SLOTS], v: u8) -> bool
    ensures { result ≡ all (spared_by table.now) (entries config.now v) }
{
    let entries = &config.values.entries;
    entries_all(&config.values, v, |at| {
        byte_at(table, usize::from(byte_at(entries, at))) != 1
    })
}

// Which of the values do: each is looked through once, however many descriptors hold it.
fn spared_values(config: &Config, table: &[u8; OBJECT_SLOTS]) -> [bool; VALUE_SLOTS]
    requires { config.now.counts.values ≤ most_values }
    ensures { Spares config.now table.now result }
{
    let mut spares = [true; VALUE_SLOTS];
    for v in 1..config.counts.values + 1 {
        spares[usize::from(v)] = is_spared(config, table, v);
    }
    spares
}

// Object n, if it is a descriptor that stays in zone z, holds a value that names none of them.
fn lets_go(
    config: &Config,
    area: &Area,
    table: &[u8; OBJECT_SLOTS],
    spares: &[bool; VALUE_SLOTS],
    z: usize,
    n: usize,
) -> bool
    requires known { AreaOk config.now area.now.room (shown area.now) }
    requires told { Spares config.now table.now spares.now }
    requires object { In config.now.counts.objects n }
    ensures { result ≡ goes_by config.now (shown area.now) table.now z n }
{
    if !matches!(config.objects.kind[n], TRANSFER_KIND | HARDCODED_KIND)
        || usize::from(area::object_in(area, n)) != z
        || table[n] == 1
    {
        return true;
    }
    spares[usize::from(area::held_by(area, n))]
}

// In a green zone each of the objects does; another zone lets everything go.
pub fn zone_lets_go(config: &Config, area: &Area, table: &[u8; OBJECT_SLOTS], z: usize) -> bool
    requires { AreaOk config.now area.now.room (shown area.now) }
    ensures { result ≡ (not (green (shown area.now) z)
        || every config.now.counts.objects (goes_by config.now (shown area.now) table.now z)) }
{
    if !area.is_green(z) {
        return true;
    }
    let spares = spared_values(config, table);
    (1..usize::from(config.counts.objects) + 1).all(|n| lets_go(config, area, table, &spares, z, n))
}
