// The words before any step: the device that a hardcoded descriptor belongs to, and the value that a descriptor holds.
ghost use Rattle.std.specs.Prelude.{◌≡◌, get_or, true};
ghost use Rattle.state.specs.Shown.{shown};
ghost use Rattle.scene.specs.Rules.{holds_value};
ghost use Rattle.scene.specs.Scene.{In, OwnersOk, AreaOk};
ghost use Rattle.closure.specs.Words.{OwnWord, ValueWord, FirstWord, Seeded};
ghost use Rattle.closure.specs.Search.{closure_of};

use crate::spread::{FIRST_VALUE, Found, Readers};
use model::{Config, HARDCODED_KIND, OBJECT_SLOTS, TRANSFER_KIND, VALUE_SLOTS};
use scene::{area, rules, words};
use state::area::Area;

// The device whose hardcoded descriptor o is, if it is active.
fn owner_of(config: &Config, area: &Area, o: usize) -> u64
    requires owners_ok { OwnersOk config.now }
    requires area_ok { AreaOk config.now area.now.room (shown area.now) }
    requires object { In config.now.counts.objects o }
    ensures { OwnWord config.now (shown area.now) o result }
{
    let c = usize::from(config.objects.owner[o]);
    if c < 1 || (config.counts.devices as usize) < c {
        return 0;
    }
    if rules::is_hardcoded_of(&config.objects, area, c, o) {
        words::power(c - 1)
    } else {
        0
    }
}

// The value that descriptor o holds, if it is active.
fn value_of(config: &Config, area: &Area, o: usize) -> u64
    requires area_ok { AreaOk config.now area.now.room (shown area.now) }
    requires object { In config.now.counts.objects o }
    requires holds { holds_value (get_or config.now.objects.kind o 0) ≡ true }
    ensures { ValueWord config.now (shown area.now) o result }
{
    if area::object_in(area, o) == 0 {
        return 0;
    }
    words::power(usize::from(area::held_by(area, o)) + FIRST_VALUE)
}

// The word of o before any step: its device, and the value that it holds if it is active. Only a hardcoded descriptor
// has a device.
fn first(config: &Config, area: &Area, o: usize) -> u64
    requires owners_ok { OwnersOk config.now }
    requires area_ok { AreaOk config.now area.now.room (shown area.now) }
    requires object { In config.now.counts.objects o }
    ensures { FirstWord (closure_of config.now (shown area.now)) o result }
{
    match config.objects.kind[o] {
        TRANSFER_KIND => value_of(config, area, o),
        HARDCODED_KIND => owner_of(config, area, o) | value_of(config, area, o),
        _ => 0,
    }
}

impl Found {
    // The words of all descriptors before any step.
    pub fn begin(config: &Config, area: &Area) -> Found
        requires owners_ok { OwnersOk config.now }
        requires area_ok { AreaOk config.now area.now.room (shown area.now) }
        ensures { Seeded (closure_of config.now (shown area.now)) result }
    {
        let mut found = Found {
            known: [0u64; OBJECT_SLOTS],
            readers: Readers {
                of: [0u64; VALUE_SLOTS],
                todo: 0,
            },
        };
        for o in 1..config.counts.objects as usize + 1 {
            let x = first(config, area, o);
            found.known[o] = x;
            found.readers.seed(x);
        }
        found
    }
}
