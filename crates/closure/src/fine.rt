// Which devices may name an object: a word for each object.
ghost use Rattle.std.specs.Prelude.{◌≡◌, ℕ, ◌+◌, ◌≤◌};
ghost use Rattle.model.specs.Config.{most_devices};
ghost use Rattle.state.specs.Shown.{shown};
ghost use Rattle.scene.specs.Scene.{In, ValuesOk, AreaOk};
ghost use Rattle.scene.specs.Digits.{bit};
ghost use Rattle.scene.specs.Rules.{crossing, naming};
ghost use Rattle.closure.specs.Search.{Parts, FineWord, Fines};

use crate::spread::DEVICE_WORDS;
use model::{Config, HARDCODED_KIND, OBJECT_SLOTS};
use scene::{area, words};
use state::area::Area;

// How many numbers a byte, a partition, can be.
const BYTES: usize = 256;

// The word of all devices.
const ALL_DEVICES: u64 = DEVICE_WORDS - 1;

// The devices of each partition.
fn parts(config: &Config, area: &Area) -> [u64; BYTES]
    requires { config.now.counts.devices ≤ most_devices }
    ensures { Parts (shown area.now) (config.now.counts.devices + 1) result }
{
    let mut t = [0u64; BYTES];
    for c in 1..config.counts.devices as usize + 1 {
        let p = usize::from(area::device_in(area, c));
        t[p] |= words::power(c - 1);
    }
    t
}

// The devices whose entries for object o do not cross.
fn inside(config: &Config, area: &Area, parts: &[u64; BYTES], o: usize) -> u64
    requires area_ok { AreaOk config.now area.now.room (shown area.now) }
    requires object { In config.now.counts.objects o }
    requires parts { Parts (shown area.now) (config.now.counts.devices + 1) parts.now }
    ensures { FineWord (crossing config.now.objects.kind (shown area.now)) config.now.counts.devices o result }
{
    let p = usize::from(area::object_in(area, o));
    if config.objects.kind[o] == HARDCODED_KIND {
        0
    } else {
        parts[p]
    }
}

// Questions 19 and 21: for each object the devices whose entries for it do not cross.
pub fn all_inside(config: &Config, area: &Area) -> [u64; OBJECT_SLOTS]
    requires values_ok { ValuesOk config.now }
    requires area_ok { AreaOk config.now area.now.room (shown area.now) }
    ensures { Fines (crossing config.now.objects.kind (shown area.now)) config.now result }
{
    let t = parts(config, area);
    let mut f = [0u64; OBJECT_SLOTS];
    for o in 1..config.counts.objects as usize + 1 {
        f[o] = inside(config, area, &t, o);
    }
    f
}

// The device left out, 0 or one that does not exist being none.
fn left_out(but: usize) -> u64
    ensures by_index { (n : ℕ) → bit result n ≡ 1 → n + 1 ≡ but }
    ensures by_index_2 { (n : ℕ) → n + 1 ≡ but → n + 1 ≤ most_devices → bit result n ≡ 1 }
{
    match but {
        1..=64 => words::power(but - 1),
        _ => 0,
    }
}

// Question 20: for each object the devices that may name it, all of them if it is not concerned, and the one left out.
pub fn all_unconcerned(
    config: &Config,
    concerned: &[u8; OBJECT_SLOTS],
    but: usize,
) -> [u64; OBJECT_SLOTS]
    requires { ValuesOk config.now }
    ensures { Fines (naming concerned.now but) config.now result }
{
    let spared = left_out(but);
    let mut f = [0u64; OBJECT_SLOTS];
    for o in 1..config.counts.objects as usize + 1 {
        f[o] = if concerned[o] == 1 {
            spared
        } else {
            ALL_DEVICES
        };
    }
    f
}
