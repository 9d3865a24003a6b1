// The search for an entry that names an object which its device may not name.
ghost use Rattle.std.specs.Prelude.{◌↔◌, ℕ, ◌≤◌, ◌<◌, get_or, IfNone, IfSome, IsTrue};
ghost use Rattle.model.specs.Config.{most_devices, most_values};
ghost use Rattle.scene.specs.Digits.{Has};
ghost use Rattle.scene.specs.Scene.{In, ValuesOk};
ghost use Rattle.closure.specs.Words.{PairIn};
ghost use Rattle.closure.specs.Search.{MayName, PairFine, IsStrange, Finds};

use crate::grow::{Strange, place_of};
use crate::spread::{FIRST_VALUE, Found};
use model::{Config, OBJECT_SLOTS};
use scene::words;

// An entry: its device, the descriptor that the device reads, the value that this holds, and the entry's number in the
// value, from 1.
#[derive(Clone, Copy)]
pub struct Finding {
    pub device: usize,
    pub descriptor: usize,
    pub value: usize,
    pub entry: usize,
}

// Device i + 1 may name the object of entry j of value v; `fine` has the devices that may.
fn may_name(config: &Config, fine: &[u64; OBJECT_SLOTS], i: usize, v: usize, j: usize) -> bool
    requires values_ok { ValuesOk config.now }
    requires device { i < most_devices }
    requires value { v ≤ config.now.counts.values }
    requires entry { In (get_or config.now.values.count v 0) j }
    ensures { IsTrue result ↔ MayName config.now fine.now i v j }
{
    words::has(fine[config.values.entries[place_of(v, j)] as usize], i)
}

// The first entry of value v whose object device i + 1 may not name; `fine` has the devices that may.
fn strange_entry(config: &Config, fine: &[u64; OBJECT_SLOTS], i: usize, v: usize) -> Option<usize>
    requires values_ok { ValuesOk config.now }
    requires device { i < most_devices }
    requires value { v ≤ config.now.counts.values }
    ensures none { IfNone result ((j : ℕ) → In (get_or config.now.values.count v 0) j
        → MayName config.now fine.now i v j) }
    ensures some { IfSome result (λ j. In (get_or config.now.values.count v 0) j
        × (MayName config.now fine.now i v j → ⊥)) }
{
    (1..config.values.count[v] as usize + 1).find(|j| !may_name(config, fine, i, v, *j))
}

impl Found {
    // The first descriptor that device i + 1 reads and whose pair with value v is collected.
    fn pair_of(&self, config: &Config, i: usize, v: usize) -> Option<usize>
        requires values_ok { ValuesOk config.now }
        requires device { i < most_devices }
        requires value { v ≤ most_values }
        ensures none { IfNone result ((o : ℕ) → In config.now.counts.objects o → Has self.now.known o i
            → PairIn self.now.known o v → ⊥) }
        ensures some { IfSome result (λ o. Has self.now.known o i × PairIn self.now.known o v) }
    {
        (1..config.counts.objects as usize + 1).find(|o| {
            let x = self.known[*o];
            words::has(x, i) && words::has(x, v + FIRST_VALUE)
        })
    }

    // An entry of value v, in a pair that device i + 1 reads, that names an object which the device may not name.
    fn finding(
        &self,
        config: &Config,
        fine: &[u64; OBJECT_SLOTS],
        i: usize,
        v: usize,
    ) -> Option<Finding>
        requires values_ok { ValuesOk config.now }
        requires device { i < config.now.counts.devices }
        requires value { v ≤ config.now.counts.values }
        ensures none { IfNone result ((o : ℕ) → In config.now.counts.objects o
            → PairFine config.now fine.now self.now.known i o v) }
        ensures some { IfSome result (λ e. IsStrange config.now fine.now self.now.known e.device e.descriptor e.value
            e.entry) }
    {
        let entry = strange_entry(config, fine, i, v)?;
        let descriptor = self.pair_of(config, i, v)?;
        Some(Finding {
            device: i + 1,
            descriptor,
            value: v,
            entry,
        })
    }

    // An entry of the value, in a pair that one of the devices reads, that names an object which the device may not
    // name.
    pub fn find(
        &self,
        config: &Config,
        fine: &[u64; OBJECT_SLOTS],
        strange: Strange,
    ) -> Option<Finding>
        requires values_ok { ValuesOk config.now }
        requires value { strange.value ≤ config.now.counts.values }
        ensures { Finds config.now fine.now self.now.known strange.devices strange.value result }
    {
        for i in 0..config.counts.devices as usize {
            if words::has(strange.devices, i) {
                if let Some(found) = self.finding(config, fine, i, strange.value) {
                    return Some(found);
                }
            }
        }
        None
    }
}
