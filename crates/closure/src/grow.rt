// What the entries of a value give to the devices that read it.
ghost use Rattle.std.specs.Prelude.{◌≡◌, ◌⊎◌, ℕ, ◌+◌, ◌≤◌, ◌<◌, get_or, IfOk, IfErr};
ghost use Rattle.model.specs.Config.{most_values, most_entries, entry_place, entry_at};
ghost use Rattle.model.specs.State.{State};
ghost use Rattle.scene.specs.Digits.{bit, Without};
ghost use Rattle.scene.specs.Scene.{ValuesOk, EntryOk};
ghost use Rattle.closure.specs.Words.{Low, Grew, Followed, Each, Sound, EntriesIn, slack};
ghost use Rattle.closure.specs.Search.{closure_of, NoStrange, StrangeIn, Going, Suspected};

use crate::spread::{DEVICE_WORDS, Found};
use model::{Config, ENTRY_BYTES, HARDCODED_KIND, OBJECT_SLOTS, TRANSFER_KIND, VALUE_SLOTS};
use scene::rules::ENTRY_ROOM;
use scene::{rules, words};

// Devices, some, that come to an entry of a value whose object they may not name.
#[derive(Clone, Copy)]
pub struct Strange {
    pub devices: u64,
    pub value: usize,
}

// Where entry j, from 1, of value v begins in the table of entries.
pub fn place_of(v: usize, j: usize) -> usize
    requires value { v ≤ most_values }
    requires entry { j ≤ most_entries }
    ensures { result ≡ entry_place v j }
{
    ENTRY_BYTES * (ENTRY_ROOM * v + j)
}

// The devices of r that may not name the object of the entry at a place; `fine` has the devices that may.
fn strange_at(config: &Config, fine: &[u64; OBJECT_SLOTS], r: u64, at: usize) -> u64
    requires { EntryOk config.now.values.entries at }
    ensures { Without r (get_or fine.now (get_or config.now.values.entries at 0) 0) result }
{
    words::without(r, fine[config.values.entries[at] as usize])
}

impl Found {
    // The entry at a place, read by the devices of r.
    fn apply_entry(&mut self, config: &Config, r: u64, at: usize)
        requires entry_ok { EntryOk config.now.values.entries at }
        requires low { Low r }
        ensures grew { Grew self.old self.new }
        ensures followed { Followed config.now.objects.kind (entry_at config.now.values.entries at) r self.old.known
            self.new.known }
    {
        let entries = &config.values.entries;
        let o = entries[at] as usize;
        let mode = entries[at + 1];
        match config.objects.kind[o] {
            TRANSFER_KIND => {
                self.admit(o, r, rules::is_reading(mode));
                self.collect(o, entries[at + 2] as usize, rules::is_writing(mode));
            }
            HARDCODED_KIND => self.admit(o, r, rules::is_reading(mode)),
            _ => {}
        }
    }

    // The entries of value v, which the devices of r come to read, up to one whose object some of them may not name:
    // the error.
    fn apply_entries(
        &mut self,
        config: &Config,
        fine: &[u64; OBJECT_SLOTS],
        r: u64,
        v: usize,
    ) -> Result<(), Strange>
        requires values_ok { ValuesOk config.now }
        requires value { v ≤ config.now.counts.values }
        requires low { Low r }
        requires some { r ≡ 0 → ⊥ }
        ensures grew { Grew self.old self.new }
        ensures sound { (b : State) → Each (closure_of config.now b) r v
            → Sound (closure_of config.now b) self.old.known → Sound (closure_of config.now b) self.new.known }
        ensures entries_in { IfOk result (λ u. (b : State) → EntriesIn (closure_of config.now b) self.new.known r v
            (get_or config.now.values.count v 0 + 1)) }
        ensures no_strange { IfOk result (λ u. NoStrange config.now fine.now r v
            (get_or config.now.values.count v 0 + 1)) }
        ensures strange { IfErr result (λ s. (s.devices ≡ 0 → ⊥) × (s.value ≡ v)) }
        ensures strange_in { IfErr result (λ s. StrangeIn config.now fine.now r v s.devices) }
    {
        for j in 1..config.values.count[v] as usize + 1 {
            let at = place_of(v, j);
            let devices = strange_at(config, fine, r, at);
            if devices != 0 {
                return Err(Strange { devices, value: v });
            }
            self.apply_entry(config, r, at);
        }
        Ok(())
    }

    // Value v, which has something to do: its entries for the devices that are new to it. Digit c - 1 of the word
    // done[v]: what the entries of value v give to device c is known, and it may name their objects.
    pub fn touch(
        &mut self,
        config: &Config,
        fine: &[u64; OBJECT_SLOTS],
        done: &mut [u64; VALUE_SLOTS],
        v: usize,
    ) -> Result<(), Strange>
        requires values_ok { ValuesOk config.now }
        requires value { v ≤ config.now.counts.values }
        requires todo { bit self.old.readers.todo v ≡ 1 }
        ensures going { IfOk result (λ u. (b : State) → Going (closure_of config.now b) fine.now self.old done.old
            → Going (closure_of config.now b) fine.now self.new done.new) }
        ensures less { IfOk result (λ u. (slack done.new < slack done.old)
            ⊎ ((done.new ≡ done.old) × (self.new.readers.todo < self.old.readers.todo))) }
        ensures strange { IfErr result (λ s. (s.devices ≡ 0 → ⊥) × (s.value ≡ v)) }
        ensures suspected { IfErr result (λ s. (b : State)
            → Going (closure_of config.now b) fine.now self.old done.old → (n : ℕ) → bit s.devices n ≡ 1
            → Suspected (closure_of config.now b) fine.now self.new.known n v) }
    {
        self.readers.todo = words::clear(self.readers.todo, v);
        let old = done[v];
        let r = words::without(self.readers.of[v], old) % DEVICE_WORDS;
        if r == 0 {
            return Ok(());
        }
        self.apply_entries(config, fine, r, v)?;
        done[v] = old | r;
        Ok(())
    }
}
