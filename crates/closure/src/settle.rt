// Values with something to do, one after the other, until there is none; or until a device comes to an entry whose
// object it may not name.
ghost use Rattle.std.specs.Prelude.{◌≡◌, ℕ, ◌≤◌, IfOk, IfErr};
ghost use Rattle.model.specs.State.{State};
ghost use Rattle.scene.specs.Digits.{bit};
ghost use Rattle.scene.specs.Scene.{ValuesOk};
ghost use Rattle.closure.specs.Words.{Seeded};
ghost use Rattle.closure.specs.Search.{closure_of, Ended, Suspected};

use crate::grow::Strange;
use crate::spread::Found;
use model::{Config, OBJECT_SLOTS, VALUE_SLOTS};
use scene::words;

impl Found {
    // Values are taken in turn, from the last one on, and from 0 again where none is left above: a loop over digits
    // that come and go.
    pub fn settle(&mut self, config: &Config, fine: &[u64; OBJECT_SLOTS]) -> Result<(), Strange>
        requires { ValuesOk config.now }
        ensures ended { IfOk result (λ u. (b : State) → Seeded (closure_of config.now b) self.old
            → Ended (closure_of config.now b) fine.now self.new.known) }
        ensures strange { IfErr result (λ s. (s.devices ≡ 0 → ⊥) × (s.value ≤ config.now.counts.values)) }
        ensures suspected { IfErr result (λ s. (b : State) → Seeded (closure_of config.now b) self.old → (n : ℕ)
            → bit s.devices n ≡ 1 → Suspected (closure_of config.now b) fine.now self.new.known n s.value) }
    {
        let last = config.counts.values as usize;
        let mut done = [0u64; VALUE_SLOTS];
        let mut todo = self.readers.todo;
        let mut from = 0;
        loop {
            let v = words::next(todo, from);
            if v <= last {
                self.touch(config, fine, &mut done, v)?;
                todo = self.readers.todo;
                from = v;
            } else if from == 0 {
                return Ok(());
            } else {
                from = 0;
            }
        }
    }
}
