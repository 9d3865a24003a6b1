// What is found of the closure so far, and devices that come to read values.
ghost use Rattle.std.specs.Prelude.{◌≡◌, ◌+◌, ◌%◌, ◌^◌, ◌≤◌};
ghost use Rattle.model.specs.Config.{most_devices, most_objects, most_values};
ghost use Rattle.scene.specs.Digits.{bit};
ghost use Rattle.closure.specs.Words.{Low, Gave, Grew, Added};

use model::{MOST_DEVICES, OBJECT_SLOTS, VALUE_SLOTS};
use scene::words;

// The digit of value 0 in a word of `known`.
pub const FIRST_VALUE: usize = MOST_DEVICES as usize;

// One more than the largest word of devices.
pub const DEVICE_WORDS: u64 = 1 << MOST_DEVICES;

// Who reads the values. Digit c - 1 of the word of value v: device c reads a pair with v. And the values with something
// to do. Digit v: a device in the word of v may be new there.
#[derive(Drop)]
pub struct Readers {
    pub of: [u64; VALUE_SLOTS],
    pub todo: u64,
}

// What is known of each descriptor, and who reads the values. Digit c - 1 of the word of descriptor o: device c reads
// o; digit v + 16: the pair of o with value v is collected.
#[derive(Drop)]
pub struct Found {
    pub known: [u64; OBJECT_SLOTS],
    pub readers: Readers,
}

impl Readers {
    // The devices of r read a pair with value v.
    pub fn give(&mut self, v: usize, r: u64)
        requires { v ≤ most_values }
        ensures { Gave (λ u. u ≡ v) r self.old self.new }
    {
        let old = self.of[v];
        let new = old | r;
        if new == old {
            return;
        }
        self.of[v] = new;
        self.todo |= words::power(v);
    }

    // The devices of r read the pairs with all values of the word x. A loop over the digits that are set.
    pub fn spread(&mut self, x: u64, r: u64)
        ensures { Gave (λ u. bit x (u + most_devices) ≡ 1) r self.old self.new }
    {
        let mut q = x / DEVICE_WORDS;
        while q != 0 {
            let v = words::lowest(q);
            self.give(v, r);
            q = words::clear(q, v);
        }
    }

    // The devices of x, the word of a descriptor, read its values.
    pub fn seed(&mut self, x: u64)
        ensures { Gave (λ u. bit x (u + most_devices) ≡ 1) (x % 2 ^ most_devices) self.old self.new }
    {
        let r = x % DEVICE_WORDS;
        if r == 0 {
            return;
        }
        self.spread(x, r);
    }
}

impl Found {
    // If `reading`, the devices of r read descriptor o.
    pub fn admit(&mut self, o: usize, r: u64, reading: bool)
        requires object { o ≤ most_objects }
        requires low { Low r }
        ensures grew { Grew self.old self.new }
        ensures added { Added reading o r self.old.known self.new.known }
    {
        if !reading {
            return;
        }
        let x = self.known[o];
        let y = x | r;
        if y == x {
            return;
        }
        self.known[o] = y;
        self.readers.spread(x, r);
    }

    // If `writing`, the pair of descriptor o with value w is collected.
    pub fn collect(&mut self, o: usize, w: usize, writing: bool)
        requires object { o ≤ most_objects }
        requires value { w ≤ most_values }
        ensures grew { Grew self.old self.new }
        ensures added { Added writing o (2 ^ (w + most_devices)) self.old.known self.new.known }
    {
        if !writing {
            return;
        }
        let x = self.known[o];
        let y = x | words::power(w + FIRST_VALUE);
        if y == x {
            return;
        }
        self.known[o] = y;
        self.readers.give(w, x % DEVICE_WORDS);
    }
}
