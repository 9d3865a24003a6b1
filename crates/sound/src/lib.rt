// Questions 5 and 6 of a configuration.

#![tactic(auto)]

ghost use Rattle.std.specs.Prelude.{◌≡◌, Bool, ℕ, not, ◌||◌, suc, ◌+◌, ◌≤◌, eqb, length, get_or};
ghost use Rattle.model.specs.Config.{most_devices, most_objects, Entry, entry_at};
ghost use Rattle.model.specs.ConfigFile.{paired, own_entry, restrained};
ghost use Rattle.sound.specs.Columns.{Within};
ghost use Rattle.sound.specs.Sound.{far_place, every_to, noted, one_in, value_passes, device_restrained};

use model::{
    Config, DEVICE_CLASS, DEVICE_SLOTS, ENTRY_BYTES, HARDCODED_KIND, Values, byte_at, entry_place,
};

// An object of kind 4 is a device's, and is counted to that device; other objects pass.
#[tactic(auto, using(crate::proofs::Questions::note_laws))]
fn note(owned: &mut [u8; DEVICE_SLOTS], kind: u8, class: u8, owner: u8) -> bool
    requires owned_len { length owned.old ≡ suc most_devices }
    requires owner_bound { get_or owned.old owner 0 ≤ most_objects }
    ensures value { result ≡ (not (eqb kind 4) || eqb class 2) }
    ensures owned_after { owned.new ≡ noted owned.old kind class owner }
{
    if kind != HARDCODED_KIND {
        return true;
    }
    if class != DEVICE_CLASS {
        return false;
    }
    let i = owner as usize;
    if i < DEVICE_SLOTS {
        owned[i] += 1;
    }
    true
}

// Each of the devices 1 to n has exactly one.
fn each_has_one(owned: &[u8; DEVICE_SLOTS], n: u8) -> bool
    requires { n ≤ most_devices }
    ensures { result ≡ every_to n (one_in owned.now) }
{
    (1..n as usize + 1).all(|c| owned[c] == 1)
}

// Question 5, in one pass over the objects. It is always inlined: as a function of its own it would call nothing, and
// so might keep its table below the stack pointer, where an interrupt handler may write.
#[inline(always)]
pub fn is_paired(config: &Config) -> bool
    requires { Within config.now.counts }
    ensures { result ≡ paired config.now }
{
    let objects = &config.objects;
    let mut owned = [0u8; DEVICE_SLOTS];
    for o in 1..config.counts.objects as usize + 1 {
        if !note(
            &mut owned,
            objects.kind[o],
            objects.class[o],
            objects.owner[o],
        ) {
            return false;
        }
    }
    each_has_one(&owned, config.counts.devices)
}

// Each entry of value v passes, by its place in the table of entries. Value 0 has none.
pub fn entries_all<F: Fn(usize) -> bool>(values: &Values, v: u8, passes: F) -> bool
    requires { (at : ℕ) → at ≤ far_place → F.pre passes at }
    ensures { (p : Entry → Bool)
        → ((at : ℕ) (r : Bool) → at ≤ far_place → F.post passes at r → r ≡ p (entry_at values.now.entries at))
        → result ≡ value_passes p values.now.count values.now.entries v }
{
    if v == 0 {
        return true;
    }
    let k = byte_at(&values.count, v as usize) as usize;
    let from = entry_place(v, 1);
    for i in 0..k {
        if !passes(from + ENTRY_BYTES * i) {
            return false;
        }
    }
    true
}

// The hardcoded value of a device may have the entry at a place of the table: it names an object of the device's own
// that is not of kind 4.
fn is_own(config: &Config, device: usize, at: usize) -> bool
    requires within { Within config.now.counts }
    requires near { at ≤ far_place }
    ensures { result ≡ own_entry config.now device (entry_at config.now.values.entries at) }
{
    let objects = &config.objects;
    let o = byte_at(&config.values.entries, at) as usize;
    1 <= o
        && o <= config.counts.objects as usize
        && objects.class[o] == DEVICE_CLASS
        && objects.owner[o] as usize == device
        && objects.kind[o] != HARDCODED_KIND
}

// The hardcoded value of a device has such entries only.
fn is_device_restrained(config: &Config, device: usize) -> bool
    requires within { Within config.now.counts }
    requires near { device ≤ most_devices }
    ensures { result ≡ device_restrained config.now device }
{
    let v = config.devices.hardcoded[device];
    entries_all(&config.values, v, |at| is_own(config, device, at))
}

// Question 6.
pub fn is_restrained(config: &Config) -> bool
    requires { Within config.now.counts }
    ensures { result ≡ restrained config.now }
{
    (1..config.counts.devices as usize + 1).all(|c| is_device_restrained(config, c))
}
