// Question 18: what entries offer to the device that reads them, a word for each object.
// table[o]: digit w: an entry writes o, with the stored value w; digit READ_DIGIT: an entry reads o.
ghost use Rattle.std.specs.Prelude.{◌≡◌, true, ℕ, ◌≤◌, ◌<◌, length};
ghost use Rattle.model.specs.Config.{most_objects, entry_at, reads, writes};
ghost use Rattle.model.specs.State.{State};
ghost use Rattle.model.specs.declared.Config.{Config};
ghost use Rattle.scene.specs.Scene.{EntryOk, object_slots};
ghost use Rattle.described.specs.Today.{today, is_described};
ghost use Rattle.described.specs.Offers.{read_digit, Put, Noted, Offered};

use model::{Config, ENTRY_SLOTS, OBJECT_SLOTS, TRANSFER_KIND};
use scene::{rules, words};

// What is asked of an object: that it is read, or that a value is written to it.
#[derive(Clone, Copy)]
pub enum Transfer {
    Read,
    Write(usize),
}

// The digit of a read, above those of all values.
const READ_DIGIT: usize = 63;

// Digit k is put into the word of object o.
fn put(table: &mut [u64; OBJECT_SLOTS], o: usize, k: usize)
    requires o_le_most_objects { o ≤ most_objects }
    requires k_bound { k < 64 }
    ensures { Put true o k table.old table.new }
{
    table[o] |= words::power(k);
}

// If the entry at a place writes, the digit of its stored value.
fn note_write(entries: &[u8; ENTRY_SLOTS], table: &mut [u64; OBJECT_SLOTS], at: usize)
    requires { EntryOk entries.now at }
    ensures { Put (writes (entry_at entries.now at)) (entry_at entries.now at).object
        (entry_at entries.now at).value table.old table.new }
{
    if rules::is_writing(entries[at + 1]) {
        let w = usize::from(entries[at + 2]);
        put(table, usize::from(entries[at]), w);
    }
}

// If it reads, the digit of a read.
fn note_read(entries: &[u8; ENTRY_SLOTS], table: &mut [u64; OBJECT_SLOTS], at: usize)
    requires { EntryOk entries.now at }
    ensures { Put (reads (entry_at entries.now at)) (entry_at entries.now at).object read_digit
        table.old table.new }
{
    if rules::is_reading(entries[at + 1]) {
        put(table, usize::from(entries[at]), READ_DIGIT);
    }
}

// What the entry at a place offers is put down.
pub(crate) fn note(entries: &[u8; ENTRY_SLOTS], table: &mut [u64; OBJECT_SLOTS], at: usize)
    requires { EntryOk entries.now at }
    ensures { Noted (entry_at entries.now at) table.old table.new }
{
    note_write(entries, table, at);
    note_read(entries, table, at);
}

// A transfer is offered: a read of the object, or a write to it, of that value if it is of kind 1. If the table has
// what is offered to a device with today's values, this is question 18 of that device, by any configuration with these
// kinds.
pub fn is_described(
    config: &Config,
    table: &[u64; OBJECT_SLOTS],
    object: usize,
    transfer: Transfer,
) -> bool
    ensures { (m : Config) (b : State) (c : ℕ) → m.objects.kind ≡ config.now.objects.kind
        → Offered (today m b) c table.now → result ≡ is_described m b c object transfer }
{
    let Some(&offers) = table.get(object) else {
        return false;
    };
    match transfer {
        Transfer::Read => words::has(offers, READ_DIGIT),
        Transfer::Write(w) if config.objects.kind[object] == TRANSFER_KIND => {
            w < READ_DIGIT && words::has(offers, w)
        }
        Transfer::Write(_) => words::without(offers, words::power(READ_DIGIT)) != 0,
    }
}
