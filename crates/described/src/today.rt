// Question 18: the values that one device reads with today's values, and what their entries offer. Each active
// descriptor has the one value that it holds, and write entries do not count, so a word of values is all that there is
// to find; what an entry offers is put down as it is passed.
ghost use Rattle.std.specs.Prelude.{◌≡◌, ◌≤◌, length, get_or};
ghost use Rattle.model.specs.Config.{most_devices, entry_at};
ghost use Rattle.model.specs.declared.Devices.{Devices};
ghost use Rattle.state.specs.Shown.{shown};
ghost use Rattle.scene.specs.Rules.{holds_value};
ghost use Rattle.scene.specs.Scene.{In, ValuesOk, AreaOk, EntryOk, Searchable, object_slots};
ghost use Rattle.scene.specs.Devices.{with_devices};
ghost use Rattle.described.specs.Today.{today, HeldWord, OwnedWord, OwnedWords, OpenedWord, OpenedWords};
ghost use Rattle.described.specs.Offers.{NotedAll, Offered};

use crate::offers;
use model::{Config, ENTRY_BYTES, HARDCODED_KIND, OBJECT_SLOTS, TRANSFER_KIND};
use scene::rules::ENTRY_ROOM;
use scene::{area, rules, words};
use state::area::Area;

// An object of this kind is a descriptor.
fn is_descriptor(kind: u8) -> bool
    ensures { result ≡ holds_value kind }
{
    matches!(kind, TRANSFER_KIND | HARDCODED_KIND)
}

// The value that object o holds if it is an active descriptor, as a word.
fn held_word(config: &Config, area: &Area, o: usize) -> u64
    requires area_ok { AreaOk config.now area.now.room (shown area.now) }
    requires object { In config.now.counts.objects o }
    ensures { HeldWord config.now.objects.kind (shown area.now) o result }
{
    if !is_descriptor(config.objects.kind[o]) {
        return 0;
    }
    if area::object_in(area, o) == 0 {
        return 0;
    }
    words::power(usize::from(area::held_by(area, o)))
}

// The value of object o, if it is the active device's hardcoded descriptor and active itself.
fn owned_word(config: &Config, area: &Area, device: usize, o: usize) -> u64
    requires area_ok { AreaOk config.now area.now.room (shown area.now) }
    requires device { In most_devices device }
    requires object { In config.now.counts.objects o }
    ensures { OwnedWord config.now.objects.kind config.now.objects.class config.now.objects.owner
        (shown area.now) device o result }
{
    if config.objects.kind[o] != HARDCODED_KIND {
        return 0;
    }
    if !rules::is_hardcoded_of(&config.objects, area, device, o) {
        return 0;
    }
    held_word(config, area, o)
}

// The values of the device's hardcoded descriptor.
fn owned_values(config: &Config, area: &Area, device: usize) -> u64
    requires area_ok { AreaOk config.now area.now.room (shown area.now) }
    requires device { In most_devices device }
    ensures { OwnedWords config.now.counts.objects config.now.objects.kind config.now.objects.class
        config.now.objects.owner (shown area.now) device result }
{
    let last = usize::from(config.counts.objects);
    let mut x = 0;
    for o in 1..last + 1 {
        x |= owned_word(config, area, device, o);
    }
    x
}

// The value of the descriptor that the entry at a place reads, if it is active.
fn opened_word(config: &Config, area: &Area, at: usize) -> u64
    requires area_ok { AreaOk config.now area.now.room (shown area.now) }
    requires entry_ok { EntryOk config.now.values.entries at }
    requires object { In config.now.counts.objects (get_or config.now.values.entries at 0) }
    ensures { OpenedWord config.now.objects.kind (shown area.now) (entry_at config.now.values.entries at) result }
{
    let entries = &config.values.entries;
    if !rules::is_reading(entries[at + 1]) {
        return 0;
    }
    held_word(config, area, usize::from(entries[at]))
}

// The values of the descriptors that the entries of value v read; what these offer is put down.
fn opened_values(config: &Config, area: &Area, table: &mut [u64; OBJECT_SLOTS], v: usize) -> u64
    requires values_ok { ValuesOk config.now }
    requires area_ok { AreaOk config.now area.now.room (shown area.now) }
    requires v_le_values { v ≤ config.now.counts.values }
    ensures opened_words { OpenedWords config.now.objects.kind config.now.values.count config.now.values.entries
        (shown area.now) v result }
    ensures noted_all { NotedAll config.now.values.count config.now.values.entries v table.old table.new }
{
    let end = usize::from(config.values.count[v]);
    let mut x = 0;
    for j in 1..end + 1 {
        let at = ENTRY_BYTES * (ENTRY_ROOM * v + j);
        offers::note(&config.values.entries, table, at);
        x |= opened_word(config, area, at);
    }
    x
}

// What the entries of the values that the device reads with today's values offer, a word for each object. A value is
// followed once; those that it opens join the ones that are still to be followed, so the loop is over no range. The
// table is right whatever the devices' hardcoded values and serials are.
pub fn offered(config: &Config, area: &Area, device: usize) -> [u64; OBJECT_SLOTS]
    requires { Searchable config.now area.now.room (shown area.now) }
    ensures offered { Offered (today config.now (shown area.now)) device result }
    ensures offered_any { (d : Devices) → Offered (today (with_devices d config.now) (shown area.now)) device result }
{
    let mut t = [0u64; OBJECT_SLOTS];
    if device == 0 || usize::from(config.counts.devices) < device {
        return t;
    }
    let mut seen = owned_values(config, area, device);
    let mut todo = seen;
    while todo != 0 {
        let v = words::lowest(todo);
        let new = words::without(opened_values(config, area, &mut t, v), seen);
        seen |= new;
        todo = words::clear(todo, v) | new;
    }
    t
}
