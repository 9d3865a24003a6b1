// The file of a configuration whose fields are in range, put down in an area that is lent, as far as there is room.
// Each function answers the place after what it put down, whether or not there was room.
ghost use Rattle.std.specs.Prelude.{◌≡◌, true, ℕ, ◌+◌, ◌*◌, ◌≤◌, get_or};
ghost use Rattle.model.specs.Number.{most_number, most_bytes, bytes_of};
ghost use Rattle.model.specs.Config.{most_devices, most_objects, most_values, most_entries};
ghost use Rattle.model.specs.Config.{most_edition, serial_edition, most_serial};
ghost use Rattle.model.specs.ConfigFile.{counts_row};
ghost use Rattle.model.specs.ConfigWrite.{counts_numbers, rows_from, row_bytes};
ghost use Rattle.model.specs.ConfigWrite.{in_ranges, file_of};
ghost use Rattle.page.specs.Page.{Placed};
ghost use Rattle.writer.specs.Bytes.{any_value_bytes, any_file_bytes};
ghost use Rattle.writer.specs.Bytes.{three, with_serial, object_bytes, device_bytes, value_bytes};

use model::{Config, Counts, Devices, Objects, SERIAL_EDITION, Values, entry_place};
use varint::encode;

// A number of one byte in memory.
#[tactic(auto, using(model::proofs::FileLength::bytes_most))]
fn put_number(out: &mut [u8], at: usize, b: u8) -> usize
    requires { at ≤ most_number }
    ensures placed { Placed (bytes_of b) at out.old result out.new }
    ensures upper_bound { result ≤ at + most_bytes }
{
    encode(out, at, b as usize)
}

// Three numbers, one after the other.
fn put_three(out: &mut [u8], at: usize, a: u8, b: u8, c: u8) -> usize
    requires { at + any_file_bytes ≤ most_number }
    ensures placed { Placed (three a b c) at out.old result out.new }
    ensures upper_bound { result ≤ at + 3 * most_bytes }
{
    let p = put_number(out, at, a);
    let q = put_number(out, p, b);
    put_number(out, q, c)
}

// Edition and counts, at the start.
fn put_counts(out: &mut [u8], counts: Counts) -> usize
    requires { counts.edition ≤ most_edition }
    ensures placed { Placed (row_bytes counts_row (counts_numbers counts)) 0 out.old result out.new }
    ensures upper_bound { result ≤ 5 * most_bytes }
{
    let p = put_three(out, 0, counts.edition as u8, counts.drivers, counts.devices);
    let q = put_number(out, p, counts.objects);
    put_number(out, q, counts.values)
}

// Kind, class and owner of the objects 1 to n.
fn put_objects(out: &mut [u8], at: usize, n: u8, objects: &Objects) -> usize
    requires n_le_most_objects { n ≤ most_objects }
    requires at_le_any_file_bytes { at ≤ any_file_bytes }
    ensures placed { Placed (rows_from (object_bytes objects.now) n 0) at out.old result out.new }
    ensures upper_bound { result ≤ at + 3 * most_bytes * n }
{
    let mut p = at;
    for o in 1..n as usize + 1 {
        p = put_three(out, p, objects.kind[o], objects.class[o], objects.owner[o]);
    }
    p
}

// A device: its hardcoded value number and, in an edition that has serials, its serial.
fn put_device(out: &mut [u8], at: usize, edition: u32, hardcoded: u8, serial: u32) -> usize
    requires any_file_bytes_bound { at + any_file_bytes ≤ most_number }
    requires serial_le_most_serial { serial_edition ≤ edition → serial ≤ most_serial }
    ensures placed { Placed (with_serial edition hardcoded serial) at out.old result out.new }
    ensures upper_bound { result ≤ at + 2 * most_bytes }
{
    let p = put_number(out, at, hardcoded);
    if edition < SERIAL_EDITION {
        return p;
    }
    encode(out, p, serial as usize)
}

// The devices 1 to n.
fn put_devices(out: &mut [u8], at: usize, edition: u32, n: u8, devices: &Devices) -> usize
    requires n_le_most_devices { n ≤ most_devices }
    requires by_index { (c : ℕ) → 1 ≤ c → c ≤ n → serial_edition ≤ edition
        → get_or devices.now.serial c 0 ≤ most_serial }
    requires at_le_any_file_bytes { at ≤ any_file_bytes }
    ensures placed { Placed (rows_from (device_bytes edition devices.now) n 0) at out.old result out.new }
    ensures upper_bound { result ≤ at + 2 * most_bytes * n }
{
    let mut p = at;
    for c in 1..n as usize + 1 {
        p = put_device(out, p, edition, devices.hardcoded[c], devices.serial[c]);
    }
    p
}

// Value v: its entry count, and then its entries.
fn put_value(out: &mut [u8], at: usize, v: u8, values: &Values) -> usize
    requires places { (v ≤ most_values) × (get_or values.now.count v 0 ≤ most_entries) }
    requires any_file_bytes_bound { at + 3 * any_file_bytes ≤ most_number }
    ensures placed { Placed (value_bytes values.now v) at out.old result out.new }
    ensures upper_bound { result ≤ at + any_value_bytes }
{
    let entries = &values.entries;
    let n = values.count[v as usize];
    let mut p = put_number(out, at, n);
    for j in 1..n + 1 {
        let e = entry_place(v, j);
        p = put_three(out, p, entries[e], entries[e + 1], entries[e + 2]);
    }
    p
}

// The values 1 to n.
fn put_values(out: &mut [u8], at: usize, n: u8, values: &Values) -> usize
    requires n_le_most_values { n ≤ most_values }
    requires by_index { (v : ℕ) → 1 ≤ v → v ≤ n → get_or values.now.count v 0 ≤ most_entries }
    requires at_le_any_file_bytes { at ≤ any_file_bytes }
    ensures { Placed (rows_from (value_bytes values.now) n 0) at out.old result out.new }
{
    let mut p = at;
    for v in 1..n + 1 {
        p = put_value(out, p, v, values);
    }
    p
}

// The whole file, from the start of the area.
#[tactic(auto, using(crate::proofs::Putting::few_laws))]
pub(crate) fn put_file(out: &mut [u8], config: &Config) -> usize
    requires { in_ranges config.now ≡ true }
    ensures { Placed (file_of config.now) 0 out.old result out.new }
{
    let counts = config.counts;
    let a = put_counts(out, counts);
    let b = put_objects(out, a, counts.objects, &config.objects);
    let c = put_devices(out, b, counts.edition, counts.devices, &config.devices);
    put_values(out, c, counts.values, &config.values)
}
