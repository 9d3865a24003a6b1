// Question 3 of every field of a configuration, in the order of the file. A column is looked at only behind a count
// that is in range.
ghost use Rattle.std.specs.Prelude.{◌≡◌, ◌≤◌};
ghost use Rattle.model.specs.Base.{all, every};
ghost use Rattle.model.specs.Config.{most_values, most_entries};
ghost use Rattle.model.specs.ConfigWrite.{object_rows, device_rows, entry_rows, value_rows, right_row, in_ranges};
ghost use Rattle.sound.specs.Columns.{Within};
ghost use Rattle.writer.specs.Tests.{serial_most};

use config::rows::{is_counts, is_entry, is_object};
use model::{Config, MOST_ENTRIES, MOST_SERIAL, SERIAL_EDITION, entry_place};

// Kind, class and owner of each object.
fn objects_right(config: &Config) -> bool
    requires { Within config.now.counts }
    ensures { result ≡ every config.now.counts.objects
        (λ o. all right_row (object_rows config.now.counts config.now.objects o)) }
{
    let objects = &config.objects;
    (1..config.counts.objects as usize + 1).all(|o| is_object(
        config.counts,
        objects.kind[o],
        objects.class[o],
        objects.owner[o],
    ))
}

// The largest serial of an edition; in one that has no serials, each is 0.
#[tactic(auto, unfolding(crate::specs::Tests::serial_most))]
fn most_serial(edition: u32) -> u32
    ensures { result ≡ serial_most edition }
{
    if edition < SERIAL_EDITION {
        0
    } else {
        MOST_SERIAL
    }
}

// The hardcoded value number of each device, and its serial.
fn devices_right(config: &Config) -> bool
    requires { Within config.now.counts }
    ensures { result ≡ every config.now.counts.devices
        (λ c. all right_row (device_rows config.now.counts config.now.devices c)) }
{
    let devices = &config.devices;
    let top = most_serial(config.counts.edition);
    (1..config.counts.devices as usize + 1).all(|c| {
        devices.hardcoded[c] <= config.counts.values && devices.serial[c] <= top
    })
}

// Entries 1 to n of value v.
fn entries_right(config: &Config, v: u8, n: u8) -> bool
    requires places { (v ≤ most_values) × (n ≤ most_entries) }
    requires within { Within config.now.counts }
    ensures { result ≡ every n
        (λ j. all right_row (entry_rows config.now.counts config.now.objects.kind config.now.values v j)) }
{
    let entries = &config.values.entries;
    (1..n + 1).all(|j| {
        let e = entry_place(v, j);
        is_entry(
            config.counts,
            &config.objects,
            entries[e],
            entries[e + 1],
            entries[e + 2],
        )
    })
}

// The entry count of value v, and then its entries.
#[tactic(auto, using(crate::proofs::Testing::value_tests))]
fn value_right(config: &Config, v: u8) -> bool
    requires v_le_most_values { v ≤ most_values }
    requires within { Within config.now.counts }
    ensures { result ≡ all right_row
        (value_rows config.now.counts config.now.objects.kind config.now.values v) }
{
    let n = config.values.count[v as usize];
    n <= MOST_ENTRIES && entries_right(config, v, n)
}

// Each value.
fn values_right(config: &Config) -> bool
    requires { Within config.now.counts }
    ensures { result ≡ every config.now.counts.values
        (λ v. all right_row (value_rows config.now.counts config.now.objects.kind config.now.values v)) }
{
    (1..config.counts.values + 1).all(|v| value_right(config, v))
}

// Every field.
#[tactic(auto, using(crate::proofs::Testing::counts_within), unfolding(model::specs::ConfigWrite::in_ranges))]
pub(crate) fn in_ranges(config: &Config) -> bool
    ensures { result ≡ in_ranges config.now }
{
    if !is_counts(config.counts) {
        return false;
    }
    objects_right(config) && devices_right(config) && values_right(config)
}
