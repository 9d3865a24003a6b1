// The last group of the file: the values with their entries.
ghost use Rattle.std.specs.Prelude.{◌≡◌, ◌≤◌};
ghost use Rattle.model.specs.Config.{most_values, most_entries, entry_place};
ghost use Rattle.model.specs.ConfigFile.{set_entry, entry, value, turns};
ghost use Rattle.sound.specs.Columns.{Within};
ghost use Rattle.config.specs.Readings.{progress};

use crate::fields::{ONE_BYTE, read_field, triples_end};
use crate::rows::{is_entry, stored_most};
use model::{Counts, MOST_ENTRIES, MOST_MODE, Objects, Question, Values, entry_place};

// Puts down entry j, from 1, of value v.
#[tactic(auto, unfolding(model::specs::ConfigFile::set_entry))]
fn put_entry(values: &mut Values, v: u8, j: u8, o: u8, mode: u8, stored: u8)
    requires { (v ≤ most_values) × (j ≤ most_entries) }
    ensures { values.new ≡ set_entry values.old (entry_place v j) o mode stored }
{
    let e = entry_place(v, j);
    values.entries[e] = o;
    values.entries[e + 1] = mode;
    values.entries[e + 2] = stored;
}

// Entry j, from 1, of value v, field by field: object, mode, stored value.
#[tactic(auto, using(crate::proofs::Readers::entry_laws), unfolding(model::specs::ConfigFile::entry_to))]
fn entry_by_fields(
    s: &[u8],
    counts: Counts,
    objects: &Objects,
    v: u8,
    j: u8,
    at: usize,
    values: &mut Values,
) -> Result<usize, Question>
    requires places { (v ≤ most_values) × (j ≤ most_entries) }
    requires within { Within counts }
    ensures { progress result values.new ≡ entry s.now counts objects.now.kind v j at values.old }
{
    let (o, at) = read_field(s, at, 1, counts.objects)?;
    let (mode, at) = read_field(s, at, 1, MOST_MODE)?;
    let (stored, at) = read_field(s, at, 0, stored_most(counts, &objects.kind, o, mode))?;
    put_entry(values, v, j, o, mode, stored);
    Ok(at)
}

// Entry j of value v: as most have it, in three bytes; else field by field, which finds what is refused.
#[tactic(auto, using(crate::proofs::Ranged::entry_short))]
fn read_entry(
    s: &[u8],
    counts: Counts,
    objects: &Objects,
    v: u8,
    j: u8,
    at: usize,
    values: &mut Values,
) -> Result<usize, Question>
    requires places { (v ≤ most_values) × (j ≤ most_entries) }
    requires within { Within counts }
    ensures { progress result values.new ≡ entry s.now counts objects.now.kind v j at values.old }
{
    if at < triples_end(s) {
        let o = s[at];
        let mode = s[at + 1];
        let stored = s[at + 2];
        if o < ONE_BYTE && is_entry(counts, objects, o, mode, stored) {
            put_entry(values, v, j, o, mode, stored);
            return Ok(at + 3);
        }
    }
    entry_by_fields(s, counts, objects, v, j, at, values)
}

// Value v: the entry count, and the entries.
#[tactic(auto, using(crate::proofs::Readers::value_laws), unfolding(model::specs::ConfigFile::value_to))]
fn read_value(
    s: &[u8],
    counts: Counts,
    objects: &Objects,
    v: u8,
    from: usize,
    values: &mut Values,
) -> Result<usize, Question>
    requires v_le_most_values { v ≤ most_values }
    requires within { Within counts }
    ensures { progress result values.new ≡ value s.now counts objects.now.kind v from values.old }
{
    let (n, next) = read_field(s, from, 0, MOST_ENTRIES)?;
    values.count[v as usize] = n;
    let mut at = next;
    for j in 1..n + 1 {
        at = read_entry(s, counts, objects, v, j, at, values)?;
    }
    Ok(at)
}

// Values 1 to K.
#[tactic(auto, using(crate::proofs::Readers::turn_laws))]
pub(crate) fn read_values(
    s: &[u8],
    counts: Counts,
    objects: &Objects,
    from: usize,
    values: &mut Values,
) -> Result<usize, Question>
    requires { Within counts }
    ensures { progress result values.new
        ≡ turns (value s.now counts objects.now.kind) counts.values 0 from values.old }
{
    let mut at = from;
    for v in 1..counts.values + 1 {
        at = read_value(s, counts, objects, v, at, values)?;
    }
    Ok(at)
}
