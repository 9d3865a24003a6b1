// The first groups of the file: edition and counts, objects. A reader answers the next place, or the question that ends
// the reading.
ghost use Rattle.std.specs.Prelude.{◌≡◌, ◌≤◌, IfOk};
ghost use Rattle.model.specs.Answers.{head_of};
ghost use Rattle.model.specs.Config.{most_objects};
ghost use Rattle.model.specs.ConfigFile.{counts_at, set_object, object, turns};
ghost use Rattle.sound.specs.Columns.{Within};
ghost use Rattle.config.specs.Readings.{progress};

use crate::fields::{ONE_BYTE, read_field, triples_end};
use crate::rows::{is_counts, is_object, owner_least, owner_most};
use model::{
    Counts, MOST_CLASS, MOST_DEVICES, MOST_DRIVERS, MOST_EDITION, MOST_KIND, MOST_OBJECTS,
    MOST_VALUES, Objects, Question,
};

// Edition, drivers, devices, objects, values, field by field.
#[tactic(auto, using(crate::proofs::Readers::row_laws), unfolding(model::specs::ConfigFile::counts_to))]
fn counts_by_fields(s: &[u8]) -> Result<(Counts, usize), Question>
    ensures { head_of result ≡ counts_at s.now }
{
    let (edition, at) = read_field(s, 0, 1, MOST_EDITION)?;
    let (drivers, at) = read_field(s, at, 0, MOST_DRIVERS)?;
    let (devices, at) = read_field(s, at, 0, MOST_DEVICES)?;
    let (objects, at) = read_field(s, at, 0, MOST_OBJECTS)?;
    let (values, at) = read_field(s, at, 0, MOST_VALUES)?;
    let counts = Counts {
        drivers,
        devices,
        objects,
        values,
        edition: edition as u32,
    };
    Ok((counts, at))
}

// Edition and counts: as most files have them, in five bytes; else field by field, which finds what is refused.
pub(crate) fn read_counts(s: &[u8]) -> Result<(Counts, usize), Question>
    ensures value { head_of result ≡ counts_at s.now }
    ensures within { IfOk result (λ p. Within p.0) }
{
    if let [edition, drivers, devices, objects, values, ..] = *s {
        let counts = Counts {
            drivers,
            devices,
            objects,
            values,
            edition: edition as u32,
        };
        if objects < ONE_BYTE && is_counts(counts) {
            return Ok((counts, 5));
        }
    }
    counts_by_fields(s)
}

// Puts down object o.
#[tactic(auto, unfolding(model::specs::ConfigFile::set_object))]
fn put_object(objects: &mut Objects, o: u8, kind: u8, class: u8, owner: u8)
    requires { o ≤ most_objects }
    ensures { objects.new ≡ set_object objects.old o kind class owner }
{
    let i = o as usize;
    objects.kind[i] = kind;
    objects.class[i] = class;
    objects.owner[i] = owner;
}

// Object o, field by field: kind, owner's class, owner's number.
#[tactic(auto, using(crate::proofs::Readers::row_laws), unfolding(model::specs::ConfigFile::object_to))]
fn object_by_fields(
    s: &[u8],
    counts: Counts,
    o: u8,
    at: usize,
    objects: &mut Objects,
) -> Result<usize, Question>
    requires { o ≤ most_objects }
    ensures { progress result objects.new ≡ object s.now counts o at objects.old }
{
    let (kind, at) = read_field(s, at, 1, MOST_KIND)?;
    let (class, at) = read_field(s, at, 0, MOST_CLASS)?;
    let (owner, at) = read_field(s, at, owner_least(class), owner_most(counts, class))?;
    put_object(objects, o, kind, class, owner);
    Ok(at)
}

// Object o: as most have it, in three bytes; else field by field, which finds what is refused.
#[tactic(auto, using(crate::proofs::Ranged::object_short))]
fn read_object(
    s: &[u8],
    counts: Counts,
    o: u8,
    at: usize,
    objects: &mut Objects,
) -> Result<usize, Question>
    requires o_le_most_objects { o ≤ most_objects }
    requires within { Within counts }
    ensures { progress result objects.new ≡ object s.now counts o at objects.old }
{
    if at < triples_end(s) {
        let kind = s[at];
        let class = s[at + 1];
        let owner = s[at + 2];
        if is_object(counts, kind, class, owner) {
            put_object(objects, o, kind, class, owner);
            return Ok(at + 3);
        }
    }
    object_by_fields(s, counts, o, at, objects)
}

// Objects 1 to N.
#[tactic(auto, using(crate::proofs::Readers::turn_laws))]
pub(crate) fn read_objects(
    s: &[u8],
    counts: Counts,
    from: usize,
    objects: &mut Objects,
) -> Result<usize, Question>
    requires { Within counts }
    ensures { progress result objects.new ≡ turns (object s.now counts) counts.objects 0 from objects.old }
{
    let mut at = from;
    for o in 1..counts.objects + 1 {
        at = read_object(s, counts, o, at, objects)?;
    }
    Ok(at)
}
