// Question 3 of the numbers of a row: each is in the range of its field.
ghost use Rattle.std.specs.Prelude.{◌≡◌, ◌≤◌, [], ◌∷◌, leb};
ghost use Rattle.model.specs.Config.{most_objects};
ghost use Rattle.model.specs.ConfigFile.{owner_least, owner_most, stored_most, counts_row, object_row, entry_row};
ghost use Rattle.model.specs.ConfigWrite.{counts_numbers, in_row};

use model::{
    Counts, DRIVER_CLASS, EXTERNAL_CLASS, MOST_CLASS, MOST_DEVICES, MOST_DRIVERS, MOST_EDITION,
    MOST_KIND, MOST_MODE, MOST_OBJECTS, MOST_VALUES, OBJECT_SLOTS, Objects, TRANSFER_KIND,
    WRITE_MODE,
};

// The edition and the counts.
#[tactic(auto, using(crate::proofs::Ranged::counts_same))]
pub fn is_counts(counts: Counts) -> bool
    ensures { result ≡ in_row counts_row (counts_numbers counts) }
{
    (1 <= counts.edition)
        & (counts.edition <= MOST_EDITION as u32)
        & (counts.drivers <= MOST_DRIVERS)
        & (counts.devices <= MOST_DEVICES)
        & (counts.objects <= MOST_OBJECTS)
        & (counts.values <= MOST_VALUES)
}

// The least number of an owner of a class, and the largest.
#[tactic(auto, unfolding(model::specs::ConfigFile::owner_least))]
pub(crate) fn owner_least(class: u8) -> u8
    ensures { result ≡ owner_least class }
{
    if class == EXTERNAL_CLASS { 0 } else { 1 }
}

#[tactic(auto, unfolding(model::specs::ConfigFile::owner_most))]
pub(crate) fn owner_most(counts: Counts, class: u8) -> u8
    ensures { result ≡ owner_most counts class }
{
    match class {
        EXTERNAL_CLASS => 0,
        DRIVER_CLASS => counts.drivers,
        _ => counts.devices,
    }
}

// An object's kind, class and owner.
#[tactic(auto, using(crate::proofs::Ranged::object_same))]
pub fn is_object(counts: Counts, kind: u8, class: u8, owner: u8) -> bool
    ensures { result ≡ in_row (object_row counts) (kind ∷ class ∷ owner ∷ []) }
{
    (1 <= kind)
        & (kind <= MOST_KIND)
        & (class <= MOST_CLASS)
        & (owner_least(class) <= owner)
        & (owner <= owner_most(counts, class))
}

// The largest stored value: 0 unless the object is of kind 1 and the mode is 2 or 3.
#[tactic(auto, unfolding(model::specs::ConfigFile::stored_most))]
pub(crate) fn stored_most(counts: Counts, kinds: &[u8; OBJECT_SLOTS], o: u8, mode: u8) -> u8
    requires { o ≤ most_objects }
    ensures { result ≡ stored_most counts kinds.now o mode }
{
    if (kinds[o as usize] == TRANSFER_KIND) & (WRITE_MODE <= mode) {
        counts.values
    } else {
        0
    }
}

// The stored value of an entry is in its range. Every range has 0, so that the kind is looked up for others only.
#[tactic(auto, using(crate::proofs::Ranged::least))]
pub fn may_store(counts: Counts, kinds: &[u8; OBJECT_SLOTS], o: u8, mode: u8, value: u8) -> bool
    requires { o ≤ most_objects }
    ensures { result ≡ leb value (stored_most counts kinds.now o mode) }
{
    value == 0 || value <= stored_most(counts, kinds, o, mode)
}

// An entry's object, mode and stored value.
#[tactic(auto, using(crate::proofs::Ranged::entry_tests))]
pub fn is_entry(counts: Counts, objects: &Objects, o: u8, mode: u8, value: u8) -> bool
    requires { counts.objects ≤ most_objects }
    ensures { result ≡ in_row (entry_row counts objects.now.kind) (o ∷ mode ∷ value ∷ []) }
{
    (1 <= o) & (o <= counts.objects) & (1 <= mode) & (mode <= MOST_MODE)
        && may_store(counts, &objects.kind, o, mode, value)
}
