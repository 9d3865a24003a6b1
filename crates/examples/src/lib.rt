// Examples of what stands in `sources` and `continuity`, computed on their definitions: theorems of specs/ and proofs/,
// in a crate of their own, so that an edit of a definition is not charged for computing them. Document 01's examples
// stand in `model`. There is no code.

#![tactic(auto)]

pub fn nothing() {}
