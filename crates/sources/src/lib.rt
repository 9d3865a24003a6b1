// Calls on what was loaded, whatever loaded it (request N8): the definitions of `model` that speak of a file, stated of
// a source, and the theorems about them; the definitions of specs/ and the theorems of proofs/ are what this crate is
// for.

#![tactic(auto)]

pub fn nothing() {}
