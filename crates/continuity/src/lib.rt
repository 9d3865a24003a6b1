// What was promised before a request of document 02 and what holds since then: the definitions of specs/ and the
// theorems of proofs/ are what this crate is for.

#![tactic(auto)]

pub fn nothing() {}
