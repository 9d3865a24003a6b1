// Green zones (document 02, N5): the rule of what is stored there, question 22, and the stricter question 20. Nothing
// here searches.

#![tactic(auto)]

pub mod rule;
pub mod staying;
