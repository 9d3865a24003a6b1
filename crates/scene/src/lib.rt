// What the searches behind questions 18 to 21 look at: the state area and the configuration's columns, by the
// rules of the closure (document 01: reach); and sets of numbers as words.

#![tactic(auto)]

pub mod area;
pub mod rules;
pub mod words;
