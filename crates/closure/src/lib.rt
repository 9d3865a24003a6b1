// The transitive closure of descriptor writes (document 01: reach), behind questions 19 to 21: sets of devices and
// values as words, grown by the entries of values that devices come to read, and searched for an entry.

#![tactic(auto)]

pub mod answer;
mod begin;
mod fine;
mod grow;
pub mod search;
mod settle;
mod spread;
