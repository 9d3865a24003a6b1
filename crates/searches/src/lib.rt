// Questions 18 to 21: those that a search answers, over the configuration, the state area and the operation of a call;
// and the stricter 20 of green zones.

#![tactic(auto)]

pub mod leaving;
pub mod next;
pub mod transfers;
