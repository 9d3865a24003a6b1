// Question 18: which transfers a device's entries describe, with today's values.

#![tactic(auto)]

pub mod offers;
pub mod today;
