//! Whole shifts: a list of calls over a new translator, with the law that holds of every one.
#![tactic(auto)]

pub mod call;
pub mod shift;
