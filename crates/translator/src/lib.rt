//! The translator: blocks, offset entries, reset and readings, over any machine end.
#![tactic(auto)]

pub mod reply;
pub mod translator;
