//! The programmable frame: steps, the chain of at most eight of them, the axes that they touch and those that turns join.
#![tactic(auto)]

pub mod chain;
pub mod joined;
pub mod plane;
pub mod step;
pub mod touched;
