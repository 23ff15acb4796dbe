//! The typed block: what the words of a block say together, or the first of its faults.
#![tactic(auto)]

pub mod block;
pub mod gathered;
pub mod measures;
pub mod order;
pub mod rules;
pub mod slots;
pub mod theorems;
pub mod types;
