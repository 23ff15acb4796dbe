//! Whole programmes: a text worked line by line, with what happened in the caller's rolls.
#![tactic(auto)]

pub mod records;
pub mod shift;
pub mod work;
