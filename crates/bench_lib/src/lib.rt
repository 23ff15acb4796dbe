//! What bench/ measures: a text worked line by line over a scale end, linked into a Rust program.
#![tactic(auto)]

pub mod totals;
pub mod work;
