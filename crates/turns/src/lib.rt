//! Turn numbers: cosine and sine of an angle in whole 10^9ths.
#![tactic(auto)]

pub mod numbers;
mod octant;
