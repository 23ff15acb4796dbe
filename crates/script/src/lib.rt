//! The job script: one call a line, its words parted by single spaces.
#![tactic(auto)]

pub mod call;
pub mod line;
pub mod number;
pub mod words;
