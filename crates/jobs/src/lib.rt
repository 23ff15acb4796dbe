//! Whole job scripts: an answer to each line.
#![tactic(auto)]

pub mod answers;
pub mod check;
pub mod convert;
pub mod job;
pub mod pile;
pub mod programme;
pub mod report;
pub mod says;
pub mod script_lines;
pub mod streams;
pub mod worked;
