//! The lines of a text, each with its number and its first byte's place.
#![tactic(auto)]

pub mod parting;
pub mod reader;
