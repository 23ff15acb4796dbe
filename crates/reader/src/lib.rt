//! Reads the words of a block: each is a part of the caller's bytes, with its place.
#![tactic(auto)]

pub mod functions;
pub mod number;
pub mod reader;
pub mod theorems;
pub mod types;
pub mod word;
