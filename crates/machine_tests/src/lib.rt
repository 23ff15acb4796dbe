//! Examples for the machine ends.
#![tactic(auto)]

pub mod deep;
pub mod pile;
#[cfg(test)]
mod tests;
