//! An end of one's own: a simulator that holds exactly what it was sent.
#![tactic(auto)]

pub mod simulator;
