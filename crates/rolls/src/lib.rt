//! Rolls: the caller's row of places with a count, for every kind of record.
#![tactic(auto)]

pub mod record;
pub mod roll;
