//! Machine ends: what takes the moves, with layers over it.
#![tactic(auto)]

pub mod area;
pub mod axes;
pub mod bounds;
mod coordinate;
pub mod count;
pub mod end;
pub mod increment;
pub mod joined;
pub mod motors;
pub mod position;
pub mod scale;
pub mod standing;
pub mod visit;
