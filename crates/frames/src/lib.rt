//! Pushing a point through the programmable frame and a settable offset, with a spread for each axis that is never too small.
#![tactic(auto)]

mod coordinate;
pub mod image;
pub mod push;
mod round;
mod step;
mod tested;
pub mod theorems;
mod turn;
