//! What a block is reckoned with: modal functions, settable frames, what is in force, workpiece values, and the plan of a move.
#![tactic(auto)]

mod axes;
pub mod force;
pub mod modes;
pub mod places;
pub mod plan;
pub mod settable;
pub mod setup;
