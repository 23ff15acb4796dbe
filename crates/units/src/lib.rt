//! What every layer speaks of: axes, planes, points, lengths, factors, angles, the one fault type, and the
//! division that rounds to the nearest whole number.
#![tactic(auto)]

pub mod axis;
pub mod division;
pub mod fault;
pub mod quantity;
