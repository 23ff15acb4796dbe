//! Questions that any machine end answers.
#![tactic(auto)]

pub mod question;
