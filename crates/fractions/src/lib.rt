//! Exact coordinates as fractions, and what it means that a whole number is told within a spread of one.
//! Definitions and lemmas alone: no code of the product computes with fractions.
#![tactic(auto)]
