//! The commands agree with one another on one input: what they answer to the same bytes with the same formula.
#![tactic(auto)]

pub mod laws;
