//! Laws of runs: that it does not matter how a request was asked for.
#![tactic(auto)]

pub mod laws;
