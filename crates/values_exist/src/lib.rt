//! Each formula has values over each trace, by what the definitions say: for truth, certainty and margins.
#![tactic(auto)]

pub mod laws;
