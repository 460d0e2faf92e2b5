//! The commands agree with one another: what their texts tell of one formula and one trace, by what the definitions of the texts say.
#![tactic(auto)]

pub mod laws;
