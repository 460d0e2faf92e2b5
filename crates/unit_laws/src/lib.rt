//! The laws of units and of the origin: what the definitions say of a formula and a trace depends neither on the ticks in which they are
//! counted nor on the time at which the clock began.
#![tactic(auto)]

pub mod laws;
