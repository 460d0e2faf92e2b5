//! A workload that is the same on each machine: a trace that is made from a number, and a formula for it.
#![tactic(auto)]

mod generator;
mod judged;
pub mod laws;

pub use generator::gen_trace;
pub use judged::judged_formula;
