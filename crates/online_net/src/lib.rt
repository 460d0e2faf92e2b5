//! The streaming network: the operators of a formula over the rows of a trace, in any order of its steps.
#![tactic(auto)]

mod atom;
mod net;
mod stretch;

pub use atom::span_after;
pub use net::{Net, NetFault};
