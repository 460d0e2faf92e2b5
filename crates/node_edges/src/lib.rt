//! The edges of a network: what a node gives out, until its reader needs it no more.
#![tactic(auto)]

mod edges;
mod far;
mod part;
mod queue;

pub use edges::Edges;
pub use part::Part;
