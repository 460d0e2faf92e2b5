//! The truth of a formula over a recording as a set of times.
//!
//! The set of each atom grows as rows come, so that no row is kept. At the end the nodes are evaluated once, in post-order.
#![tactic(auto)]

mod atom;
mod growing;
mod nodes;

pub use growing::{Judged, TruthSets};
