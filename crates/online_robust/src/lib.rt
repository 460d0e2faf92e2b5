//! Streamed margins: the parts of a margin over time, the edges between the nodes of a network, and its operators.
#![tactic(auto)]

mod edges;
mod line;
mod net;
mod operator;
mod pointwise;
mod put;
mod slide;
mod station;
mod streamed;
mod tail;

pub use line::MarginLine;
pub use net::{RobustFault, RobustNet};
pub use streamed::first_unstreamed;
