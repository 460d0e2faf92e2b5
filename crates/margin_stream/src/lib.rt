//! The margins of a formula as the rows of a trace come: a network of streamed robustness follows the rows.
#![tactic(auto)]

mod margins;

pub use margins::Margins;
