//! Signals negated, and the least and the greatest of two, at each time.
#![tactic(auto)]

mod negation;
mod pointwise;

pub use negation::neg;
pub use pointwise::{lower, upper};
