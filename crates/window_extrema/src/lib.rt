//! The greatest item of a range that moves on, in two comparisons an item over all ranges.
//!
//! Source: Lemire's streaming maximum by a monotonic wedge, 2006.
#![tactic(auto)]

mod queue;
mod range;

pub use range::RangeMax;
