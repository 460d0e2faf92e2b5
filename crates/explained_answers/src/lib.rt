//! The answers of `explain` and `json` over a whole trace: why a formula is false at the start, by the cells that are kept.
#![tactic(auto)]

mod explain;
mod json;

pub use explain::give_reasons;
pub use json::give_report;
