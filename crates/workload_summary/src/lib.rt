//! The answer of `gen`: the summary of a run on the generated trace, with how many lines of verdicts `check` and `watch` write for it.
#![tactic(auto)]

mod counts;
mod generation;
mod lines;
mod summary;

pub use generation::generate;
