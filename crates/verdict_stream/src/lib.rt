//! The verdicts of a formula as the rows of a trace come: a network follows the rows, and its verdicts are cut where the answer of each
//! row ends.
#![tactic(auto)]

mod pending;
mod quiet;
mod verdicts;
mod watcher;

pub use verdicts::Verdicts;
