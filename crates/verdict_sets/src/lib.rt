//! The answer of `check` from sets of times: they grow as the rows of a trace come, and no row is held but the last. Its lines are made
//! while they are written.
#![tactic(auto)]

mod lines;
mod sets;

pub use lines::Told;
pub use sets::VerdictSets;
