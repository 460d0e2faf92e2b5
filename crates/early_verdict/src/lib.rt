//! Early verdicts: the truth at the start of a trace, told at the first row that settles it, whatever follows.
//!
//! `Early` keeps two sets of times for each node of a formula: those at which it is certainly true, and those at which it is certainly
//! false. Each set grows by what its inputs gained at a row, and lets go of the times that no later answer looks at. No row is kept but
//! the last, behind which rows are read by blocks.
#![tactic(auto)]

mod anew;
mod atoms;
mod block_row;
mod connectives;
mod early;
mod entries;
mod entry;
mod letting;
mod looks;
mod making;
mod net;
mod operators;
mod progress;
mod runs;
mod sets;
mod tops;

pub use early::{Decided, Early, EarlyFault, Taken};
