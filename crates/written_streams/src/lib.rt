//! Streams of which the text is written as it is made: the call that writes it, and `Watch`, the verdicts of a formula.
#![tactic(auto)]

mod made;
mod watch;

pub use made::{Halt, write_made};
pub use watch::{Watch, WatchFault};
