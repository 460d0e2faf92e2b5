//! The answers of `robust` and `table` over a whole trace: it is read from its source, and the signal of its formula is told.
#![tactic(auto)]

mod answer;
mod from_source;
mod no_answer;
mod robust;
mod signals;
mod table;

pub use answer::{Answer, truth_of};
pub use from_source::read_trace;
pub use no_answer::NoAnswer;
pub use robust::{margins_of, measure};
pub use table::tabulate;
