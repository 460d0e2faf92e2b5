//! The words of a command line, and what a command writes: what the words ask for, the line on the error stream where there is no
//! answer, and a text to a sink.
#![tactic(auto)]

mod line;
mod output;
mod refusal;
mod request;
mod texts;

pub use line::say;
pub use output::{write_all, write_left};
pub use refusal::refuse;
pub use request::{Command, Mode, Task, Workload, asked, workload_of};
pub use texts::{
    no_form_line, no_memory_line, not_streamed_line, read_fault_line, too_many_cells_line,
    wide_line, write_fault_line,
};
