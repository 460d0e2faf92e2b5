//! Several traces in one input, each line with the tag of its session: each session is told what it would be told alone.
#![tactic(auto)]

mod fault;
mod input;
mod known;
mod line;
mod mux;
mod near;
mod recent;
mod run;
mod saying;
mod session;
mod stop;
mod tag;
mod waiting;

pub use fault::MuxFault;
pub use input::Input;
pub use line::input_fault_line;
pub use mux::Mux;
pub use stop::{FaultAt, InputStop, LineKind};
