//! A trace that is read as its bytes come: with what is kept of its rows, as the rows themselves, or with what follows them and makes the
//! text of a stream.
//!
//! There is no device here: bytes are handed over in pieces, cut anywhere, and the text is taken by whoever writes it.
#![tactic(auto)]

mod case;
mod case_reader;
mod fault;
mod follow;
mod keep;
mod line;
mod live;

pub use case::Case;
pub use case_reader::CaseReader;
pub use fault::{StreamStop, TraceFault};
pub use follow::{Follow, FollowFault};
pub use keep::Keep;
pub use line::fault_line;
pub use live::Live;
