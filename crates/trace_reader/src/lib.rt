//! The bytes of traces.
#![tactic(auto)]

mod content;
mod digits;
mod eight;
mod event;
mod field;
mod four;
mod header;
mod heading;
pub mod laws;
mod line;
mod line_reader;
mod name;
mod number;
mod plain;
mod refusal;
mod room;
mod row;
mod row_line;
mod rows;
mod trace;
mod two_rows;

pub use event::{Event, Took};
pub use header::Header;
pub use refusal::{Limits, TraceKind, TraceRefusal};
pub use row::Row;
pub use rows::Rows;
pub use trace::Trace;
