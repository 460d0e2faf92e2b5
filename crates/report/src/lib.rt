//! The texts of verdicts, margins, explanations and faults.
#![tactic(auto)]

mod block;
mod entry;
mod form;
mod items;
mod json;
pub mod laws;
mod listing;
mod margin_entry;
mod signal;
mod spelling;
mod table;
mod verdict_entry;

pub use answer_lines::{
    Detail, LastPart, Line, LineRoom, LinesLeft, MarginPart, TextAt, VerdictLines, put_decided,
    put_line, put_margin_line, put_margin_line_after, put_margins, put_start, put_trace_fault,
    put_unit_fault, put_unknown, put_verdict, trace_fault_line, unit_fault_line, unknown_line,
};
pub use items::put_items;
pub use json::put_json;
pub use listing::verdicts_of;
pub use signal::put_verdicts;
pub use table::put_table;
