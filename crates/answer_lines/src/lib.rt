//! The lines that answers are made of: numbers, spans, verdicts and margins as they are written, and the lines of faults.
#![tactic(auto)]

mod after;
mod before;
mod early;
mod fault;
mod last_part;
mod line;
mod line_after;
mod line_room;
mod lines_left;
mod margin;
mod margin_lines;
mod number;
mod part;
mod time_text;
mod value_text;
mod verdict;
mod verdict_lines;
mod waiting;

pub use after::{add_byte, add_part};
pub use early::put_decided;
pub use fault::{
    put_trace_fault, put_unit_fault, put_unknown, trace_fault_line, unit_fault_line, unknown_line,
};
pub use last_part::LastPart;
pub use line::{Detail, Line, put_line};
pub use line_after::TextAt;
pub use line_room::LineRoom;
pub use lines_left::LinesLeft;
pub use margin::{put_margins, put_value};
pub use margin_lines::KnotTexts;
pub use number::put_time;
pub use part::{MarginPart, put_margin_line, put_margin_line_after};
pub use time_text::TimeText;
pub use value_text::ValueText;
pub use verdict::{put_span, put_start, put_verdict};
pub use verdict_lines::{VerdictLines, bracket};
