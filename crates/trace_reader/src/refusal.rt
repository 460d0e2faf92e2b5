//! What is refused of a trace, and how many rows and lines one may have.
/// How many rows and lines a trace may have. Blank lines and the header count as lines.
#[derive(Clone, Copy, Debug, PartialEq, Eq)]
pub struct Limits {
    pub rows: u64,
    pub lines: u64,
}

/// What is wrong in a line of a trace. Fields are counted from 1, the time's field with them; a blank line is one of white space.
#[derive(Clone, Copy, Debug, PartialEq, Eq)]
pub enum TraceKind {
    /// All lines are blank: there is no header. The line is the last one that was begun.
    Empty,
    /// Up to its colon, the first field of the header is not `time`, or a later one is no name: a letter or `_`, then letters,
    /// digits, `_` and points, at most 64 bytes in all.
    BadName { field: u32 },
    /// A field of the header has the name of an earlier one, or is `time` again.
    SameName { field: u32 },
    /// The header has so many columns beside the time: more than 64.
    TooManyColumns { count: u32 },
    /// What follows the name of a field of the header is not a mode, `:step` or `:ramp`, then `:` and a digit from 0 to 6, each
    /// of them or not; for the time it may be the digit alone.
    BadMode { field: u32 },
    /// The line has more than 4096 bytes before its LF.
    LineTooLong,
    /// A field of a row is no decimal number, or has more decimals than its column says.
    BadNumber { field: u32 },
    /// A row has so many fields, and the header another number of them.
    WrongCount { got: u32 },
    /// The time of a row is not later than that of the row before it.
    TimeNotRising,
    /// In ticks, a time is not from 0 to 2^32 - 1, or a value not from -2^24 to 2^24.
    OutOfRange { field: u32 },
    /// The bytes end after the header, with no row. The line is the last one that was begun.
    NoRows,
    /// The line would be a row beyond `Limits::rows`.
    TooManyRows,
    /// The line is beyond `Limits::lines`.
    TooManyLines,
}

/// The first fault of a trace's bytes, and its line.
#[derive(Clone, Copy, Debug, PartialEq, Eq)]
pub struct TraceRefusal {
    pub line: u64,
    pub kind: TraceKind,
}
