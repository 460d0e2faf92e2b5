//! Why no more is taken of an input of several sessions.

/// What is wrong with a line of the input.
#[derive(Clone, Copy)]
pub enum LineKind {
    /// It is line 8,589,934,593.
    TooManyLines,
    /// It has more than 4,113 bytes.
    TooLong,
    /// It is not blank, and has no tag.
    BadTag,
    /// Its tag is a new one, and there are 1,024.
    TooManySessions,
}

/// The first fault of an input of several sessions, and the line that has it.
#[derive(Clone, Copy)]
pub struct FaultAt {
    pub line: u64,
    pub kind: LineKind,
}

/// Why no more is taken of an input.
#[derive(Clone, Copy)]
pub enum InputStop {
    /// The bytes that were handed over have this fault.
    Fault(FaultAt),
    /// There was too little memory.
    NoMemory,
}
