//! Why a call was refused.

/// Why a line, or the end, of an input was refused.
#[derive(Clone, Copy, PartialEq)]
pub enum MuxFault {
    /// The line is not blank, and has no tag.
    BadTag,
    /// The line's tag is a new one, and there are 1,024 sessions.
    TooManySessions,
    /// An earlier call answered `Memory`.
    Stopped,
    /// The end came before.
    Ended,
    /// There was too little memory.
    Memory,
}
