//! What a reader came to.
/// What a reader came to.
#[derive(Clone, Copy, Debug, PartialEq, Eq)]
pub enum Event {
    /// Neither the header nor a row ended.
    Nothing,
    /// The header ended.
    Header,
    /// A row ended.
    Row,
}

/// How many bytes of a piece a reader took, and what it came to with the last of them.
#[derive(Clone, Copy, Debug, PartialEq, Eq)]
pub struct Took {
    pub bytes: usize,
    pub event: Event,
}
