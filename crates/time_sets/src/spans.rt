//! Stretches of one truth.
use crate::turn::Turn;

/// The times behind one place and up to another, which are all in a set or all out of it.
#[derive(Clone, Copy)]
pub struct Span {
    /// The place behind which its times lie.
    pub from: Turn,
    /// The place up to which they go.
    pub to: Turn,
    /// Whether they are in the set.
    pub holds: bool,
}
