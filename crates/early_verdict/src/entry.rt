//! What comes to all sets at once: a row, or the end of the input.

use frac128::Cut;

/// A row, or the end of the input.
#[derive(Clone, Copy)]
pub(crate) struct Entry {
    /// Just before the first row.
    pub(crate) start: Cut,
    /// Times up to here were sure before; at the first row none from the start on.
    pub(crate) before: Cut,
    /// Times up to here are sure now.
    pub(crate) sure: Cut,
    /// Whether it is the first row.
    pub(crate) first: bool,
    /// Whether it is the end of the input.
    pub(crate) ended: bool,
}
