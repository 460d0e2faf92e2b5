//! Pieces.
use frac128::Cut;

/// A shape up to a place. It begins where the piece before it ends.
#[derive(Clone, Copy, Debug)]
pub struct Piece<P> {
    pub until: Cut,
    pub shape: P,
}
