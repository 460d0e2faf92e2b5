//! Knots of a signal.
use frac128::Frac;

/// A time of a signal: `point` is valued at that time, and `after` on the open gap from there to the next knot.
#[derive(Clone, Copy, Debug)]
pub struct Knot<P> {
    pub time: Frac,
    pub point: P,
    pub after: P,
}
