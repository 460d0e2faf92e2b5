//! Signals read from knot to knot, so that several can be read side by side in one pass.
ghost use Rattle.std.specs.Prelude.{◌≡◌, ◌⊎◌, ◌+◌, ◌<◌, ◌↔◌, IsTrue, length, Some, slice_get};
ghost use Rattle.rational.specs.Time.{◌<ʳ◌, ◌≤ʳ◌, ◌≈◌};
ghost use Rattle.rational.specs.Extended.{value_at};
ghost use Rattle.frac128.specs.Value.{value};
ghost use Rattle.pl_signal.specs.declared.knot.Knot.{Knot};
ghost use Rattle.pl_signal.specs.Knots.{HasShape, IsWorth, time};
ghost use Rattle.pl_signal.specs.Places.{IsPlace};

use crate::Signal;
use frac128::Frac;
use std::cmp::Ordering;
use value_laws::Shape;

/// A signal read at a time: the place of the last knot that is not later, and a shape with the signal's value there.
#[derive(Clone, Copy, Debug)]
pub struct Sample<P> {
    pub place: usize,
    pub shape: P,
}

/// The earlier of two times, and whether each of the two is it.
#[derive(Clone, Copy)]
pub struct Next {
    pub time: Frac,
    pub left: bool,
    pub right: bool,
}

impl Next {
    /// The earlier of two times, found by one comparison.
    pub fn of(x: &Frac, y: &Frac) -> Next
        ensures before_left { value result.time ≤ʳ value x.now }
        ensures before_right { value result.time ≤ʳ value y.now }
        ensures one { (value result.time ≡ value x.now) ⊎ (value result.time ≡ value y.now) }
        ensures left { IsTrue result.left ↔ (value x.now ≈ value result.time) }
        ensures right { IsTrue result.right ↔ (value y.now ≈ value result.time) }
    {
        match x.cmp(y) {
            Ordering::Less => Next {
                time: *x,
                left: true,
                right: false,
            },
            Ordering::Equal => Next {
                time: *x,
                left: true,
                right: true,
            },
            Ordering::Greater => Next {
                time: *y,
                left: false,
                right: true,
            },
        }
    }
}

impl<P: Shape> Signal<P> {
    /// The signal read at `to`, which is later than the knot at `place` and not later than the next one; `reaches` says whether it is
    /// the time of the next one.
    #[inline(always)]
    pub fn advance(&self, place: usize, reaches: bool, to: &Frac) -> Sample<P>
        requires more { place + 1 < length self.now }
        requires begun { (k : Knot P) → slice_get self.now place ≡ Some k → time k <ʳ value to.now }
        requires next { (k : Knot P) → slice_get self.now (place + 1) ≡ Some k → value to.now ≤ʳ time k }
        requires reaches { (k : Knot P) → slice_get self.now (place + 1) ≡ Some k → IsTrue reaches ↔ (time k ≈ value to.now) }
        ensures place { IsPlace self.now (value to.now) result.place }
        ensures shape { HasShape self.now result.shape }
        ensures worth { IsWorth P.Shape self.now (value to.now) (value_at (P.function result.shape) (value to.now)) }
        ensures moved { (result.place ≡ place + 1)
            ⊎ ((result.place ≡ place) × ((k : Knot P) → slice_get self.now (place + 1) ≡ Some k → value to.now <ʳ time k)) }
    {
        // For the proof alone: that it is a signal is a clause of `len`.
        let _ = self.len();
        let next = self.knot(place + 1);
        if reaches {
            return Sample {
                place: place + 1,
                shape: next.point,
            };
        }
        Sample {
            place,
            shape: self.knot(place).after,
        }
    }
}

/// The earlier of two times.
pub fn earlier(x: &Frac, y: &Frac) -> Frac
    ensures left { value result ≤ʳ value x.now }
    ensures right { value result ≤ʳ value y.now }
    ensures one { (value result ≡ value x.now) ⊎ (value result ≡ value y.now) }
{
    match x.cmp(y) {
        Ordering::Greater => *y,
        _ => *x,
    }
}
