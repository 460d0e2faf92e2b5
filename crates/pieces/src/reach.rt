//! A window from one offset to another of a time, and the places at which its ends come to a place.
ghost use Rattle.std.specs.Prelude.{◌≡◌, ◌≤◌, ◌^◌, ◌-ℤ◌, neg_ℤ, pos, IsTrue};
ghost use Rattle.std.specs.Int.RustNames.{unsigned_abs};
ghost use Rattle.rational.specs.Rational.{Rational, add, whole};
ghost use Rattle.rational.specs.Time.{◌≤ʳ◌};
ghost use Rattle.rational.specs.Extended.{value_at, ◌≈ᵉ◌};
ghost use Rattle.rational.specs.Places.{Same, moved_begin, moved_end};
ghost use Rattle.frac128.specs.Value.{value as value_of};
ghost use Rattle.frac128.specs.Cuts.{place};
ghost use Rattle.pieces.specs.Windows.{IsSmall};

use frac128::Cut;
use pl_signal::Side;
use value_laws::Shape;

/// A window from `low` to `high` ticks after a time, each end in or out.
#[derive(Clone, Copy)]
pub struct Reach {
    pub low: i64,
    pub high: i64,
    pub low_in: bool,
    pub high_in: bool,
}

/// A window on its way to the end of a domain, and whether its Sup or its Inf is wanted.
#[derive(Clone, Copy)]
pub(crate) struct Way {
    pub(crate) side: Side,
    pub(crate) over: Reach,
    pub(crate) to: Cut,
}

/// The place from which on the window reaches past the place.
pub(crate) fn entering(over: &Reach, c: &Cut) -> Cut
    requires from { whole (pos 0) ≤ʳ value_of c.now.time }
    requires to { value_of c.now.time ≤ʳ whole (pos (2 ^ 32)) }
    requires small { IsSmall over.now }
    ensures { Same (place result) (moved_begin (neg_ℤ over.now.high) over.now.high_in (place c.now)) }
{
    c.shift_begin(-over.high, over.high_in)
}

/// The place up to which the window begins before the place.
pub(crate) fn leaving(over: &Reach, c: &Cut) -> Cut
    requires from { whole (pos 0) ≤ʳ value_of c.now.time }
    requires to { value_of c.now.time ≤ʳ whole (pos (2 ^ 32)) }
    requires small { IsSmall over.now }
    ensures { Same (place result) (moved_end (neg_ℤ over.now.low) over.now.low_in (place c.now)) }
{
    c.shift_end(-over.low, over.low_in)
}

/// The shape that is at each time what this one is at the window's high end.
pub(crate) fn at_high<P: Shape>(over: &Reach, shape: &P) -> P
    requires small { IsSmall over.now }
    requires room { unsigned_abs (P.base shape.now -ℤ over.now.high) ≤ 2 ^ 34 }
    ensures value { (t : Rational) → value_at (P.function result) t ≈ᵉ value_at (P.function shape.now) (add t (whole over.now.high)) }
    ensures base { IsTrue (P.moves result) → IsTrue (P.moves shape.now) × (P.base result ≡ P.base shape.now -ℤ over.now.high) }
{
    shape.shift(over.high)
}

/// The same of the low end.
pub(crate) fn at_low<P: Shape>(over: &Reach, shape: &P) -> P
    requires small { IsSmall over.now }
    requires room { unsigned_abs (P.base shape.now -ℤ over.now.low) ≤ 2 ^ 34 }
    ensures value { (t : Rational) → value_at (P.function result) t ≈ᵉ value_at (P.function shape.now) (add t (whole over.now.low)) }
    ensures base { IsTrue (P.moves result) → IsTrue (P.moves shape.now) × (P.base result ≡ P.base shape.now -ℤ over.now.low) }
{
    shape.shift(over.low)
}
