//! The order of two places, where most that are at one floor are at one time.
ghost use Rattle.std.specs.Prelude.{◌≡◌, ◌↔◌, IsTrue, true, false};
ghost use Rattle.rational.specs.Rational.{◌≈◌};
ghost use Rattle.rational.specs.Places.{Before};
ghost use Rattle.frac128.specs.Cuts.{is_after, place};
ghost use Rattle.frac128.specs.Value.{value};

use frac128::{Cut, Frac};

/// Whether both are one number.
#[inline(always)]
fn is_one(a: &Frac, b: &Frac) -> bool
    ensures { IsTrue result → value a.now ≈ value b.now }
{
    *a == *b
}

/// Whether at one time the one side lies before it and the other after it.
#[inline(always)]
fn is_about(a: u64, b: u64) -> bool
    ensures { IsTrue result ↔ ((is_after a ≡ false) × (is_after b ≡ true)) }
{
    a == 0 && b != 0
}

/// Whether the one place comes before the other. That two times are one shows by their parts, with no product.
#[inline(always)]
pub(crate) fn precedes(a: &Cut, b: &Cut) -> bool
    ensures { IsTrue result ↔ Before (place a.now) (place b.now) }
{
    if is_one(&a.time, &b.time) {
        return is_about(a.side, b.side);
    }
    a.precedes(b)
}
