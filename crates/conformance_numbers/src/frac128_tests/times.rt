//! Fractions and ramps for the tests. A test ends where its numbers are not allowed.
ghost use Rattle.std.specs.Prelude.{◌^◌};
ghost use Rattle.rational.specs.Rational.{IsWithin};
ghost use Rattle.frac128.specs.Value.{value};

use frac128::{Frac, Ramp};
use std::process::Abort;

/// `t0`, `v0`, `rise` and `run` of a ramp.
pub(super) type Corner = (i64, i64, i64, u32);

/// A numerator and a denominator.
pub(super) type Pair = (i64, i64);

/// `num / den`.
pub(super) fn fraction(rt: &impl Abort, num: i64, den: i64) -> Frac {
    assert!(rt; den > 0);
    match Frac::make(i128::from(num), i128::from(den)) {
        Ok(f) => f,
        Err(_) => panic!(rt; "wide"),
    }
}

/// `num / den`, below 2^34 and at least -2^34.
pub(super) fn time(rt: &impl Abort, num: i64, den: i64) -> Frac
    ensures { IsWithin (2 ^ 34) (value result) }
{
    let f = fraction(rt, num, den);
    assert!(rt; f.whole() >= -(1 << 34));
    assert!(rt; f.whole() < 1 << 34);
    f
}

/// `num / den`, below 2^32 and at least -2^32.
pub(super) fn limited(rt: &impl Abort, num: i64, den: i64) -> Frac
    ensures { IsWithin (2 ^ 32) (value result) }
{
    let f = fraction(rt, num, den);
    assert!(rt; f.whole() >= -(1 << 32));
    assert!(rt; f.whole() < 1 << 32);
    f
}

/// The ramp of these numbers.
pub(super) fn ramp(rt: &impl Abort, corner: Corner) -> Ramp {
    let (t0, v0, rise, run) = corner;
    assert!(rt; t0 >= -(1 << 34));
    assert!(rt; t0 <= 1 << 34);
    assert!(rt; v0 >= -(1 << 31));
    assert!(rt; v0 <= 1 << 31);
    assert!(rt; rise >= -(1 << 31));
    assert!(rt; rise <= 1 << 31);
    assert!(rt; run > 0);
    Ramp::make(t0, v0, rise, run)
}
