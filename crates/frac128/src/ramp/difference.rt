//! How far one ramp lies above another.
ghost use Rattle.std.specs.Prelude.{◌≡◌, ◌+◌, ◌*◌, ◌<◌, ◌≤◌, ◌^◌, ◌↔◌, pos, neg_ℤ, ◌+ℤ◌, ◌*ℤ◌, IsTrue, MatchOption};
ghost use Rattle.std.specs.Int.RustNames.{unsigned_abs};
ghost use Rattle.std.specs.Ordering.{int_cmp};
ghost use Rattle.frac128.specs.Sizes.{IsQuotient};

use super::Ramp;
use crate::arith::{determinant, narrow, sum_of_products};
use crate::frac::Frac;
use crate::ratio::Ratio;
use std::cmp::Ordering;

/// The difference of two ramps times both runs: `base + climb * t` at the time `t`.
#[derive(Clone, Copy)]
pub(crate) struct Difference {
    base: i128,
    climb: i128,
    ghost small_base: { unsigned_abs base ≤ 2 ^ 99 },
    ghost small_climb: { unsigned_abs climb ≤ 2 ^ 64 },
}

impl Difference {
    ghost use Rattle.rational.specs.Rational.{IsOrder, IsWithin, whole};
    ghost use Rattle.rational.specs.Line.{Line, at, gap_line};
    ghost use Rattle.frac128.specs.Difference.{IsAbove};
    ghost use Rattle.frac128.specs.Line.{line};
    ghost use Rattle.frac128.specs.Value.{value};

    /// How far `upper` lies above `lower`.
    pub(crate) fn of(upper: &Ramp, lower: &Ramp) -> Difference
        ensures { IsAbove (gap_line (line upper.now) (line lower.now)) result.base result.climb }
    {
        let run = i128::from(upper.run);
        let other_run = i128::from(lower.run);
        Difference {
            base: determinant(upper.offset(), other_run, lower.offset(), run),
            climb: determinant(
                i128::from(upper.rise),
                other_run,
                i128::from(lower.rise),
                run,
            ),
        }
    }

    /// The order of the difference at `t` and 0.
    pub(crate) fn sign_at(&self, t: &Frac) -> Ordering
        requires { IsWithin (2 ^ 34) (value t.now) }
        ensures { (d : Line) → IsAbove d self.now.base self.now.climb → IsOrder result (at d (value t.now)) (whole (pos 0)) }
    {
        let ahead = sum_of_products(self.base, 1, self.climb, i128::from(t.whole()));
        sign_ahead(ahead, self.climb, t.rest(), t.den())
    }

    /// Whether the difference is 0 at every time.
    pub(crate) fn is_zero(&self) -> bool
        ensures { IsTrue result ↔ ((self.now.base ≡ pos 0) × (self.now.climb ≡ pos 0)) }
    {
        self.climb == 0 && self.base == 0
    }

    /// The time at which the difference is 0, unless it does not change.
    pub(crate) fn root(&self) -> Option<Ratio>
        ensures { MatchOption result (self.now.climb ≡ pos 0) (λ q. IsQuotient (neg_ℤ self.now.base) self.now.climb q.num q.den) }
    {
        Ratio::quotient(-self.base, self.climb)
    }
}

/// The order of `ahead + climb * rest / den` and 0.
#[inline(always)]
pub(crate) fn sign_ahead(ahead: i128, climb: i128, rest: u64, den: u64) -> Ordering
    requires climb { unsigned_abs climb ≤ 2 ^ 64 }
    requires den { den < 2 ^ 60 }
    requires rest { rest < den }
    ensures { result ≡ int_cmp (ahead *ℤ pos den +ℤ climb *ℤ pos rest) (pos 0) }
{
    if let Some(near) = narrow(ahead) {
        let sum = sum_of_products(i128::from(near), i128::from(den), climb, i128::from(rest));
        return sum.cmp(&0);
    }
    if ahead.unsigned_abs() >= 1 << 64 {
        return ahead.cmp(&0);
    }
    let sum = sum_of_products(ahead, i128::from(den), climb, i128::from(rest));
    sum.cmp(&0)
}
