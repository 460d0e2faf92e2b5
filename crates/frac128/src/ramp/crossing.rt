//! Where a ramp meets another ramp or a constant.
ghost use Rattle.std.specs.Prelude.{◌≡◌, ◌≤◌, ◌<◌, ◌*◌, ◌^◌, ◌↔◌, IsTrue, IfSome, MatchOption, MatchResult};
ghost use Rattle.std.specs.Int.RustNames.{unsigned_abs};
ghost use Rattle.rational.specs.Rational.{Rational, fraction, ◌<ʳ◌};
ghost use Rattle.rational.specs.Line.{AreOpposite};
ghost use Rattle.frac128.specs.Lowest.{HasDenominator};
ghost use Rattle.frac128.specs.Value.{value};

use super::Ramp;
use super::difference::Difference;
use crate::arith::determinant;
use crate::frac::{Frac, WideFrac};
use crate::ratio::Ratio;
use std::cmp::Ordering;

impl Ramp {
    ghost use Rattle.frac128.specs.Value.{denominator};
    ghost use Rattle.frac128.specs.Line.{line, rise_in_run};
    ghost use Rattle.rational.specs.Line.{AreParallel, CrossAt, Level, MeetAt, constant};
    ghost use Rattle.rational.specs.Rational.{IsWithin};

    /// The one time at which both ramps have one value. None exactly where their slopes are equal.
    pub fn cross_ramp(&self, other: &Ramp) -> Option<Ratio>
        ensures meets { MatchOption result
            (AreParallel (line self.now) (line other.now))
            (λ q. ¬ (AreParallel (line self.now) (line other.now)) × MeetAt (line self.now) (line other.now) (fraction q.num q.den)) }
        ensures small { IfSome result (λ q. (unsigned_abs q.num ≤ 2 ^ 99) × (unsigned_abs q.den ≤ 2 ^ 64)) }
    {
        Difference::of(self, other).root()
    }

    /// The one time at which the value is `c`. None exactly where the ramp is level.
    pub fn cross_const(&self, c: &Frac) -> Option<Ratio>
        requires { IsWithin (2 ^ 32) (value c.now) }
        ensures meets { MatchOption result
            (Level (line self.now))
            (λ q. ¬ (Level (line self.now)) × MeetAt (line self.now) (constant (value c.now)) (fraction q.num q.den)) }
        ensures den { IfSome result (λ q. unsigned_abs q.den ≡ unsigned_abs (rise_in_run self.now) * denominator c.now) }
    {
        if c.den() == 1 {
            return self.cross_whole(c);
        }
        let den = i128::from(c.den());
        let num = determinant(c.top(), i128::from(self.run), self.offset(), den);
        let climb = determinant(i128::from(self.rise), den, 0, 0);
        Ratio::quotient(num, climb)
    }

    /// The same of a whole number, by few products.
    #[inline(always)]
    fn cross_whole(&self, c: &Frac) -> Option<Ratio>
        requires within { IsWithin (2 ^ 32) (value c.now) }
        requires whole { denominator c.now ≡ 1 }
        ensures meets { MatchOption result
            (Level (line self.now))
            (λ q. ¬ (Level (line self.now)) × MeetAt (line self.now) (constant (value c.now)) (fraction q.num q.den)) }
        ensures den { IfSome result (λ q. unsigned_abs q.den ≡ unsigned_abs (rise_in_run self.now) * denominator c.now) }
    {
        let num = determinant(
            i128::from(c.whole()),
            i128::from(self.run),
            self.offset(),
            1,
        );
        Ratio::quotient(num, i128::from(self.rise))
    }

    /// The time between `from` and `to` at which both ramps have one value, and at no other time. None exactly where
    /// there is none. Err exactly where its denominator in lowest terms is 2^60 or more, which it carries.
    ///
    /// # Errors
    ///
    /// `WideFrac`, with the denominator of the time in lowest terms, exactly where that is 2^60 or more.
    pub fn meet_ramp(&self, other: &Ramp, from: &Frac, to: &Frac) -> Result<Option<Frac>, WideFrac>
        requires from { IsWithin (2 ^ 34) (value from.now) }
        requires to { IsWithin (2 ^ 34) (value to.now) }
        requires order { value from.now <ʳ value to.now }
        ensures { MatchResult result
            (λ o. MatchOption o
            ((t : Rational) → ¬ (CrossAt (line self.now) (line other.now) (value from.now) (value to.now) t))
            (λ f. CrossAt (line self.now) (line other.now) (value from.now) (value to.now) (value f)))
            (λ e. (t : Rational) × CrossAt (line self.now) (line other.now) (value from.now) (value to.now) t × HasDenominator t e.den × (2 ^ 60 ≤ e.den)) }
    {
        let gap = Difference::of(self, other);
        let Some(time) = gap.root() else {
            return Ok(None);
        };
        if let Some(t) = time.small() {
            return Ok(between(t, from, to));
        }
        if !are_opposite(gap.sign_at(from), gap.sign_at(to)) {
            return Ok(None);
        }
        match time.frac() {
            Ok(t) => Ok(Some(t)),
            Err(wide) => Err(wide),
        }
    }

    /// The time between `from` and `to` at which the value is `c`, and at no other time. None exactly where there is
    /// none. Err exactly where its denominator in lowest terms is 2^60 or more, which it carries.
    ///
    /// # Errors
    ///
    /// `WideFrac`, with the denominator of the time in lowest terms, exactly where that is 2^60 or more.
    pub fn meet_const(&self, c: &Frac, from: &Frac, to: &Frac) -> Result<Option<Frac>, WideFrac>
        requires constant { IsWithin (2 ^ 32) (value c.now) }
        requires from { IsWithin (2 ^ 34) (value from.now) }
        requires to { IsWithin (2 ^ 34) (value to.now) }
        requires order { value from.now <ʳ value to.now }
        ensures { MatchResult result
            (λ o. MatchOption o
            ((t : Rational) → ¬ (CrossAt (line self.now) (constant (value c.now)) (value from.now) (value to.now) t))
            (λ f. CrossAt (line self.now) (constant (value c.now)) (value from.now) (value to.now) (value f)))
            (λ e. (t : Rational) × CrossAt (line self.now) (constant (value c.now)) (value from.now) (value to.now) t
            × HasDenominator t e.den × (2 ^ 60 ≤ e.den)) }
    {
        let Some(time) = self.cross_const(c) else {
            return Ok(None);
        };
        if let Some(t) = time.small() {
            return Ok(between(t, from, to));
        }
        if !are_opposite(self.cmp_const(c, from), self.cmp_const(c, to)) {
            return Ok(None);
        }
        match time.frac() {
            Ok(t) => Ok(Some(t)),
            Err(wide) => Err(wide),
        }
    }
}

/// The time, where it lies strictly between the two others.
fn between(t: Frac, from: &Frac, to: &Frac) -> Option<Frac>
    ensures { MatchOption result
        (¬ ((value from.now <ʳ value t) × (value t <ʳ value to.now)))
        (λ f. (f ≡ t) × (value from.now <ʳ value t) × (value t <ʳ value to.now)) }
{
    match from.cmp(&t) {
        Ordering::Less => match t.cmp(to) {
            Ordering::Less => Some(t),
            _ => None,
        },
        _ => None,
    }
}

/// Whether one is Less and the other is Greater.
fn are_opposite(before: Ordering, after: Ordering) -> bool
    ensures { IsTrue result ↔ AreOpposite before after }
{
    matches!(
        (before, after),
        (Ordering::Less, Ordering::Greater) | (Ordering::Greater, Ordering::Less)
    )
}
