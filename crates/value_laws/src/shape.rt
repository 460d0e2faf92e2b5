//! What every kind of value over time can do.
ghost use Rattle.std.specs.Prelude.{◌≡◌, ◌↔◌, ℤ, pos, ◌-ℤ◌, ◌≤◌, ◌^◌, Bool, IsTrue, true, false, IfOk, IsErr, MatchResult, MatchOption};
ghost use Rattle.std.specs.Int.RustNames.{unsigned_abs};
ghost use Rattle.rational.specs.Rational.{Rational, ◌<ʳ◌, whole, add, subtract, IsWithin};
ghost use Rattle.rational.specs.Time.{HasDenominator};
ghost use Rattle.rational.specs.Extended.{Extended, Affine, value_at, opposite, finite, ◌≤ᵉ◌, ◌≈ᵉ◌};
ghost use Rattle.rational.specs.Affine.{IsOrderᵉ, IsSteady, IsTrend, AreSame, MeetAlone, IsBounded, HasBoundedLevel};
ghost use Rattle.frac128.specs.Value.{value};

use frac128::{Frac, WideFrac};
use std::cmp::Ordering;

/// A value over time, in ticks: at each time a rational number, -inf or inf, and affine in time or constantly infinite.
///
/// Truth, three-valued truth and margins are the three kinds, so that each operator on signals is proved once for all of
/// them. Nothing here takes memory.
pub trait Shape: Copy {
    /// What the shape is worth at every time.
    ghost function: { Self → Affine };

    /// The time from which a ramp is measured; 0 for every other shape.
    ghost base: { Self → ℤ };

    /// Whether the shape is a ramp.
    ghost moves: { Self → Bool };

    /// The least value of the type.
    ghost lowest: { Extended };

    /// The greatest value of the type.
    ghost highest: { Extended };

    /// Whether a crossing or a value of the type may have a denominator that is not stored.
    ghost may_be_wide: { Bool };

    /// The negated value at every time.
    fn neg(&self) -> Self
        requires { HasBoundedLevel (2 ^ 31) (function self.now) }
        ensures value { (t : Rational) → value_at (function result) t ≈ᵉ opposite (value_at (function self.now) t) }
        ensures base { IsTrue (moves result) → IsTrue (moves self.now) × (base result ≡ base self.now) };

    /// The shape that is at `t` what this one is at `t + by`.
    fn shift(&self, by: i64) -> Self
        requires { unsigned_abs (base self.now -ℤ by) ≤ 2 ^ 34 }
        ensures value { (t : Rational) → value_at (function result) t ≈ᵉ value_at (function self.now) (add t (whole by)) }
        ensures base { IsTrue (moves result) → IsTrue (moves self.now) × (base result ≡ base self.now -ℤ by) };

    /// The shape that is at `t` what this one is at `about - t`.
    fn mirror(&self, about: i64) -> Self
        requires { unsigned_abs (about -ℤ base self.now) ≤ 2 ^ 34 }
        ensures value { (t : Rational) → value_at (function result) t ≈ᵉ value_at (function self.now) (subtract (whole about) t) }
        ensures base { IsTrue (moves result) → IsTrue (moves self.now) × (base result ≡ about -ℤ base self.now) };

    /// The order of the two values at `t`.
    fn cmp_at(p: &Self, q: &Self, t: &Frac) -> Ordering
        requires { IsWithin (2 ^ 34) (value t.now) }
        ensures { IsOrderᵉ result (value_at (function p.now) (value t.now)) (value_at (function q.now) (value t.now)) };

    /// `Greater` where the value rises with time, `Equal` where it is constant, and `Less` where it falls.
    fn rises(&self) -> Ordering
        ensures { IsTrend result (function self.now) };

    /// The least value of the type, at every time.
    fn least() -> Self
        ensures value { (t : Rational) → value_at (function result) t ≈ᵉ lowest }
        ensures moves { moves result ≡ false };

    /// The greatest value of the type, at every time.
    fn greatest() -> Self
        ensures value { (t : Rational) → value_at (function result) t ≈ᵉ highest }
        ensures moves { moves result ≡ false };

    /// The time strictly between `l` and `r` at which the two are equal, where they are equal at that time alone. An `Err`
    /// carries that time's denominator in lowest terms, of 2^60 or more.
    fn cross(p: &Self, q: &Self, l: &Frac, r: &Frac) -> Result<Option<Frac>, WideFrac>
        requires order { value l.now <ʳ value r.now }
        requires from { IsWithin (2 ^ 34) (value l.now) }
        requires to { IsWithin (2 ^ 34) (value r.now) }
        requires first { HasBoundedLevel (2 ^ 31) (function p.now) }
        requires second { HasBoundedLevel (2 ^ 31) (function q.now) }
        ensures time { MatchResult result
            (λ o. MatchOption o
            ((t : Rational) → ¬ MeetAlone (function p.now) (function q.now) (value l.now) (value r.now) t)
            (λ t. MeetAlone (function p.now) (function q.now) (value l.now) (value r.now) (value t)))
            (λ e. (t : Rational) × MeetAlone (function p.now) (function q.now) (value l.now) (value r.now) t
            × HasDenominator t e.den × (2 ^ 60 ≤ e.den)) }
        ensures wide { IsErr result → IsTrue may_be_wide };

    /// The constant with the value at `t`. An `Err` carries that value's denominator in lowest terms, of 2^60 or more.
    fn fix(&self, t: &Frac) -> Result<Self, WideFrac>
        requires time { IsWithin (2 ^ 34) (value t.now) }
        requires small { IsBounded (2 ^ 31) (value_at (function self.now) (value t.now)) }
        ensures value { MatchResult result
            (λ c. ((u : Rational) → value_at (function c) u ≈ᵉ value_at (function self.now) (value t.now)) × (moves c ≡ false))
            (λ e. (v : Rational) × (value_at (function self.now) (value t.now) ≈ᵉ finite v) × HasDenominator v e.den
            × (2 ^ 60 ≤ e.den)) }
        ensures wide { IsErr result → IsTrue may_be_wide };

    /// Whether the two are equal at every time.
    fn same(p: &Self, q: &Self) -> bool
        ensures { IsTrue result ↔ AreSame (function p.now) (function q.now) };

    /// A base is a time within 2^34.
    ghost base_within: { (p : Self) → unsigned_abs (base p) ≤ 2 ^ 34 };

    /// What does not move has the base 0.
    ghost base_of_others: { (p : Self) → moves p ≡ false → base p ≡ pos 0 };

    /// No value lies below the least one.
    ghost lowest_is_least: { (p : Self) (t : Rational) → lowest ≤ᵉ value_at (function p) t };

    /// No value lies above the greatest one.
    ghost highest_is_greatest: { (p : Self) (t : Rational) → value_at (function p) t ≤ᵉ highest };

    /// The least value is infinite or within 2^31.
    ghost lowest_bounded: { IsBounded (2 ^ 31) lowest };

    /// The greatest value is infinite or within 2^31.
    ghost highest_bounded: { IsBounded (2 ^ 31) highest };

    /// The least value is not above the greatest.
    ghost lowest_to_highest: { lowest ≤ᵉ highest };
}
