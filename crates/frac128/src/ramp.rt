//! A line through a point of time and value.
ghost use Rattle.std.specs.Prelude.{◌≡◌, ◌+◌, ◌*◌, ◌<◌, ◌≤◌, ◌^◌, ◌↔◌, pos, ◌+ℤ◌, ◌-ℤ◌, ◌*ℤ◌, IsTrue, IfOk, MatchOption, MatchResult};
ghost use Rattle.std.specs.Ordering.{MatchOrdering, int_cmp};
ghost use Rattle.std.specs.Int.RustNames.{unsigned_abs};
ghost use Rattle.rational.specs.Rational.{Rational, fraction, add, negate, subtract, whole};
ghost use Rattle.frac128.specs.Lowest.{HasDenominator, IsWide};
ghost use Rattle.frac128.specs.Sizes.{AreSmall};

mod crossing;
mod difference;

use crate::arith::{determinant, narrow, sum_of_products};
use crate::frac::{Frac, WideFrac};
use crate::ratio::{Ratio, cmp_ratio};
use difference::{Difference, sign_ahead};
use std::cmp::Ordering;

/// The line that at `t0` has the value `v0`, and rises by `rise` in the time `run`.
///
/// `==` says that all four numbers agree; `same` that the values do.
#[derive(Clone, Copy, Debug, PartialEq, Eq)]
pub struct Ramp {
    t0: i64,
    v0: i64,
    rise: i64,
    run: u32,
    pub ghost positive: { 0 < run },
    pub ghost small_t0: { unsigned_abs t0 ≤ 2 ^ 34 },
    pub ghost small_v0: { unsigned_abs v0 ≤ 2 ^ 31 },
    pub ghost small_rise: { unsigned_abs rise ≤ 2 ^ 31 },
}

impl Ramp {
    ghost use Rattle.frac128.specs.Value.{denominator, rest_part, value, whole_part};
    ghost use Rattle.frac128.specs.Line.{IsEnd, base, base_value, line, rise_in_run, run_time};
    ghost use Rattle.rational.specs.Line.{Falls, Level, Rises, at};
    ghost use Rattle.rational.specs.Rational.{IsOrder, IsWithin, ◌≈◌};

    /// The ramp of these four numbers.
    pub fn make(t0: i64, v0: i64, rise: i64, run: u32) -> Ramp
        requires run { 0 < run }
        requires t0 { unsigned_abs t0 ≤ 2 ^ 34 }
        requires v0 { unsigned_abs v0 ≤ 2 ^ 31 }
        requires rise { unsigned_abs rise ≤ 2 ^ 31 }
        ensures t0 { base result ≡ t0 }
        ensures v0 { base_value result ≡ v0 }
        ensures rise { rise_in_run result ≡ rise }
        ensures run { run_time result ≡ run }
    {
        Ramp { t0, v0, rise, run }
    }

    /// The value at `t`, over `run` times the denominator of `t`.
    pub fn at(&self, t: &Frac) -> Ratio
        requires { IsWithin (2 ^ 34) (value t.now) }
        ensures value { fraction result.num result.den ≈ at (line self.now) (value t.now) }
        ensures den { result.den ≡ pos (run_time self.now * denominator t.now) }
        ensures small { unsigned_abs result.den < 2 ^ 92 }
    {
        let gap = i128::from(t.whole()) - i128::from(self.t0);
        if t.den() == 1 {
            return self.on_tick(gap);
        }
        value_ahead(
            i128::from(self.v0),
            i128::from(self.rise),
            i128::from(self.run),
            gap,
            i128::from(t.rest()),
            i128::from(t.den()),
        )
    }

    /// The value `gap` ticks after its base, over `run`.
    #[inline(always)]
    fn on_tick(&self, gap: i128) -> Ratio
        requires { unsigned_abs gap ≤ 2 ^ 35 }
        ensures num { result.num ≡ self.now.v0 *ℤ pos self.now.run +ℤ self.now.rise *ℤ gap }
        ensures small_num { unsigned_abs result.num ≤ 2 ^ 67 }
        ensures den { result.den ≡ pos self.now.run }
        ensures small { unsigned_abs result.den < 2 ^ 92 }
    {
        Ratio {
            num: sum_of_products(
                i128::from(self.v0),
                i128::from(self.run),
                i128::from(self.rise),
                gap,
            ),
            den: i128::from(self.run),
        }
    }

    /// The value at the floor of `t`, times `run`.
    #[inline(always)]
    fn at_floor(&self, t: &Frac) -> i128
        requires { IsWithin (2 ^ 34) (value t.now) }
        ensures value { result ≡ self.now.v0 *ℤ pos self.now.run +ℤ self.now.rise *ℤ (whole_part t.now -ℤ self.now.t0) }
        ensures small { unsigned_abs result ≤ 2 ^ 67 }
    {
        let gap = t.whole() - self.t0;
        self.on_tick(i128::from(gap)).num
    }

    /// The value at `t` as a `Frac`. Err exactly where its denominator in lowest terms is 2^60 or more, which it carries.
    ///
    /// # Errors
    ///
    /// `WideFrac`, with the denominator of the value in lowest terms, exactly where that is 2^60 or more.
    pub fn fix(&self, t: &Frac) -> Result<Frac, WideFrac>
        requires time { IsWithin (2 ^ 34) (value t.now) }
        requires value { IsWithin (2 ^ 31) (at (line self.now) (value t.now)) }
        ensures ok { IfOk result (λ f. value f ≈ at (line self.now) (value t.now)) }
        ensures wide { MatchResult result
            (λ _. ¬ (IsWide (at (line self.now) (value t.now))))
            (λ e. HasDenominator (at (line self.now) (value t.now)) e.den × (2 ^ 60 ≤ e.den)) }
    {
        if let Some(v) = self.plain(t) {
            return Ok(Frac::of(v));
        }
        self.fix_between(t)
    }

    /// The value at any `t`, by a division in 128 bits: what `fix` does where no whole number is seen at once.
    #[inline(never)]
    fn fix_between(&self, t: &Frac) -> Result<Frac, WideFrac>
        requires time { IsWithin (2 ^ 34) (value t.now) }
        requires value { IsWithin (2 ^ 31) (at (line self.now) (value t.now)) }
        ensures ok { IfOk result (λ f. value f ≈ at (line self.now) (value t.now)) }
        ensures wide { MatchResult result
            (λ _. ¬ (IsWide (at (line self.now) (value t.now))))
            (λ e. HasDenominator (at (line self.now) (value t.now)) e.den × (2 ^ 60 ≤ e.den)) }
    {
        self.at(t).frac()
    }

    /// The value at `t` where `t` is the base or the end of the run, at which it is whole: it is told with no product. None at all other times.
    #[inline(always)]
    pub fn plain(&self, t: &Frac) -> Option<i64>
        ensures { MatchOption result (¬ (IsEnd self.now (value t.now))) (λ v. at (line self.now) (value t.now) ≈ whole v) }
    {
        if t.rest() != 0 {
            return None;
        }
        if t.whole() == self.t0 {
            return Some(self.v0);
        }
        if t.whole() == self.t0 + i64::from(self.run) {
            return Some(self.v0 + self.rise);
        }
        None
    }

    /// Minus the value, at every time.
    pub fn neg(&self) -> Ramp
        ensures value { (t : Rational) → at (line result) t ≈ negate (at (line self.now) t) }
        ensures base { base result ≡ base self.now }
    {
        Ramp {
            t0: self.t0,
            v0: -self.v0,
            rise: -self.rise,
            run: self.run,
        }
    }

    /// The ramp whose value at `t` is the old value at `t + by`.
    pub fn shift(&self, by: i64) -> Ramp
        requires { unsigned_abs (base self.now -ℤ by) ≤ 2 ^ 34 }
        ensures value { (t : Rational) → at (line result) t ≈ at (line self.now) (add t (whole by)) }
        ensures base { base result ≡ base self.now -ℤ by }
    {
        Ramp {
            t0: self.t0 - by,
            v0: self.v0,
            rise: self.rise,
            run: self.run,
        }
    }

    /// The ramp whose value at `t` is the old value at `about - t`.
    pub fn mirror(&self, about: i64) -> Ramp
        requires { unsigned_abs (about -ℤ base self.now) ≤ 2 ^ 34 }
        ensures value { (t : Rational) → at (line result) t ≈ at (line self.now) (subtract (whole about) t) }
        ensures base { base result ≡ about -ℤ base self.now }
    {
        Ramp {
            t0: about - self.t0,
            v0: self.v0,
            rise: -self.rise,
            run: self.run,
        }
    }

    /// Greater where the value rises with time, Less where it falls, Equal where it is constant.
    pub fn rises(&self) -> Ordering
        ensures { MatchOrdering result (Falls (line self.now)) (Level (line self.now)) (Rises (line self.now)) }
    {
        self.rise.cmp(&0)
    }

    /// Whether both have one value at every time.
    #[inline(always)]
    pub fn same(&self, other: &Ramp) -> bool
        ensures { IsTrue result ↔ ((t : Rational) → at (line self.now) t ≈ at (line other.now) t) }
    {
        if self.run != other.run {
            return self.lies_on(other);
        }
        if self.rise != other.rise {
            return false;
        }
        self.offset() == other.offset()
    }

    /// Whether both have one value at every time, by products in 128 bits.
    #[inline(never)]
    fn lies_on(&self, other: &Ramp) -> bool
        ensures { IsTrue result ↔ ((t : Rational) → at (line self.now) t ≈ at (line other.now) t) }
    {
        Difference::of(self, other).is_zero()
    }

    /// The order of both values at `t`.
    pub fn cmp_ramp(&self, other: &Ramp, t: &Frac) -> Ordering
        requires { IsWithin (2 ^ 34) (value t.now) }
        ensures { IsOrder result (at (line self.now) (value t.now)) (at (line other.now) (value t.now)) }
    {
        if let Some(v) = self.plain(t) {
            if let Some(w) = other.plain(t) {
                return v.cmp(&w);
            }
        }
        self.cmp_lines(other, t)
    }

    /// The order of both values at any `t`, by products in 128 bits.
    #[inline(never)]
    fn cmp_lines(&self, other: &Ramp, t: &Frac) -> Ordering
        requires { IsWithin (2 ^ 34) (value t.now) }
        ensures { IsOrder result (at (line self.now) (value t.now)) (at (line other.now) (value t.now)) }
    {
        if self.run != other.run {
            return self.cmp_apart(other, t);
        }
        let here = self.at_floor(t);
        let there = other.at_floor(t);
        let ahead = determinant(here, 1, there, 1);
        sign_ahead(ahead, i128::from(self.rise - other.rise), t.rest(), t.den())
    }

    /// The order of both values at `t` where the ramps have different runs.
    #[inline(never)]
    fn cmp_apart(&self, other: &Ramp, t: &Frac) -> Ordering
        requires { IsWithin (2 ^ 34) (value t.now) }
        ensures { IsOrder result (at (line self.now) (value t.now)) (at (line other.now) (value t.now)) }
    {
        Difference::of(self, other).sign_at(t)
    }

    /// The order of the value at `t` and `c`.
    pub fn cmp_const(&self, c: &Frac, t: &Frac) -> Ordering
        requires { IsWithin (2 ^ 34) (value t.now) }
        ensures { IsOrder result (at (line self.now) (value t.now)) (value c.now) }
    {
        if let Some(v) = self.plain(t) {
            return Frac::of(v).cmp(c);
        }
        self.cmp_level(c, t)
    }

    /// The order of the value at any `t` and `c`, by products in 128 bits.
    #[inline(never)]
    fn cmp_level(&self, c: &Frac, t: &Frac) -> Ordering
        requires { IsWithin (2 ^ 34) (value t.now) }
        ensures { IsOrder result (at (line self.now) (value t.now)) (value c.now) }
    {
        let here = self.at_floor(t);
        let ahead = determinant(here, 1, i128::from(c.whole()), i128::from(self.run));
        self.cmp_ahead(ahead, t, c)
    }

    /// The order of `ahead + rise * r` and `run * s`, where r and s are what lies above the whole parts of `t` and `c`.
    #[inline(always)]
    fn cmp_ahead(&self, ahead: i128, t: &Frac, c: &Frac) -> Ordering
        requires { run_time self.now < 2 ^ 32 }
        ensures { result ≡ int_cmp
            ((ahead *ℤ pos (denominator t.now) +ℤ rise_in_run self.now *ℤ pos (rest_part t.now)) *ℤ pos (denominator c.now))
            (pos (run_time self.now * rest_part c.now * denominator t.now)) }
    {
        let Some(near) = narrow(ahead) else {
            return ahead.cmp(&0);
        };
        let top = sum_of_products(
            i128::from(near),
            i128::from(t.den()),
            i128::from(self.rise),
            i128::from(t.rest()),
        );
        if c.rest() == 0 {
            return top.cmp(&0);
        }
        self.cmp_over(top, t, c)
    }

    /// The order of `top` over the denominator of `t`, and `run * s`, where s is what lies above the whole part of `c`: by one
    /// product on each side where both fit 64 bits.
    #[inline(never)]
    fn cmp_over(&self, top: i128, t: &Frac, c: &Frac) -> Ordering
        ensures { result ≡ int_cmp
            (top *ℤ pos (denominator c.now))
            (pos (run_time self.now * rest_part c.now * denominator t.now)) }
    {
        let den = i128::from(t.den());
        let other = i128::from(self.run) * i128::from(c.rest());
        if let Some(x) = narrow(top) {
            if let Some(y) = narrow(other) {
                let left = i128::from(x) * i128::from(c.den());
                let right = i128::from(y) * den;
                return left.cmp(&right);
            }
        }
        cmp_ratio(top, den, other, i128::from(c.den()))
    }

    /// The value at 0, times `run`.
    fn offset(&self) -> i128
        ensures value { result ≡ self.now.v0 *ℤ pos self.now.run -ℤ self.now.rise *ℤ self.now.t0 }
        ensures small { unsigned_abs result ≤ 2 ^ 66 }
    {
        determinant(
            i128::from(self.v0),
            i128::from(self.run),
            i128::from(self.rise),
            i128::from(self.t0),
        )
    }
}

/// `v0 + rise * (gap + rest / den) / run`.
fn value_ahead(v0: i128, rise: i128, run: i128, gap: i128, rest: i128, den: i128) -> Ratio
    requires { AreSmall v0 rise run gap rest den }
    ensures num { result.num ≡ v0 *ℤ run *ℤ den +ℤ rise *ℤ (gap *ℤ den +ℤ rest) }
    ensures den { result.den ≡ run *ℤ den }
{
    Ratio {
        num: v0 * run * den + rise * (gap * den + rest),
        den: run * den,
    }
}
