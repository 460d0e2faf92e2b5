//! A number as a quotient that is not reduced.
ghost use Rattle.std.specs.Prelude.{◌≡◌, ◌<◌, ◌≤◌, ◌^◌, pos, ◌<ℤ◌, IfOk, IfSome, MatchOption, MatchResult};
ghost use Rattle.std.specs.Int.{w64};
ghost use Rattle.rational.specs.Rational.{IsOrder, fraction};
ghost use Rattle.std.specs.Int.RustNames.{unsigned_abs};
ghost use Rattle.frac128.specs.Lowest.{HasDenominator, IsWide};
ghost use Rattle.frac128.specs.Sizes.{IsQuotient};

use crate::arith::{cmp_rests, split};
use crate::frac::{Frac, WideFrac};
use std::cmp::Ordering;

/// A number as `num / den`, not reduced. `==` and the order are those of the numbers.
#[derive(Clone, Copy, Debug)]
pub struct Ratio {
    pub num: i128,
    pub den: i128,
    pub ghost positive: { pos 0 <ℤ den },
}

impl Ratio {
    ghost use Rattle.frac128.specs.Value.{value};
    ghost use Rattle.frac128.specs.Ratios.{number};
    ghost use Rattle.rational.specs.Rational.{FitsFloor, ◌≈◌};

    /// The number as a `Frac`. Err exactly where its denominator in lowest terms is 2^60 or more, which it carries.
    ///
    /// # Errors
    ///
    /// `WideFrac`, with the denominator in lowest terms, exactly where that is 2^60 or more.
    pub fn frac(&self) -> Result<Frac, WideFrac>
        requires { FitsFloor w64 (number self.now) }
        ensures ok { IfOk result (λ f. value f ≈ number self.now) }
        ensures wide { MatchResult result
            (λ _. ¬ (IsWide (number self.now)))
            (λ e. HasDenominator (number self.now) e.den × (2 ^ 60 ≤ e.den)) }
    {
        Frac::make(self.num, self.den)
    }

    /// The number as a `Frac`, where its numerator is below 2^62 in size and its denominator in lowest terms below 2^60.
    pub(crate) fn small(&self) -> Option<Frac>
        ensures { IfSome result (λ f. value f ≈ number self.now) }
    {
        if self.num.unsigned_abs() >= 1 << 62 {
            return None;
        }
        match self.frac() {
            Ok(f) => Some(f),
            Err(_) => None,
        }
    }

    /// `num / den`, unless `den` is 0.
    pub(crate) fn quotient(num: i128, den: i128) -> Option<Ratio>
        requires num { unsigned_abs num < 2 ^ 127 }
        requires den { unsigned_abs den < 2 ^ 127 }
        ensures { MatchOption result (den ≡ pos 0) (λ q. IsQuotient num den q.num q.den) }
    {
        if den == 0 {
            None
        } else if den > 0 {
            Some(Ratio { num, den })
        } else {
            Some(Ratio {
                num: -num,
                den: -den,
            })
        }
    }

    /// The order of the two numbers.
    pub fn cmp(&self, other: &Ratio) -> Ordering
        ensures { IsOrder result (number self.now) (number other.now) }
    {
        cmp_ratio(self.num, self.den, other.num, other.den)
    }

    /// The order of the two numbers.
    pub fn cmp_frac(&self, other: &Frac) -> Ordering
        ensures { IsOrder result (number self.now) (value other.now) }
    {
        cmp_ratio(self.num, self.den, other.top(), i128::from(other.den()))
    }
}

impl PartialEq for Ratio {
    ghost use Rattle.std.specs.Ordering.{on, eq_by_cmp};
    ghost use Rattle.std.proofs.lemmas.Cmp.{on_total, eq_by_cmp_equiv};
    ghost use Rattle.std.specs.Cmp.{partial_equiv_from_equiv};
    ghost use Rattle.rational.specs.Rational.{rational_cmp};
    ghost use Rattle.rational.proofs.Compare.{rational_cmp_total};
    ghost use Rattle.frac128.specs.Ratios.{number};

    ghost eq = { eq_by_cmp (on number rational_cmp) };

    ghost laws = { partial_equiv_from_equiv (eq_by_cmp_equiv (on_total number rational_cmp_total)) };

    fn eq(&self, other: &Ratio) -> bool {
        Ratio::cmp(self, other) == Ordering::Equal
    }
}

impl Eq for Ratio {
    ghost use Rattle.std.specs.Ordering.{on};
    ghost use Rattle.std.proofs.lemmas.Cmp.{on_total, eq_by_cmp_equiv};
    ghost use Rattle.rational.proofs.Compare.{rational_cmp_total};
    ghost use Rattle.frac128.specs.Ratios.{number};

    ghost laws = { eq_by_cmp_equiv (on_total number rational_cmp_total) };
}

impl Ord for Ratio {
    ghost use Rattle.std.proofs.Common.{rules};
    ghost use Rattle.std.specs.Ordering.{on};
    ghost use Rattle.std.specs.Cmp.Rules.{comparing};
    ghost use Rattle.std.proofs.lemmas.Cmp.{on_total};
    ghost use Rattle.rational.specs.Rational.{rational_cmp};
    ghost use Rattle.rational.proofs.Compare.{rational_cmp_total};
    ghost use Rattle.frac128.specs.Ratios.{number};

    ghost cmp = { on number rational_cmp };

    ghost total = { on_total number rational_cmp_total };

    ghost matches_partial_cmp = { Prim.search (comparing, rules) };

    ghost matches_eq = { Prim.search (comparing, rules) };

    fn cmp(&self, other: &Ratio) -> Ordering {
        Ratio::cmp(self, other)
    }
}

impl PartialOrd for Ratio {
    ghost use Rattle.std.proofs.Common.{rules};
    ghost use Rattle.std.specs.Ordering.{on, as_partial_cmp};
    ghost use Rattle.std.specs.Cmp.{partial_order_from_own_ties};
    ghost use Rattle.std.specs.Cmp.Rules.{comparing};
    ghost use Rattle.std.proofs.lemmas.Cmp.{on_total};
    ghost use Rattle.rational.specs.Rational.{rational_cmp};
    ghost use Rattle.rational.proofs.Compare.{rational_cmp_total};
    ghost use Rattle.frac128.specs.Ratios.{number};

    ghost partial_cmp = { as_partial_cmp (on number rational_cmp) };

    ghost laws = { partial_order_from_own_ties (Prim.search (comparing, rules, rational_cmp_total)) (Prim.search (comparing, rules)) };

    fn partial_cmp(&self, other: &Ratio) -> Option<Ordering> {
        Some(Ratio::cmp(self, other))
    }
}

/// The order of `n1 / d1` and `n2 / d2`.
pub fn cmp_ratio(n1: i128, d1: i128, n2: i128, d2: i128) -> Ordering
    requires positive { pos 0 <ℤ d1 }
    requires other_positive { pos 0 <ℤ d2 }
    ensures { IsOrder result (fraction n1 d1) (fraction n2 d2) }
{
    let (whole, rest) = split(n1, d1);
    let (other_whole, other_rest) = split(n2, d2);
    match whole.cmp(&other_whole) {
        Ordering::Equal => cmp_rests(rest, d1.unsigned_abs(), other_rest, d2.unsigned_abs()),
        order => order,
    }
}
