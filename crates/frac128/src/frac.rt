//! A number as a whole part and a rest in lowest terms.
ghost use Rattle.std.specs.Prelude.{◌≡◌, ◌+◌, ◌*◌, ◌<◌, ◌≤◌, ◌^◌, pos, ◌+ℤ◌, ◌*ℤ◌, ◌<ℤ◌, IfOk, MatchResult};
ghost use Rattle.std.specs.Int.{w64};
ghost use Rattle.std.specs.Int.RustNames.{unsigned_abs};
ghost use Rattle.rational.specs.Rational.{IsOrder, fraction};
ghost use Rattle.frac128.specs.Lowest.{HasDenominator, IsLowest, IsWide};

use crate::arith::{gcd, gcd_of_wide, narrow, split, sum_of_products};
use std::cmp::Ordering;

/// A number whose denominator in lowest terms, `den`, is 2^60 or more, so that no `Frac` holds it.
#[derive(Clone, Copy, Debug, PartialEq, Eq)]
pub struct WideFrac {
    pub den: u128,
}

/// A rational number: the whole part `whole`, and above it `rest / den` in lowest terms, with `den` below 2^60.
#[derive(Clone, Copy, Debug)]
pub struct Frac {
    whole: i64,
    rest: u64,
    den: u64,
    pub ghost positive: { 0 < den },
    pub ghost below: { rest < den },
    pub ghost small: { den < 2 ^ 60 },
    pub ghost lowest: { IsLowest (pos rest) den },
}

impl Frac {
    ghost use Rattle.frac128.specs.Value.{denominator, rest_part, value, whole_part};
    ghost use Rattle.rational.specs.Rational.{FitsFloor, add, subtract, whole, ◌≈◌};

    /// The floor of the number.
    pub fn whole(&self) -> i64
        ensures { result ≡ whole_part self.now }
    {
        self.whole
    }

    /// What lies above the floor, times the denominator.
    pub fn rest(&self) -> u64
        ensures { result ≡ rest_part self.now }
    {
        self.rest
    }

    /// The denominator in lowest terms.
    pub fn den(&self) -> u64
        ensures { result ≡ denominator self.now }
    {
        self.den
    }

    /// The whole number `n`.
    pub fn of(n: i64) -> Frac
        ensures whole { whole_part result ≡ n }
        ensures rest { rest_part result ≡ 0 }
        ensures value { value result ≈ whole n }
    {
        Frac {
            whole: n,
            rest: 0,
            den: 1,
        }
    }

    /// The number `num / den`. Err exactly where its denominator in lowest terms is 2^60 or more, which it carries.
    ///
    /// # Errors
    ///
    /// `WideFrac`, with the denominator in lowest terms, exactly where that is 2^60 or more.
    pub fn make(num: i128, den: i128) -> Result<Frac, WideFrac>
        requires positive { pos 0 <ℤ den }
        requires floor { FitsFloor w64 (fraction num den) }
        ensures ok { IfOk result (λ f. value f ≈ fraction num den) }
        ensures wide { MatchResult result
            (λ _. ¬ (IsWide (fraction num den)))
            (λ e. HasDenominator (fraction num den) e.den × (2 ^ 60 ≤ e.den)) }
    {
        if den < 1 << 60 {
            if let Some(n) = narrow(num) {
                return Ok(Frac::quotient(n, den as u64));
            }
        }
        Frac::make_wide(num, den)
    }

    /// The number `num / den`, by divisions in 64 bits.
    #[inline(always)]
    fn quotient(num: i64, den: u64) -> Frac
        requires positive { 0 < den }
        requires small { den < 2 ^ 60 }
        ensures { value result ≈ fraction num (pos den) }
    {
        let by = den as i64;
        Frac::mixed(num.div_euclid(by), num.rem_euclid(by).unsigned_abs(), den)
    }

    /// What `make` does, for any two numbers of 128 bits.
    #[inline(never)]
    fn make_wide(num: i128, den: i128) -> Result<Frac, WideFrac>
        requires positive { pos 0 <ℤ den }
        requires floor { FitsFloor w64 (fraction num den) }
        ensures ok { IfOk result (λ f. value f ≈ fraction num den) }
        ensures wide { MatchResult result
            (λ _. ¬ (IsWide (fraction num den)))
            (λ e. HasDenominator (fraction num den) e.den × (2 ^ 60 ≤ e.den)) }
    {
        let (whole, rest) = split(num, den);
        let all = den.unsigned_abs();
        let common = gcd_of_wide(rest, all);
        let reduced = all / common;
        if reduced >= 1 << 60 {
            return Err(WideFrac { den: reduced });
        }
        Ok(Frac {
            whole: whole as i64,
            rest: (rest / common) as u64,
            den: reduced as u64,
        })
    }

    /// The number `whole + rest / den`, in lowest terms.
    pub fn mixed(whole: i64, rest: u64, den: u64) -> Frac
        requires below { rest < den }
        requires small { den < 2 ^ 60 }
        ensures { value result ≈ fraction (whole *ℤ pos den +ℤ pos rest) (pos den) }
    {
        let common = gcd(rest, den);
        Frac {
            whole,
            rest: rest / common,
            den: den / common,
        }
    }

    /// The order of the two numbers.
    pub fn cmp(&self, other: &Frac) -> Ordering
        ensures { IsOrder result (value self.now) (value other.now) }
    {
        match self.whole.cmp(&other.whole) {
            Ordering::Equal => {
                let left = u128::from(self.rest) * u128::from(other.den);
                let right = u128::from(other.rest) * u128::from(self.den);
                left.cmp(&right)
            }
            order => order,
        }
    }

    /// The number times its denominator.
    pub(crate) fn top(&self) -> i128
        ensures value { result ≡ self.now.whole *ℤ pos self.now.den +ℤ pos 1 *ℤ pos self.now.rest }
        ensures small { unsigned_abs result ≤ unsigned_abs self.now.whole * self.now.den + self.now.rest }
    {
        sum_of_products(
            i128::from(self.whole),
            i128::from(self.den),
            1,
            i128::from(self.rest),
        )
    }

    /// The number plus `by`.
    pub fn shift(&self, by: i64) -> Frac
        requires { FitsFloor w64 (add (value self.now) (whole by)) }
        ensures value { value result ≈ add (value self.now) (whole by) }
        ensures den { denominator result ≡ denominator self.now }
    {
        let whole = self.whole + by;
        Frac {
            whole,
            rest: self.rest,
            den: self.den,
        }
    }

    /// `about` minus the number.
    pub fn mirror(&self, about: i64) -> Frac
        requires { FitsFloor w64 (subtract (whole about) (value self.now)) }
        ensures value { value result ≈ subtract (whole about) (value self.now) }
        ensures den { denominator result ≡ denominator self.now }
    {
        if self.rest == 0 {
            return Frac {
                whole: (i128::from(about) - i128::from(self.whole)) as i64,
                rest: 0,
                den: self.den,
            };
        }
        Frac {
            whole: (i128::from(about) - i128::from(self.whole) - 1) as i64,
            rest: self.den - self.rest,
            den: self.den,
        }
    }
}

impl PartialEq for Frac {
    ghost use Rattle.std.specs.Ordering.{on, eq_by_cmp};
    ghost use Rattle.std.proofs.lemmas.Cmp.{on_total, eq_by_cmp_equiv};
    ghost use Rattle.std.specs.Cmp.{partial_equiv_from_equiv};
    ghost use Rattle.rational.specs.Rational.{rational_cmp};
    ghost use Rattle.rational.proofs.Compare.{rational_cmp_total};
    ghost use Rattle.frac128.specs.Value.{value};

    ghost eq = { eq_by_cmp (on value rational_cmp) };

    ghost laws = { partial_equiv_from_equiv (eq_by_cmp_equiv (on_total value rational_cmp_total)) };

    fn eq(&self, other: &Frac) -> bool {
        self.whole == other.whole && self.rest == other.rest && self.den == other.den
    }
}

impl Eq for Frac {
    ghost use Rattle.std.specs.Ordering.{on};
    ghost use Rattle.std.proofs.lemmas.Cmp.{on_total, eq_by_cmp_equiv};
    ghost use Rattle.rational.proofs.Compare.{rational_cmp_total};
    ghost use Rattle.frac128.specs.Value.{value};

    ghost laws = { eq_by_cmp_equiv (on_total value rational_cmp_total) };
}

impl Ord for Frac {
    ghost use Rattle.std.proofs.Common.{rules};
    ghost use Rattle.std.specs.Ordering.{on};
    ghost use Rattle.std.specs.Cmp.Rules.{comparing};
    ghost use Rattle.std.proofs.lemmas.Cmp.{on_total};
    ghost use Rattle.rational.specs.Rational.{rational_cmp};
    ghost use Rattle.rational.proofs.Compare.{rational_cmp_total};
    ghost use Rattle.frac128.specs.Value.{value};

    ghost cmp = { on value rational_cmp };

    ghost total = { on_total value rational_cmp_total };

    ghost matches_partial_cmp = { Prim.search (comparing, rules) };

    ghost matches_eq = { Prim.search (comparing, rules) };

    fn cmp(&self, other: &Frac) -> Ordering {
        Frac::cmp(self, other)
    }
}

impl PartialOrd for Frac {
    ghost use Rattle.std.proofs.Common.{rules};
    ghost use Rattle.std.specs.Ordering.{on, as_partial_cmp};
    ghost use Rattle.std.specs.Cmp.{partial_order_from_own_ties};
    ghost use Rattle.std.specs.Cmp.Rules.{comparing};
    ghost use Rattle.std.proofs.lemmas.Cmp.{on_total};
    ghost use Rattle.rational.specs.Rational.{rational_cmp};
    ghost use Rattle.rational.proofs.Compare.{rational_cmp_total};
    ghost use Rattle.frac128.specs.Value.{value};

    ghost partial_cmp = { as_partial_cmp (on value rational_cmp) };

    ghost laws = { partial_order_from_own_ties (Prim.search (comparing, rules, rational_cmp_total)) (Prim.search (comparing, rules)) };

    fn partial_cmp(&self, other: &Frac) -> Option<Ordering> {
        Some(Frac::cmp(self, other))
    }
}
