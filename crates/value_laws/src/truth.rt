//! Truth over time.
ghost use Rattle.std.specs.Prelude.{◌≡◌};

use crate::Shape;
use frac128::{Frac, WideFrac};
use std::cmp::Ordering;

/// Truth: 1 where it holds and -1 where it fails, at every time.
#[derive(Clone, Copy, Debug, PartialEq, Eq)]
pub struct Truth {
    holds: bool,
}

impl Truth {
    /// The truth that `holds` says.
    pub fn of(holds: bool) -> Truth
        ensures { result.holds ≡ holds }
    {
        Truth { holds }
    }

    /// Whether it holds.
    pub fn holds(&self) -> bool
        ensures { result ≡ self.now.holds }
    {
        self.holds
    }
}

impl Shape for Truth {
    ghost use Rattle.std.specs.Prelude.{pos, negsuc, false};
    ghost use Rattle.rational.specs.Extended.{finite};
    ghost use Rattle.rational.specs.Rational.{whole};
    ghost use Rattle.value_laws.specs.Values.{truth_value, minus_one_to_truth, truth_to_one};
    ghost use Rattle.rational.specs.Affine.{level};
    ghost use Rattle.std.proofs.Common.{rules, lit≤, refl};
    ghost use Rattle.rational.proofs.LevelLemmas.{level_at_least, level_at_most};

    ghost function = { λ s. level (truth_value s.holds) };

    ghost base = { λ _. pos 0 };

    ghost moves = { λ _. false };

    ghost lowest = { finite (whole (negsuc 0)) };

    ghost highest = { finite (whole (pos 1)) };

    ghost may_be_wide = { false };

    ghost base_within = { λ p. lit≤ tt };

    ghost base_of_others = { λ p e. refl };

    ghost lowest_is_least = { λ p t. level_at_least (negsuc 0) (truth_value p.holds) t (minus_one_to_truth p.holds) };

    ghost highest_is_greatest = { λ p t. level_at_most (pos 1) (truth_value p.holds) t (truth_to_one p.holds) };

    ghost lowest_bounded = { Prim.search rules };

    ghost highest_bounded = { Prim.search rules };

    ghost lowest_to_highest = { Prim.search rules };

    fn neg(&self) -> Truth {
        Truth { holds: !self.holds }
    }

    fn shift(&self, _by: i64) -> Truth {
        *self
    }

    fn mirror(&self, _about: i64) -> Truth {
        *self
    }

    fn cmp_at(p: &Truth, q: &Truth, _t: &Frac) -> Ordering {
        if p.holds == q.holds {
            return Ordering::Equal;
        }
        if p.holds {
            Ordering::Greater
        } else {
            Ordering::Less
        }
    }

    fn rises(&self) -> Ordering {
        Ordering::Equal
    }

    fn least() -> Truth {
        Truth { holds: false }
    }

    fn greatest() -> Truth {
        Truth { holds: true }
    }

    fn cross(_p: &Truth, _q: &Truth, _l: &Frac, _r: &Frac) -> Result<Option<Frac>, WideFrac> {
        Ok(None)
    }

    fn fix(&self, _t: &Frac) -> Result<Truth, WideFrac> {
        Ok(*self)
    }

    fn same(p: &Truth, q: &Truth) -> bool {
        p.holds == q.holds
    }
}
