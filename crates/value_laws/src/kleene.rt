//! Three-valued truth over time.
ghost use Rattle.std.specs.Prelude.{◌≡◌};
ghost use Rattle.value_laws.specs.Values.{kleene_value};

use crate::Shape;
use frac128::{Frac, WideFrac};
use std::cmp::Ordering;

/// Three-valued truth (Kleene): 1 where certainly true, -1 where certainly false and 0 where neither, at every time.
#[derive(Clone, Copy, Debug, PartialEq, Eq)]
pub struct Kleene {
    known: Option<bool>,
}

impl Kleene {
    /// The truth that is known, or neither.
    pub fn of(known: Option<bool>) -> Kleene
        ensures { result.known ≡ known }
    {
        Kleene { known }
    }

    /// The truth, where it is certain.
    pub fn known(&self) -> Option<bool>
        ensures { result ≡ self.now.known }
    {
        self.known
    }

    /// The value as a number: 1 for certainly true, -1 for certainly false, 0 for neither.
    fn sign(&self) -> i8
        ensures { result ≡ kleene_value self.now.known }
    {
        match self.known {
            Some(true) => 1,
            Some(false) => -1,
            None => 0,
        }
    }
}

impl Shape for Kleene {
    ghost use Rattle.std.specs.Prelude.{pos, negsuc, false};
    ghost use Rattle.rational.specs.Extended.{finite};
    ghost use Rattle.rational.specs.Rational.{whole};
    ghost use Rattle.value_laws.specs.Values.{kleene_value, minus_one_to_kleene, kleene_to_one};
    ghost use Rattle.rational.specs.Affine.{level};
    ghost use Rattle.std.proofs.Common.{rules, lit≤, refl};
    ghost use Rattle.rational.proofs.LevelLemmas.{level_at_least, level_at_most};

    ghost function = { λ s. level (kleene_value s.known) };

    ghost base = { λ _. pos 0 };

    ghost moves = { λ _. false };

    ghost lowest = { finite (whole (negsuc 0)) };

    ghost highest = { finite (whole (pos 1)) };

    ghost may_be_wide = { false };

    ghost base_within = { λ p. lit≤ tt };

    ghost base_of_others = { λ p e. refl };

    ghost lowest_is_least = { λ p t. level_at_least (negsuc 0) (kleene_value p.known) t (minus_one_to_kleene p.known) };

    ghost highest_is_greatest = { λ p t. level_at_most (pos 1) (kleene_value p.known) t (kleene_to_one p.known) };

    ghost lowest_bounded = { Prim.search rules };

    ghost highest_bounded = { Prim.search rules };

    ghost lowest_to_highest = { Prim.search rules };

    fn neg(&self) -> Kleene {
        Kleene {
            known: match self.known {
                Some(holds) => Some(!holds),
                None => None,
            },
        }
    }

    fn shift(&self, _by: i64) -> Kleene {
        *self
    }

    fn mirror(&self, _about: i64) -> Kleene {
        *self
    }

    fn cmp_at(p: &Kleene, q: &Kleene, _t: &Frac) -> Ordering {
        p.sign().cmp(&q.sign())
    }

    fn rises(&self) -> Ordering {
        Ordering::Equal
    }

    fn least() -> Kleene {
        Kleene { known: Some(false) }
    }

    fn greatest() -> Kleene {
        Kleene { known: Some(true) }
    }

    fn cross(_p: &Kleene, _q: &Kleene, _l: &Frac, _r: &Frac) -> Result<Option<Frac>, WideFrac> {
        Ok(None)
    }

    fn fix(&self, _t: &Frac) -> Result<Kleene, WideFrac> {
        Ok(*self)
    }

    fn same(p: &Kleene, q: &Kleene) -> bool {
        p.sign().cmp(&q.sign()).is_eq()
    }
}
