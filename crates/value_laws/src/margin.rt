//! Margins over time.
ghost use Rattle.std.specs.Prelude.{IsTrue, ◌↔◌};
ghost use Rattle.rational.specs.Rational.{Rational, ◌≈◌};
ghost use Rattle.rational.specs.Line.{at};
ghost use Rattle.frac128.specs.Line.{line};
ghost use Rattle.frac128.specs.Value.{value};

use crate::Shape;
use frac128::{Frac, Ramp, WideFrac};
use std::cmp::Ordering;

/// By how much a formula holds: -inf, inf, a constant, or a ramp, in ticks.
///
/// Source: the robustness of Donzé, Ferrère and Maler 2013, over time.
#[derive(Clone, Copy, Debug)]
pub enum Margin {
    /// -inf at every time.
    Low,
    /// inf at every time.
    High,
    /// One number at every time.
    Fixed(Frac),
    /// A line over time.
    Ramp(Ramp),
}

impl Shape for Margin {
    ghost use Rattle.std.specs.Prelude.{true};
    ghost use Rattle.rational.specs.Extended.{minus_infinity, infinity};
    ghost use Rattle.value_laws.specs.Margins.{margin_function, margin_base, is_ramp, margin_base_within, others_base};
    ghost use Rattle.rational.specs.Extended.{value_at};
    ghost use Rattle.rational.proofs.ExtendedLemmas.{below_infinity};

    ghost function = { margin_function };

    ghost base = { margin_base };

    ghost moves = { is_ramp };

    ghost lowest = { minus_infinity };

    ghost highest = { infinity };

    ghost may_be_wide = { true };

    ghost base_within = { margin_base_within };

    ghost base_of_others = { others_base };

    ghost lowest_is_least = { λ p t. tt };

    ghost highest_is_greatest = { λ p t. below_infinity (value_at (margin_function p) t) };

    ghost lowest_bounded = { tt };

    ghost highest_bounded = { tt };

    ghost lowest_to_highest = { tt };

    fn neg(&self) -> Margin {
        match self {
            Margin::Low => Margin::High,
            Margin::High => Margin::Low,
            Margin::Fixed(c) => Margin::Fixed(c.mirror(0)),
            Margin::Ramp(f) => Margin::Ramp(f.neg()),
        }
    }

    fn shift(&self, by: i64) -> Margin {
        match self {
            Margin::Ramp(f) => Margin::Ramp(f.shift(by)),
            other => *other,
        }
    }

    fn mirror(&self, about: i64) -> Margin {
        match self {
            Margin::Ramp(f) => Margin::Ramp(f.mirror(about)),
            other => *other,
        }
    }

    fn cmp_at(p: &Margin, q: &Margin, t: &Frac) -> Ordering {
        match (p, q) {
            (Margin::Ramp(f), Margin::Ramp(g)) => f.cmp_ramp(g, t),
            (Margin::Ramp(f), Margin::Fixed(c)) => f.cmp_const(c, t),
            (Margin::Fixed(c), Margin::Ramp(f)) => f.cmp_const(c, t).reverse(),
            (Margin::Fixed(c), Margin::Fixed(d)) => c.cmp(d),
            (Margin::Low, Margin::Low) | (Margin::High, Margin::High) => Ordering::Equal,
            (Margin::Low, _) | (_, Margin::High) => Ordering::Less,
            (Margin::High, _) | (_, Margin::Low) => Ordering::Greater,
        }
    }

    fn rises(&self) -> Ordering {
        match self {
            Margin::Ramp(f) => f.rises(),
            _ => Ordering::Equal,
        }
    }

    fn least() -> Margin {
        Margin::Low
    }

    fn greatest() -> Margin {
        Margin::High
    }

    fn cross(p: &Margin, q: &Margin, l: &Frac, r: &Frac) -> Result<Option<Frac>, WideFrac> {
        match (p, q) {
            (Margin::Ramp(f), Margin::Ramp(g)) => f.meet_ramp(g, l, r),
            (Margin::Ramp(f), Margin::Fixed(c)) => f.meet_const(c, l, r),
            (Margin::Fixed(c), Margin::Ramp(f)) => f.meet_const(c, l, r),
            _ => Ok(None),
        }
    }

    fn fix(&self, t: &Frac) -> Result<Margin, WideFrac> {
        match self {
            Margin::Ramp(f) => match f.fix(t) {
                Ok(c) => Ok(Margin::Fixed(c)),
                Err(wide) => Err(wide),
            },
            other => Ok(*other),
        }
    }

    #[inline(always)]
    fn same(p: &Margin, q: &Margin) -> bool {
        match (p, q) {
            (Margin::Ramp(f), Margin::Ramp(g)) => f.same(g),
            (Margin::Ramp(f), Margin::Fixed(c)) => is_level(f, c),
            (Margin::Fixed(c), Margin::Ramp(f)) => is_level(f, c),
            (Margin::Fixed(c), Margin::Fixed(d)) => *c == *d,
            (Margin::Low, Margin::Low) | (Margin::High, Margin::High) => true,
            _ => false,
        }
    }
}

/// Whether the ramp has the value `c` at every time.
fn is_level(f: &Ramp, c: &Frac) -> bool
    ensures { IsTrue result ↔ ((t : Rational) → at (line f.now) t ≈ value c.now) }
{
    f.rises().is_eq() && f.cmp_const(c, &Frac::of(0)).is_eq()
}
