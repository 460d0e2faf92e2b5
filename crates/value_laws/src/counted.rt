//! Constants whose every comparison is counted.
ghost use Rattle.std.specs.Prelude.{◌≡◌, ◌+◌, pos};
ghost use Rattle.rational.specs.Rational.{whole};
ghost use Rattle.rational.specs.Extended.{value_at};
ghost use Rattle.rational.specs.Affine.{IsSteady, IsOrderᵉ};

use crate::Shape;
use frac128::{Frac, Steps};
use std::cmp::Ordering;
use std::marker::Model;
use std::sync::ledger::Ledger;

/// A constant value that running code can only compare; no call gives the value back.
///
/// Each comparison is a step of the caller's counter, so that a bound on the steps is a bound on the work.
#[derive(Drop)]
pub struct Counted<P: Shape> {
    shape: P,
}

impl<P: Shape> Model for Counted<P> {
    ghost use Rattle.rational.specs.Affine.{IsSteady};

    ghost Value = { P };

    ghost view = { λ c. c.shape };

    ghost invariant = { λ c. IsSteady (P.function c.shape) };
}

impl<P: Shape> Counted<P> {
    /// The value of a constant shape.
    pub fn of(p: P) -> Counted<P>
        requires { IsSteady (P.function p) }
        ensures { result ≡ p }
    {
        Counted { shape: p }
    }

    /// The order of the two values. It is one step.
    pub fn cmp<L: Ledger>(&self, other: &Counted<P>, steps: &mut Steps<L>) -> Ordering
        ensures order { IsOrderᵉ result
            (value_at (P.function self.now) (whole (pos 0)))
            (value_at (P.function other.now) (whole (pos 0))) }
        ensures step { steps.new ≡ steps.old + 1 }
    {
        steps.tick();
        P::cmp_at(&self.shape, &other.shape, &Frac::of(0))
    }
}
