//! Signals, and how they are read.
ghost use Rattle.std.specs.Prelude.{◌≡◌, ◌+◌, ◌<◌, ◌^◌, length, slice_get, Some, MatchOption};
ghost use Rattle.rational.specs.Time.{Rational, Within, ◌≤ʳ◌, ◌<ʳ◌};
ghost use Rattle.rational.specs.Extended.{value_at};
ghost use Rattle.frac128.specs.Value.{value};
ghost use Rattle.pl_signal.specs.declared.knot.Knot.{Knot};
ghost use Rattle.pl_signal.specs.Knots.{start, stop, time, HasShape, IsSignal, IsWorth};

use crate::Knot;
use frac128::Frac;
use std::alloc::Global;
use std::cmp::Ordering;
use std::marker::Model;
use value_laws::Shape;

/// A value at each time from its first knot to its last, both included.
///
/// It has at least one knot, their times rise strictly, and no knot but the first and the last could be left out. Contracts
/// see it as the list of its knots; `IsWorth` says what it is worth at a time.
#[derive(Drop)]
pub struct Signal<P: Shape> {
    pub(crate) alloc: Global,
    pub(crate) knots: Vec<Knot<P>>,
}

impl<P: Shape> Model for Signal<P> {
    ghost use Rattle.std.specs.Prelude.{List};
    ghost use Rattle.pl_signal.specs.declared.knot.Knot.{Knot};

    ghost Value = { List (Knot P) };

    ghost use Rattle.pl_signal.specs.Knots.{IsSignal};

    ghost view = { λ s. s.knots.items };

    ghost invariant = { λ s. IsSignal P.Shape s.knots.items };
}

impl<P: Shape> Signal<P> {
    /// The number of knots: the start, each time at which the function changes, and the end.
    pub fn len(&self) -> usize
        ensures value { result ≡ length self.now }
        ensures some { 0 < result }
        ensures signal { IsSignal P.Shape self.now }
    {
        self.knots.len()
    }

    /// The allocator that the signal keeps, for what is built from it.
    pub fn alloc(&self) -> Global {
        self.alloc
    }

    /// A knot by its place.
    pub fn knot(&self, i: usize) -> Knot<P>
        requires { i < length self.now }
        ensures { slice_get self.now i ≡ Some result }
    {
        self.knots[i]
    }

    /// A knot by its place, where it stands in the signal.
    pub fn knot_in_place(&self, i: usize) -> &Knot<P>
        requires { i < length self.now }
        ensures { slice_get self.now i ≡ Some result.now }
    {
        &self.knots[i]
    }

    /// The time of the first knot.
    pub fn start(&self) -> Frac
        ensures value { value result ≡ start self.now }
        ensures signal { IsSignal P.Shape self.now }
    {
        self.knots[0].time
    }

    /// The time of the last knot.
    pub fn stop(&self) -> Frac
        ensures value { value result ≡ stop self.now }
        ensures signal { IsSignal P.Shape self.now }
    {
        self.knots[self.knots.len() - 1].time
    }

    /// A shape with the signal's value at `t`. None exactly where `t` is outside the domain.
    pub fn at(&self, t: &Frac) -> Option<P>
        ensures { MatchOption result
            (¬ Within (start self.now) (stop self.now) (value t.now))
            (λ p. Within (start self.now) (stop self.now) (value t.now)
            × HasShape self.now p
            × IsWorth P.Shape self.now (value t.now) (value_at (P.function p) (value t.now))) }
    {
        if let Ordering::Greater = self.knots[0].time.cmp(t) {
            return None;
        }
        let place = place_of(&self.knots, t);
        let knot = &self.knots[place];
        if let Ordering::Equal = knot.time.cmp(t) {
            return Some(knot.point);
        }
        if place + 1 == self.knots.len() {
            return None;
        }
        Some(knot.after)
    }

    pub(crate) fn from_knots(alloc: Global, knots: Vec<Knot<P>>) -> Signal<P>
        requires { IsSignal P.Shape knots.items }
        ensures { result ≡ knots.items }
    {
        Signal { alloc, knots }
    }
}

/// The place of the last knot that is not later than `t`, by halving.
pub(crate) fn place_of<P>(knots: &[Knot<P>], t: &Frac) -> usize
    requires some { 0 < length knots.now }
    requires first { start knots.now ≤ʳ value t.now }
    ensures inside { result < length knots.now }
    ensures few { length knots.now < 2 ^ 64 }
    ensures not_later { (k : Knot P) → slice_get knots.now result ≡ Some k → time k ≤ʳ value t.now }
    ensures later { (k : Knot P) → slice_get knots.now (result + 1) ≡ Some k → value t.now <ʳ time k }
{
    let mut from = 0;
    let mut to = knots.len();
    while from + 1 < to {
        let middle = from + (to - from) / 2;
        match knots[middle].time.cmp(t) {
            Ordering::Greater => to = middle,
            _ => from = middle,
        }
    }
    from
}
