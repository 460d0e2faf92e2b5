//! Signals on a part of their domain, and moved in time.
ghost use Rattle.std.specs.Prelude.{◌≡◌, ◌<◌, ◌≤◌, ◌^◌, ◌++◌, ◌∷◌, [], ◌⊎◌, length, slice_range, IfOk, ℤ, ◌-ℤ◌, neg_ℤ};
ghost use Rattle.std.specs.Int.RustNames.{unsigned_abs};
ghost use Rattle.rational.specs.Rational.{add, subtract, whole, IsWithin};
ghost use Rattle.rational.specs.Time.{◌≤ʳ◌, ◌<ʳ◌, ◌≈◌};
ghost use Rattle.frac128.specs.Value.{value};
ghost use Rattle.pl_signal.specs.Knots.{start, stop, time, HasShape, IsSignal, IsWorth};
ghost use Rattle.pl_signal.specs.Limits.{IsLimited};
ghost use Rattle.pl_signal.specs.Cuts.{IsCut, StandsFrom};
ghost use Rattle.pl_signal.specs.Moves.{Tells, BasesFrom};

use crate::signal::place_of;
use crate::{Builder, Knot, Signal};
use frac128::{Frac, Memory};
use std::alloc::Global;
use std::cmp::Ordering;
use value_laws::Shape;

impl<P: Shape> Signal<P> {
    /// The signal on the part of its domain from `from` to `to`.
    ///
    /// # Errors
    ///
    /// `Memory` where memory is wanting.
    pub fn restrict(&self, from: &Frac, to: &Frac) -> Result<Signal<P>, Memory>
        requires order { value from.now ≤ʳ value to.now }
        requires first { start self.now ≤ʳ value from.now }
        requires last { value to.now ≤ʳ stop self.now }
        ensures worth { IfOk result (Tells P.Shape (IsWorth P.Shape self.now) (value from.now) (value to.now)) }
        ensures shapes { IfOk result (λ r. (p : P) → HasShape r p → HasShape self.now p) }
    {
        let knots = cut(self.alloc, &self.knots, from, to)?;
        Ok(Signal::from_knots(self.alloc, knots))
    }

    /// The signal from `from` to `to` that is at `t` what this one is at `t + by`.
    ///
    /// The base of each of its moving shapes is `by` less than that of a moving shape of this signal.
    ///
    /// # Errors
    ///
    /// `Memory` where memory is wanting.
    pub fn shift_clip(&self, by: i64, from: &Frac, to: &Frac) -> Result<Signal<P>, Memory>
        requires limited { IsLimited P.Shape self.now }
        requires bases { (p : P) → HasShape self.now p → unsigned_abs (P.base p -ℤ by) ≤ 2 ^ 34 }
        requires order { value from.now ≤ʳ value to.now }
        requires first { start self.now ≤ʳ add (value from.now) (whole by) }
        requires last { add (value to.now) (whole by) ≤ʳ stop self.now }
        requires from_within { IsWithin (2 ^ 34) (value from.now) }
        requires to_within { IsWithin (2 ^ 34) (value to.now) }
        ensures worth { IfOk result
            (Tells P.Shape (λ t v. IsWorth P.Shape self.now (add t (whole by)) v) (value from.now) (value to.now)) }
        ensures bases { IfOk result (BasesFrom P.Shape (λ b. b -ℤ by) self.now) }
    {
        // For the proof alone: that it is a signal is a clause of `len`.
        let _ = self.len();
        let (begin, end) = (from.shift(by), to.shift(by));
        let part = self.restrict(&begin, &end)?;
        shifted(&part, by, from)
    }

    /// The signal that is at `t` what this one is at `about - t`.
    ///
    /// The base of each of its moving shapes is `about` less that of a moving shape of this signal.
    ///
    /// # Errors
    ///
    /// `Memory` where memory is wanting.
    pub fn mirror(&self, about: i64) -> Result<Signal<P>, Memory>
        requires limited { IsLimited P.Shape self.now }
        requires bases { (p : P) → HasShape self.now p → unsigned_abs (about -ℤ P.base p) ≤ 2 ^ 34 }
        requires from_within { IsWithin (2 ^ 34) (subtract (whole about) (stop self.now)) }
        requires to_within { IsWithin (2 ^ 34) (subtract (whole about) (start self.now)) }
        ensures worth { IfOk result (Tells P.Shape (λ t v. IsWorth P.Shape self.now (subtract (whole about) t) v)
            (subtract (whole about) (stop self.now)) (subtract (whole about) (start self.now))) }
        ensures bases { IfOk result (BasesFrom P.Shape (λ b. about -ℤ b) self.now) }
    {
        let mut i = self.len() - 1;
        let last = self.knot(i);
        let mut built = Builder::with_room(
            self.alloc,
            last.time.mirror(about),
            last.point.mirror(about),
            self.knots.len(),
        )?;
        while i > 0 {
            i -= 1;
            let knot = self.knot(i);
            let after = knot.after.mirror(about);
            built.step(after, knot.time.mirror(about), knot.point.mirror(about))?;
        }
        Ok(built.finish())
    }
}

/// The whole signal moved, so that it begins at `from`.
fn shifted<P: Shape>(s: &Signal<P>, by: i64, from: &Frac) -> Result<Signal<P>, Memory>
    requires bases { (p : P) → HasShape s.now p → unsigned_abs (P.base p -ℤ by) ≤ 2 ^ 34 }
    requires begins { add (value from.now) (whole by) ≈ start s.now }
    requires start_within { IsWithin (2 ^ 34) (start s.now) }
    requires from_within { IsWithin (2 ^ 34) (value from.now) }
    requires to_within { IsWithin (2 ^ 34) (add (stop s.now) (whole (neg_ℤ by))) }
    ensures worth { IfOk result (Tells P.Shape (λ t v. IsWorth P.Shape s.now (add t (whole by)) v)
        (value from.now) (add (stop s.now) (whole (neg_ℤ by)))) }
    ensures bases { IfOk result (BasesFrom P.Shape (λ b. b -ℤ by) s.now) }
{
    let back = -by;
    let count = s.len();
    let mut built = Builder::with_room(s.alloc, *from, s.knot(0).point.shift(by), count)?;
    for i in 1..count {
        let before = s.knot(i - 1);
        let knot = s.knot(i);
        let after = before.after.shift(by);
        built.step(after, knot.time.shift(back), knot.point.shift(by))?;
    }
    Ok(built.finish())
}

/// The knots of the signal on the stretch.
fn cut<P: Shape>(
    alloc: Global,
    knots: &[Knot<P>],
    from: &Frac,
    to: &Frac,
) -> Result<Vec<Knot<P>>, Memory>
    requires signal { IsSignal P.Shape knots.now }
    requires order { value from.now ≤ʳ value to.now }
    requires first { start knots.now ≤ʳ value from.now }
    requires last { value to.now ≤ʳ stop knots.now }
    ensures { IfOk result (λ r. IsCut P.Shape knots.now from.now to.now r.items) }
{
    let i = place_of(knots, from);
    let begin = &knots[i];
    let point = shape_from(begin, from);
    if let Ordering::Equal = from.cmp(to) {
        return instant(alloc, from, point);
    }
    let first = Knot {
        time: *from,
        point,
        after: begin.after,
    };
    let j = place_of(knots, to);
    let end = &knots[j];
    if let Ordering::Equal = end.time.cmp(to) {
        return between(alloc, first, knots, i + 1, j, ending(to, end.point));
    }
    between(alloc, first, knots, i + 1, j + 1, ending(to, end.after))
}

/// The shape that stands at a time not before the knot and before the next one.
fn shape_from<P: Shape>(knot: &Knot<P>, t: &Frac) -> P
    requires { time knot.now ≤ʳ value t.now }
    ensures { StandsFrom knot.now t.now result }
{
    match knot.time.cmp(t) {
        Ordering::Equal => knot.point,
        _ => knot.after,
    }
}

/// The last knot of a signal.
fn ending<P: Shape>(at: &Frac, point: P) -> Knot<P>
    ensures { result ≡ record { time = at.now; point = point; after = point } }
{
    Knot {
        time: *at,
        point,
        after: point,
    }
}

/// The knots of a signal of one instant.
fn instant<P: Shape>(alloc: Global, at: &Frac, point: P) -> Result<Vec<Knot<P>>, Memory>
    ensures { IfOk result (λ r. r.items ≡ record { time = at.now; point = point; after = point } ∷ []) }
{
    let mut knots = Vec::new(alloc);
    knots.push(ending(at, point))?;
    Ok(knots)
}

/// The knots from the place `from` up to `to`, with a first and a last one about them, in one allocation.
fn between<P: Shape>(
    alloc: Global,
    first: Knot<P>,
    knots: &[Knot<P>],
    from: usize,
    to: usize,
    last: Knot<P>,
) -> Result<Vec<Knot<P>>, Memory>
    requires after_one { 0 < from }
    requires order { from ≤ to }
    requires before_one { to < length knots.now }
    requires few { length knots.now < 2 ^ 64 }
    ensures { IfOk result (λ r. r.items ≡ first ∷ slice_range knots.now from to ++ last ∷ []) }
{
    let inner = &knots[from..to];
    let mut built = Vec::with_capacity(alloc, to - from + 2)?;
    built.push(first)?;
    built.extend_from_slice(inner)?;
    built.push(last)?;
    Ok(built)
}
