//! How signals are built.
ghost use Rattle.std.specs.Prelude.{◌≡◌, ◌<◌, ◌≤◌, ◌+◌, ◌∷◌, ◌++◌, [], ◌^◌, ◌↔◌, List, length, None, IsTrue, IfOk, IfErr, IfSome, OnOk, OnErr, vec_len, vec_capacity};
ghost use Rattle.rational.specs.Rational.{IsWithin};
ghost use Rattle.rational.specs.Time.{◌<ʳ◌};
ghost use Rattle.rational.specs.Extended.{value_at, ◌≈ᵉ◌};
ghost use Rattle.rational.specs.Affine.{AreSame, HasBoundedLevel};
ghost use Rattle.frac128.specs.Value.{value};
ghost use Rattle.pl_signal.specs.declared.knot.Knot.{Knot};
ghost use Rattle.pl_signal.specs.Knots.{stop, IsSignal};
ghost use Rattle.frac128.specs.declared.frac.Frac.{Frac};
ghost use Rattle.pl_signal.specs.Building.{GoesOn};
ghost use Rattle.pl_signal.specs.Joining.{IsGapFault, IsTurn, Joins, TurnsOver};
ghost use Rattle.pl_signal.specs.declared.joining.Side.{Side as Wanted};
ghost use Rattle.pl_signal.specs.declared.faults.OpFault.TheVariants as F;

use crate::faults::fault_of;
use crate::joining::{crossing_kept, takes_first};
use crate::{Knot, OpFault, Side, Signal, WidePair};
use frac128::{Frac, Memory};
use std::alloc::Global;
use std::marker::Model;
use value_laws::Shape;

/// A signal that grows at its end. Contracts see it as the list of its knots so far.
#[derive(Drop)]
pub struct Builder<P: Shape> {
    alloc: Global,
    knots: Vec<Knot<P>>,
}

impl<P: Shape> Model for Builder<P> {
    ghost use Rattle.std.specs.Prelude.{List};
    ghost use Rattle.pl_signal.specs.declared.knot.Knot.{Knot};

    ghost Value = { List (Knot P) };

    ghost use Rattle.pl_signal.specs.Knots.{IsSignal};

    ghost view = { λ s. s.knots.items };

    ghost invariant = { λ s. IsSignal P.Shape s.knots.items };
}

impl<P: Shape> Builder<P> {
    /// The signal of one instant.
    ///
    /// # Errors
    ///
    /// `Memory` where memory is wanting.
    pub fn start(alloc: Global, at: Frac, point: P) -> Result<Builder<P>, Memory>
        ensures { IfOk result (λ b. b ≡ record { time = at; point = point; after = point } ∷ []) }
    {
        let knots = Vec::new(alloc);
        begun(alloc, knots, at, point)
    }

    /// The signal of one instant, with memory at once for as many knots as `room` says. A signal that is built of no more asks
    /// for memory only here.
    ///
    /// # Errors
    ///
    /// `Memory` where memory is wanting.
    pub fn with_room(alloc: Global, at: Frac, point: P, room: usize) -> Result<Builder<P>, Memory>
        ensures { IfOk result (λ b. b ≡ record { time = at; point = point; after = point } ∷ []) }
    {
        let knots = Vec::with_capacity(alloc, room)?;
        begun(alloc, knots, at, point)
    }

    /// The signal of one instant, in the memory of a signal that is of no more use.
    ///
    /// # Errors
    ///
    /// `Memory` where memory is wanting.
    pub fn again(old: Signal<P>, at: Frac, point: P) -> Result<Builder<P>, Memory>
        ensures { IfOk result (λ b. b ≡ record { time = at; point = point; after = point } ∷ []) }
    {
        let Signal { alloc, mut knots } = old;
        knots.clear();
        begun(alloc, knots, at, point)
    }

    /// The time of the last knot so far.
    pub fn stop(&self) -> Frac
        ensures value { value result ≡ stop self.now }
        ensures signal { IsSignal P.Shape self.now }
    {
        self.knots[self.knots.len() - 1].time
    }

    /// Goes on from the last time: `after` on the open gap up to `at`, and `point` there. Without memory for it the signal
    /// stays as it was.
    ///
    /// A last knot that is no longer needed, since the shape before it, its point and `after` are of one function, leaves.
    ///
    /// # Errors
    ///
    /// `Memory` where memory is wanting.
    pub fn step(&mut self, after: P, at: Frac, point: P) -> Result<(), Memory>
        requires limited { IsWithin (2 ^ 34) (stop self.old) }
        requires later { stop self.old <ʳ value at }
        ensures ok { OnOk result (GoesOn P.Shape self.old after at point self.new) }
        ensures err { OnErr result (self.new ≡ self.old) }
    {
        self.knots.reserve(1)?;
        go_on(&mut self.knots, &after, &at, &point);
        Ok(())
    }

    /// Goes on from the last time: the least of the two shapes at each time, or the greatest, on the open gap up to `to`, and
    /// `point` there. With an `Err` the signal stays as it was.
    ///
    /// It is refused as `Wide` only where the two cross on the gap, at a time that needs a denominator of 2^60 or more.
    ///
    /// # Errors
    ///
    /// `Wide` where the two cross at a time that needs a denominator of 2^60 or more; `Memory` where memory is wanting.
    pub fn join(&mut self, side: Side, p: &P, q: &P, to: &Frac, point: P) -> Result<(), OpFault<P>>
        requires order { stop self.old <ʳ value to.now }
        requires from_within { IsWithin (2 ^ 34) (stop self.old) }
        requires to_within { IsWithin (2 ^ 34) (value to.now) }
        requires first { HasBoundedLevel (2 ^ 31) (P.function p.now) }
        requires second { HasBoundedLevel (2 ^ 31) (P.function q.now) }
        ensures ok { OnOk result (Joins P.Shape side self.old p.now q.now to.now point self.new) }
        ensures err { OnErr result (self.new ≡ self.old) }
        ensures wide { IfErr result
            (λ e. (from : Frac) × (value from ≡ stop self.old) × IsGapFault P.Shape p.now q.now from to.now e) }
    {
        // For the proof alone: the last time is that of a knot.
        let _ = self.stop();
        let mut fault = None;
        match self.join_kept(side, p, q, to, &point, &mut fault) {
            Ok(()) => Ok(()),
            Err(Memory) => Err(fault_of(fault)),
        }
    }

    /// Does what `join` does, and puts what is refused into `fault`, so that the answer is small. Nothing is put there for want of memory.
    ///
    /// # Errors
    ///
    /// `Memory` where the two cross at a time that needs a denominator of 2^60 or more, and where memory is wanting.
    #[inline(always)]
    pub fn join_kept(
        &mut self,
        side: Side,
        p: &P,
        q: &P,
        to: &Frac,
        point: &P,
        fault: &mut Option<WidePair<P>>,
    ) -> Result<(), Memory>
        requires order { stop self.old <ʳ value to.now }
        requires from_within { IsWithin (2 ^ 34) (stop self.old) }
        requires to_within { IsWithin (2 ^ 34) (value to.now) }
        requires first { HasBoundedLevel (2 ^ 31) (P.function p.now) }
        requires second { HasBoundedLevel (2 ^ 31) (P.function q.now) }
        requires none { fault.old ≡ None }
        ensures ok { OnOk result (Joins P.Shape side self.old p.now q.now to.now point.now self.new) }
        ensures still { OnOk result (fault.new ≡ None) }
        ensures err { OnErr result (self.new ≡ self.old) }
        ensures wide { OnErr result (IfSome fault.new
            (λ pair. (from : Frac) × (value from ≡ stop self.old) × IsGapFault P.Shape p.now q.now from to.now (F.Wide pair))) }
    {
        let from = self.stop();
        match takes_first(side, p, q, &from, to) {
            Ok(true) => self.go_along(p, to, point),
            Ok(false) => self.go_along(q, to, point),
            Err(first) => self.join_crossing(p, q, first, to, point, fault),
        }
    }

    /// Goes on with two shapes that cross, with the one up to there and with the other behind it; `first` says whether p is taken before, and
    /// q after.
    #[inline(never)]
    fn join_crossing(
        &mut self,
        p: &P,
        q: &P,
        first: bool,
        to: &Frac,
        point: &P,
        fault: &mut Option<WidePair<P>>,
    ) -> Result<(), Memory>
        requires order { stop self.old <ʳ value to.now }
        requires from_within { IsWithin (2 ^ 34) (stop self.old) }
        requires to_within { IsWithin (2 ^ 34) (value to.now) }
        requires first { HasBoundedLevel (2 ^ 31) (P.function p.now) }
        requires second { HasBoundedLevel (2 ^ 31) (P.function q.now) }
        requires turned { TurnsOver (P.function p.now) (P.function q.now) (stop self.old) (value to.now) }
        requires none { fault.old ≡ None }
        ensures ok { (side : Wanted) → IsTurn P.Shape side p.now q.now (stop self.old) (value to.now) first
            → OnOk result (Joins P.Shape side self.old p.now q.now to.now point.now self.new) }
        ensures still { OnOk result (fault.new ≡ None) }
        ensures err { OnErr result (self.new ≡ self.old) }
        ensures wide { OnErr result (IfSome fault.new
            (λ pair. (from : Frac) × (value from ≡ stop self.old) × IsGapFault P.Shape p.now q.now from to.now (F.Wide pair))) }
    {
        let from = self.stop();
        let middle = crossing_kept(p, q, &from, to, fault)?;
        self.knots.reserve(2)?;
        if first {
            put_two(&mut self.knots, p, &middle, q, to, point);
            return Ok(());
        }
        put_two(&mut self.knots, q, &middle, p, to, point);
        Ok(())
    }

    /// Does what `step` does, with no copies of what it is given.
    ///
    /// # Errors
    ///
    /// `Memory` where memory is wanting.
    #[inline(always)]
    pub fn go_along(&mut self, after: &P, to: &Frac, point: &P) -> Result<(), Memory>
        requires limited { IsWithin (2 ^ 34) (stop self.old) }
        requires later { stop self.old <ʳ value to.now }
        ensures ok { OnOk result (GoesOn P.Shape self.old after.now to.now point.now self.new) }
        ensures err { OnErr result (self.new ≡ self.old) }
    {
        self.knots.reserve(1)?;
        go_on(&mut self.knots, after, to, point);
        Ok(())
    }

    /// The signal that was built.
    pub fn finish(self) -> Signal<P>
        ensures value { result ≡ self }
        ensures signal { IsSignal P.Shape result }
    {
        let Builder { alloc, knots } = self;
        Signal::from_knots(alloc, knots)
    }
}

/// The signal of one instant, whose knots come into `knots`.
fn begun<P: Shape>(
    alloc: Global,
    mut knots: Vec<Knot<P>>,
    at: Frac,
    point: P,
) -> Result<Builder<P>, Memory>
    requires { knots.items ≡ [] }
    ensures { IfOk result (λ b. b ≡ record { time = at; point = point; after = point } ∷ []) }
{
    let only = Knot {
        time: at,
        point,
        after: point,
    };
    knots.push(only)?;
    Ok(Builder { alloc, knots })
}

/// Goes on with the one up to the time `middle` and at it, then with the other up to `to`, and with `point` there. There is room
/// for two knots.
fn put_two<P: Shape>(
    knots: &mut Vec<Knot<P>>,
    first: &P,
    middle: &Frac,
    second: &P,
    to: &Frac,
    point: &P,
)
    requires signal { IsSignal P.Shape knots.old.items }
    requires room { vec_len knots.old + 2 ≤ vec_capacity knots.old }
    requires from_within { IsWithin (2 ^ 34) (stop knots.old.items) }
    requires to_within { IsWithin (2 ^ 34) (value to.now) }
    requires after { stop knots.old.items <ʳ value middle.now }
    requires before { value middle.now <ʳ value to.now }
    ensures { (half : List (Knot P)) × GoesOn P.Shape knots.old.items first.now middle.now first.now half
        × GoesOn P.Shape half second.now to.now point.now knots.new.items }
{
    go_on(knots, first, middle, first);
    go_on(knots, second, to, point);
}

/// Goes on from the last knot. There is room for one more.
fn go_on<P: Shape>(knots: &mut Vec<Knot<P>>, after: &P, at: &Frac, point: &P)
    requires signal { IsSignal P.Shape knots.old.items }
    requires room { vec_len knots.old < vec_capacity knots.old }
    requires limited { IsWithin (2 ^ 34) (stop knots.old.items) }
    requires later { stop knots.old.items <ʳ value at.now }
    ensures on { GoesOn P.Shape knots.old.items after.now at.now point.now knots.new.items }
    ensures one_more { vec_len knots.new ≤ vec_len knots.old + 1 }
    ensures room { vec_capacity knots.new ≡ vec_capacity knots.old }
{
    let last = knots.len() - 1;
    if last == 0 {
        append(knots, after, at, point);
        return;
    }
    let spare = can_be_left_out(&knots[last - 1].after, &knots[last], after);
    if spare {
        knots[last] = Knot {
            time: *at,
            point: *point,
            after: *point,
        };
        return;
    }
    append(knots, after, at, point);
}

/// Whether the shape before the knot, the knot's point and the shape after it are of one function.
fn can_be_left_out<P: Shape>(before: &P, knot: &Knot<P>, after: &P) -> bool
    requires { IsWithin (2 ^ 34) (value knot.now.time) }
    ensures { IsTrue result
        ↔ ((value_at (P.function before.now) (value knot.now.time) ≈ᵉ value_at (P.function knot.now.point) (value knot.now.time))
        × AreSame (P.function before.now) (P.function after.now)) }
{
    P::same(before, after) && P::cmp_at(before, &knot.point, &knot.time).is_eq()
}

/// Puts the shape after the last knot, and a new end behind it. There is room for it.
fn append<P: Shape>(knots: &mut Vec<Knot<P>>, after: &P, at: &Frac, point: &P)
    requires some { 0 < length knots.old.items }
    requires room { vec_len knots.old < vec_capacity knots.old }
    ensures put { (front : List (Knot P)) (last : Knot P)
        → knots.old.items ≡ front ++ last ∷ []
        → knots.new.items ≡ front ++ record { time = last.time; point = last.point; after = after.now }
        ∷ record { time = at.now; point = point.now; after = point.now } ∷ [] }
    ensures one_more { vec_len knots.new ≡ vec_len knots.old + 1 }
    ensures room { vec_capacity knots.new ≡ vec_capacity knots.old }
{
    let last = knots.len() - 1;
    let end = Knot {
        time: *at,
        point: *point,
        after: *point,
    };
    knots.push_reserved(end);
    knots[last].after = *after;
}
