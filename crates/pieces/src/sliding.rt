//! A window on its way over a function of time: what it has told, and the steps down that it will give, should no more come into it.
//! Source: the steps are the monotonic wedge of Lemire 2006, over pieces of a function in the place of samples.
ghost use Rattle.std.specs.Prelude.{◌≡◌, ◌⊎◌, ◌^◌, ◌∷◌, [], List, Some, IsTrue, IfOk, IfSome, None, OnErr, OnOk};
ghost use Rattle.rational.specs.Rational.{IsWithin};
ghost use Rattle.rational.specs.Affine.{HasBoundedLevel};
ghost use Rattle.rational.specs.Places.{AtMost, Before, Same};
ghost use Rattle.frac128.specs.Value.{value as value_of};
ghost use Rattle.frac128.specs.Cuts.{place};
ghost use Rattle.pieces.specs.Best.{FallsFrom, RisesFrom};
ghost use Rattle.pieces.specs.Chains.{stop};
ghost use Rattle.pieces.specs.Steps.{AreSteps, IsLastChoice, IsOfStep, IsStep, step_end};
ghost use Rattle.pieces.specs.Sliding.{HasTold, IsCrossFault, IsToldFault, IsWritten};

use crate::Pieces;
use crate::order::order_of;
use crate::steps::Step;
use frac128::{Cut, Memory};
use pl_signal::{Side, WidePair, crossing, favour, keep};
use std::cmp::Ordering;
use std::collections::VecDeque;
use value_laws::Shape;

/// What a window has told so far, and what it will give, should no more come into it: the first step begins where the told ends.
#[derive(Drop)]
pub(crate) struct Sliding<P: Shape> {
    pub(crate) out: Pieces<P>,
    pub(crate) steps: VecDeque<Step<P>>,
}

impl<P: Shape> Sliding<P> {
    /// Tells up to a place: at each time the better of what the steps give and of a shape that gets no worse on the way, and behind the last step
    /// that shape. Steps that end by then are gone. The steps count `alone` where the shape is no better than anything.
    ///
    /// It is refused only for a crossing of two shapes that count, at a time that needs a denominator of 2^60 or more: the pair is then
    /// in `fault`.
    ///
    /// # Errors
    ///
    /// `Memory` where a crossing is refused, and where memory is wanting.
    pub(crate) fn tell(
        &mut self,
        side: Side,
        gap: &P,
        alone: bool,
        until: &Cut,
        fault: &mut Option<WidePair<P>>,
    ) -> Result<(), Memory>
        requires alone { IsTrue alone → IsLastChoice P.Shape side gap.now }
        requires steps { AreSteps P.Shape side (stop self.old.out) self.old.steps.items }
        requires rises { RisesFrom side (stop self.old.out).at (value_of until.now.time) (P.function gap.now) }
        requires level { HasBoundedLevel (2 ^ 31) (P.function gap.now) }
        requires from_within { IsWithin (2 ^ 34) (stop self.old.out).at }
        requires to_within { IsWithin (2 ^ 34) (value_of until.now.time) }
        requires order { AtMost (stop self.old.out) (place until.now) }
        requires none { fault.old ≡ None }
        ensures told { OnOk result (HasTold P.Shape side gap.now self.old self.new) }
        ensures ends { OnOk result (Same (stop self.new.out) (place until.now)) }
        ensures still { OnOk result (fault.new ≡ None) }
        ensures wide { OnErr result (IfSome fault.new (IsToldFault P.Shape side gap.now (place until.now) self.old)) }
    {
        // For the proof alone: that the chain is normal is a clause of `len`.
        let _ = self.out.len();
        while self.out.until().precedes(until) {
            let Some(first) = self.steps.front() else {
                return self.out.put(until, gap);
            };
            let order = order_of(until, &first.until);
            if let Ordering::Less = order {
                write(side, &mut self.out, first, gap, alone, until, fault)?;
                return Ok(());
            }
            write(side, &mut self.out, first, gap, alone, &first.until, fault)?;
            let _ = self.steps.pop_front();
            if let Ordering::Equal = order {
                return Ok(());
            }
        }
        Ok(())
    }

    /// Tells a shape up to a place, where no step counts.
    ///
    /// # Errors
    ///
    /// `Memory` where memory is wanting.
    #[inline(always)]
    pub(crate) fn put(&mut self, gap: &P, until: &Cut) -> Result<(), Memory>
        requires steps { self.old.steps.items ≡ [] }
        requires within { IsWithin (2 ^ 34) (stop self.old.out).at }
        requires order { AtMost (stop self.old.out) (place until.now) }
        ensures told { (side : Side) → OnOk result (HasTold P.Shape side gap.now self.old self.new) }
        ensures ends { OnOk result (Same (stop self.new.out) (place until.now)) }
    {
        // For the proof alone: that the chain is normal is a clause of `len`.
        let _ = self.out.len();
        if !self.out.until().precedes(until) {
            return Ok(());
        }
        self.out.put(until, gap)
    }

    /// Tells up to a place what the first of the steps gives, which has one shape, and goes on past the place.
    ///
    /// # Errors
    ///
    /// `Memory` where memory is wanting.
    #[inline(always)]
    pub(crate) fn tell_first(&mut self, side: Side, until: &Cut) -> Result<(), Memory>
        requires first { (s : Step P) × (ss : List (Step P)) × (self.old.steps.items ≡ s ∷ ss) × (s.other ≡ None)
            × Before (place until.now) (step_end s) }
        requires steps { AreSteps P.Shape side (stop self.old.out) self.old.steps.items }
        requires within { IsWithin (2 ^ 34) (stop self.old.out).at }
        requires later { Before (stop self.old.out) (place until.now) }
        ensures told { (gap : P) → IsLastChoice P.Shape side gap → OnOk result (HasTold P.Shape side gap self.old self.new) }
        ensures ends { OnOk result (Same (stop self.new.out) (place until.now)) }
    {
        // For the proof alone: which values are better, and that the chain is normal.
        let _ = (side, self.out.len());
        let Some(first) = self.steps.front() else {
            return Ok(());
        };
        self.out.put(until, &first.shape)
    }
}

/// Goes on with the better of what a step gives and of a shape that gets no worse, up to a place.
#[inline(always)]
fn write<P: Shape>(
    side: Side,
    out: &mut Pieces<P>,
    step: &Step<P>,
    gap: &P,
    alone: bool,
    until: &Cut,
    fault: &mut Option<WidePair<P>>,
) -> Result<(), Memory>
    requires alone { IsTrue alone → IsLastChoice P.Shape side gap.now }
    requires is { IsStep P.Shape side (stop out.old) step.now }
    requires rises { RisesFrom side (stop out.old).at (value_of until.now.time) (P.function gap.now) }
    requires level { HasBoundedLevel (2 ^ 31) (P.function gap.now) }
    requires from_within { IsWithin (2 ^ 34) (stop out.old).at }
    requires to_within { IsWithin (2 ^ 34) (value_of until.now.time) }
    requires later { Before (stop out.old) (place until.now) }
    requires most { AtMost (place until.now) (place step.now.until) }
    requires none { fault.old ≡ None }
    ensures ok { OnOk result (IsWritten P.Shape side out.old step.now gap.now until.now out.new) }
    ensures still { OnOk result (fault.new ≡ None) }
    ensures wide { OnErr result (IfSome fault.new
        (IsCrossFault P.Shape (λ _ p. IsOfStep step.now p ⊎ (p ≡ gap.now)) (stop out.old).at (value_of until.now.time))) }
{
    match &step.other {
        Some(other) => write_three(side, out, &step.shape, other, gap, until, fault),
        None => {
            if alone {
                return out.put(until, &step.shape);
            }
            out.join_falling(side, &step.shape, gap, until, fault)
        }
    }
}

/// The same for a step of two shapes. What the two shapes that move have in common is looked for first: behind it the falling one is
/// never the best.
#[inline(never)]
fn write_three<P: Shape>(
    side: Side,
    out: &mut Pieces<P>,
    slope: &P,
    other: &P,
    gap: &P,
    until: &Cut,
    fault: &mut Option<WidePair<P>>,
) -> Result<(), Memory>
    requires falls { FallsFrom side (stop out.old).at (value_of until.now.time) (P.function slope.now) }
    requires rises { RisesFrom side (stop out.old).at (value_of until.now.time) (P.function gap.now) }
    requires slope { HasBoundedLevel (2 ^ 31) (P.function slope.now) }
    requires other { HasBoundedLevel (2 ^ 31) (P.function other.now) }
    requires gap { HasBoundedLevel (2 ^ 31) (P.function gap.now) }
    requires from_within { IsWithin (2 ^ 34) (stop out.old).at }
    requires to_within { IsWithin (2 ^ 34) (value_of until.now.time) }
    requires later { Before (stop out.old) (place until.now) }
    requires none { fault.old ≡ None }
    ensures ok { OnOk result (IsWritten P.Shape side out.old (record { until = until.now; shape = slope.now; other = Some other.now })
        gap.now until.now out.new) }
    ensures still { OnOk result (fault.new ≡ None) }
    ensures wide { OnErr result (IfSome fault.new
        (IsCrossFault P.Shape (λ _ p. (p ≡ slope.now) ⊎ (p ≡ other.now) ⊎ (p ≡ gap.now)) (stop out.old).at (value_of until.now.time))) }
{
    match favour(side, slope, gap, &until.time) {
        Ordering::Greater => {}
        _ => return out.join(side, slope, other, until, fault),
    }
    let at = out.until();
    match favour(side, slope, gap, &at.time) {
        Ordering::Less => {}
        _ => return out.join(side, other, gap, until, fault),
    }
    let time = keep(crossing(slope, gap, &at.time, &until.time), fault)?;
    let middle = Cut { time, side: 0 };
    out.join(side, slope, other, &middle, fault)?;
    out.join(side, other, gap, until, fault)
}
