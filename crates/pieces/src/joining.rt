//! The least and the greatest of two shapes from one place to another.
ghost use Rattle.std.specs.Prelude.{◌≡◌, IsTrue, ◌^◌, ◌<◌, ◌≤◌, ◌+◌, if◌then◌else◌, IfSome, None, MatchResult, OnErr, OnOk, IfOk, vec_len, vec_capacity};
ghost use Rattle.rational.specs.Rational.{IsWithin};
ghost use Rattle.rational.specs.Affine.{HasBoundedLevel};
ghost use Rattle.rational.specs.Places.{Before};
ghost use Rattle.frac128.specs.Value.{value};
ghost use Rattle.frac128.specs.Cuts.{place};
ghost use Rattle.frac128.specs.declared.frac.Frac.{Frac as Time};
ghost use Rattle.pl_signal.specs.declared.faults.OpFault.TheVariants as F;
ghost use Rattle.pl_signal.specs.declared.joining.Side.{Side as Wanted};
ghost use Rattle.pl_signal.specs.Joining.{IsGapFault, IsTurn, TurnsOver};
ghost use Rattle.rational.specs.Time.{◌<ʳ◌, ◌≤ʳ◌};
ghost use Rattle.pieces.specs.Best.{FallsFrom, GetsNoBetter, GetsNoWorse, RisesFrom};
ghost use Rattle.pieces.specs.Chains.{Chain, IsNormal, stop};
ghost use Rattle.pieces.specs.Building.{GoesOn};
ghost use Rattle.pieces.specs.Joining.{IsTakenOn, Joins};

use crate::pieces::go_on;
use crate::window::trend;
use crate::{Piece, Pieces};
use frac128::{Cut, Memory};
use pl_signal::{Side, WidePair, crossing_kept, favour};
use std::cmp::Ordering;
use value_laws::Shape;

impl<P: Shape> Pieces<P> {
    /// Goes on with the least of the two shapes at each time, or the greatest, up to a place. With an `Err` the chain stays as it was.
    ///
    /// It is refused only where the two cross strictly before that, at a time that needs a denominator of 2^60 or more: the pair is
    /// then in `fault`. Nothing is put there for want of memory.
    ///
    /// # Errors
    ///
    /// `Memory` where the two cross at such a time, and where memory is wanting.
    #[inline(always)]
    pub fn join(
        &mut self,
        side: Side,
        p: &P,
        q: &P,
        until: &Cut,
        fault: &mut Option<WidePair<P>>,
    ) -> Result<(), Memory>
        requires later { Before (stop self.old) (place until.now) }
        requires from_within { IsWithin (2 ^ 34) (stop self.old).at }
        requires to_within { IsWithin (2 ^ 34) (value until.now.time) }
        requires first { HasBoundedLevel (2 ^ 31) (P.function p.now) }
        requires second { HasBoundedLevel (2 ^ 31) (P.function q.now) }
        requires none { fault.old ≡ None }
        ensures ok { OnOk result (Joins P.Shape side self.old p.now q.now until.now self.new) }
        ensures still { OnOk result (fault.new ≡ None) }
        ensures err { OnErr result (self.new ≡ self.old) }
        ensures wide { OnErr result (IfSome fault.new
            (λ pair. (from : Time) × (value from ≡ (stop self.old).at) × IsGapFault P.Shape p.now q.now from until.now.time (F.Wide pair))) }
    {
        let from = self.until();
        let taken = takes_first(side, p, q, &from, until);
        self.put_taken(side, p, q, taken, until, fault)
    }

    /// Does what `join` does for a shape that gets no better on the way and one that gets no worse: where the first is no worse at the end,
    /// nothing more is compared.
    ///
    /// # Errors
    ///
    /// As `join`.
    #[inline(always)]
    pub(crate) fn join_falling(
        &mut self,
        side: Side,
        p: &P,
        q: &P,
        until: &Cut,
        fault: &mut Option<WidePair<P>>,
    ) -> Result<(), Memory>
        requires falls { FallsFrom side (stop self.old).at (value until.now.time) (P.function p.now) }
        requires rises { RisesFrom side (stop self.old).at (value until.now.time) (P.function q.now) }
        requires later { Before (stop self.old) (place until.now) }
        requires from_within { IsWithin (2 ^ 34) (stop self.old).at }
        requires to_within { IsWithin (2 ^ 34) (value until.now.time) }
        requires first { HasBoundedLevel (2 ^ 31) (P.function p.now) }
        requires second { HasBoundedLevel (2 ^ 31) (P.function q.now) }
        requires none { fault.old ≡ None }
        ensures ok { OnOk result (Joins P.Shape side self.old p.now q.now until.now self.new) }
        ensures still { OnOk result (fault.new ≡ None) }
        ensures wide { OnErr result (IfSome fault.new
            (λ pair. (from : Time) × (value from ≡ (stop self.old).at) × IsGapFault P.Shape p.now q.now from until.now.time (F.Wide pair))) }
    {
        let taken = takes_falling(side, p, q, self.until_in_place(), until);
        self.put_taken(side, p, q, taken, until, fault)
    }

    /// Goes on with the one of the two that is taken, or with both where they cross: `Err` says whether the first is taken before.
    #[inline(always)]
    fn put_taken(
        &mut self,
        side: Side,
        p: &P,
        q: &P,
        taken: Result<bool, bool>,
        until: &Cut,
        fault: &mut Option<WidePair<P>>,
    ) -> Result<(), Memory>
        requires taken { MatchResult taken
            (λ first. IsTakenOn P.Shape side p.now q.now (stop self.old) (place until.now) (if first then p.now else q.now))
            (IsTurn P.Shape side p.now q.now (stop self.old).at (value until.now.time)) }
        requires later { Before (stop self.old) (place until.now) }
        requires from_within { IsWithin (2 ^ 34) (stop self.old).at }
        requires to_within { IsWithin (2 ^ 34) (value until.now.time) }
        requires first { HasBoundedLevel (2 ^ 31) (P.function p.now) }
        requires second { HasBoundedLevel (2 ^ 31) (P.function q.now) }
        requires none { fault.old ≡ None }
        ensures ok { OnOk result (Joins P.Shape side self.old p.now q.now until.now self.new) }
        ensures still { OnOk result (fault.new ≡ None) }
        ensures err { OnErr result (self.new ≡ self.old) }
        ensures wide { OnErr result (IfSome fault.new
            (λ pair. (from : Time) × (value from ≡ (stop self.old).at) × IsGapFault P.Shape p.now q.now from until.now.time (F.Wide pair))) }
    {
        // For the proof alone: for which side they are taken.
        let _ = side;
        match taken {
            Ok(true) => self.put(until, p),
            Ok(false) => self.put(until, q),
            Err(first) => {
                let from = self.until();
                self.join_crossing(p, q, first, &from, until, fault)
            }
        }
    }

    /// The same, where the two cross; `first` says whether p is taken before, and q after.
    #[inline(never)]
    fn join_crossing(
        &mut self,
        p: &P,
        q: &P,
        first: bool,
        from: &Cut,
        until: &Cut,
        fault: &mut Option<WidePair<P>>,
    ) -> Result<(), Memory>
        requires begins { place from.now ≡ stop self.old }
        requires from_within { IsWithin (2 ^ 34) (value from.now.time) }
        requires to_within { IsWithin (2 ^ 34) (value until.now.time) }
        requires order { value from.now.time <ʳ value until.now.time }
        requires first { HasBoundedLevel (2 ^ 31) (P.function p.now) }
        requires second { HasBoundedLevel (2 ^ 31) (P.function q.now) }
        requires turned { TurnsOver (P.function p.now) (P.function q.now) (value from.now.time) (value until.now.time) }
        requires none { fault.old ≡ None }
        ensures ok { (side : Wanted) → IsTurn P.Shape side p.now q.now (value from.now.time) (value until.now.time) first
            → OnOk result (Joins P.Shape side self.old p.now q.now until.now self.new) }
        ensures still { OnOk result (fault.new ≡ None) }
        ensures err { OnErr result (self.new ≡ self.old) }
        ensures wide { OnErr result (IfSome fault.new (λ pair. IsGapFault P.Shape p.now q.now from.now.time until.now.time (F.Wide pair))) }
    {
        let time = crossing_kept(p, q, &from.time, &until.time, fault)?;
        let middle = Cut { time, side: 0 };
        self.items.reserve(2)?;
        if first {
            put_two(&self.from, &mut self.items, &middle, p, until, q);
            return Ok(());
        }
        put_two(&self.from, &mut self.items, &middle, q, until, p);
        Ok(())
    }
}

/// Goes on with the one up to the place `middle`, then with the other up to `until`. There is room for two pieces.
fn put_two<P: Shape>(
    from: &Cut,
    items: &mut Vec<Piece<P>>,
    middle: &Cut,
    first: &P,
    until: &Cut,
    second: &P,
)
    requires normal { IsNormal P.Shape (record { from = place from.now; pieces = items.old.items }) }
    requires room { vec_len items.old + 2 ≤ vec_capacity items.old }
    requires from_within { IsWithin (2 ^ 34) (stop (record { from = place from.now; pieces = items.old.items })).at }
    requires middle_within { IsWithin (2 ^ 34) (value middle.now.time) }
    requires after { Before (stop (record { from = place from.now; pieces = items.old.items })) (place middle.now) }
    requires before { Before (place middle.now) (place until.now) }
    ensures { (half : Chain P) × GoesOn P.Shape (record { from = place from.now; pieces = items.old.items }) middle.now first.now half
        × GoesOn P.Shape half until.now second.now (record { from = place from.now; pieces = items.new.items }) }
{
    go_on(from, items, middle, first);
    go_on(from, items, until, second);
}

/// Whether the first of the two is taken at each time between the places, or the second. Where they cross there, `Err` says whether the
/// first is taken before, and the second after. Where the one gets no better and the other no worse, mostly one comparison tells it.
#[inline(always)]
fn takes_first<P: Shape>(side: Side, p: &P, q: &P, from: &Cut, until: &Cut) -> Result<bool, bool>
    requires order { value from.now.time ≤ʳ value until.now.time }
    requires from_within { IsWithin (2 ^ 34) (value from.now.time) }
    requires to_within { IsWithin (2 ^ 34) (value until.now.time) }
    ensures { MatchResult result
        (λ first. IsTakenOn P.Shape side p.now q.now (place from.now) (place until.now) (if first then p.now else q.now))
        (IsTurn P.Shape side p.now q.now (value from.now.time) (value until.now.time)) }
{
    if falls_beside(side, p, q) {
        return takes_falling(side, p, q, from, until);
    }
    if falls_beside(side, q, p) {
        return takes_rising(side, p, q, from, until);
    }
    takes_either(side, p, q, from, until)
}

/// Whether the first of two shapes gets no better with time, and the second no worse.
#[inline(always)]
fn falls_beside<P: Shape>(side: Side, p: &P, q: &P) -> bool
    ensures falls { IsTrue result → GetsNoBetter side (P.function p.now) }
    ensures rises { IsTrue result → GetsNoWorse side (P.function q.now) }
{
    match trend(side, p) {
        Ordering::Greater => false,
        _ => match trend(side, q) {
            Ordering::Less => false,
            _ => true,
        },
    }
}

/// The same for any two.
#[inline(always)]
fn takes_either<P: Shape>(side: Side, p: &P, q: &P, from: &Cut, until: &Cut) -> Result<bool, bool>
    requires from_within { IsWithin (2 ^ 34) (value from.now.time) }
    requires to_within { IsWithin (2 ^ 34) (value until.now.time) }
    ensures { MatchResult result
        (λ first. IsTakenOn P.Shape side p.now q.now (place from.now) (place until.now) (if first then p.now else q.now))
        (IsTurn P.Shape side p.now q.now (value from.now.time) (value until.now.time)) }
{
    match favour(side, p, q, &from.time) {
        Ordering::Less => match favour(side, p, q, &until.time) {
            Ordering::Greater => Err(true),
            _ => Ok(true),
        },
        Ordering::Equal => match favour(side, p, q, &until.time) {
            Ordering::Greater => Ok(false),
            _ => Ok(true),
        },
        Ordering::Greater => match favour(side, p, q, &until.time) {
            Ordering::Less => Err(false),
            _ => Ok(false),
        },
    }
}

/// The same for a shape that gets no better on the way and one that gets no worse.
#[inline(always)]
fn takes_falling<P: Shape>(side: Side, p: &P, q: &P, from: &Cut, until: &Cut) -> Result<bool, bool>
    requires falls { FallsFrom side (value from.now.time) (value until.now.time) (P.function p.now) }
    requires rises { RisesFrom side (value from.now.time) (value until.now.time) (P.function q.now) }
    requires order { value from.now.time ≤ʳ value until.now.time }
    requires from_within { IsWithin (2 ^ 34) (value from.now.time) }
    requires to_within { IsWithin (2 ^ 34) (value until.now.time) }
    ensures { MatchResult result
        (λ first. IsTakenOn P.Shape side p.now q.now (place from.now) (place until.now) (if first then p.now else q.now))
        (IsTurn P.Shape side p.now q.now (value from.now.time) (value until.now.time)) }
{
    match favour(side, p, q, &until.time) {
        Ordering::Greater => match favour(side, p, q, &from.time) {
            Ordering::Less => Err(true),
            _ => Ok(false),
        },
        _ => Ok(true),
    }
}

/// The same for a shape that gets no worse on the way and one that gets no better.
#[inline(always)]
fn takes_rising<P: Shape>(side: Side, p: &P, q: &P, from: &Cut, until: &Cut) -> Result<bool, bool>
    requires rises { RisesFrom side (value from.now.time) (value until.now.time) (P.function p.now) }
    requires falls { FallsFrom side (value from.now.time) (value until.now.time) (P.function q.now) }
    requires order { value from.now.time ≤ʳ value until.now.time }
    requires from_within { IsWithin (2 ^ 34) (value from.now.time) }
    requires to_within { IsWithin (2 ^ 34) (value until.now.time) }
    ensures { MatchResult result
        (λ first. IsTakenOn P.Shape side p.now q.now (place from.now) (place until.now) (if first then p.now else q.now))
        (IsTurn P.Shape side p.now q.now (value from.now.time) (value until.now.time)) }
{
    match favour(side, p, q, &until.time) {
        Ordering::Less => match favour(side, p, q, &from.time) {
            Ordering::Greater => Err(false),
            _ => Ok(true),
        },
        _ => Ok(false),
    }
}
