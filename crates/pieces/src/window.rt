//! The least and the greatest of a function of time over a window that moves with the time.
ghost use Rattle.std.specs.Prelude.{◌≡◌, ◌⊎◌, ◌^◌, ◌≤ℤ◌, neg_ℤ, pos, false, IsTrue, IfErr, IfOk, IfSome, None, OnErr, OnOk};
ghost use Rattle.rational.specs.Rational.{IsWithin, add, whole};
ghost use Rattle.rational.specs.Time.{Rational, ◌≤ʳ◌, ◌<ʳ◌, ◌≈◌};
ghost use Rattle.rational.specs.Extended.{value_at, ◌≈ᵉ◌};
ghost use Rattle.rational.specs.Affine.{HasBoundedLevel, IsBounded, IsSteady};
ghost use Rattle.rational.specs.Places.{After, AtMost, Before, Place, Upto};
ghost use Rattle.frac128.specs.Value.{value as value_of};
ghost use Rattle.frac128.specs.Cuts.{place};
ghost use Rattle.pl_signal.specs.declared.faults.OpFault.TheVariants as F;
ghost use Rattle.courses.specs.Courses.{IsFixed, IsValueFault};
ghost use Rattle.pieces.specs.Best.{GetsNoBetter, GetsNoWorse, IsNoWorse, IsTrendFor, none_of};
ghost use Rattle.pieces.specs.Chains.{Chain, IsLimited, Tells, end, stop};
ghost use Rattle.pieces.specs.Meeting.{CanBegin, HasMet, HasToldTo, Holds, IsBelow, IsHeldFault, IsNext, IsUnder, Meets, Passes, Reaches, Rises, StandsFor};
ghost use Rattle.pieces.specs.Causes.{HasPassed, IsCauseBelow};
ghost use Rattle.pieces.specs.Over.{BasesOver, HasCauseOver, IsCauseOver, Plays};
ghost use Rattle.pieces.specs.Sliding.{last_end};
ghost use Rattle.pieces.specs.Steps.{AreSteps, FallOff, HideTo, step_end};
ghost use Rattle.pieces.specs.Windows.{AreNear, Best, BestOver, CanSlide, HasEntered, IsAtEnd, IsBestEnd, IsLeft, IsNonEmpty, IsPieceFrom, IsReached, IsSmall};
ghost use Rattle.pieces.specs.Windows.{Keeps, Stands, high_place, low_place};

use crate::order::{earlier, precedes};
use crate::reach::{Reach, Way, at_high, at_low, entering, leaving};
use crate::sliding::Sliding;
use crate::steps::{Step, count, slide};
use crate::{Piece, Pieces};
use frac128::{Cut, Frac, Memory};
use pl_signal::{OpFault, Side, WidePair, fault_of, favour};
use std::alloc::Global;
use std::cmp::Ordering;
use std::collections::VecDeque;
use value_laws::Shape;

/// A window on its way over a chain whose pieces come one after another.
///
/// What it says of a chain holds of each that begins with the pieces that it has met: `StandsFor`. Where the chain will end need not be
/// known: its way may lead further, as long as each chain goes on past what is met (`GoesPast`).
#[derive(Drop)]
pub struct Window<P: Shape> {
    pub(crate) way: Way,
    /// Up to where it begins before the place up to which the pieces were met.
    pub(crate) gone: Cut,
    pub(crate) sliding: Sliding<P>,
}

impl<P: Shape> Window<P> {
    /// It has met no piece yet of a chain that begins at `from`, and goes on to `to`, or not so far. It asks at once for the memory of as many
    /// pieces as `room` says.
    ///
    /// # Errors
    ///
    /// `Memory` where memory is wanting.
    pub fn begin(
        alloc: Global,
        side: Side,
        over: Reach,
        from: &Cut,
        to: &Cut,
        room: usize,
    ) -> Result<Window<P>, Memory>
        requires can { (s : Chain P) × CanBegin P.Shape s (record { side = side; over = over; to = to.now }) (place from.now) }
        ensures stands { (s : Chain P) → CanBegin P.Shape s (record { side = side; over = over; to = to.now }) (place from.now)
            → IfOk result (StandsFor P.Shape s (place from.now)) }
        ensures way { IfOk result (λ w. w.way ≡ record { side = side; over = over; to = to.now }) }
    {
        let way = Way {
            side,
            over,
            to: *to,
        };
        let out = Pieces::with_room(alloc, from, room)?;
        let sliding = Sliding {
            out,
            steps: VecDeque::new(alloc),
        };
        if is_empty(&over) {
            return Ok(Window {
                way,
                gone: *from,
                sliding,
            });
        }
        Ok(Window {
            way,
            gone: left(&way, from),
            sliding,
        })
    }

    /// Lets the window meet the next piece, which begins at `from`, up to where it has met all.
    ///
    /// # Errors
    ///
    /// `Memory` where a crossing of two shapes that count, or a value that counts, needs a denominator of 2^60 or more: the pair is then in
    /// `fault`; and where memory is wanting. The window is of no use then.
    pub fn meet(
        &mut self,
        from: &Cut,
        piece: &Piece<P>,
        fault: &mut Option<WidePair<P>>,
    ) -> Result<(), Memory>
        requires next { (s : Chain P) × StandsFor P.Shape s (place from.now) self.old × IsNext P.Shape s self.old.way (place from.now) piece.now }
        requires none { fault.old ≡ None }
        ensures stands { (s : Chain P) → StandsFor P.Shape s (place from.now) self.old → IsNext P.Shape s self.old.way (place from.now) piece.now
            → OnOk result (StandsFor P.Shape s (end piece.now) self.new) }
        ensures way { self.new.way ≡ self.old.way }
        ensures still { OnOk result (fault.new ≡ None) }
        ensures wide { (s : Chain P) → StandsFor P.Shape s (place from.now) self.old → IsNext P.Shape s self.old.way (place from.now) piece.now
            → OnErr result (IfSome fault.new (IsCauseOver P.Shape s self.old.way.over)) }
    {
        if is_empty(&self.way.over) {
            return Ok(());
        }
        let until = left(&self.way, &piece.until);
        pass(
            &self.way,
            from,
            &self.gone,
            piece,
            &until,
            &mut self.sliding,
            fault,
        )?;
        self.gone = until;
        Ok(())
    }

    /// All pieces were met: tells the rest, up to where the chain ends.
    ///
    /// # Errors
    ///
    /// As `meet`.
    pub fn end(&mut self, fault: &mut Option<WidePair<P>>) -> Result<(), Memory>
        requires last { (s : Chain P) × StandsFor P.Shape s (stop s) self.old × (place self.old.way.to ≡ stop s) }
        requires none { fault.old ≡ None }
        ensures told { (s : Chain P) → StandsFor P.Shape s (stop s) self.old → place self.old.way.to ≡ stop s
            → OnOk result (Tells P.Shape (Best P.Shape s self.old.way) s.from (stop s) self.new.sliding.out) }
        ensures bases { (s : Chain P) → StandsFor P.Shape s (stop s) self.old → place self.old.way.to ≡ stop s
            → OnOk result (BasesOver P.Shape s self.old.way.over self.new.sliding.out) }
        ensures wide { (s : Chain P) → StandsFor P.Shape s (stop s) self.old → place self.old.way.to ≡ stop s
            → OnErr result (IfSome fault.new (IsCauseOver P.Shape s self.old.way.over)) }
    {
        let side = self.way.side;
        self.sliding
            .tell(side, &of_none(side), true, &self.way.to, fault)
    }

    /// What it has told.
    pub fn told(self) -> Pieces<P>
        ensures { result ≡ self.sliding.out }
    {
        let Window {
            way: _,
            gone: _,
            sliding,
        } = self;
        let Sliding { out, steps: _ } = sliding;
        out
    }
}

/// At each time the Sup or the Inf of what the window sees; the value of no values where it sees nothing.
///
/// # Errors
///
/// `Wide` where a crossing of two shapes that count, or a value that counts, needs a denominator of 2^60 or more; `Memory` where memory
/// is wanting.
pub(crate) fn over_window<P: Shape>(
    side: Side,
    s: &Pieces<P>,
    over: Reach,
) -> Result<Pieces<P>, OpFault<P>>
    requires limited { IsLimited P.Shape s.now }
    requires near { AreNear P.Shape s.now }
    requires first { whole (pos 0) ≤ʳ s.now.from.at }
    requires last { (stop s.now).at ≤ʳ whole (pos (2 ^ 32)) }
    requires small { IsSmall over }
    ensures told { IfOk result (Tells P.Shape (BestOver P.Shape s.now over side) s.now.from (stop s.now)) }
    ensures bases { IfOk result (BasesOver P.Shape s.now over) }
    ensures wide { IfErr result (HasCauseOver P.Shape s.now over) }
{
    let mut window = Window::begin(s.alloc(), side, over, &s.from(), &s.until(), s.len())?;
    let mut fault = None;
    match slide_over(s, &mut window, &mut fault) {
        Ok(()) => Ok(window.told()),
        Err(Memory) => Err(fault_of(fault)),
    }
}

/// Moves the window over the chain, from where that begins to where it ends.
fn slide_over<P: Shape>(
    s: &Pieces<P>,
    window: &mut Window<P>,
    fault: &mut Option<WidePair<P>>,
) -> Result<(), Memory>
    requires stands { StandsFor P.Shape s.now s.now.from window.old }
    requires ends { place window.old.way.to ≡ stop s.now }
    requires none { fault.old ≡ None }
    ensures told { OnOk result (Tells P.Shape (Best P.Shape s.now window.old.way) s.now.from (stop s.now) window.new.sliding.out) }
    ensures bases { OnOk result (BasesOver P.Shape s.now window.old.way.over window.new.sliding.out) }
    ensures wide { OnErr result (IfSome fault.new (IsCauseOver P.Shape s.now window.old.way.over)) }
{
    let mut from = &s.from;
    for i in 0..s.len() {
        let piece = s.piece(i);
        window.meet(from, piece, fault)?;
        from = &piece.until;
    }
    window.end(fault)
}

/// Lets the piece count, which begins at `from`, the place that the window has left at `gone`; it has left the piece at `until`.
fn pass<P: Shape>(
    way: &Way,
    from: &Cut,
    gone: &Cut,
    piece: &Piece<P>,
    until: &Cut,
    window: &mut Sliding<P>,
    fault: &mut Option<WidePair<P>>,
) -> Result<(), Memory>
    requires met { (s : Chain P) × Passes P.Shape s way.now (place from.now) piece.now window.old }
    requires gone { IsLeft way.now (place from.now) (place gone.now) }
    requires left { IsLeft way.now (end piece.now) (place until.now) }
    requires none { fault.old ≡ None }
    ensures met { (s : Chain P) → Passes P.Shape s way.now (place from.now) piece.now window.old
        → OnOk result (HasMet P.Shape s way.now (end piece.now) window.new) }
    ensures falls { OnOk result (FallOff P.Shape way.now.side (stop window.new.out) window.new.steps.items) }
    ensures from { OnOk result (window.new.out.from ≡ window.old.out.from) }
    ensures still { OnOk result (fault.new ≡ None) }
    ensures wide { (s : Chain P) → Passes P.Shape s way.now (place from.now) piece.now window.old
        → OnErr result (IfSome fault.new (IsCauseBelow P.Shape s way.now.over (stop s).at)) }
{
    match trend(way.side, &piece.shape) {
        Ordering::Equal => {
            enter(way, from, window, fault)?;
            steady(way, piece, until, window)
        }
        Ordering::Greater => meet_rising(way, from, piece, until, window, fault),
        Ordering::Less => meet_falling(way, from, gone, piece, until, window, fault),
    }
}

/// Lets a piece that gets better count. As long as the first of the steps is no worse under the window's high end, that alone is told.
fn meet_rising<P: Shape>(
    way: &Way,
    from: &Cut,
    piece: &Piece<P>,
    until: &Cut,
    window: &mut Sliding<P>,
    fault: &mut Option<WidePair<P>>,
) -> Result<(), Memory>
    requires met { (s : Chain P) × Passes P.Shape s way.now (place from.now) piece.now window.old }
    requires trend { GetsNoWorse way.now.side (P.function piece.now.shape) }
    requires left { IsLeft way.now (end piece.now) (place until.now) }
    requires none { fault.old ≡ None }
    ensures met { (s : Chain P) → Passes P.Shape s way.now (place from.now) piece.now window.old
        → OnOk result (HasMet P.Shape s way.now (end piece.now) window.new) }
    ensures falls { OnOk result (FallOff P.Shape way.now.side (stop window.new.out) window.new.steps.items) }
    ensures from { OnOk result (window.new.out.from ≡ window.old.out.from) }
    ensures still { OnOk result (fault.new ≡ None) }
    ensures wide { (s : Chain P) → Passes P.Shape s way.now (place from.now) piece.now window.old
        → OnErr result (IfSome fault.new (IsCauseBelow P.Shape s way.now.over (stop s).at)) }
{
    if tell_under(way, piece, window)? {
        return hold(way, piece, &piece.until, until, window, fault);
    }
    enter(way, from, window, fault)?;
    rising(way, piece, until, window, fault)
}

/// Tells up to where the window reaches past a piece that gets better, and answers true: where it does so already, or where the first of the
/// steps goes on past that and is no worse than the piece under the window's high end. Else it tells nothing, and answers false.
///
/// # Errors
///
/// `Memory` where memory is wanting.
#[inline(always)]
fn tell_under<P: Shape>(
    way: &Way,
    piece: &Piece<P>,
    window: &mut Sliding<P>,
) -> Result<bool, Memory>
    requires met { (s : Chain P) × (c : Place) × Passes P.Shape s way.now c piece.now window.old }
    requires trend { GetsNoWorse way.now.side (P.function piece.now.shape) }
    ensures holds { (s : Chain P) (c : Place) → Passes P.Shape s way.now c piece.now window.old
        → IfOk result (λ told. IsTrue told → Holds P.Shape s way.now c piece.now (end piece.now) window.new) }
    ensures still { IfOk result (λ told. told ≡ false → window.new ≡ window.old) }
    ensures from { IfOk result (λ _. window.new.out.from ≡ window.old.out.from) }
{
    let at = window.out.until_in_place();
    let Some(next) = reached(way, &piece.until, at) else {
        return Ok(true);
    };
    if is_under(way, piece, window, at, &next) {
        // For the proof alone: a shape that is never better.
        let _ = of_none::<P>(way.side);
        window.tell_first(way.side, &next)?;
        return Ok(true);
    }
    Ok(false)
}

/// Whether the first of the steps goes on past the place from which on the window reaches past a piece, and is no worse than that under the
/// window's high end.
#[inline(always)]
fn is_under<P: Shape>(
    way: &Way,
    piece: &Piece<P>,
    window: &Sliding<P>,
    at: &Cut,
    next: &Cut,
) -> bool
    requires met { (s : Chain P) × (c : Place) × Passes P.Shape s way.now c piece.now window.now }
    requires at { place at.now ≡ stop window.now.out }
    requires reached { IsReached way.now (end piece.now) (place next.now) }
    ensures on { IsTrue result → Before (stop window.now.out) (place next.now) }
    ensures under { IsTrue result
        → IsUnder P.Shape way.now.side way.now.over window.now.steps.items (P.function piece.now.shape) (place next.now) }
{
    let Some(first) = window.steps.front() else {
        return false;
    };
    if !at.precedes(next) {
        return false;
    }
    covers(way, first, &piece.shape, next)
}

/// Whether a step has one shape, goes on past the place, and is there no worse than another shape at the window's high end.
#[inline(always)]
fn covers<P: Shape>(way: &Way, step: &Step<P>, shape: &P, next: &Cut) -> bool
    requires small { IsSmall way.now.over }
    requires near { (neg_ℤ (pos (2 ^ 32)) ≤ℤ P.base shape.now) × (P.base shape.now ≤ℤ pos (2 ^ 33)) }
    requires within { IsWithin (2 ^ 34) (value_of next.now.time) }
    ensures alone { IsTrue result → step.now.other ≡ None }
    ensures later { IsTrue result → Before (place next.now) (step_end step.now) }
    ensures above { IsTrue result → IsNoWorse way.now.side (value_at (P.function step.now.shape) (value_of next.now.time))
        (value_at (P.function shape.now) (add (value_of next.now.time) (whole way.now.over.high))) }
{
    if !next.precedes(&step.until) {
        return false;
    }
    if let Some(_) = &step.other {
        return false;
    }
    match favour(
        way.side,
        &step.shape,
        &at_high(&way.over, shape),
        &next.time,
    ) {
        Ordering::Greater => false,
        _ => true,
    }
}

/// Lets a piece that gets worse count. Where the steps hide its begin nothing need be told before.
fn meet_falling<P: Shape>(
    way: &Way,
    from: &Cut,
    gone: &Cut,
    piece: &Piece<P>,
    until: &Cut,
    window: &mut Sliding<P>,
    fault: &mut Option<WidePair<P>>,
) -> Result<(), Memory>
    requires met { (s : Chain P) × Passes P.Shape s way.now (place from.now) piece.now window.old }
    requires trend { GetsNoBetter way.now.side (P.function piece.now.shape) }
    requires gone { IsLeft way.now (place from.now) (place gone.now) }
    requires left { IsLeft way.now (end piece.now) (place until.now) }
    requires none { fault.old ≡ None }
    ensures met { (s : Chain P) → Passes P.Shape s way.now (place from.now) piece.now window.old
        → OnOk result (HasMet P.Shape s way.now (end piece.now) window.new) }
    ensures falls { OnOk result (FallOff P.Shape way.now.side (stop window.new.out) window.new.steps.items) }
    ensures from { OnOk result (window.new.out.from ≡ window.old.out.from) }
    ensures still { OnOk result (fault.new ≡ None) }
    ensures wide { (s : Chain P) → Passes P.Shape s way.now (place from.now) piece.now window.old
        → OnErr result (IfSome fault.new (IsCauseBelow P.Shape s way.now.over (stop s).at)) }
{
    let at = window.out.until_in_place();
    if is_hidden(way, at, &window.steps, &piece.shape, &from.time, gone) {
        let slope = at_low(&way.over, &piece.shape);
        return slide(way.side, at, &mut window.steps, &slope, until);
    }
    enter(way, from, window, fault)?;
    falling(way, from, gone, piece, until, window, fault)?;
    enter(way, &piece.until, window, fault)
}

/// Tells up to where the window reaches past the place: up to there no more comes into it.
#[inline(always)]
pub(crate) fn enter<P: Shape>(
    way: &Way,
    met: &Cut,
    window: &mut Sliding<P>,
    fault: &mut Option<WidePair<P>>,
) -> Result<(), Memory>
    requires met { (s : Chain P) × HasMet P.Shape s way.now (place met.now) window.old × Reaches P.Shape s way.now (place met.now) }
    requires none { fault.old ≡ None }
    ensures met { (s : Chain P) → HasMet P.Shape s way.now (place met.now) window.old → Reaches P.Shape s way.now (place met.now)
        → OnOk result (HasMet P.Shape s way.now (place met.now) window.new) }
    ensures entered { (s : Chain P) → OnOk result (HasEntered P.Shape s way.now (place met.now) window.new) }
    ensures from { OnOk result (window.new.out.from ≡ window.old.out.from) }
    ensures upto { OnOk result (HasToldTo way.now (place met.now) window.old window.new) }
    ensures still { OnOk result (fault.new ≡ None) }
    ensures wide { (s : Chain P) (limit : Rational) → HasMet P.Shape s way.now (place met.now) window.old
        → IsBelow P.Shape s way.now limit (place met.now).at
        → OnErr result (IfSome fault.new (IsCauseBelow P.Shape s way.now.over limit)) }
    ensures narrow { (place met.now).at ≤ʳ add (stop window.old.out).at (whole way.now.over.high) → OnErr result (fault.new ≡ None) }
{
    let Some(next) = reached(way, met, &window.out.until()) else {
        return Ok(());
    };
    window.tell(way.side, &of_none(way.side), true, &next, fault)
}

/// A piece that stays as it is counts until the window has left it.
pub(crate) fn steady<P: Shape>(
    way: &Way,
    piece: &Piece<P>,
    until: &Cut,
    window: &mut Sliding<P>,
) -> Result<(), Memory>
    requires met { (s : Chain P) × (c : Place) × Meets P.Shape s way.now c piece.now window.old }
    requires trend { IsSteady (P.function piece.now.shape) }
    requires left { IsLeft way.now (end piece.now) (place until.now) }
    ensures met { (s : Chain P) (c : Place) → Meets P.Shape s way.now c piece.now window.old
        → OnOk result (HasMet P.Shape s way.now (end piece.now) window.new) }
    ensures past { OnOk result (HasPassed way.now (end piece.now) window.new) }
    ensures falls { OnOk result (FallOff P.Shape way.now.side (stop window.new.out) window.new.steps.items) }
    ensures out { window.new.out ≡ window.old.out }
{
    let at = window.out.until_in_place();
    if at.precedes(until) {
        let level = at_high(&way.over, &piece.shape);
        return count(way.side, at, &mut window.steps, &level, until);
    }
    Ok(())
}

/// A piece that gets better counts as itself while the window's high end moves over it, and then by its last value.
pub(crate) fn rising<P: Shape>(
    way: &Way,
    piece: &Piece<P>,
    until: &Cut,
    window: &mut Sliding<P>,
    fault: &mut Option<WidePair<P>>,
) -> Result<(), Memory>
    requires met { (s : Chain P) × (c : Place) × Rises P.Shape s way.now c piece.now window.old }
    requires trend { GetsNoWorse way.now.side (P.function piece.now.shape) }
    requires left { IsLeft way.now (end piece.now) (place until.now) }
    requires none { fault.old ≡ None }
    ensures met { (s : Chain P) (c : Place) → Rises P.Shape s way.now c piece.now window.old
        → OnOk result (HasMet P.Shape s way.now (end piece.now) window.new) }
    ensures entered { (s : Chain P) → OnOk result (HasEntered P.Shape s way.now (end piece.now) window.new) }
    ensures from { OnOk result (window.new.out.from ≡ window.old.out.from) }
    ensures upto { OnOk result (HasToldTo way.now (end piece.now) window.old window.new) }
    ensures still { OnOk result (fault.new ≡ None) }
    ensures wide { (s : Chain P) (c : Place) (limit : Rational) → Rises P.Shape s way.now c piece.now window.old
        → IsBelow P.Shape s way.now limit (end piece.now).at
        → OnErr result (IfSome fault.new (IsCauseBelow P.Shape s way.now.over limit)) }
    ensures held { (s : Chain P) (c : Place) → Rises P.Shape s way.now c piece.now window.old
        → (end piece.now).at ≤ʳ add (stop window.old.out).at (whole way.now.over.high)
        → OnErr result (IfSome fault.new (IsHeldFault P.Shape s way.now (end piece.now).at)) }
{
    let Some(next) = reached(way, &piece.until, &window.out.until()) else {
        return hold(way, piece, &piece.until, until, window, fault);
    };
    let gap = at_high(&way.over, &piece.shape);
    window.tell(way.side, &gap, false, &next, fault)?;
    hold(way, piece, &piece.until, until, window, fault)
}

/// A piece that gets worse counts by its first value, and then as itself while the window's low end moves over it.
pub(crate) fn falling<P: Shape>(
    way: &Way,
    from: &Cut,
    gone: &Cut,
    piece: &Piece<P>,
    until: &Cut,
    window: &mut Sliding<P>,
    fault: &mut Option<WidePair<P>>,
) -> Result<(), Memory>
    requires met { (s : Chain P) × Meets P.Shape s way.now (place from.now) piece.now window.old }
    requires trend { GetsNoBetter way.now.side (P.function piece.now.shape) }
    requires gone { IsLeft way.now (place from.now) (place gone.now) }
    requires left { IsLeft way.now (end piece.now) (place until.now) }
    requires none { fault.old ≡ None }
    ensures met { (s : Chain P) → Meets P.Shape s way.now (place from.now) piece.now window.old
        → OnOk result (HasMet P.Shape s way.now (end piece.now) window.new) }
    ensures past { OnOk result (HasPassed way.now (end piece.now) window.new) }
    ensures out { window.new.out ≡ window.old.out }
    ensures still { OnOk result (fault.new ≡ None) }
    ensures wide { (s : Chain P) → Meets P.Shape s way.now (place from.now) piece.now window.old
        → OnErr result (IfSome fault.new (IsHeldFault P.Shape s way.now (place from.now).at)) }
{
    hold(way, piece, from, gone, window, fault)?;
    let slope = at_low(&way.over, &piece.shape);
    let at = window.out.until_in_place();
    slide(way.side, at, &mut window.steps, &slope, until)
}

/// The best value of a piece, which it has at that one of its ends, counts until the window has left that end.
#[inline(always)]
fn hold<P: Shape>(
    way: &Way,
    piece: &Piece<P>,
    best: &Cut,
    until: &Cut,
    window: &mut Sliding<P>,
    fault: &mut Option<WidePair<P>>,
) -> Result<(), Memory>
    requires met { (s : Chain P) × (c : Place) × Holds P.Shape s way.now c piece.now (place best.now) window.old }
    requires left { IsLeft way.now (place best.now) (place until.now) }
    requires none { fault.old ≡ None }
    ensures stands { (s : Chain P) (c : Place) → Holds P.Shape s way.now c piece.now (place best.now) window.old
        → OnOk result (Stands P.Shape s way.now (end piece.now) (place best.now) window.new) }
    ensures past { (s : Chain P) (c : Place) → Holds P.Shape s way.now c piece.now (place best.now) window.old
        → OnOk result (HasPassed way.now (place best.now) window.new) }
    ensures out { window.new.out ≡ window.old.out }
    ensures still { OnOk result (fault.new ≡ None) }
    ensures plays { (s : Chain P) (c : Place) → Holds P.Shape s way.now c piece.now (place best.now) window.old
        → OnOk result (Plays P.Shape s way.now.over (place way.now.to) window.new) }
    ensures wide { (s : Chain P) (c : Place) → Holds P.Shape s way.now c piece.now (place best.now) window.old
        → OnErr result (IfSome fault.new (IsHeldFault P.Shape s way.now (place best.now).at)) }
{
    let at = window.out.until_in_place();
    if !at.precedes(until) {
        return Ok(());
    }
    if is_hidden(way, at, &window.steps, &piece.shape, &best.time, until) {
        return Ok(());
    }
    let value = constant(way, &piece.shape, &best.time, at, until, fault)?;
    count(way.side, at, &mut window.steps, &value, until)
}

/// Whether the last step goes on to the place, and what it gives is no worse than the value of the shape at the time, which then need not
/// be known.
#[inline(always)]
fn is_hidden<P: Shape>(
    way: &Way,
    from: &Cut,
    steps: &VecDeque<Step<P>>,
    shape: &P,
    time: &Frac,
    until: &Cut,
) -> bool
    requires steps { AreSteps P.Shape way.now.side (place from.now) steps.now.items }
    requires small { IsSmall way.now.over }
    requires near { (neg_ℤ (pos (2 ^ 32)) ≤ℤ P.base shape.now) × (P.base shape.now ≤ℤ pos (2 ^ 33)) }
    requires within { IsWithin (2 ^ 34) (value_of time.now) }
    ensures { IsTrue result
        → HideTo P.Shape way.now.side steps.now.items (value_at (P.function shape.now) (value_of time.now)) (place until.now) }
{
    // For the proof alone: where the steps begin.
    let _ = from;
    let Some(last) = steps.back() else {
        return false;
    };
    if precedes(&last.until, until) {
        return false;
    }
    if let Some(other) = &last.other {
        if stays_above(way.side, other, shape, time) {
            return true;
        }
    }
    if stays_above(way.side, &last.shape, shape, time) {
        return true;
    }
    ends_above(way, last, shape, time)
}

/// Whether the step ends where the window's low end comes to the time, and its shape is there no worse than another one at the time.
fn ends_above<P: Shape>(way: &Way, step: &Step<P>, shape: &P, time: &Frac) -> bool
    requires small { IsSmall way.now.over }
    requires near { (neg_ℤ (pos (2 ^ 32)) ≤ℤ P.base shape.now) × (P.base shape.now ≤ℤ pos (2 ^ 33)) }
    requires within { IsWithin (2 ^ 34) (value_of step.now.until.time) }
    ensures { IsTrue result → IsNoWorse way.now.side (value_at (P.function step.now.shape) (value_of step.now.until.time))
        (value_at (P.function shape.now) (value_of time.now)) }
{
    match step.until.time.shift(way.over.low).cmp(time) {
        Ordering::Equal => match favour(
            way.side,
            &step.shape,
            &at_low(&way.over, shape),
            &step.until.time,
        ) {
            Ordering::Greater => false,
            _ => true,
        },
        _ => false,
    }
}

/// Whether a shape is constant, and no worse than the value of another one at the time.
fn stays_above<P: Shape>(side: Side, level: &P, shape: &P, time: &Frac) -> bool
    requires within { IsWithin (2 ^ 34) (value_of time.now) }
    ensures { IsTrue result → (t : Rational)
        → IsNoWorse side (value_at (P.function level.now) t) (value_at (P.function shape.now) (value_of time.now)) }
{
    match level.rises() {
        Ordering::Equal => match favour(side, level, shape, time) {
            Ordering::Greater => false,
            _ => true,
        },
        _ => false,
    }
}

/// A shape that has between the two places the value of a shape at a time. Where the places are of one time it is the shape itself, moved:
/// one of the window's ends comes to the time there, and nothing is refused.
///
/// # Errors
///
/// `Memory` where the value needs a denominator of 2^60 or more: it is then in `fault`.
#[inline(always)]
fn constant<P: Shape>(
    way: &Way,
    shape: &P,
    time: &Frac,
    from: &Cut,
    until: &Cut,
    fault: &mut Option<WidePair<P>>,
) -> Result<P, Memory>
    requires from { whole (pos 0) ≤ʳ value_of from.now.time }
    requires to { value_of from.now.time ≤ʳ whole (pos (2 ^ 32)) }
    requires small { IsSmall way.now.over }
    requires near { (neg_ℤ (pos (2 ^ 32)) ≤ℤ P.base shape.now) × (P.base shape.now ≤ℤ pos (2 ^ 33)) }
    requires within { IsWithin (2 ^ 34) (value_of time.now) }
    requires bounded { IsBounded (2 ^ 31) (value_at (P.function shape.now) (value_of time.now)) }
    requires order { value_of from.now.time ≤ʳ value_of until.now.time }
    requires one { value_of from.now.time ≈ value_of until.now.time
        → (add (value_of from.now.time) (whole way.now.over.low) ≈ value_of time.now)
        ⊎ (add (value_of from.now.time) (whole way.now.over.high) ≈ value_of time.now) }
    requires none { fault.old ≡ None }
    ensures value { IfOk result (λ p. (t : Rational) → value_of from.now.time ≤ʳ t → t ≤ʳ value_of until.now.time
        → value_at (P.function p) t ≈ᵉ value_at (P.function shape.now) (value_of time.now)) }
    ensures level { IfOk result (λ p. HasBoundedLevel (2 ^ 31) (P.function p)) }
    ensures base { IfOk result (IsAtEnd P.Shape way.now.over shape.now (value_of time.now) (value_of from.now.time)) }
    ensures fixed { IfOk result (λ p. value_of from.now.time <ʳ value_of until.now.time → IsFixed P.Shape shape.now (value_of time.now) p) }
    ensures still { OnOk result (fault.new ≡ None) }
    ensures wide { OnErr result (IfSome fault.new (λ pair. (value_of from.now.time <ʳ value_of until.now.time)
        × IsValueFault P.Shape shape.now time.now (F.Wide pair))) }
{
    match from.time.cmp(&until.time) {
        Ordering::Less => fixed(shape, time, fault),
        _ => Ok(at_end(&way.over, shape, time, &from.time)),
    }
}

/// The constant with the value at a time. What is refused is put into `fault`.
///
/// # Errors
///
/// `Memory` where the value needs a denominator of 2^60 or more.
#[inline(always)]
fn fixed<P: Shape>(shape: &P, time: &Frac, fault: &mut Option<WidePair<P>>) -> Result<P, Memory>
    requires within { IsWithin (2 ^ 34) (value_of time.now) }
    requires bounded { IsBounded (2 ^ 31) (value_at (P.function shape.now) (value_of time.now)) }
    requires none { fault.old ≡ None }
    ensures value { IfOk result (IsFixed P.Shape shape.now (value_of time.now)) }
    ensures stays { IfOk result (λ p. P.moves p ≡ false) }
    ensures still { OnOk result (fault.new ≡ None) }
    ensures wide { OnErr result (IfSome fault.new (λ pair. IsValueFault P.Shape shape.now time.now (F.Wide pair))) }
{
    match shape.fix(time) {
        Ok(value) => Ok(value),
        Err(wide) => {
            *fault = Some(WidePair::Value {
                p: *shape,
                at: *time,
                den: wide.den,
            });
            Err(Memory)
        }
    }
}

/// The shape that has at the time `here` the value of a shape at another, to which an end of the window comes at `here`.
fn at_end<P: Shape>(over: &Reach, shape: &P, time: &Frac, here: &Frac) -> P
    requires from { whole (pos 0) ≤ʳ value_of here.now }
    requires to { value_of here.now ≤ʳ whole (pos (2 ^ 32)) }
    requires small { IsSmall over.now }
    requires near { (neg_ℤ (pos (2 ^ 32)) ≤ℤ P.base shape.now) × (P.base shape.now ≤ℤ pos (2 ^ 33)) }
    requires one { (add (value_of here.now) (whole over.now.low) ≈ value_of time.now)
        ⊎ (add (value_of here.now) (whole over.now.high) ≈ value_of time.now) }
    ensures value { value_at (P.function result) (value_of here.now) ≈ᵉ value_at (P.function shape.now) (value_of time.now) }
    ensures base { IsAtEnd P.Shape over.now shape.now (value_of time.now) (value_of here.now) result }
{
    match here.shift(over.low).cmp(time) {
        Ordering::Equal => at_low(over, shape),
        _ => at_high(over, shape),
    }
}

/// The place from which on the window reaches past the place `met`, in the domain; none where it does so from `at` on.
#[inline(always)]
pub(crate) fn reached(way: &Way, met: &Cut, at: &Cut) -> Option<Cut>
    requires from { whole (pos 0) ≤ʳ value_of met.now.time }
    requires to { value_of met.now.time ≤ʳ whole (pos (2 ^ 32)) }
    requires small { IsSmall way.now.over }
    requires to_within { IsWithin (2 ^ 34) (value_of way.now.to.time) }
    ensures none { result ≡ None → (t : Rational) → After (place at.now) t
        → Before (place met.now) (high_place way.now.over.high way.now.over.high_in t) }
    ensures on { IfSome result (λ e. AtMost (place at.now) (place way.now.to) → AtMost (place at.now) (place e)) }
    ensures some { IfSome result (λ e. IsReached way.now (place met.now) (place e)) }
{
    let past = entering(&way.over, met);
    if !precedes(at, &past) {
        return None;
    }
    Some(earlier(past, &way.to))
}

/// The place up to which the window begins before the place, in the domain.
#[inline(always)]
pub(crate) fn left(way: &Way, c: &Cut) -> Cut
    requires from { whole (pos 0) ≤ʳ value_of c.now.time }
    requires to { value_of c.now.time ≤ʳ whole (pos (2 ^ 32)) }
    requires small { IsSmall way.now.over }
    requires to_within { IsWithin (2 ^ 34) (value_of way.now.to.time) }
    ensures { IsLeft way.now (place c.now) (place result) }
{
    earlier(leaving(&way.over, c), &way.to)
}

/// Whether no time lies in the window.
pub(crate) fn is_empty(over: &Reach) -> bool
    requires { over.now.low ≤ℤ over.now.high }
    ensures empty { IsTrue result → (over.now.low ≡ over.now.high) × ((over.now.low_in ≡ false) ⊎ (over.now.high_in ≡ false)) }
    ensures not { result ≡ false → IsNonEmpty over.now }
{
    over.low == over.high && !(over.low_in && over.high_in)
}

/// What the Sup or the Inf of no values is.
pub(crate) fn of_none<P: Shape>(side: Side) -> P
    ensures value { (t : Rational) → value_at (P.function result) t ≈ᵉ none_of side P.lowest P.highest }
    ensures still { P.moves result ≡ false }
{
    match side {
        Side::Greatest => P::least(),
        Side::Least => P::greatest(),
    }
}

/// Whether the values of a shape go from worse to better with time, stay, or go from better to worse.
pub(crate) fn trend<P: Shape>(side: Side, shape: &P) -> Ordering
    ensures { IsTrendFor side result (P.function shape.now) }
{
    match side {
        Side::Greatest => shape.rises(),
        Side::Least => shape.rises().reverse(),
    }
}
