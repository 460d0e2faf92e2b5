//! A window that has met constants alone: those that may still come to be the best stand in the place of its steps, each up to where the
//! window leaves it, and a `RangeMax` tells which of them is the best.
ghost use Rattle.std.specs.Prelude.{◌≡◌, ◌⊎◌, ◌+◌, ◌-◌, ◌≤◌, ◌<◌, ◌^◌, ◌++◌, ◌∷◌, [], List, None, drop, length, IfOk, IsTrue, OnOk};
ghost use Rattle.std.specs.VecDeque.{deque_len};
ghost use Rattle.rational.specs.Rational.{IsWithin};
ghost use Rattle.rational.specs.Affine.{HasBoundedLevel, IsSteady};
ghost use Rattle.rational.specs.Places.{Before, Place, Same};
ghost use Rattle.frac128.specs.Value.{value as value_of};
ghost use Rattle.frac128.specs.Cuts.{place};
ghost use Rattle.pieces.specs.Chains.{Chain, stop};
ghost use Rattle.pieces.specs.Constants.{AreAsked, AreConstantSteps, CountsAll, GivesFirst, HasSettled, IsFirstBest};
ghost use Rattle.pieces.specs.ConstantsMet.{GoesOnConstant, HasReachedPast, IsLeftOver, ReachesPast, TakesUp, TellsBest};
ghost use Rattle.pieces.specs.Meeting.{HasToldTo};
ghost use Rattle.pieces.specs.Sliding.{last_end};
ghost use Rattle.pieces.specs.Steps.{AreSteps};
ghost use Rattle.pieces.specs.Streaming.{CountsConstant};

use crate::Piece;
use crate::levels::turned;
use crate::reach::{Way, at_high};
use crate::sliding::Sliding;
use crate::steps::{Step, count, end_of};
use crate::window::{left, of_none, reached};
use frac128::{Cut, Memory, Steps};
use pl_signal::Side;
use std::alloc::Global;
use std::cmp::Ordering;
use std::collections::VecDeque;
use std::marker::Brand;
use std::sync::ledger::{Blank, Ledger};
use value_laws::{Counted, Shape};
use window_extrema::RangeMax;

/// Whether the piece, which the window leaves at `until`, is a constant that counts longer than all before it.
pub(crate) fn counts_longer<P: Shape>(piece: &Piece<P>, until: &Cut, window: &Sliding<P>) -> bool
    ensures steady { IsTrue result → IsSteady (P.function piece.now.shape) }
    ensures longer { IsTrue result → (window.now.steps.items ≡ []) ⊎ Before (last_end window.now) (place until.now) }
{
    match piece.shape.rises() {
        Ordering::Equal => {}
        _ => return false,
    }
    let at = window.out.until();
    window.steps.is_empty() || end_of(&at, &window.steps).precedes(until)
}

/// The window takes the next constant up, once it has told up to where it reaches past those before; it leaves it at `until`.
///
/// # Errors
///
/// `Memory` where memory is wanting.
pub(crate) fn take_up<P: Shape>(
    way: &Way,
    met: &Cut,
    piece: &Piece<P>,
    until: &Cut,
    window: &mut Sliding<P>,
    range: &mut RangeMax<P>,
) -> Result<(), Memory>
    requires next { (s : Chain P) × TakesUp P.Shape s way.now (place met.now) piece.now (place until.now) window.old }
    requires asked { AreAsked P.Shape way.now.side window.old.steps.items range.old }
    ensures taken { (s : Chain P) → TakesUp P.Shape s way.now (place met.now) piece.now (place until.now) window.old
        → OnOk result (CountsConstant P.Shape s way.now piece.now window.new) }
    ensures asked { OnOk result (AreAsked P.Shape way.now.side window.new.steps.items range.new) }
    ensures from { OnOk result (window.new.out.from ≡ window.old.out.from) }
    ensures upto { OnOk result (HasToldTo way.now (place met.now) window.old window.new) }
{
    reach_past(way, met, window, range)?;
    let at = window.out.until();
    if !end_of(&at, &window.steps).precedes(until) {
        return Ok(());
    }
    let level = at_high(&way.over, &piece.shape);
    push(way.side, window, range, &level, until)
}

/// Tells up to where the window reaches past the place: up to there no more comes into it.
///
/// # Errors
///
/// `Memory` where memory is wanting.
fn reach_past<P: Shape>(
    way: &Way,
    met: &Cut,
    window: &mut Sliding<P>,
    range: &mut RangeMax<P>,
) -> Result<(), Memory>
    requires all { (s : Chain P) × ReachesPast P.Shape s way.now (place met.now) window.old }
    requires asked { AreAsked P.Shape way.now.side window.old.steps.items range.old }
    ensures all { (s : Chain P) → ReachesPast P.Shape s way.now (place met.now) window.old
        → OnOk result (HasReachedPast P.Shape s way.now (place met.now) window.new) }
    ensures asked { OnOk result (AreAsked P.Shape way.now.side window.new.steps.items range.new) }
    ensures left { OnOk result (IsLeftOver window.old window.new) }
    ensures from { OnOk result (window.new.out.from ≡ window.old.out.from) }
    ensures upto { OnOk result (HasToldTo way.now (place met.now) window.old window.new) }
{
    let Some(next) = reached(way, met, &window.out.until()) else {
        return Ok(());
    };
    tell_best(way, window, range, &next)
}

/// The constant at hand goes on: it counts further.
///
/// # Errors
///
/// `Memory` where memory is wanting.
pub(crate) fn count_further<P: Shape>(
    way: &Way,
    met: &Cut,
    piece: &Piece<P>,
    window: &mut Sliding<P>,
    range: &mut RangeMax<P>,
) -> Result<(), Memory>
    requires further { (s : Chain P) × GoesOnConstant P.Shape s way.now met.now piece.now window.old }
    requires asked { AreAsked P.Shape way.now.side window.old.steps.items range.old }
    ensures taken { (s : Chain P) → GoesOnConstant P.Shape s way.now met.now piece.now window.old
        → OnOk result (CountsConstant P.Shape s way.now piece.now window.new) }
    ensures asked { OnOk result (AreAsked P.Shape way.now.side window.new.steps.items range.new) }
    ensures out { OnOk result (window.new.out ≡ window.old.out) }
{
    // For the proof alone: up to where it was met.
    let _ = met;
    let until = left(way, &piece.until);
    let at = window.out.until();
    if !end_of(&at, &window.steps).precedes(&until) {
        return Ok(());
    }
    if window.steps.is_empty() {
        let level = at_high(&way.over, &piece.shape);
        return push(way.side, window, range, &level, &until);
    }
    end_last(&mut window.steps, &until);
    Ok(())
}

/// Lets the last of the constants count up to another place.
fn end_last<P: Shape>(steps: &mut VecDeque<Step<P>>, until: &Cut)
    requires { 0 < deque_len steps.old }
    ensures { (front : List (Step P)) (last : Step P) → steps.old.items ≡ front ++ last ∷ []
        → steps.new.items ≡ front ++ record last { until = until.now } ∷ [] }
{
    let last = steps.len() - 1;
    steps[last].until = *until;
}

/// A constant comes behind the others, and counts up to the place.
fn push<P: Shape>(
    side: Side,
    window: &mut Sliding<P>,
    range: &mut RangeMax<P>,
    constant: &P,
    until: &Cut,
) -> Result<(), Memory>
    requires asked { AreAsked P.Shape side window.old.steps.items range.old }
    requires constant { AreConstantSteps P.Shape window.old.steps.items }
    requires steady { IsSteady (P.function constant.now) }
    requires level { HasBoundedLevel (2 ^ 31) (P.function constant.now) }
    ensures settled { OnOk result (HasSettled P.Shape side 0
        (window.old.steps.items ++ record { until = until.now; shape = constant.now; other = None } ∷ []) window.new.steps.items) }
    ensures asked { OnOk result (AreAsked P.Shape side window.new.steps.items range.new) }
    ensures out { OnOk result (window.new.out ≡ window.old.out) }
{
    push_counted::<P, Brand>(side, window, range, constant, until, Blank::new(1))
}

/// The same with a counter for the comparisons.
fn push_counted<P: Shape, L: Ledger>(
    side: Side,
    window: &mut Sliding<P>,
    range: &mut RangeMax<P>,
    constant: &P,
    until: &Cut,
    blank: Blank,
) -> Result<(), Memory>
    requires name { blank.name ≡ L.name }
    requires parts { blank.parts ≡ L.parts }
    requires share { 0 < blank.parts }
    requires asked { AreAsked P.Shape side window.old.steps.items range.old }
    requires constant { AreConstantSteps P.Shape window.old.steps.items }
    requires steady { IsSteady (P.function constant.now) }
    requires level { HasBoundedLevel (2 ^ 31) (P.function constant.now) }
    ensures settled { OnOk result (HasSettled P.Shape side 0
        (window.old.steps.items ++ record { until = until.now; shape = constant.now; other = None } ∷ []) window.new.steps.items) }
    ensures asked { OnOk result (AreAsked P.Shape side window.new.steps.items range.new) }
    ensures out { OnOk result (window.new.out ≡ window.old.out) }
{
    let mut counter = Steps::<L>::new(blank);
    range.push(Counted::of(turned(side, constant)))?;
    let level = Step {
        until: *until,
        shape: *constant,
        other: None,
    };
    let Ok(()) = window.steps.push_back(level) else {
        return Err(Memory);
    };
    settle(&mut window.steps, range, 0, &mut counter);
    Ok(())
}

/// Tells up to a place the best of the constants that count.
///
/// # Errors
///
/// `Memory` where memory is wanting.
pub(crate) fn tell_best<P: Shape>(
    way: &Way,
    window: &mut Sliding<P>,
    range: &mut RangeMax<P>,
    until: &Cut,
) -> Result<(), Memory>
    requires tells { (s : Chain P) × (met : Place) × TellsBest P.Shape s way.now met (place until.now) window.old }
    requires asked { AreAsked P.Shape way.now.side window.old.steps.items range.old }
    ensures told { (s : Chain P) (met : Place) → TellsBest P.Shape s way.now met (place until.now) window.old
        → OnOk result (CountsAll P.Shape s way.now met window.new) }
    ensures first { OnOk result (IsFirstBest P.Shape way.now.side window.new.steps.items) }
    ensures asked { OnOk result (AreAsked P.Shape way.now.side window.new.steps.items range.new) }
    ensures left { OnOk result (IsLeftOver window.old window.new) }
    ensures from { OnOk result (window.new.out.from ≡ window.old.out.from) }
    ensures ends { OnOk result (Same (stop window.new.out) (place until.now)) }
{
    tell_counted::<P, Brand>(way, window, range, until, Blank::new(1))
}

/// The same with a counter for the comparisons.
fn tell_counted<P: Shape, L: Ledger>(
    way: &Way,
    window: &mut Sliding<P>,
    range: &mut RangeMax<P>,
    until: &Cut,
    blank: Blank,
) -> Result<(), Memory>
    requires name { blank.name ≡ L.name }
    requires parts { blank.parts ≡ L.parts }
    requires share { 0 < blank.parts }
    requires tells { (s : Chain P) × (met : Place) × TellsBest P.Shape s way.now met (place until.now) window.old }
    requires asked { AreAsked P.Shape way.now.side window.old.steps.items range.old }
    ensures told { (s : Chain P) (met : Place) → TellsBest P.Shape s way.now met (place until.now) window.old
        → OnOk result (CountsAll P.Shape s way.now met window.new) }
    ensures first { OnOk result (IsFirstBest P.Shape way.now.side window.new.steps.items) }
    ensures asked { OnOk result (AreAsked P.Shape way.now.side window.new.steps.items range.new) }
    ensures left { OnOk result (IsLeftOver window.old window.new) }
    ensures from { OnOk result (window.new.out.from ≡ window.old.out.from) }
    ensures ends { OnOk result (Same (stop window.new.out) (place until.now)) }
{
    let mut counter = Steps::<L>::new(blank);
    while window.out.until().precedes(until) {
        let Some(best) = window.steps.front() else {
            return window.out.put(until, &of_none(way.side));
        };
        if until.precedes(&best.until) {
            return window.out.put(until, &best.shape);
        }
        window.out.put(&best.until, &best.shape)?;
        settle(&mut window.steps, range, 1, &mut counter);
    }
    Ok(())
}

/// Lets the constants go that come before the place, and before a best of all from there on.
fn settle<P: Shape, L: Ledger>(
    steps: &mut VecDeque<Step<P>>,
    range: &mut RangeMax<P>,
    from: usize,
    counter: &mut Steps<L>,
)
    requires asked { (side : Side) × AreAsked P.Shape side steps.old.items range.old }
    requires constant { AreConstantSteps P.Shape steps.old.items }
    requires within { from ≤ length steps.old.items }
    ensures settled { (side : Side) → AreAsked P.Shape side steps.old.items range.old
        → HasSettled P.Shape side from steps.old.items steps.new.items }
    ensures asked { (side : Side) → AreAsked P.Shape side steps.old.items range.old → AreAsked P.Shape side steps.new.items range.new }
{
    match range.ask(from, steps.len(), counter) {
        Some(best) => let_go(steps, range, best),
        None => let_go(steps, range, from),
    }
}

/// Lets the first constants go.
fn let_go<P: Shape>(steps: &mut VecDeque<Step<P>>, range: &mut RangeMax<P>, many: usize)
    requires reached { many ≤ range.old.high }
    ensures steps { steps.new.items ≡ drop many steps.old.items }
    ensures items { range.new.items ≡ drop many range.old.items }
    ensures low { range.new.low ≡ range.old.low - many }
    ensures high { range.new.high + many ≡ range.old.high }
{
    range.leave_before(many);
    for _ in 0..many {
        let _ = steps.pop_front();
    }
}

/// The steps down that the constants give from the place on.
///
/// # Errors
///
/// `Memory` where memory is wanting.
pub(crate) fn steps_of<P: Shape>(
    alloc: Global,
    side: Side,
    at: &Cut,
    levels: &VecDeque<Step<P>>,
) -> Result<VecDeque<Step<P>>, Memory>
    requires within { IsWithin (2 ^ 34) (value_of at.now.time) }
    requires steps { AreSteps P.Shape side (place at.now) levels.now.items }
    requires constant { AreConstantSteps P.Shape levels.now.items }
    ensures { IfOk result (λ steps. GivesFirst P.Shape side (place at.now) levels.now.items (length levels.now.items) steps.items) }
{
    let mut steps = VecDeque::new(alloc);
    for i in 0..levels.len() {
        let level = &levels[i];
        count(side, at, &mut steps, &level.shape, &level.until)?;
    }
    Ok(steps)
}
