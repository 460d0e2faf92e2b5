//! What a window will give, should no more come into it: steps down, of which each counts up to a place.
ghost use Rattle.std.specs.Prelude.{◌≡◌, ◌<◌, ◌^◌, ◌++◌, ◌∷◌, ◌↔◌, [], List, IsTrue, OnOk};
ghost use Rattle.std.specs.VecDeque.{deque_len, deque_capacity};
ghost use Rattle.rational.specs.Rational.{IsWithin};
ghost use Rattle.rational.specs.Affine.{HasBoundedLevel};
ghost use Rattle.rational.specs.Places.{AtMost, Before};
ghost use Rattle.frac128.specs.Value.{value as value_of};
ghost use Rattle.frac128.specs.Cuts.{place};
ghost use Rattle.pieces.specs.Best.{FallsFrom};
ghost use Rattle.pieces.specs.Steps.{AreSteps, FallOff, HasCounted, HasSlid, IsCapped, IsLevel, IsStep, Lasts, steps_end, with_constant};

use frac128::{Cut, Memory};
use pl_signal::{Side, favour};
use std::cmp::Ordering;
use std::collections::VecDeque;
use value_laws::Shape;

/// A shape that gets no better with time, or the better of it and of a constant, up to a place.
#[derive(Clone, Copy)]
pub(crate) struct Step<P> {
    pub(crate) until: Cut,
    pub(crate) shape: P,
    pub(crate) other: Option<P>,
}

/// Lets a constant count with the steps, up to a place no earlier than where they end.
///
/// # Errors
///
/// `Memory` where memory is wanting.
#[inline(always)]
pub(crate) fn count<P: Shape>(
    side: Side,
    from: &Cut,
    steps: &mut VecDeque<Step<P>>,
    constant: &P,
    until: &Cut,
) -> Result<(), Memory>
    requires steps { AreSteps P.Shape side (place from.now) steps.old.items }
    requires from_within { IsWithin (2 ^ 34) (value_of from.now.time) }
    requires until_within { IsWithin (2 ^ 34) (value_of until.now.time) }
    requires falls { FallOff P.Shape side (place from.now) steps.old.items }
    requires level { IsLevel P.Shape side (place from.now) (place until.now) constant.now }
    requires last { AtMost (steps_end (place from.now) steps.old.items) (place until.now) }
    requires some { Before (place from.now) (place until.now) }
    ensures { OnOk result (HasCounted P.Shape side (place from.now) steps.old.items constant.now (place until.now) steps.new.items) }
{
    if steps.reserve(1).is_err() {
        return Err(Memory);
    }
    cap(side, from, steps, constant);
    if ends_before(from, steps, until) {
        steps.push_back_reserved(Step {
            until: *until,
            shape: *constant,
            other: None,
        });
    }
    Ok(())
}

/// Lets a shape that gets no better follow the steps, up to a place; where they end no earlier nothing follows.
///
/// # Errors
///
/// `Memory` where memory is wanting.
#[inline(always)]
pub(crate) fn slide<P: Shape>(
    side: Side,
    from: &Cut,
    steps: &mut VecDeque<Step<P>>,
    slope: &P,
    until: &Cut,
) -> Result<(), Memory>
    requires steps { AreSteps P.Shape side (place from.now) steps.old.items }
    requires until_within { IsWithin (2 ^ 34) (value_of until.now.time) }
    requires falls { FallsFrom side (value_of from.now.time) (value_of until.now.time) (P.function slope.now) }
    requires level { HasBoundedLevel (2 ^ 31) (P.function slope.now) }
    ensures { OnOk result (HasSlid P.Shape side (place from.now) steps.old.items slope.now (place until.now) steps.new.items) }
{
    // For the proof alone: which values are better.
    let _ = side;
    let begin = end_of(from, steps);
    if !begin.precedes(until) {
        return Ok(());
    }
    if steps.reserve(1).is_err() {
        return Err(Memory);
    }
    steps.push_back_reserved(Step {
        until: *until,
        shape: *slope,
        other: None,
    });
    Ok(())
}

/// Takes away the steps at the end at which the constant is no worse, and lets it count with the last one that is left.
#[inline(always)]
fn cap<P: Shape>(side: Side, from: &Cut, steps: &mut VecDeque<Step<P>>, constant: &P)
    requires steps { AreSteps P.Shape side (place from.now) steps.old.items }
    requires from_within { IsWithin (2 ^ 34) (value_of from.now.time) }
    requires falls { FallOff P.Shape side (place from.now) steps.old.items }
    requires level { IsLevel P.Shape side (place from.now) (steps_end (place from.now) steps.old.items) constant.now }
    requires room { deque_len steps.old < deque_capacity steps.old }
    ensures capped { IsCapped P.Shape side (place from.now) steps.old.items constant.now steps.new.items }
    ensures room { deque_len steps.new < deque_capacity steps.new }
{
    while let Some(last) = steps.back() {
        let begin = begin_of_last(from, steps);
        match beside(side, begin, last, constant) {
            Lasting::Hidden => {
                let _ = steps.pop_back();
            }
            Lasting::Whole => return,
            Lasting::Part => {
                cap_last(steps, constant);
                return;
            }
        }
    }
}

/// Lets the constant count with the last of the steps.
#[inline(always)]
fn cap_last<P: Shape>(steps: &mut VecDeque<Step<P>>, constant: &P)
    requires { 0 < deque_len steps.old }
    ensures capped { (front : List (Step P)) (last : Step P) → steps.old.items ≡ front ++ last ∷ []
        → steps.new.items ≡ front ++ with_constant last constant.now ∷ [] }
    ensures len { deque_len steps.new ≡ deque_len steps.old }
    ensures capacity { deque_capacity steps.new ≡ deque_capacity steps.old }
{
    let last = steps.len() - 1;
    steps[last].other = Some(*constant);
}

/// Where the last of the steps begins.
#[inline(always)]
fn begin_of_last<'a, P: Shape>(from: &'a Cut, steps: &'a VecDeque<Step<P>>) -> &'a Cut
    ensures { (front : List (Step P)) (last : Step P) → steps.now.items ≡ front ++ last ∷ [] → place result.now ≡ steps_end (place from.now) front }
{
    let count = steps.len();
    if count < 2 {
        return from;
    }
    &steps[count - 2].until
}

/// Where the last of the steps ends; where the first is to begin, as long as there is none.
#[inline(always)]
pub(crate) fn end_of<'a, P: Shape>(from: &'a Cut, steps: &'a VecDeque<Step<P>>) -> &'a Cut
    ensures { place result.now ≡ steps_end (place from.now) steps.now.items }
{
    match steps.back() {
        Some(last) => &last.until,
        None => from,
    }
}

/// Whether the last of the steps ends before a place, which comes after where the first of them begins.
#[inline(always)]
fn ends_before<P: Shape>(from: &Cut, steps: &VecDeque<Step<P>>, until: &Cut) -> bool
    requires { Before (place from.now) (place until.now) }
    ensures { IsTrue result ↔ Before (steps_end (place from.now) steps.now.items) (place until.now) }
{
    // For the proof alone: where the steps begin.
    let _ = from;
    match steps.back() {
        Some(last) => last.until.precedes(until),
        None => true,
    }
}

/// How a step goes on beside a constant.
#[derive(Clone, Copy)]
pub(crate) enum Lasting {
    /// It is never better.
    Hidden,
    /// It is better to its end.
    Whole,
    /// It counts with the constant.
    Part,
}

/// How a step goes on beside a constant: it gets no better from where it begins on.
#[inline(always)]
fn beside<P: Shape>(side: Side, begin: &Cut, step: &Step<P>, constant: &P) -> Lasting
    requires is { IsStep P.Shape side (place begin.now) step.now }
    requires within { IsWithin (2 ^ 34) (value_of begin.now.time) }
    requires level { IsLevel P.Shape side (place begin.now) (place step.now.until) constant.now }
    ensures { Lasts P.Shape side (place begin.now) step.now constant.now result }
{
    if let Some(other) = &step.other {
        match favour(side, other, constant, &begin.time) {
            Ordering::Less => return Lasting::Whole,
            _ => {}
        }
    }
    match favour(side, &step.shape, constant, &begin.time) {
        Ordering::Less => match step.shape.rises() {
            Ordering::Equal => Lasting::Whole,
            _ => Lasting::Part,
        },
        _ => Lasting::Hidden,
    }
}
