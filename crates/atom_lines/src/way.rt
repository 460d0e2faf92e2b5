//! How an atom's truth goes over the rows of a trace, gap by gap. The times at which it turns are in no lowest terms.
ghost use Rattle.std.specs.Prelude.{◌≡◌, ◌<◌, ◌≤◌, ◌^◌, ◌+◌, ◌/◌, ◌%◌, pos, length, IsTrue};
ghost use Rattle.rational.specs.Time.{◌≤ʳ◌};
ghost use Rattle.rational.specs.Rational.{Rational, ◌≈◌, whole};
ghost use Rattle.rational.specs.Line.{at};
ghost use Rattle.stl_syntax.specs.Truth.{compares, holds_at};
ghost use Rattle.stl_syntax.specs.Trace.{Trace as Recorded, row_time};
ghost use Rattle.stl_syntax.specs.declared.atom.Atom.{Atom};
ghost use Rattle.atom_lines.specs.Binding.{IsAtomNode, IsFor};
ghost use Rattle.atom_lines.specs.Gaps.{along, IsEven, Passes};
ghost use Rattle.atom_lines.specs.Growing.{IsReach, IsReachAt};
ghost use Rattle.atom_lines.specs.Passages.{HasBlock, IsWay, TellsPassage, crossing_time};
ghost use Rattle.atom_lines.specs.Points.{IsTruthAt, IsTruthOn};
ghost use Rattle.atom_lines.specs.Rows.{row_of};
ghost use Rattle.atom_lines.specs.Steps.{IsStep, StaysTo};
ghost use Rattle.atom_lines.specs.Sums.{IsAtomSound};

use crate::bound::Bound;
use crate::bound_atom::BoundAtom;
use crate::cells::row_at;
use crate::gap::Gap;
use crate::passage::{Crossing, Passage, Way};
use crate::points::gap_on;
use crate::sum::{reach_here, reach_of};
use crate::truth::{TruthPiece, changes_sign, keeps_truth, truth_at, truth_onward};
use stl_syntax::Rel;
use trace_reader::Trace;
use value_laws::Truth;

/// The gap behind a row, and the sum at the next row.
#[derive(Clone, Copy)]
pub(crate) struct Step {
    pub(crate) gap: Gap,
    pub(crate) next: i64,
}

/// A row up to which the truth stays what it is, and the step behind it.
#[derive(Clone, Copy)]
pub(crate) struct Stay {
    pub(crate) at: usize,
    pub(crate) step: Step,
}

/// The time `first + past / rise`.
#[inline(always)]
fn crossing_at(first: u32, past: u64, rise: u64) -> Crossing
    requires some { 0 < rise }
    requires few { rise < 2 ^ 32 }
    requires fits { first + past / rise < 2 ^ 32 }
    ensures floor { result.floor ≡ first + past / rise }
    ensures rest { result.rest ≡ past % rise }
    ensures den { result.den ≡ rise }
{
    Crossing {
        floor: first + (past / rise) as u32,
        rest: (past % rise) as u32,
        den: rise as u32,
    }
}

/// The time inside the gap at which a sum that changes its sign is 0.
#[inline(always)]
pub(crate) fn turning(gap: &Gap) -> Crossing
    requires { Passes gap.now }
    ensures { at (along gap.now) (crossing_time result) ≈ whole (pos 0) }
{
    let before = gap.from.unsigned_abs();
    let rise = before + gap.to.unsigned_abs();
    let past = before * u64::from(gap.second - gap.first);
    crossing_at(gap.first, past, rise)
}

/// How the truth of a comparison goes over the gap.
#[inline(always)]
fn passage_over(rel: Rel, gap: &Gap) -> Passage
    ensures { TellsPassage (whole (pos gap.now.first)) (whole (pos gap.now.second)) (λ t. compares rel (at (along gap.now) t)) result }
{
    if changes_sign(gap) {
        let before = truth_at(rel, gap.from).holds();
        let point = truth_at(rel, 0).holds();
        return Passage::Turns {
            before,
            at: turning(gap),
            after: point == before,
        };
    }
    Passage::Steady(truth_at(rel, gap.from + gap.to).holds())
}

/// The gap from row `r`, where the sum is `from`, to the next.
#[inline(always)]
pub(crate) fn step_from(atom: &BoundAtom, trace: &Trace, r: usize, next: usize, from: i64) -> Step
    requires sound { IsAtomSound (length trace.now.header.columns) atom.now }
    requires next { next ≡ r + 1 }
    requires within { next < length trace.now.rows }
    requires from { IsReach atom.now trace.now r from }
    ensures { IsStep atom.now trace.now r result.gap result.next }
{
    let first = row_at(trace, r);
    let second = row_at(trace, next);
    let (gap, after) = gap_on(atom, trace.time(r), from, &first, trace.time(next), &second);
    Step { gap, next: after }
}

/// Whether the truth stays what it is over a step that is not the last.
#[inline(always)]
fn stays(rel: Rel, at: usize, last: usize, step: &Step) -> bool
    requires { at < last }
    ensures more { IsTrue result → at + 1 < last }
    ensures even { IsTrue result → IsEven rel step.now.gap step.now.next }
{
    if at + 1 >= last {
        return false;
    }
    keeps_truth(rel, &step.gap, step.next)
}

/// How far the atom's truth stays what it is from row `r` on, where its sum is `from`: to the first row with a gap behind it over which, or
/// at whose end, it may turn, or to the row before row `last`.
#[inline(always)]
pub(crate) fn stay_from(atom: &BoundAtom, trace: &Trace, r: usize, last: usize, from: i64) -> Stay
    requires sound { IsAtomSound (length trace.now.header.columns) atom.now }
    requires before { r < last }
    requires within { last < length trace.now.rows }
    requires from { IsReach atom.now trace.now r from }
    ensures { StaysTo atom.now trace.now r last result.at result.step.gap result.step.next }
{
    let mut at = r;
    let mut step = step_from(atom, trace, r, r + 1, from);
    while stays(atom.rel, at, last, &step) {
        at += 1;
        step = step_from(atom, trace, at, at + 1, step.next);
    }
    Stay { at, step }
}

/// Whether the truth of an atom of one term stays what it is over a step. On the gap its sum is that at one of the two rows, or lies between
/// the two, so it is asked at these alone.
#[inline(always)]
fn stays_on_one(rel: Rel, step: &Step) -> bool
    ensures { IsTrue result → compares rel (whole step.now.gap.from) ≡ compares rel (whole step.now.next) }
{
    truth_at(rel, step.next).holds() == truth_at(rel, step.gap.from).holds()
}

/// The same of a step that is not the last.
#[inline(always)]
fn stays_of_one(rel: Rel, at: usize, last: usize, step: &Step) -> bool
    requires { at < last }
    ensures more { IsTrue result → at + 1 < last }
    ensures same { IsTrue result → compares rel (whole step.now.gap.from) ≡ compares rel (whole step.now.next) }
{
    if at + 1 >= last {
        return false;
    }
    stays_on_one(rel, step)
}

/// How long the truth of an atom of one term stays from a row on: what `stay_from` answers, with no sum of terms to reckon.
#[inline(always)]
pub(crate) fn stay_of_one(atom: &BoundAtom, trace: &Trace, r: usize, last: usize, from: i64) -> Stay
    requires one { length atom.now.terms.items ≡ 1 }
    requires sound { IsAtomSound (length trace.now.header.columns) atom.now }
    requires before { r < last }
    requires within { last < length trace.now.rows }
    requires from { IsReach atom.now trace.now r from }
    ensures { StaysTo atom.now trace.now r last result.at result.step.gap result.step.next }
{
    let mut at = r;
    let mut step = step_from(atom, trace, r, r + 1, from);
    while stays_of_one(atom.rel, at, last, &step) {
        at += 1;
        step = step_from(atom, trace, at, at + 1, step.next);
    }
    Stay { at, step }
}

/// How the atom's truth goes from row `r` on, where its sum is `from`: to the first row with a gap before it over which it may turn, or to the
/// row `last`.
#[inline(always)]
pub fn way_from(bound: &Bound, node: u32, trace: &Trace, r: usize, last: usize, from: i64) -> Way
    requires atom { IsAtomNode bound.now node }
    requires columns { length trace.now.header.columns ≡ bound.now.width }
    requires before { r < last }
    requires within { last < length trace.now.rows }
    requires from { IsReachAt bound.now node trace.now r from }
    ensures way { IsWay bound.now node trace.now r result }
    ensures last { result.row ≤ last }
{
    let atom = bound.atom(node);
    let stay = stay_from(atom, trace, r, last, from);
    let holds = truth_at(atom.rel, stay.step.next).holds();
    Way {
        row: stay.at + 1,
        sum: stay.step.next,
        passage: passage_over(atom.rel, &stay.step.gap),
        last: holds,
    }
}

/// How far an atom's sum lies above its constant at a row, and whether the atom holds there.
pub fn standing(bound: &Bound, node: u32, trace: &Trace, r: usize) -> (i64, bool)
    requires atom { IsAtomNode bound.now node }
    requires columns { length trace.now.header.columns ≡ bound.now.width }
    requires within { r < length trace.now.rows }
    ensures sum { IsReachAt bound.now node trace.now r result.0 }
    ensures holds { (a : Atom) (tr : Recorded) (t : Rational) → IsFor bound.now node a tr → HasBlock tr trace.now → t ≈ row_time (row_of trace.now r)
        → holds_at a tr t ≡ result.1 }
{
    let atom = bound.atom(node);
    let row = row_at(trace, r);
    let sum = reach_of(atom, &row, &row);
    (sum, truth_at(atom.rel, sum).holds())
}

/// The sum of an atom at a row.
#[inline(always)]
fn sum_at(atom: &BoundAtom, trace: &Trace, r: usize) -> i64
    requires sound { IsAtomSound (length trace.now.header.columns) atom.now }
    requires within { r < length trace.now.rows }
    ensures { IsReach atom.now trace.now r result }
{
    let row = row_at(trace, r);
    reach_here(atom, &row)
}

/// Whether an atom has one truth from row `r` of a trace to the next.
#[inline(always)]
pub fn stays_over(bound: &Bound, node: u32, trace: &Trace, r: usize, next: usize) -> bool
    requires atom { IsAtomNode bound.now node }
    requires columns { length trace.now.header.columns ≡ bound.now.width }
    requires next { next ≡ r + 1 }
    requires within { next < length trace.now.rows }
    ensures { IsTrue result → (a : Atom) (tr : Recorded) → IsFor bound.now node a tr → HasBlock tr trace.now → (t : Rational)
        → row_time (row_of trace.now r) ≤ʳ t → t ≤ʳ row_time (row_of trace.now next)
        → holds_at a tr t ≡ holds_at a tr (row_time (row_of trace.now r)) }
{
    let atom = bound.atom(node);
    let step = step_from(atom, trace, r, next, sum_at(atom, trace, r));
    if atom.terms.len() == 1 {
        return stays_on_one(atom.rel, &step);
    }
    keeps_truth(atom.rel, &step.gap, step.next)
}

/// The atom's truth at row `r` of a trace.
#[inline(always)]
pub fn truth_at_row(bound: &Bound, node: u32, trace: &Trace, r: usize) -> Truth
    requires atom { IsAtomNode bound.now node }
    requires columns { length trace.now.header.columns ≡ bound.now.width }
    requires within { r < length trace.now.rows }
    ensures { IsTruthAt bound.now node (row_of trace.now r) result.holds }
{
    let atom = bound.atom(node);
    let row = row_at(trace, r);
    truth_at(atom.rel, reach_of(atom, &row, &row))
}

/// The atom's truth on the open gap behind row `r` of a trace, and at the next row.
#[inline(always)]
pub fn truth_from_row(
    bound: &Bound,
    node: u32,
    trace: &Trace,
    r: usize,
    next: usize,
) -> (TruthPiece, Truth)
    requires atom { IsAtomNode bound.now node }
    requires columns { length trace.now.header.columns ≡ bound.now.width }
    requires next { next ≡ r + 1 }
    requires within { next < length trace.now.rows }
    ensures piece { IsTruthOn bound.now node (row_of trace.now r) (row_of trace.now next) result.0 }
    ensures point { IsTruthAt bound.now node (row_of trace.now next) result.1.holds }
{
    let atom = bound.atom(node);
    let row = row_at(trace, r);
    let from = reach_of(atom, &row, &row);
    let step = step_from(atom, trace, r, next, from);
    truth_onward(atom.rel, &step.gap, step.next)
}
