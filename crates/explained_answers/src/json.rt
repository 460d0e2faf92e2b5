//! The answer of `json` for a formula and a trace.
ghost use Rattle.std.specs.Prelude.{◌≡◌, ◌<◌, ℕ, length, MatchBool, MatchResult};
ghost use Rattle.stl_syntax.specs.SupInf.{truths};
ghost use Rattle.atom_lines.specs.Binding.{IsBound};
ghost use Rattle.implicants.specs.Explaining.{HoldsAtStart, IsExplained, IsExplainFault};
ghost use Rattle.report.specs.Report.{json};
ghost use Rattle.trace_stream.specs.Cases.{IsCase};
ghost use Rattle.whole_answers.specs.Answering.{IsRootOf};
ghost use Rattle.explained_answers.specs.Reasons.{truth_of as truth_explained, items_of};
ghost use Rattle.whole_answers.specs.Judging.{IsAnswerOf, IsUnanswered};

use crate::explain::fault_stop;
use frac128::Steps;
use implicants::{ExplainFault, Explained, explain_violation};
use pl_signal::Signal;
use report::put_json;
use std::alloc::Global;
use std::marker::Brand;
use std::sync::ledger::{Blank, Ledger};
use stl_syntax::{Formula, Items, Text};
use trace_stream::Case;
use value_laws::{Shape, Truth};
use whole_answers::{Answer, NoAnswer, margins_of, truth_of};

/// What an explanation says of the start, and its items.
fn truth_and_items(alloc: Global, explained: Explained) -> (bool, Items)
    ensures truth { result.0 ≡ truth_explained explained }
    ensures items { result.1 ≡ items_of explained }
{
    match explained {
        Explained::Holds => (true, Items::new(alloc)),
        Explained::Violated(items) => (false, items),
    }
}

/// Whether the formula is true at the start of the trace, from the signal of its truth.
fn holds_at_start(case: &Case, truth: &Signal<Truth>) -> bool
    requires told { IsRootOf ⟦<Truth as Shape>⟧ truths case.now truth.now }
    ensures { MatchBool result
        (HoldsAtStart case.now.formula.nodes case.now.trace) (¬ HoldsAtStart case.now.formula.nodes case.now.trace) }
{
    // For the proof alone: what the signal tells, and that it is one.
    let _ = (case.trace.rows(), truth.len());
    truth.knot(0).point.holds()
}

/// Why the formula of the case is false at the start of the trace, as it is, from the signal of its truth, which is handed back.
///
/// # Errors
/// A violation with too many cells; want of memory.
fn reasons_from<L: Ledger>(
    alloc: Global,
    case: &Case,
    truth: Signal<Truth>,
    blank: Blank,
) -> Result<(Explained, Signal<Truth>), ExplainFault>
    requires bound { IsBound case.now.bound case.now.formula case.now.trace.header }
    requires some { 0 < length case.now.trace.rows }
    requires told { IsRootOf ⟦<Truth as Shape>⟧ truths case.now truth }
    requires fails { ¬ HoldsAtStart case.now.formula.nodes case.now.trace }
    requires name { blank.name ≡ L.name }
    requires parts { blank.parts ≡ L.parts }
    requires shares { 0 < blank.parts }
    ensures { MatchResult result
        (λ r. (steps : ℕ) × IsExplained case.now.formula.nodes case.now.trace steps r.0 × (r.1 ≡ truth))
        (IsExplainFault case.now.formula.nodes case.now.trace) }
{
    let mut steps: Steps<L> = Steps::new(blank);
    explain_violation(
        alloc,
        &case.formula,
        &case.bound,
        &case.trace,
        truth,
        &mut steps,
    )
}

/// Why the formula of the case is false at the start of the trace, from the signal of its truth, which is handed back. Where that tells that
/// it holds there, nothing more is asked.
///
/// # Errors
/// A violation with too many cells; want of memory.
fn reasons_for(
    alloc: Global,
    case: &Case,
    truth: Signal<Truth>,
) -> Result<(Explained, Signal<Truth>), ExplainFault>
    requires bound { IsBound case.now.bound case.now.formula case.now.trace.header }
    requires some { 0 < length case.now.trace.rows }
    requires told { IsRootOf ⟦<Truth as Shape>⟧ truths case.now truth }
    ensures { MatchResult result
        (λ r. (steps : ℕ) × IsExplained case.now.formula.nodes case.now.trace steps r.0 × (r.1 ≡ truth))
        (IsExplainFault case.now.formula.nodes case.now.trace) }
{
    if holds_at_start(case, &truth) {
        return Ok((Explained::Holds, truth));
    }
    reasons_from::<Brand>(alloc, case, truth, Blank::new(1))
}

/// The verdicts, the robustness and the explanation over a trace that has a row, of the formula of which the case is made, as one
/// object of JSON. An explanation that is refused comes before a robustness that is.
///
/// # Errors
/// A violation with too many cells; a denominator of 2^60 or more that a node needs; want of memory.
pub fn give_report(alloc: Global, formula: &Formula, case: &Case) -> Result<Answer, NoAnswer>
    requires case { IsCase formula.now case.now }
    requires some { 0 < length case.now.trace.rows }
    ensures { MatchResult result
        (λ a. IsAnswerOf json formula.now case.now.trace a.holds a.text)
        (IsUnanswered json formula.now case.now.trace) }
{
    let scale = case.formula.scale();
    // For the proof alone: the formula is well formed.
    let _ = case.formula.len();
    let truth = match truth_of(alloc, case) {
        Ok(truth) => truth,
        Err(_) => return Err(NoAnswer::NoMemory),
    };
    let (explained, truth) = match reasons_for(alloc, case, truth) {
        Ok(both) => both,
        Err(fault) => return Err(fault_stop(fault)),
    };
    let margins = match margins_of(alloc, case) {
        Ok(margins) => margins,
        Err(stop) => return Err(stop),
    };
    let (holds, items) = truth_and_items(alloc, explained);
    let mut text = Text::new(alloc);
    match put_json(alloc, &mut text, formula, &truth, &margins, &items, scale) {
        Ok(()) => Ok(Answer { holds, text }),
        Err(_) => Err(NoAnswer::NoMemory),
    }
}
