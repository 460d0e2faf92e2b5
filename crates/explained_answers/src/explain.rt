//! The answer of `explain` for a formula and a trace.
ghost use Rattle.std.specs.Prelude.{◌≡◌, ◌-◌, ◌<◌, ◌≤◌, ℕ, All, length, IfOk, MatchResult};
ghost use Rattle.atom_lines.specs.Binding.{IsBound};
ghost use Rattle.implicants.specs.Explaining.{IsExplained, IsExplainFault};
ghost use Rattle.report.specs.ItemLines.{IsOfAtom};
ghost use Rattle.report.specs.Report.{explain as explaining};
ghost use Rattle.trace_stream.specs.Cases.{IsCase};
ghost use Rattle.explained_answers.specs.Reasons.{items_of, IsReasonText, stop_of_explaining};
ghost use Rattle.whole_answers.specs.Judging.{IsAnswerOf, IsUnanswered};

use answer_lines::put_start;
use frac128::{Memory, Steps};
use implicants::{ExplainFault, Explained, explain};
use report::put_items;
use std::alloc::Global;
use std::marker::Brand;
use std::sync::ledger::{Blank, Ledger};
use stl_syntax::{Formula, Scale, Text};
use trace_stream::Case;
use whole_answers::{Answer, NoAnswer};

/// Why the formula of the case is false at the start of the trace, or that it holds there.
///
/// # Errors
/// A violation with too many cells; want of memory.
pub(crate) fn reasons<L: Ledger>(
    alloc: Global,
    case: &Case,
    blank: Blank,
) -> Result<Explained, ExplainFault>
    requires bound { IsBound case.now.bound case.now.formula case.now.trace.header }
    requires some { 0 < length case.now.trace.rows }
    requires name { blank.name ≡ L.name }
    requires parts { blank.parts ≡ L.parts }
    requires shares { 0 < blank.parts }
    ensures { MatchResult result
        (λ r. (steps : ℕ) × IsExplained case.now.formula.nodes case.now.trace steps r)
        (IsExplainFault case.now.formula.nodes case.now.trace) }
{
    let mut steps: Steps<L> = Steps::new(blank);
    explain(alloc, &case.formula, &case.bound, &case.trace, &mut steps)
}

/// Why there is no answer, where there is no explanation.
pub(crate) fn fault_stop(fault: ExplainFault) -> NoAnswer
    ensures { result ≡ stop_of_explaining fault }
{
    match fault {
        ExplainFault::TooManyCells { count } => NoAnswer::TooMany { count },
        ExplainFault::Memory => NoAnswer::NoMemory,
    }
}

/// The text of an explanation: the line of the truth at the start, and behind it the items, with the atoms as the formula has them.
fn text_of(
    alloc: Global,
    formula: &Formula,
    scale: Scale,
    explained: &Explained,
) -> Result<Answer, Memory>
    requires digits { scale.time ≤ 6 }
    requires atoms { All (IsOfAtom formula.now) (items_of explained.now) }
    ensures { IfOk result (λ a. IsReasonText scale formula.now explained.now a.holds a.text) }
{
    let mut text = Text::new(alloc);
    match explained {
        Explained::Holds => {
            put_start(&mut text, true)?;
            Ok(Answer { holds: true, text })
        }
        Explained::Violated(items) => {
            put_start(&mut text, false)?;
            put_items(&mut text, formula, items, scale)?;
            Ok(Answer { holds: false, text })
        }
    }
}

/// Explains the truth at the start of a trace that has a row, of the formula of which the case is made: `start true`, or
/// `start false` and the cells of atoms that are kept.
///
/// # Errors
/// A violation with too many cells; want of memory.
pub fn give_reasons(alloc: Global, formula: &Formula, case: &Case) -> Result<Answer, NoAnswer>
    requires case { IsCase formula.now case.now }
    requires some { 0 < length case.now.trace.rows }
    ensures { MatchResult result
        (λ a. IsAnswerOf explaining formula.now case.now.trace a.holds a.text)
        (IsUnanswered explaining formula.now case.now.trace) }
{
    let scale = case.formula.scale();
    // For the proof alone: the formula is well formed.
    let _ = case.formula.len();
    let explained = match reasons::<Brand>(alloc, case, Blank::new(1)) {
        Ok(explained) => explained,
        Err(fault) => return Err(fault_stop(fault)),
    };
    match text_of(alloc, formula, scale, &explained) {
        Ok(answer) => Ok(answer),
        Err(_) => Err(NoAnswer::NoMemory),
    }
}
