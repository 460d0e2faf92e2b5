//! The answer of `robust` for a formula and a trace.
ghost use Rattle.std.specs.Prelude.{◌≡◌, ◌<◌, ◌^◌, length, IfOk, IfErr, MatchResult};
ghost use Rattle.rational.specs.Rational.{IsWithin};
ghost use Rattle.pl_signal.specs.Knots.{start, stop};
ghost use Rattle.stl_syntax.specs.Formula.{Formula as Parsed};
ghost use Rattle.stl_syntax.specs.SupInf.{margins};
ghost use Rattle.report.specs.Report.{robust};
ghost use Rattle.trace_stream.specs.Cases.{IsCase};
ghost use Rattle.whole_answers.specs.Answering.{denominator_of, stop_of_fault, IsRootOf};
ghost use Rattle.whole_answers.specs.Judging.{IsAnswerOf, IsUnanswered};

use crate::answer::Answer;
use crate::no_answer::NoAnswer;
use crate::signals::root_of;
use answer_lines::put_margins;
use offline_eval::EvalFault;
use pl_signal::{Signal, WidePair};
use std::alloc::Global;
use stl_syntax::Text;
use trace_stream::Case;
use value_laws::{Margin, Shape};

/// The denominator that a pair needs.
fn denominator(pair: &WidePair<Margin>) -> u128
    ensures { result ≡ denominator_of pair.now }
{
    match pair {
        WidePair::Cross { den, .. } => *den,
        WidePair::Value { den, .. } => *den,
    }
}

/// Why there is no answer, where an evaluation has none.
fn fault_stop(fault: EvalFault<Margin>) -> NoAnswer
    ensures { result ≡ stop_of_fault fault }
{
    match fault {
        EvalFault::Memory => NoAnswer::NoMemory,
        EvalFault::Wide(cause) => NoAnswer::Wide {
            node: cause.node,
            den: denominator(&cause.pair),
        },
    }
}

/// The signal of the robustness over a trace that has a row, of the formula that is bound to it.
///
/// # Errors
/// A denominator of 2^60 or more that a node needs; want of memory.
pub fn margins_of(alloc: Global, case: &Case) -> Result<Signal<Margin>, NoAnswer>
    requires case { (f : Parsed) × IsCase f case.now }
    requires some { 0 < length case.now.trace.rows }
    ensures told { IfOk result (IsRootOf ⟦<Margin as Shape>⟧ margins case.now) }
    ensures begins { IfOk result (λ s. IsWithin (2 ^ 34) (start s)) }
    ensures ends { IfOk result (λ s. IsWithin (2 ^ 34) (stop s)) }
    ensures none { IfErr result (λ e. (f : Parsed) → IsCase f case.now → IsUnanswered robust f case.now.trace e) }
{
    match root_of::<Margin>(alloc, case) {
        Ok(signal) => Ok(signal),
        Err(fault) => Err(fault_stop(fault)),
    }
}

/// The robustness over a trace that has a row, of the formula that is bound to it: its knots and pieces as lines.
///
/// # Errors
/// A denominator of 2^60 or more that a node needs; want of memory.
pub fn measure(alloc: Global, case: &Case) -> Result<Answer, NoAnswer>
    requires case { (f : Parsed) × IsCase f case.now }
    requires some { 0 < length case.now.trace.rows }
    ensures { (f : Parsed) → IsCase f case.now → MatchResult result
        (λ a. IsAnswerOf robust f case.now.trace a.holds a.text) (IsUnanswered robust f case.now.trace) }
{
    let scale = case.formula.scale();
    let signal = match margins_of(alloc, case) {
        Ok(signal) => signal,
        Err(stop) => return Err(stop),
    };
    let mut text = Text::new(alloc);
    match put_margins(&mut text, &signal, scale) {
        Ok(()) => Ok(Answer { holds: true, text }),
        Err(_) => Err(NoAnswer::NoMemory),
    }
}
