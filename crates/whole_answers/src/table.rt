//! The answer of `table` for a formula and a trace.
ghost use Rattle.std.specs.Prelude.{◌<◌, length, MatchResult};
ghost use Rattle.stl_syntax.specs.Formula.{Formula as Parsed};
ghost use Rattle.report.specs.Report.{table};
ghost use Rattle.trace_stream.specs.Cases.{IsCase};
ghost use Rattle.whole_answers.specs.Judging.{IsAnswerOf, IsUnanswered};

use crate::answer::Answer;
use crate::no_answer::NoAnswer;
use crate::robust::margins_of;
use report::put_table;
use std::alloc::Global;
use stl_syntax::Text;
use trace_stream::Case;

/// The robustness over a trace that has a row, of the formula that is bound to it: its knots and pieces as a table.
///
/// # Errors
/// A denominator of 2^60 or more that a node needs; want of memory.
pub fn tabulate(alloc: Global, case: &Case) -> Result<Answer, NoAnswer>
    requires case { (f : Parsed) × IsCase f case.now }
    requires some { 0 < length case.now.trace.rows }
    ensures { (f : Parsed) → IsCase f case.now → MatchResult result
        (λ a. IsAnswerOf table f case.now.trace a.holds a.text) (IsUnanswered table f case.now.trace) }
{
    let scale = case.formula.scale();
    let signal = match margins_of(alloc, case) {
        Ok(signal) => signal,
        Err(stop) => return Err(stop),
    };
    let mut text = Text::new(alloc);
    match put_table(alloc, &mut text, &signal, scale) {
        Ok(()) => Ok(Answer { holds: true, text }),
        Err(_) => Err(NoAnswer::NoMemory),
    }
}
