//! The verdicts of a signal as a list.
ghost use Rattle.std.specs.Prelude.{◌≡◌, ◌++◌, IfOk, OnOk};
ghost use Rattle.rational.specs.Time.{closed};
ghost use Rattle.pl_signal.specs.Knots.{start, stop, IsWorth};
ghost use Rattle.report.specs.SignalVerdicts.{DescribesFunction};
ghost use Rattle.report.specs.Spelling.{listed};

use crate::spelling::OpenSpan;
use frac128::Memory;
use pl_signal::Signal;
use std::alloc::Global;
use stl_syntax::Verdict;
use value_laws::{Shape, Truth};

/// Adds a verdict, where there is one.
fn add_ended(all: &mut Vec<Verdict>, ended: Option<Verdict>) -> Result<(), Memory>
    ensures { OnOk result (all.new.items ≡ all.old.items ++ listed ended) }
{
    let Some(v) = ended else {
        return Ok(());
    };
    match all.push(v) {
        Ok(()) => Ok(()),
        Err(_) => Err(Memory),
    }
}

/// The verdicts of a signal: the longest spans of one truth, in order.
///
/// # Errors
/// Want of memory.
pub fn verdicts_of(alloc: Global, s: &Signal<Truth>) -> Result<Vec<Verdict>, Memory>
    ensures { IfOk result (λ vs. DescribesFunction (IsWorth ⟦<Truth as Shape>⟧ s.now) vs.items (closed (start s.now) (stop s.now))) }
{
    let knots = s.len();
    let mut span = OpenSpan::start(&s.knot(0));
    let mut all = Vec::new(alloc);
    for i in 1..knots {
        let (by_gap, by_point) = span.advance(&s.knot(i - 1), &s.knot(i));
        add_ended(&mut all, by_gap)?;
        add_ended(&mut all, by_point)?;
    }
    let last = span.close(s.stop(), true);
    add_ended(&mut all, Some(last))?;
    Ok(all)
}
