//! `check`: the verdicts of a formula over a trace, of which no row is held but the last.
ghost use Rattle.std.specs.Prelude.{◌≡◌, ◌≢◌, ◌≤◌, Err, IsErr};
ghost use Rattle.io_edge.specs.Causes.{Rose, after_end};
ghost use Rattle.io_edge.specs.Calls.{drained, filled};
ghost use Rattle.report.specs.Report.{check};
ghost use Rattle.workbench.specs.Wholes.{IsWholeEnd};

use crate::fault::{Stop, stop_for};
use crate::top::{LIMITS, write_lines};
use answer_lines::LineRoom;
use io_edge::{Sink, Source};
use std::alloc::Global;
use stl_syntax::Formula;
use verdict_sets::VerdictSets;
use whole_answers::read_trace;

/// Reads the whole trace, judges it by the formula, and writes the verdicts: their lines are made while they are written, over a room that
/// is taken before.
pub(crate) fn judge<S: Source, K: Sink>(
    alloc: Global,
    formula: &Formula,
    input: &mut S,
    out: &mut K,
) -> Result<bool, Stop>
    ensures ending { IsWholeEnd check formula.now (drained S.left S.ended S.ends S.gave S.asked S.faults input.old input.new)
        (filled K.written K.faults out.old out.new) result }
    ensures read { result ≡ Err Stop.Unread → Rose (S.faults input.old) (S.faults input.new) }
    ensures write { result ≡ Err Stop.Unwritten → Rose (K.faults out.old) (K.faults out.new) }
    ensures read_due { result ≢ Err Stop.Unread → S.faults input.new ≡ S.faults input.old }
    ensures write_due { result ≢ Err Stop.Unwritten → K.faults out.new ≡ K.faults out.old }
    ensures input_later { S.faults input.old ≤ S.faults input.new }
    ensures out_later { K.faults out.old ≤ K.faults out.new }
    ensures ends { result ≢ Err Stop.NoMemory → S.ends input.new ≡ after_end (S.ended input.new) (S.ends input.old) }
    ensures nothing { IsErr result → result ≢ Err Stop.Unwritten → out.new ≡ out.old }
{
    let sets = match read_trace::<S, VerdictSets>(input, formula, LIMITS, alloc) {
        Ok(sets) => sets,
        Err(reason) => return Err(stop_for(reason)),
    };
    let Ok(mut room) = LineRoom::new(alloc) else {
        return Err(Stop::NoMemory);
    };
    match sets.finish(alloc) {
        Ok(mut told) => write_lines(out, told.holds, &mut told, &mut room),
        Err(_) => Err(Stop::NoMemory),
    }
}
