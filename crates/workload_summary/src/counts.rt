//! How many lines of verdicts `check` and `watch` write for the bytes of a trace that have no fault.
ghost use Rattle.std.specs.Prelude.{◌≡◌, IfOk};
ghost use Rattle.stl_syntax.specs.Trace.{Trace};
ghost use Rattle.trace_reader.specs.InputFaults.{whole_limits};
ghost use Rattle.trace_stream.specs.CaseReader.{IsWhole};
ghost use Rattle.trace_stream.specs.Kept.{IsEndedAs};
ghost use Rattle.verdict_sets.specs.Keeping.{HasSets};
ghost use Rattle.workload_summary.specs.Counts.{IsChecked, IsStreamed};

use crate::lines::verdict_lines;
use answer_lines::{LineRoom, LinesLeft};
use frac128::Memory;
use std::alloc::Global;
use stl_syntax::{Formula, Text};
use trace_reader::Limits;
use trace_stream::{CaseReader, Live, StreamStop};
use verdict_sets::VerdictSets;
use verdict_stream::Verdicts;

/// The limits of a trace that is held whole, in which every generated one is.
const LIMITS: Limits = Limits {
    rows: 1_000_000,
    lines: 8_589_934_592,
};

/// Why bytes were refused that have no fault.
fn memory_of(stop: StreamStop) -> Memory
    requires { stop ≡ StreamStop.NoMemory }
{
    match stop {
        StreamStop::NoMemory => Memory,
        StreamStop::Fault(_) | StreamStop::Wide { .. } => unreachable!(),
    }
}

/// The sets of the formula over the trace of the bytes.
///
/// # Errors
/// Want of memory.
fn sets_of(alloc: Global, formula: &Formula, bytes: &[u8]) -> Result<VerdictSets, Memory>
    requires { (tr : Trace) × IsWhole whole_limits formula.now bytes.now tr }
    ensures { IfOk result (IsEndedAs HasSets whole_limits formula.now bytes.now) }
{
    let mut reading = CaseReader::<VerdictSets>::new(alloc, formula, LIMITS)?;
    if let Err(stop) = reading.feed(alloc, bytes, formula) {
        return Err(memory_of(stop));
    }
    if let Err(stop) = reading.finish(alloc, formula) {
        return Err(memory_of(stop));
    }
    match reading.into_kept() {
        Some(sets) => Ok(sets),
        None => unreachable!(),
    }
}

/// The text of all lines that are left to write of an answer.
///
/// # Errors
/// Want of memory.
fn text_left<L: LinesLeft>(alloc: Global, left: &mut L) -> Result<Text, Memory>
    requires { L.can_go_on left.old }
    ensures { IfOk result (L.is_left left.old) }
{
    let mut room = LineRoom::new(alloc)?;
    let mut text = Text::new(alloc);
    loop {
        room.clear();
        let more = left.put_some(&mut room);
        text.push(room.bytes())?;
        if !more {
            return Ok(text);
        }
    }
}

/// How many lines of verdicts `check` writes for the bytes of a trace, and whether the formula holds at its start.
///
/// # Errors
/// Want of memory.
pub(crate) fn checked(
    alloc: Global,
    formula: &Formula,
    bytes: &[u8],
) -> Result<(usize, bool), Memory>
    requires { (tr : Trace) × IsWhole whole_limits formula.now bytes.now tr }
    ensures { IfOk result (λ a. (tr : Trace) → IsWhole whole_limits formula.now bytes.now tr → IsChecked formula.now tr a.0 a.1) }
{
    let sets = sets_of(alloc, formula, bytes)?;
    let mut told = sets.finish(alloc)?;
    let holds = told.holds;
    let text = text_left(alloc, &mut told)?;
    Ok((verdict_lines(text.bytes()), holds))
}

/// How many lines of verdicts `watch` writes for the bytes of a trace.
///
/// # Errors
/// Want of memory.
pub(crate) fn watched(alloc: Global, formula: Formula, bytes: &[u8]) -> Result<usize, Memory>
    requires { (tr : Trace) × IsWhole whole_limits formula bytes.now tr }
    ensures { IfOk result (λ n. (tr : Trace) → IsWhole whole_limits formula bytes.now tr → IsStreamed formula tr n) }
{
    let mut live = Live::<Verdicts>::new(alloc, formula, LIMITS)?;
    if let Err(stop) = live.feed(bytes) {
        return Err(memory_of(stop));
    }
    if let Err(stop) = live.finish() {
        return Err(memory_of(stop));
    }
    Ok(verdict_lines(live.text()))
}
