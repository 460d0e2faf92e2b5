//! Verdicts as the bytes of a trace come.
ghost use Rattle.std.specs.Prelude.{◌≡◌, ◌≢◌, ◌≤◌, ◌^◌, ℕ, List, Bool, [], true, false, Err, IfOk};
ghost use Rattle.io_edge.specs.Causes.{Rose};
ghost use Rattle.trace_reader.specs.InputFaults.{stream_limits};
ghost use Rattle.trace_stream.specs.Following.{IsDone};
ghost use Rattle.trace_stream.specs.Streams.{verdicts};
ghost use Rattle.verdict_stream.specs.Watching.{WatchesEnd};
ghost use Rattle.written_streams.specs.Watches.{Past, with_piece, StandsFor, StandsForAll, HasPushed, HasFinished};
ghost use Rattle.written_streams.specs.Watches.{IsCall, Moves, IsLate, IsOpen, IsFaultOf};
ghost use Rattle.written_streams.specs.declared.watch.WatchFault.{WatchFault as Reason};

use crate::made::{Halt, write_made};
use frac128::Memory;
use io_edge::Sink;
use std::alloc::Global;
use std::marker::Model;
use stl_syntax::{Formula, UnitFault};
use trace_reader::{Limits, TraceRefusal};
use trace_stream::{Live, StreamStop, TraceFault};
use verdict_stream::Verdicts;

/// Why a call was refused.
#[derive(Clone, Copy, Debug, PartialEq, Eq)]
pub enum WatchFault {
    /// The bytes have this fault.
    Trace(TraceRefusal),
    /// The header in line `line` lacks a column: that of the term at place `term` of the atom at node `atom`.
    Unknown { line: u64, atom: u32, term: u32 },
    /// In the ticks of the header in line `line` the constant of the atom at node `node` is too large.
    UnitConstant { line: u64, node: u32 },
    /// In the ticks of the header in line `line` the bounds of the formula sum to `sum`, which is too large.
    UnitReach { line: u64, sum: u64 },
    /// The sink failed.
    Write,
    /// There was too little memory.
    Memory,
    /// An earlier call answered one of the faults above.
    Stopped,
    /// The end came before.
    Ended,
}

/// How far a watch has come.
#[derive(Clone, Copy)]
pub(crate) enum Phase {
    /// More bytes, or the end, may come.
    Reading,
    /// A call answered a fault.
    Stopped,
    /// The end came.
    Ended,
}

/// The verdicts of a formula, written as the bytes of a trace are pushed: at each row those that it answers, and at the end the rest
/// and the truth at the start.
///
/// Contracts see it as `Watched`. `StandsFor` says when it stands for a past, and `StandsForAll` so after the end.
#[derive(Drop)]
pub struct Watch {
    live: Live<Verdicts>,
    phase: Phase,
}

impl Model for Watch {
    ghost use Rattle.written_streams.specs.Watches.{Watched, HasPast};

    ghost Value = { Watched };

    ghost view = { λ w. record { live = w.live; phase = w.phase } };

    ghost invariant = { λ w. HasPast (record { live = w.live; phase = w.phase }) };
}

/// The fault that a reason to stop is.
fn fault_of(halt: Halt) -> WatchFault
    requires { (x : Reason) × IsFaultOf halt x }
    ensures { IsFaultOf halt result }
{
    match halt {
        Halt::Reader(StreamStop::Fault(TraceFault::Trace(refusal))) => WatchFault::Trace(refusal),
        Halt::Reader(StreamStop::Fault(TraceFault::Unknown { line, atom, term })) => {
            WatchFault::Unknown { line, atom, term }
        }
        Halt::Reader(StreamStop::Fault(TraceFault::Unit { line, fault })) => match fault {
            UnitFault::Constant { node } => WatchFault::UnitConstant { line, node },
            UnitFault::Reach { sum } => WatchFault::UnitReach { line, sum },
            UnitFault::Memory => unreachable!(),
        },
        Halt::Reader(StreamStop::NoMemory) => WatchFault::Memory,
        Halt::Reader(StreamStop::Wide { .. }) => unreachable!(),
        Halt::Unwritten => WatchFault::Write,
    }
}

/// Stops a watch, and answers the fault that the reason is.
fn stopped(phase: &mut Phase, halt: Halt) -> WatchFault
    requires { (x : Reason) × IsFaultOf halt x }
    ensures fault { IsFaultOf halt result }
    ensures now { phase.new ≡ Phase.Stopped }
{
    *phase = Phase::Stopped;
    fault_of(halt)
}

/// Refuses a call after a fault, and after the end.
fn allow(phase: Phase) -> Result<(), WatchFault>
    ensures { IsOpen phase result }
{
    match phase {
        Phase::Reading => Ok(()),
        Phase::Stopped => Err(WatchFault::Stopped),
        Phase::Ended => Err(WatchFault::Ended),
    }
}

impl Watch {
    /// A watch of a formula that took no bytes yet.
    ///
    /// # Errors
    /// Want of memory.
    pub fn new(alloc: Global, formula: Formula, limits: Limits) -> Result<Watch, Memory>
        requires rows { limits.rows ≤ 2 ^ 32 }
        requires lines { limits.lines ≤ 2 ^ 33 }
        ensures { IfOk result (StandsFor (record { formula = formula; limits = limits; bytes = []; text = [] })) }
    {
        let live = Live::new(alloc, formula, limits)?;
        Ok(Watch {
            live,
            phase: Phase::Reading,
        })
    }

    /// Takes a piece of a trace's bytes, and writes the verdicts that the rows in it answer. What was written then is the stream text of the
    /// whole lines pushed so far.
    ///
    /// # Errors
    /// - `Trace`, `Unknown`, `UnitConstant` or `UnitReach`: the bytes have this first fault. The stream text of the rows before it was
    ///   written.
    /// - `Write`: the sink failed in this call. A first part of the stream text was written, and not all of it.
    /// - `Memory`: there was too little memory. The call wrote nothing.
    /// - `Stopped` where an earlier call answered one of these, and `Ended` after the end. Nothing changes then.
    pub fn push<K: Sink>(&mut self, piece: &[u8], out: &mut K) -> Result<(), WatchFault>
        ensures pushed { (p : Past) → StandsFor p self.old
            → IsCall (K.written out.old) (K.written out.new) (with_piece p piece.now) false (λ _ q. HasPushed q self.new) result }
        ensures phase { Moves Phase.Reading self.old self.new result }
        ensures late { IsLate result → out.new ≡ out.old }
        ensures cause { result ≡ Err WatchFault.Write → Rose (K.faults out.old) (K.faults out.new) }
        ensures still { result ≢ Err WatchFault.Write → K.faults out.new ≡ K.faults out.old }
    {
        allow(self.phase)?;
        let fed = self.live.feed(piece);
        match write_made(&mut self.live, fed, out) {
            Ok(()) => Ok(()),
            Err(halt) => Err(stopped(&mut self.phase, halt)),
        }
    }

    /// Takes the end of the bytes, with a last row that lacks its LF. Writes the verdicts that are left and the line of the truth at the
    /// start, and answers that truth.
    ///
    /// # Errors
    /// As `push`.
    pub fn end<K: Sink>(&mut self, out: &mut K) -> Result<bool, WatchFault>
        ensures ended { (p : Past) → StandsFor p self.old
            → IsCall (K.written out.old) (K.written out.new) p true (λ holds q. HasFinished q holds self.new) result }
        ensures phase { Moves Phase.Ended self.old self.new result }
        ensures late { IsLate result → out.new ≡ out.old }
        ensures cause { result ≡ Err WatchFault.Write → Rose (K.faults out.old) (K.faults out.new) }
        ensures still { result ≢ Err WatchFault.Write → K.faults out.new ≡ K.faults out.old }
    {
        allow(self.phase)?;
        let finished = self.live.finish();
        match write_made(&mut self.live, finished, out) {
            Ok(holds) => {
                self.phase = Phase::Ended;
                Ok(holds)
            }
            Err(halt) => Err(stopped(&mut self.phase, halt)),
        }
    }

    /// The watch that has taken the bytes of a reader, which has come to their end.
    pub fn ended(live: Live<Verdicts>) -> Watch
        ensures { (bytes text : List ℕ) → IsDone WatchesEnd verdicts live bytes text
            → (holds : Bool) × StandsForAll (record { formula = live.formula; limits = stream_limits; bytes = bytes; text = text }) holds result }
    {
        Watch {
            live,
            phase: Phase::Ended,
        }
    }
}
