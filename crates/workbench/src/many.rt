//! Several sessions in one input, as a stream: the answers to its lines are written.
ghost use Rattle.std.specs.Prelude.{◌≡◌, ◌≢◌, ◌≤◌, [], IfOk, OnOk, IsTrue, false, Err};
ghost use Rattle.io_edge.specs.Causes.{Rose};
ghost use Rattle.session_mux.specs.Taking.{HasAll};
ghost use Rattle.workbench.specs.Many.{outcome_of_input, IsInputWritten, IsManyAtRest};
ghost use Rattle.workbench.specs.Requests.{sessions};

use crate::fault::Stop;
use crate::kept::Kept;
use crate::stream::Push;
use command_line::write_all;
use frac128::Memory;
use io_edge::Sink;
use session_mux::{Input, InputStop};
use std::alloc::Global;
use stl_syntax::Formula;

/// The sessions of an input, with the formula of them all.
#[derive(Drop)]
pub(crate) struct Many {
    formula: Formula,
    input: Input,
}

impl Many {
    /// No bytes of the input yet.
    ///
    /// # Errors
    /// Want of memory.
    pub(crate) fn new(alloc: Global, formula: Formula) -> Result<Many, Memory>
        ensures rest { IfOk result (λ m. IsManyAtRest m [] []) }
        ensures formula { IfOk result (λ m. m.formula ≡ formula) }
    {
        match formula.copied() {
            Ok(same) => Ok(Many {
                formula,
                input: Input::new(alloc, same),
            }),
            Err(_) => Err(Memory),
        }
    }
}

/// What came of the input's bytes, with the reason of the command.
fn outcome_from(outcome: Result<(), InputStop>) -> Result<(), Stop>
    ensures { result ≡ outcome_of_input outcome }
{
    match outcome {
        Ok(()) => Ok(()),
        Err(InputStop::Fault(fault)) => Err(Stop::Input(fault)),
        Err(InputStop::NoMemory) => Err(Stop::NoMemory),
    }
}

/// Whether the sessions ended for want of memory: then nothing of their text is written.
fn is_starved(outcome: Result<(), InputStop>) -> bool
    ensures yes { IsTrue result → outcome ≡ Err InputStop.NoMemory }
    ensures no { result ≡ false → outcome ≢ Err InputStop.NoMemory }
{
    match outcome {
        Err(InputStop::NoMemory) => true,
        _ => false,
    }
}

/// Writes the text that was made, unless memory was wanting, and answers what came of the bytes.
///
/// # Errors
/// What came of the bytes, or the sink failed.
fn write_made<K: Sink>(
    input: &mut Input,
    outcome: Result<(), InputStop>,
    out: &mut K,
) -> Result<(), Stop>
    ensures written { IsInputWritten (K.written out.old) (K.written out.new) input.old.text outcome result }
    ensures done { OnOk result (input.new ≡ record input.old { text = [] }) }
    ensures cause { result ≡ Err Stop.Unwritten → Rose (K.faults out.old) (K.faults out.new) }
    ensures still { result ≢ Err Stop.Unwritten → K.faults out.new ≡ K.faults out.old }
    ensures later { K.faults out.old ≤ K.faults out.new }
{
    if is_starved(outcome) {
        return Err(Stop::NoMemory);
    }
    match write_all(out, input.text()) {
        Ok(()) => {
            input.clear();
            outcome_from(outcome)
        }
        Err(_) => Err(Stop::Unwritten),
    }
}

impl Push for Many {
    ghost request = { λ m. sessions m.formula };

    ghost stands = { λ m bytes text. IsManyAtRest m bytes text };

    ghost done = { λ m bytes text. HasAll m.formula m.input.mux bytes text };

    fn push<K: Sink>(&mut self, piece: &[u8], out: &mut K) -> Result<(), Stop> {
        let fed = self.input.feed(piece);
        write_made(&mut self.input, fed, out)
    }

    fn end<K: Sink>(&mut self, out: &mut K) -> Result<bool, Stop> {
        let finished = self.input.finish();
        match write_made(&mut self.input, finished, out) {
            Ok(()) => Ok(true),
            Err(stop) => Err(stop),
        }
    }

    fn formula(&self) -> &Formula {
        &self.formula
    }

    fn into_kept(self) -> Kept {
        let Many {
            formula: _formula,
            input,
        } = self;
        Kept::Mux(input.into_mux())
    }
}
