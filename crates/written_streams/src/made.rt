//! Writing the text that a reader made of bytes.
ghost use Rattle.std.specs.Prelude.{◌≡◌, ◌≢◌, ◌≤◌, OnOk, IsTrue, Err, [], false};
ghost use Rattle.io_edge.specs.Causes.{Rose};
ghost use Rattle.written_streams.specs.MadeWritten.{IsMadeWritten, outcome_of};

use command_line::write_all;
use io_edge::Sink;
use trace_stream::{Follow, Live, StreamStop};

/// Why a stream does not go on.
#[derive(Clone, Copy)]
pub enum Halt {
    /// The reader stopped for this reason.
    Reader(StreamStop),
    /// The sink failed.
    Unwritten,
}

/// What came of bytes, with the reason of the stream.
fn outcome_from<T: Copy>(outcome: Result<T, StreamStop>) -> Result<T, Halt>
    ensures { result ≡ outcome_of outcome }
{
    match outcome {
        Ok(x) => Ok(x),
        Err(stop) => Err(Halt::Reader(stop)),
    }
}

/// Whether the reader stopped for want of memory: then nothing of its text is written.
fn is_starved<T: Copy>(outcome: Result<T, StreamStop>) -> bool
    ensures yes { IsTrue result → outcome ≡ Err StreamStop.NoMemory }
    ensures no { result ≡ false → outcome ≢ Err StreamStop.NoMemory }
{
    match outcome {
        Err(StreamStop::NoMemory) => true,
        _ => false,
    }
}

/// Writes the text that was made, unless memory was wanting, and answers what came of the bytes.
///
/// # Errors
/// What came of the bytes, or the sink failed.
pub fn write_made<F: Follow, T: Copy, K: Sink>(
    live: &mut Live<F>,
    outcome: Result<T, StreamStop>,
    out: &mut K,
) -> Result<T, Halt>
    ensures written { IsMadeWritten (K.written out.old) (K.written out.new) live.old.text outcome result }
    ensures done { OnOk result (live.new ≡ record live.old { text = [] }) }
    ensures same { live.new.formula ≡ live.old.formula }
    ensures cause { result ≡ Err Halt.Unwritten → Rose (K.faults out.old) (K.faults out.new) }
    ensures still { result ≢ Err Halt.Unwritten → K.faults out.new ≡ K.faults out.old }
    ensures later { K.faults out.old ≤ K.faults out.new }
{
    if is_starved(outcome) {
        return Err(Halt::Reader(StreamStop::NoMemory));
    }
    match write_all(out, live.text()) {
        Ok(()) => {
            live.clear();
            outcome_from(outcome)
        }
        Err(_) => Err(Halt::Unwritten),
    }
}
