//! `gen`: the summary of a generated trace is written.
ghost use Rattle.std.specs.Prelude.{◌≡◌, ◌≢◌, ◌≤◌, ℕ, List};
ghost use Rattle.io_edge.specs.Calls.{filled};
ghost use Rattle.command_line.specs.Saying.{IsSaid};
ghost use Rattle.workload_summary.specs.Made.{IsMade};

use crate::summary::summary;
use command_line::{Workload, no_memory_line, say, write_all, write_fault_line};
use io_edge::Sink;
use std::alloc::Global;

/// Writes the summary of a generated trace; the reason why it could not is said.
pub fn generate<K: Sink, E: Sink>(alloc: Global, workload: Workload, out: &mut K, err: &mut E) -> u8
    requires some { 1 ≤ workload.rows }
    requires few { workload.rows ≤ 200000 }
    ensures made { (line : List ℕ) × IsMade workload.number workload.rows (filled K.written K.faults out.old out.new) result line
        × IsSaid (E.written err.old) (E.written err.new) (E.faults err.old) (E.faults err.new) line }
    ensures write_due { result ≢ 6 → K.faults out.new ≡ K.faults out.old }
    ensures nothing { 2 ≤ result → result ≢ 6 → out.new ≡ out.old }
    ensures quiet { result ≤ 1 → err.new ≡ err.old }
    ensures out_later { K.faults out.old ≤ K.faults out.new }
    ensures err_later { E.faults err.old ≤ E.faults err.new }
{
    let Ok(text) = summary(alloc, workload.number, workload.rows) else {
        say(err, &no_memory_line());
        return 7;
    };
    match write_all(out, text.bytes()) {
        Ok(()) => 0,
        Err(_) => {
            say(err, &write_fault_line());
            6
        }
    }
}
