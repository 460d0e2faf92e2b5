//! Why a stream stops.
use crate::follow::FollowFault;
use frac128::Memory;
use stl_syntax::UnitFault;
use trace_reader::TraceRefusal;

/// The first fault of a trace's bytes for a formula, with its line.
#[derive(Clone, Copy)]
pub enum TraceFault {
    /// A fault of the trace itself.
    Trace(TraceRefusal),
    /// The header in line `line` lacks a column: that of the term at place `term` of the atom at node `atom`.
    Unknown { line: u64, atom: u32, term: u32 },
    /// The formula's numbers do not fit in the ticks of the header in line `line`.
    Unit { line: u64, fault: UnitFault },
}

/// Why no more is taken of a trace's bytes.
#[derive(Clone, Copy)]
pub enum StreamStop {
    /// The bytes that were handed over have this fault.
    Fault(TraceFault),
    /// There was too little memory.
    NoMemory,
    /// The robustness at node `node` needs this denominator, of 2^60 or more.
    Wide { node: u32, den: u128 },
}

impl From<Memory> for StreamStop {
    ghost use Rattle.std.specs.Prelude.{◌≡◌};
    ghost use Rattle.trace_stream.specs.declared.fault.StreamStop.TheVariants.{NoMemory};

    ghost from_gives = { λ _ stop. stop ≡ NoMemory };

    fn from(_: Memory) -> StreamStop {
        StreamStop::NoMemory
    }
}

impl From<FollowFault> for StreamStop {
    ghost use Rattle.std.specs.Prelude.{◌≡◌};
    ghost use Rattle.trace_stream.specs.Following.{stop_of};

    ghost from_gives = { λ fault stop. stop ≡ stop_of fault };

    fn from(fault: FollowFault) -> StreamStop {
        match fault {
            FollowFault::Memory => StreamStop::NoMemory,
            FollowFault::Wide { node, den } => StreamStop::Wide { node, den },
        }
    }
}
