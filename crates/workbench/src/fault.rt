//! Why a command stops before its answer.
ghost use Rattle.std.specs.Prelude.{◌≡◌};
ghost use Rattle.workbench.specs.Stopping.{stop_of, stop_for as stop_of_answer, outcome_of};

use session_mux::FaultAt;
use trace_stream::{StreamStop, TraceFault};
use whole_answers::NoAnswer;
use written_streams::Halt;

/// Why there is no answer, or not all of it was written.
#[derive(Clone, Copy)]
pub(crate) enum Stop {
    /// The bytes that were read have this fault.
    Fault(TraceFault),
    /// A line of several sessions' input has this fault.
    Input(FaultAt),
    /// The source failed.
    Unread,
    /// The sink failed.
    Unwritten,
    /// There was too little memory.
    NoMemory,
    /// The robustness at a node needs this denominator, of 2^60 or more.
    Wide { node: u32, den: u128 },
    /// An explanation would have more than 65,536 cells: so many at the first node at which their running sum passes that limit.
    TooMany { count: u64 },
}

/// The reason to stop that a stream's is.
fn stop_from(halt: Halt) -> Stop
    ensures { result ≡ stop_of halt }
{
    match halt {
        Halt::Reader(StreamStop::Fault(fault)) => Stop::Fault(fault),
        Halt::Reader(StreamStop::NoMemory) => Stop::NoMemory,
        Halt::Reader(StreamStop::Wide { node, den }) => Stop::Wide { node, den },
        Halt::Unwritten => Stop::Unwritten,
    }
}

/// What came of bytes, with the reason of the command.
pub(crate) fn outcome_from<T: Copy>(outcome: Result<T, Halt>) -> Result<T, Stop>
    ensures { result ≡ outcome_of outcome }
{
    match outcome {
        Ok(x) => Ok(x),
        Err(halt) => Err(stop_from(halt)),
    }
}

/// The reason to stop that one for no answer is.
pub(crate) fn stop_for(reason: NoAnswer) -> Stop
    ensures { result ≡ stop_of_answer reason }
{
    match reason {
        NoAnswer::Fault(fault) => Stop::Fault(fault),
        NoAnswer::Unread => Stop::Unread,
        NoAnswer::NoMemory => Stop::NoMemory,
        NoAnswer::Wide { node, den } => Stop::Wide { node, den },
        NoAnswer::TooMany { count } => Stop::TooMany { count },
    }
}
