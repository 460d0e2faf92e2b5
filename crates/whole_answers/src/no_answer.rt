//! Why a command that holds the whole trace has no answer.
ghost use Rattle.std.specs.Prelude.{◌≡◌};
ghost use Rattle.whole_answers.specs.Stopping.{reason_of, outcome_of};

use trace_stream::{StreamStop, TraceFault};

/// Why there is no answer.
#[derive(Clone, Copy)]
pub enum NoAnswer {
    /// The bytes that were read have this fault.
    Fault(TraceFault),
    /// The source failed.
    Unread,
    /// There was too little memory.
    NoMemory,
    /// The robustness at a node needs this denominator, of 2^60 or more.
    Wide { node: u32, den: u128 },
    /// An explanation would have more than 65,536 cells: so many at the first node at which their running sum passes that limit.
    TooMany { count: u64 },
}

/// The reason that a reader's is.
pub(crate) fn reason_from(stop: StreamStop) -> NoAnswer
    ensures { result ≡ reason_of stop }
{
    match stop {
        StreamStop::Fault(fault) => NoAnswer::Fault(fault),
        StreamStop::NoMemory => NoAnswer::NoMemory,
        StreamStop::Wide { node, den } => NoAnswer::Wide { node, den },
    }
}

/// What came of bytes, with the reason of the command.
pub(crate) fn outcome_from<T: Copy>(outcome: Result<T, StreamStop>) -> Result<T, NoAnswer>
    ensures { result ≡ outcome_of outcome }
{
    match outcome {
        Ok(x) => Ok(x),
        Err(stop) => Err(reason_from(stop)),
    }
}
