//! The line of the first fault of an input of several sessions.
ghost use Rattle.std.specs.Prelude.{◌≡◌};
ghost use Rattle.answer_lines.specs.Lines.{line_text};
ghost use Rattle.session_mux.specs.Inputs.{input_fault_text};
ghost use Rattle.session_mux.specs.Taking.{fault_of};

use crate::stop::{FaultAt, LineKind};
use answer_lines::Line;

/// The line of the first fault of an input of several sessions.
pub fn input_fault_line(fault: FaultAt) -> Line<'static>
    ensures { line_text result ≡ input_fault_text (fault_of fault) }
{
    let n = fault.line;
    match fault.kind {
        LineKind::TooManyLines => Line::numbered(b"line ", n, b": too many lines\n"),
        LineKind::TooLong => Line::numbered(b"line ", n, b": line too long\n"),
        LineKind::BadTag => Line::numbered(b"line ", n, b": bad tag\n"),
        LineKind::TooManySessions => Line::numbered(b"line ", n, b": too many sessions\n"),
    }
}
