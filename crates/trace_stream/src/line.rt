//! The line of the first fault of a trace's bytes.
ghost use Rattle.std.specs.Prelude.{◌≡◌, ℕ, List};
ghost use Rattle.trace_reader.specs.InputFaults.{Fault as FirstFault};
ghost use Rattle.answer_lines.specs.FaultTexts.{fault_text};
ghost use Rattle.answer_lines.specs.Lines.{line_text};
ghost use Rattle.trace_stream.specs.Cases.{IsFault, IsNamed};

use crate::fault::TraceFault;
use answer_lines::{Line, trace_fault_line, unit_fault_line, unknown_line};
use stl_syntax::{Formula, Name, Node};

/// The name in a term of the formula.
fn name_at(formula: &Formula, atom: u32, term: u32) -> &Name
    requires { (name : List ℕ) × IsNamed formula.now atom term name }
    ensures { IsNamed formula.now atom term result.now }
{
    match formula.node(atom) {
        Node::Atom(atom) => atom.term(term as usize).name(),
        _ => unreachable!(),
    }
}

/// The line of the first fault of a trace's bytes.
pub fn fault_line(formula: &Formula, fault: TraceFault) -> Line<'_>
    requires { (x : FirstFault) × IsFault formula.now fault x }
    ensures { (x : FirstFault) → IsFault formula.now fault x → line_text result ≡ fault_text x }
{
    match fault {
        TraceFault::Trace(refusal) => trace_fault_line(&refusal),
        TraceFault::Unknown { line, atom, term } => {
            unknown_line(line, name_at(formula, atom, term))
        }
        TraceFault::Unit { line, fault } => unit_fault_line(line, &fault),
    }
}
