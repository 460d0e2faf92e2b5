//! How a run ends whose text gives no formula.
ghost use Rattle.std.specs.Prelude.{◌≡◌, ◌⊎◌, ◌≤◌, ℕ, List};
ghost use Rattle.stl_grammar.specs.FormulaRefusals.{IsFormulaFault};
ghost use Rattle.command_line.specs.Saying.{IsSaid};
ghost use Rattle.command_line.specs.Words.{IsBadEnd, status_of_fault};

use crate::line::say;
use crate::texts::formula_line;
use io_edge::Sink;
use stl_grammar::FormulaFault;

/// The status of a refusal of the formula.
fn formula_status(fault: FormulaFault) -> u8
    ensures status { result ≡ status_of_fault fault }
    ensures few { (result ≡ 3) ⊎ (result ≡ 7) }
{
    match fault {
        FormulaFault::Memory => 7,
        _ => 3,
    }
}

/// The status of a text that gives no formula; the reason is said.
pub fn refuse<E: Sink>(err: &mut E, fault: FormulaFault) -> u8
    ensures ended { (text : List ℕ) → (fault ≡ FormulaFault.Memory) ⊎ IsFormulaFault text fault
        → (line : List ℕ) × IsBadEnd text result line × IsSaid (E.written err.old) (E.written err.new) (E.faults err.old) (E.faults err.new) line }
    ensures few { (result ≡ 3) ⊎ (result ≡ 7) }
    ensures later { E.faults err.old ≤ E.faults err.new }
{
    say(err, &formula_line(fault));
    formula_status(fault)
}
