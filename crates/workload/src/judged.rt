//! The formula that is judged on a generated trace.
ghost use Rattle.std.specs.Prelude.{◌≡◌, IfOk};
ghost use Rattle.workload.specs.Judged.{judged_formula as formula_of_workload};

use frac128::Memory;
use std::alloc::Global;
use stl_grammar::{FormulaFault, parse};
use stl_syntax::Formula;

/// The text of the formula that is judged on a generated trace.
const JUDGED: &str =
    "always[0,8] (x < 0 implies eventually[0,8] s >= 0) and not (s < 0 since[4,12] x >= 500000)";

/// The formula that is judged on a generated trace, as it is read from its text.
///
/// # Errors
/// Want of memory.
pub fn judged_formula(alloc: Global) -> Result<Formula, Memory>
    ensures { IfOk result (λ f. f ≡ formula_of_workload) }
{
    match parse(alloc, JUDGED) {
        Ok(formula) => Ok(formula),
        Err(fault) => match fault {
            FormulaFault::Memory => Err(Memory),
            _ => unreachable!(),
        },
    }
}
