//! The answer of a command, and the truth of a formula at every time of a trace.
ghost use Rattle.std.specs.Prelude.{◌<◌, length, IfOk};
ghost use Rattle.stl_syntax.specs.SupInf.{truths};
ghost use Rattle.atom_lines.specs.Binding.{IsBound};
ghost use Rattle.whole_answers.specs.Answering.{IsRootOf};

use crate::signals::root_of;
use frac128::Memory;
use offline_eval::EvalFault;
use pl_signal::Signal;
use std::alloc::Global;
use stl_syntax::Text;
use trace_stream::Case;
use value_laws::{Shape, Truth};

/// What a status tells, and the whole text of a command.
#[derive(Drop)]
pub struct Answer {
    pub holds: bool,
    pub text: Text,
}

/// The signal of the truth of the formula at every time of the trace. Truth is never refused as `Wide`.
///
/// # Errors
///
/// `Memory` where memory is wanting.
pub fn truth_of(alloc: Global, case: &Case) -> Result<Signal<Truth>, Memory>
    requires bound { IsBound case.now.bound case.now.formula case.now.trace.header }
    requires some { 0 < length case.now.trace.rows }
    ensures { IfOk result (IsRootOf ⟦<Truth as Shape>⟧ truths case.now) }
{
    match root_of::<Truth>(alloc, case) {
        Ok(signal) => Ok(signal),
        Err(EvalFault::Memory) => Err(Memory),
        Err(EvalFault::Wide(_)) => unreachable!(),
    }
}
