//! Cells that are needed, and of which values and times that is asked.
ghost use Rattle.std.specs.Prelude.{◌≡◌, ◌≤◌, false, length, Some, IsTrue, IfOk, IfSome};
ghost use Rattle.implicants.specs.Runs.{AreMarksOf};
ghost use Rattle.implicants.specs.Keeping.{remaining};
ghost use Rattle.implicants.specs.Needs.{AreToldOfMore, MarksNeeded};

use crate::cells::Cells;
use crate::upward::mark_upward;
use frac128::Memory;
use offline_eval::Chains;
use std::alloc::Global;
use stl_syntax::Formula;
use trace_reader::Trace;
use value_laws::{Kleene, Shape};

/// Whether the value is more than certainly false.
pub(crate) fn is_on(value: &Kleene) -> bool
    ensures { IsTrue result → ¬ (value.now.known ≡ Some false) }
{
    match value.known() {
        Some(holds) => holds,
        None => true,
    }
}

/// A copy of the marks, to be changed for a trial.
fn same_marks(alloc: Global, kept: &[bool]) -> Result<Vec<bool>, Memory>
    ensures { IfOk result (λ marks. marks.items ≡ kept.now) }
{
    match kept.to_vec(alloc) {
        Ok(marks) => Ok(marks),
        Err(_) => Err(Memory),
    }
}

/// The cells that are kept, and before place `left` cells that are needed.
///
/// `nodes` are the chains of what is certain by cells that cover no less than those that stay, where they are at hand.
pub(crate) fn marked_anew(
    alloc: Global,
    formula: &Formula,
    trace: &Trace,
    cells: &Cells,
    nodes: &Option<Chains<Kleene>>,
    left: usize,
    tries: usize,
    kept: &[bool],
) -> Result<Vec<bool>, Memory>
    requires given { AreMarksOf formula.now.nodes trace.now cells.now.all.items cells.now.ends.items kept.now }
    requires left { left ≤ length cells.now.all.items }
    requires told { IfSome nodes.now (AreToldOfMore ⟦<Kleene as Shape>⟧ formula.now.nodes trace.now
        (remaining left kept.now cells.now.all.items)) }
    ensures count { IfOk result (λ marks. length marks.items ≡ length kept.now) }
    ensures needed { IfOk result (λ marks. MarksNeeded formula.now.nodes trace.now cells.now.all.items left kept.now marks.items) }
{
    let mut marks = same_marks(alloc, kept)?;
    mark_upward(alloc, formula, trace, cells, nodes, left, tries, &mut marks)?;
    Ok(marks)
}
