//! How far an early verdict has come, row by row.
ghost use Rattle.std.specs.Prelude.{◌≡◌, ◌≤◌, ◌++◌, ◌∷◌, [], List, length, drop, false, IfOk, OnOk, None, Some, option_map};
ghost use Rattle.stl_syntax.specs.Trace.{Header, Row as ARow, Trace as ATrace};
ghost use Rattle.early_verdict.specs.Living.{NetIs};
ghost use Rattle.early_verdict.specs.Answers.{StaysDecided, newly_decided};

use crate::block_row::BlockRow;
use crate::early::Decided;
use crate::entries::{root_verdict, take_row};
use crate::letting::let_go;
use crate::sets::Net;
use atom_lines::Bound;
use frac128::Memory;
use std::alloc::Global;
use stl_syntax::Formula;
use trace_reader::Trace;

/// What the rows so far have come to.
#[derive(Drop)]
pub(crate) struct Progress {
    /// The sets of each node; none before the first row, and none once a row has decided.
    pub(crate) net: Net,
    /// The time of the first row.
    pub(crate) begin: u32,
    /// The verdict of the row that decided, if one did.
    pub(crate) decided: Option<Decided>,
}

/// The verdict with the time of the row that decided it.
fn decided_at(at: u32, verdict: Option<bool>) -> Option<Decided>
    ensures { result ≡ option_map (λ holds. record { at = at; holds = holds }) verdict }
{
    match verdict {
        Some(holds) => Some(Decided { at, holds }),
        None => None,
    }
}

/// How many rows come between two times that the sets let go: letting go looks at every node, and so costs a small part of what the rows
/// themselves cost.
const ROWS_BETWEEN: u32 = 31;

/// Lets go, now and then, of what no later answer needs; of all sets, once a row has decided.
fn let_go_by(net: &mut Net, formula: &Formula, decided: &Option<Decided>)
    requires { decided.now ≡ None → (tr : ATrace) × NetIs formula.now.nodes tr net.old.live.items net.old.shown.items }
    ensures { decided.now ≡ None → (tr : ATrace) → NetIs formula.now.nodes tr net.old.live.items net.old.shown.items
        → NetIs formula.now.nodes tr net.new.live.items net.new.shown.items }
{
    if decided.is_some() {
        net.live.clear();
        net.shown.clear();
        return;
    }
    if net.rows < ROWS_BETWEEN {
        net.rows += 1;
        return;
    }
    net.rows = 0;
    let_go(net, formula);
}

/// What was decided, where nothing was before.
#[inline(always)]
fn newly(before: Option<Decided>, now: Option<Decided>) -> Option<Decided>
    ensures { result ≡ newly_decided before now }
{
    match before {
        None => now,
        Some(_) => None,
    }
}

impl Progress {
    ghost use Rattle.early_verdict.specs.BlockRows.{own_row, previous_row, row_before};
    ghost use Rattle.early_verdict.specs.Deciding.{Stands, kept_of};

    /// Takes the next row: the sets of all nodes grow by it, and where they decide the formula, the verdict is kept with the row's time.
    fn take(
        &mut self,
        alloc: Global,
        formula: &Formula,
        bound: &Bound,
        next: &BlockRow,
    ) -> Result<(), Memory>
        requires stands { (header : Header) × (rows : List ARow) × Stands (kept_of formula.now bound.now header (previous_row next.now) self.old) rows false }
        requires columns { length next.now.block.now.header.columns ≡ bound.now.width }
        ensures stands { OnOk result ((header : Header) (rows : List ARow)
            → Stands (kept_of formula.now bound.now header (previous_row next.now) self.old) rows false
            → Stands (kept_of formula.now bound.now header (Some (own_row next.now)) self.new) (rows ++ own_row next.now ∷ []) false) }
        ensures decided { OnOk result (StaysDecided self.old.decided self.new.decided) }
    {
        if self.decided.is_some() {
            return Ok(());
        }
        let begin = take_row(alloc, &mut self.net, formula, bound, self.begin, next)?;
        let decided = decided_at(next.time(), root_verdict(&self.net.shown, begin));
        let_go_by(&mut self.net, formula, &decided);
        self.begin = begin;
        self.decided = decided;
        Ok(())
    }

    /// Takes the rows of the block from a place on; the row before that place was taken last. Some exactly where one of them is the first
    /// that decides.
    pub(crate) fn take_rows(
        &mut self,
        alloc: Global,
        formula: &Formula,
        bound: &Bound,
        block: &Trace,
        from: usize,
    ) -> Result<Option<Decided>, Memory>
        requires stands { (header : Header) × (rows : List ARow)
            × Stands (kept_of formula.now bound.now header (row_before block.now from) self.old) rows false }
        requires columns { length block.now.header.columns ≡ bound.now.width }
        requires within { from ≤ length block.now.rows }
        ensures stands { OnOk result ((header : Header) (rows : List ARow)
            → Stands (kept_of formula.now bound.now header (row_before block.now from) self.old) rows false
            → Stands (kept_of formula.now bound.now header (row_before block.now (length block.now.rows)) self.new) (rows ++ drop from block.now.rows) false) }
        ensures decided { IfOk result (λ d. StaysDecided self.old.decided self.new.decided × (d ≡ newly_decided self.old.decided self.new.decided)) }
    {
        let before = self.decided;
        for at in from..block.rows() {
            self.take(alloc, formula, bound, &BlockRow::new(block, at))?;
        }
        Ok(newly(before, self.decided))
    }
}
