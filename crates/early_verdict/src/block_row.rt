//! A row of a block, by its place.
ghost use Rattle.std.specs.Prelude.{◌≡◌, ◌<◌, ℕ, suc, length};
ghost use Rattle.atom_lines.specs.Rows.{row_of};

use atom_lines::{Bound, TruthPiece, truth_at_row, truth_from_row};
use trace_reader::Trace;
use value_laws::Truth;

/// A row of a block of rows, which stands right behind the row before it in the block, if there is one.
#[derive(Clone, Copy)]
pub(crate) struct BlockRow<'a> {
    block: &'a Trace,
    at: usize,
    ghost within: { at < length block.now.rows },
    ghost wide: { length (row_of block.now at).values ≡ length block.now.header.columns },
    ghost later: { (k : ℕ) → at ≡ suc k → (row_of block.now k).time < (row_of block.now at).time },
}

impl<'a> BlockRow<'a> {
    /// The row at a place of the block.
    #[inline(always)]
    pub(crate) fn new(block: &'a Trace, at: usize) -> BlockRow<'a>
        requires { at < length block.now.rows }
        ensures block { result.block.now ≡ block.now }
        ensures at { result.at ≡ at }
    {
        // For the proof alone: that it is a trace is a clause of `rows`.
        let _ = block.rows();
        BlockRow { block, at }
    }
}

impl BlockRow<'_> {
    ghost use Rattle.std.specs.Prelude.{◌↔◌, IfSome, IsTrue};
    ghost use Rattle.atom_lines.specs.Binding.{IsAtomNode};
    ghost use Rattle.atom_lines.specs.Points.{IsTruthAt, IsTruthOn};
    ghost use Rattle.early_verdict.specs.BlockRows.{own_row, previous_row};

    /// The time of the row, in ticks.
    #[inline(always)]
    pub(crate) fn time(&self) -> u32
        ensures { result ≡ (own_row self.now).time }
    {
        self.block.time(self.at)
    }

    /// Whether no row stands before it in the block.
    #[inline(always)]
    pub(crate) fn is_first(&self) -> bool
        ensures { IsTrue result ↔ (self.now.at ≡ 0) }
    {
        self.at == 0
    }

    /// The time of the row before it.
    #[inline(always)]
    pub(crate) fn time_before(&self) -> u32
        requires { 0 < self.now.at }
        ensures { IfSome (previous_row self.now) (λ q. result ≡ q.time) }
    {
        self.block.time(self.at - 1)
    }

    /// The truth of the atom at a node there.
    #[inline(always)]
    pub(crate) fn truth(&self, bound: &Bound, node: u32) -> Truth
        requires atom { IsAtomNode bound.now node }
        requires columns { length self.now.block.now.header.columns ≡ bound.now.width }
        ensures { IsTruthAt bound.now node (own_row self.now) result.holds }
    {
        truth_at_row(bound, node, self.block, self.at)
    }

    /// The truth of the atom at place `node` on the open gap between the row before and this one, and at this row.
    #[inline(always)]
    pub(crate) fn truth_since(&self, bound: &Bound, node: u32) -> (TruthPiece, Truth)
        requires after { 0 < self.now.at }
        requires atom { IsAtomNode bound.now node }
        requires columns { length self.now.block.now.header.columns ≡ bound.now.width }
        ensures piece { IfSome (previous_row self.now) (λ q. IsTruthOn bound.now node q (own_row self.now) result.0) }
        ensures point { IsTruthAt bound.now node (own_row self.now) result.1.holds }
    {
        truth_from_row(bound, node, self.block, self.at - 1, self.at)
    }
}
