//! What is kept of a trace's rows as they come: the rows themselves, or what was made of them.
ghost use Rattle.std.specs.Prelude.{◌≡◌, ◌≤◌, [], length, take, IfOk, OnOk};
ghost use Rattle.stl_syntax.specs.Formula.{Formula as Parsed};
ghost use Rattle.trace_reader.specs.Taken.{HasTraceSoFar};
ghost use Rattle.trace_stream.specs.Cases.{IsCase, Takes, with_row};
ghost use Rattle.trace_stream.specs.Kept.{IsKeptOn};
ghost use Rattle.trace_stream.specs.declared.case.Case.{Case as Of};

use crate::case::Case;
use frac128::Memory;
use std::alloc::Global;
use trace_reader::{Row, Rows};

/// What is kept of the rows of a trace as they come. It stands for a case with all rows so far, and need not hold them.
pub trait Keep: Drop {
    /// It stands for a case with the rows so far.
    ghost stands: { Self → Of → Type 0 };

    /// What is kept of a case without rows.
    ///
    /// # Errors
    /// Want of memory.
    fn begin(alloc: Global, case: Case) -> Result<Self, Memory>
        requires case { (f : Parsed) × IsCase f case }
        requires none { case.trace.rows ≡ [] }
        ensures { IfOk result (λ x. stands x case) };

    /// Takes the next row.
    ///
    /// # Errors
    /// Want of memory.
    fn row(&mut self, row: &Row) -> Result<(), Memory>
        requires { (c : Of) × stands self.old c × Takes row.now c.trace }
        ensures { OnOk result ((c : Of) → stands self.old c → Takes row.now c.trace → stands self.new (with_row row.now c)) };

    /// Takes rows that the piece begins with, and answers how many bytes they are: as `Rows::take_rows`.
    ///
    /// # Errors
    /// Want of memory.
    fn take_rows(&mut self, rows: &mut Rows, piece: &[u8]) -> Result<usize, Memory>
        requires { (c : Of) × stands self.old c × HasTraceSoFar rows.old c.trace }
        ensures within { IfOk result (λ n. n ≤ length piece.now) }
        ensures taken { IfOk result (λ n. (c : Of) → stands self.old c → HasTraceSoFar rows.old c.trace
            → IsKeptOn (stands self.new) rows.old rows.new c (take n piece.now)) }
        ensures kept { (rows.new.limits ≡ rows.old.limits) × (rows.new.least ≡ rows.old.least) × (rows.new.heading ≡ rows.old.heading) };
}

impl Keep for Case {
    ghost stands = { λ x c. x ≡ c };

    fn begin(_alloc: Global, case: Case) -> Result<Case, Memory> {
        Ok(case)
    }

    #[inline(always)]
    fn row(&mut self, row: &Row) -> Result<(), Memory> {
        self.trace.push(row)
    }

    #[inline(always)]
    fn take_rows(&mut self, rows: &mut Rows, piece: &[u8]) -> Result<usize, Memory> {
        rows.take_rows(piece, &mut self.trace)
    }
}
