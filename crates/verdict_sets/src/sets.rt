//! Sets of times that stand for a case as its rows come.
ghost use Rattle.std.specs.Prelude.{◌<◌, ℕ, List, false, length, IfOk, OnOk};
ghost use Rattle.stl_syntax.specs.Formula.{Formula as Parsed};
ghost use Rattle.stl_syntax.specs.Trace.{IsTrace};
ghost use Rattle.trace_stream.specs.Cases.{IsCase};
ghost use Rattle.verdict_sets.specs.Keeping.{HasSets, CanTakeIn};
ghost use Rattle.verdict_sets.specs.Telling.{AreLeft, IsCheckAnswer, IsToldTo};
ghost use Rattle.trace_stream.specs.declared.case.Case.{Case as Of};

use crate::lines::{Told, told_by};
use frac128::Memory;
use std::alloc::Global;
use trace_reader::{Row, Rows};
use trace_stream::{Case, Keep};
use truth_sets::TruthSets;

/// The sets of a formula's atoms over the rows so far, with the last of the rows.
#[derive(Drop)]
pub struct VerdictSets {
    alloc: Global,
    case: Case,
    sets: TruthSets,
}

impl VerdictSets {
    /// Begins with the first row that is held, if no row was taken in yet.
    fn begin_first(&mut self, first: bool)
        requires some { 0 < length self.old.case.trace.rows }
        requires rows { (c : Of) × CanTakeIn self.old first c }
        ensures { (c : Of) → CanTakeIn self.old first c → CanTakeIn self.new false c }
    {
        if !first {
            return;
        }
        self.sets.begin(
            self.alloc,
            &self.case.formula,
            &self.case.bound,
            &self.case.trace,
        );
    }

    /// Goes on over the rows that are held, from the first of them, and lets go of all but the last.
    fn grow(&mut self) -> Result<(), Memory>
        requires { (c : Of) × CanTakeIn self.old false c }
        ensures { OnOk result ((c : Of) → CanTakeIn self.old false c → HasSets self.new c) }
    {
        self.sets
            .grow(&self.case.formula, &self.case.bound, &self.case.trace)?;
        self.case.trace.keep_last();
        Ok(())
    }

    /// Takes in the rows that are held, if there are any: the new ones, behind the last one before them unless they are the first.
    fn take_in(&mut self, first: bool) -> Result<(), Memory>
        requires { (c : Of) × CanTakeIn self.old first c }
        ensures { OnOk result ((c : Of) → CanTakeIn self.old first c → HasSets self.new c) }
    {
        if self.case.trace.rows() == 0 {
            return Ok(());
        }
        self.begin_first(first);
        self.grow()
    }
}

impl VerdictSets {
    /// What the sets tell, once all rows of the trace have come: whatever the lines that are left come to, that is the answer of `check`.
    ///
    /// # Errors
    /// Want of memory.
    pub fn finish(self, alloc: Global) -> Result<Told, Memory>
        requires { (c : Of) × HasSets self c × IsTrace c.trace }
        ensures begun { IfOk result IsToldTo }
        ensures told { IfOk result (λ a. (f : Parsed) (c : Of) (text : List ℕ) → IsCase f c → HasSets self c → IsTrace c.trace → AreLeft a text
            → IsCheckAnswer f c.trace a.holds text) }
    {
        let VerdictSets {
            alloc: _alloc,
            case,
            sets,
        } = self;
        let scale = case.formula.scale();
        let last = case.trace.time(case.trace.rows() - 1);
        let judged = sets.finish(alloc, &case.formula, last)?;
        Ok(told_by(scale, judged))
    }
}

impl Keep for VerdictSets {
    ghost stands = { HasSets };

    fn begin(alloc: Global, case: Case) -> Result<VerdictSets, Memory> {
        let sets = TruthSets::new(alloc, &case.formula)?;
        Ok(VerdictSets { alloc, case, sets })
    }

    fn row(&mut self, row: &Row) -> Result<(), Memory> {
        let first = self.case.trace.rows() == 0;
        self.case.trace.push(row)?;
        self.take_in(first)
    }

    fn take_rows(&mut self, rows: &mut Rows, piece: &[u8]) -> Result<usize, Memory> {
        let first = self.case.trace.rows() == 0;
        let bytes = rows.take_rows(piece, &mut self.case.trace)?;
        self.take_in(first)?;
        Ok(bytes)
    }
}
