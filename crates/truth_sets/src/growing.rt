//! Sets of times that grow as rows come.
ghost use Rattle.std.specs.Prelude.{◌≡◌, ◌≢◌, ◌<◌, ◌-◌, ℕ, List, Some, length, slice_get, IfOk, OnOk};
ghost use Rattle.stl_syntax.specs.Trace.{Header, Row, Trace as Recorded, IsTrace, last_time};
ghost use Rattle.stl_syntax.specs.declared.atom.Atom.{Atom};
ghost use Rattle.stl_syntax.specs.declared.node.Node.TheVariants.{Atom as Leaf};
ghost use Rattle.atom_lines.specs.Binding.{Binding, IsBound};
ghost use Rattle.atom_lines.specs.Rows.{row_of};
ghost use Rattle.truth_sets.specs.Growing.{IsTail};
ghost use Rattle.truth_sets.specs.Rows.{HasGrown};
ghost use Rattle.truth_sets.specs.declared.atom.NodeSet.{NodeSet as ANodeSet};
ghost use Rattle.truth_sets.specs.Standing.{AreNone, StandFor, TellsRoot};

use crate::atom::{NodeSet, begin, grow, row_turn};
use crate::nodes::root_of;
use atom_lines::Bound;
use frac128::Memory;
use std::alloc::Global;
use stl_syntax::{Formula, Node};
use time_sets::{Domain, Times};
use trace_reader::Trace;

/// Begins the set of the node at place `i` with the first row of a trace, if it is an atom.
fn begin_at(
    alloc: Global,
    sets: &mut Vec<NodeSet>,
    formula: &Formula,
    bound: &Bound,
    i: u32,
    trace: &Trace,
)
    requires bound { IsBound bound.now formula.now trace.now.header }
    requires some { 0 < length trace.now.rows }
    requires inside { i < length formula.now.nodes }
    requires count { length sets.old.items ≡ length formula.now.nodes }
    ensures count { length sets.new.items ≡ length formula.now.nodes }
    ensures others { (k : ℕ) → k ≢ i → slice_get sets.new.items k ≡ slice_get sets.old.items k }
    ensures own { (a : Atom) (s : ANodeSet) → slice_get formula.now.nodes i ≡ Some (Leaf a) → slice_get sets.new.items i ≡ Some s
        → HasGrown bound.now i trace.now.header trace.now.rows (row_of trace.now 0) s }
{
    match formula.node(i) {
        Node::Atom(_) => begin(alloc, &mut sets[i as usize], bound, i, trace),
        _ => {}
    }
}

/// Lets the set of the node at place `i` grow over the rows of a trace, if it is an atom.
fn grow_at(
    sets: &mut Vec<NodeSet>,
    formula: &Formula,
    bound: &Bound,
    i: u32,
    trace: &Trace,
) -> Result<(), Memory>
    requires bound { IsBound bound.now formula.now trace.now.header }
    requires some { 0 < length trace.now.rows }
    requires inside { i < length formula.now.nodes }
    requires count { length sets.old.items ≡ length formula.now.nodes }
    requires grown { (header : Header) × (rows : List Row) × IsTail trace.now header rows
        × ((a : Atom) (s : ANodeSet) → slice_get formula.now.nodes i ≡ Some (Leaf a) → slice_get sets.old.items i ≡ Some s
        → HasGrown bound.now i header rows (row_of trace.now 0) s) }
    ensures count { OnOk result (length sets.new.items ≡ length formula.now.nodes) }
    ensures others { OnOk result ((k : ℕ) → k ≢ i → slice_get sets.new.items k ≡ slice_get sets.old.items k) }
    ensures own { OnOk result ((header : Header) (rows : List Row) (a : Atom) (old s : ANodeSet) → IsTail trace.now header rows
        → slice_get formula.now.nodes i ≡ Some (Leaf a) → slice_get sets.old.items i ≡ Some old → slice_get sets.new.items i ≡ Some s
        → HasGrown bound.now i header rows (row_of trace.now 0) old
        → HasGrown bound.now i header rows (row_of trace.now (length trace.now.rows - 1)) s) }
{
    match formula.node(i) {
        Node::Atom(_) => grow(&mut sets[i as usize], bound, i, trace),
        _ => Ok(()),
    }
}

/// The times at which a formula is true over a recording, and those that the recording has.
#[derive(Drop)]
pub struct Judged {
    /// The times at which it is true.
    pub times: Times,
    /// The times of the recording.
    pub on: Domain,
}

/// The sets of a formula's atoms over the rows so far. The rows are handed over in blocks, each with the last row before it at its head;
/// none is kept.
#[derive(Drop)]
pub struct TruthSets {
    first: u32,
    sets: Vec<NodeSet>,
}

impl TruthSets {
    /// No row yet.
    ///
    /// # Errors
    ///
    /// `Memory` where memory is wanting.
    pub fn new(alloc: Global, formula: &Formula) -> Result<TruthSets, Memory>
        ensures { IfOk result (λ x. AreNone x formula.now.nodes) }
    {
        let mut sets = Vec::new(alloc);
        for _ in 0..formula.len() {
            let none = NodeSet {
                sum: 0,
                times: Times::constant(alloc, false),
            };
            if sets.push(none).is_err() {
                return Err(Memory);
            }
        }
        Ok(TruthSets { first: 0, sets })
    }

    /// Begins with the first row of a trace, which is bound to the formula.
    pub fn begin(&mut self, alloc: Global, formula: &Formula, bound: &Bound, trace: &Trace)
        requires bound { IsBound bound.now formula.now trace.now.header }
        requires some { 0 < length trace.now.rows }
        requires none { AreNone self.old formula.now.nodes }
        ensures { StandFor self.new bound.now formula.now.nodes trace.now.header trace.now.rows (row_of trace.now 0) }
    {
        self.first = trace.time(0);
        for i in 0..formula.len() {
            begin_at(alloc, &mut self.sets, formula, bound, i, trace);
        }
    }

    /// Goes on over the rows of a block, whose first row is the last of those so far.
    ///
    /// # Errors
    ///
    /// `Memory` where memory is wanting. The sets are of no use then.
    pub fn grow(&mut self, formula: &Formula, bound: &Bound, trace: &Trace) -> Result<(), Memory>
        requires bound { IsBound bound.now formula.now trace.now.header }
        requires some { 0 < length trace.now.rows }
        requires stands { (header : Header) × (rows : List Row) × IsTail trace.now header rows
            × StandFor self.old bound.now formula.now.nodes header rows (row_of trace.now 0) }
        ensures { OnOk result ((header : Header) (rows : List Row) → IsTail trace.now header rows
            → StandFor self.old bound.now formula.now.nodes header rows (row_of trace.now 0)
            → StandFor self.new bound.now formula.now.nodes header rows (row_of trace.now (length trace.now.rows - 1))) }
    {
        for i in 0..formula.len() {
            grow_at(&mut self.sets, formula, bound, i, trace)?;
        }
        Ok(())
    }

    /// The set of the formula, once all rows of a trace have come, the last of them at `last`.
    ///
    /// # Errors
    ///
    /// `Memory` where memory is wanting.
    pub fn finish(self, alloc: Global, formula: &Formula, last: u32) -> Result<Judged, Memory>
        requires stands { (b : Binding) × (tr : Recorded) × (r : Row) × IsBound b formula.now tr.header × IsTrace tr
            × (r.time ≡ last) × (last_time 0 tr.rows ≡ last) × StandFor self b formula.now.nodes tr.header tr.rows r }
        ensures { IfOk result (λ j. (b : Binding) (tr : Recorded) (r : Row) → IsBound b formula.now tr.header → IsTrace tr
            → r.time ≡ last → last_time 0 tr.rows ≡ last → StandFor self b formula.now.nodes tr.header tr.rows r → TellsRoot formula.now.nodes tr j) }
    {
        // For the proof alone: the nodes stand in post-order.
        let _ = formula.len();
        let on = Domain {
            from: row_turn(self.first, false),
            to: row_turn(last, true),
        };
        let TruthSets {
            first: _first,
            sets,
        } = self;
        let times = root_of(alloc, &on, formula, sets)?;
        Ok(Judged { times, on })
    }
}
