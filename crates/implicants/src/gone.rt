//! Cells that do not leave their atom as certain as is best, as runs.
ghost use Rattle.std.specs.Prelude.{◌≡◌, ◌<◌, ◌≤◌, ◌+◌, ◌*◌, Bool, List, Some, length, slice_get, IsTrue, IfOk, OnOk};
ghost use Rattle.stl_syntax.specs.declared.atom.Atom.{Atom};
ghost use Rattle.stl_syntax.specs.declared.node.Node.{Node as ANode};
ghost use Rattle.stl_syntax.specs.declared.node.Node.TheVariants.{Atom as Leaf};
ghost use Rattle.implicants.specs.Signs.{sign_at};
ghost use Rattle.implicants.specs.Runs.{AreAllCells};
ghost use Rattle.implicants.specs.Upward.{AddsGone, AreGone, AreLost, AreLostEach, HasBest, IsGone, IsWhole};

use crate::cells::Cells;
use crate::certainty::{begin_of, shape_at};
use crate::nearby::{View, all_of, few, says};
use crate::runs::{Run, add, add_list};
use crate::trace_ends::{first, last};
use frac128::Memory;
use pieces::Pieces;
use std::alloc::Global;
use stl_syntax::{Formula, Item, Node};
use trace_reader::Trace;
use value_laws::{Kleene, Shape};

/// The cell at a place.
pub(crate) fn cell_at(cells: &Cells, p: usize) -> Item
    requires { p < length cells.now.all.items }
    ensures { slice_get cells.now.all.items p ≡ Some result }
{
    cells.all[p]
}

/// Places of cells: from one up to another.
#[derive(Clone, Copy)]
pub(crate) struct Places {
    pub(crate) from: usize,
    pub(crate) to: usize,
}

/// Whether the cell at place `j` does not leave its atom as certain as is best, where the cells before place `tried` stay.
fn is_gone(cells: &Cells, marks: &[bool], best: bool, tried: usize, j: usize) -> bool
    requires at { j < length cells.now.all.items }
    requires marks { length marks.now ≡ length cells.now.all.items }
    ensures { IsTrue result → IsGone cells.now.all.items marks.now best tried j }
{
    let known = shape_at(cells, tried, marks, j);
    !says(&known, best)
}

/// Adds the run of the cell at place `j`, where it is of the node at place `i` and gone.
fn add_gone(
    cells: &Cells,
    marks: &[bool],
    i: u32,
    best: bool,
    tried: usize,
    j: usize,
    runs: &mut Vec<Run>,
) -> Result<(), Memory>
    requires at { j < length cells.now.all.items }
    requires marks { length marks.now ≡ length cells.now.all.items }
    ensures { OnOk result (AddsGone cells.now.all.items marks.now i best tried runs.old.items runs.new.items) }
{
    let cell = cell_at(cells, j);
    if cell.node != i {
        return Ok(());
    }
    if !is_gone(cells, marks, best, tried, j) {
        return Ok(());
    }
    add(i, Some(cell.on), runs)
}

/// The cells of the node at place `i` that are gone, of those from one place up to another, as runs.
pub(crate) fn gone_among(
    alloc: Global,
    cells: &Cells,
    marks: &[bool],
    i: u32,
    best: bool,
    tried: usize,
    places: Places,
) -> Result<Vec<Run>, Memory>
    requires inside { places.to ≤ length cells.now.all.items }
    requires marks { length marks.now ≡ length cells.now.all.items }
    ensures { IfOk result (λ r. AreGone cells.now.all.items marks.now i best tried r.items) }
{
    let mut runs = Vec::new(alloc);
    for j in places.from..places.to {
        add_gone(cells, marks, i, best, tried, j, &mut runs)?;
    }
    Ok(runs)
}

/// A chain that is no less certain than the atom at place `i` is without the cell at place `c`, where `best` is the atom's sign.
pub(crate) fn chain_without(
    alloc: Global,
    trace: &Trace,
    cells: &Cells,
    marks: &[bool],
    i: u32,
    best: bool,
    c: usize,
) -> Result<Pieces<Kleene>, Memory>
    requires some { 0 < length trace.now.rows }
    requires inside { c < length cells.now.all.items }
    requires marks { length marks.now ≡ length cells.now.all.items }
    ensures whole { IfOk result (IsWhole ⟦<Kleene as Shape>⟧ trace.now) }
    ensures best { IfOk result (λ x. (nodes : List ANode) (signs : List Bool) (a : Atom)
        → AreAllCells nodes trace.now cells.now.all.items cells.now.ends.items
        → slice_get nodes i ≡ Some (Leaf a) → best ≡ sign_at signs i
        → HasBest ⟦<Kleene as Shape>⟧ nodes trace.now cells.now.all.items marks.now c signs i x) }
{
    let view = View {
        of: i,
        best,
        first: first(trace),
        last: last(trace),
    };
    let gone = gone_among(
        alloc,
        cells,
        marks,
        i,
        best,
        c,
        Places { from: c, to: c + 1 },
    )?;
    few(alloc, &gone, view, all_of(&gone))
}

/// The cells of the node at place `i` that do not make it what its sign says, as runs, where it is an atom.
fn runs_of_atom(
    alloc: Global,
    formula: &Formula,
    trace: &Trace,
    cells: &Cells,
    marks: &[bool],
    signs: &[bool],
    i: u32,
) -> Result<Vec<Run>, Memory>
    requires cells { AreAllCells formula.now.nodes trace.now cells.now.all.items cells.now.ends.items }
    requires marks { length marks.now ≡ length cells.now.all.items }
    requires signs { length signs.now ≡ length formula.now.nodes }
    requires inside { i < length formula.now.nodes }
    ensures { IfOk result (λ r. AreLost formula.now.nodes trace.now cells.now.all.items marks.now (length cells.now.all.items) signs.now r.items) }
{
    match formula.node(i) {
        Node::Atom(_) => {
            let count = cells.all.len();
            let from = begin_of(cells, i);
            let to = cells.ends[i as usize].min(count);
            gone_among(
                alloc,
                cells,
                marks,
                i,
                signs[i as usize],
                count,
                Places { from, to },
            )
        }
        _ => Ok(Vec::new(alloc)),
    }
}

/// For each node the cells that do not make it what its sign says, as runs.
pub(crate) fn runs_of_cells(
    alloc: Global,
    formula: &Formula,
    trace: &Trace,
    cells: &Cells,
    marks: &[bool],
    signs: &[bool],
) -> Result<Vec<Vec<Run>>, Memory>
    requires cells { AreAllCells formula.now.nodes trace.now cells.now.all.items cells.now.ends.items }
    requires marks { length marks.now ≡ length cells.now.all.items }
    requires signs { length signs.now ≡ length formula.now.nodes }
    ensures count { IfOk result (λ r. length r.items ≡ length formula.now.nodes) }
    ensures lost { IfOk result (λ r. AreLostEach formula.now.nodes trace.now cells.now.all.items marks.now
        (length cells.now.all.items) signs.now r.items) }
{
    let mut each: Vec<Vec<Run>> = Vec::new(alloc);
    for i in 0..formula.len() {
        let runs = runs_of_atom(alloc, formula, trace, cells, marks, signs, i)?;
        add_list(&mut each, runs)?;
    }
    Ok(each)
}
