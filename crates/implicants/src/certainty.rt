//! What some of the cells leave certain: Kleene's three values.
ghost use Rattle.std.specs.Prelude.{◌≡◌, ◌<◌, ◌≤◌, ◌+◌, ◌^◌, length, Some, slice_get, slice_index_or, IsTrue, IfOk, OnOk};
ghost use Rattle.rational.specs.Rational.{IsWithin};
ghost use Rattle.pl_signal.specs.Knots.{stop};
ghost use Rattle.stl_syntax.specs.declared.atom.Atom.{Atom};
ghost use Rattle.stl_syntax.specs.declared.items.Item.{Item as Cell};
ghost use Rattle.stl_syntax.specs.declared.node.Node.TheVariants.{Atom as Leaf};
ghost use Rattle.implicants.specs.Runs.{begins, AreMarksOf};
ghost use Rattle.implicants.specs.Keeping.{remaining, TellsFailure};
ghost use Rattle.implicants.specs.Needs.{AreCertainties};
ghost use Rattle.stl_syntax.specs.declared.items.Item.{Item};
ghost use Rattle.stl_syntax.specs.Trace.{Trace};
ghost use Rattle.std.specs.Prelude.{List};
ghost use Rattle.offline_eval.specs.Evaluation.{AreClosed};
ghost use Rattle.implicants.specs.Certainty.{stays, known_at, is_false, EndsAt, IsAtomCertainty, AreAtomCertainties};
ghost use Rattle.implicants.specs.SameCells.{IsSameUntil, SaysSame};

use crate::cells::Cells;
use crate::trace_ends::{first, last, tick};
use frac128::{Memory, Steps};
use offline_eval::laws::chains_have_values;
use offline_eval::{Atoms, Chains, EvalFault, eval_chains};
use pl_signal::{Builder, Signal};
use std::alloc::Global;
use std::sync::ledger::Ledger;
use stl_syntax::{Formula, Item, Node};
use trace_reader::Trace;
use value_laws::{Kleene, Shape};

/// What a cell says of its atom where it stays; else nothing.
fn shape_of(cell: &Item, stays: bool) -> Kleene
    ensures { result.known ≡ known_at stays cell.now }
{
    if stays {
        return Kleene::of(Some(cell.holds));
    }
    Kleene::of(None)
}

/// What the cell at place `c` says of its atom, if it is among the first `left` cells or is kept; else nothing.
pub(crate) fn shape_at(cells: &Cells, left: usize, kept: &[bool], c: usize) -> Kleene
    requires within { c < length cells.now.all.items }
    requires marks { length kept.now ≡ length cells.now.all.items }
    ensures { (e : Cell) → slice_get cells.now.all.items c ≡ Some e → result.known ≡ known_at (stays left kept.now c) e }
{
    let here = c < left || kept[c];
    shape_of(&cells.all[c], here)
}

/// Ends a signal at `to`; behind the last cell nothing is known.
fn ended(mut signal: Builder<Kleene>, to: u32) -> Result<Signal<Kleene>, Memory>
    requires { IsWithin (2 ^ 34) (stop signal) }
    ensures { IfOk result (EndsAt ⟦<Kleene as Shape>⟧ to signal) }
{
    let at = tick(to);
    if signal.stop().cmp(&at).is_lt() {
        let unknown = Kleene::of(None);
        signal.step(unknown, at, unknown)?;
        return Ok(signal.finish());
    }
    Ok(signal.finish())
}

/// Where the cells of the node at place `i` begin.
pub(crate) fn begin_of(cells: &Cells, i: u32) -> usize
    requires { i < length cells.now.ends.items }
    ensures { result ≡ begins cells.now.ends.items i }
{
    if i == 0 {
        return 0;
    }
    cells.ends[i as usize - 1]
}

/// Whether two values are the same certainty.
fn is_same(a: &Kleene, b: &Kleene) -> bool
    ensures { IsTrue result → a.now.known ≡ b.now.known }
{
    match (a.known(), b.known()) {
        (Some(x), Some(y)) => x == y,
        (None, None) => true,
        _ => false,
    }
}

/// Whether the cells at place `e` and behind it say the same as a value.
fn say_same(cells: &Cells, left: usize, kept: &[bool], e: usize, value: &Kleene) -> bool
    requires within { e + 1 < length cells.now.all.items }
    requires marks { length kept.now ≡ length cells.now.all.items }
    ensures { IsTrue result → SaysSame cells.now.all.items left kept.now value.now e × SaysSame cells.now.all.items left kept.now value.now (e + 1) }
{
    if !is_same(&shape_at(cells, left, kept, e), value) {
        return false;
    }
    is_same(&shape_at(cells, left, kept, e + 1), value)
}

/// The place of the cell of a cut time up to which all cells from place `c` on, which is that of a gap, say the same as a value.
fn same_until(
    cells: &Cells,
    left: usize,
    kept: &[bool],
    c: usize,
    to: usize,
    value: &Kleene,
) -> usize
    requires more { c + 1 < to }
    requires within { to ≤ length cells.now.all.items }
    requires marks { length kept.now ≡ length cells.now.all.items }
    requires first { SaysSame cells.now.all.items left kept.now value.now c }
    ensures { IsSameUntil cells.now.all.items left kept.now value.now c to result }
{
    let mut e = c + 1;
    while to - e > 2 {
        if !say_same(cells, left, kept, e, value) {
            return e;
        }
        e += 2;
    }
    e
}

/// The three-valued signal of the atom at place `i`. Cells that say the same one after the other are one step.
fn atom_of(
    alloc: Global,
    formula: &Formula,
    trace: &Trace,
    cells: &Cells,
    i: u32,
    left: usize,
    kept: &[bool],
) -> Result<Signal<Kleene>, Memory>
    requires given { AreMarksOf formula.now.nodes trace.now cells.now.all.items cells.now.ends.items kept.now }
    requires atom { (a : Atom) × (slice_get formula.now.nodes i ≡ Some (Leaf a)) }
    ensures { IfOk result (IsAtomCertainty ⟦<Kleene as Shape>⟧ formula.now.nodes trace.now
        (remaining left kept.now cells.now.all.items) i) }
{
    // For the proof alone: that it is a trace, and where it starts, are clauses of these calls.
    let _ = (trace.rows(), first(trace));
    let stop = last(trace);
    let from = begin_of(cells, i);
    let to = cells.ends[i as usize];
    let start = shape_at(cells, left, kept, from);
    let mut signal = Builder::start(alloc, cells.all[from].on.from, start)?;
    let mut c = from + 1;
    while to - c > 1 {
        let gap = shape_at(cells, left, kept, c);
        let end = same_until(cells, left, kept, c, to, &gap);
        let point = shape_at(cells, left, kept, end);
        signal.go_along(&gap, &cells.all[end].on.from, &point)?;
        c = end + 1;
    }
    ended(signal, stop)
}

/// Adds the three-valued signal of the node at place `i`, where it is an atom.
fn add_atom(
    alloc: Global,
    formula: &Formula,
    trace: &Trace,
    cells: &Cells,
    i: u32,
    left: usize,
    kept: &[bool],
    atoms: &mut Atoms<Kleene>,
) -> Result<(), Memory>
    requires given { AreMarksOf formula.now.nodes trace.now cells.now.all.items cells.now.ends.items kept.now }
    requires inside { i < length formula.now.nodes }
    requires before { AreAtomCertainties ⟦<Kleene as Shape>⟧ formula.now.nodes trace.now
        (remaining left kept.now cells.now.all.items) i atoms.old }
    ensures { OnOk result (AreAtomCertainties ⟦<Kleene as Shape>⟧ formula.now.nodes trace.now
        (remaining left kept.now cells.now.all.items) (i + 1) atoms.new) }
{
    match formula.node(i) {
        Node::Atom(_) => {
            let signal = atom_of(alloc, formula, trace, cells, i, left, kept)?;
            atoms.add(signal)
        }
        _ => Ok(()),
    }
}

/// The three-valued signals of the atoms.
fn atoms_of(
    alloc: Global,
    formula: &Formula,
    trace: &Trace,
    cells: &Cells,
    left: usize,
    kept: &[bool],
) -> Result<Atoms<Kleene>, Memory>
    requires { AreMarksOf formula.now.nodes trace.now cells.now.all.items cells.now.ends.items kept.now }
    ensures { IfOk result (AreAtomCertainties ⟦<Kleene as Shape>⟧ formula.now.nodes trace.now
        (remaining left kept.now cells.now.all.items) (length formula.now.nodes)) }
{
    let mut atoms = Atoms::new(alloc);
    for i in 0..formula.len() {
        add_atom(alloc, formula, trace, cells, i, left, kept, &mut atoms)?;
    }
    Ok(atoms)
}

/// Whether the value is certainly false.
fn is_known_false(value: &Kleene) -> bool
    ensures { result ≡ is_false value.now.known }
{
    match value.known() {
        Some(holds) => !holds,
        None => false,
    }
}

/// What the first `left` cells and those that are kept leave certain of each node, as chains. It takes one step.
pub(crate) fn certainties<L: Ledger>(
    alloc: Global,
    formula: &Formula,
    trace: &Trace,
    cells: &Cells,
    left: usize,
    kept: &[bool],
    steps: &mut Steps<L>,
) -> Result<Chains<Kleene>, Memory>
    requires { AreMarksOf formula.now.nodes trace.now cells.now.all.items cells.now.ends.items kept.now }
    ensures told { IfOk result (AreCertainties ⟦<Kleene as Shape>⟧ formula.now.nodes trace.now (remaining left kept.now cells.now.all.items)) }
    ensures closed { IfOk result (AreClosed ⟦<Kleene as Shape>⟧) }
    ensures steps { OnOk result (steps.new ≡ steps.old + 1) }
{
    let atoms = atoms_of(alloc, formula, trace, cells, left, kept)?;
    chains_have_values::<Kleene>();
    // For the proof alone: that the formula is well formed is a clause of `len`.
    let _ = formula.len();
    match eval_chains(alloc, formula, first(trace), last(trace), atoms, steps) {
        Ok(nodes) => Ok(nodes),
        Err(EvalFault::Memory) => Err(Memory),
        Err(EvalFault::Wide(_)) => unreachable!(),
    }
}

/// Whether the formula is certainly false at the start, by the chains of all nodes.
pub(crate) fn is_certainly_false(formula: &Formula, nodes: &Chains<Kleene>) -> bool
    requires count { length nodes.now ≡ length formula.now.nodes }
    requires closed { AreClosed ⟦<Kleene as Shape>⟧ nodes.now }
    ensures { (tr : Trace) (items : List Item) → AreCertainties ⟦<Kleene as Shape>⟧ formula.now.nodes tr items nodes.now
        → TellsFailure result formula.now.nodes tr items }
{
    let root = nodes.chain(formula.len() - 1);
    // For the proof alone: that the chain is normal is a clause of `len`.
    let _ = root.len();
    is_known_false(&root.piece(0).shape)
}
