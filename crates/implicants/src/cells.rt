//! The cells of the atoms of a formula.
ghost use Rattle.std.specs.Prelude.{◌≡◌, ◌<◌, ◌+◌, ◌++◌, ◌∷◌, [], length, List, OnOk, IfOk, MatchResult};
ghost use Rattle.rational.specs.Time.{closed, gap, ◌≤ʳ◌, ◌<ʳ◌};
ghost use Rattle.rational.specs.Extended.{value_at};
ghost use Rattle.frac128.specs.Value.{value};
ghost use Rattle.frac128.specs.Spans.{interval};
ghost use Rattle.value_laws.specs.declared.truth.Truth.{Truth as Told};
ghost use Rattle.pl_signal.specs.Knots.{stop, IsWorth};
ghost use Rattle.pl_signal.specs.Moves.{Tells};
ghost use Rattle.stl_syntax.specs.Trace.{start as start_of, stop as stop_of};
ghost use Rattle.stl_syntax.specs.Formula.{subformula};
ghost use Rattle.stl_syntax.specs.SupInf.{SupInf, HasValues, truth_setting};
ghost use Rattle.stl_syntax.specs.Cells.{AreCuts, cells};
ghost use Rattle.stl_syntax.specs.Kept.{AllCells, ItemsOn};
ghost use Rattle.stl_syntax.specs.declared.items.Item.{Item as Cell};
ghost use Rattle.implicants.specs.Cuts.{times_of, AreCutsFrom};
ghost use Rattle.implicants.specs.Runs.{AddsNode, AreAllCells, IsPlaceOf, IsUpTo};
ghost use Rattle.implicants.specs.Signals.{AreTruths};
ghost use Rattle.implicants.specs.Explaining.{AreFewCells, IsCellFault};

use crate::ExplainFault;
use crate::cuts::all_cuts;
use frac128::{Frac, Memory, Span};
use offline_eval::Evaluated;
use offline_eval::laws::told_have_values;
use pl_signal::Signal;
use std::alloc::Global;
use stl_syntax::{Formula, Item, Node};
use trace_reader::Trace;
use value_laws::{Shape, Truth};

/// The cells of all atom occurrences of a formula, occurrences in post-order, cells by time.
///
/// `ends` has for each node how many cells the nodes up to it have.
#[derive(Drop)]
pub(crate) struct Cells {
    pub(crate) all: Vec<Item>,
    pub(crate) ends: Vec<usize>,
}

/// The span of one time alone.
fn instant(t: Frac) -> Span
    ensures { interval result ≡ closed (value t) (value t) }
{
    match Span::make(t, true, t, true) {
        Some(on) => on,
        None => unreachable!(),
    }
}

/// The open gap between two times.
fn gap_between(from: Frac, to: Frac) -> Span
    requires { value from <ʳ value to }
    ensures { interval result ≡ gap (value from) (value to) }
{
    match Span::make(from, false, to, false) {
        Some(on) => on,
        None => unreachable!(),
    }
}

/// The place of the last knot not later than `t`, which is not later than the knot behind `place`.
fn place_at(signal: &Signal<Truth>, place: usize, t: &Frac) -> usize
    requires inside { place < length signal.now }
    requires up_to { IsUpTo signal.now place (value t.now) }
    ensures inside { result < length signal.now }
    ensures place { IsPlaceOf signal.now result (value t.now) }
{
    let knots = signal.len();
    if place + 1 < knots && signal.knot(place + 1).time.cmp(t).is_eq() {
        place + 1
    } else {
        place
    }
}

/// The truth at `t`, where the knot at `place` is the last that is not later.
fn truth_at(signal: &Signal<Truth>, place: usize, t: &Frac) -> bool
    requires inside { place < length signal.now }
    requires place { IsPlaceOf signal.now place (value t.now) }
    requires within { value t.now ≤ʳ stop signal.now }
    ensures { (q : Told) × (q.holds ≡ result)
        × IsWorth ⟦<Truth as Shape>⟧ signal.now (value t.now) (value_at (⟦<Truth as Shape>⟧.function q) (value t.now)) }
{
    let knot = signal.knot(place);
    if knot.time.cmp(t).is_eq() {
        return knot.point.holds();
    }
    knot.after.holds()
}

/// Appends a cell of the atom at place `node`, with its truth.
fn push_item(items: &mut Vec<Item>, node: u32, on: Span, holds: bool) -> Result<(), Memory>
    ensures { OnOk result ((e : Cell) × (items.new.items ≡ items.old.items ++ e ∷ [])
        × (e.node ≡ node) × (interval e.on ≡ interval on) × (e.holds ≡ holds)) }
{
    match items.push(Item { node, on, holds }) {
        Ok(()) => Ok(()),
        Err(_) => Err(Memory),
    }
}

/// Adds the cells of a node: each of its cut times, and the open gaps between them, with the truth that its signal tells.
fn add_cells(
    formula: &Formula,
    trace: &Trace,
    node: u32,
    times: &[Frac],
    signal: &Signal<Truth>,
    items: &mut Vec<Item>,
) -> Result<(), Memory>
    requires inside { node < length formula.now.nodes }
    requires some { 0 < length trace.now.rows }
    requires cuts { AreCuts formula.now.nodes trace.now node (times_of times.now) }
    requires many { 0 < length times.now }
    requires values { HasValues (subformula formula.now.nodes node) (truth_setting trace.now) }
    requires told { Tells ⟦<Truth as Shape>⟧ (SupInf (subformula formula.now.nodes node) (truth_setting trace.now))
        (start_of trace.now) (stop_of trace.now) signal.now }
    ensures { OnOk result ((here : List Cell) × (items.new.items ≡ items.old.items ++ here)
        × ItemsOn formula.now.nodes trace.now node (cells (times_of times.now)) here) }
{
    // For the proof alone: that it is a trace, the formula well formed and this one a signal are clauses of these calls.
    let _ = (trace.rows(), formula.len(), signal.len());
    let mut place = 0;
    let first = times[0];
    push_item(items, node, instant(first), signal.knot(0).point.holds())?;
    for k in 1..times.len() {
        let before = times[k - 1];
        let next = times[k];
        let after = signal.knot(place).after.holds();
        push_item(items, node, gap_between(before, next), after)?;
        place = place_at(signal, place, &next);
        let here = truth_at(signal, place, &next);
        push_item(items, node, instant(next), here)?;
    }
    Ok(())
}

/// Adds the cells of the node at place `i`, where it is an atom.
fn add_atom(
    formula: &Formula,
    trace: &Trace,
    nodes: &Evaluated<Truth>,
    i: u32,
    times: &[Frac],
    items: &mut Vec<Item>,
) -> Result<(), Memory>
    requires inside { i < length formula.now.nodes }
    requires some { 0 < length trace.now.rows }
    requires cuts { AreCuts formula.now.nodes trace.now i (times_of times.now) }
    requires told { AreTruths ⟦<Truth as Shape>⟧ formula.now.nodes trace.now nodes.now }
    ensures { OnOk result (AddsNode formula.now.nodes trace.now i items.old.items items.new.items) }
{
    // For the proof alone: that the formula is well formed is a clause of `len`.
    let _ = formula.len();
    told_have_values::<Truth>();
    match formula.node(i) {
        Node::Atom(_) => add_cells(formula, trace, i, times, nodes.signal(i), items),
        _ => Ok(()),
    }
}

/// The cells of all atom occurrences. `cuts` has the cut times of all nodes, those of the last node first.
fn all_cells(
    alloc: Global,
    formula: &Formula,
    trace: &Trace,
    nodes: &Evaluated<Truth>,
    cuts: &[Vec<Frac>],
) -> Result<Cells, Memory>
    requires some { 0 < length trace.now.rows }
    requires told { AreTruths ⟦<Truth as Shape>⟧ formula.now.nodes trace.now nodes.now }
    requires cuts { AreCutsFrom formula.now.nodes trace.now 0 cuts.now }
    ensures { IfOk result (λ cells. AreAllCells formula.now.nodes trace.now cells.all.items cells.ends.items) }
{
    let len = formula.len();
    let mut items = Vec::new(alloc);
    let mut ends = Vec::new(alloc);
    for i in 0..len {
        add_atom(
            formula,
            trace,
            nodes,
            i,
            &cuts[(len - 1 - i) as usize],
            &mut items,
        )?;
        if ends.push(items.len()).is_err() {
            return Err(Memory);
        }
    }
    Ok(Cells { all: items, ends })
}

/// The cells of all atom occurrences, from the signals of truth of all nodes.
///
/// # Errors
/// More than 65,536 cells of all nodes, with the running sum at the first node at which it passes that limit; want of memory.
pub(crate) fn cells_of(
    alloc: Global,
    formula: &Formula,
    trace: &Trace,
    nodes: &Evaluated<Truth>,
) -> Result<Cells, ExplainFault>
    requires some { 0 < length trace.now.rows }
    requires told { AreTruths ⟦<Truth as Shape>⟧ formula.now.nodes trace.now nodes.now }
    ensures { MatchResult result
        (λ cells. AreAllCells formula.now.nodes trace.now cells.all.items cells.ends.items × AreFewCells formula.now.nodes trace.now)
        (IsCellFault formula.now.nodes trace.now) }
{
    let cuts = all_cuts(alloc, formula, trace, nodes)?;
    match all_cells(alloc, formula, trace, nodes, &cuts) {
        Ok(cells) => Ok(cells),
        Err(_) => Err(ExplainFault::Memory),
    }
}
