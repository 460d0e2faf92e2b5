//! The times at which each node's time is cut, from the root to the leaves.
ghost use Rattle.std.specs.Prelude.{◌≡◌, ◌≤◌, ◌<◌, ◌+◌, ◌↔◌, ◌++◌, ◌∷◌, [], length, map, All, IsTrue, IfOk, OnOk, MatchResult, Some};
ghost use Rattle.rational.specs.Time.{Rational, Within};
ghost use Rattle.frac128.specs.Value.{value};
ghost use Rattle.stl_syntax.specs.Cells.{AreCuts, AreRisingTimes, IsAmong, IsChild, shifts};
ghost use Rattle.stl_syntax.specs.Views.{IsNear, view_of};
ghost use Rattle.implicants.specs.Cuts.{times_of, cuts_at, Adds, AreNear, AreCutsFrom, IsHandedDown, IsMoved, IsMovedBy, IsNearMove, AreNearMoves, IsNearList};
ghost use Rattle.implicants.specs.Cuts.{moves_of, window_moves};
ghost use Rattle.implicants.specs.Signals.{AreTruths};
ghost use Rattle.implicants.specs.Explaining.{AreFewCells, IsCellFault};

use crate::ExplainFault;
use crate::trace_ends::{first, last, tick};
use frac128::{Frac, Memory};
use offline_eval::Evaluated;
use offline_eval::laws::told_have_values;
use pl_signal::Signal;
use std::alloc::Global;
use stl_syntax::{Formula, Node, Offsets, View};
use trace_reader::Trace;
use value_laws::{Shape, Truth};

/// The most cells of an explanation.
const MOST_CELLS: u64 = 65_536;

/// Whether the place is that of node `i`.
fn is_at(place: Option<u32>, i: u32) -> bool
    ensures { IsTrue result ↔ (place ≡ Some i) }
{
    match place {
        Some(p) => p == i,
        None => false,
    }
}

/// Whether the node has the node at place `i` as a child.
fn is_child(node: &Node, i: u32) -> bool
    ensures { IsTrue result ↔ IsChild node.now i }
{
    let (first, second) = node.inputs();
    is_at(first, i) || is_at(second, i)
}

/// Whether `t` lies from `from` to `to`.
pub(crate) fn is_within(t: &Frac, from: &Frac, to: &Frac) -> bool
    ensures { IsTrue result ↔ Within (value from.now) (value to.now) (value t.now) }
{
    from.cmp(t).is_le() && t.cmp(to).is_le()
}

/// Appends the time, where it lies from `from` to `to`.
fn push_within(times: &mut Vec<Frac>, t: Frac, from: &Frac, to: &Frac) -> Result<(), Memory>
    ensures inside { OnOk result
        (Within (value from.now) (value to.now) (value t) → times.new.items ≡ times.old.items ++ t ∷ []) }
    ensures outside { OnOk result (¬ Within (value from.now) (value to.now) (value t) → times.new.items ≡ times.old.items) }
{
    if !is_within(&t, from, to) {
        return Ok(());
    }
    match times.push(t) {
        Ok(()) => Ok(()),
        Err(_) => Err(Memory),
    }
}

/// Adds the parent's cut times, moved by `by`, as far as they lie in the domain.
fn add_moved(
    times: &mut Vec<Frac>,
    parent: &[Frac],
    by: i64,
    from: &Frac,
    to: &Frac,
) -> Result<(), Memory>
    requires near { IsNearMove by }
    requires limited { AreNear parent.now }
    ensures { OnOk result
        (Adds (IsMoved (value from.now) (value to.now) (times_of parent.now) by) (times_of times.old.items) (times_of times.new.items)) }
{
    for t in parent {
        push_within(times, t.shift(by), from, to)?;
    }
    Ok(())
}

/// The times of the knots of a signal: its ends and its changes.
fn knot_times(alloc: Global, signal: &Signal<Truth>) -> Result<Vec<Frac>, Memory>
    ensures { IfOk result (λ times. times.items ≡ map (λ k. k.time) signal.now) }
{
    let mut times = Vec::new(alloc);
    for k in 0..signal.len() {
        times.push(signal.knot(k).time)?;
    }
    Ok(times)
}

/// Appends how far a time of a node is moved from one of its atom, in ticks.
#[tactic(auto, using(crate::proofs::MovedCuts::near_more))]
fn push_move(moves: &mut Vec<i64>, by: i64) -> Result<(), Memory>
    requires bound { IsNearMove by }
    requires before { AreNearMoves moves.old.items }
    ensures put { OnOk result (moves.new.items ≡ moves.old.items ++ by ∷ []) }
    ensures near { OnOk result (AreNearMoves moves.new.items) }
{
    match moves.push(by) {
        Ok(()) => Ok(()),
        Err(_) => Err(Memory),
    }
}

/// Appends the moves by both ends of a window; one without a beginning moves nothing by it.
fn push_window(moves: &mut Vec<i64>, w: Offsets) -> Result<(), Memory>
    requires near { IsNear w }
    requires before { AreNearMoves moves.old.items }
    ensures put { OnOk result (moves.new.items ≡ moves.old.items ++ window_moves w) }
    ensures near { OnOk result (AreNearMoves moves.new.items) }
{
    push_move(moves, w.high)?;
    match w.low {
        Some(low) => push_move(moves, low),
        None => Ok(()),
    }
}

/// Appends by how much the node's cut times are moved for its children.
fn put_moves(moves: &mut Vec<i64>, node: &Node) -> Result<(), Memory>
    requires { AreNearMoves moves.old.items }
    ensures put { OnOk result (moves.new.items ≡ moves.old.items ++ moves_of (view_of node.now)) }
    ensures near { OnOk result (AreNearMoves moves.new.items) }
{
    match node.view() {
        View::Over(_, w, _) => push_window(moves, w),
        View::Reach(_, w, _, _) => {
            push_move(moves, 0)?;
            push_window(moves, w)
        }
        View::Const(_) | View::Atom | View::Not(_) | View::Two(..) => push_move(moves, 0),
    }
}

/// The times in order, each once.
fn in_order(mut times: Vec<Frac>) -> Result<Vec<Frac>, Memory>
    ensures rising { IfOk result (λ r. AreRisingTimes (times_of r.items)) }
    ensures here { IfOk result (λ r. (t : Rational) → IsAmong (times_of times.items) t → IsAmong (times_of r.items) t) }
    ensures only { IfOk result (λ r. (t : Rational) → IsAmong (times_of r.items) t → IsAmong (times_of times.items) t) }
{
    match times.sort() {
        Ok(()) => {
            times.dedup();
            Ok(times)
        }
        Err(_) => Err(Memory),
    }
}

/// Adds the parent's cut times, moved by each of the moves, as far as they lie in the domain.
fn add_moves(
    times: &mut Vec<Frac>,
    parent: &[Frac],
    moves: &[i64],
    from: &Frac,
    to: &Frac,
) -> Result<(), Memory>
    requires near { AreNearMoves moves.now }
    requires limited { AreNear parent.now }
    ensures { OnOk result
        (Adds (IsMovedBy (value from.now) (value to.now) (times_of parent.now) moves.now) (times_of times.old.items) (times_of times.new.items)) }
{
    for k in 0..moves.len() {
        let by = moves[k];
        add_moved(times, parent, by, from, to)?;
    }
    Ok(())
}

/// Adds what the node hands down to its children: its cut times, moved by each of its moves.
fn add_from(
    alloc: Global,
    node: &Node,
    cuts: &[Frac],
    times: &mut Vec<Frac>,
    from: &Frac,
    to: &Frac,
) -> Result<(), Memory>
    requires limited { AreNear cuts.now }
    ensures { OnOk result
        (Adds (IsMovedBy (value from.now) (value to.now) (times_of cuts.now) (shifts node.now)) (times_of times.old.items) (times_of times.new.items)) }
{
    let mut moves = Vec::new(alloc);
    put_moves(&mut moves, node)?;
    add_moves(times, cuts, &moves, from, to)
}

/// Adds what the nodes behind place `i` hand down to it: the moved cut times of each node that has it as a child.
///
/// `done` has the cut times of the nodes behind place `i`, those of the last node first.
fn add_handed_down(
    alloc: Global,
    formula: &Formula,
    i: u32,
    done: &[Vec<Frac>],
    times: &mut Vec<Frac>,
    from: &Frac,
    to: &Frac,
) -> Result<(), Memory>
    requires count { i + 1 + length done.now ≡ length formula.now.nodes }
    requires limited { All IsNearList done.now }
    ensures { OnOk result
        (Adds (IsHandedDown formula.now.nodes (value from.now) (value to.now) (cuts_at (length formula.now.nodes) done.now) i)
        (times_of times.old.items) (times_of times.new.items)) }
{
    let count = formula.len();
    for j in i + 1..count {
        let node = formula.node(j);
        if is_child(node, i) {
            add_from(
                alloc,
                node,
                &done[(count - 1 - j) as usize],
                times,
                from,
                to,
            )?;
        }
    }
    Ok(())
}

/// The cut times of the node at place `i`, in order, from those of the nodes behind it. The root is cut at the start alone.
fn cuts_of(
    alloc: Global,
    formula: &Formula,
    trace: &Trace,
    nodes: &Evaluated<Truth>,
    i: u32,
    done: &[Vec<Frac>],
) -> Result<Vec<Frac>, Memory>
    requires some { 0 < length trace.now.rows }
    requires told { AreTruths ⟦<Truth as Shape>⟧ formula.now.nodes trace.now nodes.now }
    requires done { AreCutsFrom formula.now.nodes trace.now (i + 1) done.now }
    ensures { IfOk result (λ times. AreCuts formula.now.nodes trace.now i (times_of times.items)) }
{
    // For the proof alone: that it is a trace is a clause of `rows`.
    let _ = trace.rows();
    told_have_values::<Truth>();
    let count = formula.len();
    let (from, to) = (tick(first(trace)), tick(last(trace)));
    if i + 1 == count {
        let mut times = Vec::new(alloc);
        push_within(&mut times, from, &from, &to)?;
        return Ok(times);
    }
    let mut times = knot_times(alloc, nodes.signal(i))?;
    add_handed_down(alloc, formula, i, done, &mut times, &from, &to)?;
    in_order(times)
}

/// The cut times of all nodes, those of the last node first.
///
/// # Errors
/// More than 65,536 cells, with the running sum at the first node at which it passes that limit; want of memory.
pub(crate) fn all_cuts(
    alloc: Global,
    formula: &Formula,
    trace: &Trace,
    nodes: &Evaluated<Truth>,
) -> Result<Vec<Vec<Frac>>, ExplainFault>
    requires some { 0 < length trace.now.rows }
    requires told { AreTruths ⟦<Truth as Shape>⟧ formula.now.nodes trace.now nodes.now }
    ensures { MatchResult result
        (λ cuts. AreCutsFrom formula.now.nodes trace.now 0 cuts.items × AreFewCells formula.now.nodes trace.now)
        (IsCellFault formula.now.nodes trace.now) }
{
    let len = formula.len();
    let mut done: Vec<Vec<Frac>> = Vec::new(alloc);
    let mut count = 0;
    for depth in 0..len {
        let times = match cuts_of(alloc, formula, trace, nodes, len - 1 - depth, &done) {
            Ok(times) => times,
            Err(_) => return Err(ExplainFault::Memory),
        };
        count += 2 * times.len() as u64 - 1;
        if count > MOST_CELLS {
            return Err(ExplainFault::TooManyCells { count });
        }
        if done.push(times).is_err() {
            return Err(ExplainFault::Memory);
        }
    }
    Ok(done)
}
