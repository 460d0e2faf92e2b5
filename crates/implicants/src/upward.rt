//! Cells that are tried from their atom up: what is lost without the cell is taken on from node to node, by chains of few pieces that
//! are no less certain than the node.
ghost use Rattle.std.specs.Prelude.{◌≡◌, ◌⊎◌, ◌<◌, ◌≤◌, ◌+◌, ◌++◌, ◌∷◌, [], ℕ, Bool, true, false, List, Some, length, slice_get, IsTrue, IfOk, IfSome, OnOk};
ghost use Rattle.rational.specs.Time.{Rational, ◌≈◌};
ghost use Rattle.pieces.specs.Chains.{Chain};
ghost use Rattle.stl_syntax.specs.Trace.{first_time, last_time};
ghost use Rattle.stl_syntax.specs.declared.atom.Atom.{Atom};
ghost use Rattle.stl_syntax.specs.declared.items.Item.{Item};
ghost use Rattle.stl_syntax.specs.declared.node.Node.{Node as ANode};
ghost use Rattle.stl_syntax.specs.declared.node.Node.TheVariants.{Atom as Leaf};
ghost use Rattle.offline_eval.specs.Forms.{IsClosed, of_pieces};
ghost use Rattle.offline_eval.specs.Making.{MayMeet};
ghost use Rattle.implicants.specs.Runs.{AreMarksOf};
ghost use Rattle.implicants.specs.Keeping.{remaining};
ghost use Rattle.implicants.specs.Needs.{AreToldOfMore, IsNeeded, IsOn, MarksNeeded};
ghost use Rattle.implicants.specs.Signs.{sign_at, AreSigns};
ghost use Rattle.implicants.specs.Upward.{AddsShort, AreLost, AreLostEach, AreLostFrom, AreOperands, AreWhole, HasBest, HasBestIn, IsBestOf};
ghost use Rattle.std.specs.declared.vec.Vec.{Vec};
ghost use Rattle.std.specs.declared.alloc.Global.{Global};
ghost use Rattle.implicants.specs.Upward.{HasChains, HasRuns, IsGround, IsWhole, PutsNeeded, Settles, SettlesRun};

use crate::cells::Cells;
use crate::gone::{cell_at, chain_without, runs_of_cells};
use crate::lost::{Region, region_of, touches_region};
use crate::nearby::{Pick, View, all_of, few, run_in};
use crate::needed::is_on;
use crate::runs::{Run, own_runs, put_run, run_at, runs_of};
use crate::signs::{places_above, signs_of};
use crate::trace_ends::{first, last};
use frac128::{Frac, Memory};
use offline_eval::{Chains, of_node};
use pieces::{Pieces, lower, upper};
use pl_signal::OpFault;
use std::alloc::Global;
use stl_syntax::{Formula, Node};
use trace_reader::Trace;
use value_laws::{Kleene, Shape};

/// What is the same for all cells that are tried: the signs of the nodes, and the place above each.
#[derive(Drop)]
struct Ground {
    signs: Vec<bool>,
    above: Vec<u32>,
}

/// The region with so many ticks on either side.
fn widened(region: Region, look: u32) -> Region {
    if look == 0 {
        return region;
    }
    let from = region.from.whole().saturating_sub(i64::from(look));
    let to = region
        .to
        .whole()
        .saturating_add(i64::from(look))
        .saturating_add(1);
    Region {
        from: Frac::of(from),
        to: Frac::of(to),
    }
}

/// How many runs beside a region are picked, on either side, for a node that looks far.
const MOST_BESIDE: usize = 16;

/// The runs about a region and so many ticks on either side, and the first ones.
fn pick_at(runs: &[Run], region: Region, look: u32) -> Pick {
    let low = run_at(runs, &region.from);
    let high = run_at(runs, &region.to);
    let wide = widened(region, look);
    Pick {
        from: 0,
        dense: 2,
        low: run_at(runs, &wide.from).max(low.saturating_sub(MOST_BESIDE)),
        high: run_at(runs, &wide.to).min(high.saturating_add(MOST_BESIDE)),
        to: runs.len(),
    }
}

/// The sign of the node at place `k`.
fn sign_of(ground: &Ground, k: u32) -> bool
    requires { k < length ground.now.signs.items }
    ensures { result ≡ sign_at ground.now.signs.items k }
{
    ground.signs[k as usize]
}

/// What a chain of the node at place `k` is made for.
fn view_at(trace: &Trace, ground: &Ground, k: u32) -> View
    requires some { 0 < length trace.now.rows }
    requires inside { k < length ground.now.signs.items }
    ensures of { result.of ≡ k }
    ensures best { result.best ≡ sign_at ground.now.signs.items k }
    ensures first { result.first ≡ first_time trace.now.rows }
    ensures last { result.last ≡ last_time 0 trace.now.rows }
{
    View {
        of: k,
        best: sign_of(ground, k),
        first: first(trace),
        last: last(trace),
    }
}

/// A chain that is no less certain than the node at place `k`, by its runs about a region.
fn own_at(
    alloc: Global,
    trace: &Trace,
    ground: &Ground,
    runs: &[Run],
    k: u32,
    region: Region,
    look: u32,
) -> Result<Pieces<Kleene>, Memory>
    requires some { 0 < length trace.now.rows }
    requires inside { k < length ground.now.signs.items }
    ensures whole { IfOk result (IsWhole ⟦<Kleene as Shape>⟧ trace.now) }
    ensures best { IfOk result (λ x. (nodes : List ANode) (all : List Item) (marks : List Bool) (c : ℕ)
        → AreLost nodes trace.now all marks c ground.now.signs.items runs.now
        → HasBest ⟦<Kleene as Shape>⟧ nodes trace.now all marks c ground.now.signs.items k x) }
{
    // For the proof alone: where the trace ends.
    let _ = last(trace);
    let view = view_at(trace, ground, k);
    let pick = pick_at(runs, region, look);
    few(alloc, runs, view, pick)
}

/// The least of two chains.
fn least_of(x: &Pieces<Kleene>, y: &Pieces<Kleene>) -> Result<Pieces<Kleene>, Memory>
    requires { MayMeet (of_pieces ⟦<Kleene as Shape>⟧) x.now y.now }
    ensures { IfOk result (IsBestOf ⟦<Kleene as Shape>⟧ true x.now y.now) }
{
    match lower(x, y) {
        Ok(both) => Ok(both),
        Err(OpFault::Memory) => Err(Memory),
        Err(OpFault::Wide(_)) => unreachable!(),
    }
}

/// The greatest of two chains.
fn greatest_of(x: &Pieces<Kleene>, y: &Pieces<Kleene>) -> Result<Pieces<Kleene>, Memory>
    requires { MayMeet (of_pieces ⟦<Kleene as Shape>⟧) x.now y.now }
    ensures { IfOk result (IsBestOf ⟦<Kleene as Shape>⟧ false x.now y.now) }
{
    match upper(x, y) {
        Ok(both) => Ok(both),
        Err(OpFault::Memory) => Err(Memory),
        Err(OpFault::Wide(_)) => unreachable!(),
    }
}

/// The chain that is the best where both are.
fn best_of(best: bool, x: &Pieces<Kleene>, y: &Pieces<Kleene>) -> Result<Pieces<Kleene>, Memory>
    requires { MayMeet (of_pieces ⟦<Kleene as Shape>⟧) x.now y.now }
    ensures { IfOk result (IsBestOf ⟦<Kleene as Shape>⟧ best x.now y.now) }
{
    if best {
        return least_of(x, y);
    }
    greatest_of(x, y)
}

/// Adds the run where it touches the region.
fn add_touching(run: Run, region: Region, gained: &mut Vec<Run>) -> Result<(), Memory>
    ensures { OnOk result ((gained.new.items ≡ gained.old.items) ⊎ (gained.new.items ≡ gained.old.items ++ run ∷ [])) }
{
    if !touches_region(&run.on, region) {
        return Ok(());
    }
    if gained.push(run).is_err() {
        return Err(Memory);
    }
    Ok(())
}

/// Adds the runs about a region in which a chain of the node at place `k` is less than the best.
fn add_gained(
    alloc: Global,
    k: u32,
    best: bool,
    x: &Pieces<Kleene>,
    region: Region,
    gained: &mut Vec<Run>,
) -> Result<(), Memory>
    ensures { OnOk result (AddsShort ⟦<Kleene as Shape>⟧ k best x.now gained.old.items gained.new.items) }
{
    let pieces = own_runs(alloc, k, best, x)?;
    for j in 0..pieces.len() {
        let run = run_in(&pieces, j);
        add_touching(run, region, gained)?;
    }
    Ok(())
}

/// The runs of the node at place `k`.
fn runs_in(runs: &[Vec<Run>], k: u32) -> &[Run]
    requires { k < length runs.now }
    ensures { (v : Vec Run Global) × (slice_get runs.now k ≡ Some v) × (result.now ≡ v.items) }
{
    &runs[k as usize]
}

/// Puts at place `k` a chain that is no less certain than the node there is without the cell that is tried: the best of `made`, and of a
/// chain by the runs that are known of the node. Adds the runs in which it is less than the best. Gives the region in which `made` is so
/// and no run says it yet; none where `made` says nothing new, and nodes above lose no more by it.
fn put_lost(
    alloc: Global,
    formula: &Formula,
    trace: &Trace,
    ground: &Ground,
    runs: &[Vec<Run>],
    k: u32,
    made: &Pieces<Kleene>,
    done: &mut Vec<Pieces<Kleene>>,
    gained: &mut Vec<Run>,
) -> Result<Option<Region>, Memory>
    requires some { 0 < length trace.now.rows }
    requires inside { k < length formula.now.nodes }
    requires runs { HasRuns formula.now.nodes ground.now.signs.items runs.now }
    requires made { IsWhole ⟦<Kleene as Shape>⟧ trace.now made.now }
    requires chains { HasChains ⟦<Kleene as Shape>⟧ formula.now.nodes trace.now done.old.items }
    ensures chains { HasChains ⟦<Kleene as Shape>⟧ formula.now.nodes trace.now done.new.items }
    ensures best { IfOk result (λ o. IfSome o (λ _. (nodes : List ANode) (all : List Item) (marks : List Bool) (c : ℕ)
        → AreLostEach nodes trace.now all marks c ground.now.signs.items runs.now
        → HasBest ⟦<Kleene as Shape>⟧ nodes trace.now all marks c ground.now.signs.items k made.now
        → HasBestIn ⟦<Kleene as Shape>⟧ nodes trace.now all marks c ground.now.signs.items k done.new.items)) }
    ensures gained { OnOk result ((nodes : List ANode) (all : List Item) (marks : List Bool) (c : ℕ)
        → AreLostEach nodes trace.now all marks c ground.now.signs.items runs.now
        → HasBest ⟦<Kleene as Shape>⟧ nodes trace.now all marks c ground.now.signs.items k made.now
        → AreLost nodes trace.now all marks c ground.now.signs.items gained.old.items
        → AreLost nodes trace.now all marks c ground.now.signs.items gained.new.items) }
{
    // For the proof alone: where the trace ends.
    let _ = last(trace);
    let best = sign_of(ground, k);
    let here = runs_in(runs, k);
    let Some(region) = region_of(alloc, here, k, best, made)? else {
        return Ok(None);
    };
    let look = look_at(formula, above_at(ground, k));
    let own = own_at(alloc, trace, ground, here, k, region, look)?;
    let both = best_of(best, made, &own)?;
    add_gained(alloc, k, best, &both, region, gained)?;
    done[k as usize] = both;
    Ok(Some(region))
}

/// Whether a node is an operand of another, and which one stands beside it.
#[derive(Clone, Copy)]
struct Beside {
    is_operand: bool,
    other: Option<u32>,
}

/// The node at place `k` as one of two operands.
fn of_two(p: u32, q: u32, k: u32) -> Beside
    ensures { IsTrue result.is_operand → ((p ≡ k) ⊎ (q ≡ k)) × ((i : ℕ) → (p ≡ i) ⊎ (q ≡ i) → (i ≡ k) ⊎ (result.other ≡ Some i)) }
{
    if p == k {
        return Beside {
            is_operand: true,
            other: Some(q),
        };
    }
    Beside {
        is_operand: q == k,
        other: Some(p),
    }
}

/// The node at place `k` as the one operand.
fn of_one(p: u32, k: u32) -> Beside
    ensures { IsTrue result.is_operand → p ≡ k }
{
    Beside {
        is_operand: p == k,
        other: None,
    }
}

/// The node at place `k` as an operand of a node.
fn beside_in(node: &Node, k: u32) -> Beside
    ensures { IsTrue result.is_operand → AreOperands node.now k result.other }
{
    match node.inputs() {
        (Some(p), Some(q)) => of_two(p, q, k),
        (Some(p), None) => of_one(p, k),
        (None, _) => Beside {
            is_operand: false,
            other: None,
        },
    }
}

/// Puts a chain of the operand beside, by its runs, where there is one.
fn put_other(
    alloc: Global,
    trace: &Trace,
    ground: &Ground,
    runs: &[Vec<Run>],
    other: Option<u32>,
    region: Region,
    look: u32,
    done: &mut Vec<Pieces<Kleene>>,
) -> Result<(), Memory>
    requires some { 0 < length trace.now.rows }
    requires signs { length ground.now.signs.items ≡ length done.old.items }
    requires runs { length runs.now ≡ length done.old.items }
    requires whole { AreWhole ⟦<Kleene as Shape>⟧ trace.now done.old.items }
    ensures count { length done.new.items ≡ length done.old.items }
    ensures whole { AreWhole ⟦<Kleene as Shape>⟧ trace.now done.new.items }
    ensures stay { (i : ℕ) (x : Chain Kleene) → slice_get done.new.items i ≡ Some x → (slice_get done.old.items i ≡ Some x)
        ⊎ (other ≡ Some i) }
    ensures best { OnOk result ((i : ℕ) → other ≡ Some i → i < length done.old.items → (nodes : List ANode) (all : List Item) (marks : List Bool) (c : ℕ)
        → AreLostEach nodes trace.now all marks c ground.now.signs.items runs.now
        → HasBestIn ⟦<Kleene as Shape>⟧ nodes trace.now all marks c ground.now.signs.items i done.new.items) }
{
    let Some(i) = other else {
        return Ok(());
    };
    if i as usize >= done.len() {
        return Ok(());
    }
    let own = own_at(alloc, trace, ground, runs_in(runs, i), i, region, look)?;
    done[i as usize] = own;
    Ok(())
}

/// Makes the chain of the node at place `j` of those of its operands, one of which stands at place `k`, and gives the region that is lost
/// of it; none where that node is no operand, or where nothing more is lost.
fn taken_on(
    alloc: Global,
    formula: &Formula,
    trace: &Trace,
    ground: &Ground,
    runs: &[Vec<Run>],
    k: u32,
    j: u32,
    region: Region,
    done: &mut Vec<Pieces<Kleene>>,
    gained: &mut Vec<Run>,
) -> Result<Option<Region>, Memory>
    requires some { 0 < length trace.now.rows }
    requires inside { j < length formula.now.nodes }
    requires runs { HasRuns formula.now.nodes ground.now.signs.items runs.now }
    requires chains { HasChains ⟦<Kleene as Shape>⟧ formula.now.nodes trace.now done.old.items }
    ensures chains { HasChains ⟦<Kleene as Shape>⟧ formula.now.nodes trace.now done.new.items }
    ensures best { IfOk result (λ o. IfSome o (λ _. (all : List Item) (marks : List Bool) (c : ℕ)
        → IsGround formula.now.nodes trace.now all marks c ground.now.signs.items runs.now
        → HasBestIn ⟦<Kleene as Shape>⟧ formula.now.nodes trace.now all marks c ground.now.signs.items k done.old.items
        → HasBestIn ⟦<Kleene as Shape>⟧ formula.now.nodes trace.now all marks c ground.now.signs.items j done.new.items)) }
    ensures gained { OnOk result ((all : List Item) (marks : List Bool) (c : ℕ)
        → IsGround formula.now.nodes trace.now all marks c ground.now.signs.items runs.now
        → HasBestIn ⟦<Kleene as Shape>⟧ formula.now.nodes trace.now all marks c ground.now.signs.items k done.old.items
        → AreLost formula.now.nodes trace.now all marks c ground.now.signs.items gained.old.items
        → AreLost formula.now.nodes trace.now all marks c ground.now.signs.items gained.new.items) }
{
    // For the proof alone: that the formula is well formed.
    let _ = formula.len();
    let from = first(trace);
    let to = last(trace);
    let node = formula.node(j);
    let beside = beside_in(node, k);
    if !beside.is_operand {
        return Ok(None);
    }
    let look = look_of(node);
    put_other(alloc, trace, ground, runs, beside.other, region, look, done)?;
    let made = match of_node(alloc, from, to, node, done) {
        Ok(made) => made,
        Err(OpFault::Memory) => return Err(Memory),
        Err(OpFault::Wide(_)) => unreachable!(),
    };
    // For the proof alone: that the chain is normal is a clause of `len`.
    let _ = made.len();
    put_lost(alloc, formula, trace, ground, runs, j, &made, done, gained)
}

/// Whether the chain is more than certainly false at its first time.
fn begins_short(x: &Pieces<Kleene>) -> bool
    requires { IsClosed ⟦<Kleene as Shape>⟧ x.now }
    ensures { IsTrue result → (t : Rational) → t ≈ x.now.from.at → IsOn ⟦<Kleene as Shape>⟧ x.now t }
{
    // For the proof alone: that the chain is normal is a clause of `len`.
    let _ = x.len();
    is_on(&x.piece(0).shape)
}

/// Whether a place is above one, and not above another.
fn is_between(j: u32, above: u32, up_to: u32) -> bool
    ensures { IsTrue result → (above < j) × (j ≤ up_to) }
{
    above < j && j <= up_to
}

/// Whether the root is lost, where so much is lost of the node at place `from`.
fn loses_root(
    alloc: Global,
    formula: &Formula,
    trace: &Trace,
    ground: &Ground,
    runs: &[Vec<Run>],
    from: u32,
    begun: Region,
    done: &mut Vec<Pieces<Kleene>>,
    gained: &mut Vec<Run>,
) -> Result<bool, Memory>
    requires some { 0 < length trace.now.rows }
    requires inside { from < length formula.now.nodes }
    requires runs { HasRuns formula.now.nodes ground.now.signs.items runs.now }
    requires chains { HasChains ⟦<Kleene as Shape>⟧ formula.now.nodes trace.now done.old.items }
    ensures chains { HasChains ⟦<Kleene as Shape>⟧ formula.now.nodes trace.now done.new.items }
    ensures needed { IfOk result (λ b. IsTrue b → (all : List Item) (marks : List Bool) (c : ℕ)
        → IsGround formula.now.nodes trace.now all marks c ground.now.signs.items runs.now
        → HasBestIn ⟦<Kleene as Shape>⟧ formula.now.nodes trace.now all marks c ground.now.signs.items from done.old.items
        → IsNeeded formula.now.nodes trace.now all marks c) }
    ensures gained { OnOk result ((all : List Item) (marks : List Bool) (c : ℕ)
        → IsGround formula.now.nodes trace.now all marks c ground.now.signs.items runs.now
        → HasBestIn ⟦<Kleene as Shape>⟧ formula.now.nodes trace.now all marks c ground.now.signs.items from done.old.items
        → AreLost formula.now.nodes trace.now all marks c ground.now.signs.items gained.old.items
        → AreLost formula.now.nodes trace.now all marks c ground.now.signs.items gained.new.items) }
{
    // For the proof alone: where the trace ends.
    let _ = last(trace);
    let top = formula.len() - 1;
    let mut k = from;
    let mut region = begun;
    while k < top {
        let j = above_at(ground, k);
        if !is_between(j, k, top) {
            return Ok(false);
        }
        let Some(next) = taken_on(
            alloc, formula, trace, ground, runs, k, j, region, done, gained,
        )?
        else {
            return Ok(false);
        };
        region = next;
        k = j;
    }
    Ok(begins_short(&done[k as usize]))
}

/// Whether the node at place `i` is an atom.
fn is_leaf(formula: &Formula, i: u32) -> bool
    ensures { IsTrue result → (a : Atom) × (slice_get formula.now.nodes i ≡ Some (Leaf a)) }
{
    if i >= formula.len() {
        return false;
    }
    match formula.node(i) {
        Node::Atom(_) => true,
        _ => false,
    }
}

/// The place above the one at place `k`, as far as it is known.
fn above_at(ground: &Ground, k: u32) -> u32 {
    if k as usize >= ground.above.len() {
        return 0;
    }
    ground.above[k as usize]
}

/// Puts a chain behind the others.
fn add_chain(done: &mut Vec<Pieces<Kleene>>, chain: Pieces<Kleene>) -> Result<(), Memory>
    ensures { OnOk result (done.new.items ≡ done.old.items ++ chain ∷ []) }
{
    if done.push(chain).is_err() {
        return Err(Memory);
    }
    Ok(())
}

/// A chain for each node, which says nothing of it yet.
fn blank(alloc: Global, formula: &Formula, trace: &Trace) -> Result<Vec<Pieces<Kleene>>, Memory>
    requires { 0 < length trace.now.rows }
    ensures { IfOk result (λ xs. HasChains ⟦<Kleene as Shape>⟧ formula.now.nodes trace.now xs.items) }
{
    let none: Vec<Run> = Vec::new(alloc);
    let from = first(trace);
    let to = last(trace);
    let view = View {
        of: 0,
        best: true,
        first: from,
        last: to,
    };
    let mut done = Vec::new(alloc);
    for k in 0..formula.len() {
        let chain = few(alloc, &none, view, all_of(&none))?;
        add_chain(&mut done, chain)?;
    }
    Ok(done)
}

/// Whether the root is lost without the cell at place `c`.
fn is_needed(
    alloc: Global,
    formula: &Formula,
    trace: &Trace,
    cells: &Cells,
    ground: &Ground,
    runs: &[Vec<Run>],
    marks: &[bool],
    c: usize,
    done: &mut Vec<Pieces<Kleene>>,
    gained: &mut Vec<Run>,
) -> Result<bool, Memory>
    requires given { AreMarksOf formula.now.nodes trace.now cells.now.all.items cells.now.ends.items marks.now }
    requires inside { c < length cells.now.all.items }
    requires signs { AreSigns formula.now.nodes ground.now.signs.items }
    requires runs { length runs.now ≡ length formula.now.nodes }
    requires lost { AreLostEach formula.now.nodes trace.now cells.now.all.items marks.now c ground.now.signs.items runs.now }
    requires gained { AreLost formula.now.nodes trace.now cells.now.all.items marks.now c ground.now.signs.items gained.old.items }
    requires chains { HasChains ⟦<Kleene as Shape>⟧ formula.now.nodes trace.now done.old.items }
    ensures chains { HasChains ⟦<Kleene as Shape>⟧ formula.now.nodes trace.now done.new.items }
    ensures needed { IfOk result (λ b. IsTrue b → IsNeeded formula.now.nodes trace.now cells.now.all.items marks.now c) }
    ensures gained { OnOk result (AreLost formula.now.nodes trace.now cells.now.all.items marks.now c ground.now.signs.items gained.new.items) }
{
    let cell = cell_at(cells, c);
    let i = cell.node;
    if !is_leaf(formula, i) {
        return Ok(false);
    }
    let best = sign_of(ground, i);
    if cell.holds != best {
        return Ok(false);
    }
    let made = chain_without(alloc, trace, cells, marks, i, best, c)?;
    let Some(region) = put_lost(alloc, formula, trace, ground, runs, i, &made, done, gained)? else {
        return Ok(false);
    };
    loses_root(alloc, formula, trace, ground, runs, i, region, done, gained)
}

/// Puts a run to those of its node.
fn settle_run(run: Run, runs: &mut Vec<Vec<Run>>) -> Result<(), Memory>
    ensures count { length runs.new.items ≡ length runs.old.items }
    ensures settles { OnOk result (SettlesRun run runs.old.items runs.new.items) }
{
    let k = run.of as usize;
    if k >= runs.len() {
        return Ok(());
    }
    put_run(run, &mut runs[k])
}

/// Puts runs to those of their nodes.
fn settle(gained: &[Run], runs: &mut Vec<Vec<Run>>) -> Result<(), Memory>
    ensures count { length runs.new.items ≡ length runs.old.items }
    ensures settles { OnOk result (Settles gained.now runs.old.items runs.new.items) }
{
    for j in 0..gained.len() {
        let run = run_in(gained, j);
        settle_run(run, runs)?;
    }
    Ok(())
}

/// Marks the cell at place `c` where the root is lost without it; else puts what is lost.
fn mark_lost(
    alloc: Global,
    formula: &Formula,
    trace: &Trace,
    cells: &Cells,
    ground: &Ground,
    c: usize,
    runs: &mut Vec<Vec<Run>>,
    done: &mut Vec<Pieces<Kleene>>,
    marks: &mut Vec<bool>,
) -> Result<(), Memory>
    requires given { AreMarksOf formula.now.nodes trace.now cells.now.all.items cells.now.ends.items marks.old.items }
    requires inside { c < length cells.now.all.items }
    requires signs { AreSigns formula.now.nodes ground.now.signs.items }
    requires runs { length runs.old.items ≡ length formula.now.nodes }
    requires lost { AreLostFrom formula.now.nodes trace.now cells.now.all.items marks.old.items (c + 1) ground.now.signs.items runs.old.items }
    requires chains { HasChains ⟦<Kleene as Shape>⟧ formula.now.nodes trace.now done.old.items }
    ensures chains { HasChains ⟦<Kleene as Shape>⟧ formula.now.nodes trace.now done.new.items }
    ensures runs { length runs.new.items ≡ length runs.old.items }
    ensures lost { OnOk result
        (AreLostFrom formula.now.nodes trace.now cells.now.all.items marks.new.items c ground.now.signs.items runs.new.items) }
    ensures put { OnOk result (PutsNeeded formula.now.nodes trace.now cells.now.all.items c marks.old.items marks.new.items) }
{
    if marks[c] {
        return Ok(());
    }
    let mut gained = Vec::new(alloc);
    let needed = is_needed(
        alloc,
        formula,
        trace,
        cells,
        ground,
        runs,
        marks,
        c,
        done,
        &mut gained,
    )?;
    if needed {
        marks[c] = true;
        return Ok(());
    }
    settle(&gained, runs)
}

/// How far ahead or behind an until or a since looks, whose operands both count as far away as that; 0 for any other node.
fn look_of(node: &Node) -> u32 {
    match node {
        Node::Until { high, .. } => *high,
        Node::Since { low, high, .. } => high.unwrap_or(*low),
        _ => 0,
    }
}

/// How far ahead or behind an until or a since at place `j` looks; 0 for any other node, and where there is no such place.
fn look_at(formula: &Formula, j: u32) -> u32 {
    if j >= formula.len() {
        return 0;
    }
    look_of(formula.node(j))
}

/// What an explanation knows of the formula alone: the sign of each node and the place above it.
fn ground_of(alloc: Global, formula: &Formula) -> Result<Ground, Memory>
    ensures { IfOk result (λ g. AreSigns formula.now.nodes g.signs.items) }
{
    let signs = signs_of(alloc, formula)?;
    let above = places_above(alloc, formula)?;
    Ok(Ground { signs, above })
}

/// Marks cells at `tries` places before `left` without which the root is lost, from the last to the first, where so much is lost already.
fn mark_from(
    alloc: Global,
    formula: &Formula,
    trace: &Trace,
    cells: &Cells,
    ground: &Ground,
    mut runs: Vec<Vec<Run>>,
    left: usize,
    tries: usize,
    marks: &mut Vec<bool>,
) -> Result<(), Memory>
    requires given { AreMarksOf formula.now.nodes trace.now cells.now.all.items cells.now.ends.items marks.old.items }
    requires left { left ≤ length cells.now.all.items }
    requires signs { AreSigns formula.now.nodes ground.now.signs.items }
    requires runs { length runs.items ≡ length formula.now.nodes }
    requires lost { AreLostFrom formula.now.nodes trace.now cells.now.all.items marks.old.items left ground.now.signs.items runs.items }
    ensures count { OnOk result (length marks.new.items ≡ length marks.old.items) }
    ensures needed { OnOk result
        (MarksNeeded formula.now.nodes trace.now cells.now.all.items left marks.old.items marks.new.items) }
{
    let mut done = blank(alloc, formula, trace)?;
    let to = left.saturating_sub(tries);
    let mut c = left;
    while c > to {
        c -= 1;
        mark_lost(
            alloc, formula, trace, cells, ground, c, &mut runs, &mut done, marks,
        )?;
    }
    Ok(())
}

/// Marks cells at `tries` places before `left` that are needed.
///
/// `nodes` are the chains of what is certain by cells that cover no less than those that stay, where they are at hand.
pub(crate) fn mark_upward(
    alloc: Global,
    formula: &Formula,
    trace: &Trace,
    cells: &Cells,
    nodes: &Option<Chains<Kleene>>,
    left: usize,
    tries: usize,
    marks: &mut Vec<bool>,
) -> Result<(), Memory>
    requires given { AreMarksOf formula.now.nodes trace.now cells.now.all.items cells.now.ends.items marks.old.items }
    requires left { left ≤ length cells.now.all.items }
    requires told { IfSome nodes.now (AreToldOfMore ⟦<Kleene as Shape>⟧ formula.now.nodes trace.now
        (remaining left marks.old.items cells.now.all.items)) }
    ensures count { OnOk result (length marks.new.items ≡ length marks.old.items) }
    ensures needed { OnOk result
        (MarksNeeded formula.now.nodes trace.now cells.now.all.items left marks.old.items marks.new.items) }
{
    let ground = ground_of(alloc, formula)?;
    match nodes {
        Some(nodes) => {
            let runs = runs_of(alloc, formula, nodes, &ground.signs)?;
            mark_from(
                alloc, formula, trace, cells, &ground, runs, left, tries, marks,
            )
        }
        None => {
            let runs = runs_of_cells(alloc, formula, trace, cells, marks, &ground.signs)?;
            mark_from(
                alloc, formula, trace, cells, &ground, runs, left, tries, marks,
            )
        }
    }
}
