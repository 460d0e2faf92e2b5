//! One entry over the sets of all nodes, in post-order.
ghost use Rattle.std.specs.Prelude.{◌≡◌, ◌≤◌, ◌<◌, ℕ, OnOk, Some, IsFalse, IsTrue, true, length, slice_get, take};
ghost use Rattle.stl_syntax.specs.Formula.{HasChildrenBelow};
ghost use Rattle.stl_syntax.specs.declared.atom.Atom.{Atom};
ghost use Rattle.stl_syntax.specs.declared.node.Node.{Node as ANode};
ghost use Rattle.stl_syntax.specs.declared.node.Node.TheVariants.{Atom as Leaf};
ghost use Rattle.atom_lines.specs.Binding.{IsAtomNode};
ghost use Rattle.early_verdict.specs.Fitting.{AreEmpty, AreSetsTidy, HasStepped};
ghost use Rattle.early_verdict.specs.Happening.{IsEntry};
ghost use Rattle.early_verdict.specs.Changing.{ChangesAt};
ghost use Rattle.early_verdict.specs.declared.sets.Sets.{Sets as ASets};
ghost use Rattle.early_verdict.specs.Standing.{AllEmpty, AllTidy, GoesBy, IsOperator, LeafFits, LeafIsBound, StepsAt, own_list};
ghost use Rattle.early_verdict.specs.Living.{ComesAt, ComesOn, HasShown, LeafSteps, ShowsAt};
ghost use Rattle.early_verdict.specs.BlockRows.{own_row, previous_row};

use crate::atoms::{rest, step_atom};
use crate::block_row::BlockRow;
use crate::entry::Entry;
use crate::operators::step_operator;
use crate::sets::Sets;
use atom_lines::Bound;
use frac128::Memory;
use growing_sets::take_in;
use stl_syntax::{Formula, Node};

/// One entry over an atom: the times up to the row; at the end of the input none come more.
fn step_leaf(
    own: &mut Sets,
    bound: &Bound,
    node: u32,
    next: &BlockRow,
    entry: &Entry,
) -> Result<(), Memory>
    requires own { AreSetsTidy own.old }
    requires atom { IsAtomNode bound.now node }
    requires columns { length next.now.block.now.header.columns ≡ bound.now.width }
    ensures stepped { OnOk result (HasStepped own.old own.new) }
    ensures shown { OnOk result (HasShown own.old own.new own.new) }
    ensures fits { OnOk result (LeafFits bound.now node entry.now (previous_row next.now) (own_row next.now) own.old own.new) }
{
    if entry.ended {
        rest(own);
        return Ok(());
    }
    step_atom(own, bound, node, next)
}

/// Steps the atom at a place, which goes on from what it shows.
fn leaf_at(
    shown: &mut [Sets],
    i: u32,
    bound: &Bound,
    next: &BlockRow,
    entry: &Entry,
) -> Result<(), Memory>
    requires within { i < length shown.old }
    requires tidy { AllTidy shown.old }
    requires atom { IsAtomNode bound.now i }
    requires columns { length next.now.block.now.header.columns ≡ bound.now.width }
    ensures { OnOk result ((at : ChangesAt i shown.old shown.new LeafSteps)
        × LeafFits bound.now i entry.now (previous_row next.now) (own_row next.now) at.was at.is) }
{
    let (_, from) = shown.split_at_mut(i as usize);
    step_leaf(&mut from[0], bound, i, next, entry)?;
    Ok(())
}

/// Steps the sets of the operator at a place, by what those below show.
fn step_at(
    live: &mut [Sets],
    shown: &[Sets],
    i: usize,
    node: &Node,
    entry: &Entry,
) -> Result<(), Memory>
    requires within { i < length live.old }
    requires shown_within { i < length shown.now }
    requires tidy { (s : ASets) → slice_get live.old i ≡ Some s → AreSetsTidy s }
    requires shown_tidy { AllTidy shown.now }
    requires children { HasChildrenBelow i node.now }
    requires operator { IsOperator node.now }
    requires entry { IsEntry entry.now }
    requires none { entry.now.first ≡ true → (s : ASets) → slice_get live.old i ≡ Some s → AreEmpty s }
    ensures { OnOk result ((at : StepsAt i live.old live.new) × GoesBy node.now entry.now (take i shown.now) at.was at.is) }
{
    let (_, from) = live.split_at_mut(i);
    step_operator(&mut from[0], node, &shown[..i], entry)?;
    Ok(())
}

/// Shows what the sets at a place gained.
fn show_at(shown: &mut [Sets], live: &[Sets], i: usize) -> Result<(), Memory>
    requires within { i < length shown.old }
    requires live_within { i < length live.now }
    requires tidy { AllTidy shown.old }
    ensures { OnOk result (ShowsAt i live.now shown.old shown.new) }
{
    let (_, from) = shown.split_at_mut(i);
    show(&mut from[0], &live[i])?;
    Ok(())
}

/// Shows what the sets of a node gained.
fn show(shown: &mut Sets, own: &Sets) -> Result<(), Memory>
    requires { AreSetsTidy shown.old }
    ensures { OnOk result (HasShown shown.old shown.new own.now) }
{
    take_in(&mut shown.yes, &own.yes)?;
    take_in(&mut shown.no, &own.no)?;
    Ok(())
}

/// Whether a node is an atom.
pub(crate) fn is_atom(node: &Node) -> bool
    ensures no { IsFalse result → IsOperator node.now }
    ensures yes { IsTrue result → (a : Atom) × (node.now ≡ Leaf a) }
{
    match node {
        Node::Atom(_) => true,
        _ => false,
    }
}

/// One entry over the node at a place: an atom goes on from what it shows, and an operator shows what its own sets gained.
fn entry_at(
    live: &mut [Sets],
    shown: &mut [Sets],
    formula: &Formula,
    i: u32,
    bound: &Bound,
    next: &BlockRow,
    entry: &Entry,
) -> Result<(), Memory>
    requires within { i < length formula.now.nodes }
    requires count { length formula.now.nodes ≤ length live.old }
    requires shown_count { length shown.old ≡ length formula.now.nodes }
    requires tidy { AllTidy (own_list formula.now.nodes live.old shown.old) }
    requires shown_tidy { AllTidy shown.old }
    requires entry { IsEntry entry.now }
    requires none { entry.now.first ≡ true → (s : ASets) → slice_get (own_list formula.now.nodes live.old shown.old) i ≡ Some s → AreEmpty s }
    requires atoms { (n : ANode) → slice_get formula.now.nodes i ≡ Some n → LeafIsBound bound.now i n }
    requires columns { length next.now.block.now.header.columns ≡ bound.now.width }
    ensures count { OnOk result (length live.new ≡ length live.old) }
    ensures comes { OnOk result (ComesAt formula.now.nodes bound.now entry.now (previous_row next.now) (own_row next.now) i
        (own_list formula.now.nodes live.old shown.old) (own_list formula.now.nodes live.new shown.new) shown.old shown.new) }
{
    let node = formula.node(i);
    if is_atom(node) {
        leaf_at(shown, i, bound, next, entry)?;
        return Ok(());
    }
    step_at(live, shown, i as usize, node, entry)?;
    show_at(shown, live, i as usize)?;
    Ok(())
}

/// One entry over all sets: a row, or, once it has ended, the end of the input, whose last row is given again.
pub(crate) fn step_all(
    live: &mut [Sets],
    shown: &mut [Sets],
    formula: &Formula,
    bound: &Bound,
    next: &BlockRow,
    entry: &Entry,
) -> Result<(), Memory>
    requires count { length formula.now.nodes ≤ length live.old }
    requires shown_count { length shown.old ≡ length formula.now.nodes }
    requires tidy { AllTidy (own_list formula.now.nodes live.old shown.old) }
    requires shown_tidy { AllTidy shown.old }
    requires entry { IsEntry entry.now }
    requires none { entry.now.first ≡ true → AllEmpty (own_list formula.now.nodes live.old shown.old) }
    requires atoms { (i : ℕ) (n : ANode) → slice_get formula.now.nodes i ≡ Some n → LeafIsBound bound.now i n }
    requires columns { length next.now.block.now.header.columns ≡ bound.now.width }
    ensures count { OnOk result (length live.new ≡ length live.old) }
    ensures comes { OnOk result (ComesOn formula.now.nodes bound.now entry.now (previous_row next.now) (own_row next.now)
        (own_list formula.now.nodes live.old shown.old) (own_list formula.now.nodes live.new shown.new) shown.old shown.new) }
{
    let count = formula.len();
    for i in 0..count {
        entry_at(live, shown, formula, i, bound, next, entry)?;
    }
    Ok(())
}
