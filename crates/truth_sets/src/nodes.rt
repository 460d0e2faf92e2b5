//! The sets of the nodes of a formula, each from those of its children.
ghost use Rattle.std.specs.Prelude.{◌≡◌, ◌≢◌, ◌↔◌, ◌+◌, ◌<◌, ℕ, None, Some, length, slice_get, IfOk, IfSome, IsTrue, MatchBool, OnOk};
ghost use Rattle.rational.specs.Time.{Rational};
ghost use Rattle.stl_syntax.specs.Trace.{Trace};
ghost use Rattle.stl_syntax.specs.Formula.{root};
ghost use Rattle.stl_syntax.specs.Views.{IsNear, IsNearView, IsOfAtom, Sees as SeesBy};
ghost use Rattle.time_sets.specs.Sets.{has, Rise};
ghost use Rattle.time_sets.specs.Windows.{IsDomain, IsOf, Lies, Sees};
ghost use Rattle.time_sets.specs.declared.domain.Domain.{Domain as ADomain};
ghost use Rattle.truth_sets.specs.Nodes.{AreReady, SeesAsked, TellsBy, joins};
ghost use Rattle.truth_sets.specs.Telling.{IsOver, TellsTruth};
ghost use Rattle.truth_sets.specs.declared.atom.NodeSet.{NodeSet as ANodeSet};

use crate::atom::NodeSet;
use frac128::Memory;
use std::alloc::Global;
use stl_syntax::{Asks, Formula, Join, Offsets, View};
use time_sets::{Domain, Times, Window};

/// Takes out the set at a place, so that it is let go of once it was read; with no place no times.
fn take(alloc: Global, sets: &mut Vec<NodeSet>, place: Option<u32>) -> Times
    requires inside { IfSome place (λ p. p < length sets.old.items) }
    ensures none { place ≡ None → (on : ADomain) → IsOf on result }
    ensures some { (p : ℕ) (s : ANodeSet) → place ≡ Some p → slice_get sets.old.items p ≡ Some s → result ≡ s.times }
    ensures others { (k : ℕ) → place ≢ Some k → slice_get sets.new.items k ≡ slice_get sets.old.items k }
    ensures count { length sets.new.items ≡ length sets.old.items }
{
    let none = Times::constant(alloc, false);
    let Some(place) = place else {
        return none;
    };
    std::mem::replace(&mut sets[place as usize].times, none)
}

/// What a connective makes of two sets.
fn joined(alloc: Global, join: Join, p: Times, q: &Times) -> Result<Times, Memory>
    requires first { Rise p.turns.items }
    requires second { Rise q.now.turns.items }
    ensures of { IfOk result (λ r. (on : ADomain) → IsOf on p → IsOf on q.now → IsOf on r) }
    ensures times { IfOk result (λ r. (t : Rational) → has r t ≡ joins join (has p t) (has q.now t)) }
{
    match join {
        Join::And => Times::both(alloc, &p, q),
        Join::Or => Times::either(alloc, &p, q),
        Join::Implies => {
            let fails = p.complement();
            Times::either(alloc, &fails, q)
        }
    }
}

/// The window of these offsets.
fn window_of(w: &Offsets) -> Window
    requires { IsNear w.now }
    ensures { (t u : Rational) → Sees result t u ↔ SeesBy w.now t u }
{
    Window {
        low: w.low,
        low_in: w.low_in,
        high: w.high,
        high_in: w.high_in,
    }
}

/// What a window makes of a set.
fn over(alloc: Global, on: &Domain, asks: Asks, w: &Window, p: Times) -> Result<Times, Memory>
    requires domain { IsDomain on.now }
    requires own { IsOf on.now p }
    ensures of { IfOk result (IsOf on.now) }
    ensures times { IfOk result (λ r. (t : Rational) → Lies on.now t → IsTrue (has r t) ↔ SeesAsked asks on.now w.now p t) }
{
    match asks {
        Asks::Any => p.some(alloc, on, w),
        Asks::Each => p.only(alloc, on, w),
    }
}

/// What a node that is no atom makes of the sets of its operands, by its view.
#[inline(never)]
fn made_by(alloc: Global, on: &Domain, view: View, p: Times, q: Times) -> Result<Times, Memory>
    requires domain { IsDomain on.now }
    requires near { IsNearView view }
    requires first { IsOf on.now p }
    requires second { IsOf on.now q }
    ensures { IfOk result (TellsBy on.now view p q) }
{
    match view {
        View::Const(holds) => Ok(Times::constant(alloc, holds)),
        View::Atom => Ok(p),
        View::Not(_) => Ok(p.complement()),
        View::Two(join, _, _) => joined(alloc, join, p, &q),
        View::Over(asks, w, _) => over(alloc, on, asks, &window_of(&w), p),
        View::Reach(_, w, _, _) => p.reach(alloc, &q, on, &window_of(&w)),
    }
}

/// Whether the view is that of an atom.
fn is_leaf(view: View) -> bool
    ensures { MatchBool result (IsOfAtom view) (IsOfAtom view → ⊥) }
{
    match view {
        View::Atom => true,
        _ => false,
    }
}

/// Makes the set of the node at place `i`, unless it is an atom.
fn make_at(
    alloc: Global,
    on: &Domain,
    formula: &Formula,
    i: u32,
    sets: &mut Vec<NodeSet>,
) -> Result<(), Memory>
    requires domain { IsDomain on.now }
    requires inside { i < length formula.now.nodes }
    requires ready { (tr : Trace) × IsOver on.now tr × AreReady on.now tr formula.now.nodes i sets.old.items }
    ensures { OnOk result ((tr : Trace) → IsOver on.now tr → AreReady on.now tr formula.now.nodes i sets.old.items
        → AreReady on.now tr formula.now.nodes (i + 1) sets.new.items) }
{
    // For the proof alone: the nodes stand in post-order.
    let _ = formula.len();
    let node = formula.node(i);
    let view = node.view();
    if is_leaf(view) {
        return Ok(());
    }
    let (left, right) = node.inputs();
    let p = take(alloc, sets, left);
    let q = take(alloc, sets, right);
    let made = made_by(alloc, on, view, p, q)?;
    sets[i as usize].times = made;
    Ok(())
}

/// The set of the root, from those of the atoms. Each is let go of once the one node that reads it has its own.
///
/// # Errors
///
/// `Memory` where memory is wanting.
pub(crate) fn root_of(
    alloc: Global,
    on: &Domain,
    formula: &Formula,
    sets: Vec<NodeSet>,
) -> Result<Times, Memory>
    requires domain { IsDomain on.now }
    requires ready { (tr : Trace) × IsOver on.now tr × AreReady on.now tr formula.now.nodes 0 sets.items }
    ensures { IfOk result (λ r. (tr : Trace) → IsOver on.now tr → AreReady on.now tr formula.now.nodes 0 sets.items
        → TellsTruth on.now tr (root formula.now.nodes) r) }
{
    let mut sets = sets;
    for i in 0..formula.len() {
        make_at(alloc, on, formula, i, &mut sets)?;
    }
    match sets.pop() {
        Some(root) => Ok(root.times),
        None => unreachable!(),
    }
}
