//! The sets of all nodes, before any row.
ghost use Rattle.std.specs.Prelude.{◌≡◌, ◌<◌, ◌+◌, ◌++◌, ◌∷◌, [], IfOk, OnOk, Some, None, MatchOption, length, slice_get, pos};
ghost use Rattle.rational.specs.Rational.{whole};
ghost use Rattle.stl_syntax.specs.Formula.{HasChildrenBelow};
ghost use Rattle.stl_syntax.specs.declared.node.Node.{Node as ANode};
ghost use Rattle.early_verdict.specs.Fitting.{AreEmpty};
ghost use Rattle.early_verdict.specs.Standing.{left_of};
ghost use Rattle.early_verdict.specs.Making.{AreMade, AreShownOf, HasPartsFor, IsMade};
ghost use Rattle.early_verdict.specs.declared.sets.Sets.{Sets as ASets};

use crate::sets::Sets;
use crate::tops::tops_of;
use frac128::Memory;
use growing_sets::Stretch;
use std::alloc::Global;
use stl_syntax::{Formula, Node};

/// The place of the left operand of an until or a since.
fn left_operand(node: &Node) -> Option<u32>
    ensures { result ≡ left_of node.now }
{
    match node {
        Node::Until { left, .. } | Node::Since { left, .. } => Some(*left),
        _ => None,
    }
}

/// The sets of a node that is asked within the bounds.
fn sets_of(alloc: Global, node: &Node, bounds: Stretch, below: &[Sets]) -> Sets
    requires { HasChildrenBelow (length below.now) node.now }
    ensures yes { result.yes.bounds ≡ bounds }
    ensures no { result.no.bounds ≡ bounds }
    ensures empty { AreEmpty result }
    ensures parts { MatchOption (left_of node.now) (result.parts ≡ None)
        (λ p. (l : ASets) → slice_get below.now p ≡ Some l → HasPartsFor bounds l result) }
{
    let Some(place) = left_operand(node) else {
        return Sets::new(alloc, bounds);
    };
    let left = &below[place as usize];
    Sets::with_parts(alloc, bounds, left)
}

/// Puts the sets of one more node behind the others.
fn add_sets(all: &mut Vec<Sets>, sets: Sets) -> Result<(), Memory>
    ensures { OnOk result (all.new.items ≡ all.old.items ++ sets ∷ []) }
{
    all.push(sets)?;
    Ok(())
}

/// The sets of the node at a place, which is asked up to `top` ticks after the start.
fn make_at(alloc: Global, formula: &Formula, i: u32, start: u32, top: u32, below: &[Sets]) -> Sets
    requires within { i < length formula.now.nodes }
    requires place { length below.now ≡ i }
    ensures { (n : ANode) → slice_get formula.now.nodes i ≡ Some n → IsMade (whole (pos start)) top n below.now result }
{
    let first = i64::from(start);
    let bounds = Stretch::over(first, first + i64::from(top));
    sets_of(alloc, formula.node(i), bounds, below)
}

/// The sets of all nodes, before any row, of a trace that starts there.
pub(crate) fn all_sets(alloc: Global, formula: &Formula, start: u32) -> Result<Vec<Sets>, Memory>
    ensures { IfOk result (λ v. AreMade formula.now.nodes (whole (pos start)) v.items) }
{
    let tops = tops_of(alloc, formula)?;
    let mut all = Vec::new(alloc);
    for i in 0..formula.len() {
        let sets = make_at(alloc, formula, i, start, tops[i as usize], &all);
        add_sets(&mut all, sets)?;
    }
    Ok(all)
}

/// Empty sets for each node, with the bounds of those that its step goes on from: what it shows the node above it before any row.
pub(crate) fn shown_of(alloc: Global, live: &[Sets]) -> Result<Vec<Sets>, Memory>
    ensures { IfOk result (λ v. AreShownOf live.now v.items) }
{
    let mut all = Vec::new(alloc);
    for own in live {
        add_sets(&mut all, Sets::new(alloc, own.no.bounds()))?;
    }
    Ok(all)
}
