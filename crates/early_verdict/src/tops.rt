//! How far after the start each node is ever asked, when the root is asked there alone.
ghost use Rattle.std.specs.Prelude.{◌≡◌, ◌≢◌, ◌+◌, ◌<◌, ◌≤◌, ℕ, length, replicate, IfOk, IfSome, Some, slice_get};
ghost use Rattle.stl_syntax.specs.Formula.{HasChildrenBelow};
ghost use Rattle.early_verdict.specs.Standing.{AsksBelow, looks_ahead, top_at};
ghost use Rattle.early_verdict.specs.Tops.{AreTops, AreUpTo, Rises, StayFrom, rest_reach};
ghost use Rattle.stl_syntax.specs.declared.node.Node.{Node as ANode};

use frac128::Memory;
use std::alloc::Global;
use stl_syntax::{Formula, Node};

/// How far ahead of a time a node looks at its children, in ticks.
fn look_ahead(node: &Node) -> u32
    ensures { result ≡ looks_ahead node.now }
{
    match node {
        Node::Until { high, .. } | Node::Eventually { high, .. } | Node::Always { high, .. } =>
            *high,
        _ => 0,
    }
}

/// Notes that the node at the place is asked up to there too.
fn raise(tops: &mut [u32], place: u32, to: u32)
    requires { place < length tops.old }
    ensures asked { to ≤ top_at tops.new place }
    ensures rises { Rises tops.old tops.new }
    ensures others { (j : ℕ) → j ≢ place → top_at tops.new j ≡ top_at tops.old j }
    ensures most { (m : ℕ) → AreUpTo m tops.old → to ≤ m → AreUpTo m tops.new }
{
    let place = place as usize;
    if tops[place] < to {
        tops[place] = to;
    }
}

/// Notes that the node at the place, where there is one, is asked up to there too.
fn raise_some(tops: &mut [u32], place: Option<u32>, to: u32)
    requires { IfSome place (λ p. p < length tops.old) }
    ensures asked { IfSome place (λ p. to ≤ top_at tops.new p) }
    ensures rises { Rises tops.old tops.new }
    ensures others { (j : ℕ) → place ≢ Some j → top_at tops.new j ≡ top_at tops.old j }
    ensures most { (m : ℕ) → AreUpTo m tops.old → to ≤ m → AreUpTo m tops.new }
{
    if let Some(p) = place {
        raise(tops, p, to);
    }
}

/// Notes up to where the children of the node at the place are asked.
fn raise_children(tops: &mut [u32], node: &Node, place: u32, to: u32)
    requires within { place < length tops.old }
    requires below { HasChildrenBelow place node.now }
    requires to { to ≡ top_at tops.old place + looks_ahead node.now }
    ensures asks { AsksBelow (top_at tops.new) (top_at tops.old place) node.now }
    ensures rises { Rises tops.old tops.new }
    ensures others { StayFrom place tops.old tops.new }
    ensures most { (m : ℕ) → AreUpTo m tops.old → to ≤ m → AreUpTo m tops.new }
{
    let (left, right) = node.inputs();
    raise_some(tops, left, to);
    raise_some(tops, right, to);
}

/// A list of `count` zeros.
fn zeros(alloc: Global, count: u32) -> Result<Vec<u32>, Memory>
    ensures { IfOk result (λ v. v.items ≡ replicate count 0) }
{
    match vec![in alloc; 0; count as usize] {
        Ok(tops) => Ok(tops),
        Err(_) => Err(Memory),
    }
}

/// The step of a node: where it is asked up to, its children are as far as it looks.
fn raise_at(tops: &mut [u32], formula: &Formula, i: u32)
    requires count { length tops.old ≡ length formula.now.nodes }
    requires within { i < length formula.now.nodes }
    requires reach { rest_reach formula.now.nodes 0 ≤ 4294967295 }
    requires most { AreUpTo (rest_reach formula.now.nodes (i + 1)) tops.old }
    ensures asks { (n : ANode) → slice_get formula.now.nodes i ≡ Some n → AsksBelow (top_at tops.new) (top_at tops.new i) n }
    ensures rises { Rises tops.old tops.new }
    ensures others { StayFrom i tops.old tops.new }
    ensures most { AreUpTo (rest_reach formula.now.nodes i) tops.new }
{
    let node = formula.node(i);
    let own = tops[i as usize];
    raise_children(tops, node, i, own + look_ahead(node));
}

/// For each node the ticks after the start up to which it is asked.
pub(crate) fn tops_of(alloc: Global, formula: &Formula) -> Result<Vec<u32>, Memory>
    ensures { IfOk result (λ v. AreTops formula.now.nodes v.items) }
{
    let count = formula.len();
    let mut tops = zeros(alloc, count)?;
    let mut i = count;
    while i > 0 {
        i -= 1;
        raise_at(&mut tops, formula, i);
    }
    Ok(tops)
}
