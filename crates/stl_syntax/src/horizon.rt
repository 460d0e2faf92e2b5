//! How far after a time a trace must reach before the truth there is known.
ghost use Rattle.std.specs.Prelude.{◌≡◌, ◌<◌, ◌^◌, length};
ghost use Rattle.stl_syntax.specs.Formula.{HasChildrenBelow, horizon, root};
ghost use Rattle.stl_syntax.specs.Horizons.{horizon_above};
ghost use Rattle.stl_syntax.specs.WellFormed.{AreWellFormed};

use crate::Node;

/// The most nodes of a formula.
const MOST_NODES: usize = 256;

/// The horizon of the last node.
pub(crate) fn last_horizon(nodes: &[Node]) -> u64
    requires some { 0 < length nodes.now }
    requires nodes { AreWellFormed nodes.now }
    ensures horizon { result ≡ horizon (root nodes.now) }
    ensures small { result < 2 ^ 32 }
{
    let mut table = [0; MOST_NODES];
    for (i, node) in nodes.iter().enumerate() {
        table[i] = horizon_of(&table, node);
    }
    table[nodes.len() - 1]
}

/// The horizon of a node, from those of the nodes before it.
pub fn horizon_of(before: &[u64], node: &Node) -> u64
    requires below { HasChildrenBelow (length before.now) node.now }
    requires small { horizon_above before.now node.now < 2 ^ 32 }
    ensures { result ≡ horizon_above before.now node.now }
{
    match node {
        Node::Const(_) | Node::Atom(_) => 0,
        Node::Not(p) => before[*p as usize],
        Node::And(p, q) | Node::Or(p, q) | Node::Implies(p, q) => before[*p as usize].max(
            before[*q as usize],
        ),
        Node::Until {
            left,
            right,
            high,
            ..
        } => *high as u64 + before[*left as usize].max(before[*right as usize]),
        Node::Eventually { of, high, .. } | Node::Always { of, high, .. } => *high as u64
            + before[*of as usize],
        Node::Since {
            left,
            right,
            low,
            ..
        } => before[*left as usize].max(before[*right as usize].saturating_sub(*low as u64)),
        Node::Once { of, low, .. } | Node::Historically { of, low, .. } =>
            before[*of as usize].saturating_sub(*low as u64),
    }
}
