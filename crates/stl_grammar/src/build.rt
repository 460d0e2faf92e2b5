//! Nodes of a formula from those that were drafted, in ticks; the refusals that are tried once the whole text was read.
ghost use Rattle.std.specs.Prelude.{◌≡◌, ◌⊎◌, ◌≤◌, ◌<◌, length, All, false, MatchOption, IfOk, IfErr};
ghost use Rattle.stl_syntax.specs.Formula.{IsFirst};
ghost use Rattle.stl_syntax.specs.Limits.{own_reach as reach_of, reach as total, HasLargeConstant, IsTooLarge};
ghost use Rattle.stl_syntax.specs.WellFormed.{IsScale};
ghost use Rattle.stl_syntax.specs.declared.node.Node.{Node};
ghost use Rattle.stl_grammar.specs.Building.{is_large as has_large, IsBuildable, AreNodes, IsBuilt};
ghost use Rattle.stl_grammar.specs.Drafts.{node_in, nodes_in};

use crate::draft::Draft;
use crate::fault::FormulaFault;
use crate::ticks::{node, operator_reach};
use frac128::Memory;
use std::alloc::Global;
use stl_syntax::{Formula, FormulaBuilder, Node, Scale};

/// The longest reach of a formula, in ticks.
const LONGEST_REACH: u64 = 4_294_967_295;

/// Whether the node's constant passes its limit.
fn is_large(draft: &Draft, scale: Scale) -> bool
    requires { IsScale scale }
    ensures { result ≡ has_large (node_in scale draft.now) }
{
    match draft {
        Draft::Sum(sum) => sum.is_large(scale.value),
        _ => false,
    }
}

/// What the node adds to the reach.
fn own_reach(draft: &Draft, scale: Scale) -> u64
    requires { IsScale scale }
    ensures value { result ≡ reach_of (node_in scale draft.now) }
    ensures small { result ≤ 4294967295000000 }
{
    match draft {
        Draft::Node { operator, .. } => operator_reach(*operator, scale.time),
        _ => 0,
    }
}

/// The node in ticks.
fn node_of(draft: Draft, scale: Scale) -> Node
    requires scale { IsScale scale }
    requires node { IsBuildable (node_in scale draft) }
    ensures { result ≡ node_in scale draft }
{
    match draft {
        Draft::Const(value) => Node::Const(value),
        Draft::Sum(sum) => Node::Atom(sum.into_atom(scale.value)),
        Draft::Node {
            operator,
            left,
            right,
        } => node(operator, left, right, scale.time),
    }
}

/// The place of the first constant that passes its limit.
fn first_large_constant(drafts: &[Draft], scale: Scale) -> Option<usize>
    requires { IsScale scale }
    ensures { MatchOption result (All (λ n. has_large n ≡ false) (nodes_in scale drafts.now))
        (λ i. (i < length drafts.now) × IsFirst HasLargeConstant (nodes_in scale drafts.now) i) }
{
    for (i, draft) in drafts.iter().enumerate() {
        if is_large(draft, scale) {
            return Some(i);
        }
    }
    None
}

/// The reach of the nodes.
fn total_reach(drafts: &[Draft], scale: Scale) -> u64
    requires scale { IsScale scale }
    requires few { length drafts.now ≤ 256 }
    ensures { result ≡ total (nodes_in scale drafts.now) }
{
    let mut sum = 0;
    for draft in drafts {
        sum += own_reach(draft, scale);
    }
    sum
}

/// The formula of the nodes.
fn assemble(alloc: Global, mut drafts: Vec<Draft>, scale: Scale) -> Result<Formula, Memory>
    requires scale { IsScale scale }
    requires nodes { AreNodes (nodes_in scale drafts.items) }
    requires constants { All (λ n. has_large n ≡ false) (nodes_in scale drafts.items) }
    requires reach { total (nodes_in scale drafts.items) ≤ 4294967295 }
    ensures nodes { IfOk result (λ f. f.nodes ≡ nodes_in scale drafts.items) }
    ensures scale { IfOk result (λ f. f.scale ≡ scale) }
{
    drafts.reverse();
    let mut builder = FormulaBuilder::new(alloc);
    while let Some(draft) = drafts.pop() {
        match builder.add(node_of(draft, scale)) {
            Ok(_) => {}
            Err(Memory) => return Err(Memory),
        }
    }
    Ok(builder.finish(scale))
}

/// The formula of the nodes, unless a constant or the reach passes its limit.
pub(crate) fn build(
    alloc: Global,
    drafts: Vec<Draft>,
    scale: Scale,
) -> Result<Formula, FormulaFault>
    requires scale { IsScale scale }
    requires nodes { AreNodes (nodes_in scale drafts.items) }
    ensures ok { IfOk result (λ f. IsBuilt scale (nodes_in scale drafts.items) f) }
    ensures fault { IfErr result (λ r. (r ≡ FormulaFault.Memory)
        ⊎ IsTooLarge FormulaFault.ConstantTooLarge FormulaFault.ReachTooLarge (nodes_in scale drafts.items) r) }
{
    if let Some(place) = first_large_constant(&drafts, scale) {
        return Err(FormulaFault::ConstantTooLarge { node: place as u32 });
    }
    let sum = total_reach(&drafts, scale);
    if sum > LONGEST_REACH {
        return Err(FormulaFault::ReachTooLarge { sum });
    }
    match assemble(alloc, drafts, scale) {
        Ok(formula) => Ok(formula),
        Err(_) => Err(FormulaFault::Memory),
    }
}
