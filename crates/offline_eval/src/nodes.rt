//! The chain of one node.
ghost use Rattle.std.specs.Prelude.{◌≡◌, ◌≤◌, Bool, false, length, IfOk, IfErr};
ghost use Rattle.stl_syntax.specs.Formula.{HasChildrenBelow};
ghost use Rattle.stl_syntax.specs.Limits.{own_reach};
ghost use Rattle.stl_syntax.specs.WellFormed.{HasBounds};
ghost use Rattle.stl_syntax.specs.declared.node.Node.TheVariants.{Const};
ghost use Rattle.offline_eval.specs.Forms.{of_pieces};
ghost use Rattle.offline_eval.specs.Inputs.{is_atom};
ghost use Rattle.offline_eval.specs.Making.{AreFit, AreSound, FaultOfNode, FaultOfOne, FaultOfTwo, IsFit, IsOne, IsTwo, NodeStaysSound};
ghost use Rattle.offline_eval.specs.Making.{StaySound, StaysSound, TellsNode, TellsOne, TellsTwo, make_one, make_two};

use crate::connectives::{both, constant_chain, either, implied, negated};
use crate::untils::{bounded_since, bounded_until};
use crate::windows::{inf_ahead, inf_behind, sup_ahead, sup_behind};
use pieces::Pieces;
use pl_signal::OpFault;
use std::alloc::Global;
use stl_syntax::Node;
use value_laws::Shape;

/// The chain of a node that is no atom, from those of the nodes before it, whatever formulas these tell. The domain is from `from` to
/// `to`, both in ticks.
///
/// # Errors
///
/// `Wide` with a pair that is in play in the node's step and needs a denominator of 2^60 or more; `Memory` where memory is wanting.
pub fn of_node<P: Shape>(
    alloc: Global,
    from: u32,
    to: u32,
    node: &Node,
    done: &[Pieces<P>],
) -> Result<Pieces<P>, OpFault<P>>
    requires order { from ≤ to }
    requires kind { is_atom node.now ≡ false }
    requires bounds { HasBounds node.now }
    requires children { HasChildrenBelow (length done.now) node.now }
    requires sound { AreSound (of_pieces P.Shape) from to 4294967295 done.now }
    ensures sound { IfOk result (NodeStaysSound (of_pieces P.Shape) from to node.now done.now) }
    ensures told { IfOk result (TellsNode (of_pieces P.Shape) from to node.now done.now) }
    ensures wide { IfErr result (FaultOfNode (of_pieces P.Shape) from to node.now done.now) }
{
    match node {
        Node::Const(holds) => Ok(constant_chain(alloc, from, to, *holds)?),
        _ => of_operands(from, to, node, done),
    }
}

/// The chain of a node with operands, from those of the nodes before it.
fn of_operands<P: Shape>(
    from: u32,
    to: u32,
    node: &Node,
    done: &[Pieces<P>],
) -> Result<Pieces<P>, OpFault<P>>
    requires kind { is_atom node.now ≡ false }
    requires other { (b : Bool) → node.now ≡ Const b → ⊥ }
    requires bounds { HasBounds node.now }
    requires children { HasChildrenBelow (length done.now) node.now }
    requires sound { AreSound (of_pieces P.Shape) from to 4294967295 done.now }
    ensures sound { IfOk result (NodeStaysSound (of_pieces P.Shape) from to node.now done.now) }
    ensures told { IfOk result (TellsNode (of_pieces P.Shape) from to node.now done.now) }
    ensures wide { IfErr result (FaultOfNode (of_pieces P.Shape) from to node.now done.now) }
{
    match node.inputs() {
        (Some(p), Some(q)) => of_two(node, &done[p as usize], &done[q as usize]),
        (Some(p), None) => of_one(node, &done[p as usize]),
        (None, _) => unreachable!(),
    }
}

/// The chain of a node with one operand, from that of the operand.
#[rattlefmt::skip]
fn of_one<P: Shape>(node: &Node, x: &Pieces<P>) -> Result<Pieces<P>, OpFault<P>>
    requires one { IsOne node.now }
    requires bounds { HasBounds node.now }
    requires fit { IsFit (of_pieces P.Shape) x.now }
    ensures sound { IfOk result (StaysSound (of_pieces P.Shape) (own_reach node.now) x.now) }
    ensures told { IfOk result (TellsOne (of_pieces P.Shape) (make_one node.now) x.now) }
    ensures wide { IfErr result (FaultOfOne (of_pieces P.Shape) (make_one node.now) x.now) }
{
    match node {
        Node::Not(_) => Ok(negated(x)?),
        Node::Eventually { low, high, low_in, high_in, .. } => sup_ahead(x, *low, *high, *low_in, *high_in),
        Node::Always { low, high, low_in, high_in, .. } => inf_ahead(x, *low, *high, *low_in, *high_in),
        Node::Once { low, high, low_in, high_in, .. } => sup_behind(x, *low, *high, *low_in, *high_in),
        Node::Historically { low, high, low_in, high_in, .. } => inf_behind(x, *low, *high, *low_in, *high_in),
        _ => unreachable!(),
    }
}

/// The chain of a node with two operands, from those of the operands.
fn of_two<P: Shape>(node: &Node, x: &Pieces<P>, y: &Pieces<P>) -> Result<Pieces<P>, OpFault<P>>
    requires two { IsTwo node.now }
    requires bounds { HasBounds node.now }
    requires fit { AreFit (of_pieces P.Shape) x.now y.now }
    ensures sound { IfOk result (StaySound (of_pieces P.Shape) (own_reach node.now) x.now y.now) }
    ensures told { IfOk result (TellsTwo (of_pieces P.Shape) (make_two node.now) x.now y.now) }
    ensures wide { IfErr result (FaultOfTwo (of_pieces P.Shape) (make_two node.now) x.now y.now) }
{
    match node {
        Node::And(..) => both(x, y),
        Node::Or(..) => either(x, y),
        Node::Implies(..) => implied(x, y),
        Node::Until { low, high, .. } => bounded_until(x, y, *low, *high),
        Node::Since { low, high, .. } => bounded_since(x, y, *low, *high),
        _ => unreachable!(),
    }
}
