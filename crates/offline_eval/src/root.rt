//! The evaluation of a formula for its root alone, by chains of pieces: each chain is given up once the one node that reads it has its own.
ghost use Rattle.std.specs.Prelude.{◌≡◌, ◌⊎◌, ◌+◌, ◌<◌, ◌≤◌, ◌++◌, ◌∷◌, [], All, List, ℕ, Some, false, length, option_to_list, slice_get, IfOk, IfSome, IfErr, OnOk};
ghost use Rattle.stl_syntax.specs.Formula.{HasChildrenBelow, subformula};
ghost use Rattle.stl_syntax.specs.PostOrder.{children};
ghost use Rattle.stl_syntax.specs.SupInf.{Setting};
ghost use Rattle.stl_syntax.specs.declared.atom.Atom.{Atom};
ghost use Rattle.stl_syntax.specs.declared.node.Node.{Node};
ghost use Rattle.stl_syntax.specs.WellFormed.{HasBounds};
ghost use Rattle.stl_syntax.specs.declared.node.Node.TheVariants.{Atom as Leaf, Not};
ghost use Rattle.offline_eval.specs.Forms.{of_pieces};
ghost use Rattle.offline_eval.specs.Evaluation.{IsFault};
ghost use Rattle.offline_eval.specs.Inputs.{is_atom, IsInput, IsOver};
ghost use Rattle.offline_eval.specs.Keeping.{AreGivenUp, IsRootIn, IsStack, TellsStack};
ghost use Rattle.offline_eval.specs.Making.{AreSound, FaultOfNode, NodeStaysSound, TellsNode, TellsValue};

use crate::EvalFault;
use crate::chains::at_node;
use crate::connectives::{constant_chain, turned_over};
use crate::nodes::of_node;
use frac128::Memory;
use pieces::Pieces;
use pl_signal::OpFault;
use std::alloc::Global;
use std::marker::Model;
use stl_syntax::{Formula, Node};
use value_laws::Shape;

/// Gives up the chain at a place. A constant stands there from then on.
fn give_up<P: Shape>(
    alloc: Global,
    from: u32,
    to: u32,
    done: &mut Vec<Pieces<P>>,
    place: Option<u32>,
) -> Result<(), Memory>
    requires order { from ≤ to }
    requires inside { IfSome place (λ p. p < length done.old.items) }
    ensures { OnOk result (AreGivenUp (of_pieces P.Shape) from to (option_to_list place) done.old.items done.new.items) }
{
    let Some(place) = place else {
        return Ok(());
    };
    let spare = constant_chain(alloc, from, to, false)?;
    done[place as usize] = spare;
    Ok(())
}

/// The chain of a negation: that of its operand, which no other node reads, turned over. A constant stands in its place from then on.
fn of_negation<P: Shape>(
    alloc: Global,
    from: u32,
    to: u32,
    done: &mut Vec<Pieces<P>>,
    place: u32,
) -> Result<Pieces<P>, Memory>
    requires order { from ≤ to }
    requires inside { place < length done.old.items }
    requires sound { AreSound (of_pieces P.Shape) from to 4294967295 done.old.items }
    ensures sound { IfOk result (NodeStaysSound (of_pieces P.Shape) from to (Not place) done.old.items) }
    ensures told { IfOk result (TellsNode (of_pieces P.Shape) from to (Not place) done.old.items) }
    ensures given { OnOk result (AreGivenUp (of_pieces P.Shape) from to (place ∷ []) done.old.items done.new.items) }
{
    let spare = constant_chain(alloc, from, to, false)?;
    let operand = std::mem::replace(&mut done[place as usize], spare);
    Ok(turned_over(operand))
}

/// The chain of the next node, which is no atom. The chain of the operand of a negation is given up for it.
fn of_next<P: Shape>(
    alloc: Global,
    from: u32,
    to: u32,
    node: &Node,
    done: &mut Vec<Pieces<P>>,
) -> Result<Pieces<P>, OpFault<P>>
    requires order { from ≤ to }
    requires kind { is_atom node.now ≡ false }
    requires bounds { HasBounds node.now }
    requires children { HasChildrenBelow (length done.old.items) node.now }
    requires sound { AreSound (of_pieces P.Shape) from to 4294967295 done.old.items }
    ensures sound { IfOk result (NodeStaysSound (of_pieces P.Shape) from to node.now done.old.items) }
    ensures told { IfOk result (TellsNode (of_pieces P.Shape) from to node.now done.old.items) }
    ensures wide { IfErr result (FaultOfNode (of_pieces P.Shape) from to node.now done.old.items) }
    ensures given { OnOk result ((done.new.items ≡ done.old.items)
        ⊎ AreGivenUp (of_pieces P.Shape) from to (children node.now) done.old.items done.new.items) }
{
    match node {
        Node::Not(place) => Ok(of_negation(alloc, from, to, done, *place)?),
        _ => of_node(alloc, from, to, node, done),
    }
}

/// Puts the chain of the next node behind those before it, and gives up those of its children: no other node reads them.
fn keep<P: Shape>(
    alloc: Global,
    from: u32,
    to: u32,
    node: &Node,
    chain: Pieces<P>,
    done: &mut Vec<Pieces<P>>,
) -> Result<(), Memory>
    requires order { from ≤ to }
    requires children { All (λ p. p < length done.old.items) (children node.now) }
    ensures { OnOk result (AreGivenUp (of_pieces P.Shape) from to (children node.now) (done.old.items ++ chain ∷ []) done.new.items) }
{
    let (left, right) = node.inputs();
    if done.push(chain).is_err() {
        return Err(Memory);
    }
    give_up(alloc, from, to, done, left)?;
    give_up(alloc, from, to, done, right)
}

/// The values of the first nodes of a formula over time, on the way to that of its root, as chains of pieces. Each is given up once the
/// one node that reads it has its own, so that only those are held that are still to be read. Contracts see it as the list of the chains,
/// by the places of the nodes.
#[derive(Drop)]
pub struct Stack<P: Shape> {
    done: Vec<Pieces<P>>,
}

impl<P: Shape> Model for Stack<P> {
    ghost use Rattle.std.specs.Prelude.{List};
    ghost use Rattle.pieces.specs.Chains.{Chain};

    ghost Value = { List (Chain P) };

    ghost view = { λ s. s.done.items };
}

impl<P: Shape> Stack<P> {
    /// No chains yet; it takes no memory.
    pub fn new(alloc: Global) -> Stack<P>
        ensures stands { (from to : ℕ) (nodes : List Node) → IsStack (of_pieces P.Shape) from to nodes 0 result }
        ensures told { (nodes : List Node) (s : Setting) → TellsStack (of_pieces P.Shape) nodes s 0 result }
    {
        Stack {
            done: Vec::new(alloc),
        }
    }

    /// Takes the chain of the node at place `i`, an atom.
    ///
    /// # Errors
    ///
    /// `Memory` where memory is wanting. The stack is of no use then.
    pub fn give(&mut self, formula: &Formula, i: u32, chain: Pieces<P>) -> Result<(), Memory>
        requires { (a : Atom) × (slice_get formula.now.nodes i ≡ Some (Leaf a)) }
        ensures stands { OnOk result ((from to : ℕ) → IsInput (of_pieces P.Shape) from to chain
            → IsStack (of_pieces P.Shape) from to formula.now.nodes i self.old
            → IsStack (of_pieces P.Shape) from to formula.now.nodes (i + 1) self.new) }
        ensures told { OnOk result ((from to : ℕ) (s : Setting) → IsOver P.lowest P.highest from to s
            → IsStack (of_pieces P.Shape) from to formula.now.nodes i self.old
            → TellsValue (of_pieces P.Shape) s (subformula formula.now.nodes i) chain
            → TellsStack (of_pieces P.Shape) formula.now.nodes s i self.old
            → TellsStack (of_pieces P.Shape) formula.now.nodes s (i + 1) self.new) }
    {
        // For the proof alone: the nodes stand in post-order.
        let _ = formula.len();
        if self.done.push(chain).is_err() {
            return Err(Memory);
        }
        Ok(())
    }

    /// Makes the chain of the node at place `i`, which is no atom, over the domain from `from` to `to`, both in ticks.
    ///
    /// # Errors
    ///
    /// `Wide` at the node with a pair that is in play there and needs a denominator of 2^60 or more; `Memory` where memory is wanting.
    /// The stack is of no use then.
    pub fn make(
        &mut self,
        alloc: Global,
        formula: &Formula,
        i: u32,
        from: u32,
        to: u32,
    ) -> Result<(), EvalFault<P>>
        requires order { from ≤ to }
        requires inside { i < length formula.now.nodes }
        requires kind { (n : Node) → slice_get formula.now.nodes i ≡ Some n → is_atom n ≡ false }
        requires stands { IsStack (of_pieces P.Shape) from to formula.now.nodes i self.old }
        ensures stands { OnOk result (IsStack (of_pieces P.Shape) from to formula.now.nodes (i + 1) self.new) }
        ensures told { OnOk result ((s : Setting) → IsOver P.lowest P.highest from to s
            → TellsStack (of_pieces P.Shape) formula.now.nodes s i self.old
            → TellsStack (of_pieces P.Shape) formula.now.nodes s (i + 1) self.new) }
        ensures wide { IfErr result (λ e. (s : Setting) → IsOver P.lowest P.highest from to s
            → TellsStack (of_pieces P.Shape) formula.now.nodes s i self.old → IsFault P.Shape formula.now.nodes s e) }
    {
        // For the proof alone: the nodes stand in post-order.
        let _ = formula.len();
        let next = formula.node(i);
        match of_next(alloc, from, to, next, &mut self.done) {
            Ok(chain) => {
                if keep(alloc, from, to, next, chain, &mut self.done).is_err() {
                    return Err(EvalFault::Memory);
                }
                Ok(())
            }
            Err(fault) => Err(at_node(i, fault)),
        }
    }

    /// The chain of the root, once all nodes have had theirs.
    pub fn root(self) -> Pieces<P>
        requires { 0 < length self }
        ensures { (nodes : List Node) (s : Setting) → length nodes ≡ length self
            → TellsStack (of_pieces P.Shape) nodes s (length nodes) self → IsRootIn (of_pieces P.Shape) nodes s result }
    {
        let Stack { done } = self;
        let mut chains = done;
        match chains.pop() {
            Some(chain) => chain,
            None => unreachable!(),
        }
    }
}
