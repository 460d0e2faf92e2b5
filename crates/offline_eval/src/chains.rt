//! The evaluation of a formula by chains of pieces, one for each node.
ghost use Rattle.std.specs.Prelude.{◌≡◌, ◌+◌, ◌<◌, ◌≤◌, All, Some, slice_get, length, OnOk, IfOk, IfErr};
ghost use Rattle.stl_syntax.specs.SupInf.{Setting};
ghost use Rattle.stl_syntax.specs.declared.atom.Atom.{Atom};
ghost use Rattle.stl_syntax.specs.declared.node.Node.TheVariants.{Atom as Leaf};
ghost use Rattle.offline_eval.specs.Forms.{of_knots, of_pieces};
ghost use Rattle.offline_eval.specs.Inputs.{atoms_before, IsInput, IsOver, TellAtoms, TellAtomsBelow};
ghost use Rattle.offline_eval.specs.Evaluation.{AreClosed, AreSignalsOf, IsFault, TellNodes};
ghost use Rattle.offline_eval.specs.Making.{AreSound, TellAt, fault_at};
ghost use Rattle.stl_syntax.specs.Formula.{subformula};
ghost use Rattle.offline_eval.specs.Places.{FaultOfPlace, PlaceStaysSound, TakesOwn, TellsPlace};

use crate::nodes::of_node;
use crate::{Atoms, EvalFault, WideCause};
use frac128::{Memory, Steps};
use pieces::{Pieces, pieces_of, signal_of};
use pl_signal::{OpFault, Signal};
use std::alloc::Global;
use std::marker::Model;
use std::sync::ledger::Ledger;
use stl_syntax::{Formula, Node};
use value_laws::Shape;

/// The chain of each node of a formula. Contracts see it as the list of the chains, each at the place of its node.
#[derive(Drop)]
pub struct Chains<P: Shape> {
    all: Vec<Pieces<P>>,
}

impl<P: Shape> Model for Chains<P> {
    ghost use Rattle.std.specs.Prelude.{List};
    ghost use Rattle.pieces.specs.Chains.{Chain};

    ghost Value = { List (Chain P) };

    ghost view = { λ s. s.all.items };
}

impl<P: Shape> Chains<P> {
    /// The chain of the node at that place in post-order.
    pub fn chain(&self, node: u32) -> &Pieces<P>
        requires { node < length self.now }
        ensures { slice_get self.now node ≡ Some result.now }
    {
        &self.all[node as usize]
    }

    /// The chains as a list, that of the first node first.
    pub(crate) fn list(&self) -> &[Pieces<P>]
        ensures { result.now ≡ self.now }
    {
        &self.all
    }
}

/// The signal of each chain.
pub(crate) fn signals_of<P: Shape>(
    alloc: Global,
    chains: &[Pieces<P>],
) -> Result<Vec<Signal<P>>, Memory>
    requires { AreClosed P.Shape chains.now }
    ensures { IfOk result (λ r. AreSignalsOf P.Shape chains.now r.items) }
{
    let count = chains.len();
    let mut signals = Vec::with_capacity(alloc, count)?;
    for k in 0..count {
        let signal = signal_of(&chains[k])?;
        if signals.push(signal).is_err() {
            return Err(Memory);
        }
    }
    Ok(signals)
}

/// The chain of the node at place `i`; that of an atom is made of the next of `atoms`.
fn next_chain<P: Shape>(
    alloc: Global,
    formula: &Formula,
    i: u32,
    from: u32,
    to: u32,
    done: &[Pieces<P>],
    atoms: &mut Atoms<P>,
) -> Result<Pieces<P>, OpFault<P>>
    requires order { from ≤ to }
    requires inside { i < length formula.now.nodes }
    requires place { length done.now ≡ i }
    requires left { (a : Atom) → slice_get formula.now.nodes i ≡ Some (Leaf a) → 0 < length atoms.old }
    requires inputs { AreSound (of_knots P.Shape) from to 0 atoms.old }
    requires sound { AreSound (of_pieces P.Shape) from to 4294967295 done.now }
    ensures rest { OnOk result (TakesOwn formula.now.nodes i atoms.old atoms.new) }
    ensures sound { IfOk result (PlaceStaysSound P.Shape from to formula.now.nodes i done.now) }
    ensures told { IfOk result (TellsPlace P.Shape from to formula.now.nodes i atoms.old done.now) }
    ensures wide { IfErr result (FaultOfPlace P.Shape from to formula.now.nodes i done.now) }
{
    match formula.node(i) {
        Node::Atom(_) => {
            let signal = atoms.take();
            Ok(pieces_of(&signal)?)
        }
        node => of_node(alloc, from, to, node, done),
    }
}

/// The fault at its node.
pub(crate) fn at_node<P>(node: u32, fault: OpFault<P>) -> EvalFault<P>
    ensures { result ≡ fault_at node fault }
{
    match fault {
        OpFault::Memory => EvalFault::Memory,
        OpFault::Wide(pair) => EvalFault::Wide(WideCause { node, pair }),
    }
}

/// The chain of each of the first `count` nodes of the formula, over the domain from `from` to `to`, both in ticks. There is a signal for
/// each atom among them.
pub(crate) fn first_chains<P: Shape>(
    alloc: Global,
    formula: &Formula,
    count: u32,
    from: u32,
    to: u32,
    atoms: Atoms<P>,
) -> Result<Chains<P>, EvalFault<P>>
    requires order { from ≤ to }
    requires within { count ≤ length formula.now.nodes }
    requires count { length atoms ≡ atoms_before formula.now.nodes count }
    requires inputs { All (IsInput (of_knots P.Shape) from to) atoms }
    ensures count { IfOk result (λ r. length r ≡ count) }
    ensures sound { IfOk result (AreSound (of_pieces P.Shape) from to 4294967295) }
    ensures told { IfOk result (λ r. (s : Setting) → IsOver P.lowest P.highest from to s
        → TellAtomsBelow P.Shape count formula.now.nodes atoms s → TellAt (of_pieces P.Shape) s (subformula formula.now.nodes) r) }
    ensures wide { IfErr result (λ e. (s : Setting) → IsOver P.lowest P.highest from to s
        → TellAtomsBelow P.Shape count formula.now.nodes atoms s → IsFault P.Shape formula.now.nodes s e) }
{
    // For the proof alone: that the formula is well formed is a clause of `len`.
    let _ = formula.len();
    let mut rest = atoms;
    let Ok(mut done) = Vec::with_capacity(alloc, count as usize) else {
        return Err(EvalFault::Memory);
    };
    for i in 0..count {
        match next_chain(alloc, formula, i, from, to, &done, &mut rest) {
            Ok(chain) => {
                if done.push(chain).is_err() {
                    return Err(EvalFault::Memory);
                }
            }
            Err(fault) => return Err(at_node(i, fault)),
        }
    }
    Ok(Chains { all: done })
}

/// The chain of each node of the formula, over the domain from `from` to `to`, both in ticks: what `eval` tells by signals.
///
/// # Errors
///
/// `Wide` at a node with a pair that is in play there and needs a denominator of 2^60 or more, never for truth and three-valued
/// truth; `Memory` where memory is wanting.
pub fn eval_chains<P: Shape, L: Ledger>(
    alloc: Global,
    formula: &Formula,
    from: u32,
    to: u32,
    atoms: Atoms<P>,
    steps: &mut Steps<L>,
) -> Result<Chains<P>, EvalFault<P>>
    requires order { from ≤ to }
    requires count { length atoms ≡ atoms_before formula.now.nodes (length formula.now.nodes) }
    requires inputs { All (IsInput (of_knots P.Shape) from to) atoms }
    ensures count { IfOk result (λ r. length r ≡ length formula.now.nodes) }
    ensures sound { IfOk result (AreSound (of_pieces P.Shape) from to 4294967295) }
    ensures told { IfOk result (λ r. (s : Setting) → IsOver P.lowest P.highest from to s
        → TellAtoms P.Shape formula.now.nodes atoms s → TellNodes (of_pieces P.Shape) formula.now.nodes r s) }
    ensures wide { IfErr result (λ e. (s : Setting) → IsOver P.lowest P.highest from to s
        → TellAtoms P.Shape formula.now.nodes atoms s → IsFault P.Shape formula.now.nodes s e) }
    ensures steps { steps.new ≡ steps.old + 1 }
{
    steps.tick();
    first_chains(alloc, formula, formula.len(), from, to, atoms)
}
