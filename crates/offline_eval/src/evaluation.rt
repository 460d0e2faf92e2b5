//! The evaluation of a formula by signals. It goes by way of chains of pieces, one for each node.
ghost use Rattle.std.specs.Prelude.{◌≡◌, ◌+◌, ◌-◌, ◌<◌, ◌≤◌, All, Some, slice_get, length, IfOk, IfErr};
ghost use Rattle.pl_signal.specs.Moves.{Tells};
ghost use Rattle.stl_syntax.specs.Formula.{subformula};
ghost use Rattle.stl_syntax.specs.SupInf.{Setting, SupInf};
ghost use Rattle.offline_eval.specs.Forms.{of_knots};
ghost use Rattle.offline_eval.specs.Inputs.{atoms_before, IsInput, IsOver, TellAtoms, TellAtomsBelow};
ghost use Rattle.offline_eval.specs.Evaluation.{IsFault, TellNodes};

use crate::chains::{eval_chains, first_chains, signals_of};
use crate::{Atoms, EvalFault};
use frac128::Steps;
use pl_signal::Signal;
use std::alloc::Global;
use std::marker::Model;
use std::sync::ledger::Ledger;
use stl_syntax::Formula;
use value_laws::Shape;

/// The signal of each node of a formula. Contracts see it as the list of the signals, each at the place of its node.
#[derive(Drop)]
pub struct Evaluated<P: Shape> {
    signals: Vec<Signal<P>>,
}

impl<P: Shape> Model for Evaluated<P> {
    ghost use Rattle.std.specs.Prelude.{List};
    ghost use Rattle.pl_signal.specs.declared.knot.Knot.{Knot};

    ghost Value = { List (List (Knot P)) };

    ghost view = { λ s. s.signals.items };
}

impl<P: Shape> Evaluated<P> {
    /// The signal of the node at that place in post-order.
    pub fn signal(&self, node: u32) -> &Signal<P>
        requires { node < length self.now }
        ensures { slice_get self.now node ≡ Some result.now }
    {
        &self.signals[node as usize]
    }

    /// The signal of the last node, the root; the others are let go of.
    pub fn root(self) -> Signal<P>
        requires { 0 < length self }
        ensures { slice_get self (length self - 1) ≡ Some result }
    {
        let Evaluated { signals } = self;
        let mut all = signals;
        match all.pop() {
            Some(signal) => signal,
            None => unreachable!(),
        }
    }
}

/// The signal of each node of the formula, over the domain from `from` to `to`, both in ticks.
///
/// In every setting over that domain in which the atoms' signals tell the atoms, each node's signal tells the sup-inf value of its
/// subformula. It is refused as `Wide` only with a node and a pair in play there that needs a denominator of 2^60 or more.
///
/// # Errors
///
/// `Wide` at a node with a pair that is in play there and needs a denominator of 2^60 or more, never for truth and three-valued
/// truth; `Memory` where memory is wanting.
pub fn eval<P: Shape, L: Ledger>(
    alloc: Global,
    formula: &Formula,
    from: u32,
    to: u32,
    atoms: Atoms<P>,
    steps: &mut Steps<L>,
) -> Result<Evaluated<P>, EvalFault<P>>
    requires order { from ≤ to }
    requires count { length atoms ≡ atoms_before formula.now.nodes (length formula.now.nodes) }
    requires inputs { All (IsInput (of_knots P.Shape) from to) atoms }
    ensures count { IfOk result (λ r. length r ≡ length formula.now.nodes) }
    ensures told { IfOk result (λ r. (s : Setting) → IsOver P.lowest P.highest from to s
        → TellAtoms P.Shape formula.now.nodes atoms s → TellNodes (of_knots P.Shape) formula.now.nodes r s) }
    ensures wide { IfErr result (λ e. (s : Setting) → IsOver P.lowest P.highest from to s
        → TellAtoms P.Shape formula.now.nodes atoms s → IsFault P.Shape formula.now.nodes s e) }
    ensures steps { steps.new ≡ steps.old + 1 }
{
    match eval_chains(alloc, formula, from, to, atoms, steps) {
        Ok(chains) => {
            let signals = signals_of(alloc, chains.list())?;
            Ok(Evaluated { signals })
        }
        Err(fault) => Err(fault),
    }
}

/// The signal of each node of the formula, as `eval` tells it, where that of the root stands already: `root`. Only the atoms below the root
/// need a signal, and the root's own step is not made.
///
/// # Errors
///
/// `Wide` at a node with a pair that is in play there and needs a denominator of 2^60 or more, never for truth and three-valued
/// truth; `Memory` where memory is wanting.
pub fn eval_under<P: Shape, L: Ledger>(
    alloc: Global,
    formula: &Formula,
    from: u32,
    to: u32,
    atoms: Atoms<P>,
    root: Signal<P>,
    steps: &mut Steps<L>,
) -> Result<Evaluated<P>, EvalFault<P>>
    requires order { from ≤ to }
    requires count { length atoms ≡ atoms_before formula.now.nodes (length formula.now.nodes - 1) }
    requires inputs { All (IsInput (of_knots P.Shape) from to) atoms }
    ensures count { IfOk result (λ r. length r ≡ length formula.now.nodes) }
    ensures root { IfOk result (λ r. slice_get r (length formula.now.nodes - 1) ≡ Some root) }
    ensures told { IfOk result (λ r. (s : Setting) → IsOver P.lowest P.highest from to s
        → TellAtomsBelow P.Shape (length formula.now.nodes - 1) formula.now.nodes atoms s
        → Tells P.Shape (SupInf (subformula formula.now.nodes (length formula.now.nodes - 1)) s) s.from s.to root
        → TellNodes (of_knots P.Shape) formula.now.nodes r s) }
    ensures wide { IfErr result (λ e. (s : Setting) → IsOver P.lowest P.highest from to s
        → TellAtomsBelow P.Shape (length formula.now.nodes - 1) formula.now.nodes atoms s → IsFault P.Shape formula.now.nodes s e) }
    ensures steps { steps.new ≡ steps.old + 1 }
{
    steps.tick();
    match first_chains(alloc, formula, formula.len() - 1, from, to, atoms) {
        Ok(chains) => {
            let mut signals = signals_of(alloc, chains.list())?;
            if signals.push(root).is_err() {
                return Err(EvalFault::Memory);
            }
            Ok(Evaluated { signals })
        }
        Err(fault) => Err(fault),
    }
}
