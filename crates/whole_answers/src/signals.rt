//! The signal of a formula over a trace.
ghost use Rattle.std.specs.Prelude.{◌≡◌, ◌≤◌, ◌<◌, ◌+◌, Some, false, length, slice_get, IsTrue, IfOk, IfErr, OnOk};
ghost use Rattle.stl_syntax.specs.Trace.{first_time, last_time};
ghost use Rattle.stl_syntax.specs.declared.atom.Atom.{Atom};
ghost use Rattle.stl_syntax.specs.declared.node.Node.{Node as Nodes};
ghost use Rattle.stl_syntax.specs.declared.node.Node.TheVariants.{Atom as Leaf};
ghost use Rattle.atom_lines.specs.Binding.{IsBound};
ghost use Rattle.atom_pieces.specs.AtomChains.{IsAtomChain};
ghost use Rattle.offline_eval.specs.Inputs.{is_atom};
ghost use Rattle.whole_answers.specs.Answering.{IsFaultIn, IsRootOf, IsStackOf};

use atom_pieces::{AtomShape, pieces_of_atom, signal_of_atom};
use frac128::Memory;
use offline_eval::laws::{chains_have_values, told_have_values};
use offline_eval::{EvalFault, Stack};
use pieces::{Pieces, signal_of};
use pl_signal::Signal;
use std::alloc::Global;
use stl_syntax::{Formula, Node};
use trace_reader::Trace;
use trace_stream::Case;

/// The time of the first row.
fn first(trace: &Trace) -> u32
    requires { 0 < length trace.now.rows }
    ensures { result ≡ first_time trace.now.rows }
{
    trace.time(0)
}

/// The time of the last row.
fn last(trace: &Trace) -> u32
    requires { 0 < length trace.now.rows }
    ensures last { result ≡ last_time 0 trace.now.rows }
    ensures later { first_time trace.now.rows ≤ result }
{
    trace.time(trace.rows() - 1)
}

/// Puts the chain of an atom, which is made, on the stack.
fn push_atom<P: AtomShape>(
    case: &Case,
    i: u32,
    chain: Pieces<P>,
    stack: &mut Stack<P>,
) -> Result<(), EvalFault<P>>
    requires bound { IsBound case.now.bound case.now.formula case.now.trace.header }
    requires some { 0 < length case.now.trace.rows }
    requires inside { i < length case.now.formula.nodes }
    requires atom { (a : Atom) × (slice_get case.now.formula.nodes i ≡ Some (Leaf a)) }
    requires chain { IsAtomChain P.Shape P.reading case.now.bound i case.now.trace chain }
    requires before { IsStackOf P.Shape P.reading case.now i stack.old }
    ensures after { OnOk result (IsStackOf P.Shape P.reading case.now (i + 1) stack.new) }
    ensures wide { IfErr result (IsFaultIn P.Shape P.reading case.now) }
{
    // For the proof alone: that the rows are a trace, and what the node stands for.
    let _ = case.trace.rows();
    let _ = case.formula.node(i);
    match stack.give(&case.formula, i, chain) {
        Ok(()) => Ok(()),
        Err(Memory) => Err(EvalFault::Memory),
    }
}

/// Makes the chain of an atom, and puts it on the stack.
fn put_atom<P: AtomShape>(
    alloc: Global,
    case: &Case,
    i: u32,
    stack: &mut Stack<P>,
) -> Result<(), EvalFault<P>>
    requires bound { IsBound case.now.bound case.now.formula case.now.trace.header }
    requires some { 0 < length case.now.trace.rows }
    requires inside { i < length case.now.formula.nodes }
    requires atom { (a : Atom) × (slice_get case.now.formula.nodes i ≡ Some (Leaf a)) }
    requires before { IsStackOf P.Shape P.reading case.now i stack.old }
    ensures after { OnOk result (IsStackOf P.Shape P.reading case.now (i + 1) stack.new) }
    ensures wide { IfErr result (IsFaultIn P.Shape P.reading case.now) }
{
    let Ok(chain) = pieces_of_atom::<P>(alloc, &case.bound, i, &case.trace) else {
        return Err(EvalFault::Memory);
    };
    push_atom(case, i, chain, stack)
}

/// Puts the chain of a node that is no atom on the stack.
fn put_made<P: AtomShape>(
    alloc: Global,
    case: &Case,
    i: u32,
    stack: &mut Stack<P>,
) -> Result<(), EvalFault<P>>
    requires some { 0 < length case.now.trace.rows }
    requires inside { i < length case.now.formula.nodes }
    requires kind { (n : Nodes) → slice_get case.now.formula.nodes i ≡ Some n → is_atom n ≡ false }
    requires before { IsStackOf P.Shape P.reading case.now i stack.old }
    ensures after { OnOk result (IsStackOf P.Shape P.reading case.now (i + 1) stack.new) }
    ensures wide { IfErr result (IsFaultIn P.Shape P.reading case.now) }
{
    let (from, to) = (first(&case.trace), last(&case.trace));
    match stack.make(alloc, &case.formula, i, from, to) {
        Ok(()) => Ok(()),
        Err(fault) => Err(fault),
    }
}

/// Puts the chain of the node at place `i` on the stack.
fn put_node<P: AtomShape>(
    alloc: Global,
    case: &Case,
    i: u32,
    stack: &mut Stack<P>,
) -> Result<(), EvalFault<P>>
    requires bound { IsBound case.now.bound case.now.formula case.now.trace.header }
    requires some { 0 < length case.now.trace.rows }
    requires inside { i < length case.now.formula.nodes }
    requires before { IsStackOf P.Shape P.reading case.now i stack.old }
    ensures after { OnOk result (IsStackOf P.Shape P.reading case.now (i + 1) stack.new) }
    ensures wide { IfErr result (IsFaultIn P.Shape P.reading case.now) }
{
    match case.formula.node(i) {
        Node::Atom(_) => put_atom(alloc, case, i, stack),
        _ => put_made(alloc, case, i, stack),
    }
}

/// Whether the formula is one atom.
fn is_one_atom(formula: &Formula) -> bool
    ensures one { IsTrue result → length formula.now.nodes ≡ 1 }
    ensures atom { IsTrue result → (a : Atom) × (slice_get formula.now.nodes 0 ≡ Some (Leaf a)) }
{
    if formula.len() != 1 {
        return false;
    }
    match formula.node(0) {
        Node::Atom(_) => true,
        _ => false,
    }
}

/// The signal of a formula that is one atom, straight from the rows.
///
/// # Errors
/// Want of memory.
fn root_atom<P: AtomShape>(alloc: Global, case: &Case) -> Result<Signal<P>, EvalFault<P>>
    requires bound { IsBound case.now.bound case.now.formula case.now.trace.header }
    requires some { 0 < length case.now.trace.rows }
    requires one { length case.now.formula.nodes ≡ 1 }
    requires atom { (a : Atom) × (slice_get case.now.formula.nodes 0 ≡ Some (Leaf a)) }
    ensures told { IfOk result (IsRootOf P.Shape P.reading case.now) }
    ensures wide { IfErr result (IsFaultIn P.Shape P.reading case.now) }
{
    // For the proof alone: that the rows are a trace, what the node stands for, and that nodes that are told have values.
    let _ = (case.trace.rows(), case.formula.len());
    let _ = case.formula.node(0);
    told_have_values::<P>();
    match signal_of_atom::<P>(alloc, &case.bound, 0, &case.trace) {
        Ok(signal) => Ok(signal),
        Err(Memory) => Err(EvalFault::Memory),
    }
}

/// The signal of a formula over the trace, by its nodes: each node's chain of pieces is made when it is first read, only those are held that
/// are still to be read, and that of the root becomes a signal.
///
/// # Errors
/// Want of memory, or a denominator of 2^60 or more that a node needs.
#[inline(never)]
fn root_of_nodes<P: AtomShape>(alloc: Global, case: &Case) -> Result<Signal<P>, EvalFault<P>>
    requires bound { IsBound case.now.bound case.now.formula case.now.trace.header }
    requires some { 0 < length case.now.trace.rows }
    ensures told { IfOk result (IsRootOf P.Shape P.reading case.now) }
    ensures wide { IfErr result (IsFaultIn P.Shape P.reading case.now) }
{
    // For the proof alone: the ends of the trace, and that nodes that are told have values.
    let _ = (first(&case.trace), last(&case.trace));
    chains_have_values::<P>();
    let count = case.formula.len();
    let mut stack = Stack::new(alloc);
    for i in 0..count {
        match put_node(alloc, case, i, &mut stack) {
            Ok(()) => {}
            Err(fault) => return Err(fault),
        }
    }
    Ok(signal_of(&stack.root())?)
}

/// The signal of the formula over the trace: its truth or its margin at every time.
///
/// # Errors
/// Want of memory, or a denominator of 2^60 or more that a node needs.
pub(crate) fn root_of<P: AtomShape>(alloc: Global, case: &Case) -> Result<Signal<P>, EvalFault<P>>
    requires bound { IsBound case.now.bound case.now.formula case.now.trace.header }
    requires some { 0 < length case.now.trace.rows }
    ensures told { IfOk result (IsRootOf P.Shape P.reading case.now) }
    ensures wide { IfErr result (IsFaultIn P.Shape P.reading case.now) }
    ensures begins { IfOk result (λ _. first_time case.now.trace.rows ≤ 4294967295) }
    ensures ends { IfOk result (λ _. last_time 0 case.now.trace.rows ≤ 4294967295) }
{
    // For the proof alone: the ends of the trace.
    let _ = (first(&case.trace), last(&case.trace));
    if is_one_atom(&case.formula) {
        return root_atom(alloc, case);
    }
    root_of_nodes(alloc, case)
}
