//! The pieces of an atom, in each shape in which it is read.
ghost use Rattle.std.specs.Prelude.{◌≡◌, ◌<◌, length, IfOk};
ghost use Rattle.stl_syntax.specs.Trace.{Trace as Recorded};
ghost use Rattle.stl_syntax.specs.SupInf.{Reading};
ghost use Rattle.atom_lines.specs.AtomSignals.{IsAtomSignal};
ghost use Rattle.atom_lines.specs.Binding.{IsAtomNode};
ghost use Rattle.atom_pieces.specs.AtomChains.{IsAtomChain};

use crate::margins::margin_pieces;
use crate::truths::truth_pieces;
use atom_lines::{Bound, atom_signal};
use frac128::Memory;
use pieces::Pieces;
use pl_signal::Signal;
use std::alloc::Global;
use trace_reader::Trace;
use value_laws::{Margin, Shape, Truth};

/// A shape in which an atom is read over a whole trace: by its truth or by its margin.
pub trait AtomShape: Shape {
    /// How the trace is read: as truths, 1 and -1, or as margins.
    ghost reading: { Recorded → Reading };

    /// The atom's truth or margin at every time of the trace.
    fn of_atom(
        alloc: Global,
        bound: &Bound,
        node: u32,
        trace: &Trace,
    ) -> Result<Pieces<Self>, Memory>
        requires atom { IsAtomNode bound.now node }
        requires columns { length trace.now.header.columns ≡ bound.now.width }
        requires some { 0 < length trace.now.rows }
        ensures { IfOk result (IsAtomChain Self.Shape reading bound.now node trace.now) };

    /// The atom as a signal of knots over the whole trace, for a formula that is one atom: no chain of pieces is made on the way.
    fn knots_of_atom(
        alloc: Global,
        bound: &Bound,
        node: u32,
        trace: &Trace,
    ) -> Result<Signal<Self>, Memory>
        requires atom { IsAtomNode bound.now node }
        requires columns { length trace.now.header.columns ≡ bound.now.width }
        requires some { 0 < length trace.now.rows }
        ensures { IfOk result (IsAtomSignal Self.Shape reading bound.now node trace.now) };
}

impl AtomShape for Truth {
    ghost use Rattle.stl_syntax.specs.SupInf.{truths};

    ghost reading = { truths };

    fn of_atom(
        alloc: Global,
        bound: &Bound,
        node: u32,
        trace: &Trace,
    ) -> Result<Pieces<Truth>, Memory> {
        truth_pieces(alloc, bound, node, trace)
    }

    fn knots_of_atom(
        alloc: Global,
        bound: &Bound,
        node: u32,
        trace: &Trace,
    ) -> Result<Signal<Truth>, Memory> {
        atom_signal::<Truth>(alloc, bound, node, trace)
    }
}

impl AtomShape for Margin {
    ghost use Rattle.stl_syntax.specs.SupInf.{margins};

    ghost reading = { margins };

    fn of_atom(
        alloc: Global,
        bound: &Bound,
        node: u32,
        trace: &Trace,
    ) -> Result<Pieces<Margin>, Memory> {
        margin_pieces(alloc, bound, node, trace)
    }

    fn knots_of_atom(
        alloc: Global,
        bound: &Bound,
        node: u32,
        trace: &Trace,
    ) -> Result<Signal<Margin>, Memory> {
        atom_signal::<Margin>(alloc, bound, node, trace)
    }
}

/// The pieces of the atom at a node over the whole trace, from just before the first row's time to just after the last one's, in one
/// pass over the rows.
///
/// The trace has a row, and the columns of the header that was bound.
///
/// # Errors
///
/// `Memory` where memory is wanting.
pub fn pieces_of_atom<P: AtomShape>(
    alloc: Global,
    bound: &Bound,
    node: u32,
    trace: &Trace,
) -> Result<Pieces<P>, Memory>
    requires atom { IsAtomNode bound.now node }
    requires columns { length trace.now.header.columns ≡ bound.now.width }
    requires some { 0 < length trace.now.rows }
    ensures { IfOk result (IsAtomChain P.Shape P.reading bound.now node trace.now) }
{
    P::of_atom(alloc, bound, node, trace)
}

/// The signal of the atom at a node over the whole trace, by its knots: for a formula that is one atom, of which no node makes anything more.
///
/// The trace has a row, and the columns of the header that was bound.
///
/// # Errors
///
/// `Memory` where memory is wanting.
pub fn signal_of_atom<P: AtomShape>(
    alloc: Global,
    bound: &Bound,
    node: u32,
    trace: &Trace,
) -> Result<Signal<P>, Memory>
    requires atom { IsAtomNode bound.now node }
    requires columns { length trace.now.header.columns ≡ bound.now.width }
    requires some { 0 < length trace.now.rows }
    ensures { IfOk result (IsAtomSignal P.Shape P.reading bound.now node trace.now) }
{
    P::knots_of_atom(alloc, bound, node, trace)
}
