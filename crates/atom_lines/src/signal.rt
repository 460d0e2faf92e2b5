//! The signal of an atom over a whole trace.
ghost use Rattle.std.specs.Prelude.{◌≡◌, ◌<◌, ◌-◌, length, IfOk};
ghost use Rattle.stl_syntax.specs.Trace.{Trace as Recorded};
ghost use Rattle.stl_syntax.specs.SupInf.{Reading};
ghost use Rattle.atom_lines.specs.Binding.{IsAtomNode};
ghost use Rattle.atom_lines.specs.AtomSignals.{IsAtomSignal};
ghost use Rattle.atom_lines.specs.Growing.{HasGrown, IsReachAt};
ghost use Rattle.atom_lines.specs.How.{reading_of};

use crate::bound::Bound;
use crate::bound_atom::BoundAtom;
use crate::cells::row_at;
use crate::piecewise::{Piecewise, catch_up};
use crate::points::gap_on;
use crate::sum::reach_of;
use frac128::{Frac, Memory};
use pl_signal::{Builder, Signal};
use std::alloc::Global;
use trace_reader::Trace;
use value_laws::{Margin, Shape, Truth};

/// A shape in which an atom is read over a whole trace: by its truth or by its margin.
pub trait AtomShape: Shape {
    /// How the trace is read: as truths, 1 and -1, or as margins.
    ghost reading: { Recorded → Reading };

    /// The atom's truth or margin at every time of the trace.
    fn of_atom(
        alloc: Global,
        bound: &Bound,
        node: u32,
        trace: &Trace,
    ) -> Result<Signal<Self>, Memory>
        requires atom { IsAtomNode bound.now node }
        requires columns { length trace.now.header.columns ≡ bound.now.width }
        requires some { 0 < length trace.now.rows }
        ensures { IfOk result (IsAtomSignal Self.Shape reading bound.now node trace.now) };
}

impl AtomShape for Truth {
    ghost use Rattle.stl_syntax.specs.SupInf.{truths};

    ghost reading = { truths };

    fn of_atom(
        alloc: Global,
        bound: &Bound,
        node: u32,
        trace: &Trace,
    ) -> Result<Signal<Truth>, Memory> {
        signal_of::<Truth>(alloc, bound, node, trace)
    }
}

impl AtomShape for Margin {
    ghost use Rattle.stl_syntax.specs.SupInf.{margins};

    ghost reading = { margins };

    fn of_atom(
        alloc: Global,
        bound: &Bound,
        node: u32,
        trace: &Trace,
    ) -> Result<Signal<Margin>, Memory> {
        signal_of::<Margin>(alloc, bound, node, trace)
    }
}

/// The signal of the atom at a node over the whole trace, in one pass over the rows.
///
/// It has the knots that are needed and no others. The trace has a row, and the columns of the header that was bound.
///
/// # Errors
///
/// `Memory` where memory is wanting.
pub fn atom_signal<P: AtomShape>(
    alloc: Global,
    bound: &Bound,
    node: u32,
    trace: &Trace,
) -> Result<Signal<P>, Memory>
    requires atom { IsAtomNode bound.now node }
    requires columns { length trace.now.header.columns ≡ bound.now.width }
    requires some { 0 < length trace.now.rows }
    ensures { IfOk result (IsAtomSignal P.Shape P.reading bound.now node trace.now) }
{
    P::of_atom(alloc, bound, node, trace)
}

/// Goes on to row `r`, where the sum at the row before is `from`. The answer is the sum at row `r`.
fn advance<P: Piecewise>(
    signal: &mut Builder<P>,
    bound: &Bound,
    node: u32,
    trace: &Trace,
    r: usize,
    from: i64,
) -> Result<i64, Memory>
    requires atom { IsAtomNode bound.now node }
    requires columns { length trace.now.header.columns ≡ bound.now.width }
    requires later { 0 < r }
    requires within { r < length trace.now.rows }
    requires from { IsReachAt bound.now node trace.now (r - 1) from }
    requires grown { HasGrown P.Shape P.read_as bound.now node trace.now (r - 1) signal.old }
    ensures next { IfOk result (IsReachAt bound.now node trace.now r) }
    ensures grown { IfOk result (λ _. HasGrown P.Shape P.read_as bound.now node trace.now r signal.new) }
{
    let atom = bound.atom(node);
    let first = row_at(trace, r - 1);
    let second = row_at(trace, r);
    let (gap, next) = gap_on(
        atom,
        trace.time(r - 1),
        from,
        &first,
        trace.time(r),
        &second,
    );
    P::go_on(signal, atom.rel, &gap, next)?;
    Ok(next)
}

/// The sum at the first row.
fn first_sum(bound: &Bound, node: u32, trace: &Trace) -> i64
    requires atom { IsAtomNode bound.now node }
    requires columns { length trace.now.header.columns ≡ bound.now.width }
    requires some { 0 < length trace.now.rows }
    ensures { IsReachAt bound.now node trace.now 0 result }
{
    let row = row_at(trace, 0);
    reach_of(bound.atom(node), &row, &row)
}

/// The signal at the first row alone, where the sum is `from`, with room for a knot at each row.
fn begin<P: Piecewise>(
    alloc: Global,
    bound: &Bound,
    node: u32,
    trace: &Trace,
    from: i64,
) -> Result<Builder<P>, Memory>
    requires atom { IsAtomNode bound.now node }
    requires some { 0 < length trace.now.rows }
    requires from { IsReachAt bound.now node trace.now 0 from }
    ensures { IfOk result (HasGrown P.Shape P.read_as bound.now node trace.now 0) }
{
    let atom = bound.atom(node);
    let at = Frac::of(i64::from(trace.time(0)));
    Builder::with_room(alloc, at, P::point(atom.rel, from), trace.rows())
}

/// The signal of the atom at a node, row by row.
fn signal_of<P: Piecewise>(
    alloc: Global,
    bound: &Bound,
    node: u32,
    trace: &Trace,
) -> Result<Signal<P>, Memory>
    requires atom { IsAtomNode bound.now node }
    requires columns { length trace.now.header.columns ≡ bound.now.width }
    requires some { 0 < length trace.now.rows }
    ensures { IfOk result (IsAtomSignal P.Shape (reading_of P.read_as) bound.now node trace.now) }
{
    let mut from = first_sum(bound, node, trace);
    let mut signal = begin::<P>(alloc, bound, node, trace, from)?;
    for r in 1..trace.rows() {
        from = advance(&mut signal, bound, node, trace, r, from)?;
    }
    finished(signal, bound, node, trace, from)
}

/// The signal up to the last row, where the sum is `from`.
fn finished<P: Piecewise>(
    mut signal: Builder<P>,
    bound: &Bound,
    node: u32,
    trace: &Trace,
    from: i64,
) -> Result<Signal<P>, Memory>
    requires atom { IsAtomNode bound.now node }
    requires columns { length trace.now.header.columns ≡ bound.now.width }
    requires some { 0 < length trace.now.rows }
    requires from { IsReachAt bound.now node trace.now (length trace.now.rows - 1) from }
    requires grown { HasGrown P.Shape P.read_as bound.now node trace.now (length trace.now.rows - 1) signal }
    ensures { IfOk result (IsAtomSignal P.Shape (reading_of P.read_as) bound.now node trace.now) }
{
    let atom = bound.atom(node);
    let last = trace.time(trace.rows() - 1);
    catch_up(&mut signal, &P::point(atom.rel, from), last)?;
    Ok(signal.finish())
}
