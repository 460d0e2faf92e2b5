//! What a row puts onto the edges of the atoms.

ghost use Rattle.std.specs.Prelude.{◌≡◌, ◌<◌, ◌≤◌, ℕ, length, slice_get, IfOk, IfSome, IsTrue, OnOk, Option, Some, None, true, false, pos};
ghost use Rattle.rational.specs.Rational.{whole};
ghost use Rattle.frac128.specs.Value.{value};
ghost use Rattle.frac128.specs.Spans.{interval};
ghost use Rattle.rational.specs.Places.{begins, ends, AtMost, Same};
ghost use Rattle.frac128.specs.Cuts.{place};
ghost use Rattle.stl_syntax.specs.Trace.{Row as ARow};
ghost use Rattle.value_laws.specs.declared.truth.Truth.{Truth as ATruth};
ghost use Rattle.online_nodes.specs.Held.{Held, edge_at, with_edge, with_number};
ghost use Rattle.online_nodes.specs.Written.{IsSound};
ghost use Rattle.atom_lines.specs.Binding.{Binding, IsAtomNode};
ghost use Rattle.atom_lines.specs.Points.{IsTruthAt, IsTruthOn};
ghost use Rattle.atom_lines.specs.declared.truth.TruthPiece.TheVariants.{Whole};
ghost use Rattle.online_net.specs.Atoms.{after_row, before_row, begun, HasSaidThree, HasBegun, IsThrough, HasPutAtom, HasPutAtoms};

use atom_lines::{Bound, TruthPiece, truth_point, truth_step};
use frac128::{Cut, Frac, Memory, Span};
use online_nodes::{Edges, Operator, Out};
use stl_syntax::Verdict;
use trace_reader::Row;

/// Just before a time in ticks.
pub(crate) fn before_tick(n: u32) -> Cut
    ensures { Same (place result) (record { at = whole (pos n); after = false }) }
{
    Cut::before_whole(i64::from(n))
}

/// Just after a time in ticks.
pub(crate) fn after_tick(n: u32) -> Cut
    ensures { Same (place result) (record { at = whole (pos n); after = true }) }
{
    Cut::after_whole(i64::from(n))
}

/// Notes a number in ticks.
pub(crate) fn note(edges: &mut Edges, node: u32, n: u32)
    requires { node < length edges.old.edges }
    ensures { edges.new ≡ record edges.old { edges = with_edge edges.old node (with_number (edge_at edges.old node) (pos n)) } }
{
    edges.reach(node, i64::from(n));
}

/// A truth that turns over at a time: before it, at it, and after it.
#[derive(Clone, Copy)]
struct Flip {
    before: bool,
    at: Frac,
    point: bool,
    after: bool,
}

/// Says the truth before the time at which it turns over, at it, and after it up to a place.
fn say_flip(edges: &mut Edges, out: Out, turn: Flip, end: Cut) -> Result<Out, Memory>
    requires edge { out.edge < length edges.old.edges }
    requires sound { IsSound out }
    requires inside { AtMost (place out.at) (place out.to) }
    ensures { IfOk result (HasSaidThree edges.old edges.new out turn.before (record { at = value turn.at; after = false })
        turn.point (record { at = value turn.at; after = true }) turn.after (place end)) }
{
    let first = Cut {
        time: turn.at,
        side: 0,
    };
    let second = Cut {
        time: turn.at,
        side: 1,
    };
    let before = out.upto(edges, turn.before, first)?;
    let point = before.upto(edges, turn.point, second)?;
    let after = point.upto(edges, turn.after, end)?;
    Ok(after)
}

/// Says an atom's truth after the row before, up to just before the row.
fn say_gap(
    edges: &mut Edges,
    node: u32,
    first: &Row,
    row: &Row,
    piece: TruthPiece,
) -> Result<Out, Memory>
    requires edge { node < length edges.old.edges }
    requires later { first.now.time < row.now.time }
    ensures { (b : Binding) → IsTruthOn b node first.now row.now piece → IfOk result (HasBegun b node (Some first.now) row.now edges.old edges.new) }
{
    let from = after_tick(first.time());
    let end = before_tick(row.time());
    let to = after_tick(row.time());
    let out = Out::new(node, from, to);
    match piece {
        TruthPiece::Whole(truth) => {
            let said = out.upto(edges, truth.holds(), end)?;
            Ok(said)
        }
        TruthPiece::Split {
            before,
            at,
            point,
            after,
        } => {
            let turn = Flip {
                before: before.holds(),
                at,
                point: point.holds(),
                after: after.holds(),
            };
            let said = say_flip(edges, out, turn, end)?;
            Ok(said)
        }
    }
}

/// Whether a gap has one truth, this one.
fn is_even(piece: &TruthPiece, holds: bool) -> bool
    ensures { IsTrue result → (truth : ATruth) × (piece.now ≡ Whole truth) × (truth.holds ≡ holds) }
{
    match piece {
        TruthPiece::Whole(truth) => truth.holds() == holds,
        TruthPiece::Split { .. } => false,
    }
}

/// The times after one number of ticks, up to another.
#[inline(always)]
pub fn span_after(first: u32, last: u32) -> Span
    requires { first < last }
    ensures begin { Same (record { at = whole (pos first); after = true }) (begins (interval result)) }
    ensures end { Same (ends (interval result)) (record { at = whole (pos last); after = true }) }
{
    let from = after_tick(first);
    let to = after_tick(last);
    Span {
        from: from.time,
        from_in: false,
        to: to.time,
        to_in: true,
    }
}

/// The times between two numbers of ticks.
#[inline(always)]
pub(crate) fn span_between(first: u32, last: u32) -> Span
    requires { first < last }
    ensures begin { Same (record { at = whole (pos first); after = true }) (begins (interval result)) }
    ensures end { Same (ends (interval result)) (record { at = whole (pos last); after = false }) }
{
    let from = after_tick(first);
    let to = before_tick(last);
    Span {
        from: from.time,
        from_in: false,
        to: to.time,
        to_in: false,
    }
}

/// One number of ticks alone.
#[inline(always)]
pub(crate) fn span_at(time: u32) -> Span
    ensures begin { Same (record { at = whole (pos time); after = false }) (begins (interval result)) }
    ensures end { Same (ends (interval result)) (record { at = whole (pos time); after = true }) }
{
    let at = after_tick(time);
    Span {
        from: at.time,
        from_in: true,
        to: at.time,
        to_in: true,
    }
}

/// Puts the one verdict of an atom after the row before, up to the row, onto its edge, and notes its number.
fn put_even(edges: &mut Edges, node: u32, first: &Row, row: &Row, holds: bool) -> Result<(), Memory>
    requires edge { node < length edges.old.edges }
    requires later { first.now.time < row.now.time }
    ensures { (b : Binding) → IsThrough b node first.now row.now holds → OnOk result (HasPutAtom b (Some first.now) row.now node edges.old edges.new) }
{
    let before = first.time();
    let now = row.time();
    let on = span_after(before, now);
    edges.extend(node, Verdict { on, holds })?;
    note(edges, node, now);
    Ok(())
}

/// Puts what an atom says at a row, after what was said up to it, onto its edge, and notes its number.
#[inline(always)]
fn put_last(edges: &mut Edges, node: u32, begun: Out, row: &Row, holds: bool) -> Result<(), Memory>
    requires edge { begun.edge < length edges.old.edges }
    requires own { begun.edge ≡ node }
    requires sound { IsSound begun }
    requires inside { AtMost (place begun.at) (place begun.to) }
    ensures { (b : Binding) (before : Option ARow) (e : Held) → HasBegun b node before row.now e edges.old begun → IsTruthAt b node row.now holds
        → IfSome before (λ r. r.time < row.now.time) → node < length e.edges
        → OnOk result (HasPutAtom b before row.now node e edges.new) }
{
    let end = after_tick(row.time());
    let out = begun.upto(edges, holds, end)?;
    out.finish(edges)?;
    note(edges, node, row.time());
    Ok(())
}

/// Puts an atom's verdict at the first row onto its edge, and notes its number.
#[inline(never)]
fn put_first(edges: &mut Edges, bound: &Bound, node: u32, row: &Row) -> Result<(), Memory>
    requires edge { node < length edges.old.edges }
    requires atom { IsAtomNode bound.now node }
    requires width { length row.now.values ≡ bound.now.width }
    ensures { OnOk result (HasPutAtom bound.now None row.now node edges.old edges.new) }
{
    let from = before_tick(row.time());
    let to = after_tick(row.time());
    let holds = truth_point(bound, node, row).holds();
    put_last(edges, node, Out::new(node, from, to), row, holds)
}

/// Puts an atom's verdicts where its truth may turn over in the gap or at the row, onto its edge, and notes its number.
fn put_turning(
    edges: &mut Edges,
    node: u32,
    first: &Row,
    row: &Row,
    piece: TruthPiece,
    holds: bool,
) -> Result<(), Memory>
    requires edge { node < length edges.old.edges }
    requires later { first.now.time < row.now.time }
    requires on { (b : Binding) × IsTruthOn b node first.now row.now piece }
    ensures { (b : Binding) → IsTruthOn b node first.now row.now piece → IsTruthAt b node row.now holds
        → OnOk result (HasPutAtom b (Some first.now) row.now node edges.old edges.new) }
{
    let begun = say_gap(edges, node, first, row, piece)?;
    put_last(edges, node, begun, row, holds)
}

/// Puts an atom's verdicts after the row before, up to the row, onto its edge, and notes its number.
fn put_next(
    edges: &mut Edges,
    bound: &Bound,
    node: u32,
    first: &Row,
    row: &Row,
) -> Result<(), Memory>
    requires edge { node < length edges.old.edges }
    requires atom { IsAtomNode bound.now node }
    requires first { length first.now.values ≡ bound.now.width }
    requires second { length row.now.values ≡ bound.now.width }
    requires later { first.now.time < row.now.time }
    ensures { OnOk result (HasPutAtom bound.now (Some first.now) row.now node edges.old edges.new) }
{
    let (piece, point) = truth_step(bound, node, first, row);
    let holds = point.holds();
    if is_even(&piece, holds) {
        return put_even(edges, node, first, row, holds);
    }
    put_turning(edges, node, first, row, piece, holds)
}

/// Puts an atom's verdicts up to a row, after the row before where there is one, onto its edge, and notes its number.
fn put_atom(
    edges: &mut Edges,
    bound: &Bound,
    node: u32,
    before: &Option<Row>,
    row: &Row,
) -> Result<(), Memory>
    requires edge { node < length edges.old.edges }
    requires atom { IsAtomNode bound.now node }
    requires first { IfSome before.now (λ r. length r.values ≡ bound.now.width) }
    requires second { length row.now.values ≡ bound.now.width }
    requires later { IfSome before.now (λ r. r.time < row.now.time) }
    ensures { OnOk result (HasPutAtom bound.now before.now row.now node edges.old edges.new) }
{
    match before {
        Some(first) => put_next(edges, bound, node, first, row),
        None => put_first(edges, bound, node, row),
    }
}

/// Puts the verdicts of all atoms.
pub(crate) fn put_atoms(
    edges: &mut Edges,
    operators: &[Option<Operator>],
    bound: &Bound,
    before: &Option<Row>,
    row: &Row,
) -> Result<(), Memory>
    requires edges { length operators.now ≡ length edges.old.edges }
    requires few { length operators.now ≤ 256 }
    requires atoms { (j : ℕ) → slice_get operators.now j ≡ Some None → IsAtomNode bound.now j }
    requires first { IfSome before.now (λ r. length r.values ≡ bound.now.width) }
    requires second { length row.now.values ≡ bound.now.width }
    requires later { IfSome before.now (λ r. r.time < row.now.time) }
    ensures { OnOk result (HasPutAtoms bound.now before.now row.now operators.now (length operators.now) edges.old edges.new) }
{
    for i in 0..operators.len() {
        if operators[i].is_none() {
            put_atom(edges, bound, i as u32, before, row)?;
        }
    }
    Ok(())
}

/// Notes the time of the first row.
fn begin_at(edges: &mut Edges, before: &Option<Row>, row: &Row)
    requires { before.now ≡ None → edges.old.start ≡ None }
    ensures { edges.new ≡ begun edges.old before.now row.now }
{
    match before {
        None => edges.begin(row.time()),
        Some(_) => {}
    }
}

/// Puts all that a row answers at the atoms.
pub(crate) fn put_row(
    edges: &mut Edges,
    operators: &[Option<Operator>],
    bound: &Bound,
    before: &Option<Row>,
    row: &Row,
) -> Result<(), Memory>
    requires edges { length operators.now ≡ length edges.old.edges }
    requires few { length operators.now ≤ 256 }
    requires atoms { (j : ℕ) → slice_get operators.now j ≡ Some None → IsAtomNode bound.now j }
    requires first { IfSome before.now (λ r. length r.values ≡ bound.now.width) }
    requires second { length row.now.values ≡ bound.now.width }
    requires later { IfSome before.now (λ r. r.time < row.now.time) }
    requires start { before.now ≡ None → edges.old.start ≡ None }
    ensures { OnOk result (HasPutAtoms bound.now before.now row.now operators.now (length operators.now) (begun edges.old before.now row.now) edges.new) }
{
    begin_at(edges, before, row);
    put_atoms(edges, operators, bound, before, row)
}
