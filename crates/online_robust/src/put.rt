//! What a node puts onto its edge: the parts of a signal, and those of a constant or an atom at a row.
ghost use Rattle.std.specs.Prelude.{◌≡◌, ◌<◌, ◌∷◌, ◌++◌, [], length, false, true, OnOk, IfSome};
ghost use Rattle.rational.specs.Rational.{◌≈◌};
ghost use Rattle.frac128.specs.Value.{value};
ghost use Rattle.stl_syntax.specs.Trace.{row_time};
ghost use Rattle.atom_lines.specs.Binding.{IsAtomNode};
ghost use Rattle.online_robust.specs.declared.line.MarginLine.TheVariants as Part;
ghost use Rattle.online_robust.specs.Putting.{constant_margin, HasPut, HasPutAtom, HasPutRow, IsAtomPiece};

use crate::edges::Edges;
use crate::line::MarginLine;
use atom_lines::{Bound, margin_piece, margin_point};
use frac128::{Frac, Memory};
use trace_reader::Row;
use value_laws::Margin;

/// Puts a point.
#[inline(always)]
pub(crate) fn put_point(edges: &mut Edges, node: u32, at: Frac, value: Margin) -> Result<(), Memory>
    requires { node < length edges.old.edges }
    ensures { OnOk result (HasPut node (Part.Point at value ∷ []) edges.old edges.new) }
{
    edges.put(node, MarginLine::Point { at, value })
}

/// Puts a gap and the point that ends it.
#[inline(always)]
pub(crate) fn put_pair(
    edges: &mut Edges,
    node: u32,
    from: &Frac,
    piece: &Margin,
    at: &Frac,
    value: &Margin,
) -> Result<(), Memory>
    requires { node < length edges.old.edges }
    ensures { OnOk result (HasPut node (Part.Gap from.now at.now piece.now ∷ Part.Point at.now value.now ∷ []) edges.old edges.new) }
{
    let gap = MarginLine::Gap {
        from: *from,
        to: *at,
        piece: *piece,
    };
    edges.put(node, gap)?;
    put_point(edges, node, *at, *value)
}

/// The time of a row.
fn time_of(row: &Row) -> Frac
    ensures { value result ≈ row_time row.now }
{
    Frac::of(i64::from(row.time()))
}

/// Puts what a leaf gives out at a row: the gap since the row before, if there is one, and the point.
#[inline(always)]
fn put_row(
    edges: &mut Edges,
    node: u32,
    before: &Option<Row>,
    row: &Row,
    piece: Margin,
    value: Margin,
) -> Result<(), Memory>
    requires { node < length edges.old.edges }
    ensures { OnOk result (HasPutRow node before.now row.now piece value edges.old edges.new) }
{
    let at = time_of(row);
    match before {
        Some(first) => {
            let from = time_of(first);
            put_pair(edges, node, &from, &piece, &at, &value)
        }
        None => put_point(edges, node, at, value),
    }
}

/// An atom's margin since the row before.
fn piece_of(bound: &Bound, node: u32, before: &Option<Row>, row: &Row) -> Margin
    requires atom { IsAtomNode bound.now node }
    requires first { IfSome before.now (λ r. length r.values ≡ bound.now.width) }
    requires second { length row.now.values ≡ bound.now.width }
    requires later { IfSome before.now (λ r. r.time < row.now.time) }
    ensures { IsAtomPiece bound.now node before.now row.now result }
{
    match before {
        Some(first) => margin_piece(bound, node, first, row),
        None => Margin::Low,
    }
}

/// Puts what an atom gives out at a row.
pub(crate) fn put_atom(
    edges: &mut Edges,
    node: u32,
    bound: &Bound,
    before: &Option<Row>,
    row: &Row,
) -> Result<(), Memory>
    requires edge { node < length edges.old.edges }
    requires atom { IsAtomNode bound.now node }
    requires first { IfSome before.now (λ r. length r.values ≡ bound.now.width) }
    requires second { length row.now.values ≡ bound.now.width }
    requires later { IfSome before.now (λ r. r.time < row.now.time) }
    ensures { OnOk result (HasPutAtom bound.now node before.now row.now edges.old edges.new) }
{
    let piece = piece_of(bound, node, before, row);
    let value = margin_point(bound, node, row);
    put_row(edges, node, before, row, piece, value)
}

/// The margin of a constant.
fn constant(holds: bool) -> Margin
    ensures { result ≡ constant_margin holds }
{
    if holds { Margin::High } else { Margin::Low }
}

/// Puts what a constant gives out at a row.
pub(crate) fn put_const(
    edges: &mut Edges,
    node: u32,
    holds: bool,
    before: &Option<Row>,
    row: &Row,
) -> Result<(), Memory>
    requires { node < length edges.old.edges }
    ensures { OnOk result (HasPutRow node before.now row.now (constant_margin holds) (constant_margin holds) edges.old edges.new) }
{
    let value = constant(holds);
    put_row(edges, node, before, row, value, value)
}
