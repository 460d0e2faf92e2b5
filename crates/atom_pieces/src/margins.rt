//! The margin of an atom as pieces.
ghost use Rattle.std.specs.Prelude.{◌≡◌, ◌<◌, ◌⊎◌, ◌^◌, pos, length, IfOk, OnOk};
ghost use Rattle.rational.specs.Rational.{IsWithin, whole};
ghost use Rattle.rational.specs.Extended.{value_at, ◌≈ᵉ◌};
ghost use Rattle.rational.specs.Places.{Same};
ghost use Rattle.frac128.specs.Value.{value};
ghost use Rattle.value_laws.specs.Kinds.{margin_shape};
ghost use Rattle.value_laws.specs.Margins.{margin_function};
ghost use Rattle.stl_syntax.specs.SupInf.{margins};
ghost use Rattle.atom_lines.specs.Binding.{IsAtomNode};
ghost use Rattle.pieces.specs.Chains.{HasShape, stop};
ghost use Rattle.pieces.specs.Knots.{before};
ghost use Rattle.atom_pieces.specs.AtomChains.{IsAtomChain};
ghost use Rattle.atom_pieces.specs.Growing.{EndsAt};

use crate::rows::{after_row, before_row, begin};
use atom_lines::{Bound, margin_standing, margin_way_from, standing};
use frac128::{Frac, Memory};
use pieces::Pieces;
use std::alloc::Global;
use std::cmp::Ordering;
use trace_reader::Trace;
use value_laws::{Margin, Shape};

/// The shape of the last piece, where it has the value of `point` at the time, and else `point`.
fn shape_at_end(chain: &Pieces<Margin>, point: &Margin, time: &Frac) -> Margin
    requires { IsWithin (2 ^ 34) (value time.now) }
    ensures shape { HasShape chain.now result ⊎ (result ≡ point.now) }
    ensures value { value_at (margin_function result) (value time.now) ≈ᵉ value_at (margin_function point.now) (value time.now) }
{
    let count = chain.len();
    if count == 0 {
        return *point;
    }
    let last = chain.piece(count - 1).shape;
    match Margin::cmp_at(&last, point, time) {
        Ordering::Equal => last,
        _ => *point,
    }
}

/// Goes on to just after the time of the last row, at which the margin is `point`: with the last piece, where that has this value
/// there, so that the time needs no piece of its own.
fn end(chain: &mut Pieces<Margin>, point: &Margin, last: u32) -> Result<(), Memory>
    requires { Same (stop chain.old) (before (whole (pos last))) }
    ensures { OnOk result (EndsAt chain.old point.now last chain.new) }
{
    let until = after_row(last);
    let shape = shape_at_end(chain, point, &until.time);
    chain.put(&until, &shape)
}

/// The pieces of an atom's margin. Each line and each constant ends just before the time of a row.
pub(crate) fn margin_pieces(
    alloc: Global,
    bound: &Bound,
    node: u32,
    trace: &Trace,
) -> Result<Pieces<Margin>, Memory>
    requires atom { IsAtomNode bound.now node }
    requires columns { length trace.now.header.columns ≡ bound.now.width }
    requires some { 0 < length trace.now.rows }
    ensures { IfOk result (IsAtomChain margin_shape margins bound.now node trace.now) }
{
    let last = trace.rows() - 1;
    let (first, _holds) = standing(bound, node, trace, 0);
    let mut sum = first;
    let mut chain = begin(alloc, trace)?;
    let mut at = 0;
    while at < last {
        let way = margin_way_from(bound, node, trace, at, sum);
        chain.put(&before_row(trace.time(way.row)), &way.margin)?;
        sum = way.sum;
        at = way.row;
    }
    let point = margin_standing(bound, node, trace, last);
    end(&mut chain, &point, trace.time(last))?;
    Ok(chain)
}
