//! How an atom's margin goes over the rows of a trace.
ghost use Rattle.std.specs.Prelude.{◌≡◌, ◌<◌, ◌+◌, ◌^◌, length, false, IfSome};
ghost use Rattle.rational.specs.Rational.{Rational, ◌≈◌};
ghost use Rattle.rational.specs.Extended.{finite, value_at, ◌≈ᵉ◌};
ghost use Rattle.rational.specs.Affine.{IsBounded};
ghost use Rattle.value_laws.specs.Margins.{is_ramp, margin_function};
ghost use Rattle.stl_syntax.specs.Trace.{Trace as Recorded, row_time};
ghost use Rattle.stl_syntax.specs.Truth.{expression};
ghost use Rattle.stl_syntax.specs.SupInf.{margin};
ghost use Rattle.stl_syntax.specs.declared.atom.Atom.{Atom};
ghost use Rattle.atom_lines.specs.Binding.{IsAtomNode, IsFor};
ghost use Rattle.atom_lines.specs.Growing.{IsReach, IsReachAt};
ghost use Rattle.atom_lines.specs.MarginWays.{IsMarginWay};
ghost use Rattle.atom_lines.specs.Passages.{HasBlock};
ghost use Rattle.atom_lines.specs.Rows.{row_of};
ghost use Rattle.atom_lines.specs.Steps.{IsLevelStep};
ghost use Rattle.atom_lines.specs.Sums.{IsAtomSound};

use crate::bound::Bound;
use crate::bound_atom::BoundAtom;
use crate::cells::row_at;
use crate::margin::{margin_at, margin_between};
use crate::passage::MarginWay;
use crate::sum::reach_of;
use crate::way::step_from;
use trace_reader::Trace;
use value_laws::Margin;

/// The sum at the row after row `at`, where it is still `from` at row `at` and stays so over the gap behind it. None at the last row.
#[inline(always)]
fn stays_on(
    atom: &BoundAtom,
    trace: &Trace,
    at: usize,
    last: usize,
    from: i64,
    sum: i64,
) -> Option<i64>
    requires sound { IsAtomSound (length trace.now.header.columns) atom.now }
    requires within { last < length trace.now.rows }
    requires sum { IsReach atom.now trace.now at sum }
    ensures { IfSome result (λ next. (at < last) × (sum ≡ from) × IsLevelStep atom.now trace.now at next) }
{
    if at >= last {
        return None;
    }
    if sum != from {
        return None;
    }
    let step = step_from(atom, trace, at, at + 1, sum);
    if step.gap.to != step.gap.from {
        return None;
    }
    Some(step.next)
}

/// How the atom's margin goes from row `r` on, where its sum is `from`: along the gap behind the row, or as a constant up to the first row
/// at which it is another one, or behind which it moves, or to the last row.
#[inline(always)]
pub fn margin_way_from(bound: &Bound, node: u32, trace: &Trace, r: usize, from: i64) -> MarginWay
    requires atom { IsAtomNode bound.now node }
    requires columns { length trace.now.header.columns ≡ bound.now.width }
    requires within { r + 1 < length trace.now.rows }
    requires from { IsReachAt bound.now node trace.now r from }
    ensures { IsMarginWay bound.now node trace.now r result }
{
    let atom = bound.atom(node);
    let last = trace.rows() - 1;
    let step = step_from(atom, trace, r, r + 1, from);
    if step.gap.to != step.gap.from {
        return MarginWay {
            row: r + 1,
            sum: step.next,
            margin: margin_between(atom.rel, &step.gap),
        };
    }
    let mut at = r + 1;
    let mut sum = step.next;
    while let Some(next) = stays_on(atom, trace, at, last, from, sum) {
        at += 1;
        sum = next;
    }
    MarginWay {
        row: at,
        sum,
        margin: margin_at(atom.rel, from),
    }
}

/// By how much an atom holds at a row, in ticks.
pub fn margin_standing(bound: &Bound, node: u32, trace: &Trace, r: usize) -> Margin
    requires atom { IsAtomNode bound.now node }
    requires columns { length trace.now.header.columns ≡ bound.now.width }
    requires within { r < length trace.now.rows }
    ensures margin { (a : Atom) (tr : Recorded) (t : Rational) → IsFor bound.now node a tr → HasBlock tr trace.now → t ≈ row_time (row_of trace.now r)
        → value_at (margin_function result) t ≈ᵉ finite (margin a.rel (expression a tr t)) }
    ensures level { is_ramp result ≡ false }
    ensures within { (t : Rational) → IsBounded (2 ^ 31) (value_at (margin_function result) t) }
{
    let atom = bound.atom(node);
    let row = row_at(trace, r);
    margin_at(atom.rel, reach_of(atom, &row, &row))
}
