//! Atoms at rows and on the gaps between rows, without memory.
ghost use Rattle.std.specs.Prelude.{◌≡◌, ◌<◌, ◌≤◌, ◌^◌, pos, length, IsTrue, false};
ghost use Rattle.std.specs.Int.RustNames.{unsigned_abs};
ghost use Rattle.rational.specs.Rational.{Rational};
ghost use Rattle.rational.specs.Extended.{value_at};
ghost use Rattle.rational.specs.Affine.{IsBounded};
ghost use Rattle.value_laws.specs.Margins.{margin_function, margin_base, is_ramp};
ghost use Rattle.stl_syntax.specs.Trace.{row_time};
ghost use Rattle.atom_lines.specs.Binding.{IsAtomNode};
ghost use Rattle.atom_lines.specs.Points.{IsTruthAt, IsTruthOn, IsMarginAt, IsMarginOn};
ghost use Rattle.atom_lines.specs.Sums.{sum_over, reach, IsAtomSound};

use crate::bound::Bound;
use crate::bound_atom::BoundAtom;
use crate::cells::Cells;
use crate::gap::Gap;
use crate::margin::{margin_at, margin_between};
use crate::sum::{reach_of, reaches_from};
use crate::truth::{TruthPiece, truth_at, truth_between, truth_onward};
use trace_reader::Row;
use value_laws::{Margin, Truth};

/// The gap between two rows, where the sum at the first is `from`, and the sum at the second.
#[inline(always)]
pub(crate) fn gap_on<C: Cells>(
    atom: &BoundAtom,
    first: u32,
    from: i64,
    first_row: &C,
    second: u32,
    second_row: &C,
) -> (Gap, i64)
    requires sound { IsAtomSound (length (C.values first_row.now)) atom.now }
    requires width { length (C.values second_row.now) ≡ length (C.values first_row.now) }
    requires later { first < second }
    requires from { from ≡ reach atom.now (C.values first_row.now) (C.values first_row.now) }
    requires small { unsigned_abs (sum_over atom.now.terms.items (C.values first_row.now) (C.values first_row.now)) ≤ 2 ^ 30 }
    ensures first { result.0.first ≡ first }
    ensures from { result.0.from ≡ reach atom.now (C.values first_row.now) (C.values first_row.now) }
    ensures second { result.0.second ≡ second }
    ensures to { result.0.to ≡ reach atom.now (C.values first_row.now) (C.values second_row.now) }
    ensures next { result.1 ≡ reach atom.now (C.values second_row.now) (C.values second_row.now) }
    ensures small_next { unsigned_abs (sum_over atom.now.terms.items (C.values second_row.now) (C.values second_row.now)) ≤ 2 ^ 30 }
{
    let (to, next) = reaches_from(atom, from, first_row, second_row);
    let gap = Gap {
        first,
        from,
        second,
        to,
    };
    (gap, next)
}

/// The atom's truth at a row.
pub fn truth_point(bound: &Bound, node: u32, row: &Row) -> Truth
    requires atom { IsAtomNode bound.now node }
    requires width { length row.now.values ≡ bound.now.width }
    ensures { IsTruthAt bound.now node row.now result.holds }
{
    let atom = bound.atom(node);
    truth_at(atom.rel, reach_of(atom, row, row))
}

/// The atom's margin at a row, in ticks.
pub fn margin_point(bound: &Bound, node: u32, row: &Row) -> Margin
    requires atom { IsAtomNode bound.now node }
    requires width { length row.now.values ≡ bound.now.width }
    ensures margin { IsMarginAt bound.now node row.now (margin_function result) }
    ensures level { is_ramp result ≡ false }
    ensures within { (t : Rational) → IsBounded (2 ^ 31) (value_at (margin_function result) t) }
{
    let atom = bound.atom(node);
    margin_at(atom.rel, reach_of(atom, row, row))
}

/// The gap between two rows.
fn gap_of(atom: &BoundAtom, first: &Row, second: &Row) -> Gap
    requires sound { IsAtomSound (length first.now.values) atom.now }
    requires width { length second.now.values ≡ length first.now.values }
    requires later { first.now.time < second.now.time }
    ensures first { result.first ≡ first.now.time }
    ensures from { result.from ≡ reach atom.now first.now.values first.now.values }
    ensures second { result.second ≡ second.now.time }
    ensures to { result.to ≡ reach atom.now first.now.values second.now.values }
{
    let from = reach_of(atom, first, first);
    let (gap, _next) = gap_on(atom, first.time(), from, first, second.time(), second);
    gap
}

/// The atom's truth on the open gap between two rows, the second right after the first.
///
/// A split comes exactly where the truth turns over inside the gap. Its time is a fraction with a denominator of at most 2^31.
pub fn truth_piece(bound: &Bound, node: u32, first: &Row, second: &Row) -> TruthPiece
    requires atom { IsAtomNode bound.now node }
    requires first { length first.now.values ≡ bound.now.width }
    requires second { length second.now.values ≡ bound.now.width }
    requires later { first.now.time < second.now.time }
    ensures { IsTruthOn bound.now node first.now second.now result }
{
    let atom = bound.atom(node);
    truth_between(atom.rel, &gap_of(atom, first, second))
}

/// The atom's truth on the open gap between two rows, the second right after the first, and at the second row: in one pass over its terms.
#[inline(always)]
pub fn truth_step(bound: &Bound, node: u32, first: &Row, second: &Row) -> (TruthPiece, Truth)
    requires atom { IsAtomNode bound.now node }
    requires first { length first.now.values ≡ bound.now.width }
    requires second { length second.now.values ≡ bound.now.width }
    requires later { first.now.time < second.now.time }
    ensures piece { IsTruthOn bound.now node first.now second.now result.0 }
    ensures point { IsTruthAt bound.now node second.now result.1.holds }
{
    let atom = bound.atom(node);
    let from = reach_of(atom, first, first);
    let (gap, next) = gap_on(atom, first.time(), from, first, second.time(), second);
    truth_onward(atom.rel, &gap, next)
}

/// The atom's margin on the open gap between two rows, the second right after the first, in ticks: a ramp from the time of the
/// first row on, or a constant where it does not change.
pub fn margin_piece(bound: &Bound, node: u32, first: &Row, second: &Row) -> Margin
    requires atom { IsAtomNode bound.now node }
    requires first { length first.now.values ≡ bound.now.width }
    requires second { length second.now.values ≡ bound.now.width }
    requires later { first.now.time < second.now.time }
    ensures margin { IsMarginOn bound.now node first.now second.now (margin_function result) }
    ensures base { IsTrue (is_ramp result) → margin_base result ≡ pos first.now.time }
    ensures from { IsBounded (2 ^ 31) (value_at (margin_function result) (row_time first.now)) }
    ensures to { IsBounded (2 ^ 31) (value_at (margin_function result) (row_time second.now)) }
{
    let atom = bound.atom(node);
    margin_between(atom.rel, &gap_of(atom, first, second))
}
