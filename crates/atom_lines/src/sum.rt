//! The sum of an atom over the values of one row or of two.
ghost use Rattle.std.specs.Prelude.{◌≡◌, ◌<◌, ◌≤◌, ◌^◌, ◌*ℤ◌, ◌-ℤ◌, [], ◌∷◌, length, nat_abs};
ghost use Rattle.std.specs.Int.RustNames.{unsigned_abs};
ghost use Rattle.atom_lines.specs.Sums.{cell, sum_over, reach, IsAtomSound};

use crate::bound_atom::{BoundAtom, BoundTerm};
use crate::cells::Cells;

/// A step's value in the first row, and a ramp's in the second.
fn cell_of<C: Cells>(term: &BoundTerm, first: &C, second: &C) -> i32
    requires first { term.now.column < length (C.values first.now) }
    requires second { term.now.column < length (C.values second.now) }
    ensures at { result ≡ cell term.now (C.values first.now) (C.values second.now) }
    ensures small { nat_abs result ≤ 16777216 }
{
    if term.step {
        return first.cell(term.column);
    }
    second.cell(term.column)
}

/// A coefficient times a value.
fn product(coef: i32, value: i32) -> i64
    requires coef { nat_abs coef ≤ 16 }
    requires value { nat_abs value ≤ 16777216 }
    ensures value { result ≡ coef *ℤ value }
    ensures small { nat_abs result ≤ 2 ^ 28 }
{
    i64::from(coef) * i64::from(value)
}

/// A term's value, by its cell.
fn term_value<C: Cells>(term: &BoundTerm, first: &C, second: &C) -> i64
    requires coef { nat_abs term.now.coef ≤ 16 }
    requires first { term.now.column < length (C.values first.now) }
    requires second { term.now.column < length (C.values second.now) }
    ensures value { result ≡ term.now.coef *ℤ cell term.now (C.values first.now) (C.values second.now) }
    ensures small { nat_abs result ≤ 2 ^ 28 }
{
    product(term.coef, cell_of(term, first, second))
}

/// The sum of the terms, with steps from the first row and ramps from the second, less the constant. The same row twice gives
/// the sum at that row.
pub(crate) fn reach_of<C: Cells>(atom: &BoundAtom, first: &C, second: &C) -> i64
    requires sound { IsAtomSound (length (C.values first.now)) atom.now }
    requires width { length (C.values second.now) ≡ length (C.values first.now) }
    ensures value { result ≡ reach atom.now (C.values first.now) (C.values second.now) }
    ensures small { unsigned_abs (sum_over atom.now.terms.items (C.values first.now) (C.values second.now)) ≤ 2 ^ 30 }
{
    let mut sum: i64 = 0;
    for term in &atom.terms {
        sum += term_value(term, first, second);
    }
    sum - i64::from(atom.limit)
}

/// A term's value as the gap before the second row ends, and its value at that row: a step changes only there.
fn term_values<C: Cells>(term: &BoundTerm, first: &C, second: &C) -> (i64, i64)
    requires coef { nat_abs term.now.coef ≤ 16 }
    requires first { term.now.column < length (C.values first.now) }
    requires second { term.now.column < length (C.values second.now) }
    ensures to { result.0 ≡ term.now.coef *ℤ cell term.now (C.values first.now) (C.values second.now) }
    ensures next { result.1 ≡ term.now.coef *ℤ cell term.now (C.values second.now) (C.values second.now) }
    ensures small_to { nat_abs result.0 ≤ 2 ^ 28 }
    ensures small_next { nat_abs result.1 ≤ 2 ^ 28 }
{
    let next = product(term.coef, second.cell(term.column));
    if !term.step {
        return (next, next);
    }
    (product(term.coef, first.cell(term.column)), next)
}

/// The sum of the terms as the gap before the second row ends, and that at the second row, each less the constant: both in one pass.
pub(crate) fn reaches_of<C: Cells>(atom: &BoundAtom, first: &C, second: &C) -> (i64, i64)
    requires sound { IsAtomSound (length (C.values first.now)) atom.now }
    requires width { length (C.values second.now) ≡ length (C.values first.now) }
    ensures to { result.0 ≡ reach atom.now (C.values first.now) (C.values second.now) }
    ensures next { result.1 ≡ reach atom.now (C.values second.now) (C.values second.now) }
    ensures small_to { unsigned_abs (sum_over atom.now.terms.items (C.values first.now) (C.values second.now)) ≤ 2 ^ 30 }
    ensures small_next { unsigned_abs (sum_over atom.now.terms.items (C.values second.now) (C.values second.now)) ≤ 2 ^ 30 }
{
    let mut to: i64 = 0;
    let mut next: i64 = 0;
    for term in &atom.terms {
        let (there, here) = term_values(term, first, second);
        to += there;
        next += here;
    }
    (to - i64::from(atom.limit), next - i64::from(atom.limit))
}

/// The one term of an atom.
#[inline(always)]
fn only_term(atom: &BoundAtom) -> &BoundTerm
    requires { length atom.now.terms.items ≡ 1 }
    ensures { atom.now.terms.items ≡ result.now ∷ [] }
{
    &atom.terms[0]
}

/// A coefficient times a value, less the constant.
#[inline(always)]
fn above_limit(coef: i32, value: i32, limit: i32) -> i64
    requires coef { nat_abs coef ≤ 16 }
    requires value { nat_abs value ≤ 16777216 }
    requires limit { nat_abs limit ≤ 1073741824 }
    ensures value { result ≡ coef *ℤ value -ℤ limit }
    ensures small { nat_abs (coef *ℤ value) ≤ 2 ^ 28 }
{
    product(coef, value) - i64::from(limit)
}

/// The sum at a row, as `reach_of` has it of the same row twice.
#[inline(always)]
pub(crate) fn reach_here<C: Cells>(atom: &BoundAtom, row: &C) -> i64
    requires sound { IsAtomSound (length (C.values row.now)) atom.now }
    ensures value { result ≡ reach atom.now (C.values row.now) (C.values row.now) }
    ensures small { unsigned_abs (sum_over atom.now.terms.items (C.values row.now) (C.values row.now)) ≤ 2 ^ 30 }
{
    if atom.terms.len() != 1 {
        return reach_of(atom, row, row);
    }
    let term = only_term(atom);
    above_limit(term.coef, row.cell(term.column), atom.limit)
}

/// The sums of `reaches_of`, where that at the first row is `from`: one term that is a step keeps it up to the second row, and one that is
/// a ramp comes to what it is there.
#[inline(always)]
pub(crate) fn reaches_from<C: Cells>(
    atom: &BoundAtom,
    from: i64,
    first: &C,
    second: &C,
) -> (i64, i64)
    requires sound { IsAtomSound (length (C.values first.now)) atom.now }
    requires width { length (C.values second.now) ≡ length (C.values first.now) }
    requires from { from ≡ reach atom.now (C.values first.now) (C.values first.now) }
    requires small { unsigned_abs (sum_over atom.now.terms.items (C.values first.now) (C.values first.now)) ≤ 2 ^ 30 }
    ensures to { result.0 ≡ reach atom.now (C.values first.now) (C.values second.now) }
    ensures next { result.1 ≡ reach atom.now (C.values second.now) (C.values second.now) }
    ensures small_to { unsigned_abs (sum_over atom.now.terms.items (C.values first.now) (C.values second.now)) ≤ 2 ^ 30 }
    ensures small_next { unsigned_abs (sum_over atom.now.terms.items (C.values second.now) (C.values second.now)) ≤ 2 ^ 30 }
{
    if atom.terms.len() != 1 {
        return reaches_of(atom, first, second);
    }
    let term = only_term(atom);
    let next = above_limit(term.coef, second.cell(term.column), atom.limit);
    if term.step {
        return (from, next);
    }
    (next, next)
}
