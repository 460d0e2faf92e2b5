//! How an atom's truth goes over the rows of a trace, by where it turns.
ghost use Rattle.std.specs.Prelude.{◌≡◌, ◌<◌, ◌≤◌, ◌+◌, ℕ, Some, pos, true, length, nat_abs, slice_get};
ghost use Rattle.rational.specs.Rational.{whole};
ghost use Rattle.rational.specs.Line.{at};
ghost use Rattle.rational.specs.Places.{Same};
ghost use Rattle.stl_syntax.specs.Trace.{Trace as Recorded};
ghost use Rattle.stl_syntax.specs.Truth.{compares};
ghost use Rattle.atom_lines.specs.Binding.{Binding, IsAtomNode};
ghost use Rattle.atom_lines.specs.Gaps.{along};
ghost use Rattle.atom_lines.specs.Growing.{IsReachAt};
ghost use Rattle.atom_lines.specs.Legs.{BendsSo, IsLeg, TurnsOver, turning_place};
ghost use Rattle.atom_lines.specs.Steps.{StaysTo};

use crate::bound::Bound;
use crate::bound_atom::BoundAtom;
use crate::gap::Gap;
use crate::passage::{Crossing, Leg, Turning};
use crate::truth::{changes_sign, truth_at};
use crate::way::{Stay, stay_from, stay_of_one, turning};
use stl_syntax::Rel;
use trace_reader::Trace;

/// Right behind a whole time.
#[inline(always)]
fn right_behind(time: u32) -> Turning
    ensures { Same (turning_place result) (record { at = whole (pos time); after = true }) }
{
    Turning {
        at: Crossing {
            floor: time,
            rest: 0,
            den: 1,
        },
        after: true,
    }
}

/// Where a comparison turns on the open gap, or right behind its begin. A sum that comes to 0 at the gap's end alone turns nothing before it.
#[inline(always)]
fn turn_over(rel: Rel, gap: &Gap) -> Option<Turning>
    ensures inside { TurnsOver (whole (pos gap.now.first)) (whole (pos gap.now.second)) result }
    ensures bends { BendsSo (whole (pos gap.now.first)) (whole (pos gap.now.second)) (λ t. compares rel (at (along gap.now) t))
        (compares rel (whole gap.now.from)) result }
{
    let before = truth_at(rel, gap.from).holds();
    if truth_at(rel, gap.to).holds() == before {
        return None;
    }
    if changes_sign(gap) {
        let point = truth_at(rel, 0).holds();
        return Some(Turning {
            at: turning(gap),
            after: point == before,
        });
    }
    if gap.from == 0 {
        return Some(right_behind(gap.first));
    }
    None
}

/// The leg up to a row and over the step behind it, to the row `next`.
#[inline(always)]
fn leg_over(atom: &BoundAtom, stay: &Stay, next: usize) -> Leg
    requires { next ≡ stay.now.at + 1 }
    ensures leg { (b : Binding) (i : ℕ) (block : Recorded) (r last : ℕ) → slice_get b.atoms i ≡ Some (Some atom.now)
        → nat_abs atom.now.limit ≤ 1073741824
        → StaysTo atom.now block r last stay.now.at stay.now.step.gap stay.now.step.next → IsLeg b i block r result }
    ensures row { result.row ≡ next }
{
    let before = truth_at(atom.rel, stay.step.gap.from).holds();
    let there = truth_at(atom.rel, stay.step.next).holds();
    // Both cases are told whole, so that a leg without a turning goes by with no look at one.
    let Some(turn) = turn_over(atom.rel, &stay.step.gap) else {
        return Leg {
            row: next,
            sum: stay.step.next,
            turn: None,
            jumps: there != before,
        };
    };
    let over = !before;
    Leg {
        row: next,
        sum: stay.step.next,
        turn: Some(turn),
        jumps: there != over,
    }
}

/// How the atom's truth goes from row `r` on, where its sum is `from`: to the first row with a gap before it over which it may turn, or to the
/// row `last`.
#[inline(always)]
pub fn leg_from(bound: &Bound, node: u32, trace: &Trace, r: usize, last: usize, from: i64) -> Leg
    requires atom { IsAtomNode bound.now node }
    requires columns { length trace.now.header.columns ≡ bound.now.width }
    requires before { r < last }
    requires within { last < length trace.now.rows }
    requires from { IsReachAt bound.now node trace.now r from }
    ensures leg { IsLeg bound.now node trace.now r result }
    ensures last { result.row ≤ last }
{
    let atom = bound.atom(node);
    // Nearly all atoms have one term, and the rows over which such a one stays are the most of a check.
    if atom.terms.len() == 1 {
        let stay = stay_of_one(atom, trace, r, last, from);
        return leg_over(atom, &stay, stay.at + 1);
    }
    let stay = stay_from(atom, trace, r, last, from);
    leg_over(atom, &stay, stay.at + 1)
}
