//! What a row adds to the two sets of an atom.
ghost use Rattle.std.specs.Prelude.{◌≡◌, ◌<◌, ◌⊎◌, IfOk, OnOk, IfSome, Option, length, pos, true, false};
ghost use Rattle.rational.specs.Rational.{whole};
ghost use Rattle.rational.specs.Time.{Rational, ◌≤ʳ◌};
ghost use Rattle.stl_syntax.specs.Trace.{Row as ARow, Trace, row_time, start};
ghost use Rattle.stl_syntax.specs.Truth.{holds_at};
ghost use Rattle.stl_syntax.specs.declared.atom.Atom.{Atom};
ghost use Rattle.atom_lines.specs.Binding.{AreNeighbours, IsAtomNode, IsFor};
ghost use Rattle.atom_lines.specs.Pieces.{TellsGap};
ghost use Rattle.atom_lines.specs.Points.{IsTruthAt};
ghost use Rattle.early_verdict.specs.Adding.{AddsOnce, AfterRow, BetweenRows, HasAdded, HasGrown, HasRested, IsNextRow, Piece, Turns, before_row};
ghost use Rattle.rational.specs.Places.{Same};
ghost use Rattle.frac128.specs.Cuts.{place};
ghost use Rattle.growing_sets.specs.Spans.{Lies};
ghost use Rattle.early_verdict.specs.Fitting.{AreSetsTidy, AtomFits, HasStepped};
ghost use Rattle.early_verdict.specs.Happening.{Was};
ghost use Rattle.early_verdict.specs.Living.{HasShown};
ghost use Rattle.early_verdict.specs.BlockRows.{own_row, previous_row};

use crate::block_row::BlockRow;
use crate::sets::Sets;
use atom_lines::{Bound, TruthPiece};
use frac128::{Cut, Memory};

/// Just before a time in ticks.
pub(crate) fn before_tick(n: u32) -> Cut
    ensures { Same (place result) (record { at = whole (pos n); after = false }) }
{
    Cut::before_whole(i64::from(n))
}

/// Just after a time in ticks.
pub(crate) fn after_tick(n: u32) -> Cut
    ensures { Same (place result) (record { at = whole (pos n); after = true }) }
{
    Cut::after_whole(i64::from(n))
}

/// Adds the times between two places, at which the atom has that truth.
fn add_truth(own: &mut Sets, holds: bool, from: Cut, to: Cut) -> Result<(), Memory>
    requires { AreSetsTidy own.old }
    ensures { OnOk result (HasAdded own.old own.new (Piece holds (place from) (place to))) }
{
    if holds {
        own.yes.add(from, to)?;
        return Ok(());
    }
    own.no.add(from, to)?;
    Ok(())
}

/// A truth whose times from a place on are not added yet.
#[derive(Clone, Copy)]
pub(crate) struct Pending {
    holds: bool,
    from: Cut,
}

/// From the place on the truth is `holds`. Where it turns over there, its times up to the place are added.
fn turn(own: &mut Sets, pending: Pending, holds: bool, at: Cut) -> Result<Pending, Memory>
    requires { AreSetsTidy own.old }
    ensures { IfOk result (Turns pending holds (place at) own.old own.new) }
{
    if pending.holds == holds {
        return Ok(pending);
    }
    add_truth(own, pending.holds, pending.from, at)?;
    Ok(Pending { holds, from: at })
}

/// The truth with which a gap between two rows ends, on which the atom is as the piece says. Its times before that are added.
fn through_gap(own: &mut Sets, first: u32, piece: &TruthPiece) -> Result<Pending, Memory>
    requires own { AreSetsTidy own.old }
    ensures grown { OnOk result (HasGrown own.old own.new) }
    ensures added { IfOk result (λ pending. (a : Atom) (tr : Trace) (q r : ARow) → first ≡ q.time → q.time < r.time
        → TellsGap (row_time q) (row_time r) (holds_at a tr) piece.now → AddsOnce pending (before_row r) (BetweenRows a tr q r) own.old own.new) }
{
    let from = after_tick(first);
    match piece {
        TruthPiece::Whole(truth) => Ok(Pending {
            holds: truth.holds(),
            from,
        }),
        TruthPiece::Split {
            before,
            at,
            point,
            after,
        } => {
            let begun = Pending {
                holds: before.holds(),
                from,
            };
            let there = turn(own, begun, point.holds(), Cut { time: *at, side: 0 })?;
            turn(own, there, after.holds(), Cut { time: *at, side: 1 })
        }
    }
}

/// Forgets what the sets gained.
pub(crate) fn rest(own: &mut Sets)
    requires { AreSetsTidy own.old }
    ensures { HasRested own.old own.new }
{
    own.yes.rest();
    own.no.rest();
}

/// The truth at a row, from the place on from which it is so. The times after the row before up to there are added.
fn up_to_row(own: &mut Sets, bound: &Bound, node: u32, next: &BlockRow) -> Result<Pending, Memory>
    requires own { AreSetsTidy own.old }
    requires atom { IsAtomNode bound.now node }
    requires columns { length next.now.block.now.header.columns ≡ bound.now.width }
    ensures grown { OnOk result (HasGrown own.old own.new) }
    ensures holds { IfOk result (λ pending. IsTruthAt bound.now node (own_row next.now) pending.holds) }
    ensures added { IfOk result (λ pending. (a : Atom) (tr : Trace) → IsFor bound.now node a tr
        → IfSome (previous_row next.now) (λ q. AreNeighbours tr q (own_row next.now))
        → AddsOnce pending (before_row (own_row next.now)) (AfterRow a tr (previous_row next.now) (own_row next.now)) own.old own.new) }
{
    let at = before_tick(next.time());
    if next.is_first() {
        return Ok(Pending {
            holds: next.truth(bound, node).holds(),
            from: at,
        });
    }
    let (piece, there) = next.truth_since(bound, node);
    let pending = through_gap(own, next.time_before(), &piece)?;
    turn(own, pending, there.holds(), at)
}

/// Adds the times after the row before, up to the row.
pub(crate) fn step_atom(
    own: &mut Sets,
    bound: &Bound,
    node: u32,
    next: &BlockRow,
) -> Result<(), Memory>
    requires own { AreSetsTidy own.old }
    requires atom { IsAtomNode bound.now node }
    requires columns { length next.now.block.now.header.columns ≡ bound.now.width }
    ensures stepped { OnOk result (HasStepped own.old own.new) }
    ensures shown { OnOk result (HasShown own.old own.new own.new) }
    ensures fits { OnOk result ((a : Atom) (old : Option Trace) (tr : Trace) → IsFor bound.now node a tr
        → IsNextRow a old tr (previous_row next.now) (own_row next.now)
        → ((t : Rational) → Lies own.old.yes.bounds t ⊎ Lies own.old.no.bounds t → start tr ≤ʳ t)
        → Was old (λ o. AtomFits a o) own.old → AtomFits a tr own.new) }
{
    rest(own);
    let pending = up_to_row(own, bound, node, next)?;
    add_truth(own, pending.holds, pending.from, after_tick(next.time()))?;
    Ok(())
}
