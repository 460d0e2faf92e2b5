//! The set of an atom, row by row.
ghost use Rattle.std.specs.Prelude.{◌≡◌, ◌<◌, ◌-◌, ℕ, List, pos, length, MatchOption, OnOk};
ghost use Rattle.rational.specs.Time.{whole};
ghost use Rattle.rational.specs.Places.{Same};
ghost use Rattle.time_sets.specs.Sets.{EndBefore, Rise};
ghost use Rattle.time_sets.specs.Turns.{place};
ghost use Rattle.time_sets.specs.Windows.{IsNear};
ghost use Rattle.stl_syntax.specs.Trace.{Header, Row};
ghost use Rattle.atom_lines.specs.Binding.{IsAtomNode};
ghost use Rattle.atom_lines.specs.Legs.{TurnsOver, turning_place};
ghost use Rattle.atom_lines.specs.Rows.{row_of};
ghost use Rattle.truth_sets.specs.Growing.{BendsAt, GoesAlong, IsTail, IsTidy, JumpsAt, before_row};
ghost use Rattle.truth_sets.specs.Rows.{HasGrown};

use atom_lines::{Bound, Leg, Turning, leg_from, standing};
use frac128::Memory;
use std::alloc::Global;
use time_sets::{Times, Turn};
use trace_reader::Trace;

/// The set of a node's times; of an atom that of the rows so far, with how far its sum lies above its constant at the last of them.
#[derive(Drop)]
pub struct NodeSet {
    pub(crate) sum: i64,
    pub(crate) times: Times,
}

/// Just before the time of a row, or just after it.
#[inline(always)]
pub(crate) fn row_turn(time: u32, after: bool) -> Turn
    ensures place { Same (place result) (record { at = whole (pos time); after = after }) }
    ensures near { IsNear result }
{
    Turn::at_tick(i64::from(time), after)
}

/// The place of a turning.
#[inline(always)]
fn turn_of(x: &Turning) -> Turn
    ensures { Same (place result) (turning_place x.now) }
{
    Turn::mixed(i64::from(x.at.floor), x.at.rest, x.at.den, x.after)
}

/// Goes on over the gap behind a row, on which the truth may turn once.
#[inline(always)]
fn bend(times: &mut Times, turn: &Option<Turning>) -> Result<(), Memory>
    requires rise { Rise times.old.turns.items }
    requires last { MatchOption turn.now (Unit {0}) (λ x. EndBefore (turning_place x) times.old.turns.items) }
    ensures { OnOk result (BendsAt turn.now times.old times.new) }
{
    match turn {
        None => Ok(()),
        Some(x) => times.turn(turn_of(x)),
    }
}

/// Goes on to the row at `second`, at which the truth may jump.
#[inline(always)]
fn jump(times: &mut Times, second: u32, jumps: bool) -> Result<(), Memory>
    requires rise { Rise times.old.turns.items }
    requires last { EndBefore (before_row second) times.old.turns.items }
    ensures { OnOk result (JumpsAt second jumps times.old times.new) }
{
    if !jumps {
        return Ok(());
    }
    times.turn(row_turn(second, false))
}

/// Goes on over a leg, which ends with the row at `second`.
#[inline(always)]
fn go_along(times: &mut Times, second: u32, leg: &Leg) -> Result<(), Memory>
    requires { (from first : ℕ) × IsTidy from first times.old × (first < second) × TurnsOver (whole (pos first)) (whole (pos second)) leg.now.turn }
    ensures { OnOk result (GoesAlong second leg.now times.old times.new) }
{
    bend(times, &leg.turn)?;
    jump(times, second, leg.jumps)
}

/// Begins the set of the atom at a node with the first row of a trace.
pub(crate) fn begin(alloc: Global, set: &mut NodeSet, bound: &Bound, node: u32, trace: &Trace)
    requires atom { IsAtomNode bound.now node }
    requires columns { length trace.now.header.columns ≡ bound.now.width }
    requires some { 0 < length trace.now.rows }
    ensures { HasGrown bound.now node trace.now.header trace.now.rows (row_of trace.now 0) set.new }
{
    let (sum, holds) = standing(bound, node, trace, 0);
    set.sum = sum;
    set.times = Times::constant(alloc, holds);
}

/// Lets the set of the atom at a node grow from the first row of a trace to the last.
pub(crate) fn grow(set: &mut NodeSet, bound: &Bound, node: u32, trace: &Trace) -> Result<(), Memory>
    requires atom { IsAtomNode bound.now node }
    requires columns { length trace.now.header.columns ≡ bound.now.width }
    requires some { 0 < length trace.now.rows }
    requires grown { (header : Header) × (rows : List Row) × IsTail trace.now header rows × HasGrown bound.now node header rows (row_of trace.now 0) set.old }
    ensures { OnOk result ((header : Header) (rows : List Row) → IsTail trace.now header rows
        → HasGrown bound.now node header rows (row_of trace.now 0) set.old
        → HasGrown bound.now node header rows (row_of trace.now (length trace.now.rows - 1)) set.new) }
{
    let last = trace.rows() - 1;
    let mut at = 0;
    while at < last {
        let leg = leg_from(bound, node, trace, at, last, set.sum);
        go_along(&mut set.times, trace.time(leg.row), &leg)?;
        set.sum = leg.sum;
        at = leg.row;
    }
    Ok(())
}
