//! The truth of an atom as pieces.
ghost use Rattle.std.specs.Prelude.{◌≡◌, ◌<◌, ◌^◌, ℕ, pos, length, IfOk, OnOk};
ghost use Rattle.rational.specs.Rational.{IsWithin, whole};
ghost use Rattle.rational.specs.Places.{Before, Same};
ghost use Rattle.frac128.specs.Cuts.{place};
ghost use Rattle.value_laws.specs.Kinds.{truth_shape};
ghost use Rattle.stl_syntax.specs.SupInf.{truths};
ghost use Rattle.atom_lines.specs.Binding.{IsAtomNode};
ghost use Rattle.atom_lines.specs.Passages.{TurnsInside, crossing_time};
ghost use Rattle.pieces.specs.Chains.{stop};
ghost use Rattle.pieces.specs.Knots.{after};
ghost use Rattle.atom_pieces.specs.AtomChains.{IsAtomChain};
ghost use Rattle.atom_pieces.specs.Growing.{Follows, GoesOver, TurnsTo};

use crate::rows::{after_row, before_row, begin};
use atom_lines::{Bound, Crossing, Passage, standing, way_from};
use frac128::{Cut, Frac, Memory};
use pieces::Pieces;
use std::alloc::Global;
use trace_reader::Trace;
use value_laws::Truth;

/// Just before a crossing, or just after it.
#[inline(always)]
fn crossing(at: &Crossing, behind: bool) -> Cut
    ensures { Same (place result) (record { at = crossing_time at.now; after = behind }) }
{
    Cut {
        time: Frac::mixed(i64::from(at.floor), u64::from(at.rest), u64::from(at.den)),
        side: u64::from(behind),
    }
}

/// Up to a place the truth is `holds`, and from there on `next`: where they differ, the pieces go on to the place.
fn turn(chain: &mut Pieces<Truth>, holds: bool, at: &Cut, next: bool) -> Result<(), Memory>
    requires limited { IsWithin (2 ^ 34) (stop chain.old).at }
    requires later { Before (stop chain.old) (place at.now) }
    ensures { OnOk result (TurnsTo chain.old holds at.now next chain.new) }
{
    if holds == next {
        return Ok(());
    }
    chain.put(at, &Truth::of(holds))
}

/// Goes on over the gap behind the row at `first`, where the truth is `holds`. The answer is the truth with which the gap ends.
fn go_over(
    chain: &mut Pieces<Truth>,
    holds: bool,
    first: u32,
    passage: &Passage,
) -> Result<bool, Memory>
    requires limited { IsWithin (2 ^ 34) (stop chain.old).at }
    requires later { Before (stop chain.old) (after (whole (pos first))) }
    requires inside { (to : ℕ) × TurnsInside (whole (pos first)) (whole (pos to)) passage.now }
    ensures { IfOk result (GoesOver first passage.now chain.old holds chain.new) }
{
    let here = after_row(first);
    match passage {
        Passage::Steady(next) => {
            turn(chain, holds, &here, *next)?;
            Ok(*next)
        }
        Passage::Turns { before, at, after } => {
            turn(chain, holds, &here, *before)?;
            turn(chain, *before, &crossing(at, *after), !*before)?;
            Ok(!*before)
        }
    }
}

/// Goes on over the gap between the rows at `first` and `second`. At the first the truth is `holds`, and at the second `last`.
fn follow(
    chain: &mut Pieces<Truth>,
    holds: bool,
    first: u32,
    second: u32,
    passage: &Passage,
    last: bool,
) -> Result<(), Memory>
    requires order { first < second }
    requires limited { IsWithin (2 ^ 34) (stop chain.old).at }
    requires later { Before (stop chain.old) (after (whole (pos first))) }
    requires inside { TurnsInside (whole (pos first)) (whole (pos second)) passage.now }
    ensures { OnOk result (Follows first second passage.now chain.old holds last chain.new) }
{
    let over = go_over(chain, holds, first, passage)?;
    turn(chain, over, &before_row(second), last)
}

/// The pieces of an atom's truth. Each of them ends where the truth turns over, and the last one just after the last row's time.
pub(crate) fn truth_pieces(
    alloc: Global,
    bound: &Bound,
    node: u32,
    trace: &Trace,
) -> Result<Pieces<Truth>, Memory>
    requires atom { IsAtomNode bound.now node }
    requires columns { length trace.now.header.columns ≡ bound.now.width }
    requires some { 0 < length trace.now.rows }
    ensures { IfOk result (IsAtomChain truth_shape truths bound.now node trace.now) }
{
    let last = trace.rows() - 1;
    let (first, begins) = standing(bound, node, trace, 0);
    let mut sum = first;
    let mut holds = begins;
    let mut chain = begin(alloc, trace)?;
    let mut at = 0;
    while at < last {
        let way = way_from(bound, node, trace, at, last, sum);
        follow(
            &mut chain,
            holds,
            trace.time(way.row - 1),
            trace.time(way.row),
            &way.passage,
            way.last,
        )?;
        sum = way.sum;
        holds = way.last;
        at = way.row;
    }
    chain.put(&after_row(trace.time(last)), &Truth::of(holds))?;
    Ok(chain)
}
