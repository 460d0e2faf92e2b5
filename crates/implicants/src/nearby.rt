//! Chains of few pieces that are no less certain than a node: the best but in some runs, in which the node is less.
ghost use Rattle.std.specs.Prelude.{◌≡◌, ◌<◌, ◌≤◌, ◌^◌, pos, false, List, Some, length, slice_get, IsTrue, IfOk, OnOk};
ghost use Rattle.rational.specs.Rational.{IsWithin};
ghost use Rattle.rational.specs.Time.{Rational, whole};
ghost use Rattle.rational.specs.Extended.{Extended, Passes};
ghost use Rattle.rational.specs.Places.{Same};
ghost use Rattle.frac128.specs.Cuts.{place};
ghost use Rattle.pieces.specs.Chains.{stop};
ghost use Rattle.pieces.specs.Knots.{after};
ghost use Rattle.implicants.specs.declared.runs.Run.{Run as ARun};
ghost use Rattle.implicants.specs.Nearby.{CountsFor, GoesUpTo, IsBest, IsBestChain, IsBestSoFar};

use crate::runs::Run;
use crate::trace_ends::tick;
use frac128::{Cut, Memory};
use pieces::Pieces;
use std::alloc::Global;
use value_laws::{Kleene, Shape};

/// The node whose chain is made, which certainty of it is the best, and the ends of the trace in ticks.
#[derive(Clone, Copy)]
pub(crate) struct View {
    pub(crate) of: u32,
    pub(crate) best: bool,
    pub(crate) first: u32,
    pub(crate) last: u32,
}

/// Which runs a chain is made of, by their places: of those from `from` up to `to` all before `dense`, those from `low` up to `high`,
/// which lie about what is lost, and the one on either side of these.
#[derive(Clone, Copy)]
pub(crate) struct Pick {
    pub(crate) from: usize,
    pub(crate) dense: usize,
    pub(crate) low: usize,
    pub(crate) high: usize,
    pub(crate) to: usize,
}

/// Picks every one of the runs.
pub(crate) fn all_of(runs: &[Run]) -> Pick {
    Pick {
        from: 0,
        dense: runs.len(),
        low: 0,
        high: 0,
        to: runs.len(),
    }
}

/// How many runs of a region are picked from either end of it.
const MOST_PICKED: usize = 32;

/// Whether the value is certainly what `best` says.
pub(crate) fn says(value: &Kleene, best: bool) -> bool
    ensures no { result ≡ false → ¬ (value.now.known ≡ Some best) }
{
    match value.known() {
        Some(holds) => holds == best,
        None => false,
    }
}

/// What is best, at each time.
fn best_value(best: bool) -> Kleene
    ensures { (t : Rational) (v : Extended) → Passes (⟦<Kleene as Shape>⟧.function result) t v → IsBest best v }
{
    Kleene::of(Some(best))
}

/// The run at a place.
pub(crate) fn run_in(runs: &[Run], j: usize) -> Run
    requires { j < length runs.now }
    ensures { slice_get runs.now j ≡ Some result }
{
    runs[j]
}

/// Whether the run is of the node at place `k`.
fn is_of(run: &Run, k: u32) -> bool
    ensures { IsTrue result → run.now.of ≡ k }
{
    run.of == k
}

/// Just after the last time of the trace.
fn end_of(view: View) -> Cut
    ensures { Same (place result) (after (whole (pos view.last))) }
{
    Cut {
        time: tick(view.last),
        side: 1,
    }
}

/// Goes on with a value up to a place, where that lies behind what there is.
fn go_up_to(until: &Cut, value: &Kleene, chain: &mut Pieces<Kleene>) -> Result<(), Memory>
    requires { IsWithin (2 ^ 34) (stop chain.old).at }
    ensures { OnOk result (GoesUpTo ⟦<Kleene as Shape>⟧ chain.old until.now value.now chain.new) }
{
    if chain.until().precedes(until) {
        return chain.put(until, value);
    }
    Ok(())
}

/// Whether the run is of the node, and has times, all of them in the trace.
fn counts(run: &Run, view: View) -> bool
    ensures { IsTrue result → CountsFor run.now view }
{
    if !is_of(run, view.of) {
        return false;
    }
    let begin = Cut::begin(&run.on);
    let end = Cut::end(&run.on);
    if end_of(view).precedes(&end) {
        return false;
    }
    begin.precedes(&end)
}

/// Goes on over the run at place `j`, where it counts: with the best value up to where it begins, and with the other up to where it ends.
fn add_run(runs: &[Run], view: View, j: usize, chain: &mut Pieces<Kleene>) -> Result<(), Memory>
    requires inside { j < length runs.now }
    requires late { view.last < 2 ^ 32 }
    requires before { IsBestSoFar ⟦<Kleene as Shape>⟧ runs.now view chain.old }
    ensures { OnOk result (IsBestSoFar ⟦<Kleene as Shape>⟧ runs.now view chain.new) }
{
    let run = run_in(runs, j);
    if !counts(&run, view) {
        return Ok(());
    }
    go_up_to(&Cut::begin(&run.on), &best_value(view.best), chain)?;
    go_up_to(&Cut::end(&run.on), &Kleene::of(Some(!view.best)), chain)
}

/// Ends a chain at the end of the trace, with the best value.
fn closed(mut chain: Pieces<Kleene>, view: View) -> Result<Pieces<Kleene>, Memory>
    requires within { IsWithin (2 ^ 34) (stop chain).at }
    requires late { view.last < 2 ^ 32 }
    requires order { view.first ≤ view.last }
    ensures { IfOk result (λ r. (runs : List ARun) → IsBestSoFar ⟦<Kleene as Shape>⟧ runs view chain
        → IsBestChain ⟦<Kleene as Shape>⟧ runs view r) }
{
    go_up_to(&end_of(view), &best_value(view.best), &mut chain)?;
    // For the proof alone: that the chain is normal is a clause of `len`.
    let _ = chain.len();
    Ok(chain)
}

/// The place of the run that is picked after the one at the place before `next`: one run before the first of those about the region, and
/// one behind the last; of many between, those at either end, and ever fewer.
fn next_picked(pick: Pick, next: usize) -> usize
    ensures { next ≤ result }
{
    if next < pick.dense {
        return next;
    }
    if next.saturating_add(1) < pick.low {
        return pick.low - 1;
    }
    if next > pick.high.saturating_add(1) {
        return next.max(pick.to);
    }
    let end = pick.high.saturating_sub(MOST_PICKED);
    if next < pick.low.saturating_add(MOST_PICKED) || next >= end {
        return next;
    }
    let farther = next.saturating_add(next - pick.low);
    farther.min(end)
}

/// A chain of few pieces that is no less certain than a node: it is the best but in those runs of the node that are picked.
pub(crate) fn few(
    alloc: Global,
    runs: &[Run],
    view: View,
    pick: Pick,
) -> Result<Pieces<Kleene>, Memory>
    requires order { view.first ≤ view.last }
    requires late { view.last < 2 ^ 32 }
    ensures { IfOk result (IsBestChain ⟦<Kleene as Shape>⟧ runs.now view) }
{
    let start = Cut {
        time: tick(view.first),
        side: 0,
    };
    let mut chain = Pieces::start(alloc, &start);
    let to = pick.to.min(runs.len());
    let mut j = pick.from;
    while j < to {
        add_run(runs, view, j, &mut chain)?;
        j = next_picked(pick, j + 1);
    }
    closed(chain, view)
}
