//! Where nodes are less certain than is best, as runs of time.
ghost use Rattle.std.specs.Prelude.{◌≡◌, ◌⊎◌, ◌||◌, ◌<◌, ◌≤◌, ◌++◌, ◌∷◌, Bool, [], length, IsTrue, IfOk, IfSome, OnOk};
ghost use Rattle.rational.specs.Time.{Rational, IsIn};
ghost use Rattle.rational.specs.Places.{Before, Same, begins, ends};
ghost use Rattle.frac128.specs.Cuts.{place};
ghost use Rattle.frac128.specs.Spans.{interval};
ghost use Rattle.pieces.specs.Chains.{Chain};
ghost use Rattle.implicants.specs.Upward.{AddsRun, AddsShort, AreAmong, AreShortEach, IsShortOver, IsShortPiece, PutsRun};

use crate::nearby::says;
use frac128::{Cut, Frac, Memory, Span};
use offline_eval::Chains;
use pieces::{Piece, Pieces};
use std::alloc::Global;
use stl_syntax::Formula;
use value_laws::{Kleene, Shape};

/// A span in which a node is less certain than is best.
#[derive(Clone, Copy)]
pub(crate) struct Run {
    pub(crate) of: u32,
    pub(crate) on: Span,
}

/// Whether one of both is so.
fn either(a: bool, b: bool) -> bool
    ensures { result ≡ (a || b) }
{
    a || b
}

/// Two spans as one; none where the second does not go on where the first ends.
fn joined(a: &Span, b: &Span) -> Option<Span>
    ensures { IfSome result (λ s. (t : Rational) → IsIn (interval s) t → IsIn (interval a.now) t ⊎ IsIn (interval b.now) t) }
{
    if !a.to.cmp(&b.from).is_eq() {
        return None;
    }
    if !either(a.to_in, b.from_in) {
        return None;
    }
    Span::make(a.from, a.from_in, b.to, b.to_in)
}

/// Adds the run of a span, where there is one.
pub(crate) fn add(of: u32, on: Option<Span>, runs: &mut Vec<Run>) -> Result<(), Memory>
    ensures { OnOk result (AddsRun of on runs.old.items runs.new.items) }
{
    let Some(on) = on else {
        return Ok(());
    };
    if runs.push(Run { of, on }).is_err() {
        return Err(Memory);
    }
    Ok(())
}

/// The span from one place to another.
fn span_between(from: &Cut, to: &Cut) -> Span
    requires { Before (place from.now) (place to.now) }
    ensures begin { Same (place from.now) (begins (interval result)) }
    ensures end { Same (place to.now) (ends (interval result)) }
{
    Span {
        from: from.time,
        from_in: from.side == 0,
        to: to.time,
        to_in: to.side != 0,
    }
}

/// The times of a piece that begins at a place, where it is less than certainly what `best` says.
fn short_span(piece: &Piece<Kleene>, from: &Cut, best: bool) -> Option<Span>
    requires { Before (place from.now) (place piece.now.until) }
    ensures { IfSome result (IsShortPiece best (place from.now) piece.now) }
{
    if says(&piece.shape, best) {
        return None;
    }
    Some(span_between(from, &piece.until))
}

/// The span so far with one more piece, or the piece alone; what does not go on is added as a run.
fn grown(
    of: u32,
    so_far: Option<Span>,
    piece: Option<Span>,
    runs: &mut Vec<Run>,
) -> Result<Option<Span>, Memory>
    ensures so_far { IfOk result (λ o. (best : Bool) (x : Chain Kleene) → IfSome so_far (IsShortOver ⟦<Kleene as Shape>⟧ best x)
        → IfSome piece (IsShortOver ⟦<Kleene as Shape>⟧ best x) → IfSome o (IsShortOver ⟦<Kleene as Shape>⟧ best x)) }
    ensures added { OnOk result ((best : Bool) (x : Chain Kleene) → IfSome so_far (IsShortOver ⟦<Kleene as Shape>⟧ best x)
        → AddsShort ⟦<Kleene as Shape>⟧ of best x runs.old.items runs.new.items) }
{
    let Some(next) = piece else {
        add(of, so_far, runs)?;
        return Ok(None);
    };
    let Some(before) = so_far else {
        return Ok(Some(next));
    };
    if let Some(both) = joined(&before, &next) {
        return Ok(Some(both));
    }
    add(of, Some(before), runs)?;
    Ok(Some(next))
}

/// Adds the runs on which the chain is less than certainly what `best` says, each as long as it goes on.
pub(crate) fn add_short(
    of: u32,
    best: bool,
    x: &Pieces<Kleene>,
    runs: &mut Vec<Run>,
) -> Result<(), Memory>
    ensures { OnOk result (AddsShort ⟦<Kleene as Shape>⟧ of best x.now runs.old.items runs.new.items) }
{
    let mut so_far = None;
    let mut from = x.from();
    for p in 0..x.len() {
        let piece = x.piece(p);
        let short = short_span(piece, &from, best);
        let next = grown(of, so_far, short, runs)?;
        so_far = next;
        from = piece.until;
    }
    add(of, so_far, runs)
}

/// Where a node is less than certainly what its sign says.
pub(crate) fn own_runs(
    alloc: Global,
    of: u32,
    best: bool,
    x: &Pieces<Kleene>,
) -> Result<Vec<Run>, Memory>
    ensures { IfOk result (λ r. AddsShort ⟦<Kleene as Shape>⟧ of best x.now [] r.items) }
{
    let mut runs = Vec::new(alloc);
    add_short(of, best, x, &mut runs)?;
    Ok(runs)
}

/// Puts a list behind the others.
pub(crate) fn add_list(each: &mut Vec<Vec<Run>>, runs: Vec<Run>) -> Result<(), Memory>
    ensures { OnOk result (each.new.items ≡ each.old.items ++ runs ∷ []) }
{
    if each.push(runs).is_err() {
        return Err(Memory);
    }
    Ok(())
}

/// Where each node is less than certainly what its sign says, from the first time to the last.
pub(crate) fn runs_of(
    alloc: Global,
    formula: &Formula,
    nodes: &Chains<Kleene>,
    signs: &[bool],
) -> Result<Vec<Vec<Run>>, Memory>
    requires nodes { length nodes.now ≡ length formula.now.nodes }
    requires signs { length signs.now ≡ length formula.now.nodes }
    ensures count { IfOk result (λ r. length r.items ≡ length formula.now.nodes) }
    ensures short { IfOk result (λ r. AreShortEach ⟦<Kleene as Shape>⟧ signs.now nodes.now r.items) }
{
    let mut all: Vec<Vec<Run>> = Vec::new(alloc);
    for k in 0..formula.len() {
        let own = own_runs(alloc, k, signs[k as usize], nodes.chain(k))?;
        add_list(&mut all, own)?;
    }
    Ok(all)
}

/// The first run that does not end before a time.
pub(crate) fn run_at(runs: &[Run], t: &Frac) -> usize
    ensures { result ≤ length runs.now }
{
    let mut low = 0;
    let mut high = runs.len();
    while low < high {
        let middle = low + (high - low) / 2;
        if runs[middle].on.to.cmp(t).is_lt() {
            low = middle + 1;
        } else {
            high = middle;
        }
    }
    low
}

/// Whether the span begins no later than the piece.
pub(crate) fn has_begin(on: &Span, piece: &Span) -> bool {
    on.from.cmp(&piece.from).is_lt()
        || (on.from.cmp(&piece.from).is_eq() && (on.from_in || !piece.from_in))
}

/// Whether it ends no earlier.
pub(crate) fn has_end(on: &Span, piece: &Span) -> bool {
    piece.to.cmp(&on.to).is_lt() || (piece.to.cmp(&on.to).is_eq() && (on.to_in || !piece.to_in))
}

/// The run that has a piece, if one has it: the first that does not end before it, or the next one, where that begins no later.
pub(crate) fn run_for(runs: &[Run], piece: &Span) -> usize {
    let at = run_at(runs, &piece.from);
    if at < runs.len() && at + 1 < runs.len() && has_begin(&runs[at + 1].on, piece) {
        return at + 1;
    }
    at
}

/// Whether the piece lies in the span.
fn lies_in(piece: &Span, on: &Span) -> bool {
    has_begin(on, piece) && has_end(on, piece)
}

/// Takes out the runs from a place on that lie in the run.
fn take_out(at: usize, run: &Run, runs: &mut Vec<Run>)
    ensures { AreAmong runs.new.items runs.old.items }
{
    while at < runs.len() {
        if !lies_in(&runs[at].on, &run.on) {
            return;
        }
        let _ = runs.remove(at);
    }
}

/// Whether the run lies in one of the others, as far as these are in order.
fn is_held(run: &Run, runs: &[Run]) -> bool {
    let at = run_for(runs, &run.on);
    at < runs.len() && lies_in(&run.on, &runs[at].on)
}

/// Where the run belongs among others.
fn place_for(run: &Run, runs: &[Run]) -> usize
    ensures { result ≤ length runs.now }
{
    let at = run_at(runs, &run.on.from);
    if at < runs.len() && !has_begin(&run.on, &runs[at].on) {
        return at + 1;
    }
    at
}

/// Whether there is one at the place, which lies in the run.
fn is_covered(run: &Run, runs: &[Run], at: usize) -> bool
    ensures { IsTrue result → at < length runs.now }
{
    if at >= runs.len() {
        return false;
    }
    lies_in(&runs[at].on, &run.on)
}

/// Puts a run where it belongs, in place of those that lie in it.
pub(crate) fn put_run(run: Run, runs: &mut Vec<Run>) -> Result<(), Memory>
    ensures { OnOk result (PutsRun run runs.old.items runs.new.items) }
{
    if is_held(&run, runs) {
        return Ok(());
    }
    let at = place_for(&run, runs);
    if is_covered(&run, runs, at) {
        runs[at] = run;
        take_out(at + 1, &run, runs);
        return Ok(());
    }
    match runs.insert(at, run) {
        Ok(()) => Ok(()),
        Err(_) => Err(Memory),
    }
}
