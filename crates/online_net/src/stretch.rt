//! What the rows of a block put onto the edges of the atoms, a stretch of one truth at a time.

ghost use Rattle.std.specs.Prelude.{◌≡◌, ◌≢◌, ◌+◌, ◌-◌, ◌<◌, ◌≤◌, ℕ, length, slice_get, not, IfOk, IfSome, IsTrue, MatchOption, OnOk, Some, None, pos};
ghost use Rattle.rational.specs.Rational.{whole};
ghost use Rattle.rational.specs.Places.{Place, Before, Same, begins, ends};
ghost use Rattle.frac128.specs.Cuts.{place};
ghost use Rattle.frac128.specs.Spans.{interval};
ghost use Rattle.online_nodes.specs.Held.{Held, edge_at};
ghost use Rattle.atom_lines.specs.Binding.{Binding, IsAtomNode};
ghost use Rattle.atom_lines.specs.Legs.{jumped, turning_place};
ghost use Rattle.atom_lines.specs.Passages.{IsWay, TurnsInside, crossing_time};
ghost use Rattle.atom_lines.specs.Rows.{row_of};
ghost use Rattle.online_net.specs.Stretches.{after_time, before_time, first_truth, HasPutRun, HasTurned, HasPassed, HasBent, HasGone, HasCome};
ghost use Rattle.online_net.specs.Stretches.{HasPutStretch, HasPutRows, HaveRows, HasPutTwo, StaysOver, StaysFrom, CanGoAlong, CanPutInside, HasComeTo};
ghost use Rattle.atom_lines.specs.declared.passage.Passage.TheVariants.{Steady};
ghost use Rattle.stl_syntax.specs.Trace.{IsTrace};

use crate::atom::{note, span_after, span_at, span_between};
use atom_lines::{
    Bound, Crossing, Passage, Turning, Way, leg_from, standing, stays_over, way_from,
};
use frac128::{Cut, Frac, Memory, Span};
use online_nodes::{Edges, Operator};
use stl_syntax::Verdict;
use trace_reader::Trace;

/// A stretch of one truth that is not put yet: where it begins, its truth, and whether none of the block was put before it, so that it may
/// go on from what stands on the edge.
#[derive(Clone, Copy)]
pub(crate) struct Run {
    from: Cut,
    holds: bool,
    first: bool,
}

/// How far an atom has come along a block: the row, its sum there, and the stretch that is not put yet.
#[derive(Clone, Copy)]
pub(crate) struct Along {
    at: usize,
    sum: i64,
    run: Run,
}

/// The verdict of a run that ends at a place, which is told in its parts: so they are stored where they belong, with no copy between.
#[inline(always)]
fn verdict_of(run: &Run, time: Frac, side: u64) -> Verdict
    requires { Before (place run.now.from) (place (record { time = time; side = side })) }
    ensures begin { Same (place run.now.from) (begins (interval result.on)) }
    ensures end { Same (place (record { time = time; side = side })) (ends (interval result.on)) }
    ensures holds { result.holds ≡ run.now.holds }
{
    let on = Span {
        from: run.from.time,
        from_in: run.from.side == 0,
        to: time,
        to_in: side != 0,
    };
    let holds = run.holds;
    Verdict { on, holds }
}

/// Puts the first run of a block, which ends at a place.
#[inline(never)]
fn put_first(edges: &mut Edges, node: u32, run: &Run, to: &Cut) -> Result<(), Memory>
    requires edge { node < length edges.old.edges }
    requires some { Before (place run.now.from) (place to.now) }
    ensures { OnOk result (HasPutRun edges.old edges.new node run.now (place to.now)) }
{
    edges.extend(node, verdict_of(run, to.time, to.side))?;
    Ok(())
}

/// Puts a run that ends at a place. One that is not the first goes on from the one before it with the other truth, so it joins none.
#[inline(never)]
fn put_run(edges: &mut Edges, node: u32, run: &Run, to: &Cut) -> Result<(), Memory>
    requires edge { node < length edges.old.edges }
    requires some { Before (place run.now.from) (place to.now) }
    ensures { OnOk result (HasPutRun edges.old edges.new node run.now (place to.now)) }
{
    if run.first {
        return put_first(edges, node, run, to);
    }
    edges.put(node, verdict_of(run, to.time, to.side))?;
    Ok(())
}

/// The truth turns over at a place: the run before is put, and another one begins.
#[inline(always)]
fn turn_over(edges: &mut Edges, node: u32, run: &mut Run, at: Cut) -> Result<(), Memory>
    requires edge { node < length edges.old.edges }
    requires some { Before (place run.old.from) (place at) }
    ensures { (c : Place) → Same (place at) c → OnOk result (HasTurned edges.old edges.new node run.old c (not run.old.holds) run.new) }
{
    put_run(edges, node, run, &at)?;
    run.from = at;
    run.holds = !run.holds;
    run.first = false;
    Ok(())
}

/// Just before a time in ticks, or just after it.
#[inline(always)]
fn tick_cut(time: u32, after: bool) -> Cut
    ensures { Same (place result) (record { at = whole (pos time); after = after }) }
{
    Cut {
        time: Frac::of(i64::from(time)),
        side: u64::from(after),
    }
}

/// From just before the row at `time`, or just after it, an atom has this truth: where it had the other one, it turns over there.
#[inline(always)]
fn turn_at_row(
    edges: &mut Edges,
    node: u32,
    run: &mut Run,
    time: u32,
    after: bool,
    holds: bool,
) -> Result<(), Memory>
    requires edge { node < length edges.old.edges }
    requires order { (d : Place) → Before (record { at = whole (pos time); after = after }) d → Before (place run.old.from) d }
    requires some { run.old.holds ≢ holds → Before (place run.old.from) (record { at = whole (pos time); after = after }) }
    ensures { OnOk result (HasTurned edges.old edges.new node run.old (record { at = whole (pos time); after = after }) holds run.new) }
{
    if run.holds == holds {
        return Ok(());
    }
    turn_over(edges, node, run, tick_cut(time, after))?;
    Ok(())
}

/// Just before a crossing, or just after it.
#[inline(always)]
fn crossing_cut(at: &Crossing, after: bool) -> Cut
    ensures { Same (place result) (record { at = crossing_time at.now; after = after }) }
{
    Cut {
        time: Frac::mixed(i64::from(at.floor), u64::from(at.rest), u64::from(at.den)),
        side: u64::from(after),
    }
}

/// The truth with which a passage begins.
#[inline(always)]
fn truth_at_first(passage: &Passage) -> bool
    ensures { result ≡ first_truth passage.now }
{
    match passage {
        Passage::Steady(holds) => *holds,
        Passage::Turns { before, .. } => *before,
    }
}

/// Goes on from the row at `first` over the gap behind it.
#[inline(always)]
fn pass(
    edges: &mut Edges,
    node: u32,
    run: &mut Run,
    first: u32,
    passage: &Passage,
) -> Result<(), Memory>
    requires edge { node < length edges.old.edges }
    requires inside { (to : ℕ) × TurnsInside (whole (pos first)) (whole (pos to)) passage.now }
    requires order { (c : Place) → Before (after_time first) c → Before (place run.old.from) c }
    requires some { run.old.holds ≢ first_truth passage.now → Before (place run.old.from) (after_time first) }
    ensures { OnOk result (HasPassed edges.old edges.new node run.old first passage.now run.new) }
{
    turn_at_row(edges, node, run, first, true, truth_at_first(passage))?;
    match passage {
        Passage::Steady(_) => Ok(()),
        Passage::Turns { at, after, .. } => {
            turn_over(edges, node, run, crossing_cut(at, *after))?;
            Ok(())
        }
    }
}

/// Goes on from the row at `first` over the gap behind it, to the row at `second`.
#[inline(always)]
fn go_along(
    edges: &mut Edges,
    node: u32,
    run: &mut Run,
    first: u32,
    second: u32,
    passage: &Passage,
    last: bool,
) -> Result<(), Memory>
    requires edge { node < length edges.old.edges }
    requires later { first < second }
    requires inside { TurnsInside (whole (pos first)) (whole (pos second)) passage.now }
    requires order { (c : Place) → Before (after_time first) c → Before (place run.old.from) c }
    requires some { run.old.holds ≢ first_truth passage.now → Before (place run.old.from) (after_time first) }
    ensures { OnOk result (HasGone edges.old edges.new node run.old first second passage.now last run.new) }
{
    pass(edges, node, run, first, passage)?;
    turn_at_row(edges, node, run, second, false, last)?;
    Ok(())
}

/// The truth right behind the row at `begin`, where the atom is `holds`: that, where it stays so up to a later row, or that of the passage
/// behind it.
fn truth_behind(passage: &Passage, begin: u32, first: u32, holds: bool) -> bool
    ensures stays { begin < first → result ≡ holds }
    ensures turns { first ≤ begin → result ≡ first_truth passage.now }
{
    if begin < first {
        return holds;
    }
    truth_at_first(passage)
}

/// Begins to go along a block at row `from`, where the atom is `holds`, with its first way.
#[inline(never)]
fn begin_along(
    edges: &mut Edges,
    node: u32,
    block: &Trace,
    from: usize,
    holds: bool,
    way: &Way,
) -> Result<Along, Memory>
    requires edge { node < length edges.old.edges }
    requires within { from < length block.now.rows }
    requires way { (b : Binding) × IsWay b node block.now from way.now }
    ensures { (b : Binding) (to : ℕ) → CanGoAlong b block.now from to node holds way.now
        → IfOk result (HasCome b block.now from to node edges.old edges.new) }
{
    let begin = block.time(from);
    let first = block.time(way.row - 1);
    let second = block.time(way.row);
    let mut run = Run {
        from: tick_cut(begin, true),
        holds: truth_behind(&way.passage, begin, first, holds),
        first: true,
    };
    go_along(edges, node, &mut run, first, second, &way.passage, way.last)?;
    Ok(Along {
        at: way.row,
        sum: way.sum,
        run,
    })
}

/// Goes along a block by one way more, as long as none of it was put.
fn go_first(
    edges: &mut Edges,
    bound: &Bound,
    node: u32,
    block: &Trace,
    to: usize,
    along: &mut Along,
) -> Result<(), Memory>
    requires edge { node < length edges.old.edges }
    requires atom { IsAtomNode bound.now node }
    requires columns { length block.now.header.columns ≡ bound.now.width }
    requires within { to < length block.now.rows }
    requires before { along.old.at < to }
    requires come { (from : ℕ) × (e : Held) × HasCome bound.now block.now from to node e edges.old along.old }
    ensures on { OnOk result (along.old.at < along.new.at) }
    ensures come { (from : ℕ) (e : Held) → HasCome bound.now block.now from to node e edges.old along.old
        → OnOk result (HasCome bound.now block.now from to node e edges.new along.new) }
{
    let way = way_from(bound, node, block, along.at, to, along.sum);
    let first = block.time(way.row - 1);
    let second = block.time(way.row);
    go_along(
        edges,
        node,
        &mut along.run,
        first,
        second,
        &way.passage,
        way.last,
    )?;
    along.at = way.row;
    along.sum = way.sum;
    Ok(())
}

/// Goes along a block from where an atom has come, until some of it was put or row `to` is reached.
#[inline(never)]
fn go_to_put(
    edges: &mut Edges,
    bound: &Bound,
    node: u32,
    block: &Trace,
    to: usize,
    begun: Along,
) -> Result<Along, Memory>
    requires edge { node < length edges.old.edges }
    requires atom { IsAtomNode bound.now node }
    requires columns { length block.now.header.columns ≡ bound.now.width }
    requires within { to < length block.now.rows }
    requires come { (from : ℕ) × (e : Held) × HasCome bound.now block.now from to node e edges.old begun }
    ensures { (from : ℕ) (e : Held) → HasCome bound.now block.now from to node e edges.old begun
        → IfOk result (HasCome bound.now block.now from to node e edges.new) }
{
    let mut along = begun;
    while along.run.first && along.at < to {
        go_first(edges, bound, node, block, to, &mut along)?;
    }
    Ok(along)
}

/// As `turn_over`, in the place of the call, once some of the block was put: so the run before joins none.
#[inline(always)]
fn turn_next(
    edges: &mut Edges,
    node: u32,
    run: &mut Run,
    time: Frac,
    side: u64,
) -> Result<(), Memory>
    requires edge { node < length edges.old.edges }
    requires some { Before (place run.old.from) (place (record { time = time; side = side })) }
    ensures { (c : Place) → Same (place (record { time = time; side = side })) c
        → OnOk result (HasTurned edges.old edges.new node run.old c (not run.old.holds) run.new) }
{
    edges.put(node, verdict_of(run, time, side))?;
    run.from = Cut { time, side };
    run.holds = !run.holds;
    run.first = false;
    Ok(())
}

/// Goes on over the gap of a leg, on which the truth may turn over once.
#[inline(always)]
fn bend(edges: &mut Edges, node: u32, run: &mut Run, turn: &Option<Turning>) -> Result<(), Memory>
    requires edge { node < length edges.old.edges }
    requires some { MatchOption turn.now (Unit {0}) (λ x. Before (place run.old.from) (turning_place x)) }
    ensures { OnOk result (HasBent edges.old edges.new node run.old turn.now run.new) }
{
    match turn {
        None => Ok(()),
        Some(x) => {
            let cut = crossing_cut(&x.at, x.after);
            turn_next(edges, node, run, cut.time, cut.side)?;
            Ok(())
        }
    }
}

/// Goes on to the row at `second`, just before which the truth may turn over.
#[inline(always)]
fn jump(edges: &mut Edges, node: u32, run: &mut Run, second: u32, jumps: bool) -> Result<(), Memory>
    requires edge { node < length edges.old.edges }
    requires some { Before (place run.old.from) (before_time second) }
    ensures { OnOk result (HasTurned edges.old edges.new node run.old (before_time second) (jumped jumps run.old.holds) run.new) }
{
    if !jumps {
        return Ok(());
    }
    let cut = tick_cut(second, false);
    turn_next(edges, node, run, cut.time, cut.side)?;
    Ok(())
}

/// Goes along a block by one leg more, once some of it was put.
#[inline(always)]
fn go_on(
    edges: &mut Edges,
    bound: &Bound,
    node: u32,
    block: &Trace,
    to: usize,
    along: &mut Along,
) -> Result<(), Memory>
    requires edge { node < length edges.old.edges }
    requires atom { IsAtomNode bound.now node }
    requires columns { length block.now.header.columns ≡ bound.now.width }
    requires within { to < length block.now.rows }
    requires before { along.old.at < to }
    requires come { (from : ℕ) × (e : Held) × HasCome bound.now block.now from to node e edges.old along.old }
    ensures on { OnOk result (along.old.at < along.new.at) }
    ensures come { (from : ℕ) (e : Held) → HasCome bound.now block.now from to node e edges.old along.old
        → OnOk result (HasCome bound.now block.now from to node e edges.new along.new) }
{
    let leg = leg_from(bound, node, block, along.at, to, along.sum);
    bend(edges, node, &mut along.run, &leg.turn)?;
    jump(edges, node, &mut along.run, block.time(leg.row), leg.jumps)?;
    along.at = leg.row;
    along.sum = leg.sum;
    Ok(())
}

/// Whether a way leads to row `to` with this truth all the way: up to its last gap, on it, and at the row behind it.
#[inline(always)]
fn is_even(way: &Way, to: usize, holds: bool) -> bool
    ensures { IsTrue result → (way.now.row ≡ to) × (way.now.passage ≡ Steady holds) × (way.now.last ≡ holds) }
{
    if way.row != to || way.last != holds {
        return false;
    }
    match way.passage {
        Passage::Steady(there) => there == holds,
        Passage::Turns { .. } => false,
    }
}

/// Puts the one verdict of an atom behind row `from` of a block, up to row `to`, where its truth is the same all the way.
#[inline(always)]
fn put_even(
    edges: &mut Edges,
    node: u32,
    block: &Trace,
    from: usize,
    to: usize,
    holds: bool,
) -> Result<(), Memory>
    requires edge { node < length edges.old.edges }
    requires order { from < to }
    requires within { to < length block.now.rows }
    requires rises { (row_of block.now from).time < (row_of block.now to).time }
    ensures { (b : Binding) → StaysOver b node block.now from to holds → OnOk result (HasPutStretch b block.now from to node edges.old edges.new) }
{
    let first = block.time(from);
    let second = block.time(to);
    let on = span_after(first, second);
    edges.extend(node, Verdict { on, holds })?;
    Ok(())
}

/// Puts the last run of a block, which ends behind row `to`.
#[inline(always)]
fn put_last(
    edges: &mut Edges,
    node: u32,
    block: &Trace,
    to: usize,
    along: &Along,
) -> Result<(), Memory>
    requires edge { node < length edges.old.edges }
    requires within { to < length block.now.rows }
    requires here { along.now.at ≡ to }
    requires come { (b : Binding) × (from : ℕ) × (e : Held) × HasCome b block.now from to node e edges.old along.now }
    ensures { (b : Binding) (from : ℕ) (e : Held) → HasCome b block.now from to node e edges.old along.now
        → OnOk result (HasPutStretch b block.now from to node e edges.new) }
{
    let end = tick_cut(block.time(to), true);
    put_run(edges, node, &along.run, &end)?;
    Ok(())
}

/// Puts the verdicts of an atom from where it has come, up to row `to`.
#[inline(never)]
fn put_legs(
    edges: &mut Edges,
    bound: &Bound,
    node: u32,
    block: &Trace,
    to: usize,
    begun: Along,
) -> Result<(), Memory>
    requires edge { node < length edges.old.edges }
    requires atom { IsAtomNode bound.now node }
    requires columns { length block.now.header.columns ≡ bound.now.width }
    requires within { to < length block.now.rows }
    requires come { (from : ℕ) × (e : Held) × HasCome bound.now block.now from to node e edges.old begun }
    ensures { (from : ℕ) (e : Held) → HasCome bound.now block.now from to node e edges.old begun
        → OnOk result (HasPutStretch bound.now block.now from to node e edges.new) }
{
    let mut along = go_to_put(edges, bound, node, block, to, begun)?;
    while along.at < to {
        go_on(edges, bound, node, block, to, &mut along)?;
    }
    let last = along;
    put_last(edges, node, block, to, &last)
}

/// Puts the verdicts of an atom behind row `from` of a block, where it is `holds`, up to row `to`, onto its edge, from its first way on.
#[inline(never)]
fn put_ways(
    edges: &mut Edges,
    bound: &Bound,
    node: u32,
    block: &Trace,
    from: usize,
    to: usize,
    holds: bool,
    way: Way,
) -> Result<(), Memory>
    requires edge { node < length edges.old.edges }
    requires atom { IsAtomNode bound.now node }
    requires columns { length block.now.header.columns ≡ bound.now.width }
    requires order { from < to }
    requires within { to < length block.now.rows }
    requires can { CanGoAlong bound.now block.now from to node holds way }
    ensures { OnOk result (HasPutStretch bound.now block.now from to node edges.old edges.new) }
{
    let along = begin_along(edges, node, block, from, holds, &way)?;
    if along.at < to {
        return put_legs(edges, bound, node, block, to, along);
    }
    put_last(edges, node, block, to, &along)
}

/// Puts the verdicts of an atom behind row `from` of a block, up to row `to`, onto its edge.
#[inline(always)]
fn put_stretch(
    edges: &mut Edges,
    bound: &Bound,
    node: u32,
    block: &Trace,
    from: usize,
    to: usize,
) -> Result<(), Memory>
    requires edge { node < length edges.old.edges }
    requires atom { IsAtomNode bound.now node }
    requires columns { length block.now.header.columns ≡ bound.now.width }
    requires order { from < to }
    requires within { to < length block.now.rows }
    ensures { OnOk result (HasPutStretch bound.now block.now from to node edges.old edges.new) }
{
    let (sum, holds) = standing(bound, node, block, from);
    let way = way_from(bound, node, block, from, to, sum);
    if is_even(&way, to, holds) {
        return put_even(edges, node, block, from, to, holds);
    }
    put_ways(edges, bound, node, block, from, to, holds, way)
}

/// Puts the one verdict of an atom behind row `at` of a block, up to the row `next` right after it, where its truth is the same all the way.
#[inline(always)]
fn put_steady(
    edges: &mut Edges,
    node: u32,
    block: &Trace,
    at: usize,
    next: usize,
    holds: bool,
) -> Result<(), Memory>
    requires edge { node < length edges.old.edges }
    requires next { next ≡ at + 1 }
    requires within { next < length block.now.rows }
    requires trace { IsTrace block.now }
    ensures { (b : Binding) → StaysOver b node block.now at next holds → OnOk result (HasPutStretch b block.now at next node edges.old edges.new) }
{
    let first = block.time(at);
    let second = block.time(next);
    let on = span_after(first, second);
    edges.put(node, Verdict { on, holds })?;
    Ok(())
}

/// Puts the verdicts of an atom over rows of a block over which its truth is the same all the way, those of each row by itself.
#[inline(always)]
fn put_inside(
    edges: &mut Edges,
    node: u32,
    block: &Trace,
    from: usize,
    to: usize,
    holds: bool,
) -> Result<(), Memory>
    requires edge { node < length edges.old.edges }
    requires order { from ≤ to }
    requires within { to < length block.now.rows }
    requires trace { IsTrace block.now }
    requires before { (b : Binding) × (first : ℕ) × (e : Held) × CanPutInside b block.now first from to node holds e edges.old }
    ensures { (b : Binding) (first : ℕ) (e : Held) → CanPutInside b block.now first from to node holds e edges.old
        → OnOk result (HasPutRows b block.now first to node e edges.new) }
{
    for r in from..to {
        put_steady(edges, node, block, r, r + 1, holds)?;
    }
    Ok(())
}

/// Puts the two verdicts of an atom over the last gap of a way and at the row behind it, where it has one truth on the whole gap, and the
/// other one at the row.
#[inline(always)]
fn put_turned(
    edges: &mut Edges,
    node: u32,
    first: u32,
    second: u32,
    holds: bool,
) -> Result<(), Memory>
    requires edge { node < length edges.old.edges }
    requires later { first < second }
    ensures { OnOk result (HasPutTwo edges.old edges.new node first second holds) }
{
    let gap = span_between(first, second);
    edges.put(node, Verdict { on: gap, holds })?;
    let row = span_at(second);
    edges.put(
        node,
        Verdict {
            on: row,
            holds: !holds,
        },
    )?;
    Ok(())
}

/// The truth of an atom on the last gap of a way, where it is one on the whole gap and the other one at the row behind it.
#[inline(always)]
fn turned_at_row(way: &Way) -> Option<bool>
    ensures { IfSome result (λ holds. (way.now.passage ≡ Steady holds) × (way.now.last ≡ not holds)) }
{
    let Passage::Steady(holds) = way.passage else {
        return None;
    };
    if holds == way.last {
        return None;
    }
    Some(holds)
}

/// Puts the verdicts of an atom over the last gap of a way and at the row behind it.
#[inline(always)]
fn put_gap(edges: &mut Edges, node: u32, block: &Trace, way: &Way) -> Result<(), Memory>
    requires edge { node < length edges.old.edges }
    requires some { 0 < way.now.row }
    requires within { way.now.row < length block.now.rows }
    requires way { (b : Binding) × (r : ℕ) × IsWay b node block.now r way.now }
    ensures { (b : Binding) (r : ℕ) → IsWay b node block.now r way.now
        → OnOk result (HasPutStretch b block.now (way.now.row - 1) way.now.row node edges.old edges.new) }
{
    let first = block.time(way.row - 1);
    let second = block.time(way.row);
    if let Some(holds) = turned_at_row(way) {
        put_turned(edges, node, first, second, holds)?;
        return Ok(());
    }
    let mut run = Run {
        from: tick_cut(first, true),
        holds: truth_at_first(&way.passage),
        first: false,
    };
    go_along(edges, node, &mut run, first, second, &way.passage, way.last)?;
    let end = tick_cut(second, true);
    put_run(edges, node, &run, &end)?;
    Ok(())
}

/// How far an atom has come along a block whose rows have verdicts of their own: the row, its sum there, and its truth there.
#[derive(Clone, Copy)]
pub(crate) struct Spot {
    at: usize,
    sum: i64,
    holds: bool,
}

/// Puts the verdicts of an atom over one way more along a block, those of each row by itself.
#[inline(always)]
fn put_way(
    edges: &mut Edges,
    bound: &Bound,
    node: u32,
    block: &Trace,
    to: usize,
    here: &Spot,
) -> Result<Spot, Memory>
    requires edge { node < length edges.old.edges }
    requires atom { IsAtomNode bound.now node }
    requires columns { length block.now.header.columns ≡ bound.now.width }
    requires within { to < length block.now.rows }
    requires trace { IsTrace block.now }
    requires before { here.now.at < to }
    requires come { (first : ℕ) × (e : Held) × HasComeTo bound.now block.now first node e edges.old here.now }
    ensures on { IfOk result (λ next. here.now.at < next.at) }
    ensures within { IfOk result (λ next. next.at ≤ to) }
    ensures come { (first : ℕ) (e : Held) → HasComeTo bound.now block.now first node e edges.old here.now
        → IfOk result (HasComeTo bound.now block.now first node e edges.new) }
{
    let way = way_from(bound, node, block, here.at, to, here.sum);
    put_inside(edges, node, block, here.at, way.row - 1, here.holds)?;
    put_gap(edges, node, block, &way)?;
    Ok(Spot {
        at: way.row,
        sum: way.sum,
        holds: way.last,
    })
}

/// Puts the verdicts of an atom over the rows of a block, those of each row by itself.
#[inline(never)]
fn put_each(
    edges: &mut Edges,
    bound: &Bound,
    node: u32,
    block: &Trace,
    from: usize,
    to: usize,
) -> Result<(), Memory>
    requires edge { node < length edges.old.edges }
    requires atom { IsAtomNode bound.now node }
    requires columns { length block.now.header.columns ≡ bound.now.width }
    requires order { from < to }
    requires within { to < length block.now.rows }
    ensures { OnOk result (HasPutRows bound.now block.now from to node edges.old edges.new) }
{
    let (sum, holds) = standing(bound, node, block, from);
    // for the proof alone: the rows of a block rise
    let _rows = block.rows();
    let mut here = Spot {
        at: from,
        sum,
        holds,
    };
    while here.at < to {
        here = put_way(edges, bound, node, block, to, &here)?;
    }
    Ok(())
}

/// Puts the verdicts of an atom over the rows of a block: on an edge that joins a verdict for each stretch of one truth, on another those of
/// each row.
fn put_verdicts(
    edges: &mut Edges,
    bound: &Bound,
    node: u32,
    block: &Trace,
    from: usize,
    to: usize,
) -> Result<(), Memory>
    requires edge { node < length edges.old.edges }
    requires atom { IsAtomNode bound.now node }
    requires columns { length block.now.header.columns ≡ bound.now.width }
    requires order { from < to }
    requires within { to < length block.now.rows }
    ensures { OnOk result (HasPutRows bound.now block.now from to node edges.old edges.new) }
{
    if edges.joins(node) {
        put_stretch(edges, bound, node, block, from, to)?;
        return Ok(());
    }
    put_each(edges, bound, node, block, from, to)?;
    Ok(())
}

/// Puts all that the rows of a block behind row `from`, up to row `to`, answer at the atoms.
pub(crate) fn put_rows(
    edges: &mut Edges,
    operators: &[Option<Operator>],
    bound: &Bound,
    block: &Trace,
    from: usize,
    to: usize,
) -> Result<(), Memory>
    requires edges { length operators.now ≡ length edges.old.edges }
    requires few { length operators.now ≤ 256 }
    requires atoms { (j : ℕ) → slice_get operators.now j ≡ Some None → IsAtomNode bound.now j }
    requires columns { length block.now.header.columns ≡ bound.now.width }
    requires order { from < to }
    requires within { to < length block.now.rows }
    ensures { OnOk result (HaveRows bound.now block.now from to operators.now (length operators.now) edges.old edges.new) }
{
    for i in 0..operators.len() {
        if operators[i].is_none() {
            put_verdicts(edges, bound, i as u32, block, from, to)?;
            note(edges, i as u32, block.time(to));
        }
    }
    Ok(())
}

/// Whether an atom has one truth from row `at` of a block on, up to row `to`.
#[inline(always)]
fn stays(bound: &Bound, node: u32, block: &Trace, at: usize, to: usize) -> bool
    requires atom { IsAtomNode bound.now node }
    requires columns { length block.now.header.columns ≡ bound.now.width }
    requires order { at < to }
    requires within { to < length block.now.rows }
    ensures { IsTrue result → StaysFrom bound.now node block.now at to }
{
    if at + 1 == to {
        return stays_over(bound, node, block, at, to);
    }
    let (sum, holds) = standing(bound, node, block, at);
    let way = way_from(bound, node, block, at, to, sum);
    is_even(&way, to, holds)
}

/// Whether each of these atoms does.
pub(crate) fn all_stay(atoms: &[u32], bound: &Bound, block: &Trace, at: usize, to: usize) -> bool
    requires atoms { (i j : ℕ) → slice_get atoms.now i ≡ Some j → IsAtomNode bound.now j }
    requires columns { length block.now.header.columns ≡ bound.now.width }
    requires order { at < to }
    requires within { to < length block.now.rows }
    ensures { IsTrue result → (i j : ℕ) → slice_get atoms.now i ≡ Some j → StaysFrom bound.now j block.now at to }
{
    for i in 0..atoms.len() {
        if !stays(bound, atoms[i], block, at, to) {
            return false;
        }
    }
    true
}
