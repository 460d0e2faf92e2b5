//! The four windows, one verdict of the input at a time.

ghost use Rattle.std.specs.Prelude.{◌≡◌, ◌≢◌, ◌+◌, ◌*◌, ◌<◌, ℕ, length, slice_get, IfOk, OnErr, MatchOption, Some};
ghost use Rattle.stl_syntax.specs.declared.items.Verdict.{Verdict as Told};
ghost use Rattle.rational.specs.Rational.{Rational};
ghost use Rattle.rational.specs.Places.{After, AtMost, begins, moved_begin};
ghost use Rattle.frac128.specs.Spans.{interval};
ghost use Rattle.frac128.specs.Cuts.{place};
ghost use Rattle.online_nodes.specs.Held.{fresh_at};
ghost use Rattle.online_nodes.specs.Written.{IsSound};
ghost use Rattle.online_nodes.specs.Sweeps.{FitsIn, HasEnded, HasRead, HasStopped, HasSwept};

use crate::edges::Edges;
use crate::writer::Out;
use frac128::{Cut, Memory};
use stl_syntax::Verdict;

/// A window by what a time that was found counts for: from `begin_by` later to `end_by` later, each end in or out.
/// The widest fields stand first, so that an operator takes two lines of the cache in place of three.
#[derive(Clone, Copy)]
pub(crate) struct Window {
    pub(crate) begin_by: i64,
    pub(crate) end_by: i64,
    pub(crate) of: u32,
    pub(crate) begin_in: bool,
    pub(crate) end_in: bool,
    /// What is sought: times at which the input holds, or at which it fails.
    pub(crate) seeks: bool,
}

/// What was written of a stretch, and up to where what was found counts.
#[derive(Clone, Copy)]
pub(crate) struct Sweep {
    pub(crate) out: Out,
    pub(crate) reach: Cut,
}

/// Reads the next verdict, which is as sought and begins to count no later than where what was found ends: so it counts on from there,
/// and nothing is told yet.
#[inline(always)]
fn read_along(edges: &mut Edges, window: Window, sweep: Sweep, v: Verdict) -> Sweep
    requires input { window.of < length edges.old.edges }
    requires apart { window.of ≢ sweep.out.edge }
    requires sound { IsSound sweep.out }
    requires inside { AtMost (place sweep.out.at) (place sweep.out.to) }
    requires first { slice_get (fresh_at edges.old window.of) 0 ≡ Some v }
    requires sought { v.holds ≡ window.seeks }
    requires fits { FitsIn window v }
    requires along { (t : Rational) → After (place sweep.reach) t → After (moved_begin window.begin_by window.begin_in (begins (interval v.on))) t }
    ensures { HasRead edges.old edges.new window sweep result }
{
    let _ = edges.pass(window.of);
    let reach = Cut::end(&v.on).shift_end(window.end_by, window.end_in);
    Sweep {
        out: sweep.out,
        reach,
    }
}

/// Reads the next verdict of the input. None where the rest of the stretch needs none, and then nothing changed.
fn read_one(edges: &mut Edges, window: Window, sweep: Sweep) -> Result<Option<Sweep>, Memory>
    requires input { window.of < length edges.old.edges }
    requires own { sweep.out.edge < length edges.old.edges }
    requires apart { window.of ≢ sweep.out.edge }
    requires sound { IsSound sweep.out }
    requires inside { AtMost (place sweep.out.at) (place sweep.out.to) }
    requires fits { (v : Told) → slice_get (fresh_at edges.old window.of) 0 ≡ Some v → FitsIn window v }
    ensures read { IfOk result (λ r. MatchOption r
        (HasStopped edges.old edges.new window sweep)
        (λ next. HasRead edges.old edges.new window sweep next)) }
    ensures memory { OnErr result (edges.old.spare < 2) }
{
    let Some(v) = edges.next(window.of) else {
        return Ok(None);
    };
    if v.holds != window.seeks {
        let _ = edges.pass(window.of);
        return Ok(Some(sweep));
    }
    let begin = Cut::begin(&v.on).shift_begin(window.begin_by, window.begin_in);
    if sweep.out.end().precedes(&begin) {
        return Ok(None);
    }
    if !sweep.reach.precedes(&begin) {
        return Ok(Some(read_along(edges, window, sweep, v)));
    }
    let found = sweep.out.upto(edges, window.seeks, sweep.reach)?;
    let out = found.upto(edges, !window.seeks, begin)?;
    let _ = edges.pass(window.of);
    let reach = Cut::end(&v.on).shift_end(window.end_by, window.end_in);
    Ok(Some(Sweep { out, reach }))
}

/// Tells the rest of the stretch, once no verdict that was not read counts in it.
fn end_sweep(edges: &mut Edges, window: Window, sweep: Sweep) -> Result<Sweep, Memory>
    requires own { sweep.out.edge < length edges.old.edges }
    requires sound { IsSound sweep.out }
    requires inside { AtMost (place sweep.out.at) (place sweep.out.to) }
    ensures ended { IfOk result (λ end. HasEnded edges.old edges.new window sweep end) }
    ensures memory { OnErr result (edges.old.spare < 2) }
{
    let found = sweep.out.upto(edges, window.seeks, sweep.reach)?;
    let out = found.upto(edges, !window.seeks, found.end())?;
    Ok(Sweep {
        out,
        reach: sweep.reach,
    })
}

/// Takes all that the input has ready, and tells the stretch to its end.
///
/// # Errors
///
/// `Memory` where there is no memory, which never comes with a spare of twice the verdicts that were not read, plus 2.
pub(crate) fn sweep_on(edges: &mut Edges, window: Window, sweep: Sweep) -> Result<Sweep, Memory>
    requires input { window.of < length edges.old.edges }
    requires own { sweep.out.edge < length edges.old.edges }
    requires apart { window.of ≢ sweep.out.edge }
    requires sound { IsSound sweep.out }
    requires inside { AtMost (place sweep.out.at) (place sweep.out.to) }
    requires fits { (k : ℕ) (v : Told) → slice_get (fresh_at edges.old window.of) k ≡ Some v → FitsIn window v }
    ensures swept { IfOk result (λ end. HasSwept edges.old edges.new window sweep end) }
    ensures memory { OnErr result (edges.old.spare < 2 * length (fresh_at edges.old window.of) + 2) }
{
    let mut here = sweep;
    while let Some(next) = read_one(edges, window, here)? {
        here = next;
    }
    let end = end_sweep(edges, window, here)?;
    Ok(end)
}
