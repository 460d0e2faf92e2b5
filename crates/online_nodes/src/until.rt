//! Until, one verdict of each input at a time.

ghost use Rattle.std.specs.Prelude.{◌≡◌, ◌≢◌, ◌+◌, ◌*◌, ◌<◌, ℕ, length, slice_get, IfOk, OnErr, MatchOption, Some, true, false};
ghost use Rattle.stl_syntax.specs.declared.items.Verdict.{Verdict as Told};
ghost use Rattle.rational.specs.Places.{AtMost};
ghost use Rattle.frac128.specs.Cuts.{place};
ghost use Rattle.online_nodes.specs.Held.{fresh_at};
ghost use Rattle.online_nodes.specs.Written.{IsSound};
ghost use Rattle.online_nodes.specs.Sweeps.{FitsIn};
ghost use Rattle.online_nodes.specs.Untils.{HasPassedOne, HasSettled, HasTurned, HasUntilEnded, HasUntilTold};

use crate::edges::Edges;
use crate::window::{Sweep, Window};
use frac128::{Cut, Memory};
use stl_syntax::Verdict;

/// Until by its right input's window, whose `of` is the left input, and the right input.
#[derive(Clone, Copy)]
pub(crate) struct Until {
    pub(crate) window: Window,
    pub(crate) right: u32,
}

/// The left input fails next: its run ends there, and with it all that was found.
fn new_run(
    edges: &mut Edges,
    until: Until,
    sweep: Sweep,
    v: Verdict,
) -> Result<Option<Sweep>, Memory>
    requires left { until.window.of < length edges.old.edges }
    requires own { sweep.out.edge < length edges.old.edges }
    requires left_apart { until.window.of ≢ sweep.out.edge }
    requires right_apart { until.right ≢ sweep.out.edge }
    requires apart { until.window.of ≢ until.right }
    requires sound { IsSound sweep.out }
    requires inside { AtMost (place sweep.out.at) (place sweep.out.to) }
    requires first { slice_get (fresh_at edges.old until.window.of) 0 ≡ Some v }
    requires fails { v.holds ≡ false }
    ensures turned { IfOk result (λ r. MatchOption r
        (HasSettled edges.old edges.new until sweep)
        (λ next. HasTurned edges.old edges.new until sweep next)) }
    ensures memory { OnErr result (edges.old.spare < 2) }
{
    let v_end = Cut::end(&v.on);
    if sweep.out.end().precedes(&v_end) {
        return Ok(None);
    }
    let found = sweep.out.upto(edges, true, sweep.reach)?;
    let out = found.upto(edges, false, v_end)?;
    let _ = edges.pass(until.window.of);
    Ok(Some(Sweep { out, reach: v_end }))
}

/// Passes the verdict that ends first; where both end at once the left one.
#[inline(always)]
fn pass_ended(edges: &mut Edges, until: Until, v: Verdict, w: Verdict)
    requires left { until.window.of < length edges.old.edges }
    requires right { until.right < length edges.old.edges }
    requires apart { until.window.of ≢ until.right }
    requires first_left { slice_get (fresh_at edges.old until.window.of) 0 ≡ Some v }
    requires first_right { slice_get (fresh_at edges.old until.right) 0 ≡ Some w }
    ensures { HasPassedOne edges.old edges.new until v w }
{
    if Cut::end(&w.on).precedes(&Cut::end(&v.on)) {
        let _ = edges.pass(until.right);
        return;
    }
    let _ = edges.pass(until.window.of);
}

/// Both inputs hold next: what they share counts from now on.
fn count_both(
    edges: &mut Edges,
    until: Until,
    sweep: Sweep,
    v: Verdict,
    w: Verdict,
) -> Result<Option<Sweep>, Memory>
    requires left { until.window.of < length edges.old.edges }
    requires right { until.right < length edges.old.edges }
    requires own { sweep.out.edge < length edges.old.edges }
    requires left_apart { until.window.of ≢ sweep.out.edge }
    requires right_apart { until.right ≢ sweep.out.edge }
    requires apart { until.window.of ≢ until.right }
    requires sound { IsSound sweep.out }
    requires inside { AtMost (place sweep.out.at) (place sweep.out.to) }
    requires first_left { slice_get (fresh_at edges.old until.window.of) 0 ≡ Some v }
    requires first_right { slice_get (fresh_at edges.old until.right) 0 ≡ Some w }
    requires left_holds { v.holds ≡ true }
    requires right_holds { w.holds ≡ true }
    requires fits_left { FitsIn until.window v }
    requires fits_right { FitsIn until.window w }
    ensures turned { IfOk result (λ r. MatchOption r
        (HasSettled edges.old edges.new until sweep)
        (λ next. HasTurned edges.old edges.new until sweep next)) }
    ensures memory { OnErr result (edges.old.spare < 2) }
{
    let v_begin = Cut::begin(&v.on);
    let w_begin = Cut::begin(&w.on);
    let v_end = Cut::end(&v.on);
    let w_end = Cut::end(&w.on);
    let begin = v_begin.later(w_begin);
    let end = v_end.earlier(w_end);
    if !begin.precedes(&end) {
        pass_ended(edges, until, v, w);
        return Ok(Some(sweep));
    }
    let from = begin.shift_begin(until.window.begin_by, until.window.begin_in);
    if sweep.out.end().precedes(&from) {
        return Ok(None);
    }
    let found = sweep.out.upto(edges, true, sweep.reach)?;
    let out = found.upto(edges, false, from)?;
    pass_ended(edges, until, v, w);
    let reach = end.shift_end(until.window.end_by, until.window.end_in);
    Ok(Some(Sweep { out, reach }))
}

/// Reads the next verdict of one of the inputs. None where the rest of the stretch needs none, and then nothing changed.
fn read_until(edges: &mut Edges, until: Until, sweep: Sweep) -> Result<Option<Sweep>, Memory>
    requires left { until.window.of < length edges.old.edges }
    requires right { until.right < length edges.old.edges }
    requires own { sweep.out.edge < length edges.old.edges }
    requires left_apart { until.window.of ≢ sweep.out.edge }
    requires right_apart { until.right ≢ sweep.out.edge }
    requires apart { until.window.of ≢ until.right }
    requires sound { IsSound sweep.out }
    requires inside { AtMost (place sweep.out.at) (place sweep.out.to) }
    requires fits_left { (v : Told) → slice_get (fresh_at edges.old until.window.of) 0 ≡ Some v → FitsIn until.window v }
    requires fits_right { (v : Told) → slice_get (fresh_at edges.old until.right) 0 ≡ Some v → FitsIn until.window v }
    ensures turned { IfOk result (λ r. MatchOption r
        (HasSettled edges.old edges.new until sweep)
        (λ next. HasTurned edges.old edges.new until sweep next)) }
    ensures memory { OnErr result (edges.old.spare < 2) }
{
    let Some(v) = edges.next(until.window.of) else {
        return Ok(None);
    };
    if !v.holds {
        return new_run(edges, until, sweep, v);
    }
    let Some(w) = edges.next(until.right) else {
        return Ok(None);
    };
    if w.holds {
        return count_both(edges, until, sweep, v, w);
    }
    pass_ended(edges, until, v, w);
    Ok(Some(sweep))
}

/// Tells the rest of the stretch, once no verdict that was not read counts in it.
fn end_until(edges: &mut Edges, until: Until, sweep: Sweep) -> Result<Sweep, Memory>
    requires own { sweep.out.edge < length edges.old.edges }
    requires left_apart { until.window.of ≢ sweep.out.edge }
    requires right_apart { until.right ≢ sweep.out.edge }
    requires sound { IsSound sweep.out }
    requires inside { AtMost (place sweep.out.at) (place sweep.out.to) }
    ensures ended { IfOk result (λ end. HasUntilEnded edges.old edges.new until sweep end) }
    ensures memory { OnErr result (edges.old.spare < 2) }
{
    let found = sweep.out.upto(edges, true, sweep.reach)?;
    let out = found.upto(edges, false, found.end())?;
    Ok(Sweep {
        out,
        reach: sweep.reach,
    })
}

/// Takes all that both inputs have ready, and tells the stretch to its end.
///
/// # Errors
///
/// `Memory` where there is no memory, which never comes with a spare of twice the verdicts that were not read, plus 2.
pub(crate) fn until_on(edges: &mut Edges, until: Until, sweep: Sweep) -> Result<Sweep, Memory>
    requires left { until.window.of < length edges.old.edges }
    requires right { until.right < length edges.old.edges }
    requires own { sweep.out.edge < length edges.old.edges }
    requires left_apart { until.window.of ≢ sweep.out.edge }
    requires right_apart { until.right ≢ sweep.out.edge }
    requires apart { until.window.of ≢ until.right }
    requires sound { IsSound sweep.out }
    requires inside { AtMost (place sweep.out.at) (place sweep.out.to) }
    requires fits_left { (k : ℕ) (v : Told) → slice_get (fresh_at edges.old until.window.of) k ≡ Some v → FitsIn until.window v }
    requires fits_right { (k : ℕ) (v : Told) → slice_get (fresh_at edges.old until.right) k ≡ Some v → FitsIn until.window v }
    ensures told { IfOk result (λ end. HasUntilTold edges.old edges.new until sweep end) }
    ensures memory { OnErr result (edges.old.spare
        < 2 * (length (fresh_at edges.old until.window.of) + length (fresh_at edges.old until.right)) + 2) }
{
    let mut here = sweep;
    while let Some(next) = read_until(edges, until, here)? {
        here = next;
    }
    let end = end_until(edges, until, here)?;
    Ok(end)
}
