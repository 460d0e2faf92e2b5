//! Since, one verdict of its inputs at a time.

ghost use Rattle.std.specs.Prelude.{◌≡◌, ◌≢◌, ◌⊎◌, ◌+◌, ◌*◌, ◌<◌, ◌≤ℤ◌, ℕ, pos, length, slice_get, true, false, IfOk, OnErr, Some};
ghost use Rattle.std.specs.Int.{w64};
ghost use Rattle.rational.specs.Rational.{FitsFloor, add, whole};
ghost use Rattle.frac128.specs.Value.{value};
ghost use Rattle.stl_syntax.specs.declared.items.Verdict.{Verdict as Told};
ghost use Rattle.rational.specs.Places.{AtMost};
ghost use Rattle.frac128.specs.Cuts.{place};
ghost use Rattle.online_nodes.specs.Held.{fresh_at};
ghost use Rattle.online_nodes.specs.Written.{IsSound};
ghost use Rattle.online_nodes.specs.Sinces.{CanMove, CanMoveRun, IsBackward, HasGoneOn, HasPassedFirst, HasRested, HasSinceTold, IsTurn};

use crate::edges::Edges;
use crate::window::Window;
use crate::writer::Out;
use frac128::{Cut, Memory};
use stl_syntax::Verdict;

/// Since by its right input's window, whose `of` is the left input, and the right input.
#[derive(Clone, Copy)]
pub(crate) struct Since {
    pub(crate) window: Window,
    pub(crate) right: u32,
}

/// What was written of a stretch, up to where what was found counts, and where the left input's run began.
#[derive(Clone, Copy)]
pub(crate) struct Wrote {
    pub(crate) out: Out,
    pub(crate) reach: Cut,
    pub(crate) run: Cut,
}

/// One step: a verdict was read, or the stretch is told to its end.
#[derive(Clone, Copy)]
enum Step {
    More(Wrote),
    Done(Wrote),
}

/// Tells the rest of the stretch, through which the left input holds: beyond what was found nothing counts in it.
#[inline(always)]
fn rest(edges: &mut Edges, course: Wrote) -> Result<Wrote, Memory>
    requires own { course.out.edge < length edges.old.edges }
    requires sound { IsSound course.out }
    requires inside { AtMost (place course.out.at) (place course.out.to) }
    ensures rested { IfOk result (λ end. HasRested edges.old edges.new course end) }
    ensures memory { OnErr result (edges.old.spare < 2) }
{
    let out = course
        .out
        .turn(edges, true, course.reach, course.out.end())?;
    Ok(Wrote {
        out,
        reach: course.reach,
        run: course.run,
    })
}

/// The left input holds next: it is read, and up to where its verdict ends only what was found counts.
#[inline(always)]
fn go_on(edges: &mut Edges, since: Since, course: Wrote, v: Verdict) -> Result<Step, Memory>
    requires left { since.window.of < length edges.old.edges }
    requires own { course.out.edge < length edges.old.edges }
    requires left_apart { since.window.of ≢ course.out.edge }
    requires sound { IsSound course.out }
    requires inside { AtMost (place course.out.at) (place course.out.to) }
    requires first { slice_get (fresh_at edges.old since.window.of) 0 ≡ Some v }
    ensures gone { IfOk result (λ turn. HasGoneOn edges.old edges.new since course v turn) }
    ensures memory { OnErr result (edges.old.spare < 2) }
{
    let end = Cut::end(&v.on);
    if course.out.end().precedes(&end) {
        let done = rest(edges, course)?;
        return Ok(Step::Done(done));
    }
    let held = course.reach.earlier(end);
    let out = course.out.turn(edges, true, held, end)?;
    let _ = edges.pass(since.window.of);
    Ok(Step::More(Wrote {
        out,
        reach: course.reach,
        run: course.run,
    }))
}

/// The left input fails next: its run ends, and with it all that was found.
fn end_run(edges: &mut Edges, since: Since, course: Wrote, v: Verdict) -> Result<Step, Memory>
    requires left { since.window.of < length edges.old.edges }
    requires right { since.right < length edges.old.edges }
    requires own { course.out.edge < length edges.old.edges }
    requires left_apart { since.window.of ≢ course.out.edge }
    requires right_apart { since.right ≢ course.out.edge }
    requires apart { since.window.of ≢ since.right }
    requires sound { IsSound course.out }
    requires inside { AtMost (place course.out.at) (place course.out.to) }
    requires back { IsBackward since.window }
    requires first { slice_get (fresh_at edges.old since.window.of) 0 ≡ Some v }
    requires fails { v.holds ≡ false }
    requires fits_left { CanMove since.window v }
    requires fits_run { CanMoveRun since.window course }
    ensures turned { IfOk result (λ turn. IsTurn edges.old edges.new since course turn) }
    ensures memory { OnErr result (edges.old.spare < 2) }
{
    let end = Cut::end(&v.on);
    let begin = Cut::begin(&v.on);
    let held = course.reach.earlier(begin);
    let to = course.out.end();
    if to.precedes(&end) {
        let out = course.out.turn(edges, true, held, to)?;
        if !begin.precedes(&to) || !course.run.precedes(&to) {
            return Ok(Step::Done(Wrote {
                out,
                reach: course.reach,
                run: course.run,
            }));
        }
        return Ok(Step::Done(Wrote {
            out,
            reach: to,
            run: to,
        }));
    }
    let out = course.out.turn(edges, true, held, end)?;
    let _ = edges.pass(since.window.of);
    Ok(Step::More(Wrote {
        out,
        reach: end,
        run: end,
    }))
}

/// What was found counts from now on. Of both inputs' next verdicts the one that ends first is read, the right one's time moved by
/// the window; where both reach beyond the stretch it is told to its end.
fn pass_first(
    edges: &mut Edges,
    since: Since,
    course: Wrote,
    v: Verdict,
    w: Verdict,
) -> Result<Step, Memory>
    requires left { since.window.of < length edges.old.edges }
    requires right { since.right < length edges.old.edges }
    requires own { course.out.edge < length edges.old.edges }
    requires sound { IsSound course.out }
    requires inside { AtMost (place course.out.at) (place course.out.to) }
    requires first_left { slice_get (fresh_at edges.old since.window.of) 0 ≡ Some v }
    requires first_right { slice_get (fresh_at edges.old since.right) 0 ≡ Some w }
    requires fits_right { CanMove since.window w }
    ensures passed { IfOk result (λ turn. HasPassedFirst edges.old edges.new since course v w turn) }
    ensures memory { OnErr result (edges.old.spare < 2) }
{
    let end = Cut::end(&v.on);
    let last = Cut::end(&w.on).shift_begin(since.window.begin_by, since.window.begin_in);
    if !end.precedes(&last) {
        let _ = edges.pass(since.right);
        return Ok(Step::More(course));
    }
    if course.out.end().precedes(&end) {
        let done = rest(edges, course)?;
        return Ok(Step::Done(done));
    }
    let _ = edges.pass(since.window.of);
    Ok(Step::More(course))
}

/// Both inputs hold next: what the right one tells within the left one's run counts, from the time moved by the window on.
fn count(
    edges: &mut Edges,
    since: Since,
    course: Wrote,
    v: Verdict,
    w: Verdict,
) -> Result<Step, Memory>
    requires left { since.window.of < length edges.old.edges }
    requires right { since.right < length edges.old.edges }
    requires own { course.out.edge < length edges.old.edges }
    requires left_apart { since.window.of ≢ course.out.edge }
    requires right_apart { since.right ≢ course.out.edge }
    requires apart { since.window.of ≢ since.right }
    requires sound { IsSound course.out }
    requires inside { AtMost (place course.out.at) (place course.out.to) }
    requires back { IsBackward since.window }
    requires first_left { slice_get (fresh_at edges.old since.window.of) 0 ≡ Some v }
    requires first_right { slice_get (fresh_at edges.old since.right) 0 ≡ Some w }
    requires left_holds { v.holds ≡ true }
    requires right_holds { w.holds ≡ true }
    requires fits_right { CanMove since.window w }
    requires fits_run { CanMoveRun since.window course }
    ensures turned { IfOk result (λ turn. IsTurn edges.old edges.new since course turn) }
    ensures memory { OnErr result (edges.old.spare < 4) }
{
    let w_end = Cut::end(&w.on);
    let from = Cut::begin(&w.on).later(course.run);
    if !from.precedes(&w_end) {
        let _ = edges.pass(since.right);
        return Ok(Step::More(course));
    }
    let v_end = Cut::end(&v.on);
    let begin = from.shift_begin(since.window.begin_by, since.window.begin_in);
    if !begin.precedes(&v_end) {
        let turn = go_on(edges, since, course, v)?;
        return Ok(turn);
    }
    if course.out.end().precedes(&begin) {
        let done = rest(edges, course)?;
        return Ok(Step::Done(done));
    }
    let out = course
        .out
        .turn(edges, true, course.reach.earlier(v_end), begin)?;
    let reach = course
        .reach
        .later(w_end.shift_end(since.window.end_by, since.window.end_in));
    let run = course.run;
    let turn = pass_first(edges, since, Wrote { out, reach, run }, v, w)?;
    Ok(turn)
}

/// Reads the next verdict of one of the inputs, or tells the stretch to its end where that needs no more.
fn read_since(edges: &mut Edges, since: Since, course: Wrote) -> Result<Step, Memory>
    requires left { since.window.of < length edges.old.edges }
    requires right { since.right < length edges.old.edges }
    requires own { course.out.edge < length edges.old.edges }
    requires left_apart { since.window.of ≢ course.out.edge }
    requires right_apart { since.right ≢ course.out.edge }
    requires apart { since.window.of ≢ since.right }
    requires sound { IsSound course.out }
    requires inside { AtMost (place course.out.at) (place course.out.to) }
    requires back { IsBackward since.window }
    requires fits_left { (v : Told) → slice_get (fresh_at edges.old since.window.of) 0 ≡ Some v → CanMove since.window v }
    requires fits_right { (v : Told) → slice_get (fresh_at edges.old since.right) 0 ≡ Some v → CanMove since.window v }
    requires fits_run { CanMoveRun since.window course }
    ensures turned { IfOk result (λ turn. IsTurn edges.old edges.new since course turn) }
    ensures memory { OnErr result (edges.old.spare < 2 + length (fresh_at edges.old since.window.of) + length (fresh_at edges.old since.right)) }
{
    let Some(v) = edges.next(since.window.of) else {
        let done = rest(edges, course)?;
        return Ok(Step::Done(done));
    };
    if !v.holds {
        let turn = end_run(edges, since, course, v)?;
        return Ok(turn);
    }
    let Some(w) = edges.next(since.right) else {
        let turn = go_on(edges, since, course, v)?;
        return Ok(turn);
    };
    if !w.holds {
        let _ = edges.pass(since.right);
        return Ok(Step::More(course));
    }
    let turn = count(edges, since, course, v, w)?;
    Ok(turn)
}

/// Takes all that both inputs have ready, and tells the stretch to its end.
///
/// # Errors
///
/// `Memory` where there is no memory, which never comes with a spare of twice the verdicts that were not read, plus 2.
pub(crate) fn since_on(edges: &mut Edges, since: Since, course: Wrote) -> Result<Wrote, Memory>
    requires left { since.window.of < length edges.old.edges }
    requires right { since.right < length edges.old.edges }
    requires own { course.out.edge < length edges.old.edges }
    requires left_apart { since.window.of ≢ course.out.edge }
    requires right_apart { since.right ≢ course.out.edge }
    requires apart { since.window.of ≢ since.right }
    requires sound { IsSound course.out }
    requires inside { AtMost (place course.out.at) (place course.out.to) }
    requires back { IsBackward since.window }
    requires fits_left { (k : ℕ) (v : Told) → slice_get (fresh_at edges.old since.window.of) k ≡ Some v → CanMove since.window v }
    requires fits_right { (k : ℕ) (v : Told) → slice_get (fresh_at edges.old since.right) k ≡ Some v → CanMove since.window v }
    requires fits_run { CanMoveRun since.window course }
    ensures told { IfOk result (λ end. HasSinceTold edges.old edges.new since course end) }
    ensures memory { OnErr result (edges.old.spare
        < 2 * (length (fresh_at edges.old since.window.of) + length (fresh_at edges.old since.right)) + 2) }
{
    let mut here = course;
    loop {
        match read_since(edges, since, here)? {
            Step::More(next) => here = next,
            Step::Done(end) => return Ok(end),
        }
    }
}
