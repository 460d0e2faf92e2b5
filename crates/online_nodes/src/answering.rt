//! One answer of a node: its body by its kind, and what is let go of its inputs' edges then.

ghost use Rattle.std.specs.Prelude.{◌≡◌, ◌≢◌, ◌+◌, ◌*◌, ◌<◌, ◌≤ℤ◌, ◌+ℤ◌, neg_ℤ, length, not, pos, IfOk, OnErr, OnOk, None, true, false};
ghost use Rattle.rational.specs.Places.{AtMost};
ghost use Rattle.frac128.specs.Cuts.{place};
ghost use Rattle.online_nodes.specs.Held.{fresh_at};
ghost use Rattle.online_nodes.specs.Written.{IsSound, waiting};
ghost use Rattle.online_nodes.specs.Kinds.{held_in, inputs_of, keeps_marks, IsNear};
ghost use Rattle.online_nodes.specs.declared.answering.Marks.{Marks as Kept};
ghost use Rattle.online_nodes.specs.Answering.{back_by, is_empty, CanAnswer, CanRelease, CanSweep, HasAnswered};
ghost use Rattle.online_nodes.specs.Answering.{HasBody, HasReleased, HasReleasedTwo, HasSweptAll, HasToldAll};
ghost use Rattle.online_nodes.specs.declared.kind.Kind.TheVariants as K;

use crate::edges::Edges;
use crate::join::connect;
use crate::kind::{FOR_EVER, Kind};
use crate::negation::{constant, negate};
use crate::since::{Since, Wrote, since_on};
use crate::until::{Until, until_on};
use crate::window::{Sweep, Window, sweep_on};
use crate::writer::Out;
use frac128::{Cut, Memory};

/// What an operator keeps in mind: up to where what was read counts, and where the left input's run began.
#[derive(Clone, Copy)]
pub(crate) struct Marks {
    pub(crate) reach: Cut,
    pub(crate) run: Cut,
}

/// What was written of a stretch, and what is kept in mind then.
#[derive(Clone, Copy)]
pub(crate) struct Outcome {
    pub(crate) out: Out,
    pub(crate) marks: Marks,
}

impl Window {
    /// Whether no time lies in the window.
    fn is_empty(&self) -> bool
        ensures { result ≡ is_empty self.now }
    {
        !(self.begin_by < self.end_by) && !(self.begin_in && self.end_in)
    }

    /// How far back from its front a node that looks behind still needs its input: nothing, where all that was found counts for
    /// ever.
    fn back(&self) -> i64
        ensures { result ≡ back_by self.now }
    {
        if self.end_by < FOR_EVER {
            self.end_by
        } else {
            self.begin_by
        }
    }
}

/// One truth to the end of the stretch.
fn tell_all(edges: &mut Edges, holds: bool, out: Out, marks: Marks) -> Result<Outcome, Memory>
    requires own { out.edge < length edges.old.edges }
    requires sound { IsSound out }
    requires inside { AtMost (place out.at) (place out.to) }
    ensures told { IfOk result (λ a. HasToldAll edges.old edges.new holds out marks a) }
    ensures memory { OnErr result (edges.old.spare ≡ 0) }
{
    let end = constant(edges, holds, out)?;
    Ok(Outcome { out: end, marks })
}

/// A window, which where it is empty needs nothing of its input.
#[inline(always)]
fn sweep_all(edges: &mut Edges, window: Window, out: Out, marks: Marks) -> Result<Outcome, Memory>
    requires own { out.edge < length edges.old.edges }
    requires sound { IsSound out }
    requires inside { AtMost (place out.at) (place out.to) }
    requires input { CanSweep window edges.old out.edge }
    ensures swept { IfOk result (λ a. HasSweptAll window edges.old edges.new out marks a) }
    ensures memory { OnErr result (edges.old.spare < 2 * (length (fresh_at edges.old window.of)) + 2) }
{
    if window.is_empty() {
        let told = tell_all(edges, !window.seeks, out, marks)?;
        return Ok(told);
    }
    let sweep = Sweep {
        out,
        reach: marks.reach,
    };
    let end = sweep_on(edges, window, sweep)?;
    let after = Marks {
        reach: end.reach,
        run: marks.run,
    };
    Ok(Outcome {
        out: end.out,
        marks: after,
    })
}

/// The turns of `until`.
#[inline(always)]
fn until_all(edges: &mut Edges, until: Until, out: Out, marks: Marks) -> Result<Outcome, Memory>
    requires own { out.edge < length edges.old.edges }
    requires sound { IsSound out }
    requires inside { AtMost (place out.at) (place out.to) }
    requires able { CanAnswer (K.Until until) edges.old out.edge marks }
    ensures told { IfOk result (λ a. HasBody (K.Until until) edges.old edges.new out marks a) }
    ensures memory { OnErr result (edges.old.spare < 2 * (length (fresh_at edges.old until.window.of) + length (fresh_at edges.old until.right)) + 2) }
{
    let sweep = Sweep {
        out,
        reach: marks.reach,
    };
    let end = until_on(edges, until, sweep)?;
    let after = Marks {
        reach: end.reach,
        run: marks.run,
    };
    Ok(Outcome {
        out: end.out,
        marks: after,
    })
}

/// The turns of `since`.
#[inline(always)]
fn since_all(edges: &mut Edges, since: Since, out: Out, marks: Marks) -> Result<Outcome, Memory>
    requires own { out.edge < length edges.old.edges }
    requires sound { IsSound out }
    requires inside { AtMost (place out.at) (place out.to) }
    requires able { CanAnswer (K.Since since) edges.old out.edge marks }
    ensures told { IfOk result (λ a. HasBody (K.Since since) edges.old edges.new out marks a) }
    ensures memory { OnErr result (edges.old.spare < 2 * (length (fresh_at edges.old since.window.of) + length (fresh_at edges.old since.right)) + 2) }
{
    let course = Wrote {
        out,
        reach: marks.reach,
        run: marks.run,
    };
    let end = since_on(edges, since, course)?;
    let after = Marks {
        reach: end.reach,
        run: end.run,
    };
    Ok(Outcome {
        out: end.out,
        marks: after,
    })
}

/// The body of a constant, a negation or a connective, which keeps nothing in mind.
fn plain_body(edges: &mut Edges, kind: &Kind, out: Out) -> Result<Out, Memory>
    requires own { out.edge < length edges.old.edges }
    requires sound { IsSound out }
    requires inside { AtMost (place out.at) (place out.to) }
    requires able { (marks : Kept) × CanAnswer kind.now edges.old out.edge marks }
    requires plain { keeps_marks kind.now ≡ false }
    ensures told { (marks : Kept) → IfOk result (λ end. HasBody kind.now edges.old edges.new out marks (record { out = end; marks = marks })) }
    ensures memory { OnErr result (edges.old.spare < 2 * held_in edges.old (inputs_of kind.now) + 2) }
{
    match kind {
        Kind::Const(holds) => {
            let end = constant(edges, *holds, out)?;
            Ok(end)
        }
        Kind::Not(of) => {
            let end = negate(edges, *of, out)?;
            Ok(end)
        }
        Kind::Join(join, inputs) => {
            let end = connect(edges, *join, *inputs, out)?;
            Ok(end)
        }
        Kind::Over(_) | Kind::Until(_) | Kind::Since(_) => unreachable!(),
    }
}

/// The body of a window, of until or of since.
fn body(edges: &mut Edges, kind: Kind, out: Out, marks: Marks) -> Result<Outcome, Memory>
    requires own { out.edge < length edges.old.edges }
    requires sound { IsSound out }
    requires inside { AtMost (place out.at) (place out.to) }
    requires able { CanAnswer kind edges.old out.edge marks }
    requires keeps { keeps_marks kind ≡ true }
    ensures told { IfOk result (λ a. HasBody kind edges.old edges.new out marks a) }
    ensures memory { OnErr result (edges.old.spare < 2 * held_in edges.old (inputs_of kind) + 2) }
{
    match kind {
        Kind::Over(window) => {
            let told = sweep_all(edges, window, out, marks)?;
            Ok(told)
        }
        Kind::Until(until) => {
            let told = until_all(edges, until, out, marks)?;
            Ok(told)
        }
        Kind::Since(since) => {
            let told = since_all(edges, since, out, marks)?;
            Ok(told)
        }
        Kind::Const(_) | Kind::Not(_) | Kind::Join(_, _) => unreachable!(),
    }
}

/// Tells the stretch of `out` to its end, puts it onto the node's edge, and gives what is kept in mind then.
///
/// # Errors
///
/// `Memory` where there is no memory, which never comes with a spare of twice what the inputs hold, plus 2.
pub(crate) fn answer(edges: &mut Edges, kind: Kind, out: Out, marks: Marks) -> Result<Marks, Memory>
    requires own { out.edge < length edges.old.edges }
    requires sound { IsSound out }
    requires inside { AtMost (place out.at) (place out.to) }
    requires nothing { out.holds ≡ None }
    requires able { CanAnswer kind edges.old out.edge marks }
    requires keeps { keeps_marks kind ≡ true }
    ensures answered { IfOk result (λ after. HasAnswered kind edges.old edges.new out marks after) }
    ensures memory { OnErr result (edges.old.spare < 2 * held_in edges.old (inputs_of kind) + 2) }
{
    let told = body(edges, kind, out, marks)?;
    told.out.finish(edges)?;
    Ok(told.marks)
}

/// As `answer`, for a node that keeps nothing in mind.
///
/// # Errors
///
/// As `answer`.
pub(crate) fn answer_plain(edges: &mut Edges, kind: &Kind, out: Out) -> Result<(), Memory>
    requires own { out.edge < length edges.old.edges }
    requires sound { IsSound out }
    requires inside { AtMost (place out.at) (place out.to) }
    requires nothing { out.holds ≡ None }
    requires able { (marks : Kept) × CanAnswer kind.now edges.old out.edge marks }
    requires plain { keeps_marks kind.now ≡ false }
    ensures answered { (marks : Kept) → OnOk result (HasAnswered kind.now edges.old edges.new out marks marks) }
    ensures memory { OnErr result (edges.old.spare < 2 * held_in edges.old (inputs_of kind.now) + 2) }
{
    let end = plain_body(edges, kind, out)?;
    end.finish(edges)?;
    Ok(())
}

/// A front, `by` earlier.
fn earlier_by(front: i64, by: i64) -> i64
    requires front { IsNear front }
    requires by { IsNear by }
    ensures { result ≡ front +ℤ neg_ℤ by }
{
    front - by
}

/// Drops from two edges what ends by a time each.
fn release_two(edges: &mut Edges, left: u32, left_by: i64, right: u32, right_by: i64)
    requires left { left < length edges.old.edges }
    requires right { right < length edges.old.edges }
    requires apart { left ≢ right }
    ensures { HasReleasedTwo edges.old edges.new left left_by right right_by }
{
    edges.drop_by(left, left_by);
    edges.drop_by(right, right_by);
}

/// Drops from the inputs' edges what is needed no more, once the node's number is `front`.
#[inline(always)]
pub(crate) fn release(edges: &mut Edges, kind: Kind, front: i64)
    requires able { CanRelease kind edges.old }
    requires near { IsNear front }
    ensures { HasReleased kind front edges.old edges.new }
{
    match kind {
        Kind::Const(_) => {}
        Kind::Not(of) => edges.drop_by(of, front),
        Kind::Join(_, inputs) => release_two(edges, inputs.left, front, inputs.right, front),
        Kind::Over(window) => edges.drop_by(window.of, earlier_by(front, window.back())),
        Kind::Until(until) => {
            let right_by = earlier_by(front, until.window.end_by);
            release_two(edges, until.window.of, front, until.right, right_by)
        }
        Kind::Since(since) => {
            let by = earlier_by(front, since.window.back());
            release_two(edges, since.window.of, by, since.right, by)
        }
    }
}
