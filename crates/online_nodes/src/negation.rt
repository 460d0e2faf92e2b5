//! Negation, one verdict of the input at a time, and constants.

ghost use Rattle.std.specs.Prelude.{◌≡◌, ◌≢◌, ◌+◌, ◌<◌, length, IfOk, OnErr, MatchOption};
ghost use Rattle.rational.specs.Places.{AtMost};
ghost use Rattle.frac128.specs.Cuts.{place};
ghost use Rattle.online_nodes.specs.Held.{fresh_at};
ghost use Rattle.online_nodes.specs.Written.{HasAnswer, IsSound};
ghost use Rattle.online_nodes.specs.Negations.{HasDenied, HasNegated, HasReadNext, HasWaited};

use crate::edges::Edges;
use crate::writer::Out;
use frac128::{Cut, Memory};

/// Reads the next verdict of the input. None where there is none, or where it does not end inside the stretch, and then nothing
/// changed.
fn read_next(edges: &mut Edges, of: u32, out: Out) -> Result<Option<Out>, Memory>
    requires input { of < length edges.old.edges }
    requires own { out.edge < length edges.old.edges }
    requires apart { of ≢ out.edge }
    requires sound { IsSound out }
    requires inside { AtMost (place out.at) (place out.to) }
    ensures read { IfOk result (λ r. MatchOption r
        (HasWaited edges.old edges.new of out)
        (λ next. HasReadNext edges.old edges.new of out next)) }
    ensures memory { OnErr result (edges.old.spare ≡ 0) }
{
    let Some(v) = edges.next(of) else {
        return Ok(None);
    };
    let v_end = Cut::end(&v.on);
    if !v_end.precedes(&out.end()) {
        return Ok(None);
    }
    let next = out.upto_within(edges, !v.holds, v_end)?;
    let _ = edges.pass(of);
    Ok(Some(next))
}

/// Tells the rest of the stretch, where the input reaches its end or all is told. What ends there need not be read: it is let go unread.
fn end_negation(edges: &mut Edges, of: u32, out: Out) -> Result<Out, Memory>
    requires input { of < length edges.old.edges }
    requires own { out.edge < length edges.old.edges }
    requires apart { of ≢ out.edge }
    requires sound { IsSound out }
    requires inside { AtMost (place out.at) (place out.to) }
    ensures denied { IfOk result (λ end. HasDenied edges.old edges.new of out end) }
    ensures memory { OnErr result (edges.old.spare ≡ 0) }
{
    let Some(v) = edges.next(of) else {
        return Ok(out);
    };
    let end = out.upto(edges, !v.holds, out.end())?;
    Ok(end)
}

/// Takes all that the input has ready, and tells its negation to the end of the stretch.
///
/// # Errors
///
/// `Memory` where there is no memory, which never comes with a spare of the verdicts that were not read, plus 1.
pub(crate) fn negate(edges: &mut Edges, of: u32, out: Out) -> Result<Out, Memory>
    requires input { of < length edges.old.edges }
    requires own { out.edge < length edges.old.edges }
    requires apart { of ≢ out.edge }
    requires sound { IsSound out }
    requires inside { AtMost (place out.at) (place out.to) }
    ensures negated { IfOk result (λ end. HasNegated edges.old edges.new of out end) }
    ensures memory { OnErr result (edges.old.spare < length (fresh_at edges.old of) + 1) }
{
    let mut here = out;
    while let Some(next) = read_next(edges, of, here)? {
        here = next;
    }
    let end = end_negation(edges, of, here)?;
    Ok(end)
}

/// Tells a constant to the end of the stretch.
///
/// # Errors
///
/// `Memory` where there is no memory, which never comes with a spare of 1.
pub(crate) fn constant(edges: &mut Edges, holds: bool, out: Out) -> Result<Out, Memory>
    requires own { out.edge < length edges.old.edges }
    requires sound { IsSound out }
    requires inside { AtMost (place out.at) (place out.to) }
    ensures said { IfOk result (λ end. HasAnswer edges.old edges.new out holds end) }
    ensures all { IfOk result (λ end. AtMost (place out.to) (place end.at)) }
    ensures within { IfOk result (λ end. AtMost (place end.at) (place out.to)) }
    ensures memory { OnErr result (edges.old.spare ≡ 0) }
{
    let end = out.upto(edges, holds, out.end())?;
    Ok(end)
}
