//! The connectives, one verdict of each input at a time.

ghost use Rattle.std.specs.Prelude.{◌≡◌, ◌≢◌, ◌+◌, ◌*◌, ◌<◌, length, slice_get, IfOk, IsTrue, OnErr, MatchOption, Some};
ghost use Rattle.rational.specs.Places.{ends, AtMost, Same};
ghost use Rattle.frac128.specs.Cuts.{place};
ghost use Rattle.frac128.specs.Spans.{interval};
ghost use Rattle.online_nodes.specs.Held.{fresh_at};
ghost use Rattle.online_nodes.specs.Written.{IsSound};
ghost use Rattle.online_nodes.specs.Joins.{joined, HasFilled, HasJoined, HasPaused, HasReadBoth};

use crate::edges::Edges;
use crate::writer::Out;
use frac128::{Cut, Memory};
use stl_syntax::{Join, Verdict};

/// The truth of a connective by those of its inputs.
fn joined(join: Join, left: bool, right: bool) -> bool
    ensures { result ≡ joined join left right }
{
    match join {
        Join::And => left && right,
        Join::Or => left || right,
        Join::Implies => !left || right,
    }
}

/// The node's two inputs.
#[derive(Clone, Copy)]
pub(crate) struct Inputs {
    pub(crate) left: u32,
    pub(crate) right: u32,
}

/// Reads on in both inputs up to the earlier end of their next verdicts. None where neither ends inside the stretch, and then nothing
/// changed.
fn read_first(
    edges: &mut Edges,
    join: Join,
    inputs: Inputs,
    out: Out,
    v: Verdict,
    w: Verdict,
) -> Result<Option<Out>, Memory>
    requires left { inputs.left < length edges.old.edges }
    requires right { inputs.right < length edges.old.edges }
    requires own { out.edge < length edges.old.edges }
    requires left_apart { inputs.left ≢ out.edge }
    requires right_apart { inputs.right ≢ out.edge }
    requires apart { inputs.left ≢ inputs.right }
    requires sound { IsSound out }
    requires inside { AtMost (place out.at) (place out.to) }
    requires first_left { slice_get (fresh_at edges.old inputs.left) 0 ≡ Some v }
    requires first_right { slice_get (fresh_at edges.old inputs.right) 0 ≡ Some w }
    ensures read { IfOk result (λ r. MatchOption r
        (HasPaused edges.old edges.new inputs out)
        (λ next. HasReadBoth edges.old edges.new join inputs out next)) }
    ensures memory { OnErr result (edges.old.spare ≡ 0) }
{
    let v_end = Cut::end(&v.on);
    let w_end = Cut::end(&w.on);
    let holds = joined(join, v.holds, w.holds);
    if w_end.precedes(&v_end) {
        if !w_end.precedes(&out.end()) {
            return Ok(None);
        }
        let next = out.upto_within(edges, holds, w_end)?;
        let _ = edges.pass(inputs.right);
        return Ok(Some(next));
    }
    if !v_end.precedes(&out.end()) {
        return Ok(None);
    }
    let next = out.upto_within(edges, holds, v_end)?;
    let _ = edges.pass(inputs.left);
    Ok(Some(next))
}

/// Whether two verdicts end at one place.
#[inline(always)]
fn end_alike(v: &Verdict, w: &Verdict) -> bool
    ensures { IsTrue result → Same (ends (interval v.now.on)) (ends (interval w.now.on)) }
{
    v.on.to_in == w.on.to_in && v.on.to == w.on.to
}

/// Reads on in both inputs up to the one end of their next verdicts. None where they do not end inside the stretch, and then nothing
/// changed.
fn read_together(
    edges: &mut Edges,
    join: Join,
    inputs: Inputs,
    out: Out,
    v: Verdict,
    w: Verdict,
) -> Result<Option<Out>, Memory>
    requires left { inputs.left < length edges.old.edges }
    requires right { inputs.right < length edges.old.edges }
    requires own { out.edge < length edges.old.edges }
    requires left_apart { inputs.left ≢ out.edge }
    requires right_apart { inputs.right ≢ out.edge }
    requires apart { inputs.left ≢ inputs.right }
    requires sound { IsSound out }
    requires inside { AtMost (place out.at) (place out.to) }
    requires first_left { slice_get (fresh_at edges.old inputs.left) 0 ≡ Some v }
    requires first_right { slice_get (fresh_at edges.old inputs.right) 0 ≡ Some w }
    requires alike { Same (ends (interval v.on)) (ends (interval w.on)) }
    ensures read { IfOk result (λ r. MatchOption r
        (HasPaused edges.old edges.new inputs out)
        (λ next. HasReadBoth edges.old edges.new join inputs out next)) }
    ensures memory { OnErr result (edges.old.spare ≡ 0) }
{
    let end = Cut::end(&v.on);
    if !end.precedes(&out.end()) {
        return Ok(None);
    }
    let next = out.upto_within(edges, joined(join, v.holds, w.holds), end)?;
    let _ = edges.pass(inputs.left);
    let _ = edges.pass(inputs.right);
    Ok(Some(next))
}

/// Reads on in both inputs up to the earlier end of their next verdicts. None where one has none, or where neither ends inside the
/// stretch, and then nothing changed.
fn read_both(edges: &mut Edges, join: Join, inputs: Inputs, out: Out) -> Result<Option<Out>, Memory>
    requires left { inputs.left < length edges.old.edges }
    requires right { inputs.right < length edges.old.edges }
    requires own { out.edge < length edges.old.edges }
    requires left_apart { inputs.left ≢ out.edge }
    requires right_apart { inputs.right ≢ out.edge }
    requires apart { inputs.left ≢ inputs.right }
    requires sound { IsSound out }
    requires inside { AtMost (place out.at) (place out.to) }
    ensures read { IfOk result (λ r. MatchOption r
        (HasPaused edges.old edges.new inputs out)
        (λ next. HasReadBoth edges.old edges.new join inputs out next)) }
    ensures memory { OnErr result (edges.old.spare ≡ 0) }
{
    let Some(v) = edges.next(inputs.left) else {
        return Ok(None);
    };
    let Some(w) = edges.next(inputs.right) else {
        return Ok(None);
    };
    if end_alike(&v, &w) {
        return read_together(edges, join, inputs, out, v, w);
    }
    read_first(edges, join, inputs, out, v, w)
}

/// Tells the rest of the stretch, where both inputs reach its end or all is told. What ends there need not be read: it is let go unread.
fn end_join(edges: &mut Edges, join: Join, inputs: Inputs, out: Out) -> Result<Out, Memory>
    requires left { inputs.left < length edges.old.edges }
    requires right { inputs.right < length edges.old.edges }
    requires own { out.edge < length edges.old.edges }
    requires left_apart { inputs.left ≢ out.edge }
    requires right_apart { inputs.right ≢ out.edge }
    requires apart { inputs.left ≢ inputs.right }
    requires sound { IsSound out }
    requires inside { AtMost (place out.at) (place out.to) }
    ensures filled { IfOk result (λ end. HasFilled edges.old edges.new join inputs out end) }
    ensures memory { OnErr result (edges.old.spare ≡ 0) }
{
    let Some(v) = edges.next(inputs.left) else {
        return Ok(out);
    };
    let Some(w) = edges.next(inputs.right) else {
        return Ok(out);
    };
    let end = out.upto(edges, joined(join, v.holds, w.holds), out.end())?;
    Ok(end)
}

/// Takes all that both inputs have ready, and tells the stretch to its end.
///
/// # Errors
///
/// `Memory` where there is no memory, which never comes with a spare of the verdicts that were not read, plus 1.
pub(crate) fn connect(
    edges: &mut Edges,
    join: Join,
    inputs: Inputs,
    out: Out,
) -> Result<Out, Memory>
    requires left { inputs.left < length edges.old.edges }
    requires right { inputs.right < length edges.old.edges }
    requires own { out.edge < length edges.old.edges }
    requires left_apart { inputs.left ≢ out.edge }
    requires right_apart { inputs.right ≢ out.edge }
    requires apart { inputs.left ≢ inputs.right }
    requires sound { IsSound out }
    requires inside { AtMost (place out.at) (place out.to) }
    ensures joined { IfOk result (λ end. HasJoined edges.old edges.new join inputs out end) }
    ensures memory { OnErr result (edges.old.spare < length (fresh_at edges.old inputs.left) + length (fresh_at edges.old inputs.right) + 1) }
{
    let mut here = out;
    while let Some(next) = read_both(edges, join, inputs, here)? {
        here = next;
    }
    let end = end_join(edges, join, inputs, here)?;
    Ok(end)
}
