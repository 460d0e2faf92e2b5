//! Since from the start.
ghost use Rattle.std.specs.Prelude.{◌≡◌, ◌^◌, None, IsTrue, MatchBool, IfOk, IfErr, IfSome, OnOk, OnErr};
ghost use Rattle.rational.specs.Rational.{IsWithin};
ghost use Rattle.rational.specs.Time.{◌<ʳ◌, ◌≈◌};
ghost use Rattle.rational.specs.Extended.{value_at};
ghost use Rattle.rational.specs.Affine.{HasBoundedLevel, IsOrderᵉ};
ghost use Rattle.rational.specs.Onward.{IsBelow};
ghost use Rattle.rational.specs.Places.{Before, Same};
ghost use Rattle.frac128.specs.Value.{value};
ghost use Rattle.frac128.specs.Cuts.{place};
ghost use Rattle.frac128.specs.declared.frac.Frac.{Frac as Time};
ghost use Rattle.pl_signal.specs.declared.faults.OpFault.TheVariants as F;
ghost use Rattle.pl_signal.specs.Joining.{IsGapFault};
ghost use Rattle.pl_signal.specs.Wide.{HasCause};
ghost use Rattle.courses.specs.Courses.{IsGap, IsMeet};
ghost use Rattle.courses.specs.Pairs.{IsPairWithin};
ghost use Rattle.pieces.specs.Chains.{IsLimited, Tells, stop};
ghost use Rattle.pieces.specs.Joining.{Joins};
ghost use Rattle.pieces.specs.Sinces.{BasesOfTwo, GoesOver, IsFit, IsPartFault, IsPassFault, Passes, SinceOf, SinceStep};

use crate::Pieces;
use crate::next::{next_of, passed};
use courses::{Course, Gap, Meet, course_over, is_under, limit_of, turning};
use frac128::{Cut, Memory};
use pl_signal::{OpFault, Side, WidePair, chosen, fault_of};
use std::cmp::Ordering;
use value_laws::Shape;

/// At each time t the greatest value, over the times u from the start to t, of the least of `b` at u and of all values of `a`
/// from u to t (the Sup and the Inf of them). Both begin at one place and end at one, and so does the result.
///
/// Each of its shapes is constant, or a moving shape with the base of a moving shape of one of the two. It is refused as `Wide`
/// only where a function in play in this step has a crossing or a constant value there that needs a denominator of 2^60 or more.
///
/// Definition: this project's profile, the mirror image of `until_to_end`.
///
/// # Errors
///
/// `Wide` for a pair that is in play in this step; `Memory` where memory is wanting.
pub fn since_from_start<P: Shape>(a: &Pieces<P>, b: &Pieces<P>) -> Result<Pieces<P>, OpFault<P>>
    requires left { IsLimited P.Shape a.now }
    requires right { IsLimited P.Shape b.now }
    requires begins { Same a.now.from b.now.from }
    requires ends { Same (stop a.now) (stop b.now) }
    ensures worth { IfOk result (Tells P.Shape (SinceOf P.Shape a.now b.now) a.now.from (stop a.now)) }
    ensures bases { IfOk result (BasesOfTwo P.Shape a.now b.now) }
    ensures wide { IfErr result (HasCause P.Shape (SinceStep P.Shape a.now b.now) a.now.from.at (stop a.now).at) }
    ensures pair { IfErr result (IsPairWithin a.now.from.at (stop a.now).at) }
{
    let count = a.len();
    // For the proof alone: that this one is normal is a clause of `len`.
    let others = b.len();
    let mut built = Pieces::with_room(a.alloc(), &a.from(), count.saturating_add(others))?;
    let mut before = P::least();
    let mut fault = None;
    let mut i = 0;
    let mut j = 0;
    while i < count {
        let p = a.piece(i);
        let q = b.piece(j);
        let (until, ends_p, ends_q) = next_of(&p.until, &q.until);
        let gap = Gap {
            before,
            left: p.shape,
            right: q.shape,
            from: built.until().time,
            to: until.time,
        };
        match pass(&mut built, &gap, until, &mut fault) {
            Ok(last) => before = last,
            Err(Memory) => return Err(fault_of(fault)),
        }
        i = passed(i, ends_p);
        j = passed(j, ends_q);
    }
    Ok(built)
}

/// Goes on with the since over a part of both sides, up to a place, and tells a shape with its value there. What is refused is put into
/// `fault`.
fn pass<P: Shape>(
    built: &mut Pieces<P>,
    gap: &Gap<P>,
    until: &Cut,
    fault: &mut Option<WidePair<P>>,
) -> Result<P, Memory>
    requires later { Before (stop built.old) (place until.now) }
    requires begins { value gap.now.from ≡ (stop built.old).at }
    requires ends { gap.now.to ≡ until.now.time }
    requires fit { IsFit P.Shape gap.now }
    requires none { fault.old ≡ None }
    ensures ok { IfOk result (Passes P.Shape gap.now until.now built.old built.new) }
    ensures still { OnOk result (fault.new ≡ None) }
    ensures wide { OnErr result (IfSome fault.new (λ pair. (value gap.now.from <ʳ value gap.now.to) × IsPassFault P.Shape gap.now built.old (F.Wide pair))) }
{
    match gap.from.cmp(&gap.to) {
        Ordering::Less => over_gap(built, gap, until, fault),
        _ => at_once(built, gap, until),
    }
}

/// The same, where the part has one time alone: one of the three shapes has the value there, and nothing is refused.
#[inline(never)]
fn at_once<P: Shape>(built: &mut Pieces<P>, gap: &Gap<P>, until: &Cut) -> Result<P, Memory>
    requires later { Before (stop built.old) (place until.now) }
    requires begins { value gap.now.from ≡ (stop built.old).at }
    requires ends { gap.now.to ≡ until.now.time }
    requires fit { IsFit P.Shape gap.now }
    requires instant { value gap.now.from ≈ value gap.now.to }
    ensures { IfOk result (GoesOver P.Shape gap.now until.now built.old built.new) }
{
    let most = chosen(Side::Greatest, &gap.right, &gap.before, &gap.from);
    let value = chosen(Side::Least, &gap.left, &most, &gap.from);
    built.put(until, &value)?;
    Ok(value)
}

/// The same over a gap, in one stretch, or in two where both sides cross.
fn over_gap<P: Shape>(
    built: &mut Pieces<P>,
    gap: &Gap<P>,
    until: &Cut,
    fault: &mut Option<WidePair<P>>,
) -> Result<P, Memory>
    requires begins { value gap.now.from ≡ (stop built.old).at }
    requires ends { gap.now.to ≡ until.now.time }
    requires fit { IsFit P.Shape gap.now }
    requires later { value gap.now.from <ʳ value gap.now.to }
    requires none { fault.old ≡ None }
    ensures ok { IfOk result (Passes P.Shape gap.now until.now built.old built.new) }
    ensures still { OnOk result (fault.new ≡ None) }
    ensures wide { OnErr result (IfSome fault.new (λ pair. IsPassFault P.Shape gap.now built.old (F.Wide pair))) }
{
    let start = P::cmp_at(&gap.left, &gap.right, &gap.from);
    let end = P::cmp_at(&gap.left, &gap.right, &gap.to);
    let turn = turning(&gap.left, &gap.right, &gap.from, &gap.to, start, end, fault)?;
    if turn.met {
        return over_both(built, gap, &turn, until, start, end, fault);
    }
    follow(built, gap, until, start, is_under(start, end), fault)
}

/// The same in two stretches, up to where both sides cross and from there on.
#[inline(never)]
fn over_both<P: Shape>(
    built: &mut Pieces<P>,
    gap: &Gap<P>,
    turn: &Meet,
    until: &Cut,
    start: Ordering,
    end: Ordering,
    fault: &mut Option<WidePair<P>>,
) -> Result<P, Memory>
    requires begins { value gap.now.from ≡ (stop built.old).at }
    requires ends { gap.now.to ≡ until.now.time }
    requires fit { IsFit P.Shape gap.now }
    requires turn { IsMeet (P.function gap.now.left) (P.function gap.now.right) gap.now.from gap.now.to turn.now }
    requires met { IsTrue turn.now.met }
    requires start { IsOrderᵉ start (value_at (P.function gap.now.left) (value gap.now.from)) (value_at (P.function gap.now.right) (value gap.now.from)) }
    requires end { IsOrderᵉ end (value_at (P.function gap.now.left) (value gap.now.to)) (value_at (P.function gap.now.right) (value gap.now.to)) }
    requires none { fault.old ≡ None }
    ensures ok { IfOk result (Passes P.Shape gap.now until.now built.old built.new) }
    ensures still { OnOk result (fault.new ≡ None) }
    ensures wide { OnErr result (IfSome fault.new (λ pair. IsPassFault P.Shape gap.now built.old (F.Wide pair))) }
{
    let middle = Cut {
        time: turn.time,
        side: 0,
    };
    let first = Gap {
        before: gap.before,
        left: gap.left,
        right: gap.right,
        from: gap.from,
        to: turn.time,
    };
    let here = follow(built, &first, &middle, start, is_under(start, end), fault)?;
    let second = Gap {
        before: here,
        left: gap.left,
        right: gap.right,
        from: turn.time,
        to: gap.to,
    };
    follow(
        built,
        &second,
        until,
        Ordering::Equal,
        is_under(Ordering::Equal, end),
        fault,
    )
}

/// Goes on with the since over a gap on which both sides are in one order: `start` as it begins, and `under` says whether the left side is
/// below the right side all over.
fn follow<P: Shape>(
    built: &mut Pieces<P>,
    gap: &Gap<P>,
    until: &Cut,
    start: Ordering,
    under: bool,
    fault: &mut Option<WidePair<P>>,
) -> Result<P, Memory>
    requires begins { value gap.now.from ≡ (stop built.old).at }
    requires ends { gap.now.to ≡ until.now.time }
    requires gap { IsGap P.Shape gap.now }
    requires start { IsOrderᵉ start (value_at (P.function gap.now.left) (value gap.now.from)) (value_at (P.function gap.now.right) (value gap.now.from)) }
    requires under { MatchBool under
        (IsBelow (P.function gap.now.left) (P.function gap.now.right) (value gap.now.from) (value gap.now.to))
        (IsBelow (P.function gap.now.right) (P.function gap.now.left) (value gap.now.from) (value gap.now.to)) }
    requires none { fault.old ≡ None }
    ensures ok { IfOk result (GoesOver P.Shape gap.now until.now built.old built.new) }
    ensures still { OnOk result (fault.new ≡ None) }
    ensures wide { OnErr result (IfSome fault.new (λ pair. IsPartFault P.Shape gap.now (F.Wide pair))) }
{
    let course = course_over(gap, start, under, fault)?;
    put_course(built, &course, until, fault)?;
    Ok(limit_of(&course, &until.time))
}

/// Goes on by the course up to a place. What is refused is put into `fault`.
#[inline(always)]
fn put_course<P: Shape>(
    built: &mut Pieces<P>,
    course: &Course<P>,
    until: &Cut,
    fault: &mut Option<WidePair<P>>,
) -> Result<(), Memory>
    requires later { Before (stop built.old) (place until.now) }
    requires from_within { IsWithin (2 ^ 34) (stop built.old).at }
    requires to_within { IsWithin (2 ^ 34) (value until.now.time) }
    requires first { HasBoundedLevel (2 ^ 31) (P.function course.now.first) }
    requires second { HasBoundedLevel (2 ^ 31) (P.function course.now.second) }
    requires one { IsTrue course.now.alone → course.now.second ≡ course.now.first }
    requires none { fault.old ≡ None }
    ensures ok { OnOk result (Joins P.Shape course.now.side built.old course.now.first course.now.second until.now built.new) }
    ensures still { OnOk result (fault.new ≡ None) }
    ensures wide { OnErr result (IfSome fault.new
        (λ pair. (from : Time) × (value from ≡ (stop built.old).at)
        × IsGapFault P.Shape course.now.first course.now.second from until.now.time (F.Wide pair))) }
{
    if course.alone {
        return built.put(until, &course.first);
    }
    built.join(course.side, &course.first, &course.second, until, fault)
}
