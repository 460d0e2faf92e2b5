//! What a since is on a gap on which both of its sides are affine.
ghost use Rattle.std.specs.Prelude.{◌≡◌, ◌⊎◌, ◌^◌, None, false, IsTrue, MatchBool, IfOk, IfSome, OnOk, OnErr};
ghost use Rattle.std.specs.Ordering.{MatchOrdering};
ghost use Rattle.rational.specs.Rational.{IsWithin};
ghost use Rattle.rational.specs.Time.{◌<ʳ◌};
ghost use Rattle.rational.specs.Extended.{value_at, ◌≤ᵉ◌, ◌≈ᵉ◌};
ghost use Rattle.rational.specs.Affine.{IsBounded, HasBoundedLevel, IsOrderᵉ};
ghost use Rattle.frac128.specs.Value.{value};
ghost use Rattle.pl_signal.specs.declared.faults.OpFault.TheVariants as F;
ghost use Rattle.pl_signal.specs.declared.joining.Side.TheVariants.{Least};
ghost use Rattle.pl_signal.specs.Joining.{IsChosen, IsGapFault, TurnsOver};
ghost use Rattle.rational.specs.Onward.{IsBelow, Climbs, Sinks};
ghost use Rattle.courses.specs.Courses.{IsCourse, IsCourseFault, IsFixed, IsGap, IsLow, IsPointOf, IsReached, IsStart, IsMeet, IsValueFault};
ghost use Rattle.courses.specs.Courses.{change_places, goes_under};

use frac128::{Frac, Memory};
use pl_signal::{Side, WidePair, chosen, crossing_kept};
use std::cmp::Ordering;
use value_laws::Shape;

/// The end of a stretch on which two shapes keep their order, in ticks, and whether they cross there.
#[derive(Clone, Copy)]
pub struct Meet {
    pub time: Frac,
    pub met: bool,
}

/// A gap, on which the sides of a since are `left` and `right`; `before` is worth at `from` what the since is just before it, or at it.
#[derive(Clone, Copy)]
pub struct Gap<P> {
    pub before: P,
    pub left: P,
    pub right: P,
    pub from: Frac,
    pub to: Frac,
}

/// The least of two shapes at each time, or the greatest; `alone` says that both are one shape.
#[derive(Clone, Copy)]
pub struct Course<P> {
    pub side: Side,
    pub first: P,
    pub second: P,
    pub alone: bool,
}

/// Where two shapes cross that change places between `from` and `next`. What is refused is put into `fault`.
fn meeting<P: Shape>(
    p: &P,
    q: &P,
    from: &Frac,
    next: &Frac,
    fault: &mut Option<WidePair<P>>,
) -> Result<Meet, Memory>
    requires order { value from.now <ʳ value next.now }
    requires from_within { IsWithin (2 ^ 34) (value from.now) }
    requires next_within { IsWithin (2 ^ 34) (value next.now) }
    requires first { HasBoundedLevel (2 ^ 31) (P.function p.now) }
    requires second { HasBoundedLevel (2 ^ 31) (P.function q.now) }
    requires turned { TurnsOver (P.function p.now) (P.function q.now) (value from.now) (value next.now) }
    requires none { fault.old ≡ None }
    ensures ok { IfOk result (IsMeet (P.function p.now) (P.function q.now) from.now next.now) }
    ensures still { OnOk result (fault.new ≡ None) }
    ensures wide { OnErr result (IfSome fault.new (λ pair. IsGapFault P.Shape p.now q.now from.now next.now (F.Wide pair))) }
{
    let time = crossing_kept(p, q, from, next, fault)?;
    Ok(Meet { time, met: true })
}

/// How far the two keep their order from `from` on, where it is `start`: up to where they cross, or up to `next`, where their order is
/// `end`. What is refused is put into `fault`.
///
/// # Errors
///
/// `Memory` where the two cross at a time that needs a denominator of 2^60 or more, and where memory is wanting.
pub fn turning<P: Shape>(
    p: &P,
    q: &P,
    from: &Frac,
    next: &Frac,
    start: Ordering,
    end: Ordering,
    fault: &mut Option<WidePair<P>>,
) -> Result<Meet, Memory>
    requires order { value from.now <ʳ value next.now }
    requires from_within { IsWithin (2 ^ 34) (value from.now) }
    requires next_within { IsWithin (2 ^ 34) (value next.now) }
    requires first { HasBoundedLevel (2 ^ 31) (P.function p.now) }
    requires second { HasBoundedLevel (2 ^ 31) (P.function q.now) }
    requires start { IsOrderᵉ start (value_at (P.function p.now) (value from.now)) (value_at (P.function q.now) (value from.now)) }
    requires end { IsOrderᵉ end (value_at (P.function p.now) (value next.now)) (value_at (P.function q.now) (value next.now)) }
    requires none { fault.old ≡ None }
    ensures ok { IfOk result (IsMeet (P.function p.now) (P.function q.now) from.now next.now) }
    ensures still { OnOk result (fault.new ≡ None) }
    ensures wide { OnErr result (IfSome fault.new (λ pair. IsGapFault P.Shape p.now q.now from.now next.now (F.Wide pair))) }
{
    if changes_places(start, end) {
        return meeting(p, q, from, next, fault);
    }
    Ok(Meet {
        time: *next,
        met: false,
    })
}

/// Whether two that begin in the one order are in the other at the end.
fn changes_places(start: Ordering, end: Ordering) -> bool
    ensures { result ≡ change_places start end }
{
    match start {
        Ordering::Less => match end {
            Ordering::Greater => true,
            _ => false,
        },
        Ordering::Equal => false,
        Ordering::Greater => match end {
            Ordering::Less => true,
            _ => false,
        },
    }
}

/// Whether the first of two that keep their order is at most the second, from their orders at the start and at the end, or where they
/// cross before that.
#[inline(always)]
pub fn is_under(start: Ordering, end: Ordering) -> bool
    ensures { result ≡ goes_under start end }
{
    match start {
        Ordering::Less => true,
        Ordering::Equal => match end {
            Ordering::Greater => false,
            _ => true,
        },
        Ordering::Greater => false,
    }
}

/// The constant with the value at `at`. What is refused is put into `fault`.
fn constant<P: Shape>(x: &P, at: &Frac, fault: &mut Option<WidePair<P>>) -> Result<P, Memory>
    requires within { IsWithin (2 ^ 34) (value at.now) }
    requires small { IsBounded (2 ^ 31) (value_at (P.function x.now) (value at.now)) }
    requires none { fault.old ≡ None }
    ensures ok { IfOk result (λ c. IsFixed P.Shape x.now (value at.now) c × (P.moves c ≡ false)) }
    ensures still { OnOk result (fault.new ≡ None) }
    ensures wide { OnErr result (IfSome fault.new (λ pair. IsValueFault P.Shape x.now at.now (F.Wide pair))) }
{
    match x.fix(at) {
        Ok(c) => Ok(c),
        Err(wide) => {
            *fault = Some(WidePair::Value {
                p: *x,
                at: *at,
                den: wide.den,
            });
            Err(Memory)
        }
    }
}

/// A course that is one shape from end to end: there is no second that it might follow.
fn only<P: Copy>(x: &P) -> Course<P>
    ensures side { result.side ≡ Least }
    ensures first { result.first ≡ x.now }
    ensures second { result.second ≡ x.now }
{
    Course {
        side: Side::Least,
        first: *x,
        second: *x,
        alone: true,
    }
}

/// The lower of two shapes at a time at which they are in this order.
fn lower_of<'a, P: Shape>(order: Ordering, p: &'a P, q: &'a P) -> &'a P
    ensures { MatchOrdering order (result.now ≡ p.now) (result.now ≡ q.now) (result.now ≡ q.now) }
{
    match order {
        Ordering::Less => p,
        _ => q,
    }
}

/// The higher of two shapes at a time at which they are in this order.
fn higher_of<'a, P: Shape>(order: Ordering, p: &'a P, q: &'a P) -> &'a P
    ensures { MatchOrdering order (result.now ≡ q.now) (result.now ≡ p.now) (result.now ≡ p.now) }
{
    match order {
        Ordering::Less => q,
        _ => p,
    }
}

/// Whether the left side does not rise, and is where the gap begins no higher than what was before, or than the right side.
fn stays_under<P: Shape>(left: &P, order: Ordering, start: Ordering) -> bool
    ensures { IsTrue result → Sinks (P.function left.now) × IsReached order start }
{
    match left.rises() {
        Ordering::Greater => false,
        _ => match order {
            Ordering::Less => start.is_eq(),
            _ => true,
        },
    }
}

/// What the since is on the gap, where both sides begin in the order `start`, and `under` says whether the left side is below the right
/// side all over. Then it is the left side, as where that sinks from a time at which the since is not below it. Else a constant is
/// fixed: what the since cannot sink below. What is refused is put into `fault`.
///
/// # Errors
///
/// `Memory` where that constant needs a denominator of 2^60 or more, and where memory is wanting.
pub fn course_over<P: Shape>(
    gap: &Gap<P>,
    start: Ordering,
    under: bool,
    fault: &mut Option<WidePair<P>>,
) -> Result<Course<P>, Memory>
    requires gap { IsGap P.Shape gap.now }
    requires start { IsOrderᵉ start (value_at (P.function gap.now.left) (value gap.now.from)) (value_at (P.function gap.now.right) (value gap.now.from)) }
    requires under { MatchBool under
        (IsBelow (P.function gap.now.left) (P.function gap.now.right) (value gap.now.from) (value gap.now.to))
        (IsBelow (P.function gap.now.right) (P.function gap.now.left) (value gap.now.from) (value gap.now.to)) }
    requires none { fault.old ≡ None }
    ensures ok { IfOk result (IsCourse P.Shape gap.now) }
    ensures still { OnOk result (fault.new ≡ None) }
    ensures wide { OnErr result (IfSome fault.new (λ pair. IsCourseFault P.Shape gap.now (F.Wide pair))) }
{
    if under {
        return Ok(only(&gap.left));
    }
    let order = P::cmp_at(&gap.before, &gap.left, &gap.from);
    if stays_under(&gap.left, order, start) {
        return Ok(only(&gap.left));
    }
    above(gap, lower_of(order, &gap.before, &gap.left), fault)
}

/// What the since is on a gap on which the right side is not above the left; `low` is the least of what was before and of the left side.
fn above<P: Shape>(
    gap: &Gap<P>,
    low: &P,
    fault: &mut Option<WidePair<P>>,
) -> Result<Course<P>, Memory>
    requires gap { IsGap P.Shape gap.now }
    requires below { IsBelow (P.function gap.now.right) (P.function gap.now.left) (value gap.now.from) (value gap.now.to) }
    requires low { IsLow P.Shape gap.now low.now }
    requires none { fault.old ≡ None }
    ensures ok { IfOk result (IsCourse P.Shape gap.now) }
    ensures still { OnOk result (fault.new ≡ None) }
    ensures wide { OnErr result (IfSome fault.new (λ pair. IsCourseFault P.Shape gap.now (F.Wide pair))) }
{
    let order = P::cmp_at(low, &gap.right, &gap.from);
    let top = higher_of(order, low, &gap.right);
    if let Ordering::Less = gap.right.rises() {
        return sunk(gap, low, top, fault);
    }
    if let Ordering::Greater = order {
        return raised(gap, low, top, fault);
    }
    Ok(only(&gap.right))
}

/// What the since is on such a gap where the right side sinks: the left side, up to where the since began, or that alone.
fn sunk<P: Shape>(
    gap: &Gap<P>,
    low: &P,
    top: &P,
    fault: &mut Option<WidePair<P>>,
) -> Result<Course<P>, Memory>
    requires gap { IsGap P.Shape gap.now }
    requires below { IsBelow (P.function gap.now.right) (P.function gap.now.left) (value gap.now.from) (value gap.now.to) }
    requires start { IsStart P.Shape gap.now low.now top.now }
    requires sinks { Sinks (P.function gap.now.right) }
    requires none { fault.old ≡ None }
    ensures ok { IfOk result (IsCourse P.Shape gap.now) }
    ensures still { OnOk result (fault.new ≡ None) }
    ensures wide { OnErr result (IfSome fault.new (λ pair. IsCourseFault P.Shape gap.now (F.Wide pair))) }
{
    // For the proof alone: what the since began with.
    let _ = low;
    let level = constant(top, &gap.from, fault)?;
    if let Ordering::Less = P::cmp_at(&gap.left, &level, &gap.to) {
        return Ok(Course {
            side: Side::Least,
            first: gap.left,
            second: level,
            alone: false,
        });
    }
    Ok(only(&level))
}

/// What the since is on such a gap where the right side does not sink, and begins below `low`: the left side, up to `low`, or `low`, and
/// from where the right side is higher that one.
fn raised<P: Shape>(
    gap: &Gap<P>,
    low: &P,
    top: &P,
    fault: &mut Option<WidePair<P>>,
) -> Result<Course<P>, Memory>
    requires gap { IsGap P.Shape gap.now }
    requires below { IsBelow (P.function gap.now.right) (P.function gap.now.left) (value gap.now.from) (value gap.now.to) }
    requires start { IsStart P.Shape gap.now low.now top.now }
    requires climbs { Climbs (P.function gap.now.right) }
    requires higher { value_at (P.function gap.now.right) (value gap.now.from) ≤ᵉ value_at (P.function low.now) (value gap.now.from) }
    requires none { fault.old ≡ None }
    ensures ok { IfOk result (IsCourse P.Shape gap.now) }
    ensures still { OnOk result (fault.new ≡ None) }
    ensures wide { OnErr result (IfSome fault.new (λ pair. IsCourseFault P.Shape gap.now (F.Wide pair))) }
{
    // For the proof alone: what the since began with.
    let _ = top;
    let level = constant(low, &gap.from, fault)?;
    if let Ordering::Greater = P::cmp_at(&level, &gap.left, &gap.to) {
        return Ok(Course {
            side: Side::Least,
            first: gap.left,
            second: level,
            alone: false,
        });
    }
    if let Ordering::Less = P::cmp_at(&level, &gap.right, &gap.to) {
        return Ok(Course {
            side: Side::Greatest,
            first: level,
            second: gap.right,
            alone: false,
        });
    }
    Ok(only(&level))
}

/// The shape of the course that is taken at a time.
pub fn limit_of<P: Shape>(course: &Course<P>, at: &Frac) -> P
    requires within { IsWithin (2 ^ 34) (value at.now) }
    requires one { IsTrue course.now.alone → course.now.second ≡ course.now.first }
    ensures one { (result ≡ course.now.first) ⊎ (result ≡ course.now.second) }
    ensures value { IsChosen course.now.side
        (value_at (P.function course.now.first) (value at.now)) (value_at (P.function course.now.second) (value at.now))
        (value_at (P.function result) (value at.now)) }
{
    if course.alone {
        return course.first;
    }
    chosen(course.side, &course.first, &course.second, at)
}

/// A shape with the value of the since at the end of a gap, from its course there and from what both sides are at that time: where they
/// cross it is that of either.
pub fn point<P: Shape>(course: &Course<P>, left: &P, right: &P, turn: &Meet) -> P
    requires within { IsWithin (2 ^ 34) (value turn.now.time) }
    requires one { IsTrue course.now.alone → course.now.second ≡ course.now.first }
    requires meets { IsTrue turn.now.met → value_at (P.function left.now) (value turn.now.time) ≈ᵉ value_at (P.function right.now) (value turn.now.time) }
    ensures one { (result ≡ course.now.first) ⊎ (result ≡ course.now.second) ⊎ (result ≡ left.now) ⊎ (result ≡ right.now) }
    ensures value { IsPointOf course.now.side
        (value_at (P.function course.now.first) (value turn.now.time)) (value_at (P.function course.now.second) (value turn.now.time))
        (value_at (P.function left.now) (value turn.now.time)) (value_at (P.function right.now) (value turn.now.time))
        (value_at (P.function result) (value turn.now.time)) }
{
    if turn.met {
        return *left;
    }
    let limit = limit_of(course, &turn.time);
    let most = chosen(Side::Greatest, right, &limit, &turn.time);
    chosen(Side::Least, left, &most, &turn.time)
}
