//! The next place at which a piece of either of two chains ends.
ghost use Rattle.std.specs.Prelude.{◌≡◌, ◌⊎◌, ◌+◌, ◌<◌, ◌-◌, ◌^◌, ◌↔◌, IsTrue, if◌then◌else◌};
ghost use Rattle.std.specs.Ordering.{MatchOrdering};
ghost use Rattle.rational.specs.Rational.{◌≈◌};
ghost use Rattle.frac128.specs.Value.{value};
ghost use Rattle.rational.specs.Places.{AtMost, Before, Same};
ghost use Rattle.frac128.specs.Cuts.{place};

use frac128::Cut;
use std::cmp::Ordering;

/// The earlier of two places, and whether each of the two is it.
#[derive(Clone, Copy)]
pub(crate) struct Next {
    pub(crate) until: Cut,
    pub(crate) left: bool,
    pub(crate) right: bool,
}

impl Next {
    /// The earlier of two places.
    #[inline(always)]
    pub(crate) fn of(x: &Cut, y: &Cut) -> Next
        ensures one { (result.until ≡ x.now) ⊎ (result.until ≡ y.now) }
        ensures left { IsTrue result.left ↔ Same (place x.now) (place result.until) }
        ensures right { IsTrue result.right ↔ Same (place y.now) (place result.until) }
        ensures before_left { AtMost (place result.until) (place x.now) }
        ensures before_right { AtMost (place result.until) (place y.now) }
    {
        let (until, left, right) = next_of(x, y);
        Next {
            until: *until,
            left,
            right,
        }
    }
}

/// The earlier of two places by reference, so that nothing is copied, and whether each of the two is it.
#[inline(always)]
pub(crate) fn next_of<'a>(x: &'a Cut, y: &'a Cut) -> (&'a Cut, bool, bool)
    ensures one { (result.0.now ≡ x.now) ⊎ (result.0.now ≡ y.now) }
    ensures left { IsTrue result.1 ↔ Same (place x.now) (place result.0.now) }
    ensures right { IsTrue result.2 ↔ Same (place y.now) (place result.0.now) }
    ensures before_left { AtMost (place result.0.now) (place x.now) }
    ensures before_right { AtMost (place result.0.now) (place y.now) }
{
    match order_of(x, y) {
        Ordering::Less => (x, true, false),
        Ordering::Equal => (x, true, true),
        Ordering::Greater => (y, false, true),
    }
}

/// The order of two places.
#[inline(always)]
pub(crate) fn order_of(x: &Cut, y: &Cut) -> Ordering
    ensures { MatchOrdering result (Before (place x.now) (place y.now)) (Same (place x.now) (place y.now)) (Before (place y.now) (place x.now)) }
{
    match x.time.cmp(&y.time) {
        Ordering::Less => Ordering::Less,
        Ordering::Equal => order_of_sides(x, y),
        Ordering::Greater => Ordering::Greater,
    }
}

/// The order of two places at one time.
#[inline(always)]
fn order_of_sides(x: &Cut, y: &Cut) -> Ordering
    requires { value x.now.time ≈ value y.now.time }
    ensures { MatchOrdering result (Before (place x.now) (place y.now)) (Same (place x.now) (place y.now)) (Before (place y.now) (place x.now)) }
{
    if x.side == 0 {
        if y.side == 0 {
            return Ordering::Equal;
        }
        return Ordering::Less;
    }
    if y.side == 0 {
        return Ordering::Greater;
    }
    Ordering::Equal
}

/// The number, or one more where it is passed.
#[inline(always)]
pub(crate) fn passed(i: usize, is: bool) -> usize
    requires { i < 2 ^ 64 - 1 }
    ensures { result ≡ (if is then i + 1 else i) }
{
    if is { i + 1 } else { i }
}
