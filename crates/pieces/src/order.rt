//! The order of two places, where most that are at one floor are at one time.
ghost use Rattle.std.specs.Prelude.{◌≡◌, ◌⊎◌, ◌↔◌, IsTrue, true, false};
ghost use Rattle.rational.specs.Rational.{◌≈◌};
ghost use Rattle.std.specs.Ordering.{MatchOrdering};
ghost use Rattle.rational.specs.Places.{AtMost, Before, Same};
ghost use Rattle.frac128.specs.Cuts.{is_after, place};
ghost use Rattle.frac128.specs.Value.{value};

use frac128::{Cut, Frac};
use std::cmp::Ordering;

/// Whether both are one number.
#[inline(always)]
fn is_one(a: &Frac, b: &Frac) -> bool
    ensures { IsTrue result → value a.now ≈ value b.now }
{
    *a == *b
}

/// Whether at one time the one side lies before it and the other after it.
#[inline(always)]
fn is_about(a: u64, b: u64) -> bool
    ensures { IsTrue result ↔ ((is_after a ≡ false) × (is_after b ≡ true)) }
{
    a == 0 && b != 0
}

/// Whether the one place comes before the other. That two times are one shows by their parts, with no product.
#[inline(always)]
pub(crate) fn precedes(a: &Cut, b: &Cut) -> bool
    ensures { IsTrue result ↔ Before (place a.now) (place b.now) }
{
    if is_one(&a.time, &b.time) {
        return is_about(a.side, b.side);
    }
    a.precedes(b)
}

/// The earlier of two places. The second is read whole only where it is that one.
#[inline(always)]
pub(crate) fn earlier(c: Cut, to: &Cut) -> Cut
    ensures one { (result ≡ c) ⊎ (result ≡ to.now) }
    ensures first { AtMost (place result) (place c) }
    ensures second { AtMost (place result) (place to.now) }
{
    if to.precedes(&c) { *to } else { c }
}

/// The order of two places.
#[inline(always)]
pub(crate) fn order_of(p: &Cut, q: &Cut) -> Ordering
    ensures { MatchOrdering result (Before (place p.now) (place q.now)) (Same (place p.now) (place q.now)) (Before (place q.now) (place p.now)) }
{
    if is_one(&p.time, &q.time) {
        return side_order(p, q);
    }
    match p.time.cmp(&q.time) {
        Ordering::Equal => side_order(p, q),
        order => order,
    }
}

/// The order of two places of one time.
#[inline(always)]
fn side_order(p: &Cut, q: &Cut) -> Ordering
    requires { value p.now.time ≈ value q.now.time }
    ensures { MatchOrdering result (Before (place p.now) (place q.now)) (Same (place p.now) (place q.now)) (Before (place q.now) (place p.now)) }
{
    if p.side == 0 {
        if q.side == 0 {
            return Ordering::Equal;
        }
        return Ordering::Less;
    }
    if q.side == 0 {
        return Ordering::Greater;
    }
    Ordering::Equal
}
