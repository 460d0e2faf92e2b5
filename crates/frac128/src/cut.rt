//! Places between times: just before a time, or just after it.
//!
//! With places the ends of spans need no cases: a span goes from where it begins to where it ends, it has a time in it exactly
//! where the one place comes before the other, and two spans touch exactly where end and begin are one place.

ghost use Rattle.std.specs.Prelude.{◌≡◌, ◌⊎◌, ◌↔◌, IsTrue, true, false};
ghost use Rattle.rational.specs.Rational.{FitsFloor, add, whole};
ghost use Rattle.std.specs.Int.{w64};
ghost use Rattle.frac128.specs.Value.{value};
ghost use Rattle.rational.specs.Places.{Before, AtMost, begins, ends, moved_begin, moved_end, Same};
ghost use Rattle.frac128.specs.Cuts.{place};
ghost use Rattle.frac128.specs.Spans.{interval};

use crate::frac::Frac;
use crate::span::Span;
use std::cmp::Ordering;

/// The place just before a time, or just after it.
#[derive(Clone, Copy, Debug)]
pub struct Cut {
    pub time: Frac,
    /// 0 just before the time, and else just after it. It is a whole word, so that a place is copied word by word, with no gap.
    pub side: u64,
}

impl Cut {
    /// Just before the whole number `n`.
    #[inline(always)]
    pub fn before_whole(n: i64) -> Cut
        ensures { Same (place result) (record { at = whole n; after = false }) }
    {
        Cut {
            time: Frac::of(n),
            side: 0,
        }
    }

    /// Just after the whole number `n`.
    #[inline(always)]
    pub fn after_whole(n: i64) -> Cut
        ensures { Same (place result) (record { at = whole n; after = true }) }
    {
        Cut {
            time: Frac::of(n),
            side: 1,
        }
    }

    /// The place at which a span begins: just before its first time, or just after where that is not in it.
    #[inline(always)]
    pub fn begin(on: &Span) -> Cut
        ensures { place result ≡ begins (interval on.now) }
    {
        Cut {
            time: on.from,
            side: u64::from(!on.from_in),
        }
    }

    /// The place at which a span ends: just after its last time, or just before where that is not in it.
    #[inline(always)]
    pub fn end(on: &Span) -> Cut
        ensures { place result ≡ ends (interval on.now) }
    {
        Cut {
            time: on.to,
            side: u64::from(on.to_in),
        }
    }

    /// Whether this place comes before the other.
    #[inline(always)]
    pub fn precedes(&self, other: &Cut) -> bool
        ensures { IsTrue result ↔ Before (place self.now) (place other.now) }
    {
        match self.time.cmp(&other.time) {
            Ordering::Less => true,
            Ordering::Equal => self.side == 0 && other.side != 0,
            Ordering::Greater => false,
        }
    }

    /// The earlier of the two.
    #[inline(always)]
    pub fn earlier(self, other: Cut) -> Cut
        ensures one { (result ≡ self) ⊎ (result ≡ other) }
        ensures first { AtMost (place result) (place self) }
        ensures second { AtMost (place result) (place other) }
    {
        if other.precedes(&self) { other } else { self }
    }

    /// The later of the two.
    #[inline(always)]
    pub fn later(self, other: Cut) -> Cut
        ensures one { (result ≡ self) ⊎ (result ≡ other) }
        ensures first { AtMost (place self) (place result) }
        ensures second { AtMost (place other) (place result) }
    {
        if self.precedes(&other) { other } else { self }
    }

    /// A beginning moved by an end of a window: just after the time, where that end is out.
    #[inline(always)]
    pub fn shift_begin(&self, by: i64, inside: bool) -> Cut
        requires { FitsFloor w64 (add (value self.now.time) (whole by)) }
        ensures { Same (place result) (moved_begin by inside (place self.now)) }
    {
        Cut {
            time: self.time.shift(by),
            side: if inside { self.side } else { 1 },
        }
    }

    /// An end moved by an end of a window: just before the time, where that end is out.
    #[inline(always)]
    pub fn shift_end(&self, by: i64, inside: bool) -> Cut
        requires { FitsFloor w64 (add (value self.now.time) (whole by)) }
        ensures { Same (place result) (moved_end by inside (place self.now)) }
    {
        Cut {
            time: self.time.shift(by),
            side: if inside { self.side } else { 0 },
        }
    }
}
