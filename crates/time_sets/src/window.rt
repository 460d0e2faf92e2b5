//! Windows of time, ahead or behind.
ghost use Rattle.std.specs.Prelude.{◌≡◌, ◌≤◌, ◌^◌, unsigned_abs};
ghost use lib.IntN.{neg_ℤ};
ghost use Rattle.time_sets.specs.Bounds.{reach_of};

use crate::domain::Domain;
use crate::turn::Turn;

/// The times from `low` ticks after a time to `high` ticks after it; with no `low` all times up to there. A window behind has negative
/// numbers.
#[derive(Clone, Copy)]
pub struct Window {
    /// How many ticks after the time it begins.
    pub low: Option<i64>,
    /// Whether it has the time at which it begins.
    pub low_in: bool,
    /// How many ticks after the time it ends.
    pub high: i64,
    /// Whether it has the time at which it ends.
    pub high_in: bool,
    pub ghost near: { reach_of low ≤ 2 ^ 34 },
    pub ghost far: { unsigned_abs high ≤ 2 ^ 34 },
}

/// The number the other way.
#[inline(always)]
fn minus(by: i64) -> i64
    requires { unsigned_abs by ≤ 2 ^ 34 }
    ensures value { result ≡ neg_ℤ by }
    ensures small { unsigned_abs result ≤ 2 ^ 34 }
{
    -by
}

impl Window {
    ghost use Rattle.std.specs.Prelude.{◌⊎◌, ◌↔◌, ◌<ℤ◌, IfSome, IsTrue, MatchOption};
    ghost use Rattle.rational.specs.Places.{Same, moved_begin, moved_end};
    ghost use Rattle.time_sets.specs.Turns.{place};
    ghost use Rattle.time_sets.specs.Windows.{IsNear};
    ghost use Rattle.time_sets.specs.Parts.{HasRoom};

    /// Whether some time lies in it.
    pub(crate) fn has_room(&self) -> bool
        ensures { IsTrue result ↔ HasRoom self.now }
    {
        match self.low {
            None => true,
            Some(low) => low < self.high || low == self.high && self.low_in && self.high_in,
        }
    }

    /// From where on a window meets what begins at the place.
    #[inline(always)]
    pub(crate) fn first(&self, begin: &Turn) -> Turn
        requires { IsNear begin.now }
        ensures { Same (place result) (moved_begin (neg_ℤ self.now.high) self.now.high_in (place begin.now)) }
    {
        begin.shift_begin(minus(self.high), self.high_in)
    }

    /// Up to where it meets what ends at the place; with no `low` that is everywhere in the domain.
    #[inline(always)]
    pub(crate) fn last(&self, on: &Domain, end: &Turn) -> Turn
        requires { IsNear end.now }
        ensures { MatchOption self.now.low (result ≡ on.now.to) (λ k. Same (place result) (moved_end (neg_ℤ k) self.now.low_in (place end.now))) }
    {
        match self.low {
            None => on.to,
            Some(low) => end.shift_end(minus(low), self.low_in),
        }
    }
}
