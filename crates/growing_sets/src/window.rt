//! Windows of time, ahead or behind.
ghost use Rattle.std.specs.Prelude.{◌≡◌, ◌≤◌, ◌<ℤ◌, ◌^◌, ◌⊎◌, ◌↔◌, unsigned_abs, IsTrue};
ghost use lib.IntN.{neg_ℤ};
ghost use Rattle.time_sets.specs.Bounds.{reach_of};

use frac128::Cut;

/// From a time the window goes from `low` to `high` ticks after it, each end in or out; without `low` it has no beginning. Behind,
/// these are at or below 0.
#[derive(Clone, Copy)]
pub struct Window {
    pub low: Option<i64>,
    pub high: i64,
    pub low_in: bool,
    pub high_in: bool,
    pub ghost near: { reach_of low ≤ 2 ^ 32 },
    pub ghost far: { unsigned_abs high ≤ 2 ^ 32 },
}

/// Whether the one bound lies before the other, or at it with both in.
fn has_room(low: i64, low_in: bool, high: i64, high_in: bool) -> bool
    ensures { IsTrue result ↔ ((low <ℤ high) ⊎ ((low ≡ high) × IsTrue low_in × IsTrue high_in)) }
{
    low < high || low == high && low_in && high_in
}

/// The bound the other way.
fn minus(by: i64) -> i64
    requires { unsigned_abs by ≤ 2 ^ 32 }
    ensures value { result ≡ neg_ℤ by }
    ensures near { unsigned_abs result ≤ 2 ^ 32 }
{
    -by
}

impl Window {
    ghost use Rattle.std.specs.Prelude.{IsFalse, IfSome};
    ghost use Rattle.rational.specs.Rational.{IsWithin};
    ghost use Rattle.rational.specs.Time.{Rational};
    ghost use Rattle.frac128.specs.Value.{value};
    ghost use Rattle.rational.specs.Places.{After, Before, Upto};
    ghost use Rattle.frac128.specs.Cuts.{place};
    ghost use Rattle.growing_sets.specs.Windows.{Sees};
    ghost use Rattle.time_sets.specs.Parts.{low_place, high_place};

    /// Whether no window has a time.
    pub fn is_never(&self) -> bool
        ensures never { IsTrue result → (t u : Rational) → ¬ (Sees self.now t u) }
        ensures room { IsFalse result → (t : Rational)
            → IfSome self.now.low (λ k. Before (low_place k self.now.low_in t) (high_place self.now.high self.now.high_in t)) }
    {
        match self.low {
            None => false,
            Some(low) => !has_room(low, self.low_in, self.high, self.high_in),
        }
    }

    /// The place after which the windows from a time on end behind the cut.
    pub fn past_high(&self, cut: &Cut) -> Cut
        requires { IsWithin (2 ^ 34) (value cut.now.time) }
        ensures { (t : Rational) → After (place result) t ↔ Before (place cut.now) (high_place self.now.high self.now.high_in t) }
    {
        cut.shift_begin(minus(self.high), self.high_in)
    }

    /// The place up to which the windows from a time begin before the cut.
    pub fn before_low(&self, low: i64, cut: &Cut) -> Cut
        requires near { reach_of (Some low) ≤ 2 ^ 32 }
        requires within { IsWithin (2 ^ 34) (value cut.now.time) }
        ensures { (t : Rational) → Upto (place result) t ↔ Before (low_place low self.now.low_in t) (place cut.now) }
    {
        cut.shift_end(minus(low), self.low_in)
    }

    /// Whether a time lies in the window from it.
    pub fn sees_itself(&self) -> bool
        ensures yes { IsTrue result → (t : Rational) → Sees self.now t t }
        ensures no { IsFalse result → (t : Rational) → ¬ (Sees self.now t t) }
    {
        if !has_room(0, true, self.high, self.high_in) {
            return false;
        }
        match self.low {
            None => true,
            Some(low) => has_room(low, self.low_in, 0, true),
        }
    }
}
