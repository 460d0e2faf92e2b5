//! Stretches of time between two places.
ghost use Rattle.std.specs.Prelude.{◌^◌, ◌&&◌, not};
ghost use Rattle.rational.specs.Rational.{IsWithin};
ghost use Rattle.rational.specs.Time.{HasTimeBetween};
ghost use Rattle.frac128.specs.Value.{value};
ghost use Rattle.frac128.specs.Cuts.{is_after};

use crate::order::precedes;
use frac128::Cut;

/// The times between two places, of which there are some. Times are in ticks.
#[derive(Clone, Copy)]
pub struct Stretch {
    pub from: Cut,
    pub to: Cut,
    pub ghost not_empty: { HasTimeBetween (value from.time) (value to.time) (not (is_after from.side) && is_after to.side) },
    pub ghost low: { IsWithin (2 ^ 34) (value from.time) },
    pub ghost high: { IsWithin (2 ^ 34) (value to.time) },
}

impl Stretch {
    ghost use Rattle.std.specs.Prelude.{◌≡◌, ◌≤◌, ◌≤ℤ◌, ◌⊎◌, ◌↔◌, IfNone, IfSome, false, true, unsigned_abs};
    ghost use Rattle.rational.specs.Time.{Rational};
    ghost use Rattle.rational.specs.Rational.{whole};
    ghost use Rattle.rational.specs.Places.{After, AtMost, Before, Same, Upto};
    ghost use Rattle.frac128.specs.Cuts.{place};
    ghost use Rattle.growing_sets.specs.Spans.{Lies};

    /// From just before the one tick to just after the other.
    pub fn over(first: i64, last: i64) -> Stretch
        requires order { first ≤ℤ last }
        requires near { unsigned_abs first ≤ 2 ^ 33 }
        requires far { unsigned_abs last ≤ 2 ^ 33 }
        ensures from { Same (place result.from) (record { at = whole first; after = false }) }
        ensures to { Same (place result.to) (record { at = whole last; after = true }) }
    {
        Stretch {
            from: Cut::before_whole(first),
            to: Cut::after_whole(last),
        }
    }

    /// The times between the two places that lie in the bounds. None exactly where there are none.
    #[inline(always)]
    pub fn make(from: Cut, to: Cut, bounds: &Stretch) -> Option<Stretch>
        ensures some { IfSome result (λ s. (t : Rational) → Lies s t ↔ (After (place from) t × Upto (place to) t × Lies bounds.now t)) }
        ensures none { IfNone result ((t : Rational) → After (place from) t → Upto (place to) t → ¬ (Lies bounds.now t)) }
    {
        let from = from.later(bounds.from);
        let to = to.earlier(bounds.to);
        if !precedes(&from, &to) {
            return None;
        }
        Some(Stretch { from, to })
    }

    /// The times of both, which touch or meet.
    #[inline(always)]
    pub fn hull(&self, other: &Stretch) -> Stretch
        requires first { ¬ (Before (place self.now.to) (place other.now.from)) }
        requires second { ¬ (Before (place other.now.to) (place self.now.from)) }
        ensures holds { (t : Rational) → Lies result t ↔ (Lies self.now t ⊎ Lies other.now t) }
        ensures begins { AtMost (place result.from) (place self.now.from) }
        ensures ends { AtMost (place self.now.to) (place result.to) }
        ensures from { (result.from ≡ self.now.from) ⊎ (result.from ≡ other.now.from) }
        ensures to { (result.to ≡ self.now.to) ⊎ (result.to ≡ other.now.to) }
    {
        Stretch {
            from: self.from.earlier(other.from),
            to: self.to.later(other.to),
        }
    }
}
