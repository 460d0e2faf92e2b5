//! Intervals of time.
ghost use Rattle.std.specs.Prelude.{◌&&◌};
ghost use Rattle.rational.specs.Time.{HasTimeBetween};
ghost use Rattle.frac128.specs.Value.{value};

use crate::frac::Frac;
use std::cmp::Ordering;

/// An interval of time from `from` to `to`, each end in or out, with some time in it.
#[derive(Clone, Copy, Debug, PartialEq, Eq)]
pub struct Span {
    pub from: Frac,
    pub from_in: bool,
    pub to: Frac,
    pub to_in: bool,
    pub ghost not_empty: { HasTimeBetween (value from) (value to) (from_in && to_in) },
}

impl Span {
    ghost use Rattle.std.specs.Prelude.{◌≡◌, MatchOption};
    ghost use Rattle.rational.specs.Time.{IsNotEmpty};
    ghost use Rattle.frac128.specs.Spans.{interval, interval_between};

    /// The interval of these ends. None exactly where no time lies in it.
    pub fn make(from: Frac, from_in: bool, to: Frac, to_in: bool) -> Option<Span>
        ensures { MatchOption result
            (¬ (IsNotEmpty (interval_between from from_in to to_in)))
            (λ s. interval s ≡ interval_between from from_in to to_in) }
    {
        match from.cmp(&to) {
            Ordering::Less => {}
            Ordering::Equal if from_in && to_in => {}
            _ => return None,
        }
        Some(Span {
            from,
            from_in,
            to,
            to_in,
        })
    }
}
