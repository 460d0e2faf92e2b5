//! Sets that are made as places come, and sets that are read out.
ghost use Rattle.std.specs.Prelude.{◌≡◌};
ghost use Rattle.time_sets.specs.Spans.{odd};

use crate::domain::Domain;
use crate::spans::Span;
use crate::times::Times;
use crate::turn::Turn;
use frac128::Memory;

/// Whether the number is odd.
#[inline(always)]
fn is_odd(n: usize) -> bool
    ensures { result ≡ odd n }
{
    n % 2 == 1
}

impl Times {
    ghost use Rattle.std.specs.Prelude.{◌≡◌, ◌+◌, ◌<◌, ◌≤◌, ◌++◌, [], ◌∷◌, not, length, slice_index_or, IfNone, IfSome, OnOk, OnErr};
    ghost use Rattle.rational.specs.Time.{Rational};
    ghost use Rattle.rational.specs.Places.{After, Before, Place, Upto};
    ghost use Rattle.time_sets.specs.Turns.{place};
    ghost use Rattle.time_sets.specs.Sets.{EndBefore, Rise, has};
    ghost use Rattle.time_sets.specs.Windows.{IsDomain, IsOf};
    ghost use Rattle.time_sets.specs.Spans.{IsLongest, border};

    /// The turn `next`, or the end of the domain where there is no such turn.
    #[inline(always)]
    pub(crate) fn turn_or_end<'a>(&'a self, on: &'a Domain, next: usize) -> &'a Turn
        ensures { result.now ≡ slice_index_or self.now.turns.items next on.now.to }
    {
        if next < self.turns.len() {
            &self.turns[next]
        } else {
            &on.to
        }
    }

    /// Where the stretch of one truth with `next` others before it begins: with the domain, or at the turn before it.
    #[inline(always)]
    pub(crate) fn border<'a>(&'a self, on: &'a Domain, next: usize) -> &'a Turn
        requires { next ≤ length self.now.turns.items }
        ensures { result.now ≡ border on.now self.now next }
    {
        if next == 0 {
            return &on.from;
        }
        &self.turns[next - 1]
    }

    /// Adds a turn behind all others.
    #[inline(always)]
    pub(crate) fn push(&mut self, at: Turn) -> Result<(), Memory>
        ensures items { OnOk result (self.new.turns.items ≡ self.old.turns.items ++ at ∷ []) }
        ensures starts { self.new.starts ≡ self.old.starts }
        ensures err { OnErr result (self.new.turns.items ≡ self.old.turns.items) }
    {
        if self.turns.reserve(1).is_err() {
            return Err(Memory);
        }
        self.turns.push_reserved(at);
        Ok(())
    }

    /// Turns the truth behind a place that comes after all turns: behind it the set has the times that it did not have. Up to the place it
    /// stays what it was.
    ///
    /// # Errors
    ///
    /// `Memory` where memory is wanting; the set is unchanged then.
    #[inline(always)]
    pub fn turn(&mut self, at: Turn) -> Result<(), Memory>
        requires rise { Rise self.old.turns.items }
        requires last { EndBefore (place at) self.old.turns.items }
        ensures before { OnOk result ((t : Rational) → Upto (place at) t → has self.new t ≡ has self.old t) }
        ensures behind { OnOk result ((t : Rational) → After (place at) t → has self.new t ≡ not (has self.old t)) }
        ensures rise { OnOk result (Rise self.new.turns.items) }
        ensures last { OnOk result ((c : Place) → Before (place at) c → EndBefore c self.new.turns.items) }
        ensures of { OnOk result ((on : Domain) → IsOf on self.old → Before (place on.from) (place at) → Before (place at) (place on.to) → IsOf on self.new) }
        ensures err { OnErr result ((self.new.starts ≡ self.old.starts) × (self.new.turns.items ≡ self.old.turns.items)) }
    {
        self.push(at)
    }

    /// The longest stretch of one truth in the domain that has `next` others before it. Each begins where the one before ends, the first
    /// with the domain, and the last ends with it.
    #[inline(always)]
    pub fn span(&self, on: &Domain, next: usize) -> Option<Span>
        requires domain { IsDomain on.now }
        requires own { IsOf on.now self.now }
        ensures none { IfNone result (length self.now.turns.items < next) }
        ensures some { IfSome result (λ d. next ≤ length self.now.turns.items) }
        ensures from { IfSome result (λ d. d.from ≡ border on.now self.now next) }
        ensures to { IfSome result (λ d. d.to ≡ border on.now self.now (next + 1)) }
        ensures longest { IfSome result (λ d. IsLongest on.now self.now d) }
    {
        if next > self.turns.len() {
            return None;
        }
        Some(Span {
            from: *self.border(on, next),
            to: *self.turn_or_end(on, next),
            holds: self.starts != is_odd(next),
        })
    }
}
