//! Spans of one truth, one after another.
use frac128::{Frac, Span};
use pl_signal::Knot;
use stl_syntax::Verdict;
use value_laws::Truth;

/// A span of one truth whose end is not known yet.
#[derive(Clone, Copy)]
pub(crate) struct OpenSpan {
    from: Frac,
    from_in: bool,
    holds: bool,
}

impl OpenSpan {
    ghost use Rattle.std.specs.Prelude.{◌≡◌, ◌≢◌, ◌&&◌, true};
    ghost use Rattle.rational.specs.Time.{HasTimeBetween, ◌<ʳ◌};
    ghost use Rattle.frac128.specs.Value.{value};
    ghost use Rattle.report.specs.Spelling.{Closes, IsTurned, GoesTo, IsAdvanced};

    /// The span that begins at the first knot.
    pub(crate) fn start(first: &Knot<Truth>) -> OpenSpan
        ensures from { result.from ≡ first.now.time }
        ensures from_in { result.from_in ≡ true }
        ensures holds { result.holds ≡ first.now.point.holds }
    {
        OpenSpan {
            from: first.time,
            from_in: true,
            holds: first.point.holds(),
        }
    }

    /// The verdict of the span, up to a time that is in or out.
    pub(crate) fn close(&self, to: Frac, to_in: bool) -> Verdict
        requires { HasTimeBetween (value self.now.from) (value to) (self.now.from_in && to_in) }
        ensures { Closes self.now to to_in result }
    {
        let on = Span {
            from: self.from,
            from_in: self.from_in,
            to,
            to_in,
        };
        Verdict {
            on,
            holds: self.holds,
        }
    }

    /// The truth of the span.
    #[inline(always)]
    pub(crate) fn holds(&self) -> bool
        ensures { result ≡ self.now.holds }
    {
        self.holds
    }

    /// Ends at the time, which is in it or out, and begins anew there with the other truth. The verdict that ended.
    #[inline(always)]
    pub(crate) fn turn(&mut self, at: Frac, at_in: bool, truth: bool) -> Verdict
        requires begun { HasTimeBetween (value self.old.from) (value at) (self.old.from_in && at_in) }
        requires other { self.old.holds ≢ truth }
        ensures { IsTurned self.old at at_in truth result self.new }
    {
        let ended = self.close(at, at_in);
        *self = OpenSpan {
            from: at,
            from_in: !at_in,
            holds: truth,
        };
        ended
    }

    /// Goes on with this truth: from the time on, or after it where it is in the span. What ended there, if the truth is new.
    fn go_to(&mut self, at: Frac, at_in: bool, truth: bool) -> Option<Verdict>
        requires { HasTimeBetween (value self.old.from) (value at) (self.old.from_in && at_in) }
        ensures { GoesTo self.old at at_in truth result self.new }
    {
        if self.holds == truth {
            return None;
        }
        Some(self.turn(at, at_in, truth))
    }

    /// Goes on past the gap between two knots and the second knot. What ended with the gap, and what ended with the knot.
    pub(crate) fn advance(
        &mut self,
        before: &Knot<Truth>,
        next: &Knot<Truth>,
    ) -> (Option<Verdict>, Option<Verdict>)
        requires begun { HasTimeBetween (value self.old.from) (value before.now.time) (self.old.from_in && true) }
        requires rising { value before.now.time <ʳ value next.now.time }
        ensures { IsAdvanced self.old before.now next.now result.0 result.1 self.new }
    {
        let by_gap = self.go_to(before.time, true, before.after.holds());
        let by_point = self.go_to(next.time, false, next.point.holds());
        (by_gap, by_point)
    }
}
