//! Windows that have no time from the start on, and those that are met with the times up to the last row.
ghost use Rattle.std.specs.Prelude.{◌≡◌, ◌^◌, OnOk};
ghost use Rattle.rational.specs.Rational.{IsWithin};
ghost use Rattle.frac128.specs.Value.{value};
ghost use Rattle.frac128.specs.Cuts.{place};
ghost use Rattle.growing_sets.specs.Spans.{AreTidy};
ghost use Rattle.growing_sets.specs.Growing.{Adds};
ghost use Rattle.growing_sets.specs.Lasting.{BeginsFrom, IsRunTo, SeesNone};

use crate::grown::Grown;
use crate::stretch::Stretch;
use crate::stretches::Stretches;
use crate::touching::begins_by;
use crate::window::Window;
use frac128::{Cut, Memory};

/// Adds the times whose window has no time from the start on.
pub(crate) fn add_unseeing(own: &mut Grown, start: &Cut, w: &Window) -> Result<(), Memory>
    requires own { AreTidy own.old.spans.items }
    requires near { IsWithin (2 ^ 34) (value start.now.time) }
    ensures bounds { own.new.bounds ≡ own.old.bounds }
    ensures ok { OnOk result (Adds own.old own.new (SeesNone w.now (place start.now))) }
{
    let bounds = own.bounds();
    if w.is_never() {
        return own.add(bounds.from, bounds.to);
    }
    own.add(bounds.from, w.past_high(start))
}

/// Adds the times whose window, as far as it lies from the start on, does not begin before the cut.
pub(crate) fn add_beginning(
    own: &mut Grown,
    from: &Cut,
    start: &Cut,
    w: &Window,
) -> Result<(), Memory>
    requires own { AreTidy own.old.spans.items }
    requires near { IsWithin (2 ^ 34) (value from.now.time) }
    ensures bounds { own.new.bounds ≡ own.old.bounds }
    ensures ok { OnOk result (Adds own.old own.new (BeginsFrom w.now (place start.now) (place from.now))) }
{
    let bounds = own.bounds();
    if !start.precedes(from) {
        return own.add(bounds.from, bounds.to);
    }
    match w.low {
        Some(low) => own.add(w.before_low(low, from), bounds.to),
        None => Ok(()),
    }
}

/// Where the stretch begins that reaches the cut; the cut itself, where none does.
pub(crate) fn run_to(spans: &Stretches, last: &Cut) -> Cut
    requires tidy { AreTidy spans.now.items }
    requires near { IsWithin (2 ^ 34) (value last.now.time) }
    ensures run { IsRunTo spans.now.items (place last.now) (place result) }
    ensures near { IsWithin (2 ^ 34) (value result.time) }
{
    match begins_by(spans, spans.reaching(last), last) {
        Some(next) => next.from,
        None => *last,
    }
}
