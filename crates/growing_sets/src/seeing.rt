//! The times that see a stretch in their window, and those whose window a stretch holds.
ghost use Rattle.std.specs.Prelude.{◌≡◌, OnOk};
ghost use Rattle.frac128.specs.Cuts.{place};
ghost use Rattle.growing_sets.specs.Spans.{AreTidy};
ghost use Rattle.growing_sets.specs.Growing.{Adds};
ghost use Rattle.growing_sets.specs.Windows.{IsHeld, SeesPart};

use crate::grown::Grown;
use crate::stretch::Stretch;
use crate::window::Window;
use frac128::{Cut, Memory};

/// Adds the times from which some time of the part lies in the window.
pub(crate) fn add_seeing(own: &mut Grown, part: &Stretch, w: &Window) -> Result<(), Memory>
    requires { AreTidy own.old.spans.items }
    ensures bounds { own.new.bounds ≡ own.old.bounds }
    ensures ok { OnOk result (Adds own.old own.new (SeesPart w.now part.now)) }
{
    if w.is_never() {
        return Ok(());
    }
    let from = w.past_high(&part.from);
    match w.low {
        Some(low) => own.add(from, w.before_low(low, &part.to)),
        None => {
            let bounds = own.bounds();
            own.add(from, bounds.to)
        }
    }
}

/// Adds the times whose window, as far as it lies from the start on, does not reach beyond the span.
pub(crate) fn add_held(
    own: &mut Grown,
    span: &Stretch,
    start: &Cut,
    w: &Window,
) -> Result<(), Memory>
    requires { AreTidy own.old.spans.items }
    ensures bounds { own.new.bounds ≡ own.old.bounds }
    ensures ok { OnOk result (Adds own.old own.new (IsHeld w.now (place start.now) span.now)) }
{
    let to = w.past_high(&span.to);
    if !start.precedes(&span.from) {
        let bounds = own.bounds();
        return own.add(bounds.from, to);
    }
    match w.low {
        Some(low) => own.add(w.before_low(low, &span.from), to),
        None => Ok(()),
    }
}
