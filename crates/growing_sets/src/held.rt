//! What the input of a window gained, added to the set of the times whose windows see it, or lie in it.
ghost use Rattle.std.specs.Prelude.{◌≡◌, OnOk};
ghost use Rattle.frac128.specs.Cuts.{place};
ghost use Rattle.growing_sets.specs.Spans.{AreTidy};
ghost use Rattle.growing_sets.specs.Growing.{Adds};
ghost use Rattle.growing_sets.specs.Windows.{SeesPart};
ghost use Rattle.growing_sets.specs.Steps.{BySome, HeldAt};

use crate::grown::Grown;
use crate::seeing::{add_held, add_seeing};
use crate::stretch::Stretch;
use crate::stretches::Stretches;
use crate::touching::holding;
use crate::window::Window;
use frac128::{Cut, Memory};

/// Adds the times from which some time of one of the parts lies in the window.
pub(crate) fn add_all_seeing(own: &mut Grown, parts: &[Stretch], w: &Window) -> Result<(), Memory>
    requires { AreTidy own.old.spans.items }
    ensures bounds { own.new.bounds ≡ own.old.bounds }
    ensures ok { OnOk result (Adds own.old own.new (BySome (SeesPart w.now) parts.now)) }
{
    for part in parts {
        add_seeing(own, part, w)?;
    }
    Ok(())
}

/// Adds the times whose window, as far as it lies from the start on, the span holds that holds the part's first times.
fn add_held_by(
    own: &mut Grown,
    part: &Stretch,
    spans: &Stretches,
    start: &Cut,
    w: &Window,
) -> Result<(), Memory>
    requires own { AreTidy own.old.spans.items }
    requires spans { AreTidy spans.now.items }
    ensures bounds { own.new.bounds ≡ own.old.bounds }
    ensures ok { OnOk result (Adds own.old own.new (HeldAt w.now (place start.now) spans.now.items part.now)) }
{
    match holding(spans, &part.from) {
        None => Ok(()),
        Some(span) => add_held(own, &span, start, w),
    }
}

/// Adds the times whose window, as far as it lies from the start on, a span holds that holds the first times of one of the parts.
pub(crate) fn add_all_held(
    own: &mut Grown,
    parts: &[Stretch],
    spans: &Stretches,
    start: &Cut,
    w: &Window,
) -> Result<(), Memory>
    requires own { AreTidy own.old.spans.items }
    requires spans { AreTidy spans.now.items }
    ensures bounds { own.new.bounds ≡ own.old.bounds }
    ensures ok { OnOk result (Adds own.old own.new (BySome (HeldAt w.now (place start.now) spans.now.items) parts.now)) }
{
    for part in parts {
        add_held_by(own, part, spans, start, w)?;
    }
    Ok(())
}
