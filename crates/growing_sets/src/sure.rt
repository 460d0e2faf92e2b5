//! What became sure of the input of a window, added to the set of the times whose windows see it.
ghost use Rattle.std.specs.Prelude.{◌≡◌, OnOk};
ghost use Rattle.frac128.specs.Cuts.{place};
ghost use Rattle.growing_sets.specs.Spans.{AreTidy};
ghost use Rattle.growing_sets.specs.Growing.{Adds};
ghost use Rattle.growing_sets.specs.Steps.{BySome};
ghost use Rattle.growing_sets.specs.Sure.{SeesItself, SeesUpto, SeesWithin};

use crate::grown::Grown;
use crate::pointwise::add_all_past;
use crate::seeing::add_seeing;
use crate::stretch::Stretch;
use crate::stretches::Stretches;
use crate::touching::begins_by;
use crate::window::Window;
use frac128::{Cut, Memory};

/// Adds the times from which some time of the part between the two cuts lies in the window.
fn add_seeing_within(
    own: &mut Grown,
    part: &Stretch,
    from: &Cut,
    to: &Cut,
    w: &Window,
) -> Result<(), Memory>
    requires { AreTidy own.old.spans.items }
    ensures bounds { own.new.bounds ≡ own.old.bounds }
    ensures ok { OnOk result (Adds own.old own.new (SeesWithin w.now (place from.now) (place to.now) part.now)) }
{
    match Stretch::make(*from, *to, part) {
        None => Ok(()),
        Some(within) => add_seeing(own, &within, w),
    }
}

/// Adds the times from which some sure time of one of the parts lies in the window.
pub(crate) fn add_all_sure(
    own: &mut Grown,
    parts: &[Stretch],
    sure: &Cut,
    w: &Window,
) -> Result<(), Memory>
    requires { AreTidy own.old.spans.items }
    ensures bounds { own.new.bounds ≡ own.old.bounds }
    ensures ok { OnOk result (Adds own.old own.new (BySome (SeesUpto w.now (place sure.now)) parts.now)) }
{
    for part in parts {
        add_seeing_within(own, part, &part.from, sure, w)?;
    }
    Ok(())
}

/// Adds the times from which some time of the spans between the two cuts lies in the window.
pub(crate) fn add_seeing_between(
    own: &mut Grown,
    spans: &Stretches,
    from: &Cut,
    to: &Cut,
    w: &Window,
) -> Result<(), Memory>
    requires own { AreTidy own.old.spans.items }
    requires spans { AreTidy spans.now.items }
    ensures bounds { own.new.bounds ≡ own.old.bounds }
    ensures ok { OnOk result (Adds own.old own.new (BySome (SeesWithin w.now (place from.now) (place to.now)) spans.now.items)) }
{
    let mut at = spans.reaching(from);
    while let Some(next) = begins_by(spans, at, to) {
        add_seeing_within(own, &next, from, to, w)?;
        at += 1;
    }
    Ok(())
}

/// Adds the times of the parts behind the cut that lie in their own windows.
pub(crate) fn add_themselves(
    own: &mut Grown,
    parts: &[Stretch],
    cut: &Cut,
    w: &Window,
) -> Result<(), Memory>
    requires { AreTidy own.old.spans.items }
    ensures bounds { own.new.bounds ≡ own.old.bounds }
    ensures ok { OnOk result (Adds own.old own.new (SeesItself w.now (place cut.now) parts.now)) }
{
    if !w.sees_itself() {
        return Ok(());
    }
    add_all_past(own, parts, cut)
}
