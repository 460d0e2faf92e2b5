//! What the inputs of a set gained, added to it at the same times.
ghost use Rattle.std.specs.Prelude.{◌≡◌, OnOk};
ghost use Rattle.frac128.specs.Cuts.{place};
ghost use Rattle.growing_sets.specs.Spans.{AreTidy, Lies};
ghost use Rattle.growing_sets.specs.Growing.{Adds};
ghost use Rattle.growing_sets.specs.Steps.{BySome, Common, IsPast};

use crate::grown::Grown;
use crate::order::precedes;
use crate::stretch::Stretch;
use crate::stretches::Stretches;
use crate::touching::begins_by;
use frac128::{Cut, Memory};

/// Adds each of the stretches.
pub(crate) fn add_all(own: &mut Grown, parts: &[Stretch]) -> Result<(), Memory>
    requires { AreTidy own.old.spans.items }
    ensures bounds { own.new.bounds ≡ own.old.bounds }
    ensures ok { OnOk result (Adds own.old own.new (BySome Lies parts.now)) }
{
    for part in parts {
        own.add(part.from, part.to)?;
    }
    Ok(())
}

/// Whether the first of the parts begins before the first of the others.
pub(crate) fn is_sooner(parts: &[Stretch], others: &[Stretch]) -> bool {
    let Some(part) = parts.first() else {
        return false;
    };
    let Some(other) = others.first() else {
        return false;
    };
    precedes(&part.from, &other.from)
}

/// Adds the times of the part behind the cut.
fn add_past(own: &mut Grown, part: &Stretch, cut: &Cut) -> Result<(), Memory>
    requires { AreTidy own.old.spans.items }
    ensures bounds { own.new.bounds ≡ own.old.bounds }
    ensures ok { OnOk result (Adds own.old own.new (IsPast (place cut.now) part.now)) }
{
    if !precedes(cut, &part.to) {
        return Ok(());
    }
    own.add(part.from.later(*cut), part.to)
}

/// Adds the times of each of the parts behind the cut.
pub(crate) fn add_all_past(own: &mut Grown, parts: &[Stretch], cut: &Cut) -> Result<(), Memory>
    requires { AreTidy own.old.spans.items }
    ensures bounds { own.new.bounds ≡ own.old.bounds }
    ensures ok { OnOk result (Adds own.old own.new (BySome (IsPast (place cut.now)) parts.now)) }
{
    for part in parts {
        add_past(own, part, cut)?;
    }
    Ok(())
}

/// Adds what the part and the spans have in common.
pub(crate) fn add_common(own: &mut Grown, part: &Stretch, spans: &Stretches) -> Result<(), Memory>
    requires own { AreTidy own.old.spans.items }
    requires spans { AreTidy spans.now.items }
    ensures bounds { own.new.bounds ≡ own.old.bounds }
    ensures ok { OnOk result (Adds own.old own.new (Common spans.now.items part.now)) }
{
    let mut at = spans.reaching(&part.from);
    while let Some(next) = begins_by(spans, at, &part.to) {
        own.add(part.from.later(next.from), part.to.earlier(next.to))?;
        at += 1;
    }
    Ok(())
}

/// Adds what each of the parts and the spans have in common.
pub(crate) fn add_all_common(
    own: &mut Grown,
    parts: &[Stretch],
    spans: &Stretches,
) -> Result<(), Memory>
    requires own { AreTidy own.old.spans.items }
    requires spans { AreTidy spans.now.items }
    ensures bounds { own.new.bounds ≡ own.old.bounds }
    ensures ok { OnOk result (Adds own.old own.new (BySome (Common spans.now.items) parts.now)) }
{
    for part in parts {
        add_common(own, part, spans)?;
    }
    Ok(())
}
