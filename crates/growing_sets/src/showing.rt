//! What a set shows the ones above it, and what it lets go of.
ghost use Rattle.std.specs.Prelude.{◌≡◌, ◌⊎◌, ◌^◌, OnOk, IfSome, IfNone, Some, [], slice_get};
ghost use Rattle.rational.specs.Rational.{IsWithin};
ghost use Rattle.rational.specs.Time.{Rational, ◌≤ʳ◌, ◌<ʳ◌};
ghost use Rattle.frac128.specs.Value.{value};
ghost use Rattle.rational.specs.Places.{After, Upto};
ghost use Rattle.frac128.specs.Cuts.{place};
ghost use Rattle.growing_sets.specs.Spans.{AreTidy, IsOn, Lies};
ghost use Rattle.growing_sets.specs.Steps.{Gains};
ghost use Rattle.growing_sets.specs.Showing.{EndsAfter, IsCutAt, IsGrownInside, TakesIn};

use crate::grown::Grown;
use crate::pointwise::add_all;
use crate::stretch::Stretch;
use crate::stretches::Stretches;
use frac128::{Cut, Memory};

/// Takes in what the other set gained, as far as it lies in the bounds, and notes what is new of it.
///
/// # Errors
///
/// `Memory` where memory is wanting; the set is of no use then.
pub fn take_in(own: &mut Grown, x: &Grown) -> Result<(), Memory>
    requires { AreTidy own.old.spans.items }
    ensures tidy { OnOk result (AreTidy own.new.spans.items) }
    ensures bounds { own.new.bounds ≡ own.old.bounds }
    ensures gains { OnOk result (Gains own.old.spans.items own.new.spans.items own.new.fresh.items) }
    ensures takes { OnOk result (TakesIn own.old.bounds own.old.spans.items own.new.spans.items x.now.fresh.items) }
{
    own.rest();
    add_all(own, &x.fresh)
}

/// The first of the stretches.
pub fn front(spans: &Stretches) -> Option<Stretch>
    ensures some { IfSome result (λ s. slice_get spans.now.items 0 ≡ Some s) }
    ensures none { IfNone result (spans.now.items ≡ []) }
{
    let Some(first) = spans.get(0) else {
        return None;
    };
    Some(first)
}

/// Lets go of the stretches that end before the cut or at it.
fn drop_before(spans: &mut Stretches, cut: &Cut)
    requires { AreTidy spans.old.items }
    ensures tidy { AreTidy spans.new.items }
    ensures kept { (t : Rational) → IsOn spans.new.items t → IsOn spans.old.items t }
    ensures left { (t : Rational) → IsOn spans.old.items t → IsOn spans.new.items t ⊎ Upto (place cut.now) t }
    ensures first { EndsAfter (place cut.now) spans.new.items }
{
    while let Some(first) = front(spans) {
        if cut.precedes(&first.to) {
            return;
        }
        spans.pop_front();
    }
}

/// Lets go of the times before the cut.
pub fn cut_front(spans: &mut Stretches, cut: &Cut)
    requires tidy { AreTidy spans.old.items }
    requires near { IsWithin (2 ^ 34) (value cut.now.time) }
    ensures tidy { AreTidy spans.new.items }
    ensures kept { (t : Rational) → IsOn spans.new.items t → IsOn spans.old.items t × After (place cut.now) t }
    ensures left { (t : Rational) → IsOn spans.old.items t → After (place cut.now) t → IsOn spans.new.items t }
{
    drop_before(spans, cut);
    if let Some(first) = front(spans) {
        let rest = Stretch {
            from: first.from.later(*cut),
            to: first.to,
        };
        spans.set(0, rest);
    }
}

/// Lets go of the times before the new bounds.
pub fn narrow(own: &mut Grown, bounds: Stretch)
    requires tidy { AreTidy own.old.spans.items }
    requires ends { (t : Rational) → IsOn own.old.spans.items t → Upto (place bounds.to) t }
    ensures tidy { AreTidy own.new.spans.items }
    ensures bounds { own.new.bounds ≡ bounds }
    ensures kept { (t : Rational) → IsOn own.new.spans.items t → IsOn own.old.spans.items t × Lies bounds t }
    ensures left { (t : Rational) → Lies bounds t → IsOn own.old.spans.items t → IsOn own.new.spans.items t }
{
    cut_front(&mut own.spans, &bounds.from);
    own.bounds = bounds;
}

/// The bounds from the time of the cut on; as they are, where no time would be left.
pub fn bounds_from(bounds: &Stretch, cut: &Cut) -> Stretch
    ensures within { (t : Rational) → Lies result t → Lies bounds.now t }
    ensures left { (t : Rational) → Lies bounds.now t → Lies result t ⊎ (t <ʳ value cut.now.time) }
    ensures ends { (t : Rational) → Lies bounds.now t → Upto (place result.to) t }
    ensures after { (t : Rational) → Lies bounds.now t → value cut.now.time ≤ʳ t → (u : Rational) → Lies result u → value cut.now.time ≤ʳ u }
{
    let first = Cut {
        time: cut.time,
        side: 0,
    };
    match Stretch::make(first, bounds.to, bounds) {
        Some(rest) => rest,
        None => *bounds,
    }
}

/// Lets go of the times before that of the cut, where any of the set's times are left.
pub fn cut_to(own: &mut Grown, cut: &Cut)
    requires tidy { AreTidy own.old.spans.items }
    requires inside { IsGrownInside own.old }
    ensures { IsCutAt (value cut.now.time) own.old own.new }
{
    let within = own.bounds();
    narrow(own, bounds_from(&within, cut));
}
