//! From where on a since without a bound begins anew, and what it lets go of then.
ghost use Rattle.std.specs.Prelude.{◌≡◌, ◌⊎◌, ◌<◌, ◌^◌, IfSome, MatchOption, Some, length, slice_get};
ghost use Rattle.rational.specs.Rational.{IsWithin};
ghost use Rattle.rational.specs.Time.{later, ◌≤ʳ◌};
ghost use Rattle.frac128.specs.Value.{value};
ghost use Rattle.growing_sets.specs.Spans.{AreTidy, IsOn, Lies};
ghost use Rattle.early_verdict.specs.Fitting.{AreSetsTidy};
ghost use Rattle.growing_sets.specs.Showing.{IsGrownInside};
ghost use Rattle.early_verdict.specs.Letting.{IsDecisive, IsEndlessCut, IsEndlessCutAt, IsSeeing};
ghost use Rattle.early_verdict.specs.declared.sets.Sets.{Sets as ASets};

use crate::letting::cut_before;
use crate::sets::Sets;
use frac128::Cut;
use growing_sets::{Grown, Stretch, Stretches, cut_front, front, last_end};

/// The last time that the spans have in the part, if there is a last one.
fn last_time(spans: &Stretches, part: &Stretch) -> Option<Cut>
    requires { AreTidy spans.now.items }
    ensures { IfSome result (λ c. IsOn spans.now.items (value c.time) × Lies part.now (value c.time) × (c.side ≡ 0)) }
{
    let end = last_end(spans, part)?;
    if end.side == 0 {
        return None;
    }
    Some(Cut {
        time: end.time,
        side: 0,
    })
}

/// The later of two, where there are two.
fn later_of(first: Option<Cut>, second: Option<Cut>) -> Option<Cut>
    ensures { IfSome result (λ c. (first ≡ Some c) ⊎ (second ≡ Some c)) }
{
    let Some(a) = first else {
        return second;
    };
    let Some(b) = second else {
        return Some(a);
    };
    Some(a.later(b))
}

/// The last time so far before the cut at which a since without a bound begins anew, if it lies behind the first that its operands show.
pub(crate) fn decisive(own: &Sets, left: &Sets, right: &Sets, low: u32, cut: &Cut) -> Option<Cut>
    requires own { AreSetsTidy own.now }
    requires left { AreSetsTidy left.now }
    requires near { IsWithin (2 ^ 34) (value cut.now.time) }
    ensures { IfSome result (λ c. (later (value c.time) low ≤ʳ value cut.now.time) × IsDecisive (value c.time) own.now left.now right.now) }
{
    let Some(parts) = &own.parts else {
        return None;
    };
    let at = cut_before(cut, low);
    let limit = Cut {
        time: at.time,
        side: 1,
    };
    let bounds = left.no.bounds();
    let part = Stretch::make(bounds.from, limit, &bounds)?;
    let both = last_time(&parts.holding.both.spans, &part);
    let failing = last_time(&left.no.spans, &part);
    let found = later_of(both, failing)?;
    let first = bounds.from.later(right.no.bounds().from);
    if !first.precedes(&found) {
        return None;
    }
    Some(found)
}

/// Lets go of the times that see none of the spans so far before them.
fn keep_seeing(own: &mut Grown, spans: &Stretches, low: u32)
    requires tidy { AreTidy own.old.spans.items }
    requires inside { IsGrownInside own.old }
    requires spans { AreTidy spans.now.items }
    ensures { IsSeeing low spans.now.items own.old own.new }
{
    let Some(first) = front(spans) else {
        own.spans.clear();
        return;
    };
    let bounds = own.bounds();
    let from = first.from.shift_begin(i64::from(low), true);
    match Stretch::make(from, bounds.to, &bounds) {
        Some(rest) => cut_front(&mut own.spans, &rest.from),
        None => own.spans.clear(),
    }
}

/// What a since without a bound has of windows that reach to the start, once its operands are let go from there.
fn cut_endless(own: &mut Sets, spans: &Stretches, low: u32)
    requires tidy { AreSetsTidy own.old }
    requires inside { MatchOption own.old.parts (Unit {0}) (λ x. IsGrownInside x.holding.some) }
    requires spans { AreTidy spans.now.items }
    ensures { IsEndlessCut low spans.now.items own.old own.new }
{
    match &mut own.parts {
        Some(parts) => {
            parts.failing.never.spans.clear();
            keep_seeing(&mut parts.holding.some, spans, low);
        }
        None => {}
    }
}

/// Cuts what the since at place `i` has of windows that reach to the start, as `cut_endless` does.
pub(crate) fn cut_endless_at(live: &mut [Sets], i: usize, spans: &Stretches, low: u32)
    requires within { i < length live.old }
    requires tidy { (s : ASets) → slice_get live.old i ≡ Some s → AreSetsTidy s }
    requires inside { (s : ASets) → slice_get live.old i ≡ Some s → MatchOption s.parts (Unit {0}) (λ x. IsGrownInside x.holding.some) }
    requires spans { AreTidy spans.now.items }
    ensures { IsEndlessCutAt i low spans.now.items live.old live.new }
{
    let (_, from) = live.split_at_mut(i);
    cut_endless(&mut from[0], spans, low);
}
