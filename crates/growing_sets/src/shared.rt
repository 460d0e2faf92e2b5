//! The first and the last times that a list of stretches has within one.
ghost use Rattle.std.specs.Prelude.{◌≡◌, ◌↔◌, IfSome, IfNone, Some, slice_get};
ghost use Rattle.rational.specs.Time.{Rational};
ghost use Rattle.frac128.specs.Cuts.{place};
ghost use Rattle.growing_sets.specs.Spans.{AreTidy, IsOn, Lies};
ghost use Rattle.growing_sets.specs.Reaching.{IsFirstBegin, IsLastEnd};
ghost use Rattle.growing_sets.specs.declared.stretch.Stretch.{Stretch};

use crate::stretch::Stretch;
use crate::stretches::Stretches;
use crate::touching::begins_by;
use frac128::Cut;

/// What the stretch at the place has within the part.
fn shared_at(spans: &Stretches, at: usize, part: &Stretch) -> Option<Stretch>
    ensures some { IfSome result (λ s. (n : Stretch) × (slice_get spans.now.items at ≡ Some n) × ((t : Rational) → Lies s t ↔ (Lies n t × Lies part.now t))) }
    ensures none { IfNone result ((n : Stretch) → slice_get spans.now.items at ≡ Some n → (t : Rational) → Lies n t → ¬ (Lies part.now t)) }
{
    let next = begins_by(spans, at, &part.to)?;
    Stretch::make(next.from, next.to, part)
}

/// Where what the spans have within the part ends.
pub fn last_end(spans: &Stretches, part: &Stretch) -> Option<Cut>
    requires { AreTidy spans.now.items }
    ensures some { IfSome result (λ c. IsLastEnd spans.now.items part.now (place c)) }
    ensures none { IfNone result ((u : Rational) → Lies part.now u → ¬ (IsOn spans.now.items u)) }
{
    let at = spans.reaching(&part.to);
    if let Some(last) = shared_at(spans, at, part) {
        return Some(last.to);
    }
    if at == 0 {
        return None;
    }
    let last = shared_at(spans, at - 1, part)?;
    Some(last.to)
}

/// Where what the spans have within the part begins.
pub(crate) fn first_begin(spans: &Stretches, part: &Stretch) -> Option<Cut>
    requires { AreTidy spans.now.items }
    ensures some { IfSome result (λ c. IsFirstBegin spans.now.items part.now (place c)) }
    ensures none { IfNone result ((u : Rational) → Lies part.now u → ¬ (IsOn spans.now.items u)) }
{
    let at = spans.reaching(&part.from);
    if let Some(first) = shared_at(spans, at, part) {
        return Some(first.from);
    }
    if at == spans.len() {
        return None;
    }
    let first = shared_at(spans, at + 1, part)?;
    Some(first.from)
}
