//! The stretches of a list that another one touches.
ghost use Rattle.std.specs.Prelude.{◌≡◌, ◌≤◌, ◌<◌, ◌^◌, length, take, drop, slice_get, Some, OnOk, IfSome, IfNone};
ghost use Rattle.rational.specs.Places.{Before};
ghost use Rattle.frac128.specs.Cuts.{place};
ghost use Rattle.growing_sets.specs.Spans.{AreTidy, BeginsAfter, EndBefore, IsAmong, IsPutIn, NoneEndsBefore};
ghost use Rattle.growing_sets.specs.Steps.{HoldsFrom};
ghost use Rattle.growing_sets.specs.declared.stretch.Stretch.{Stretch};
ghost use Rattle.growing_sets.specs.Joining.{Notes};

use crate::order::precedes;
use crate::stretch::Stretch;
use crate::stretches::Stretches;
use frac128::{Cut, Memory};

/// The stretch at the place, if it does not begin after the cut.
#[inline(always)]
pub(crate) fn begins_by(spans: &Stretches, at: usize, cut: &Cut) -> Option<Stretch>
    ensures some { IfSome result (λ s. (slice_get spans.now.items at ≡ Some s) × ¬ (Before (place cut.now) (place s.from))) }
    ensures none { IfNone result (BeginsAfter (place cut.now) (drop at spans.now.items)) }
    ensures few { IfSome result (λ s. at < 2 ^ 62) }
{
    let Some(next) = spans.get(at) else {
        return None;
    };
    if precedes(cut, &next.from) {
        return None;
    }
    Some(next)
}

/// The stretch that holds the times just after the cut.
#[inline(always)]
pub fn holding(spans: &Stretches, cut: &Cut) -> Option<Stretch>
    requires { AreTidy spans.now.items }
    ensures some { IfSome result (λ s. IsAmong s spans.now.items × HoldsFrom s (place cut.now)) }
    ensures none { IfNone result ((s : Stretch) → IsAmong s spans.now.items → ¬ (HoldsFrom s (place cut.now))) }
{
    let at = spans.reaching(cut);
    let next = begins_by(spans, at, cut)?;
    if !precedes(cut, &next.to) {
        return None;
    }
    Some(next)
}

/// Notes the times of the part between the two places, if there are any.
fn note(fresh: &mut Vec<Stretch>, from: &Cut, to: &Cut, part: &Stretch) -> Result<(), Memory>
    ensures { OnOk result (Notes (place from.now) (place to.now) part.now fresh.old.items fresh.new.items) }
{
    match Stretch::make(*from, *to, part) {
        None => Ok(()),
        Some(gap) => match fresh.push(gap) {
            Ok(()) => Ok(()),
            Err(_) => Err(Memory),
        },
    }
}

/// Joins the part with the stretch at the place, which it touches, and with those after it that it touches too, and notes the times of
/// the part that were in none of them. A stretch that is joined with the part alone stays where it is: nothing slides.
fn join(
    spans: &mut Stretches,
    at: usize,
    first: &Stretch,
    part: &Stretch,
    fresh: &mut Vec<Stretch>,
) -> Result<(), Memory>
    requires tidy { AreTidy spans.old.items }
    requires within { at ≤ length spans.old.items }
    requires few { at < 2 ^ 62 }
    requires front { EndBefore (place part.now.from) (take at spans.old.items) }
    requires rest { NoneEndsBefore (place part.now.from) (drop at spans.old.items) }
    requires first { slice_get spans.old.items at ≡ Some first.now }
    requires touches { ¬ (Before (place part.now.to) (place first.now.from)) }
    ensures { OnOk result (IsPutIn part.now spans.old.items spans.new.items fresh.old.items fresh.new.items) }
{
    note(fresh, &part.from, &first.from, part)?;
    let mut joined = part.hull(first);
    let mut seen = first.to;
    while let Some(next) = begins_by(spans, at + 1, &part.to) {
        note(fresh, &seen, &next.from, part)?;
        seen = next.to;
        joined = joined.hull(&next);
        spans.remove(at + 1)?;
    }
    note(fresh, &seen, &part.to, part)?;
    spans.set(at, joined);
    Ok(())
}

/// Puts the part in at the place, where it touches no stretch.
fn put_at(
    spans: &mut Stretches,
    at: usize,
    part: &Stretch,
    fresh: &mut Vec<Stretch>,
) -> Result<(), Memory>
    requires tidy { AreTidy spans.old.items }
    requires within { at ≤ length spans.old.items }
    requires front { EndBefore (place part.now.from) (take at spans.old.items) }
    requires rest { BeginsAfter (place part.now.to) (drop at spans.old.items) }
    ensures { OnOk result (IsPutIn part.now spans.old.items spans.new.items fresh.old.items fresh.new.items) }
{
    let Ok(()) = spans.insert(at, *part) else {
        return Err(Memory);
    };
    let Ok(()) = fresh.push(*part) else {
        return Err(Memory);
    };
    Ok(())
}

/// Puts the part in where it belongs, joined with the stretches that it touches.
pub(crate) fn put_in(
    spans: &mut Stretches,
    part: &Stretch,
    fresh: &mut Vec<Stretch>,
) -> Result<(), Memory>
    requires { AreTidy spans.old.items }
    ensures { OnOk result (IsPutIn part.now spans.old.items spans.new.items fresh.old.items fresh.new.items) }
{
    let at = spans.reaching(&part.from);
    match begins_by(spans, at, &part.to) {
        None => put_at(spans, at, part, fresh),
        Some(first) => join(spans, at, &first, part, fresh),
    }
}
