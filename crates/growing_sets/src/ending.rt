//! What is added at the end of a list of stretches, where most of what a row brings belongs.
ghost use Rattle.std.specs.Prelude.{◌≡◌, ◌++◌, ◌∷◌, [], List, OnOk};
ghost use Rattle.rational.specs.Places.{Before};
ghost use Rattle.frac128.specs.Cuts.{place};
ghost use Rattle.growing_sets.specs.Spans.{AreTidy, EndBefore, IsPutIn};
ghost use Rattle.growing_sets.specs.Ending.{BelongsAt, IsLast};
ghost use Rattle.growing_sets.specs.declared.stretch.Stretch.{Stretch as AStretch};

use crate::order::precedes;
use crate::stretch::Stretch;
use crate::stretches::Stretches;
use frac128::{Cut, Memory};

/// Where in a list a stretch belongs, as far as that is seen at the list's end.
#[derive(Clone, Copy)]
pub(crate) enum End {
    /// Behind all stretches of the list.
    Behind,
    /// With the last one, in which it begins, or at whose end.
    In(Stretch),
    /// Anywhere.
    Anywhere,
}

/// Where a stretch belongs that begins at the cut.
#[inline(always)]
pub(crate) fn end_for(spans: &Stretches, cut: &Cut) -> End
    requires { AreTidy spans.now.items }
    ensures { BelongsAt (place cut.now) spans.now.items result }
{
    let Some(last) = spans.last() else {
        return End::Behind;
    };
    if precedes(&last.to, cut) {
        return End::Behind;
    }
    if precedes(cut, &last.from) {
        return End::Anywhere;
    }
    End::In(last)
}

/// Puts the part behind all stretches of the list.
#[inline(always)]
pub(crate) fn put_last(
    spans: &mut Stretches,
    part: &Stretch,
    fresh: &mut Vec<Stretch>,
) -> Result<(), Memory>
    requires tidy { AreTidy spans.old.items }
    requires behind { EndBefore (place part.now.from) spans.old.items }
    ensures { OnOk result (IsPutIn part.now spans.old.items spans.new.items fresh.old.items fresh.new.items) }
{
    let Ok(()) = spans.push_back(*part) else {
        return Err(Memory);
    };
    let Ok(()) = fresh.push(*part) else {
        return Err(Memory);
    };
    Ok(())
}

/// Puts a stretch in the place of the last one.
#[inline(always)]
fn set_last(spans: &mut Stretches, stretch: Stretch)
    ensures { (front : List AStretch) (last : AStretch) → spans.old.items ≡ front ++ last ∷ [] → spans.new.items ≡ front ++ stretch ∷ [] }
{
    let count = spans.len();
    if count == 0 {
        return;
    }
    spans.set(count - 1, stretch);
}

/// Lengthens the last stretch up to where the part ends, which begins in it or at its end.
#[inline(always)]
pub(crate) fn lengthen(
    spans: &mut Stretches,
    last: &Stretch,
    part: &Stretch,
    fresh: &mut Vec<Stretch>,
) -> Result<(), Memory>
    requires tidy { AreTidy spans.old.items }
    requires last { IsLast last.now spans.old.items }
    requires begins { ¬ (Before (place part.now.from) (place last.now.from)) }
    requires reaches { ¬ (Before (place last.now.to) (place part.now.from)) }
    ensures { OnOk result (IsPutIn part.now spans.old.items spans.new.items fresh.old.items fresh.new.items) }
{
    if !precedes(&last.to, &part.to) {
        return Ok(());
    }
    let gap = Stretch {
        from: last.to,
        to: part.to,
    };
    let Ok(()) = fresh.push(gap) else {
        return Err(Memory);
    };
    let longer = Stretch {
        from: last.from,
        to: part.to,
    };
    set_last(spans, longer);
    Ok(())
}
