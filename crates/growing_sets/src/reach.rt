//! Runs that reach a time of another set, ahead or behind.
ghost use Rattle.std.specs.Prelude.{◌≡◌, OnOk};
ghost use Rattle.frac128.specs.Cuts.{place};
ghost use Rattle.growing_sets.specs.Spans.{AreTidy};
ghost use Rattle.growing_sets.specs.Growing.{Adds};
ghost use Rattle.growing_sets.specs.Steps.{BySome};
ghost use Rattle.growing_sets.specs.Reaching.{IsCarried, ReachedAt, ReachesAt, ReachesBy, ReachesIn};

use crate::grown::Grown;
use crate::shared::{first_begin, last_end};
use crate::stretch::Stretch;
use crate::stretches::Stretches;
use crate::touching::{begins_by, holding};
use frac128::{Cut, Memory};

/// Adds the times of the run from which on it has a sure time of the spans.
fn add_reaching(own: &mut Grown, run: &Stretch, spans: &Stretches, sure: &Cut) -> Result<(), Memory>
    requires own { AreTidy own.old.spans.items }
    requires spans { AreTidy spans.now.items }
    ensures bounds { own.new.bounds ≡ own.old.bounds }
    ensures ok { OnOk result (Adds own.old own.new (ReachesIn spans.now.items (place sure.now) run.now)) }
{
    let Some(part) = Stretch::make(run.from, *sure, run) else {
        return Ok(());
    };
    match last_end(spans, &part) {
        None => Ok(()),
        Some(end) => own.add(run.from, end),
    }
}

/// Adds those times of the run that holds the part's first times, from which on it has a sure time of the spans.
fn add_reaching_at(
    own: &mut Grown,
    part: &Stretch,
    runs: &Stretches,
    spans: &Stretches,
    sure: &Cut,
) -> Result<(), Memory>
    requires own { AreTidy own.old.spans.items }
    requires runs { AreTidy runs.now.items }
    requires spans { AreTidy spans.now.items }
    ensures bounds { own.new.bounds ≡ own.old.bounds }
    ensures ok { OnOk result (Adds own.old own.new (ReachesAt runs.now.items spans.now.items (place sure.now) part.now)) }
{
    match holding(runs, &part.from) {
        None => Ok(()),
        Some(run) => add_reaching(own, &run, spans, sure),
    }
}

/// Adds, for each of the parts, what the run about its first times gives by sure times of the spans.
pub(crate) fn add_all_reaching(
    own: &mut Grown,
    parts: &[Stretch],
    runs: &Stretches,
    spans: &Stretches,
    sure: &Cut,
) -> Result<(), Memory>
    requires own { AreTidy own.old.spans.items }
    requires runs { AreTidy runs.now.items }
    requires spans { AreTidy spans.now.items }
    ensures bounds { own.new.bounds ≡ own.old.bounds }
    ensures ok { OnOk result (Adds own.old own.new (BySome (ReachesAt runs.now.items spans.now.items (place sure.now)) parts.now)) }
{
    for part in parts {
        add_reaching_at(own, part, runs, spans, sure)?;
    }
    Ok(())
}

/// Adds what the run gives that holds the first times of the part between the two cuts: those that the cut `sure` newly made sure.
fn add_reaching_by(
    own: &mut Grown,
    part: &Stretch,
    runs: &Stretches,
    spans: &Stretches,
    before: &Cut,
    sure: &Cut,
) -> Result<(), Memory>
    requires own { AreTidy own.old.spans.items }
    requires runs { AreTidy runs.now.items }
    requires spans { AreTidy spans.now.items }
    ensures bounds { own.new.bounds ≡ own.old.bounds }
    ensures ok { OnOk result (Adds own.old own.new
        (ReachesBy runs.now.items spans.now.items (place before.now) (place sure.now) part.now)) }
{
    match Stretch::make(*before, *sure, part) {
        None => Ok(()),
        Some(newly) => add_reaching_at(own, &newly, runs, spans, sure),
    }
}

/// Adds, for each stretch of the spans that begins by the cut `sure`, what its part between the two cuts gives.
pub(crate) fn add_reaching_between(
    own: &mut Grown,
    runs: &Stretches,
    spans: &Stretches,
    before: &Cut,
    sure: &Cut,
) -> Result<(), Memory>
    requires own { AreTidy own.old.spans.items }
    requires runs { AreTidy runs.now.items }
    requires spans { AreTidy spans.now.items }
    ensures bounds { own.new.bounds ≡ own.old.bounds }
    ensures ok { OnOk result (Adds own.old own.new
        (BySome (ReachesBy runs.now.items spans.now.items (place before.now) (place sure.now)) spans.now.items)) }
{
    let mut at = spans.reaching(before);
    while let Some(next) = begins_by(spans, at, sure) {
        add_reaching_by(own, &next, runs, spans, before, sure)?;
        at += 1;
    }
    Ok(())
}

/// Adds the times back from which the run that holds the part's first times has a time of the spans.
fn add_reached_at(
    own: &mut Grown,
    part: &Stretch,
    runs: &Stretches,
    spans: &Stretches,
) -> Result<(), Memory>
    requires own { AreTidy own.old.spans.items }
    requires runs { AreTidy runs.now.items }
    requires spans { AreTidy spans.now.items }
    ensures bounds { own.new.bounds ≡ own.old.bounds }
    ensures ok { OnOk result (Adds own.old own.new (ReachedAt runs.now.items spans.now.items part.now)) }
{
    let Some(run) = holding(runs, &part.from) else {
        return Ok(());
    };
    match first_begin(spans, &run) {
        None => Ok(()),
        Some(begin) => own.add(begin, run.to),
    }
}

/// Adds, for each of the parts, the times back from which the run about it has a time of the spans.
pub(crate) fn add_all_reached(
    own: &mut Grown,
    parts: &[Stretch],
    runs: &Stretches,
    spans: &Stretches,
) -> Result<(), Memory>
    requires own { AreTidy own.old.spans.items }
    requires runs { AreTidy runs.now.items }
    requires spans { AreTidy spans.now.items }
    ensures bounds { own.new.bounds ≡ own.old.bounds }
    ensures ok { OnOk result (Adds own.old own.new (BySome (ReachedAt runs.now.items spans.now.items) parts.now)) }
{
    for part in parts {
        add_reached_at(own, part, runs, spans)?;
    }
    Ok(())
}

/// Adds the first times of the runs, from the bounds of the set on without a break, where they are carried on from before these.
pub(crate) fn add_carried(own: &mut Grown, runs: &Stretches, carried: bool) -> Result<(), Memory>
    requires own { AreTidy own.old.spans.items }
    requires runs { AreTidy runs.now.items }
    ensures bounds { own.new.bounds ≡ own.old.bounds }
    ensures ok { OnOk result (Adds own.old own.new (IsCarried carried (place own.old.bounds.from) runs.now.items)) }
{
    if !carried {
        return Ok(());
    }
    let bounds = own.bounds();
    match holding(runs, &bounds.from) {
        None => Ok(()),
        Some(run) => own.add(bounds.from, run.to),
    }
}
