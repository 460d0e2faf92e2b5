//! One entry over the sets of until and since.
ghost use Rattle.std.specs.Prelude.{◌≡◌, OnOk, Option, Some, ℕ, true, false, MatchOption, IsSome};
ghost use Rattle.stl_syntax.specs.Trace.{Trace};
ghost use Rattle.early_verdict.specs.Fitting.{Lists, lists_of, AreSetsTidy, IsHoldingTidy, IsFailingTidy};
ghost use Rattle.early_verdict.specs.Fitting.{IsHoldingEmpty, IsFailingEmpty, GainsHolding, GainsFailing};
ghost use Rattle.early_verdict.specs.Fitting.{HasFailBounds, HasStepped, KeepsHolding, KeepsFailing, UntilHolding};
ghost use Rattle.early_verdict.specs.Fitting.{UntilFailing, SinceHolding, SinceFailing, UntilFits, SinceFits};
ghost use Rattle.early_verdict.specs.Happening.{FailingCanTake, Had, Happens, HoldingCanTake, SetsCanTake, Was};
ghost use Rattle.early_verdict.specs.Looking.{IsAhead, IsBehind};

use crate::atoms::rest;
use crate::entry::Entry;
use crate::looks::{each_ahead, each_open};
use crate::sets::{Failing, Holding, Sets};
use frac128::Memory;
use growing_sets::Window;

/// Where until is certainly true: some sure time of the window has the right operand, and from each time up to the window on the left
/// one goes on to a sure time of both.
fn until_holds(
    own: &mut Holding,
    p: &Sets,
    q: &Sets,
    w: &Window,
    up_to: &Window,
    entry: &Entry,
) -> Result<(), Memory>
    requires own { HoldingCanTake entry.now own.old }
    requires left { AreSetsTidy p.now }
    requires right { AreSetsTidy q.now }
    ensures tidy { OnOk result (IsHoldingTidy own.new) }
    ensures bounds { OnOk result (KeepsHolding own.old own.new) }
    ensures gains { OnOk result (GainsHolding own.old own.new) }
    ensures fits { OnOk result ((old : Option Trace) (tr : Trace) (p' q' : Lists) (a b : ℕ) → IsAhead w.now a b true true → IsAhead up_to.now 0 a true true
        → Happens entry.now old tr → Had old tr p' p.now → Had old tr q' q.now
        → MatchOption old (IsHoldingEmpty own.old) (λ o. UntilHolding o a b p' q' own.old)
        → UntilHolding tr a b (lists_of p.now) (lists_of q.now) own.new) }
{
    own.both.both(&p.yes, &q.yes)?;
    own.run
        .reach_sure(&p.yes, &own.both, &entry.before, &entry.sure)?;
    own.some.some_sure(&q.yes, &entry.before, &entry.sure, w)?;
    each_open(&mut own.each, &own.run, entry, up_to)?;
    Ok(())
}

/// Where it is certainly false: the right operand is all over the window, or from some time up to the window on one of the two is, up to
/// a time at which the left one is.
fn until_fails(
    own: &mut Failing,
    p: &Sets,
    q: &Sets,
    w: &Window,
    up_to: &Window,
    entry: &Entry,
) -> Result<(), Memory>
    requires own { FailingCanTake entry.now own.old }
    requires left { AreSetsTidy p.now }
    requires right { AreSetsTidy q.now }
    ensures tidy { OnOk result (IsFailingTidy own.new) }
    ensures bounds { OnOk result (KeepsFailing own.old own.new) }
    ensures gains { OnOk result (GainsFailing own.old own.new) }
    ensures fits { OnOk result ((old : Option Trace) (tr : Trace) (p' q' : Lists) (a b : ℕ) → IsAhead w.now a b true true → IsAhead up_to.now 0 a true true
        → Happens entry.now old tr → Had old tr p' p.now → Had old tr q' q.now
        → own.old.fail.bounds ≡ p.now.no.bounds → own.old.stop.bounds ≡ p.now.no.bounds
        → MatchOption old (IsFailingEmpty own.old) (λ o. UntilFailing false o a b p' q' own.old)
        → UntilFailing entry.now.ended tr a b (lists_of p.now) (lists_of q.now) own.new) }
{
    own.fail.either(&p.no, &q.no)?;
    own.stop.reach(&own.fail, &p.no)?;
    each_ahead(&mut own.never, &q.no, entry, w)?;
    own.broken.some(&own.stop, up_to)?;
    Ok(())
}

/// Where since is certainly true: some time of the window has the right operand, and back from each time after it the left one goes on
/// to a time of both.
fn since_holds(
    own: &mut Holding,
    p: &Sets,
    q: &Sets,
    w: &Window,
    down_to: &Window,
    entry: &Entry,
) -> Result<(), Memory>
    requires own { HoldingCanTake entry.now own.old }
    requires left { AreSetsTidy p.now }
    requires right { AreSetsTidy q.now }
    ensures tidy { OnOk result (IsHoldingTidy own.new) }
    ensures bounds { OnOk result (KeepsHolding own.old own.new) }
    ensures gains { OnOk result (GainsHolding own.old own.new) }
    ensures fits { OnOk result ((old : Option Trace) (tr : Trace) (p' q' : Lists) (a : ℕ) (b : Option ℕ)
        → IsBehind w.now a b true true → IsBehind down_to.now 0 (Some a) true true
        → Happens entry.now old tr → Had old tr p' p.now → Had old tr q' q.now
        → MatchOption old (IsHoldingEmpty own.old) (λ o. SinceHolding o a b p' q' own.old)
        → SinceHolding tr a b (lists_of p.now) (lists_of q.now) own.new) }
{
    own.both.both(&p.yes, &q.yes)?;
    own.run.reach_back(&p.yes, &own.both, own.carried)?;
    own.some.some(&q.yes, w)?;
    each_open(&mut own.each, &own.run, entry, down_to)?;
    Ok(())
}

/// Where it is certainly false: the right operand is all over the window, or back from some time after it one of the two is, down to a
/// time at which the left one is.
fn since_fails(
    own: &mut Failing,
    p: &Sets,
    q: &Sets,
    w: &Window,
    down_to: &Window,
    entry: &Entry,
) -> Result<(), Memory>
    requires own { FailingCanTake entry.now own.old }
    requires left { AreSetsTidy p.now }
    requires right { AreSetsTidy q.now }
    ensures tidy { OnOk result (IsFailingTidy own.new) }
    ensures bounds { OnOk result (KeepsFailing own.old own.new) }
    ensures gains { OnOk result (GainsFailing own.old own.new) }
    ensures fits { OnOk result ((old : Option Trace) (tr : Trace) (p' q' : Lists) (a : ℕ) (b : Option ℕ)
        → IsBehind w.now a b true true → IsBehind down_to.now 0 (Some a) true true
        → Happens entry.now old tr → Had old tr p' p.now → Had old tr q' q.now
        → own.old.fail.bounds ≡ p.now.no.bounds → own.old.stop.bounds ≡ p.now.no.bounds
        → MatchOption old (IsFailingEmpty own.old) (λ o. SinceFailing o a b p' q' own.old)
        → SinceFailing tr a b (lists_of p.now) (lists_of q.now) own.new) }
{
    own.fail.either(&p.no, &q.no)?;
    own.stop.reach_back(&own.fail, &p.no, own.carried)?;
    each_open(&mut own.never, &q.no, entry, w)?;
    own.broken.some(&own.stop, down_to)?;
    Ok(())
}

/// Until: its sets between, and then its own.
pub(crate) fn step_until(
    own: &mut Sets,
    p: &Sets,
    q: &Sets,
    w: &Window,
    up_to: &Window,
    entry: &Entry,
) -> Result<(), Memory>
    requires own { SetsCanTake entry.now own.old }
    requires left { AreSetsTidy p.now }
    requires right { AreSetsTidy q.now }
    ensures stepped { OnOk result (HasStepped own.old own.new) }
    ensures fits { OnOk result ((old : Option Trace) (tr : Trace) (p' q' : Lists) (a b : ℕ) → IsAhead w.now a b true true → IsAhead up_to.now 0 a true true
        → Happens entry.now old tr → Had old tr p' p.now → Had old tr q' q.now → HasFailBounds own.old p.now
        → IsSome own.old.parts → Was old (λ o. UntilFits false o a b p' q') own.old
        → UntilFits entry.now.ended tr a b (lists_of p.now) (lists_of q.now) own.new) }
{
    let Some(parts) = &mut own.parts else {
        rest(own);
        return Ok(());
    };
    until_holds(&mut parts.holding, p, q, w, up_to, entry)?;
    until_fails(&mut parts.failing, p, q, w, up_to, entry)?;
    own.yes.both(&parts.holding.some, &parts.holding.each)?;
    own.no.either(&parts.failing.never, &parts.failing.broken)?;
    Ok(())
}

/// Since: its sets between, and then its own.
pub(crate) fn step_since(
    own: &mut Sets,
    p: &Sets,
    q: &Sets,
    w: &Window,
    down_to: &Window,
    entry: &Entry,
) -> Result<(), Memory>
    requires own { SetsCanTake entry.now own.old }
    requires left { AreSetsTidy p.now }
    requires right { AreSetsTidy q.now }
    ensures stepped { OnOk result (HasStepped own.old own.new) }
    ensures fits { OnOk result ((old : Option Trace) (tr : Trace) (p' q' : Lists) (a : ℕ) (b : Option ℕ)
        → IsBehind w.now a b true true → IsBehind down_to.now 0 (Some a) true true
        → Happens entry.now old tr → Had old tr p' p.now → Had old tr q' q.now → HasFailBounds own.old p.now
        → IsSome own.old.parts → Was old (λ o. SinceFits o a b p' q') own.old → SinceFits tr a b (lists_of p.now) (lists_of q.now) own.new) }
{
    let Some(parts) = &mut own.parts else {
        rest(own);
        return Ok(());
    };
    since_holds(&mut parts.holding, p, q, w, down_to, entry)?;
    since_fails(&mut parts.failing, p, q, w, down_to, entry)?;
    own.yes.both(&parts.holding.some, &parts.holding.each)?;
    own.no.either(&parts.failing.never, &parts.failing.broken)?;
    Ok(())
}
