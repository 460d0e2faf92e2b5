//! One entry over the sets of operators whose windows lie ahead or behind.
ghost use Rattle.std.specs.Prelude.{◌≡◌, OnOk, Option, List, Bool, ℕ, false};
ghost use Rattle.stl_syntax.specs.Trace.{Trace};
ghost use Rattle.frac128.specs.Cuts.{place};
ghost use Rattle.growing_sets.specs.Steps.{Gains, SeesOnly};
ghost use Rattle.early_verdict.specs.Fitting.{Lists, lists_of, Says, AreSetsTidy, IsTidy};
ghost use Rattle.early_verdict.specs.Fitting.{HasStepped, EventuallyFits, AlwaysFits, OnceFits, HistoricallyFits};
ghost use Rattle.early_verdict.specs.Happening.{Had, Happens, SetCanTake, SetsCanTake, Was};
ghost use Rattle.early_verdict.specs.Looking.{IsAhead, IsBehind, WasTold, WasList, SeesOnlyTo};
ghost use Rattle.growing_sets.specs.declared.stretch.Stretch.{Stretch};

use crate::entry::Entry;
use crate::sets::Sets;
use frac128::Memory;
use growing_sets::{Grown, Window};

/// The times each of whose window, all of it, is one of the set.
pub(crate) fn each_open(own: &mut Grown, x: &Grown, entry: &Entry, w: &Window) -> Result<(), Memory>
    requires own { SetCanTake entry.now own.old }
    requires input { IsTidy x.now }
    ensures tidy { OnOk result (IsTidy own.new) }
    ensures bounds { own.new.bounds ≡ own.old.bounds }
    ensures gains { OnOk result (Gains own.old.spans.items own.new.spans.items own.new.fresh.items) }
    ensures tells { OnOk result ((old : Option Trace) (tr : Trace) (x' : List Stretch) → Happens entry.now old tr
        → Gains x' x.now.spans.items x.now.fresh.items → WasList old x'
        → WasTold old own.old (SeesOnly w.now (place entry.now.start) x')
        → Says own.new (SeesOnly w.now (place entry.now.start) x.now.spans.items)) }
{
    if entry.first {
        return own.each_first(x, &entry.start, w);
    }
    own.each(x, &entry.start, w)
}

/// The times each of whose window is one of the set; at the end of the input each up to the last row.
pub(crate) fn each_ahead(
    own: &mut Grown,
    x: &Grown,
    entry: &Entry,
    w: &Window,
) -> Result<(), Memory>
    requires own { SetCanTake entry.now own.old }
    requires input { IsTidy x.now }
    ensures tidy { OnOk result (IsTidy own.new) }
    ensures bounds { own.new.bounds ≡ own.old.bounds }
    ensures gains { OnOk result (Gains own.old.spans.items own.new.spans.items own.new.fresh.items) }
    ensures tells { OnOk result ((old : Option Trace) (tr : Trace) (x' : List Stretch) → Happens entry.now old tr
        → Gains x' x.now.spans.items x.now.fresh.items → WasList old x'
        → WasTold old own.old (SeesOnly w.now (place entry.now.start) x')
        → Says own.new (SeesOnlyTo entry.now.ended w.now (place entry.now.start) (place entry.now.sure) x.now.spans.items)) }
{
    if entry.ended {
        return own.each_last(x, &entry.start, &entry.sure, w);
    }
    each_open(own, x, entry, w)
}

/// Some time of a window ahead.
pub(crate) fn step_eventually(
    own: &mut Sets,
    p: &Sets,
    w: &Window,
    entry: &Entry,
) -> Result<(), Memory>
    requires own { SetsCanTake entry.now own.old }
    requires operand { AreSetsTidy p.now }
    ensures stepped { OnOk result (HasStepped own.old own.new) }
    ensures fits { OnOk result ((old : Option Trace) (tr : Trace) (p' : Lists) (a b : ℕ) (a_in b_in : Bool) → IsAhead w.now a b a_in b_in
        → Happens entry.now old tr → Had old tr p' p.now → Was old (λ o. EventuallyFits false o a b a_in b_in p') own.old
        → EventuallyFits entry.now.ended tr a b a_in b_in (lists_of p.now) own.new) }
{
    own.yes.some_sure(&p.yes, &entry.before, &entry.sure, w)?;
    each_ahead(&mut own.no, &p.no, entry, w)?;
    Ok(())
}

/// Each time of a window ahead.
pub(crate) fn step_always(own: &mut Sets, p: &Sets, w: &Window, entry: &Entry) -> Result<(), Memory>
    requires own { SetsCanTake entry.now own.old }
    requires operand { AreSetsTidy p.now }
    ensures stepped { OnOk result (HasStepped own.old own.new) }
    ensures fits { OnOk result ((old : Option Trace) (tr : Trace) (p' : Lists) (a b : ℕ) (a_in b_in : Bool) → IsAhead w.now a b a_in b_in
        → Happens entry.now old tr → Had old tr p' p.now → Was old (λ o. AlwaysFits false o a b a_in b_in p') own.old
        → AlwaysFits entry.now.ended tr a b a_in b_in (lists_of p.now) own.new) }
{
    own.no.some_sure(&p.no, &entry.before, &entry.sure, w)?;
    each_ahead(&mut own.yes, &p.yes, entry, w)?;
    Ok(())
}

/// Some time of a window behind.
pub(crate) fn step_once(own: &mut Sets, p: &Sets, w: &Window, entry: &Entry) -> Result<(), Memory>
    requires own { SetsCanTake entry.now own.old }
    requires operand { AreSetsTidy p.now }
    ensures stepped { OnOk result (HasStepped own.old own.new) }
    ensures fits { OnOk result ((old : Option Trace) (tr : Trace) (p' : Lists) (a : ℕ) (b : Option ℕ) (a_in b_in : Bool) → IsBehind w.now a b a_in b_in
        → Happens entry.now old tr → Had old tr p' p.now → Was old (λ o. OnceFits o a b a_in b_in p') own.old
        → OnceFits tr a b a_in b_in (lists_of p.now) own.new) }
{
    own.yes.some(&p.yes, w)?;
    each_open(&mut own.no, &p.no, entry, w)?;
    Ok(())
}

/// Each time of a window behind.
pub(crate) fn step_historically(
    own: &mut Sets,
    p: &Sets,
    w: &Window,
    entry: &Entry,
) -> Result<(), Memory>
    requires own { SetsCanTake entry.now own.old }
    requires operand { AreSetsTidy p.now }
    ensures stepped { OnOk result (HasStepped own.old own.new) }
    ensures fits { OnOk result ((old : Option Trace) (tr : Trace) (p' : Lists) (a : ℕ) (b : Option ℕ) (a_in b_in : Bool) → IsBehind w.now a b a_in b_in
        → Happens entry.now old tr → Had old tr p' p.now → Was old (λ o. HistoricallyFits o a b a_in b_in p') own.old
        → HistoricallyFits tr a b a_in b_in (lists_of p.now) own.new) }
{
    own.no.some(&p.no, w)?;
    each_open(&mut own.yes, &p.yes, entry, w)?;
    Ok(())
}
