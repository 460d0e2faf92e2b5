//! One entry over the sets of constants, negations and connectives.
ghost use Rattle.std.specs.Prelude.{OnOk, Option};
ghost use Rattle.stl_syntax.specs.Trace.{Trace};
ghost use Rattle.early_verdict.specs.Adding.{HasGrown};
ghost use Rattle.early_verdict.specs.Fitting.{Lists, lists_of, AreEmpty, AreSetsTidy, HasStepped, ConstantFits};
ghost use Rattle.early_verdict.specs.Fitting.{NegationFits, ConjunctionFits, DisjunctionFits, ImplicationFits};
ghost use Rattle.early_verdict.specs.Happening.{Had, Happens, Was};

use crate::atoms::rest;
use crate::entry::Entry;
use crate::sets::Sets;
use frac128::Memory;

/// Adds all times of its bounds to the set of that truth.
fn fill(own: &mut Sets, holds: bool) -> Result<(), Memory>
    requires { AreSetsTidy own.old }
    ensures grown { OnOk result (HasGrown own.old own.new) }
    ensures fits { OnOk result (AreEmpty own.old → ConstantFits holds own.new) }
{
    if holds {
        let all = own.yes.bounds();
        return own.yes.add(all.from, all.to);
    }
    let all = own.no.bounds();
    own.no.add(all.from, all.to)
}

/// A constant: decided at all times from the first entry on.
pub(crate) fn step_constant(own: &mut Sets, holds: bool, entry: &Entry) -> Result<(), Memory>
    requires { AreSetsTidy own.old }
    ensures stepped { OnOk result (HasStepped own.old own.new) }
    ensures fits { OnOk result ((old : Option Trace) (tr : Trace) → Happens entry.now old tr
        → Was old (λ o. ConstantFits holds) own.old → ConstantFits holds own.new) }
{
    rest(own);
    if entry.first {
        return fill(own, holds);
    }
    Ok(())
}

/// A negation is true where its operand is certainly false, and false where that is certainly true.
pub(crate) fn step_negation(own: &mut Sets, p: &Sets) -> Result<(), Memory>
    requires { AreSetsTidy own.old }
    ensures stepped { OnOk result (HasStepped own.old own.new) }
    ensures fits { OnOk result ((old : Option Trace) (tr : Trace) (p' : Lists) → Had old tr p' p.now
        → Was old (λ o. NegationFits p') own.old → NegationFits (lists_of p.now) own.new) }
{
    own.yes.same(&p.no)?;
    own.no.same(&p.yes)?;
    Ok(())
}

/// A conjunction is true where both operands are, and false where one of them is.
pub(crate) fn step_conjunction(own: &mut Sets, p: &Sets, q: &Sets) -> Result<(), Memory>
    requires own { AreSetsTidy own.old }
    requires first { AreSetsTidy p.now }
    requires second { AreSetsTidy q.now }
    ensures stepped { OnOk result (HasStepped own.old own.new) }
    ensures fits { OnOk result ((old : Option Trace) (tr : Trace) (p' q' : Lists) → Had old tr p' p.now → Had old tr q' q.now
        → Was old (λ o. ConjunctionFits p' q') own.old → ConjunctionFits (lists_of p.now) (lists_of q.now) own.new) }
{
    own.yes.both(&p.yes, &q.yes)?;
    own.no.either(&p.no, &q.no)?;
    Ok(())
}

/// A disjunction is true where one operand is, and false where both are.
pub(crate) fn step_disjunction(own: &mut Sets, p: &Sets, q: &Sets) -> Result<(), Memory>
    requires own { AreSetsTidy own.old }
    requires first { AreSetsTidy p.now }
    requires second { AreSetsTidy q.now }
    ensures stepped { OnOk result (HasStepped own.old own.new) }
    ensures fits { OnOk result ((old : Option Trace) (tr : Trace) (p' q' : Lists) → Had old tr p' p.now → Had old tr q' q.now
        → Was old (λ o. DisjunctionFits p' q') own.old → DisjunctionFits (lists_of p.now) (lists_of q.now) own.new) }
{
    own.yes.either(&p.yes, &q.yes)?;
    own.no.both(&p.no, &q.no)?;
    Ok(())
}

/// The second where the first is.
pub(crate) fn step_implication(own: &mut Sets, p: &Sets, q: &Sets) -> Result<(), Memory>
    requires own { AreSetsTidy own.old }
    requires first { AreSetsTidy p.now }
    requires second { AreSetsTidy q.now }
    ensures stepped { OnOk result (HasStepped own.old own.new) }
    ensures fits { OnOk result ((old : Option Trace) (tr : Trace) (p' q' : Lists) → Had old tr p' p.now → Had old tr q' q.now
        → Was old (λ o. ImplicationFits p' q') own.old → ImplicationFits (lists_of p.now) (lists_of q.now) own.new) }
{
    own.yes.either(&p.no, &q.yes)?;
    own.no.both(&p.yes, &q.no)?;
    Ok(())
}
