//! What one entry makes of a set of each kind.

use crate::grown::Grown;
use crate::held::{add_all_held, add_all_seeing};
use crate::lasting::{add_beginning, add_unseeing, run_to};
use crate::pointwise::{add_all, add_all_common, add_all_past, is_sooner};
use crate::reach::{add_all_reached, add_all_reaching, add_carried, add_reaching_between};
use crate::sure::{add_all_sure, add_seeing_between, add_themselves};
use crate::window::Window;
use frac128::{Cut, Memory};

impl Grown {
    ghost use Rattle.std.specs.Prelude.{◌≡◌, ◌^◌, ◌⊎◌, List, [], OnOk};
    ghost use Rattle.rational.specs.Rational.{IsWithin};
    ghost use Rattle.rational.specs.Time.{Rational};
    ghost use Rattle.frac128.specs.Value.{value};
    ghost use Rattle.rational.specs.Places.{AtMost};
    ghost use Rattle.frac128.specs.Cuts.{place};
    ghost use Rattle.growing_sets.specs.Spans.{AreTidy, IsOn, Lies};
    ghost use Rattle.growing_sets.specs.Steps.{Gains, SeesOne, SeesOnly, Tells};
    ghost use Rattle.growing_sets.specs.Sure.{SeesSure};
    ghost use Rattle.growing_sets.specs.Lasting.{SeesOnlyBy};
    ghost use Rattle.growing_sets.specs.Reaching.{GoesBackBy, GoesOn, GoesTo};
    ghost use Rattle.growing_sets.specs.declared.stretch.Stretch.{Stretch};

    /// The times of either of the two sets, once they gained what is fresh of them. What begins first is added first: so what one of them
    /// has of the times before the other's is not put in between.
    ///
    /// # Errors
    ///
    /// `Memory` where memory is wanting; the set is of no use then.
    pub fn either(&mut self, x: &Grown, y: &Grown) -> Result<(), Memory>
        requires { AreTidy self.old.spans.items }
        ensures tidy { OnOk result (AreTidy self.new.spans.items) }
        ensures bounds { self.new.bounds ≡ self.old.bounds }
        ensures gains { OnOk result (Gains self.old.spans.items self.new.spans.items self.new.fresh.items) }
        ensures tells { OnOk result ((x' y' : List Stretch) → Gains x' x.now.spans.items x.now.fresh.items → Gains y' y.now.spans.items y.now.fresh.items
            → Tells self.old.bounds self.old.spans.items (λ t. IsOn x' t ⊎ IsOn y' t)
            → Tells self.new.bounds self.new.spans.items (λ t. IsOn x.now.spans.items t ⊎ IsOn y.now.spans.items t)) }
    {
        self.fresh.clear();
        if is_sooner(&y.fresh, &x.fresh) {
            add_all(self, &y.fresh)?;
            return add_all(self, &x.fresh);
        }
        add_all(self, &x.fresh)?;
        add_all(self, &y.fresh)
    }

    /// The times of both sets, once they gained what is fresh of them.
    ///
    /// # Errors
    ///
    /// `Memory` where memory is wanting; the set is of no use then.
    pub fn both(&mut self, x: &Grown, y: &Grown) -> Result<(), Memory>
        requires own { AreTidy self.old.spans.items }
        requires first { AreTidy x.now.spans.items }
        requires second { AreTidy y.now.spans.items }
        ensures tidy { OnOk result (AreTidy self.new.spans.items) }
        ensures bounds { self.new.bounds ≡ self.old.bounds }
        ensures gains { OnOk result (Gains self.old.spans.items self.new.spans.items self.new.fresh.items) }
        ensures tells { OnOk result ((x' y' : List Stretch) → Gains x' x.now.spans.items x.now.fresh.items → Gains y' y.now.spans.items y.now.fresh.items
            → Tells self.old.bounds self.old.spans.items (λ t. IsOn x' t × IsOn y' t)
            → Tells self.new.bounds self.new.spans.items (λ t. IsOn x.now.spans.items t × IsOn y.now.spans.items t)) }
    {
        self.fresh.clear();
        add_all_common(self, &x.fresh, &y.spans)?;
        add_all_common(self, &y.fresh, &x.spans)
    }

    /// The times from which some time of the set lies in the window, once it gained what is fresh of it.
    ///
    /// # Errors
    ///
    /// `Memory` where memory is wanting; the set is of no use then.
    pub fn some(&mut self, x: &Grown, w: &Window) -> Result<(), Memory>
        requires { AreTidy self.old.spans.items }
        ensures tidy { OnOk result (AreTidy self.new.spans.items) }
        ensures bounds { self.new.bounds ≡ self.old.bounds }
        ensures gains { OnOk result (Gains self.old.spans.items self.new.spans.items self.new.fresh.items) }
        ensures tells { OnOk result ((x' : List Stretch) → Gains x' x.now.spans.items x.now.fresh.items
            → Tells self.old.bounds self.old.spans.items (SeesOne w.now x') → Tells self.new.bounds self.new.spans.items (SeesOne w.now x.now.spans.items)) }
    {
        self.fresh.clear();
        add_all_seeing(self, &x.fresh, w)
    }

    /// The times from which each time of the window, as far as it lies from the start on, is one of the set, once it gained what is
    /// fresh of it.
    ///
    /// # Errors
    ///
    /// `Memory` where memory is wanting; the set is of no use then.
    pub fn each(&mut self, x: &Grown, start: &Cut, w: &Window) -> Result<(), Memory>
        requires own { AreTidy self.old.spans.items }
        requires input { AreTidy x.now.spans.items }
        ensures tidy { OnOk result (AreTidy self.new.spans.items) }
        ensures bounds { self.new.bounds ≡ self.old.bounds }
        ensures gains { OnOk result (Gains self.old.spans.items self.new.spans.items self.new.fresh.items) }
        ensures tells { OnOk result ((x' : List Stretch) → Gains x' x.now.spans.items x.now.fresh.items
            → Tells self.old.bounds self.old.spans.items (SeesOnly w.now (place start.now) x')
            → Tells self.new.bounds self.new.spans.items (SeesOnly w.now (place start.now) x.now.spans.items)) }
    {
        self.fresh.clear();
        add_all_held(self, &x.fresh, &x.spans, start, w)
    }

    /// The times of the set, once it gained what is fresh of it.
    ///
    /// # Errors
    ///
    /// `Memory` where memory is wanting; the set is of no use then.
    pub fn same(&mut self, x: &Grown) -> Result<(), Memory>
        requires { AreTidy self.old.spans.items }
        ensures tidy { OnOk result (AreTidy self.new.spans.items) }
        ensures bounds { self.new.bounds ≡ self.old.bounds }
        ensures gains { OnOk result (Gains self.old.spans.items self.new.spans.items self.new.fresh.items) }
        ensures tells { OnOk result ((x' : List Stretch) → Gains x' x.now.spans.items x.now.fresh.items
            → Tells self.old.bounds self.old.spans.items (IsOn x') → Tells self.new.bounds self.new.spans.items (IsOn x.now.spans.items)) }
    {
        self.fresh.clear();
        add_all(self, &x.fresh)
    }

    /// The times from which some sure time of the set lies in the window, or they themselves do, once the set gained what is fresh of it
    /// and the times between the two places became sure.
    ///
    /// # Errors
    ///
    /// `Memory` where memory is wanting; the set is of no use then.
    pub fn some_sure(
        &mut self,
        x: &Grown,
        before: &Cut,
        sure: &Cut,
        w: &Window,
    ) -> Result<(), Memory>
        requires own { AreTidy self.old.spans.items }
        requires input { AreTidy x.now.spans.items }
        requires order { AtMost (place before.now) (place sure.now) }
        ensures tidy { OnOk result (AreTidy self.new.spans.items) }
        ensures bounds { self.new.bounds ≡ self.old.bounds }
        ensures gains { OnOk result (Gains self.old.spans.items self.new.spans.items self.new.fresh.items) }
        ensures tells { OnOk result ((x' : List Stretch) → Gains x' x.now.spans.items x.now.fresh.items
            → Tells self.old.bounds self.old.spans.items (SeesSure w.now (place before.now) x')
            → Tells self.new.bounds self.new.spans.items (SeesSure w.now (place sure.now) x.now.spans.items)) }
    {
        self.fresh.clear();
        add_all_sure(self, &x.fresh, before, w)?;
        add_seeing_between(self, &x.spans, before, sure, w)?;
        add_themselves(self, &x.fresh, sure, w)
    }

    /// The times from which each time of the window, as far as it lies from the start on, is one of the set, at the set's first entry.
    ///
    /// # Errors
    ///
    /// `Memory` where memory is wanting; the set is of no use then.
    pub fn each_first(&mut self, x: &Grown, start: &Cut, w: &Window) -> Result<(), Memory>
        requires own { AreTidy self.old.spans.items }
        requires input { AreTidy x.now.spans.items }
        requires none { self.old.spans.items ≡ [] }
        requires near { IsWithin (2 ^ 34) (value start.now.time) }
        ensures tidy { OnOk result (AreTidy self.new.spans.items) }
        ensures bounds { self.new.bounds ≡ self.old.bounds }
        ensures gains { OnOk result (Gains self.old.spans.items self.new.spans.items self.new.fresh.items) }
        ensures tells { OnOk result (Gains [] x.now.spans.items x.now.fresh.items
            → Tells self.new.bounds self.new.spans.items (SeesOnly w.now (place start.now) x.now.spans.items)) }
    {
        self.fresh.clear();
        add_unseeing(self, start, w)?;
        add_all_held(self, &x.fresh, &x.spans, start, w)
    }

    /// The times from which each time of the window, from the start on up to the last, is one of the set, once it gained what is fresh
    /// of it and no row follows.
    ///
    /// # Errors
    ///
    /// `Memory` where memory is wanting; the set is of no use then.
    pub fn each_last(
        &mut self,
        x: &Grown,
        start: &Cut,
        last: &Cut,
        w: &Window,
    ) -> Result<(), Memory>
        requires own { AreTidy self.old.spans.items }
        requires input { AreTidy x.now.spans.items }
        requires near { IsWithin (2 ^ 34) (value last.now.time) }
        ensures tidy { OnOk result (AreTidy self.new.spans.items) }
        ensures bounds { self.new.bounds ≡ self.old.bounds }
        ensures gains { OnOk result (Gains self.old.spans.items self.new.spans.items self.new.fresh.items) }
        ensures tells { OnOk result ((x' : List Stretch) → Gains x' x.now.spans.items x.now.fresh.items
            → Tells self.old.bounds self.old.spans.items (SeesOnly w.now (place start.now) x')
            → Tells self.new.bounds self.new.spans.items (SeesOnlyBy w.now (place start.now) (place last.now) x.now.spans.items)) }
    {
        self.fresh.clear();
        add_all_held(self, &x.fresh, &x.spans, start, w)?;
        add_beginning(self, &run_to(&x.spans, last), start, w)
    }

    /// The times from which the runs go on to a sure time of the set, and those of the set, once both gained what is fresh of them and
    /// the times between the two places became sure.
    ///
    /// # Errors
    ///
    /// `Memory` where memory is wanting; the set is of no use then.
    pub fn reach_sure(
        &mut self,
        runs: &Grown,
        x: &Grown,
        before: &Cut,
        sure: &Cut,
    ) -> Result<(), Memory>
        requires own { AreTidy self.old.spans.items }
        requires runs { AreTidy runs.now.spans.items }
        requires input { AreTidy x.now.spans.items }
        requires order { AtMost (place before.now) (place sure.now) }
        ensures tidy { OnOk result (AreTidy self.new.spans.items) }
        ensures bounds { self.new.bounds ≡ self.old.bounds }
        ensures gains { OnOk result (Gains self.old.spans.items self.new.spans.items self.new.fresh.items) }
        ensures tells { OnOk result ((z' x' : List Stretch) → Gains z' runs.now.spans.items runs.now.fresh.items
            → Gains x' x.now.spans.items x.now.fresh.items
            → ((t : Rational) → IsOn x.now.spans.items t → IsOn runs.now.spans.items t)
            → Tells self.old.bounds self.old.spans.items (GoesOn z' x' (place before.now))
            → Tells self.new.bounds self.new.spans.items (GoesOn runs.now.spans.items x.now.spans.items (place sure.now))) }
    {
        self.fresh.clear();
        add_all_reaching(self, &x.fresh, &runs.spans, &x.spans, sure)?;
        add_all_reaching(self, &runs.fresh, &runs.spans, &x.spans, sure)?;
        add_reaching_between(self, &runs.spans, &x.spans, before, sure)?;
        add_all_past(self, &x.fresh, sure)
    }

    /// The times from which the runs go on to a time of the set, once both gained what is fresh of them.
    ///
    /// # Errors
    ///
    /// `Memory` where memory is wanting; the set is of no use then.
    pub fn reach(&mut self, runs: &Grown, x: &Grown) -> Result<(), Memory>
        requires own { AreTidy self.old.spans.items }
        requires runs { AreTidy runs.now.spans.items }
        requires input { AreTidy x.now.spans.items }
        ensures tidy { OnOk result (AreTidy self.new.spans.items) }
        ensures bounds { self.new.bounds ≡ self.old.bounds }
        ensures gains { OnOk result (Gains self.old.spans.items self.new.spans.items self.new.fresh.items) }
        ensures tells { OnOk result ((z' x' : List Stretch) → Gains z' runs.now.spans.items runs.now.fresh.items
            → Gains x' x.now.spans.items x.now.fresh.items
            → ((t : Rational) → IsOn x.now.spans.items t → IsOn runs.now.spans.items t)
            → ((t : Rational) → IsOn x.now.spans.items t → Lies x.now.bounds t) → Tells self.old.bounds self.old.spans.items (GoesTo z' x')
            → Tells self.new.bounds self.new.spans.items (GoesTo runs.now.spans.items x.now.spans.items)) }
    {
        self.fresh.clear();
        add_all_reaching(self, &x.fresh, &runs.spans, &x.spans, &x.bounds.to)?;
        add_all_reaching(self, &runs.fresh, &runs.spans, &x.spans, &x.bounds.to)
    }

    /// The times back from which the runs go on to a time of the set, or to the bounds, where they are carried on from before these, once
    /// both gained what is fresh of them.
    ///
    /// # Errors
    ///
    /// `Memory` where memory is wanting; the set is of no use then.
    pub fn reach_back(&mut self, runs: &Grown, x: &Grown, carried: bool) -> Result<(), Memory>
        requires own { AreTidy self.old.spans.items }
        requires runs { AreTidy runs.now.spans.items }
        requires input { AreTidy x.now.spans.items }
        ensures tidy { OnOk result (AreTidy self.new.spans.items) }
        ensures bounds { self.new.bounds ≡ self.old.bounds }
        ensures gains { OnOk result (Gains self.old.spans.items self.new.spans.items self.new.fresh.items) }
        ensures tells { OnOk result ((z' x' : List Stretch) → Gains z' runs.now.spans.items runs.now.fresh.items
            → Gains x' x.now.spans.items x.now.fresh.items
            → ((t : Rational) → IsOn x.now.spans.items t → IsOn runs.now.spans.items t)
            → Tells self.old.bounds self.old.spans.items (GoesBackBy carried (place self.old.bounds.from) z' x')
            → Tells self.new.bounds self.new.spans.items (GoesBackBy carried (place self.new.bounds.from) runs.now.spans.items x.now.spans.items)) }
    {
        self.fresh.clear();
        add_all_reached(self, &x.fresh, &runs.spans, &x.spans)?;
        add_all_reached(self, &runs.fresh, &runs.spans, &x.spans)?;
        add_carried(self, &runs.spans, carried)
    }
}
