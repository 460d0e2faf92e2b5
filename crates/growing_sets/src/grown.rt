//! Sets of times that only grow, as stretches that rise and do not touch, with what they gained of late.
use crate::ending::{End, end_for, lengthen, put_last};
use crate::stretch::Stretch;
use crate::stretches::Stretches;
use crate::touching::{holding, put_in};
use frac128::{Cut, Memory};
use std::alloc::Global;

/// A set of times within bounds that only grows, and the stretches that it gained since they were last cleared.
#[derive(Drop)]
pub struct Grown {
    pub bounds: Stretch,
    pub spans: Stretches,
    pub fresh: Vec<Stretch>,
}

impl Grown {
    ghost use Rattle.std.specs.Prelude.{◌≡◌, ◌↔◌, [], IsTrue, OnOk};
    ghost use Rattle.rational.specs.Rational.{whole};
    ghost use Rattle.rational.specs.Places.{After, Upto};
    ghost use Rattle.frac128.specs.Cuts.{place};
    ghost use Rattle.growing_sets.specs.Spans.{AreTidy, IsOn};
    ghost use Rattle.growing_sets.specs.Growing.{Adds};

    /// No times yet; it takes no memory.
    pub fn new(alloc: Global, bounds: Stretch) -> Grown
        ensures bounds { result.bounds ≡ bounds }
        ensures spans { result.spans.items ≡ [] }
        ensures fresh { result.fresh.items ≡ [] }
    {
        Grown {
            bounds,
            spans: Stretches::new(alloc),
            fresh: Vec::new(alloc),
        }
    }

    /// The times within which the set lies.
    pub fn bounds(&self) -> Stretch
        ensures { result ≡ self.now.bounds }
    {
        self.bounds
    }

    /// Whether the tick is one of the set's times.
    pub fn has(&self, tick: i64) -> bool
        requires { AreTidy self.now.spans.items }
        ensures { IsTrue result ↔ IsOn self.now.spans.items (whole tick) }
    {
        match holding(&self.spans, &Cut::before_whole(tick)) {
            Some(_) => true,
            None => false,
        }
    }

    /// Forgets what was gained; the set stays.
    pub fn rest(&mut self)
        ensures bounds { self.new.bounds ≡ self.old.bounds }
        ensures spans { self.new.spans.items ≡ self.old.spans.items }
        ensures fresh { self.new.fresh.items ≡ [] }
    {
        self.fresh.clear();
    }

    /// Adds the times between the two places, as far as they lie in the bounds, and notes those that are new.
    ///
    /// # Errors
    ///
    /// `Memory` where memory is wanting; the set is of no use then.
    pub fn add(&mut self, from: Cut, to: Cut) -> Result<(), Memory>
        requires { AreTidy self.old.spans.items }
        ensures bounds { self.new.bounds ≡ self.old.bounds }
        ensures ok { OnOk result (Adds self.old self.new (λ t. After (place from) t × Upto (place to) t)) }
    {
        let Some(part) = Stretch::make(from, to, &self.bounds) else {
            return Ok(());
        };
        match end_for(&self.spans, &part.from) {
            End::Behind => put_last(&mut self.spans, &part, &mut self.fresh),
            End::In(last) => lengthen(&mut self.spans, &last, &part, &mut self.fresh),
            End::Anywhere => put_in(&mut self.spans, &part, &mut self.fresh),
        }
    }
}
