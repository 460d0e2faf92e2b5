//! Sets of times, and what is made of them at each time by itself.
use crate::merge::merged;
use crate::turn::Turn;
use frac128::Memory;
use std::alloc::Global;

/// A set of times: whether the times before its first turn are in it, and the places at which that changes.
#[derive(Drop)]
pub struct Times {
    pub(crate) starts: bool,
    pub(crate) turns: Vec<Turn>,
}

impl Times {
    ghost use Rattle.std.specs.Prelude.{◌≡◌, ◌&&◌, ◌||◌, [], not, IfOk};
    ghost use Rattle.rational.specs.Time.{Rational};
    ghost use Rattle.time_sets.specs.Sets.{Rise, has};
    ghost use Rattle.time_sets.specs.Windows.{IsOf};
    ghost use Rattle.time_sets.specs.declared.domain.Domain.{Domain};

    /// The set that has all times, or none: it never turns.
    pub fn constant(alloc: Global, holds: bool) -> Times
        ensures times { (t : Rational) → has result t ≡ holds }
        ensures starts { result.starts ≡ holds }
        ensures turns { result.turns.items ≡ [] }
        ensures of { (on : Domain) → IsOf on result }
    {
        Times {
            starts: holds,
            turns: Vec::new(alloc),
        }
    }

    /// The times that are not in the set.
    pub fn complement(self) -> Times
        requires { Rise self.turns.items }
        ensures times { (t : Rational) → has result t ≡ not (has self t) }
        ensures rise { Rise result.turns.items }
        ensures of { (on : Domain) → IsOf on self → IsOf on result }
    {
        let Times { starts, turns } = self;
        Times {
            starts: !starts,
            turns,
        }
    }

    /// The times that are in both sets.
    ///
    /// # Errors
    ///
    /// `Memory` where memory is wanting.
    pub fn both(alloc: Global, p: &Times, q: &Times) -> Result<Times, Memory>
        requires first { Rise p.now.turns.items }
        requires second { Rise q.now.turns.items }
        ensures times { IfOk result (λ r. (t : Rational) → has r t ≡ (has p.now t && has q.now t)) }
        ensures rise { IfOk result (λ r. Rise r.turns.items) }
        ensures of { IfOk result (λ r. (on : Domain) → IsOf on p.now → IsOf on q.now → IsOf on r) }
    {
        merged(alloc, true, p, q)
    }

    /// The times that are in one of the sets, or in both.
    ///
    /// # Errors
    ///
    /// `Memory` where memory is wanting.
    pub fn either(alloc: Global, p: &Times, q: &Times) -> Result<Times, Memory>
        requires first { Rise p.now.turns.items }
        requires second { Rise q.now.turns.items }
        ensures times { IfOk result (λ r. (t : Rational) → has r t ≡ (has p.now t || has q.now t)) }
        ensures rise { IfOk result (λ r. Rise r.turns.items) }
        ensures of { IfOk result (λ r. (on : Domain) → IsOf on p.now → IsOf on q.now → IsOf on r) }
    {
        merged(alloc, false, p, q)
    }
}
