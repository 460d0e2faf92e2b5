//! What is seen of sets through a window.
ghost use Rattle.std.specs.Prelude.{◌≡◌, ◌⊎◌, ◌↔◌, IfOk, IsTrue};
ghost use Rattle.rational.specs.Places.{AtMost, Before};
ghost use Rattle.time_sets.specs.Turns.{place};
ghost use Rattle.time_sets.specs.Making.{Adds, CanAdd};
ghost use Rattle.time_sets.specs.Parts.{HasRoom, IsInside, IsPast, Meets, over};

use crate::domain::Domain;
use crate::making::{add, earlier, finish, later};
use crate::times::Times;
use crate::turn::Turn;
use crate::window::Window;
use frac128::Memory;
use std::alloc::Global;

/// A stretch of a set, by the borders at which it begins and ends.
#[derive(Clone, Copy)]
pub(crate) struct Stretch<'a> {
    from: &'a Turn,
    to: &'a Turn,
}

/// What a run and a part came to: where the last stretch that was made ends, and whether the run ends before the part.
#[derive(Clone, Copy)]
struct Met {
    end: Option<Turn>,
    run_done: bool,
}

/// The end of the run where it comes first, else that of the part.
#[inline(always)]
fn ending<'a>(run_first: bool, run: &'a Turn, part: &'a Turn) -> &'a Turn
    requires { IsTrue run_first ↔ Before (place run.now) (place part.now) }
    ensures one { (result.now ≡ run.now) ⊎ (result.now ≡ part.now) }
    ensures first { AtMost (place result.now) (place run.now) }
    ensures second { AtMost (place result.now) (place part.now) }
{
    if run_first { run } else { part }
}

/// Adds the times of the run from which a time of the run and of the part lies in the window.
#[inline(always)]
fn meet(
    made: &mut Times,
    on: &Domain,
    w: &Window,
    last: Option<Turn>,
    run: &Stretch,
    part: &Stretch,
) -> Result<Met, Memory>
    requires room { HasRoom w.now }
    requires run { IsInside on.now (over run.now) }
    requires part { IsInside on.now (over part.now) }
    requires made { CanAdd on.now last (IsPast w.now (over run.now) (over part.now)) made.old }
    ensures adds { IfOk result (λ m. Adds on.now last m.end (IsPast w.now (over run.now) (over part.now)) (Meets w.now (over run.now) (over part.now))
        made.old made.new) }
    ensures done { IfOk result (λ m. IsTrue m.run_done ↔ Before (place run.now.to.now) (place part.now.to.now)) }
{
    if !run.from.precedes(part.to) {
        return Ok(Met {
            end: last,
            run_done: false,
        });
    }
    if !part.from.precedes(run.to) {
        return Ok(Met {
            end: last,
            run_done: true,
        });
    }
    let run_done = run.to.precedes(part.to);
    let from = later(run.from, part.from);
    let to = ending(run_done, run.to, part.to);
    let first = w.first(from);
    let until = w.last(on, to);
    let begin = later(run.from, &first);
    let end = earlier(run.to, &until);
    let made_to = add(made, on, last, *begin, *end)?;
    Ok(Met {
        end: made_to,
        run_done,
    })
}

impl Times {
    ghost use Rattle.std.specs.Prelude.{◌↔◌, ◌+◌, ◌≤◌, ◌≡◌, length, IfOk, IsTrue};
    ghost use Rattle.rational.specs.Time.{Rational};
    ghost use Rattle.time_sets.specs.Sets.{has};
    ghost use Rattle.time_sets.specs.Windows.{IsDomain, IsOf, Lies, Reaches, SeesOne, SeesOnly};
    ghost use Rattle.time_sets.specs.Parts.{IsPart, left_from, over};

    /// The stretch of the set in the domain that ends at the turn `next`, or at the end of the domain where there is no such turn.
    #[inline(always)]
    fn stretch<'a>(&'a self, on: &'a Domain, next: usize) -> Stretch<'a>
        requires domain { IsDomain on.now }
        requires own { IsOf on.now self.now }
        requires within { next ≤ length self.now.turns.items }
        ensures { IsPart on.now (over result) (left_from next self.now.turns.items) (left_from (next + 2) self.now.turns.items) }
    {
        Stretch {
            from: self.border(on, next),
            to: self.turn_or_end(on, next),
        }
    }

    /// The times of the domain from which some time of it that is one of the set lies in the window.
    ///
    /// # Errors
    ///
    /// `Memory` where memory is wanting.
    pub fn some(&self, alloc: Global, on: &Domain, w: &Window) -> Result<Times, Memory>
        requires domain { IsDomain on.now }
        requires own { IsOf on.now self.now }
        ensures of { IfOk result (λ r. IsOf on.now r) }
        ensures times { IfOk result (λ r. (t : Rational) → Lies on.now t → (IsTrue (has r t) ↔ SeesOne on.now w.now self.now t)) }
    {
        let mut made = Times::constant(alloc, false);
        if !w.has_room() {
            return Ok(made);
        }
        let mut end = None;
        let mut next = usize::from(!self.starts);
        while next <= self.turns.len() {
            let part = self.stretch(on, next);
            let begin = w.first(part.from);
            let until = w.last(on, part.to);
            end = add(&mut made, on, end, begin, until)?;
            next += 2;
        }
        finish(made, on, end)
    }

    /// The times of the domain from which each time of it that lies in the window is one of the set.
    ///
    /// # Errors
    ///
    /// `Memory` where memory is wanting.
    pub fn only(self, alloc: Global, on: &Domain, w: &Window) -> Result<Times, Memory>
        requires domain { IsDomain on.now }
        requires own { IsOf on.now self }
        ensures of { IfOk result (λ r. IsOf on.now r) }
        ensures times { IfOk result (λ r. (t : Rational) → Lies on.now t → (IsTrue (has r t) ↔ SeesOnly on.now w.now self t)) }
    {
        let not = self.complement();
        let seen = not.some(alloc, on, w)?;
        Ok(seen.complement())
    }

    /// The times of the domain from which some time of it that is one of `q` lies in the window, where each time from the one to the
    /// other is one of the set: until, of a window ahead, and since, of one behind.
    ///
    /// # Errors
    ///
    /// `Memory` where memory is wanting.
    pub fn reach(&self, alloc: Global, q: &Times, on: &Domain, w: &Window) -> Result<Times, Memory>
        requires domain { IsDomain on.now }
        requires own { IsOf on.now self.now }
        requires other { IsOf on.now q.now }
        ensures of { IfOk result (λ r. IsOf on.now r) }
        ensures times { IfOk result (λ r. (t : Rational) → Lies on.now t → (IsTrue (has r t) ↔ Reaches on.now w.now self.now q.now t)) }
    {
        let mut made = Times::constant(alloc, false);
        if !w.has_room() {
            return Ok(made);
        }
        let mut end = None;
        let mut i = usize::from(!self.starts);
        let mut k = usize::from(!q.starts);
        while i <= self.turns.len() && k <= q.turns.len() {
            let run = self.stretch(on, i);
            let part = q.stretch(on, k);
            let met = meet(&mut made, on, w, end, &run, &part)?;
            end = met.end;
            if met.run_done {
                i += 2;
            } else {
                k += 2;
            }
        }
        finish(made, on, end)
    }
}
