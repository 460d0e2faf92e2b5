//! A queue of places whose items fall.
ghost use Rattle.std.specs.Prelude.{◌≡◌, ◌+◌, ◌-◌, ◌*◌, ◌<◌, ◌≤◌, ◌↔◌, ◌∷◌, ◌++◌, [], drop, length, IfOk, IsNone, IfSome, OnErr, OnOk};
ghost use Rattle.window_extrema.specs.Range.{IsGreatestOf, IsPaid};

use crate::queue::{drop_earlier, drop_smaller, let_go};
use frac128::{Memory, Steps};
use std::alloc::Global;
use std::cmp::Ordering;
use std::collections::VecDeque;
use std::marker::Model;
use std::sync::ledger::Ledger;
use value_laws::{Counted, Shape};

/// Constants in a row, of which the greatest of a range is asked for again and again, where the ends of the range don't fall. Others may
/// come behind them, and the first of them go.
///
/// All questions together take at most two comparisons an item.
#[derive(Drop)]
pub struct RangeMax<P: Shape> {
    items: VecDeque<Counted<P>>,
    /// Of each place that may come to be a greatest one, how many it passes over since the one before it.
    queue: VecDeque<usize>,
    low: usize,
    high: usize,
}

impl<P: Shape> Model for RangeMax<P> {
    ghost use Rattle.std.specs.Prelude.{◌+◌, ◌-◌, ◌*◌, ◌≤◌, length};
    ghost use Rattle.std.specs.VecDeque.{deque_len, deque_capacity};
    ghost use Rattle.window_extrema.specs.Range.{Range};
    ghost use Rattle.window_extrema.specs.Stairs.{AreStairs};

    ghost Value = { Range P };

    ghost view = { λ r. record {
      items = r.items.items;
      low = r.low;
      high = r.high;
      spent = 2 * r.high - length r.queue.items;
    } };

    ghost invariant = { λ r.
        (length r.queue.items + r.low ≤ r.high)
        × (r.high ≤ length r.items.items)
        × (length r.queue.items + length r.items.items ≤ deque_capacity r.queue + r.high)
        × AreStairs P.function r.items.items r.low r.high r.queue.items };
}

impl<P: Shape> RangeMax<P> {
    /// The items, with no range asked for yet. It reserves what `ask` needs.
    ///
    /// # Errors
    ///
    /// `Memory` where memory is wanting.
    pub fn new(alloc: Global, items: Vec<Counted<P>>) -> Result<RangeMax<P>, Memory>
        ensures items { IfOk result (λ r. r.items ≡ items.items) }
        ensures low { IfOk result (λ r. r.low ≡ 0) }
        ensures high { IfOk result (λ r. r.high ≡ 0) }
        ensures spent { IfOk result (λ r. r.spent ≡ 0) }
    {
        let queue = VecDeque::with_capacity(alloc, items.len())?;
        Ok(RangeMax {
            items: VecDeque::from_vec(items),
            queue,
            low: 0,
            high: 0,
        })
    }

    /// No items yet. It takes no memory.
    pub fn empty(alloc: Global) -> RangeMax<P>
        ensures items { result.items ≡ [] }
        ensures low { result.low ≡ 0 }
        ensures high { result.high ≡ 0 }
        ensures spent { result.spent ≡ 0 }
    {
        RangeMax {
            items: VecDeque::new(alloc),
            queue: VecDeque::new(alloc),
            low: 0,
            high: 0,
        }
    }

    /// One more item comes, behind the others. The range stays as it is.
    ///
    /// # Errors
    ///
    /// `Memory` where memory is wanting, and then nothing changes.
    pub fn push(&mut self, item: Counted<P>) -> Result<(), Memory>
        ensures items { OnOk result (self.new.items ≡ self.old.items ++ item ∷ []) }
        ensures memory { OnErr result (self.new.items ≡ self.old.items) }
        ensures low { self.new.low ≡ self.old.low }
        ensures high { self.new.high ≡ self.old.high }
        ensures spent { self.new.spent ≡ self.old.spent }
    {
        self.queue.reserve(self.items.len() - self.high + 1)?;
        let Ok(()) = self.items.push_back(item) else {
            return Err(Memory);
        };
        Ok(())
    }

    /// The place of a greatest item from place `lo` up to, but not including, place `hi`; None exactly where there is no place.
    ///
    /// It takes no memory. The counter rises by a step for each comparison, and by no more than `spent` does.
    pub fn ask<L: Ledger>(&mut self, lo: usize, hi: usize, steps: &mut Steps<L>) -> Option<usize>
        requires low { self.old.low ≤ lo }
        requires high { self.old.high ≤ hi }
        requires order { lo ≤ hi }
        requires within { hi ≤ length self.old.items }
        ensures none { IsNone result ↔ (lo ≡ hi) }
        ensures place { IfSome result (λ i. IsGreatestOf P.function self.old.items lo hi i) }
        ensures items { self.new.items ≡ self.old.items }
        ensures low { self.new.low ≡ lo }
        ensures high { self.new.high ≡ hi }
        ensures cost { IsPaid self.old.spent self.new.spent steps.old steps.new }
        ensures bound { self.new.spent ≤ 2 * length self.new.items }
    {
        while self.high < hi {
            self.take_next(steps);
        }
        self.begin_at(lo);
        self.greatest()
    }

    /// The place of a greatest item of the range that was asked for last; None exactly where there is no place in it. It compares nothing.
    pub fn greatest(&self) -> Option<usize>
        ensures none { IsNone result ↔ (self.now.low ≡ self.now.high) }
        ensures place { IfSome result (λ i. IsGreatestOf P.function self.now.items self.now.low self.now.high i) }
    {
        match self.queue.front() {
            Some(passed) => Some(self.low + passed),
            None => None,
        }
    }

    /// The items before a place go, and the places of the others count from there. The range has reached that place; of what is accounted for
    /// at most two comparisons are dropped for each item that goes.
    pub fn leave_before(&mut self, place: usize)
        requires reached { place ≤ self.old.high }
        ensures items { self.new.items ≡ drop place self.old.items }
        ensures low { self.new.low ≡ self.old.low - place }
        ensures high { self.new.high + place ≡ self.old.high }
        ensures spent { self.old.spent ≤ self.new.spent + 2 * place }
        ensures bound { self.new.spent ≤ 2 * length self.new.items }
    {
        if self.low < place {
            self.begin_at(place);
        }
        let_go(&mut self.items, place);
        self.low -= place;
        self.high -= place;
    }

    /// Lets the range end one place later.
    fn take_next<L: Ledger>(&mut self, steps: &mut Steps<L>)
        requires more { self.old.high < length self.old.items }
        ensures items { self.new.items ≡ self.old.items }
        ensures low { self.new.low ≡ self.old.low }
        ensures high { self.new.high ≡ self.old.high + 1 }
        ensures cost { IsPaid self.old.spent self.new.spent steps.old steps.new }
    {
        let passed = drop_smaller(&self.items, &mut self.queue, self.high, steps);
        self.queue.push_back_reserved(passed);
        self.high += 1;
    }

    /// Lets the range begin at `lo`.
    fn begin_at(&mut self, lo: usize)
        requires low { self.old.low ≤ lo }
        requires order { lo ≤ self.old.high }
        ensures items { self.new.items ≡ self.old.items }
        ensures low { self.new.low ≡ lo }
        ensures high { self.new.high ≡ self.old.high }
        ensures spent { self.old.spent ≤ self.new.spent }
        ensures bound { self.new.spent ≤ 2 * length self.new.items }
    {
        drop_earlier(&mut self.queue, lo - self.low);
        self.low = lo;
    }
}
