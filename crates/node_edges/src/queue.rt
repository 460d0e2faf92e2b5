//! What an edge has at hand: its newest parts lie in one ring, in order, and a count says how many of them its reader has read. So to
//! read a part moves nothing. A queue that joins lengthens its last part, as long as that was not read, by one that goes on from it.

ghost use Rattle.std.specs.Prelude.{◌≡◌, ◌+◌, ◌-◌, ◌<◌, ◌≤◌, ◌^◌, ◌∷◌, [], ℕ, true, false, length, slice_get, ◌↔◌, IsOk, IsTrue, OnOk};
ghost use Rattle.std.specs.Option.{option_copied};
ghost use Rattle.std.specs.VecDeque.{deque_capacity};
ghost use Rattle.rational.specs.Rational.{◌≤ʳ◌};
ghost use Rattle.frac128.specs.Value.{value};
ghost use Rattle.node_edges.specs.Held.{held_of, joining, no_edge, with_more, with_number, with_read, without, HasMore, IsDroppedBy};
ghost use Rattle.node_edges.specs.Lengthening.{CanLengthen};

use crate::part::Part;
use frac128::{Frac, Memory};
use std::alloc::Global;
use std::collections::VecDeque;

/// The parts of an edge, how many of them were read, the number noted last, and whether neighbours are joined.
#[derive(Drop)]
pub(crate) struct Queue<T> {
    items: VecDeque<T>,
    read: usize,
    number: Option<i64>,
    joins: bool,
}

impl<T: Part> Queue<T> {
    ghost use Rattle.node_edges.specs.Queues.{edge_of, IsQueue};

    /// A queue that holds nothing. It takes no memory.
    pub(crate) fn new(alloc: Global) -> Queue<T>
        ensures edge { edge_of result ≡ no_edge }
        ensures room { IsQueue 0 result }
    {
        Queue {
            items: VecDeque::new(alloc),
            read: 0,
            number: None,
            joins: false,
        }
    }

    /// From then on it joins.
    pub(crate) fn join(&mut self)
        ensures joining { edge_of self.new ≡ joining (edge_of self.old) }
        ensures items { self.new.items ≡ self.old.items }
        ensures read { self.new.read ≡ self.old.read }
        ensures kept { (spare : ℕ) → IsQueue spare self.old → IsQueue spare self.new }
    {
        self.joins = true;
    }

    /// Whether it has no room for one more.
    #[inline(always)]
    pub(crate) fn is_full(&self) -> bool
        ensures full { IsTrue result → length self.now.items.items ≡ deque_capacity self.now.items }
        ensures room { IsQueue 0 self.now → result ≡ false → IsQueue 1 self.now }
    {
        self.items.len() == self.items.capacity()
    }

    /// Puts a part at the back, where there is room for it.
    #[inline(always)]
    pub(crate) fn push(&mut self, piece: T)
        requires { IsQueue 1 self.old }
        ensures put { edge_of self.new ≡ with_more (edge_of self.old) (piece ∷ []) }
        ensures less { (spare : ℕ) → IsQueue spare self.old → IsQueue (spare - 1) self.new }
        ensures some { 0 < length self.new.items.items }
        ensures read { self.new.read ≡ self.old.read }
    {
        self.items.push_back_reserved(piece);
    }

    /// Lengthens the last part, where neighbours are joined and that one was not read, by one that goes on from it. False where it does
    /// not, and then nothing changes.
    #[inline(always)]
    pub(crate) fn lengthen(&mut self, piece: &T) -> bool
        requires { IsQueue 0 self.old }
        ensures more { IsTrue result → HasMore T.Part (edge_of self.old) (edge_of self.new) (piece.now ∷ []) }
        ensures no_longer { IsTrue result → length (edge_of self.new).fresh ≡ length (edge_of self.old).fresh }
        ensures cannot { result ≡ false → ¬ CanLengthen T.Part (edge_of self.old) piece.now }
        ensures same { result ≡ false → self.new ≡ self.old }
        ensures count { length self.new.items.items ≡ length self.old.items.items }
        ensures read { self.new.read ≡ self.old.read }
        ensures kept { (spare : ℕ) → IsQueue spare self.old → IsQueue spare self.new }
    {
        if !self.joins {
            return false;
        }
        let count = self.items.len();
        if self.read == count || !self.items[count - 1].goes_on(piece) {
            return false;
        }
        self.items[count - 1].lengthen(piece);
        true
    }

    /// Takes out the first part. None where it holds none.
    #[inline(always)]
    pub(crate) fn take(&mut self) -> Option<T>
        requires { IsQueue 0 self.old }
        ensures first { result ≡ slice_get (held_of (edge_of self.old)) 0 }
        ensures taken { edge_of self.new ≡ without 1 (edge_of self.old) }
        ensures kept { (spare : ℕ) → IsQueue spare self.old → IsQueue spare self.new }
    {
        let first = self.items.pop_front();
        self.read = self.read.saturating_sub(1);
        first
    }

    /// Drops from the front what ends by the time `limit`.
    #[inline(always)]
    pub(crate) fn drop_by(&mut self, limit: i64)
        requires { IsQueue 0 self.old }
        ensures dropped { IsDroppedBy T.Part limit (edge_of self.old) (edge_of self.new) }
        ensures kept { (spare : ℕ) → IsQueue spare self.old → IsQueue spare self.new }
    {
        let end = Frac::of(limit);
        while let Some(v) = self.first() {
            if !v.ends_by(&end) {
                return;
            }
            let _ = self.take();
        }
    }

    /// Makes room for `n` parts.
    ///
    /// # Errors
    ///
    /// `Memory` where there is no memory.
    #[inline(never)]
    pub(crate) fn reserve(&mut self, n: usize) -> Result<(), Memory>
        requires { IsQueue 0 self.old }
        ensures same { edge_of self.new ≡ edge_of self.old }
        ensures items { self.new.items.items ≡ self.old.items.items }
        ensures read { self.new.read ≡ self.old.read }
        ensures kept { (spare : ℕ) → IsQueue spare self.old → IsQueue spare self.new }
        ensures room { OnOk result (IsQueue n self.new) }
        ensures had_room { IsQueue n self.old → IsOk result }
    {
        match self.items.reserve(n) {
            Ok(()) => Ok(()),
            Err(_) => Err(Memory),
        }
    }

    /// The first part that was not read.
    #[inline(always)]
    pub(crate) fn next(&self) -> Option<T>
        ensures { result ≡ slice_get (edge_of self.now).fresh 0 }
    {
        match self.items.get(self.read) {
            Some(v) => Some(*v),
            None => None,
        }
    }

    /// Reads the first part that was not read, and gives it.
    #[inline(always)]
    pub(crate) fn pass(&mut self) -> T
        requires read { IsQueue 0 self.old }
        requires some { 0 < length (edge_of self.old).fresh }
        ensures first { slice_get (edge_of self.old).fresh 0 ≡ Some result }
        ensures read { edge_of self.new ≡ with_read (edge_of self.old) result }
        ensures kept { (spare : ℕ) → IsQueue spare self.old → IsQueue spare self.new }
    {
        let v = self.items[self.read];
        self.read += 1;
        v
    }

    /// The first part that was not read, where it stands.
    #[inline(always)]
    pub(crate) fn unread(&self) -> Option<&T>
        ensures { option_copied result ≡ slice_get (edge_of self.now).fresh 0 }
    {
        self.items.get(self.read)
    }

    /// The first part, where it stands.
    #[inline(always)]
    pub(crate) fn ahead(&self) -> Option<&T>
        ensures { option_copied result ≡ slice_get (held_of (edge_of self.now)) 0 }
    {
        self.items.front()
    }

    /// The first part.
    #[inline(always)]
    fn first(&self) -> Option<T>
        ensures { result ≡ slice_get (held_of (edge_of self.now)) 0 }
    {
        match self.items.front() {
            Some(v) => Some(*v),
            None => None,
        }
    }

    /// How many of its parts were read.
    pub(crate) fn read(&self) -> usize
        ensures { result ≡ self.now.read }
    {
        self.read
    }

    /// Takes another ring, which is empty, in the place of its own, and gives that out.
    pub(crate) fn exchange(&mut self, ring: VecDeque<T>) -> VecDeque<T>
        requires { ring.items ≡ [] }
        ensures ring { result ≡ self.old.items }
        ensures items { self.new.items ≡ ring }
        ensures read { self.new.read ≡ 0 }
        ensures number { self.new.number ≡ self.old.number }
        ensures joins { self.new.joins ≡ self.old.joins }
    {
        self.read = 0;
        std::mem::replace(&mut self.items, ring)
    }

    /// How many parts it holds.
    #[inline(always)]
    pub(crate) fn len(&self) -> usize
        ensures count { result ≡ length (held_of (edge_of self.now)) }
        ensures items { result ≡ length self.now.items.items }
        ensures small { result < 2 ^ 63 }
    {
        self.items.len()
    }

    /// Whether neighbours are joined.
    #[inline(always)]
    pub(crate) fn joins(&self) -> bool
        ensures { result ≡ (edge_of self.now).joins }
    {
        self.joins
    }

    /// Notes a number.
    #[inline(always)]
    pub(crate) fn reach(&mut self, number: i64)
        ensures noted { edge_of self.new ≡ with_number (edge_of self.old) number }
        ensures items { self.new.items ≡ self.old.items }
        ensures read { self.new.read ≡ self.old.read }
        ensures kept { (spare : ℕ) → IsQueue spare self.old → IsQueue spare self.new }
    {
        self.number = Some(number);
    }

    /// The number noted last.
    #[inline(always)]
    pub(crate) fn number(&self) -> Option<i64>
        ensures { result ≡ (edge_of self.now).number }
    {
        self.number
    }
}
