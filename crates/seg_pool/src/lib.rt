//! Many first-in first-out lists whose items lie in one slab, so that all queues of a network share one piece of memory.
//!
//! Each item has the key of the item behind it, and each list the keys of its first and its last item. A push, a pop
//! and a look at the front take constant time. Only `new_list`, `reserve` and a push with no spare room take memory.
#![tactic(auto)]

ghost use Rattle.std.specs.Prelude.{◌≡◌, ◌≢◌, ◌+◌, ◌-◌, ◌<◌, ◌≤◌, ◌^◌, [], ◌∷◌, ◌++◌, length, drop, slice_get, OnOk, OnErr, IfErr, IfOk, IsOk, OnSome, IfNone};
ghost use Rattle.std.specs.Option.{option_copied};
ghost use Rattle.slab.specs.Slab.{ContainsKey};
ghost use Rattle.seg_pool.specs.Chain.{extended, pointing};
ghost use Rattle.seg_pool.specs.Lists.{list_at, live, with_list, with_passed};

mod walk;

use frac128::Memory;
use slab::Slab;
use std::alloc::Global;
use std::marker::Model;
pub use walk::Walk;

/// First-in first-out lists by number, and how many more items they can take together with no allocation.
///
/// Contracts see it as `Lists`: a list of plain lists, and the spare room.
#[derive(Drop)]
pub struct Pool<T> {
    cells: Slab<Cell<T>>,
    lists: Vec<Ends>,
    spare: usize,
}

/// An item of a list, and the key of the item behind it. At the last item of a list `next` says nothing.
#[derive(Drop)]
struct Cell<T> {
    item: T,
    next: usize,
}

/// The keys of a list's first and last item, and how many items there are. In an empty list the keys say nothing.
#[derive(Clone, Copy)]
struct Ends {
    first: usize,
    last: usize,
    len: usize,
}

impl<T> Model for Pool<T> {
    ghost use Rattle.seg_pool.specs.Lists.{Lists};

    ghost Value = { Lists T };

    ghost use Rattle.seg_pool.specs.Chain.{IsSound, lists_of};

    ghost view = { λ p. record { all = lists_of p.cells p.lists.items; spare = p.spare } };

    ghost invariant = { λ p. IsSound p.cells p.lists.items p.spare };
}

/// Links the item under `key` behind a list's last item, and gives the list's new ends.
fn extend<T>(cells: &mut Slab<Cell<T>>, ends: Ends, key: usize) -> Ends
    requires last { 0 < ends.len → ContainsKey cells.old ends.last }
    requires fits { ends.len + 1 < 2 ^ 64 }
    ensures ends { result ≡ extended ends key }
    ensures cells { cells.new ≡ pointing cells.old ends.len ends.last key }
{
    if ends.len == 0 {
        return Ends {
            first: key,
            last: key,
            len: 1,
        };
    }
    cells[ends.last].next = key;
    Ends {
        first: ends.first,
        last: key,
        len: ends.len + 1,
    }
}

impl<T> Pool<T> {
    /// No list yet. It takes no memory.
    pub fn new(alloc: Global) -> Pool<T>
        ensures { result ≡ record { all = []; spare = 0 } }
    {
        Pool {
            cells: Slab::new(alloc),
            lists: Vec::new(alloc),
            spare: 0,
        }
    }

    /// A new empty list, behind the others, and its number.
    ///
    /// # Errors
    ///
    /// `Memory` where there is no memory, and then nothing changes.
    pub fn new_list(&mut self) -> Result<u32, Memory>
        requires { length self.old.all < 2 ^ 32 - 1 }
        ensures number { IfOk result (λ n. n ≡ length self.old.all) }
        ensures more { OnOk result (self.new ≡ record self.old { all = self.old.all ++ [] ∷ [] }) }
        ensures memory { OnErr result (self.new ≡ self.old) }
    {
        let number = self.lists.len() as u32;
        let empty = Ends {
            first: 0,
            last: 0,
            len: 0,
        };
        if self.lists.push(empty).is_err() {
            return Err(Memory);
        }
        Ok(number)
    }

    /// How many lists there are.
    pub fn lists(&self) -> u32
        ensures { result ≡ length self.now.all }
    {
        self.lists.len() as u32
    }

    /// How many items fit with no allocation, in all lists together.
    pub fn spare(&self) -> usize
        ensures { result ≡ self.now.spare }
    {
        self.spare
    }

    /// Makes room for `n` items in all lists together.
    ///
    /// # Errors
    ///
    /// `Memory` where there is no memory, and then nothing changes.
    pub fn reserve(&mut self, n: usize) -> Result<(), Memory>
        ensures room { OnOk result (n ≤ self.new.spare) }
        ensures kept { OnOk result (self.old.spare ≤ self.new.spare) }
        ensures lists { self.new.all ≡ self.old.all }
        ensures had_room { n ≤ self.old.spare → IsOk result }
        ensures memory { OnErr result (self.new ≡ self.old) }
    {
        if self.cells.reserve(n).is_err() {
            return Err(Memory);
        }
        self.spare = self.cells.capacity() - self.cells.len();
        Ok(())
    }

    /// Puts an item behind the last one of a list.
    ///
    /// # Errors
    ///
    /// The item itself, where there is no memory, and then nothing changes. With spare room for one item it never comes.
    #[inline(always)]
    pub fn push_back(&mut self, list: u32, item: T) -> Result<(), T>
        requires { list < length self.old.all }
        ensures pushed { OnOk result (self.new.all ≡ with_list self.old list (list_at self.old list ++ item ∷ [])) }
        ensures falls_by_one { OnOk result (self.old.spare ≤ self.new.spare + 1) }
        ensures had_room { 0 < self.old.spare → IsOk result }
        ensures returned { IfErr result (λ back. back ≡ item) }
        ensures memory { OnErr result (self.new ≡ self.old) }
    {
        let key = match self.cells.insert(Cell { item, next: 0 }) {
            Ok(key) => key,
            Err(failed) => {
                let Cell { item, next: _ } = failed.value;
                return Err(item);
            }
        };
        self.spare = self.cells.capacity() - self.cells.len();
        let ends = self.lists[list as usize];
        self.lists[list as usize] = extend(&mut self.cells, ends, key);
        Ok(())
    }

    /// Takes the first item of a list, which makes room for one more. None where the list is empty.
    #[inline(always)]
    pub fn pop_front(&mut self, list: u32) -> Option<T>
        requires { list < length self.old.all }
        ensures first { result ≡ slice_get (list_at self.old list) 0 }
        ensures popped { self.new.all ≡ with_list self.old list (drop 1 (list_at self.old list)) }
        ensures rises { OnSome result (self.new.spare ≡ self.old.spare + 1) }
        ensures empty { IfNone result (self.new ≡ self.old) }
    {
        let ends = self.lists[list as usize];
        if ends.len == 0 {
            return None;
        }
        let Cell { item, next } = self.cells.remove(ends.first);
        self.lists[list as usize] = Ends {
            first: next,
            last: ends.last,
            len: ends.len - 1,
        };
        // for the proof alone: all room can be counted, so one more can
        let _all = self.cells.capacity();
        self.spare += 1;
        Some(item)
    }

    /// Moves the first item of a list behind the last one of another list, where it keeps its place in memory. Nothing
    /// changes where there is none.
    #[inline(always)]
    pub fn pass(&mut self, from: u32, to: u32)
        requires lists { (from < length self.old.all) × (to < length self.old.all) }
        requires apart { to ≢ from }
        ensures passed { self.new.all ≡ with_passed self.old from to }
        ensures spare { self.new.spare ≡ self.old.spare }
    {
        let source = self.lists[from as usize];
        if source.len == 0 {
            return;
        }
        // for the proof alone: all items can be counted, so those of the longer list can
        let _all = self.cells.len();
        self.lists[from as usize] = Ends {
            first: self.cells[source.first].next,
            last: source.last,
            len: source.len - 1,
        };
        let target = self.lists[to as usize];
        self.lists[to as usize] = extend(&mut self.cells, target, source.first);
    }

    /// The first item of a list, which stays there. None where the list is empty.
    pub fn front(&self, list: u32) -> Option<&T>
        requires { list < length self.now.all }
        ensures { option_copied result ≡ slice_get (list_at self.now list) 0 }
    {
        let ends = self.lists[list as usize];
        if ends.len == 0 {
            return None;
        }
        Some(&self.cells[ends.first].item)
    }

    /// How many items a list has.
    pub fn len(&self, list: u32) -> usize
        requires { list < length self.now.all }
        ensures { result ≡ length (list_at self.now list) }
    {
        self.lists[list as usize].len
    }

    /// How many items all lists have together.
    pub fn live(&self) -> usize
        ensures { result ≡ live self.now }
    {
        self.cells.len()
    }

    /// The items of a list, from the front to the back.
    pub fn walk(&self, list: u32) -> Walk<'_, T>
        requires { list < length self.now.all }
        ensures { result ≡ list_at self.now list }
    {
        let ends = self.lists[list as usize];
        Walk {
            cells: &self.cells,
            next: ends.first,
            left: ends.len,
        }
    }
}
