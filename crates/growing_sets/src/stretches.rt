//! Lists of stretches that take one in near where they took one in before.
//!
//! A set is fed behind all its stretches, where the rows come, and in the middle, where windows bring what its inputs gained: in no more
//! places than there are ways from an atom up to it, and each of these only goes on. So a list stands in a few blocks, and a seam between
//! two of them waits near each such place: what comes near a seam, or near an end, slides at most `NEAR` others. What comes far from both
//! seams about it draws both by the same way, until one of them is there.
//!
//! What it costs are the stretches that pass over seams. By this rule, the double cover of servers on a line, they are at most as many
//! times those of the best course that the seams could take as there are seams. With a seam for each place the best course is to go along
//! with the places, so that each stretch passes over each seam once. So up to `BLOCKS` places, the end with them, a list costs what it has
//! of stretches, times a constant, and a search for each; where there are more, what lies between two of them may pass again at each row.

ghost use Rattle.std.specs.Prelude.{◌≡◌, ◌≤◌, ◌<◌, ◌^◌, ◌+◌, ◌++◌, ◌∷◌, [], length, take, drop, insert, remove, slice_get, slice_set};
ghost use Rattle.std.specs.Prelude.{IfSome, IfNone, MatchOption, OnOk, Some};
ghost use Rattle.frac128.specs.Cuts.{place};
ghost use Rattle.growing_sets.specs.Spans.{AreTidy, EndBefore, NoneEndsBefore};
ghost use Rattle.growing_sets.specs.Ending.{IsLast};
ghost use Rattle.growing_sets.specs.Listed.{IsSpot, joined};

use crate::order::precedes;
use crate::stretch::Stretch;
use frac128::{Cut, Memory};
use std::alloc::Global;
use std::collections::VecDeque;
use std::marker::Model;

/// How many stretches may slide, as one is put in or taken out, before a seam is brought there.
const NEAR: usize = 32;

/// The most blocks that a list stands in.
const BLOCKS: usize = 16;

/// The most stretches that a list takes.
const MOST: usize = 4_611_686_018_427_387_904;

/// One block of a list.
#[derive(Drop)]
pub(crate) struct Block {
    pub(crate) ring: VecDeque<Stretch>,
}

/// Where a stretch stands: in which block, and how far behind its first.
#[derive(Clone, Copy)]
pub(crate) struct Spot {
    pub(crate) block: usize,
    pub(crate) index: usize,
}

/// A place from the first on and before the second, to be looked at after so many tries: the last, since most of what is looked for lies at
/// the end or before the last one, and then one in the middle.
#[inline(always)]
fn between(low: usize, high: usize, tries: usize) -> usize
    requires { low < high }
    ensures above { low ≤ result }
    ensures below { result < high }
{
    if tries < 2 {
        return high - 1;
    }
    low + (high - low) / 2
}

impl Block {
    /// How many stretches it has.
    #[inline(always)]
    fn len(&self) -> usize
        ensures { result ≡ length self.now.ring.items }
    {
        self.ring.len()
    }

    /// The place of its first stretch that does not end before the cut.
    fn reaching(&self, cut: &Cut) -> usize
        requires { AreTidy self.now.ring.items }
        ensures within { result ≤ length self.now.ring.items }
        ensures front { EndBefore (place cut.now) (take result self.now.ring.items) }
        ensures rest { NoneEndsBefore (place cut.now) (drop result self.now.ring.items) }
    {
        let mut low = 0;
        let mut high = self.ring.len();
        let mut tries = 0;
        while low < high {
            let middle = between(low, high, tries);
            tries = tries.saturating_add(1);
            if precedes(&self.ring[middle].to, cut) {
                low = middle + 1;
            } else {
                high = middle;
            }
        }
        low
    }

    /// The stretch at a place of the block.
    #[inline(always)]
    fn get(&self, at: usize) -> Option<Stretch>
        ensures { result ≡ slice_get self.now.ring.items at }
    {
        match self.ring.get(at) {
            Some(one) => Some(*one),
            None => None,
        }
    }

    /// Puts a stretch in the place of one.
    #[inline(always)]
    fn set(&mut self, at: usize, stretch: Stretch)
        requires { at < length self.old.ring.items }
        ensures { self.new.ring.items ≡ slice_set self.old.ring.items at stretch }
    {
        self.ring[at] = stretch;
    }

    /// Puts a stretch in at a place of the block; those from there on slide up.
    fn insert(&mut self, at: usize, stretch: Stretch) -> Result<(), Memory>
        requires { at ≤ length self.old.ring.items }
        ensures { OnOk result (self.new.ring.items ≡ insert self.old.ring.items at stretch) }
    {
        match self.ring.insert(at, stretch) {
            Ok(()) => Ok(()),
            Err(_) => Err(Memory),
        }
    }

    /// Takes the stretch at a place out of the block; those behind it slide down.
    fn remove(&mut self, at: usize)
        requires { at < length self.old.ring.items }
        ensures { self.new.ring.items ≡ remove self.old.ring.items at }
    {
        let _ = self.ring.remove(at);
    }

    /// Takes its first one out, if there is one.
    fn drop_first(&mut self)
        ensures { self.new.ring.items ≡ drop 1 self.old.ring.items }
    {
        let _ = self.ring.pop_front();
    }

    /// Leaves its first one alone.
    fn keep_one(&mut self)
        ensures { self.new.ring.items ≡ take 1 self.old.ring.items }
    {
        self.ring.truncate(1);
    }

    /// Takes the block's last stretch; none where it is empty.
    fn take_last(&mut self) -> Option<Stretch>
        ensures { MatchOption result (self.new.ring.items ≡ self.old.ring.items) (λ s. self.old.ring.items ≡ self.new.ring.items ++ s ∷ []) }
    {
        match self.ring.pop_back() {
            Some(one) => Some(one),
            None => None,
        }
    }

    /// Takes the block's first stretch; none where it is empty.
    fn take_first(&mut self) -> Option<Stretch>
        ensures { MatchOption result (self.new.ring.items ≡ self.old.ring.items) (λ s. self.old.ring.items ≡ s ∷ self.new.ring.items) }
    {
        match self.ring.pop_front() {
            Some(one) => Some(one),
            None => None,
        }
    }

    /// Puts a stretch before all of the block.
    fn put_first(&mut self, stretch: Stretch) -> Result<(), Memory>
        ensures { OnOk result (self.new.ring.items ≡ stretch ∷ self.old.ring.items) }
    {
        match self.ring.push_front(stretch) {
            Ok(()) => Ok(()),
            Err(_) => Err(Memory),
        }
    }

    /// Puts a stretch behind all of the block.
    #[inline(always)]
    fn put_last(&mut self, stretch: Stretch) -> Result<(), Memory>
        ensures { OnOk result (self.new.ring.items ≡ self.old.ring.items ++ stretch ∷ []) }
    {
        match self.ring.push_back(stretch) {
            Ok(()) => Ok(()),
            Err(_) => Err(Memory),
        }
    }
}

/// Where the stretch at the place stands.
#[inline(always)]
fn spot_of(blocks: &Vec<Block>, at: usize) -> Spot
    requires { at < length (joined blocks.now.items) }
    ensures block { result.block < length blocks.now.items }
    ensures spot { IsSpot blocks.now.items at result }
{
    let mut block = 0;
    let mut index = at;
    while block < blocks.len() {
        let len = blocks[block].len();
        if index < len {
            return Spot { block, index };
        }
        index -= len;
        block += 1;
    }
    unreachable!()
}

/// The place of the first stretch that does not end before the cut.
fn reaching_in(blocks: &Vec<Block>, cut: &Cut) -> usize
    requires tidy { AreTidy (joined blocks.now.items) }
    requires few { length (joined blocks.now.items) ≤ 2 ^ 62 }
    ensures within { result ≤ length (joined blocks.now.items) }
    ensures front { EndBefore (place cut.now) (take result (joined blocks.now.items)) }
    ensures rest { NoneEndsBefore (place cut.now) (drop result (joined blocks.now.items)) }
{
    let mut seen = 0;
    let mut block = 0;
    while block < blocks.len() {
        let one = &blocks[block];
        let here = one.reaching(cut);
        if here < one.len() {
            return seen + here;
        }
        seen += here;
        block += 1;
    }
    seen
}

/// One block more, which has none.
fn add_block(blocks: &mut Vec<Block>) -> Result<(), Memory>
    ensures same { OnOk result (joined blocks.new.items ≡ joined blocks.old.items) }
    ensures more { OnOk result (length blocks.new.items ≡ length blocks.old.items + 1) }
{
    let ring = VecDeque::new(*blocks.allocator());
    let Ok(()) = blocks.push(Block { ring }) else {
        return Err(Memory);
    };
    Ok(())
}

/// One block more, where there are few.
fn add_seam(blocks: &mut Vec<Block>) -> Result<(), Memory>
    ensures same { OnOk result (joined blocks.new.items ≡ joined blocks.old.items) }
    ensures more { OnOk result (length blocks.old.items ≤ length blocks.new.items) }
{
    if BLOCKS <= blocks.len() {
        return Ok(());
    }
    add_block(blocks)
}

/// Sends so many stretches of the block, its last ones, on to the next block, if there is one.
fn send_on(blocks: &mut Vec<Block>, block: usize, by: usize) -> Result<(), Memory>
    requires { block < length blocks.old.items }
    ensures same { OnOk result (joined blocks.new.items ≡ joined blocks.old.items) }
    ensures count { OnOk result (length blocks.new.items ≡ length blocks.old.items) }
{
    let next = block + 1;
    if next == blocks.len() {
        return Ok(());
    }
    for _ in 0..by {
        let Some(one) = blocks[block].take_last() else {
            return Ok(());
        };
        blocks[next].put_first(one)?;
    }
    Ok(())
}

/// Sends so many stretches of the block, its first ones, back to the one before it, if there is one.
fn send_back(blocks: &mut Vec<Block>, block: usize, by: usize) -> Result<(), Memory>
    requires { block < length blocks.old.items }
    ensures { OnOk result (joined blocks.new.items ≡ joined blocks.old.items) }
{
    if block == 0 {
        return Ok(());
    }
    let previous = block - 1;
    for _ in 0..by {
        let Some(one) = blocks[block].take_first() else {
            return Ok(());
        };
        blocks[previous].put_last(one)?;
    }
    Ok(())
}

/// How far the seams about a block go towards a stretch in it that stands so far ahead of the block's end; it is one of so many blocks.
fn way(here: &Spot, blocks: usize, ahead: usize) -> usize
    requires { here.now.block < blocks }
{
    if here.block == 0 {
        return ahead;
    }
    if here.block + 1 == blocks {
        return here.index;
    }
    here.index.min(ahead)
}

/// Brings a seam to the place, where it lies far from both seams about it.
fn bring(blocks: &mut Vec<Block>, at: usize) -> Result<(), Memory>
    requires { at < length (joined blocks.old.items) }
    ensures { OnOk result (joined blocks.new.items ≡ joined blocks.old.items) }
{
    let here = spot_of(blocks, at);
    let ahead = blocks[here.block].len().saturating_sub(here.index);
    if here.index.min(ahead) <= NEAR {
        return Ok(());
    }
    add_seam(blocks)?;
    let by = way(&here, blocks.len(), ahead);
    send_on(blocks, here.block, by)?;
    send_back(blocks, here.block, by)
}

/// Puts a stretch in before the one at the place.
fn put_before(blocks: &mut Vec<Block>, at: usize, stretch: Stretch) -> Result<(), Memory>
    requires { at < length (joined blocks.old.items) }
    ensures { OnOk result (joined blocks.new.items ≡ insert (joined blocks.old.items) at stretch) }
{
    bring(blocks, at)?;
    let here = spot_of(blocks, at);
    blocks[here.block].insert(here.index, stretch)
}

/// Takes the stretch out at the place.
fn take_out(blocks: &mut Vec<Block>, at: usize)
    requires { at < length (joined blocks.old.items) }
    ensures { joined blocks.new.items ≡ remove (joined blocks.old.items) at }
{
    let here = spot_of(blocks, at);
    blocks[here.block].remove(here.index);
}

/// Takes the first stretch out.
fn take_front(blocks: &mut Vec<Block>)
    requires { 0 < length (joined blocks.old.items) }
    ensures { joined blocks.new.items ≡ remove (joined blocks.old.items) 0 }
{
    let here = spot_of(blocks, 0);
    blocks[here.block].drop_first();
}

/// Puts a stretch in the place of the one at the place.
#[inline(always)]
fn put_over(blocks: &mut Vec<Block>, at: usize, stretch: Stretch)
    requires { at < length (joined blocks.old.items) }
    ensures { joined blocks.new.items ≡ slice_set (joined blocks.old.items) at stretch }
{
    let here = spot_of(blocks, at);
    blocks[here.block].set(here.index, stretch);
}

/// Puts a stretch behind all, into the last block.
#[inline(always)]
fn put_into_last(blocks: &mut Vec<Block>, stretch: Stretch) -> Result<(), Memory>
    requires { 0 < length blocks.old.items }
    ensures { OnOk result (joined blocks.new.items ≡ joined blocks.old.items ++ stretch ∷ []) }
{
    let last = blocks.len() - 1;
    blocks[last].put_last(stretch)
}

/// Puts a stretch behind all.
#[inline(always)]
fn put_behind(blocks: &mut Vec<Block>, stretch: Stretch) -> Result<(), Memory>
    ensures { OnOk result (joined blocks.new.items ≡ joined blocks.old.items ++ stretch ∷ []) }
{
    if blocks.len() == 0 {
        add_block(blocks)?;
        return put_into_last(blocks, stretch);
    }
    put_into_last(blocks, stretch)
}

/// Leaves the first stretch alone.
fn keep_one(blocks: &mut Vec<Block>)
    requires { 0 < length (joined blocks.old.items) }
    ensures { joined blocks.new.items ≡ take 1 (joined blocks.old.items) }
{
    let here = spot_of(blocks, 0);
    blocks.truncate(here.block + 1);
    blocks[here.block].keep_one();
}

/// A list of stretches, in blocks, and how many they are. Contracts see the stretches in their order.
#[derive(Drop)]
pub struct Stretches {
    blocks: Vec<Block>,
    count: usize,
}

impl Model for Stretches {
    ghost use Rattle.growing_sets.specs.Listed.{Listed};

    ghost Value = { Listed };

    ghost use Rattle.growing_sets.specs.Listed.{joined, IsCounted};

    ghost view = { λ s. record { items = joined s.blocks.items } };

    ghost invariant = { λ s. IsCounted s.count s.blocks.items };
}

impl Stretches {
    /// None yet; it takes no memory.
    pub(crate) fn new(alloc: Global) -> Stretches
        ensures { result.items ≡ [] }
    {
        Stretches {
            blocks: Vec::new(alloc),
            count: 0,
        }
    }

    /// How many stretches are in the list.
    #[inline(always)]
    pub fn len(&self) -> usize
        ensures len { result ≡ length self.now.items }
        ensures few { result ≤ 2 ^ 62 }
    {
        self.count
    }

    /// The stretch at a place of the list.
    #[inline(always)]
    pub(crate) fn get(&self, at: usize) -> Option<Stretch>
        ensures one { result ≡ slice_get self.now.items at }
        ensures few { IfSome result (λ s. at < 2 ^ 62) }
    {
        if self.count <= at {
            return None;
        }
        let here = spot_of(&self.blocks, at);
        match self.blocks[here.block].get(here.index) {
            Some(one) => Some(one),
            None => None,
        }
    }

    /// The last stretch of the list.
    #[inline(always)]
    pub(crate) fn last(&self) -> Option<Stretch>
        ensures some { IfSome result (λ s. IsLast s self.now.items) }
        ensures none { IfNone result (self.now.items ≡ []) }
    {
        if self.count == 0 {
            return None;
        }
        match self.get(self.count - 1) {
            Some(one) => Some(one),
            None => None,
        }
    }

    /// The place of the first one that does not end before the cut.
    pub(crate) fn reaching(&self, cut: &Cut) -> usize
        requires { AreTidy self.now.items }
        ensures within { result ≤ length self.now.items }
        ensures front { EndBefore (place cut.now) (take result self.now.items) }
        ensures rest { NoneEndsBefore (place cut.now) (drop result self.now.items) }
    {
        reaching_in(&self.blocks, cut)
    }

    /// Puts a stretch in the place of the one there.
    #[inline(always)]
    pub(crate) fn set(&mut self, at: usize, stretch: Stretch)
        requires { at < length self.old.items }
        ensures { self.new.items ≡ slice_set self.old.items at stretch }
    {
        put_over(&mut self.blocks, at, stretch);
    }

    /// Puts a stretch behind all.
    ///
    /// # Errors
    ///
    /// `Memory` where memory is wanting; none may be left then.
    #[inline(always)]
    pub(crate) fn push_back(&mut self, stretch: Stretch) -> Result<(), Memory>
        ensures { OnOk result (self.new.items ≡ self.old.items ++ stretch ∷ []) }
    {
        if self.count == MOST {
            return Err(Memory);
        }
        let Ok(()) = put_behind(&mut self.blocks, stretch) else {
            self.blocks.clear();
            self.count = 0;
            return Err(Memory);
        };
        self.count += 1;
        Ok(())
    }

    /// Puts a stretch in at the place.
    ///
    /// # Errors
    ///
    /// `Memory` where memory is wanting; none may be left then.
    pub(crate) fn insert(&mut self, at: usize, stretch: Stretch) -> Result<(), Memory>
        requires { at ≤ length self.old.items }
        ensures { OnOk result (self.new.items ≡ insert self.old.items at stretch) }
    {
        if at == self.count {
            return self.push_back(stretch);
        }
        if self.count == MOST {
            return Err(Memory);
        }
        let Ok(()) = put_before(&mut self.blocks, at, stretch) else {
            self.blocks.clear();
            self.count = 0;
            return Err(Memory);
        };
        self.count += 1;
        Ok(())
    }

    /// Takes the one at the place out.
    ///
    /// # Errors
    ///
    /// `Memory` where memory is wanting; none may be left then.
    pub(crate) fn remove(&mut self, at: usize) -> Result<(), Memory>
        requires { at < length self.old.items }
        ensures { OnOk result (self.new.items ≡ remove self.old.items at) }
    {
        let Ok(()) = bring(&mut self.blocks, at) else {
            self.blocks.clear();
            self.count = 0;
            return Err(Memory);
        };
        take_out(&mut self.blocks, at);
        self.count -= 1;
        Ok(())
    }

    /// Takes the first one out, if there is one.
    pub(crate) fn pop_front(&mut self)
        ensures { self.new.items ≡ drop 1 self.old.items }
    {
        if self.count == 0 {
            return;
        }
        take_front(&mut self.blocks);
        self.count -= 1;
    }

    /// Leaves the first one alone, if there is one.
    pub fn keep_first(&mut self)
        ensures { self.new.items ≡ take 1 self.old.items }
    {
        if self.count == 0 {
            return;
        }
        keep_one(&mut self.blocks);
        self.count = 1;
    }

    /// Takes all stretches out of the list.
    pub fn clear(&mut self)
        ensures { self.new.items ≡ [] }
    {
        self.blocks.clear();
        self.count = 0;
    }
}
