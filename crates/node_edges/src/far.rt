//! The older parts of an edge that holds many: blocks of them, in one pool of lists for all edges.
//!
//! The pool has for each edge a list of the blocks that its reader has read whole, and a list of those that wait, of the first of which
//! some may be read; and before these a list of the blocks that nobody needs. So a part that is read, or gone, moves nothing, and a
//! block that is read whole, or gone, goes from list to list and takes no memory.

ghost use Rattle.std.specs.Prelude.{◌≡◌, ◌+◌, ◌<◌, ◌≤◌, ◌^◌, ◌∷◌, [], ℕ, false, length, slice_get, ◌↔◌, IsTrue, IfSome, IfOk, OnErr, OnOk, Some};
ghost use Rattle.std.specs.Option.{option_copied};
ghost use Rattle.std.specs.VecDeque.{deque_capacity};
ghost use Rattle.rational.specs.Rational.{◌≤ʳ◌, ◌<ʳ◌};
ghost use Rattle.frac128.specs.Value.{value};
ghost use Rattle.node_edges.specs.Held.{held_of, with_read, without, IsDroppedBy};
ghost use Rattle.node_edges.specs.Queues.{far_at, first_blocks, list_of, seen_list, track_at, waiting_list};
ghost use Rattle.node_edges.specs.Queues.{HasGone, HasKept, HasMoved, HasSoMany, IsFarAt, IsQueue, IsTrack};

use crate::part::Part;
use crate::queue::Queue;
use frac128::{Frac, Memory};
use seg_pool::Pool;
use std::alloc::Global;
use std::collections::VecDeque;

/// An edge that has so many parts at hand gives them away as a block, where there is no room for more.
const BLOCK: usize = 512;

/// How many parts of one edge may lie in blocks: no memory has room for so many.
const MOST: usize = 4_611_686_018_427_387_904;

/// The list of the blocks that nobody needs.
const IDLE: u32 = 0;

/// What an edge knows of its blocks.
#[derive(Drop)]
pub(crate) struct Far {
    /// How many parts of the first block are gone.
    gone: usize,
    /// How many parts of the first block that waits were read.
    begun: usize,
    /// How many parts were read and are not gone.
    seen: usize,
    /// How many parts wait to be read.
    waits: usize,
}

/// An edge: its newest parts, and what it knows of those before them.
#[derive(Drop)]
pub(crate) struct Track<T> {
    pub(crate) near: Queue<T>,
    pub(crate) far: Far,
}

/// The list of the blocks of an edge that were read whole.
fn seen_of(edge: u32) -> u32
    requires { edge < 2147483647 }
    ensures { result ≡ seen_list edge }
{
    2 * edge + 1
}

/// The list of the blocks of an edge that wait.
fn waiting_of(edge: u32) -> u32
    requires { edge < 2147483647 }
    ensures { result ≡ waiting_list edge }
{
    2 * edge + 2
}

impl Far {
    /// No block.
    pub(crate) fn none() -> Far
        ensures { result ≡ record { gone = 0; begun = 0; seen = 0; waits = 0 } }
    {
        Far {
            gone: 0,
            begun: 0,
            seen: 0,
            waits: 0,
        }
    }

    /// Whether parts wait to be read.
    #[inline(always)]
    pub(crate) fn waits(&self) -> bool
        ensures { IsTrue result ↔ (0 < self.now.waits) }
    {
        self.waits > 0
    }

    /// Whether a part lies in a block.
    #[inline(always)]
    pub(crate) fn is_some(&self) -> bool
        ensures { IsTrue result ↔ (0 < self.now.seen + self.now.waits) }
    {
        self.seen > 0 || self.waits > 0
    }

    /// How many parts lie in blocks.
    #[inline(always)]
    pub(crate) fn len(&self) -> usize
        requires { self.now.seen + self.now.waits < 2 ^ 64 }
        ensures { result ≡ self.now.seen + self.now.waits }
    {
        self.seen + self.waits
    }
}

/// The first part in blocks that was not read, where it stands.
#[inline(never)]
pub(crate) fn next_far<'a, T: Part>(
    pool: &'a Pool<VecDeque<T>>,
    edge: u32,
    far: &Far,
) -> Option<&'a T>
    requires { IsFarAt pool.now.all edge far.now }
    ensures { option_copied result ≡ slice_get (far_at pool.now.all edge far.now).fresh 0 }
{
    let Some(block) = pool.front(waiting_of(edge)) else {
        return None;
    };
    block.get(far.begun)
}

/// Reads the first part in blocks that was not read.
#[inline(never)]
pub(crate) fn pass_far<T: Part>(pool: &mut Pool<VecDeque<T>>, edge: u32, far: &mut Far)
    requires far { IsFarAt pool.old.all edge far.old }
    requires some { 0 < far.old.waits }
    ensures read { (v : T) → slice_get (far_at pool.old.all edge far.old).fresh 0 ≡ Some v
        → far_at pool.new.all edge far.new ≡ with_read (far_at pool.old.all edge far.old) v }
    ensures far { IsFarAt pool.new.all edge far.new }
    ensures moved { HasMoved edge pool.old.all pool.new.all }
    ensures fewer { far.new.waits + 1 ≡ far.old.waits }
{
    let list = waiting_of(edge);
    let begun = far.begun + 1;
    far.seen += 1;
    far.waits -= 1;
    if !is_whole(pool, list, begun) {
        far.begun = begun;
        return;
    }
    far.begun = 0;
    pool.pass(list, seen_of(edge));
}

/// The first block.
fn first_block<T: Part>(pool: &Pool<VecDeque<T>>, edge: u32) -> Option<&VecDeque<T>>
    requires within { waiting_list edge < length pool.now.all }
    requires few { edge < 2147483647 }
    ensures { option_copied result ≡ slice_get (first_blocks (list_of pool.now.all (seen_list edge)) (list_of pool.now.all (waiting_list edge))) 0 }
{
    match pool.front(seen_of(edge)) {
        Some(block) => Some(block),
        None => pool.front(waiting_of(edge)),
    }
}

/// Whether the first block of a list has so many parts.
fn is_whole<T: Part>(pool: &Pool<VecDeque<T>>, list: u32, count: usize) -> bool
    requires list { list < length pool.now.all }
    requires some { 0 < length (list_of pool.now.all list) }
    ensures { IsTrue result ↔ IfSome (slice_get (list_of pool.now.all list) 0) (λ b. length b.items ≡ count) }
{
    match pool.front(list) {
        Some(block) => block.len() == count,
        None => false,
    }
}

/// The first parts of the first block, which was read whole, are gone.
fn skip_seen<T: Part>(pool: &mut Pool<VecDeque<T>>, edge: u32, far: &mut Far, count: usize)
    requires far { IsFarAt pool.old.all edge far.old }
    requires some { 0 < length (list_of pool.old.all (seen_list edge)) }
    requires fits { HasSoMany (far.old.gone + count) (list_of pool.old.all (seen_list edge)) }
    ensures gone { far_at pool.new.all edge far.new ≡ without count (far_at pool.old.all edge far.old) }
    ensures far { IsFarAt pool.new.all edge far.new }
    ensures moved { HasMoved edge pool.old.all pool.new.all }
    ensures fewer { far.new.waits ≤ far.old.waits }
    ensures count { far.new.seen + far.new.waits + count ≡ far.old.seen + far.old.waits }
{
    let list = seen_of(edge);
    far.gone += count;
    far.seen -= count;
    if !is_whole(pool, list, far.gone) {
        return;
    }
    far.gone = 0;
    pool.pass(list, IDLE);
}

/// The first parts of the first block, which waits, are gone.
fn skip_waiting<T: Part>(pool: &mut Pool<VecDeque<T>>, edge: u32, far: &mut Far, count: usize)
    requires far { IsFarAt pool.old.all edge far.old }
    requires none { list_of pool.old.all (seen_list edge) ≡ [] }
    requires some { 0 < length (list_of pool.old.all (waiting_list edge)) }
    requires fits { HasSoMany (far.old.gone + count) (list_of pool.old.all (waiting_list edge)) }
    ensures gone { far_at pool.new.all edge far.new ≡ without count (far_at pool.old.all edge far.old) }
    ensures far { IsFarAt pool.new.all edge far.new }
    ensures moved { HasMoved edge pool.old.all pool.new.all }
    ensures fewer { far.new.waits ≤ far.old.waits }
    ensures count { far.new.seen + far.new.waits + count ≡ far.old.seen + far.old.waits }
{
    let list = waiting_of(edge);
    far.gone += count;
    if far.gone <= far.begun {
        far.seen -= count;
        return;
    }
    far.waits -= far.gone - far.begun;
    far.seen = 0;
    far.begun = far.gone;
    if !is_whole(pool, list, far.gone) {
        return;
    }
    far.gone = 0;
    far.begun = 0;
    pool.pass(list, IDLE);
}

/// The first parts in blocks are gone, so many, all of them in the first block.
fn skip<T: Part>(pool: &mut Pool<VecDeque<T>>, edge: u32, far: &mut Far, count: usize)
    requires far { IsFarAt pool.old.all edge far.old }
    requires some { 0 < far.old.seen + far.old.waits }
    requires fits { HasSoMany (far.old.gone + count) (first_blocks (list_of pool.old.all (seen_list edge)) (list_of pool.old.all (waiting_list edge))) }
    ensures gone { far_at pool.new.all edge far.new ≡ without count (far_at pool.old.all edge far.old) }
    ensures far { IsFarAt pool.new.all edge far.new }
    ensures moved { HasMoved edge pool.old.all pool.new.all }
    ensures fewer { far.new.waits ≤ far.old.waits }
    ensures count { far.new.seen + far.new.waits + count ≡ far.old.seen + far.old.waits }
{
    if pool.len(seen_of(edge)) > 0 {
        skip_seen(pool, edge, far, count);
        return;
    }
    skip_waiting(pool, edge, far, count);
}

/// The first part in blocks, where it stands.
#[inline(never)]
pub(crate) fn first_far<'a, T: Part>(
    pool: &'a Pool<VecDeque<T>>,
    edge: u32,
    far: &Far,
) -> Option<&'a T>
    requires { IsFarAt pool.now.all edge far.now }
    ensures { option_copied result ≡ slice_get (held_of (far_at pool.now.all edge far.now)) 0 }
{
    let Some(block) = first_block(pool, edge) else {
        return None;
    };
    block.get(far.gone)
}

/// The first part in blocks is gone.
#[inline(never)]
pub(crate) fn skip_one<T: Part>(pool: &mut Pool<VecDeque<T>>, edge: u32, far: &mut Far)
    requires far { IsFarAt pool.old.all edge far.old }
    requires some { 0 < far.old.seen + far.old.waits }
    ensures taken { far_at pool.new.all edge far.new ≡ without 1 (far_at pool.old.all edge far.old) }
    ensures far { IsFarAt pool.new.all edge far.new }
    ensures moved { HasMoved edge pool.old.all pool.new.all }
    ensures fewer { far.new.waits ≤ far.old.waits }
{
    skip(pool, edge, far, 1);
}

/// How many parts of a block are gone, once from one of them on those are gone that end by a time.
fn gone_by<T: Part>(block: &VecDeque<T>, from: usize, end: &Frac) -> usize
    requires { from ≤ length block.now.items }
    ensures from { from ≤ result }
    ensures within { result ≤ length block.now.items }
    ensures ended { (k : ℕ) → from ≤ k → k < result → IfSome (slice_get block.now.items k) (λ v. T.Part.end v ≤ʳ value end.now) }
    ensures rest { IfSome (slice_get block.now.items result) (λ v. value end.now <ʳ T.Part.end v) }
{
    let mut gone = from;
    while gone < block.len() && block[gone].ends_by(end) {
        gone += 1;
    }
    gone
}

/// Drops from the first block what ends by a time. False where some of it is left.
fn drop_block<T: Part>(pool: &mut Pool<VecDeque<T>>, edge: u32, far: &mut Far, end: &Frac) -> bool
    requires far { IsFarAt pool.old.all edge far.old }
    requires some { 0 < far.old.seen + far.old.waits }
    ensures gone { HasGone T.Part (value end.now) (far_at pool.old.all edge far.old) (far_at pool.new.all edge far.new) }
    ensures rest { result ≡ false → (0 < length (held_of (far_at pool.new.all edge far.new)))
        × IfSome (slice_get (held_of (far_at pool.new.all edge far.new)) 0) (λ v. value end.now <ʳ T.Part.end v) }
    ensures less { IsTrue result → far.new.seen + far.new.waits < far.old.seen + far.old.waits }
    ensures far { IsFarAt pool.new.all edge far.new }
    ensures moved { HasMoved edge pool.old.all pool.new.all }
    ensures fewer { far.new.waits ≤ far.old.waits }
{
    let Some(block) = first_block(pool, edge) else {
        unreachable!()
    };
    let gone = gone_by(block, far.gone, end);
    let whole = gone == block.len();
    let count = gone - far.gone;
    skip(pool, edge, far, count);
    whole
}

/// Drops from the front of an edge, which has blocks, what ends by the time `limit`.
#[inline(never)]
pub(crate) fn drop_far<T: Part>(
    pool: &mut Pool<VecDeque<T>>,
    edge: u32,
    track: &mut Track<T>,
    limit: i64,
)
    requires { IsTrack pool.old.all edge track.old }
    ensures dropped { IsDroppedBy T.Part limit (track_at pool.old.all edge track.old) (track_at pool.new.all edge track.new) }
    ensures track { IsTrack pool.new.all edge track.new }
    ensures room { (spare : ℕ) → IsQueue spare track.old.near → IsQueue spare track.new.near }
    ensures moved { HasMoved edge pool.old.all pool.new.all }
{
    let end = Frac::of(limit);
    while track.far.is_some() {
        if !drop_block(pool, edge, &mut track.far, &end) {
            return;
        }
    }
    track.near.drop_by(limit);
}

/// An empty ring with room for a block.
fn new_ring<T: Part>(alloc: Global, pool: &mut Pool<VecDeque<T>>) -> Result<VecDeque<T>, Memory>
    requires { 0 < length pool.old.all }
    ensures ring { IfOk result (λ ring. ring.items ≡ []) }
    ensures room { IfOk result (λ ring. 0 < deque_capacity ring) }
    ensures kept { HasKept pool.old.all pool.new.all }
    ensures spare { pool.old.spare ≤ pool.new.spare }
{
    let mut ring = match pool.pop_front(IDLE) {
        Some(ring) => ring,
        None => VecDeque::new(alloc),
    };
    ring.clear();
    match ring.reserve(BLOCK) {
        Ok(()) => Ok(ring),
        Err(_) => Err(Memory),
    }
}

/// All that is at hand becomes a block, and an empty ring takes its place.
fn hand_over<T: Part>(
    alloc: Global,
    pool: &mut Pool<VecDeque<T>>,
    edge: u32,
    track: &mut Track<T>,
) -> Result<(), Memory>
    requires track { IsTrack pool.old.all edge track.old }
    requires some { 0 < length track.old.near.items.items }
    ensures same { OnOk result (track_at pool.new.all edge track.new ≡ track_at pool.old.all edge track.old) }
    ensures far { OnOk result (IsFarAt pool.new.all edge track.new.far) }
    ensures room { OnOk result (IsQueue 1 track.new.near) }
    ensures read { OnOk result (track.new.near.read ≡ 0) }
    ensures moved { HasMoved edge pool.old.all pool.new.all }
    ensures still { OnErr result (track.new ≡ track.old) }
    ensures kept { OnErr result (HasKept pool.old.all pool.new.all) }
{
    let count = track.near.len();
    if track.far.len() + count > MOST {
        return Err(Memory);
    }
    pool.reserve(1)?;
    let ring = new_ring(alloc, pool)?;
    let read = track.near.read();
    let block = track.near.exchange(ring);
    track.far.seen += read;
    if read == count {
        let _ = pool.push_back(seen_of(edge), block);
        return Ok(());
    }
    track.far.begun += read;
    track.far.waits += count - read;
    let _ = pool.push_back(waiting_of(edge), block);
    Ok(())
}

/// Makes room at hand for a part more, where there is none.
///
/// # Errors
///
/// `Memory` where there is no memory, and then nothing changes.
#[inline(never)]
pub(crate) fn make_way<T: Part>(
    alloc: Global,
    pool: &mut Pool<VecDeque<T>>,
    edge: u32,
    track: &mut Track<T>,
) -> Result<(), Memory>
    requires track { IsTrack pool.old.all edge track.old }
    requires full { length track.old.near.items.items ≡ deque_capacity track.old.near.items }
    ensures same { track_at pool.new.all edge track.new ≡ track_at pool.old.all edge track.old }
    ensures far { OnOk result (IsFarAt pool.new.all edge track.new.far) }
    ensures near { OnOk result (IsQueue 1 track.new.near) }
    ensures read { OnOk result (0 < track.new.far.waits → track.new.near.read ≡ 0) }
    ensures moved { HasMoved edge pool.old.all pool.new.all }
    ensures track { OnErr result (IsTrack pool.new.all edge track.new) }
    ensures room { OnErr result ((spare : ℕ) → IsQueue spare track.old.near → IsQueue spare track.new.near) }
{
    if track.near.len() < BLOCK {
        return track.near.reserve(1);
    }
    hand_over(alloc, pool, edge, track)
}
