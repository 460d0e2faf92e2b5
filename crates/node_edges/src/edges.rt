//! The edges of a network.
//!
//! An edge is what its reader has read and may still need, and behind it what it has not read. So an operator goes on in the middle of its
//! input's edge with no walk, and to read a part takes no memory. The newest parts of an edge are at hand in a ring; where it holds
//! more than that has room for, the older ones lie in blocks of one pool, which all edges share. An edge may join neighbours of which one goes on
//! from the other: what was not read then stands in stretches.

ghost use Rattle.std.specs.Prelude.{◌≡◌, ◌+◌, ◌<◌, ◌≤◌, [], ◌∷◌, length, replicate, slice_get};
ghost use Rattle.std.specs.Prelude.{IfOk, IsOk, OnOk, OnErr, None, Some, ℕ, List};
ghost use Rattle.node_edges.specs.Queues.{edges_from, AreTracks, Block};
ghost use Rattle.node_edges.specs.Held.{edge_at, fresh_at, held_at, joining, no_edge, number_at, with_edge, with_more, with_number};
ghost use Rattle.node_edges.specs.Held.{with_read, without, HasMore, IsDroppedBy};
ghost use Rattle.node_edges.specs.Lengthening.{CanLengthen};
ghost use Rattle.std.specs.Option.{option_copied};

use crate::far::{Far, Track, drop_far, first_far, make_way, next_far, pass_far, skip_one};
use crate::part::Part;
use crate::queue::Queue;
use frac128::Memory;
use seg_pool::Pool;
use std::alloc::Global;
use std::collections::VecDeque;
use std::marker::Model;

/// How much room is made at once for each edge, where there is too little.
const ROOM: usize = 64;

/// How many edges there may be: no memory has room for so many.
const MOST: u32 = 2_147_483_647;

/// For each node the parts that its reader may still need and the number noted last, and the time of the first row.
///
/// `spare` says how many parts each edge has room for at hand, at least. Contracts see it as `Held`.
#[derive(Drop)]
pub struct Edges<T> {
    alloc: Global,
    pool: Pool<VecDeque<T>>,
    tracks: Vec<Track<T>>,
    spare: usize,
    start: Option<u32>,
}

impl<T> Model for Edges<T> {
    ghost use Rattle.node_edges.specs.Held.{Held};

    ghost Value = { Held T };

    ghost use Rattle.node_edges.specs.Queues.{edges_from, AreTracks};

    ghost view = { λ e. record { edges = edges_from e.pool.all 0 e.tracks.items; start = e.start; spare = e.spare } };

    ghost invariant = { λ e. AreTracks e.pool.all e.tracks.items e.spare };
}

impl<T: Part> Edges<T> {
    /// The edges of `count` nodes, which hold nothing.
    ///
    /// # Errors
    ///
    /// `Memory` where there is no memory.
    pub fn new(alloc: Global, count: u32) -> Result<Edges<T>, Memory>
        ensures edges { IfOk result (λ e. e.edges ≡ replicate count no_edge) }
        ensures start { IfOk result (λ e. e.start ≡ None) }
    {
        if count > MOST {
            return Err(Memory);
        }
        let mut pool = Pool::new(alloc);
        let mut tracks = Vec::new(alloc);
        pool.new_list()?;
        for made in 0..count {
            pool.new_list()?;
            pool.new_list()?;
            let track = Track {
                near: Queue::new(alloc),
                far: Far::none(),
            };
            let Ok(()) = tracks.push(track) else {
                return Err(Memory);
            };
        }
        Ok(Edges {
            alloc,
            pool,
            tracks,
            spare: 0,
            start: None,
        })
    }

    /// Notes the time of the first row.
    pub fn begin(&mut self, start: u32)
        requires { self.old.start ≡ None }
        ensures { self.new ≡ record self.old { start = Some start } }
    {
        self.start = Some(start);
    }

    /// The time of the first row, once it was noted.
    #[inline(always)]
    pub fn start(&self) -> Option<u32>
        ensures { result ≡ self.now.start }
    {
        self.start
    }

    /// From then on an edge joins neighbours of which one goes on from the other, as long as they are not read.
    pub fn join(&mut self, edge: u32)
        requires { edge < length self.old.edges }
        ensures { self.new ≡ record self.old { edges = with_edge self.old edge (joining (edge_at self.old edge)) } }
    {
        self.tracks[edge as usize].near.join();
    }

    /// Whether an edge joins neighbours.
    #[inline(always)]
    pub fn joins(&self, edge: u32) -> bool
        requires { edge < length self.now.edges }
        ensures { result ≡ (edge_at self.now edge).joins }
    {
        self.tracks[edge as usize].near.joins()
    }

    /// As `put`, but on an edge that joins the part lengthens the last one that was not read, where it goes on from that.
    ///
    /// # Errors
    ///
    /// `Memory` where there is no memory, and then nothing changes. With a spare of 1 it never comes.
    #[inline(always)]
    pub fn extend(&mut self, edge: u32, piece: T) -> Result<(), Memory>
        requires { edge < length self.old.edges }
        ensures put { OnOk result (HasMore T.Part (edge_at self.old edge) (edge_at self.new edge) (piece ∷ [])) }
        ensures lengthens { CanLengthen T.Part (edge_at self.old edge) piece → OnOk result (length (fresh_at self.new edge) ≡ length (fresh_at self.old edge)) }
        ensures others { OnOk result (self.new.edges ≡ with_edge self.old edge (edge_at self.new edge)) }
        ensures start { self.new.start ≡ self.old.start }
        ensures falls_by_one { OnOk result (self.old.spare ≤ self.new.spare + 1) }
        ensures had_room { 0 < self.old.spare → IsOk result }
        ensures memory { OnErr result (self.new ≡ self.old) }
    {
        if self.tracks[edge as usize].near.lengthen(&piece) {
            return Ok(());
        }
        self.put(edge, piece)
    }

    /// Appends a part at the back of an edge, where its reader has not read it.
    ///
    /// # Errors
    ///
    /// `Memory` where there is no memory, and then nothing changes. With a spare of 1 it never comes.
    #[inline(always)]
    pub fn put(&mut self, edge: u32, piece: T) -> Result<(), Memory>
        requires { edge < length self.old.edges }
        ensures put { OnOk result (self.new.edges ≡ with_edge self.old edge (with_more (edge_at self.old edge) (piece ∷ []))) }
        ensures start { self.new.start ≡ self.old.start }
        ensures falls_by_one { OnOk result (self.old.spare ≤ self.new.spare + 1) }
        ensures had_room { 0 < self.old.spare → IsOk result }
        ensures memory { OnErr result (self.new ≡ self.old) }
    {
        let track = &mut self.tracks[edge as usize];
        if track.near.is_full() {
            make_way(self.alloc, &mut self.pool, edge, track)?;
            track.near.push(piece);
            self.spare = 0;
            return Ok(());
        }
        track.near.push(piece);
        self.spare = self.spare.saturating_sub(1);
        Ok(())
    }

    /// As `put`, and never in the place of the call: for what is put seldom.
    ///
    /// # Errors
    ///
    /// As `put`.
    #[inline(never)]
    pub fn put_seldom(&mut self, edge: u32, piece: T) -> Result<(), Memory>
        requires { edge < length self.old.edges }
        ensures put { OnOk result (self.new.edges ≡ with_edge self.old edge (with_more (edge_at self.old edge) (piece ∷ []))) }
        ensures start { self.new.start ≡ self.old.start }
        ensures falls_by_one { OnOk result (self.old.spare ≤ self.new.spare + 1) }
        ensures had_room { 0 < self.old.spare → IsOk result }
    {
        self.put(edge, piece)
    }

    /// Notes a node's number.
    #[inline(always)]
    pub fn reach(&mut self, edge: u32, number: i64)
        requires { edge < length self.old.edges }
        ensures { self.new ≡ record self.old { edges = with_edge self.old edge (with_number (edge_at self.old edge) number) } }
    {
        self.tracks[edge as usize].near.reach(number);
    }

    /// The number noted last.
    #[inline(always)]
    pub fn number(&self, edge: u32) -> Option<i64>
        requires { edge < length self.now.edges }
        ensures { result ≡ number_at self.now edge }
    {
        self.tracks[edge as usize].near.number()
    }

    /// Takes out the first part of an edge. None where the edge holds none.
    #[inline(always)]
    pub fn take(&mut self, edge: u32) -> Option<T>
        requires { edge < length self.old.edges }
        ensures first { result ≡ slice_get (held_at self.old edge) 0 }
        ensures taken { self.new.edges ≡ with_edge self.old edge (without 1 (edge_at self.old edge)) }
        ensures start { self.new.start ≡ self.old.start }
        ensures spare { self.old.spare ≤ self.new.spare }
    {
        let track = &mut self.tracks[edge as usize];
        if track.far.is_some() {
            let Some(v) = first_far(&self.pool, edge, &track.far) else {
                unreachable!()
            };
            let first = *v;
            skip_one(&mut self.pool, edge, &mut track.far);
            return Some(first);
        }
        track.near.take()
    }

    /// How many parts an edge holds.
    #[inline(always)]
    pub fn held(&self, edge: u32) -> usize
        requires { edge < length self.now.edges }
        ensures { result ≡ length (held_at self.now edge) }
    {
        let track = &self.tracks[edge as usize];
        track.far.len() + track.near.len()
    }

    /// Makes room for `n` parts in all edges together.
    ///
    /// # Errors
    ///
    /// `Memory` where there is no memory, and then nothing changes.
    pub fn reserve(&mut self, n: usize) -> Result<(), Memory>
        ensures room { OnOk result (n ≤ self.new.spare) }
        ensures kept { OnOk result (self.old.spare ≤ self.new.spare) }
        ensures edges { self.new.edges ≡ self.old.edges }
        ensures start { self.new.start ≡ self.old.start }
        ensures had_room { n ≤ self.old.spare → IsOk result }
        ensures memory { OnErr result (self.new ≡ self.old) }
    {
        if n <= self.spare {
            return Ok(());
        }
        let room = n.max(ROOM);
        make_room(&mut self.tracks, room)?;
        self.spare = room;
        Ok(())
    }

    /// How many parts can be put with no allocation.
    pub fn spare(&self) -> usize
        ensures { result ≡ self.now.spare }
    {
        self.spare
    }

    /// The first part of an edge that its reader has not read.
    #[inline(always)]
    pub fn next(&self, edge: u32) -> Option<T>
        requires { edge < length self.now.edges }
        ensures { result ≡ slice_get (fresh_at self.now edge) 0 }
    {
        let track = &self.tracks[edge as usize];
        if track.far.waits() {
            return match next_far(&self.pool, edge, &track.far) {
                Some(v) => Some(*v),
                None => None,
            };
        }
        track.near.next()
    }

    /// The first part of an edge that its reader has not read, where it stands.
    #[inline(always)]
    pub fn unread(&self, edge: u32) -> Option<&T>
        requires { edge < length self.now.edges }
        ensures { option_copied result ≡ slice_get (fresh_at self.now edge) 0 }
    {
        let track = &self.tracks[edge as usize];
        if track.far.waits() {
            return next_far(&self.pool, edge, &track.far);
        }
        track.near.unread()
    }

    /// The first part of an edge, read or not, where it stands.
    #[inline(always)]
    pub fn ahead(&self, edge: u32) -> Option<&T>
        requires { edge < length self.now.edges }
        ensures { option_copied result ≡ slice_get (held_at self.now edge) 0 }
    {
        let track = &self.tracks[edge as usize];
        if track.far.is_some() {
            return first_far(&self.pool, edge, &track.far);
        }
        track.near.ahead()
    }

    /// Drops the first part of an edge, if there is one.
    #[inline(always)]
    pub fn skip(&mut self, edge: u32)
        requires { edge < length self.old.edges }
        ensures taken { self.new.edges ≡ with_edge self.old edge (without 1 (edge_at self.old edge)) }
        ensures start { self.new.start ≡ self.old.start }
        ensures spare { self.old.spare ≤ self.new.spare }
    {
        let track = &mut self.tracks[edge as usize];
        if track.far.is_some() {
            skip_one(&mut self.pool, edge, &mut track.far);
            return;
        }
        let _ = track.near.take();
    }

    /// Reads the first part of an edge that was not read, and gives it. It takes no memory.
    #[inline(always)]
    pub fn pass(&mut self, edge: u32) -> T
        requires edge { edge < length self.old.edges }
        requires some { 0 < length (fresh_at self.old edge) }
        ensures first { slice_get (fresh_at self.old edge) 0 ≡ Some result }
        ensures read { self.new.edges ≡ with_edge self.old edge (with_read (edge_at self.old edge) result) }
        ensures start { self.new.start ≡ self.old.start }
        ensures spare { self.old.spare ≤ self.new.spare }
    {
        let track = &mut self.tracks[edge as usize];
        if track.far.waits() {
            let Some(v) = next_far(&self.pool, edge, &track.far) else {
                unreachable!()
            };
            let first = *v;
            pass_far(&mut self.pool, edge, &mut track.far);
            return first;
        }
        track.near.pass()
    }

    /// Drops from the front of an edge what ends by the time `limit`.
    pub fn drop_by(&mut self, edge: u32, limit: i64)
        requires { edge < length self.old.edges }
        ensures dropped { IsDroppedBy T.Part limit (edge_at self.old edge) (edge_at self.new edge) }
        ensures others { self.new.edges ≡ with_edge self.old edge (edge_at self.new edge) }
        ensures start { self.new.start ≡ self.old.start }
        ensures spare { self.old.spare ≤ self.new.spare }
    {
        let track = &mut self.tracks[edge as usize];
        if track.far.is_some() {
            drop_far(&mut self.pool, edge, track, limit);
            return;
        }
        track.near.drop_by(limit);
    }
}

/// Makes room at hand for so many parts in each edge.
fn make_room<T: Part>(tracks: &mut Vec<Track<T>>, room: usize) -> Result<(), Memory>
    requires { (all : List (List (Block T))) × (spare : ℕ) × AreTracks all tracks.old.items spare }
    ensures same { (all : List (List (Block T))) → edges_from all 0 tracks.new.items ≡ edges_from all 0 tracks.old.items }
    ensures kept { (all : List (List (Block T))) (spare : ℕ) → AreTracks all tracks.old.items spare → AreTracks all tracks.new.items spare }
    ensures room { OnOk result ((all : List (List (Block T))) (spare : ℕ) → AreTracks all tracks.old.items spare → AreTracks all tracks.new.items room) }
{
    for i in 0..tracks.len() {
        tracks[i].near.reserve(room)?;
    }
    Ok(())
}
