//! The sessions of an input, found by their tags.
ghost use Rattle.std.specs.Prelude.{◌≡◌, ◌<◌, ◌≤◌, ◌++◌, ℕ, List, [], length, take, IsTrue, IfSome, OnOk, OnErr, MatchResult, MatchOption};
ghost use Rattle.stl_syntax.specs.Formula.{Formula as Parsed};
ghost use Rattle.stl_syntax.specs.Texts.{newline};
ghost use Rattle.session_mux.specs.Sessions.{Tagged, IsTag, AreEnds};
ghost use Rattle.session_mux.specs.Standing.{IsCutShort};
ghost use Rattle.session_mux.specs.Knowing.{shown, place_in, Knows, KnowsAll, HasKnown, IsSessionAt, HasBegun, IsNotBegun, IsReady};
ghost use Rattle.session_mux.specs.Knowing.{IsTurnedAway, HasAnswered, IsUnanswered, HasEnded, tags_of, tag_list};

use crate::fault::MuxFault;
use crate::session::Session;
use crate::tag::number_of;
use frac128::Memory;
use std::alloc::Global;
use std::collections::BTreeMap;
use stl_syntax::{Formula, Text};

/// The most sessions of an input.
const MOST: usize = 1024;

/// The sessions in the order of their first lines, and the place of each by its tag's number. Two places are tried first: the one behind that
/// of the line before, since benches take turns, and that one again, since they send many lines at once.
#[derive(Drop)]
pub(crate) struct Known {
    alloc: Global,
    formula: Formula,
    sessions: Vec<Session>,
    places: BTreeMap<u128, usize>,
    last: usize,
}

/// The session whose turn it is: its place, and how many bytes its tag has.
#[derive(Clone, Copy)]
pub(crate) struct Turn {
    pub(crate) place: usize,
    pub(crate) len: usize,
}

/// Puts a content and an LF into the room.
///
/// # Errors
/// Want of memory.
fn put_line(room: &mut Text, content: &[u8]) -> Result<(), Memory>
    ensures { OnOk result (room.new ≡ content.now ++ newline) }
{
    room.clear();
    room.push(content)?;
    room.push(b"\n")
}

impl Known {
    /// No sessions. It takes no memory.
    pub(crate) fn new(alloc: Global, formula: Formula) -> Known
        ensures knows { Knows formula [] (shown result) }
        ensures none { length result.sessions.items ≡ 0 }
    {
        Known {
            alloc,
            formula,
            sessions: Vec::new(alloc),
            places: BTreeMap::new(alloc),
            last: 0,
        }
    }

    /// How many sessions there are.
    pub(crate) fn count(&self) -> u32
        requires { length self.now.sessions.items ≤ 1024 }
        ensures { result ≡ length self.now.sessions.items }
    {
        self.sessions.len() as u32
    }

    /// The place of the session of the tag with this number.
    fn place_of(&self, number: u128) -> Option<usize>
        ensures { result ≡ place_in self.now.places.entries number }
    {
        self.places.get(&number).copied()
    }

    /// Whether the session at a place has the tag.
    fn is_at(&self, place: usize, tag: &[u8]) -> bool
        ensures { IsTrue result → IsSessionAt self.now.sessions.items place tag.now }
    {
        if place >= self.sessions.len() {
            return false;
        }
        self.sessions[place].has_tag(tag)
    }

    /// The place behind that of the line before; the first one behind the last.
    fn next_place(&self) -> usize {
        let next = self.last.saturating_add(1);
        if next < self.sessions.len() { next } else { 0 }
    }

    /// The session whose turn it is, where its tag stands at the front of a piece.
    #[inline(always)]
    pub(crate) fn turn(&self, piece: &[u8]) -> Option<Turn>
        requires { HasKnown (shown self.now) }
        ensures { MatchOption result (Unit {0}) (λ n. (n.len ≤ length piece.now) × IsTag (take n.len piece.now)
            × IsSessionAt self.now.sessions.items n.place (take n.len piece.now)) }
    {
        let next = self.next_place();
        if next >= self.sessions.len() {
            return None;
        }
        match self.sessions[next].front(piece) {
            Some(len) => Some(Turn { place: next, len }),
            None => None,
        }
    }

    /// The place of the session of the tag, where it is known or found at once.
    #[inline(always)]
    fn likely_place(&self, tag: &[u8], known: Option<usize>) -> Option<usize>
        requires { IfSome known (λ i. IsSessionAt self.now.sessions.items i tag.now) }
        ensures { IfSome result (λ i. IsSessionAt self.now.sessions.items i tag.now) }
    {
        if known.is_some() {
            return known;
        }
        let next = self.next_place();
        if self.is_at(next, tag) {
            return Some(next);
        }
        if self.is_at(self.last, tag) {
            return Some(self.last);
        }
        None
    }

    /// Begins the session of a new tag, and answers its place.
    fn begin(&mut self, tag: &[u8], number: u128) -> Result<usize, MuxFault>
        requires tag { IsTag tag.now }
        requires few { length self.old.sessions.items ≤ 1024 }
        ensures begun { MatchResult result (λ i. HasBegun tag.now number i self.old self.new) (IsNotBegun self.old self.new) }
        ensures unbegun { OnErr result (self.new.sessions.items ≡ self.old.sessions.items) }
        ensures few { length self.new.sessions.items ≤ 1024 }
    {
        let place = self.sessions.len();
        if place >= MOST {
            return Err(MuxFault::TooManySessions);
        }
        let Ok(session) = Session::new(self.alloc, &self.formula, tag) else {
            return Err(MuxFault::Memory);
        };
        let Ok(_) = self.places.insert(number, place) else {
            return Err(MuxFault::Memory);
        };
        let Ok(()) = self.sessions.push(session) else {
            return Err(MuxFault::Memory);
        };
        Ok(place)
    }

    /// The place of the session of a tag by its number; the session is begun where the tag is new.
    fn find(&mut self, tag: &[u8]) -> Result<usize, MuxFault>
        requires tag { IsTag tag.now }
        requires known { HasKnown (shown self.old) }
        requires few { length self.old.sessions.items ≤ 1024 }
        ensures ready { (f : Parsed) (seen : List Tagged) (x : Tagged) → Knows f seen (shown self.old) → x.tag ≡ tag.now → MatchResult result
            (λ i. IsReady f seen x i (shown self.new))
            (IsTurnedAway seen x self.old self.new) }
        ensures kept { OnOk result (take (length self.old.sessions.items) self.new.sessions.items ≡ self.old.sessions.items) }
        ensures unbegun { OnErr result (self.new.sessions.items ≡ self.old.sessions.items) }
        ensures few { length self.new.sessions.items ≤ 1024 }
    {
        let number = number_of(tag);
        if let Some(place) = self.place_of(number) {
            return Ok(place);
        }
        let place = self.begin(tag, number)?;
        Ok(place)
    }

    /// The place of the session of a tag, which may be known; the session is begun where the tag is new.
    fn place_for(&mut self, tag: &[u8], known: Option<usize>) -> Result<usize, MuxFault>
        requires tag { IsTag tag.now }
        requires place { IfSome known (λ i. IsSessionAt self.old.sessions.items i tag.now) }
        requires known { HasKnown (shown self.old) }
        requires few { length self.old.sessions.items ≤ 1024 }
        ensures ready { (f : Parsed) (seen : List Tagged) (x : Tagged) → Knows f seen (shown self.old) → x.tag ≡ tag.now → MatchResult result
            (λ i. IsReady f seen x i (shown self.new))
            (IsTurnedAway seen x self.old self.new) }
        ensures kept { OnOk result (take (length self.old.sessions.items) self.new.sessions.items ≡ self.old.sessions.items) }
        ensures unbegun { OnErr result (self.new.sessions.items ≡ self.old.sessions.items) }
        ensures few { length self.new.sessions.items ≤ 1024 }
    {
        if let Some(place) = self.likely_place(tag, known) {
            self.last = place;
            return Ok(place);
        }
        let place = self.find(tag)?;
        self.last = place;
        Ok(place)
    }

    /// Hands the content of a line, with its LF, to the session of its tag, whose place may be known, and adds the answer.
    ///
    /// # Errors
    /// - `TooManySessions`: the tag is new, and there are 1,024. Nothing changed.
    /// - `Memory`: there was too little memory. A first part of the answer was added. A session that was begun for the line is gone.
    pub(crate) fn answer(
        &mut self,
        tag: &[u8],
        place: Option<usize>,
        line: &[u8],
        out: &mut Text,
    ) -> Result<(), MuxFault>
        requires tag { IsTag tag.now }
        requires place { IfSome place (λ i. IsSessionAt self.old.sessions.items i tag.now) }
        requires known { HasKnown (shown self.old) }
        requires few { length self.old.sessions.items ≤ 1024 }
        requires some { 0 < length line.now }
        ensures answered { (f : Parsed) (seen : List Tagged) (x : Tagged) → Knows f seen (shown self.old)
            → x.tag ≡ tag.now → line.now ≡ x.content ++ newline → MatchResult result
            (λ _. HasAnswered f seen x (shown self.new) out.old out.new)
            (IsUnanswered f seen x self.old self.new out.old out.new) }
        ensures untaken { OnErr result (tag_list self.new.sessions.items ≡ tag_list self.old.sessions.items) }
        ensures few { length self.new.sessions.items ≤ 1024 }
    {
        let held = self.sessions.len();
        let place = self.place_for(tag, place)?;
        match self.sessions[place].line(line, out) {
            Ok(()) => Ok(()),
            Err(_) => {
                self.sessions.truncate(held);
                Err(MuxFault::Memory)
            }
        }
    }

    /// Hands the content of a line to the session of its tag, and adds the answer. `room` is room for it and its LF.
    ///
    /// # Errors
    /// As `answer`.
    pub(crate) fn answer_line(
        &mut self,
        tag: &[u8],
        content: &[u8],
        room: &mut Text,
        out: &mut Text,
    ) -> Result<(), MuxFault>
        requires tag { IsTag tag.now }
        requires known { HasKnown (shown self.old) }
        requires few { length self.old.sessions.items ≤ 1024 }
        ensures answered { (f : Parsed) (seen : List Tagged) (x : Tagged) → Knows f seen (shown self.old)
            → x ≡ record { tag = tag.now; content = content.now } → MatchResult result
            (λ _. HasAnswered f seen x (shown self.new) out.old out.new)
            (IsUnanswered f seen x self.old self.new out.old out.new) }
        ensures untaken { OnErr result (tag_list self.new.sessions.items ≡ tag_list self.old.sessions.items) }
        ensures few { length self.new.sessions.items ≤ 1024 }
    {
        let Ok(()) = put_line(room, content) else {
            return Err(MuxFault::Memory);
        };
        self.answer(tag, None, room.bytes(), out)
    }

    /// Ends the sessions that are not over, in the order of their first lines, and adds what they say.
    ///
    /// # Errors
    /// Want of memory. A first part of it was added.
    pub(crate) fn end(&mut self, out: &mut Text) -> Result<(), Memory>
        requires { HasKnown (shown self.old) }
        ensures ended { (f : Parsed) (seen : List Tagged) → Knows f seen (shown self.old) → MatchResult result
            (λ _. HasEnded f seen out.old out.new × KnowsAll f seen (shown self.new))
            (λ _. IsCutShort (AreEnds f seen (tags_of seen)) out.old out.new) }
        ensures tags { tag_list self.new.sessions.items ≡ tag_list self.old.sessions.items }
        ensures few { length self.new.sessions.items ≡ length self.old.sessions.items }
    {
        for place in 0..self.sessions.len() {
            self.sessions[place].end(out)?;
        }
        Ok(())
    }
}
