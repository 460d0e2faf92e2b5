//! Sessions in one input.
ghost use Rattle.std.specs.Prelude.{◌≡◌, ◌++◌, ◌∷◌, ℕ, List, [], length, MatchResult, OnErr, IfSome, ◌≤◌, take, MatchOption};
ghost use Rattle.stl_syntax.specs.Texts.{newline};
ghost use Rattle.session_mux.specs.Sessions.{IsTag};
ghost use Rattle.session_mux.specs.Owning.{IsWithFeed};
ghost use Rattle.session_mux.specs.Knowing.{tags_of, IsSessionAt};
ghost use Rattle.session_mux.specs.Muxes.{Past, StandsFor, HasTags, IsLineCall, IsEndCall, Moves, IsLate, IsAllowed, phase_after};

use crate::fault::MuxFault;
use crate::known::{Known, Turn};
use crate::tag::{cut, is_blank};
use std::alloc::Global;
use std::marker::Model;
use stl_syntax::{Formula, Text};

/// How far an input has come.
#[derive(Clone, Copy)]
pub(crate) enum Phase {
    /// More lines, or the end, may come.
    Taking,
    /// Memory was wanting in a call.
    Stopped,
    /// The end came.
    Ended,
}

/// Several traces in one input, each line with the tag of its session: each session is told what it would be told alone.
///
/// `room` is room for a content and its LF.
///
/// Contracts see it as `Muxed`. `StandsFor` says when it stands for the lines that were taken.
#[derive(Drop)]
pub struct Mux {
    known: Known,
    phase: Phase,
    room: Text,
}

impl Model for Mux {
    ghost use Rattle.session_mux.specs.Knowing.{shown};
    ghost use Rattle.session_mux.specs.Muxes.{Muxed, HasPast};

    ghost Value = { Muxed };

    ghost view = { λ m. record { known = shown m.known; phase = m.phase } };

    ghost invariant = { λ m. HasPast (record { known = shown m.known; phase = m.phase }) };
}

/// Refuses a call after want of memory, and after the end.
fn allow(phase: Phase) -> Result<(), MuxFault>
    ensures { IsAllowed phase result }
{
    match phase {
        Phase::Taking => Ok(()),
        Phase::Stopped => Err(MuxFault::Stopped),
        Phase::Ended => Err(MuxFault::Ended),
    }
}

/// The phase after a line was answered so.
fn after_line(phase: Phase, outcome: Result<(), MuxFault>) -> Phase
    ensures { result ≡ phase_after phase outcome }
{
    match outcome {
        Err(MuxFault::Memory) => Phase::Stopped,
        _ => phase,
    }
}

impl Mux {
    /// No lines yet. It takes no memory.
    pub fn new(alloc: Global, formula: Formula) -> Mux
        ensures { StandsFor (record { formula = formula; seen = [] }) result }
    {
        Mux {
            known: Known::new(alloc, formula),
            phase: Phase::Taking,
            room: Text::new(alloc),
        }
    }

    /// How many different tags the lines have that were taken, also after want of memory and after the end.
    pub fn sessions(&self) -> u32
        ensures { (p : Past) → HasTags p self.now → result ≡ length (tags_of p.seen) }
    {
        self.known.count()
    }

    /// The session whose turn it is, since benches take turns, where its tag stands at the front of a piece.
    #[inline(always)]
    pub(crate) fn turn(&self, piece: &[u8]) -> Option<Turn>
        requires { (p : Past) × StandsFor p self.now }
        ensures { MatchOption result (Unit {0}) (λ n. (n.len ≤ length piece.now) × IsTag (take n.len piece.now)
            × IsSessionAt self.now.known.sessions n.place (take n.len piece.now)) }
    {
        self.known.turn(piece)
    }

    /// Takes a line of the input, without its LF and without one CR before it, and adds the answer: what the line's session says by it,
    /// each line after the tag and a space. A blank line has no answer.
    ///
    /// # Errors
    /// They are tried in this order.
    /// - `Stopped` where an earlier call answered `Memory`, and `Ended` after the end.
    /// - `BadTag`: the line is not blank, and has no tag.
    /// - `TooManySessions`: its tag is a new one, and there are 1,024. Nothing changes by these four.
    /// - `Memory`: there was too little memory. At most a first part of the answer was added, and the line was not taken.
    pub fn line(&mut self, content: &[u8], out: &mut Text) -> Result<(), MuxFault>
        ensures taken { (p : Past) → StandsFor p self.old → IsLineCall p content.now self.old self.new out.old out.new result }
        ensures untaken { (p : Past) → HasTags p self.old → OnErr result (HasTags p self.new) }
        ensures phase { Moves Phase.Taking self.old self.new result }
        ensures late { IsLate result → out.new ≡ out.old }
    {
        allow(self.phase)?;
        if is_blank(content) {
            return Ok(());
        }
        let Some(line) = cut(content) else {
            return Err(MuxFault::BadTag);
        };
        let outcome = self
            .known
            .answer_line(line.tag, line.content, &mut self.room, out);
        self.phase = after_line(self.phase, outcome);
        outcome
    }

    /// Takes a line of the input by its tag and its content with an LF, as `line` takes it whole. The content may be that of several lines,
    /// with an LF after each. The place of its session may be known.
    pub(crate) fn take(
        &mut self,
        tag: &[u8],
        place: Option<usize>,
        line: &[u8],
        out: &mut Text,
    ) -> Result<(), MuxFault>
        requires tag { IsTag tag.now }
        requires place { IfSome place (λ i. IsSessionAt self.old.known.sessions i tag.now) }
        requires feed { IsWithFeed line.now }
        ensures taken { (p : Past) (content : List ℕ) → StandsFor p self.old → line.now ≡ content ++ newline
            → IsLineCall p (tag.now ++ 32 ∷ content) self.old self.new out.old out.new result }
        ensures untaken { (p : Past) → HasTags p self.old → OnErr result (HasTags p self.new) }
        ensures phase { Moves Phase.Taking self.old self.new result }
        ensures late { IsLate result → out.new ≡ out.old }
    {
        allow(self.phase)?;
        let outcome = self.known.answer(tag, place, line, out);
        self.phase = after_line(self.phase, outcome);
        outcome
    }

    /// Takes the end of the input: the sessions that are not over are ended, in the order of their first lines, and what they say is added.
    ///
    /// # Errors
    /// - `Stopped` where an earlier call answered `Memory`, and `Ended` after the end. Nothing changes then.
    /// - `Memory`: there was too little memory. At most a first part of the text was added.
    pub fn end(&mut self, out: &mut Text) -> Result<(), MuxFault>
        ensures ended { (p : Past) → StandsFor p self.old → IsEndCall p self.new out.old out.new result }
        ensures tags { (p : Past) → HasTags p self.old → HasTags p self.new }
        ensures phase { Moves Phase.Ended self.old self.new result }
        ensures late { IsLate result → out.new ≡ out.old }
    {
        allow(self.phase)?;
        match self.known.end(out) {
            Ok(()) => {
                self.phase = Phase::Ended;
                Ok(())
            }
            Err(_) => {
                self.phase = Phase::Stopped;
                Err(MuxFault::Memory)
            }
        }
    }
}
