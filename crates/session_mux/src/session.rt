//! One session: its trace as it comes, and the last lines that were said to it.
ghost use Rattle.std.specs.Prelude.{◌≡◌, ◌<◌, ◌≤◌, ◌++◌, ◌∷◌, bytes_eq, length, ℕ, IsTrue, List, [], false, true, None, IfOk, MatchResult, take, MatchOption};
ghost use Rattle.answer_lines.specs.Appended.{GrewInPart, Is};
ghost use Rattle.answer_lines.specs.FaultTexts.{fault_text};
ghost use Rattle.stl_syntax.specs.Formula.{Formula as Parsed};
ghost use Rattle.stl_syntax.specs.Texts.{newline};
ghost use Rattle.trace_reader.specs.InputFaults.{Fault as FirstFault};
ghost use Rattle.trace_stream.specs.Cases.{IsFault};
ghost use Rattle.trace_stream.specs.Following.{HasLived};
ghost use Rattle.trace_stream.specs.Streams.{verdicts};
ghost use Rattle.session_mux.specs.Owning.{Own, asks as is_query, stops as is_stop, next_line, stopped_now, with_content};
ghost use Rattle.session_mux.specs.Saying.{said_lines, HasSaid};
ghost use Rattle.session_mux.specs.Standing.{WatchesRows, IsOwnText, HasReason, HasStopped, IsStoppedAt};
ghost use Rattle.session_mux.specs.Standing.{IsOpen, IsAfterLine, recent_of, HasGrown, HasSaidSoFar};
ghost use Rattle.session_mux.specs.Standing.{HasSaidSome, IsGrowth, IsReply, HasReplied, IsCutShort};

use crate::recent::{Recent, no_lines};
use crate::saying::{say, show};
use crate::tag::Tag;
use answer_lines::put_line;
use frac128::Memory;
use std::alloc::Global;
use stl_syntax::{Formula, Text};
use trace_reader::Limits;
use trace_stream::{Live, StreamStop, TraceFault, fault_line};
use verdict_stream::Verdicts;

/// The limits of a session's trace: those of a stream.
const LIMITS: Limits = Limits {
    rows: 4_294_967_296,
    lines: 8_589_934_592,
};

/// One session among those of an input.
///
/// Once it is over, by its end or by a fault of its trace, its reader and its network are let go; its last lines stay.
#[derive(Drop)]
pub(crate) struct Session {
    alloc: Global,
    tag: Tag,
    stream: Option<Live<Verdicts>>,
    recent: Recent,
}

/// Whether the content is this byte alone.
#[inline(always)]
fn is_mark(content: &[u8], mark: u8) -> bool
    ensures { result ≡ bytes_eq content.now (mark ∷ []) }
{
    if content.len() != 1 {
        return false;
    }
    content[0] == mark
}

/// Whether the content asks for the last lines.
#[inline(always)]
pub(crate) fn asks(content: &[u8]) -> bool
    ensures { result ≡ is_query content.now }
{
    is_mark(content, b'?')
}

/// Whether the content ends its session.
#[inline(always)]
pub(crate) fn stops(content: &[u8]) -> bool
    ensures { result ≡ is_stop content.now }
{
    is_mark(content, b'.')
}

/// Says the line of a trace's first fault.
fn say_fault(
    alloc: Global,
    tag: &Tag,
    recent: &mut Recent,
    formula: &Formula,
    fault: TraceFault,
    out: &mut Text,
) -> Result<(), Memory>
    requires room { recent.old.capacity ≡ 8 }
    requires fault { (x : FirstFault) × IsFault formula.now fault x }
    ensures { (x : FirstFault) → IsFault formula.now fault x → MatchResult result
        (λ _. HasSaid tag.now (fault_text x) recent.old recent.new out.old out.new)
        (λ _. GrewInPart (Is (said_lines tag.now (fault_text x))) out.old out.new) }
{
    let mut line = Text::new(alloc);
    put_line(&mut line, &fault_line(formula, fault))?;
    say(alloc, tag, recent, line.bytes(), out)
}

/// Says what a reader said before it stopped, and why it did.
fn say_stop(
    alloc: Global,
    tag: &Tag,
    recent: &mut Recent,
    live: &Live<Verdicts>,
    stop: StreamStop,
    out: &mut Text,
) -> Result<(), Memory>
    requires room { recent.old.capacity ≡ 8 }
    requires reason { HasReason live.now.formula stop }
    ensures { (f : Parsed) (o p : Own) (said : List ℕ) → live.now.formula ≡ f → recent.old ≡ recent_of said → IsOwnText f o said
        → IsStoppedAt f p (said ++ live.now.text) stop
        → MatchResult result
        (λ _. HasGrown f tag.now p said recent.new out.old out.new (λ _. HasStopped f p))
        (λ _. IsCutShort (IsGrowth f tag.now o p) out.old out.new) }
{
    let StreamStop::Fault(fault) = stop else {
        return Err(Memory);
    };
    say(alloc, tag, recent, live.text(), out)?;
    say_fault(alloc, tag, recent, live.formula(), fault, out)
}

/// Takes a line of a trace with its LF, says what it answers, and answers whether the reader goes on.
fn take_with(
    live: &mut Live<Verdicts>,
    alloc: Global,
    tag: &Tag,
    recent: &mut Recent,
    line: &[u8],
    out: &mut Text,
) -> Result<bool, Memory>
    requires room { recent.old.capacity ≡ 8 }
    requires stands { (f : Parsed) × (bytes said : List ℕ) × IsOpen f bytes said live.old }
    ensures { (f : Parsed) (o : Own) (said content : List ℕ) → IsOwnText f o said → recent.old ≡ recent_of said → o.stopped ≡ false
        → IsOpen f o.bytes said live.old → line.now ≡ content ++ newline → MatchResult result
        (λ goes_on. HasGrown f tag.now (next_line o content) said recent.new out.old out.new
        (IsAfterLine f (next_line o content).bytes goes_on live.new))
        (λ _. IsCutShort (IsGrowth f tag.now o (next_line o content)) out.old out.new) }
{
    match live.feed(line) {
        Ok(()) => {
            say(alloc, tag, recent, live.text(), out)?;
            live.clear();
            Ok(true)
        }
        Err(stop) => {
            say_stop(alloc, tag, recent, live, stop, out)?;
            Ok(false)
        }
    }
}

/// Takes the end of a trace, and says the rest.
fn end_with(
    live: &mut Live<Verdicts>,
    alloc: Global,
    tag: &Tag,
    recent: &mut Recent,
    out: &mut Text,
) -> Result<(), Memory>
    requires room { recent.old.capacity ≡ 8 }
    requires stands { (f : Parsed) × (bytes said : List ℕ) × IsOpen f bytes said live.old }
    ensures { (f : Parsed) (o : Own) (said : List ℕ) → IsOwnText f o said → recent.old ≡ recent_of said → IsOpen f o.bytes said live.old → MatchResult result
        (λ _. HasGrown f tag.now (stopped_now o) said recent.new out.old out.new (λ _. Unit {0}))
        (λ _. IsCutShort (IsGrowth f tag.now o (stopped_now o)) out.old out.new) }
{
    match live.finish() {
        Ok(_) => say(alloc, tag, recent, live.text(), out),
        Err(stop) => say_stop(alloc, tag, recent, live, stop, out),
    }
}

/// Lets go of a reader and its network.
fn let_go(stream: &mut Option<Live<Verdicts>>)
    ensures { stream.new ≡ None }
{
    *stream = None;
}

impl Session {
    /// A session without lines.
    ///
    /// # Errors
    /// Want of memory.
    pub(crate) fn new(alloc: Global, formula: &Formula, tag: &[u8]) -> Result<Session, Memory>
        requires { length tag.now ≤ 16 }
        ensures tag { IfOk result (λ s. s.tag ≡ tag.now) }
        ensures said { IfOk result (λ s. HasSaidSoFar formula.now (record { bytes = []; stopped = false }) [] s) }
    {
        let live = Live::new(alloc, formula.copied()?, LIMITS)?;
        let recent = no_lines(alloc)?;
        Ok(Session {
            alloc,
            tag: Tag::of(tag),
            stream: Some(live),
            recent,
        })
    }

    /// Whether it is the session of this tag.
    pub(crate) fn has_tag(&self, tag: &[u8]) -> bool
        ensures { IsTrue result → self.now.tag ≡ tag.now }
    {
        self.tag.bytes() == tag
    }

    /// How many bytes the tag has, where a piece begins with it and a space.
    #[inline(always)]
    pub(crate) fn front(&self, piece: &[u8]) -> Option<usize>
        ensures { MatchOption result (Unit {0}) (λ n. (n ≤ length piece.now) × (take n piece.now ≡ self.now.tag)) }
    {
        self.tag.front(piece)
    }

    /// Takes a line of the trace with its LF, and says what it answers.
    fn take(&mut self, line: &[u8], out: &mut Text) -> Result<(), Memory>
        requires { HasSaidSome self.old }
        ensures tag { self.new.tag ≡ self.old.tag }
        ensures replied { (f : Parsed) (o : Own) (said content : List ℕ) → HasSaidSoFar f o said self.old → line.now ≡ content ++ newline
            → MatchResult result
            (λ _. HasReplied f (next_line o content) self.old self.new (IsGrowth f self.old.tag o (next_line o content)) out.old out.new)
            (λ _. IsCutShort (IsGrowth f self.old.tag o (next_line o content)) out.old out.new) }
    {
        let goes_on = match &mut self.stream {
            Some(live) => take_with(live, self.alloc, &self.tag, &mut self.recent, line, out)?,
            None => return Ok(()),
        };
        if !goes_on {
            let_go(&mut self.stream);
        }
        Ok(())
    }

    /// Ends the session where it is not over, and says the rest.
    ///
    /// # Errors
    /// Want of memory. A first part of the rest was added.
    pub(crate) fn end(&mut self, out: &mut Text) -> Result<(), Memory>
        requires { HasSaidSome self.old }
        ensures tag { self.new.tag ≡ self.old.tag }
        ensures replied { (f : Parsed) (o : Own) (said : List ℕ) → HasSaidSoFar f o said self.old → MatchResult result
            (λ _. HasReplied f (stopped_now o) self.old self.new (IsGrowth f self.old.tag o (stopped_now o)) out.old out.new)
            (λ _. IsCutShort (IsGrowth f self.old.tag o (stopped_now o)) out.old out.new) }
    {
        match &mut self.stream {
            Some(live) => end_with(live, self.alloc, &self.tag, &mut self.recent, out)?,
            None => return Ok(()),
        }
        let_go(&mut self.stream);
        Ok(())
    }

    /// Takes the content of a line with its LF, and says what it answers. It may be those of several lines.
    ///
    /// # Errors
    /// Want of memory. A first part of the answer was added.
    pub(crate) fn line(&mut self, line: &[u8], out: &mut Text) -> Result<(), Memory>
        requires said { HasSaidSome self.old }
        requires some { 0 < length line.now }
        ensures tag { self.new.tag ≡ self.old.tag }
        ensures replied { (f : Parsed) (o : Own) (said content : List ℕ) → HasSaidSoFar f o said self.old → line.now ≡ content ++ newline
            → MatchResult result
            (λ _. HasReplied f (with_content o content) self.old self.new (IsReply f self.old.tag o content) out.old out.new)
            (λ _. IsCutShort (IsReply f self.old.tag o content) out.old out.new) }
    {
        let content = &line[..line.len() - 1];
        if asks(content) {
            return show(&self.tag, &self.recent, out);
        }
        if stops(content) {
            return self.end(out);
        }
        self.take(line, out)
    }
}
