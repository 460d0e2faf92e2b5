//! An input of several sessions, whose lines are cut from the pieces of its bytes.
ghost use Rattle.std.specs.Prelude.{◌≡◌, ◌<◌, ◌≤◌, ◌++◌, ◌∷◌, ◌+◌, ℕ, List, [], true, false, length, take, MatchResult, OnOk, IfSome, MatchOption};
ghost use Rattle.stl_syntax.specs.Formula.{Formula as Parsed};
ghost use Rattle.trace_reader.specs.Feeds.{HasNoFeed};
ghost use Rattle.trace_reader.proofs.LineLemmas.{rest};
ghost use Rattle.stl_syntax.specs.Texts.{newline};
ghost use Rattle.session_mux.specs.Sessions.{IsTag};
ghost use Rattle.session_mux.specs.Owning.{IsWithFeed};
ghost use Rattle.session_mux.specs.Knowing.{IsSessionAt};
ghost use Rattle.session_mux.specs.Muxes.{Past, StandsFor, HasTaken};
ghost use Rattle.session_mux.specs.Running.{IsJoined, IsRunRefused};
ghost use Rattle.session_mux.specs.Taking.{ended_line, IsSized, HasLines, IsTaking, HasTakenSome, IsInputStop};
ghost use Rattle.session_mux.specs.Taking.{IsLineStop, IsPartStop, HasAll, IsHanded, IsNotHanded, IsUnsized};

use crate::fault::MuxFault;
use crate::mux::Mux;
use crate::run::{content_of, contents_of, front_tag, gather};
use crate::stop::{FaultAt, InputStop, LineKind};
use frac128::Memory;
use memchr::memchr;
use std::alloc::Global;
use stl_syntax::{Formula, Text};

/// The most lines.
const MOST_LINES: u64 = 8_589_934_592;

/// The most bytes of a line.
const LONGEST: usize = 4_113;

/// An input of several sessions: its sessions, the bytes of a line that has not ended, how many lines have, and the text that was made
/// and that is to be written.
///
/// Lines of one session that follow one another in a piece are handed to it together: it makes their answers in one step of its network,
/// where they would take one each. `run` is room for their contents, and `joined` for a piece behind the bytes of a line that ends in it,
/// which goes with those that follow it.
///
/// `IsTaking` says when it stands for the bytes that it took, and for the text that was taken from it. After a refusal it stands for
/// nothing: its text is that of the lines before the fault, and no more is asked of it.
#[derive(Drop)]
pub struct Input {
    mux: Mux,
    part: Text,
    run: Vec<u8>,
    whole: u64,
    text: Text,
    joined: Text,
}

/// The tag at the front of a piece, and the place of its session, where that is known.
#[derive(Clone, Copy)]
struct Front<'a> {
    tag: &'a [u8],
    place: Option<usize>,
}

/// A fault of line `line`.
fn refused(line: u64, kind: LineKind) -> InputStop
    ensures { result ≡ InputStop.Fault (record { line = line; kind = kind }) }
{
    InputStop::Fault(FaultAt { line, kind })
}

/// Refuses a line that is one too many, or too long.
fn sized(number: u64, size: usize) -> Result<(), InputStop>
    ensures { MatchResult result (λ _. IsSized number size) (IsUnsized number size) }
{
    if number > MOST_LINES {
        return Err(refused(number, LineKind::TooManyLines));
    }
    if size > LONGEST {
        return Err(refused(number, LineKind::TooLong));
    }
    Ok(())
}

/// Hands line `number` to the sessions.
fn hand(mux: &mut Mux, number: u64, line: &[u8], text: &mut Text) -> Result<(), InputStop>
    requires { (p : Past) × StandsFor p mux.old }
    ensures { (p : Past) → StandsFor p mux.old
        → MatchResult result (λ _. IsHanded p line.now mux.new text.old text.new) (IsNotHanded p number line.now text.old text.new) }
{
    match mux.line(content_of(line), text) {
        Ok(()) => Ok(()),
        Err(MuxFault::BadTag) => Err(refused(number, LineKind::BadTag)),
        Err(MuxFault::TooManySessions) => Err(refused(number, LineKind::TooManySessions)),
        Err(MuxFault::Stopped | MuxFault::Ended | MuxFault::Memory) => Err(InputStop::NoMemory),
    }
}

/// Hands the contents of lines with one tag, each with its LF, to their session. The first of them is line `number`.
#[inline(always)]
fn hand_run(
    mux: &mut Mux,
    number: u64,
    front: &Front,
    contents: &[u8],
    text: &mut Text,
) -> Result<(), InputStop>
    requires stands { (p : Past) × StandsFor p mux.old }
    requires tag { IsTag front.now.tag.now }
    requires place { IfSome front.now.place (λ i. IsSessionAt mux.old.known.sessions i front.now.tag.now) }
    requires feed { IsWithFeed contents.now }
    ensures { (p : Past) (content : List ℕ) → StandsFor p mux.old → contents.now ≡ content ++ newline → MatchResult result
        (λ _. HasTaken p (record { tag = front.now.tag.now; content = content }) mux.new text.old text.new)
        (IsRunRefused p number front.now.tag.now text.old text.new) }
{
    match mux.take(front.tag, front.place, contents, text) {
        Ok(()) => Ok(()),
        Err(MuxFault::TooManySessions) => Err(refused(number, LineKind::TooManySessions)),
        Err(MuxFault::BadTag | MuxFault::Stopped | MuxFault::Ended | MuxFault::Memory) => {
            Err(InputStop::NoMemory)
        }
    }
}

/// Puts the bytes of a line that goes on and those of a piece into the room, if a line goes on.
///
/// # Errors
/// Want of memory.
fn join(room: &mut Text, part: &[u8], piece: &[u8]) -> Result<(), Memory>
    ensures { OnOk result (IsJoined part.now piece.now room.new) }
{
    if part.is_empty() {
        return Ok(());
    }
    room.clear();
    room.push(part)?;
    room.push(piece)
}

/// The bytes of a line that goes on, and those of a piece: they stand in the room, or no line goes on.
fn all_bytes<'a>(part: &[u8], piece: &'a [u8], room: &'a Text) -> &'a [u8]
    requires { IsJoined part.now piece.now room.now }
    ensures { result.now ≡ part.now ++ piece.now }
{
    if part.is_empty() {
        return piece;
    }
    room.bytes()
}

/// The tag at the front of a piece, if bytes of a tag stand there, and not too many. That of the session whose turn it is is known at once,
/// and so is its place.
#[inline(always)]
fn front_of<'a>(mux: &Mux, piece: &'a [u8]) -> Option<Front<'a>>
    requires { (p : Past) × StandsFor p mux.now }
    ensures { MatchOption result (Unit {0}) (λ f. IsTag f.tag.now × (f.tag.now ≡ take (length f.tag.now) piece.now)
        × IfSome f.place (λ i. IsSessionAt mux.now.known.sessions i f.tag.now)) }
{
    if let Some(turn) = mux.turn(piece) {
        return Some(Front {
            tag: &piece[..turn.len],
            place: Some(turn.place),
        });
    }
    match front_tag(piece) {
        Some(tag) => Some(Front { tag, place: None }),
        None => None,
    }
}

impl Input {
    /// Takes no bytes yet. It takes no memory.
    pub fn new(alloc: Global, formula: Formula) -> Input
        ensures live { IsTaking formula result [] [] }
        ensures empty { result.text ≡ [] }
    {
        Input {
            mux: Mux::new(alloc, formula),
            part: Text::new(alloc),
            run: Vec::new(alloc),
            whole: 0,
            text: Text::new(alloc),
            joined: Text::new(alloc),
        }
    }

    /// Takes bytes of a line that goes on, none of them an LF.
    fn go_on(&mut self, part: &[u8]) -> Result<(), InputStop>
        requires taking { HasTakenSome self.old }
        requires free { HasNoFeed part.now }
        ensures { (f : Parsed) (bytes written : List ℕ) → IsTaking f self.old bytes written → MatchResult result
            (λ _. IsTaking f self.new (bytes ++ part.now) written)
            (IsPartStop f (bytes ++ part.now) (written ++ self.new.text)) }
    {
        if part.is_empty() {
            return Ok(());
        }
        sized(self.whole + 1, self.part.bytes().len() + part.len())?;
        match self.part.push(part) {
            Ok(()) => Ok(()),
            Err(_) => Err(InputStop::NoMemory),
        }
    }

    /// Answers the line whose bytes are there, which has ended.
    fn answer(&mut self) -> Result<(), InputStop>
        requires { HasTakenSome self.old }
        ensures ok { OnOk result ((self.new.part ≡ []) × (self.new.whole ≡ self.old.whole + 1) × IsSized (self.old.whole + 1) (length self.old.part)) }
        ensures lines { (f : Parsed) (bytes written : List ℕ) → (k : IsTaking f self.old bytes written) → MatchResult result
            (λ _. HasLines f self.new.mux (k.front ++ ended_line self.old.part ∷ []) (written ++ self.new.text))
            (IsLineStop f k.front self.old.part (written ++ self.new.text)) }
    {
        let number = self.whole + 1;
        sized(number, self.part.bytes().len())?;
        hand(&mut self.mux, number, self.part.bytes(), &mut self.text)?;
        self.part.clear();
        self.whole = number;
        Ok(())
    }

    /// Whether lines may end in a piece that one session takes together. Of a line that goes on it is known by its LF.
    fn may_run(&self, piece: &[u8]) -> bool {
        self.part.bytes().is_empty() || memchr(b'\n', piece).is_some()
    }

    /// Hands the lines that end in a piece and that one session takes together to it, and answers how many bytes of the piece they have: none
    /// where another line comes first.
    fn take_run(&mut self, piece: &[u8]) -> Result<usize, InputStop>
        requires { HasTakenSome self.old }
        ensures taken { (f : Parsed) (bytes written : List ℕ) → IsTaking f self.old bytes written → MatchResult result
            (λ n. IsTaking f self.new (bytes ++ take n piece.now) written)
            (λ e. IsInputStop f (bytes ++ piece.now) false (written ++ self.new.text) e) }
        ensures within { MatchResult result (λ n. n ≤ length piece.now) (λ _. Unit {0}) }
    {
        let Ok(()) = join(&mut self.joined, self.part.bytes(), piece) else {
            return Err(InputStop::NoMemory);
        };
        let bytes = all_bytes(self.part.bytes(), piece, &self.joined);
        let Some(front) = front_of(&self.mux, bytes) else {
            return Ok(0);
        };
        let Ok(run) = gather(&mut self.run, front.tag, bytes, MOST_LINES - self.whole) else {
            return Err(InputStop::NoMemory);
        };
        if run.lines == 0 {
            return Ok(0);
        }
        hand_run(
            &mut self.mux,
            self.whole + 1,
            &front,
            contents_of(&self.run, &run),
            &mut self.text,
        )?;
        let taken = run.bytes - self.part.bytes().len();
        self.part.clear();
        self.whole += run.lines;
        Ok(taken)
    }

    /// Takes bytes of a piece, up to and with its first LF, and answers how many.
    fn take_line(&mut self, piece: &[u8]) -> Result<usize, InputStop>
        requires { HasTakenSome self.old }
        ensures taken { (f : Parsed) (bytes written : List ℕ) → IsTaking f self.old bytes written → MatchResult result
            (λ n. IsTaking f self.new (bytes ++ take n piece.now) written)
            (λ e. IsInputStop f (bytes ++ piece.now) false (written ++ self.new.text) e) }
        ensures within { MatchResult result (λ n. n ≤ length piece.now) (λ _. Unit {0}) }
        ensures progress { MatchResult result (λ n. 0 < length piece.now → 0 < n) (λ _. Unit {0}) }
    {
        match memchr(b'\n', piece) {
            Some(at) => {
                self.go_on(&piece[..at])?;
                self.answer()?;
                Ok(at + 1)
            }
            None => {
                self.go_on(piece)?;
                Ok(piece.len())
            }
        }
    }

    /// Takes some bytes of a piece: those of lines that go to one session together, or bytes up to and with the first LF. It answers how many.
    fn step(&mut self, piece: &[u8]) -> Result<usize, InputStop>
        requires { HasTakenSome self.old }
        ensures taken { (f : Parsed) (bytes written : List ℕ) → IsTaking f self.old bytes written → MatchResult result
            (λ n. IsTaking f self.new (bytes ++ take n piece.now) written)
            (λ e. IsInputStop f (bytes ++ piece.now) false (written ++ self.new.text) e) }
        ensures within { MatchResult result (λ n. n ≤ length piece.now) (λ _. Unit {0}) }
        ensures progress { MatchResult result (λ n. 0 < length piece.now → 0 < n) (λ _. Unit {0}) }
    {
        if self.may_run(piece) {
            let taken = self.take_run(piece)?;
            if taken > 0 {
                return Ok(taken);
            }
        }
        self.take_line(piece)
    }

    /// Takes all bytes of a piece. The text grows by the answers to the lines that end in it.
    ///
    /// # Errors
    /// A line of the bytes has a fault, and the text grew to that of the lines before it; want of memory.
    pub fn feed(&mut self, piece: &[u8]) -> Result<(), InputStop>
        requires { HasTakenSome self.old }
        ensures { (f : Parsed) (bytes written : List ℕ) → IsTaking f self.old bytes written → MatchResult result
            (λ _. IsTaking f self.new (bytes ++ piece.now) written)
            (λ e. IsInputStop f (bytes ++ piece.now) false (written ++ self.new.text) e) }
    {
        let mut at = 0;
        while at < piece.len() {
            at += self.step(&piece[at..])?;
        }
        Ok(())
    }

    /// Answers a last line without LF, where the bytes end here.
    fn last(&mut self) -> Result<(), InputStop>
        requires { HasTakenSome self.old }
        ensures { (f : Parsed) (bytes written : List ℕ) → (k : IsTaking f self.old bytes written) → MatchResult result
            (λ _. HasLines f self.new.mux (k.front ++ rest true self.old.part) (written ++ self.new.text))
            (λ e. IsInputStop f bytes true (written ++ self.new.text) e) }
    {
        if self.part.bytes().is_empty() {
            return Ok(());
        }
        self.answer()
    }

    /// Takes the end of the bytes, with a last line that lacks its LF. The text grows by what is left.
    ///
    /// # Errors
    /// As `feed`.
    pub fn finish(&mut self) -> Result<(), InputStop>
        requires { HasTakenSome self.old }
        ensures { (f : Parsed) (bytes written : List ℕ) → IsTaking f self.old bytes written → MatchResult result
            (λ _. HasAll f self.new.mux bytes (written ++ self.new.text))
            (λ e. IsInputStop f bytes true (written ++ self.new.text) e) }
    {
        self.last()?;
        match self.mux.end(&mut self.text) {
            Ok(()) => Ok(()),
            Err(_) => Err(InputStop::NoMemory),
        }
    }

    /// The text that was made since it was cleared.
    pub fn text(&self) -> &[u8]
        ensures { result.now ≡ self.now.text }
    {
        self.text.bytes()
    }

    /// Lets go of the text, once it was written.
    pub fn clear(&mut self)
        ensures { self.new ≡ record self.old { text = [] } }
    {
        self.text.clear();
    }

    /// The sessions.
    pub fn into_mux(self) -> Mux
        ensures { result ≡ self.mux }
    {
        let Input {
            mux,
            part: _part,
            run: _run,
            whole: _whole,
            text: _text,
            joined: _joined,
        } = self;
        mux
    }
}
