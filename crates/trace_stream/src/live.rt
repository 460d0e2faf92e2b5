//! A trace that is read as its bytes come, with what follows its rows.
ghost use Rattle.std.specs.Prelude.{◌≡◌, ◌⊎◌, ◌^◌, ◌<◌, ◌≤◌, ◌++◌, ℕ, List, [], length, take, true};
ghost use Rattle.std.specs.Prelude.{false, Option, Some, option_map, IfOk, IfErr, OnErr, MatchResult};
ghost use Rattle.stl_syntax.specs.Formula.{Formula as Parsed};
ghost use Rattle.stl_syntax.specs.Trace.{IsTrace};
ghost use Rattle.stl_syntax.specs.WellFormed.{IsScale};
ghost use Rattle.trace_reader.specs.TraceText.{Heading, scale_of};
ghost use Rattle.trace_reader.specs.Reader.{header_of};
ghost use Rattle.trace_stream.specs.Cases.{IsBegun, IsNoBegin, CanKeep, with_row};
ghost use Rattle.trace_stream.specs.Streams.{HasStream};
ghost use Rattle.trace_stream.specs.Following.{IsFollowed, IsOpened, IsEndedOut, IsHeldUp, IsLive, HasLived};
ghost use Rattle.trace_stream.specs.CaseReader.{IsKept};
ghost use Rattle.trace_stream.specs.Following.{IsLiveOpen, HasLivedOpen, IsLastTaken, IsOpenedBy, IsOver, IsLiveStop, IsOpenStop};
ghost use Rattle.trace_stream.specs.declared.case.Case.{Case as Of};

use crate::case::begin;
use crate::case_reader::{last_fault, next_bytes};
use crate::fault::{StreamStop, TraceFault};
use crate::follow::Follow;
use frac128::Memory;
use std::alloc::Global;
use stl_syntax::{Formula, Text};
use trace_reader::{Event, Header, Limits, Row, Rows};

/// A reader of a trace, what follows the rows once the header was read, and the text that they made and that is to be written.
///
/// `IsLive` says when it stands for the bytes that it took, and for the text that was taken from it. After a refusal it stands for
/// nothing: its text is that of the rows before the fault, and no more is asked of it.
#[derive(Drop)]
pub struct Live<F> {
    alloc: Global,
    rows: Rows,
    formula: Formula,
    follower: Option<F>,
    text: Text,
}

/// What follows a trace from its header, in line `line`, on. It is a call of its own, so that the rows pay nothing for it.
#[inline(never)]
fn follow_on<F: Follow>(
    follower: &mut Option<F>,
    alloc: Global,
    formula: &Formula,
    header: &Header,
    line: u64,
) -> Result<(), StreamStop>
    requires header { (h : Heading) × (header.now ≡ header_of formula.now.scale h) × IsScale (scale_of formula.now.scale h) }
    requires streamed { HasStream F.kind formula.now }
    ensures begun { (h : Heading) → header.now ≡ header_of formula.now.scale h
        → MatchResult result (λ _. (case : Of) × IsBegun formula.now line h case × IsFollowed F.stands F.kind follower.new (Some case) [])
        (IsNoBegin formula.now line h) }
    ensures kept { OnErr result (follower.new ≡ follower.old) }
{
    let case = begin(alloc, formula, header, line)?;
    *follower = Some(F::begin(alloc, case)?);
    Ok(())
}

/// Takes a row. What it answers is added to the text now, or by `flush`.
fn take_row<F: Follow>(
    follower: &mut Option<F>,
    row: &Row,
    text: &mut Text,
) -> Result<(), StreamStop>
    requires { (case : Option Of) × (made : List ℕ) × IsOpened F.stands F.owes F.kind follower.old case made × CanKeep case row.now }
    ensures ok { (case : Option Of) (made : List ℕ) → IsOpened F.stands F.owes F.kind follower.old case made → CanKeep case row.now
        → IfOk result (λ _. (grown : List ℕ) × (text.new ≡ text.old ++ grown)
        × IsOpened F.stands F.owes F.kind follower.new (option_map (with_row row.now) case) (made ++ grown)) }
    ensures err { (case : Option Of) (made : List ℕ) → IsOpened F.stands F.owes F.kind follower.old case made → CanKeep case row.now
        → IfErr result (IsHeldUp F.kind (option_map (with_row row.now) case) false text.old text.new) }
    ensures owing { (case : Option Of) (made : List ℕ) → IsOpened F.stands F.owes F.kind follower.old case made
        → IfErr result (λ e. IsFollowed F.stands F.kind follower.old case made ⊎ (e ≡ StreamStop.NoMemory)) }
{
    match follower {
        Some(follower) => Ok(follower.row(row, text)?),
        None => unreachable!(),
    }
}

/// Takes rows that the piece begins with, once the header was read, and answers how many bytes they are. Their text may be owed.
fn take_rows<F: Follow>(
    rows: &mut Rows,
    follower: &mut Option<F>,
    piece: &[u8],
    text: &mut Text,
) -> Result<usize, StreamStop>
    requires { (f : Parsed) × (case : Option Of) × (bytes made : List ℕ) × IsKept f rows.old case bytes
        × IsOpened F.stands F.owes F.kind follower.old case made }
    ensures taken { IfOk result (λ n. (f : Parsed) (case : Option Of) (bytes made : List ℕ) → IsKept f rows.old case bytes
        → IsOpened F.stands F.owes F.kind follower.old case made
        → IsOpenedBy F.stands F.owes F.kind f rows.new follower.new (bytes ++ take n piece.now) text.old text.new made) }
    ensures within { IfOk result (λ n. n ≤ length piece.now) }
    ensures memory { IfErr result (λ e. e ≡ StreamStop.NoMemory) }
    ensures limits { rows.new.limits ≡ rows.old.limits }
{
    match follower {
        Some(follower) => Ok(follower.take_rows(rows, piece, text)?),
        None => Ok(0),
    }
}

/// Adds to the text what the rows answer and what it does not have yet.
fn flush<F: Follow>(follower: &mut Option<F>, text: &mut Text) -> Result<(), StreamStop>
    requires { (case : Option Of) × (made : List ℕ) × IsOpened F.stands F.owes F.kind follower.old case made }
    ensures ok { (case : Option Of) (made : List ℕ) → IsOpened F.stands F.owes F.kind follower.old case made
        → IfOk result (λ _. (grown : List ℕ) × (text.new ≡ text.old ++ grown) × IsFollowed F.stands F.kind follower.new case (made ++ grown)) }
    ensures err { IfErr result (λ e. e ≡ StreamStop.NoMemory) }
{
    match follower {
        Some(follower) => Ok(follower.flush(text)?),
        None => Ok(()),
    }
}

/// Takes the end of the rows, adds to the text what is left, and answers the verdict of the status.
fn take_end<F: Follow>(follower: &mut Option<F>, text: &mut Text) -> Result<bool, StreamStop>
    requires { (c : Of) × (made : List ℕ) × IsFollowed F.stands F.kind follower.old (Some c) made × IsTrace c.trace }
    ensures ok { (c : Of) (made : List ℕ) → IsFollowed F.stands F.kind follower.old (Some c) made → IsTrace c.trace
        → IfOk result (IsEndedOut F.ended F.kind follower.new c text.old text.new made) }
    ensures err { (c : Of) (made : List ℕ) → IsFollowed F.stands F.kind follower.old (Some c) made → IsTrace c.trace
        → IfErr result (IsHeldUp F.kind (Some c) true text.old text.new) }
{
    match follower {
        Some(follower) => Ok(follower.end(text)?),
        None => unreachable!(),
    }
}

impl<F: Follow> Live<F> {
    /// Takes no bytes yet. The formula has a stream.
    ///
    /// # Errors
    /// Want of memory.
    pub fn new(alloc: Global, formula: Formula, limits: Limits) -> Result<Live<F>, Memory>
        requires rows { limits.rows ≤ 2 ^ 32 }
        requires lines { limits.lines ≤ 2 ^ 33 }
        requires streamed { HasStream F.kind formula }
        ensures live { IfOk result (λ x. IsLive F.stands F.kind x [] []) }
        ensures limits { IfOk result (λ x. x.rows.limits ≡ limits) }
        ensures formula { IfOk result (λ x. x.formula ≡ formula) }
        ensures empty { IfOk result (λ x. x.text ≡ []) }
    {
        let rows = Rows::new(alloc, limits, formula.scale())?;
        Ok(Live {
            alloc,
            rows,
            formula,
            follower: None,
            text: Text::new(alloc),
        })
    }

    /// Takes some bytes of a piece, up to the header's line or a row's at most, and answers how many. The text of a row may be owed.
    fn step(&mut self, piece: &[u8]) -> Result<usize, StreamStop>
        requires { HasLivedOpen F.stands F.owes F.kind self.old }
        ensures taken { (bytes written : List ℕ) → IsLiveOpen F.stands F.owes F.kind self.old bytes written → MatchResult result
            (λ n. IsLiveOpen F.stands F.owes F.kind self.new (bytes ++ take n piece.now) written)
            (λ e. IsOpenStop F.stands F.owes F.kind self.old.rows.limits self.old.formula false
            (bytes ++ piece.now) self.new.follower (written ++ self.new.text) e) }
        ensures within { MatchResult result (λ n. n ≤ length piece.now) (λ _. Unit {0}) }
        ensures progress { MatchResult result (λ n. 0 < length piece.now → 0 < n) (λ _. Unit {0}) }
        ensures limits { self.new.rows.limits ≡ self.old.rows.limits }
        ensures formula { self.new.formula ≡ self.old.formula }
    {
        let took = match self.rows.push(next_bytes(&self.follower, piece)) {
            Ok(took) => took,
            Err(refusal) => return Err(StreamStop::Fault(TraceFault::Trace(refusal))),
        };
        match took.event {
            Event::Nothing => {}
            Event::Header => follow_on(
                &mut self.follower,
                self.alloc,
                &self.formula,
                self.rows.header(),
                self.rows.line(),
            )?,
            Event::Row => take_row(&mut self.follower, self.rows.row(), &mut self.text)?,
        }
        Ok(took.bytes)
    }

    /// Takes the rows that a piece begins with, and then bytes up to the header's line or a further row's at most. Answers how many they
    /// are. The text of the rows may be owed.
    fn advance(&mut self, piece: &[u8]) -> Result<usize, StreamStop>
        requires { HasLivedOpen F.stands F.owes F.kind self.old }
        ensures taken { (bytes written : List ℕ) → IsLiveOpen F.stands F.owes F.kind self.old bytes written → MatchResult result
            (λ n. IsLiveOpen F.stands F.owes F.kind self.new (bytes ++ take n piece.now) written)
            (λ e. IsOpenStop F.stands F.owes F.kind self.old.rows.limits self.old.formula false
            (bytes ++ piece.now) self.new.follower (written ++ self.new.text) e) }
        ensures within { MatchResult result (λ n. n ≤ length piece.now) (λ _. Unit {0}) }
        ensures progress { MatchResult result (λ n. 0 < length piece.now → 0 < n) (λ _. Unit {0}) }
        ensures limits { self.new.rows.limits ≡ self.old.rows.limits }
        ensures formula { self.new.formula ≡ self.old.formula }
    {
        let rows = take_rows(&mut self.rows, &mut self.follower, piece, &mut self.text)?;
        if rows == piece.len() {
            return Ok(rows);
        }
        let more = self.step(&piece[rows..])?;
        Ok(rows + more)
    }

    /// Takes all bytes of a piece. The text of its rows may be owed.
    fn take_piece(&mut self, piece: &[u8]) -> Result<(), StreamStop>
        requires { HasLivedOpen F.stands F.owes F.kind self.old }
        ensures taken { (bytes written : List ℕ) → IsLiveOpen F.stands F.owes F.kind self.old bytes written → MatchResult result
            (λ _. IsLiveOpen F.stands F.owes F.kind self.new (bytes ++ piece.now) written)
            (λ e. IsOpenStop F.stands F.owes F.kind self.old.rows.limits self.old.formula false
            (bytes ++ piece.now) self.new.follower (written ++ self.new.text) e) }
        ensures limits { self.new.rows.limits ≡ self.old.rows.limits }
        ensures formula { self.new.formula ≡ self.old.formula }
    {
        let mut at = 0;
        while at < piece.len() {
            at += self.advance(&piece[at..])?;
        }
        Ok(())
    }

    /// Takes all bytes of a piece. The text grows by what the rows in it answer.
    ///
    /// # Errors
    /// The bytes have a fault, and the text grew to that of the rows before it; a row needs too large a denominator, and so did the text;
    /// want of memory.
    pub fn feed(&mut self, piece: &[u8]) -> Result<(), StreamStop>
        requires { HasLived F.stands F.kind self.old }
        ensures taken { (bytes written : List ℕ) → IsLive F.stands F.kind self.old bytes written → MatchResult result
            (λ _. IsLive F.stands F.kind self.new (bytes ++ piece.now) written)
            (λ e. IsLiveStop F.kind self.old.rows.limits self.old.formula false (bytes ++ piece.now) (written ++ self.new.text) e) }
        ensures limits { self.new.rows.limits ≡ self.old.rows.limits }
        ensures formula { self.new.formula ≡ self.old.formula }
    {
        match self.take_piece(piece) {
            Ok(()) => flush(&mut self.follower, &mut self.text),
            Err(StreamStop::Fault(fault)) => {
                flush(&mut self.follower, &mut self.text)?;
                Err(StreamStop::Fault(fault))
            }
            Err(StreamStop::NoMemory) => Err(StreamStop::NoMemory),
            Err(StreamStop::Wide { node, den }) => Err(StreamStop::Wide { node, den }),
        }
    }

    /// Takes a last row without LF, where the bytes end here.
    fn last(&mut self) -> Result<(), StreamStop>
        requires { HasLived F.stands F.kind self.old }
        ensures formula { self.new.formula ≡ self.old.formula }
        ensures last { (bytes written : List ℕ) → IsLive F.stands F.kind self.old bytes written → MatchResult result
            (λ _. IsLastTaken F.stands F.kind self.old.rows.limits self.old.formula self.new.follower bytes (written ++ self.new.text))
            (λ e. IsLiveStop F.kind self.old.rows.limits self.old.formula true bytes (written ++ self.new.text) e) }
    {
        match self.rows.end() {
            Ok(Event::Row) => {
                take_row(&mut self.follower, self.rows.row(), &mut self.text)?;
                flush(&mut self.follower, &mut self.text)
            }
            Ok(Event::Nothing) => Ok(()),
            Ok(Event::Header) => unreachable!(),
            Err(refusal) => Err(last_fault(
                self.alloc,
                &self.rows,
                &self.follower,
                refusal,
                &self.formula,
            )),
        }
    }

    /// Takes the end of the bytes, with a last row that lacks its LF, and answers the verdict of the status. The text grows by what is left.
    ///
    /// # Errors
    /// As `feed`.
    pub fn finish(&mut self) -> Result<bool, StreamStop>
        requires { HasLived F.stands F.kind self.old }
        ensures formula { self.new.formula ≡ self.old.formula }
        ensures over { (bytes written : List ℕ) → IsLive F.stands F.kind self.old bytes written → MatchResult result
            (IsOver F.ended F.kind self.old.rows.limits self.old.formula self.new bytes (written ++ self.new.text))
            (λ e. IsLiveStop F.kind self.old.rows.limits self.old.formula true bytes (written ++ self.new.text) e) }
    {
        self.last()?;
        take_end(&mut self.follower, &mut self.text)
    }

    /// The formula that was given to `new`, in ticks of its own.
    pub fn formula(&self) -> &Formula
        ensures { result.now ≡ self.now.formula }
    {
        &self.formula
    }

    /// The text that was made since it was cleared.
    pub fn text(&self) -> &[u8]
        ensures { result.now ≡ self.now.text }
    {
        self.text.bytes()
    }

    /// What follows the rows, if the header was read.
    pub fn into_follower(self) -> Option<F>
        ensures { result ≡ self.follower }
    {
        self.follower
    }

    /// Lets go of the text, once it was written.
    pub fn clear(&mut self)
        ensures { self.new ≡ record self.old { text = [] } }
    {
        self.text.clear();
    }
}
