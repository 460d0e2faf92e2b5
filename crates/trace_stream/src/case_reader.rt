//! Reading the trace of a formula from the pieces of its bytes.
ghost use Rattle.std.specs.Prelude.{◌≡◌, ◌^◌, ◌<◌, ◌≤◌, List, ℕ, [], ◌++◌, length, take, true, false};
ghost use Rattle.std.specs.Prelude.{Option, Some, option_map, MatchResult, MatchOption, IfOk, IfErr, OnOk};
ghost use Rattle.stl_syntax.specs.Formula.{Formula as Parsed};
ghost use Rattle.stl_syntax.specs.WellFormed.{IsScale};
ghost use Rattle.trace_reader.specs.TraceText.{Heading, scale_of};
ghost use Rattle.trace_reader.specs.Reader.{header_of};
ghost use Rattle.trace_reader.specs.Feeds.{through_feed};
ghost use Rattle.trace_reader.specs.declared.refusal.TraceKind.TheVariants.{NoRows};
ghost use Rattle.trace_stream.specs.Cases.{IsBegun, IsNoBegin, CanKeep, with_row};
ghost use Rattle.trace_stream.specs.CaseReader.{IsRefused, HasHeader, IsLastFault};
ghost use Rattle.trace_stream.specs.Kept.{StandsForCase, IsKeptAs, HasKeptAs, IsEndedAs};
ghost use Rattle.trace_stream.specs.declared.case.Case.{Case as Of};

use crate::case::begin;
use crate::fault::{StreamStop, TraceFault};
use crate::keep::Keep;
use frac128::Memory;
use memchr::memchr;
use std::alloc::Global;
use stl_syntax::Formula;
use trace_reader::{Event, Header, Limits, Row, Rows, TraceKind, TraceRefusal};

/// The bytes of a piece up to and with its first LF, or all where there is none.
fn first_line(piece: &[u8]) -> &[u8]
    ensures line { result.now ≡ through_feed piece.now }
    ensures short { length result.now ≤ length piece.now }
    ensures some { 0 < length piece.now → 0 < length result.now }
{
    match memchr(b'\n', piece) {
        Some(at) => &piece[..at + 1],
        None => piece,
    }
}

/// The bytes of a piece to read next: of one line at most, where nothing was begun by the header yet. So it is seen before anything of a
/// later line.
pub(crate) fn next_bytes<'a, T>(begun: &Option<T>, piece: &'a [u8]) -> &'a [u8]
    ensures line { MatchOption begun.now (result.now ≡ through_feed piece.now) (λ _. result.now ≡ piece.now) }
    ensures short { length result.now ≤ length piece.now }
    ensures some { 0 < length piece.now → 0 < length result.now }
{
    if begun.is_some() {
        return piece;
    }
    first_line(piece)
}

/// The first fault of all bytes, where the reader ended with this one: a header without rows may lack something too.
pub(crate) fn last_fault<T>(
    alloc: Global,
    rows: &Rows,
    begun: &Option<T>,
    refusal: TraceRefusal,
    formula: &Formula,
) -> StreamStop
    requires { refusal.kind ≡ NoRows → HasHeader formula.now rows.now }
    ensures { IsLastFault formula.now rows.now begun.now refusal result }
{
    let own = StreamStop::Fault(TraceFault::Trace(refusal));
    let TraceKind::NoRows = refusal.kind else {
        return own;
    };
    if begun.is_some() {
        return own;
    }
    if let Err(stop) = begin(alloc, formula, rows.header(), refusal.line) {
        return stop;
    }
    own
}

/// Keeps what comes of a trace from its header, in line `line`, on.
#[inline(never)]
fn keep_on<K: Keep>(
    kept: &mut Option<K>,
    alloc: Global,
    formula: &Formula,
    header: &Header,
    line: u64,
) -> Result<(), StreamStop>
    requires { (h : Heading) × (header.now ≡ header_of formula.now.scale h) × IsScale (scale_of formula.now.scale h) }
    ensures { (h : Heading) → header.now ≡ header_of formula.now.scale h
        → MatchResult result (λ _. (case : Of) × IsBegun formula.now line h case × StandsForCase K.stands kept.new (Some case))
        (IsNoBegin formula.now line h) }
{
    let case = begin(alloc, formula, header, line)?;
    *kept = Some(K::begin(alloc, case)?);
    Ok(())
}

/// Keeps a row, once the header was read.
#[inline(always)]
fn keep_row<K: Keep>(kept: &mut Option<K>, row: &Row) -> Result<(), StreamStop>
    requires { (case : Option Of) × StandsForCase K.stands kept.old case × CanKeep case row.now }
    ensures ok { OnOk result ((case : Option Of) → StandsForCase K.stands kept.old case → CanKeep case row.now
        → StandsForCase K.stands kept.new (option_map (with_row row.now) case)) }
    ensures err { IfErr result (λ e. e ≡ StreamStop.NoMemory) }
{
    match kept {
        Some(kept) => Ok(kept.row(row)?),
        None => unreachable!(),
    }
}

/// Takes rows that the piece begins with, once the header was read, and answers how many bytes they are.
fn take_rows<K: Keep>(
    rows: &mut Rows,
    kept: &mut Option<K>,
    piece: &[u8],
) -> Result<usize, StreamStop>
    requires { (f : Parsed) × HasKeptAs K.stands f rows.old kept.old }
    ensures taken { IfOk result (λ n. (f : Parsed) (bytes : List ℕ) → IsKeptAs K.stands f rows.old kept.old bytes
        → IsKeptAs K.stands f rows.new kept.new (bytes ++ take n piece.now)) }
    ensures within { IfOk result (λ n. n ≤ length piece.now) }
    ensures memory { IfErr result (λ e. e ≡ StreamStop.NoMemory) }
    ensures limits { rows.new.limits ≡ rows.old.limits }
{
    match kept {
        Some(kept) => Ok(kept.take_rows(rows, piece)?),
        None => Ok(0),
    }
}

/// A reader, and what is kept of the trace that it has read.
///
/// `IsKeptAs` says when it stands for the bytes that it took. After a refusal no more is asked of it.
#[derive(Drop)]
pub struct CaseReader<K> {
    rows: Rows,
    kept: Option<K>,
}

impl<K: Keep> CaseReader<K> {
    /// Takes no bytes yet.
    ///
    /// # Errors
    /// Want of memory.
    pub fn new(alloc: Global, formula: &Formula, limits: Limits) -> Result<CaseReader<K>, Memory>
        requires rows { limits.rows ≤ 2 ^ 32 }
        requires lines { limits.lines ≤ 2 ^ 33 }
        ensures kept { IfOk result (λ x. IsKeptAs K.stands formula.now x.rows x.kept []) }
        ensures limits { IfOk result (λ x. x.rows.limits ≡ limits) }
    {
        let rows = Rows::new(alloc, limits, formula.scale())?;
        Ok(CaseReader { rows, kept: None })
    }

    /// Takes some bytes of a piece, up to the header's line or a row's at most, and answers how many.
    fn step(&mut self, alloc: Global, piece: &[u8], formula: &Formula) -> Result<usize, StreamStop>
        requires { HasKeptAs K.stands formula.now self.old.rows self.old.kept }
        ensures taken { (bytes : List ℕ) → IsKeptAs K.stands formula.now self.old.rows self.old.kept bytes → MatchResult result
            (λ n. IsKeptAs K.stands formula.now self.new.rows self.new.kept (bytes ++ take n piece.now))
            (λ e. IsRefused self.old.rows.limits formula.now false (bytes ++ piece.now) e) }
        ensures within { MatchResult result (λ n. n ≤ length piece.now) (λ _. Unit {0}) }
        ensures progress { MatchResult result (λ n. 0 < length piece.now → 0 < n) (λ _. Unit {0}) }
        ensures limits { self.new.rows.limits ≡ self.old.rows.limits }
    {
        let took = match self.rows.push(next_bytes(&self.kept, piece)) {
            Ok(took) => took,
            Err(refusal) => return Err(StreamStop::Fault(TraceFault::Trace(refusal))),
        };
        match took.event {
            Event::Nothing => {}
            Event::Header => keep_on(
                &mut self.kept,
                alloc,
                formula,
                self.rows.header(),
                self.rows.line(),
            )?,
            Event::Row => keep_row(&mut self.kept, self.rows.row())?,
        }
        Ok(took.bytes)
    }

    /// Takes the rows that a piece begins with, and then bytes up to the header's line or a further row's at most. Answers how many they are.
    fn advance(
        &mut self,
        alloc: Global,
        piece: &[u8],
        formula: &Formula,
    ) -> Result<usize, StreamStop>
        requires { HasKeptAs K.stands formula.now self.old.rows self.old.kept }
        ensures taken { (bytes : List ℕ) → IsKeptAs K.stands formula.now self.old.rows self.old.kept bytes → MatchResult result
            (λ n. IsKeptAs K.stands formula.now self.new.rows self.new.kept (bytes ++ take n piece.now))
            (λ e. IsRefused self.old.rows.limits formula.now false (bytes ++ piece.now) e) }
        ensures within { MatchResult result (λ n. n ≤ length piece.now) (λ _. Unit {0}) }
        ensures progress { MatchResult result (λ n. 0 < length piece.now → 0 < n) (λ _. Unit {0}) }
        ensures limits { self.new.rows.limits ≡ self.old.rows.limits }
    {
        let rows = take_rows(&mut self.rows, &mut self.kept, piece)?;
        let more = self.step(alloc, &piece[rows..], formula)?;
        Ok(rows + more)
    }

    /// Takes all bytes of a piece of the trace of the formula.
    ///
    /// # Errors
    /// The bytes have a fault for the formula; want of memory.
    pub fn feed(&mut self, alloc: Global, piece: &[u8], formula: &Formula) -> Result<(), StreamStop>
        requires { HasKeptAs K.stands formula.now self.old.rows self.old.kept }
        ensures taken { (bytes : List ℕ) → IsKeptAs K.stands formula.now self.old.rows self.old.kept bytes → MatchResult result
            (λ _. IsKeptAs K.stands formula.now self.new.rows self.new.kept (bytes ++ piece.now))
            (λ e. IsRefused self.old.rows.limits formula.now false (bytes ++ piece.now) e) }
        ensures limits { self.new.rows.limits ≡ self.old.rows.limits }
    {
        let mut at = 0;
        while at < piece.len() {
            at += self.advance(alloc, &piece[at..], formula)?;
        }
        Ok(())
    }

    /// Keeps a last row without LF, where the bytes end here.
    ///
    /// # Errors
    /// As `feed`.
    pub fn finish(&mut self, alloc: Global, formula: &Formula) -> Result<(), StreamStop>
        requires { HasKeptAs K.stands formula.now self.old.rows self.old.kept }
        ensures { (bytes : List ℕ) → IsKeptAs K.stands formula.now self.old.rows self.old.kept bytes → MatchResult result
            (λ _. MatchOption self.new.kept ⊥ (IsEndedAs K.stands self.old.rows.limits formula.now bytes))
            (λ e. IsRefused self.old.rows.limits formula.now true bytes e) }
    {
        match self.rows.end() {
            Ok(Event::Row) => keep_row(&mut self.kept, self.rows.row()),
            Ok(Event::Nothing) => Ok(()),
            Ok(Event::Header) => unreachable!(),
            Err(refusal) => Err(last_fault(alloc, &self.rows, &self.kept, refusal, formula)),
        }
    }

    /// What was kept of the trace, once the header was read.
    pub fn into_kept(self) -> Option<K>
        ensures { result ≡ self.kept }
    {
        let CaseReader { rows: _rows, kept } = self;
        kept
    }
}
