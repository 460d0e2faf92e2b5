//! The reader of a trace, piece by piece.
use crate::line_reader::LineReader;
use crate::{Event, Header, Limits, Row, Took, Trace, TraceRefusal};
use frac128::Memory;
use std::alloc::Global;
use std::marker::Model;
use stl_syntax::Scale;

/// Reads a trace piece by piece: its header, and rows of decimals at rising times.
/// The pieces may be cut anywhere; what is read, and the first fault, are those of all bytes.
#[derive(Drop)]
pub struct Rows {
    limits: Limits,
    reading: LineReader,
    refusal: Option<TraceRefusal>,
    ended: bool,
}

impl Model for Rows {
    ghost use Rattle.trace_reader.specs.Reader.{Reader};

    ghost Value = { Reader };

    ghost use Rattle.trace_reader.specs.ReaderParts.{reader_of, IsReader};

    ghost view = { reader_of };

    ghost invariant = { IsReader };
}

impl Rows {
    ghost use Rattle.std.specs.Prelude.{◌≡◌, ◌≢◌, ◌^◌, ◌<◌, ◌≤◌, List, [], ◌++◌, ℕ, take, length, Some, None};
    ghost use Rattle.std.specs.Prelude.{IsSome, IfOk, IfErr, OnOk, OnErr, MatchOption, Err, true, false};
    ghost use Rattle.stl_syntax.specs.Trace.{Row as Values};
    ghost use Rattle.trace_reader.specs.Feeds.{rows_after};
    ghost use Rattle.trace_reader.specs.TraceRefusals.{IsFirstFault};
    ghost use Rattle.trace_reader.specs.Reader.{StandsFor, IsFaultOfAll, HasReadBefore, HasCome, IsNextRow};
    ghost use Rattle.trace_reader.specs.Reader.{IsWholeTrace, HasWholeHeader, HasEndedWith, header_read};
    ghost use Rattle.trace_reader.specs.Taken.{HasTraceSoFar, AreRowsTaken, IsRowShort};
    ghost use Rattle.trace_reader.specs.declared.refusal.TraceKind.TheVariants.{Empty, NoRows};

    /// A reader of a trace with at most so many rows and lines, which has read nothing.
    /// Times and values are counted in ticks that have the decimals of the header and at least those of `least`.
    /// It reserves its memory, and the other calls take none.
    ///
    /// # Errors
    ///
    /// `Memory` where memory is wanting; the calls after it take none.
    pub fn new(alloc: Global, limits: Limits, least: Scale) -> Result<Rows, Memory>
        requires rows { limits.rows ≤ 2 ^ 32 }
        requires lines { limits.lines ≤ 2 ^ 33 }
        requires least { (least.time ≤ 6) × (least.value ≤ 6) }
        ensures limits { IfOk result (λ r. (r.limits ≡ limits) × (r.least ≡ least)) }
        ensures empty { IfOk result (λ r. StandsFor r [] []) }
    {
        Ok(Rows {
            limits,
            reading: LineReader::new(alloc, least)?,
            refusal: None,
            ended: false,
        })
    }

    /// Takes the bytes up to and with the LF of the first line that is the header or a row, or all where there is none.
    /// The event says which it was.
    ///
    /// # Errors
    /// The first fault of the bytes so far, with the piece. The lines before it hold the rows that came so far, and no other.
    /// From then on each call answers it again, and changes nothing.
    pub fn push(&mut self, piece: &[u8]) -> Result<Took, TraceRefusal>
        requires { self.old.ended ≡ false }

        // What was taken, and what came of it.
        ensures within { IfOk result (λ t. (t.bytes ≤ length piece.now) × (0 < length piece.now → 0 < t.bytes)) }
        ensures all { IfOk result (λ t. t.event ≡ Event.Nothing → t.bytes ≡ length piece.now) }
        ensures came { IfOk result (λ t. HasCome t.event self.old self.new (take t.bytes piece.now)) }
        ensures ok { IfOk result (λ t. (bytes : List ℕ) (rows : List Values) → StandsFor self.old bytes rows
            → StandsFor self.new (bytes ++ take t.bytes piece.now) (rows_after t.event rows self.new.row)) }
        ensures next { IfOk result (λ t. (bytes : List ℕ) (rows : List Values) → StandsFor self.old bytes rows
            → IsNextRow t.event self.new.heading rows self.new.row) }

        // A refusal is the first fault, and stays.
        ensures fault { IfErr result (λ x. (bytes : List ℕ) (rows : List Values) → StandsFor self.old bytes rows
            → IsFaultOfAll self.old.limits self.old.least (bytes ++ piece.now) x) }
        ensures before { IfErr result (λ x. (bytes : List ℕ) (rows : List Values) → StandsFor self.old bytes rows
            → HasReadBefore x.line self.old.heading self.old.least (bytes ++ piece.now) rows) }
        ensures err { IfErr result (λ x. self.new ≡ record self.old { begun = self.new.begun; line = self.new.line; refusal = Some x }) }
        ensures line { IfErr result (λ x. self.old.refusal ≡ None → x.line ≡ self.new.begun) }
        ensures again { MatchOption self.old.refusal (Unit {0}) (λ x. (result ≡ Err x) × (self.new ≡ self.old)) }
        ensures kept { (self.new.limits ≡ self.old.limits) × (self.new.least ≡ self.old.least) × (self.new.ended ≡ false) }
    {
        if let Some(refusal) = self.refusal {
            return Err(refusal);
        }
        match self.reading.take(&self.limits, piece) {
            Ok(took) => Ok(took),
            Err(refusal) => {
                self.refusal = Some(refusal);
                Err(refusal)
            }
        }
    }

    /// Takes rows that the piece begins with, as `push` would one after another, adds them to the trace of the rows so far, or of the last of
    /// them, and answers how many bytes they are. It may take none, and leaves each row for `push` that is not one of a few plain digits, each
    /// other line, and each fault.
    ///
    /// # Errors
    /// Want of memory is to be looked for, where the last row that was read is not in the trace; as it stands, a row that memory is
    /// wanting for is left for `push` too.
    pub fn take_rows(&mut self, piece: &[u8], trace: &mut Trace) -> Result<usize, Memory>
        requires { HasTraceSoFar self.old trace.old }
        ensures within { IfOk result (λ n. n ≤ length piece.now) }
        ensures rows { IfOk result (λ n. AreRowsTaken self.old self.new trace.old trace.new (take n piece.now)) }
        ensures short { OnErr result (IsRowShort self.old self.new trace.old trace.new piece.now) }
        ensures kept { (self.new.limits ≡ self.old.limits) × (self.new.least ≡ self.old.least) × (self.new.heading ≡ self.old.heading) }
    {
        Ok(self.reading.take_rows(&self.limits, piece, trace))
    }

    /// Reads a last line without LF. The event is Row where it is a row, and else Nothing.
    /// Where the answer is NoRows the header was read, also where this last line is the header.
    ///
    /// # Errors
    /// The first fault of all bytes, which end here. Where it is the fault of a line, the lines before it hold the rows that came so far, and no
    /// other. From then on each call answers it again, and changes nothing.
    pub fn end(&mut self) -> Result<Event, TraceRefusal>
        requires { self.old.ended ≡ false }

        // What the bytes are, all of them.
        ensures ok { IfOk result (λ e. (bytes : List ℕ) (rows : List Values) → StandsFor self.old bytes rows
            → IsWholeTrace self.new bytes (rows_after e rows self.new.row)) }
        ensures next { IfOk result (λ e. (bytes : List ℕ) (rows : List Values) → StandsFor self.old bytes rows
            → IsNextRow e self.new.heading rows self.new.row) }
        ensures event { IfOk result (λ e. HasEndedWith e self.new) }

        // A refusal is the first fault, and stays.
        ensures fault { IfErr result (λ x. (bytes : List ℕ) (rows : List Values) → StandsFor self.old bytes rows
            → IsFirstFault bytes true self.old.limits self.old.least x) }
        ensures before { IfErr result (λ x. x.kind ≢ Empty → x.kind ≢ NoRows → (bytes : List ℕ) (rows : List Values) → StandsFor self.old bytes rows
            → HasReadBefore x.line self.old.heading self.old.least bytes rows) }
        ensures header { IfErr result (λ x. x.kind ≡ NoRows → (bytes : List ℕ) (rows : List Values) → StandsFor self.old bytes rows
            → HasWholeHeader self.new bytes) }
        ensures err { IfErr result (λ x. self.new.refusal ≡ Some x) }
        ensures line { IfErr result (λ x. self.old.refusal ≡ None → x.line ≡ self.new.begun) }
        ensures again { MatchOption self.old.refusal (Unit {0}) (λ x. (result ≡ Err x) × (self.new ≡ self.old)) }
        ensures kept { (self.new.limits ≡ self.old.limits) × (self.new.least ≡ self.old.least) × (self.new.begun ≡ self.old.begun) }
        ensures ended { OnOk result (self.new.ended ≡ true) }
        ensures goes_on { OnErr result (self.new.ended ≡ false) }
    {
        if let Some(refusal) = self.refusal {
            return Err(refusal);
        }
        match self.reading.last(&self.limits) {
            Ok(event) => {
                self.ended = true;
                Ok(event)
            }
            Err(refusal) => {
                self.refusal = Some(refusal);
                Err(refusal)
            }
        }
    }

    /// How many lines were begun.
    pub fn line(&self) -> u64
        ensures { result ≡ self.now.begun }
    {
        self.reading.lines.begun()
    }

    /// The header, once it was read.
    pub fn header(&self) -> &Header
        requires { IsSome self.now.heading }
        ensures { header_read self.now ≡ Some result.now }
    {
        match self.reading.content.header() {
            Some(header) => header,
            None => unreachable!(),
        }
    }

    /// The last row, once one was read.
    pub fn row(&self) -> &Row
        requires { 0 < self.now.count }
        ensures { result.now ≡ self.now.row }
    {
        self.reading.content.row()
    }
}
