//! The lines of a trace one after another, and what they come to.
use crate::content::Content;
use crate::line::{LineFault, Lines};
use crate::{Event, Limits, Took, Trace, TraceKind, TraceRefusal};
use frac128::Memory;
use memchr::memchr;
use std::alloc::Global;
use stl_syntax::Scale;

/// The lines of a trace, and what they came to.
#[derive(Drop)]
pub(crate) struct LineReader {
    pub(crate) lines: Lines,
    pub(crate) content: Content,
}

ghost use Rattle.std.specs.Prelude.{◌≡◌, ◌≢◌, ◌+◌, ◌^◌, ◌<◌, ◌≤◌, ◌++◌, [], ℕ, List, Bool, Some, None, true};
ghost use Rattle.std.specs.Prelude.{false, length, take, IsSome, IfOk, IfErr, OnOk, OnErr, MatchOption};
ghost use Rattle.stl_syntax.specs.Trace.{Row as Values};
ghost use Rattle.trace_reader.specs.Feeds.{through_feed, rows_after};
ghost use Rattle.trace_reader.specs.Reader.{StandsFor, IsFaultOfAll, HasReadBefore, HasCome, IsNextRow, header_of};
ghost use Rattle.trace_reader.specs.Taken.{HasTraceSoFar, AreRowsTaken};

impl LineReader {
    ghost use Rattle.trace_reader.specs.LineReader.{state, IsWithin, IsStart, Holds, ReadsLineAt, Finishes, HasEnded, IsWhole, IsEnd, HasHeader};
    ghost use Rattle.trace_reader.specs.TraceRefusals.{IsFirstFault};
    ghost use Rattle.trace_reader.specs.declared.refusal.TraceKind.TheVariants.{Empty, NoRows};
    ghost use Rattle.trace_reader.specs.Progress.{ReadsLine};
    ghost use Rattle.trace_reader.specs.Plain.{IsRowTaken};
    ghost use Rattle.trace_reader.specs.Cut.{begun_after, kind_of};

    /// Nothing read yet; all memory is reserved.
    pub(crate) fn new(alloc: Global, least: Scale) -> Result<LineReader, Memory>
        requires { (least.time ≤ 6) × (least.value ≤ 6) }
        ensures { IfOk result (IsStart least) }
    {
        Ok(LineReader {
            lines: Lines::new(alloc)?,
            content: Content::new(alloc, least)?,
        })
    }

    /// The refusal of the last line that was begun.
    fn refusal(&self, kind: TraceKind) -> TraceRefusal
        ensures { result ≡ record { line = self.now.lines.begun; kind = kind } }
    {
        TraceRefusal {
            line: self.lines.begun(),
            kind,
        }
    }

    /// The refusal of a line that breaks a limit.
    fn broken(&self, fault: LineFault) -> TraceRefusal
        ensures { result ≡ record { line = self.now.lines.begun; kind = kind_of fault } }
    {
        match fault {
            LineFault::TooMany => self.refusal(TraceKind::TooManyLines),
            LineFault::TooLong => self.refusal(TraceKind::LineTooLong),
        }
    }

    /// Takes bytes of a line that goes on.
    fn hold(&mut self, limits: &Limits, part: &[u8]) -> Result<(), TraceRefusal>
        requires { IsWithin limits.now self.old }
        ensures held { Holds limits.now part.now self.old self.new result }
        ensures begun { self.new.lines.begun ≡ begun_after self.old.lines.begun self.old.lines.line (length part.now) }
        ensures content { self.new.content ≡ self.old.content }
    {
        let size = part.len();
        match self.lines.admit(limits.lines, size, size) {
            Ok(()) => {
                self.lines.add(part);
                Ok(())
            }
            Err(fault) => Err(self.broken(fault)),
        }
    }

    /// Takes the last bytes of a line before its LF, and reads the line.
    fn finish(&mut self, limits: &Limits, part: &[u8]) -> Result<Event, TraceRefusal>
        requires within { IsWithin limits.now self.old }
        requires fits { length part.now + 1 < 2 ^ 64 }
        ensures finished { Finishes limits.now part.now self.old self.new result }
        ensures begun { self.new.lines.begun ≡ begun_after self.old.lines.begun self.old.lines.line (length part.now + 1) }
    {
        let size = part.len();
        match self.lines.admit(limits.lines, size + 1, size) {
            Ok(()) => self.close(limits, part),
            Err(fault) => Err(self.broken(fault)),
        }
    }

    /// Reads the line that these bytes make whole.
    fn close(&mut self, limits: &Limits, part: &[u8]) -> Result<Event, TraceRefusal>
        requires rows { limits.now.rows ≤ 2 ^ 32 }
        requires short { length self.old.lines.line + length part.now ≤ 4096 }
        requires fresh { self.old.content.heading ≡ None → self.old.content.fresh ≡ true }
        ensures read { ReadsLineAt limits.now self.old.lines.begun (self.old.lines.line ++ part.now) self.old.content self.new.content result }
        ensures lines { self.new.lines ≡ record self.old.lines { line = [] } }
    {
        match self.read_line(limits, part) {
            Ok(event) => Ok(event),
            Err(kind) => Err(self.refusal(kind)),
        }
    }

    /// Reads the line that these bytes make whole, in place where it is all in one piece.
    fn read_line(&mut self, limits: &Limits, part: &[u8]) -> Result<Event, TraceKind>
        requires rows { limits.now.rows ≤ 2 ^ 32 }
        requires short { length self.old.lines.line + length part.now ≤ 4096 }
        requires fresh { self.old.content.heading ≡ None → self.old.content.fresh ≡ true }
        ensures read { ReadsLine limits.now (self.old.lines.line ++ part.now) self.old.content self.new.content result }
        ensures lines { self.new.lines ≡ record self.old.lines { line = [] } }
    {
        if self.lines.is_between() {
            return self.content.read_line(limits, part);
        }
        self.lines.add(part);
        let answer = self.content.read_line(limits, self.lines.bytes());
        self.lines.clear();
        answer
    }

    /// Takes the line that the piece begins with, where it is a row of plain numbers without a fault. Else nothing changes.
    #[inline(always)]
    fn take_plain(&mut self, limits: &Limits, piece: &[u8]) -> Option<usize>
        requires { IsWithin limits.now self.old }
        ensures row { MatchOption result (self.new ≡ self.old) (λ n. IsRowTaken limits.now piece.now n self.old.content self.new.content) }
        ensures lines { MatchOption result (Unit {0}) (λ _. (self.old.lines.line ≡ [])
            × (self.new.lines ≡ record { begun = self.old.lines.begun + 1; line = [] }) × (self.new.lines.begun ≤ limits.now.lines)) }
    {
        if !self.lines.is_between() || self.lines.begun() >= limits.lines {
            return None;
        }
        let size = self.content.read_plain(limits, piece)?;
        self.lines.pass(1);
        Some(size)
    }

    /// How many rows the limits allow behind the last one, where no line is open; else none.
    fn rows_left(&self, limits: &Limits) -> u64
        requires { IsWithin limits.now self.now }
        ensures between { 0 < result → self.now.lines.line ≡ [] }
        ensures lines { self.now.lines.begun + result ≤ limits.now.lines }
        ensures rows { 0 < result → self.now.content.count + result ≤ limits.now.rows }
    {
        let count = self.content.count();
        if !self.lines.is_between() || count >= limits.rows {
            return 0;
        }
        (limits.rows - count).min(limits.lines - self.lines.begun())
    }

    /// Takes rows of plain numbers without a fault that the piece begins with, adds them to the trace, and answers how many bytes they are.
    pub(crate) fn take_rows(&mut self, limits: &Limits, piece: &[u8], trace: &mut Trace) -> usize
        requires within { IsWithin limits.now self.old }
        requires so_far { HasTraceSoFar (state limits.now self.old) trace.old }
        ensures size { result ≤ length piece.now }
        ensures rows { AreRowsTaken (state limits.now self.old) (state limits.now self.new) trace.old trace.new (take result piece.now) }
        ensures within { IsWithin limits.now self.new }
        ensures kept { (self.new.content.heading ≡ self.old.content.heading) × (self.new.content.least ≡ self.old.content.least) }
    {
        let most = self.rows_left(limits);
        let Some(heading) = self.content.heading() else {
            return 0;
        };
        let block = heading.take_rows(piece, most, self.content.next_time(), trace);
        if block.rows == 0 {
            return 0;
        }
        self.lines.pass(block.rows);
        self.content.pass(block.rows, trace);
        block.bytes
    }

    /// Looks for the first LF, and takes the bytes up to and with it, or all where there is none.
    fn find_line(&mut self, limits: &Limits, piece: &[u8]) -> Result<Took, TraceRefusal>
        requires { IsWithin limits.now self.old }
        ensures bytes { IfOk result (λ t. take t.bytes piece.now ≡ through_feed piece.now) }
        ensures size { IfOk result (λ t. (t.bytes ≤ length piece.now) × (0 < length piece.now → 0 < t.bytes)) }
        ensures came { IfOk result (λ t. HasCome t.event (state limits.now self.old) (state limits.now self.new) (through_feed piece.now)) }
        ensures ok { IfOk result (λ t. (bytes : List ℕ) (rows : List Values) → StandsFor (state limits.now self.old) bytes rows
            → StandsFor (state limits.now self.new) (bytes ++ through_feed piece.now) (rows_after t.event rows self.new.content.row)) }
        ensures within { OnOk result (IsWithin limits.now self.new) }
        ensures fault { IfErr result (λ x. (bytes : List ℕ) (rows : List Values) → StandsFor (state limits.now self.old) bytes rows
            → IsFaultOfAll limits.now self.old.content.least (bytes ++ through_feed piece.now) x) }
        ensures before { IfErr result (λ x. (bytes : List ℕ) (rows : List Values) → StandsFor (state limits.now self.old) bytes rows
            → HasReadBefore x.line self.old.content.heading self.old.content.least (bytes ++ through_feed piece.now) rows) }
        ensures line { IfErr result (λ x. x.line ≡ self.new.lines.begun) }
        ensures content { OnErr result (self.new.content ≡ record self.old.content { fresh = self.new.content.fresh }) }
        ensures least { self.new.content.least ≡ self.old.content.least }
    {
        match memchr(b'\n', piece) {
            None => {
                self.hold(limits, piece)?;
                Ok(Took {
                    bytes: piece.len(),
                    event: Event::Nothing,
                })
            }
            Some(at) => {
                let event = self.finish(limits, &piece[..at])?;
                Ok(Took {
                    bytes: at + 1,
                    event,
                })
            }
        }
    }

    /// Takes the bytes up to and with the first LF, or all where there is none.
    fn take_line(&mut self, limits: &Limits, piece: &[u8]) -> Result<Took, TraceRefusal>
        requires { IsWithin limits.now self.old }
        ensures bytes { IfOk result (λ t. take t.bytes piece.now ≡ through_feed piece.now) }
        ensures size { IfOk result (λ t. (t.bytes ≤ length piece.now) × (0 < length piece.now → 0 < t.bytes)) }
        ensures came { IfOk result (λ t. HasCome t.event (state limits.now self.old) (state limits.now self.new) (through_feed piece.now)) }
        ensures ok { IfOk result (λ t. (bytes : List ℕ) (rows : List Values) → StandsFor (state limits.now self.old) bytes rows
            → StandsFor (state limits.now self.new) (bytes ++ through_feed piece.now) (rows_after t.event rows self.new.content.row)) }
        ensures within { OnOk result (IsWithin limits.now self.new) }
        ensures fault { IfErr result (λ x. (bytes : List ℕ) (rows : List Values) → StandsFor (state limits.now self.old) bytes rows
            → IsFaultOfAll limits.now self.old.content.least (bytes ++ through_feed piece.now) x) }
        ensures before { IfErr result (λ x. (bytes : List ℕ) (rows : List Values) → StandsFor (state limits.now self.old) bytes rows
            → HasReadBefore x.line self.old.content.heading self.old.content.least (bytes ++ through_feed piece.now) rows) }
        ensures line { IfErr result (λ x. x.line ≡ self.new.lines.begun) }
        ensures content { OnErr result (self.new.content ≡ record self.old.content { fresh = self.new.content.fresh }) }
        ensures least { self.new.content.least ≡ self.old.content.least }
    {
        match self.take_plain(limits, piece) {
            Some(bytes) => Ok(Took {
                bytes,
                event: Event::Row,
            }),
            None => self.find_line(limits, piece),
        }
    }

    /// Takes the bytes up to and with the LF of the first line that is the header or a row, or all where there is none.
    pub(crate) fn take(&mut self, limits: &Limits, piece: &[u8]) -> Result<Took, TraceRefusal>
        requires { IsWithin limits.now self.old }
        ensures size { IfOk result (λ t. (t.bytes ≤ length piece.now) × (0 < length piece.now → 0 < t.bytes)) }
        ensures all { IfOk result (λ t. t.event ≡ Event.Nothing → t.bytes ≡ length piece.now) }
        ensures came { IfOk result (λ t. HasCome t.event (state limits.now self.old) (state limits.now self.new) (take t.bytes piece.now)) }
        ensures ok { IfOk result (λ t. (bytes : List ℕ) (rows : List Values) → StandsFor (state limits.now self.old) bytes rows
            → StandsFor (state limits.now self.new) (bytes ++ take t.bytes piece.now) (rows_after t.event rows self.new.content.row)) }
        ensures within { OnOk result (IsWithin limits.now self.new) }
        ensures fault { IfErr result (λ x. (bytes : List ℕ) (rows : List Values) → StandsFor (state limits.now self.old) bytes rows
            → IsFaultOfAll limits.now self.old.content.least (bytes ++ piece.now) x) }
        ensures before { IfErr result (λ x. (bytes : List ℕ) (rows : List Values) → StandsFor (state limits.now self.old) bytes rows
            → HasReadBefore x.line self.old.content.heading self.old.content.least (bytes ++ piece.now) rows) }
        ensures line { IfErr result (λ x. x.line ≡ self.new.lines.begun) }
        ensures content { OnErr result (self.new.content ≡ record self.old.content { fresh = self.new.content.fresh }) }
        ensures least { self.new.content.least ≡ self.old.content.least }
    {
        let mut at = 0;
        while at < piece.len() {
            let took = self.take_line(limits, &piece[at..])?;
            at += took.bytes;
            match took.event {
                Event::Nothing => {}
                event => return Ok(Took { bytes: at, event }),
            }
        }
        Ok(Took {
            bytes: at,
            event: Event::Nothing,
        })
    }

    /// Reads the bytes of a last line, where there are any.
    fn close_last(&mut self, limits: &Limits) -> Result<Event, TraceRefusal>
        requires { IsWithin limits.now self.old }
        ensures ok { IfOk result (λ e. (bytes : List ℕ) (rows : List Values) → StandsFor (state limits.now self.old) bytes rows
            → HasEnded limits.now self.new.content self.new.lines.begun bytes (rows_after e rows self.new.content.row)) }
        ensures row { IfOk result (λ e. e ≡ Event.Row → IsSome self.old.content.heading × (0 < self.new.content.count)) }
        ensures fault { IfErr result (λ x. (bytes : List ℕ) (rows : List Values) → StandsFor (state limits.now self.old) bytes rows
            → IsFirstFault bytes true limits.now self.old.content.least x) }
        ensures before { IfErr result (λ x. (bytes : List ℕ) (rows : List Values) → StandsFor (state limits.now self.old) bytes rows
            → HasReadBefore x.line self.old.content.heading self.old.content.least bytes rows) }
        ensures line { IfErr result (λ x. x.line ≡ self.new.lines.begun) }
        ensures kind { IfErr result (λ x. x.kind ≢ NoRows) }
        ensures content { OnErr result (self.new.content ≡ record self.old.content { fresh = self.new.content.fresh }) }
        ensures begun { self.new.lines.begun ≡ self.old.lines.begun }
        ensures least { self.new.content.least ≡ self.old.content.least }
    {
        if self.lines.is_between() {
            return Ok(Event::Nothing);
        }
        self.close(limits, &[])
    }

    /// Reads the bytes of a last line, where there are any, and the whole.
    pub(crate) fn last(&mut self, limits: &Limits) -> Result<Event, TraceRefusal>
        requires { IsWithin limits.now self.old }
        ensures ok { IfOk result (λ e. (bytes : List ℕ) (rows : List Values) → StandsFor (state limits.now self.old) bytes rows
            → IsWhole limits.now self.new.content bytes (rows_after e rows self.new.content.row)) }
        ensures next { IfOk result (λ e. (bytes : List ℕ) (rows : List Values) → StandsFor (state limits.now self.old) bytes rows
            → IsNextRow e self.new.content.heading rows self.new.content.row) }
        ensures event { IfOk result (λ e. IsEnd e self.new.content) }
        ensures fault { IfErr result (λ x. (bytes : List ℕ) (rows : List Values) → StandsFor (state limits.now self.old) bytes rows
            → IsFirstFault bytes true limits.now self.old.content.least x) }
        ensures before { IfErr result
            (λ x. x.kind ≢ Empty → x.kind ≢ NoRows → (bytes : List ℕ) (rows : List Values) → StandsFor (state limits.now self.old) bytes rows
            → HasReadBefore x.line self.old.content.heading self.old.content.least bytes rows) }
        ensures header { IfErr result (λ x. x.kind ≡ NoRows → (bytes : List ℕ) (rows : List Values) → StandsFor (state limits.now self.old) bytes rows
            → HasHeader self.new.content bytes) }
        ensures line { IfErr result (λ x. x.line ≡ self.new.lines.begun) }
        ensures begun { self.new.lines.begun ≡ self.old.lines.begun }
        ensures least { self.new.content.least ≡ self.old.content.least }
    {
        let event = self.close_last(limits)?;
        if self.content.header().is_none() {
            return Err(self.refusal(TraceKind::Empty));
        }
        if self.content.count() == 0 {
            return Err(self.refusal(TraceKind::NoRows));
        }
        match event {
            Event::Row => Ok(Event::Row),
            _ => Ok(Event::Nothing),
        }
    }
}
