//! What is kept of the lines of a trace: the heading, the last row and their count.
use crate::field::{content_of, is_blank};
use crate::heading::read_heading;
use crate::room::{Heading, HeadingRoom};
use crate::two_rows::TwoRows;
use crate::{Event, Header, Limits, Row, Trace, TraceKind};
use frac128::Memory;
use std::alloc::Global;
use std::marker::Model;
use stl_syntax::Scale;

/// The header and the rows of a trace, line by line: the heading, the last row, and how many rows were read.
#[derive(Drop)]
pub(crate) struct Content {
    least: Scale,
    room: Option<HeadingRoom>,
    heading: Option<Heading>,
    rows: TwoRows,
    count: u64,
}

impl Model for Content {
    ghost use Rattle.trace_reader.specs.Progress.{Progress};

    ghost Value = { Progress };

    ghost use Rattle.trace_reader.specs.Content.{progress_of, IsContent};

    ghost view = { progress_of };

    ghost invariant = { IsContent };
}

impl Content {
    ghost use Rattle.std.specs.Prelude.{◌≡◌, ◌+◌, ◌^◌, ◌<◌, ◌≤◌, ◌++◌, ◌∷◌, [], List, Some, None, IsSome, IfOk};
    ghost use Rattle.std.specs.Prelude.{option_copied, option_map, length, true, false, MatchOption};
    ghost use Rattle.stl_syntax.specs.Trace.{Row as Values};
    ghost use Rattle.trace_reader.specs.TraceText.{is_blank_line, scale_of};
    ghost use Rattle.trace_reader.specs.Plain.{IsRowTaken};
    ghost use Rattle.trace_reader.specs.LineParts.{whole_line};
    ghost use Rattle.trace_reader.specs.Headings.{header_with};
    ghost use Rattle.trace_reader.specs.Progress.{ReadsLine, ReadsHeading, ReadsRow};

    /// Nothing read yet, in ticks that have at least the decimals of `least`; all memory is reserved.
    pub(crate) fn new(alloc: Global, least: Scale) -> Result<Content, Memory>
        requires { (least.time ≤ 6) × (least.value ≤ 6) }
        ensures { IfOk result (λ t. t ≡ record { least = least; heading = None; row = record { time = 0; values = [] }; count = 0; fresh = true }) }
    {
        Ok(Content {
            least,
            room: Some(HeadingRoom::new(alloc)?),
            heading: None,
            rows: TwoRows::new(),
            count: 0,
        })
    }

    /// How many rows were read.
    pub(crate) fn count(&self) -> u64
        ensures { result ≡ self.now.count }
    {
        self.count
    }

    /// The header, once it was read.
    pub(crate) fn header(&self) -> Option<&Header>
        ensures { option_copied result ≡ option_map (header_with self.now.least) self.now.heading }
    {
        match &self.heading {
            Some(heading) => Some(heading.header()),
            None => None,
        }
    }

    /// The heading, once it was read.
    pub(crate) fn heading(&self) -> Option<&Heading>
        ensures { MatchOption result (Unit {0}) (λ h. (self.now.heading ≡ Some h.now.heading) × (h.now.scale ≡ scale_of self.now.least h.now.heading)) }
    {
        match &self.heading {
            Some(heading) => Some(heading),
            None => None,
        }
    }

    /// The first time that the next row may have.
    pub(crate) fn next_time(&self) -> u64
        ensures { 0 < self.now.count → self.now.row.time < result }
    {
        if self.count == 0 {
            return 0;
        }
        u64::from(self.rows.last().time()) + 1
    }

    /// Takes note of `rows` more rows that were read straight into a trace, the last of which is the trace's last.
    pub(crate) fn pass(&mut self, rows: u64, trace: &Trace)
        requires count { self.old.count + rows < 2 ^ 64 }
        requires some { 0 < length trace.now.rows }
        requires narrow { length trace.now.header.columns ≤ 64 }
        ensures { (before : List Values) (r : Values) → trace.now.rows ≡ before ++ r ∷ []
            → self.new ≡ record self.old { row = r; count = self.old.count + rows } }
    {
        self.rows.set_last(trace);
        self.count += rows;
    }

    /// The row that was read last.
    pub(crate) fn row(&self) -> &Row
        ensures { result.now ≡ self.now.row }
    {
        self.rows.last()
    }

    /// Reads a whole line.
    ///
    /// # Errors
    /// What is wrong in the line. From then on no line may be read.
    pub(crate) fn read_line(&mut self, limits: &Limits, line: &[u8]) -> Result<Event, TraceKind>
        requires fresh { self.old.heading ≡ None → self.old.fresh ≡ true }
        requires size { length line.now ≤ 4096 }
        requires most { limits.now.rows ≤ 2 ^ 32 }
        ensures { ReadsLine limits.now line.now self.old self.new result }
    {
        let text = content_of(line);
        if is_blank(text) {
            return Ok(Event::Nothing);
        }
        if self.heading.is_none() {
            return self.read_as_heading(text);
        }
        self.read_as_row(limits, text)
    }

    /// Reads the text of a line that is the header.
    fn read_as_heading(&mut self, text: &[u8]) -> Result<Event, TraceKind>
        requires heading { self.old.heading ≡ None }
        requires fresh { self.old.fresh ≡ true }
        requires size { length text.now ≤ 4096 }
        ensures { ReadsHeading text.now self.old self.new result }
    {
        let Some(room) = self.room.take() else {
            unreachable!()
        };
        self.heading = Some(read_heading(room, self.least, text)?);
        Ok(Event::Header)
    }

    /// Reads the text of a line that is a row.
    fn read_as_row(&mut self, limits: &Limits, text: &[u8]) -> Result<Event, TraceKind>
        requires heading { IsSome self.old.heading }
        requires size { length text.now ≤ 4096 }
        requires most { limits.now.rows ≤ 2 ^ 32 }
        ensures { ReadsRow limits.now text.now self.old self.new result }
    {
        if self.count >= limits.rows {
            return Err(TraceKind::TooManyRows);
        }
        let Some(heading) = &self.heading else {
            unreachable!()
        };
        self.rows.read(heading, text)?;
        if self.count > 0 && self.rows.next().time() <= self.rows.last().time() {
            return Err(TraceKind::TimeNotRising);
        }
        self.rows.turn();
        self.count += 1;
        Ok(Event::Row)
    }

    /// Reads a line that the piece begins with, where it is a row of plain numbers without a fault, and answers how many bytes it
    /// has with its LF. Else nothing changes.
    #[inline(always)]
    pub(crate) fn read_plain(&mut self, limits: &Limits, piece: &[u8]) -> Option<usize>
        requires most { limits.now.rows ≤ 2 ^ 32 }
        ensures { MatchOption result (self.new ≡ self.old) (λ n. IsRowTaken limits.now piece.now n self.old self.new) }
    {
        if self.count >= limits.rows {
            return None;
        }
        let Some(heading) = &self.heading else {
            return None;
        };
        let size = self.rows.read_plain(heading, piece)?;
        if self.count != 0 && self.rows.next().time() <= self.rows.last().time() {
            return None;
        }
        self.rows.turn();
        self.count += 1;
        Some(size)
    }
}
