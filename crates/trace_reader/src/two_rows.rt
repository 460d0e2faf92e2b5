//! Two rows in turn: the last one, and room for the next.
use crate::room::Heading;
use crate::{Row, Trace, TraceKind};
use std::marker::Model;

/// The last row, and room for the one that is being read.
#[derive(Drop)]
pub(crate) struct TwoRows {
    first: Row,
    second: Row,
    turned: bool,
}

impl Model for TwoRows {
    ghost use Rattle.trace_reader.specs.Two.{Two, two_of};

    ghost Value = { Two };

    ghost view = { two_of };
}

impl TwoRows {
    ghost use Rattle.std.specs.Prelude.{◌≡◌, ◌<◌, ◌≤◌, ◌++◌, ◌∷◌, [], List, length, Some, MatchResult, MatchOption};
    ghost use Rattle.stl_syntax.specs.Trace.{Row as Values};
    ghost use Rattle.trace_reader.specs.Plain.{IsPlainRow};
    ghost use Rattle.trace_reader.specs.LineParts.{fields_of};
    ghost use Rattle.trace_reader.specs.RowLines.{IsRowRead, FieldFaults};

    /// Two rows at time 0 without values.
    pub(crate) fn new() -> TwoRows
        ensures { result.last ≡ record { time = 0; values = [] } }
    {
        TwoRows {
            first: Row::new(),
            second: Row::new(),
            turned: false,
        }
    }

    /// The row that was read last, of the two.
    pub(crate) fn last(&self) -> &Row
        ensures { result.now ≡ self.now.last }
    {
        if self.turned {
            &self.second
        } else {
            &self.first
        }
    }

    /// The row that is being read.
    pub(crate) fn next(&self) -> &Row
        ensures { result.now ≡ self.now.next }
    {
        if self.turned {
            &self.first
        } else {
            &self.second
        }
    }

    /// Reads the fields of a row.
    ///
    /// # Errors
    /// The first fault of the fields.
    pub(crate) fn read(&mut self, heading: &Heading, text: &[u8]) -> Result<(), TraceKind>
        requires { length text.now ≤ 4096 }
        ensures cases { MatchResult result
            (λ _. IsRowRead heading.now (fields_of (Some text.now)) self.new.next)
            (FieldFaults heading.now (fields_of (Some text.now))) }
        ensures last { self.new.last ≡ self.old.last }
    {
        if self.turned {
            return heading.read_row(&mut self.first, text);
        }
        heading.read_row(&mut self.second, text)
    }

    /// Reads a row of plain numbers that the piece begins with, and answers how many bytes it has with its LF.
    #[inline(never)]
    pub(crate) fn read_plain(&mut self, heading: &Heading, piece: &[u8]) -> Option<usize>
        ensures row { MatchOption result (Unit {0}) (λ n. IsPlainRow heading.now piece.now n self.new.next) }
        ensures last { self.new.last ≡ self.old.last }
    {
        if self.turned {
            return heading.plain_row(&mut self.first, piece);
        }
        heading.plain_row(&mut self.second, piece)
    }

    /// The last row becomes that of the trace.
    pub(crate) fn set_last(&mut self, trace: &Trace)
        requires some { 0 < length trace.now.rows }
        requires narrow { length trace.now.header.columns ≤ 64 }
        ensures { (before : List Values) (r : Values) → trace.now.rows ≡ before ++ r ∷ [] → self.new.last ≡ r }
    {
        if self.turned {
            return trace.copy_last(&mut self.second);
        }
        trace.copy_last(&mut self.first);
    }

    /// The row that was read becomes the last one.
    pub(crate) fn turn(&mut self)
        ensures { self.new.last ≡ self.old.next }
    {
        self.turned = !self.turned;
    }
}
