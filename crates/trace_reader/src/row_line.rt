//! Reads the fields of a row.
ghost use Rattle.std.specs.Prelude.{◌≡◌, ◌≤◌, length, take};

use crate::field::{count_fields, cut_field};
use crate::number::{read_time, read_value};
use crate::plain::{line_end, plain_time, plain_value};
use crate::room::Heading;
use crate::{Row, Trace, TraceKind};

/// A piece of so many bytes at most is copied before it is read in place, since a number is read in place where bytes stand behind it.
const SHORT: usize = 128;

/// Room for a short piece, and for as many bytes behind it as a number may want.
const ROOM: usize = 144;

/// A piece of so many bytes at most, as the line of one row mostly is, is copied into less room, which is set to zeros at once.
const FEW: usize = 32;

/// Room for a piece of a few bytes, and for as many bytes behind it as a number may want.
const ROOM_OF_FEW: usize = 48;

/// The bytes of a short piece, with room behind them.
#[inline(always)]
fn padded(piece: &[u8]) -> [u8; ROOM]
    requires { length piece.now ≤ 128 }
    ensures { take (length piece.now) result ≡ piece.now }
{
    let mut room = [0u8; ROOM];
    room[..piece.len()].copy_from_slice(piece);
    room
}

/// A few bytes, with room behind them.
#[inline(always)]
fn padded_few(piece: &[u8]) -> [u8; ROOM_OF_FEW]
    requires { length piece.now ≤ 32 }
    ensures { take (length piece.now) result ≡ piece.now }
{
    let mut room = [0u8; ROOM_OF_FEW];
    room[..piece.len()].copy_from_slice(piece);
    room
}

/// Rows that a piece begins with: how many, how many bytes they are, and the first time that a row after them may have.
#[derive(Clone, Copy)]
pub(crate) struct Block {
    pub(crate) rows: u64,
    pub(crate) bytes: usize,
    next: u64,
}

impl Heading {
    ghost use Rattle.std.specs.Prelude.{◌≡◌, ◌<◌, ◌≤◌, ℕ, suc, length, take, Some, MatchResult, MatchOption};
    ghost use Rattle.stl_syntax.specs.Trace.{last_time};
    ghost use Rattle.trace_reader.specs.Plain.{IsPlainRow};
    ghost use Rattle.trace_reader.specs.Blocks.{AreRowsAdded};
    ghost use Rattle.trace_reader.specs.LineParts.{fields_of};
    ghost use Rattle.trace_reader.specs.TraceRefusals.{NumberFaults};
    ghost use Rattle.trace_reader.specs.RowLines.{IsRowRead, FieldFaults};

    /// Reads the fields of a row into `row`.
    ///
    /// # Errors
    /// The first fault of the fields; then `row` is no row that was read.
    pub(crate) fn read_row(&self, row: &mut Row, text: &[u8]) -> Result<(), TraceKind>
        requires { length text.now ≤ 4096 }
        ensures { MatchResult result
            (λ _. IsRowRead self.now (fields_of (Some text.now)) row.new)
            (FieldFaults self.now (fields_of (Some text.now))) }
    {
        match self.read_fields(row, text) {
            Ok(()) => Ok(()),
            Err(kind) => {
                let count = count_fields(text);
                if count as usize == self.columns() + 1 {
                    Err(kind)
                } else {
                    Err(TraceKind::WrongCount { got: count })
                }
            }
        }
    }

    /// Reads the fields one after another, up to the first fault in one or to a wrong number of them.
    fn read_fields(&self, row: &mut Row, text: &[u8]) -> Result<(), TraceKind>
        requires { length text.now ≤ 4096 }
        ensures { MatchResult result
            (λ _. IsRowRead self.now (fields_of (Some text.now)) row.new)
            (λ e. length (fields_of (Some text.now)) ≡ suc (length self.now.heading.columns)
            → NumberFaults self.now.scale self.now.heading (fields_of (Some text.now)) e) }
    {
        let scale = self.scale();
        let (first, mut left) = cut_field(text);
        let time = read_time(first, self.time_digits(), scale.time)?;
        row.begin(time);
        let mut place = 2;
        for most in self.digits() {
            let Some(rest) = left else {
                return Err(TraceKind::WrongCount {
                    got: count_fields(text),
                });
            };
            let (field, later) = cut_field(rest);
            row.add(read_value(field, place, *most, scale.value)?);
            place += 1;
            left = later;
        }
        if left.is_some() {
            return Err(TraceKind::WrongCount {
                got: count_fields(text),
            });
        }
        Ok(())
    }

    /// Reads a row of plain numbers that the piece begins with, and answers how many bytes it has with its LF.
    /// What it does not read may be a row all the same.
    #[inline(always)]
    pub(crate) fn read_plain(&self, row: &mut Row, piece: &[u8]) -> Option<usize>
        ensures { MatchOption result (Unit {0}) (λ n. IsPlainRow self.now piece.now n row.new) }
    {
        let scale = self.scale();
        let first = plain_time(piece, &self.time_digits(), scale.time)?;
        row.begin(first.time);
        let mut at = first.len;
        for most in self.digits() {
            if piece[at] != b',' {
                return None;
            }
            let next = plain_value(&piece[at + 1..], most, scale.value)?;
            row.add(next.value);
            at += next.len + 1;
        }
        line_end(piece, at)
    }

    /// Reads the row that a short piece begins with, as `read_plain` does, from a copy with room behind it: so a number may stand at the
    /// end of the piece.
    #[inline(never)]
    fn read_padded(&self, row: &mut Row, piece: &[u8]) -> Option<usize>
        requires { length piece.now ≤ 128 }
        ensures { MatchOption result (Unit {0}) (λ n. IsPlainRow self.now piece.now n row.new) }
    {
        let room = padded(piece);
        let size = self.read_plain(row, &room)?;
        if size > piece.len() {
            return None;
        }
        Some(size)
    }

    /// As `read_padded`, where the piece has a few bytes alone.
    #[inline(never)]
    fn read_few(&self, row: &mut Row, piece: &[u8]) -> Option<usize>
        requires { length piece.now ≤ 32 }
        ensures { MatchOption result (Unit {0}) (λ n. IsPlainRow self.now piece.now n row.new) }
    {
        let room = padded_few(piece);
        let size = self.read_plain(row, &room)?;
        if size > piece.len() {
            return None;
        }
        Some(size)
    }

    /// Reads a row of plain numbers that the piece begins with, also where the piece ends with it. What it does not read may be a row
    /// all the same.
    #[inline(always)]
    pub(crate) fn plain_row(&self, row: &mut Row, piece: &[u8]) -> Option<usize>
        ensures { MatchOption result (Unit {0}) (λ n. IsPlainRow self.now piece.now n row.new) }
    {
        if piece.len() <= FEW {
            return self.read_few(row, piece);
        }
        if piece.len() <= SHORT {
            return self.read_padded(row, piece);
        }
        self.read_plain(row, piece)
    }

    /// The row that a piece begins with, as `plain_row` reads it; none where it is before the time `from`.
    #[inline(always)]
    fn later_row(&self, row: &mut Row, piece: &[u8], from: u64) -> Option<usize>
        ensures { MatchOption result (Unit {0}) (λ n. IsPlainRow self.now piece.now n row.new × (from ≤ row.new.time)) }
    {
        let size = self.plain_row(row, piece)?;
        if u64::from(row.time()) < from {
            return None;
        }
        Some(size)
    }

    /// Adds the rows of plain numbers that the piece begins with to the trace while more than `least` bytes are left: at most `most` of
    /// them, the first one not before the time `from`, and each later than the one before it. A row for which memory is wanting is left,
    /// as one that is not read.
    #[inline(always)]
    fn take_while(
        &self,
        piece: &[u8],
        least: usize,
        most: u64,
        from: u64,
        trace: &mut Trace,
    ) -> Block
        requires width { length trace.old.header.columns ≡ length self.now.heading.columns }
        requires later { 0 < length trace.old.rows → last_time 0 trace.old.rows < from }
        ensures size { result.bytes ≤ length piece.now }
        ensures few { result.rows ≤ most }
        ensures later { 0 < length trace.new.rows → last_time 0 trace.new.rows < result.next }
        ensures rows { AreRowsAdded self.now from result.next trace.old trace.new result.rows (take result.bytes piece.now) }
    {
        let mut row = Row::new();
        let mut block = Block {
            rows: 0,
            bytes: 0,
            next: from,
        };
        while block.rows < most && piece.len() - block.bytes > least {
            let Some(size) = self.later_row(&mut row, &piece[block.bytes..], block.next) else {
                return block;
            };
            match trace.push(&row) {
                Ok(()) => {}
                Err(_) => return block,
            }
            block.next = u64::from(row.time()) + 1;
            block.rows += 1;
            block.bytes += size;
        }
        block
    }

    /// As `take_rows`, of a short piece.
    #[inline(never)]
    fn take_short(&self, piece: &[u8], most: u64, from: u64, trace: &mut Trace) -> Block
        requires width { length trace.old.header.columns ≡ length self.now.heading.columns }
        requires later { 0 < length trace.old.rows → last_time 0 trace.old.rows < from }
        ensures size { result.bytes ≤ length piece.now }
        ensures few { result.rows ≤ most }
        ensures narrow { length self.now.heading.columns ≤ 64 }
        ensures rows { AreRowsAdded self.now from result.next trace.old trace.new result.rows (take result.bytes piece.now) }
    {
        self.take_while(piece, self.columns(), most, from, trace)
    }

    /// Adds the rows of plain numbers that the piece begins with to the trace: at most `most` of them, the first one not before the time
    /// `from`, and each later than the one before it. A row for which memory is wanting is left, as one that is not read.
    /// First those behind which the piece goes on for long, which needs no copies.
    #[inline(never)]
    pub(crate) fn take_rows(&self, piece: &[u8], most: u64, from: u64, trace: &mut Trace) -> Block
        requires width { length trace.old.header.columns ≡ length self.now.heading.columns }
        requires later { 0 < length trace.old.rows → last_time 0 trace.old.rows < from }
        ensures size { result.bytes ≤ length piece.now }
        ensures few { result.rows ≤ most }
        ensures narrow { length self.now.heading.columns ≤ 64 }
        ensures rows { (next : ℕ) × AreRowsAdded self.now from next trace.old trace.new result.rows (take result.bytes piece.now) }
    {
        if piece.len() <= SHORT {
            return self.take_short(piece, most, from, trace);
        }
        let far = self.take_while(piece, SHORT, most, from, trace);
        let near = self.take_while(
            &piece[far.bytes..],
            self.columns(),
            most - far.rows,
            far.next,
            trace,
        );
        Block {
            rows: far.rows + near.rows,
            bytes: far.bytes + near.bytes,
            next: near.next,
        }
    }
}
