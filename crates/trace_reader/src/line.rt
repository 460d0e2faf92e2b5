//! Bytes that are cut into lines as they come, within the limits of a line and of their number.
use frac128::Memory;
use std::alloc::Global;
use std::marker::Model;

/// The most bytes of a line, without its LF.
const LONGEST: usize = 4096;

/// A line that breaks a limit.
#[derive(Clone, Copy)]
pub(crate) enum LineFault {
    /// More lines were begun than may be.
    TooMany,
    /// The line has a byte too many that is not its LF.
    TooLong,
}

/// Bytes that are cut into lines: how many lines were begun, and the bytes of the last one, where it is not whole.
/// Room for a whole line is reserved.
#[derive(Drop)]
pub(crate) struct Lines {
    begun: u64,
    bytes: Vec<u8>,
}

impl Model for Lines {
    ghost use Rattle.std.specs.Prelude.{◌≤◌, vec_len, vec_capacity};
    ghost use Rattle.trace_reader.specs.Cut.{Cut};

    ghost Value = { Cut };

    ghost view = { λ a. record { begun = a.begun; line = a.bytes.items } };

    ghost invariant = { λ a. (vec_len a.bytes ≤ 4096) × (4096 ≤ vec_capacity a.bytes) };
}

impl Lines {
    ghost use Rattle.std.specs.Prelude.{◌≡◌, ◌↔◌, ◌+◌, ◌^◌, ◌<◌, ◌≤◌, ◌++◌, [], length, IfOk, IsTrue, MatchResult};
    ghost use Rattle.trace_reader.specs.Cut.{begun_after, IsLineFault};

    /// No line was begun yet. It asks at once for the memory of the longest line that there may be.
    pub(crate) fn new(alloc: Global) -> Result<Lines, Memory>
        ensures { IfOk result (λ l. l ≡ record { begun = 0; line = [] }) }
    {
        Ok(Lines {
            begun: 0,
            bytes: Vec::with_capacity(alloc, LONGEST)?,
        })
    }

    /// How many lines were begun.
    pub(crate) fn begun(&self) -> u64
        ensures { result ≡ self.now.begun }
    {
        self.begun
    }

    /// Whether no byte of a line that is not whole has come.
    pub(crate) fn is_between(&self) -> bool
        ensures { IsTrue result ↔ (self.now.line ≡ []) }
    {
        self.bytes.is_empty()
    }

    /// The bytes of a line that is not whole.
    pub(crate) fn bytes(&self) -> &[u8]
        ensures { result.now ≡ self.now.line }
    {
        self.bytes.as_slice()
    }

    /// Counts the line that `taken` bytes begin, and refuses it with `size` bytes more where it is too long; at most `most` lines may begin.
    pub(crate) fn admit(&mut self, most: u64, taken: usize, size: usize) -> Result<(), LineFault>
        requires count { self.old.begun ≤ most }
        requires most { most ≤ 2 ^ 33 }
        requires size { size ≤ taken }
        ensures begun { self.new ≡ record self.old { begun = begun_after self.old.begun self.old.line taken } }
        ensures cases { MatchResult result
            (λ _. (self.new.begun ≤ most) × (length self.old.line + size ≤ 4096))
            (IsLineFault most self.new.begun (length self.old.line + size)) }
    {
        if self.bytes.is_empty() && taken > 0 {
            self.begun += 1;
        }
        if self.begun > most {
            return Err(LineFault::TooMany);
        }
        if size > LONGEST - self.bytes.len() {
            return Err(LineFault::TooLong);
        }
        Ok(())
    }

    /// Counts so many lines that are whole.
    pub(crate) fn pass(&mut self, lines: u64)
        requires { self.old.begun + lines ≤ 2 ^ 33 }
        ensures { self.new ≡ record self.old { begun = self.old.begun + lines } }
    {
        self.begun += lines;
    }

    /// Adds bytes to the line.
    pub(crate) fn add(&mut self, part: &[u8])
        requires { length self.old.line + length part.now ≤ 4096 }
        ensures { self.new ≡ record self.old { line = self.old.line ++ part.now } }
    {
        match self.bytes.extend_from_slice(part) {
            Ok(()) => {}
            Err(_) => unreachable!(),
        }
    }

    /// Drops the bytes of the line.
    pub(crate) fn clear(&mut self)
        ensures { self.new ≡ record self.old { line = [] } }
    {
        self.bytes.clear();
    }
}
