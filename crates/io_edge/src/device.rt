//! What bytes come from and go to.
ghost use Rattle.std.specs.Prelude.{◌≡◌, ◌<◌, ℕ, List, length, max, Option, Bool, IfOk};
ghost use Rattle.std.specs.Io.{ReadsAtMost, WritesAtMost};
ghost use Rattle.std.specs.Io.KnownBytes.{ReadConsumes, WriteAppends};
ghost use Rattle.io_edge.specs.Causes.{HasCause, SaysEnd, after_end, given_by};

/// A read or a write that failed.
#[derive(Clone, Copy, Debug, PartialEq, Eq)]
pub struct Failed;

/// What bytes are read from.
pub trait Source {
    /// The bytes that are left, where it tells them.
    ghost left: { Self → Option (List ℕ) };

    /// Whether its last call said the end.
    ghost ended: { Self → Bool };

    /// How often it said the end. Once it has reached 2^64 - 1 it stays there.
    ghost ends: { Self → ℕ };

    /// How many bytes its last call gave.
    ghost gave: { Self → ℕ };

    /// The longest buffer that a call got.
    ghost asked: { Self → ℕ };

    /// How often it has failed, which never falls.
    ghost faults: { Self → ℕ };

    /// Moves the first bytes that are left into the buffer, and answers how many.
    ///
    /// 0 for a buffer that isn't empty says the end, and then nothing is left.
    ///
    /// # Errors
    /// `Failed` only where the count of faults rose in this call. Nothing was moved then.
    fn read(&mut self, buf: &mut [u8]) -> Result<usize, Failed>
        ensures bound { ReadsAtMost result buf.new }
        ensures bytes { ReadConsumes (left self.old) (left self.new) result buf.new }
        ensures end { SaysEnd result (length buf.new) (ended self.new) }
        ensures ends { ends self.new ≡ after_end (ended self.new) (ends self.old) }
        ensures gave { gave self.new ≡ given_by result }
        ensures asked { asked self.new ≡ max (asked self.old) (length buf.new) }
        ensures cause { HasCause (faults self.old) (faults self.new) result };
}

/// What bytes are written to.
pub trait Sink {
    /// The bytes that were written, where it tells them.
    ghost written: { Self → Option (List ℕ) };

    /// How often it has failed, which never falls.
    ghost faults: { Self → ℕ };

    /// Takes the first bytes of the piece, at least one of a piece that isn't empty, and answers
    /// how many.
    ///
    /// # Errors
    /// `Failed` only where the count of faults rose in this call. Nothing was taken then.
    fn write(&mut self, piece: &[u8]) -> Result<usize, Failed>
        ensures bound { WritesAtMost result piece.now }
        ensures progress { 0 < length piece.now → IfOk result (λ n. 0 < n) }
        ensures bytes { WriteAppends (written self.old) (written self.new) result piece.now }
        ensures cause { HasCause (faults self.old) (faults self.new) result };
}
