//! A writer of std as a sink.
ghost use Rattle.std.specs.Prelude.{◌≡◌};

use crate::device::{Failed, Sink};
use std::io::Write;

/// A writer of std, with its failures counted.
#[derive(Drop)]
pub struct WriteEdge<W> {
    inner: W,
    faults: u64,
}

impl<W: Write> WriteEdge<W> {
    /// The writer as a sink. It tells the bytes that the writer tells.
    pub fn new(inner: W) -> WriteEdge<W>
        ensures written { ⟦<WriteEdge<W> as Sink>⟧.written result ≡ W.contents inner }
        ensures faults { ⟦<WriteEdge<W> as Sink>⟧.faults result ≡ 0 }
    {
        WriteEdge { inner, faults: 0 }
    }
}

impl<W: Write> Sink for WriteEdge<W> {
    ghost written = { λ s. W.contents s.inner };

    ghost faults = { λ s. s.faults };

    fn write(&mut self, piece: &[u8]) -> Result<usize, Failed> {
        match self.inner.write(piece) {
            Ok(n) if n > 0 || piece.is_empty() => Ok(n),
            _ => {
                self.faults = self.faults.saturating_add(1);
                Err(Failed)
            }
        }
    }
}
