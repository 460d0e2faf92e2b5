//! A reader of std as a source.
ghost use Rattle.std.specs.Prelude.{◌≡◌, false};

use crate::device::{Failed, Source};
use crate::part::count_end;
use std::io::Read;

/// A reader of std, with its failures counted.
#[derive(Drop)]
pub struct ReadEdge<R> {
    inner: R,
    faults: u64,
    done: bool,
    ends: u64,
    gave: usize,
    asked: usize,
}

impl<R: Read> ReadEdge<R> {
    /// The reader as a source. It tells the bytes that the reader tells.
    pub fn new(inner: R) -> ReadEdge<R>
        ensures left { ⟦<ReadEdge<R> as Source>⟧.left result ≡ R.remaining inner }
        ensures ended { ⟦<ReadEdge<R> as Source>⟧.ended result ≡ false }
        ensures ends { ⟦<ReadEdge<R> as Source>⟧.ends result ≡ 0 }
        ensures gave { ⟦<ReadEdge<R> as Source>⟧.gave result ≡ 0 }
        ensures asked { ⟦<ReadEdge<R> as Source>⟧.asked result ≡ 0 }
        ensures faults { ⟦<ReadEdge<R> as Source>⟧.faults result ≡ 0 }
    {
        ReadEdge {
            inner,
            faults: 0,
            done: false,
            ends: 0,
            gave: 0,
            asked: 0,
        }
    }
}

impl<R: Read> Source for ReadEdge<R> {
    ghost left = { λ s. R.remaining s.inner };

    ghost ended = { λ s. s.done };

    ghost ends = { λ s. s.ends };

    ghost gave = { λ s. s.gave };

    ghost asked = { λ s. s.asked };

    ghost faults = { λ s. s.faults };

    fn read(&mut self, buf: &mut [u8]) -> Result<usize, Failed> {
        self.done = false;
        self.gave = 0;
        self.asked = self.asked.max(buf.len());
        match self.inner.read(buf) {
            Ok(n) => {
                self.done = (n == 0) & !buf.is_empty();
                self.ends = count_end(self.done, self.ends);
                self.gave = n;
                Ok(n)
            }
            Err(_) => {
                self.faults = self.faults.saturating_add(1);
                Err(Failed)
            }
        }
    }
}
