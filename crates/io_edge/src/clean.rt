//! A source and a sink that never fail.
ghost use Rattle.std.specs.Prelude.{◌≡◌, min, max, length, None, Some, Ok, false};
ghost use Rattle.std.specs.Io.{ReadsAtMost};
ghost use Rattle.std.specs.Io.KnownBytes.{ReadConsumes};
ghost use Rattle.io_edge.specs.Causes.{SaysEnd, after_end, given_by};

use crate::device::{Failed, Sink, Source};
use crate::part::{count_end, take_from};
use std::marker::Model;

/// Takes all, and doesn't tell its bytes.
#[derive(Drop)]
pub struct CleanSink {}

impl CleanSink {
    /// A sink that has taken nothing.
    pub fn new() -> CleanSink {
        CleanSink {}
    }
}

impl Sink for CleanSink {
    ghost written = { λ _. None };

    ghost faults = { λ _. 0 };

    fn write(&mut self, piece: &[u8]) -> Result<usize, Failed>
        ensures all { result ≡ Ok (length piece.now) }
    {
        Ok(piece.len())
    }
}

/// Gives its bytes, and never fails.
#[derive(Drop)]
pub struct CleanSource {
    bytes: Vec<u8>,
    at: usize,
    done: bool,
    ends: u64,
    gave: usize,
    asked: usize,
}

impl Model for CleanSource {
    ghost use Rattle.std.specs.Prelude.{◌≤◌, drop, vec_len};
    ghost use Rattle.io_edge.specs.InMemory.{CleanBytes};

    ghost Value = { CleanBytes };

    ghost view = { λ s. record { left = drop s.at s.bytes.items; ended = s.done; ends = s.ends; gave = s.gave; asked = s.asked } };

    ghost invariant = { λ s. s.at ≤ vec_len s.bytes };
}

impl CleanSource {
    /// A source of these bytes.
    pub fn new(bytes: Vec<u8>) -> CleanSource
        ensures { result ≡ record { left = bytes.items; ended = false; ends = 0; gave = 0; asked = 0 } }
    {
        CleanSource {
            bytes,
            at: 0,
            done: false,
            ends: 0,
            gave: 0,
            asked: 0,
        }
    }
}

impl Source for CleanSource {
    ghost left = { λ s. Some s.left };

    ghost ended = { λ s. s.ended };

    ghost ends = { λ s. s.ends };

    ghost gave = { λ s. s.gave };

    ghost asked = { λ s. s.asked };

    ghost faults = { λ _. 0 };

    fn read(&mut self, buf: &mut [u8]) -> Result<usize, Failed>
        ensures bound { ReadsAtMost result buf.new }
        ensures bytes { ReadConsumes (Some self.old.left) (Some self.new.left) result buf.new }
        ensures end { SaysEnd result (length buf.new) self.new.ended }
        ensures ends { self.new.ends ≡ after_end self.new.ended self.old.ends }
        ensures gave { self.new.gave ≡ given_by result }
        ensures asked { self.new.asked ≡ max self.old.asked (length buf.new) }
        ensures given { result ≡ Ok (min (length buf.new) (length self.old.left)) }
    {
        let n = take_from(&self.bytes, self.at, usize::MAX, buf);
        self.at += n;
        self.done = (n == 0) & !buf.is_empty();
        self.ends = count_end(self.done, self.ends);
        self.gave = n;
        self.asked = self.asked.max(buf.len());
        Ok(n)
    }
}
