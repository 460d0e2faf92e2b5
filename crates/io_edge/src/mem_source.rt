//! A source in memory, of which chosen calls fail.
ghost use Rattle.std.specs.Prelude.{◌≡◌, ◌<◌, ◌↔◌, ◌&&◌, ◌==◌, max, length, drop, nat_lt, Some, false, Contains, IfOk, OnErr, IsErr};
ghost use Rattle.std.specs.Io.{ReadsAtMost};
ghost use Rattle.std.specs.Io.KnownBytes.{ReadConsumes};
ghost use Rattle.io_edge.specs.Causes.{HasCause, SaysEnd, next_count, after_end, given_by};
ghost use Rattle.io_edge.specs.InMemory.{given};

use crate::device::{Failed, Source};
use crate::part::{count_end, take_from};
use std::marker::Model;

/// Bytes in memory, at most so many a call. The calls of a list fail.
#[derive(Drop)]
pub struct MemSource {
    bytes: Vec<u8>,
    at: usize,
    most: usize,
    fails: Vec<u64>,
    calls: u64,
    faults: u64,
    done: bool,
    ends: u64,
    gave: usize,
    asked: usize,
}

impl Model for MemSource {
    ghost use Rattle.std.specs.Prelude.{◌<◌, ◌≤◌, drop, vec_len};
    ghost use Rattle.io_edge.specs.InMemory.{SourceInMemory};

    ghost Value = { SourceInMemory };

    ghost view = { λ s. record { left = drop s.at s.bytes.items; most = s.most; fails = s.fails.items; calls = s.calls; faults = s.faults; ended = s.done; ends = s.ends; gave = s.gave; asked = s.asked } };

    ghost invariant = { λ s. (s.at ≤ vec_len s.bytes) × (0 < s.most) };
}

impl MemSource {
    /// A source of these bytes that gives at most `most` a call. Calls are numbered from 1, and
    /// those named in `fails` fail and are counted.
    pub fn new(bytes: Vec<u8>, most: usize, fails: Vec<u64>) -> MemSource
        requires { 0 < most }
        ensures { result ≡ record { left = bytes.items; most = most; fails = fails.items; calls = 0; faults = 0; ended = false; ends = 0; gave = 0; asked = 0 } }
    {
        MemSource {
            bytes,
            at: 0,
            most,
            fails,
            calls: 0,
            faults: 0,
            done: false,
            ends: 0,
            gave: 0,
            asked: 0,
        }
    }

    /// How many calls have failed.
    pub fn faults(&self) -> u64
        ensures { result ≡ self.now.faults }
    {
        self.faults
    }
}

impl Source for MemSource {
    ghost left = { λ s. Some s.left };

    ghost ended = { λ s. s.ended };

    ghost ends = { λ s. s.ends };

    ghost gave = { λ s. s.gave };

    ghost asked = { λ s. s.asked };

    ghost faults = { λ s. s.faults };

    fn read(&mut self, buf: &mut [u8]) -> Result<usize, Failed>
        ensures bound { ReadsAtMost result buf.new }
        ensures bytes { ReadConsumes (Some self.old.left) (Some self.new.left) result buf.new }
        ensures end { SaysEnd result (length buf.new) self.new.ended }
        ensures ends { self.new.ends ≡ after_end self.new.ended self.old.ends }
        ensures gave { self.new.gave ≡ given_by result }
        ensures asked { self.new.asked ≡ max self.old.asked (length buf.new) }
        ensures cause { HasCause self.old.faults self.new.faults result }

        // which calls fail, how many bytes the others give, and what both leave
        ensures fails { IsErr result ↔ Contains self.old.fails (next_count self.old.calls) }
        ensures given { IfOk result (λ n. n ≡ given self.old (length buf.new)) }
        ensures after_ok { IfOk result (λ n. self.new ≡ record self.old {
          left = drop n self.old.left;
          calls = next_count self.old.calls;
          ended = (n == 0) && nat_lt 0 (length buf.new);
          ends = after_end ((n == 0) && nat_lt 0 (length buf.new)) self.old.ends;
          gave = n;
          asked = max self.old.asked (length buf.new);
        }) }
        ensures after_err { OnErr result (self.new ≡ record self.old {
          calls = next_count self.old.calls;
          faults = next_count self.old.faults;
          ended = false;
          gave = 0;
          asked = max self.old.asked (length buf.new);
        }) }
    {
        self.calls = self.calls.saturating_add(1);
        self.done = false;
        self.gave = 0;
        self.asked = self.asked.max(buf.len());
        if self.fails.as_slice().contains(&self.calls) {
            self.faults = self.faults.saturating_add(1);
            return Err(Failed);
        }
        let n = take_from(&self.bytes, self.at, self.most, buf);
        self.at += n;
        self.done = (n == 0) & !buf.is_empty();
        self.ends = count_end(self.done, self.ends);
        self.gave = n;
        Ok(n)
    }
}
