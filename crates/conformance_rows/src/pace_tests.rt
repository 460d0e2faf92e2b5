//! Streams keep pace with their source: as each read begins, a look at what was written until then.
ghost use Rattle.std.specs.Prelude.{Some};

use io_edge::{Failed, MemSink, MemSource, Sink, Source};
use program_cases::{sink, source, strings};
use std::alloc::Global;
use std::cell::Cell;
use std::test::Fail;
use workbench::program;

/// The words of a stream, the lines of its input with what each makes it tell, what the end makes it tell, and its status.
#[derive(Clone, Copy)]
struct Told<'a> {
    words: &'a [&'a str],
    lines: &'a [(&'a str, &'a str)],
    end: &'a str,
    status: u8,
}

/// How many bytes are told once so many bytes were read.
fn told_by(lines: &[(&str, &str)], read: usize) -> usize {
    let mut at: usize = 0;
    let mut told: usize = 0;
    for (line, text) in lines {
        at = at.saturating_add(line.len());
        if at <= read {
            told = told.saturating_add(text.len());
        }
    }
    told
}

/// A source that looks, as each read begins, how much was written, and whether no more than 4,096 bytes are asked for.
#[derive(Drop)]
struct Looking<'a> {
    inner: MemSource,
    lines: &'a [(&'a str, &'a str)],
    count: &'a Cell<usize>,
    read: usize,
    agrees: bool,
}

impl Source for Looking<'_> {
    ghost left = { λ s. Some s.inner.left };

    ghost ended = { λ s. s.inner.ended };

    ghost ends = { λ s. s.inner.ends };

    ghost gave = { λ s. s.inner.gave };

    ghost asked = { λ s. s.inner.asked };

    ghost faults = { λ s. s.inner.faults };

    fn read(&mut self, buf: &mut [u8]) -> Result<usize, Failed> {
        let told = told_by(self.lines, self.read);
        if self.count.get() != told || buf.len() > 4096 {
            self.agrees = false;
        }
        let given = self.inner.read(buf)?;
        self.read = self.read.saturating_add(given);
        Ok(given)
    }
}

/// A sink that counts the bytes that were written.
#[derive(Drop)]
struct Counting<'a> {
    inner: MemSink,
    count: &'a Cell<usize>,
}

impl Sink for Counting<'_> {
    ghost written = { λ s. Some s.inner.written };

    ghost faults = { λ s. s.inner.faults };

    fn write(&mut self, piece: &[u8]) -> Result<usize, Failed> {
        let taken = self.inner.write(piece)?;
        self.count.set(self.count.get().saturating_add(taken));
        Ok(taken)
    }
}

const STREAMS: [Told<'static>; 4] = [
    Told {
        words: &["watch", "eventually[0,2] x >= 5"],
        lines: &[
            ("time,x\n", ""),
            ("0,0\n", ""),
            ("5,5\n", "[0,3) false\n[3,3] true\n"),
            ("10,0\n", "(3,5] true\n(5,8] false\n"),
        ],
        end: "(8,10] false\nstart false\n",
        status: 1,
    },
    Told {
        words: &["early", "eventually[0,10] x >= 5"],
        lines: &[
            ("time,x\n", ""),
            ("0,0\n", ""),
            ("5,5\n", "decided at 5\nstart true\n"),
            ("10,0\n", ""),
        ],
        end: "",
        status: 0,
    },
    Told {
        words: &["rwatch", "eventually[0,3] x >= 0"],
        lines: &[
            ("time,x\n", ""),
            ("0,6\n", ""),
            ("3,0\n", "[0] 6\n"),
            ("9,6\n", "(0,2) 6 -> 2\n[2] 2\n(2,6) 2 -> 6\n[6] 6\n"),
        ],
        end: "(6,9) 6 -> 6\n[9] 6\n",
        status: 0,
    },
    Told {
        words: &["mux", "eventually[0,2] x >= 5"],
        lines: &[
            ("a time,x\n", ""),
            ("b time,x\n", ""),
            ("a 0,0\n", ""),
            ("b 0,9\n", ""),
            ("a 5,5\n", "a [0,3) false\na [3,3] true\n"),
            ("b 3,9\n", "b [0,1] true\n"),
            ("a ?\n", "a ? [0,3) false\na ? [3,3] true\n"),
            ("b 2,0\n", "b line 4: time not rising\n"),
            ("a 10,0\n", "a (3,5] true\na (5,8] false\n"),
        ],
        end: "a (8,10] false\na start false\n",
        status: 0,
    },
];

/// All of the input, and all that is told.
fn whole(alloc: Global, stream: Told<'_>) -> Result<(String, String), Fail> {
    let mut input = String::new(alloc);
    let mut told = String::new(alloc);
    for (line, text) in stream.lines {
        input.push_str(line)?;
        told.push_str(text)?;
    }
    told.push_str(stream.end)?;
    Ok((input, told))
}

/// Whether the stream has told, as each read begins, what it owes for the bytes until then, where a read gives so many bytes; and all in the end.
fn keeps_pace(alloc: Global, stream: Told<'_>, size: usize) -> Result<bool, Fail> {
    let (input, told) = whole(alloc, stream)?;
    let count = Cell::new(0);
    let mut looking = Looking {
        inner: source(alloc, input.as_bytes(), size, 0)?,
        lines: stream.lines,
        count: &count,
        read: 0,
        agrees: true,
    };
    let mut counting = Counting {
        inner: sink(alloc, 4096, 4096, 0)?,
        count: &count,
    };
    let mut err = sink(alloc, 4096, 4096, 0)?;
    let words = strings(alloc, stream.words)?;
    let status = program(alloc, Some(words), &mut looking, &mut counting, &mut err);
    Ok(looking.agrees && status == stream.status && counting.inner.written() == told.as_bytes())
}

#[test]
fn all_that_was_read_is_answered_before_more_is_read(rt: HostRuntime) -> Result<(), Fail> {
    let alloc = rt.alloc();
    for (i, stream) in STREAMS.iter().enumerate() {
        for size in 1..=70 {
            assert!(rt;
                keeps_pace(alloc, *stream, size)?,
                "stream {i}, reads of {size} bytes"
            );
        }
    }
    Ok(())
}
