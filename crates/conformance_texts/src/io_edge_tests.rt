//! Devices that never fail, and those over readers and writers of std, with a failure in the midst.
use super::checks::expect;
use io_edge::{CleanSink, CleanSource, Failed, ReadEdge, Sink, Source, WriteEdge};
use std::io;
use std::io::{ErrorKind, Read};
use std::test::Fail;

#[test]
fn a_clean_source_gives_all_and_a_clean_sink_takes_all(rt: HostRuntime) -> Result<(), Fail> {
    let mut source = CleanSource::new(Vec::from_slice(rt.alloc(), b"abcde")?);
    let mut sink = CleanSink::new();
    let mut buffer = [0u8; 8];
    expect(&rt, source.read(&mut buffer) == Ok(5), "five bytes");
    expect(&rt, &buffer[..5] == b"abcde".as_slice(), "the bytes");
    expect(&rt, source.read(&mut buffer) == Ok(0), "the end");
    expect(&rt, sink.write(&buffer) == Ok(8), "all taken");
    Ok(())
}

// Gives a byte, fails once and then ends.
#[derive(Drop)]
struct Flaky {
    calls: u8,
}

impl Read for Flaky {
    fn read(&mut self, buf: &mut [u8]) -> io::Result<usize> {
        self.calls = self.calls.saturating_add(1);
        if self.calls == 2 {
            return Err(io::Error::from(ErrorKind::Other));
        }
        if self.calls > 2 || buf.is_empty() {
            return Ok(0);
        }
        buf[0] = b'x';
        Ok(1)
    }
}

#[test]
fn a_reader_of_std_gives_its_bytes(rt: HostRuntime) {
    let mut buffer = [0u8; 4];
    let mut edge = ReadEdge::new(b"abcde".as_slice());
    expect(&rt, edge.read(&mut buffer) == Ok(4), "four bytes");
    expect(&rt, &buffer == b"abcd", "the bytes");
}

#[test]
fn a_reader_of_std_fails_where_it_did(rt: HostRuntime) {
    let mut buffer = [0u8; 4];
    let mut flaky = ReadEdge::new(Flaky { calls: 0 });
    expect(&rt, flaky.read(&mut buffer) == Ok(1), "one byte");
    expect(&rt, buffer[0] == b'x', "the byte");
    expect(&rt, flaky.read(&mut buffer) == Err(Failed), "a failure");
    expect(&rt, flaky.read(&mut buffer) == Ok(0), "the end");
}

#[test]
fn a_writer_of_std_takes_bytes_and_fails_where_it_is_full(rt: HostRuntime) {
    let mut room = [0u8; 3];
    let mut edge = WriteEdge::new(&mut room[..]);
    expect(&rt, edge.write(b"ab") == Ok(2), "two taken");
    expect(&rt, edge.write(b"cd") == Ok(1), "one taken");
    expect(&rt, edge.write(b"d") == Err(Failed), "full");
    expect(&rt, edge.write(b"") == Ok(0), "nothing taken");
}
