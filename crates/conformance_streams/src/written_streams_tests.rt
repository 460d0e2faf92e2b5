//! `Watch`, call by call: what it writes at each piece and at the end, and its refusals.
use super::given::{expect, parsed};
use io_edge::MemSink;
use std::alloc::Global;
use std::process::Abort;
use std::test::Fail;
use trace_reader::{Limits, TraceKind, TraceRefusal};
use written_streams::{Watch, WatchFault};

const LIMITS: Limits = Limits {
    rows: 4_294_967_296,
    lines: 8_589_934_592,
};

/// A watch of the formula of a text.
fn watch(rt: &impl Abort, alloc: Global, text: &str) -> Watch {
    match Watch::new(alloc, parsed(rt, alloc, text), LIMITS) {
        Ok(watch) => watch,
        Err(_) => panic!(rt; "no memory"),
    }
}

/// A sink with room for what is written here, of which one call fails, or none.
fn sink(alloc: Global, fails: u64) -> Result<MemSink, Fail> {
    let fails = Vec::from_slice(alloc, &[fails])?;
    match MemSink::new(alloc, 4096, 4096, fails) {
        Ok(sink) => Ok(sink),
        Err(memory) => Err(Fail::from(memory)),
    }
}

/// A formula, bytes, which call of the sink fails, why a watch refuses them, and what it has written by then.
type Refused = (&'static str, &'static str, u64, WatchFault, &'static str);

const REFUSED: [Refused; 6] = [
    (
        "x >= 1",
        "time,x\n1,0\n1,1\n",
        0,
        WatchFault::Trace(TraceRefusal {
            line: 3,
            kind: TraceKind::TimeNotRising,
        }),
        "[1,1] false\n",
    ),
    (
        "x >= 1 and z >= 0",
        "\ntime,x\n",
        0,
        WatchFault::Unknown {
            line: 2,
            atom: 1,
            term: 0,
        },
        "",
    ),
    (
        "x >= 1073741824",
        "time,x:1\n",
        0,
        WatchFault::UnitConstant { line: 1, node: 0 },
        "",
    ),
    (
        "eventually[0,4294967295] x >= 0",
        "time:1,x\n",
        0,
        WatchFault::UnitReach {
            line: 1,
            sum: 42_949_672_950,
        },
        "",
    ),
    ("x >= 1", "time,x\n1,0\n", 1, WatchFault::Write, ""),
    (
        "x >= 1",
        "time,x\n",
        0,
        WatchFault::Trace(TraceRefusal {
            line: 1,
            kind: TraceKind::NoRows,
        }),
        "",
    ),
];

/// Why a watch refuses the bytes, or else their end.
fn refusal(watch: &mut Watch, bytes: &str, out: &mut MemSink) -> Option<WatchFault> {
    match watch.push(bytes.as_bytes(), out) {
        Ok(()) => watch.end(out).err(),
        Err(fault) => Some(fault),
    }
}

/// Whether a watch refuses the bytes of a row so, and has written so much by then.
fn refuses(watch: &mut Watch, row: &Refused, out: &mut MemSink) -> bool {
    let (_, bytes, _, fault, written) = row;
    refusal(watch, bytes, out) == Some(*fault) && out.written() == written.as_bytes()
}

/// Whether a new watch does so.
fn is_refused(rt: &impl Abort, alloc: Global, row: &Refused) -> Result<bool, Fail> {
    let mut out = sink(alloc, row.2)?;
    let mut watch = watch(rt, alloc, row.0);
    Ok(refuses(&mut watch, row, &mut out))
}

#[test]
fn a_watch_tells_why_it_refuses(rt: HostRuntime) -> Result<(), Fail> {
    for row in REFUSED.iter() {
        expect(&rt, is_refused(&rt, rt.alloc(), row)?, row.0);
    }
    Ok(())
}

/// Bytes of a trace, and what a watch of `eventually[0,2] x >= 5` has written once it took them.
const PIECES: [(&str, &str); 3] = [
    ("time,x\n0,0\n5,", ""),
    ("5\n", "[0,3) false\n[3,3] true\n"),
    ("10,0", "[0,3) false\n[3,3] true\n"),
];

/// What it has written at the end.
const ENDED: &str = "[0,3) false\n[3,3] true\n(3,5] true\n(5,8] false\n(8,10] false\nstart false\n";

/// Whether a watch has written so much after each piece.
fn takes_pieces(watch: &mut Watch, out: &mut MemSink) -> bool {
    for (piece, written) in PIECES {
        if watch.push(piece.as_bytes(), out).is_err() {
            return false;
        }
        if out.written() != written.as_bytes() {
            return false;
        }
    }
    true
}

/// Whether it has written all at the end, and answers that the formula is false at the start.
fn ends(watch: &mut Watch, out: &mut MemSink) -> bool {
    watch.end(out) == Ok(false) && out.written() == ENDED.as_bytes()
}

/// Whether it does both.
fn writes_all(watch: &mut Watch, out: &mut MemSink) -> bool {
    takes_pieces(watch, out) && ends(watch, out)
}

#[test]
fn a_watch_writes_at_each_piece_and_at_the_end(rt: HostRuntime) -> Result<(), Fail> {
    let mut out = sink(rt.alloc(), 0)?;
    let mut watch = watch(&rt, rt.alloc(), "eventually[0,2] x >= 5");
    expect(&rt, writes_all(&mut watch, &mut out), "pieces and the end");
    Ok(())
}
