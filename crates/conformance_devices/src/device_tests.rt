//! Every command over devices of which one call fails, each in turn, that failed before, or that have too little room, and over inputs
//! that end after each byte.
use crate::expecting::expect;
use io_edge::{MemSink, MemSource, Sink, Source};
use program_cases::{
    Case, Devices, agrees, agrees_so_far, first_bytes, pieces, sink, source, status_of, strings,
};
use std::alloc::Global;
use std::test::Fail;

/// The commands that hold the whole trace: what they write for `x >= 5` on `RISE`, and the status.
const WHOLE: [(&str, &str, u8); 5] = [
    ("check", "[0,5) false\n[5,10] true\nstart false\n", 1),
    ("robust", "[0] -5\n(0,10) -5 -> 5\n[10] 5\n", 0),
    ("explain", "start false\nx >= 5 false on [0,0]\n", 1),
    (
        "json",
        "{\"formula\":\"x >= 5\",\"items\":[{\"atom\":\"x >= 5\",\"on\":\"[0,0]\",\"value\":false}],\"margins\":[{\"at\":\"0\",\"margin\":\"-5\"},{\"from\":\"-5\",\"on\":\"(0,10)\",\"to\":\"5\"},{\"at\":\"10\",\"margin\":\"5\"}],\"start\":false,\"verdicts\":[{\"on\":\"[0,5)\",\"value\":false},{\"on\":\"[5,10]\",\"value\":true}]}\n",
        1,
    ),
    ("table", "time,margin,from,to\n0,-5,-5,5\n10,5,,\n", 0),
];

const RISE: &str = "time,x\n0,0\n10,10\n";

/// What `watch` writes for it: a line for the first row, two for the second, and the start.
const WATCHED: &str = "[0,0] false\n(0,5) false\n[5,10] true\nstart false\n";

/// What `early` writes for it.
const DECIDED: &str = "decided at 0\nstart false\n";

/// What `rwatch` writes for it: a point for the first row, a gap and a point for the second.
const MEASURED: &str = "[0] -5\n(0,10) -5 -> 5\n[10] 5\n";

/// The commands that answer as the rows come: what they write for it, and the status.
const STREAMED: [(&str, &str, u8); 3] = [
    ("watch", WATCHED, 1),
    ("early", DECIDED, 1),
    ("rwatch", MEASURED, 0),
];

const SUMMARY: &str = "rows 5\ncheck 1\nwatch 2\nstart true\n";

/// Whether a command of `x >= 5` on `RISE` is answered so.
fn answers(
    alloc: Global,
    command: &str,
    out: &str,
    err: &str,
    status: u8,
    devices: Devices,
) -> Result<bool, Fail> {
    let case = Case {
        words: &[command, "x >= 5"],
        input: RISE,
        out,
        err,
        status,
    };
    agrees(alloc, case, devices)
}

/// Whether a stream of it is cut off so, once it has written so many bytes.
fn is_streamed(
    alloc: Global,
    (command, out): (&str, &str),
    err: &str,
    status: u8,
    written: usize,
    devices: Devices,
) -> Result<bool, Fail> {
    let case = Case {
        words: &[command, "x >= 5"],
        input: RISE,
        out,
        err,
        status,
    };
    agrees_so_far(alloc, case, devices, written)
}

#[test]
fn each_read_may_fail(rt: HostRuntime) -> Result<(), Fail> {
    let alloc = rt.alloc();
    for (command, out, status) in WHOLE {
        for read_fails in 1..=7 {
            let devices = Devices {
                read_fails,
                ..pieces(4)
            };
            let is_answered = if read_fails == 7 {
                answers(alloc, command, out, "", status, devices)?
            } else {
                answers(alloc, command, "", "read fault\n", 5, devices)?
            };
            expect(&rt, is_answered, command, read_fails as usize);
        }
    }
    Ok(())
}

/// A stream and its text, of reads of four bytes the one that fails, and how many bytes the stream has written by then.
const STREAMED_BY: [(&str, &str, u64, usize); 9] = [
    ("watch", WATCHED, 3, 0),
    ("watch", WATCHED, 4, 12),
    ("watch", WATCHED, 6, 36),
    ("early", DECIDED, 3, 0),
    ("early", DECIDED, 4, 25),
    ("early", DECIDED, 6, 25),
    ("rwatch", MEASURED, 3, 0),
    ("rwatch", MEASURED, 4, 7),
    ("rwatch", MEASURED, 6, 29),
];

#[test]
fn a_stream_has_answered_the_rows_before_a_read_that_fails(rt: HostRuntime) -> Result<(), Fail> {
    let alloc = rt.alloc();
    for (command, out, read_fails, written) in STREAMED_BY {
        let devices = Devices {
            read_fails,
            ..pieces(4)
        };
        let stream = (command, out);
        let holds = is_streamed(alloc, stream, "read fault\n", 5, written, devices)?;
        expect(&rt, holds, command, read_fails as usize);
    }
    Ok(())
}

/// Whether a first part is written, of whole writes of five bytes, whichever write fails.
fn is_cut_off(alloc: Global, words: &[&str], out: &str) -> Result<bool, Fail> {
    for k in 0..60u64 {
        let written = 5 * k as usize;
        if written >= out.len() {
            break;
        }
        let devices = Devices {
            write_most: 5,
            write_fails: k + 1,
            ..pieces(4096)
        };
        let case = Case {
            words,
            input: RISE,
            out,
            err: "write fault\n",
            status: 6,
        };
        if !agrees_so_far(alloc, case, devices, written)? {
            return Ok(false);
        }
    }
    Ok(true)
}

#[test]
fn each_write_may_fail(rt: HostRuntime) -> Result<(), Fail> {
    let alloc = rt.alloc();
    for (command, out, _) in WHOLE {
        expect(
            &rt,
            is_cut_off(alloc, &[command, "x >= 5"], out)?,
            command,
            0,
        );
    }
    expect(
        &rt,
        is_cut_off(alloc, &["gen", "3", "5"], SUMMARY)?,
        "gen",
        0,
    );
    expect(
        &rt,
        is_cut_off(alloc, &["early", "x >= 5"], DECIDED)?,
        "early",
        0,
    );
    expect(
        &rt,
        is_cut_off(alloc, &["rwatch", "x >= 5"], MEASURED)?,
        "rwatch",
        0,
    );
    Ok(())
}

/// A write that fails, of at most seven bytes, and how many bytes `watch` has written by then: what a piece and what the end answers are
/// written apart.
const WATCHED_IN: [(u64, usize); 8] = [
    (1, 0),
    (2, 7),
    (3, 14),
    (4, 21),
    (5, 28),
    (6, 35),
    (7, 36),
    (8, 43),
];

#[test]
fn each_write_of_watch_may_fail(rt: HostRuntime) -> Result<(), Fail> {
    let alloc = rt.alloc();
    for (write_fails, written) in WATCHED_IN {
        let devices = Devices {
            write_most: 7,
            write_fails,
            ..pieces(4096)
        };
        let watched = ("watch", WATCHED);
        let holds = is_streamed(alloc, watched, "write fault\n", 6, written, devices)?;
        expect(&rt, holds, "watch", write_fails as usize);
    }
    Ok(())
}

/// A case of which all is written to an output that has room for any of it, and no more.
const BENCH: Case<'static> = Case {
    words: &["mux", "x >= 5"],
    input: "a time,x\na 0,0\na 10,10\n",
    out: "a [0,0] false\na (0,5) false\na [5,10] true\na start false\n",
    err: "",
    status: 0,
};

/// Whether a case is answered where its text just fits, and cut off where the room is full before.
fn fits_just(alloc: Global, case: Case<'_>) -> Result<bool, Fail> {
    let cut_off = Case {
        err: "write fault\n",
        status: 6,
        ..case
    };
    let large = pieces(4096);
    for room in 0..case.out.len() {
        if !agrees_so_far(alloc, cut_off, Devices { room, ..large }, room)? {
            return Ok(false);
        }
    }
    let room = case.out.len();
    agrees(alloc, case, Devices { room, ..large })
}

/// The case of a command of `x >= 5` on `RISE`.
fn on_rise<'a>(words: &'a [&'a str], out: &'a str, status: u8) -> Case<'a> {
    Case {
        words,
        input: RISE,
        out,
        err: "",
        status,
    }
}

#[test]
fn an_output_may_have_any_room(rt: HostRuntime) -> Result<(), Fail> {
    let alloc = rt.alloc();
    for (command, out, status) in WHOLE.iter().chain(STREAMED.iter()) {
        let words: &[&str] = &[command, "x >= 5"];
        expect(
            &rt,
            fits_just(alloc, on_rise(words, out, *status))?,
            command,
            0,
        );
    }
    let generated = on_rise(&["gen", "3", "5"], SUMMARY, 0);
    expect(&rt, fits_just(alloc, generated)?, "gen", 0);
    expect(&rt, fits_just(alloc, BENCH)?, "mux", 0);
    Ok(())
}

/// Whether a call of each device fails.
fn have_failed(input: &mut MemSource, out: &mut MemSink, err: &mut MemSink) -> bool {
    let mut none = [0u8; 1];
    input.read(&mut none).is_err() && out.write(b"x").is_err() && err.write(b"x").is_err()
}

/// Whether the devices hold what a case tells, and have failed once.
fn hold(case: Case<'_>, input: &MemSource, out: &MemSink, err: &MemSink) -> bool {
    out.written() == case.out.as_bytes()
        && err.written() == case.err.as_bytes()
        && input.faults() == 1
        && out.faults() == 1
        && err.faults() == 1
}

/// Whether a case is answered over devices of which a call has failed before.
fn is_answered_after_faults(alloc: Global, case: Case<'_>) -> Result<bool, Fail> {
    let words = strings(alloc, case.words)?;
    let mut input = source(alloc, case.input.as_bytes(), 4096, 1)?;
    let mut out = sink(alloc, 4096, 4096, 1)?;
    let mut err = sink(alloc, 4096, 4096, 1)?;
    if !have_failed(&mut input, &mut out, &mut err) {
        return Ok(false);
    }
    let status = status_of(alloc, words, &mut input, &mut out, &mut err);
    Ok(status == case.status && hold(case, &input, &out, &err))
}

#[test]
fn what_failed_before_a_run_is_not_told(rt: HostRuntime) -> Result<(), Fail> {
    let alloc = rt.alloc();
    for (command, out, status) in WHOLE.iter().chain(STREAMED.iter()) {
        let words: &[&str] = &[command, "x >= 5"];
        let holds = is_answered_after_faults(alloc, on_rise(words, out, *status))?;
        expect(&rt, holds, command, 0);
    }
    let generated = on_rise(&["gen", "3", "5"], SUMMARY, 0);
    expect(&rt, is_answered_after_faults(alloc, generated)?, "gen", 0);
    expect(&rt, is_answered_after_faults(alloc, BENCH)?, "mux", 0);
    Ok(())
}

/// The commands that read.
const READERS: [&str; 9] = [
    "check", "robust", "explain", "json", "table", "watch", "early", "rwatch", "mux",
];

/// A write of six bytes to the error stream that fails, and what was told by then.
const TOLD: [(u64, &str); 3] = [(1, ""), (2, "read f"), (3, "read fault\n")];

#[test]
fn each_write_of_the_line_may_fail(rt: HostRuntime) -> Result<(), Fail> {
    let alloc = rt.alloc();
    for command in READERS {
        for (tell_fails, told) in TOLD {
            let devices = Devices {
                write_most: 6,
                read_fails: 1,
                tell_fails,
                ..pieces(4)
            };
            let holds = answers(alloc, command, "", told, 5, devices)?;
            expect(&rt, holds, command, tell_fails as usize);
        }
    }
    Ok(())
}

/// How many bytes of `RISE` there are, and the line that is told; at the other places they are a trace.
const CUTS: [(usize, &str); 13] = [
    (0, "line 0: no header\n"),
    (1, "line 1: field 1: bad name\n"),
    (2, "line 1: field 1: bad name\n"),
    (3, "line 1: field 1: bad name\n"),
    (4, "line 1: unknown column x\n"),
    (5, "line 1: field 2: bad name\n"),
    (6, "line 1: no rows\n"),
    (7, "line 1: no rows\n"),
    (8, "line 2: 1 fields\n"),
    (9, "line 2: field 2: bad number\n"),
    (12, "line 3: 1 fields\n"),
    (13, "line 3: 1 fields\n"),
    (14, "line 3: field 2: bad number\n"),
];

/// Whether a command of `x >= 5` on the first bytes of `RISE` is answered so.
fn answers_front(
    alloc: Global,
    command: &str,
    count: usize,
    out: &str,
    err: &str,
    status: u8,
) -> Result<bool, Fail> {
    let input = first_bytes(alloc, RISE, count)?;
    let case = Case {
        words: &[command, "x >= 5"],
        input: input.as_str(),
        out,
        err,
        status,
    };
    agrees(alloc, case, pieces(3))
}

#[test]
fn an_input_may_end_after_each_byte(rt: HostRuntime) -> Result<(), Fail> {
    for (count, err) in CUTS.iter() {
        for (command, _, _) in WHOLE.iter() {
            let holds = answers_front(rt.alloc(), command, *count, "", err, 4)?;
            expect(&rt, holds, command, *count);
        }
    }
    Ok(())
}

/// The streams of `RISE`, with what they write for its first row.
const FIRST: [(&str, &str); 3] = [
    ("watch", "[0,0] false\n"),
    ("early", DECIDED),
    ("rwatch", "[0] -5\n"),
];

#[test]
fn a_stream_answers_the_rows_before_the_byte_at_which_an_input_ends(
    rt: HostRuntime,
) -> Result<(), Fail> {
    for (count, err) in CUTS.iter() {
        for (command, out) in FIRST.iter() {
            let told = if *count < 11 { "" } else { *out };
            let holds = answers_front(rt.alloc(), command, *count, told, err, 4)?;
            expect(&rt, holds, command, *count);
        }
    }
    Ok(())
}

/// What each command writes for the first 10 bytes of `RISE` and for the first 15, which are traces, and the status.
const FRONTS: [(&str, &str, &str, u8); 8] = [
    (
        "check",
        "[0,0] false\nstart false\n",
        "[0,10] false\nstart false\n",
        1,
    ),
    (
        "robust",
        "[0] -5\n",
        "[0] -5\n(0,10) -5 -> -4\n[10] -4\n",
        0,
    ),
    (
        "explain",
        "start false\nx >= 5 false on [0,0]\n",
        "start false\nx >= 5 false on [0,0]\n",
        1,
    ),
    (
        "json",
        "{\"formula\":\"x >= 5\",\"items\":[{\"atom\":\"x >= 5\",\"on\":\"[0,0]\",\"value\":false}],\"margins\":[{\"at\":\"0\",\"margin\":\"-5\"}],\"start\":false,\"verdicts\":[{\"on\":\"[0,0]\",\"value\":false}]}\n",
        "{\"formula\":\"x >= 5\",\"items\":[{\"atom\":\"x >= 5\",\"on\":\"[0,0]\",\"value\":false}],\"margins\":[{\"at\":\"0\",\"margin\":\"-5\"},{\"from\":\"-5\",\"on\":\"(0,10)\",\"to\":\"-4\"},{\"at\":\"10\",\"margin\":\"-4\"}],\"start\":false,\"verdicts\":[{\"on\":\"[0,10]\",\"value\":false}]}\n",
        1,
    ),
    (
        "table",
        "time,margin,from,to\n0,-5,,\n",
        "time,margin,from,to\n0,-5,-5,-4\n10,-4,,\n",
        0,
    ),
    (
        "watch",
        "[0,0] false\nstart false\n",
        "[0,0] false\n(0,10] false\nstart false\n",
        1,
    ),
    ("early", DECIDED, DECIDED, 1),
    (
        "rwatch",
        "[0] -5\n",
        "[0] -5\n(0,10) -5 -> -4\n[10] -4\n",
        0,
    ),
];

#[test]
fn a_row_may_lack_its_line_feed(rt: HostRuntime) -> Result<(), Fail> {
    for (command, ten, fifteen, status) in FRONTS.iter() {
        let first = answers_front(rt.alloc(), command, 10, ten, "", *status)?;
        expect(&rt, first, command, 10);
        let second = answers_front(rt.alloc(), command, 15, fifteen, "", *status)?;
        expect(&rt, second, command, 15);
    }
    Ok(())
}
