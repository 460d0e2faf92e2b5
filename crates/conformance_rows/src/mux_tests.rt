//! `mux` as a whole: tables of answers from outside, for every cut of the input, long lines, many tags, and devices that fail.
use crate::expecting::{expect, expect_each};
use program_cases::{Asked, Case, Devices, agrees, agrees_so_far, first_bytes, pieces};
use std::alloc::Global;
use std::test::Fail;

const BENCHES: &str =
    "a time,x\nb time,x\na 0,0\nb 0,9\na 5,5\nb 3,9\na ?\nb 2,0\na 10,0\nb 4,0\na .\n";

const TOLD: &str =
    "a [0,3) false\na [3,3] true\nb [0,1] true\na ? [0,3) false\na ? [3,3] true\nb line 4: time not rising\n\
                    a (3,5] true\na (5,8] false\na (8,10] false\na start false\n";

/// Formulas and inputs, what is written and told, and the status: a fault of the input ends the run.
const ANSWERED: [Asked<'static>; 17] = [
    ("eventually[0,2] x >= 5", BENCHES, TOLD, "", 0),
    ("true", "", "", "", 0),
    (
        "z >= 1073741824",
        "a time,x\nb time,z:1\n",
        "a line 1: unknown column z\nb line 1: node 0: constant out of range\n",
        "",
        0,
    ),
    (
        "true",
        "a time\r\n \t\r\n\na 3\r\n",
        "a [3,3] true\na start true\n",
        "",
        0,
    ),
    ("true", "a time\na 3", "a [3,3] true\na start true\n", "", 0),
    ("true", "a time\na", "a line 2: no rows\n", "", 0),
    (
        "true",
        "z time\ny\nz 1\ny .\nx time\ny ?\n",
        "z [1,1] true\ny line 1: no header\ny ? line 1: no header\nz start true\nx line 1: no rows\n",
        "",
        0,
    ),
    (
        "x >= 1",
        "b2\na_1 ?\nb2  time , x\n\t \nb2 0,1\na_1 .\nb2 .\nb2 ?\nb2 .\nb2 5,0",
        "b2 [0,0] true\na_1 line 0: no header\nb2 start true\nb2 ? [0,0] true\nb2 ? start true\n",
        "",
        0,
    ),
    (
        "x >= 1",
        "s time,x\ns ?\ns 0,0\ns 1,0\ns 2,0\ns 3,0\ns 4,0\ns 5,0\ns 6,0\ns 7,0\ns 8,0\ns 9,0\ns ?\ns x\ns ?\ns 9,9",
        "s [0,0] false\ns (0,1] false\ns (1,2] false\ns (2,3] false\ns (3,4] false\ns (4,5] false\ns (5,6] false\ns (6,7] false\ns (7,8] false\ns (8,9] false\n\
         s ? (1,2] false\ns ? (2,3] false\ns ? (3,4] false\ns ? (4,5] false\ns ? (5,6] false\ns ? (6,7] false\ns ? (7,8] false\ns ? (8,9] false\n\
         s line 12: 1 fields\n\
         s ? (2,3] false\ns ? (3,4] false\ns ? (4,5] false\ns ? (5,6] false\ns ? (6,7] false\ns ? (7,8] false\ns ? (8,9] false\ns ? line 12: 1 fields\n",
        "",
        0,
    ),
    (
        "x >= 1",
        "z time,x\ny time,x\nx time,x\nz 0,1\ny 0,0\nx 1,1",
        "z [0,0] true\ny [0,0] false\nx [1,1] true\nz start true\ny start false\nx start true\n",
        "",
        0,
    ),
    (
        "x >= 1",
        "a time,x\na 0,1 \na ? \na ..",
        "a [0,0] true\na line 3: 1 fields\n",
        "",
        0,
    ),
    ("true", "-a 0,0\n", "", "line 1: bad tag\n", 4),
    ("true", "-a 0,0", "", "line 1: bad tag\n", 4),
    (
        "true",
        "a time\na 3\n?\n",
        "a [3,3] true\n",
        "line 3: bad tag\n",
        4,
    ),
    (
        "true",
        "abcdefghijklmnop\n",
        "abcdefghijklmnop line 1: no header\n",
        "",
        0,
    ),
    (
        "true",
        "a time\na 3\nabcdefghijklmnopq 0",
        "a [3,3] true\n",
        "line 3: bad tag\n",
        4,
    ),
    ("true", "a time\n\n a 3\n", "", "line 3: bad tag\n", 4),
];

#[test]
fn sessions_are_answered_line_by_line(rt: HostRuntime) -> Result<(), Fail> {
    expect_each(&rt, rt.alloc(), "mux", &ANSWERED)
}

/// A line of so many bytes: a tag, a space, and a content of one letter.
fn long_line(alloc: Global, size: usize) -> Result<String, Fail> {
    let mut line = String::from_str(alloc, "a ")?;
    for _bytes in 2..size {
        line.push('x')?;
    }
    Ok(line)
}

#[test]
fn a_line_has_at_most_4113_bytes(rt: HostRuntime) -> Result<(), Fail> {
    let alloc = rt.alloc();
    let longest = long_line(alloc, 4113)?;
    let told = Case {
        words: &["mux", "true"],
        input: longest.as_str(),
        out: "a line 1: line too long\n",
        err: "",
        status: 0,
    };
    expect(&rt, agrees(alloc, told, pieces(4096))?, "mux", 4096);
    expect(&rt, agrees(alloc, told, pieces(1000))?, "mux", 1000);
    let longer = long_line(alloc, 4114)?;
    let refused = Case {
        words: &["mux", "true"],
        input: longer.as_str(),
        out: "",
        err: "line 1: line too long\n",
        status: 4,
    };
    expect(&rt, agrees(alloc, refused, pieces(4096))?, "mux", 4096);
    expect(&rt, agrees(alloc, refused, pieces(1000))?, "mux", 1000);
    Ok(())
}

/// So many lines, each a tag of its own.
fn tags(alloc: Global, count: u32) -> Result<String, Fail> {
    let mut all = String::from_str(alloc, "")?;
    for i in 0..count {
        let line = format!(in alloc; "t{i}\n")?;
        all.push_str(line.as_str())?;
    }
    Ok(all)
}

#[test]
fn the_1025th_tag_ends_the_run(rt: HostRuntime) -> Result<(), Fail> {
    let alloc = rt.alloc();
    let mut lines = tags(alloc, 1024)?;
    lines.push_str("t0 time,x\nt1023 time,x\nt0 0,1\nt1024\n")?;
    let case = Case {
        words: &["mux", "x >= 1"],
        input: lines.as_str(),
        out: "t0 [0,0] true\n",
        err: "line 1028: too many sessions\n",
        status: 4,
    };
    expect(&rt, agrees(alloc, case, pieces(4096))?, "mux", 4096);
    expect(&rt, agrees(alloc, case, pieces(77))?, "mux", 77);
    Ok(())
}

/// So many single bytes are read before the input fails, and so many bytes of the text are written.
const READ_FAULTS: [(u64, usize); 9] = [
    (0, 0),
    (35, 0),
    (36, 27),
    (41, 27),
    (42, 40),
    (46, 71),
    (52, 97),
    (58, 97),
    (59, 124),
];

#[test]
fn what_was_read_before_a_fault_is_answered(rt: HostRuntime) -> Result<(), Fail> {
    let alloc = rt.alloc();
    for (i, (bytes, written)) in READ_FAULTS.iter().enumerate() {
        let case = Case {
            words: &["mux", "eventually[0,2] x >= 5"],
            input: BENCHES,
            out: TOLD,
            err: "read fault\n",
            status: 5,
        };
        let devices = Devices {
            read_most: 1,
            read_fails: bytes + 1,
            ..pieces(4096)
        };
        expect(
            &rt,
            agrees_so_far(alloc, case, devices, *written)?,
            "mux",
            i,
        );
    }
    Ok(())
}

/// The write that fails, where each line's answer is one, and so many bytes of the text are written before it.
const WRITE_FAULTS: [(u64, usize); 6] = [(1, 0), (2, 27), (3, 40), (4, 71), (5, 97), (6, 124)];

#[test]
fn a_line_is_answered_before_the_next_is_read(rt: HostRuntime) -> Result<(), Fail> {
    let alloc = rt.alloc();
    for (i, (call, written)) in WRITE_FAULTS.iter().enumerate() {
        let case = Case {
            words: &["mux", "eventually[0,2] x >= 5"],
            input: BENCHES,
            out: TOLD,
            err: "write fault\n",
            status: 6,
        };
        let devices = Devices {
            read_most: 1,
            write_fails: *call,
            ..pieces(4096)
        };
        expect(
            &rt,
            agrees_so_far(alloc, case, devices, *written)?,
            "mux",
            i,
        );
    }
    Ok(())
}

/// How many bytes of `TRACE` there are, and what is written.
const CUTS: [(usize, &str); 24] = [
    (0, ""),
    (1, "a line 1: no header\n"),
    (2, "a line 1: no header\n"),
    (3, "a line 1: field 1: bad name\n"),
    (4, "a line 1: field 1: bad name\n"),
    (5, "a line 1: field 1: bad name\n"),
    (6, "a line 1: unknown column x\n"),
    (7, "a line 1: field 2: bad name\n"),
    (8, "a line 1: no rows\n"),
    (9, "a line 1: no rows\n"),
    (10, "a line 2: no rows\n"),
    (11, "a line 2: no rows\n"),
    (12, "a line 2: 1 fields\n"),
    (13, "a line 2: field 2: bad number\n"),
    (14, "a [0,0] false\na start false\n"),
    (15, "a [0,0] false\na start false\n"),
    (16, "a [0,0] false\na start false\n"),
    (17, "a [0,0] false\na start false\n"),
    (18, "a [0,0] false\na line 3: 1 fields\n"),
    (19, "a [0,0] false\na line 3: 1 fields\n"),
    (20, "a [0,0] false\na line 3: field 2: bad number\n"),
    (21, "a [0,0] false\na (0,10] false\na start false\n"),
    (
        22,
        "a [0,0] false\na (0,5) false\na [5,10] true\na start false\n",
    ),
    (
        23,
        "a [0,0] false\na (0,5) false\na [5,10] true\na start false\n",
    ),
];

const TRACE: &str = "a time,x\na 0,0\na 10,10\n";

#[test]
fn an_input_of_sessions_may_end_after_each_byte(rt: HostRuntime) -> Result<(), Fail> {
    let alloc = rt.alloc();
    for (count, out) in CUTS.iter() {
        let input = first_bytes(alloc, TRACE, *count)?;
        let case = Case {
            words: &["mux", "x >= 5"],
            input: input.as_str(),
            out,
            err: "",
            status: 0,
        };
        expect(&rt, agrees(alloc, case, pieces(5))?, "mux", *count);
    }
    Ok(())
}
