//! `robust` as a whole: tables of margins from outside, over sources and sinks in memory.
use crate::expecting::{expect, expect_each};
use program_cases::{Asked, Case, agrees, pieces};
use std::alloc::{AllocError, Global};
use std::test::Fail;

const TRIANGLE: &str = "time,x\n0,0\n5,5\n10,0\n";

const VALLEY: &str = "time,x\n0,6\n3,0\n9,6\n";

const RISE: &str = "time,x\n0,0\n10,3\n";

const STEPS: &str = "time,q:step\n0,0\n4,1\n6,0\n8,0\n";

/// Two columns whose crossing in a window needs a denominator of 2^60 or more.
const CROSSING: &str = "time,x,y\n0,1048576,-1\n1048575,0,1048575\n2097152,1048575,0\n";

/// Formulas and inputs, what is written and told, and the status.
const MARGINS: [Asked<'static>; 12] = [
    (
        "eventually[0,3] x >= 0",
        VALLEY,
        "[0] 6\n(0,2) 6 -> 2\n[2] 2\n(2,6) 2 -> 6\n[6] 6\n(6,9) 6 -> 6\n[9] 6\n",
        "",
        0,
    ),
    (
        "always[3,4] x >= 0",
        TRIANGLE,
        "[0] 3\n(0,3/2) 3 -> 9/2\n[3/2] 9/2\n(3/2,6) 9/2 -> 0\n[6] 0\n(6,7) 0 -> 0\n[7] 0\n(7,10) inf -> inf\n[10] inf\n",
        "",
        0,
    ),
    (
        "x >= 0 until[0,10] x <= 3",
        TRIANGLE,
        "[0] 0\n(0,3/2) 0 -> 3/2\n[3/2] 3/2\n(3/2,17/2) 3/2 -> 3/2\n[17/2] 3/2\n(17/2,10) 3/2 -> 0\n[10] 0\n",
        "",
        0,
    ),
    ("true", "time,x\n100,7\n", "[100] inf\n", "", 0),
    (
        "false",
        "time,x\n0,7\n9,8\n",
        "[0] -inf\n(0,9) -inf -> -inf\n[9] -inf\n",
        "",
        0,
    ),
    (
        "x >= 1.5",
        RISE,
        "[0] -3/2\n(0,10) -3/2 -> 3/2\n[10] 3/2\n",
        "",
        0,
    ),
    (
        "not x >= 1.5",
        RISE,
        "[0] 3/2\n(0,10) 3/2 -> -3/2\n[10] -3/2\n",
        "",
        0,
    ),
    (
        "x <= 1",
        TRIANGLE,
        "[0] 1\n(0,5) 1 -> -4\n[5] -4\n(5,10) -4 -> 1\n[10] 1\n",
        "",
        0,
    ),
    (
        "q >= 1",
        STEPS,
        "[0] -1\n(0,4) -1 -> -1\n[4] 0\n(4,6) 0 -> 0\n[6] -1\n(6,8) -1 -> -1\n[8] -1\n",
        "",
        0,
    ),
    ("x > 2", "time,x\n7,5\n", "[7] 3\n", "", 0),
    (
        "x >= 0",
        "time:1,x:2\n0.5,0.25\n1.5,1.75\n",
        "[1/2] 1/4\n(1/2,3/2) 1/4 -> 7/4\n[3/2] 7/4\n",
        "",
        0,
    ),
    // the verdicts of this formula are never too wide
    (
        "(always[0,1000] eventually[0,1048575] x >= 0) and y >= 0",
        CROSSING,
        "",
        "wide: node 4 needs denominator 2305841909703114752\n",
        8,
    ),
];

#[test]
fn margins_are_written_however_the_bytes_are_cut(rt: HostRuntime) -> Result<(), Fail> {
    expect_each(&rt, rt.alloc(), "robust", &MARGINS)
}

/// Rows at the times from 0 on, whose values fall by one to 0.
fn falling(alloc: Global, rows: usize) -> Result<String, AllocError> {
    let mut text = String::from_str(alloc, "time,x:step\n")?;
    for k in 0..rows {
        write!(text, "{k},{}\n", rows - 1 - k)?;
    }
    Ok(text)
}

#[test]
fn a_long_window_over_many_rows_is_measured(rt: HostRuntime) -> Result<(), Fail> {
    let alloc = rt.alloc();
    let input = falling(alloc, 200_000)?;
    let case = Case {
        words: &["robust", "always[0,200000] x >= 0"],
        input: input.as_str(),
        out: "[0] 0\n(0,199999) 0 -> 0\n[199999] 0\n",
        err: "",
        status: 0,
    };
    expect(&rt, agrees(alloc, case, pieces(4096))?, "robust", 200_000);
    Ok(())
}
