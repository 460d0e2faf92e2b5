//! `watch` as a whole: tables of answers from outside, for every cut, and many rows.
use crate::expecting::{expect, expect_each};
use program_cases::{Asked, Case, Devices, agrees, pieces};
use std::alloc::{AllocError, Global};
use std::test::Fail;

const TRIANGLE: &str = "time,x\n0,0\n5,5\n10,0\n";

const STEPS: &str = "time,p:step,q:step\n0,1,0\n4,1,1\n6,0,0\n8,1,0\n";

/// Formulas and inputs, what is written and told, and the status.
const STREAMS: [Asked<'static>; 9] = [
    (
        "eventually[0,2] x >= 5",
        TRIANGLE,
        "[0,3) false\n[3,3] true\n(3,5] true\n(5,8] false\n(8,10] false\nstart false\n",
        "",
        1,
    ),
    (
        "true until[8,9] x >= 0",
        TRIANGLE,
        "[0,1] true\n(1,2] true\n(2,10] false\nstart true\n",
        "",
        0,
    ),
    (
        "p >= 1 since q >= 1",
        STEPS,
        "[0,0] false\n(0,4) false\n[4,4] true\n(4,6) true\n[6,6] false\n(6,8] false\nstart false\n",
        "",
        1,
    ),
    (
        "p >= 1 until[0,8] q >= 1",
        "time,p:step,q:step\n0,1,0\n2,0,0\n4,1,1\n6,0,0\n8,0,0\n",
        "[0,0] false\n(0,4) false\n[4,6) true\n[6,8] false\nstart false\n",
        "",
        1,
    ),
    (
        "eventually]0,2] x >= 5",
        TRIANGLE,
        "[0,3) false\n[3,3] true\n(3,5) true\n[5,8] false\n(8,10] false\nstart false\n",
        "",
        1,
    ),
    (
        "eventually[0,2[ x >= 5",
        TRIANGLE,
        "[0,3] false\n(3,5] true\n(5,8] false\n(8,10] false\nstart false\n",
        "",
        1,
    ),
    (
        "x >= 1",
        "time,x\n0,0\n5,1\n5,2\n",
        "[0,0] false\n(0,5) false\n[5,5] true\n",
        "line 4: time not rising\n",
        4,
    ),
    (
        "x >= 1 and z >= 0",
        "time,x\n0,0\n",
        "",
        "line 1: unknown column z\n",
        4,
    ),
    ("x >= 1", "time,x\n\n", "", "line 2: no rows\n", 4),
];

#[test]
fn rows_are_answered_as_they_come(rt: HostRuntime) -> Result<(), Fail> {
    expect_each(&rt, rt.alloc(), "watch", &STREAMS)
}

/// Rows at the times from 0 on, all of value 0.
fn flat(alloc: Global, rows: u32) -> Result<String, AllocError> {
    let mut text = String::from_str(alloc, "time,x\n")?;
    for k in 0..rows {
        write!(text, "{k},0\n")?;
    }
    Ok(text)
}

/// The lines of a formula that is false there and looks back: one a row.
fn never(alloc: Global, rows: u32) -> Result<String, AllocError> {
    let mut text = String::from_str(alloc, "[0,0] false\n")?;
    for k in 1..rows {
        write!(text, "({},{k}] false\n", k - 1)?;
    }
    text.push_str("start false\n")?;
    Ok(text)
}

#[test]
fn many_rows_are_answered_one_by_one(rt: HostRuntime) -> Result<(), Fail> {
    let alloc = rt.alloc();
    let (input, out) = (flat(alloc, 200_000)?, never(alloc, 200_000)?);
    let case = Case {
        words: &["watch", "once x >= 5"],
        input: input.as_str(),
        out: out.as_str(),
        err: "",
        status: 1,
    };
    let devices = Devices {
        room: 8_388_608,
        ..pieces(4096)
    };
    expect(&rt, agrees(alloc, case, devices)?, "watch", 200_000);
    Ok(())
}
