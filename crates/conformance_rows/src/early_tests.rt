//! `early` as a whole: tables of answers from outside, for every cut.
use crate::expecting::{expect, expect_each};
use program_cases::{Asked, Case, Devices, agrees_so_far, pieces};
use std::test::Fail;

const TRIANGLE: &str = "time,x\n0,0\n5,5\n10,0\n";

/// Formulas and inputs, what is written and told, and the status.
const EARLY: [Asked<'static>; 11] = [
    (
        "always[0,10] x <= 5",
        "time,x\n0,0\n5,7\n10,0\n",
        "decided at 5\nstart false\n",
        "",
        1,
    ),
    (
        "eventually[0,10] x >= 5",
        TRIANGLE,
        "decided at 5\nstart true\n",
        "",
        0,
    ),
    (
        "eventually[0,20] x >= 7",
        TRIANGLE,
        "decided at end\nstart false\n",
        "",
        1,
    ),
    (
        "eventually[5,5] true",
        "time,x\n0,0\n4,0\n",
        "decided at end\nstart false\n",
        "",
        1,
    ),
    (
        "eventually[5,5] true",
        "time,x\n0,0\n5,0\n",
        "decided at 5\nstart true\n",
        "",
        0,
    ),
    (
        "x >= 1",
        "time:1,x\n0.5,2\n1.0,0\n",
        "decided at 1/2\nstart true\n",
        "",
        0,
    ),
    (
        "always[0,10] x <= 5",
        "time,x\n0,0\n5,7",
        "decided at 5\nstart false\n",
        "",
        1,
    ),
    (
        "always[0,10] x <= 5",
        "time,x\n0,0\n5,7\n5,0\n",
        "decided at 5\nstart false\n",
        "line 4: time not rising\n",
        4,
    ),
    (
        "always[0,10] x <= 5",
        "time,x\n0,0\n5,5\n5,7\n",
        "",
        "line 4: time not rising\n",
        4,
    ),
    (
        "x >= 1 and z >= 0",
        "time,x\n0,0\n",
        "",
        "line 1: unknown column z\n",
        4,
    ),
    ("x >= 1", "time,x\n\n", "", "line 2: no rows\n", 4),
];

#[test]
fn the_row_that_decides_is_told_however_the_bytes_are_cut(rt: HostRuntime) -> Result<(), Fail> {
    expect_each(&rt, rt.alloc(), "early", &EARLY)
}

/// Formulas and traces of at least twenty bytes, how many there are up to the end of the line of the row that decides, and what is then
/// written.
const ENDED: [(&str, &str, u64, &str); 3] = [
    (
        "always[0,10] x <= 5",
        "time,x\n0,0\n5,7\n10,0\n",
        15,
        "decided at 5\nstart false\n",
    ),
    (
        "eventually[0,10] x >= 5",
        "time,x\r\n0,0\r\n10,10\r\n",
        20,
        "decided at 10\nstart true\n",
    ),
    (
        "eventually[0,20] x >= 7",
        TRIANGLE,
        1000,
        "decided at end\nstart false\n",
    ),
];

#[test]
fn nothing_is_told_before_the_line_of_the_row_that_decides_has_ended(
    rt: HostRuntime,
) -> Result<(), Fail> {
    let alloc = rt.alloc();
    for (i, (formula, input, ended, out)) in ENDED.iter().enumerate() {
        let words: &[&str] = &["early", formula];
        let case = Case {
            words,
            input,
            out,
            err: "read fault\n",
            status: 5,
        };
        for bytes in 0..=20u64 {
            let devices = Devices {
                read_fails: bytes + 1,
                ..pieces(1)
            };
            let written = if bytes < *ended { 0 } else { out.len() };
            expect(
                &rt,
                agrees_so_far(alloc, case, devices, written)?,
                formula,
                i,
            );
        }
    }
    Ok(())
}
