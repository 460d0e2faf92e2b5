//! `explain` as a whole: tables of explanations from outside, over sources and sinks in memory.
use crate::expecting::{expect, expect_each};
use program_cases::{Asked, Case, agrees, pieces};
use std::alloc::{AllocError, Global};
use std::test::Fail;

const TRIANGLE: &str = "time,x\n0,0\n5,5\n10,0\n";

const INSTANT: &str = "time,x,y\n0,0,0\n";

const STEPS: &str = "time,x:step\n0,0\n1,1\n2,0\n3,1\n";

/// Formulas and inputs, what is written and told, and the status.
const REASONS: [Asked<'static>; 13] = [
    (
        "always[0,10] x <= 5",
        "time,x\n0,0\n5,7\n10,0\n",
        "start false\nx <= 5 false on (25/7,45/7)\n",
        "",
        1,
    ),
    (
        "eventually[0,3] x >= 5",
        TRIANGLE,
        "start false\nx >= 5 false on [0,3]\n",
        "",
        1,
    ),
    (
        "eventually]0,2] x >= 7",
        TRIANGLE,
        "start false\nx >= 7 false on (0,2]\n",
        "",
        1,
    ),
    (
        "always[0,1500] (brake >= 1 implies eventually[0,199] speed <= 100)",
        "time,brake:step,speed\n0,0,300\n1000,1,300\n1300,1,0\n2000,0,0\n",
        "start false\nbrake >= 1 true on [1000,1000]\nspeed <= 100 false on [1000,1199]\n",
        "",
        1,
    ),
    (
        "always[0,1.5] (brake >= 1 implies eventually[0,0.199] speed <= 10)",
        "time:3,brake:step,speed:1\n0,0,30.0\n1,1,30\n1.3,1,0\n2,0,0\n",
        "start false\nbrake >= 1 true on [1,1]\nspeed <= 10 false on [1,1199/1000]\n",
        "",
        1,
    ),
    (
        "x >= 5 and y >= 1",
        INSTANT,
        "start false\nx >= 5 false on [0,0]\n",
        "",
        1,
    ),
    (
        "x >= 5 or y >= 1",
        INSTANT,
        "start false\nx >= 5 false on [0,0]\ny >= 1 false on [0,0]\n",
        "",
        1,
    ),
    ("false", INSTANT, "start false\n", "", 1),
    (
        "always[0,100000] x >= 1",
        STEPS,
        "start false\nx >= 1 false on [0,0]\n",
        "",
        1,
    ),
    // The constant is printed as the formula has it, the time in units of the trace.
    (
        "2*x - y >= -1.50",
        "time:1,x:2,y:3\n0.5,-1.00,0.25\n",
        "start false\n2*x - y >= -1.5 false on [1/2,1/2]\n",
        "",
        1,
    ),
    // Spans of one atom that do not touch are two lines.
    (
        "eventually[0,2] (x >= 1 and y >= 1)",
        "time,x,y\n0,0,1\n1,1,0\n2,0,1\n",
        "start false\nx >= 1 false on [0,0]\nx >= 1 false on [2,2]\ny >= 1 false on (0,2)\n",
        "",
        1,
    ),
    // So are two with one time between them, of which that time's cell was dropped.
    (
        "eventually[0,2] (x >= 1 and y > 0)",
        "time,x,y\n0,0,1\n1,1,0\n2,0,1\n",
        "start false\nx >= 1 false on [0,1)\nx >= 1 false on (1,2]\ny > 0 false on [1,1]\n",
        "",
        1,
    ),
    ("x >= 7", "time,x\n100,7\n", "start true\n", "", 0),
];

#[test]
fn violations_are_explained(rt: HostRuntime) -> Result<(), Fail> {
    expect_each(&rt, rt.alloc(), "explain", &REASONS)
}

/// Commands and formulas over rows that are 0 and 1 in turn, how many rows there are, what is written, what is told and the status. The
/// last two have more than 65,536 cells.
const MANY: [(&str, &str, usize, &str, &str, u8); 4] = [
    (
        "check",
        "always[0,100000] x >= 1",
        32_768,
        "[0,32767) false\n[32767,32767] true\nstart false\n",
        "",
        1,
    ),
    (
        "explain",
        "always[0,100000] x >= 1",
        32_768,
        "start false\nx >= 1 false on [0,0]\n",
        "",
        1,
    ),
    (
        "explain",
        "always[0,100000] x >= 1",
        32_769,
        "",
        "too many cells: 65538\n",
        9,
    ),
    (
        "explain",
        "x >= 1 and true",
        32_769,
        "",
        "too many cells: 65541\n",
        9,
    ),
];

/// Rows at the times from 0 on, whose values go to and fro between 0 and 1.
fn to_and_fro(alloc: Global, rows: usize) -> Result<String, AllocError> {
    let mut text = String::from_str(alloc, "time,x:step\n")?;
    for k in 0..rows {
        write!(text, "{k},{}\n", k % 2)?;
    }
    Ok(text)
}

#[test]
fn many_rows_are_judged_and_65536_cells_explained(rt: HostRuntime) -> Result<(), Fail> {
    let alloc = rt.alloc();
    for (command, formula, rows, out, err, status) in MANY {
        let text = to_and_fro(alloc, rows)?;
        let case = Case {
            words: &[command, formula],
            input: text.as_str(),
            out,
            err,
            status,
        };
        expect(&rt, agrees(alloc, case, pieces(4096))?, formula, rows);
    }
    Ok(())
}
