//! The verdicts of `check`, over sources and sinks in memory, with tables of answers from outside.
use crate::expecting::expect_each;
use program_cases::Asked;
use std::test::Fail;

const RISE: &str = "time,x\n0,0\n10,10\n";

const TRIANGLE: &str = "time,x\n0,0\n5,5\n10,0\n";

const INSTANT: &str = "time,x\n0,0\n";

const STEPS: &str = "time,q:step\n0,0\n4,1\n6,0\n8,0\n";

/// Formulas without windows and inputs, what is written and told, and the status.
const VERDICTS: [Asked<'static>; 16] = [
    (
        "x >= 5",
        RISE,
        "[0,5) false\n[5,10] true\nstart false\n",
        "",
        1,
    ),
    (
        "x > 5",
        RISE,
        "[0,5] false\n(5,10] true\nstart false\n",
        "",
        1,
    ),
    (
        "x >= 3",
        "time,x\n0,0\n10,7\n",
        "[0,30/7) false\n[30/7,10] true\nstart false\n",
        "",
        1,
    ),
    (
        "x >= 5",
        TRIANGLE,
        "[0,5) false\n[5,5] true\n(5,10] false\nstart false\n",
        "",
        1,
    ),
    (
        "x >= 7",
        "time,x\n100,7\n",
        "[100,100] true\nstart true\n",
        "",
        0,
    ),
    (
        "x >= 1",
        "time,x\n0,0\n4294967295,16777216\n",
        "[0,4294967295/16777216) false\n[4294967295/16777216,4294967295] true\nstart false\n",
        "",
        1,
    ),
    (
        "not (x >= 5 or x < 1)",
        TRIANGLE,
        "[0,1) false\n[1,5) true\n[5,5] false\n(5,9] true\n(9,10] false\nstart false\n",
        "",
        1,
    ),
    (
        "x >= 5",
        "\r\ntime,x\r\n0,0\r\n10,10",
        "[0,5) false\n[5,10] true\nstart false\n",
        "",
        1,
    ),
    (
        "x >= 5",
        " \t\r\ntime,x\r\n0,0\r\n10,10",
        "[0,5) false\n[5,10] true\nstart false\n",
        "",
        1,
    ),
    (
        "q >= 1",
        STEPS,
        "[0,4) false\n[4,6) true\n[6,8] false\nstart false\n",
        "",
        1,
    ),
    (
        "2*x - 3*y >= 1",
        "time,x,y:step\n0,0,0\n4,8,1\n6,8,0\n",
        "[0,1/4) false\n[1/4,6] true\nstart false\n",
        "",
        1,
    ),
    ("0*x >= 0", TRIANGLE, "[0,10] true\nstart true\n", "", 0),
    (
        "true",
        "time,x\n4294967295,-16777216\n",
        "[4294967295,4294967295] true\nstart true\n",
        "",
        0,
    ),
    (
        "16*x >= 1073741824",
        INSTANT,
        "[0,0] false\nstart false\n",
        "",
        1,
    ),
    (
        "x + x + x + x >= 0",
        INSTANT,
        "[0,0] true\nstart true\n",
        "",
        0,
    ),
    (
        "x >= 1.5",
        "time,x\n0,0\n10,3\n",
        "[0,5) false\n[5,10] true\nstart false\n",
        "",
        1,
    ),
];

/// Formulas with windows and inputs, what is written and told, and the status.
const WINDOWS: [Asked<'static>; 21] = [
    (
        "eventually[0,2] x >= 5",
        TRIANGLE,
        "[0,3) false\n[3,5] true\n(5,10] false\nstart false\n",
        "",
        1,
    ),
    (
        "always[3,4] false",
        TRIANGLE,
        "[0,7] false\n(7,10] true\nstart false\n",
        "",
        1,
    ),
    (
        "once[1,2] q >= 1",
        STEPS,
        "[0,5) false\n[5,8) true\n[8,8] false\nstart false\n",
        "",
        1,
    ),
    (
        "p >= 1 since q >= 1",
        "time,p:step,q:step\n0,1,0\n4,1,1\n6,0,0\n8,1,0\n",
        "[0,4) false\n[4,6) true\n[6,8] false\nstart false\n",
        "",
        1,
    ),
    (
        "true until[8,9] x >= 0",
        TRIANGLE,
        "[0,2] true\n(2,10] false\nstart true\n",
        "",
        0,
    ),
    (
        "eventually[2,2] x >= 5",
        TRIANGLE,
        "[0,3) false\n[3,3] true\n(3,10] false\nstart false\n",
        "",
        1,
    ),
    (
        "(always[0,1000] eventually[0,1048575] x >= 0) and y >= 0",
        "time,x,y\n0,1048576,-1\n1048575,0,1048575\n2097152,1048575,0\n",
        "[0,1048575/1048576) false\n[1048575/1048576,2097152] true\nstart false\n",
        "",
        1,
    ),
    (
        "always[0,1500] (brake >= 1 implies eventually[0,200] speed <= 100)",
        "time,brake:step,speed\n0,0,300\n1000,1,300\n1300,1,0\n2000,0,0\n",
        "[0,2000] true\nstart true\n",
        "",
        0,
    ),
    (
        "always[0,1500] (brake >= 1 implies eventually[0,199] speed <= 100)",
        "time,brake:step,speed\n0,0,300\n1000,1,300\n1300,1,0\n2000,0,0\n",
        "[0,1001) false\n[1001,2000] true\nstart false\n",
        "",
        1,
    ),
    (
        "historically[0,1] x >= 1",
        TRIANGLE,
        "[0,2) false\n[2,9] true\n(9,10] false\nstart false\n",
        "",
        1,
    ),
    (
        "eventually[1,2] q >= 1",
        "time,q:step\n0,1\n4,0\n8,0\n",
        "[0,3) true\n[3,8] false\nstart true\n",
        "",
        0,
    ),
    (
        "once x >= 5",
        TRIANGLE,
        "[0,5) false\n[5,10] true\nstart false\n",
        "",
        1,
    ),
    (
        "p >= 1 until[0,8] q >= 1",
        "time,p:step,q:step\n0,1,0\n2,0,0\n4,1,1\n6,0,0\n8,0,0\n",
        "[0,4) false\n[4,6) true\n[6,8] false\nstart false\n",
        "",
        1,
    ),
    (
        "x >= 1 until[0,6] x >= 5",
        TRIANGLE,
        "[0,1) false\n[1,5] true\n(5,10] false\nstart false\n",
        "",
        1,
    ),
    (
        "eventually[0,4294967295] true",
        INSTANT,
        "[0,0] true\nstart true\n",
        "",
        0,
    ),
    (
        "once[4294967295,inf] true",
        INSTANT,
        "[0,0] false\nstart false\n",
        "",
        1,
    ),
    (
        "always[0,1.5] (brake >= 1 implies eventually[0,0.199] speed <= 10)",
        "time:3,brake:step,speed:1\n0,0,30.0\n1,1,30\n1.3,1,0\n2,0,0\n",
        "[0,1001/1000) false\n[1001/1000,2] true\nstart false\n",
        "",
        1,
    ),
    (
        "eventually]0,2] x >= 5",
        TRIANGLE,
        "[0,3) false\n[3,5) true\n[5,10] false\nstart false\n",
        "",
        1,
    ),
    (
        "eventually[0,2[ x >= 5",
        TRIANGLE,
        "[0,3] false\n(3,5] true\n(5,10] false\nstart false\n",
        "",
        1,
    ),
    (
        "eventually]2,2] x >= 5",
        TRIANGLE,
        "[0,10] false\nstart false\n",
        "",
        1,
    ),
    (
        "historically]0,1[ x >= 1",
        TRIANGLE,
        "[0,0] true\n(0,2) false\n[2,9] true\n(9,10] false\nstart true\n",
        "",
        0,
    ),
];

#[test]
fn verdicts_tell_the_truth_at_every_time(rt: HostRuntime) -> Result<(), Fail> {
    expect_each(&rt, rt.alloc(), "check", &VERDICTS)?;
    expect_each(&rt, rt.alloc(), "check", &WINDOWS)
}
