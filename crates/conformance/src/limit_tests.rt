//! Limits of numbers with decimals, each at its number and one past it.
use crate::expecting::expect_each;
use program_cases::Asked;
use std::test::Fail;

const YES: &str = "[0,0] true\nstart true\n";

const NO: &str = "[0,0] false\nstart false\n";

const ZERO: &str = "time:6,x:6\n0,0\n";

/// Formulas and inputs, what is written and told, and the status.
const LIMITS: [Asked<'static>; 14] = [
    (
        "x >= 0.000001",
        "time:6,x:6\n0.000001,0.000001\n",
        "[1/1000000,1/1000000] true\nstart true\n",
        "",
        0,
    ),
    (
        "true",
        "time:7,x\n0,0\n",
        "",
        "line 1: field 1: bad mode\n",
        4,
    ),
    (
        "x >= 16.777216",
        "time:6,x:6\n4294.967295,16.777216\n",
        "[858993459/200000,858993459/200000] true\nstart true\n",
        "",
        0,
    ),
    (
        "true",
        "time:6,x:6\n4294.967296,16.777216\n",
        "",
        "line 2: field 1: out of range\n",
        4,
    ),
    (
        "true",
        "time:6,x:6\n4294.967295,-16.777217\n",
        "",
        "line 2: field 2: out of range\n",
        4,
    ),
    ("x >= 1073.741824", ZERO, NO, "", 1),
    ("x >= -1073.741824", ZERO, YES, "", 0),
    (
        "x >= 1073.741825",
        ZERO,
        "",
        "formula at 5: number too large\n",
        3,
    ),
    ("x >= 10737", "time,x:5\n0,0\n", NO, "", 1),
    (
        "x >= 10738",
        "time,x:5\n0,0\n",
        "",
        "line 1: node 0: constant out of range\n",
        4,
    ),
    ("eventually[0.000001,4294.967295] true", ZERO, NO, "", 1),
    (
        "eventually[0,4294.967296] true",
        ZERO,
        "",
        "formula at 13: number too large\n",
        3,
    ),
    (
        "always[0,4294.967294] once[0,0.000001] true",
        ZERO,
        YES,
        "",
        0,
    ),
    (
        "always[0,4294.967295] once[0,0.000001] true",
        ZERO,
        "",
        "formula: bounds sum to 4294967296\n",
        3,
    ),
];

#[test]
fn numbers_with_decimals_have_limits(rt: HostRuntime) -> Result<(), Fail> {
    expect_each(&rt, rt.alloc(), "check", &LIMITS)
}
