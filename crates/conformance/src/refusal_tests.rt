//! What the program refuses: formulas, bytes, texts that are too long, words of no form, and devices that fail, with what is told of it.
use crate::expecting::{expect, expect_each};
use program_cases::{Asked, Case, Devices, agrees, agrees_however_cut, pieces};
use std::alloc::{AllocError, Global};
use std::process::Abort;
use std::test::Fail;

const RISE: &str = "time,x\n0,0\n10,10\n";

const TRIANGLE: &str = "time,x\n0,0\n5,5\n10,0\n";

const INSTANT: &str = "time,x\n0,0\n";

/// Formulas that are refused before anything is read, and what is told of them.
const REFUSED: [Asked<'static>; 25] = [
    (
        "eventually x >= 1",
        INSTANT,
        "",
        "formula at 0: unbounded future\n",
        3,
    ),
    (
        "x >=",
        INSTANT,
        "",
        "formula at 4: expected a constant\n",
        3,
    ),
    (
        "eventually[3,2] x >= 1",
        INSTANT,
        "",
        "formula at 13: bounds out of order\n",
        3,
    ),
    (
        "eventually[0,4294967295] always[0,1] x >= 0",
        INSTANT,
        "",
        "formula: bounds sum to 4294967296\n",
        3,
    ),
    (
        "17*x >= 0",
        INSTANT,
        "",
        "formula at 0: number too large\n",
        3,
    ),
    (
        "x >= 1073741825",
        INSTANT,
        "",
        "formula at 5: number too large\n",
        3,
    ),
    (
        "x >= -1073741825",
        INSTANT,
        "",
        "formula at 6: number too large\n",
        3,
    ),
    (
        "eventually[0,4294967296] true",
        INSTANT,
        "",
        "formula at 13: number too large\n",
        3,
    ),
    (
        "eventually[0,inf] true",
        INSTANT,
        "",
        "formula at 13: unbounded future\n",
        3,
    ),
    (
        "once[4294967295,inf] once[1,inf] true",
        INSTANT,
        "",
        "formula: bounds sum to 4294967296\n",
        3,
    ),
    (
        "x + x + x + x + x >= 0",
        INSTANT,
        "",
        "formula at 14: more than 4 terms\n",
        3,
    ),
    (
        "(true",
        INSTANT,
        "",
        "formula at 5: expected a closing parenthesis\n",
        3,
    ),
    (
        "true true",
        INSTANT,
        "",
        "formula at 5: expected a connective or the end\n",
        3,
    ),
    ("not", INSTANT, "", "formula at 3: expected an operand\n", 3),
    (
        "2 x >= 0",
        INSTANT,
        "",
        "formula at 2: expected a star\n",
        3,
    ),
    ("2* >= 0", INSTANT, "", "formula at 3: expected a name\n", 3),
    (
        "x + >= 0",
        INSTANT,
        "",
        "formula at 4: expected a term\n",
        3,
    ),
    ("x 5", INSTANT, "", "formula at 2: expected a relation\n", 3),
    (
        "eventually[x,2] true",
        INSTANT,
        "",
        "formula at 11: expected a number\n",
        3,
    ),
    (
        "eventually[1 2] true",
        INSTANT,
        "",
        "formula at 13: expected a comma\n",
        3,
    ),
    (
        "eventually[1,2 true",
        INSTANT,
        "",
        "formula at 15: expected a closing bracket\n",
        3,
    ),
    ("x >= 1.", INSTANT, "", "formula at 6: bad byte\n", 3),
    (
        "x >= 0.0000001",
        INSTANT,
        "",
        "formula at 5: number too large\n",
        3,
    ),
    (
        "x >= 0.5 and x >= 1073741824",
        INSTANT,
        "",
        "formula: node 1: constant too large\n",
        3,
    ),
    (
        "true until]0,2] x >= 5",
        INSTANT,
        "",
        "formula at 5: unbounded future\n",
        3,
    ),
];

/// Formulas, bytes that are no trace for them, and what is told.
const FAULTY: [Asked<'static>; 27] = [
    (
        "x >= 1",
        "time,x\n0,0\n5,1\n5,2\n",
        "",
        "line 4: time not rising\n",
        4,
    ),
    ("z >= 1", TRIANGLE, "", "line 1: unknown column z\n", 4),
    (
        "x >= 1",
        "time,x\n0,0\n4294967295,16777217\n",
        "",
        "line 3: field 2: out of range\n",
        4,
    ),
    ("true", "", "", "line 0: no header\n", 4),
    ("true", "time,x\n", "", "line 1: no rows\n", 4),
    ("true", "time,x", "", "line 1: no rows\n", 4),
    ("x >= 5", "time", "", "line 1: unknown column x\n", 4),
    ("x >= 5", "", "", "line 0: no header\n", 4),
    ("x >= 5", "time,x", "", "line 1: no rows\n", 4),
    ("true", "time,time\n", "", "line 1: field 2: same name\n", 4),
    (
        "true",
        "time,x:jump\n",
        "",
        "line 1: field 2: bad mode\n",
        4,
    ),
    ("true", "time,x:\n", "", "line 1: field 2: bad mode\n", 4),
    ("true", "time,2x\n", "", "line 1: field 2: bad name\n", 4),
    ("true", "Time,x\n", "", "line 1: field 1: bad name\n", 4),
    (
        "true",
        "time,x\n4294967296,0\n",
        "",
        "line 2: field 1: out of range\n",
        4,
    ),
    (
        "true",
        "time,x\n0,-16777217\n",
        "",
        "line 2: field 2: out of range\n",
        4,
    ),
    (
        "true",
        "time,x\n0,1.5\n",
        "",
        "line 2: field 2: bad number\n",
        4,
    ),
    (
        "true",
        "time,x\n0,+\n",
        "",
        "line 2: field 2: bad number\n",
        4,
    ),
    ("true", "time,x\n0,1,\n", "", "line 2: 3 fields\n", 4),
    (
        "true",
        "time,x\n-1,0\n",
        "",
        "line 2: field 1: out of range\n",
        4,
    ),
    (
        "x >= 1.5",
        "time,x\n0,16777216\n",
        "",
        "line 2: field 2: out of range\n",
        4,
    ),
    (
        "x >= 1073741824",
        "time,x:1\n0,0\n",
        "",
        "line 1: node 0: constant out of range\n",
        4,
    ),
    (
        "eventually[0,4294967295] x >= 0",
        "time:1,x\n0,0\n",
        "",
        "line 1: bounds sum to 42949672950\n",
        4,
    ),
    (
        "z >= 1073741824",
        "time,x:1\n0,0\n",
        "",
        "line 1: unknown column z\n",
        4,
    ),
    (
        "z >= 1",
        "time,x\n0,0\nbad\n",
        "",
        "line 1: unknown column z\n",
        4,
    ),
    ("z >= 1", "time,x\n", "", "line 1: unknown column z\n", 4),
    (
        "x >= 1 and z >= 1",
        "\ntime,x\nbad",
        "",
        "line 2: unknown column z\n",
        4,
    ),
];

#[test]
fn the_first_fault_of_the_formula_or_the_bytes_is_told(rt: HostRuntime) -> Result<(), Fail> {
    expect_each(&rt, rt.alloc(), "check", &REFUSED)?;
    expect_each(&rt, rt.alloc(), "check", &FAULTY)
}

/// Whether `check` of a formula on a trace is answered so, however the input is cut.
fn checks(
    alloc: Global,
    formula: &str,
    input: &str,
    out: &str,
    err: &str,
    status: u8,
) -> Result<bool, Fail> {
    let words: &[&str] = &["check", formula];
    let case = Case {
        words,
        input,
        out,
        err,
        status,
    };
    agrees_however_cut(alloc, case, input.len().min(24))
}

fn repeated(
    alloc: Global,
    first: &str,
    unit: &str,
    times: usize,
    last: &str,
) -> Result<String, AllocError> {
    let mut text = String::from_str(alloc, first)?;
    for _ in 0..times {
        text.push_str(unit)?;
    }
    text.push_str(last)?;
    Ok(text)
}

/// The text of a header with so many columns beside the time.
fn wide_header(alloc: Global, columns: usize, last: &str) -> Result<String, AllocError> {
    let mut text = String::from_str(alloc, "time")?;
    for k in 0..columns {
        write!(text, ",c{k}")?;
    }
    text.push_str(last)?;
    Ok(text)
}

const YES: &str = "[0,0] true\nstart true\n";

const NO: &str = "[0,0] false\nstart false\n";

/// A text of a front, so many times a unit, and a back; what is told of it, and the status.
type Long<'a> = (&'a str, &'a str, usize, &'a str, &'a str, u8);

const LONG_FORMULAS: [Long; 7] = [
    ("", "not ", 64, "true", "", 0),
    (
        "",
        "not ",
        65,
        "true",
        "formula at 256: nested deeper than 64\n",
        3,
    ),
    ("not true", " and true", 127, "", "", 1),
    (
        "true",
        " and true",
        128,
        "",
        "formula at 1152: more than 256 nodes\n",
        3,
    ),
    ("true", " ", 8188, "", "", 0),
    ("true", " ", 8189, "", "formula: 8193 bytes\n", 3),
    ("", " ", 8193, "", "formula: 8193 bytes\n", 3),
];

const LONG_TRACES: [Long; 5] = [
    ("time,x\n0,", "0", 4094, "\n", "", 0),
    ("time,x\n0,", "0", 4095, "\n", "line 2: line too long\n", 4),
    (
        "time,x\n0,",
        "0",
        4094,
        "\r\n",
        "line 2: line too long\n",
        4,
    ),
    ("time,", "n", 64, "\n0,0\n", "", 0),
    ("time,", "n", 65, "\n", "line 1: field 2: bad name\n", 4),
];

/// Whether the text of a row, as a formula or as a trace, is answered so.
fn checks_long(alloc: Global, row: &Long, is_formula: bool) -> Result<bool, Fail> {
    let (first, unit, times, last, err, status) = *row;
    let text = repeated(alloc, first, unit, times, last)?;
    let out = match status {
        0 => YES,
        1 => NO,
        _ => "",
    };
    if is_formula {
        return checks(alloc, text.as_str(), INSTANT, out, err, status);
    }
    checks(alloc, "true", text.as_str(), out, err, status)
}

/// Stops at the first row that is answered otherwise.
fn expect_long(
    rt: &impl Abort,
    alloc: Global,
    table: &[Long],
    is_formula: bool,
) -> Result<(), Fail> {
    for (i, row) in table.iter().enumerate() {
        expect(rt, checks_long(alloc, row, is_formula)?, "long", i);
    }
    Ok(())
}

#[test]
fn formulas_and_traces_have_limits(rt: HostRuntime) -> Result<(), Fail> {
    expect_long(&rt, rt.alloc(), &LONG_FORMULAS, true)?;
    expect_long(&rt, rt.alloc(), &LONG_TRACES, false)
}

/// Whether a header with so many columns beside the time, and `last`, is answered so.
fn checks_wide(
    alloc: Global,
    columns: usize,
    last: &str,
    out: &str,
    err: &str,
    status: u8,
) -> Result<bool, Fail> {
    let input = wide_header(alloc, columns, last)?;
    checks(alloc, "true", input.as_str(), out, err, status)
}

#[test]
fn a_trace_has_at_most_64_columns(rt: HostRuntime) -> Result<(), Fail> {
    let alloc = rt.alloc();
    let row = repeated(alloc, "\n0", ",0", 64, "\n")?;
    expect(
        &rt,
        checks_wide(alloc, 64, row.as_str(), YES, "", 0)?,
        "columns",
        64,
    );
    let told = "line 1: 65 columns\n";
    expect(
        &rt,
        checks_wide(alloc, 65, "\n", "", told, 4)?,
        "columns",
        65,
    );
    Ok(())
}

fn refused<'a>(words: &'a [&'a str], err: &'a str, status: u8) -> Case<'a> {
    Case {
        words,
        input: RISE,
        out: "",
        err,
        status,
    }
}

const USAGE: &str =
    "usage: check F | watch F | robust F | explain F | json F | table F | gen NUMBER ROWS | early F | mux F | rwatch F\n";

/// Words that are no form.
const NO_FORMS: [&[&str]; 15] = [
    &[],
    &["check"],
    &["gen"],
    &["gen", "1"],
    &["gen", "1", "1", "1"],
    &["gen", "1", "0"],
    &["gen", "1", "200001"],
    &["gen", "18446744073709551616", "1"],
    &["gen", "+1", "1"],
    &["gen", "", "1"],
    &["gen", "1", "1.0"],
    &["early"],
    &["early", "x >= 5", "y"],
    &["robust"],
    &["check", "x >= 5", "y"],
];

#[test]
fn words_of_no_form_are_told(rt: HostRuntime) -> Result<(), Fail> {
    let alloc = rt.alloc();
    for words in NO_FORMS {
        expect(
            &rt,
            agrees(alloc, refused(words, USAGE, 2), pieces(1))?,
            "usage",
            words.len(),
        );
    }
    Ok(())
}

#[test]
fn a_message_that_fails_changes_no_status(rt: HostRuntime) -> Result<(), Fail> {
    let alloc = rt.alloc();
    let devices = Devices {
        tell_fails: 2,
        ..pieces(7)
    };
    let cut_off = agrees(alloc, refused(&["check"], "usage: ", 2), devices)?;
    expect(&rt, cut_off, "the message is cut, the status is not", 2);
    let faulty = Case {
        words: &["check", "x >= 1"],
        input: "time,x\n0,0\n5,1\n5,2\n",
        out: "",
        err: "",
        status: 4,
    };
    let devices = Devices {
        tell_fails: 1,
        ..pieces(4096)
    };
    expect(&rt, agrees(alloc, faulty, devices)?, "nothing is told", 4);
    Ok(())
}
