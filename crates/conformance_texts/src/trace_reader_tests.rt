//! Traces read by `Rows`, cut in every way, with answers by hand.
ghost use Rattle.std.specs.Prelude.{◌≡◌, ◌≤◌, ◌^◌, false};

use super::checks::expect;
use report::put_trace_fault;
use std::alloc::{AllocError, Global};
use std::process::Abort;
use std::test::Fail;
use stl_syntax::{Scale, Text};
use trace_reader::*;

/// Ticks of whole units.
const WHOLE: Scale = Scale { time: 0, value: 0 };

/// Adds the digits of the scale, and the columns; a step column ends with `_`.
fn tell_header(said: &mut String, header: &Header) -> Result<(), AllocError> {
    let scale = header.scale();
    let time = scale.time;
    let value = scale.value;
    write!(said, "{time}/{value}")?;
    for i in 0..header.columns() {
        let name = header.name(i);
        let mode = if header.step(i) { "_" } else { "" };
        write!(said, ",{name}{mode}")?;
    }
    said.push(' ')
}

/// Adds the time and the values of a row.
fn tell_row(said: &mut String, row: &Row) -> Result<(), AllocError> {
    let time = row.time();
    write!(said, "{time}")?;
    for i in 0..row.columns() {
        let value = row.value(i);
        write!(said, ":{value}")?;
    }
    said.push(' ')
}

/// Adds the line of a refusal, as the program tells it.
fn tell_refusal(
    alloc: Global,
    said: &mut String,
    refusal: &TraceRefusal,
) -> Result<(), AllocError> {
    let mut line = Text::new(alloc);
    if put_trace_fault(&mut line, refusal).is_err() {
        return Err(AllocError);
    }
    match std::str::from_utf8(line.bytes()) {
        Ok(text) => said.push_str(text),
        Err(_) => Ok(()),
    }
}

/// Adds what the end of the bytes makes: the last row, where there is one, and the lines begun, or the refusal.
fn tell_end(alloc: Global, said: &mut String, reader: Rows) -> Result<(), AllocError>
    requires { reader.ended ≡ false }
{
    let mut reader = reader;
    match reader.end() {
        Ok(event) => {
            match event {
                Event::Row => tell_row(said, reader.row())?,
                _ => {}
            }
            let line = reader.line();
            write!(said, "end {line}")
        }
        Err(refusal) => tell_refusal(alloc, said, &refusal),
    }
}

/// How the bytes of a trace are cut: a first piece, and pieces of at most `most` bytes.
#[derive(Clone, Copy)]
struct Cut {
    first: usize,
    most: usize,
}

impl Cut {
    /// The size of the piece after one of which so many bytes were taken: what is left of it, where something is.
    fn next(self, given: usize, taken: usize) -> usize {
        if taken < given {
            given - taken
        } else {
            self.most
        }
    }
}

/// What a reader makes of bytes: the header, the rows, and `end` or the refusal, with the lines begun.
fn told(
    alloc: Global,
    text: &[u8],
    cut: Cut,
    limits: Limits,
    least: Scale,
) -> Result<String, AllocError>
    requires rows { limits.rows ≤ 2 ^ 32 }
    requires lines { limits.lines ≤ 2 ^ 33 }
    requires least { (least.time ≤ 6) × (least.value ≤ 6) }
{
    let mut said = String::new(alloc);
    let Ok(mut reader) = Rows::new(alloc, limits, least) else {
        return Err(AllocError);
    };
    let mut rest = text;
    let mut size = cut.first;
    for _ in 0..100_000 {
        if rest.is_empty() {
            break;
        }
        let given = size.min(rest.len());
        let took = match reader.push(&rest[..given]) {
            Ok(took) => took,
            Err(refusal) => {
                tell_refusal(alloc, &mut said, &refusal)?;
                return Ok(said);
            }
        };
        match took.event {
            Event::Nothing => {}
            Event::Header => tell_header(&mut said, reader.header())?,
            Event::Row => tell_row(&mut said, reader.row())?,
        }
        rest = &rest[took.bytes..];
        size = cut.next(given, took.bytes);
    }
    tell_end(alloc, &mut said, reader)?;
    Ok(said)
}

/// Whether this was told; the line of a refusal has its LF behind it.
fn is_told(said: &[u8], want: &[u8]) -> bool {
    let Some((last, others)) = said.split_last() else {
        return want.is_empty();
    };
    said == want || *last == b'\n' && others == want
}

/// Compares what is told of each text at every cut, and byte by byte.
fn compare<R: Abort + AllocGlobal>(
    rt: &R,
    limits: Limits,
    least: Scale,
    cases: &[(&str, &str)],
) -> Result<(), AllocError>
    requires rows { limits.rows ≤ 2 ^ 32 }
    requires lines { limits.lines ≤ 2 ^ 33 }
    requires least { (least.time ≤ 6) × (least.value ≤ 6) }
{
    for (text, want) in cases {
        let bytes = text.as_bytes();
        for first in 0..bytes.len() + 1 {
            let cut = Cut { first, most: 5000 };
            let said = told(rt.alloc(), bytes, cut, limits, least)?;
            expect(rt, is_told(said.as_bytes(), want.as_bytes()), text);
        }
        for most in [1, 2, 7] {
            let cut = Cut { first: most, most };
            let said = told(rt.alloc(), bytes, cut, limits, least)?;
            expect(rt, is_told(said.as_bytes(), want.as_bytes()), text);
        }
    }
    Ok(())
}

/// More than any of the small tables has.
const LARGE: Limits = Limits {
    rows: 1_000_000,
    lines: 8_589_934_592,
};

/// Traces, and what is told of them.
const READ: [(&str, &str); 16] = [
    ("time,x\n0,0\n10,10\n", "0/0,x 0:0 10:10 end 3"),
    ("time,x\n0,0\n10,10", "0/0,x 0:0 10:10 end 3"),
    ("time\n3\n4\n", "0/0 3 4 end 3"),
    (
        "time,b:step,s:ramp,x\n0,1,2,3\n1,-1,-2,-3",
        "0/0,b_,s,x 0:1:2:3 1:-1:-2:-3 end 3",
    ),
    (
        "\n \t\r\n time , x \r\n\n0 ,\t+0\r\n  \n+1,-0\r",
        "0/0,x 0:0 1:0 end 7",
    ),
    (
        "time,until,a.b_9\n007,0000,-0012\n",
        "0/0,until,a.b_9 7:0:-12 end 2",
    ),
    ("time,x\n-0,1\n", "0/0,x 0:1 end 2"),
    ("time,x\n0,1\n \n\t", "0/0,x 0:1 end 4"),
    (
        "time,x\n4294967295,-16777216\n",
        "0/0,x 4294967295:-16777216 end 2",
    ),
    ("time,x,X\n0,16777216,1\n", "0/0,x,X 0:16777216:1 end 2"),
    ("time,x\n0,\r\n", "0/0,x line 2: field 2: bad number"),
    ("time,x\n0,1\r\r\n", "0/0,x line 2: field 2: bad number"),
    (
        "time,x\r\n0,1\n1\r,1\n",
        "0/0,x 0:1 line 3: field 1: bad number",
    ),
    (
        "time:1,x:2,y:step\n0,1.25,-7\n0.5,-0.5,8\r\n1.0,100,-12.00\n2,12.340,0\n3,-163840.00,163840\n4,0000000001,-1\n5,+2.5,1\n6, 3.75 ,2\n7,1.75,3",
        "1/2,x,y_ 0:125:-700 5:-50:800 10:10000:-1200 20:1234:0 30:-16384000:16384000 40:100:-100 50:250:100 60:375:200 70:175:300 end 10",
    ),
    (
        "time:3,x:1\n0.001,1\n0.0100,2.0\n1,-3.5\n2.5,0.1\r\n3,4",
        "3/1,x 1:10 10:20 1000:-35 2500:1 3000:40 end 6",
    ),
    (
        "time,x:1\n0,1.5\n-0,2.5\n1,3.5\n2,4.5\n",
        "0/1,x 0:15 line 3: time not rising",
    ),
];

/// Bytes with a fault, and what is told up to the first.
const FAULTY: [(&str, &str); 33] = [
    ("\n\n", "line 2: no header"),
    ("\n\n ", "line 3: no header"),
    ("\ntime,x\n\n \n", "0/0,x line 4: no rows"),
    ("time,time\n", "line 1: field 2: same name"),
    ("time,x,y,x\n", "line 1: field 4: same name"),
    ("time,x:jump\n", "line 1: field 2: bad mode"),
    ("time,x:\n", "line 1: field 2: bad mode"),
    ("time,x:ramp:\n", "line 1: field 2: bad mode"),
    ("time,time:jump\n", "line 1: field 2: bad mode"),
    ("time:step,x\n", "line 1: field 1: bad mode"),
    ("time,2x\n", "line 1: field 2: bad name"),
    ("time,x y\n", "line 1: field 2: bad name"),
    ("time,:ramp\n", "line 1: field 2: bad name"),
    ("Time,x\n", "line 1: field 1: bad name"),
    ("timex\n", "line 1: field 1: bad name"),
    ("time,x,x,2\n", "line 1: field 3: same name"),
    ("time,x\n0,1.5\n", "0/0,x line 2: field 2: bad number"),
    ("time,x\n0,+\n", "0/0,x line 2: field 2: bad number"),
    ("time,x\n0,1,\n", "0/0,x line 2: 3 fields"),
    ("time,x\nzz,1,2\n", "0/0,x line 2: 3 fields"),
    ("time,x,y\n0,zz\n", "0/0,x,y line 2: 2 fields"),
    ("time,x\n-1,0\n", "0/0,x line 2: field 1: out of range"),
    ("time,x\n-1,zz\n", "0/0,x line 2: field 1: out of range"),
    (
        "time,x\n4294967296,0\n",
        "0/0,x line 2: field 1: out of range",
    ),
    (
        "time,x\n0,16777217\n",
        "0/0,x line 2: field 2: out of range",
    ),
    (
        "time,x\n0,-16777217\n",
        "0/0,x line 2: field 2: out of range",
    ),
    (
        "time,x\n0,18446744073709551617\n",
        "0/0,x line 2: field 2: out of range",
    ),
    (
        "time,x,y\n0,99999999,zz\n",
        "0/0,x,y line 2: field 2: out of range",
    ),
    (
        "time,x,y\n0,zz,99999999\n",
        "0/0,x,y line 2: field 2: bad number",
    ),
    (
        "time,x\n0,0\n0,zz\n",
        "0/0,x 0:0 line 3: field 2: bad number",
    ),
    (
        "time,x\n0,0\n5,1\n5,2\n",
        "0/0,x 0:0 5:1 line 4: time not rising",
    ),
    (
        "time,x\n0,0\n5,1\n4,2",
        "0/0,x 0:0 5:1 line 4: time not rising",
    ),
    (
        "time,x\n0,0\n4294967295,16777217\n",
        "0/0,x 0:0 line 3: field 2: out of range",
    ),
];

/// Traces with decimals, where a tick is a unit at most.
const DECIMAL: [(&str, &str); 12] = [
    (
        "time:3,brake:step,speed:1\n0,0,30.0\n1,1,30\n1.3,1,0\n2,0,0\n",
        "3/1,brake_,speed 0:0:300 1000:10:300 1300:10:0 2000:0:0 end 5",
    ),
    ("time:0,x:ramp:6\n0,-0.000001\n", "0/6,x 0:-1 end 2"),
    ("time:6,x:step:0\n0.000001,1.0\n", "6/0,x_ 1:1 end 2"),
    (
        "time:1,x:1\n0.10,30.00\n+00.2,-.5\n",
        "1/1,x 1:300 line 3: field 2: bad number",
    ),
    ("time,x:1\n0,1.\n", "0/1,x line 2: field 2: bad number"),
    ("time,x:1\n0,0.05\n", "0/1,x line 2: field 2: bad number"),
    (
        "time,x,y:2\n0,0.5,1\n",
        "0/2,x,y line 2: field 2: bad number",
    ),
    ("time,x:7\n", "line 1: field 2: bad mode"),
    ("time,x:03\n", "line 1: field 2: bad mode"),
    ("time,x:2:step\n", "line 1: field 2: bad mode"),
    (
        "time,x:2\n0,167772.16\n1,167772.17\n",
        "0/2,x 0:16777216 line 3: field 2: out of range",
    ),
    (
        "time:1,x\n429496729.5,0\n429496729.6,0\n",
        "1/0,x 4294967295:0 line 3: field 1: out of range",
    ),
];

/// Traces where a tick is at most a hundredth of a unit of time, and a tenth of one of value.
const FINER: [(&str, &str); 5] = [
    ("time,x\n1,2\n", "2/1,x 100:20 end 2"),
    ("time:3,x:2\n1,2\n", "3/2,x 1000:200 end 2"),
    ("time,x\n0,1.5\n", "2/1,x line 2: field 2: bad number"),
    (
        "time,x\n0,16777216\n",
        "2/1,x line 2: field 2: out of range",
    ),
    ("time,x\n0,1677721.7\n", "2/1,x line 2: field 2: bad number"),
];

#[test]
fn traces_are_read_or_their_first_fault_is_told(rt: HostRuntime) -> Result<(), Fail> {
    compare(&rt, LARGE, WHOLE, &READ)?;
    compare(&rt, LARGE, WHOLE, &FAULTY)?;
    compare(&rt, LARGE, WHOLE, &DECIMAL)?;
    let tenth = Scale { time: 2, value: 1 };
    compare(&rt, LARGE, tenth, &FINER)?;
    Ok(())
}

/// Traces where two rows are let through.
const TWO_ROWS: [(&str, &str); 2] = [
    (
        "time,x\n0,0\n1,1\nzz\n",
        "0/0,x 0:0 1:1 line 4: too many rows",
    ),
    ("time,x\n0,0\n1,1\n\n \n", "0/0,x 0:0 1:1 end 5"),
];

/// Traces where four lines are let through.
const FOUR_LINES: [(&str, &str); 3] = [
    ("time,x\n\n0,0\n1,1\n", "0/0,x 0:0 1:1 end 4"),
    (
        "time,x\n\n0,0\n1,1\nz",
        "0/0,x 0:0 1:1 line 5: too many lines",
    ),
    (
        "time,x\n\n0,0\n1,1\n\n",
        "0/0,x 0:0 1:1 line 5: too many lines",
    ),
];

#[test]
fn rows_and_lines_have_limits(rt: HostRuntime) -> Result<(), Fail> {
    let two_rows = Limits { rows: 2, lines: 9 };
    compare(&rt, two_rows, WHOLE, &TWO_ROWS)?;
    let four_lines = Limits { rows: 2, lines: 4 };
    compare(&rt, four_lines, WHOLE, &FOUR_LINES)?;
    Ok(())
}
