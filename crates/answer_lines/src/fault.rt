//! The line of each fault of a trace's bytes for a formula.
ghost use Rattle.std.specs.Prelude.{◌≡◌, ◌≢◌, ◌++◌, codes, decimal, OnOk, OnErr};
ghost use Rattle.answer_lines.specs.Appended.{GrewInPart, Is};
ghost use Rattle.answer_lines.specs.FaultTexts.{trace_fault_text, unknown_text, unit_fault_text};
ghost use Rattle.answer_lines.specs.Lines.{line_text};

use crate::line::{Detail, Line, put_line};
use frac128::Memory;
use stl_syntax::{Name, Text, UnitFault};
use trace_reader::{TraceKind, TraceRefusal};

/// A line about line `n` of the trace.
fn in_line(n: u64, message: &'static [u8]) -> Line<'static>
    ensures { line_text result ≡ codes "line " ++ (decimal n ++ message.now) }
{
    Line::numbered(b"line ", n, message)
}

/// A line about line `n` of the trace, and one number more.
fn with_number(n: u64, middle: &'static [u8], number: u64, tail: &'static [u8]) -> Line<'static>
    ensures { line_text result ≡ codes "line " ++ (decimal n ++ (middle.now ++ (decimal number ++ tail.now))) }
{
    Line {
        head: b"line ",
        number: Some(n),
        middle,
        detail: Detail::Number(number),
        tail,
    }
}

/// A line about field `i` of line `n`.
fn in_field(n: u64, i: u32, tail: &'static [u8]) -> Line<'static>
    ensures { line_text result ≡ codes "line " ++ (decimal n ++ (codes ": field " ++ (decimal i ++ tail.now))) }
{
    with_number(n, b": field ", u64::from(i), tail)
}

/// The line of a fault of the trace itself.
pub fn trace_fault_line(fault: &TraceRefusal) -> Line<'static>
    ensures { line_text result ≡ trace_fault_text fault.now }
{
    let n = fault.line;
    match fault.kind {
        TraceKind::Empty => in_line(n, b": no header\n"),
        TraceKind::BadName { field } => in_field(n, field, b": bad name\n"),
        TraceKind::SameName { field } => in_field(n, field, b": same name\n"),
        TraceKind::TooManyColumns { count } => {
            with_number(n, b": ", u64::from(count), b" columns\n")
        }
        TraceKind::BadMode { field } => in_field(n, field, b": bad mode\n"),
        TraceKind::LineTooLong => in_line(n, b": line too long\n"),
        TraceKind::BadNumber { field } => in_field(n, field, b": bad number\n"),
        TraceKind::WrongCount { got } => with_number(n, b": ", u64::from(got), b" fields\n"),
        TraceKind::TimeNotRising => in_line(n, b": time not rising\n"),
        TraceKind::OutOfRange { field } => in_field(n, field, b": out of range\n"),
        TraceKind::NoRows => in_line(n, b": no rows\n"),
        TraceKind::TooManyRows => in_line(n, b": too many rows\n"),
        TraceKind::TooManyLines => in_line(n, b": too many lines\n"),
    }
}

/// The line of a column that the header in line `line` lacks.
pub fn unknown_line(line: u64, name: &Name) -> Line<'_>
    ensures { line_text result ≡ unknown_text line name.now }
{
    Line {
        head: b"line ",
        number: Some(line),
        middle: b": unknown column ",
        detail: Detail::Name(name),
        tail: b"\n",
    }
}

/// The line of numbers of a formula that do not fit in the ticks of the header in line `line`.
pub fn unit_fault_line(line: u64, fault: &UnitFault) -> Line<'static>
    ensures { line_text result ≡ unit_fault_text line fault.now }
{
    match *fault {
        UnitFault::Constant { node } => {
            with_number(
                line,
                b": node ",
                u64::from(node),
                b": constant out of range\n",
            )
        }
        UnitFault::Reach { sum } => with_number(line, b": bounds sum to ", sum, b"\n"),
        UnitFault::Memory => Line::plain(b"out of memory\n"),
    }
}

/// Appends the line of a fault of a trace, with its line and its field.
///
/// # Errors
/// Want of memory. The text then has a first part of the line.
pub fn put_trace_fault(text: &mut Text, fault: &TraceRefusal) -> Result<(), Memory>
    ensures ok { OnOk result (text.new ≡ text.old ++ trace_fault_text fault.now) }
    ensures err { OnErr result (GrewInPart (Is (trace_fault_text fault.now)) text.old text.new) }
{
    put_line(text, &trace_fault_line(fault))
}

/// Appends the line of a column that the header in line `line` lacks.
///
/// # Errors
/// Want of memory. The text then has a first part of the line.
pub fn put_unknown(text: &mut Text, line: u64, name: &Name) -> Result<(), Memory>
    ensures ok { OnOk result (text.new ≡ text.old ++ unknown_text line name.now) }
    ensures err { OnErr result (GrewInPart (Is (unknown_text line name.now)) text.old text.new) }
{
    put_line(text, &unknown_line(line, name))
}

/// Appends the line of numbers of a formula that do not fit in the ticks of the header in line `line`. The fault is not want of memory,
/// which is none of the trace.
///
/// # Errors
/// Want of memory. The text then has a first part of the line.
pub fn put_unit_fault(text: &mut Text, line: u64, fault: &UnitFault) -> Result<(), Memory>
    requires { fault.now ≢ UnitFault.Memory }
    ensures ok { OnOk result (text.new ≡ text.old ++ unit_fault_text line fault.now) }
    ensures err { OnErr result (GrewInPart (Is (unit_fault_text line fault.now)) text.old text.new) }
{
    put_line(text, &unit_fault_line(line, fault))
}
