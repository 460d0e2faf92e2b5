//! A line for the error stream, written at once and without taking memory.
ghost use Rattle.std.specs.Prelude.{◌≡◌, ◌≤◌, ◌++◌, decimal, OnOk};
ghost use Rattle.io_edge.specs.Causes.{HasCause};
ghost use Rattle.answer_lines.specs.Lines.{line_text, number_text, detail_text};
ghost use Rattle.command_line.specs.Saying.{IsSaid};
ghost use Rattle.command_line.specs.Writing.{IsWritten};

use crate::output::write_all;
use answer_lines::{Detail, Line};
use arrayvec::{ArrayVec, CapacityError};
use io_edge::{Failed, Sink};
use itoa::Buffer;

/// Room for the longest line: that of a column whose name is as long as a formula's text may be.
type Whole = ArrayVec<u8, 8_256>;

/// Writes a number in decimal.
fn write_number<E: Sink>(err: &mut E, number: u64) -> Result<(), Failed>
    ensures written { IsWritten (E.written err.old) (E.written err.new) result (decimal number) }
    ensures cause { HasCause (E.faults err.old) (E.faults err.new) result }
{
    let mut buffer = Buffer::new();
    write_all(err, buffer.format(number).as_bytes())
}

/// Writes a number of up to 128 bits in decimal.
fn write_large<E: Sink>(err: &mut E, number: u128) -> Result<(), Failed>
    ensures written { IsWritten (E.written err.old) (E.written err.new) result (decimal number) }
    ensures cause { HasCause (E.faults err.old) (E.faults err.new) result }
{
    let mut buffer = Buffer::new();
    write_all(err, buffer.format(number).as_bytes())
}

/// Writes the number of a line, if it has one.
fn write_some<E: Sink>(err: &mut E, number: Option<u64>) -> Result<(), Failed>
    ensures written { IsWritten (E.written err.old) (E.written err.new) result (number_text number) }
    ensures cause { HasCause (E.faults err.old) (E.faults err.new) result }
{
    match number {
        Some(number) => write_number(err, number),
        None => Ok(()),
    }
}

/// Writes the detail of a line.
fn write_detail<E: Sink>(err: &mut E, detail: Detail<'_>) -> Result<(), Failed>
    ensures written { IsWritten (E.written err.old) (E.written err.new) result (detail_text detail.entry) }
    ensures cause { HasCause (E.faults err.old) (E.faults err.new) result }
{
    match detail {
        Detail::Nothing => Ok(()),
        Detail::Number(number) => write_number(err, number),
        Detail::Large(number) => write_large(err, number),
        Detail::Name(name) => write_all(err, name.as_str().as_bytes()),
    }
}

/// Writes the line, part by part, until the sink fails.
fn write_parts<E: Sink>(err: &mut E, line: &Line<'_>) -> Result<(), Failed>
    ensures written { IsWritten (E.written err.old) (E.written err.new) result (line_text line.now) }
    ensures cause { HasCause (E.faults err.old) (E.faults err.new) result }
{
    write_all(err, line.head)?;
    write_some(err, line.number)?;
    write_all(err, line.middle)?;
    write_detail(err, line.detail)?;
    write_all(err, line.tail)
}

/// Gathers the number of a line, if it has one.
fn gather_number(whole: &mut Whole, number: Option<u64>) -> Result<(), CapacityError>
    ensures { OnOk result (whole.new.items ≡ whole.old.items ++ number_text number) }
{
    match number {
        Some(number) => whole.try_extend_from_slice(Buffer::new().format(number).as_bytes()),
        None => Ok(()),
    }
}

/// Gathers the detail of a line.
fn gather_detail(whole: &mut Whole, detail: Detail<'_>) -> Result<(), CapacityError>
    ensures { OnOk result (whole.new.items ≡ whole.old.items ++ detail_text detail.entry) }
{
    match detail {
        Detail::Nothing => Ok(()),
        Detail::Number(number) => {
            whole.try_extend_from_slice(Buffer::new().format(number).as_bytes())
        }
        Detail::Large(number) => {
            whole.try_extend_from_slice(Buffer::new().format(number).as_bytes())
        }
        Detail::Name(name) => whole.try_extend_from_slice(name.as_str().as_bytes()),
    }
}

/// Gathers a line where it fits.
fn gather(whole: &mut Whole, line: &Line<'_>) -> Result<(), CapacityError>
    ensures { OnOk result (whole.new.items ≡ whole.old.items ++ line_text line.now) }
{
    whole.try_extend_from_slice(line.head)?;
    gather_number(whole, line.number)?;
    whole.try_extend_from_slice(line.middle)?;
    gather_detail(whole, line.detail)?;
    whole.try_extend_from_slice(line.tail)
}

/// Writes the line at once, so that lines of several programs on one error stream stay apart; one that does not fit in the room for
/// it goes part by part.
fn write_line<E: Sink>(err: &mut E, line: &Line<'_>) -> Result<(), Failed>
    ensures written { IsWritten (E.written err.old) (E.written err.new) result (line_text line.now) }
    ensures cause { HasCause (E.faults err.old) (E.faults err.new) result }
{
    let mut whole = Whole::new();
    match gather(&mut whole, line) {
        Ok(()) => write_all(err, whole.as_slice()),
        Err(_) => write_parts(err, line),
    }
}

/// Writes a line until the error stream fails.
pub fn say<E: Sink>(err: &mut E, line: &Line<'_>)
    ensures said { IsSaid (E.written err.old) (E.written err.new) (E.faults err.old) (E.faults err.new) (line_text line.now) }
    ensures later { E.faults err.old ≤ E.faults err.new }
{
    let _ = write_line(err, line);
}
