//! A line in its parts, so that it can be written without taking memory.
ghost use Rattle.std.specs.Prelude.{◌≡◌, ◌++◌, decimal, OnOk, OnErr};
ghost use Rattle.answer_lines.specs.Appended.{GrewInPart, Is};
ghost use Rattle.answer_lines.specs.Lines.{line_text, number_text, detail_text};

use frac128::Memory;
use itoa::Buffer;
use stl_syntax::{Name, Text};

/// What a line says beside its number.
#[derive(Clone, Copy)]
pub enum Detail<'a> {
    /// Nothing more.
    Nothing,
    /// A number.
    Number(u64),
    /// A number of up to 128 bits.
    Large(u128),
    /// The name of a column.
    Name(&'a Name),
}

/// A line in its parts: some bytes, a number if there is one, more bytes, a detail, and the rest with LF.
#[derive(Clone, Copy)]
pub struct Line<'a> {
    pub head: &'static [u8],
    pub number: Option<u64>,
    pub middle: &'static [u8],
    pub detail: Detail<'a>,
    pub tail: &'static [u8],
}

impl Line<'_> {
    /// A line of these bytes alone.
    pub fn plain(text: &'static [u8]) -> Line<'static>
        ensures { line_text result ≡ text.now }
    {
        Line {
            head: text,
            number: None,
            middle: b"",
            detail: Detail::Nothing,
            tail: b"",
        }
    }

    /// A line with a number.
    pub fn numbered(head: &'static [u8], number: u64, tail: &'static [u8]) -> Line<'static>
        ensures { line_text result ≡ head.now ++ (decimal number ++ tail.now) }
    {
        Line {
            head,
            number: Some(number),
            middle: tail,
            detail: Detail::Nothing,
            tail: b"",
        }
    }
}

/// Appends the number of a line, if it has one.
fn put_number(text: &mut Text, number: Option<u64>) -> Result<(), Memory>
    ensures ok { OnOk result (text.new ≡ text.old ++ number_text number) }
    ensures err { OnErr result (text.new ≡ text.old) }
{
    match number {
        Some(number) => text.push(Buffer::new().format(number).as_bytes()),
        None => Ok(()),
    }
}

/// Appends the detail of a line.
fn put_detail(text: &mut Text, detail: Detail<'_>) -> Result<(), Memory>
    ensures ok { OnOk result (text.new ≡ text.old ++ detail_text detail.entry) }
    ensures err { OnErr result (text.new ≡ text.old) }
{
    match detail {
        Detail::Nothing => Ok(()),
        Detail::Number(number) => text.push(Buffer::new().format(number).as_bytes()),
        Detail::Large(number) => text.push(Buffer::new().format(number).as_bytes()),
        Detail::Name(name) => text.push(name.as_str().as_bytes()),
    }
}

/// Appends a line.
///
/// # Errors
/// Want of memory. The text then has a first part of the line.
pub fn put_line(text: &mut Text, line: &Line<'_>) -> Result<(), Memory>
    ensures ok { OnOk result (text.new ≡ text.old ++ line_text line.now) }
    ensures err { OnErr result (GrewInPart (Is (line_text line.now)) text.old text.new) }
{
    text.push(line.head)?;
    put_number(text, line.number)?;
    text.push(line.middle)?;
    put_detail(text, line.detail)?;
    text.push(line.tail)
}
