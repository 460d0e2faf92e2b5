//! The line of a verdict behind others, which takes over the text of a time that stands before it.
ghost use Rattle.std.specs.Prelude.{◌≡◌, ◌≤◌, ◌+◌, length, take, drop, IfSome};
ghost use Rattle.frac128.specs.Value.{value};
ghost use Rattle.stl_syntax.specs.Texts.{IsNumberText, IsVerdictLine};
ghost use Rattle.answer_lines.specs.After.{Adds, IsAdded};
ghost use Rattle.answer_lines.specs.Rooms.{IsTextAt};

use crate::after::{TEXT_END, TEXT_ROOM, add_byte, add_part, add_text};
use crate::time_text::put_time_before;
use crate::verdict_lines::{add_ending, bracket};
use frac128::Frac;
use stl_syntax::{Scale, Verdict};

/// Where the text of a time stands in a room.
#[derive(Clone, Copy)]
pub struct TextAt {
    at: usize,
    len: usize,
}

/// A line in a buffer: where the text of its second time stands, and where it ends.
#[derive(Clone, Copy)]
pub(crate) struct LineAt {
    pub(crate) to: TextAt,
    pub(crate) end: usize,
}

/// How many bytes are copied of a text that stands in a room: it has no more of its own, or is made anew.
const SHORT: usize = 32;

/// Puts the text of a time, which is made in its own room.
#[inline(always)]
fn add_time(buf: &mut [u8], at: usize, made: &mut [u8; TEXT_ROOM], t: &Frac, digits: u8) -> usize
    requires digits { digits ≤ 6 }
    requires room { at + 96 ≤ length buf.old }
    ensures { Adds (IsNumberText digits (value t.now)) 82 buf.old at buf.new result }
{
    let from = put_time_before(made, TEXT_END, t, digits);
    add_text(buf, at, made, from)
}

/// As `add_time`, where that is seldom.
#[inline(never)]
fn add_anew(buf: &mut [u8], at: usize, made: &mut [u8; TEXT_ROOM], t: &Frac, digits: u8) -> usize
    requires digits { digits ≤ 6 }
    requires room { at + 96 ≤ length buf.old }
    ensures { Adds (IsNumberText digits (value t.now)) 82 buf.old at buf.new result }
{
    add_time(buf, at, made, t, digits)
}

/// Puts once more a short text that stands in the buffer.
#[inline(always)]
fn add_again(buf: &mut [u8], at: usize, text: TextAt) -> usize
    requires short { text.len ≤ 32 }
    requires inside { text.at + 32 ≤ length buf.old }
    requires room { at + 32 ≤ length buf.old }
    ensures { IsAdded (take text.len (drop text.at buf.old)) buf.old at buf.new result }
{
    let mut word = [0u8; SHORT];
    word.copy_from_slice(&buf[text.at..text.at + SHORT]);
    add_part(buf, at, &word, text.len)
}

/// Puts the text of a time, which may stand in the buffer before `at` already.
#[inline(always)]
fn add_begin(
    buf: &mut [u8],
    at: usize,
    made: &mut [u8; TEXT_ROOM],
    t: &Frac,
    digits: u8,
    last: Option<TextAt>,
) -> usize
    requires digits { digits ≤ 6 }
    requires room { at + 96 ≤ length buf.old }
    requires last { IfSome last (IsTextAt digits (value t.now) (take at buf.old)) }
    ensures { Adds (IsNumberText digits (value t.now)) 82 buf.old at buf.new result }
{
    let Some(text) = last else {
        return add_anew(buf, at, made, t, digits);
    };
    if text.len > SHORT {
        return add_anew(buf, at, made, t, digits);
    }
    add_again(buf, at, text)
}

/// Puts the line of a verdict. The text of the time at which it begins may stand in the buffer before `at`.
#[inline(always)]
pub(crate) fn add_line(
    buf: &mut [u8],
    at: usize,
    made: &mut [u8; TEXT_ROOM],
    v: &Verdict,
    scale: Scale,
    last: Option<TextAt>,
) -> LineAt
    requires digits { scale.time ≤ 6 }
    requires room { at + 256 ≤ length buf.old }
    requires last { IfSome last (IsTextAt scale.time (value v.now.on.from) (take at buf.old)) }
    ensures line { Adds (IsVerdictLine scale v.now) 174 buf.old at buf.new result.end }
    ensures to { IsTextAt scale.time (value v.now.on.to) (take result.end buf.new) result.to }
{
    let digits = scale.time;
    let from = add_byte(buf, at, bracket(v.on.from_in));
    let comma = add_begin(buf, from, made, &v.on.from, digits, last);
    let to = add_byte(buf, comma, b',');
    let close = add_time(buf, to, made, &v.on.to, digits);
    let end = add_ending(buf, close, v);
    LineAt {
        to: TextAt {
            at: to,
            len: close - to,
        },
        end,
    }
}
