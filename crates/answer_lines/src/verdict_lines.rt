//! Lines of verdicts one after another, over one buffer.
ghost use Rattle.std.specs.Prelude.{◌≡◌, ◌≤◌, ◌+◌, ◌∷◌, [], ◌++◌, if◌then◌else◌, length, codes, IfOk};
ghost use Rattle.stl_syntax.specs.Texts.{bool_text, newline, IsVerdictLine};
ghost use Rattle.answer_lines.specs.Appended.{Grew};
ghost use Rattle.answer_lines.specs.After.{IsAdded, Adds};
ghost use Rattle.answer_lines.specs.LineEnds.{line_end};

use crate::after::{add_byte, add_part};
use crate::time_text::TimeText;
use crate::waiting::Waiting;
use frac128::Memory;
use std::alloc::Global;
use std::marker::Model;
use stl_syntax::{Scale, Text, Verdict};

/// The bracket before a span.
#[inline(always)]
pub fn bracket(inside: bool) -> u8
    ensures { result ∷ [] ≡ (if inside then codes "[" else codes "(") }
{
    if inside { b'[' } else { b'(' }
}

/// Puts what a line has after its two times, where the span has its end: a bracket, the truth and LF.
#[inline(always)]
fn add_closed(buf: &mut [u8], at: usize, holds: bool) -> usize
    requires { at + 8 ≤ length buf.old }
    ensures { IsAdded (codes "] " ++ bool_text holds ++ newline) buf.old at buf.new result }
{
    if holds {
        add_part(buf, at, b"] true\n\n", 7)
    } else {
        add_part(buf, at, b"] false\n", 8)
    }
}

/// Puts what a line has after its two times, where the span is without its end: a parenthesis, the truth and LF.
#[inline(always)]
fn add_open(buf: &mut [u8], at: usize, holds: bool) -> usize
    requires { at + 8 ≤ length buf.old }
    ensures { IsAdded (codes ") " ++ bool_text holds ++ newline) buf.old at buf.new result }
{
    if holds {
        add_part(buf, at, b") true\n\n", 7)
    } else {
        add_part(buf, at, b") false\n", 8)
    }
}

/// Puts what a line has after its two times.
#[inline(always)]
pub(crate) fn add_ending(buf: &mut [u8], at: usize, v: &Verdict) -> usize
    requires { at + 8 ≤ length buf.old }
    ensures { IsAdded (line_end v.now) buf.old at buf.new result }
{
    if v.on.to_in {
        add_closed(buf, at, v.holds)
    } else {
        add_open(buf, at, v.holds)
    }
}

/// Puts the line of a verdict. `last` has the time that was written last, and then that where the verdict ends.
#[inline(always)]
pub(crate) fn add_verdict(
    buf: &mut [u8],
    at: usize,
    last: &mut TimeText,
    v: &Verdict,
    scale: Scale,
) -> usize
    requires digits { scale.time ≤ 6 }
    requires room { at + 256 ≤ length buf.old }
    ensures { Adds (IsVerdictLine scale v.now) 174 buf.old at buf.new result }
{
    let digits = scale.time;
    let from = add_byte(buf, at, bracket(v.on.from_in));
    let comma = last.put(buf, from, &v.on.from, digits);
    let to = add_byte(buf, comma, b',');
    let end = last.put_new(buf, to, &v.on.to, digits);
    add_ending(buf, end, v)
}

/// Lines that were written and not yet appended, and the text of the time that was written last.
#[derive(Drop)]
struct Made {
    last: TimeText,
    lines: Waiting,
}

/// Lines of verdicts that were written and not yet appended to a text. Contracts see their bytes.
///
/// Who writes many verdicts keeps one and goes on over its buffer: `put` writes a line behind the others, so that the text grows once for
/// some hundred lines, and the text of a time at which one line ends and the next begins is made once. It appends those before where there
/// is no room; at the end `hand_over` appends those that are left.
///
/// The buffer stands on the heap: who keeps one is small, and moves a pointer with it.
#[derive(Drop)]
pub struct VerdictLines {
    made: Box<Made>,
}

impl Model for VerdictLines {
    ghost use Rattle.std.specs.Prelude.{ℕ, List};

    ghost Value = { List ℕ };

    ghost view = { λ l. l.made.value.lines };
}

impl VerdictLines {
    ghost use Rattle.std.specs.Prelude.{ℕ, List, OnOk, OnErr};

    /// No lines yet, and room for some. It is a call of its own, since a function takes a place on the stack for each move of the buffer.
    ///
    /// # Errors
    /// Want of memory.
    #[inline(never)]
    pub fn new(alloc: Global) -> Result<VerdictLines, Memory>
        ensures { IfOk result (λ l. l ≡ []) }
    {
        let made = Made {
            last: TimeText::new(),
            lines: Waiting::new(),
        };
        match Box::new(alloc, made) {
            Ok(made) => Ok(VerdictLines { made }),
            Err(_) => Err(Memory),
        }
    }

    /// Puts the line of a verdict behind the others, with times in units of the scale. Those before are appended to the text where there
    /// is no room.
    ///
    /// # Errors
    /// Want of memory; the text and the lines stay as they were.
    #[inline(always)]
    pub fn put(&mut self, text: &mut Text, v: &Verdict, scale: Scale) -> Result<(), Memory>
        requires { scale.time ≤ 6 }
        ensures ok { OnOk result (Grew (IsVerdictLine scale v.now) (text.old ++ self.old) (text.new ++ self.new)) }
        ensures begins { (front : List ℕ) × (text.new ≡ text.old ++ front) }
        ensures err { OnErr result ((text.new ≡ text.old) × (self.new ≡ self.old)) }
    {
        let made: &mut Made = &mut self.made;
        made.lines.make_room(text)?;
        made.lines.put_verdict(&mut made.last, v, scale);
        Ok(())
    }

    /// Appends the lines so far to the text.
    ///
    /// # Errors
    /// Want of memory; the text and the lines stay as they were.
    pub fn hand_over(&mut self, text: &mut Text) -> Result<(), Memory>
        ensures text { OnOk result (text.new ≡ text.old ++ self.old) }
        ensures none { OnOk result (self.new ≡ []) }
        ensures err { OnErr result ((text.new ≡ text.old) × (self.new ≡ self.old)) }
    {
        let made: &mut Made = &mut self.made;
        made.lines.hand_over(text)
    }
}
