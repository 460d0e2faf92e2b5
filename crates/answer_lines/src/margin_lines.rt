//! The lines of a signal of margins one after another, over one buffer.
ghost use Rattle.std.specs.Prelude.{pos, ◌≡◌, ◌≤◌, ◌+◌, ◌^◌, length};
ghost use Rattle.rational.specs.Rational.{◌≈◌, IsWithin, whole};
ghost use Rattle.rational.specs.Extended.{finite, value_at};
ghost use Rattle.value_laws.specs.Margins.{margin_function};
ghost use Rattle.frac128.specs.Value.{value};
ghost use Rattle.value_laws.specs.Kinds.{margin_shape};
ghost use Rattle.stl_syntax.specs.Texts.{IsKnotLine};
ghost use Rattle.answer_lines.specs.PartLines.{IsGapLine};
ghost use Rattle.answer_lines.specs.After.{Adds};
ghost use Rattle.answer_lines.specs.MarginLines.{AreNextLines};

use crate::after::{add_byte, add_part};
use crate::time_text::TimeText;
use crate::value_text::ValueText;
use frac128::Frac;
use pl_signal::Knot;
use stl_syntax::Scale;
use value_laws::Margin;

/// The time that was written last, and the value that was, each with its text, so that they need not be made again.
#[derive(Drop)]
pub struct KnotTexts {
    pub time: TimeText,
    pub value: ValueText,
}

impl KnotTexts {
    /// The texts of the time 0 and of the value 0.
    pub fn new() -> KnotTexts
        ensures time { value result.time ≈ whole (pos 0) }
        ensures value { result.value ≡ finite (whole (pos 0)) }
    {
        KnotTexts {
            time: TimeText::new(),
            value: ValueText::new(),
        }
    }
}

/// Puts the line of a margin at a time.
#[inline(always)]
pub(crate) fn add_point(
    buf: &mut [u8],
    begin: usize,
    texts: &mut KnotTexts,
    at: &Frac,
    margin: &Margin,
    scale: Scale,
) -> usize
    requires time { scale.time ≤ 6 }
    requires value { scale.value ≤ 6 }
    requires within { IsWithin (2 ^ 34) (value at.now) }
    requires room { begin + 200 ≤ length buf.old }
    ensures { Adds (IsKnotLine scale (record { time = value at.now; value = value_at (margin_function margin.now) (value at.now) }))
        168 buf.old begin buf.new result }
{
    let time = add_byte(buf, begin, b'[');
    let middle = texts.time.put(buf, time, at, scale.time);
    let first = add_part(buf, middle, b"] ", 2);
    let line = texts.value.put(buf, first, margin, at, scale.value);
    add_byte(buf, line, b'\n')
}

/// Puts the line of a margin strictly between two times.
#[inline(always)]
pub(crate) fn add_gap(
    buf: &mut [u8],
    begin: usize,
    texts: &mut KnotTexts,
    from: &Frac,
    to: &Frac,
    margin: &Margin,
    scale: Scale,
) -> usize
    requires time { scale.time ≤ 6 }
    requires value { scale.value ≤ 6 }
    requires begins { IsWithin (2 ^ 34) (value from.now) }
    requires ends { IsWithin (2 ^ 34) (value to.now) }
    requires room { begin + 400 ≤ length buf.old }
    ensures { Adds (IsGapLine scale from.now to.now margin.now) 337 buf.old begin buf.new result }
{
    let start = add_byte(buf, begin, b'(');
    let comma = texts.time.put(buf, start, from, scale.time);
    let stop = add_byte(buf, comma, b',');
    let middle = texts.time.put_new(buf, stop, to, scale.time);
    let first = add_part(buf, middle, b") ", 2);
    let arrow = texts.value.put(buf, first, margin, from, scale.value);
    let limit = add_part(buf, arrow, b" -> ", 4);
    let line = texts.value.put(buf, limit, margin, to, scale.value);
    add_byte(buf, line, b'\n')
}

/// Puts the lines of the piece between two knots and of the second.
pub(crate) fn add_lines(
    buf: &mut [u8],
    at: usize,
    texts: &mut KnotTexts,
    k: &Knot<Margin>,
    n: &Knot<Margin>,
    scale: Scale,
) -> usize
    requires time { scale.time ≤ 6 }
    requires value { scale.value ≤ 6 }
    requires from { IsWithin (2 ^ 34) (value k.now.time) }
    requires to { IsWithin (2 ^ 34) (value n.now.time) }
    requires room { at + 640 ≤ length buf.old }
    ensures { Adds (AreNextLines margin_shape scale k.now n.now) 505 buf.old at buf.new result }
{
    let knot = add_gap(buf, at, texts, &k.time, &n.time, &k.after, scale);
    add_point(buf, knot, texts, &n.time, &n.point, scale)
}
