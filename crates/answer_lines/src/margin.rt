//! The lines of a signal of margins: its knots, and the pieces between them.
ghost use Rattle.std.specs.Prelude.{◌≡◌, ◌≤◌, ◌^◌, ◌++◌, ℕ, List, length, OnOk, OnErr};
ghost use Rattle.rational.specs.Rational.{IsWithin};
ghost use Rattle.rational.specs.Extended.{value_at};
ghost use Rattle.frac128.specs.Value.{value};
ghost use Rattle.value_laws.specs.Margins.{margin_function};
ghost use Rattle.value_laws.specs.Kinds.{margin_shape};
ghost use Rattle.pl_signal.specs.Knots.{start, stop};
ghost use Rattle.pl_signal.specs.Plain.{knots_of, plain_knot, plain_piece};
ghost use Rattle.stl_syntax.specs.Texts.{IsValueText, IsKnotLine, IsPieceLine, AreMarginLines};
ghost use Rattle.answer_lines.specs.Appended.{Grew, GrewInPart};
ghost use Rattle.answer_lines.specs.Before.{Puts};
ghost use Rattle.answer_lines.specs.MarginLines.{AreNextLines, AreLaterLines};

use crate::before::{put_lowest, put_word};
use crate::margin_lines::KnotTexts;
use crate::number::{in_units, put_fraction, quotient_in_units};
use crate::waiting::Waiting;
use frac128::{Frac, Memory};
use pl_signal::{Knot, Signal};
use stl_syntax::{Scale, Text};
use value_laws::{Margin, Shape};

/// Appends the value of a margin at a time, in units.
///
/// # Errors
///
/// `Memory` where memory is wanting; part of the text may have been appended then.
pub fn put_value(text: &mut Text, m: &Margin, at: &Frac, digits: u8) -> Result<(), Memory>
    requires few { digits ≤ 6 }
    requires time { IsWithin (2 ^ 34) (value at.now) }
    ensures ok { OnOk result (Grew (IsValueText digits (value_at (margin_function m.now) (value at.now))) text.old text.new) }
    ensures err { OnErr result (GrewInPart (IsValueText digits (value_at (margin_function m.now) (value at.now))) text.old text.new) }
{
    match m {
        Margin::Low => text.push(b"-inf"),
        Margin::High => text.push(b"inf"),
        Margin::Fixed(c) => put_fraction(text, &in_units(c, digits)),
        Margin::Ramp(f) => put_fraction(text, &quotient_in_units(&f.at(at), digits)),
    }
}

/// Puts the value of a margin at a time, in units.
pub(crate) fn put_margin(buf: &mut [u8], end: usize, m: &Margin, at: &Frac, digits: u8) -> usize
    requires few { digits ≤ 6 }
    requires time { IsWithin (2 ^ 34) (value at.now) }
    requires room { 82 ≤ end }
    requires inside { end ≤ length buf.old }
    ensures { Puts (IsValueText digits (value_at (margin_function m.now) (value at.now))) 82 buf.old end buf.new result }
{
    match m {
        Margin::Low => put_word(buf, end, b"-inf"),
        Margin::High => put_word(buf, end, b"inf"),
        Margin::Fixed(c) => put_lowest(buf, end, &in_units(c, digits)),
        Margin::Ramp(f) => put_lowest(buf, end, &quotient_in_units(&f.at(at), digits)),
    }
}

/// Puts the lines of the piece between two knots and of the second behind those that wait, which are appended where there is no room.
#[inline(always)]
fn put_next(
    text: &mut Text,
    lines: &mut Waiting,
    texts: &mut KnotTexts,
    k: &Knot<Margin>,
    n: &Knot<Margin>,
    scale: Scale,
) -> Result<(), Memory>
    requires time { scale.time ≤ 6 }
    requires value { scale.value ≤ 6 }
    requires from { IsWithin (2 ^ 34) (value k.now.time) }
    requires to { IsWithin (2 ^ 34) (value n.now.time) }
    ensures ok { OnOk result (Grew (AreNextLines margin_shape scale k.now n.now) (text.old ++ lines.old) (text.new ++ lines.new)) }
    ensures begins { (front : List ℕ) × (text.new ≡ text.old ++ front) }
    ensures err { OnErr result ((text.new ≡ text.old) × (lines.new ≡ lines.old)) }
{
    lines.make_room(text)?;
    lines.put_lines(texts, k, n, scale);
    Ok(())
}

/// Appends the lines of a signal of margins, by its plain list of knots: each knot with its value, and each piece between two with
/// its limits. Times and values are in units of the scale, in lowest terms.
///
/// # Errors
/// Want of memory. The text then has a first part of the lines.
pub fn put_margins(text: &mut Text, s: &Signal<Margin>, scale: Scale) -> Result<(), Memory>
    requires time { scale.time ≤ 6 }
    requires value { scale.value ≤ 6 }
    requires begins { IsWithin (2 ^ 34) (start s.now) }
    requires ends { IsWithin (2 ^ 34) (stop s.now) }
    ensures ok { OnOk result (Grew (AreMarginLines scale (knots_of ⟦<Margin as Shape>⟧ s.now)) text.old text.new) }
    ensures err { OnErr result (GrewInPart (AreMarginLines scale (knots_of ⟦<Margin as Shape>⟧ s.now)) text.old text.new) }
{
    let knots = s.len();
    let mut lines = Waiting::new();
    let mut texts = KnotTexts::new();
    let first = s.knot_in_place(0);
    lines.put_point(&mut texts, &first.time, &first.point, scale);
    for i in 1..knots {
        put_next(
            text,
            &mut lines,
            &mut texts,
            s.knot_in_place(i - 1),
            s.knot_in_place(i),
            scale,
        )?;
    }
    lines.hand_over(text)
}
