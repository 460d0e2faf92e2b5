//! The line of one part of a margin over time: a point, or an open gap.
ghost use Rattle.std.specs.Prelude.{◌≡◌, ◌≤◌, ◌^◌, length, OnOk, OnErr};
ghost use Rattle.rational.specs.Rational.{IsWithin};
ghost use Rattle.rational.specs.Extended.{value_at};
ghost use Rattle.frac128.specs.Value.{value as value_of};
ghost use Rattle.value_laws.specs.Margins.{margin_function};
ghost use Rattle.stl_syntax.specs.Texts.{IsKnotLine};
ghost use Rattle.answer_lines.specs.Appended.{Grew, GrewInPart};
ghost use Rattle.answer_lines.specs.Before.{Puts};
ghost use Rattle.answer_lines.specs.PartLines.{IsPartLine, IsPartWithin, IsGapLine};

use crate::last_part::LastPart;
use crate::margin_lines::{add_gap, add_point};
use frac128::{Frac, Memory};
use stl_syntax::{Scale, Text};
use value_laws::Margin;

/// A part of a margin over time.
#[derive(Clone, Copy, Debug)]
pub enum MarginPart {
    /// At the time the margin is what `value` is there.
    Point { at: Frac, value: Margin },
    /// Strictly between the times the margin is `piece`.
    Gap { from: Frac, to: Frac, piece: Margin },
}

/// Appends the line of a point.
fn put_point(
    text: &mut Text,
    last: &mut LastPart,
    at: &Frac,
    value: &Margin,
    scale: Scale,
) -> Result<(), Memory>
    requires time { scale.time ≤ 6 }
    requires value { scale.value ≤ 6 }
    requires within { IsWithin (2 ^ 34) (value_of at.now) }
    ensures ok { OnOk result (Grew
        (IsKnotLine scale (record { time = value_of at.now; value = value_at (margin_function value.now) (value_of at.now) })) text.old text.new) }
    ensures err { OnErr result (GrewInPart
        (IsKnotLine scale (record { time = value_of at.now; value = value_at (margin_function value.now) (value_of at.now) })) text.old text.new) }
{
    let end = add_point(&mut last.line, 0, &mut last.texts, at, value, scale);
    text.push(&last.line[..end])
}

/// Appends the line of a gap.
fn put_gap(
    text: &mut Text,
    last: &mut LastPart,
    from: &Frac,
    to: &Frac,
    piece: &Margin,
    scale: Scale,
) -> Result<(), Memory>
    requires time { scale.time ≤ 6 }
    requires value { scale.value ≤ 6 }
    requires begins { IsWithin (2 ^ 34) (value_of from.now) }
    requires ends { IsWithin (2 ^ 34) (value_of to.now) }
    ensures ok { OnOk result (Grew (IsGapLine scale from.now to.now piece.now) text.old text.new) }
    ensures err { OnErr result (GrewInPart (IsGapLine scale from.now to.now piece.now) text.old text.new) }
{
    let end = add_gap(&mut last.line, 0, &mut last.texts, from, to, piece, scale);
    text.push(&last.line[..end])
}

/// Appends the line of a part of a margin: a point with its value, or a gap with its limits. Times and values are in units of the
/// scale, in lowest terms.
///
/// # Errors
/// Want of memory. The text then has a first part of the line.
pub fn put_margin_line(text: &mut Text, line: &MarginPart, scale: Scale) -> Result<(), Memory>
    requires time { scale.time ≤ 6 }
    requires value { scale.value ≤ 6 }
    requires within { IsPartWithin (2 ^ 34) line.now }
    ensures ok { OnOk result (Grew (IsPartLine scale line.now) text.old text.new) }
    ensures err { OnErr result (GrewInPart (IsPartLine scale line.now) text.old text.new) }
{
    let mut last = LastPart::new();
    put_margin_line_after(text, &mut last, line, scale)
}

/// Appends the line of a part of a margin, as `put_margin_line`. `last` has what was written last, so that a part that begins there
/// takes its texts over.
///
/// # Errors
/// As `put_margin_line`.
pub fn put_margin_line_after(
    text: &mut Text,
    last: &mut LastPart,
    line: &MarginPart,
    scale: Scale,
) -> Result<(), Memory>
    requires time { scale.time ≤ 6 }
    requires value { scale.value ≤ 6 }
    requires within { IsPartWithin (2 ^ 34) line.now }
    ensures ok { OnOk result (Grew (IsPartLine scale line.now) text.old text.new) }
    ensures err { OnErr result (GrewInPart (IsPartLine scale line.now) text.old text.new) }
{
    match line {
        MarginPart::Point { at, value } => put_point(text, last, at, value, scale),
        MarginPart::Gap { from, to, piece } => put_gap(text, last, from, to, piece, scale),
    }
}
