//! The lines of verdicts and of the truth at the start.
ghost use Rattle.std.specs.Prelude.{◌≡◌, ◌≤◌, ◌++◌, if◌then◌else◌, codes, OnOk, OnErr};
ghost use Rattle.stl_syntax.specs.Texts.{IsSpanText, IsVerdictLine, start_line};
ghost use Rattle.answer_lines.specs.Appended.{Grew, GrewInPart};

use crate::number::{in_units, put_fraction};
use crate::time_text::TimeText;
use crate::verdict_lines::add_verdict;
use frac128::{Memory, Span};
use stl_syntax::{Scale, Text, Verdict};

/// Room for one line.
const LINE: usize = 256;

/// The bracket before a span.
pub(crate) fn opening(inside: bool) -> &'static [u8]
    ensures { result.now ≡ (if inside then codes "[" else codes "(") }
{
    if inside { b"[" } else { b"(" }
}

/// The bracket after a span.
fn closing(inside: bool) -> &'static [u8]
    ensures { result.now ≡ (if inside then codes "]" else codes ")") }
{
    if inside { b"]" } else { b")" }
}

/// Appends the text of a span, its ends in units.
///
/// # Errors
///
/// `Memory` where memory is wanting; part of the text may have been appended then.
pub fn put_span(text: &mut Text, on: &Span, scale: Scale) -> Result<(), Memory>
    requires { scale.time ≤ 6 }
    ensures ok { OnOk result (Grew (IsSpanText scale on.now) text.old text.new) }
    ensures err { OnErr result (GrewInPart (IsSpanText scale on.now) text.old text.new) }
{
    let from = in_units(&on.from, scale.time);
    let to = in_units(&on.to, scale.time);
    text.push(opening(on.from_in))?;
    put_fraction(text, &from)?;
    text.push(b",")?;
    put_fraction(text, &to)?;
    text.push(closing(on.to_in))
}

/// Appends the line of a verdict, with times in units of the scale.
///
/// # Errors
/// Want of memory. The text then has a first part of the line.
pub fn put_verdict(text: &mut Text, v: &Verdict, scale: Scale) -> Result<(), Memory>
    requires { scale.time ≤ 6 }
    ensures ok { OnOk result (Grew (IsVerdictLine scale v.now) text.old text.new) }
    ensures err { OnErr result (GrewInPart (IsVerdictLine scale v.now) text.old text.new) }
{
    let mut time = TimeText::new();
    let mut line = [0u8; LINE];
    let end = add_verdict(&mut line, 0, &mut time, v, scale);
    text.push(&line[..end])
}

/// The line of the truth at the start.
pub(crate) fn start_word(holds: bool) -> &'static [u8]
    ensures { result.now ≡ start_line holds }
{
    if holds {
        b"start true\n"
    } else {
        b"start false\n"
    }
}

/// Appends the line of the truth at the start.
///
/// # Errors
/// Want of memory. The text then has a first part of the line.
pub fn put_start(text: &mut Text, holds: bool) -> Result<(), Memory>
    ensures ok { OnOk result (text.new ≡ text.old ++ start_line holds) }
    ensures err { OnErr result (GrewInPart (λ w. w ≡ start_line holds) text.old text.new) }
{
    text.push(start_word(holds))
}
