//! The line of an early verdict.
ghost use Rattle.std.specs.Prelude.{◌≤◌, pos, OnOk, OnErr};
ghost use Rattle.rational.specs.Time.{whole, ◌≈◌};
ghost use Rattle.frac128.specs.Value.{value};
ghost use Rattle.answer_lines.specs.Appended.{Grew, GrewInPart};
ghost use Rattle.answer_lines.specs.EarlyLines.{IsDecidedLine};

use crate::number::{in_units, put_fraction};
use frac128::{Frac, Memory};
use stl_syntax::{Scale, Text};

/// A time of whole ticks.
fn tick_time(n: u32) -> Frac
    ensures { value result ≈ whole (pos n) }
{
    Frac::of(i64::from(n))
}

/// Appends the line of the row that decided, by its time in ticks of the scale.
///
/// # Errors
/// Want of memory. The text then has a first part of the line.
pub fn put_decided(text: &mut Text, at: u32, scale: Scale) -> Result<(), Memory>
    requires { scale.time ≤ 6 }
    ensures ok { OnOk result (Grew (IsDecidedLine scale at) text.old text.new) }
    ensures err { OnErr result (GrewInPart (IsDecidedLine scale at) text.old text.new) }
{
    let time = in_units(&tick_time(at), scale.time);
    text.push(b"decided at ")?;
    put_fraction(text, &time)?;
    text.push(b"\n")
}
