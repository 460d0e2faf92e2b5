//! Lines that wait to be appended to a text, many at once.
ghost use Rattle.std.specs.Prelude.{◌≡◌, ◌≤◌, ◌+◌, ◌++◌, ◌^◌, ℕ, List, [], length, OnOk, OnErr};
ghost use Rattle.rational.specs.Rational.{IsWithin};
ghost use Rattle.rational.specs.Extended.{value_at};
ghost use Rattle.frac128.specs.Value.{value};
ghost use Rattle.value_laws.specs.Kinds.{margin_shape};
ghost use Rattle.value_laws.specs.Margins.{margin_function};
ghost use Rattle.stl_syntax.specs.Texts.{IsVerdictLine, IsKnotLine};
ghost use Rattle.answer_lines.specs.Appended.{Grew};
ghost use Rattle.answer_lines.specs.MarginLines.{AreNextLines};

use crate::margin_lines::{KnotTexts, add_lines, add_point};
use crate::time_text::TimeText;
use crate::verdict_lines::add_verdict;
use frac128::{Frac, Memory};
use pl_signal::Knot;
use std::marker::Model;
use stl_syntax::{Scale, Text, Verdict};
use value_laws::Margin;

/// Room for lines, and for a few more behind them.
const ROOM: usize = 4736;

/// Where more bytes wait, there is no room for a few lines more.
const FULL: usize = 4096;

/// The bytes of lines that are not appended yet. Contracts see the bytes.
#[derive(Drop)]
pub(crate) struct Waiting {
    used: usize,
    bytes: [u8; ROOM],
}

impl Model for Waiting {
    ghost use Rattle.std.specs.Prelude.{ℕ, List, take, ◌≤◌};

    ghost Value = { List ℕ };

    ghost view = { λ l. take l.used l.bytes };

    ghost invariant = { λ l. l.used ≤ 4736 };
}

impl Waiting {
    /// None wait.
    pub(crate) fn new() -> Waiting
        ensures { result ≡ [] }
    {
        Waiting {
            used: 0,
            bytes: [0; ROOM],
        }
    }

    /// Appends the bytes to the text.
    pub(crate) fn hand_over(&mut self, text: &mut Text) -> Result<(), Memory>
        ensures text { OnOk result (text.new ≡ text.old ++ self.old) }
        ensures none { OnOk result (self.new ≡ []) }
        ensures err { OnErr result ((text.new ≡ text.old) × (self.new ≡ self.old)) }
    {
        text.push(&self.bytes[..self.used])?;
        self.used = 0;
        Ok(())
    }

    /// Makes room for a few lines: where there is none, the bytes are appended to the text.
    #[inline(always)]
    pub(crate) fn make_room(&mut self, text: &mut Text) -> Result<(), Memory>
        ensures joined { OnOk result (text.new ++ self.new ≡ text.old ++ self.old) }
        ensures room { OnOk result (length self.new ≤ 4096) }
        ensures err { OnErr result ((text.new ≡ text.old) × (self.new ≡ self.old)) }
        ensures begins { (front : List ℕ) × (text.new ≡ text.old ++ front) }
    {
        if self.used <= FULL {
            return Ok(());
        }
        self.hand_over(text)
    }

    /// Puts the line of a verdict.
    #[inline(always)]
    pub(crate) fn put_verdict(&mut self, last: &mut TimeText, v: &Verdict, scale: Scale)
        requires digits { scale.time ≤ 6 }
        requires room { length self.old ≤ 4352 }
        ensures grew { Grew (IsVerdictLine scale v.now) self.old self.new }
        ensures few { length self.new ≤ length self.old + 256 }
    {
        self.used = add_verdict(&mut self.bytes, self.used, last, v, scale);
    }

    /// Puts the line of a margin at a time.
    pub(crate) fn put_point(
        &mut self,
        texts: &mut KnotTexts,
        at: &Frac,
        margin: &Margin,
        scale: Scale,
    )
        requires time { scale.time ≤ 6 }
        requires value { scale.value ≤ 6 }
        requires within { IsWithin (2 ^ 34) (value at.now) }
        requires room { length self.old ≤ 4096 }
        ensures { Grew (IsKnotLine scale (record { time = value at.now; value = value_at (margin_function margin.now) (value at.now) })) self.old self.new }
    {
        self.used = add_point(&mut self.bytes, self.used, texts, at, margin, scale);
    }

    /// Puts the lines of the piece between two knots and of the second.
    pub(crate) fn put_lines(
        &mut self,
        texts: &mut KnotTexts,
        k: &Knot<Margin>,
        n: &Knot<Margin>,
        scale: Scale,
    )
        requires time { scale.time ≤ 6 }
        requires value { scale.value ≤ 6 }
        requires from { IsWithin (2 ^ 34) (value k.now.time) }
        requires to { IsWithin (2 ^ 34) (value n.now.time) }
        requires room { length self.old ≤ 4096 }
        ensures { Grew (AreNextLines margin_shape scale k.now n.now) self.old self.new }
    {
        self.used = add_lines(&mut self.bytes, self.used, texts, k, n, scale);
    }
}
