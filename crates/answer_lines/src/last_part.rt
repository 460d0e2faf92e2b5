//! What was written last of a margin over time. A part mostly begins where the one before it ended, and then the texts are copied.
ghost use Rattle.std.specs.Prelude.{◌≡◌, pos};
ghost use Rattle.rational.specs.Rational.{◌≈◌, whole};
ghost use Rattle.rational.specs.Extended.{finite};
ghost use Rattle.frac128.specs.Value.{value};

use crate::margin_lines::KnotTexts;

/// Room for one line.
const ROOM: usize = 448;

/// The time that was written last, and the value that was, each with its text, so that they need not be made again, and room for a line.
#[derive(Drop)]
pub struct LastPart {
    pub(crate) texts: KnotTexts,
    pub(crate) line: [u8; ROOM],
}

impl LastPart {
    /// Nothing was written yet: it has the texts of the time 0 and of the value 0.
    pub fn new() -> LastPart
        ensures time { value result.texts.time ≈ whole (pos 0) }
        ensures value { result.texts.value ≡ finite (whole (pos 0)) }
    {
        LastPart {
            texts: KnotTexts::new(),
            line: [0; ROOM],
        }
    }
}
