//! Lines of an answer on their way to the output, in a room that is taken once.
ghost use Rattle.std.specs.Prelude.{◌≡◌, ◌≤◌, ◌+◌, ◌++◌, ◌↔◌, [], length, IfOk, IfSome, IsTrue};
ghost use Rattle.frac128.specs.Value.{value};
ghost use Rattle.stl_syntax.specs.Texts.{IsVerdictLine, start_line};
ghost use Rattle.answer_lines.specs.Appended.{Grew};
ghost use Rattle.answer_lines.specs.Rooms.{IsTextAt};

use crate::after::{TEXT_ROOM, add_part};
use crate::line_after::{TextAt, add_line};
use crate::verdict::start_word;
use frac128::Memory;
use std::alloc::Global;
use std::marker::Model;
use stl_syntax::{Scale, Verdict};

/// Room for lines, and for a few more behind them.
const ROOM: usize = 66_560;

/// Where more bytes stand, there is no room for a few lines more.
const FULL: usize = 65_536;

/// The bytes of lines that are not written to the output yet. Contracts see the bytes.
///
/// Who answers with many lines takes one before the first of them is written: they are put here, and written and cleared whenever the room
/// is full. No line needs memory, so nothing but the output can stop an answer that has begun.
#[derive(Drop)]
pub struct LineRoom {
    made: [u8; TEXT_ROOM],
    used: usize,
    bytes: Vec<u8>,
}

impl Model for LineRoom {
    ghost use Rattle.std.specs.Prelude.{◌≡◌, ◌≤◌, ℕ, List, length, take};

    ghost Value = { List ℕ };

    ghost view = { λ l. take l.used l.bytes.items };

    ghost invariant = { λ l. (l.used ≤ 66560) × (length l.bytes.items ≡ 66560) };
}

impl LineRoom {
    /// No lines yet.
    ///
    /// # Errors
    /// Want of memory.
    pub fn new(alloc: Global) -> Result<LineRoom, Memory>
        ensures { IfOk result (λ l. l ≡ []) }
    {
        let Ok(bytes) = vec![in alloc; 0; ROOM] else {
            return Err(Memory);
        };
        Ok(LineRoom {
            made: [b'0'; TEXT_ROOM],
            used: 0,
            bytes,
        })
    }

    /// The bytes of the lines so far.
    pub fn bytes(&self) -> &[u8]
        ensures { result.now ≡ self.now }
    {
        &self.bytes[..self.used]
    }

    /// Takes all lines away.
    pub fn clear(&mut self)
        ensures { self.new ≡ [] }
    {
        self.used = 0;
    }

    /// Whether there is room for a few lines more.
    #[inline(always)]
    pub fn has_room(&self) -> bool
        ensures { IsTrue result ↔ (length self.now ≤ 65536) }
    {
        self.used <= FULL
    }

    /// Puts the line of a verdict, with times in units of the scale, and answers where the text of the time stands at which it ends. A line
    /// that begins there takes it over: `last` says so.
    #[inline(always)]
    pub fn put_verdict(&mut self, v: &Verdict, scale: Scale, last: Option<TextAt>) -> TextAt
        requires digits { scale.time ≤ 6 }
        requires room { length self.old ≤ 65536 }
        requires last { IfSome last (IsTextAt scale.time (value v.now.on.from) self.old) }
        ensures line { Grew (IsVerdictLine scale v.now) self.old self.new }
        ensures to { IsTextAt scale.time (value v.now.on.to) self.new result }
    {
        let line = add_line(&mut self.bytes, self.used, &mut self.made, v, scale, last);
        self.used = line.end;
        line.to
    }

    /// Puts the line of the truth at the start.
    pub fn put_start(&mut self, holds: bool)
        requires { length self.old ≤ 65536 }
        ensures { self.new ≡ self.old ++ start_line holds }
    {
        let word = start_word(holds);
        self.used = add_part(&mut self.bytes, self.used, word, word.len());
    }
}
