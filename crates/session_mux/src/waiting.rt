//! Lines that are said and wait to be added to the text of the answers, many at once.
ghost use Rattle.std.specs.Prelude.{◌≡◌, ◌≤◌, ◌++◌, ◌∷◌, ℕ, List, [], codes, length, take, OnOk, OnErr};
ghost use Rattle.stl_syntax.specs.Texts.{newline};

use crate::near::{put_front, put_wide};
use crate::tag::{LoadedTag, Tag};
use answer_lines::add_byte;
use frac128::Memory;
use std::marker::Model;
use stl_syntax::Text;

/// Room for lines, and for one more behind them.
const ROOM: usize = 704;

/// Where more bytes wait, there is no room for a line more.
const FULL: usize = 512;

/// The bytes of lines that are not added yet. Contracts see the bytes.
#[derive(Drop)]
pub(crate) struct Waiting {
    used: usize,
    bytes: [u8; ROOM],
}

impl Model for Waiting {
    ghost use Rattle.std.specs.Prelude.{ℕ, List, take, ◌≤◌};

    ghost Value = { List ℕ };

    ghost view = { λ l. take l.used l.bytes };

    ghost invariant = { λ l. l.used ≤ 704 };
}

impl Waiting {
    /// None wait.
    pub(crate) fn new() -> Waiting
        ensures { result ≡ [] }
    {
        Waiting {
            used: 0,
            bytes: [0; ROOM],
        }
    }

    /// Adds the bytes to the text.
    ///
    /// # Errors
    /// Want of memory; the text and the bytes stay as they were.
    pub(crate) fn hand_over(&mut self, out: &mut Text) -> Result<(), Memory>
        ensures text { OnOk result (out.new ≡ out.old ++ self.old) }
        ensures none { OnOk result (self.new ≡ []) }
        ensures err { OnErr result ((out.new ≡ out.old) × (self.new ≡ self.old)) }
    {
        out.push(&self.bytes[..self.used])?;
        self.used = 0;
        Ok(())
    }

    /// Makes room for a line more: where there is none, the bytes are added to the text.
    ///
    /// # Errors
    /// As `hand_over`.
    #[inline(always)]
    pub(crate) fn make_room(&mut self, out: &mut Text) -> Result<(), Memory>
        ensures joined { OnOk result (out.new ++ self.new ≡ out.old ++ self.old) }
        ensures room { OnOk result (length self.new ≤ 512) }
        ensures err { OnErr result ((out.new ≡ out.old) × (self.new ≡ self.old)) }
        ensures begins { (front : List ℕ) × (out.new ≡ out.old ++ front) }
    {
        if self.used <= FULL {
            return Ok(());
        }
        self.hand_over(out)
    }

    /// Puts the first bytes of a text, a few, after the tag and a space.
    #[inline(always)]
    pub(crate) fn put_near(&mut self, tag: &LoadedTag, text: &[u8], len: usize)
        requires few { len ≤ 32 }
        requires long { 32 ≤ length text.now }
        requires room { length self.old ≤ 512 }
        ensures { self.new ≡ self.old ++ ((tag.now ++ codes " ") ++ take len text.now) }
    {
        let begin = tag.put(&mut self.bytes, self.used);
        self.used = put_wide(&mut self.bytes, begin, text, len);
    }

    /// Puts a line after the tag and a space. The text, at whose front it stands, may be read behind it.
    #[inline(always)]
    pub(crate) fn put(&mut self, tag: &Tag, line: &[u8], text: &[u8])
        requires front { line.now ≡ take (length line.now) text.now }
        requires few { length line.now ≤ 128 }
        requires room { length self.old ≤ 512 }
        ensures { self.new ≡ self.old ++ ((tag.now ++ codes " ") ++ line.now ++ newline) }
    {
        let begin = tag.put(&mut self.bytes, self.used);
        let end = put_front(&mut self.bytes, begin, line, text);
        self.used = add_byte(&mut self.bytes, end, b'\n');
    }
}
