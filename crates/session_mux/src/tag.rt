//! The tag that a line begins with.
ghost use Rattle.std.specs.Prelude.{◌≡◌, ◌<◌, ◌≤◌, ◌^◌, ◌+◌, ◌++◌, ◌∷◌, codes, length, take, drop, true, MatchOption};
ghost use Rattle.stl_syntax.specs.Characters.{is_space as is_spacing, all, StopsAt};
ghost use Rattle.session_mux.specs.Sessions.{is_tag_byte as is_of_tag, Tagged, IsTag, IsTagged};
ghost use Rattle.answer_lines.specs.After.{IsAdded};
ghost use Rattle.session_mux.specs.Tags.{number_of as number};

use crate::near::{NEAR, begins_with, bytes_at, put_front, store};
use answer_lines::{add_byte, add_part};
use std::marker::Model;
use std::simd::prelude::*;

/// The most bytes of a tag.
pub(crate) const LONGEST: usize = 16;

/// Whether all bytes are spaces and tabs.
pub(crate) fn is_blank(line: &[u8]) -> bool
    ensures { result ≡ all is_spacing line.now }
{
    for byte in line {
        if *byte != b' ' && *byte != b'\t' {
            return false;
        }
    }
    true
}

/// Whether the byte is a letter, a digit or `_`.
fn is_tag_byte(byte: u8) -> bool
    ensures { result ≡ is_of_tag byte }
{
    byte >= b'A' && byte <= b'Z'
        || byte >= b'a' && byte <= b'z'
        || byte == b'_'
        || byte >= b'0' && byte <= b'9'
}

/// How many bytes at the front of a line may be of a tag.
pub(crate) fn tag_len(line: &[u8]) -> usize
    ensures within { result ≤ length line.now }
    ensures front { all is_of_tag (take result line.now) ≡ true }
    ensures stops { StopsAt is_of_tag (drop result line.now) }
{
    for (i, byte) in line.iter().enumerate() {
        if !is_tag_byte(*byte) {
            return i;
        }
    }
    line.len()
}

/// Room for a tag and a space, and what else is copied with them.
const ROOM: usize = NEAR;

/// A tag that is kept, with a space behind it. Contracts see the tag.
#[derive(Drop)]
pub(crate) struct Tag {
    bytes: [u8; ROOM],
    len: usize,
}

impl Model for Tag {
    ghost use Rattle.std.specs.Prelude.{ℕ, List, ◌≡◌, ◌≤◌, ◌+◌, ◌++◌, codes, take};

    ghost Value = { List ℕ };

    ghost view = { λ t. take t.len t.bytes };

    ghost invariant = { λ t. (t.len ≤ 16) × (take (t.len + 1) t.bytes ≡ take t.len t.bytes ++ codes " ") };
}

impl Tag {
    /// A tag to be kept.
    pub(crate) fn of(tag: &[u8]) -> Tag
        requires { length tag.now ≤ 16 }
        ensures { result ≡ tag.now }
    {
        Tag::at_front(tag, tag)
    }

    /// A tag to be kept, which stands at the front of a text.
    #[inline(always)]
    pub(crate) fn at_front(tag: &[u8], text: &[u8]) -> Tag
        requires few { length tag.now ≤ 16 }
        requires front { tag.now ≡ take (length tag.now) text.now }
        ensures { result ≡ tag.now }
    {
        let mut bytes = [0; ROOM];
        let len = put_front(&mut bytes, 0, tag, text);
        add_byte(&mut bytes, len, b' ');
        Tag { bytes, len }
    }

    /// The tag.
    pub(crate) fn bytes(&self) -> &[u8]
        ensures { result.now ≡ self.now }
    {
        &self.bytes[..self.len]
    }

    /// The tag, loaded to be put before many lines.
    #[inline(always)]
    pub(crate) fn loaded(&self) -> LoadedTag
        ensures { result ≡ self.now }
    {
        LoadedTag {
            bytes: bytes_at(&self.bytes, 0),
            len: self.len,
        }
    }

    /// What follows the tag and a space, where a piece begins with them.
    #[inline(always)]
    pub(crate) fn rest<'a>(&self, piece: &'a [u8]) -> Option<&'a [u8]>
        ensures { MatchOption result (Unit {0}) (λ r. piece.now ≡ self.now ++ 32 ∷ r.now) }
    {
        if piece.len() < NEAR {
            return self.rest_of_few(piece);
        }
        self.rest_of_long(piece)
    }

    /// The same, of a piece that is no shorter than what is looked at.
    #[inline(always)]
    pub(crate) fn rest_of_long<'a>(&self, piece: &'a [u8]) -> Option<&'a [u8]>
        requires { 32 ≤ length piece.now }
        ensures { MatchOption result (Unit {0}) (λ r. piece.now ≡ self.now ++ 32 ∷ r.now) }
    {
        let len = self.len + 1;
        if begins_with(piece, &self.bytes, len) {
            return Some(&piece[len..]);
        }
        None
    }

    /// The same, of a piece of whatever length.
    #[inline(never)]
    fn rest_of_few<'a>(&self, piece: &'a [u8]) -> Option<&'a [u8]>
        ensures { MatchOption result (Unit {0}) (λ r. piece.now ≡ self.now ++ 32 ∷ r.now) }
    {
        let len = self.len + 1;
        if piece.len() < len {
            return None;
        }
        if &piece[..len] == &self.bytes[..len] {
            return Some(&piece[len..]);
        }
        None
    }

    /// How many bytes the tag has, where a piece begins with it and a space.
    #[inline(always)]
    pub(crate) fn front(&self, piece: &[u8]) -> Option<usize>
        ensures { MatchOption result (Unit {0}) (λ n. (n ≤ length piece.now) × (take n piece.now ≡ self.now)) }
    {
        match self.rest(piece) {
            Some(_) => Some(self.len),
            None => None,
        }
    }

    /// Puts the tag and a space behind what stands before `at`, and answers where they end.
    #[inline(always)]
    pub(crate) fn put(&self, buf: &mut [u8], at: usize) -> usize
        requires { at + 32 ≤ length buf.old }
        ensures added { IsAdded (self.now ++ codes " ") buf.old at buf.new result }
        ensures few { result ≤ at + 17 }
    {
        add_part(buf, at, &self.bytes, self.len + 1)
    }
}

/// A tag with a space behind it, loaded once to be put before many lines. Contracts see the tag.
#[derive(Drop)]
pub(crate) struct LoadedTag {
    bytes: u8x32,
    len: usize,
}

impl Model for LoadedTag {
    ghost use Rattle.std.specs.Prelude.{ℕ, List, ◌≡◌, ◌≤◌, ◌+◌, ◌++◌, codes, take};

    ghost Value = { List ℕ };

    ghost view = { λ t. take t.len t.bytes };

    ghost invariant = { λ t. (t.len ≤ 16) × (take (t.len + 1) t.bytes ≡ take t.len t.bytes ++ codes " ") };
}

impl LoadedTag {
    /// Puts the tag and a space behind what stands before `at`, and answers where they end.
    #[inline(always)]
    pub(crate) fn put(&self, buf: &mut [u8], at: usize) -> usize
        requires { at + 32 ≤ length buf.old }
        ensures added { IsAdded (self.now ++ codes " ") buf.old at buf.new result }
        ensures few { result ≤ at + 17 }
    {
        store(buf, at, self.bytes, self.len + 1)
    }
}

/// A line that is cut after its tag.
#[derive(Clone, Copy)]
pub(crate) struct TaggedLine<'a> {
    pub(crate) tag: &'a [u8],
    pub(crate) content: &'a [u8],
}

/// The tag of a line, and its content after one space, exactly where the line has a tag.
pub(crate) fn cut(line: &[u8]) -> Option<TaggedLine<'_>>
    ensures { MatchOption result ((x : Tagged) → ¬ IsTagged line.now x)
        (λ c. IsTagged line.now (record { tag = c.tag.now; content = c.content.now })) }
{
    let len = tag_len(line);
    if len == 0 || len > LONGEST {
        return None;
    }
    if len == line.len() {
        return Some(TaggedLine {
            tag: line,
            content: &line[len..],
        });
    }
    if line[len] != b' ' {
        return None;
    }
    Some(TaggedLine {
        tag: &line[..len],
        content: &line[len + 1..],
    })
}

/// The tag as one number, by which its session is found.
pub(crate) fn number_of(tag: &[u8]) -> u128
    requires { IsTag tag.now }
    ensures { result ≡ number tag.now }
{
    let mut number = 0;
    for at in (0..tag.len()).rev() {
        number = number * 256 + u128::from(tag[at]);
    }
    number
}
