//! The first LF of a text, which is near in most, the copy of a few bytes before it, and whether a text begins with a short word.
ghost use Rattle.std.specs.Prelude.{◌≡◌, ◌≢◌, ◌↔◌, ◌==◌, ◌<◌, ◌≤◌, ◌+◌, ◌++◌, ℕ, List, length, take, slice_index, if◌then◌else◌, IsTrue, MatchOption, Some};
ghost use Rattle.std.specs.Int.{bit_at};
ghost use Rattle.memchr.specs.Find.{is_byte, IsFirstByte};
ghost use Rattle.memchr.specs.Lanes.{HasLanes};
ghost use Rattle.trace_reader.specs.Feeds.{HasNoFeed};
ghost use Rattle.answer_lines.specs.After.{IsAdded};
ghost use Rattle.session_mux.specs.Near.{IsNoFeed, IsNextFeed};

use answer_lines::add_part;
use memchr::memchr;
use std::simd::prelude::*;

/// How many bytes are looked at.
pub(crate) const NEAR: usize = 32;

/// The bytes from a place on.
#[inline(always)]
pub(crate) fn bytes_at(text: &[u8], at: usize) -> u8x32
    requires { at + 32 ≤ length text.now }
    ensures { HasLanes result (λ k. slice_index text.now (at + k)) }
{
    u8x32::from_slice(&text[at..])
}

/// All bits where a byte is an LF, and none where it is another.
#[inline(always)]
fn feeds(bytes: u8x32) -> u8x32
    ensures { HasLanes result (λ k. if slice_index bytes k == 10 then 255 else 0) }
{
    bytes
        .simd_eq(u8x32::splat(b'\n'))
        .select(u8x32::splat(255), u8x32::splat(0))
}

/// All bits where two bytes differ, and none where they are the same.
#[inline(always)]
fn differing(bytes: u8x32, others: u8x32) -> u8x32
    ensures { HasLanes result (λ k. if slice_index bytes k == slice_index others k then 0 else 255) }
{
    bytes
        .simd_eq(others)
        .select(u8x32::splat(0), u8x32::splat(255))
}

/// The top bits of the bytes.
#[inline(always)]
fn top_bits(bytes: u8x32) -> u64
    ensures { (k : ℕ) → (bit_at result k ≡ 1) ↔ (128 ≤ slice_index bytes k) }
{
    bytes.simd_ge(u8x32::splat(128)).to_bitmask()
}

/// The lowest bit that is set.
#[inline(always)]
fn lowest(marks: u64) -> usize
    requires { marks ≢ 0 }
    ensures set { bit_at marks result ≡ 1 }
    ensures below { (k : ℕ) → k < result → bit_at marks k ≡ 0 }
{
    marks.trailing_zeros() as usize
}

/// How many bits from the lowest on are not set; all of them where none is.
#[inline(always)]
fn clear_bits(marks: u64) -> usize
    ensures { (k : ℕ) → k < result → bit_at marks k ≡ 0 }
{
    marks.trailing_zeros() as usize
}

/// Where the first LF stands among the 32 bytes from a place on, counted from there.
#[inline(always)]
pub(crate) fn near_feed(text: &[u8], at: usize) -> Option<usize>
    requires { at + 32 ≤ length text.now }
    ensures { MatchOption result (IsNoFeed text.now at) (IsNextFeed text.now at) }
{
    let marks = top_bits(feeds(bytes_at(text, at)));
    if marks == 0 {
        return None;
    }
    Some(lowest(marks))
}

/// Whether the first LF from a place on is so many bytes from there.
#[inline(always)]
pub(crate) fn is_next_feed(text: &[u8], at: usize, n: usize) -> bool
    requires { at + 32 ≤ length text.now }
    ensures { IsTrue result → IsNextFeed text.now at n }
{
    match near_feed(text, at) {
        Some(found) => found == n,
        None => false,
    }
}

/// Where the first LF of a text stands, if it is among its first 32 bytes and the text has as many.
#[inline(always)]
pub(crate) fn front_feed(text: &[u8]) -> Option<usize>
    ensures { MatchOption result (Unit {0}) (λ at. (32 ≤ length text.now) × IsNextFeed text.now 0 at) }
{
    if text.len() < NEAR {
        return None;
    }
    near_feed(text, 0)
}

/// Where the first LF of a text stands that has fewer bytes than are looked at: they are copied into a room that has as many.
#[inline(always)]
fn short_feed(text: &[u8]) -> Option<usize>
    requires { length text.now < 32 }
    ensures { IsFirstByte (is_byte 10) text.now result }
{
    let mut room = [0; NEAR];
    let end = add_part(&mut room, 0, text, text.len());
    let Some(at) = near_feed(&room, 0) else {
        return None;
    };
    if at >= end {
        return None;
    }
    Some(at)
}

/// Where the first LF stands.
#[inline(always)]
pub(crate) fn first_feed(text: &[u8]) -> Option<usize>
    ensures { IsFirstByte (is_byte 10) text.now result }
{
    if text.len() < NEAR {
        return short_feed(text);
    }
    match near_feed(text, 0) {
        Some(at) => Some(at),
        None => memchr(b'\n', text),
    }
}

/// As `first_feed`, where that is seldom.
#[inline(never)]
fn far_feed(text: &[u8]) -> Option<usize>
    ensures { IsFirstByte (is_byte 10) text.now result }
{
    first_feed(text)
}

/// Where the first LF stands in the end of a text that has none before that end.
#[inline(always)]
pub(crate) fn feed_behind(text: &[u8], end: &[u8]) -> Option<usize>
    requires { (front : List ℕ) × HasNoFeed front × (text.now ≡ front ++ end.now) }
    ensures { IsFirstByte (is_byte 10) end.now result }
{
    if text.len() < NEAR {
        return far_feed(end);
    }
    match near_feed(text, 0) {
        Some(at) => Some(at - (text.len() - end.len())),
        None => far_feed(end),
    }
}

/// As `feed_behind`, where the LF is among the first 32 bytes of the text, which has as many.
#[inline(always)]
pub(crate) fn near_feed_behind(text: &[u8], end: &[u8]) -> Option<usize>
    requires long { 32 ≤ length text.now }
    requires free { (front : List ℕ) × HasNoFeed front × (text.now ≡ front ++ end.now) }
    ensures { MatchOption result (Unit {0}) (λ at. IsFirstByte (is_byte 10) end.now (Some at) × (at < 32)) }
{
    match near_feed(text, 0) {
        Some(at) => Some(at - (text.len() - end.len())),
        None => None,
    }
}

/// Whether the first bytes of a text are those of a room, so many of them.
#[inline(always)]
pub(crate) fn begins_with(text: &[u8], room: &[u8; NEAR], len: usize) -> bool
    requires long { 32 ≤ length text.now }
    requires few { len ≤ 32 }
    ensures { IsTrue result → take len text.now ≡ take len room.now }
{
    let marks = top_bits(differing(bytes_at(text, 0), bytes_at(room, 0)));
    clear_bits(marks) >= len
}

/// Whether the bytes from a place on are the first ones of a text, so many of them and one more, as far as that can be told at once: else
/// they are taken to be.
#[inline(always)]
pub(crate) fn goes_on_alike(text: &[u8], at: usize, len: usize) -> bool {
    if at > text.len() || text.len() - at < NEAR {
        return true;
    }
    let marks = top_bits(differing(bytes_at(text, 0), bytes_at(text, at)));
    clear_bits(marks) > len
}

/// Puts the first of 32 bytes that were loaded, so many of them, behind what stands before `at`, and answers where they end. All are copied.
#[inline(always)]
pub(crate) fn store(buf: &mut [u8], at: usize, bytes: u8x32, len: usize) -> usize
    requires few { len ≤ 32 }
    requires room { at + 32 ≤ length buf.old }
    ensures { IsAdded (take len bytes) buf.old at buf.new result }
{
    bytes.copy_to_slice(&mut buf[at..]);
    at + len
}

/// Puts the first bytes of a text, a few of its first 32, behind what stands before `at`, and answers where they end. All 32 are copied.
#[inline(always)]
pub(crate) fn put_wide(buf: &mut [u8], at: usize, text: &[u8], len: usize) -> usize
    requires few { len ≤ 32 }
    requires long { 32 ≤ length text.now }
    requires room { at + 32 ≤ length buf.old }
    ensures { IsAdded (take len text.now) buf.old at buf.new result }
{
    store(buf, at, bytes_at(text, 0), len)
}

/// Puts some bytes behind what stands before `at`, and answers where they end. A few are copied as 32, where the text at whose front they
/// stand has as many.
#[inline(always)]
pub(crate) fn put_front(buf: &mut [u8], at: usize, word: &[u8], text: &[u8]) -> usize
    requires front { word.now ≡ take (length word.now) text.now }
    requires room { at + 32 ≤ length buf.old }
    requires whole { at + length word.now ≤ length buf.old }
    ensures { IsAdded word.now buf.old at buf.new result }
{
    if word.len() <= NEAR && text.len() >= NEAR {
        return add_part(buf, at, &text[..NEAR], word.len());
    }
    add_part(buf, at, word, word.len())
}
