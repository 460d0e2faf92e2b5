//! Texts put before others: in a buffer that is filled from its end on, so that no number needs a place of its own.
ghost use Rattle.std.specs.Prelude.{◌≡◌, ◌≢◌, ◌≤◌, ◌<◌, ◌∷◌, [], true, length, decimal};
ghost use Rattle.std.specs.Fmt.{signed_decimal};
ghost use Rattle.stl_syntax.specs.Texts.{fraction_text};
ghost use Rattle.answer_lines.specs.Before.{IsPut};
ghost use Rattle.answer_lines.specs.Numbers.{signed};

use crate::number::Lowest;
use itoa::{Buffer, write_digits};

/// Puts a word before what stands from `end` on, and answers where it begins.
#[inline(always)]
pub(crate) fn put_word(buf: &mut [u8], end: usize, word: &[u8]) -> usize
    requires room { length word.now ≤ end }
    requires inside { end ≤ length buf.old }
    ensures { IsPut word.now (length word.now) buf.old end buf.new result }
{
    let at = end - word.len();
    buf[at..end].copy_from_slice(word);
    at
}

/// Puts a byte.
#[inline(always)]
pub(crate) fn put_byte(buf: &mut [u8], end: usize, byte: u8) -> usize
    requires room { 1 ≤ end }
    requires inside { end ≤ length buf.old }
    ensures { IsPut (byte ∷ []) 1 buf.old end buf.new result }
{
    buf[end - 1] = byte;
    end - 1
}

/// Puts the digits of a number.
#[inline(always)]
fn put_number(buf: &mut [u8], end: usize, n: u128) -> usize
    requires room { 40 ≤ end }
    requires inside { end ≤ length buf.old }
    ensures { IsPut (decimal n) 40 buf.old end buf.new result }
{
    if n < 1 << 64 {
        return put_small(buf, end, n as u64);
    }
    put_large(buf, end, n)
}

/// Puts the digits of a number of 64 bits.
#[inline(always)]
pub(crate) fn put_small(buf: &mut [u8], end: usize, n: u64) -> usize
    requires room { 40 ≤ end }
    requires inside { end ≤ length buf.old }
    ensures { IsPut (decimal n) 40 buf.old end buf.new result }
{
    write_digits(n, buf, end)
}

/// Puts the digits of a number of up to 128 bits.
#[inline(never)]
fn put_large(buf: &mut [u8], end: usize, n: u128) -> usize
    requires room { 40 ≤ end }
    requires inside { end ≤ length buf.old }
    ensures { IsPut (decimal n) 40 buf.old end buf.new result }
{
    let mut digits = Buffer::new();
    put_word(buf, end, digits.format(n).as_bytes())
}

/// Puts a number with its sign.
#[inline(always)]
fn put_signed(buf: &mut [u8], end: usize, n: &Lowest) -> usize
    requires sign { n.now.negative ≡ true → n.now.size ≢ 0 }
    requires room { 41 ≤ end }
    requires inside { end ≤ length buf.old }
    ensures { IsPut (signed_decimal (signed n.now.negative n.now.size)) 41 buf.old end buf.new result }
{
    let at = put_number(buf, end, n.size);
    if n.negative {
        return put_word(buf, at, b"-");
    }
    at
}

/// Puts a fraction, without the denominator 1.
pub(crate) fn put_lowest(buf: &mut [u8], end: usize, n: &Lowest) -> usize
    requires sign { n.now.negative ≡ true → n.now.size ≢ 0 }
    requires room { 82 ≤ end }
    requires inside { end ≤ length buf.old }
    ensures { IsPut (fraction_text (signed n.now.negative n.now.size) n.now.den) 82 buf.old end buf.new result }
{
    if n.den == 1 {
        return put_signed(buf, end, n);
    }
    let den = put_number(buf, end, n.den);
    let bar = put_word(buf, den, b"/");
    put_signed(buf, bar, n)
}
