//! Numbers of a few digits, maybe with a few decimals, which most rows have alone.
ghost use Rattle.std.specs.Prelude.{◌≡◌, ◌≤◌, ◌<◌, ◌∷◌, ◌++◌, ◌⊎◌, [], length, take, get_or, if◌then◌else◌, MatchOption};
ghost use Rattle.trace_reader.specs.Plain.{IsFewDigits, IsPlainNumber, IsPlainTime, IsPlainValue};

use crate::digits::{BEYOND, Digits, more_digits};
use crate::eight::few_digits;
use crate::four::short_digits;
use crate::number::{opposite_of, scaled, value_of};
use crate::row::LARGEST;

/// A number without a sign in ticks, and how many bytes it has.
#[derive(Clone, Copy)]
pub(crate) struct PlainNumber {
    pub(crate) size: u64,
    pub(crate) len: usize,
}

/// A time in ticks, and how many bytes it has.
#[derive(Clone, Copy)]
pub(crate) struct PlainTime {
    pub(crate) time: u32,
    pub(crate) len: usize,
}

/// A value in ticks, and how many bytes it has.
#[derive(Clone, Copy)]
pub(crate) struct PlainValue {
    pub(crate) value: i32,
    pub(crate) len: usize,
}

/// The number with a point after these digits, and one to `most` digits after it, in ticks of 1/10^digits.
#[inline(always)]
fn with_decimals(text: &[u8], whole: Digits, most: &u8, digits: u8) -> Option<PlainNumber>
    requires whole { IsFewDigits text.now whole }
    requires inside { whole.len < length text.now }
    requires point { get_or text.now whole.len 0 ≡ 46 }
    requires most { most.now ≤ digits }
    requires digits { digits ≤ 6 }
    ensures { MatchOption result (Unit {0}) (IsPlainNumber most.now digits text.now) }
{
    let rest = &text[whole.len + 1..];
    if rest.len() < 7 {
        return None;
    }
    let all = more_digits(rest, whole.value)?;
    if all.len > *most as usize || all.value >= BEYOND {
        return None;
    }
    Some(PlainNumber {
        size: scaled(all.value, digits - all.len as u8),
        len: whole.len + 1 + all.len,
    })
}

/// The number of these digits, maybe with a point and further digits, that a text begins with, where a byte follows:
/// in ticks of 1/10^digits, where it has at most `most` decimals.
#[inline(always)]
fn plain_number(text: &[u8], whole: Digits, most: &u8, digits: u8) -> Option<PlainNumber>
    requires whole { IsFewDigits text.now whole }
    requires room { 10 ≤ length text.now }
    requires most { most.now ≤ digits }
    requires digits { digits ≤ 6 }
    ensures { MatchOption result (Unit {0}) (IsPlainNumber most.now digits text.now) }
{
    if text[whole.len] == b'.' {
        return with_decimals(text, whole, most, digits);
    }
    Some(PlainNumber {
        size: scaled(whole.value, digits),
        len: whole.len,
    })
}

/// The time without a sign that a text begins with, in ticks of 1/10^digits, where it has at most `most` decimals and a byte follows.
#[inline(always)]
pub(crate) fn plain_time(text: &[u8], most: &u8, digits: u8) -> Option<PlainTime>
    requires most { most.now ≤ digits }
    requires digits { digits ≤ 6 }
    ensures { MatchOption result (Unit {0}) (IsPlainTime most.now digits text.now) }
{
    if text.len() < 10 {
        return None;
    }
    let number = plain_number(text, few_digits(text)?, most, digits)?;
    if number.size >= BEYOND {
        return None;
    }
    Some(PlainTime {
        time: number.size as u32,
        len: number.len,
    })
}

/// The size as that of a value, where it is one.
#[inline(always)]
fn value_size(size: u64) -> Option<u32>
    ensures { MatchOption result (Unit {0}) (λ s. (s ≡ size) × (s ≤ 16777216)) }
{
    if size > LARGEST as u64 {
        return None;
    }
    Some(size as u32)
}

/// How many bytes the sign of a number has. The digits behind it are read in one place, so that their word is one load.
#[inline(always)]
fn sign_len(minus: bool) -> usize
    ensures { result ≡ (if minus then 1 else 0) }
{
    if minus { 1 } else { 0 }
}

/// The value, maybe with a minus, that a text begins with, in ticks of 1/10^digits, where it has at most `most` decimals and a byte follows.
#[inline(always)]
pub(crate) fn plain_value(text: &[u8], most: &u8, digits: u8) -> Option<PlainValue>
    requires most { most.now ≤ digits }
    requires digits { digits ≤ 6 }
    ensures { MatchOption result (Unit {0}) (IsPlainValue most.now digits text.now) }
{
    if text.len() < 11 {
        return None;
    }
    let minus = text[0] == b'-';
    let unsigned = &text[sign_len(minus)..];
    let number = plain_number(unsigned, short_digits(unsigned)?, most, digits)?;
    let size = value_size(number.size)?;
    if minus {
        return Some(PlainValue {
            value: opposite_of(size),
            len: number.len + 1,
        });
    }
    Some(PlainValue {
        value: value_of(size),
        len: number.len,
    })
}

/// The bytes up to and with the LF that stands at that place, or after a CR there.
#[inline(always)]
pub(crate) fn line_end(piece: &[u8], at: usize) -> Option<usize>
    requires { at < length piece.now }
    ensures { MatchOption result (Unit {0}) (λ n.
        (n ≤ length piece.now) × ((take n piece.now ≡ take at piece.now ++ 10 ∷ []) ⊎ (take n piece.now ≡ (take at piece.now ++ 13 ∷ []) ++ 10 ∷ []))) }
{
    if piece[at] == b'\n' {
        return Some(at + 1);
    }
    if piece[at] == b'\r' && at + 1 < piece.len() && piece[at + 1] == b'\n' {
        return Some(at + 2);
    }
    None
}
