//! Up to three digits at once, as most values have.
ghost use Rattle.std.specs.Prelude.{◌≤◌, ◌^◌, ◌<◌, length, MatchOption};
ghost use Rattle.trace_reader.specs.Words.{AreMarksOfFour, IsValueOfFour};
ghost use Rattle.trace_reader.specs.Plain.{IsFewDigits};

use crate::digits::Digits;
use crate::eight::{few_digits, first_word};

/// The top bit of the lowest byte of four that is above 9, none of those below it, and any of those above it.
#[inline(always)]
fn marks_of_four(word: u64) -> u64
    requires { word < 2 ^ 32 }
    ensures { AreMarksOfFour word result }
{
    (word | (word + 0x7676_7676)) & 0x8080_8080
}

/// The number whose digits are the bytes of the word, the lowest byte first.
#[inline(always)]
fn number_of_four(word: u32) -> u32
    ensures value { IsValueOfFour word result }
    ensures small { result ≤ 65535 }
{
    let pairs = (word.wrapping_mul(2_561) >> 8) & 0x00FF_00FF;
    pairs.wrapping_mul(6_553_601) >> 16
}

/// The digits that a text begins with, as `few_digits` reads them: where they are at most three, by half a word, which takes less.
/// It is half of the word that `few_digits` loads, so that they are one load.
#[inline(always)]
pub(crate) fn short_digits(text: &[u8]) -> Option<Digits>
    requires { 10 ≤ length text.now }
    ensures { MatchOption result (Unit {0}) (IsFewDigits text.now) }
{
    let word = (first_word(text) & 0xFFFF_FFFF) ^ 0x3030_3030;
    let others = marks_of_four(word);
    if others == 0 {
        return few_digits(text);
    }
    let bits = others.trailing_zeros() & 0x78;
    if bits == 0 {
        return None;
    }
    Some(Digits {
        len: (bits >> 3) as usize,
        value: u64::from(number_of_four((word as u32) << (32 - bits))),
    })
}
