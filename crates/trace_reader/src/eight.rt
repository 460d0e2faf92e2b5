//! Up to eight digits at once.
ghost use Rattle.std.specs.Prelude.{◌≡◌, ◌≤◌, length, take, MatchOption};
ghost use Rattle.trace_reader.specs.Words.{word_of, IsEight, IsMarksOf, IsValueOf};
ghost use Rattle.trace_reader.specs.Plain.{IsFewDigits};

use crate::digits::Digits;

/// The first eight bytes as one word, the first lowest.
#[inline(always)]
pub(crate) fn first_word(text: &[u8]) -> u64
    requires { 8 ≤ length text.now }
    ensures { result ≡ word_of (take 8 text.now) }
{
    u64::from_le_bytes([
        text[0], text[1], text[2], text[3], text[4], text[5], text[6], text[7],
    ])
}

/// The top bit of the lowest byte that is above 9, none of those below it, and any of those above it:
/// a byte that is above 9 may carry into the next.
#[inline(always)]
fn marks(word: u64) -> u64
    ensures { IsMarksOf word result }
{
    (word | word.wrapping_add(0x7676_7676_7676_7676)) & 0x8080_8080_8080_8080
}

/// The number whose digits are the bytes of the word, the lowest byte first.
#[inline(always)]
fn number_of(word: u64) -> u64
    ensures { IsValueOf word result }
{
    let pairs = (word.wrapping_mul(2_561) >> 8) & 0x00FF_00FF_00FF_00FF;
    let fours = (pairs.wrapping_mul(6_553_601) >> 16) & 0x0000_FFFF_0000_FFFF;
    fours.wrapping_mul(42_949_672_960_001) >> 32
}

/// The digits that a text begins with, at most eight of them, where there are some.
#[inline(always)]
fn eight_digits(text: &[u8]) -> Option<Digits>
    requires { 8 ≤ length text.now }
    ensures { MatchOption result (Unit {0}) (IsEight (take 8 text.now)) }
{
    let word = first_word(text) ^ 0x3030_3030_3030_3030;
    let others = marks(word);
    if others == 0 {
        return Some(Digits {
            len: 8,
            value: number_of(word),
        });
    }
    let bits = others.trailing_zeros() & 0x78;
    if bits == 0 {
        return None;
    }
    Some(Digits {
        len: (bits >> 3) as usize,
        value: number_of(word << (64 - bits)),
    })
}

/// The digits that a text begins with, where they are one to nine.
#[inline(always)]
pub(crate) fn few_digits(text: &[u8]) -> Option<Digits>
    requires { 10 ≤ length text.now }
    ensures { MatchOption result (Unit {0}) (IsFewDigits text.now) }
{
    let eight = eight_digits(text)?;
    if eight.len < 8 {
        return Some(eight);
    }
    let ninth = u64::from(text[8]).wrapping_sub(48);
    if ninth > 9 {
        return Some(eight);
    }
    if u64::from(text[9]).wrapping_sub(48) <= 9 {
        return None;
    }
    Some(Digits {
        len: 9,
        value: eight.value * 10 + ninth,
    })
}
