//! The value of digits, told exactly as far as a formula may need it.
ghost use Rattle.std.specs.Prelude.{◌≡◌, ◌<◌, ◌≤◌, min, length, take, drop, true};
ghost use Rattle.stl_syntax.specs.Characters.{is_digit, all, decimal_value, without_zeros, begins_decimals as has_decimals};
ghost use Rattle.stl_grammar.specs.Spelling.{SpellsNumber};

use crate::chars;
use crate::decimal::Decimal;

/// A number above all that a formula may have; a value that reached it is not told exactly.
const BEYOND: u64 = 4_294_967_296;

/// The most decimals that a number may have.
const MOST_DECIMALS: usize = 6;

/// The value of the digits after those of `value`, told exactly below `BEYOND`.
pub(crate) fn value_after(value: u64, digits: &[u8]) -> u64
    requires digits { all is_digit digits.now ≡ true }
    ensures { min result 4294967296 ≡ min (decimal_value value digits.now) 4294967296 }
{
    let mut sum = value;
    for c in digits {
        if sum < BEYOND {
            sum = sum * 10 + (*c - b'0') as u64;
        }
    }
    sum
}

/// How many decimals are left without the zeros at their end.
pub(crate) fn kept_decimals(decimals: &[u8]) -> usize
    ensures within { result ≤ length decimals.now }
    ensures kept { take result decimals.now ≡ without_zeros decimals.now }
{
    let mut kept = decimals.len();
    while kept > 0 && decimals[kept - 1] == b'0' {
        kept -= 1;
    }
    kept
}

/// Whether a point and a digit come first.
pub(crate) fn begins_decimals(text: &[u8]) -> bool
    ensures { result ≡ has_decimals text.now }
{
    match text {
        [point, digit, ..] => *point == b'.' && chars::is_digit(*digit),
        _ => false,
    }
}

/// The number with this value and so many decimals.
pub(crate) fn number(value: u64, decimals: usize) -> Decimal
    ensures { SpellsNumber value decimals result }
{
    if value >= BEYOND || decimals > MOST_DECIMALS {
        return Decimal {
            value: 0,
            decimals: 7,
        };
    }
    Decimal {
        value: value as u32,
        decimals: decimals as u8,
    }
}
