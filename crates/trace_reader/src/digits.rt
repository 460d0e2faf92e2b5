//! The digits that a text begins with.
ghost use Rattle.std.specs.Prelude.{◌≡◌, ◌≤◌, length, take, drop, min, true, MatchOption};
ghost use Rattle.trace_reader.specs.Plain.{AreMoreDigits};
ghost use Rattle.stl_syntax.specs.Characters.{is_digit, all, StopsAt, decimal_value};

/// A number above all that a trace may have; a value that reached it is not told exactly.
pub(crate) const BEYOND: u64 = 4_294_967_296;

/// The digits that a text begins with: how many, and their value, which is told exactly below `BEYOND`.
#[derive(Clone, Copy)]
pub(crate) struct Digits {
    pub(crate) len: usize,
    pub(crate) value: u64,
}

pub(crate) fn leading_digits(text: &[u8]) -> Digits
    ensures within { result.len ≤ length text.now }
    ensures digits { all is_digit (take result.len text.now) ≡ true }
    ensures stops { StopsAt is_digit (drop result.len text.now) }
    ensures value { min result.value 4294967296 ≡ min (decimal_value 0 (take result.len text.now)) 4294967296 }
{
    let mut value = 0;
    for (i, byte) in text.iter().enumerate() {
        if *byte < b'0' || *byte > b'9' {
            return Digits { len: i, value };
        }
        if value < BEYOND {
            value = value * 10 + (*byte - b'0') as u64;
        }
    }
    Digits {
        len: text.len(),
        value,
    }
}

/// One to six digits that a text begins with, after others with that value: how many, and the value of all.
#[inline(always)]
pub(crate) fn more_digits(text: &[u8], before: u64) -> Option<Digits>
    requires room { 7 ≤ length text.now }
    requires small { before ≤ 999999999 }
    ensures { MatchOption result (Unit {0}) (AreMoreDigits text.now before) }
{
    let mut value = before;
    for len in 0..7 {
        let digit = u64::from(text[len]).wrapping_sub(48);
        if digit > 9 {
            if len == 0 {
                return None;
            }
            return Some(Digits { len, value });
        }
        value = value * 10 + digit;
    }
    None
}
