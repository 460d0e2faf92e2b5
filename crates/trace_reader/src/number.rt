//! Reads the numbers of a row, exactly, in ticks.
ghost use Rattle.std.specs.Prelude.{◌≡◌, ◌≤◌, ◌*◌, ◌^◌, ◌∷◌, ℕ, ℤ, pos, negsuc, neg_ℤ, List, length, min, true, MatchOption, MatchResult, IfOk, nat_abs};
ghost use Rattle.stl_syntax.specs.Characters.{is_digit, all, decimal_value, without_zeros as shortened, IsNumeral, ticks};
ghost use Rattle.trace_reader.specs.TraceText.{IsNumber, IsInTicks};
ghost use Rattle.trace_reader.specs.LineParts.{signed};
ghost use Rattle.trace_reader.specs.TraceRefusals.{NumberFault};
ghost use Rattle.trace_reader.specs.FieldFaults.{IsFieldRead};

use crate::TraceKind;
use crate::digits::{BEYOND, leading_digits};
use crate::row::LARGEST;

/// A number of ticks: its sign, and its size, which is told exactly below `BEYOND`.
#[derive(Clone, Copy)]
struct Ticks {
    negative: bool,
    size: u64,
}

/// Whether all bytes are digits.
fn are_digits(text: &[u8]) -> bool
    ensures { result ≡ all is_digit text.now }
{
    for c in text {
        if *c < b'0' || *c > b'9' {
            return false;
        }
    }
    true
}

/// Decimals without the zeros at their end.
fn without_zeros(decimals: &[u8]) -> &[u8]
    ensures { result.now ≡ shortened decimals.now }
{
    let mut end = decimals.len();
    while end > 0 && decimals[end - 1] == b'0' {
        end -= 1;
    }
    &decimals[..end]
}

/// The decimals of a text that is a point and one or more digits, without the zeros at their end.
fn read_decimals(text: &[u8]) -> Option<&[u8]>
    ensures { MatchOption result
        ((d : ℕ) (more : List ℕ) → text.now ≡ 46 ∷ d ∷ more → ¬ (all is_digit (d ∷ more) ≡ true))
        (λ z. (d : ℕ) × (more : List ℕ) × (text.now ≡ 46 ∷ d ∷ more) × (all is_digit (d ∷ more) ≡ true) × (z.now ≡ shortened (d ∷ more))) }
{
    let (point, decimals) = text.split_first()?;
    if *point != b'.' || decimals.is_empty() || !are_digits(decimals) {
        return None;
    }
    Some(without_zeros(decimals))
}

/// The value of digits after others with that value.
fn go_on(value: u64, digits: &[u8]) -> u64
    requires digits { all is_digit digits.now ≡ true }
    requires small { value ≤ 4294967296 }
    ensures value { min result 4294967296 ≡ min (decimal_value value digits.now) 4294967296 }
    ensures bounded { result ≤ 42949672969 }
{
    let mut sum = value;
    for byte in digits {
        if sum < BEYOND {
            sum = sum * 10 + (*byte - b'0') as u64;
        }
    }
    sum
}

/// A value with so many zeros more.
pub(crate) fn scaled(value: u64, places: u8) -> u64
    requires value { value ≤ 42949672969 }
    requires places { places ≤ 6 }
    ensures { result ≡ value * 10 ^ places }
{
    if places == 0 {
        return value;
    }
    value * 10u64.pow(u32::from(places))
}

/// The ticks of 1/10^digits in a number without a sign that has at most `most` decimals.
fn read_numeral(text: &[u8], most: u8, digits: u8) -> Option<u64>
    requires most { most ≤ digits }
    requires digits { digits ≤ 6 }
    ensures { MatchOption result
        ((n k : ℕ) → IsNumeral text.now n k → ¬ (k ≤ most))
        (λ v. (n : ℕ) × (k : ℕ) × IsNumeral text.now n k × (k ≤ most) × (min v 4294967296 ≡ min (ticks digits n k) 4294967296)) }
{
    let whole = leading_digits(text);
    if whole.len == 0 {
        return None;
    }
    let value = whole.value.min(BEYOND);
    if whole.len == text.len() {
        return Some(scaled(value, digits));
    }
    let decimals = read_decimals(&text[whole.len..])?;
    if decimals.len() > most as usize {
        return None;
    }
    Some(scaled(go_on(value, decimals), digits - decimals.len() as u8))
}

/// The ticks of 1/10^digits in a number that has at most `most` decimals.
fn read_ticks(field: &[u8], most: u8, digits: u8) -> Option<Ticks>
    requires most { most ≤ digits }
    requires digits { digits ≤ 6 }
    ensures { MatchOption result
        ((v : ℤ) (k : ℕ) → IsNumber field.now v k → ¬ (k ≤ most))
        (λ t. (m : ℕ) × IsInTicks digits most field.now (signed t.negative m) × (min t.size 4294967296 ≡ min m 4294967296)) }
{
    let (first, others) = field.split_first()?;
    if *first == b'-' {
        let size = read_numeral(others, most, digits)?;
        return Some(Ticks {
            negative: true,
            size,
        });
    }
    let unsigned = if *first == b'+' { others } else { field };
    let size = read_numeral(unsigned, most, digits)?;
    Some(Ticks {
        negative: false,
        size,
    })
}

/// A size as a value.
pub(crate) fn value_of(size: u32) -> i32
    requires { size ≤ 16777216 }
    ensures value { result ≡ pos size }
    ensures small { nat_abs result ≤ 16777216 }
{
    size as i32
}

/// The opposite of a size.
pub(crate) fn opposite_of(size: u32) -> i32
    requires { size ≤ 16777216 }
    ensures value { result ≡ neg_ℤ (pos size) }
    ensures small { nat_abs result ≤ 16777216 }
{
    -(size as i32)
}

/// The time in field 1 of a row, in ticks of 1/10^digits, where it may have at most `most` decimals.
pub(crate) fn read_time(field: &[u8], most: u8, digits: u8) -> Result<u32, TraceKind>
    requires most { most ≤ digits }
    requires digits { digits ≤ 6 }
    ensures cases { MatchResult result
        (λ t. IsFieldRead digits most (pos 0) (pos 4294967295) 1 field.now (pos t))
        (NumberFault digits most (pos 0) (pos 4294967295) 1 field.now) }
    ensures small { IfOk result (λ t. t ≤ 4294967295) }
{
    let Some(ticks) = read_ticks(field, most, digits) else {
        return Err(TraceKind::BadNumber { field: 1 });
    };
    if ticks.size == 0 {
        return Ok(0);
    }
    if ticks.negative {
        return Err(TraceKind::OutOfRange { field: 1 });
    }
    if ticks.size >= BEYOND {
        return Err(TraceKind::OutOfRange { field: 1 });
    }
    Ok(ticks.size as u32)
}

/// The value in a further field of a row, in ticks of 1/10^digits, where it may have at most `most` decimals.
pub(crate) fn read_value(field: &[u8], place: u32, most: u8, digits: u8) -> Result<i32, TraceKind>
    requires most { most ≤ digits }
    requires digits { digits ≤ 6 }
    ensures cases { MatchResult result
        (IsFieldRead digits most (negsuc 16777215) (pos 16777216) place field.now)
        (NumberFault digits most (negsuc 16777215) (pos 16777216) place field.now) }
    ensures small { IfOk result (λ v. nat_abs v ≤ 16777216) }
{
    let Some(ticks) = read_ticks(field, most, digits) else {
        return Err(TraceKind::BadNumber { field: place });
    };
    if ticks.size > LARGEST as u64 {
        return Err(TraceKind::OutOfRange { field: place });
    }
    if ticks.negative {
        return Ok(opposite_of(ticks.size as u32));
    }
    Ok(value_of(ticks.size as u32))
}
