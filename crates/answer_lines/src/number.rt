//! Numbers of ticks as fractions of units, in lowest terms.
ghost use Rattle.std.specs.Prelude.{ℕ, ◌≡◌, ◌≢◌, ◌<◌, ◌≤◌, ◌^◌, ◌/◌, ◌%◌, [], ◌++◌, true, if◌then◌else◌, codes, decimal, OnOk, OnErr};
ghost use Rattle.std.specs.Int.{IsGcd};
ghost use Rattle.std.specs.Int.RustNames.{unsigned_abs};
ghost use Rattle.rational.specs.Time.{IsLowest, ratio, ◌≈◌};
ghost use Rattle.frac128.specs.Ratios.{number};
ghost use Rattle.frac128.specs.Value.{value, denominator};
ghost use Rattle.stl_syntax.specs.Texts.{fraction_text, IsNumberText};
ghost use Rattle.answer_lines.specs.Appended.{Grew, GrewInPart};
ghost use Rattle.answer_lines.specs.Numbers.{signed, IsInUnits};

use frac128::{Frac, Memory, Ratio, gcd, gcd_of_wide};
use itoa::Buffer;
use stl_syntax::Text;

/// A fraction in lowest terms, by its sign and its size.
#[derive(Clone, Copy)]
pub(crate) struct Lowest {
    pub(crate) negative: bool,
    pub(crate) size: u128,
    pub(crate) den: u128,
}

/// `n / by`, in 64 bits where `n` has no more.
fn quotient(n: u128, by: u64) -> u128
    requires { 0 < by }
    ensures { result ≡ n / by }
{
    if n < 1 << 64 {
        return u128::from(n as u64 / by);
    }
    n / u128::from(by)
}

/// `n % by`, in 64 bits where `n` has no more.
fn remainder(n: u128, by: u64) -> u64
    requires { 0 < by }
    ensures { result ≡ n % by }
{
    if n < 1 << 64 {
        return n as u64 % by;
    }
    (n % u128::from(by)) as u64
}

/// The greatest common divisor of a size and a power of ten.
fn common_with(size: u128, tens: u64) -> u64
    requires { 0 < tens }
    ensures common { IsGcd size tens result }
    ensures some { 0 < result }
{
    gcd(tens, remainder(size, tens))
}

/// The number times its denominator, by its sign and its size.
#[inline(always)]
fn top(t: &Frac) -> (bool, u128)
    ensures lowest { IsLowest (signed result.0 result.1) (denominator t.now) }
    ensures value { value t.now ≈ ratio (signed result.0 result.1) (denominator t.now) t.now.positive }
    ensures negative { result.0 ≡ true → 0 < result.1 }
{
    let whole = u128::from(t.whole().unsigned_abs()) * u128::from(t.den());
    let rest = u128::from(t.rest());
    if t.whole() < 0 {
        (true, whole - rest)
    } else {
        (false, whole + rest)
    }
}

/// A number of ticks of `1 / 10^digits` as a fraction of units.
#[inline(always)]
pub(crate) fn in_units(t: &Frac, digits: u8) -> Lowest
    requires { digits ≤ 6 }
    ensures { IsInUnits digits (value t.now) result.negative result.size result.den }
{
    let (negative, size) = top(t);
    // Ticks that are units: there is nothing to reduce, since the number is in lowest terms.
    if digits == 0 {
        return Lowest {
            negative,
            size,
            den: u128::from(t.den()),
        };
    }
    let tens = 10u64.pow(u32::from(digits));
    let common = common_with(size, tens);
    Lowest {
        negative,
        size: quotient(size, common),
        den: u128::from(t.den()) * u128::from(tens / common),
    }
}

/// A number by its sign and its size.
pub(crate) fn sized(n: i128) -> (bool, u128)
    ensures is { n ≡ signed result.0 result.1 }
    ensures negative { result.0 ≡ true → 0 < result.1 }
{
    if n < 0 {
        (true, n.unsigned_abs())
    } else {
        (false, n.unsigned_abs())
    }
}

/// A quotient of two numbers of 64 bits, in lowest terms.
fn small_quotient(negative: bool, size: u64, den: u64) -> Lowest
    requires { 0 < den }
    ensures { (common : ℕ) × IsGcd size den common × (result.negative ≡ negative) × (result.size ≡ size / common) × (result.den ≡ den / common) }
{
    let common = gcd(den, size % den);
    Lowest {
        negative,
        size: u128::from(size / common),
        den: u128::from(den / common),
    }
}

/// A quotient of ticks of `1 / 10^digits` as a fraction of units.
pub(crate) fn quotient_in_units(q: &Ratio, digits: u8) -> Lowest
    requires few { digits ≤ 6 }
    requires small { unsigned_abs q.now.den < 2 ^ 92 }
    ensures { IsInUnits digits (number q.now) result.negative result.size result.den }
{
    let (negative, size) = sized(q.num);
    let tens = 10u64.pow(u32::from(digits));
    let den = q.den.unsigned_abs() * u128::from(tens);
    if size < 1 << 64 && den < 1 << 64 {
        return small_quotient(negative, size as u64, den as u64);
    }
    let common = gcd_of_wide(size, den);
    Lowest {
        negative,
        size: size / common,
        den: den / common,
    }
}

/// Appends a minus where the number is negative.
fn put_sign(text: &mut Text, negative: bool) -> Result<(), Memory>
    ensures ok { OnOk result (text.new ≡ text.old ++ (if negative then codes "-" else [])) }
    ensures err { OnErr result (text.new ≡ text.old) }
{
    if !negative {
        return Ok(());
    }
    text.push(b"-")
}

/// Appends the digits of a number, which are found in 64 bits where it has no more.
fn put_digits(text: &mut Text, n: u128) -> Result<(), Memory>
    ensures ok { OnOk result (text.new ≡ text.old ++ decimal n) }
    ensures err { OnErr result (text.new ≡ text.old) }
{
    let mut buffer = Buffer::new();
    if n < 1 << 64 {
        return text.push(buffer.format(n as u64).as_bytes());
    }
    text.push(buffer.format(n).as_bytes())
}

/// The text of a fraction, without the denominator 1.
pub(crate) fn put_fraction(text: &mut Text, n: &Lowest) -> Result<(), Memory>
    requires { n.now.negative ≡ true → n.now.size ≢ 0 }
    ensures ok { OnOk result (text.new ≡ text.old ++ fraction_text (signed n.now.negative n.now.size) n.now.den) }
    ensures err { OnErr result (GrewInPart (λ w. w ≡ fraction_text (signed n.now.negative n.now.size) n.now.den) text.old text.new) }
{
    put_sign(text, n.negative)?;
    put_digits(text, n.size)?;
    if n.den == 1 {
        return Ok(());
    }
    text.push(b"/")?;
    put_digits(text, n.den)
}

/// Appends a number of ticks of `1 / 10^digits`, as a number of units.
///
/// # Errors
///
/// `Memory` where memory is wanting; part of the text may have been appended then.
pub fn put_time(text: &mut Text, t: &Frac, digits: u8) -> Result<(), Memory>
    requires { digits ≤ 6 }
    ensures ok { OnOk result (Grew (IsNumberText digits (value t.now)) text.old text.new) }
    ensures err { OnErr result (GrewInPart (IsNumberText digits (value t.now)) text.old text.new) }
{
    put_fraction(text, &in_units(t, digits))
}
