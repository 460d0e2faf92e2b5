//! Whole numbers of 128 bits.
ghost use Rattle.std.specs.Prelude.{◌≡◌, ◌+◌, ◌*◌, ◌%◌, ◌<◌, ◌≤◌, ◌^◌, pos, ◌+ℤ◌, ◌-ℤ◌, ◌*ℤ◌, ◌<ℤ◌, MatchOption};
ghost use Rattle.std.specs.Int.{IsGcd, trailing_zeros, w64};
ghost use Rattle.std.specs.Int.RustNames.{unsigned_abs};
ghost use Rattle.std.specs.Ordering.{nat_cmp};

use std::cmp::Ordering;

/// The floor of `num / den`, and what is left of `num`.
pub(crate) fn split(num: i128, den: i128) -> (i128, u128)
    requires { pos 0 <ℤ den }
    ensures sum { result.0 *ℤ den +ℤ pos result.1 ≡ num }
    ensures below { result.1 < unsigned_abs den }
{
    if num >= 0 && num < 1 << 63 && den < 1 << 63 {
        let top = num as u64;
        let bottom = den as u64;
        return (i128::from(top / bottom), u128::from(top % bottom));
    }
    (num.div_euclid(den), num.rem_euclid(den).unsigned_abs())
}

/// `a * b - c * d`.
pub(crate) fn determinant(a: i128, b: i128, c: i128, d: i128) -> i128
    requires { unsigned_abs a * unsigned_abs b + unsigned_abs c * unsigned_abs d < 2 ^ 127 }
    ensures value { result ≡ a *ℤ b -ℤ c *ℤ d }
    ensures small { unsigned_abs result ≤ unsigned_abs a * unsigned_abs b + unsigned_abs c * unsigned_abs d }
{
    a * b - c * d
}

/// `a * b + c * d`.
pub(crate) fn sum_of_products(a: i128, b: i128, c: i128, d: i128) -> i128
    requires { unsigned_abs a * unsigned_abs b + unsigned_abs c * unsigned_abs d < 2 ^ 127 }
    ensures value { result ≡ a *ℤ b +ℤ c *ℤ d }
    ensures small { unsigned_abs result ≤ unsigned_abs a * unsigned_abs b + unsigned_abs c * unsigned_abs d }
{
    a * b + c * d
}

/// The number in 64 bits, where it has no more.
#[inline(always)]
pub(crate) fn narrow(n: i128) -> Option<i64>
    ensures { MatchOption result (2 ^ 63 ≤ unsigned_abs n) (λ x. x ≡ n) }
{
    if n >= -(1 << 63) && n < 1 << 63 {
        return Some(n as i64);
    }
    None
}

/// The greatest common divisor of two numbers of 128 bits: by Euclid until both have 64, and then by `gcd`.
pub fn gcd_of_wide(a: u128, b: u128) -> u128
    ensures { IsGcd a b result }
{
    let mut x = a;
    let mut y = b;
    while y >= 1 << 64 {
        let rest = x % y;
        x = y;
        y = rest;
    }
    if y == 0 {
        return x;
    }
    if x >= 1 << 64 {
        return u128::from(gcd(y as u64, (x % y) as u64));
    }
    u128::from(gcd(x as u64, y as u64))
}

/// The greatest common divisor of `a` and `b`; of a number and 0 it is the number.
///
/// Numbers of 32 bits go by Euclid, in few steps. Larger ones go by halving: factors of two are told by the lowest bits, so that no division
/// is needed.
pub fn gcd(a: u64, b: u64) -> u64
    ensures { IsGcd a b result }
{
    if a < 1 << 32 && b < 1 << 32 {
        return u64::from(gcd_of_small(a as u32, b as u32));
    }
    if a == 0 {
        return b;
    }
    if b == 0 {
        return a;
    }
    let twos = a.trailing_zeros().min(b.trailing_zeros());
    gcd_of_odd(odd_part(a), odd_part(b)) << twos
}

/// The greatest common divisor of two numbers of 32 bits, by Euclid.
fn gcd_of_small(a: u32, b: u32) -> u32
    ensures { IsGcd a b result }
{
    let mut x = a;
    let mut y = b;
    while y != 0 {
        let rest = x % y;
        x = y;
        y = rest;
    }
    x
}

/// The number without its factors of two.
#[inline(always)]
fn odd_part(n: u64) -> u64
    requires { 0 < n }
    ensures odd { result % 2 ≡ 1 }
    ensures twos { result * 2 ^ trailing_zeros w64 n ≡ n }
{
    n >> n.trailing_zeros()
}

/// The greatest common divisor of two odd numbers: it divides their difference, and so its odd part too.
fn gcd_of_odd(a: u64, b: u64) -> u64
    requires first { a % 2 ≡ 1 }
    requires second { b % 2 ≡ 1 }
    ensures { IsGcd a b result }
{
    let mut x = a;
    let mut y = b;
    while x != y {
        let apart = x.abs_diff(y);
        y = x.min(y);
        x = odd_part(apart);
    }
    x
}

/// The order of `n1 / d1` and `n2 / d2`, both below 1, with no product.
pub(crate) fn cmp_rests(n1: u128, d1: u128, n2: u128, d2: u128) -> Ordering
    requires below { n1 < d1 }
    requires other_below { n2 < d2 }
    ensures { result ≡ nat_cmp (n1 * d2) (n2 * d1) }
{
    let mut top = n1;
    let mut bottom = d1;
    let mut other_top = n2;
    let mut other_bottom = d2;
    while top != 0 && other_top != 0 {
        match (other_bottom / other_top).cmp(&(bottom / top)) {
            Ordering::Equal => {
                let rest = bottom % top;
                let other_rest = other_bottom % other_top;
                bottom = other_top;
                other_bottom = top;
                top = other_rest;
                other_top = rest;
            }
            order => return order,
        }
    }
    top.cmp(&other_top)
}
