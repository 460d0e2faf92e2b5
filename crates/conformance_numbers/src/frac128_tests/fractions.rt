//! Fractions at the limits, against values that were worked out elsewhere.
use crate::checks::expect;
use frac128::{Frac, Ratio, WideFrac, cmp_ratio, gcd};
use std::cmp::Ordering;

const MOST: i128 = i128::MAX;

const LEAST: i128 = i128::MIN;

/// A numerator and a denominator; then the whole part, the rest and the denominator in lowest terms.
const MADE: [(i64, i128, i64, u64, i128); 12] = [
    (7, 4, 1, 3, 4),
    (-14, 8, -2, 1, 4),
    (-8, 4, -2, 0, 1),
    (0, 5, 0, 0, 1),
    (
        -1,
        1_152_921_504_606_846_975,
        -1,
        1_152_921_504_606_846_974,
        1_152_921_504_606_846_975,
    ),
    (
        2,
        2_305_843_009_213_693_950,
        0,
        1,
        1_152_921_504_606_846_975,
    ),
    (
        1,
        1_152_921_504_606_846_976,
        0,
        0,
        1_152_921_504_606_846_976,
    ),
    (3, 1_729_382_256_910_270_464, 0, 1, 576_460_752_303_423_488),
    (
        1_099_511_627_776,
        1_267_650_600_228_229_401_496_703_205_376,
        0,
        0,
        1_152_921_504_606_846_976,
    ),
    (
        -9_223_372_036_854_775_808,
        1,
        -9_223_372_036_854_775_808,
        0,
        1,
    ),
    (
        -9_223_372_036_854_775_808,
        3,
        -3_074_457_345_618_258_603,
        1,
        3,
    ),
    (9_223_372_036_854_775_807, MOST, 0, 0, MOST),
];

/// Two numbers, each by numerator and denominator, and their order.
const ORDERED: [(i128, i128, i128, i128, Ordering); 8] = [
    (1, 3, 2, 6, Ordering::Equal),
    (-7, 4, -2, 1, Ordering::Greater),
    (MOST, MOST - 1, MOST - 1, MOST - 2, Ordering::Less),
    (LEAST, MOST, -1, 1, Ordering::Less),
    (LEAST, 1, MOST, 1, Ordering::Less),
    (LEAST, MOST, LEAST, MOST - 1, Ordering::Greater),
    (-1, MOST, 0, 1, Ordering::Less),
    (
        354_224_848_179_261_915_075,
        573_147_844_013_817_084_101,
        573_147_844_013_817_084_101,
        927_372_692_193_078_999_176,
        Ordering::Less,
    ),
];

/// Whether a fraction has these parts, or needs this denominator of 2^60 or more.
fn is_made(made: Result<Frac, WideFrac>, whole: i64, rest: u64, lowest: i128) -> bool {
    match made {
        Ok(f) => f.whole() == whole && f.rest() == rest && i128::from(f.den()) == lowest,
        Err(wide) => lowest >= 1 << 60 && wide.den == lowest.unsigned_abs(),
    }
}

#[test]
fn makes_in_lowest_terms_below_two_to_the_sixty(rt: HostRuntime) {
    for (row, (num, den, whole, rest, lowest)) in MADE.into_iter().enumerate() {
        assert!(&rt; den > 0);
        let made = Frac::make(i128::from(num), den);
        expect(&rt, is_made(made, whole, rest, lowest), "made", row);
    }
}

#[test]
fn orders_over_all_of_128_bits(rt: HostRuntime) {
    for (row, (n1, d1, n2, d2, order)) in ORDERED.into_iter().enumerate() {
        assert!(&rt; d1 > 0 && d2 > 0);
        let left = Ratio { num: n1, den: d1 };
        let right = Ratio { num: n2, den: d2 };
        expect(&rt, cmp_ratio(n1, d1, n2, d2) == order, "numbers", row);
        expect(&rt, left.cmp(&right) == order, "ratios", row);
    }
}

#[test]
fn ratios_and_mixed_numbers_are_reduced(rt: HostRuntime) {
    let whole = Ratio {
        num: MOST,
        den: MOST,
    };
    expect(&rt, is_made(whole.frac(), 1, 0, 1), "one", 0);
    expect(&rt, whole.cmp_frac(&Frac::of(2)).is_lt(), "below two", 0);
    let mixed = Ok(Frac::mixed(-2, 36, 48));
    expect(&rt, is_made(mixed, -2, 3, 4), "mixed", 0);
    expect(&rt, gcd(48, 36) == 12, "divisor", 0);
}
