//! Ramps: values and crossings that were worked out elsewhere.
use super::times::{Corner, Pair, limited, ramp, time};
use crate::checks::expect;
use frac128::Ratio;

const FAR: i64 = 1 << 34;

const HIGH: i64 = 1 << 31;

const LONG: u32 = u32::MAX;

/// A ramp, a time, and the value.
const VALUES: [(Corner, Pair, i128, i128); 4] = [
    ((0, 0, 3, 2), (-1, 3), -1, 2),
    ((10, -5, 10, 10), (25, 2), -5, 2),
    (
        (FAR, HIGH, HIGH, LONG),
        (-FAR, 1),
        -64_563_604_260_130_914_304,
        4_294_967_295,
    ),
    (
        (-FAR, HIGH, -HIGH, LONG),
        (-1, 1_152_921_504_606_846_975),
        -31_901_471_901_313_861_000_592_013_881_667_223_552,
        4_951_760_155_988_599_590_694_682_625,
    ),
];

/// Two ramps and the time at which they are equal, or 0 / 0.
const CROSSED: [(Corner, Corner, i128, i128); 4] = [
    ((0, 0, 3, 2), (0, 10, -1, 1), 4, 1),
    ((0, 0, 1, 3), (7, -2, 2, 6), 0, 0),
    (
        (FAR, HIGH, HIGH, LONG),
        (-FAR, -HIGH, -HIGH, 4_294_967_294),
        -36_893_488_138_829_168_644,
        8_589_934_589,
    ),
    ((-4, 2, -6, 4), (0, 0, 1, 1), -8, 5),
];

/// A ramp, a number, and the time at which it is reached, or 0 / 0.
const REACHED: [(Corner, Pair, i128, i128); 3] = [
    ((0, 0, 3, 2), (5, 1), 10, 3),
    ((0, 4, 0, 7), (4, 1), 0, 0),
    ((FAR, HIGH, -HIGH, LONG), (-HIGH, 1), 25_769_803_774, 1),
];

fn equals(ratio: Ratio, num: i128, den: i128) -> bool {
    den > 0 && ratio == Ratio { num, den }
}

fn crosses(found: Option<Ratio>, num: i128, den: i128) -> bool {
    match found {
        Some(time) => equals(time, num, den),
        None => den == 0,
    }
}

#[test]
fn has_the_value_of_its_line(rt: HostRuntime) {
    for (row, (corner, (a, b), num, den)) in VALUES.into_iter().enumerate() {
        let p = ramp(&rt, corner);
        expect(&rt, equals(p.at(&time(&rt, a, b)), num, den), "value", row);
    }
}

#[test]
fn crosses_where_the_lines_do(rt: HostRuntime) {
    for (row, (corner, other, num, den)) in CROSSED.into_iter().enumerate() {
        let found = ramp(&rt, corner).cross_ramp(&ramp(&rt, other));
        expect(&rt, crosses(found, num, den), "crossing", row);
    }
}

#[test]
fn reaches_a_number_where_its_line_does(rt: HostRuntime) {
    for (row, (corner, (c, d), num, den)) in REACHED.into_iter().enumerate() {
        let found = ramp(&rt, corner).cross_const(&limited(&rt, c, d));
        expect(&rt, crosses(found, num, den), "crossing", row);
    }
}
