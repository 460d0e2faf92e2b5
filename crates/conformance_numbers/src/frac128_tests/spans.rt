//! Spans that have a time.
use super::times::fraction;
use crate::checks::expect;
use frac128::{Frac, Span};

/// Two ends, each in or out, and whether some time lies between.
const SPANS: [(i64, bool, i64, bool, bool); 7] = [
    (1, true, 1, true, true),
    (1, true, 1, false, false),
    (1, false, 1, true, false),
    (1, false, 2, false, true),
    (-2, true, -1, false, true),
    (2, true, 1, true, false),
    (0, false, 0, false, false),
];

/// Whether a span was made of these ends, or none.
fn is_made(made: Option<Span>, from: Frac, to: Frac, some: bool) -> bool {
    match made {
        Some(on) => some && on.from == from && on.to == to,
        None => !some,
    }
}

#[test]
fn has_a_time_in_it(rt: HostRuntime) {
    for (row, (a, from_in, b, to_in, some)) in SPANS.into_iter().enumerate() {
        let (from, to) = (fraction(&rt, a, 3), fraction(&rt, b, 3));
        let made = Span::make(from, from_in, to, to_in);
        expect(&rt, is_made(made, from, to, some), "span", row);
    }
}
