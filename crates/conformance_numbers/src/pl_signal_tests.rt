//! Signals that are built, read and moved.
ghost use Rattle.std.specs.Prelude.{◌^◌};
ghost use Rattle.rational.specs.Rational.{IsWithin, ◌≤ʳ◌};
ghost use Rattle.frac128.specs.Value.{value};
ghost use Rattle.pl_signal.specs.Limits.{IsLimited};

use super::checks::expect;
use super::signals::{is_limited, read, signal};
use frac128::{Frac, Ramp};
use pl_signal::Signal;
use std::cmp::Ordering;
use std::process::Abort;
use value_laws::{Margin, Shape, Truth};

#[test]
fn knots_between_equal_truths_leave(rt: HostRuntime) {
    let (yes, no) = (Truth::of(true), Truth::of(false));
    let merged = signal(
        &rt,
        rt.alloc(),
        0,
        yes,
        &[(yes, 3, yes), (yes, 5, yes), (no, 7, no)],
    );
    assert!(&rt; merged.len() == 3, "3 leaves, and 5 stays");
    expect(&rt, merged.knot(1).time == Frac::of(5), "5 stays", 0);
    let kept = signal(&rt, rt.alloc(), 0, yes, &[(yes, 3, no), (yes, 5, yes)]);
    expect(&rt, kept.len() == 3, "the value at 3 is another", 0);
    expect(&rt, kept.start() == Frac::of(0), "start", 0);
    expect(&rt, kept.stop() == Frac::of(5), "stop", 0);
    expect(&rt, !read(&rt, &kept, 3, 1).holds(), "at 3", 0);
    expect(&rt, read(&rt, &kept, 7, 2).holds(), "at 7/2", 0);
}

#[test]
fn knots_on_one_line_leave(rt: HostRuntime) {
    let rise = Margin::Ramp(Ramp::make(0, 0, 1, 1));
    let also = Margin::Ramp(Ramp::make(10, 10, 2, 2));
    let line = signal(
        &rt,
        rt.alloc(),
        0,
        rise,
        &[(rise, 4, Margin::Fixed(Frac::of(4))), (also, 9, rise)],
    );
    expect(&rt, line.len() == 2, "one line, by other corners", 0);
    let jump = signal(
        &rt,
        rt.alloc(),
        0,
        rise,
        &[(rise, 4, Margin::Fixed(Frac::of(5))), (also, 9, rise)],
    );
    expect(&rt, jump.len() == 3, "a jump", 0);
}

/// A whole time.
fn at(n: i32) -> Frac
    ensures { IsWithin (2 ^ 33) (value result) }
{
    Frac::of(i64::from(n))
}

/// Stops where the one time is after the other.
fn expect_order(rt: &impl Abort, a: &Frac, b: &Frac)
    ensures { value a.now ≤ʳ value b.now }
{
    if let Ordering::Greater = a.cmp(b) {
        panic!(rt; "order");
    }
}

/// The signal moved by a whole number of ticks, on a part of its domain. A test ends where they are not allowed.
fn moved(rt: &impl Abort, s: &Signal<Truth>, by: i32, from: i32, to: i32) -> Signal<Truth>
    requires { IsLimited ⟦<Truth as Shape>⟧ s.now }
{
    let ticks = i64::from(by);
    let (first, last) = (at(from), at(to));
    expect_order(rt, &first, &last);
    expect_order(rt, &s.start(), &first.shift(ticks));
    expect_order(rt, &last.shift(ticks), &s.stop());
    let Ok(part) = s.shift_clip(ticks, &first, &last) else {
        panic!(rt; "memory");
    };
    part
}

#[test]
fn a_signal_is_moved_and_clipped(rt: HostRuntime) {
    let (yes, no) = (Truth::of(true), Truth::of(false));
    let s = signal(&rt, rt.alloc(), 0, yes, &[(no, 4, yes), (yes, 10, no)]);
    assert!(&rt; is_limited(&s));
    let part = moved(&rt, &s, 3, 0, 5);
    assert!(&rt; part.len() == 3 && part.knot(1).time == Frac::of(1));
    expect(&rt, !read(&rt, &part, 1, 2).holds(), "at 1/2", 0);
    expect(&rt, read(&rt, &part, 5, 1).holds(), "at 5", 0);
}
