//! Signals that tests build, read and measure.
ghost use Rattle.std.specs.Prelude.{◌≡◌, ◌^◌, IsTrue};
ghost use Rattle.rational.specs.Rational.{Rational, IsWithin};
ghost use Rattle.rational.specs.Extended.{value_at};
ghost use Rattle.rational.specs.Affine.{IsBounded};
ghost use Rattle.frac128.specs.Value.{value};
ghost use Rattle.pl_signal.specs.Knots.{stop};
ghost use Rattle.pl_signal.specs.Limits.{IsLimited};

use frac128::Frac;
use pl_signal::{Builder, Signal};
use std::alloc::Global;
use std::cmp::Ordering;
use std::process::Abort;
use value_laws::Shape;

/// Whether the time is within 2^34.
fn is_near(t: &Frac) -> bool
    ensures { IsTrue result → IsWithin (2 ^ 34) (value t.now) }
{
    let (low, high) = (Frac::of(-(1 << 34)), Frac::of(1 << 34));
    if let Ordering::Greater = low.cmp(t) {
        return false;
    }
    if let Ordering::Greater = t.cmp(&high) {
        return false;
    }
    true
}

/// A signal by its first instant and its steps: a shape up to a time, and the shape there. A test ends where they are not allowed.
pub(crate) fn signal<P: Shape>(
    rt: &impl Abort,
    alloc: Global,
    from: i64,
    first: P,
    steps: &[(P, i64, P)],
) -> Signal<P> {
    let mut last = Frac::of(from);
    let Ok(mut built) = Builder::start(alloc, last, first) else {
        panic!(rt; "memory");
    };
    for (after, at, point) in steps {
        let at = Frac::of(*at);
        assert!(rt; is_near(&last));
        let Ordering::Less = last.cmp(&at) else {
            panic!(rt; "order");
        };
        assert!(rt; built.step(*after, at, *point).is_ok(), "memory");
        last = at;
    }
    built.finish()
}

/// The shape at a time.
pub(crate) fn read<P: Shape>(rt: &impl Abort, s: &Signal<P>, num: i64, den: i64) -> P {
    assert!(rt; den > 0);
    let Ok(t) = Frac::make(i128::from(num), i128::from(den)) else {
        panic!(rt; "wide");
    };
    match s.at(&t) {
        Some(p) => p,
        None => panic!(rt; "outside"),
    }
}

/// Whether the signal of shapes with small values is limited.
pub(crate) fn is_limited<P: Shape>(s: &Signal<P>) -> bool
    requires { (x : P) (t : Rational) → IsBounded (2 ^ 31) (value_at (P.function x) t) }
    ensures { IsTrue result → IsLimited P.Shape s.now }
{
    if !is_near(&s.start()) {
        return false;
    }
    if !is_near(&s.stop()) {
        return false;
    }
    true
}
