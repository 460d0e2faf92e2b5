//! The calls of `signal_ops`, `until_ops` and `window_ops`, each once, over two signals of truth with answers by hand. No command makes
//! them.
ghost use Rattle.std.specs.Prelude.{pos};
ghost use Rattle.rational.specs.Rational.{whole};
ghost use Rattle.rational.specs.Time.{◌≈◌};
ghost use Rattle.pl_signal.specs.Knots.{start, stop};
ghost use Rattle.pl_signal.specs.Limits.{IsLimited};

use super::checks::expect;
use super::signals::{is_limited, read, signal};
use frac128::Frac;
use pl_signal::{OpFault, Signal};
use signal_ops::{lower, neg, upper};
use std::alloc::Global;
use std::cmp::Ordering;
use std::process::Abort;
use until_ops::{since_from_start, until_to_end};
use value_laws::{Shape, Truth};
use window_ops::{inf_past, inf_window, sup_past, sup_window};

/// The truth over the times from 0 to 8 that these steps make.
fn up_to_8(
    rt: &impl Abort,
    alloc: Global,
    first: Truth,
    steps: &[(Truth, i64, Truth)],
) -> Signal<Truth>
    ensures limited { IsLimited ⟦<Truth as Shape>⟧ result }
    ensures begins { start result ≈ whole (pos 0) }
    ensures ends { stop result ≈ whole (pos 8) }
{
    let s = signal(rt, alloc, 0, first, steps);
    assert!(rt; is_limited(&s));
    let Ordering::Equal = s.start().cmp(&Frac::of(0)) else {
        panic!(rt; "start");
    };
    let Ordering::Equal = s.stop().cmp(&Frac::of(8)) else {
        panic!(rt; "stop");
    };
    s
}

/// Stops where a signal is not worth what is wanted, 1 where it holds, at each half of a tick from 0 on.
fn told(rt: &impl Abort, made: Result<Signal<Truth>, OpFault<Truth>>, want: &str) {
    let Ok(s) = made else {
        panic!(rt; "{want}");
    };
    let mut at: i64 = 0;
    for c in want.bytes() {
        expect(rt, read(rt, &s, at, 2).holds() == (c == b'1'), want, 0);
        at = at.wrapping_add(1);
    }
}

/// It holds before 4.
fn early(rt: &impl Abort, alloc: Global) -> Signal<Truth>
    ensures limited { IsLimited ⟦<Truth as Shape>⟧ result }
    ensures begins { start result ≈ whole (pos 0) }
    ensures ends { stop result ≈ whole (pos 8) }
{
    let (yes, no) = (Truth::of(true), Truth::of(false));
    up_to_8(rt, alloc, yes, &[(yes, 4, no), (no, 8, no)])
}

/// It holds from 2 to 6.
fn middle(rt: &impl Abort, alloc: Global) -> Signal<Truth>
    ensures limited { IsLimited ⟦<Truth as Shape>⟧ result }
    ensures begins { start result ≈ whole (pos 0) }
    ensures ends { stop result ≈ whole (pos 8) }
{
    let (yes, no) = (Truth::of(true), Truth::of(false));
    up_to_8(rt, alloc, no, &[(no, 2, yes), (yes, 6, yes), (no, 8, no)])
}

#[test]
fn signals_are_joined(rt: HostRuntime) {
    let p = early(&rt, rt.alloc());
    let q = middle(&rt, rt.alloc());
    told(&rt, lower(&p, &q), "00001111000000000");
    told(&rt, upper(&p, &q), "11111111111110000");
    told(&rt, until_to_end(&p, &q), "11111111000000000");
    told(&rt, since_from_start(&q, &p), "00001111111110000");
    let rest = match neg(&p) {
        Ok(s) => Ok(s),
        Err(memory) => Err(OpFault::from(memory)),
    };
    told(&rt, rest, "00000000111111111");
}

#[test]
fn windows_look_at_signals(rt: HostRuntime) {
    let p = early(&rt, rt.alloc());
    let q = middle(&rt, rt.alloc());
    told(&rt, sup_window(&p, 1, 2, true, false), "11111100000000000");
    told(&rt, inf_window(&q, 1, 2, true, true), "00111111100000011");
    told(
        &rt,
        sup_past(&p, 2, Some(3), true, false),
        "00001111111111000",
    );
    told(&rt, inf_past(&p, 1, None, true, true), "11111111110000000");
}
