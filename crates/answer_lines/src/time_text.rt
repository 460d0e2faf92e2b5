//! The text of the time that was written last, as it stands where it was made.
ghost use Rattle.std.specs.Prelude.{◌≡◌, ◌≤◌, ◌+◌, ◌-◌, length, take, drop, decimal, pos, IsTrue, MatchOption};
ghost use Rattle.rational.specs.Rational.{◌≈◌, whole};
ghost use Rattle.frac128.specs.Value.{value};
ghost use Rattle.stl_syntax.specs.Texts.{IsNumberText};
ghost use Rattle.answer_lines.specs.After.{Adds};
ghost use Rattle.answer_lines.specs.Before.{Puts};

use crate::after::{TEXT_END, TEXT_ROOM, add_text};
use crate::before::{put_lowest, put_small};
use crate::number::in_units;
use frac128::Frac;
use std::marker::Model;

/// A time with its text, in units of a scale with `digits` decimals of times. The text stands in `room` from `from` on.
#[derive(Drop)]
pub struct TimeText {
    time: Frac,
    digits: u8,
    from: usize,
    room: [u8; TEXT_ROOM],
}

impl Model for TimeText {
    ghost use Rattle.std.specs.Prelude.{◌≤◌, ◌-◌, take, drop};
    ghost use Rattle.frac128.specs.Value.{value};
    ghost use Rattle.frac128.specs.declared.frac.Frac.{Frac as AFrac};
    ghost use Rattle.stl_syntax.specs.Texts.{IsNumberText};

    ghost Value = { AFrac };

    ghost view = { λ l. l.time };

    ghost invariant = { λ l. (l.from ≤ 96) × (14 ≤ l.from) × IsNumberText l.digits (value l.time) (take (96 - l.from) (drop l.from l.room)) };
}

/// The number of units that a time is, where one tick is a unit and the time is a whole number of them.
#[inline(always)]
fn whole_units(t: &Frac, digits: u8) -> Option<u64>
    ensures { MatchOption result (Unit {0}) (λ n. IsNumberText digits (value t.now) (decimal n)) }
{
    if digits != 0 {
        return None;
    }
    if t.den() != 1 {
        return None;
    }
    if t.whole() < 0 {
        return None;
    }
    Some(t.whole().unsigned_abs())
}

/// Puts the text of a time.
#[inline(always)]
pub(crate) fn put_time_before(buf: &mut [u8], end: usize, t: &Frac, digits: u8) -> usize
    requires digits { digits ≤ 6 }
    requires room { 82 ≤ end }
    requires inside { end ≤ length buf.old }
    ensures { Puts (IsNumberText digits (value t.now)) 82 buf.old end buf.new result }
{
    match whole_units(t, digits) {
        Some(n) => put_small(buf, end, n),
        None => put_lowest(buf, end, &in_units(t, digits)),
    }
}

/// Whether both are one time, by scales with as many decimals.
#[inline(always)]
pub(crate) fn is_one_time(first: &Frac, decimals: u8, second: &Frac, digits: u8) -> bool
    ensures { IsTrue result → (decimals ≡ digits) × (value first.now ≈ value second.now) }
{
    if decimals != digits {
        return false;
    }
    *first == *second
}

impl TimeText {
    /// The text of the time 0.
    pub fn new() -> TimeText
        ensures { value result ≈ whole (pos 0) }
    {
        TimeText {
            time: Frac::of(0),
            digits: 0,
            from: 95,
            room: [b'0'; TEXT_ROOM],
        }
    }

    /// Puts the text of a time, and keeps it.
    #[inline(always)]
    pub fn put(&mut self, buf: &mut [u8], at: usize, t: &Frac, digits: u8) -> usize
        requires digits { digits ≤ 6 }
        requires room { at + 96 ≤ length buf.old }
        ensures { Adds (IsNumberText digits (value t.now)) 82 buf.old at buf.new result }
    {
        if is_one_time(&self.time, self.digits, t, digits) {
            return add_text(buf, at, &self.room, self.from);
        }
        self.put_new(buf, at, t, digits)
    }

    /// Puts the text of a time that is another than the one before, and keeps it.
    #[inline(always)]
    pub fn put_new(&mut self, buf: &mut [u8], at: usize, t: &Frac, digits: u8) -> usize
        requires digits { digits ≤ 6 }
        requires room { at + 96 ≤ length buf.old }
        ensures { Adds (IsNumberText digits (value t.now)) 82 buf.old at buf.new result }
    {
        let from = put_time_before(&mut self.room, TEXT_END, t, digits);
        self.time = *t;
        self.digits = digits;
        self.from = from;
        add_text(buf, at, &self.room, from)
    }
}
