//! The text of the value that was written last, as it stands where it was made.
ghost use Rattle.std.specs.Prelude.{◌≡◌, ◌≤◌, ◌<◌, ◌+◌, ◌-◌, ◌^◌, length, take, drop, pos, IsTrue, IfSome};
ghost use Rattle.rational.specs.Rational.{◌≈◌, IsWithin, whole};
ghost use Rattle.rational.specs.Extended.{finite, value_at, ◌≈ᵉ◌};
ghost use Rattle.frac128.specs.Value.{value};
ghost use Rattle.frac128.specs.Line.{line};
ghost use Rattle.frac128.specs.Ratios.{number};
ghost use Rattle.rational.specs.Line.{at};
ghost use Rattle.value_laws.specs.Margins.{margin_function};
ghost use Rattle.stl_syntax.specs.Texts.{IsNumberText, IsValueText};
ghost use Rattle.answer_lines.specs.After.{Adds};
ghost use Rattle.answer_lines.specs.Numbers.{signed};
ghost use Rattle.answer_lines.specs.Shown.{shown_value};

use crate::after::{TEXT_END, TEXT_ROOM, add_text};
use crate::before::put_lowest;
use crate::margin::put_margin;
use crate::number::{in_units, sized};
use crate::time_text::is_one_time;
use frac128::{Frac, Ramp, Ratio};
use std::marker::Model;
use value_laws::{Margin, Shape};

/// A value of a margin: a whole number of ticks, or what it is at a time.
#[derive(Clone, Copy)]
pub(crate) enum Shown {
    Whole(i64),
    At(Margin, Frac),
}

/// A value with its text, in units of a scale with `digits` decimals of values. The text stands in `room` from `from` on.
#[derive(Drop)]
pub struct ValueText {
    shown: Shown,
    digits: u8,
    from: usize,
    room: [u8; TEXT_ROOM],
}

impl Model for ValueText {
    ghost use Rattle.std.specs.Prelude.{◌≤◌, ◌-◌, take, drop};
    ghost use Rattle.rational.specs.Extended.{Extended};
    ghost use Rattle.stl_syntax.specs.Texts.{IsValueText};
    ghost use Rattle.answer_lines.specs.Shown.{shown_value};

    ghost Value = { Extended };

    ghost view = { λ l. shown_value l.shown };

    ghost invariant = { λ l. (l.from ≤ 96) × (14 ≤ l.from) × IsValueText l.digits (shown_value l.shown) (take (96 - l.from) (drop l.from l.room)) };
}

/// Whether both margins have one value at one time, by scales with as many decimals.
#[inline(always)]
fn is_one_value(m: &Margin, at: &Frac, decimals: u8, n: &Margin, t: &Frac, digits: u8) -> bool
    requires { IsWithin (2 ^ 34) (value t.now) }
    ensures { IsTrue result → (decimals ≡ digits)
        × (value_at (margin_function m.now) (value at.now) ≈ᵉ value_at (margin_function n.now) (value t.now)) }
{
    if is_one_time(at, decimals, t, digits) {
        return Margin::cmp_at(m, n, t).is_eq();
    }
    false
}

/// A number by its sign and its size.
#[inline(always)]
fn with_sign(negative: bool, size: u64) -> i64
    requires { size < 2 ^ 63 }
    ensures { result ≡ signed negative size }
{
    let n = size as i64;
    if negative { -n } else { n }
}

/// The quotient, where it is a whole number.
#[inline(always)]
fn whole_quotient(q: &Ratio) -> Option<i64>
    ensures { IfSome result (λ w. number q.now ≈ whole w) }
{
    let (negative, size) = sized(q.num);
    let den = q.den.unsigned_abs();
    if size >= 1 << 63 || den >= 1 << 63 {
        return None;
    }
    let (top, by) = (size as u64, den as u64);
    if top % by != 0 {
        return None;
    }
    Some(with_sign(negative, top / by))
}

/// The value of a line at a time, where both are whole: at the ends of its run it is seen at once.
#[inline(always)]
fn whole_on(f: &Ramp, t: &Frac) -> Option<i64>
    requires { IsWithin (2 ^ 34) (value t.now) }
    ensures { IfSome result (λ w. at (line f.now) (value t.now) ≈ whole w) }
{
    match f.plain(t) {
        Some(n) => Some(n),
        None => whole_between(f, t),
    }
}

/// The same at any time, by a division.
#[inline(never)]
fn whole_between(f: &Ramp, t: &Frac) -> Option<i64>
    requires { IsWithin (2 ^ 34) (value t.now) }
    ensures { IfSome result (λ w. at (line f.now) (value t.now) ≈ whole w) }
{
    if t.den() != 1 {
        return None;
    }
    let n = whole_quotient(&f.at(t))?;
    Some(n)
}

/// The value of a margin at a time, where it is seen to be whole.
#[inline(always)]
fn whole_at(m: &Margin, t: &Frac) -> Option<i64>
    requires { IsWithin (2 ^ 34) (value t.now) }
    ensures { IfSome result (λ w. value_at (margin_function m.now) (value t.now) ≈ᵉ finite (whole w)) }
{
    match m {
        Margin::Fixed(c) => {
            if c.den() != 1 {
                return None;
            }
            Some(c.whole())
        }
        Margin::Ramp(f) => whole_on(f, t),
        Margin::Low | Margin::High => None,
    }
}

/// Whether a value that is kept is this whole number, by scales with as many decimals.
#[inline(always)]
fn is_whole(shown: &Shown, decimals: u8, n: i64, digits: u8) -> bool
    ensures { IsTrue result → (decimals ≡ digits) × (shown_value shown.now ≡ finite (whole n)) }
{
    match shown {
        Shown::Whole(kept) => decimals == digits && *kept == n,
        Shown::At(..) => false,
    }
}

/// Whether a value that is kept is what the margin is at the time, by scales with as many decimals. Whole ones are not looked at.
#[inline(always)]
fn is_at(shown: &Shown, decimals: u8, m: &Margin, t: &Frac, digits: u8) -> bool
    requires { IsWithin (2 ^ 34) (value t.now) }
    ensures { IsTrue result → (decimals ≡ digits) × (shown_value shown.now ≈ᵉ value_at (margin_function m.now) (value t.now)) }
{
    match shown {
        Shown::Whole(_) => false,
        Shown::At(kept, time) => is_one_value(kept, time, decimals, m, t, digits),
    }
}

impl ValueText {
    /// The text of the value 0.
    pub fn new() -> ValueText
        ensures { result ≡ finite (whole (pos 0)) }
    {
        ValueText {
            shown: Shown::Whole(0),
            digits: 0,
            from: 95,
            room: [b'0'; TEXT_ROOM],
        }
    }

    /// Puts the text of a whole number, and keeps it.
    #[inline(always)]
    fn put_whole(&mut self, buf: &mut [u8], at: usize, n: i64, digits: u8) -> usize
        requires digits { digits ≤ 6 }
        requires room { at + 96 ≤ length buf.old }
        ensures { Adds (IsNumberText digits (whole n)) 82 buf.old at buf.new result }
    {
        if is_whole(&self.shown, self.digits, n, digits) {
            return add_text(buf, at, &self.room, self.from);
        }
        let from = put_lowest(&mut self.room, TEXT_END, &in_units(&Frac::of(n), digits));
        self.shown = Shown::Whole(n);
        self.digits = digits;
        self.from = from;
        add_text(buf, at, &self.room, from)
    }

    /// Puts the text of the value of a margin at a time, and keeps it.
    #[inline(never)]
    fn put_at(&mut self, buf: &mut [u8], at: usize, m: &Margin, t: &Frac, digits: u8) -> usize
        requires digits { digits ≤ 6 }
        requires time { IsWithin (2 ^ 34) (value t.now) }
        requires room { at + 96 ≤ length buf.old }
        ensures { Adds (IsValueText digits (value_at (margin_function m.now) (value t.now))) 82 buf.old at buf.new result }
    {
        if is_at(&self.shown, self.digits, m, t, digits) {
            return add_text(buf, at, &self.room, self.from);
        }
        let from = put_margin(&mut self.room, TEXT_END, m, t, digits);
        self.shown = Shown::At(*m, *t);
        self.digits = digits;
        self.from = from;
        add_text(buf, at, &self.room, from)
    }

    /// Puts the text of the value of a margin at a time, and keeps it. Whole values are compared as numbers.
    #[inline(always)]
    pub fn put(&mut self, buf: &mut [u8], at: usize, m: &Margin, t: &Frac, digits: u8) -> usize
        requires digits { digits ≤ 6 }
        requires time { IsWithin (2 ^ 34) (value t.now) }
        requires room { at + 96 ≤ length buf.old }
        ensures { Adds (IsValueText digits (value_at (margin_function m.now) (value t.now))) 82 buf.old at buf.new result }
    {
        match whole_at(m, t) {
            Some(n) => self.put_whole(buf, at, n, digits),
            None => self.put_at(buf, at, m, t, digits),
        }
    }
}
