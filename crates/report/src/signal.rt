//! The verdicts of a signal, in lines or in JSON.
ghost use Rattle.std.specs.Prelude.{◌≡◌, ◌≤◌, ◌&&◌, ◌++◌, ℕ, List, true, false, OnOk, OnErr};
ghost use Rattle.rational.specs.Time.{HasTimeBetween, ◌<ʳ◌};
ghost use Rattle.frac128.specs.Value.{value};
ghost use Rattle.value_laws.specs.Kinds.{truth_shape};
ghost use Rattle.answer_lines.specs.Appended.{Grew, GrewInPart};
ghost use Rattle.report.specs.SignalVerdicts.{AreSignalLines};
ghost use Rattle.report.specs.VerdictForms.{TurnedTo, TurnCut, WrittenPast, CutPast, AreEntries};

use crate::spelling::OpenSpan;
use crate::verdict_entry::VerdictEntries;
use answer_lines::VerdictLines;
use frac128::{Frac, Memory};
use pl_signal::{Knot, Signal};
use stl_syntax::{Scale, Text};
use value_laws::{Shape, Truth};

/// Goes on with this truth: from the time on, or after it where it is in the span. What ended there is put, if the truth is new.
#[inline(always)]
fn put_turn(
    text: &mut Text,
    entries: &mut VerdictEntries,
    span: &mut OpenSpan,
    at: &Frac,
    at_in: bool,
    truth: bool,
    scale: Scale,
) -> Result<(), Memory>
    requires digits { scale.time ≤ 6 }
    requires begun { HasTimeBetween (value span.old.from) (value at.now) (span.old.from_in && at_in) }
    ensures ok { OnOk result (TurnedTo true scale span.old at.now at_in truth span.new (text.old ++ entries.old) (text.new ++ entries.new)) }
    ensures err { OnErr result (TurnCut true scale span.old at.now at_in truth (text.old ++ entries.old) (text.new ++ entries.new)) }
    ensures begins { (front : List ℕ) × (text.new ≡ text.old ++ front) }
{
    if span.holds() == truth {
        return Ok(());
    }
    let ended = span.turn(*at, at_in, truth);
    entries.put(text, &ended, scale)
}

/// Goes on past the gap between two knots and the second knot. What ended there is put.
#[inline(always)]
fn put_past(
    text: &mut Text,
    entries: &mut VerdictEntries,
    span: &mut OpenSpan,
    before: &Knot<Truth>,
    next: &Knot<Truth>,
    scale: Scale,
) -> Result<(), Memory>
    requires digits { scale.time ≤ 6 }
    requires begun { HasTimeBetween (value span.old.from) (value before.now.time) (span.old.from_in && true) }
    requires rising { value before.now.time <ʳ value next.now.time }
    ensures ok { OnOk result (WrittenPast true scale span.old before.now next.now span.new (text.old ++ entries.old) (text.new ++ entries.new)) }
    ensures err { OnErr result (CutPast true scale span.old before.now next.now (text.old ++ entries.old) (text.new ++ entries.new)) }
    ensures begins { (front : List ℕ) × (text.new ≡ text.old ++ front) }
{
    put_turn(
        text,
        entries,
        span,
        &before.time,
        true,
        before.after.holds(),
        scale,
    )?;
    put_turn(
        text,
        entries,
        span,
        &next.time,
        false,
        next.point.holds(),
        scale,
    )
}

/// Appends the verdicts of a signal as objects of JSON: the longest spans of one truth, in order, and what closes their list.
pub(crate) fn put_spans(text: &mut Text, s: &Signal<Truth>, scale: Scale) -> Result<(), Memory>
    requires { scale.time ≤ 6 }
    ensures ok { OnOk result (Grew (AreEntries truth_shape true scale s.now) text.old text.new) }
    ensures err { OnErr result (GrewInPart (AreEntries truth_shape true scale s.now) text.old text.new) }
{
    let knots = s.len();
    let mut span = OpenSpan::start(s.knot_in_place(0));
    let mut entries = VerdictEntries::new(s.alloc());
    for i in 1..knots {
        put_past(
            text,
            &mut entries,
            &mut span,
            s.knot_in_place(i - 1),
            s.knot_in_place(i),
            scale,
        )?;
    }
    let end = span.close(s.stop(), true);
    entries.close(text, &end, scale)
}

/// Goes on with this truth: from the time on, or after it where it is in the span. The line of what ended there is put, if the truth is new.
#[inline(always)]
fn put_line_turn(
    text: &mut Text,
    lines: &mut VerdictLines,
    span: &mut OpenSpan,
    at: &Frac,
    at_in: bool,
    truth: bool,
    scale: Scale,
) -> Result<(), Memory>
    requires digits { scale.time ≤ 6 }
    requires begun { HasTimeBetween (value span.old.from) (value at.now) (span.old.from_in && at_in) }
    ensures ok { OnOk result (TurnedTo false scale span.old at.now at_in truth span.new (text.old ++ lines.old) (text.new ++ lines.new)) }
    ensures err { OnErr result (TurnCut false scale span.old at.now at_in truth (text.old ++ lines.old) (text.new ++ lines.new)) }
    ensures begins { (front : List ℕ) × (text.new ≡ text.old ++ front) }
{
    if span.holds() == truth {
        return Ok(());
    }
    let ended = span.turn(*at, at_in, truth);
    lines.put(text, &ended, scale)
}

/// Goes on past the gap between two knots and the second knot. The lines of what ended there are put.
#[inline(always)]
fn put_line_past(
    text: &mut Text,
    lines: &mut VerdictLines,
    span: &mut OpenSpan,
    before: &Knot<Truth>,
    next: &Knot<Truth>,
    scale: Scale,
) -> Result<(), Memory>
    requires digits { scale.time ≤ 6 }
    requires begun { HasTimeBetween (value span.old.from) (value before.now.time) (span.old.from_in && true) }
    requires rising { value before.now.time <ʳ value next.now.time }
    ensures ok { OnOk result (WrittenPast false scale span.old before.now next.now span.new (text.old ++ lines.old) (text.new ++ lines.new)) }
    ensures err { OnErr result (CutPast false scale span.old before.now next.now (text.old ++ lines.old) (text.new ++ lines.new)) }
    ensures begins { (front : List ℕ) × (text.new ≡ text.old ++ front) }
{
    put_line_turn(
        text,
        lines,
        span,
        &before.time,
        true,
        before.after.holds(),
        scale,
    )?;
    put_line_turn(
        text,
        lines,
        span,
        &next.time,
        false,
        next.point.holds(),
        scale,
    )
}

/// Appends the verdict lines of a signal: the longest spans of one truth, in order, with times in units of the scale.
///
/// # Errors
/// Want of memory. The text then has a first part of the lines.
pub fn put_verdicts(text: &mut Text, s: &Signal<Truth>, scale: Scale) -> Result<(), Memory>
    requires { scale.time ≤ 6 }
    ensures ok { OnOk result (Grew (AreSignalLines ⟦<Truth as Shape>⟧ scale s.now) text.old text.new) }
    ensures err { OnErr result (GrewInPart (AreSignalLines ⟦<Truth as Shape>⟧ scale s.now) text.old text.new) }
{
    let knots = s.len();
    let mut span = OpenSpan::start(s.knot_in_place(0));
    let mut lines = VerdictLines::new(s.alloc())?;
    for i in 1..knots {
        put_line_past(
            text,
            &mut lines,
            &mut span,
            s.knot_in_place(i - 1),
            s.knot_in_place(i),
            scale,
        )?;
    }
    let end = span.close(s.stop(), true);
    lines.put(text, &end, scale)?;
    lines.hand_over(text)
}
