//! The report as one object of JSON.
//!
//! Its text is the compact one that `serde_json` has for the report as a value. Each entry (a knot, a piece, an item, a verdict) is a value.
//! An item is printed before the next one; 192 knots and pieces are printed by one call, and as many verdicts, so that a report of
//! many knots takes no memory beside its text but that of so many entries. Their objects have the texts of one entry after another.
//! What stands around the lists are objects with an empty list at their end, each printed up to where the items of that list begin.
ghost use Rattle.std.specs.Prelude.{◌≡◌, ◌≤◌, ◌<◌, ◌^◌, ◌++◌, ℕ, List, [], false, All, IfOk, OnOk, OnErr, codes, drop, length};
ghost use Rattle.rational.specs.Rational.{IsWithin};
ghost use Rattle.frac128.specs.Value.{value};
ghost use Rattle.value_laws.specs.Kinds.{truth_shape, margin_shape};
ghost use Rattle.pl_signal.specs.Knots.{start, stop, IsWorth, IsSignal};
ghost use Rattle.pl_signal.specs.Plain.{knots_of};
ghost use Rattle.serde_json.specs.Data.{object, array, member, no_items, no_members};
ghost use Rattle.serde_json.specs.View.{view};
ghost use Rattle.serde_json.specs.Written.{has_float};
ghost use Rattle.answer_lines.specs.Appended.{Grew, GrewInPart, AreEach};
ghost use Rattle.report.specs.ItemLines.{IsOfAtom};
ghost use Rattle.report.specs.JsonTexts.{AreLaterEntries, AreItemEntries, IsStepEntry, AreMarginEntries};
ghost use Rattle.report.specs.JsonTexts.{IsHeadData, margins_data, start_data, EndsWithList, IsOpened, HeadParts};
ghost use Rattle.report.specs.ReportText.{IsReportText, TailParts};
ghost use Rattle.report.specs.SignalVerdicts.{sign_of};
ghost use Rattle.answer_lines.specs.Steps.{steps_of};

use crate::entry::{put_item_entry, string_value};
use crate::items::line_from;
use crate::margin_entry::MarginEntries;
use crate::signal::put_spans;
use frac128::Memory;
use pl_signal::Signal;
use serde_json::{Value, json};
use std::alloc::{AllocError, Global};
use stl_syntax::{Formula, Items, Scale, Text};
use value_laws::{Margin, Truth};

/// Appends the items from a place on, each after a comma, where neighbours that join are one.
fn put_later_items(
    alloc: Global,
    text: &mut Text,
    room: &mut Text,
    formula: &Formula,
    items: &Items,
    from: usize,
    scale: Scale,
) -> Result<(), Memory>
    requires digits { scale.time ≤ 6 }
    requires atoms { All (IsOfAtom formula.now) items.now }
    requires inside { from ≤ length items.now }
    ensures ok { OnOk result (Grew (AreLaterEntries scale formula.now (drop from items.now)) text.old text.new) }
    ensures err { OnErr result (GrewInPart (AreLaterEntries scale formula.now (drop from items.now)) text.old text.new) }
{
    let mut i = from;
    while i < items.len() {
        let (line, end) = line_from(items, i);
        put_item_entry(alloc, text, room, b",", formula, &line, scale)?;
        i = end;
    }
    Ok(())
}

/// Appends the list of the items with its closing bracket.
fn put_item_entries(
    alloc: Global,
    text: &mut Text,
    room: &mut Text,
    formula: &Formula,
    items: &Items,
    scale: Scale,
) -> Result<(), Memory>
    requires digits { scale.time ≤ 6 }
    requires atoms { All (IsOfAtom formula.now) items.now }
    ensures ok { OnOk result (Grew (AreItemEntries scale formula.now items.now) text.old text.new) }
    ensures err { OnErr result (GrewInPart (AreItemEntries scale formula.now items.now) text.old text.new) }
{
    if items.len() == 0 {
        return text.push(b"]");
    }
    let (line, end) = line_from(items, 0);
    put_item_entry(alloc, text, room, b"", formula, &line, scale)?;
    put_later_items(alloc, text, room, formula, items, end, scale)?;
    text.push(b"]")
}

/// Appends the pieces, each with the knot after it.
fn put_step_entries(
    text: &mut Text,
    entries: MarginEntries,
    s: &Signal<Margin>,
    scale: Scale,
) -> Result<(), Memory>
    requires none { entries ≡ [] }
    requires time { scale.time ≤ 6 }
    requires value { scale.value ≤ 6 }
    requires begins { IsWithin (2 ^ 34) (start s.now) }
    requires ends { IsWithin (2 ^ 34) (stop s.now) }
    ensures ok { OnOk result (Grew (AreEach (IsStepEntry scale) (steps_of (knots_of margin_shape s.now))) text.old text.new) }
    ensures err { OnErr result (GrewInPart (AreEach (IsStepEntry scale) (steps_of (knots_of margin_shape s.now))) text.old text.new) }
{
    let mut waiting = entries;
    let last = s.len() - 1;
    for i in 0..last {
        waiting.put_step(text, s.knot_in_place(i), s.knot_in_place(i + 1), scale)?;
    }
    waiting.hand_over(text)
}

/// Appends the list of the knots and the pieces with its closing bracket.
fn put_margin_entries(
    alloc: Global,
    text: &mut Text,
    s: &Signal<Margin>,
    scale: Scale,
) -> Result<(), Memory>
    requires time { scale.time ≤ 6 }
    requires value { scale.value ≤ 6 }
    requires begins { IsWithin (2 ^ 34) (start s.now) }
    requires ends { IsWithin (2 ^ 34) (stop s.now) }
    ensures ok { OnOk result (Grew (AreMarginEntries scale (knots_of margin_shape s.now)) text.old text.new) }
    ensures err { OnErr result (GrewInPart (AreMarginEntries scale (knots_of margin_shape s.now)) text.old text.new) }
{
    // For the proof alone: that it is a signal is a clause of `len`.
    let _ = s.len();
    let mut entries = MarginEntries::new(alloc);
    entries.put_first(text, &s.knot(0), scale)?;
    put_step_entries(text, entries, s, scale)?;
    text.push(b"]")
}

/// The object of a report up to its items, of which it has none yet.
fn head_object(alloc: Global, printed: Value) -> Result<Value, AllocError>
    ensures { IfOk result (λ v. view v ≡ object (member (codes "formula") (view printed) (member (codes "items") (array no_items) no_members))) }
{
    json!(in alloc; {"formula": printed, "items": []})
}

/// The object of a report on a formula, up to its items, of which it has none yet.
fn head_value(alloc: Global, formula: &Formula) -> Result<Value, Memory>
    ensures { IfOk result (λ v. IsHeadData formula.now (view v)) }
{
    let printed = formula.print()?;
    let text = string_value(alloc, printed.bytes())?;
    Ok(head_object(alloc, text)?)
}

/// The object of the margins, of which it has none yet.
fn margins_object(alloc: Global) -> Result<Value, AllocError>
    ensures { IfOk result (λ v. view v ≡ margins_data) }
{
    json!(in alloc; {"margins": []})
}

/// The object of the truth at the start and of the verdicts, of which it has none yet.
fn start_object(alloc: Global, holds: bool) -> Result<Value, AllocError>
    ensures { IfOk result (λ v. view v ≡ start_data holds) }
{
    json!(in alloc; {"start": holds, "verdicts": []})
}

/// What stands between the brace of an object and the end of the list at its own end.
fn inside(written: &[u8]) -> &[u8]
    requires { (front : List ℕ) × (written.now ≡ codes "{" ++ (front ++ codes "]}")) }
    ensures { written.now ≡ codes "{" ++ (result.now ++ codes "]}") }
{
    &written[1..written.len() - 2]
}

/// Appends an object that ends with an empty list, with `lead` in place of its first brace, up to where the items of that list begin.
fn put_opened(alloc: Global, text: &mut Text, lead: &[u8], object: &Value) -> Result<(), Memory>
    requires float { has_float (view object.now) ≡ false }
    requires list { (front : List ℕ) × EndsWithList (view object.now) front }
    ensures ok { OnOk result (Grew (IsOpened lead.now (view object.now)) text.old text.new) }
    ensures err { OnErr result (GrewInPart (IsOpened lead.now (view object.now)) text.old text.new) }
{
    let written = object.to_vec(alloc)?;
    text.push(lead)?;
    text.push(inside(&written))
}

/// Appends the object up to its items.
fn put_head(
    alloc: Global,
    text: &mut Text,
    formula: &Formula,
    items: &Items,
    scale: Scale,
) -> Result<(), Memory>
    requires digits { scale.time ≤ 6 }
    requires atoms { All (IsOfAtom formula.now) items.now }
    ensures ok { OnOk result (Grew (HeadParts scale formula.now items.now) text.old text.new) }
    ensures err { OnErr result (GrewInPart (HeadParts scale formula.now items.now) text.old text.new) }
{
    put_opened(alloc, text, b"{", &head_value(alloc, formula)?)?;
    let mut room = Text::new(alloc);
    put_item_entries(alloc, text, &mut room, formula, items, scale)
}

/// Appends the object from its margins on.
fn put_tail(
    alloc: Global,
    text: &mut Text,
    truth: &Signal<Truth>,
    margins: &Signal<Margin>,
    holds: bool,
    scale: Scale,
) -> Result<(), Memory>
    requires time { scale.time ≤ 6 }
    requires value { scale.value ≤ 6 }
    requires begins { IsWithin (2 ^ 34) (start margins.now) }
    requires ends { IsWithin (2 ^ 34) (stop margins.now) }
    requires signal { IsSignal truth_shape truth.now }
    ensures ok { OnOk result (Grew (TailParts scale truth.now margins.now holds) text.old text.new) }
    ensures err { OnErr result (GrewInPart (TailParts scale truth.now margins.now holds) text.old text.new) }
{
    put_opened(alloc, text, b",", &margins_object(alloc)?)?;
    put_margin_entries(alloc, text, margins, scale)?;
    put_opened(alloc, text, b",", &start_object(alloc, holds)?)?;
    put_spans(text, truth, scale)?;
    text.push(b"}\n")
}

/// The truth at the start of a signal.
fn start_of(truth: &Signal<Truth>) -> bool
    ensures worth { IsWorth truth_shape truth.now (start truth.now) (sign_of result) }
    ensures signal { IsSignal truth_shape truth.now }
{
    // For the proof alone: that it is a signal is a clause of `len`.
    let _ = truth.len();
    truth.knot(0).point.holds()
}

/// Appends a report as one object of JSON and LF: the printed formula, the items of an explanation with neighbours joined, the margins
/// by their plain list of knots, the truth at the start, and the verdicts. Its keys rise, as `serde_json` has them; spans and
/// fractions are strings, with times and values in units of the scale, in lowest terms.
///
/// # Errors
/// Want of memory. The text then has a first part of the object.
pub fn put_json(
    alloc: Global,
    text: &mut Text,
    formula: &Formula,
    truth: &Signal<Truth>,
    margins: &Signal<Margin>,
    items: &Items,
    scale: Scale,
) -> Result<(), Memory>
    requires time { scale.time ≤ 6 }
    requires value { scale.value ≤ 6 }
    requires begins { IsWithin (2 ^ 34) (start margins.now) }
    requires ends { IsWithin (2 ^ 34) (stop margins.now) }
    requires atoms { All (IsOfAtom formula.now) items.now }
    ensures ok { OnOk result (Grew (IsReportText scale formula.now truth.now margins.now items.now) text.old text.new) }
    ensures err { OnErr result (GrewInPart (IsReportText scale formula.now truth.now margins.now items.now) text.old text.new) }
{
    let holds = start_of(truth);
    put_head(alloc, text, formula, items, scale)?;
    put_tail(alloc, text, truth, margins, holds, scale)
}
