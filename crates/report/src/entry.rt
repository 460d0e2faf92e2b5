//! The entries of a report in JSON, each a value of `serde_json` that is printed before the next one; and those of items.
ghost use Rattle.std.specs.Prelude.{◌≡◌, ◌≤◌, ◌++◌, false, codes, IfOk, OnOk, OnErr};
ghost use Rattle.serde_json.specs.Data.{boolean, string, object, member, no_members};
ghost use Rattle.serde_json.specs.View.{view};
ghost use Rattle.serde_json.specs.Written.{compact_text, has_float};
ghost use Rattle.stl_syntax.specs.Texts.{IsSpanText};
ghost use Rattle.answer_lines.specs.Appended.{Grew, GrewInPart, Is};
ghost use Rattle.report.specs.ItemLines.{IsOfAtom};
ghost use Rattle.report.specs.JsonTexts.{IsStringOf, IsItemData, IsItemEntry};

use crate::form::text_of;
use crate::items::atom_text;
use answer_lines::put_span;
use frac128::{Memory, Span};
use serde_json::{Value, json};
use std::alloc::{AllocError, Global};
use stl_syntax::{Formula, Item, Scale, Text};

/// A text as a string.
pub(crate) fn string_value(alloc: Global, content: &[u8]) -> Result<Value, Memory>
    ensures { IfOk result (λ v. view v ≡ string content.now) }
{
    let content = text_of(content)?;
    match Value::try_from_str(alloc, content) {
        Ok(string) => Ok(string),
        Err(_) => Err(Memory),
    }
}

/// A span as a string. What `room` has does not matter: it lends its memory.
fn span_value(alloc: Global, room: &mut Text, on: &Span, scale: Scale) -> Result<Value, Memory>
    requires { scale.time ≤ 6 }
    ensures { IfOk result (λ v. IsStringOf (IsSpanText scale on.now) (view v)) }
{
    room.clear();
    put_span(room, on, scale)?;
    string_value(alloc, room.bytes())
}

/// The object of an item.
fn item_object(alloc: Global, atom: Value, on: Value, holds: bool) -> Result<Value, AllocError>
    ensures { IfOk result (λ v. view v
        ≡ object (member (codes "atom") (view atom) (member (codes "on") (view on) (member (codes "value") (boolean holds) no_members)))) }
{
    json!(in alloc; {"atom": atom, "on": on, "value": holds})
}

/// An item as a value.
fn item_value(
    alloc: Global,
    room: &mut Text,
    formula: &Formula,
    item: &Item,
    scale: Scale,
) -> Result<Value, Memory>
    requires digits { scale.time ≤ 6 }
    requires atom { IsOfAtom formula.now item.now }
    ensures { IfOk result (λ v. IsItemData scale formula.now item.now (view v)) }
{
    let name = atom_text(formula, item.node)?;
    let atom = string_value(alloc, name.bytes())?;
    let on = span_value(alloc, room, &item.on, scale)?;
    Ok(item_object(alloc, atom, on, item.holds)?)
}

/// Appends a value as compact text, after `lead`.
pub(crate) fn put_data(
    alloc: Global,
    text: &mut Text,
    lead: &[u8],
    value: &Value,
) -> Result<(), Memory>
    requires { has_float (view value.now) ≡ false }
    ensures ok { OnOk result (text.new ≡ text.old ++ (lead.now ++ compact_text (view value.now))) }
    ensures err { OnErr result (GrewInPart (Is (lead.now ++ compact_text (view value.now))) text.old text.new) }
{
    let written = value.to_vec(alloc)?;
    text.push(lead)?;
    text.push(&written)
}

/// Appends an item, after `lead`.
pub(crate) fn put_item_entry(
    alloc: Global,
    text: &mut Text,
    room: &mut Text,
    lead: &[u8],
    formula: &Formula,
    item: &Item,
    scale: Scale,
) -> Result<(), Memory>
    requires digits { scale.time ≤ 6 }
    requires atom { IsOfAtom formula.now item.now }
    ensures ok { OnOk result (Grew (IsItemEntry lead.now scale formula.now item.now) text.old text.new) }
    ensures err { OnErr result (GrewInPart (IsItemEntry lead.now scale formula.now item.now) text.old text.new) }
{
    let entry = item_value(alloc, room, formula, item, scale)?;
    put_data(alloc, text, lead, &entry)
}
