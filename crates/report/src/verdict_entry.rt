//! The entries of verdicts in a report in JSON.
ghost use Rattle.std.specs.Prelude.{◌≡◌, ◌≤◌, ◌<◌, ◌+◌, ◌∷◌, ◌++◌, ℕ, List, [], if◌then◌else◌, codes, true, false, length, take, set, IfOk, OnOk, OnErr};
ghost use Rattle.serde_json.specs.View.{view};
ghost use Rattle.serde_json.specs.declared.value.Value.{Value};
ghost use Rattle.stl_syntax.specs.Texts.{IsSpanText};
ghost use Rattle.answer_lines.specs.Appended.{Grew};
ghost use Rattle.report.specs.Blocks.{before_commas, AreVerdictForms};
ghost use Rattle.report.specs.Forms.{verdict_object, HasText, IsFirst, IsVerdictForm, Sets, SetsSome};
ghost use Rattle.report.specs.JsonTexts.{IsVerdictData};
ghost use Rattle.report.specs.VerdictForms.{IsEntry};

use crate::block::{MOST, put_before_commas, put_closed};
use crate::form::{SPAN_ROOM, set_first, set_truth, text_of};
use answer_lines::{TimeText, add_byte, bracket};
use frac128::{Memory, Span};
use serde_json::{Value, json};
use std::alloc::{AllocError, Global};
use std::marker::Model;
use stl_syntax::{Scale, Text, Verdict};

/// The bracket after a span.
fn closing(inside: bool) -> u8
    ensures { result ∷ [] ≡ (if inside then codes "]" else codes ")") }
{
    if inside { b']' } else { b')' }
}

/// Puts a span in the place of the text at `on`. What `room` has does not matter: it lends its bytes.
fn set_span(
    verdict: &mut Value,
    room: &mut [u8; SPAN_ROOM],
    last: &mut TimeText,
    on: &Span,
    scale: Scale,
) -> Result<(), Memory>
    requires digits { scale.time ≤ 6 }
    requires form { HasText (codes "on") (view verdict.old) }
    requires place { IsFirst (codes "on") (view verdict.old) }
    ensures ok { OnOk result (Sets (IsSpanText scale on.now) (codes "on") (view verdict.old) (view verdict.new)) }
    ensures form { SetsSome (codes "on") (view verdict.old) (view verdict.new) }
{
    let digits = scale.time;
    let from = add_byte(room, 0, bracket(on.from_in));
    let comma = last.put(room, from, &on.from, digits);
    let to = add_byte(room, comma, b',');
    let close = last.put_new(room, to, &on.to, digits);
    let end = add_byte(room, close, closing(on.to_in));
    let span = text_of(&room[..end])?;
    set_first(verdict, "on", span)
}

/// Has the object be that of a verdict.
fn fill_verdict(
    verdict: &mut Value,
    room: &mut [u8; SPAN_ROOM],
    last: &mut TimeText,
    v: &Verdict,
    scale: Scale,
) -> Result<(), Memory>
    requires digits { scale.time ≤ 6 }
    requires form { IsVerdictForm (view verdict.old) }
    ensures ok { OnOk result (IsVerdictData scale v.now (view verdict.new)) }
    ensures form { IsVerdictForm (view verdict.new) }
{
    set_span(verdict, room, last, &v.on, scale)?;
    set_truth(verdict, v.holds);
    Ok(())
}

/// Has the object at a place be that of a verdict.
fn fill_at(
    objects: &mut [Value],
    at: usize,
    room: &mut [u8; SPAN_ROOM],
    last: &mut TimeText,
    v: &Verdict,
    scale: Scale,
) -> Result<(), Memory>
    requires digits { scale.time ≤ 6 }
    requires there { at < length objects.old }
    requires forms { AreVerdictForms objects.old }
    ensures ok { OnOk result ((w : Value) × IsVerdictData scale v.now (view w) × (objects.new ≡ set objects.old at w)) }
    ensures form { (w : Value) × IsVerdictForm (view w) × (objects.new ≡ set objects.old at w) }
{
    fill_verdict(&mut objects[at], room, last, v, scale)
}

/// An object for verdicts.
fn verdict_form(alloc: Global) -> Result<Value, AllocError>
    ensures { IfOk result (λ v. view v ≡ verdict_object [] true) }
{
    json!(in alloc; {"on": "", "value": true})
}

/// Adds an object for a verdict.
fn add_form(alloc: Global, objects: &mut Vec<Value>) -> Result<(), Memory>
    ensures ok { OnOk result ((w : Value) × IsVerdictForm (view w) × (objects.new.items ≡ objects.old.items ++ w ∷ [])) }
    ensures err { OnErr result (objects.new.items ≡ objects.old.items) }
{
    let verdict = verdict_form(alloc)?;
    objects.reserve(1)?;
    objects.push_reserved(verdict);
    Ok(())
}

/// Has an object for one more verdict stand behind the first `used`, which wait. Where they are as many as are printed by one call, they
/// are appended, and none wait. The answer is how many do.
#[inline(always)]
fn make_room(
    alloc: Global,
    text: &mut Text,
    objects: &mut Vec<Value>,
    used: usize,
) -> Result<usize, Memory>
    requires inside { used ≤ length objects.old.items }
    requires forms { AreVerdictForms objects.old.items }
    ensures some { IfOk result (λ n. n < length objects.new.items) }
    ensures forms { AreVerdictForms objects.new.items }
    ensures joined { IfOk result (λ n.
        text.new ++ before_commas (take n objects.new.items) ≡ text.old ++ before_commas (take used objects.old.items)) }
    ensures begins { (front : List ℕ) × (text.new ≡ text.old ++ front) }
    ensures err { OnErr result (text.new ≡ text.old) }
    ensures same { OnErr result (objects.new.items ≡ objects.old.items) }
{
    if used < objects.len() {
        return Ok(used);
    }
    if used < MOST {
        add_form(alloc, objects)?;
        return Ok(used);
    }
    put_before_commas(alloc, text, objects)?;
    Ok(0)
}

/// The verdicts that wait to be appended, with what they are made of: objects, of which the first `used` wait and the others are left from
/// verdicts that were appended, the time that was written last, and room for a span. Contracts see the text of those that wait.
#[derive(Drop)]
pub(crate) struct VerdictEntries {
    alloc: Global,
    last: TimeText,
    room: [u8; SPAN_ROOM],
    used: usize,
    objects: Vec<Value>,
}

impl Model for VerdictEntries {
    ghost use Rattle.std.specs.Prelude.{◌≤◌, ℕ, List, length, take};
    ghost use Rattle.report.specs.Blocks.{before_commas, AreVerdictForms};

    ghost Value = { List ℕ };

    ghost view = { λ e. before_commas (take e.used e.objects.items) };

    ghost invariant = { λ e. (e.used ≤ length e.objects.items) × AreVerdictForms e.objects.items };
}

impl VerdictEntries {
    /// None wait.
    pub(crate) fn new(alloc: Global) -> VerdictEntries
        ensures { result ≡ [] }
    {
        VerdictEntries {
            alloc,
            last: TimeText::new(),
            room: [0; SPAN_ROOM],
            used: 0,
            objects: Vec::new(alloc),
        }
    }

    /// Puts a verdict behind those that wait, before a comma. Those are appended where there is no room.
    pub(crate) fn put(&mut self, text: &mut Text, v: &Verdict, scale: Scale) -> Result<(), Memory>
        requires { scale.time ≤ 6 }
        ensures ok { OnOk result (Grew (IsEntry true false scale v.now) (text.old ++ self.old) (text.new ++ self.new)) }
        ensures begins { (front : List ℕ) × (text.new ≡ text.old ++ front) }
        ensures err { OnErr result (text.new ++ self.new ≡ text.old ++ self.old) }
    {
        let used = make_room(self.alloc, text, &mut self.objects, self.used)?;
        self.used = used;
        fill_at(
            &mut self.objects,
            used,
            &mut self.room,
            &mut self.last,
            v,
            scale,
        )?;
        self.used = used + 1;
        Ok(())
    }

    /// Appends those that wait, and the last verdict with what closes the list.
    pub(crate) fn close(self, text: &mut Text, v: &Verdict, scale: Scale) -> Result<(), Memory>
        requires { scale.time ≤ 6 }
        ensures ok { OnOk result (Grew (IsEntry true true scale v.now) (text.old ++ self) text.new) }
        ensures err { OnErr result
            ((front : List ℕ) × (more : List ℕ) × (text.new ≡ text.old ++ front) × (text.new ++ more ≡ text.old ++ self)) }
    {
        let VerdictEntries {
            alloc,
            mut last,
            mut room,
            used,
            mut objects,
        } = self;
        let used = make_room(alloc, text, &mut objects, used)?;
        fill_at(&mut objects, used, &mut room, &mut last, v, scale)?;
        objects.truncate(used + 1);
        put_closed(alloc, text, &mut objects)
    }
}
