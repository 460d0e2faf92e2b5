//! The entries of margins in a report in JSON: knots and pieces.
ghost use Rattle.std.specs.Prelude.{◌≡◌, ◌≤◌, ◌<◌, ◌+◌, ◌^◌, ◌++◌, ℕ, List, [], codes, drop, length, take, IfOk, OnOk, OnErr};
ghost use Rattle.rational.specs.Rational.{IsWithin};
ghost use Rattle.frac128.specs.Value.{value};
ghost use Rattle.rational.specs.Extended.{value_at};
ghost use Rattle.value_laws.specs.Kinds.{margin_shape};
ghost use Rattle.value_laws.specs.Margins.{margin_function};
ghost use Rattle.pl_signal.specs.Plain.{plain_knot, plain_piece};
ghost use Rattle.serde_json.specs.View.{view};
ghost use Rattle.serde_json.specs.declared.value.Value.{Value};
ghost use Rattle.stl_syntax.specs.Texts.{IsNumberText, IsValueText};
ghost use Rattle.answer_lines.specs.Appended.{Grew, GrewInPart};
ghost use Rattle.report.specs.Blocks.{after_commas, AreStepForms, IsStepForm, IsStepData};
ghost use Rattle.report.specs.Forms.{knot_object, piece_object, IsKnotForm, IsPieceForm};
ghost use Rattle.report.specs.JsonTexts.{IsKnotEntry, IsStepEntry};
ghost use Rattle.report.specs.StepTexts.{AreStepTexts};
ghost use Rattle.answer_lines.specs.Steps.{step};

use crate::block::{MOST, put_after_commas};
use crate::entry::put_data;
use crate::form::{part, set_first, set_last, set_text, text_of};
use answer_lines::{KnotTexts, add_byte};
use frac128::Memory;
use pl_signal::Knot;
use serde_json::{Value, json};
use std::alloc::{AllocError, Global};
use std::marker::Model;
use stl_syntax::{Scale, Text};
use value_laws::Margin;

/// Room for the texts of a step one behind another, and for copying a number.
const STEP_ROOM: usize = 640;

/// The texts of the piece between two knots, and of the second.
#[derive(Clone, Copy)]
struct StepTexts<'a> {
    from: &'a str,
    on: &'a str,
    to: &'a str,
    at: &'a str,
    margin: &'a str,
}

/// The time and the value of a knot. They are seen to be text together, and a comma between them is where that is cut.
fn knot_texts<'a>(
    room: &'a mut [u8; STEP_ROOM],
    last: &mut KnotTexts,
    k: &Knot<Margin>,
    scale: Scale,
) -> Result<(&'a str, &'a str), Memory>
    requires time { scale.time ≤ 6 }
    requires value { scale.value ≤ 6 }
    requires within { IsWithin (2 ^ 34) (value k.now.time) }
    ensures at { IfOk result (λ t. IsNumberText scale.time (value k.now.time) t.0.now) }
    ensures margin { IfOk result (λ t. IsValueText scale.value (value_at (margin_function k.now.point) (value k.now.time)) t.1.now) }
{
    let comma = last.time.put(room, 0, &k.time, scale.time);
    let point = add_byte(room, comma, b',');
    let end = last.value.put(room, point, &k.point, &k.time, scale.value);
    let all = text_of(&room[..end])?;
    let at = part(all, 0, comma);
    let margin = part(all, point, end);
    Ok((at, margin))
}

/// The texts of the piece between two knots and of the second, whose time is that at which the piece ends. They are seen to be text
/// together: to look at some dozens of bytes takes little more than to look at six. Each begins and ends at an ASCII byte or an end of the
/// whole, so none is asked for where it may be cut.
fn step_texts<'a>(
    room: &'a mut [u8; STEP_ROOM],
    last: &mut KnotTexts,
    k: &Knot<Margin>,
    n: &Knot<Margin>,
    scale: Scale,
) -> Result<StepTexts<'a>, Memory>
    requires time { scale.time ≤ 6 }
    requires value { scale.value ≤ 6 }
    requires from { IsWithin (2 ^ 34) (value k.now.time) }
    requires to { IsWithin (2 ^ 34) (value n.now.time) }
    ensures { IfOk result (λ t. AreStepTexts scale k.now n.now t.from.now t.on.now t.to.now t.at.now t.margin.now) }
{
    let (digits, decimals) = (scale.value, scale.time);
    let gap = last.value.put(room, 0, &k.after, &k.time, digits);
    let begin = add_byte(room, gap, b'(');
    let comma = last.time.put(room, begin, &k.time, decimals);
    let stop = add_byte(room, comma, b',');
    let close = last.time.put_new(room, stop, &n.time, decimals);
    let limit = add_byte(room, close, b')');
    let mark = last.value.put(room, limit, &k.after, &n.time, digits);
    let point = add_byte(room, mark, b',');
    let end = last.value.put(room, point, &n.point, &n.time, digits);
    let all = text_of(&room[..end])?;
    let from = part(all, 0, gap);
    let on = part(all, gap, limit);
    let to = part(all, limit, mark);
    let at = part(all, stop, close);
    let margin = part(all, point, end);
    Ok(StepTexts {
        from,
        on,
        to,
        at,
        margin,
    })
}

/// Has the object be that of a knot.
#[inline(always)]
fn fill_knot(knot: &mut Value, at: &str, margin: &str) -> Result<(), Memory>
    requires { IsKnotForm (view knot.old) }
    ensures ok { OnOk result (view knot.new ≡ knot_object at.now margin.now) }
    ensures form { IsKnotForm (view knot.new) }
{
    set_first(knot, "at", at)?;
    set_last(knot, "margin", margin)
}

/// Has the object be that of a piece.
#[inline(always)]
fn fill_piece(piece: &mut Value, from: &str, on: &str, to: &str) -> Result<(), Memory>
    requires { IsPieceForm (view piece.old) }
    ensures ok { OnOk result (view piece.new ≡ piece_object from.now on.now to.now) }
    ensures form { IsPieceForm (view piece.new) }
{
    set_first(piece, "from", from)?;
    set_text(piece, "on", on)?;
    set_last(piece, "to", to)
}

/// An object for knots.
fn knot_form(alloc: Global) -> Result<Value, AllocError>
    ensures { IfOk result (λ v. view v ≡ knot_object [] []) }
{
    json!(in alloc; {"at": "", "margin": ""})
}

/// An object for pieces.
fn piece_form(alloc: Global) -> Result<Value, AllocError>
    ensures { IfOk result (λ v. view v ≡ piece_object [] [] []) }
{
    json!(in alloc; {"from": "", "on": "", "to": ""})
}

/// Has the two objects from a place on be those of the piece between two knots and of the second.
fn fill_step(
    objects: &mut [Value],
    at: usize,
    room: &mut [u8; STEP_ROOM],
    last: &mut KnotTexts,
    k: &Knot<Margin>,
    n: &Knot<Margin>,
    scale: Scale,
) -> Result<(), Memory>
    requires time { scale.time ≤ 6 }
    requires value { scale.value ≤ 6 }
    requires from { IsWithin (2 ^ 34) (value k.now.time) }
    requires to { IsWithin (2 ^ 34) (value n.now.time) }
    requires there { at + 2 ≤ length objects.old }
    requires form { IsStepForm (take 2 (drop at objects.old)) }
    ensures ok { OnOk result ((two : List Value) × IsStepForm two
        × IsStepData scale (step (plain_knot margin_shape k.now) (plain_piece margin_shape k.now n.now)) two
        × (objects.new ≡ take at objects.old ++ (two ++ drop 2 (drop at objects.old)))) }
    ensures form { (two : List Value) × IsStepForm two × (objects.new ≡ take at objects.old ++ (two ++ drop 2 (drop at objects.old))) }
{
    let texts = step_texts(room, last, k, n, scale)?;
    fill_piece(&mut objects[at], texts.from, texts.on, texts.to)?;
    fill_knot(&mut objects[at + 1], texts.at, texts.margin)
}

/// Adds the objects for a step.
fn add_forms(alloc: Global, objects: &mut Vec<Value>) -> Result<(), Memory>
    ensures ok { OnOk result ((two : List Value) × IsStepForm two × (objects.new.items ≡ objects.old.items ++ two)) }
    ensures err { OnErr result (objects.new.items ≡ objects.old.items) }
{
    let piece = piece_form(alloc)?;
    let knot = knot_form(alloc)?;
    objects.reserve(2)?;
    objects.push_reserved(piece);
    objects.push_reserved(knot);
    Ok(())
}

/// Has objects for one more step stand behind the first `used`, which wait. Where they are as many as are printed by one call, they are
/// appended, and none wait. The answer is how many do.
#[inline(always)]
fn make_room(
    alloc: Global,
    text: &mut Text,
    objects: &mut Vec<Value>,
    used: usize,
) -> Result<usize, Memory>
    requires inside { used ≤ length objects.old.items }
    requires waiting { AreStepForms (take used objects.old.items) }
    requires spare { AreStepForms (drop used objects.old.items) }
    ensures some { IfOk result (λ n. n < length objects.new.items) }
    ensures waiting { IfOk result (λ n. AreStepForms (take n objects.new.items)) }
    ensures spare { IfOk result (λ n. AreStepForms (drop n objects.new.items)) }
    ensures joined { IfOk result (λ n.
        text.new ++ after_commas (take n objects.new.items) ≡ text.old ++ after_commas (take used objects.old.items)) }
    ensures begins { (front : List ℕ) × (text.new ≡ text.old ++ front) }
    ensures err { OnErr result (text.new ≡ text.old) }
    ensures same { OnErr result (objects.new.items ≡ objects.old.items) }
{
    if used < objects.len() {
        return Ok(used);
    }
    if used < MOST {
        add_forms(alloc, objects)?;
        return Ok(used);
    }
    put_after_commas(alloc, text, objects)?;
    Ok(0)
}

/// The entries of margins that wait to be appended, with what they are made of: objects for pieces and knots in turn, of which the first `used`
/// wait and the others are left from entries that were appended, the time and the value that were written last, and room for a text.
/// Contracts see the text of those that wait.
#[derive(Drop)]
pub(crate) struct MarginEntries {
    alloc: Global,
    last: KnotTexts,
    room: [u8; STEP_ROOM],
    used: usize,
    objects: Vec<Value>,
}

impl Model for MarginEntries {
    ghost use Rattle.std.specs.Prelude.{◌≤◌, ℕ, List, length, take, drop};
    ghost use Rattle.report.specs.Blocks.{after_commas, AreStepForms};

    ghost Value = { List ℕ };

    ghost view = { λ e. after_commas (take e.used e.objects.items) };

    ghost invariant = { λ e. (e.used ≤ length e.objects.items) × AreStepForms (take e.used e.objects.items) × AreStepForms (drop e.used e.objects.items) };
}

impl MarginEntries {
    /// None wait.
    pub(crate) fn new(alloc: Global) -> MarginEntries
        ensures { result ≡ [] }
    {
        MarginEntries {
            alloc,
            last: KnotTexts::new(),
            room: [0; STEP_ROOM],
            used: 0,
            objects: Vec::new(alloc),
        }
    }

    /// Appends the first knot, before which no entry stands.
    pub(crate) fn put_first(
        &mut self,
        text: &mut Text,
        k: &Knot<Margin>,
        scale: Scale,
    ) -> Result<(), Memory>
        requires time { scale.time ≤ 6 }
        requires value { scale.value ≤ 6 }
        requires within { IsWithin (2 ^ 34) (value k.now.time) }
        ensures same { self.new ≡ self.old }
        ensures ok { OnOk result (Grew (IsKnotEntry [] scale (plain_knot margin_shape k.now)) text.old text.new) }
        ensures err { OnErr result (GrewInPart (IsKnotEntry [] scale (plain_knot margin_shape k.now)) text.old text.new) }
    {
        let mut knot = knot_form(self.alloc)?;
        let texts = knot_texts(&mut self.room, &mut self.last, k, scale)?;
        fill_knot(&mut knot, texts.0, texts.1)?;
        put_data(self.alloc, text, b"", &knot)
    }

    /// Puts the piece between two knots and the second behind the entries that wait, each after a comma. Those are appended where there is
    /// no room.
    pub(crate) fn put_step(
        &mut self,
        text: &mut Text,
        k: &Knot<Margin>,
        n: &Knot<Margin>,
        scale: Scale,
    ) -> Result<(), Memory>
        requires time { scale.time ≤ 6 }
        requires value { scale.value ≤ 6 }
        requires from { IsWithin (2 ^ 34) (value k.now.time) }
        requires to { IsWithin (2 ^ 34) (value n.now.time) }
        ensures ok { OnOk result
            (Grew (IsStepEntry scale (step (plain_knot margin_shape k.now) (plain_piece margin_shape k.now n.now)))
            (text.old ++ self.old) (text.new ++ self.new)) }
        ensures begins { (front : List ℕ) × (text.new ≡ text.old ++ front) }
        ensures err { OnErr result (text.new ++ self.new ≡ text.old ++ self.old) }
    {
        let used = make_room(self.alloc, text, &mut self.objects, self.used)?;
        self.used = used;
        fill_step(
            &mut self.objects,
            used,
            &mut self.room,
            &mut self.last,
            k,
            n,
            scale,
        )?;
        self.used = used + 2;
        Ok(())
    }

    /// Appends the entries that wait. No more come.
    pub(crate) fn hand_over(self, text: &mut Text) -> Result<(), Memory>
        ensures ok { OnOk result (text.new ≡ text.old ++ self) }
        ensures err { OnErr result (text.new ≡ text.old) }
    {
        let MarginEntries {
            alloc,
            used,
            mut objects,
            ..
        } = self;
        if used == 0 {
            return Ok(());
        }
        objects.truncate(used);
        put_after_commas(alloc, text, &mut objects)
    }
}
