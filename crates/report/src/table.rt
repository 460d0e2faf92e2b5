//! The robustness as a table of comma-separated values.
ghost use Rattle.std.specs.Prelude.{◌≡◌, ◌≤◌, ◌<◌, ◌+◌, ◌^◌, ◌++◌, [], length, map, IfOk, OnOk, OnErr};
ghost use Rattle.csv.specs.Writing.{row_text, default_writer};
ghost use Rattle.rational.specs.Rational.{IsWithin};
ghost use Rattle.frac128.specs.Value.{value};
ghost use Rattle.value_laws.specs.Kinds.{margin_shape};
ghost use Rattle.pl_signal.specs.Knots.{start, stop, IsSignal};
ghost use Rattle.pl_signal.specs.Plain.{knots_of, plain_knot, plain_piece};
ghost use Rattle.answer_lines.specs.Appended.{Grew, GrewInPart, AreEach};
ghost use Rattle.answer_lines.specs.Steps.{steps_of, step, between};
ghost use Rattle.report.specs.Table.{IsTableText, heading};
ghost use Rattle.report.specs.TableRows.{IsStepRow, IsLastRow, IsReady, rows_text, field_list, HasKnot, HasPiece};

use answer_lines::{put_time, put_value};
use csv::Writer;
use frac128::Memory;
use pl_signal::{Knot, Signal};
use std::alloc::Global;
use stl_syntax::{Scale, Text};
use value_laws::{Margin, Shape};

/// How many records are gathered before they go to the text.
const BLOCK: usize = 512;

/// The fields of a record. Each record leaves their memory to the next.
#[derive(Drop)]
pub(crate) struct Fields {
    time: Text,
    value: Text,
    from: Text,
    to: Text,
}

impl Fields {
    /// Empty fields; they take no memory.
    fn new(alloc: Global) -> Fields
        ensures from { result.from ≡ [] }
        ensures to { result.to ≡ [] }
    {
        Fields {
            time: Text::new(alloc),
            value: Text::new(alloc),
            from: Text::new(alloc),
            to: Text::new(alloc),
        }
    }
}

/// Fills in the time and the value of a knot.
fn fill_knot(fields: &mut Fields, k: &Knot<Margin>, scale: Scale) -> Result<(), Memory>
    requires time { scale.time ≤ 6 }
    requires value { scale.value ≤ 6 }
    requires within { IsWithin (2 ^ 34) (value k.now.time) }
    ensures ok { OnOk result (HasKnot scale (plain_knot margin_shape k.now) fields.new) }
    ensures from { fields.new.from ≡ fields.old.from }
    ensures to { fields.new.to ≡ fields.old.to }
{
    fields.time.clear();
    put_time(&mut fields.time, &k.time, scale.time)?;
    fields.value.clear();
    put_value(&mut fields.value, &k.point, &k.time, scale.value)
}

/// Fills in the limits of the piece between two knots.
fn fill_piece(
    fields: &mut Fields,
    k: &Knot<Margin>,
    n: &Knot<Margin>,
    scale: Scale,
) -> Result<(), Memory>
    requires value { scale.value ≤ 6 }
    requires from { IsWithin (2 ^ 34) (value k.now.time) }
    requires to { IsWithin (2 ^ 34) (value n.now.time) }
    ensures ok { OnOk result (HasPiece scale (plain_piece margin_shape k.now n.now) fields.new) }
    ensures time { fields.new.time ≡ fields.old.time }
    ensures value { fields.new.value ≡ fields.old.value }
{
    fields.from.clear();
    put_value(&mut fields.from, &k.after, &k.time, scale.value)?;
    fields.to.clear();
    put_value(&mut fields.to, &k.after, &n.time, scale.value)
}

/// Writes a record.
fn put_record(rows: &mut Writer<Vec<u8>>, fields: &Fields) -> Result<(), Memory>
    requires { IsReady rows.old }
    ensures ready { OnOk result (IsReady rows.new) }
    ensures text { OnOk result (rows_text rows.new ≡ rows_text rows.old ++ row_text default_writer (field_list fields.now)) }
{
    match rows.write_fields(&[
        fields.time.bytes(),
        fields.value.bytes(),
        fields.from.bytes(),
        fields.to.bytes(),
    ]) {
        Ok(()) => Ok(()),
        Err(_) => Err(Memory),
    }
}

/// Writes the record of a knot and the piece after it.
fn put_step(
    rows: &mut Writer<Vec<u8>>,
    fields: &mut Fields,
    k: &Knot<Margin>,
    n: &Knot<Margin>,
    scale: Scale,
) -> Result<(), Memory>
    requires ready { IsReady rows.old }
    requires time { scale.time ≤ 6 }
    requires value { scale.value ≤ 6 }
    requires from { IsWithin (2 ^ 34) (value k.now.time) }
    requires to { IsWithin (2 ^ 34) (value n.now.time) }
    ensures ready { OnOk result (IsReady rows.new) }
    ensures text { OnOk result
        (Grew (IsStepRow scale (step (plain_knot margin_shape k.now) (plain_piece margin_shape k.now n.now))) (rows_text rows.old) (rows_text rows.new)) }
{
    fill_knot(fields, k, scale)?;
    fill_piece(fields, k, n, scale)?;
    put_record(rows, fields)
}

/// A writer with nothing written yet. It has room for 8 KB in itself. So it is made apart and stands on the heap: a function takes a place
/// on the stack for each move of it.
#[inline(never)]
fn new_rows(alloc: Global) -> Result<Box<Writer<Vec<u8>>>, Memory>
    ensures ready { IfOk result (λ rows. IsReady rows.value) }
    ensures text { IfOk result (λ rows. rows_text rows.value ≡ []) }
{
    match Box::new(alloc, Writer::from_writer(Vec::new(alloc))) {
        Ok(rows) => Ok(rows),
        Err(_) => Err(Memory),
    }
}

/// Appends what was written to the text.
fn hand_over(text: &mut Text, rows: &mut Writer<Vec<u8>>) -> Result<(), Memory>
    ensures ok { OnOk result (text.new ≡ text.old ++ rows_text rows.old) }
    ensures err { OnErr result (text.new ≡ text.old) }
{
    match rows.flush() {
        Ok(()) => text.push(rows.get_ref()),
        Err(_) => Err(Memory),
    }
}

/// Writes the records of the knots from one place up to another, each with the piece after it.
fn put_records(
    rows: &mut Writer<Vec<u8>>,
    fields: &mut Fields,
    s: &Signal<Margin>,
    from: usize,
    to: usize,
    scale: Scale,
) -> Result<(), Memory>
    requires ready { IsReady rows.old }
    requires empty { rows_text rows.old ≡ [] }
    requires time { scale.time ≤ 6 }
    requires value { scale.value ≤ 6 }
    requires begins { IsWithin (2 ^ 34) (start s.now) }
    requires ends { IsWithin (2 ^ 34) (stop s.now) }
    requires signal { IsSignal margin_shape s.now }
    requires order { from ≤ to }
    requires inside { to < length s.now }
    ensures { OnOk result (AreEach (IsStepRow scale) (between from to (steps_of (knots_of margin_shape s.now))) (rows_text rows.new)) }
{
    for i in from..to {
        put_step(
            rows,
            fields,
            s.knot_in_place(i),
            s.knot_in_place(i + 1),
            scale,
        )?;
    }
    Ok(())
}

/// Appends the records of the knots from one place up to another, each with the piece after it. It is no part of its caller, since to let
/// a writer go takes places on the stack for it.
#[inline(never)]
fn put_block(
    text: &mut Text,
    fields: &mut Fields,
    s: &Signal<Margin>,
    from: usize,
    to: usize,
    scale: Scale,
) -> Result<(), Memory>
    requires time { scale.time ≤ 6 }
    requires value { scale.value ≤ 6 }
    requires begins { IsWithin (2 ^ 34) (start s.now) }
    requires ends { IsWithin (2 ^ 34) (stop s.now) }
    requires signal { IsSignal margin_shape s.now }
    requires order { from ≤ to }
    requires inside { to < length s.now }
    ensures ok { OnOk result (Grew (AreEach (IsStepRow scale) (between from to (steps_of (knots_of margin_shape s.now)))) text.old text.new) }
    ensures err { OnErr result (text.new ≡ text.old) }
{
    let mut made = new_rows(s.alloc())?;
    let rows: &mut Writer<Vec<u8>> = &mut made;
    put_records(rows, fields, s, from, to, scale)?;
    hand_over(text, rows)
}

/// Appends one record.
fn put_row(alloc: Global, text: &mut Text, fields: &[&[u8]]) -> Result<(), Memory>
    ensures ok { OnOk result (text.new ≡ text.old ++ row_text default_writer (map (λ f. f.now) fields.now)) }
    ensures err { OnErr result (text.new ≡ text.old) }
{
    let mut rows = new_rows(alloc)?;
    match rows.write_fields(fields) {
        Ok(()) => hand_over(text, &mut rows),
        Err(_) => Err(Memory),
    }
}

/// Appends the records of all knots but the last, a block at a time.
fn put_steps(text: &mut Text, s: &Signal<Margin>, scale: Scale) -> Result<(), Memory>
    requires time { scale.time ≤ 6 }
    requires value { scale.value ≤ 6 }
    requires begins { IsWithin (2 ^ 34) (start s.now) }
    requires ends { IsWithin (2 ^ 34) (stop s.now) }
    ensures ok { OnOk result (Grew (AreEach (IsStepRow scale) (steps_of (knots_of margin_shape s.now))) text.old text.new) }
    ensures err { OnErr result (GrewInPart (AreEach (IsStepRow scale) (steps_of (knots_of margin_shape s.now))) text.old text.new) }
{
    let mut fields = Fields::new(s.alloc());
    let last = s.len() - 1;
    let mut from = 0;
    while from < last {
        let to = last.min(from.saturating_add(BLOCK));
        put_block(text, &mut fields, s, from, to, scale)?;
        from = to;
    }
    Ok(())
}

/// Appends the record of the last knot, with two empty fields.
fn put_last(alloc: Global, text: &mut Text, k: &Knot<Margin>, scale: Scale) -> Result<(), Memory>
    requires time { scale.time ≤ 6 }
    requires value { scale.value ≤ 6 }
    requires within { IsWithin (2 ^ 34) (value k.now.time) }
    ensures ok { OnOk result (Grew (IsLastRow scale (plain_knot margin_shape k.now)) text.old text.new) }
    ensures err { OnErr result (text.new ≡ text.old) }
{
    let mut fields = Fields::new(alloc);
    fill_knot(&mut fields, k, scale)?;
    put_row(
        alloc,
        text,
        &[fields.time.bytes(), fields.value.bytes(), b"", b""],
    )
}

/// Appends the table of a signal of margins: a heading, and a record for each knot with its time, its value and the two limits of the
/// piece after it, which are empty after the last. Times and values are in units of the scale, in lowest terms.
///
/// # Errors
/// Want of memory. The text then has a first part of the table.
pub fn put_table(
    alloc: Global,
    text: &mut Text,
    s: &Signal<Margin>,
    scale: Scale,
) -> Result<(), Memory>
    requires time { scale.time ≤ 6 }
    requires value { scale.value ≤ 6 }
    requires begins { IsWithin (2 ^ 34) (start s.now) }
    requires ends { IsWithin (2 ^ 34) (stop s.now) }
    ensures ok { OnOk result (Grew (IsTableText scale (knots_of ⟦<Margin as Shape>⟧ s.now)) text.old text.new) }
    ensures err { OnErr result (GrewInPart (IsTableText scale (knots_of ⟦<Margin as Shape>⟧ s.now)) text.old text.new) }
{
    put_row(alloc, text, &[b"time", b"margin", b"from", b"to"])?;
    put_steps(text, s, scale)?;
    let last = s.len() - 1;
    put_last(alloc, text, &s.knot(last), scale)
}
