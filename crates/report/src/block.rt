//! Objects of one list of JSON that are printed by one call, as an array of which a bracket is then left out, and the other becomes a comma: each
//! call of `serde_json` makes a list of bytes, and one for each object would take a third of what printing it takes.
ghost use Rattle.std.specs.Prelude.{◌≡◌, ◌<◌, ◌++◌, Vec, false, length, IfOk, OnOk, OnErr};
ghost use Rattle.std.specs.declared.alloc.Global.{Global};
ghost use Rattle.serde_json.specs.Data.{array};
ghost use Rattle.serde_json.specs.View.{items_view};
ghost use Rattle.serde_json.specs.declared.value.Value.{Value, Array};
ghost use Rattle.serde_json.specs.Written.{compact_text, items_text, items_have_float};
ghost use Rattle.report.specs.Blocks.{after_commas, before_commas};

use frac128::Memory;
use serde_json::Value;
use std::alloc::Global;
use std::mem::{replace, swap};
use stl_syntax::Text;

/// How many objects of a list are printed by one call at most.
pub(crate) const MOST: usize = 192;

/// Puts the list of an array in the place of another, which comes into the array.
fn exchange(all: &mut Value, objects: &mut Vec<Value>)
    requires { (v : Vec Value Global) × (all.old ≡ Array v) }
    ensures { (v : Vec Value Global) → all.old ≡ Array v → objects.new ≡ v }
{
    let Value::Array(list) = all else {
        unreachable!();
    };
    swap(list, objects);
}

/// The compact text of the objects as an array.
fn text_of(alloc: Global, objects: &mut Vec<Value>) -> Result<Vec<u8>, Memory>
    requires { items_have_float (items_view objects.old.items) ≡ false }
    ensures same { objects.new.items ≡ objects.old.items }
    ensures text { IfOk result (λ w. w.items ≡ compact_text (array (items_view objects.old.items))) }
{
    let mut all = Value::Array(replace(objects, Vec::new(alloc)));
    let written = all.to_vec(alloc);
    exchange(&mut all, objects);
    match written {
        Ok(text) => Ok(text),
        Err(_) => Err(Memory),
    }
}

/// Appends the objects, each after a comma.
pub(crate) fn put_after_commas(
    alloc: Global,
    text: &mut Text,
    objects: &mut Vec<Value>,
) -> Result<(), Memory>
    requires float { items_have_float (items_view objects.old.items) ≡ false }
    requires some { 0 < length objects.old.items }
    ensures same { objects.new.items ≡ objects.old.items }
    ensures ok { OnOk result (text.new ≡ text.old ++ after_commas objects.old.items) }
    ensures err { OnErr result (text.new ≡ text.old) }
{
    let mut written = text_of(alloc, objects)?;
    written[0] = b',';
    let end = written.len() - 1;
    text.push(&written[..end])
}

/// Appends the objects, each before a comma.
pub(crate) fn put_before_commas(
    alloc: Global,
    text: &mut Text,
    objects: &mut Vec<Value>,
) -> Result<(), Memory>
    requires float { items_have_float (items_view objects.old.items) ≡ false }
    requires some { 0 < length objects.old.items }
    ensures same { objects.new.items ≡ objects.old.items }
    ensures ok { OnOk result (text.new ≡ text.old ++ before_commas objects.old.items) }
    ensures err { OnErr result (text.new ≡ text.old) }
{
    let mut written = text_of(alloc, objects)?;
    let last = written.len() - 1;
    written[last] = b',';
    text.push(&written[1..])
}

/// Appends the objects and what closes their list.
pub(crate) fn put_closed(
    alloc: Global,
    text: &mut Text,
    objects: &mut Vec<Value>,
) -> Result<(), Memory>
    requires { items_have_float (items_view objects.old.items) ≡ false }
    ensures ok { OnOk result (text.new ≡ text.old ++ items_text false (items_view objects.old.items)) }
    ensures err { OnErr result (text.new ≡ text.old) }
{
    let written = text_of(alloc, objects)?;
    text.push(&written[1..])
}
