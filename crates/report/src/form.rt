//! Objects of JSON that are made once and take the texts of one entry after another, so that their keys and their memory are taken once.
ghost use Rattle.std.specs.Prelude.{◌≡◌, ◌≤◌, ℕ, List, Bool, IsSome, IfOk, OnOk, IsUtf8, IsCharBoundary, slice_range};
ghost use Rattle.serde_json.specs.Data.{string, boolean, put};
ghost use Rattle.serde_json.specs.Find.{as_bool, as_str};
ghost use Rattle.serde_json.specs.View.{view, members_view};
ghost use Rattle.report.specs.Forms.{replaced, with_member, verdict_object, HasText, HasTextAt, IsVerdictForm, SetsSome};
ghost use Rattle.report.specs.Forms.{EndAt, BeginsAt, EndsAt, IsFirst, IsLast};

use frac128::Memory;
use serde_json::{Map, Value};
use std::str;

/// Room for the text of a span, and for copying its times.
pub(crate) const SPAN_ROOM: usize = 256;

/// The bytes as a text.
pub(crate) fn text_of(content: &[u8]) -> Result<&str, Memory>
    ensures same { IfOk result (λ s. s.now ≡ content.now) }
    ensures utf8 { IfOk result (λ s. IsUtf8 s.now) }
{
    // Numbers are ASCII, and the names in a formula are text, so what is printed of them is. No proof says so; tools/read_back tries it.
    match str::from_utf8(content) {
        Ok(text) => Ok(text),
        Err(_) => Err(Memory),
    }
}

/// A part of a text, between places at which it may be cut.
#[inline(always)]
pub(crate) fn part(text: &str, from: usize, to: usize) -> &str
    requires order { from ≤ to }
    requires begins { IsCharBoundary text.now from }
    requires ends { IsCharBoundary text.now to }
    ensures { result.now ≡ slice_range text.now from to }
{
    &text[from..to]
}

/// Puts a text in the place of another, whose memory it takes over.
#[inline(always)]
fn put_text(slot: &mut Value, content: &str) -> Result<(), Memory>
    requires { IsSome (as_str (view slot.old)) }
    ensures ok { OnOk result (view slot.new ≡ string content.now) }
    ensures form { (s : List ℕ) × (view slot.new ≡ string s) }
{
    let Value::String(text) = slot else {
        unreachable!();
    };
    text.clear();
    text.push_str(content)?;
    Ok(())
}

/// Puts a text in the place of the one that is at the key.
#[inline(always)]
fn set_member(members: &mut Map<String, Value>, key: &str, content: &str) -> Result<(), Memory>
    requires { HasTextAt key.now (members_view members.old.entries) }
    ensures ok { OnOk result (members_view members.new.entries ≡ replaced key.now (string content.now) (members_view members.old.entries)) }
    ensures form { (s : List ℕ) × (members_view members.new.entries ≡ replaced key.now (string s) (members_view members.old.entries)) }
{
    match members.get_mut(key) {
        Some(slot) => put_text(slot, content),
        None => unreachable!(),
    }
}

/// Puts a truth in the place of another.
#[inline(always)]
fn put_truth(slot: &mut Value, holds: bool)
    requires { IsSome (as_bool (view slot.old)) }
    ensures { view slot.new ≡ boolean holds }
{
    let Value::Bool(truth) = slot else {
        unreachable!();
    };
    *truth = holds;
}

/// Puts a truth in the place of the one with which the members end.
#[inline(always)]
fn set_last_truth(members: &mut Map<String, Value>, holds: bool)
    requires { (k : List ℕ) × (b : Bool) × EndAt k (boolean b) (members_view members.old.entries) }
    ensures { (k : List ℕ) (b : Bool) → EndAt k (boolean b) (members_view members.old.entries)
        → members_view members.new.entries ≡ put k (boolean holds) (members_view members.old.entries) }
{
    match members.last_entry() {
        Some(entry) => put_truth(entry.into_mut(), holds),
        None => unreachable!(),
    }
}

/// Puts a truth in the place of the one that the object of a verdict has.
#[inline(always)]
pub(crate) fn set_truth(verdict: &mut Value, holds: bool)
    requires { IsVerdictForm (view verdict.old) }
    ensures { (on : List ℕ) (b : Bool) → view verdict.old ≡ verdict_object on b → view verdict.new ≡ verdict_object on holds }
{
    match verdict.as_object_mut() {
        Some(members) => set_last_truth(members, holds),
        None => unreachable!(),
    }
}

/// Puts a text in the place of the one that the object has at the key.
#[inline(always)]
pub(crate) fn set_text(object: &mut Value, key: &str, content: &str) -> Result<(), Memory>
    requires { HasText key.now (view object.old) }
    ensures ok { OnOk result (view object.new ≡ with_member key.now (string content.now) (view object.old)) }
    ensures form { SetsSome key.now (view object.old) (view object.new) }
{
    match object.as_object_mut() {
        Some(members) => set_member(members, key, content),
        None => unreachable!(),
    }
}

/// Puts a text in the place of the one with which the members begin, which is at the key.
#[inline(always)]
fn set_first_member(
    members: &mut Map<String, Value>,
    key: &str,
    content: &str,
) -> Result<(), Memory>
    requires { BeginsAt key.now (members_view members.old.entries) }
    ensures ok { OnOk result (members_view members.new.entries ≡ replaced key.now (string content.now) (members_view members.old.entries)) }
    ensures form { (s : List ℕ) × (members_view members.new.entries ≡ replaced key.now (string s) (members_view members.old.entries)) }
{
    match members.first_entry() {
        Some(entry) => put_text(entry.into_mut(), content),
        None => unreachable!(),
    }
}

/// Puts a text in the place of the one with which the object begins, which it has at the key. It costs less than `set_text`, since no key is looked up.
#[inline(always)]
pub(crate) fn set_first(object: &mut Value, key: &str, content: &str) -> Result<(), Memory>
    requires form { HasText key.now (view object.old) }
    requires place { IsFirst key.now (view object.old) }
    ensures ok { OnOk result (view object.new ≡ with_member key.now (string content.now) (view object.old)) }
    ensures form { SetsSome key.now (view object.old) (view object.new) }
{
    match object.as_object_mut() {
        Some(members) => set_first_member(members, key, content),
        None => unreachable!(),
    }
}

/// Puts a text in the place of the one with which the members end, which is at the key.
#[inline(always)]
fn set_last_member(members: &mut Map<String, Value>, key: &str, content: &str) -> Result<(), Memory>
    requires { EndsAt key.now (members_view members.old.entries) }
    ensures ok { OnOk result (members_view members.new.entries ≡ replaced key.now (string content.now) (members_view members.old.entries)) }
    ensures form { (s : List ℕ) × (members_view members.new.entries ≡ replaced key.now (string s) (members_view members.old.entries)) }
{
    match members.last_entry() {
        Some(entry) => put_text(entry.into_mut(), content),
        None => unreachable!(),
    }
}

/// Puts a text in the place of the one with which the object ends, which it has at the key. It costs less than `set_text`, since no key is looked up.
#[inline(always)]
pub(crate) fn set_last(object: &mut Value, key: &str, content: &str) -> Result<(), Memory>
    requires form { HasText key.now (view object.old) }
    requires place { IsLast key.now (view object.old) }
    ensures ok { OnOk result (view object.new ≡ with_member key.now (string content.now) (view object.old)) }
    ensures form { SetsSome key.now (view object.old) (view object.new) }
{
    match object.as_object_mut() {
        Some(members) => set_last_member(members, key, content),
        None => unreachable!(),
    }
}
