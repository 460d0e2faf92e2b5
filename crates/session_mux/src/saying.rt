//! Lines of a session, said to its bench after its tag.
ghost use Rattle.std.specs.Prelude.{◌≡◌, ◌<◌, ◌≤◌, ◌++◌, ◌∷◌, ℕ, List, [], true, codes, length, take, IsTrue, OnOk, OnErr, MatchResult};
ghost use Rattle.stl_syntax.specs.Texts.{newline};
ghost use Rattle.trace_reader.specs.TraceText.{lines};
ghost use Rattle.answer_lines.specs.Appended.{GrewInPart, Is};
ghost use Rattle.circular_buffer.specs.Buffer.{buffer, keep_last};
ghost use Rattle.session_mux.specs.Saying.{texts, prefixed_texts, said_lines, HasPutFirst, HasPutInPart, Putting, HasSaid};
ghost use Rattle.session_mux.specs.Near.{IsNextFeed};

use crate::near::{NEAR, first_feed, front_feed, is_next_feed};
use crate::recent::{Recent, keep, last_lines};
use crate::tag::{LoadedTag, Tag};
use crate::waiting::Waiting;
use answer_lines::add_part;
use frac128::Memory;
use std::alloc::Global;
use stl_syntax::Text;

/// The longest line that waits.
const LONG: usize = 128;

/// The first line of a text, without its LF, and the text after it.
#[inline(always)]
pub(crate) fn first_line(text: &[u8]) -> (&[u8], &[u8])
    requires { 0 < length text.now }
    ensures line { lines true text.now ≡ record { bytes = result.0.now; whole = true } ∷ lines true result.1.now }
    ensures front { result.0.now ≡ take (length result.0.now) text.now }
    ensures shorter { length result.1.now < length text.now }
{
    match first_feed(text) {
        Some(at) => (&text[..at], &text[at + 1..]),
        None => (text, &text[text.len()..]),
    }
}

/// Adds a line after the tag and the mark.
///
/// # Errors
/// Want of memory. A first part of the line was added.
fn put_line(out: &mut Text, tag: &[u8], mark: &[u8], line: &[u8]) -> Result<(), Memory>
    ensures ok { OnOk result (out.new ≡ out.old ++ ((tag.now ++ mark.now) ++ line.now ++ newline)) }
    ensures err { OnErr result (GrewInPart (Is ((tag.now ++ mark.now) ++ line.now ++ newline)) out.old out.new) }
{
    out.push(tag)?;
    out.push(mark)?;
    out.push(line)?;
    out.push(b"\n")
}

/// Adds a line that is too long to wait, behind those that wait.
///
/// # Errors
/// Want of memory. A first part of all of them was added.
#[inline(never)]
fn put_long(waiting: &mut Waiting, tag: &Tag, line: &[u8], out: &mut Text) -> Result<(), Memory>
    ensures ok { OnOk result (out.new ++ waiting.new ≡ (out.old ++ waiting.old) ++ ((tag.now ++ codes " ") ++ line.now ++ newline)) }
    ensures begins { (front : List ℕ) × (out.new ≡ out.old ++ front) }
    ensures err { OnErr result ((rest : List ℕ) × (out.new ++ rest ≡ (out.old ++ waiting.old) ++ ((tag.now ++ codes " ") ++ line.now ++ newline))) }
{
    waiting.hand_over(out)?;
    put_line(out, tag.bytes(), b" ", line)
}

/// Says a line, which stands at the front of a text, after the tag and a space. It may wait; those before it are added where there is no room.
///
/// # Errors
/// Want of memory. A first part of all of them was added.
#[inline(always)]
fn put_said(
    waiting: &mut Waiting,
    tag: &Tag,
    line: &[u8],
    text: &[u8],
    out: &mut Text,
) -> Result<(), Memory>
    requires { line.now ≡ take (length line.now) text.now }
    ensures ok { OnOk result (out.new ++ waiting.new ≡ (out.old ++ waiting.old) ++ ((tag.now ++ codes " ") ++ line.now ++ newline)) }
    ensures begins { (front : List ℕ) × (out.new ≡ out.old ++ front) }
    ensures err { OnErr result ((rest : List ℕ) × (out.new ++ rest ≡ (out.old ++ waiting.old) ++ ((tag.now ++ codes " ") ++ line.now ++ newline))) }
{
    if line.len() > LONG {
        return put_long(waiting, tag, line, out);
    }
    waiting.make_room(out)?;
    waiting.put(tag, line, text);
    Ok(())
}

/// Says the first line of a text after the tag and a space, and answers the rest of the text. The line may wait.
///
/// # Errors
/// Want of memory. A first part of what waited and of the line was added.
#[inline(never)]
fn put_any<'a>(
    waiting: &mut Waiting,
    tag: &Tag,
    text: &'a [u8],
    out: &mut Text,
) -> Result<&'a [u8], Memory>
    requires { 0 < length text.now }
    ensures { MatchResult result
        (λ r. HasPutFirst tag.now text.now r.now out.old waiting.old out.new waiting.new)
        (λ _. HasPutInPart tag.now text.now out.old waiting.old out.new) }
{
    let (line, others) = first_line(text);
    put_said(waiting, tag, line, text, out)?;
    Ok(others)
}

/// As `put_any`, where the first LF is known, and is among the first 32 bytes.
#[inline(always)]
fn put_near<'a>(
    waiting: &mut Waiting,
    tag: &LoadedTag,
    text: &'a [u8],
    at: usize,
    out: &mut Text,
) -> Result<&'a [u8], Memory>
    requires long { 32 ≤ length text.now }
    requires feed { IsNextFeed text.now 0 at }
    ensures { MatchResult result
        (λ r. HasPutFirst tag.now text.now r.now out.old waiting.old out.new waiting.new)
        (λ _. HasPutInPart tag.now text.now out.old waiting.old out.new) }
{
    waiting.make_room(out)?;
    waiting.put_near(tag, text, at + 1);
    Ok(&text[at + 1..])
}

/// Says the lines at the front of a text whose LF is among 32 bytes, each after the tag and a space, as long as the text goes on for long, and
/// answers the rest of the text. The lines may wait.
///
/// # Errors
/// Want of memory. A first part of what waited and of these lines was added.
#[inline(always)]
fn put_all_near<'a>(
    waiting: &mut Waiting,
    tag: &LoadedTag,
    text: &'a [u8],
    out: &mut Text,
) -> Result<&'a [u8], Memory>
    requires { waiting.old ≡ [] }
    ensures { MatchResult result
        (λ r. Putting (tag.now ++ codes " ") text.now out.old r.now out.new waiting.new)
        (λ _. GrewInPart (Is (said_lines tag.now text.now)) out.old out.new) }
{
    let mut rest = text;
    while let Some(at) = front_feed(rest) {
        rest = put_near(waiting, tag, rest, at, out)?;
    }
    Ok(rest)
}

/// Adds the lines of a text, each after the tag and a space.
///
/// # Errors
/// Want of memory. A first part of these lines was added.
fn put_lines(tag: &Tag, text: &[u8], out: &mut Text) -> Result<(), Memory>
    ensures ok { OnOk result (out.new ≡ out.old ++ said_lines tag.now text.now) }
    ensures err { OnErr result (GrewInPart (Is (said_lines tag.now text.now)) out.old out.new) }
{
    let mut waiting = Waiting::new();
    let mut rest = put_all_near(&mut waiting, &tag.loaded(), text, out)?;
    while !rest.is_empty() {
        rest = put_any(&mut waiting, tag, rest, out)?;
    }
    waiting.hand_over(out)
}

/// Keeps the lines of a text among the last ones.
///
/// # Errors
/// Want of memory.
fn keep_lines(alloc: Global, recent: &mut Recent, text: &[u8]) -> Result<(), Memory>
    requires { recent.old.capacity ≡ 8 }
    ensures room { OnOk result (recent.new.capacity ≡ 8) }
    ensures kept { OnOk result ((said : List (List ℕ)) → recent.old ≡ buffer (keep_last 8 said) 8
        → recent.new ≡ buffer (keep_last 8 (said ++ texts text.now)) 8) }
{
    let mut rest = text;
    while !rest.is_empty() {
        let (line, others) = first_line(rest);
        keep(recent, alloc, line)?;
        rest = others;
    }
    Ok(())
}

/// As `say`, of any lines.
///
/// # Errors
/// Want of memory. A first part of these lines was added.
#[inline(never)]
fn say_lines(
    alloc: Global,
    tag: &Tag,
    recent: &mut Recent,
    text: &[u8],
    out: &mut Text,
) -> Result<(), Memory>
    requires { recent.old.capacity ≡ 8 }
    ensures { MatchResult result
        (λ _. HasSaid tag.now text.now recent.old recent.new out.old out.new)
        (λ _. GrewInPart (Is (said_lines tag.now text.now)) out.old out.new) }
{
    keep_lines(alloc, recent, last_lines(text))?;
    put_lines(tag, text, out)
}

/// As `say`, of a few bytes, which are put into a room behind the tag and a space: what one row answers, as a rule, is one line.
///
/// # Errors
/// Want of memory. A first part of these lines was added.
#[inline(always)]
fn say_few(
    alloc: Global,
    tag: &Tag,
    recent: &mut Recent,
    text: &[u8],
    out: &mut Text,
) -> Result<(), Memory>
    requires room { recent.old.capacity ≡ 8 }
    requires some { 0 < length text.now }
    requires few { length text.now ≤ 32 }
    ensures { MatchResult result
        (λ _. HasSaid tag.now text.now recent.old recent.new out.old out.new)
        (λ _. GrewInPart (Is (said_lines tag.now text.now)) out.old out.new) }
{
    let mut room = [0; 2 * NEAR];
    let begin = tag.put(&mut room, 0);
    let end = add_part(&mut room, begin, text, text.len());
    let last = text.len() - 1;
    if !is_next_feed(&room, begin, last) {
        return say_lines(alloc, tag, recent, text, out);
    }
    keep(recent, alloc, &text[..last])?;
    out.push(&room[..end])
}

/// Adds the lines of a text, each after the tag and a space, and keeps them among the last ones.
///
/// # Errors
/// Want of memory. A first part of these lines was added.
pub(crate) fn say(
    alloc: Global,
    tag: &Tag,
    recent: &mut Recent,
    text: &[u8],
    out: &mut Text,
) -> Result<(), Memory>
    requires { recent.old.capacity ≡ 8 }
    ensures { MatchResult result
        (λ _. HasSaid tag.now text.now recent.old recent.new out.old out.new)
        (λ _. GrewInPart (Is (said_lines tag.now text.now)) out.old out.new) }
{
    if text.is_empty() {
        return Ok(());
    }
    if text.len() <= NEAR {
        return say_few(alloc, tag, recent, text, out);
    }
    say_lines(alloc, tag, recent, text, out)
}

/// Adds the lines that are kept, each after the tag and the mark of a query.
///
/// # Errors
/// Want of memory. A first part of these lines was added.
pub(crate) fn show(tag: &Tag, recent: &Recent, out: &mut Text) -> Result<(), Memory>
    ensures ok { OnOk result (out.new ≡ out.old ++ prefixed_texts (tag.now ++ codes " ? ") recent.now.items) }
    ensures err { OnErr result (GrewInPart (Is (prefixed_texts (tag.now ++ codes " ? ") recent.now.items)) out.old out.new) }
{
    for place in 0..recent.len() {
        let Some(line) = recent.get(place) else {
            unreachable!()
        };
        put_line(out, tag.bytes(), b" ? ", line.bytes())?;
    }
    Ok(())
}
