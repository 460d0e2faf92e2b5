//! The last lines that were said to a session.
ghost use Rattle.std.specs.Prelude.{◌≡◌, ◌<◌, ◌++◌, ◌∷◌, [], ℕ, List, length, take, OnOk, IfOk};
ghost use Rattle.circular_buffer.specs.Buffer.{buffer, keep_last};
ghost use Rattle.session_mux.specs.Saying.{texts, EndsInFeed, HasLastLines};

use circular_buffer::HeapCircularBuffer;
use frac128::Memory;
use memchr::memrchr;
use std::alloc::Global;
use stl_syntax::Text;

/// How many lines are kept.
const KEPT: usize = 8;

/// The last lines, at most eight, without their LF.
pub(crate) type Recent = HeapCircularBuffer<Text>;

/// Room for eight lines.
///
/// # Errors
/// Want of memory.
pub(crate) fn no_lines(alloc: Global) -> Result<Recent, Memory>
    ensures { IfOk result (λ r. r ≡ buffer [] 8) }
{
    match HeapCircularBuffer::with_capacity(alloc, KEPT) {
        Ok(recent) => Ok(recent),
        Err(_) => Err(Memory),
    }
}

/// The text of the oldest line where eight are kept, to be used again; else a new one.
fn room(recent: &mut Recent, alloc: Global) -> Text
    requires { recent.old.capacity ≡ 8 }
    ensures { recent.new ≡ buffer (keep_last 7 recent.old.items) 8 }
{
    if recent.len() < KEPT {
        return Text::new(alloc);
    }
    match recent.pop_front() {
        Some(text) => text,
        None => Text::new(alloc),
    }
}

/// Adds a line. Once eight are kept this takes no memory, but for a line that is longer than those before it.
///
/// # Errors
/// Want of memory.
#[inline(always)]
pub(crate) fn keep(recent: &mut Recent, alloc: Global, line: &[u8]) -> Result<(), Memory>
    requires { recent.old.capacity ≡ 8 }
    ensures { OnOk result (recent.new ≡ buffer (keep_last 8 (recent.old.items ++ line.now ∷ [])) 8) }
{
    let mut text = room(recent, alloc);
    text.clear();
    text.push(line)?;
    let _ = recent.push_back(text);
    Ok(())
}

/// Where a text has more bytes, it is looked where its last lines begin.
const FEW: usize = 256;

/// Where the last line of a text begins.
fn last_begins(text: &[u8]) -> usize
    requires { 0 < length text.now }
    ensures less { result < length text.now }
    ensures ends { EndsInFeed (take result text.now) }
    ensures line { (line : List ℕ) × (texts text.now ≡ texts (take result text.now) ++ line ∷ []) }
{
    match memrchr(b'\n', &text[..text.len() - 1]) {
        Some(at) => at + 1,
        None => 0,
    }
}

/// The last eight lines of a text, or more of them.
pub(crate) fn last_lines(text: &[u8]) -> &[u8]
    ensures { HasLastLines text.now result.now }
{
    if text.len() <= FEW {
        return text;
    }
    let mut from = text.len();
    for _line in 0..KEPT {
        if from == 0 {
            return text;
        }
        from = last_begins(&text[..from]);
    }
    &text[from..]
}
