//! The lines at the front of a piece that one session takes together.
ghost use Rattle.std.specs.Prelude.{◌≡◌, ◌≤◌, ◌+◌, ◌++◌, ◌∷◌, ℕ, List, length, take, option_copied, IfOk, OnOk, MatchOption};
ghost use Rattle.stl_syntax.specs.Texts.{newline};
ghost use Rattle.trace_reader.specs.TraceText.{content};
ghost use Rattle.session_mux.specs.Sessions.{IsTag};
ghost use Rattle.answer_lines.specs.After.{IsAdded};
ghost use Rattle.session_mux.specs.Taking.{ended_line};
ghost use Rattle.session_mux.specs.Running.{IsOwnLine, HasGathered, contents_in};

use crate::near::{NEAR, feed_behind, goes_on_alike, near_feed_behind, put_front, put_wide};
use crate::session::{asks, stops};
use crate::tag::{LONGEST, Tag, tag_len};
use answer_lines::add_byte;
use frac128::Memory;

/// The most bytes of a line.
const MOST_BYTES: usize = 4_113;

/// A piece of so many bytes goes on for 32 behind each tag and a space.
const WIDE: usize = 49;

/// A line of a trace: its content, what follows its tag and a space, and how many bytes it has with its tag and its LF.
#[derive(Clone, Copy)]
struct OwnLine<'a> {
    content: &'a [u8],
    rest: &'a [u8],
    bytes: usize,
}

/// A line of a trace that is near: what follows its tag and a space, how many bytes of that its content has with its LF, and how many bytes the
/// line has with its tag.
#[derive(Clone, Copy)]
struct NearLine<'a> {
    rest: &'a [u8],
    size: usize,
    bytes: usize,
}

/// How many lines were gathered so far, how many bytes they have, and how many bytes of the room their contents have.
#[derive(Clone, Copy)]
struct Gathered {
    bytes: usize,
    lines: u64,
    used: usize,
}

/// How many lines were gathered, and how many bytes they have. The contents, each with its LF, are those of a lone line, as it stands in its
/// piece; or as many bytes of the room as are used.
#[derive(Clone, Copy)]
pub(crate) struct Run<'a> {
    pub(crate) bytes: usize,
    pub(crate) lines: u64,
    pub(crate) lone: Option<&'a [u8]>,
    pub(crate) used: usize,
}

/// A line of a trace by itself: its content with its LF, and how many bytes it has with its tag.
#[derive(Clone, Copy)]
struct LoneLine<'a> {
    contents: &'a [u8],
    bytes: usize,
}

/// A line's bytes without one CR at the end.
pub(crate) fn content_of(line: &[u8]) -> &[u8]
    ensures value { result.now ≡ content (ended_line line.now) }
    ensures front { result.now ≡ take (length result.now) line.now }
    ensures within { length result.now ≤ length line.now }
{
    let Some((last, others)) = line.split_last() else {
        return line;
    };
    if *last == b'\r' {
        return others;
    }
    line
}

/// The line at the front of a piece, of which this follows a tag and a space, where it goes to the trace of its session, and is not too long.
#[inline(always)]
fn line_behind<'a>(piece: &[u8], rest: &'a [u8]) -> Option<OwnLine<'a>>
    requires { (t : List ℕ) × IsTag t × (piece.now ≡ t ++ 32 ∷ rest.now) }
    ensures { MatchOption result (Unit {0}) (λ l. (l.rest.now ≡ rest.now) × (l.content.now ≡ take (length l.content.now) rest.now)
        × (length l.content.now + 1 ≤ l.bytes)
        × ((t : List ℕ) → IsTag t → piece.now ≡ t ++ 32 ∷ rest.now → IsOwnLine t piece.now l.content.now l.bytes)) }
{
    let Some(at) = feed_behind(piece, rest) else {
        return None;
    };
    let end = piece.len() - rest.len() + at;
    if end > MOST_BYTES {
        return None;
    }
    let content = content_of(&rest[..at]);
    if asks(content) || stops(content) {
        return None;
    }
    Some(OwnLine {
        content,
        rest,
        bytes: end + 1,
    })
}

/// The line at the front of a piece, where it has the tag, goes to the trace of its session, and is not too long.
#[inline(always)]
fn own_line<'a>(tag: &Tag, piece: &'a [u8]) -> Option<OwnLine<'a>>
    requires { IsTag tag.now }
    ensures { MatchOption result (Unit {0}) (λ l. (l.content.now ≡ take (length l.content.now) l.rest.now) × (length l.content.now + 1 ≤ l.bytes)
        × IsOwnLine tag.now piece.now l.content.now l.bytes) }
{
    let Some(rest) = tag.rest(piece) else {
        return None;
    };
    line_behind(piece, rest)
}

/// The tag at the front of a piece, if bytes of a tag stand there, and not too many.
pub(crate) fn front_tag(piece: &[u8]) -> Option<&[u8]>
    ensures { MatchOption result (Unit {0}) (λ t. IsTag t.now × (t.now ≡ take (length t.now) piece.now)) }
{
    let len = tag_len(piece);
    if len == 0 || len > LONGEST {
        return None;
    }
    Some(&piece[..len])
}

/// Makes a room longer than a piece by a few bytes at least.
///
/// # Errors
/// Want of memory.
fn make_room(room: &mut Vec<u8>, piece: &[u8]) -> Result<(), Memory>
    ensures { OnOk result (length piece.now + 32 ≤ length room.new.items) }
{
    let wanted = piece.len() + NEAR;
    if room.len() >= wanted {
        return Ok(());
    }
    room.resize(wanted, 0)?;
    Ok(())
}

/// Puts the content of a line and an LF into the room, and answers where they end.
#[inline(always)]
fn put_line(room: &mut [u8], at: usize, line: &OwnLine) -> usize
    requires front { line.now.content.now ≡ take (length line.now.content.now) line.now.rest.now }
    requires room { at + 32 ≤ length room.old }
    requires whole { at + length line.now.content.now + 1 ≤ length room.old }
    ensures { IsAdded (line.now.content.now ++ newline) room.old at room.new result }
{
    let end = put_front(room, at, line.content, line.rest);
    add_byte(room, end, b'\n')
}

/// The line at the front of a piece that has this tag, where it goes to the trace of its session as it stands, without a CR, and the next one
/// has another tag.
#[inline(always)]
fn lone_line<'a>(tag: &[u8], piece: &'a [u8]) -> Option<LoneLine<'a>>
    requires tag { IsTag tag.now }
    requires front { tag.now ≡ take (length tag.now) piece.now }
    ensures { MatchOption result (Unit {0}) (λ l.
        (content : List ℕ) × (l.contents.now ≡ content ++ newline) × IsOwnLine tag.now piece.now content l.bytes) }
{
    let len = tag.len();
    if len >= piece.len() || piece[len] != b' ' {
        return None;
    }
    let rest = &piece[len + 1..];
    let Some(line) = line_behind(piece, rest) else {
        return None;
    };
    let size = line.content.len();
    if size >= rest.len() || rest[size] != b'\n' || goes_on_alike(piece, line.bytes, len) {
        return None;
    }
    Some(LoneLine {
        contents: &rest[..size + 1],
        bytes: line.bytes,
    })
}

/// The line at the front of a piece, where it has the tag, goes to the trace of its session as it stands, without a CR, its LF is near and the
/// piece goes on for long.
#[inline(always)]
fn near_line<'a>(tag: &Tag, piece: &'a [u8]) -> Option<NearLine<'a>>
    requires tag { IsTag tag.now }
    requires long { 49 ≤ length piece.now }
    ensures { MatchOption result (Unit {0}) (λ l. (32 ≤ length l.rest.now) × (l.size ≤ 32) × (l.size ≤ l.bytes)
        × ((content : List ℕ) × (take l.size l.rest.now ≡ content ++ newline) × IsOwnLine tag.now piece.now content l.bytes)) }
{
    let Some(rest) = tag.rest_of_long(piece) else {
        return None;
    };
    let Some(at) = near_feed_behind(piece, rest) else {
        return None;
    };
    if at == 0 || rest[at - 1] == b'\r' {
        return None;
    }
    let content = content_of(&rest[..at]);
    if content.len() < at || asks(content) || stops(content) {
        return None;
    }
    Some(NearLine {
        rest,
        size: at + 1,
        bytes: piece.len() - rest.len() + at + 1,
    })
}

/// Puts the contents of the lines at the front of a piece that have this tag, at most so many, one after the other, each with its LF, to the
/// front of the room, as long as `near_line` finds them.
#[inline(always)]
fn gather_near(room: &mut [u8], tag: &Tag, piece: &[u8], most: u64) -> Gathered
    requires tag { IsTag tag.now }
    requires room { length piece.now + 32 ≤ length room.old }
    ensures gathered { HasGathered tag.now piece.now most result.bytes result.lines (take result.used room.new) }
    ensures within { result.used ≤ result.bytes }
    ensures room { length room.new ≡ length room.old }
{
    let mut all = Gathered {
        bytes: 0,
        lines: 0,
        used: 0,
    };
    let Some(last) = piece.len().checked_sub(WIDE) else {
        return all;
    };
    while all.lines < most && all.bytes <= last {
        let Some(line) = near_line(tag, &piece[all.bytes..]) else {
            return all;
        };
        all.used = put_wide(room, all.used, line.rest, line.size);
        all.bytes += line.bytes;
        all.lines += 1;
    }
    all
}

/// Puts the contents of the lines at the front of a piece that have this tag, which stands there, at most so many, one after the other, each
/// with its LF, to the front of the room.
///
/// # Errors
/// Want of memory.
#[inline(never)]
fn gather_all<'a>(
    room: &mut Vec<u8>,
    tag: &[u8],
    piece: &[u8],
    most: u64,
) -> Result<Run<'a>, Memory>
    requires tag { IsTag tag.now }
    requires front { tag.now ≡ take (length tag.now) piece.now }
    ensures gathered { IfOk result (λ r. HasGathered tag.now piece.now most r.bytes r.lines (contents_in (option_copied r.lone) (take r.used room.new.items))) }
    ensures within { IfOk result (λ r. r.used ≤ length room.new.items) }
{
    make_room(room, piece)?;
    let own = Tag::at_front(tag, piece);
    let near = gather_near(room, &own, piece, most);
    let mut bytes = near.bytes;
    let mut lines = near.lines;
    let mut used = near.used;
    while lines < most {
        let Some(line) = own_line(&own, &piece[bytes..]) else {
            return Ok(Run {
                bytes,
                lines,
                lone: None,
                used,
            });
        };
        used = put_line(room, used, &line);
        bytes += line.bytes;
        lines += 1;
    }
    Ok(Run {
        bytes,
        lines,
        lone: None,
        used,
    })
}

/// As `gather_all`, at once where the next line has another tag.
///
/// # Errors
/// Want of memory.
#[inline(always)]
pub(crate) fn gather<'a>(
    room: &mut Vec<u8>,
    tag: &[u8],
    piece: &'a [u8],
    most: u64,
) -> Result<Run<'a>, Memory>
    requires tag { IsTag tag.now }
    requires front { tag.now ≡ take (length tag.now) piece.now }
    ensures gathered { IfOk result (λ r. HasGathered tag.now piece.now most r.bytes r.lines (contents_in (option_copied r.lone) (take r.used room.new.items))) }
    ensures within { IfOk result (λ r. r.used ≤ length room.new.items) }
{
    if most > 0 {
        if let Some(line) = lone_line(tag, piece) {
            return Ok(Run {
                bytes: line.bytes,
                lines: 1,
                lone: Some(line.contents),
                used: 0,
            });
        }
    }
    gather_all(room, tag, piece, most)
}

/// The contents of a run.
#[inline(always)]
pub(crate) fn contents_of<'a>(room: &'a [u8], run: &Run<'a>) -> &'a [u8]
    requires { run.now.used ≤ length room.now }
    ensures { result.now ≡ contents_in (option_copied run.now.lone) (take run.now.used room.now) }
{
    match run.lone {
        Some(contents) => contents,
        None => &room[..run.used],
    }
}
