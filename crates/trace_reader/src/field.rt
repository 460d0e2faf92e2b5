//! The fields of a line: cut at commas, without blanks around them.
ghost use Rattle.std.specs.Prelude.{◌≡◌, ◌≤◌, ◌+◌, ◌∷◌, List, ℕ, map, reverse, length, option_copied, Some};
ghost use Rattle.stl_syntax.specs.Characters.{is_space as is_spacing, all, after_first};
ghost use Rattle.trace_reader.specs.TraceText.{split, trim as trimmed, content};
ghost use Rattle.trace_reader.specs.LineParts.{whole_line, fields_of};

use memchr::memchr;

/// Whether the byte is a space or a tab.
fn is_space(c: u8) -> bool
    ensures { result ≡ is_spacing c }
{
    c == b' ' || c == b'\t'
}

/// Whether all bytes are spaces and tabs.
pub(crate) fn is_blank(text: &[u8]) -> bool
    ensures { result ≡ all is_spacing text.now }
{
    for c in text {
        if !is_space(*c) {
            return false;
        }
    }
    true
}

/// The text without the spaces and tabs that it begins with.
fn trim_start(text: &[u8]) -> &[u8]
    ensures { result.now ≡ after_first is_spacing text.now }
{
    for (i, c) in text.iter().enumerate() {
        if !is_space(*c) {
            return &text[i..];
        }
    }
    &text[text.len()..]
}

/// The text without the spaces and tabs at its end.
fn trim_end(text: &[u8]) -> &[u8]
    ensures { result.now ≡ reverse (after_first is_spacing (reverse text.now)) }
{
    let mut end = text.len();
    while end > 0 && is_space(text[end - 1]) {
        end -= 1;
    }
    &text[..end]
}

/// The text without the spaces and tabs at both ends.
fn trim(text: &[u8]) -> &[u8]
    ensures { result.now ≡ trimmed text.now }
{
    trim_end(trim_start(text))
}

/// A line's bytes without one CR at the end.
pub(crate) fn content_of(line: &[u8]) -> &[u8]
    ensures value { result.now ≡ content (whole_line line.now) }
    ensures size { length result.now ≤ length line.now }
{
    let Some((last, others)) = line.split_last() else {
        return line;
    };
    if *last == b'\r' {
        return others;
    }
    line
}

/// The first field of a text that is cut at its commas, and the text after its comma, where there is one.
pub(crate) fn cut_field(text: &[u8]) -> (&[u8], Option<&[u8]>)
    ensures { fields_of (Some text.now) ≡ result.0.now ∷ fields_of (option_copied result.1) }
{
    match memchr(b',', text) {
        Some(at) => (trim(&text[..at]), Some(&text[at + 1..])),
        None => (trim(text), None),
    }
}

/// How many fields a text has.
pub(crate) fn count_fields(text: &[u8]) -> u32
    requires { length text.now ≤ 4096 }
    ensures value { result ≡ length (fields_of (Some text.now)) }
    ensures small { result ≤ 4097 }
{
    let mut count = 1;
    for c in text {
        if *c == b',' {
            count += 1;
        }
    }
    count
}
