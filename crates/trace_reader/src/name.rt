//! Names of columns.
ghost use Rattle.std.specs.Prelude.{◌≡◌, ◌↔◌, ◌≤◌, IsTrue, true};
ghost use Rattle.stl_syntax.specs.Characters.{begins_word as is_first, goes_on_word as is_later, all};
ghost use Rattle.trace_reader.specs.TraceText.{IsName};

/// The most bytes of a column's name.
pub(crate) const LONGEST_NAME: usize = 64;

/// Whether a name may begin with the byte: an ASCII letter or `_`.
fn begins_name(c: u8) -> bool
    ensures { result ≡ is_first c }
{
    c >= b'A' && c <= b'Z' || c >= b'a' && c <= b'z' || c == b'_'
}

/// Whether a name may go on with the byte: an ASCII letter, a digit, `_` or a point.
fn goes_on_name(c: u8) -> bool
    ensures { result ≡ is_later c }
{
    begins_name(c) || c >= b'0' && c <= b'9' || c == b'.'
}

/// Whether all bytes are such that a name may go on with them.
fn all_go_on(text: &[u8]) -> bool
    ensures { result ≡ all is_later text.now }
{
    for c in text {
        if !goes_on_name(*c) {
            return false;
        }
    }
    true
}

/// Whether the text is a column's name.
pub(crate) fn is_name(text: &[u8]) -> bool
    ensures { IsTrue result ↔ IsName text.now }
{
    match text.split_first() {
        Some((first, others)) => {
            text.len() <= LONGEST_NAME && begins_name(*first) && all_go_on(others)
        }
        None => false,
    }
}
