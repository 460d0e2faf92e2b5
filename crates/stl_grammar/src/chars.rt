//! Which bytes part tokens, and which a token is made of.
ghost use Rattle.std.specs.Prelude.{◌≡◌, ◌≤◌, length, take, drop, true};
ghost use Rattle.stl_syntax.specs.Characters.{is_blank as is_blank_byte, is_digit as is_digit_byte};
ghost use Rattle.stl_syntax.specs.Characters.{begins_word as begins_name, goes_on_word as goes_on_name, all, StopsAt};

/// Whether the byte only parts tokens: space, tab, LF or CR.
pub(crate) fn is_blank(c: u8) -> bool
    ensures { result ≡ is_blank_byte c }
{
    c == b' ' || c == b'\t' || c == b'\n' || c == b'\r'
}

/// Whether the byte is an ASCII digit.
pub(crate) fn is_digit(c: u8) -> bool
    ensures { result ≡ is_digit_byte c }
{
    c >= b'0' && c <= b'9'
}

/// Whether a word may begin with the byte: an ASCII letter or `_`.
pub(crate) fn begins_word(c: u8) -> bool
    ensures { result ≡ begins_name c }
{
    c >= b'A' && c <= b'Z' || c >= b'a' && c <= b'z' || c == b'_'
}

/// Whether a word may go on with the byte: an ASCII letter, a digit, `_` or a point.
pub(crate) fn goes_on_word(c: u8) -> bool
    ensures { result ≡ goes_on_name c }
{
    begins_word(c) || is_digit(c) || c == b'.'
}

/// How many bytes at the front go on a word.
pub(crate) fn word_len(text: &[u8]) -> usize
    ensures within { result ≤ length text.now }
    ensures front { all goes_on_name (take result text.now) ≡ true }
    ensures stops { StopsAt goes_on_name (drop result text.now) }
{
    for (i, c) in text.iter().enumerate() {
        if !goes_on_word(*c) {
            return i;
        }
    }
    text.len()
}

/// How many digits stand at the front.
pub(crate) fn digits_len(text: &[u8]) -> usize
    ensures within { result ≤ length text.now }
    ensures front { all is_digit_byte (take result text.now) ≡ true }
    ensures stops { StopsAt is_digit_byte (drop result text.now) }
{
    for (i, c) in text.iter().enumerate() {
        if !is_digit(*c) {
            return i;
        }
    }
    text.len()
}
