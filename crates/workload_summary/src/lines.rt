//! How many lines a text has.
ghost use Rattle.std.specs.Prelude.{◌≡◌, ◌≤◌, ◌∷◌, [], suc};
ghost use Rattle.workload_summary.specs.Counting.{line_count as count_of};

/// How many lines a byte ends: an LF one.
#[inline(always)]
fn ended(byte: u8) -> usize
    ensures lines { result ≡ count_of (byte ∷ []) }
    ensures few { result ≤ 1 }
{
    if byte == b'\n' {
        return 1;
    }
    0
}

/// How many lines a text has: one for each LF.
fn line_count(text: &[u8]) -> usize
    ensures { result ≡ count_of text.now }
{
    let mut lines = 0;
    for i in 0..text.len() {
        lines += ended(text[i]);
    }
    lines
}

/// How many lines a text of verdicts has before its last, which tells the truth at the start.
pub(crate) fn verdict_lines(text: &[u8]) -> usize
    requires { 1 ≤ count_of text.now }
    ensures { count_of text.now ≡ suc result }
{
    line_count(text) - 1
}
