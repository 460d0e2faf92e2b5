//! Parts of bytes in memory, and counts.
ghost use Rattle.std.specs.Prelude.{◌≡◌, ◌+◌, ◌<◌, ◌≤◌, [], ◌++◌, min, length, take, drop};
ghost use Rattle.io_edge.specs.Causes.{after_end};

/// The count of ends after a call that said the end, or did not.
pub(crate) fn count_end(said: bool, ends: u64) -> u64
    ensures { result ≡ after_end said ends }
{
    if said { ends.saturating_add(1) } else { ends }
}

/// Copies bytes from an offset on into the buffer, at most so many.
fn copy_part(bytes: &[u8], at: usize, most: usize, buf: &mut [u8]) -> usize
    requires { at ≤ length bytes.now }
    ensures count { result ≡ min (min (length buf.new) (length (drop at bytes.now))) most }
    ensures moved { take result buf.new ≡ take result (drop at bytes.now) }
{
    let n = buf.len().min(bytes.len() - at).min(most);
    buf[..n].copy_from_slice(&bytes[at..at + n]);
    n
}

/// Moves bytes from an offset on into the buffer, at most so many.
pub(crate) fn take_from(bytes: &[u8], at: usize, most: usize, buf: &mut [u8]) -> usize
    requires at { at ≤ length bytes.now }
    requires most { 0 < most }
    ensures count { result ≡ min (min (length buf.new) (length (drop at bytes.now))) most }
    ensures left { at + result ≤ length bytes.now }
    ensures moved { drop at bytes.now ≡ take result buf.new ++ drop (at + result) bytes.now }
    ensures end { result ≡ 0 → 0 < length buf.new → drop (at + result) bytes.now ≡ [] }
{
    copy_part(bytes, at, most, buf)
}
