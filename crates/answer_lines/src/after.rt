//! Texts put behind others: in a buffer that is filled from its beginning on, so that many lines go to the output at once.
ghost use Rattle.std.specs.Prelude.{◌≡◌, ◌≤◌, ◌+◌, ◌-◌, ◌∷◌, [], length, take, drop};
ghost use Rattle.answer_lines.specs.After.{IsAdded};

/// Room for the text of a number. It ends at `TEXT_END`; behind that there is room to copy 32 bytes from wherever it begins.
pub(crate) const TEXT_ROOM: usize = 128;

/// Where the text of a number ends in its room.
pub(crate) const TEXT_END: usize = 96;

/// Puts the first `len` bytes of a word behind what stands before `at`, and answers where they end. What stands behind them does not matter:
/// a word with a few bytes more is copied as one.
#[inline(always)]
pub fn add_part(buf: &mut [u8], at: usize, word: &[u8], len: usize) -> usize
    requires part { len ≤ length word.now }
    requires room { at + length word.now ≤ length buf.old }
    ensures { IsAdded (take len word.now) buf.old at buf.new result }
{
    let end = at + word.len();
    buf[at..end].copy_from_slice(word);
    at + len
}

/// Puts a byte.
#[inline(always)]
pub fn add_byte(buf: &mut [u8], at: usize, byte: u8) -> usize
    requires { at + 1 ≤ length buf.old }
    ensures { IsAdded (byte ∷ []) buf.old at buf.new result }
{
    buf[at] = byte;
    at + 1
}

/// Puts the text that stands in its room from `from` on.
#[inline(always)]
pub(crate) fn add_text(buf: &mut [u8], at: usize, room: &[u8; 128], from: usize) -> usize
    requires from { from ≤ 96 }
    requires room { at + 96 ≤ length buf.old }
    ensures { IsAdded (take (96 - from) (drop from room.now)) buf.old at buf.new result }
{
    let len = TEXT_END - from;
    if len > 32 {
        return add_part(buf, at, &room[from..TEXT_END], len);
    }
    add_part(buf, at, &room[from..from + 32], len)
}
