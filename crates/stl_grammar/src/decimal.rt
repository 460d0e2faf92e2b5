//! Numbers as a formula writes them, with their decimals.
ghost use Rattle.std.specs.Prelude.{◌≤◌};

/// A number: a whole number, of which so many of the last digits are decimals.
///
/// One with 7 decimals stands for a number that passes every limit.
#[derive(Clone, Copy)]
pub(crate) struct Decimal {
    pub(crate) value: u32,
    pub(crate) decimals: u8,
    ghost few: { decimals ≤ 7 },
}
