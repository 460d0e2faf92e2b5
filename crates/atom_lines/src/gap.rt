//! The gap between two rows.
ghost use Rattle.std.specs.Prelude.{◌<◌, ◌≤◌, ◌^◌, ◌-ℤ◌};
ghost use Rattle.std.specs.Int.RustNames.{unsigned_abs};

/// An atom's sum, less its constant, on the gap between two rows: from `from` at the time `first` on towards `to`, which it would
/// have at the time `second`.
#[derive(Clone, Copy)]
pub(crate) struct Gap {
    pub(crate) first: u32,
    pub(crate) from: i64,
    pub(crate) second: u32,
    pub(crate) to: i64,
    pub ghost rising: { first < second },
    pub ghost small_from: { unsigned_abs from ≤ 2 ^ 31 },
    pub ghost small_to: { unsigned_abs to ≤ 2 ^ 31 },
    pub ghost small_rise: { unsigned_abs (to -ℤ from) ≤ 2 ^ 31 },
}
