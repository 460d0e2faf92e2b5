//! Ticks of time and of value, and when a formula cannot be counted in them.
/// A tick of time, and of value, as decimals of a unit: with `n` digits it is 1/10^n.
#[derive(Clone, Copy, Debug, PartialEq, Eq)]
pub struct Scale {
    pub time: u8,
    pub value: u8,
}

/// Why a formula has no form in smaller ticks.
#[derive(Clone, Copy, Debug, PartialEq, Eq)]
pub enum UnitFault {
    /// The constant of this node is the first that passes its limit.
    Constant { node: u32 },
    /// No constant does, but the reach, this number, passes its limit.
    Reach { sum: u64 },
    /// Want of memory.
    Memory,
}
