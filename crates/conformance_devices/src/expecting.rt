//! Tests stop at the first row of a table that does not hold.
use std::process::Abort;

/// Stops where a row of a table does not hold.
pub(crate) fn expect(rt: &impl Abort, holds: bool, about: &str, row: usize) {
    assert!(rt; holds, "{about}, {row}");
}
