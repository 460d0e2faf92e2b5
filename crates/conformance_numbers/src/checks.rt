//! What tests expect.
use std::process::Abort;

/// Stops where a row of a table does not hold. One assertion for all keeps the proofs of the tests short.
pub(crate) fn expect(rt: &impl Abort, holds: bool, about: &str, row: usize) {
    assert!(rt; holds, "{about}, {row}");
}
