//! What tests expect.
use std::process::Abort;

/// Stops where something does not hold. One assertion for all keeps the proofs of the tests short.
pub(crate) fn expect(rt: &impl Abort, holds: bool, about: &str) {
    assert!(rt; holds, "{about}");
}
