//! Formulas that are given as texts, the scale of what tests read, and what is expected.
use std::alloc::Global;
use std::process::Abort;
use stl_grammar::parse;
use stl_syntax::{Formula, Scale};

/// Ticks of whole units.
pub(crate) const WHOLE: Scale = Scale { time: 0, value: 0 };

/// The formula of a text.
pub(crate) fn parsed(rt: &impl Abort, alloc: Global, text: &str) -> Formula {
    match parse(alloc, text) {
        Ok(formula) => formula,
        Err(_) => panic!(rt; "{text}"),
    }
}

/// Stops where something does not hold. One assertion for all keeps the proofs of the tests short.
pub(crate) fn expect(rt: &impl Abort, holds: bool, about: &str) {
    assert!(rt; holds, "{about}");
}
