//! Tests of numbers and signals: fractions, ramps and spans, windows of numbers, signals that are built, read and moved, and what is made
//! of signals, used from outside through their contracts alone.
#![tactic(auto)]

#[cfg(test)]
mod checks;
#[cfg(test)]
mod frac128_tests;
#[cfg(test)]
mod pl_signal_tests;
#[cfg(test)]
mod signal_calls_tests;
#[cfg(test)]
mod signals;
#[cfg(test)]
mod window_extrema_tests;
