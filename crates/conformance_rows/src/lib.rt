//! Tests of the program where it answers as the rows come: `watch`, `early` and `rwatch`, and `mux` with many sessions in one input, however
//! the input is cut, and that they keep pace with their source; used from outside through its contracts alone. What each command answers in
//! the end stands in `conformance`.
#![tactic(auto)]

#[cfg(test)]
mod early_tests;
#[cfg(test)]
mod expecting;
#[cfg(test)]
mod mux_tests;
#[cfg(test)]
mod pace_tests;
#[cfg(test)]
mod rwatch_tests;
#[cfg(test)]
mod watch_tests;
