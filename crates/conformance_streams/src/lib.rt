//! Tests of formulas row by row: edges, the network of verdicts in worked cases, and `Watch` call by call; used from outside through their
//! contracts alone.
#![tactic(auto)]

#[cfg(test)]
mod given;
#[cfg(test)]
mod online_nodes_tests;
#[cfg(test)]
mod stream_tests;
#[cfg(test)]
mod written_streams_tests;
