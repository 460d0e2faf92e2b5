//! How often the truth of a formula turns, into how many verdicts it falls, and how many an edge of the network holds: at most a multiple of
//! the rows about, by what the definitions say.
#![tactic(auto)]

pub mod laws;
