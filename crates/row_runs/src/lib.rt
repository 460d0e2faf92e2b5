//! What a watch stands for row by row: the run in which each row is followed by a step of every node.
#![tactic(auto)]

pub mod laws;
