//! What the network of a watch holds at a time, and how much work its run is: by the rows, and not by the length of the trace.
#![tactic(auto)]

pub mod laws;
