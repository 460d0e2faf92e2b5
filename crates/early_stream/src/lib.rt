//! The early verdict of a formula as the rows of a trace come: it is told at the first row that settles it.
#![tactic(auto)]

mod deciding;

pub use deciding::Deciding;
