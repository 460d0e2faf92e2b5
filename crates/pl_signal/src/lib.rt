//! Signals: values over a stretch of time, as knots with an open piece between each two neighbours.
#![tactic(auto)]

mod builder;
mod faults;
mod joining;
mod knot;
pub mod laws;
mod moves;
mod sample;
mod signal;

pub use builder::Builder;
pub use faults::{OpFault, WidePair, fault_of, keep};
pub use joining::{Side, chosen, chosen_in_place, crossing, crossing_kept, favour};
pub use knot::Knot;
pub use sample::{Next, Sample, earlier};
pub use signal::Signal;
