//! Atoms over the rows of a trace: their truth and their margins at rows, on the gaps between rows, and over a whole trace.
#![tactic(auto)]

mod binding;
mod bound;
mod bound_atom;
mod cells;
mod gap;
mod leg;
mod margin;
mod margin_way;
mod passage;
mod piecewise;
mod points;
mod signal;
mod sum;
mod truth;
mod way;

pub use binding::{BindFault, bind};
pub use bound::Bound;
pub use leg::leg_from;
pub use margin_way::{margin_standing, margin_way_from};
pub use passage::{Crossing, Leg, MarginWay, Passage, Turning, Way};
pub use points::{margin_piece, margin_point, truth_piece, truth_point, truth_step};
pub use signal::{AtomShape, atom_signal};
pub use truth::TruthPiece;
pub use way::{standing, stays_over, truth_at_row, truth_from_row, way_from};
