//! An atom over a whole trace as pieces, each up to a place: its truth or its margin at each time.
//!
//! They are made in one pass over the rows, with no signal of knots in between. A row at which the atom goes on as it did adds no piece.
#![tactic(auto)]

mod atom;
mod margins;
mod rows;
mod truths;

pub use atom::{AtomShape, pieces_of_atom, signal_of_atom};
