//! Functions of time as pieces, each up to a place: just before a time, or just after it.
//!
//! With places a time and the gap behind it need no parts of their own, so an operator takes one step from end to end. A signal of
//! knots says the same (`signals`): the crates above can go over to pieces one at a time.
#![tactic(auto)]

mod constants;
mod joining;
pub mod laws;
mod levels;
mod negation;
mod next;
mod order;
mod piece;
mod pieces;
mod pointwise;
mod reach;
mod signals;
mod since;
mod sliding;
mod steps;
mod stream;
mod turning;
mod until;
mod window;
mod windows;

pub use piece::Piece;
pub use pieces::Pieces;
pub use pointwise::{lower, upper};
pub use reach::Reach;
pub use signals::{pieces_of, signal_of};
pub use since::since_from_start;
pub use stream::Stream;
pub use until::until_to_end;
pub use window::Window;
pub use windows::{inf_ahead, inf_behind, sup_ahead, sup_behind};
