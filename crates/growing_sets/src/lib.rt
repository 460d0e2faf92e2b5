//! Sets of times that only grow, as stretches that rise and do not touch, each with what it gained of late.
//!
//! A set has the times of both of two others, of either, of some or each time of a window, or of runs that reach another set; it goes on
//! to have them by what the others gained alone. It may let go of the times before one.
#![tactic(auto)]

mod ending;
mod grown;
mod held;
mod lasting;
mod order;
mod pointwise;
mod reach;
mod seeing;
mod shared;
mod showing;
mod steps;
mod stretch;
mod stretches;
mod sure;
mod touching;
mod window;

pub use grown::Grown;
pub use shared::last_end;
pub use showing::{bounds_from, cut_front, cut_to, front, narrow, take_in};
pub use stretch::Stretch;
pub use stretches::Stretches;
pub use touching::holding;
pub use window::Window;
