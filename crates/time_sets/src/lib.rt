//! Sets of times as the places at which they turn, and what the operators of STL make of them (Maler and Nickovic 2004).
//!
//! Times are in ticks: whole numbers, and fractions between them. A domain is where a recording has times; a set of a domain turns
//! strictly within it, and what the operators make of such sets are such sets again.
#![tactic(auto)]

mod domain;
mod growing;
pub mod laws;
mod making;
mod merge;
mod seeing;
mod spans;
mod times;
mod turn;
mod twice;
mod window;

pub use domain::Domain;
pub use spans::Span;
pub use times::Times;
pub use turn::Turn;
pub use window::Window;
