//! Values over time: truth, three-valued truth and margins, each affine or constantly infinite, under one trait.
#![tactic(auto)]

mod counted;
mod kleene;
pub mod laws;
mod margin;
mod shape;
mod truth;

pub use counted::Counted;
pub use kleene::Kleene;
pub use margin::Margin;
pub use shape::Shape;
pub use truth::Truth;
