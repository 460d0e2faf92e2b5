//! Exact fractions of up to 128 bits, spans and places of time, ramps over them, and a counter of steps.
#![tactic(auto)]

mod arith;
mod cut;
mod frac;
mod memory;
mod ramp;
mod ratio;
mod span;
mod steps;

pub use arith::{gcd, gcd_of_wide};
pub use cut::Cut;
pub use frac::{Frac, WideFrac};
pub use memory::Memory;
pub use ramp::Ramp;
pub use ratio::{Ratio, cmp_ratio};
pub use span::Span;
pub use steps::Steps;
