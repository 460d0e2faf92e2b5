//! The Sup and the Inf of a signal over a window that moves with the time.
#![tactic(auto)]

mod past;
mod window;

pub use past::{inf_past, sup_past};
pub use window::{inf_window, sup_window};
