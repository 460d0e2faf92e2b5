//! `until` and `since` over signals.
#![tactic(auto)]

pub mod laws;
mod since;
mod until;

pub use since::since_from_start;
pub use until::until_to_end;
