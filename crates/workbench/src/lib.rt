//! The workbench: one call that judges recorded traces by formulas.
#![tactic(auto)]

mod check;
mod entry;
mod fault;
mod kept;
mod leave;
mod live;
mod many;
mod stream;
mod top;

pub use entry::program;
pub use kept::Kept;
pub use top::run;
pub use workload::gen_trace;
pub use written_streams::{Watch, WatchFault};
