//! What the one call of the workbench comes to, as laws: of its statuses, of what is owed, and of the lines that it writes.
#![tactic(auto)]

mod bench_laws;
pub mod laws;
mod line_laws;
mod owing_laws;
