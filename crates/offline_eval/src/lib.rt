//! The signal of each node of a formula, from the signals of its atoms. It is evaluated by chains of pieces.
#![tactic(auto)]

mod atoms;
mod chains;
mod connectives;
mod evaluation;
mod faults;
pub mod laws;
mod nodes;
mod root;
mod untils;
mod windows;

pub use atoms::Atoms;
pub use chains::{Chains, eval_chains};
pub use evaluation::{Evaluated, eval, eval_under};
pub use faults::{EvalFault, WideCause};
pub use nodes::of_node;
pub use root::Stack;
