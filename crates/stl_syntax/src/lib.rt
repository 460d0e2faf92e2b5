//! Formulas of signal temporal logic, and what they mean.
#![tactic(auto)]

mod atom;
mod builder;
mod decimals;
mod formula;
mod horizon;
mod items;
pub mod laws;
mod name;
mod node;
mod operator;
mod print;
mod rel;
mod scale;
mod scaling;
mod text;

pub use atom::{Atom, Term, make_atom};
pub use builder::FormulaBuilder;
pub use formula::Formula;
pub use horizon::horizon_of;
pub use items::{Item, Items, Verdict};
pub use name::Name;
pub use node::Node;
pub use operator::{Asks, Join, Offsets, View, Way};
pub use rel::Rel;
pub use scale::{Scale, UnitFault};
pub use text::Text;
