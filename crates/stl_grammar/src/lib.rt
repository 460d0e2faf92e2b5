//! The text of formulas.
#![tactic(auto)]

mod build;
mod chars;
mod decimal;
mod digits;
mod draft;
mod fault;
mod frames;
pub mod laws;
mod lexer;
mod number;
mod operator;
mod parser;
mod place;
mod reader;
mod refuse;
mod shapes;
mod text;
mod ticks;
mod token;

pub use fault::{FormulaFault, What};
pub use text::parse;
