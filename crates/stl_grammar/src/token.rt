//! Tokens of a formula.
use crate::decimal::Decimal;
use crate::operator::{Connective, Timed};
use stl_syntax::Rel;

/// A word of the grammar, which names no column.
#[derive(Clone, Copy)]
pub(crate) enum Keyword {
    Constant(bool),
    Not,
    Connective(Connective),
    Timed(Timed),
    /// The upper end of a bound that has none.
    Inf,
}

/// A token of a text; a name is told by its place.
#[derive(Clone, Copy)]
pub(crate) enum Token {
    Keyword(Keyword),
    Name { from: usize, to: usize },
    Number(Decimal),
    Relation(Rel),
    OpenParen,
    CloseParen,
    OpenBracket,
    CloseBracket,
    Comma,
    Star,
    Plus,
    Minus,
}

/// The first token of a text, and how many of its bytes it has.
#[derive(Clone, Copy)]
pub(crate) struct Lexeme {
    pub(crate) token: Token,
    pub(crate) len: usize,
}
