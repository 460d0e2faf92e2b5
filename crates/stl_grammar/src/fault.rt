//! Refusals of a formula, in the order in which they are tried at one token.
/// What a formula's text is expected to go on with.
#[derive(Clone, Copy, Debug, PartialEq, Eq)]
pub enum What {
    Operand,
    /// A number of a bound.
    Number,
    /// The comma of a bound.
    Comma,
    /// The bracket that closes a bound.
    Bracket,
    /// The star after a coefficient.
    Star,
    /// A name after a star.
    Name,
    /// A term after its sign.
    Term,
    /// A relation, after a term.
    Relation,
    /// A constant, after a relation.
    Constant,
    /// A connective or a closing parenthesis.
    Paren,
    /// A connective or the end.
    End,
}

/// Why a text is no formula within the limits; `at` is a place in bytes from 0, the text's length at its end.
#[derive(Clone, Copy, Debug, PartialEq, Eq)]
pub enum FormulaFault {
    /// The text has only blanks.
    Empty,
    /// The byte begins no token.
    BadByte { at: u32 },
    /// The token, or the end, follows the tokens before it in no formula.
    Expected { at: u32, what: What },
    /// The number passes the limit of a coefficient, a constant or a bound.
    BadNumber { at: u32 },
    /// The upper bound is less than the lower.
    BoundOrder { at: u32 },
    /// The operator looks ahead, and has no bound or no upper one.
    UnboundedFuture { at: u32 },
    /// The sign begins the fifth term of an atom.
    TooManyTerms { at: u32 },
    /// The text has this many bytes, more than 8,192.
    TooLong { len: u64 },
    /// The token is the 65th parenthesis, one-operand operator or `implies` that is pending.
    TooDeep { at: u32 },
    /// The token begins the 257th node.
    TooManyNodes { at: u32 },
    /// The sum of the bounds, in ticks, passes 4,294,967,295.
    ReachTooLarge { sum: u64 },
    /// The constant of this node is the first that passes 1,073,741,824 ticks.
    ConstantTooLarge { node: u32 },
    /// Want of memory.
    Memory,
}
