//! Where a parser stands in a formula: what may come next.
use crate::decimal::Decimal;
use crate::operator::Timed;
use stl_syntax::Rel;

/// Where a parser stands: what may come next.
#[derive(Clone, Copy)]
pub(crate) enum Place {
    Operand,
    /// The bound of an operator, or an operand where the bound may be left out.
    Bound {
        of: Timed,
    },
    /// The lower number of a bound.
    Low {
        of: Timed,
        low_in: bool,
    },
    Comma {
        of: Timed,
        low_in: bool,
        low: Decimal,
    },
    /// The upper number, or `inf`.
    High {
        of: Timed,
        low_in: bool,
        low: Decimal,
    },
    /// The bracket after the upper number, or after `inf`.
    Closing {
        of: Timed,
        low_in: bool,
        low: Decimal,
        high: Option<Decimal>,
    },
    /// A term, after its sign.
    Term {
        negative: bool,
    },
    Star {
        negative: bool,
        coef: Decimal,
    },
    /// The name of a term.
    Name {
        negative: bool,
        coef: Decimal,
    },
    /// A sign or a relation, after a term.
    Sign,
    Constant {
        rel: Rel,
    },
    /// The number of a constant, after its sign.
    Number {
        rel: Rel,
        negative: bool,
    },
    /// What may follow a whole operand.
    End,
}
