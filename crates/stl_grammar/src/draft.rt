//! What is kept of a formula while its text is read: nodes with numbers as they stand, and what is open.
use crate::decimal::Decimal;
use crate::operator::{Connective, Timed};
use crate::ticks::{constant, constant_size};
use std::marker::Model;
use stl_syntax::{Atom, Rel, Term, make_atom};

/// A bound of two numbers, with each end in or out.
#[derive(Clone, Copy)]
pub(crate) struct Window {
    pub(crate) low: Decimal,
    pub(crate) high: Decimal,
    pub(crate) low_in: bool,
    pub(crate) high_in: bool,
}

/// The bound of an operator.
#[derive(Clone, Copy)]
pub(crate) enum Bound {
    /// It was left out.
    Whole,
    /// It has no upper end.
    From { low: Decimal, low_in: bool },
    Within(Window),
}

/// An operator, with its bound where it has one.
#[derive(Clone, Copy)]
pub(crate) enum Operator {
    Not,
    Connective(Connective),
    Timed(Timed, Bound),
}

/// What is open: a parenthesis, or an operator whose last operand is not at its end.
#[derive(Clone, Copy)]
pub(crate) enum Frame {
    Paren,
    /// `left` is the place of its left operand, where it has one.
    Operator { operator: Operator, left: usize },
}

/// A sum of terms that is compared with a number, its sign told apart.
#[derive(Drop)]
pub(crate) struct Sum {
    terms: Vec<Term>,
    rel: Rel,
    negative: bool,
    limit: Decimal,
}

impl Model for Sum {
    ghost use Rattle.stl_grammar.specs.Sums.{Comparison};

    ghost Value = { Comparison };

    ghost view = { λ s. record { terms = s.terms.items; rel = s.rel; negative = s.negative; limit = s.limit } };
}

impl Sum {
    ghost use Rattle.std.specs.Prelude.{◌≡◌, ◌≤◌, ◌<◌, nat_lt, nat_abs, length};
    ghost use Rattle.stl_grammar.specs.Drafts.{limit_of};

    pub(crate) fn new(terms: Vec<Term>, rel: Rel, negative: bool, limit: Decimal) -> Sum
        ensures { result ≡ record { terms = terms.items; rel = rel; negative = negative; limit = limit } }
    {
        Sum {
            terms,
            rel,
            negative,
            limit,
        }
    }

    /// Whether the constant in ticks passes its limit.
    pub(crate) fn is_large(&self, digits: u8) -> bool
        requires { digits ≤ 6 }
        ensures { result ≡ nat_lt 1073741824 (nat_abs (limit_of digits self.now)) }
    {
        constant_size(self.limit, digits) > 1_073_741_824
    }

    /// The atom, with its constant in ticks.
    pub(crate) fn into_atom(self, digits: u8) -> Atom
        requires digits { digits ≤ 6 }
        requires some { 0 < length self.terms }
        requires few { length self.terms ≤ 4 }
        requires limit { nat_abs (limit_of digits self) ≤ 1073741824 }
        ensures { result ≡ record { terms = self.terms; rel = self.rel; limit = limit_of digits self } }
    {
        let Sum {
            terms,
            rel,
            negative,
            limit,
        } = self;
        make_atom(terms, rel, constant(negative, constant_size(limit, digits)))
    }
}

/// A node whose numbers are not in ticks yet.
#[derive(Drop)]
pub(crate) enum Draft {
    Const(bool),
    Sum(Sum),
    /// `left` is the place of its left operand, where it has one.
    Node {
        operator: Operator,
        left: usize,
        right: usize,
    },
}
