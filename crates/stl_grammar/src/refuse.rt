//! Whether something is wrong at a token, and what.
ghost use Rattle.std.specs.Prelude.{◌≡◌, ◌⊎◌, ◌≤◌, ◌<◌, ◌*◌, ◌^◌, length, nat_lt, not, true, false, Some, None, MatchResult};
ghost use Rattle.stl_grammar.specs.FormulaRefusals.{opens_bound as begins_bound, passes_limit};
ghost use Rattle.stl_grammar.specs.Parsing.{parse_step, IsKnown};
ghost use Rattle.stl_grammar.specs.Operators.{timed_word};
ghost use Rattle.stl_grammar.specs.Refusing.{bad_in, disorder_in, fifth_in, late_in, refused, unbounded_in, future_in};

use crate::chars::is_blank;
use crate::decimal::Decimal;
use crate::fault::{FormulaFault, What};
use crate::operator::Timed;
use crate::parser::Parser;
use crate::place::Place;
use crate::token::{Keyword, Token};

/// How many nodes a formula may have.
const MOST_NODES: u32 = 256;

/// How many terms an atom may have.
const MOST_TERMS: usize = 4;

/// Whether a bracket that may open a bound of the operator comes next, blanks aside.
fn opens_bound(of: Timed, rest: &[u8]) -> bool
    ensures { result ≡ begins_bound (timed_word of) rest.now }
{
    for c in rest {
        if !is_blank(*c) {
            return match of {
                Timed::Until => *c == b'[',
                _ => *c == b'[' || *c == b']',
            };
        }
    }
    false
}

/// Whether the upper end of a bound that looks ahead comes next.
fn is_future_end(place: Place) -> bool
    ensures { result ≡ future_in place }
{
    match place {
        Place::High { of, .. } => !of.looks_back(),
        _ => false,
    }
}

/// Whether the number passes the limit of a coefficient.
fn passes_coefficient(number: Decimal) -> bool
    ensures { result ≡ passes_limit What.Operand number.value number.decimals }
{
    number.decimals > 0 || number.value > 16
}

/// Whether the number passes the limit of a constant.
fn passes_constant(number: Decimal) -> bool
    ensures { result ≡ passes_limit What.Constant number.value number.decimals }
{
    number.decimals > 6 || number.value > 1_073_741_824
}

/// Whether the number passes the limit of a bound.
fn passes_bound(number: Decimal) -> bool
    ensures { result ≡ passes_limit What.Number number.value number.decimals }
{
    number.decimals > 6
}

/// Whether the token is a number that passes its limit.
fn is_bad_number(place: Place, token: Token) -> bool
    ensures { result ≡ bad_in place token }
{
    match token {
        Token::Number(number) => match place {
            Place::Low { .. } | Place::High { .. } => passes_bound(number),
            Place::Constant { .. } | Place::Number { .. } => passes_constant(number),
            _ => passes_coefficient(number),
        },
        _ => false,
    }
}

/// Whether the first number is less than the second.
fn is_less(number: Decimal, other: Decimal) -> bool
    ensures { result ≡ nat_lt (number.value * 10 ^ other.decimals) (other.value * 10 ^ number.decimals) }
{
    u64::from(number.value) * 10u64.pow(u32::from(other.decimals))
        < u64::from(other.value) * 10u64.pow(u32::from(number.decimals))
}

/// Whether the token is an upper bound that is less than the lower.
fn is_out_of_order(place: Place, token: Token) -> bool
    ensures { result ≡ disorder_in place token }
{
    match (place, token) {
        (Place::High { low, .. }, Token::Number(high)) => is_less(high, low),
        _ => false,
    }
}

/// Whether the token is an operator that looks ahead without a bound, or the end of its bound that is infinite.
fn is_unbounded(place: Place, token: Token, rest: &[u8]) -> bool
    ensures { result ≡ unbounded_in place token rest.now }
{
    match token {
        Token::Keyword(word) => match word {
            Keyword::Timed(of) => !of.looks_back() && !opens_bound(of, rest),
            Keyword::Inf => is_future_end(place),
            _ => false,
        },
        _ => false,
    }
}

/// Whether the token is a sign after the fourth term.
fn begins_fifth_term(place: Place, terms: usize, token: Token) -> bool
    ensures { result ≡ fifth_in place terms token }
{
    match (place, token) {
        (Place::Sign, Token::Plus | Token::Minus) => terms == MOST_TERMS,
        _ => false,
    }
}

/// The refusals that are tried last.
fn late_fault(place: Place, terms: usize, token: Token, at: u32) -> Option<FormulaFault>
    ensures { result ≡ late_in place terms token at }
{
    if begins_fifth_term(place, terms, token) {
        return Some(FormulaFault::TooManyTerms { at });
    }
    if is_bad_number(place, token) {
        return Some(FormulaFault::BadNumber { at });
    }
    if is_out_of_order(place, token) {
        return Some(FormulaFault::BoundOrder { at });
    }
    None
}

/// Takes a token at place `at` of the text, before the rest of it, or refuses it.
pub(crate) fn take(
    parser: &mut Parser,
    text: &[u8],
    token: Token,
    rest: &[u8],
    at: u32,
) -> Result<(), FormulaFault>
    requires made { parser.old.made ≤ 256 }
    requires known { IsKnown text.now token }
    ensures { MatchResult result
        (λ _. (refused text.now parser.old token rest.now at ≡ None) × (parse_step text.now parser.old token ≡ Some parser.new))
        (λ e. (e ≡ FormulaFault.Memory) ⊎ (refused text.now parser.old token rest.now at ≡ Some e)) }
{
    let place = parser.place();
    if is_unbounded(place, token, rest) {
        return Err(FormulaFault::UnboundedFuture { at });
    }
    let what = parser.expected();
    let late = late_fault(place, parser.terms(), token, at);
    match parser.step(text, token) {
        Ok(true) => {}
        Ok(false) => return Err(FormulaFault::Expected { at, what }),
        Err(_) => return Err(FormulaFault::Memory),
    }
    if parser.is_too_deep() {
        return Err(FormulaFault::TooDeep { at });
    }
    if parser.made() > MOST_NODES {
        return Err(FormulaFault::TooManyNodes { at });
    }
    match late {
        Some(fault) => Err(fault),
        None => Ok(()),
    }
}
