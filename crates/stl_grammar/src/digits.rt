//! How many decimals the tokens of a formula have, for its constants and for its bounds.
ghost use Rattle.std.specs.Prelude.{◌≡◌};
ghost use Rattle.stl_grammar.specs.Building.{decimals_of, decimals_first, value_decimals as value_digits, time_decimals as time_digits, about_comma};

use crate::token::Token;

/// The decimals of the number that comes first, if one does.
fn decimals_of(tokens: &[Token]) -> u8
    ensures { result ≡ decimals_of tokens.now }
{
    match tokens.first() {
        Some(token) => match *token {
            Token::Number(number) => number.decimals,
            _ => 0,
        },
        None => 0,
    }
}

/// The decimals of the number with which the tokens begin, after a sign or without one.
fn first_decimals(tokens: &[Token]) -> u8
    ensures { result ≡ decimals_first tokens.now }
{
    match tokens.split_first() {
        Some((first, rest)) => match *first {
            Token::Plus | Token::Minus => decimals_of(rest),
            _ => decimals_of(tokens),
        },
        None => 0,
    }
}

/// The decimals of two numbers with a comma between them, of which the first has `decimals`.
fn about_comma(decimals: u8, tokens: &[Token]) -> u8
    ensures { result ≡ about_comma decimals tokens.now }
{
    match tokens.split_first() {
        Some((first, rest)) => match *first {
            Token::Comma => decimals.max(first_decimals(rest)),
            _ => 0,
        },
        None => 0,
    }
}

/// The most decimals of a constant.
pub(crate) fn value_decimals(tokens: &[Token]) -> u8
    ensures { result ≡ value_digits tokens.now }
{
    let mut digits = 0;
    for (i, token) in tokens.iter().enumerate() {
        if let Token::Relation(_) = *token {
            digits = digits.max(first_decimals(&tokens[i + 1..]));
        }
    }
    digits
}

/// The most decimals of a bound.
pub(crate) fn time_decimals(tokens: &[Token]) -> u8
    ensures { result ≡ time_digits tokens.now }
{
    let mut digits = 0;
    for (i, token) in tokens.iter().enumerate() {
        if let Token::Number(number) = *token {
            digits = digits.max(about_comma(number.decimals, &tokens[i + 1..]));
        }
    }
    digits
}
