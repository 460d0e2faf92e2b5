//! Which bounds an operator takes, and what is open after it.
ghost use Rattle.std.specs.Prelude.{◌≡◌, ◌<◌, ◌≤◌, IfOk, option_map};
ghost use Rattle.stl_grammar.specs.Operators.{is_beside};
ghost use Rattle.stl_grammar.specs.Machine.{bound_of};
ghost use Rattle.stl_grammar.specs.States.{place_in};
ghost use Rattle.stl_grammar.specs.Parsing.{rank, opening as opening_of, closing as closing_of, bound as bound_from};
ghost use Rattle.stl_grammar.specs.Parsing.{next_place as place_after, coefficient as coefficient_of};
ghost use Rattle.stl_grammar.specs.Parsing.{node_of_frame, folded_frames, folded_drafts};

use crate::decimal::Decimal;
use crate::draft::{Bound, Draft, Frame, Window};
use crate::frames::Frames;
use crate::operator::Timed;
use crate::place::Place;
use crate::token::{Keyword, Token};
use std::alloc::AllocError;

/// Whether the lower end is in, where the token is a bracket that opens the bound of the operator.
pub(crate) fn opening(of: Timed, token: Token) -> Option<bool>
    ensures { result ≡ opening_of of token }
{
    match token {
        Token::OpenBracket => Some(true),
        Token::CloseBracket => { if of.may_be_open() { Some(false) } else { None } }
        _ => None,
    }
}

/// Whether the upper end is in, where the token is a bracket that closes the bound of the operator.
pub(crate) fn closing(of: Timed, token: Token) -> Option<bool>
    ensures { result ≡ closing_of of token }
{
    match token {
        Token::CloseBracket => Some(true),
        Token::OpenBracket => { if of.may_be_open() { Some(false) } else { None } }
        _ => None,
    }
}

/// A bound that was not left out; an infinite end is neither in nor out.
pub(crate) fn bound(low_in: bool, low: Decimal, high: Option<Decimal>, high_in: bool) -> Bound
    ensures { result ≡ bound_from low_in low high high_in }
{
    match high {
        Some(high) => Bound::Within(Window {
            low,
            high,
            low_in,
            high_in,
        }),
        None => Bound::From { low, low_in },
    }
}

/// The place after a token that changes nothing else.
pub(crate) fn next_place(place: Place, token: Token) -> Option<Place>
    ensures { result ≡ place_after place token }
{
    match (place, token) {
        (Place::Low { of, low_in }, Token::Number(low)) => Some(Place::Comma { of, low_in, low }),
        (Place::Comma { of, low_in, low }, Token::Comma) => Some(Place::High { of, low_in, low }),
        (Place::High { of, low_in, low }, Token::Number(high)) => Some(Place::Closing {
            of,
            low_in,
            low,
            high: Some(high),
        }),
        (Place::High { of, low_in, low }, Token::Keyword(Keyword::Inf)) => {
            if !of.looks_back() {
                return None;
            }
            Some(Place::Closing {
                of,
                low_in,
                low,
                high: None,
            })
        }
        (Place::Term { negative }, Token::Number(coef)) => Some(Place::Star { negative, coef }),
        (Place::Star { negative, coef }, Token::Star) => Some(Place::Name { negative, coef }),
        (Place::Sign, Token::Plus) => Some(Place::Term { negative: false }),
        (Place::Sign, Token::Minus) => Some(Place::Term { negative: true }),
        (Place::Sign, Token::Relation(rel)) => Some(Place::Constant { rel }),
        (Place::Constant { rel }, Token::Plus) => Some(Place::Number {
            rel,
            negative: false,
        }),
        (Place::Constant { rel }, Token::Minus) => Some(Place::Number {
            rel,
            negative: true,
        }),
        _ => None,
    }
}

/// A number as a coefficient; one above 16 is refused, and counts as 16 until then.
pub(crate) fn coefficient(number: Decimal) -> u8
    ensures value { result ≡ coefficient_of number }
    ensures limit { result ≤ 16 }
{
    if number.value <= 16 {
        number.value as u8
    } else {
        16
    }
}

/// The node of an operator whose last operand is at place `last`.
pub(crate) fn node_of(frame: Frame, last: usize) -> Draft
    requires { 0 < rank frame }
    ensures { result ≡ node_of_frame frame last }
{
    match frame {
        Frame::Paren => unreachable!(),
        Frame::Operator { operator, left } => Draft::Node {
            operator,
            left,
            right: last,
        },
    }
}

/// Ends the operators that bind at least so tightly: the node of each follows that of its last operand.
pub(crate) fn fold(
    frames: &mut Frames,
    drafts: &mut Vec<Draft>,
    least: u8,
) -> Result<(), AllocError>
    requires { 0 < least }
    ensures frames { IfOk result (λ _. frames.new ≡ folded_frames least frames.old) }
    ensures drafts { IfOk result (λ _. drafts.new.items ≡ folded_drafts least frames.old drafts.old.items) }
{
    while let Some(frame) = frames.pop_from(least) {
        let last = drafts.len().saturating_sub(1);
        drafts.push(node_of(frame, last))?;
    }
    Ok(())
}

/// In a bound, whether it is that of an operator beside an operand.
pub(crate) fn in_bound(place: Place) -> Option<bool>
    ensures { result ≡ option_map is_beside (bound_of (place_in place)) }
{
    match place {
        Place::Bound { of }
        | Place::Low { of, .. }
        | Place::Comma { of, .. }
        | Place::High { of, .. }
        | Place::Closing { of, .. } => Some(of.is_beside()),
        _ => None,
    }
}
