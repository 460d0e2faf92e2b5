//! Numbers of a formula in ticks of its scale.
ghost use Rattle.std.specs.Prelude.{◌≡◌, ◌≤◌, ◌<◌, ℕ, ◌-◌, ◌*◌, ◌^◌, All};
ghost use Rattle.stl_syntax.specs.PostOrder.{children};
ghost use Rattle.stl_syntax.specs.Limits.{own_reach as reach_of, reach_of_bound};
ghost use Rattle.stl_syntax.specs.WellFormed.{IsInOrder, HasBounds};
ghost use Rattle.stl_grammar.specs.Building.{signed_size};
ghost use Rattle.stl_grammar.specs.Drafts.{ticks_of, bound_low, bound_high, bound_low_in, bound_high_in, operator_node};
ghost use Rattle.stl_grammar.specs.Operators.{connective_node, timed_node};

use crate::decimal::Decimal;
use crate::draft::{Bound, Operator};
use crate::operator::{Connective, Timed};
use stl_syntax::Node;

/// How many ticks of so many digits the last decimal is worth.
fn power(digits: u8, decimals: u8) -> u64
    requires { digits ≤ 6 }
    ensures value { result ≡ 10 ^ (digits - decimals) }
    ensures most { result ≤ 1000000 }
{
    10u64.pow(u32::from(digits.saturating_sub(decimals)))
}

/// So many times a power of ten.
fn product(value: u32, power: u64) -> u64
    requires { power ≤ 1000000 }
    ensures value { result ≡ value * power }
    ensures small { result ≤ 4294967295000000 }
{
    u64::from(value) * power
}

/// The number in ticks of so many digits.
fn ticks(number: Decimal, digits: u8) -> u64
    requires { digits ≤ 6 }
    ensures value { result ≡ ticks_of digits number }
    ensures small { result ≤ 4294967295000000 }
{
    product(number.value, power(digits, number.decimals))
}

/// An end of a bound in ticks.
fn end(number: Decimal, digits: u8) -> u32
    requires digits { digits ≤ 6 }
    requires small { ticks_of digits number ≤ 4294967295 }
    ensures { result ≡ ticks_of digits number }
{
    ticks(number, digits) as u32
}

/// The ends of a bound, of which the upper one may be wanting.
fn ends(of: Bound, digits: u8) -> (u32, Option<u32>)
    requires digits { digits ≤ 6 }
    requires order { IsInOrder (bound_low digits of) (bound_high digits of) }
    requires reach { reach_of_bound (bound_low digits of) (bound_high digits of) ≤ 4294967295 }
    ensures low { result.0 ≡ bound_low digits of }
    ensures high { result.1 ≡ bound_high digits of }
{
    match of {
        Bound::Whole => (0, None),
        Bound::From { low, .. } => (end(low, digits), None),
        Bound::Within(window) => (end(window.low, digits), Some(end(window.high, digits))),
    }
}

/// Whether the ends of a bound are in.
fn ends_in(of: Bound) -> (bool, bool)
    ensures low { result.0 ≡ bound_low_in of }
    ensures high { result.1 ≡ bound_high_in of }
{
    match of {
        Bound::Whole => (true, true),
        Bound::From { low_in, .. } => (low_in, true),
        Bound::Within(window) => (window.low_in, window.high_in),
    }
}

/// The constant of a comparison in ticks, without its sign.
pub(crate) fn constant_size(number: Decimal, digits: u8) -> u64
    requires { digits ≤ 6 }
    ensures { result ≡ ticks_of digits number }
{
    ticks(number, digits)
}

/// What a bound adds to the reach: its upper end, or its lower one where it has no upper.
fn bound_reach(of: Bound, digits: u8) -> u64
    requires { digits ≤ 6 }
    ensures value { result ≡ reach_of_bound (bound_low digits of) (bound_high digits of) }
    ensures small { result ≤ 4294967295000000 }
{
    match of {
        Bound::Whole => 0,
        Bound::From { low, .. } => ticks(low, digits),
        Bound::Within(window) => ticks(window.high, digits),
    }
}

/// What an operator adds to the reach.
pub(crate) fn operator_reach(operator: Operator, digits: u8) -> u64
    requires { digits ≤ 6 }
    ensures value { (left right : ℕ) → result ≡ reach_of (operator_node digits operator left right) }
    ensures small { result ≤ 4294967295000000 }
{
    match operator {
        Operator::Not | Operator::Connective(_) => 0,
        Operator::Timed(_, of) => bound_reach(of, digits),
    }
}

/// The node of a connective.
fn connective(connective: Connective, left: usize, right: usize) -> Node
    requires { All (λ p. p < 4294967296) (children (connective_node connective left right)) }
    ensures { result ≡ connective_node connective left right }
{
    match connective {
        Connective::And => Node::And(left as u32, right as u32),
        Connective::Or => Node::Or(left as u32, right as u32),
        Connective::Implies => Node::Implies(left as u32, right as u32),
    }
}

/// The last end of a bound that is no infinite one.
fn last_end(low: u32, high: Option<u32>) -> u32
    ensures { result ≡ reach_of_bound low high }
{
    match high {
        Some(high) => high,
        None => low,
    }
}

/// The node of an operator with a bound from `low` to `high`; one that looks ahead always has an upper end.
fn timed(
    of: Timed,
    low: u32,
    high: Option<u32>,
    low_in: bool,
    high_in: bool,
    left: usize,
    right: usize,
) -> Node
    requires { All (λ p. p < 4294967296) (children (timed_node of low high low_in high_in left right)) }
    ensures { result ≡ timed_node of low high low_in high_in left right }
{
    let last = last_end(low, high);
    match of {
        Timed::Until => Node::Until {
            left: left as u32,
            right: right as u32,
            low,
            high: last,
        },
        Timed::Since => Node::Since {
            left: left as u32,
            right: right as u32,
            low,
            high,
        },
        Timed::Eventually => Node::Eventually {
            of: right as u32,
            low,
            high: last,
            low_in,
            high_in,
        },
        Timed::Always => Node::Always {
            of: right as u32,
            low,
            high: last,
            low_in,
            high_in,
        },
        Timed::Once => Node::Once {
            of: right as u32,
            low,
            high,
            low_in,
            high_in,
        },
        Timed::Historically => Node::Historically {
            of: right as u32,
            low,
            high,
            low_in,
            high_in,
        },
    }
}

/// The node of an operator with its left operand, where it has one, and its last one.
pub(crate) fn node(operator: Operator, left: usize, right: usize, digits: u8) -> Node
    requires digits { digits ≤ 6 }
    requires children { All (λ p. p < 4294967296) (children (operator_node digits operator left right)) }
    requires bounds { HasBounds (operator_node digits operator left right) }
    requires reach { reach_of (operator_node digits operator left right) ≤ 4294967295 }
    ensures { result ≡ operator_node digits operator left right }
{
    match operator {
        Operator::Not => Node::Not(right as u32),
        Operator::Connective(joins) => connective(joins, left, right),
        Operator::Timed(of, window) => {
            let (low, high) = ends(window, digits);
            let (low_in, high_in) = ends_in(window);
            timed(of, low, high, low_in, high_in, left, right)
        }
    }
}

/// The constant in ticks, with its sign.
pub(crate) fn constant(negative: bool, size: u64) -> i32
    requires { size ≤ 1073741824 }
    ensures { result ≡ signed_size negative size }
{
    if negative {
        -(size as i32)
    } else {
        size as i32
    }
}
