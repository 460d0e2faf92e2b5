//! The Sup and the Inf over a window ahead, and over one behind: the same window, whose offsets are negative.
ghost use Rattle.std.specs.Prelude.{◌≡◌, ◌≤◌, ◌^◌, ◌≤ℤ◌, pos, neg_ℤ, true, IsTrue, IfSome, IfOk, IfErr};
ghost use Rattle.rational.specs.Rational.{whole};
ghost use Rattle.rational.specs.Time.{◌≤ʳ◌, ◌<ʳ◌};
ghost use Rattle.rational.specs.InPlay.{window_ahead, window_behind};
ghost use Rattle.pl_signal.specs.Wide.{HasCause};
ghost use Rattle.pieces.specs.Chains.{IsLimited, IsNormal, IsWorth, Tells, stop};
ghost use Rattle.pieces.specs.Over.{BasesAhead, BasesBehind, BasesOver, HasCauseOver, IsReach};
ghost use Rattle.pieces.specs.Windows.{AreNear, BestOver, InfAhead, InfBehind, IsSmall, SupAhead, SupBehind};

use crate::Pieces;
use crate::levels::{are_levels, over_levels};
use crate::reach::Reach;
use crate::window::{is_empty, over_window};
use pl_signal::{OpFault, Side};
use value_laws::Shape;

/// A length of time that no domain has.
const BEYOND: i64 = 4_294_967_296;

/// At each time `t` the Sup over the window from `t + a` to `t + b`, in ticks, each end in or out, met with the domain; the least
/// value where the window is empty.
///
/// Each of its shapes is constant, or has the base of a moving shape of the chain less one of the two bounds. It is refused as `Wide`
/// only for a pair that is in play in this step.
///
/// # Errors
///
/// `Wide` for a pair that is in play in this step; `Memory` where memory is wanting.
pub fn sup_ahead<P: Shape>(
    s: &Pieces<P>,
    a: u32,
    b: u32,
    low_in: bool,
    high_in: bool,
) -> Result<Pieces<P>, OpFault<P>>
    requires limited { IsLimited P.Shape s.now }
    requires near { AreNear P.Shape s.now }
    requires first { whole (pos 0) ≤ʳ s.now.from.at }
    requires last { (stop s.now).at <ʳ whole (pos (2 ^ 32)) }
    requires order { a ≤ b }
    ensures worth { IfOk result (Tells P.Shape
        (SupAhead s.now.from.at (stop s.now).at (IsWorth P.Shape s.now) P.lowest a b low_in high_in) s.now.from (stop s.now)) }
    ensures bases { IfOk result (BasesAhead P.Shape a b s.now) }
    ensures wide { IfErr result
        (HasCause P.Shape (window_ahead (IsWorth P.Shape s.now) a b low_in high_in) s.now.from.at (stop s.now).at) }
{
    best_over(Side::Greatest, s, ahead(a, b, low_in, high_in))
}

/// At each time `t` the Inf over the window from `t + a` to `t + b`, in ticks, each end in or out, met with the domain; the
/// greatest value where the window is empty.
///
/// Each of its shapes is constant, or has the base of a moving shape of the chain less one of the two bounds. It is refused as `Wide`
/// only for a pair that is in play in this step.
///
/// # Errors
///
/// `Wide` for a pair that is in play in this step; `Memory` where memory is wanting.
pub fn inf_ahead<P: Shape>(
    s: &Pieces<P>,
    a: u32,
    b: u32,
    low_in: bool,
    high_in: bool,
) -> Result<Pieces<P>, OpFault<P>>
    requires limited { IsLimited P.Shape s.now }
    requires near { AreNear P.Shape s.now }
    requires first { whole (pos 0) ≤ʳ s.now.from.at }
    requires last { (stop s.now).at <ʳ whole (pos (2 ^ 32)) }
    requires order { a ≤ b }
    ensures worth { IfOk result (Tells P.Shape
        (InfAhead s.now.from.at (stop s.now).at (IsWorth P.Shape s.now) P.highest a b low_in high_in) s.now.from (stop s.now)) }
    ensures bases { IfOk result (BasesAhead P.Shape a b s.now) }
    ensures wide { IfErr result
        (HasCause P.Shape (window_ahead (IsWorth P.Shape s.now) a b low_in high_in) s.now.from.at (stop s.now).at) }
{
    best_over(Side::Least, s, ahead(a, b, low_in, high_in))
}

/// At each time `t` the Sup over the window from `t - b` to `t - a`, in ticks, each end in or out (`low_in` is the end at
/// `t - a`), met with the domain; with no `b` it begins where the domain does. The least value where the window is empty.
///
/// Each of its shapes is constant, or has the base of a moving shape of the chain and one of the bounds. It is refused as `Wide` only
/// for a pair that is in play in this step.
///
/// # Errors
///
/// `Wide` for a pair that is in play in this step; `Memory` where memory is wanting.
pub fn sup_behind<P: Shape>(
    s: &Pieces<P>,
    a: u32,
    b: Option<u32>,
    low_in: bool,
    high_in: bool,
) -> Result<Pieces<P>, OpFault<P>>
    requires limited { IsLimited P.Shape s.now }
    requires near { AreNear P.Shape s.now }
    requires first { whole (pos 0) ≤ʳ s.now.from.at }
    requires last { (stop s.now).at <ʳ whole (pos (2 ^ 32)) }
    requires order { IfSome b (λ b. a ≤ b) }
    ensures worth { IfOk result (Tells P.Shape
        (SupBehind s.now.from.at (stop s.now).at (IsWorth P.Shape s.now) P.lowest a b low_in high_in) s.now.from (stop s.now)) }
    ensures bases { IfOk result (BasesBehind P.Shape a b s.now) }
    ensures wide { IfErr result
        (HasCause P.Shape (window_behind (IsWorth P.Shape s.now) a b low_in high_in) s.now.from.at (stop s.now).at) }
{
    best_over(Side::Greatest, s, behind(a, b, low_in, high_in))
}

/// At each time `t` the Inf over the window from `t - b` to `t - a`, in ticks, each end in or out (`low_in` is the end at
/// `t - a`), met with the domain; with no `b` it begins where the domain does. The greatest value where the window is empty.
///
/// Each of its shapes is constant, or has the base of a moving shape of the chain and one of the bounds. It is refused as `Wide` only
/// for a pair that is in play in this step.
///
/// # Errors
///
/// `Wide` for a pair that is in play in this step; `Memory` where memory is wanting.
pub fn inf_behind<P: Shape>(
    s: &Pieces<P>,
    a: u32,
    b: Option<u32>,
    low_in: bool,
    high_in: bool,
) -> Result<Pieces<P>, OpFault<P>>
    requires limited { IsLimited P.Shape s.now }
    requires near { AreNear P.Shape s.now }
    requires first { whole (pos 0) ≤ʳ s.now.from.at }
    requires last { (stop s.now).at <ʳ whole (pos (2 ^ 32)) }
    requires order { IfSome b (λ b. a ≤ b) }
    ensures worth { IfOk result (Tells P.Shape
        (InfBehind s.now.from.at (stop s.now).at (IsWorth P.Shape s.now) P.highest a b low_in high_in) s.now.from (stop s.now)) }
    ensures bases { IfOk result (BasesBehind P.Shape a b s.now) }
    ensures wide { IfErr result
        (HasCause P.Shape (window_behind (IsWorth P.Shape s.now) a b low_in high_in) s.now.from.at (stop s.now).at) }
{
    best_over(Side::Least, s, behind(a, b, low_in, high_in))
}

/// At each time the Sup or the Inf over the window, met with the domain. Over that of the one time `t` it is the chain itself.
fn best_over<P: Shape>(side: Side, s: &Pieces<P>, over: Reach) -> Result<Pieces<P>, OpFault<P>>
    requires limited { IsLimited P.Shape s.now }
    requires near { AreNear P.Shape s.now }
    requires first { whole (pos 0) ≤ʳ s.now.from.at }
    requires last { (stop s.now).at ≤ʳ whole (pos (2 ^ 32)) }
    requires small { IsSmall over }
    ensures normal { IsNormal P.Shape s.now }
    ensures told { IfOk result (Tells P.Shape (BestOver P.Shape s.now over side) s.now.from (stop s.now)) }
    ensures bases { IfOk result (BasesOver P.Shape s.now over) }
    ensures wide { IfErr result (HasCauseOver P.Shape s.now over) }
{
    // For the proof alone: that the chain is normal is a clause of `len`.
    let _ = s.len();
    if is_now(&over) {
        return Ok(s.copy()?);
    }
    if !is_empty(&over) && are_levels(s) {
        return Ok(over_levels(side, s, over)?);
    }
    over_window(side, s, over)
}

/// Whether the window has the one time `t` alone.
fn is_now(over: &Reach) -> bool
    ensures { IsTrue result → over.now ≡ record { low = pos 0; high = pos 0; low_in = true; high_in = true } }
{
    over.low == 0 && over.high == 0 && over.low_in && over.high_in
}

/// The window from `a` to `b` ticks ahead.
fn ahead(a: u32, b: u32, low_in: bool, high_in: bool) -> Reach
    requires order { a ≤ b }
    ensures low { result.low ≡ pos a }
    ensures high { result.high ≡ pos b }
    ensures low_in { result.low_in ≡ low_in }
    ensures high_in { result.high_in ≡ high_in }
    ensures small { IsSmall result }
{
    Reach {
        low: i64::from(a),
        high: i64::from(b),
        low_in,
        high_in,
    }
}

/// The window from `b` to `a` ticks behind, where `low_in` is the end at `a`.
fn behind(a: u32, b: Option<u32>, low_in: bool, high_in: bool) -> Reach
    requires order { IfSome b (λ b. a ≤ b) }
    ensures low { IsReach b result.low }
    ensures high { result.high ≡ neg_ℤ (pos a) }
    ensures low_in { result.low_in ≡ high_in }
    ensures high_in { result.high_in ≡ low_in }
    ensures small { IsSmall result }
{
    Reach {
        low: far_offset(b),
        high: -i64::from(a),
        low_in: high_in,
        high_in: low_in,
    }
}

/// The offset of the far end: beyond any domain where there is none.
fn far_offset(b: Option<u32>) -> i64
    ensures reach { IsReach b result }
    ensures small { neg_ℤ (pos (2 ^ 32)) ≤ℤ result }
{
    match b {
        Some(b) => -i64::from(b),
        None => -BEYOND,
    }
}
