//! The Sup and the Inf over a window behind.
ghost use Rattle.std.specs.Prelude.{◌≤◌, ◌^◌, ◌-◌, pos, IfSome, IfOk, IfErr};
ghost use Rattle.rational.specs.Rational.{whole};
ghost use Rattle.rational.specs.Time.{◌≤ʳ◌};
ghost use Rattle.rational.specs.InPlay.{window_behind};
ghost use Rattle.pl_signal.specs.Knots.{IsWorth, start, stop};
ghost use Rattle.pl_signal.specs.Limits.{IsLimited};
ghost use Rattle.pl_signal.specs.Moves.{Tells};
ghost use Rattle.pl_signal.specs.Wide.{HasCause};
ghost use Rattle.window_ops.specs.Conditions.{AreNear, BasesBehind};
ghost use Rattle.pieces.specs.Windows.{InfBehind, SupBehind};

use pieces::{inf_behind, pieces_of, signal_of, sup_behind};
use pl_signal::{OpFault, Signal};
use value_laws::Shape;

/// At each time `t` the Sup over the window from `t - b` to `t - a`, in ticks, each end in or out (`low_in` is the end at
/// `t - a`), met with the domain; with no `b` it begins where the domain does. The least value where the window is empty.
///
/// It is refused as `Wide` only for a pair that is in play in this step.
///
/// # Errors
///
/// `Wide` for a pair that is in play in this step; `Memory` where memory is wanting.
pub fn sup_past<P: Shape>(
    s: &Signal<P>,
    a: u32,
    b: Option<u32>,
    low_in: bool,
    high_in: bool,
) -> Result<Signal<P>, OpFault<P>>
    requires limited { IsLimited P.Shape s.now }
    requires first { whole (pos 0) ≤ʳ start s.now }
    requires last { stop s.now ≤ʳ whole (pos (2 ^ 32 - 1)) }
    requires near { AreNear P.Shape s.now }
    requires order { IfSome b (λ b. a ≤ b) }
    ensures worth { IfOk result (Tells P.Shape (SupBehind (start s.now) (stop s.now) (IsWorth P.Shape s.now) P.lowest a b low_in high_in)
        (start s.now) (stop s.now)) }
    ensures bases { IfOk result (BasesBehind P.Shape a b s.now) }
    ensures wide { IfErr result (HasCause P.Shape (window_behind (IsWorth P.Shape s.now) a b low_in high_in) (start s.now) (stop s.now)) }
{
    let chain = pieces_of(s)?;
    let best = sup_behind(&chain, a, b, low_in, high_in)?;
    Ok(signal_of(&best)?)
}

/// At each time `t` the Inf over the window from `t - b` to `t - a`, in ticks, each end in or out (`low_in` is the end at
/// `t - a`), met with the domain; with no `b` it begins where the domain does. The greatest value where the window is empty.
///
/// It is refused as `Wide` only for a pair that is in play in this step.
///
/// # Errors
///
/// `Wide` for a pair that is in play in this step; `Memory` where memory is wanting.
pub fn inf_past<P: Shape>(
    s: &Signal<P>,
    a: u32,
    b: Option<u32>,
    low_in: bool,
    high_in: bool,
) -> Result<Signal<P>, OpFault<P>>
    requires limited { IsLimited P.Shape s.now }
    requires first { whole (pos 0) ≤ʳ start s.now }
    requires last { stop s.now ≤ʳ whole (pos (2 ^ 32 - 1)) }
    requires near { AreNear P.Shape s.now }
    requires order { IfSome b (λ b. a ≤ b) }
    ensures worth { IfOk result (Tells P.Shape (InfBehind (start s.now) (stop s.now) (IsWorth P.Shape s.now) P.highest a b low_in high_in)
        (start s.now) (stop s.now)) }
    ensures bases { IfOk result (BasesBehind P.Shape a b s.now) }
    ensures wide { IfErr result (HasCause P.Shape (window_behind (IsWorth P.Shape s.now) a b low_in high_in) (start s.now) (stop s.now)) }
{
    let chain = pieces_of(s)?;
    let best = inf_behind(&chain, a, b, low_in, high_in)?;
    Ok(signal_of(&best)?)
}
