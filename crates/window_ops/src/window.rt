//! The Sup and the Inf over a window ahead.
ghost use Rattle.std.specs.Prelude.{◌≤◌, ◌^◌, pos, IfOk, IfErr};
ghost use Rattle.rational.specs.Rational.{whole};
ghost use Rattle.rational.specs.Time.{◌≤ʳ◌, ◌<ʳ◌};
ghost use Rattle.rational.specs.InPlay.{window_ahead};
ghost use Rattle.pl_signal.specs.Knots.{IsWorth, start, stop};
ghost use Rattle.pl_signal.specs.Limits.{IsLimited};
ghost use Rattle.pl_signal.specs.Moves.{Tells};
ghost use Rattle.pl_signal.specs.Wide.{HasCause};
ghost use Rattle.window_ops.specs.Conditions.{AreNear, BasesAhead};
ghost use Rattle.pieces.specs.Windows.{InfAhead, SupAhead};

use pieces::{inf_ahead, pieces_of, signal_of, sup_ahead};
use pl_signal::{OpFault, Signal};
use value_laws::Shape;

/// At each time `t` the Sup over the window from `t + a` to `t + b`, in ticks, each end in or out, met with the domain; the least
/// value where the window is empty.
///
/// It is refused as `Wide` only for a pair that is in play in this step.
///
/// # Errors
///
/// `Wide` for a pair that is in play in this step; `Memory` where memory is wanting.
pub fn sup_window<P: Shape>(
    s: &Signal<P>,
    a: u32,
    b: u32,
    low_in: bool,
    high_in: bool,
) -> Result<Signal<P>, OpFault<P>>
    requires limited { IsLimited P.Shape s.now }
    requires first { whole (pos 0) ≤ʳ start s.now }
    requires last { stop s.now <ʳ whole (pos (2 ^ 32)) }
    requires near { AreNear P.Shape s.now }
    requires order { a ≤ b }
    ensures worth { IfOk result (Tells P.Shape (SupAhead (start s.now) (stop s.now) (IsWorth P.Shape s.now) P.lowest a b low_in high_in)
        (start s.now) (stop s.now)) }
    ensures bases { IfOk result (BasesAhead P.Shape a b s.now) }
    ensures wide { IfErr result (HasCause P.Shape (window_ahead (IsWorth P.Shape s.now) a b low_in high_in) (start s.now) (stop s.now)) }
{
    let chain = pieces_of(s)?;
    let best = sup_ahead(&chain, a, b, low_in, high_in)?;
    Ok(signal_of(&best)?)
}

/// At each time `t` the Inf over the window from `t + a` to `t + b`, in ticks, each end in or out, met with the domain; the
/// greatest value where the window is empty.
///
/// It is refused as `Wide` only for a pair that is in play in this step.
///
/// # Errors
///
/// `Wide` for a pair that is in play in this step; `Memory` where memory is wanting.
pub fn inf_window<P: Shape>(
    s: &Signal<P>,
    a: u32,
    b: u32,
    low_in: bool,
    high_in: bool,
) -> Result<Signal<P>, OpFault<P>>
    requires limited { IsLimited P.Shape s.now }
    requires first { whole (pos 0) ≤ʳ start s.now }
    requires last { stop s.now <ʳ whole (pos (2 ^ 32)) }
    requires near { AreNear P.Shape s.now }
    requires order { a ≤ b }
    ensures worth { IfOk result (Tells P.Shape (InfAhead (start s.now) (stop s.now) (IsWorth P.Shape s.now) P.highest a b low_in high_in)
        (start s.now) (stop s.now)) }
    ensures bases { IfOk result (BasesAhead P.Shape a b s.now) }
    ensures wide { IfErr result (HasCause P.Shape (window_ahead (IsWorth P.Shape s.now) a b low_in high_in) (start s.now) (stop s.now)) }
{
    let chain = pieces_of(s)?;
    let best = inf_ahead(&chain, a, b, low_in, high_in)?;
    Ok(signal_of(&best)?)
}
