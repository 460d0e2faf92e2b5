//! The least and the greatest of two signals.
ghost use Rattle.std.specs.Prelude.{◌⊎◌, IfOk, IfErr};
ghost use Rattle.rational.specs.Time.{◌≈◌};
ghost use Rattle.pl_signal.specs.Knots.{HasShape, IsWorth, start, stop};
ghost use Rattle.pl_signal.specs.Limits.{IsLimited};
ghost use Rattle.pl_signal.specs.Moves.{Tells};
ghost use Rattle.pl_signal.specs.Wide.{HasCause};
ghost use Rattle.rational.specs.InPlay.{of_two};
ghost use Rattle.signal_ops.specs.Pointwise.{GreatestOf, IsFault, LeastOf, NamesShapes};

use pieces::{pieces_of, signal_of};
use pl_signal::{OpFault, Signal};
use value_laws::Shape;

/// The least of two signals at each time; both have one domain. Each of its shapes is a shape of one of them.
///
/// It is refused as `Wide` only where a part of each on a common open gap have a crossing there whose time needs a denominator
/// of 2^60 or more.
///
/// # Errors
///
/// `Wide` as said above; `Memory` where memory is wanting.
pub fn lower<P: Shape>(a: &Signal<P>, b: &Signal<P>) -> Result<Signal<P>, OpFault<P>>
    requires left { IsLimited P.Shape a.now }
    requires right { IsLimited P.Shape b.now }
    requires begins { start a.now ≈ start b.now }
    requires ends { stop a.now ≈ stop b.now }
    ensures worth { IfOk result
        (Tells P.Shape (LeastOf (IsWorth P.Shape a.now) (IsWorth P.Shape b.now)) (start a.now) (stop a.now)) }
    ensures shapes { IfOk result (λ r. (p : P) → HasShape r p → HasShape a.now p ⊎ HasShape b.now p) }
    ensures wide { IfErr result
        (IsFault P.Shape (IsWorth P.Shape a.now) (IsWorth P.Shape b.now) (start a.now) (stop a.now)) }
    ensures named { IfErr result (NamesShapes a.now b.now) }
    ensures cause { IfErr result (HasCause P.Shape (of_two (IsWorth P.Shape a.now) (IsWorth P.Shape b.now))
        (start a.now) (stop a.now)) }
{
    let left = pieces_of(a)?;
    let right = pieces_of(b)?;
    let least = pieces::lower(&left, &right)?;
    Ok(signal_of(&least)?)
}

/// The greatest of two signals at each time; both have one domain. Each of its shapes is a shape of one of them.
///
/// It is refused as `Wide` only where a part of each on a common open gap have a crossing there whose time needs a denominator
/// of 2^60 or more.
///
/// # Errors
///
/// `Wide` as said above; `Memory` where memory is wanting.
pub fn upper<P: Shape>(a: &Signal<P>, b: &Signal<P>) -> Result<Signal<P>, OpFault<P>>
    requires left { IsLimited P.Shape a.now }
    requires right { IsLimited P.Shape b.now }
    requires begins { start a.now ≈ start b.now }
    requires ends { stop a.now ≈ stop b.now }
    ensures worth { IfOk result
        (Tells P.Shape (GreatestOf (IsWorth P.Shape a.now) (IsWorth P.Shape b.now)) (start a.now) (stop a.now)) }
    ensures shapes { IfOk result (λ r. (p : P) → HasShape r p → HasShape a.now p ⊎ HasShape b.now p) }
    ensures wide { IfErr result
        (IsFault P.Shape (IsWorth P.Shape a.now) (IsWorth P.Shape b.now) (start a.now) (stop a.now)) }
    ensures named { IfErr result (NamesShapes a.now b.now) }
    ensures cause { IfErr result (HasCause P.Shape (of_two (IsWorth P.Shape a.now) (IsWorth P.Shape b.now))
        (start a.now) (stop a.now)) }
{
    let left = pieces_of(a)?;
    let right = pieces_of(b)?;
    let greatest = pieces::upper(&left, &right)?;
    Ok(signal_of(&greatest)?)
}
