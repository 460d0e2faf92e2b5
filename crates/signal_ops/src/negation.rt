//! Negation.
ghost use Rattle.std.specs.Prelude.{IfOk};
ghost use Rattle.pl_signal.specs.Knots.{IsWorth, start, stop};
ghost use Rattle.pl_signal.specs.Limits.{IsLimited};
ghost use Rattle.pl_signal.specs.Moves.{BasesFrom, Tells};
ghost use Rattle.pieces.specs.Negating.{Negated};

use frac128::Memory;
use pieces::{pieces_of, signal_of};
use pl_signal::Signal;
use value_laws::Shape;

/// The signal that is minus the given one at each time. Its moving shapes have the bases of moving shapes of the given one.
///
/// # Errors
///
/// `Memory` where memory is wanting.
pub fn neg<P: Shape>(s: &Signal<P>) -> Result<Signal<P>, Memory>
    requires { IsLimited P.Shape s.now }
    ensures worth { IfOk result (Tells P.Shape (Negated (IsWorth P.Shape s.now)) (start s.now) (stop s.now)) }
    ensures bases { IfOk result (BasesFrom P.Shape (λ b. b) s.now) }
{
    let mut chain = pieces_of(s)?;
    chain.negate();
    signal_of(&chain)
}
