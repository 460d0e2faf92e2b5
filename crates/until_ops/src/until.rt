//! Until to the end.
ghost use Rattle.std.specs.Prelude.{IfOk, IfErr};
ghost use Rattle.rational.specs.Time.{◌≈◌};
ghost use Rattle.pl_signal.specs.Knots.{start, stop};
ghost use Rattle.pl_signal.specs.Limits.{IsLimited};
ghost use Rattle.pl_signal.specs.Moves.{Tells};
ghost use Rattle.pl_signal.specs.Wide.{HasCause};
ghost use Rattle.until_ops.specs.Untils.{BasesOfTwo, UntilOf, UntilStep};
ghost use Rattle.courses.specs.Pairs.{IsPairWithin};

use pieces::{pieces_of, signal_of};
use pl_signal::{OpFault, Signal};
use value_laws::Shape;

/// At each time t the greatest value, over the times u from t to the end, of the least of `q` at u and of all values of `p` from
/// t to u (the Sup and the Inf of them). Both have one domain, and so has the result.
///
/// Each of its shapes is constant, or a moving shape with the base of a moving shape of one of the two. It is refused as `Wide`
/// only where a function in play in this step has a crossing or a constant value there that needs a denominator of 2^60 or more.
///
/// Definition: Donzé, Ferrère and Maler 2013, with the closed until and the finite domain of this project's profile.
///
/// # Errors
///
/// `Wide` for a pair that is in play in this step; `Memory` where memory is wanting.
pub fn until_to_end<P: Shape>(p: &Signal<P>, q: &Signal<P>) -> Result<Signal<P>, OpFault<P>>
    requires left { IsLimited P.Shape p.now }
    requires right { IsLimited P.Shape q.now }
    requires begins { start p.now ≈ start q.now }
    requires ends { stop p.now ≈ stop q.now }
    ensures worth { IfOk result
        (Tells P.Shape (UntilOf P.Shape p.now q.now) (start p.now) (stop p.now)) }
    ensures bases { IfOk result (BasesOfTwo P.Shape p.now q.now) }
    ensures wide { IfErr result
        (HasCause P.Shape (UntilStep P.Shape p.now q.now) (start p.now) (stop p.now)) }
    ensures pair { IfErr result (IsPairWithin (start p.now) (stop p.now)) }
{
    let left = pieces_of(p)?;
    let right = pieces_of(q)?;
    let until = pieces::until_to_end(&left, &right)?;
    Ok(signal_of(&until)?)
}
