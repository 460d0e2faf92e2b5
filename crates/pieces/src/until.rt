//! Until to the end.
ghost use Rattle.std.specs.Prelude.{IfOk, IfErr};
ghost use Rattle.rational.specs.Places.{Same};
ghost use Rattle.pl_signal.specs.Wide.{HasCause};
ghost use Rattle.courses.specs.Pairs.{IsPairWithin};
ghost use Rattle.pieces.specs.Chains.{IsLimited, Tells, stop};
ghost use Rattle.pieces.specs.Sinces.{BasesOfTwo, UntilOf, UntilStep};

use crate::turning::run_back;
use crate::{Pieces, since_from_start};
use pl_signal::OpFault;
use value_laws::Shape;

/// At each time t the greatest value, over the times u from t to the end, of the least of `b` at u and of all values of `a` from
/// t to u (the Sup and the Inf of them). Both begin at one place and end at one, and so does the result.
///
/// Each of its shapes is constant, or a moving shape with the base of a moving shape of one of the two. It is refused as `Wide`
/// only where a function in play in this step has a crossing or a constant value there that needs a denominator of 2^60 or more.
///
/// Definition: Donzé, Ferrère and Maler 2013, with the closed until and the finite domain of this project's profile.
///
/// # Errors
///
/// `Wide` for a pair that is in play in this step; `Memory` where memory is wanting.
pub fn until_to_end<P: Shape>(a: &Pieces<P>, b: &Pieces<P>) -> Result<Pieces<P>, OpFault<P>>
    requires left { IsLimited P.Shape a.now }
    requires right { IsLimited P.Shape b.now }
    requires begins { Same a.now.from b.now.from }
    requires ends { Same (stop a.now) (stop b.now) }
    ensures worth { IfOk result (Tells P.Shape (UntilOf P.Shape a.now b.now) a.now.from (stop a.now)) }
    ensures bases { IfOk result (BasesOfTwo P.Shape a.now b.now) }
    ensures wide { IfErr result (HasCause P.Shape (UntilStep P.Shape a.now b.now) a.now.from.at (stop a.now).at) }
    ensures pair { IfErr result (IsPairWithin a.now.from.at (stop a.now).at) }
{
    // For the proof alone: that both are normal is a clause of `len`.
    let _ = a.len();
    let _ = b.len();
    // Both sides that run back are gone before the since runs back.
    let told = {
        let left = run_back(a)?;
        let right = run_back(b)?;
        since_from_start(&left, &right)
    };
    match told {
        Ok(since) => Ok(run_back(&since)?),
        Err(fault) => Err(fault.mirrored(0)),
    }
}
