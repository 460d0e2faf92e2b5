//! The least and the greatest of two chains of pieces.
ghost use Rattle.std.specs.Prelude.{◌⊎◌, IfOk, IfErr};
ghost use Rattle.rational.specs.Places.{Same};
ghost use Rattle.rational.specs.InPlay.{of_two};
ghost use Rattle.pl_signal.specs.Joining.{ChosenOf};
ghost use Rattle.pl_signal.specs.Wide.{HasCause};
ghost use Rattle.pl_signal.specs.declared.joining.Side.TheVariants.{Least, Greatest};
ghost use Rattle.pieces.specs.Chains.{HasShape, IsLimited, IsWorth, Tells, stop};
ghost use Rattle.pieces.specs.Joining.{IsJoinFault};

use crate::Pieces;
use crate::next::{next_of, passed};
use frac128::Memory;
use pl_signal::{OpFault, Side, fault_of};
use value_laws::Shape;

/// The least of two chains at each time; both begin at one place and end at one. Each of its shapes is a shape of one of them.
///
/// It is refused as `Wide` only where a part of each on a common open gap have a crossing there whose time needs a denominator
/// of 2^60 or more.
///
/// # Errors
///
/// `Wide` as said above; `Memory` where memory is wanting.
pub fn lower<P: Shape>(a: &Pieces<P>, b: &Pieces<P>) -> Result<Pieces<P>, OpFault<P>>
    requires left { IsLimited P.Shape a.now }
    requires right { IsLimited P.Shape b.now }
    requires begins { Same a.now.from b.now.from }
    requires ends { Same (stop a.now) (stop b.now) }
    ensures worth { IfOk result
        (Tells P.Shape (ChosenOf Least (IsWorth P.Shape a.now) (IsWorth P.Shape b.now)) a.now.from (stop a.now)) }
    ensures shapes { IfOk result (λ r. (p : P) → HasShape r p → HasShape a.now p ⊎ HasShape b.now p) }
    ensures wide { IfErr result (IsJoinFault P.Shape a.now b.now) }
    ensures cause { IfErr result (HasCause P.Shape (of_two (IsWorth P.Shape a.now) (IsWorth P.Shape b.now))
        a.now.from.at (stop a.now).at) }
{
    combined(Side::Least, a, b)
}

/// The greatest of two chains at each time; both begin at one place and end at one. Each of its shapes is a shape of one of them.
///
/// It is refused as `Wide` only where a part of each on a common open gap have a crossing there whose time needs a denominator
/// of 2^60 or more.
///
/// # Errors
///
/// `Wide` as said above; `Memory` where memory is wanting.
pub fn upper<P: Shape>(a: &Pieces<P>, b: &Pieces<P>) -> Result<Pieces<P>, OpFault<P>>
    requires left { IsLimited P.Shape a.now }
    requires right { IsLimited P.Shape b.now }
    requires begins { Same a.now.from b.now.from }
    requires ends { Same (stop a.now) (stop b.now) }
    ensures worth { IfOk result
        (Tells P.Shape (ChosenOf Greatest (IsWorth P.Shape a.now) (IsWorth P.Shape b.now)) a.now.from (stop a.now)) }
    ensures shapes { IfOk result (λ r. (p : P) → HasShape r p → HasShape a.now p ⊎ HasShape b.now p) }
    ensures wide { IfErr result (IsJoinFault P.Shape a.now b.now) }
    ensures cause { IfErr result (HasCause P.Shape (of_two (IsWorth P.Shape a.now) (IsWorth P.Shape b.now))
        a.now.from.at (stop a.now).at) }
{
    combined(Side::Greatest, a, b)
}

/// What is chosen of the two at each time, in one pass over both chains: from each place up to the next at which a piece of either ends.
#[inline(always)]
fn combined<P: Shape>(side: Side, a: &Pieces<P>, b: &Pieces<P>) -> Result<Pieces<P>, OpFault<P>>
    requires left { IsLimited P.Shape a.now }
    requires right { IsLimited P.Shape b.now }
    requires begins { Same a.now.from b.now.from }
    requires ends { Same (stop a.now) (stop b.now) }
    ensures worth { IfOk result
        (Tells P.Shape (ChosenOf side (IsWorth P.Shape a.now) (IsWorth P.Shape b.now)) a.now.from (stop a.now)) }
    ensures shapes { IfOk result (λ r. (p : P) → HasShape r p → HasShape a.now p ⊎ HasShape b.now p) }
    ensures wide { IfErr result (IsJoinFault P.Shape a.now b.now) }
{
    let count = a.len();
    // For the proof alone: that this one is normal is a clause of `len`.
    let others = b.len();
    let mut built = Pieces::with_room(a.alloc(), &a.from(), count.saturating_add(others))?;
    let mut fault = None;
    let mut i = 0;
    let mut j = 0;
    while i < count {
        let p = a.piece(i);
        let q = b.piece(j);
        let (until, ends_p, ends_q) = next_of(&p.until, &q.until);
        match built.join(side, &p.shape, &q.shape, until, &mut fault) {
            Ok(()) => {}
            Err(Memory) => return Err(fault_of(fault)),
        }
        i = passed(i, ends_p);
        j = passed(j, ends_q);
    }
    Ok(built)
}
