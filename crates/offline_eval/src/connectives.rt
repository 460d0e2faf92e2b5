//! The chains of constants and connectives.
ghost use Rattle.std.specs.Prelude.{◌≡◌, ◌≤◌, pos, false, MatchBool, IfOk, IfErr};
ghost use Rattle.rational.specs.Time.{Rational, whole, ◌≈◌};
ghost use Rattle.rational.specs.Extended.{value_at, ◌≈ᵉ◌, Passes};
ghost use Rattle.frac128.specs.Value.{value};
ghost use Rattle.pieces.specs.Chains.{HasShape, Tells, stop};
ghost use Rattle.pieces.specs.Knots.{after, before};
ghost use Rattle.stl_syntax.specs.Formula.{constant, negation, conjunction, disjunction, implication};
ghost use Rattle.stl_syntax.specs.SupInf.{Setting};
ghost use Rattle.offline_eval.specs.Forms.{IsClosed, of_pieces};
ghost use Rattle.offline_eval.specs.Inputs.{IsOver};
ghost use Rattle.offline_eval.specs.Making.{IsSound, MayMeet, StaysSound, StaySound, TellsValue, TellsOne, TellsTwo, FaultOfTwo};

use frac128::{Cut, Frac, Memory};
use pieces::{Pieces, lower, upper};
use pl_signal::OpFault;
use std::alloc::Global;
use value_laws::Shape;

/// A time of whole ticks.
fn tick_time(n: u32) -> Frac
    ensures { value result ≈ whole (pos n) }
{
    Frac::of(i64::from(n))
}

/// The greatest value of the type for true, and the least one for false.
fn extreme<P: Shape>(holds: bool) -> P
    ensures value { MatchBool holds ((t : Rational) → value_at (P.function result) t ≈ᵉ P.highest)
        ((t : Rational) → value_at (P.function result) t ≈ᵉ P.lowest) }
    ensures still { P.moves result ≡ false }
{
    if holds {
        return P::greatest();
    }
    P::least()
}

/// One shape over the whole domain.
fn steady<P: Shape>(alloc: Global, from: u32, to: u32, shape: P) -> Result<Pieces<P>, Memory>
    requires { from ≤ to }
    ensures worth { IfOk result (Tells P.Shape (Passes (P.function shape)) (before (whole (pos from))) (after (whole (pos to)))) }
    ensures shapes { IfOk result (λ r. (p : P) → HasShape r p → p ≡ shape) }
{
    let begin = Cut {
        time: tick_time(from),
        side: 0,
    };
    let end = Cut {
        time: tick_time(to),
        side: 1,
    };
    let mut built = Pieces::with_room(alloc, &begin, 1)?;
    built.put(&end, &shape)?;
    Ok(built)
}

/// The greatest value of the type where the constant holds, and the least one where it fails, over the whole domain.
pub(crate) fn constant_chain<P: Shape>(
    alloc: Global,
    from: u32,
    to: u32,
    holds: bool,
) -> Result<Pieces<P>, Memory>
    requires { from ≤ to }
    ensures sound { IfOk result (IsSound (of_pieces P.Shape) from to 0) }
    ensures told { IfOk result
        (λ r. (s : Setting) → IsOver P.lowest P.highest from to s → TellsValue (of_pieces P.Shape) s (constant holds) r) }
{
    steady(alloc, from, to, extreme(holds))
}

/// The chain of a negation: minus its operand.
pub(crate) fn negated<P: Shape>(x: &Pieces<P>) -> Result<Pieces<P>, Memory>
    requires { IsClosed P.Shape x.now }
    ensures limited { IfOk result (IsClosed P.Shape) }
    ensures begins { IfOk result (λ r. r.from.at ≈ x.now.from.at) }
    ensures ends { IfOk result (λ r. (stop r).at ≈ (stop x.now).at) }
    ensures sound { IfOk result (StaysSound (of_pieces P.Shape) 0 x.now) }
    ensures told { IfOk result (TellsOne (of_pieces P.Shape) negation x.now) }
{
    x.negated()
}

/// The same of a chain that is of no more use: it is turned over where it stands, and takes no memory.
pub(crate) fn turned_over<P: Shape>(x: Pieces<P>) -> Pieces<P>
    requires { IsClosed P.Shape x }
    ensures sound { StaysSound (of_pieces P.Shape) 0 x result }
    ensures told { TellsOne (of_pieces P.Shape) negation x result }
{
    let mut chain = x;
    chain.negate();
    chain
}

/// The least of the operands.
pub(crate) fn both<P: Shape>(x: &Pieces<P>, y: &Pieces<P>) -> Result<Pieces<P>, OpFault<P>>
    requires { MayMeet (of_pieces P.Shape) x.now y.now }
    ensures sound { IfOk result (StaySound (of_pieces P.Shape) 0 x.now y.now) }
    ensures told { IfOk result (TellsTwo (of_pieces P.Shape) conjunction x.now y.now) }
    ensures wide { IfErr result (FaultOfTwo (of_pieces P.Shape) conjunction x.now y.now) }
{
    lower(x, y)
}

/// The greatest of the operands.
pub(crate) fn either<P: Shape>(x: &Pieces<P>, y: &Pieces<P>) -> Result<Pieces<P>, OpFault<P>>
    requires { MayMeet (of_pieces P.Shape) x.now y.now }
    ensures sound { IfOk result (StaySound (of_pieces P.Shape) 0 x.now y.now) }
    ensures told { IfOk result (TellsTwo (of_pieces P.Shape) disjunction x.now y.now) }
    ensures wide { IfErr result (FaultOfTwo (of_pieces P.Shape) disjunction x.now y.now) }
{
    upper(x, y)
}

/// The greatest of minus the left operand and of the right one.
pub(crate) fn implied<P: Shape>(x: &Pieces<P>, y: &Pieces<P>) -> Result<Pieces<P>, OpFault<P>>
    requires { MayMeet (of_pieces P.Shape) x.now y.now }
    ensures sound { IfOk result (StaySound (of_pieces P.Shape) 0 x.now y.now) }
    ensures told { IfOk result (TellsTwo (of_pieces P.Shape) implication x.now y.now) }
    ensures wide { IfErr result (FaultOfTwo (of_pieces P.Shape) implication x.now y.now) }
{
    let fails = negated(x)?;
    either(&fails, y)
}
