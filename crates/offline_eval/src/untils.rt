//! The chains of until and since, each composed of four steps; over all times from now on, or up to now, they are one step.
ghost use Rattle.std.specs.Prelude.{◌≤◌, ◌^◌, IsTrue, IfSome, IfOk, IfErr};
ghost use Rattle.rational.specs.Rational.{IsWithin};
ghost use Rattle.rational.specs.Time.{later, ◌≤ʳ◌};
ghost use Rattle.frac128.specs.Value.{value};
ghost use Rattle.pieces.specs.Chains.{stop};
ghost use Rattle.stl_syntax.specs.Formula.{until, since};
ghost use Rattle.stl_syntax.specs.Limits.{reach_of_bound};
ghost use Rattle.stl_syntax.specs.WellFormed.{IsInOrder};
ghost use Rattle.offline_eval.specs.Forms.{of_pieces};
ghost use Rattle.offline_eval.specs.Making.{AreFit, FaultOfTwo, IsFit, StaySound, TellsTwo};

use frac128::Frac;
use pieces::laws::{since_is_composed, until_is_composed};
use pieces::{
    Pieces, inf_ahead, inf_behind, lower, since_from_start, sup_ahead, sup_behind, until_to_end,
};
use pl_signal::OpFault;
use std::cmp::Ordering;
use value_laws::Shape;

/// The chain of an until over a window: told at once where the window reaches to the end, else composed.
pub(crate) fn bounded_until<P: Shape>(
    x: &Pieces<P>,
    y: &Pieces<P>,
    low: u32,
    high: u32,
) -> Result<Pieces<P>, OpFault<P>>
    requires fit { AreFit (of_pieces P.Shape) x.now y.now }
    requires order { low ≤ high }
    ensures sound { IfOk result (StaySound (of_pieces P.Shape) high x.now y.now) }
    ensures told { IfOk result (TellsTwo (of_pieces P.Shape) (until low high) x.now y.now) }
    ensures wide { IfErr result (FaultOfTwo (of_pieces P.Shape) (until low high) x.now y.now) }
{
    if low == 0 {
        return until_from_now(x, y, high);
    }
    composed_until(x, y, low, high)
}

/// Until over a window that begins now.
fn until_from_now<P: Shape>(
    x: &Pieces<P>,
    y: &Pieces<P>,
    high: u32,
) -> Result<Pieces<P>, OpFault<P>>
    requires fit { AreFit (of_pieces P.Shape) x.now y.now }
    ensures sound { IfOk result (StaySound (of_pieces P.Shape) high x.now y.now) }
    ensures told { IfOk result (TellsTwo (of_pieces P.Shape) (until 0 high) x.now y.now) }
    ensures wide { IfErr result (FaultOfTwo (of_pieces P.Shape) (until 0 high) x.now y.now) }
{
    if reaches_end(x, high) {
        return until_from_now_on(x, y, high);
    }
    composed_until(x, y, 0, high)
}

/// Whether a time lies no later than `high` ticks after another.
fn is_within(time: &Frac, start: &Frac, high: u32) -> bool
    requires { IsWithin (2 ^ 34) (value start.now) }
    ensures { IsTrue result → value time.now ≤ʳ later (value start.now) high }
{
    let end = start.shift(i64::from(high));
    match end.cmp(time) {
        Ordering::Less => false,
        _ => true,
    }
}

/// Whether a window up to `high` ticks ahead reaches the end of the domain from each time of it.
fn reaches_end<P: Shape>(x: &Pieces<P>, high: u32) -> bool
    requires { IsFit (of_pieces P.Shape) x.now }
    ensures { IsTrue result → (stop x.now).at ≤ʳ later x.now.from.at high }
{
    let begin = x.from();
    let end = x.until();
    is_within(&end.time, &begin.time, high)
}

/// Until over all times from now on: the until to the end.
fn until_from_now_on<P: Shape>(
    x: &Pieces<P>,
    y: &Pieces<P>,
    high: u32,
) -> Result<Pieces<P>, OpFault<P>>
    requires fit { AreFit (of_pieces P.Shape) x.now y.now }
    requires far { (stop x.now).at ≤ʳ later x.now.from.at high }
    ensures sound { IfOk result (StaySound (of_pieces P.Shape) high x.now y.now) }
    ensures told { IfOk result (TellsTwo (of_pieces P.Shape) (until 0 high) x.now y.now) }
    ensures wide { IfErr result (FaultOfTwo (of_pieces P.Shape) (until 0 high) x.now y.now) }
{
    // For the proof alone: how far the window reaches.
    let _ = high;
    until_to_end(x, y)
}

/// The chain of an until over any window, composed: the Sup of the right operand over the window, but no more than the until to the end
/// is at any time from now up to where the window begins.
fn composed_until<P: Shape>(
    x: &Pieces<P>,
    y: &Pieces<P>,
    low: u32,
    high: u32,
) -> Result<Pieces<P>, OpFault<P>>
    requires fit { AreFit (of_pieces P.Shape) x.now y.now }
    requires order { low ≤ high }
    ensures sound { IfOk result (StaySound (of_pieces P.Shape) high x.now y.now) }
    ensures told { IfOk result (TellsTwo (of_pieces P.Shape) (until low high) x.now y.now) }
    ensures wide { IfErr result (FaultOfTwo (of_pieces P.Shape) (until low high) x.now y.now) }
{
    until_is_composed::<P>();
    let within = sup_ahead(y, low, high, true, true)?;
    let to_end = until_to_end(x, y)?;
    let kept = inf_ahead(&to_end, 0, low, true, true)?;
    lower(&within, &kept)
}

/// The chain of a since over a window: told at once where the window reaches to the start, else composed.
pub(crate) fn bounded_since<P: Shape>(
    x: &Pieces<P>,
    y: &Pieces<P>,
    low: u32,
    high: Option<u32>,
) -> Result<Pieces<P>, OpFault<P>>
    requires fit { AreFit (of_pieces P.Shape) x.now y.now }
    requires order { IsInOrder low high }
    ensures sound { IfOk result (StaySound (of_pieces P.Shape) (reach_of_bound low high) x.now y.now) }
    ensures told { IfOk result (TellsTwo (of_pieces P.Shape) (since low high) x.now y.now) }
    ensures wide { IfErr result (FaultOfTwo (of_pieces P.Shape) (since low high) x.now y.now) }
{
    if low == 0 {
        return since_up_to_now(x, y, high);
    }
    composed_since(x, y, low, high)
}

/// Since over a window that ends now.
fn since_up_to_now<P: Shape>(
    x: &Pieces<P>,
    y: &Pieces<P>,
    high: Option<u32>,
) -> Result<Pieces<P>, OpFault<P>>
    requires fit { AreFit (of_pieces P.Shape) x.now y.now }
    ensures sound { IfOk result (StaySound (of_pieces P.Shape) (reach_of_bound 0 high) x.now y.now) }
    ensures told { IfOk result (TellsTwo (of_pieces P.Shape) (since 0 high) x.now y.now) }
    ensures wide { IfErr result (FaultOfTwo (of_pieces P.Shape) (since 0 high) x.now y.now) }
{
    if reaches_start(x, high) {
        return since_so_far(x, y, high);
    }
    composed_since(x, y, 0, high)
}

/// Whether a window from `high` ticks behind, or from the start of time, reaches the start of the domain from each time of it.
fn reaches_start<P: Shape>(x: &Pieces<P>, high: Option<u32>) -> bool
    requires { IsFit (of_pieces P.Shape) x.now }
    ensures { IsTrue result → IfSome high (λ b. (stop x.now).at ≤ʳ later x.now.from.at b) }
{
    match high {
        Some(b) => reaches_end(x, b),
        None => true,
    }
}

/// Since over all times up to now: the since from the start.
fn since_so_far<P: Shape>(
    x: &Pieces<P>,
    y: &Pieces<P>,
    high: Option<u32>,
) -> Result<Pieces<P>, OpFault<P>>
    requires fit { AreFit (of_pieces P.Shape) x.now y.now }
    requires far { IfSome high (λ b. (stop x.now).at ≤ʳ later x.now.from.at b) }
    ensures sound { IfOk result (StaySound (of_pieces P.Shape) (reach_of_bound 0 high) x.now y.now) }
    ensures told { IfOk result (TellsTwo (of_pieces P.Shape) (since 0 high) x.now y.now) }
    ensures wide { IfErr result (FaultOfTwo (of_pieces P.Shape) (since 0 high) x.now y.now) }
{
    // For the proof alone: how far the window reaches.
    let _ = high;
    since_from_start(x, y)
}

/// The chain of a since over any window, composed: the Sup of the right operand over the window, but no more than the since from the
/// start is at any time from where the window ends up to now.
fn composed_since<P: Shape>(
    x: &Pieces<P>,
    y: &Pieces<P>,
    low: u32,
    high: Option<u32>,
) -> Result<Pieces<P>, OpFault<P>>
    requires fit { AreFit (of_pieces P.Shape) x.now y.now }
    requires order { IsInOrder low high }
    ensures sound { IfOk result (StaySound (of_pieces P.Shape) (reach_of_bound low high) x.now y.now) }
    ensures told { IfOk result (TellsTwo (of_pieces P.Shape) (since low high) x.now y.now) }
    ensures wide { IfErr result (FaultOfTwo (of_pieces P.Shape) (since low high) x.now y.now) }
{
    since_is_composed::<P>();
    let within = sup_behind(y, low, high, true, true)?;
    let from_start = since_from_start(x, y)?;
    let kept = inf_behind(&from_start, 0, Some(low), true, true)?;
    lower(&within, &kept)
}
