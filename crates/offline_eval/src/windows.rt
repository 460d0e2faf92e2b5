//! The chains of the operators over a window.
ghost use Rattle.std.specs.Prelude.{◌≤◌, IfOk, IfErr};
ghost use Rattle.stl_syntax.specs.Formula.{eventually, always, once, historically};
ghost use Rattle.stl_syntax.specs.Limits.{reach_of_bound};
ghost use Rattle.stl_syntax.specs.WellFormed.{IsInOrder};
ghost use Rattle.offline_eval.specs.Forms.{of_pieces};
ghost use Rattle.offline_eval.specs.Making.{FaultOfOne, IsFit, StaysSound, TellsOne};

use pieces::Pieces;
use pl_signal::OpFault;
use value_laws::Shape;

/// Eventually: the Sup over the window ahead.
pub(crate) fn sup_ahead<P: Shape>(
    x: &Pieces<P>,
    low: u32,
    high: u32,
    low_in: bool,
    high_in: bool,
) -> Result<Pieces<P>, OpFault<P>>
    requires fit { IsFit (of_pieces P.Shape) x.now }
    requires order { low ≤ high }
    ensures sound { IfOk result (StaysSound (of_pieces P.Shape) high x.now) }
    ensures told { IfOk result (TellsOne (of_pieces P.Shape) (eventually low high low_in high_in) x.now) }
    ensures wide { IfErr result (FaultOfOne (of_pieces P.Shape) (eventually low high low_in high_in) x.now) }
{
    pieces::sup_ahead(x, low, high, low_in, high_in)
}

/// Always: the Inf over the window ahead.
pub(crate) fn inf_ahead<P: Shape>(
    x: &Pieces<P>,
    low: u32,
    high: u32,
    low_in: bool,
    high_in: bool,
) -> Result<Pieces<P>, OpFault<P>>
    requires fit { IsFit (of_pieces P.Shape) x.now }
    requires order { low ≤ high }
    ensures sound { IfOk result (StaysSound (of_pieces P.Shape) high x.now) }
    ensures told { IfOk result (TellsOne (of_pieces P.Shape) (always low high low_in high_in) x.now) }
    ensures wide { IfErr result (FaultOfOne (of_pieces P.Shape) (always low high low_in high_in) x.now) }
{
    pieces::inf_ahead(x, low, high, low_in, high_in)
}

/// Once: the Sup over the window behind.
pub(crate) fn sup_behind<P: Shape>(
    x: &Pieces<P>,
    low: u32,
    high: Option<u32>,
    low_in: bool,
    high_in: bool,
) -> Result<Pieces<P>, OpFault<P>>
    requires fit { IsFit (of_pieces P.Shape) x.now }
    requires order { IsInOrder low high }
    ensures sound { IfOk result (StaysSound (of_pieces P.Shape) (reach_of_bound low high) x.now) }
    ensures told { IfOk result (TellsOne (of_pieces P.Shape) (once low high low_in high_in) x.now) }
    ensures wide { IfErr result (FaultOfOne (of_pieces P.Shape) (once low high low_in high_in) x.now) }
{
    pieces::sup_behind(x, low, high, low_in, high_in)
}

/// Historically: the Inf over the window behind.
pub(crate) fn inf_behind<P: Shape>(
    x: &Pieces<P>,
    low: u32,
    high: Option<u32>,
    low_in: bool,
    high_in: bool,
) -> Result<Pieces<P>, OpFault<P>>
    requires fit { IsFit (of_pieces P.Shape) x.now }
    requires order { IsInOrder low high }
    ensures sound { IfOk result (StaysSound (of_pieces P.Shape) (reach_of_bound low high) x.now) }
    ensures told { IfOk result (TellsOne (of_pieces P.Shape) (historically low high low_in high_in) x.now) }
    ensures wide { IfErr result (FaultOfOne (of_pieces P.Shape) (historically low high low_in high_in) x.now) }
{
    pieces::inf_behind(x, low, high, low_in, high_in)
}
