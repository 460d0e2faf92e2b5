//! The laws of reports. Each is the contract of a call that does nothing, so that the gate proves it.
ghost use Rattle.report.specs.Laws.{SignalsDescribe, SignalsDescribeMargins};

use value_laws::Shape;

/// Where a signal tells a formula with atoms read as 1 and -1, verdicts that describe the signal describe the formula.
pub fn signals_describe<P: Shape>()
    ensures { SignalsDescribe P.Shape }
{}

/// Where a signal tells a formula with atoms read by their margins, the plain list of its knots describes the robustness: no knot of
/// it can be left out, and at every time it gives the Sup-Inf value.
pub fn signals_describe_margins<P: Shape>()
    ensures { SignalsDescribeMargins P.Shape }
{}
