//! The ends of a trace.
ghost use Rattle.std.specs.Prelude.{◌≡◌, ◌<◌, ◌≤◌, length, pos};
ghost use Rattle.rational.specs.Time.{whole, ◌≈◌};
ghost use Rattle.frac128.specs.Value.{value};
ghost use Rattle.stl_syntax.specs.Trace.{first_time, last_time};

use frac128::Frac;
use trace_reader::Trace;

/// The time of the first row.
pub(crate) fn first(trace: &Trace) -> u32
    requires { 0 < length trace.now.rows }
    ensures { result ≡ first_time trace.now.rows }
{
    trace.time(0)
}

/// The time of the last row.
pub(crate) fn last(trace: &Trace) -> u32
    requires { 0 < length trace.now.rows }
    ensures last { result ≡ last_time 0 trace.now.rows }
    ensures later { first_time trace.now.rows ≤ result }
{
    trace.time(trace.rows() - 1)
}

/// A time of whole ticks.
pub(crate) fn tick(n: u32) -> Frac
    ensures { value result ≈ whole (pos n) }
{
    Frac::of(i64::from(n))
}
