//! Places at the times of rows, and the pieces that begin at the first of them.
ghost use Rattle.std.specs.Prelude.{◌≡◌, ◌<◌, ◌^◌, pos, [], length, IfOk};
ghost use Rattle.rational.specs.Rational.{whole};
ghost use Rattle.rational.specs.Places.{Same};
ghost use Rattle.frac128.specs.Cuts.{place};
ghost use Rattle.stl_syntax.specs.Trace.{first_time, start};
ghost use Rattle.pieces.specs.Knots.{before, after};

use frac128::{Cut, Memory};
use pieces::Pieces;
use std::alloc::Global;
use trace_reader::Trace;
use value_laws::Shape;

/// Just before the time of a row.
#[inline(always)]
pub(crate) fn before_row(time: u32) -> Cut
    ensures { Same (place result) (before (whole (pos time))) }
{
    Cut::before_whole(i64::from(time))
}

/// Just after the time of a row.
#[inline(always)]
pub(crate) fn after_row(time: u32) -> Cut
    ensures { Same (place result) (after (whole (pos time))) }
{
    Cut::after_whole(i64::from(time))
}

/// No piece yet, from just before the first row's time on, with room for one piece for each row.
pub(crate) fn begin<P: Shape>(alloc: Global, trace: &Trace) -> Result<Pieces<P>, Memory>
    requires { 0 < length trace.now.rows }
    ensures few { first_time trace.now.rows < 2 ^ 32 }
    ensures none { IfOk result (λ chain. chain.pieces ≡ []) }
    ensures begins { IfOk result (λ chain. Same chain.from (before (start trace.now))) }
{
    Pieces::with_room(alloc, &before_row(trace.time(0)), trace.rows())
}
