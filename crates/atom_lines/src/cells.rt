//! The values of a row, by the places of its columns.
ghost use Rattle.std.specs.Prelude.{◌≡◌, ◌<◌, ◌≤◌, List, ℤ, pos, length, nat_abs, slice_index_or};
ghost use Rattle.stl_syntax.specs.Trace.{IsTrace};
ghost use Rattle.atom_lines.specs.Rows.{values_at};

use trace_reader::{Row, Trace};

/// A row whose values are read by column.
pub(crate) trait Cells {
    /// The values, one for each column.
    ghost values: { Self → List ℤ };

    /// The value of a column.
    fn cell(&self, column: usize) -> i32
        requires { column < length (values self.now) }
        ensures at { result ≡ slice_index_or (values self.now) column (pos 0) }
        ensures small { nat_abs result ≤ 16777216 };
}

impl Cells for Row {
    ghost values = { λ r. r.values };

    fn cell(&self, column: usize) -> i32 {
        self.value(column)
    }
}

/// A row of a trace.
#[derive(Clone, Copy)]
pub(crate) struct TraceRow<'a> {
    trace: &'a Trace,
    row: usize,
    ghost within: { row < length trace.now.rows },
    ghost wide: { length (values_at trace.now row) ≡ length trace.now.header.columns },
}

impl Cells for TraceRow<'_> {
    ghost values = { λ r. values_at r.trace.now r.row };

    fn cell(&self, column: usize) -> i32 {
        self.trace.value(self.row, column)
    }
}

/// The row of the trace at a place.
pub(crate) fn row_at<'a>(trace: &'a Trace, row: usize) -> TraceRow<'a>
    requires { row < length trace.now.rows }
    ensures trace { result.trace.now ≡ trace.now }
    ensures row { result.row ≡ row }
    ensures rows { IsTrace trace.now }
{
    // For the proof alone: that it is a trace is a clause of `rows`.
    let _ = trace.rows();
    TraceRow { trace, row }
}
