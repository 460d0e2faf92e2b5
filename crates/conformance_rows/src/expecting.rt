//! Tests stop at the first row of a table that does not hold.
use program_cases::{Asked, rows_answered};
use std::alloc::Global;
use std::process::Abort;
use std::test::Fail;

/// Stops where a row of a table does not hold.
pub(crate) fn expect(rt: &impl Abort, holds: bool, about: &str, row: usize) {
    assert!(rt; holds, "{about}, {row}");
}

/// Stops at the first row that the command answers otherwise, however the input is cut.
pub(crate) fn expect_each(
    rt: &impl Abort,
    alloc: Global,
    command: &str,
    table: &[Asked<'_>],
) -> Result<(), Fail> {
    let rows = rows_answered(alloc, command, table)?;
    expect(rt, rows == table.len(), command, rows);
    Ok(())
}
