//! What `gen` writes: how many verdict lines `check` and a stream write for a generated trace, and the truth at its start.
ghost use Rattle.std.specs.Prelude.{◌≡◌, ◌≤◌, ◌++◌, codes, decimal, IfOk, OnOk};
ghost use Rattle.stl_syntax.specs.Texts.{newline, start_line};
ghost use Rattle.workload_summary.specs.Generator.{IsSummary};

use crate::counts::{checked, watched};
use answer_lines::put_start;
use frac128::Memory;
use itoa::Buffer;
use std::alloc::Global;
use stl_syntax::Text;
use workload::{gen_trace, judged_formula};

/// Appends a name and a number as a line.
fn put_count(text: &mut Text, name: &[u8], count: u128) -> Result<(), Memory>
    ensures { OnOk result (text.new ≡ text.old ++ name.now ++ decimal count ++ newline) }
{
    text.push(name)?;
    text.push(Buffer::new().format(count).as_bytes())?;
    text.push(b"\n")
}

/// How many rows there are, how many verdict lines `check` and a stream write for them, and the truth at the start.
fn counts(
    alloc: Global,
    rows: u32,
    check_lines: usize,
    watch_lines: usize,
    holds: bool,
) -> Result<Text, Memory>
    ensures { IfOk result (λ text. text ≡ codes "rows " ++ decimal rows ++ newline ++ codes "check " ++ decimal check_lines ++ newline
        ++ codes "watch " ++ decimal watch_lines ++ newline ++ start_line holds) }
{
    let mut text = Text::new(alloc);
    put_count(&mut text, b"rows ", u128::from(rows))?;
    put_count(&mut text, b"check ", check_lines as u128)?;
    put_count(&mut text, b"watch ", watch_lines as u128)?;
    put_start(&mut text, holds)?;
    Ok(text)
}

/// The summary of a generated trace: how many rows it has, how many verdict lines `check` and a stream write for it before the line
/// of the start, and that line. Both read the trace from its bytes.
///
/// # Errors
/// Want of memory.
pub(crate) fn summary(alloc: Global, number: u64, rows: u32) -> Result<Text, Memory>
    requires some { 1 ≤ rows }
    requires few { rows ≤ 200000 }
    ensures { IfOk result (IsSummary number rows) }
{
    let formula = judged_formula(alloc)?;
    let trace = gen_trace(alloc, number, rows)?;
    let bytes = trace.bytes();
    let (check_lines, holds) = checked(alloc, &formula, bytes)?;
    let watch_lines = watched(alloc, formula, bytes)?;
    counts(alloc, rows, check_lines, watch_lines, holds)
}
