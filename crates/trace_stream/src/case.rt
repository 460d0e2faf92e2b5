//! A formula over the header of a trace, and the rows that came.
ghost use Rattle.std.specs.Prelude.{◌≡◌, ◌⊎◌, MatchResult};
ghost use Rattle.stl_syntax.specs.WellFormed.{IsScale};
ghost use Rattle.stl_syntax.specs.Binding.{IsUnitFault};
ghost use Rattle.trace_reader.specs.TraceText.{Heading, scale_of};
ghost use Rattle.trace_reader.specs.Reader.{header_of};
ghost use Rattle.trace_stream.specs.Cases.{IsBegun, IsNoBegin, stop_of, stop_of_unit};

use crate::fault::{StreamStop, TraceFault};
use atom_lines::{BindFault, Bound, bind};
use std::alloc::Global;
use stl_syntax::{Formula, UnitFault};
use trace_reader::{Header, Trace};

/// A formula in the ticks of a trace, bound to the columns of its header, and the trace.
#[derive(Drop)]
pub struct Case {
    /// The formula, counted in the ticks of the trace.
    pub formula: Formula,
    /// Where its terms stand among the columns.
    pub bound: Bound,
    /// The header, and the rows so far.
    pub trace: Trace,
}

/// Why a formula was not bound to the header in line `line`.
fn bind_stop(line: u64, fault: BindFault) -> StreamStop
    ensures { result ≡ stop_of line fault }
{
    match fault {
        BindFault::UnknownColumn { atom, term } => {
            StreamStop::Fault(TraceFault::Unknown { line, atom, term })
        }
        BindFault::Memory => StreamStop::NoMemory,
    }
}

/// Why a formula was not counted in the ticks of the header in line `line`.
fn unit_stop(line: u64, fault: UnitFault) -> StreamStop
    ensures { result ≡ stop_of_unit line fault }
{
    match fault {
        UnitFault::Memory => StreamStop::NoMemory,
        _ => StreamStop::Fault(TraceFault::Unit { line, fault }),
    }
}

/// Why a formula whose numbers do not fit the header, in line `line`, has no case: a column that the header lacks comes first.
fn misfit(
    alloc: Global,
    formula: &Formula,
    header: &Header,
    line: u64,
    fault: UnitFault,
) -> StreamStop
    requires { (fault ≡ UnitFault.Memory) ⊎ IsUnitFault formula.now header.now.scale fault }
    ensures { (h : Heading) → header.now ≡ header_of formula.now.scale h → IsNoBegin formula.now line h result }
{
    match bind(alloc, formula, header) {
        Ok(_) => unit_stop(line, fault),
        Err(fault) => bind_stop(line, fault),
    }
}

/// A case without rows, of the header in line `line`.
///
/// # Errors
/// A column that the header lacks, or else numbers that do not fit in its ticks; want of memory.
pub(crate) fn begin(
    alloc: Global,
    formula: &Formula,
    header: &Header,
    line: u64,
) -> Result<Case, StreamStop>
    requires { (h : Heading) × (header.now ≡ header_of formula.now.scale h) × IsScale (scale_of formula.now.scale h) }
    ensures { (h : Heading) → header.now ≡ header_of formula.now.scale h
        → MatchResult result (IsBegun formula.now line h) (IsNoBegin formula.now line h) }
{
    let scaled = match formula.scaled(header.scale()) {
        Ok(scaled) => scaled,
        Err(fault) => return Err(misfit(alloc, formula, header, line, fault)),
    };
    let bound = match bind(alloc, &scaled, header) {
        Ok(bound) => bound,
        Err(fault) => return Err(bind_stop(line, fault)),
    };
    let header = header.copy()?;
    Ok(Case {
        formula: scaled,
        bound,
        trace: Trace::new(alloc, header),
    })
}
