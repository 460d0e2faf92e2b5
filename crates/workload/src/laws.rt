//! Laws of the generated trace, each the contract of a call that does nothing.
ghost use Rattle.std.specs.Prelude.{◌≤◌, ℕ};
ghost use Rattle.trace_reader.specs.InputFaults.{whole_limits};
ghost use Rattle.trace_reader.specs.TraceRefusals.{HasTrace};
ghost use Rattle.workload.specs.Generated.{ticks, generated, generated_bytes};

/// The bytes that are generated are those of the generated trace, all of them, and have no fault.
pub fn bytes_are_of_the_trace()
    ensures { (number rows : ℕ) → 1 ≤ rows → rows ≤ 200000 → HasTrace (generated_bytes number rows) whole_limits ticks (generated number rows) }
{}
