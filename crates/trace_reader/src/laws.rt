//! Laws of the definitions, each the contract of a function that does nothing.

ghost use Rattle.std.specs.Prelude.{◌≡◌, ℕ, List, ◌++◌, Bool, true, false, Option};
ghost use Rattle.stl_syntax.specs.Trace.{Row as Values, Header as Columns, Trace as Recorded};
ghost use Rattle.stl_syntax.specs.declared.scale.Scale.{Scale as Ticks};
ghost use Rattle.trace_reader.specs.TraceText.{IsTraceText};
ghost use Rattle.trace_reader.specs.TraceRefusals.{IsFirstFault};
ghost use Rattle.trace_reader.specs.declared.refusal.TraceRefusal.{TraceRefusal as Refusal};
ghost use Rattle.trace_reader.specs.declared.refusal.Limits.{Limits as Bounds};

/// Bytes have at most one trace.
pub fn at_most_one_trace()
    ensures { (bytes : List ℕ) (least : Ticks) (t u : Recorded) → IsTraceText bytes least t → IsTraceText bytes least u → t ≡ u }
{}

/// The first fault of bytes is that of all bytes that begin with them.
pub fn first_fault_stays()
    ensures { (bytes : List ℕ) (limits : Bounds) (least : Ticks) (x : Refusal) (more : List ℕ) (ended : Bool)
        → IsFirstFault bytes false limits least x → IsFirstFault (bytes ++ more) ended limits least x }
{}
