//! Laws of what is owed. Each is the contract of a call that does nothing, so that the gate proves it.
ghost use Rattle.std.specs.Prelude.{◌≡◌, ◌≢◌, ◌⊎◌, ◌≤◌, [], ◌++◌, ℕ, List, Bool, true, false};
ghost use Rattle.io_edge.specs.Calls.{Drained, Filled};
ghost use Rattle.stl_syntax.specs.Formula.{Formula};
ghost use Rattle.report.specs.Report.{Command, check, robust, explain, json, table};
ghost use Rattle.workbench.specs.Requests.{Request, Stream, Asks, whole, stream, sessions, has_input, is_streamed};
ghost use Rattle.workbench.specs.Owed.{OwesRows, OwesLines, OwesAtEnd};
ghost use Rattle.workbench.specs.Running.{IsBegun, KeepsPace, IsRun, HasSaidItsEnd};

/// Words ask for at most one request.
pub fn one_request_is_asked_for()
    ensures { (words : List (List ℕ)) (request other : Request) → Asks words request → Asks words other → request ≡ other }
{}

/// At most one text is owed for given bytes: to a stream, to several sessions, and to each command that holds the whole trace.
pub fn one_text_is_owed()
    ensures rows { (s : Stream) (f : Formula) (bytes text other : List ℕ) (ended : Bool) → OwesRows s f bytes ended text
        → OwesRows s f bytes ended other → text ≡ other }
    ensures lines { (f : Formula) (bytes text other : List ℕ) (ended : Bool) → OwesLines f bytes ended text → OwesLines f bytes ended other → text ≡ other }
    ensures check { (f : Formula) (bytes text other : List ℕ) (ended : Bool) → OwesAtEnd check f bytes ended text
        → OwesAtEnd check f bytes ended other → text ≡ other }
    ensures robust { (f : Formula) (bytes text other : List ℕ) (ended : Bool) → OwesAtEnd robust f bytes ended text
        → OwesAtEnd robust f bytes ended other → text ≡ other }
    ensures explain { (f : Formula) (bytes text other : List ℕ) (ended : Bool) → OwesAtEnd explain f bytes ended text
        → OwesAtEnd explain f bytes ended other → text ≡ other }
    ensures json { (f : Formula) (bytes text other : List ℕ) (ended : Bool) → OwesAtEnd json f bytes ended text
        → OwesAtEnd json f bytes ended other → text ≡ other }
    ensures table { (f : Formula) (bytes text other : List ℕ) (ended : Bool) → OwesAtEnd table f bytes ended text
        → OwesAtEnd table f bytes ended other → text ≡ other }
{}

/// What a stream is owed, or several sessions, only grows: the text for bytes that go on is the front of the text for these bytes and more, which the input may
/// have ended.
pub fn what_is_owed_only_grows()
    ensures rows { (s : Stream) (f : Formula) (bytes more text all : List ℕ) (ended : Bool) → OwesRows s f bytes false text
        → OwesRows s f (bytes ++ more) ended all
        → (rest : List ℕ) × (all ≡ text ++ rest) }
    ensures lines { (f : Formula) (bytes more text all : List ℕ) (ended : Bool) → OwesLines f bytes false text → OwesLines f (bytes ++ more) ended all
        → (rest : List ℕ) × (all ≡ text ++ rest) }
{}

/// What a stream, or several sessions, had written where its output failed or memory was wanting is the front of what it is owed for all the bytes that were
/// read, not for those alone that it had answered.
pub fn what_was_written_is_of_all_bytes()
    ensures rows { (s : Stream) (f : Formula) (bytes text rest all : List ℕ) (ended : Bool)
        → IsBegun (stream s f) bytes ended text rest → OwesRows s f bytes ended all
        → (more : List ℕ) × (all ≡ text ++ more) }
    ensures lines { (f : Formula) (bytes text rest all : List ℕ) (ended : Bool) → IsBegun (sessions f) bytes ended text rest → OwesLines f bytes ended all
        → (more : List ℕ) × (all ≡ text ++ more) }
{}

/// A stream keeps pace with its source, on every status: what it owes for all bytes but those that the last read gave was written, and they
/// have no fault; so it was written before that read, since the read might as well have failed, and each write as well. No read asks
/// for more than 4,096 bytes.
pub fn streams_keep_pace()
    ensures { (words : List (List ℕ)) (request : Request) (i : Drained) (o e : Filled) (status : ℕ) → Asks words request → is_streamed request ≡ true
        → (r : IsRun words i o e status) → r.bytes ≢ [] → KeepsPace request i r.bytes r.text }
{}

/// On an answer to a request with input the source was asked for its end exactly once. So it was on 6, 8 and 9 of a command that holds the
/// whole trace.
pub fn the_end_is_asked_for_once()
    ensures answered { (words : List (List ℕ)) (request : Request) (i : Drained) (o e : Filled) (status : ℕ) → Asks words request → has_input request ≡ true
        → IsRun words i o e status → status ≤ 1 → HasSaidItsEnd i }
    ensures whole { (words : List (List ℕ)) (c : Command) (f : Formula) (i : Drained) (o e : Filled) (status : ℕ) → Asks words (whole c f)
        → IsRun words i o e status → (status ≡ 6) ⊎ (8 ≤ status) → HasSaidItsEnd i }
{}
