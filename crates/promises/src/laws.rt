//! Laws of runs. Each is the contract of a call that does nothing, so that the gate proves it.
ghost use Rattle.std.specs.Prelude.{◌≡◌, ◌≢◌, ◌⊎◌, ◌≤◌, ℕ, List, true};
ghost use Rattle.std.specs.Io.KnownBytes.{IsAtEnd};
ghost use Rattle.io_edge.specs.Calls.{Drained, Filled, HasFailed, HasRefused};
ghost use Rattle.promises.specs.Promises.{IsBadRightly, IsBadWhereDue, IsRefusedRightly, IsRefusedWhereDue};
ghost use Rattle.promises.specs.Promises.{IsAnsweredWhereDue, IsAnsweredRightly, IsCutOffRightly, IsSaidRightly};
ghost use Rattle.stl_syntax.specs.Formula.{Formula};
ghost use Rattle.report.specs.Report.{Command, robust, explain, json, table};
ghost use Rattle.workbench.specs.Requests.{Request, Asks, AreHeld, AreNone, whole, has_input};
ghost use Rattle.workbench.specs.Ended.{HasFault, IsAnsweredWhole};
ghost use Rattle.promises.specs.Accounts.{IsAccount, IsReportAccount};
ghost use Rattle.promises.specs.Measured.{IsMeasured};
ghost use Rattle.promises.specs.Words.{AskCheck};
ghost use Rattle.workbench.specs.Running.{IsEnd, IsRun};
ghost use Rattle.promises.specs.Complete.{IsUndisturbed, IsCompleteRun};

pub use crate::bench_laws::{each_bench_hears_its_own_stream, other_benches_change_nothing};
pub use crate::line_laws::{
    an_early_verdict_is_the_truth, each_line_is_the_truth, each_margin_is_the_robustness,
    the_lines_cover_the_trace, the_margins_cover_the_trace,
};
pub use crate::owing_laws::{
    one_request_is_asked_for, one_text_is_owed, streams_keep_pace, the_end_is_asked_for_once,
    what_is_owed_only_grows, what_was_written_is_of_all_bytes,
};

/// 2 comes exactly where the words are of no form that is built. Those of a command that holds the whole trace ask for no stream.
pub fn words_of_no_form_get_the_usage()
    ensures words { (words : List (List ℕ)) (i : Drained) (o e : Filled) (status : ℕ) → IsRun words i o e status → status ≡ 2 → AreNone words }
    ensures words_due { (words : List (List ℕ)) (i : Drained) (o e : Filled) (status : ℕ) → IsRun words i o e status → AreNone words → status ≡ 2 }
    ensures held { (words : List (List ℕ)) (c : Command) (f : Formula) → Asks words (whole c f) → AreHeld words }
{}

/// Where the words ask for `check`, its promises follow clause by clause from how a run ends.
pub fn check_keeps_its_promises()
    // Which status comes, and when.
    ensures status { (words : List (List ℕ)) (text : List ℕ) (i : Drained) (o e : Filled) (status : ℕ) → AskCheck words text → IsRun words i o e status
        → status ≤ 7 }
    ensures form { (words : List (List ℕ)) (text : List ℕ) (i : Drained) (o e : Filled) (status : ℕ) → AskCheck words text → IsRun words i o e status
        → status ≢ 2 }
    ensures formula { (words : List (List ℕ)) (text : List ℕ) (i : Drained) (o e : Filled) (status : ℕ) → AskCheck words text → IsRun words i o e status
        → IsBadRightly words status }
    ensures formula_due { (words : List (List ℕ)) (text : List ℕ) (i : Drained) (o e : Filled) (status : ℕ) → AskCheck words text → IsRun words i o e status
        → IsBadWhereDue words status }
    ensures refused { (words : List (List ℕ)) (text : List ℕ) (i : Drained) (o e : Filled) (status : ℕ) → AskCheck words text → IsRun words i o e status
        → IsRefusedRightly words i.before i.after i.ended status }
    ensures due { (words : List (List ℕ)) (text : List ℕ) (i : Drained) (o e : Filled) (status : ℕ) → AskCheck words text → IsRun words i o e status
        → IsRefusedWhereDue words i.before i.after i.ended status }
    ensures answer_due { (words : List (List ℕ)) (text : List ℕ) (i : Drained) (o e : Filled) (status : ℕ) → AskCheck words text → IsRun words i o e status
        → IsAnsweredWhereDue words i.before i.faults i.faults_after o.faults o.faults_after status }
    ensures read { (words : List (List ℕ)) (text : List ℕ) (i : Drained) (o e : Filled) (status : ℕ) → AskCheck words text → IsRun words i o e status
        → status ≡ 5 → HasFailed i }
    ensures write { (words : List (List ℕ)) (text : List ℕ) (i : Drained) (o e : Filled) (status : ℕ) → AskCheck words text → IsRun words i o e status
        → status ≡ 6 → HasRefused o }

    // What was read, and what was written.
    ensures all_read { (words : List (List ℕ)) (text : List ℕ) (i : Drained) (o e : Filled) (status : ℕ) → AskCheck words text → IsRun words i o e status
        → (status ≤ 1) ⊎ (status ≡ 6) → (i.ended ≡ true) × IsAtEnd i.after }
    ensures answered { (words : List (List ℕ)) (text : List ℕ) (i : Drained) (o e : Filled) (status : ℕ) → AskCheck words text → IsRun words i o e status
        → IsAnsweredRightly words i.before i.after o.before o.after status }
    ensures cut_off { (words : List (List ℕ)) (text : List ℕ) (i : Drained) (o e : Filled) (status : ℕ) → AskCheck words text → IsRun words i o e status
        → IsCutOffRightly words i.before i.after o.before o.after status }
    ensures said { (words : List (List ℕ)) (text : List ℕ) (i : Drained) (o e : Filled) (status : ℕ) → AskCheck words text → IsRun words i o e status
        → IsSaidRightly words i.before i.after i.ended e.before e.after e.faults e.faults_after status }
{}

/// What `robust` and `table` wrote with 0, and `json` with 0 or 1, has knots, with none to spare, that are the Sup-Inf value at each time
/// of the trace, and tell the truth. The sign law: above 0 the formula holds at the time, and below 0 it fails. The margin law:
/// for every number e of at least 0
/// and below the size of the value, the truth at the time is the same in each trace with the same columns, scale, start and end in
/// which each atom's expression differs by at most e at each time.
pub fn margins_tell_the_truth()
    ensures lines { (f : Formula) (bytes text : List ℕ) (status : ℕ) → IsAnsweredWhole robust f bytes status text → IsMeasured robust f bytes text }
    ensures rows { (f : Formula) (bytes text : List ℕ) (status : ℕ) → IsAnsweredWhole table f bytes status text → IsMeasured table f bytes text }
    ensures report { (f : Formula) (bytes text : List ℕ) (status : ℕ) → IsAnsweredWhole json f bytes status text → IsMeasured json f bytes text }
{}

/// What `explain` wrote with 0 or 1 is an account of the trace: the line of a start that is true, where the formula holds there; else
/// that of one that is false, and the lines of the cells of atoms that are kept, where those that touch are one. These refute the
/// formula: they make it certainly false, and it fails at the start of each trace with the same columns, scale, start and end in which
/// the lines are so. Without any one line it is not certainly false. So do the items of the report that `json` wrote, which has none where
/// the formula holds at the start.
pub fn explanations_refute()
    ensures lines { (f : Formula) (bytes text : List ℕ) (status : ℕ) → IsAnsweredWhole explain f bytes status text → IsAccount f bytes text status }
    ensures report { (f : Formula) (bytes text : List ℕ) (status : ℕ) → IsAnsweredWhole json f bytes status text → IsReportAccount f bytes text status }
{}

/// Where the bytes that were read have a fault, a command that holds the whole trace ends with 4, or for want of memory.
pub fn a_fault_is_named()
    ensures { (c : Command) (f : Formula) (i : Drained) (o : Filled) (bytes text line said : List ℕ) (status : ℕ)
        → IsEnd (whole c f) i o bytes text status said → HasFault (whole c f) bytes i.ended line → (status ≡ 4) ⊎ (status ≡ 7) }
{}

/// Where the bytes that were read have no fault and no device failed, every command with input ends with an answer, with 8 or 9, or
/// for want of memory.
pub fn an_answer_is_due()
    ensures { (request : Request) (i : Drained) (o : Filled) (bytes text line : List ℕ) (status : ℕ)
        → IsEnd request i o bytes text status line → has_input request ≡ true
        → ((l : List ℕ) → ¬ HasFault request bytes i.ended l) → (¬ HasFailed i) → (¬ HasRefused o) → (status ≤ 1) ⊎ (7 ≤ status) }
{}

/// Completeness. Where the words ask for a formula to be answered or a trace to be generated, the input is all bytes of a trace for the
/// formula, and no device fails, the run ends with a status of its command's own: with the whole text of the answer; with 8 or 9, where the
/// command may, a margin needs too large a denominator or the cells are too many; or for want of memory.
pub fn a_run_is_complete()
    ensures { (words : List (List ℕ)) (request : Request) (i : Drained) (o e : Filled) (bytes : List ℕ) (status : ℕ) → Asks words request
        → IsUndisturbed request i o bytes → IsRun words i o e status → IsCompleteRun request o bytes status }
{}
