//! Laws of the lines that streams of verdicts, of margins and of decisions write. Each is the contract of a call that does nothing, so that the gate proves it.
ghost use Rattle.std.specs.Prelude.{ℕ, List, [], true, false};
ghost use Rattle.stl_syntax.specs.Formula.{Formula, Subformula};
ghost use Rattle.stl_syntax.specs.EarlyText.{IsEarlyText};
ghost use Rattle.stl_syntax.specs.Trace.{Header, Row, Trace, IsTrace};
ghost use Rattle.stl_syntax.specs.Stream.{IsStreamText};
ghost use Rattle.online_nodes.specs.MarginStream.{IsMarginStream};
ghost use Rattle.workbench.specs.Requests.{margins, verdicts};
ghost use Rattle.workbench.specs.Ended.{IsAnsweredByRow};
ghost use Rattle.promises.specs.SureDecisions.{EndsWithStart, IsSureDecision};
ghost use Rattle.promises.specs.SureLines.{AreSureByRow, AreSureToEnd, IsWatchText};
ghost use Rattle.promises.specs.SureMargins.{AreSureMarginsByRow, AreSureMarginsToEnd, IsMarginText};

/// Each line of a verdict is the truth, at each time of its span, in every trace that goes on from the rows up to the one at which the line was
/// due; those at the end are so in the trace of all rows.
pub fn each_line_is_the_truth()
    ensures by_row { (p : Subformula) (header : Header) (rows : List Row) (text : List ℕ) → IsStreamText p header rows false text
        → AreSureByRow p header [] rows text }
    ensures to_end { (p : Subformula) (header : Header) (rows : List Row) (text : List ℕ) → IsStreamText p header rows true text
        → AreSureToEnd p header rows text }
{}

/// What a stream of verdicts wrote in the end covers the trace without gap or overlap, and tells at each time what `check` tells; its last
/// line tells the truth at the start.
pub fn the_lines_cover_the_trace()
    ensures { (f : Formula) (bytes text : List ℕ) (status : ℕ) → IsAnsweredByRow verdicts f bytes status text → IsWatchText f bytes text }
{}

/// Each line of a margin is the robustness, at its time or at each time of its gap, in every trace that goes on from the rows up to the one at
/// which the line was due; those at the end are so in the trace of all rows.
pub fn each_margin_is_the_robustness()
    ensures by_row { (p : Subformula) (header : Header) (rows : List Row) (text : List ℕ)
        → IsMarginStream p header rows false text → AreSureMarginsByRow p header [] rows text }
    ensures to_end { (p : Subformula) (header : Header) (rows : List Row) (text : List ℕ) → IsMarginStream p header rows true text
        → AreSureMarginsToEnd p header rows text }
{}

/// What a stream of margins wrote in the end covers the trace without gap or overlap, and tells at each time what `robust` tells.
pub fn the_margins_cover_the_trace()
    ensures { (f : Formula) (bytes text : List ℕ) (status : ℕ) → IsAnsweredByRow margins f bytes status text → IsMarginText f bytes text }
{}

/// What an early verdict tells for the rows so far is the truth at the start of every trace that goes on from the row that it names, and none
/// of the rows before that one decides. What it tells in the end ends with the truth at the start of the trace, whichever row decided.
pub fn an_early_verdict_is_the_truth()
    ensures by_row { (p : Subformula) (header : Header) (rows : List Row) (text : List ℕ) → IsEarlyText p header rows false text
        → IsSureDecision p header rows text }
    ensures to_end { (p : Subformula) (tr : Trace) (text : List ℕ) → IsTrace tr → IsEarlyText p tr.header tr.rows true text → EndsWithStart p tr text }
{}
