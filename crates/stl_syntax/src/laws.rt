//! Laws of the definitions. Each is the contract of a call that does nothing, so that the gate proves it.
ghost use Rattle.stl_syntax.specs.Laws.{TruthIsOfTimes, ValuesAreOfTimes, CertaintyIsOfTimes, OneValue, CertaintyHasValues};
ghost use Rattle.stl_syntax.specs.Laws.{TruthByValues, CertaintyByValues, CertaintyIsTruth, ExplanationsHold, AnswersStay};
ghost use Rattle.stl_syntax.specs.Laws.{AnsweredMarginsStay, AnsweredIsSettled, RowsDecide, SettledIsOfTimes};
ghost use Rattle.stl_syntax.specs.Laws.{UntilIsSettledByParts, UntilFailsByParts, SinceIsSettledByParts, SinceFailsByParts};
ghost use Rattle.stl_syntax.specs.Laws.{DecisionsStay, MarginsHold, OneListOfVerdicts, OneListOfMargins, OnePrintedText};
ghost use Rattle.stl_syntax.specs.Laws.{FormulasAreTrees};

/// The truth at a time does not depend on the pair of numbers by which the time is written.
pub fn truth_is_of_times()
    ensures { TruthIsOfTimes }
{}

/// The Sup-Inf value at a time does not depend on the pair by which the time is written.
pub fn values_are_of_times()
    ensures { ValuesAreOfTimes }
{}

/// What items leave certain at a time does not depend on the pair by which the time is written.
pub fn certainty_is_of_times()
    ensures { CertaintyIsOfTimes }
{}

/// A formula has at most one Sup-Inf value at a time.
pub fn one_value()
    ensures { OneValue }
{}

/// A trace with items gives each atom occurrence a value at each time; by the law of one value, just one.
pub fn certainty_has_values()
    ensures { CertaintyHasValues }
{}

/// With atoms read as 1 and -1 the value is 1 exactly where the formula holds, and -1 exactly where it fails.
pub fn truth_by_values()
    ensures { TruthByValues }
{}

/// With atoms read as 1 and -1 where items cover them and as 0 elsewhere, the value is 1 exactly on what is certainly true,
/// and -1 exactly on what is certainly false (Kleene's three values).
pub fn certainty_by_values()
    ensures { CertaintyByValues }
{}

/// What is certainly true holds, and what is certainly false fails.
pub fn certainty_is_truth()
    ensures { CertaintyIsTruth }
{}

/// What is certainly false at the start by the items is false there in every trace that agrees on them.
pub fn explanations_hold()
    ensures { ExplanationsHold }
{}

/// An answered truth is the truth in every trace that goes on from the rows.
pub fn answers_stay()
    ensures { AnswersStay }
{}

/// An answered robustness is the robustness in every trace that goes on from the rows.
pub fn answered_margins_stay()
    ensures { AnsweredMarginsStay }
{}

/// What is answered is settled: where rows reach a time and the horizon after it, they settle the formula there, true where it holds and false
/// where it fails. No third value is left.
pub fn answered_is_settled()
    ensures { AnsweredIsSettled }
{}

/// Rows up to the start and the horizon after it decide.
pub fn rows_decide()
    ensures { RowsDecide }
{}

/// What is settled does not depend on the pair by which a time is written.
pub fn settled_is_of_times()
    ensures { SettledIsOfTimes }
{}

/// Until is settled true exactly where its right side is settled true at some sure time of the window, and from each time up to the window its
/// left side goes on to such a time.
pub fn until_is_settled_by_parts()
    ensures { UntilIsSettledByParts }
{}

/// Until is settled false where its right side is all over the window, or where its left side fails before its right side can hold.
pub fn until_fails_by_parts()
    ensures { UntilFailsByParts }
{}

/// Since is settled true exactly where its right side is settled true at some time of the window, and back from each time after the window's
/// end its left side goes down to such a time.
pub fn since_is_settled_by_parts()
    ensures { SinceIsSettledByParts }
{}

/// Since is settled false where its right side is all over the window, or where its left side fails after its right side can hold.
pub fn since_fails_by_parts()
    ensures { SinceFailsByParts }
{}

/// What rows decide early is the truth at the start of every trace that goes on from them, and stays decided.
pub fn decisions_stay()
    ensures { DecisionsStay }
{}

/// A robustness of absolute value above `e` tells the truth in every trace whose expressions differ by at most `e`.
pub fn margins_hold()
    ensures { MarginsHold }
{}

/// At most one list of verdicts describes a formula on a stretch of time.
pub fn one_list_of_verdicts()
    ensures { OneListOfVerdicts }
{}

/// At most one list of knots describes the robustness of a formula.
pub fn one_list_of_margins()
    ensures { OneListOfMargins }
{}

/// A formula has at most one printed text.
pub fn one_printed_text()
    ensures { OnePrintedText }
{}

/// The nodes of a formula are one tree in post-order.
pub fn formulas_are_trees()
    ensures { FormulasAreTrees }
{}
