//! Laws of the definitions. Each is the contract of a call that does nothing, so that the gate proves it.
ghost use Rattle.values_exist.specs.Laws.{MarginsExist, TruthsExist, CertaintiesExist, OneRobustness, TruthIsDecided, CertaintyIsDecided};
ghost use Rattle.values_exist.specs.Laws.{TruthByValues, CertaintyByValues, AnsweredIsSettled, RowsDecide, MarginsHold};

/// Each formula over each trace, and each formula below it, has a value at each time of the domain, and a Sup and an Inf between each
/// two times: with atoms read as their margins, as their truth, and as their truth where items cover them.
pub fn values_exist()
    ensures margins { MarginsExist }
    ensures truths { TruthsExist }
    ensures certainties { CertaintiesExist }
{}

/// The robustness is one number, -inf or inf at each time of the domain.
pub fn one_robustness()
    ensures { OneRobustness }
{}

/// A formula holds at a time of the domain, or does not.
pub fn truth_is_decided()
    ensures { TruthIsDecided }
{}

/// By items a formula is certainly true at a time of the domain, certainly false, or neither.
pub fn certainty_is_decided()
    ensures { CertaintyIsDecided }
{}

/// With atoms read as 1 and -1 the value is 1 exactly where the formula holds, and -1 exactly where it fails.
pub fn truth_by_values()
    ensures { TruthByValues }
{}

/// With atoms read as 1 and -1 where items cover them and as 0 elsewhere, the value is 1 exactly on what is certainly true,
/// and -1 exactly on what is certainly false.
pub fn certainty_by_values()
    ensures { CertaintyByValues }
{}

/// Where rows reach a time and the horizon after it, they settle the formula there, true where it holds and false where it fails.
pub fn answered_is_settled()
    ensures { AnsweredIsSettled }
{}

/// Rows up to the start and the horizon after it decide.
pub fn rows_decide()
    ensures { RowsDecide }
{}

/// A robustness of absolute value above `e` tells the truth in every trace whose expressions differ by at most `e`.
pub fn margins_hold()
    ensures { MarginsHold }
{}
