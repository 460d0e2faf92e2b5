//! Laws on what several commands answer to one input. Each is the contract of a call that does nothing, so that the gate proves it.
ghost use Rattle.agreeing_inputs.specs.Answers.{AnswersHaveOneContent, AnswersHaveOneStatus, WatchJoinsToCheck, RwatchJoinsToRobust};

/// What `json` answers is the verdicts and the start that `check` answers, the knots that `robust` and `table` answer, and the items that
/// `explain` answers.
pub fn answers_have_one_content()
    ensures { AnswersHaveOneContent }
{}

/// The lines of `watch`, joined where one truth goes on, are those of `check`.
pub fn watch_joins_to_check()
    ensures { WatchJoinsToCheck }
{}

/// The lines of `rwatch`, joined where one line of the margin goes on, are those of `robust`.
pub fn rwatch_joins_to_robust()
    ensures { RwatchJoinsToRobust }
{}

/// Where `check`, `explain`, `json`, `watch` or `early` answer one input, they end with one status: 0 where the formula holds at the start, and 1
/// where it fails.
pub fn answers_have_one_status()
    ensures { AnswersHaveOneStatus }
{}
