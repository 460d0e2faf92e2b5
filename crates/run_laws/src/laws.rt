//! Laws of runs. Each is the contract of a call that does nothing, so that the gate proves it.
ghost use Rattle.run_laws.specs.Crowd.{HearsAFront, HearsItsOwnRun, OthersChangeNothing};
ghost use Rattle.run_laws.specs.OneAnswer.{BesideAWide, FrontOfMore, FrontOfTheAnswer, OneAnswer, OneAnswerToWords};

/// It does not matter how one asked: two runs whose words ask for one request, over inputs with the same bytes where it reads any, have the
/// same status, put the same text at the end of their outputs and tell the same line, however the bytes came in pieces and whatever the
/// outputs held, where neither ended with 5, 6, 7 or 8. So do two runs of one list of words.
pub fn one_answer()
    ensures request { OneAnswer }
    ensures words { OneAnswerToWords }
{}

/// What a run wrote, however it ended, is the front of the text of each run for the same request over the same input that did not end with
/// 5, 6, 7 or 8. Where its source had not said its end, as where it failed, the other's input may go on from its own.
pub fn what_was_written_is_of_the_answer()
    ensures answer { FrontOfTheAnswer }
    ensures more { FrontOfMore }
{}

/// Beside a run that ended with 8, each run for the same request over the same input that ended neither with 5, 6 nor 7 ended with 8 too,
/// maybe by another cause, where one of the texts begins with the other; or it answered; or, of `rwatch`, told the first fault: then its text
/// begins with the other's.
pub fn beside_a_refusal_for_a_denominator()
    ensures { BesideAWide }
{}

/// What a bench hears in a crowd is its own run: of what a run of `mux` wrote that ended with 0, the lines that begin with a tag and a space,
/// answers to queries left out, are those that a run of `watch` for the same formula wrote over the bytes of the tag's own lines, with the
/// line that it told where it ended with 4. So two runs of `mux` that ended with 0 tell a bench the same whose own lines are the same. However
/// a run of `mux` ended, of its whole lines the bench hears the first of those of its own run.
pub fn a_bench_hears_its_own_run()
    ensures whole { HearsItsOwnRun }
    ensures others { OthersChangeNothing }
    ensures front { HearsAFront }
{}
