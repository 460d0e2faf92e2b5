//! Laws of several sessions in one input. Each is the contract of a call that does nothing, so that the gate proves it.
ghost use Rattle.session_laws.specs.Hearing.{EachHearsItsEnd, EachHearsWhatIsSaid};
ghost use Rattle.session_mux.specs.SessionsAlone.{EachIsAsAlone, EachIsAsAloneToItsEnd, OneTextAlone, OthersAddNothing, OthersAddNothingAtTheEnd};

/// Given bytes, ended or not, get a session at most one text by itself: the stream of the rows before the first fault, and its line.
pub fn one_text_alone()
    ensures { OneTextAlone }
{}

/// What a session is told by the answers to the lines of many, query by query left out, is what the bytes of its own lines get alone.
pub fn each_session_is_as_alone()
    ensures { EachIsAsAlone }
{}

/// Two inputs that agree on the lines of a tag tell its session the same, however the lines of others come between.
pub fn other_sessions_add_nothing()
    ensures { OthersAddNothing }
{}

/// What a session is told in all, the end of the input with it, is what the bytes of its own lines get alone, with their end.
pub fn each_session_is_as_alone_to_its_end()
    ensures { EachIsAsAloneToItsEnd }
{}

/// Two inputs that agree on the lines of a tag tell its session the same to the end of the input: others add nothing.
pub fn other_sessions_add_nothing_at_the_end()
    ensures { OthersAddNothingAtTheEnd }
{}

/// The lines of all that was written which begin with a tag and a space, and do not answer a query, are those that its session is told.
/// The names of the formula have no LF, as those of a formula that was read.
pub fn each_bench_hears_what_is_said()
    ensures { EachHearsWhatIsSaid }
{}

/// The lines that were written in all, those of the end of the input with them, which begin with a tag and a space, and do not answer a
/// query, are those that its session is told.
pub fn each_bench_hears_its_end()
    ensures { EachHearsItsEnd }
{}
