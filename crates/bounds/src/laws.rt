//! Laws of the definitions. Each is the contract of a call that does nothing, so that the gate proves it.
ghost use Rattle.bounds.specs.Books.{BooksAreRight, EdgesLetGo};
ghost use Rattle.bounds.specs.Held.{EdgesAreBounded};
ghost use Rattle.bounds.specs.Parts.{PlacesHaveFewParts, RowsCostFew};
ghost use Rattle.bounds.specs.Rests.{EdgesAreFew, GivenAreFew, MovesAreFew};
ghost use Rattle.bounds.specs.Steady.{SteadyAtomsKeepTruths, SteadyAtomsAnswerOnce};
ghost use Rattle.bounds.specs.Turns.{TurnsAreFew, VerdictsAreFew};

/// The truth of a formula turns within a stretch of time at most so many times for each row, and once more, that lies within the stretch and
/// the reach of the formula before and after it.
pub fn turns_are_few()
    ensures { TurnsAreFew }
{}

/// The verdicts that describe a formula on a stretch are at most twice as many as its truth may turn there, and one, however long the trace.
pub fn verdicts_are_few()
    ensures { VerdictsAreFew }
{}

/// What an edge of the streaming network holds in a run, in any order of its events, is bounded by the rows in and about the stretch that its
/// reader may still need and by how often the node's front moved to a time within that stretch, however long the trace.
pub fn edges_are_bounded()
    ensures { EdgesAreBounded }
{}

/// In a run, in any order of its events, the front of a node moves to a time of a stretch no oftener than so many times for each row in and about
/// the stretch, and once more, at the end.
pub fn moves_are_few()
    ensures { MovesAreFew }
{}

/// What an edge of the streaming network holds in a run is bounded by the rows in and about the stretch that its reader may still need, however
/// long the trace.
pub fn edges_are_few()
    ensures { EdgesAreFew }
{}

/// Over a run, in any order of its events, a node gives out at most so many verdicts for each row, and for one row more, and one.
pub fn given_are_few()
    ensures { GivenAreFew }
{}

/// What an edge holds after one event more of a run is no more than what it held and what its node gave out at it: nothing comes back.
pub fn edges_let_go()
    ensures { EdgesLetGo }
{}

/// The books of an edge over a run are right: each verdict that was put is held or was let go of, once; and few are put, by the rows.
pub fn books_are_right()
    ensures { BooksAreRight }
{}

/// For a row the truth of a formula turns at most four times for each of its operators, atoms and constants, and its edge holds or gets at most nine
/// verdicts for each: neither how they nest nor how wide their windows are matters.
pub fn rows_cost_few()
    ensures { RowsCostFew }
{}

/// The formula at a place has no more operators, atoms and constants than there are nodes up to it.
pub fn places_have_few_parts()
    ensures { PlacesHaveFewParts }
{}

/// Where the atoms of a formula do not turn on a stretch of the trace, the formula does not turn there either, but near the begin as far as it looks
/// back, and near the end as far as its horizon. So what its truth is then needs no evaluation: it is what it was.
pub fn steady_atoms_keep_truths()
    ensures { SteadyAtomsKeepTruths }
{}

/// While no atom turns, and has not for as long as the formula looks back, what a further row answers is one verdict, with the truth at the time that was
/// answered last.
pub fn steady_atoms_answer_once()
    ensures { SteadyAtomsAnswerOnce }
{}
