//! Laws of places, of runs and of what stands on edges. Each is the contract of a call that does nothing, so that the gate
//! proves it.
ghost use Rattle.online_nodes.specs.Laws.{EachHasOneReader, EdgesGrow, EmittedIsWhole, EmittedStays, FrontsAreTimes};
ghost use Rattle.online_nodes.specs.Laws.{HasTimesBetween, JoinedAreFew, MeetingIsWhatIsLeft, MeetingLaterIsWhatIsLeft};
ghost use Rattle.online_nodes.specs.Laws.{NumbersNeverFall, NumbersSettle, NumbersStayWithinHorizons};
ghost use Rattle.online_nodes.specs.Laws.{OpenNumbersSettle, OthersGiveNothing, PlainEdgesHoldSegments, RootEdgesGrow, TakenWereGivenOut};
ghost use Rattle.online_nodes.specs.Looking.{ConnectivesJoin, SinceRemembersWhatItKnows, UntilAndSinceLook, UntilRemembersWhatItKnows, WindowsLook};

/// Between two places there is a time.
pub fn has_times_between()
    ensures { HasTimesBetween }
{}

/// In a run each node's number is at most the last row's time, and before the end so it is with the node's horizon added.
pub fn numbers_stay_within_horizons()
    ensures { NumbersStayWithinHorizons }
{}

/// In a run no node's number falls.
pub fn numbers_never_fall()
    ensures { NumbersNeverFall }
{}

/// What a node gave out in a run leads from the start to its front without gap, and any two lists of it are alike.
pub fn emitted_is_whole()
    ensures { EmittedIsWhole }
{}

/// No more of the root's verdicts were taken in a run than it gave out.
pub fn taken_were_given_out()
    ensures { TakenWereGivenOut }
{}

/// Each verdict that a node gives out in a run, in any order of its events, is its truth in every trace that goes on from the
/// rows.
pub fn emitted_stays()
    ensures { EmittedStays }
{}

/// A step of one node, a take and the end add nothing to what another node gave out.
pub fn others_give_nothing()
    ensures { OthersGiveNothing }
{}

/// Each node of a formula but the root is the input of just one other node, and the root of none.
pub fn each_has_one_reader()
    ensures { EachHasOneReader }
{}

/// What an edge must hold of a node's verdicts is what is left when those that end too early are dropped from the front.
pub fn meeting_is_what_is_left()
    ensures { MeetingIsWhatIsLeft }
{}

/// What meets a stretch that begins later is what is left, from the front, of what met one that begins earlier.
pub fn meeting_later_is_what_is_left()
    ensures { MeetingLaterIsWhatIsLeft }
{}

/// The segments that a reader needs after one event more are those that it needed, with what the node gave out at that event.
pub fn edges_grow()
    ensures { EdgesGrow }
{}

/// An edge that does not join holds just the segments that its reader may still need.
pub fn plain_edges_hold_segments()
    ensures { PlainEdgesHoldSegments }
{}

/// An edge, whether it joins or not, holds no more than the segments that its reader may still need.
pub fn joined_are_few()
    ensures { JoinedAreFew }
{}

/// The root's edge holds what was not taken, after one event more.
pub fn root_edges_grow()
    ensures { RootEdgesGrow }
{}

/// Where no node is ready, each number is the last row's time less the node's horizon, and after the end that time itself.
pub fn numbers_settle()
    ensures { NumbersSettle }
{}

/// Where no node can move before the end, each node's number is the last row's time less its horizon, if so are its children's.
pub fn open_numbers_settle()
    ensures { OpenNumbersSettle }
{}

/// In the run that a stream drives, where rows, or the end, are followed by a step of every node, the front of each node is the last
/// row's time less the horizon, and after the end that time itself.
pub fn fronts_are_times()
    ensures { FrontsAreTimes }
{}

/// Negation and the connectives are at each time what their inputs' truths make of them.
pub fn connectives_join()
    ensures { ConnectivesJoin }
{}

/// The four windows look, at a time t, from one place to another for a time at which their input holds or fails.
pub fn windows_look()
    ensures { WindowsLook }
{}

/// Until and since are so by the places between which their windows lie.
pub fn until_and_since_look()
    ensures { UntilAndSinceLook }
{}

/// What until keeps in mind of its inputs alone says, in any trace, what holds of the node.
pub fn until_remembers_what_it_knows()
    ensures { UntilRemembersWhatItKnows }
{}

/// What since keeps in mind of its inputs alone says, in any trace, what holds of the node.
pub fn since_remembers_what_it_knows()
    ensures { SinceRemembersWhatItKnows }
{}
