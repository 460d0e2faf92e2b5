//! Laws of the run that a stream of rows drives. Each is the contract of a call that does nothing, so that the gate proves it.
ghost use Rattle.watch_bounds.specs.Holdings.{RowsHoldFew, WatchHoldsFew, WatchOwesFew};
ghost use Rattle.watch_bounds.specs.Work.{RowsAreLittleWork, WorkIsLinear};

/// After each step of its network, and after the end, a watch holds on all edges together at most so many verdicts for each row of the last ticks,
/// as many ticks as the formula looks ahead and back, and for one row more, however long the trace.
pub fn watch_holds_few()
    ensures { WatchHoldsFew }
{}

/// Between two steps, as within a piece of the input, it holds at most so many more for each row that came since.
pub fn watch_owes_few()
    ensures { WatchOwesFew }
{}

/// Over the whole run the steps of all nodes, the verdicts that they put onto edges and those that are let go of are together at most so many for
/// each row, and for one row more: as many as the formula alone says.
pub fn work_is_linear()
    ensures { WorkIsLinear }
{}

/// How many verdicts for a row all edges hold, and how much work a row is: at most 10 and 21 for each two of the formula's operators, atoms and
/// constants.
pub fn rows_are_cheap()
    ensures held { RowsHoldFew }
    ensures work { RowsAreLittleWork }
{}
