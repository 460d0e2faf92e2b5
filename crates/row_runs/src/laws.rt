//! Laws of the run in which each row, and the end, is followed by a step of every node. Each is the contract of a call that does nothing, so
//! that the gate proves it.
ghost use Rattle.row_runs.specs.RowByRow.{RunsStandForRows, WatchesStandForRows};

/// A run whose nodes step once for the rows of a block stands for the run in which each row is followed by a step of every node: that run exists,
/// with the same rows and the same number of every node, and what a node gave out, and what an edge holds, is the same, but that neighbours of
/// one truth may be merged.
pub fn runs_stand_for_rows()
    ensures { RunsStandForRows }
{}

/// A watch, after each step of its network and after the end, stands for the run in which each row is followed by a step of every node; where
/// neighbours on an edge have one truth, it may hold them merged.
pub fn watches_stand_for_rows()
    ensures { WatchesStandForRows }
{}
