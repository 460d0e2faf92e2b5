//! Laws on the texts of several commands for one formula and one trace. Each is the contract of a call that does nothing, so that the gate proves it.
ghost use Rattle.agreeing.specs.Contents.{JsonTellsAll, TableHasTheKnots};
ghost use Rattle.agreeing.specs.Signs.{LinesAgreeInSign, RowsAgreeInSign, ReportsAgreeInSign};
ghost use Rattle.agreeing.specs.Starts.{OneStart, EarlyIsNoLater};
ghost use Rattle.agreeing.specs.Joined.{CoversJoin};
ghost use Rattle.agreeing.specs.Wides.{InputWidesAreWhole, StreamedWidesAreWhole};

/// At each time of the trace a margin above 0 is a true verdict, and one below 0 a false verdict: so of the lines of `check` and of
/// `robust`, of the lines of `check` and the rows of `table`, and of the two parts of what `json` writes.
pub fn margins_and_verdicts_agree()
    ensures lines { LinesAgreeInSign }
    ensures rows { RowsAgreeInSign }
    ensures report { ReportsAgreeInSign }
{}

/// `json` tells the verdicts of `check`, the knots of `robust` and of `table`, and the items and the start of `explain`.
pub fn json_tells_all()
    ensures { JsonTellsAll }
{}

/// `table` has the knots of `robust`.
pub fn table_has_the_knots()
    ensures { TableHasTheKnots }
{}

/// `check`, `explain` and `json`, and in the end `watch` and `early`, tell one truth at the start: the formula's.
pub fn one_start()
    ensures { OneStart }
{}

/// `early` is no later than `watch`: once `watch` has written a verdict for the rows so far, `early` has told the start, and as `watch` does.
pub fn early_is_no_later()
    ensures { EarlyIsNoLater }
{}

/// Verdicts that lead through the trace without gap and tell the truth, as those of `watch` do, are those of `check` once they are joined
/// where one truth goes on.
pub fn covers_join()
    ensures { CoversJoin }
{}

/// What `rwatch` is refused for at a row is a cause in each trace that goes on from the rows, and at the end one in the trace of all rows: what
/// needs the denominator is in play there too. So it is of some bytes, over the trace of these bytes and whatever follows them.
pub fn streamed_wides_are_whole()
    ensures rows { StreamedWidesAreWhole }
    ensures input { InputWidesAreWhole }
{}
