//! Laws of explanations. Each is the contract of a call that does nothing, so that the gate proves it.
ghost use Rattle.implicants.specs.Counting.{OneCount, OneIsTooMany, TooManyIsMore};
ghost use Rattle.implicants.specs.Keeping.{CoveredFailsCertainly, CertaintyGrows, KeptIsEnough, KeptIsNeeded, OneIsKept};

/// More items keep what is certain.
pub fn certainty_grows()
    ensures { CertaintyGrows }
{}

/// Where all cells make the formula certainly false at the start, those that are kept do.
pub fn kept_is_enough()
    ensures { KeptIsEnough }
{}

/// Without one of the cells that are kept the others do not.
pub fn kept_is_needed()
    ensures { KeptIsNeeded }
{}

/// Of the same cells one list is kept.
pub fn one_is_kept()
    ensures { OneIsKept }
{}

/// Where items cover every atom at every time, what fails is certainly false.
pub fn nothing_is_uncertain()
    ensures { CoveredFailsCertainly }
{}

/// The cells of the same nodes have one count, and the limit is passed at one running sum, and only where all cells are more.
pub fn count_is_one()
    ensures count { OneCount }
    ensures passed { OneIsTooMany }
    ensures more { TooManyIsMore }
{}
