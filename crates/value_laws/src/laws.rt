//! The laws of shapes. Each is the contract of a call that does nothing, so that the gate proves it.
ghost use Rattle.value_laws.specs.Laws.{NegationIsExact, MovesAreExact, OrderIsTotal, MeetOnce, LiesBetween, ComesClose, FixedIsConstant};

/// Negation done twice gives the function back, and it turns the order over.
pub fn negation_is_exact()
    ensures { NegationIsExact }
{}

/// Moves add up: one after the other is one move by the sum.
pub fn moves_are_exact()
    ensures { MovesAreExact }
{}

/// Of two functions at a time, one is less, or they are equal.
pub fn order_is_total()
    ensures { OrderIsTotal }
{}

/// Two functions that differ meet at most once.
pub fn meet_once()
    ensures { MeetOnce }
{}

/// On an open interval a value lies between those at the ends.
pub fn lies_between()
    ensures { LiesBetween }
{}

/// On an open interval the values come as close to those at the ends as one likes.
pub fn comes_close()
    ensures { ComesClose }
{}

/// A function that has at every time the value of another at one time is constant.
pub fn fixed_is_constant()
    ensures { FixedIsConstant }
{}
