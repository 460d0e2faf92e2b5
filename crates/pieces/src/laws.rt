//! The laws of bounded until and since. Each is the contract of a call that does nothing, so that the gate proves it for every
//! kind of value.
ghost use Rattle.pieces.specs.Chains.{Chain, IsWorth, stop};
ghost use Rattle.pieces.specs.Sinces.{AreOver};
ghost use Rattle.rational.specs.UntilParts.{HasUntilToEnd, HasSinceFromStart, UntilIsComposed, SinceIsComposed};

use value_laws::Shape;

/// At each time, the value of a bounded until is the least of the Sup of its right side over the window and of the Inf, from now
/// up to where the window begins, of the until to the end. It holds for empty and clipped windows too.
///
/// Source: Donzé, Ferrère and Maler 2013 split a timed until so; finite domains and clipped windows are this project's profile.
pub fn until_is_composed<P: Shape>()
    ensures { (a b : Chain P) → HasUntilToEnd P.lowest P.highest a.from.at (stop a).at (IsWorth P.Shape a) (IsWorth P.Shape b)
        → UntilIsComposed P.lowest P.highest a.from.at (stop a).at (IsWorth P.Shape a) (IsWorth P.Shape b) }
{}

/// The mirror image for since, whose window may reach back to the start.
pub fn since_is_composed<P: Shape>()
    ensures { (a b : Chain P) → HasSinceFromStart P.lowest P.highest a.from.at (stop a).at (IsWorth P.Shape a) (IsWorth P.Shape b)
        → SinceIsComposed P.lowest P.highest a.from.at (stop a).at (IsWorth P.Shape a) (IsWorth P.Shape b) }
{}

/// An until to the end of two chains that begin just before one time and end just after one has a value at each time between.
pub fn until_has_values<P: Shape>()
    ensures { (a b : Chain P) → AreOver P.Shape a b
        → HasUntilToEnd P.lowest P.highest a.from.at (stop a).at (IsWorth P.Shape a) (IsWorth P.Shape b) }
{}

/// A since from the start of such chains has a value at each time between.
pub fn since_has_values<P: Shape>()
    ensures { (a b : Chain P) → AreOver P.Shape a b
        → HasSinceFromStart P.lowest P.highest a.from.at (stop a).at (IsWorth P.Shape a) (IsWorth P.Shape b) }
{}
