//! The laws of bounded until and since. Each is the contract of a call that does nothing, so that the gate proves it for every
//! kind of value.
ghost use Rattle.std.specs.Prelude.{List};
ghost use Rattle.rational.specs.Time.{◌≈◌};
ghost use Rattle.pl_signal.specs.declared.knot.Knot.{Knot};
ghost use Rattle.pl_signal.specs.Knots.{IsSignal, IsWorth, start, stop};
ghost use Rattle.rational.specs.UntilParts.{HasUntilToEnd, HasSinceFromStart, UntilIsComposed, SinceIsComposed};

use value_laws::Shape;

/// At each time, the value of a bounded until is the least of the Sup of its right side over the window and of the Inf, from now
/// up to where the window begins, of the until to the end. It holds for empty and clipped windows too.
///
/// Source: Donzé, Ferrère and Maler 2013 split a timed until so; finite domains and clipped windows are this project's profile.
pub fn until_is_composed<P: Shape>()
    ensures { (p q : List (Knot P)) → IsSignal P.Shape p
        → HasUntilToEnd P.lowest P.highest (start p) (stop p) (IsWorth P.Shape p) (IsWorth P.Shape q)
        → UntilIsComposed P.lowest P.highest (start p) (stop p) (IsWorth P.Shape p) (IsWorth P.Shape q) }
{}

/// The mirror image for since, whose window may reach back to the start.
pub fn since_is_composed<P: Shape>()
    ensures { (p q : List (Knot P)) → IsSignal P.Shape p
        → HasSinceFromStart P.lowest P.highest (start p) (stop p) (IsWorth P.Shape p) (IsWorth P.Shape q)
        → SinceIsComposed P.lowest P.highest (start p) (stop p) (IsWorth P.Shape p) (IsWorth P.Shape q) }
{}

/// An until to the end of two signals over one domain has a value at each time of it.
pub fn until_has_values<P: Shape>()
    ensures { (p q : List (Knot P)) → IsSignal P.Shape p → IsSignal P.Shape q → start p ≈ start q → stop p ≈ stop q
        → HasUntilToEnd P.lowest P.highest (start p) (stop p) (IsWorth P.Shape p) (IsWorth P.Shape q) }
{}

/// A since from the start of two signals over one domain has a value at each time of it.
pub fn since_has_values<P: Shape>()
    ensures { (p q : List (Knot P)) → IsSignal P.Shape p → IsSignal P.Shape q → start p ≈ start q → stop p ≈ stop q
        → HasSinceFromStart P.lowest P.highest (start p) (stop p) (IsWorth P.Shape p) (IsWorth P.Shape q) }
{}
