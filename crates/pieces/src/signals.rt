//! A chain of pieces as a signal of knots, and a signal as pieces.
ghost use Rattle.std.specs.Prelude.{◌≡◌, ◌<◌, ◌^◌, ◌↔◌, length, slice_get, Some, true, false, IfOk, OnOk};
ghost use Rattle.rational.specs.Rational.{IsWithin, Rational};
ghost use Rattle.rational.specs.Time.{◌<ʳ◌, ◌≈◌};
ghost use Rattle.rational.specs.Extended.{Extended, value_at};
ghost use Rattle.rational.specs.Places.{Same};
ghost use Rattle.frac128.specs.Value.{value};
ghost use Rattle.pl_signal.specs.Knots as knots;
ghost use Rattle.pl_signal.specs.Limits as limits;
ghost use Rattle.pl_signal.specs.Moves as moves;
ghost use Rattle.pieces.specs.declared.piece.Piece.{Piece as Part};
ghost use Rattle.pieces.specs.Chains.{Chain, IsLimited, IsWorth, Tells, HasShape, end, stop};
ghost use Rattle.pieces.specs.Building.{GoesOn};
ghost use Rattle.pieces.specs.Knots.{before, after, GoesOnBy, IsAdded};

use crate::Pieces;
use frac128::{Cut, Frac, Memory};
use pl_signal::{Builder, Knot, Signal};
use std::cmp::Ordering;
use value_laws::Shape;

/// The signal of what the chain is worth, which begins with the first time of the chain and ends with its last one.
///
/// # Errors
///
/// `Memory` where memory is wanting.
pub fn signal_of<P: Shape>(chain: &Pieces<P>) -> Result<Signal<P>, Memory>
    requires some { 0 < length chain.now.pieces }
    requires begins { chain.now.from.after ≡ false }
    requires ends { (stop chain.now).after ≡ true }
    requires from_within { IsWithin (2 ^ 34) chain.now.from.at }
    requires to_within { IsWithin (2 ^ 34) (stop chain.now).at }
    ensures worth { IfOk result (moves.Tells P.Shape (IsWorth P.Shape chain.now) chain.now.from.at (stop chain.now).at) }
    ensures shapes { IfOk result (λ r. (p : P) → knots.HasShape r p → HasShape chain.now p) }
{
    let count = chain.len();
    let first = chain.piece(0).shape;
    let mut at = chain.from();
    let mut built = Builder::with_room(chain.alloc(), at.time, first, count.saturating_add(1))?;
    for i in 0..count {
        add_piece(&mut built, chain, i, &at)?;
        at = chain.piece(i).until;
    }
    Ok(built.finish())
}

/// Goes on with a piece of the chain, which begins at a place: with its gap and what stands at its end. A piece of one time is in the
/// signal already.
fn add_piece<P: Shape>(
    built: &mut Builder<P>,
    chain: &Pieces<P>,
    i: usize,
    at: &Cut,
) -> Result<(), Memory>
    requires place { i < length chain.now.pieces }
    requires ends { (stop chain.now).after ≡ true }
    requires here { value at.now.time ≈ knots.stop built.old }
    requires within { IsWithin (2 ^ 34) (knots.stop built.old) }
    ensures { OnOk result ((p : Part P) → slice_get chain.now.pieces i ≡ Some p
        → IsAdded P.Shape chain.now (value at.now.time) p built.old built.new) }
{
    let piece = chain.piece(i);
    match at.time.cmp(&piece.until.time) {
        Ordering::Less => built.go_along(&piece.shape, &piece.until.time, shape_at_end(chain, i)),
        _ => Ok(()),
    }
}

/// A shape that has the chain's value at the time at which the piece ends.
fn shape_at_end<P: Shape>(chain: &Pieces<P>, i: usize) -> &P
    requires place { i < length chain.now.pieces }
    requires ends { (stop chain.now).after ≡ true }
    ensures shape { HasShape chain.now result.now }
    ensures worth { (p : Part P) → slice_get chain.now.pieces i ≡ Some p
        → IsWorth P.Shape chain.now (end p).at (value_at (P.function result.now) (end p).at) }
{
    // For the proof alone: that the chain is normal is a clause of `len`.
    let _ = chain.len();
    let piece = chain.piece(i);
    if piece.until.side == 0 {
        return &chain.piece(i + 1).shape;
    }
    &piece.shape
}

/// The pieces of a signal: of each gap, and of each point at which the gap behind it has another value. At each time both have one value.
///
/// # Errors
///
/// `Memory` where memory is wanting.
pub fn pieces_of<P: Shape>(signal: &Signal<P>) -> Result<Pieces<P>, Memory>
    requires { limits.IsLimited P.Shape signal.now }
    ensures worth { IfOk result
        (Tells P.Shape (knots.IsWorth P.Shape signal.now) (before (knots.start signal.now)) (after (knots.stop signal.now))) }
    ensures alike { IfOk result (λ r. (t : Rational) (v : Extended) → IsWorth P.Shape r t v ↔ knots.IsWorth P.Shape signal.now t v) }
    ensures limited { IfOk result (IsLimited P.Shape) }
    ensures shapes { IfOk result (λ r. (p : P) → HasShape r p → knots.HasShape signal.now p) }
{
    let last = signal.len() - 1;
    let from = Cut {
        time: signal.start(),
        side: 0,
    };
    let mut built = Pieces::with_room(signal.alloc(), &from, last.saturating_add(1))?;
    for i in 0..last {
        let knot = signal.knot_in_place(i);
        let next = signal.knot_in_place(i + 1);
        put_knot(&mut built, knot, &next.time)?;
    }
    let end = signal.knot_in_place(last);
    built.put(&just_after(&end.time), &end.point)?;
    Ok(built)
}

/// Goes on with the point of a knot, where the gap behind it has another value there, and with that gap up to a time.
fn put_knot<P: Shape>(built: &mut Pieces<P>, knot: &Knot<P>, to: &Frac) -> Result<(), Memory>
    requires begins { Same (stop built.old) (before (value knot.now.time)) }
    requires from_within { IsWithin (2 ^ 34) (value knot.now.time) }
    requires order { value knot.now.time <ʳ value to.now }
    ensures { OnOk result (GoesOnBy P.Shape built.old knot.now to.now built.new) }
{
    let until = Cut { time: *to, side: 0 };
    match P::cmp_at(&knot.point, &knot.after, &knot.time) {
        Ordering::Equal => built.put(&until, &knot.after),
        _ => put_both(built, knot, &until),
    }
}

/// Goes on with the point of a knot, and with the gap behind it up to a place.
fn put_both<P: Shape>(built: &mut Pieces<P>, knot: &Knot<P>, until: &Cut) -> Result<(), Memory>
    requires begins { Same (stop built.old) (before (value knot.now.time)) }
    requires from_within { IsWithin (2 ^ 34) (value knot.now.time) }
    requires order { value knot.now.time <ʳ value until.now.time }
    ensures { OnOk result ((half : Chain P) × GoesOn P.Shape built.old (record { time = knot.now.time; side = 1 }) knot.now.point half
        × GoesOn P.Shape half until.now knot.now.after built.new) }
{
    let here = just_after(&knot.time);
    built.put(&here, &knot.point)?;
    built.put(until, &knot.after)
}

/// The place just after a time.
fn just_after(time: &Frac) -> Cut
    ensures { result ≡ record { time = time.now; side = 1 } }
{
    Cut {
        time: *time,
        side: 1,
    }
}
