//! The least and the greatest over a window that moves over a function of time of which nothing is known past what has come.
ghost use Rattle.std.specs.Prelude.{◌≡◌, ◌⊎◌, ◌^◌, ◌-ℤ◌, ◌<ℤ◌, [], IsTrue, IfOk, IfSome, None, Some, OnErr, OnOk, false, true};
ghost use Rattle.rational.specs.Rational.{IsWithin, add, whole};
ghost use Rattle.rational.specs.Time.{Rational, ◌≤ʳ◌, ◌<ʳ◌};
ghost use Rattle.rational.specs.Extended.{value_at};
ghost use Rattle.rational.specs.Places.{AtMost, Before, Place, Same, Upto};
ghost use Rattle.frac128.specs.Value.{value as value_of};
ghost use Rattle.frac128.specs.Cuts.{place};
ghost use Rattle.window_extrema.specs.Range.{Range};
ghost use Rattle.pieces.specs.Best.{IsBetter};
ghost use Rattle.pieces.specs.Chains.{Chain, HasShape, Tells, end, stop};
ghost use Rattle.pieces.specs.Hands.{ClimbsAt, EndsHand, FirstGives, GoesFurther, GoesOnAs, HasClimbed, HasLeft, HasRested, IsTaken, Leaves, TellsClimb, TellsRest, TurnsTo};
ghost use Rattle.pieces.specs.Meeting.{HasMet, HasToldTo, IsBelow, IsHeldFault, Meets, Rises};
ghost use Rattle.pieces.specs.Over.{IsMovedTo};
ghost use Rattle.pieces.specs.Steps.{AreSteps, IsOfSteps};
ghost use Rattle.pieces.specs.Windows.{BestOver, BestTo, HasEntered};
ghost use Rattle.pieces.specs.Streaming.{CanFollow, ComesNext, Follows, FollowsSteps, HasAll, IsAt, IsAtSteps, IsNextSeen, before_time};
ghost use Rattle.pieces.specs.Causes.{IsCauseBelow, IsHeldCause};

use crate::constants::{count_further, counts_longer, steps_of, take_up, tell_best};
use crate::reach::{Reach, Way, at_high, at_low, entering};
use crate::sliding::Sliding;
use crate::steps::{Step, slide};
use crate::window::{enter, falling, is_empty, left, of_none, reached, rising, steady, trend};
use crate::{Piece, Pieces};
use frac128::{Cut, Frac, Memory};
use pl_signal::{Side, WidePair, chosen_in_place};
use std::alloc::Global;
use std::cmp::Ordering;
use std::collections::VecDeque;
use value_laws::Shape;
use window_extrema::RangeMax;

/// A window on its way over a function of time that comes piece by piece.
///
/// What it says of a chain holds of each that begins with the pieces that it has met: `Follows`. A piece may go on where it was met up to,
/// and only then is it known to end there; a piece that gets better is climbed, and its last value counts once a later one comes.
#[derive(Drop)]
pub struct Stream<P: Shape> {
    pub(crate) way: Way,
    pub(crate) sliding: Sliding<P>,
    /// As long as all pieces were constants: which of them is the best. They stand in the place of the steps.
    pub(crate) range: Option<RangeMax<P>>,
    /// The shape of the piece at hand, and its trend towards better values.
    pub(crate) piece: Option<P>,
    pub(crate) trend: Ordering,
    /// The place before which all was met.
    pub(crate) met: Cut,
}

impl<P: Shape> Stream<P> {
    /// It has met no piece yet of a function that begins at `from`, and goes on no further than to `to`.
    pub fn begin(alloc: Global, side: Side, over: Reach, from: &Cut, to: &Cut) -> Stream<P>
        ensures follows { (s : Chain P) → CanFollow P.Shape s (record { side = side; over = over; to = to.now }) (place from.now)
            → Follows P.Shape s result }
        ensures way { result.way ≡ record { side = side; over = over; to = to.now } }
        ensures met { place result.met ≡ place from.now }
        ensures told { result.sliding.out ≡ record { from = place from.now; pieces = [] } }
    {
        Stream {
            way: Way {
                side,
                over,
                to: *to,
            },
            sliding: Sliding {
                out: Pieces::start(alloc, from),
                steps: VecDeque::new(alloc),
            },
            range: first_range(alloc, &over),
            piece: None,
            trend: Ordering::Equal,
            met: *from,
        }
    }

    /// What it has told since `restart`, or from the begin on.
    pub fn told(&self) -> &Pieces<P>
        ensures { result.now ≡ self.now.sliding.out }
    {
        &self.sliding.out
    }

    /// What it has told is taken: it goes on telling from where that ends.
    pub fn restart(&mut self)
        ensures follows { (s : Chain P) → Follows P.Shape s self.old → Follows P.Shape s self.new }
        ensures way { self.new.way ≡ self.old.way }
        ensures met { self.new.met ≡ self.old.met }
        ensures told { self.new.sliding.out ≡ record { from = stop self.old.sliding.out; pieces = [] } }
    {
        self.sliding.out.restart();
    }

    /// Whether what comes next counts before the time.
    pub fn comes(&self, to: &Frac) -> bool
        requires { (s : Chain P) × Follows P.Shape s self.now }
        ensures is { IsTrue result → (place self.now.met).at <ʳ add (value_of to.now) (whole self.now.way.over.high) }
        ensures not { result ≡ false → add (value_of to.now) (whole self.now.way.over.high) ≤ʳ (place self.now.met).at }
    {
        let upto = Cut { time: *to, side: 0 };
        entering(&self.way.over, &self.met).precedes(&upto)
    }

    /// Whether the high end stands at the time where what comes next begins, and no point of it was met. What comes next does not count before.
    pub fn stands(&self, to: &Frac) -> bool
        requires follows { (s : Chain P) × Follows P.Shape s self.now }
        requires not { add (value_of to.now) (whole self.now.way.over.high) ≤ʳ (place self.now.met).at }
        ensures is { IsTrue result → Same (place self.now.met) (before_time (add (value_of to.now) (whole self.now.way.over.high))) }
        ensures not { result ≡ false → ¬ Same (place self.now.met) (before_time (add (value_of to.now) (whole self.now.way.over.high))) }
    {
        let past = Cut { time: *to, side: 1 };
        entering(&closed(&self.way.over), &self.met).precedes(&past)
    }

    /// Lets the window meet what comes next, or goes on with the piece at hand.
    ///
    /// # Errors
    ///
    /// `Memory` where a crossing of two shapes that count, or a value that counts, needs a denominator of 2^60 or more: the pair is then in
    /// `fault`; and where memory is wanting. The window is of no use then.
    pub fn meet(&mut self, piece: &Piece<P>, fault: &mut Option<WidePair<P>>) -> Result<(), Memory>
        requires next { (s : Chain P) × Follows P.Shape s self.old × ComesNext P.Shape s self.old piece.now }
        requires none { fault.old ≡ None }
        ensures follows { (s : Chain P) → Follows P.Shape s self.old → ComesNext P.Shape s self.old piece.now
            → OnOk result (Follows P.Shape s self.new) }
        ensures way { OnOk result (self.new.way ≡ self.old.way) }
        ensures met { OnOk result (place self.new.met ≡ end piece.now) }
        ensures from { OnOk result (self.new.sliding.out.from ≡ self.old.sliding.out.from) }
        ensures upto { (s : Chain P) (limit : Rational) → Follows P.Shape s self.old → ComesNext P.Shape s self.old piece.now
            → AtMost (stop self.old.sliding.out) (before_time limit) → (place self.old.met).at <ʳ add limit (whole self.old.way.over.high)
            → OnOk result (AtMost (stop self.new.sliding.out) (before_time limit)) }
        ensures still { OnOk result (fault.new ≡ None) }
        ensures wide { (s : Chain P) (limit : Rational) → Follows P.Shape s self.old → ComesNext P.Shape s self.old piece.now
            → s.from.at <ʳ limit → limit ≤ʳ (stop s).at → (place self.old.met).at <ʳ add limit (whole self.old.way.over.high)
            → OnErr result (IfSome fault.new (IsCauseBelow P.Shape s self.old.way.over limit)) }
        ensures first { (s : Chain P) → Follows P.Shape s self.old → ComesNext P.Shape s self.old piece.now
            → s.from.at <ʳ (stop s).at → AtMost (stop self.old.sliding.out) s.from
            → (place self.old.met).at <ʳ add s.from.at (whole self.old.way.over.high)
            → OnErr result (IfSome fault.new (IsHeldCause P.Shape s self.old.way.over (place self.old.met).at)) }
        ensures one { (s : Chain P) → Follows P.Shape s self.old → ComesNext P.Shape s self.old piece.now → (stop s).at ≤ʳ s.from.at
            → OnErr result (fault.new ≡ None) }
    {
        if self.meets_constant(piece)? {
            return Ok(());
        }
        self.meet_steps(piece, fault)
    }

    /// As long as all pieces were constants: lets the window meet what comes next, if that is a constant too, and answers true. Else what
    /// still counts become steps, and it answers false.
    ///
    /// # Errors
    ///
    /// `Memory` where memory is wanting.
    #[inline(always)]
    fn meets_constant(&mut self, piece: &Piece<P>) -> Result<bool, Memory>
        requires next { (s : Chain P) × Follows P.Shape s self.old × ComesNext P.Shape s self.old piece.now }
        ensures met { (s : Chain P) → Follows P.Shape s self.old → ComesNext P.Shape s self.old piece.now
            → IfOk result (λ is. IsTrue is → Follows P.Shape s self.new) }
        ensures upto { IfOk result (λ is. IsTrue is → HasToldTo self.old.way (place self.old.met) self.old.sliding self.new.sliding) }
        ensures end { IfOk result (λ is. IsTrue is → place self.new.met ≡ end piece.now) }
        ensures from { IfOk result (λ is. IsTrue is → self.new.sliding.out.from ≡ self.old.sliding.out.from) }
        ensures steps { (s : Chain P) → Follows P.Shape s self.old → ComesNext P.Shape s self.old piece.now
            → IfOk result (λ is. is ≡ false → FollowsSteps P.Shape s self.new) }
        ensures range { IfOk result (λ is. is ≡ false → self.new.range ≡ None) }
        ensures way { IfOk result (λ is. self.new.way ≡ self.old.way) }
        ensures same { IfOk result (λ is. is ≡ false → self.new.met ≡ self.old.met) }
        ensures out { IfOk result (λ is. is ≡ false → self.new.sliding.out ≡ self.old.sliding.out) }
    {
        if let Some(_) = &self.range {
            return self.takes_constant(piece);
        }
        Ok(false)
    }

    /// The same, where all pieces were constants: apart, so that a window that meets lines is not slowed by it.
    #[inline(never)]
    fn takes_constant(&mut self, piece: &Piece<P>) -> Result<bool, Memory>
        requires next { (s : Chain P) × Follows P.Shape s self.old × ComesNext P.Shape s self.old piece.now }
        ensures met { (s : Chain P) → Follows P.Shape s self.old → ComesNext P.Shape s self.old piece.now
            → IfOk result (λ is. IsTrue is → Follows P.Shape s self.new) }
        ensures upto { IfOk result (λ is. IsTrue is → HasToldTo self.old.way (place self.old.met) self.old.sliding self.new.sliding) }
        ensures end { IfOk result (λ is. IsTrue is → place self.new.met ≡ end piece.now) }
        ensures from { IfOk result (λ is. IsTrue is → self.new.sliding.out.from ≡ self.old.sliding.out.from) }
        ensures steps { (s : Chain P) → Follows P.Shape s self.old → ComesNext P.Shape s self.old piece.now
            → IfOk result (λ is. is ≡ false → FollowsSteps P.Shape s self.new) }
        ensures range { IfOk result (λ is. is ≡ false → self.new.range ≡ None) }
        ensures way { IfOk result (λ is. self.new.way ≡ self.old.way) }
        ensures same { IfOk result (λ is. is ≡ false → self.new.met ≡ self.old.met) }
        ensures out { IfOk result (λ is. is ≡ false → self.new.sliding.out ≡ self.old.sliding.out) }
    {
        let Some(range) = &mut self.range else {
            return Ok(false);
        };
        if let Some(shape) = continued(&self.piece, &self.met, piece) {
            let whole = Piece {
                until: piece.until,
                shape: *shape,
            };
            count_further(&self.way, &self.met, &whole, &mut self.sliding, range)?;
            self.met = piece.until;
            return Ok(true);
        }
        let until = left(&self.way, &piece.until);
        if counts_longer(piece, &until, &self.sliding) {
            take_up(
                &self.way,
                &self.met,
                piece,
                &until,
                &mut self.sliding,
                range,
            )?;
            self.piece = Some(piece.shape);
            self.met = piece.until;
            return Ok(true);
        }
        self.make_steps()?;
        Ok(false)
    }

    /// The constants that count become steps.
    ///
    /// # Errors
    ///
    /// `Memory` where memory is wanting.
    fn make_steps(&mut self) -> Result<(), Memory>
        requires constants { (s : Chain P) × (range : Range P) × (self.old.range ≡ Some range) × Follows P.Shape s self.old
            × Before (place self.old.met) (stop s) }
        ensures steps { (s : Chain P) (range : Range P) → self.old.range ≡ Some range → Follows P.Shape s self.old
            → Before (place self.old.met) (stop s) → OnOk result (FollowsSteps P.Shape s self.new) }
        ensures range { OnOk result (self.new.range ≡ None) }
        ensures way { OnOk result (self.new.way ≡ self.old.way) }
        ensures met { OnOk result (self.new.met ≡ self.old.met) }
        ensures out { OnOk result (self.new.sliding.out ≡ self.old.sliding.out) }
    {
        let at = self.sliding.out.until();
        let alloc = self.sliding.out.alloc();
        self.sliding.steps = steps_of(alloc, self.way.side, &at, &self.sliding.steps)?;
        self.range = None;
        Ok(())
    }

    /// Lets the window meet what comes next, or goes on with the piece at hand, where it has steps.
    ///
    /// # Errors
    ///
    /// As `meet`.
    fn meet_steps(
        &mut self,
        piece: &Piece<P>,
        fault: &mut Option<WidePair<P>>,
    ) -> Result<(), Memory>
        requires next { (s : Chain P) × FollowsSteps P.Shape s self.old × ComesNext P.Shape s self.old piece.now }
        requires none { fault.old ≡ None }
        ensures follows { (s : Chain P) → FollowsSteps P.Shape s self.old → ComesNext P.Shape s self.old piece.now
            → OnOk result (FollowsSteps P.Shape s self.new) }
        ensures way { OnOk result (self.new.way ≡ self.old.way) }
        ensures met { OnOk result (place self.new.met ≡ end piece.now) }
        ensures from { OnOk result (self.new.sliding.out.from ≡ self.old.sliding.out.from) }
        ensures upto { (s : Chain P) (limit : Rational) → FollowsSteps P.Shape s self.old → ComesNext P.Shape s self.old piece.now
            → AtMost (stop self.old.sliding.out) (before_time limit) → (place self.old.met).at <ʳ add limit (whole self.old.way.over.high)
            → OnOk result (AtMost (stop self.new.sliding.out) (before_time limit)) }
        ensures still { OnOk result (fault.new ≡ None) }
        ensures wide { (s : Chain P) (limit : Rational) → FollowsSteps P.Shape s self.old → ComesNext P.Shape s self.old piece.now
            → s.from.at <ʳ limit → limit ≤ʳ (stop s).at → (place self.old.met).at <ʳ add limit (whole self.old.way.over.high)
            → OnErr result (IfSome fault.new (IsCauseBelow P.Shape s self.old.way.over limit)) }
        ensures first { (s : Chain P) → FollowsSteps P.Shape s self.old → ComesNext P.Shape s self.old piece.now
            → s.from.at <ʳ (stop s).at → AtMost (stop self.old.sliding.out) s.from
            → (place self.old.met).at <ʳ add s.from.at (whole self.old.way.over.high)
            → OnErr result (IfSome fault.new (IsHeldCause P.Shape s self.old.way.over (place self.old.met).at)) }
        ensures one { (s : Chain P) → FollowsSteps P.Shape s self.old → ComesNext P.Shape s self.old piece.now → (stop s).at ≤ʳ s.from.at
            → OnErr result (fault.new ≡ None) }
        ensures range { OnOk result (self.new.range ≡ self.old.range) }
    {
        if is_empty(&self.way.over) {
            self.met = piece.until;
            return Ok(());
        }
        let Some(shape) = continued(&self.piece, &self.met, piece) else {
            return self.turn(piece, fault);
        };
        let whole = Piece {
            until: piece.until,
            shape: *shape,
        };
        lengthen(&self.way, self.trend, &self.met, &whole, &mut self.sliding)?;
        self.met = piece.until;
        Ok(())
    }

    /// Another piece comes.
    fn turn(&mut self, piece: &Piece<P>, fault: &mut Option<WidePair<P>>) -> Result<(), Memory>
        requires next { (s : Chain P) × TurnsTo P.Shape s self.old piece.now }
        requires none { fault.old ≡ None }
        ensures follows { (s : Chain P) → TurnsTo P.Shape s self.old piece.now → OnOk result (FollowsSteps P.Shape s self.new) }
        ensures range { OnOk result (self.new.range ≡ self.old.range) }
        ensures way { OnOk result (self.new.way ≡ self.old.way) }
        ensures met { OnOk result (place self.new.met ≡ end piece.now) }
        ensures from { OnOk result (self.new.sliding.out.from ≡ self.old.sliding.out.from) }
        ensures upto { OnOk result (HasToldTo self.old.way (place self.old.met) self.old.sliding self.new.sliding) }
        ensures still { OnOk result (fault.new ≡ None) }
        ensures wide { (s : Chain P) (limit : Rational) → TurnsTo P.Shape s self.old piece.now
            → IsBelow P.Shape s self.old.way limit (place self.old.met).at
            → OnErr result (IfSome fault.new (IsCauseBelow P.Shape s self.old.way.over limit)) }
        ensures held { (s : Chain P) → TurnsTo P.Shape s self.old piece.now
            → (place self.old.met).at ≤ʳ add (stop self.old.sliding.out).at (whole self.old.way.over.high)
            → OnErr result (IfSome fault.new (IsHeldFault P.Shape s self.old.way (place self.old.met).at)) }
    {
        end_hand(
            &self.way,
            &self.piece,
            self.trend,
            &self.met,
            &mut self.sliding,
            fault,
        )?;
        self.trend = take(&self.way, &self.met, piece, &mut self.sliding, fault)?;
        self.piece = Some(piece.shape);
        self.met = piece.until;
        Ok(())
    }

    /// Tells up to just before the time. All that counts before it was met, or the function ends where it was met.
    ///
    /// # Errors
    ///
    /// As `meet`.
    pub fn tell(&mut self, to: &Frac, fault: &mut Option<WidePair<P>>) -> Result<(), Memory>
        requires all { (s : Chain P) × Follows P.Shape s self.old × HasAll P.Shape s self.old (value_of to.now) }
        requires order { AtMost (stop self.old.sliding.out) (before_time (value_of to.now)) }
        requires none { fault.old ≡ None }
        ensures told { (s : Chain P) → Follows P.Shape s self.old → HasAll P.Shape s self.old (value_of to.now)
            → OnOk result (Tells P.Shape (BestOver P.Shape s self.old.way.over self.old.way.side) self.old.sliding.out.from
            (before_time (value_of to.now)) self.new.sliding.out) }
        ensures bases { (s : Chain P) → Follows P.Shape s self.old → HasAll P.Shape s self.old (value_of to.now)
            → OnOk result ((p : P) → HasShape self.new.sliding.out p → IsMovedTo P.Shape s self.old.way.over (place self.old.way.to) p) }
        ensures at { (s : Chain P) → Follows P.Shape s self.old → HasAll P.Shape s self.old (value_of to.now)
            → OnOk result (IsAt P.Shape s self.new (value_of to.now)) }
        ensures way { OnOk result (self.new.way ≡ self.old.way) }
        ensures met { OnOk result (self.new.met ≡ self.old.met) }
        ensures still { OnOk result (fault.new ≡ None) }
        ensures wide { (s : Chain P) → Follows P.Shape s self.old → HasAll P.Shape s self.old (value_of to.now) → s.from.at <ʳ value_of to.now
            → OnErr result (IfSome fault.new (IsCauseBelow P.Shape s self.old.way.over (value_of to.now))) }
        ensures early { (s : Chain P) → Follows P.Shape s self.old → HasAll P.Shape s self.old (value_of to.now) → value_of to.now ≤ʳ s.from.at
            → add (value_of to.now) (whole self.old.way.over.high) ≤ʳ (place self.old.met).at → OnErr result (fault.new ≡ None) }
        ensures one { (s : Chain P) → Follows P.Shape s self.old → HasAll P.Shape s self.old (value_of to.now) → (stop s).at ≤ʳ s.from.at
            → OnErr result (fault.new ≡ None) }
    {
        if let Some(_) = &self.range {
            return self.tell_constants(to);
        }
        self.tell_steps(to, fault)
    }

    /// Tells up to just before the time, where all pieces were constants.
    ///
    /// # Errors
    ///
    /// `Memory` where memory is wanting.
    fn tell_constants(&mut self, to: &Frac) -> Result<(), Memory>
        requires all { (s : Chain P) × (range : Range P) × (self.old.range ≡ Some range) × Follows P.Shape s self.old
            × HasAll P.Shape s self.old (value_of to.now) }
        requires order { AtMost (stop self.old.sliding.out) (before_time (value_of to.now)) }
        ensures told { (s : Chain P) → Follows P.Shape s self.old → HasAll P.Shape s self.old (value_of to.now)
            → OnOk result (Tells P.Shape (BestOver P.Shape s self.old.way.over self.old.way.side) self.old.sliding.out.from
            (before_time (value_of to.now)) self.new.sliding.out) }
        ensures bases { (s : Chain P) → Follows P.Shape s self.old → HasAll P.Shape s self.old (value_of to.now)
            → OnOk result ((p : P) → HasShape self.new.sliding.out p → IsMovedTo P.Shape s self.old.way.over (place self.old.way.to) p) }
        ensures at { (s : Chain P) → Follows P.Shape s self.old → HasAll P.Shape s self.old (value_of to.now)
            → OnOk result (IsAt P.Shape s self.new (value_of to.now)) }
        ensures way { OnOk result (self.new.way ≡ self.old.way) }
        ensures met { OnOk result (self.new.met ≡ self.old.met) }
    {
        let ends = self.comes(to);
        let upto = Cut { time: *to, side: 0 };
        let Some(range) = &mut self.range else {
            return Ok(());
        };
        tell_best(&self.way, &mut self.sliding, range, &upto)?;
        if ends {
            self.piece = None;
        }
        Ok(())
    }

    /// Tells up to just before the time, where there are steps.
    ///
    /// # Errors
    ///
    /// As `meet`.
    fn tell_steps(&mut self, to: &Frac, fault: &mut Option<WidePair<P>>) -> Result<(), Memory>
        requires all { (s : Chain P) × FollowsSteps P.Shape s self.old × HasAll P.Shape s self.old (value_of to.now) }
        requires range { self.old.range ≡ None }
        requires order { AtMost (stop self.old.sliding.out) (before_time (value_of to.now)) }
        requires none { fault.old ≡ None }
        ensures told { (s : Chain P) → FollowsSteps P.Shape s self.old → HasAll P.Shape s self.old (value_of to.now)
            → OnOk result (Tells P.Shape (BestOver P.Shape s self.old.way.over self.old.way.side) self.old.sliding.out.from
            (before_time (value_of to.now)) self.new.sliding.out) }
        ensures bases { (s : Chain P) → FollowsSteps P.Shape s self.old → HasAll P.Shape s self.old (value_of to.now)
            → OnOk result ((p : P) → HasShape self.new.sliding.out p → IsMovedTo P.Shape s self.old.way.over (place self.old.way.to) p) }
        ensures at { (s : Chain P) → FollowsSteps P.Shape s self.old → HasAll P.Shape s self.old (value_of to.now)
            → OnOk result (IsAtSteps P.Shape s self.new (value_of to.now)) }
        ensures way { OnOk result (self.new.way ≡ self.old.way) }
        ensures met { OnOk result (self.new.met ≡ self.old.met) }
        ensures still { OnOk result (fault.new ≡ None) }
        ensures wide { (s : Chain P) → FollowsSteps P.Shape s self.old → HasAll P.Shape s self.old (value_of to.now) → s.from.at <ʳ value_of to.now
            → OnErr result (IfSome fault.new (IsCauseBelow P.Shape s self.old.way.over (value_of to.now))) }
        ensures early { (s : Chain P) → FollowsSteps P.Shape s self.old → HasAll P.Shape s self.old (value_of to.now) → value_of to.now ≤ʳ s.from.at
            → add (value_of to.now) (whole self.old.way.over.high) ≤ʳ (place self.old.met).at → OnErr result (fault.new ≡ None) }
        ensures one { (s : Chain P) → FollowsSteps P.Shape s self.old → HasAll P.Shape s self.old (value_of to.now) → (stop s).at ≤ʳ s.from.at
            → OnErr result (fault.new ≡ None) }
        ensures range { OnOk result (self.new.range ≡ self.old.range) }
    {
        let upto = Cut { time: *to, side: 0 };
        let Some(shape) = self.piece else {
            return rest(&self.way, &upto, &mut self.sliding, fault);
        };
        let piece = Piece {
            until: self.met,
            shape,
        };
        if self.comes(to) {
            end_piece(&self.way, self.trend, &piece, &mut self.sliding, fault)?;
            self.piece = None;
            self.trend = Ordering::Equal;
            return rest(&self.way, &upto, &mut self.sliding, fault);
        }
        match self.trend {
            Ordering::Greater => climb(&self.way, &piece, &upto, &mut self.sliding, fault),
            _ => rest(&self.way, &upto, &mut self.sliding, fault),
        }
    }

    /// The best over the window at the time before which it has told all. `next` is the value at the one time that is seen from there and was
    /// not met, if there is one.
    pub fn point(&self, to: &Frac, next: &Option<P>) -> P
        requires seen { (s : Chain P) × IsAt P.Shape s self.now (value_of to.now) × IsNextSeen P.Shape s self.now (value_of to.now) next.now }
        requires inside { Upto (place self.now.way.to) (value_of to.now) }
        ensures value { (s : Chain P) → IsAt P.Shape s self.now (value_of to.now) → IsNextSeen P.Shape s self.now (value_of to.now) next.now
            → BestOver P.Shape s self.now.way.over self.now.way.side (value_of to.now) (value_at (P.function result) (value_of to.now)) }
        ensures base { (s : Chain P) → IsAt P.Shape s self.now (value_of to.now) → IsNextSeen P.Shape s self.now (value_of to.now) next.now
            → IsMovedTo P.Shape s self.now.way.over (place self.now.way.to) result }
    {
        let best = self.best_met(to);
        let Some(shape) = next else {
            return best;
        };
        if is_empty(&self.way.over) {
            return best;
        }
        better_at(self.way.side, best, at_high(&self.way.over, shape), to)
    }

    /// The best of what was met, over the window at the time before which it has told all.
    fn best_met(&self, to: &Frac) -> P
        requires at { (s : Chain P) × IsAt P.Shape s self.now (value_of to.now) }
        requires inside { Upto (place self.now.way.to) (value_of to.now) }
        ensures value { (s : Chain P) → IsAt P.Shape s self.now (value_of to.now)
            → BestTo P.Shape s self.now.way (place self.now.met) (value_of to.now) (value_at (P.function result) (value_of to.now)) }
        ensures base { (s : Chain P) → IsAt P.Shape s self.now (value_of to.now)
            → IsMovedTo P.Shape s self.now.way.over (place self.now.way.to) result }
    {
        if let Some(_) = &self.range {
            return first_step(self.way.side, &self.sliding.steps, to);
        }
        self.best_of_steps(to)
    }

    /// The best of what was met, over the window at the time before which it has told all, where there are steps.
    fn best_of_steps(&self, to: &Frac) -> P
        requires at { (s : Chain P) × IsAtSteps P.Shape s self.now (value_of to.now) }
        requires inside { Upto (place self.now.way.to) (value_of to.now) }
        ensures value { (s : Chain P) → IsAtSteps P.Shape s self.now (value_of to.now)
            → BestTo P.Shape s self.now.way (place self.now.met) (value_of to.now) (value_at (P.function result) (value_of to.now)) }
        ensures base { (s : Chain P) → IsAtSteps P.Shape s self.now (value_of to.now)
            → IsMovedTo P.Shape s self.now.way.over (place self.now.way.to) result }
    {
        let first = first_step(self.way.side, &self.sliding.steps, to);
        let Some(shape) = self.piece else {
            return first;
        };
        match self.trend {
            Ordering::Greater => {
                let piece = Piece {
                    until: self.met,
                    shape,
                };
                with_climb(&self.way, &piece, to, first)
            }
            _ => first,
        }
    }
}

/// Whether the window goes from one offset to the same: then it sees no time but one.
#[inline(always)]
fn is_one(over: &Reach) -> bool
    ensures is { IsTrue result → over.now.low ≡ over.now.high }
    ensures not { result ≡ false → ¬ (over.now.low ≡ over.now.high) }
{
    over.low == over.high
}

/// No constants yet; none where the window sees one time at most, since it keeps none then.
fn first_range<P: Shape>(alloc: Global, over: &Reach) -> Option<RangeMax<P>>
    ensures wide { IfSome result (λ r. over.now.low <ℤ over.now.high) }
    ensures items { IfSome result (λ r. r.items ≡ []) }
    ensures low { IfSome result (λ r. r.low ≡ 0) }
    ensures high { IfSome result (λ r. r.high ≡ 0) }
{
    if over.low < over.high {
        return Some(RangeMax::empty(alloc));
    }
    None
}

/// The piece at hand ends, of which the window sees one time after another: it is told up to where the window has left it.
fn leave<P: Shape>(way: &Way, piece: &Piece<P>, window: &mut Sliding<P>) -> Result<(), Memory>
    requires rises { (s : Chain P) × (c : Place) × Rises P.Shape s way.now c piece.now window.old }
    requires one { way.now.over.low ≡ way.now.over.high }
    ensures met { (s : Chain P) (c : Place) → Rises P.Shape s way.now c piece.now window.old
        → OnOk result (HasMet P.Shape s way.now (end piece.now) window.new) }
    ensures entered { (s : Chain P) → OnOk result (HasEntered P.Shape s way.now (end piece.now) window.new) }
    ensures from { OnOk result (window.new.out.from ≡ window.old.out.from) }
    ensures upto { OnOk result (HasToldTo way.now (end piece.now) window.old window.new) }
{
    let Some(next) = reached(way, &piece.until, &window.out.until()) else {
        return Ok(());
    };
    let gap = at_high(&way.over, &piece.shape);
    window.put(&gap, &next)
}

/// The window with its high end in.
fn closed(over: &Reach) -> Reach
    ensures { result ≡ record over.now { high_in = true } }
{
    let mut closed = *over;
    closed.high_in = true;
    closed
}

/// The better one of two shapes at a time.
fn better_at<P: Shape>(side: Side, p: P, q: P, t: &Frac) -> P
    requires { IsWithin (2 ^ 34) (value_of t.now) }
    ensures one { (result ≡ p) ⊎ (result ≡ q) }
    ensures value { IsBetter side (value_at (P.function p) (value_of t.now)) (value_at (P.function q) (value_of t.now))
        (value_at (P.function result) (value_of t.now)) }
{
    *chosen_in_place(side, &p, &q, t)
}

/// What the first step gives at the time just before which it begins; the value of no times, where there is none.
fn first_step<P: Shape>(side: Side, steps: &VecDeque<Step<P>>, to: &Frac) -> P
    requires { IsWithin (2 ^ 34) (value_of to.now) }
    ensures value { (from : Place) → AreSteps P.Shape side from steps.now.items → Same from (before_time (value_of to.now))
        → FirstGives P.Shape side from steps.now.items (value_of to.now) (value_at (P.function result) (value_of to.now)) }
    ensures of { IsOfSteps steps.now.items result ⊎ (P.moves result ≡ false) }
{
    let Some(first) = steps.front() else {
        return of_none(side);
    };
    match first.other {
        Some(other) => better_at(side, first.shape, other, to),
        None => first.shape,
    }
}

/// The better of a value and of what is seen of a piece that the window climbs.
fn with_climb<P: Shape>(way: &Way, piece: &Piece<P>, to: &Frac, best: P) -> P
    requires climbs { (s : Chain P) × (c : Place) × ClimbsAt P.Shape s way.now piece.now c (value_of to.now) }
    ensures value { (s : Chain P) (c : Place) → ClimbsAt P.Shape s way.now piece.now c (value_of to.now)
        → BestTo P.Shape s way.now c (value_of to.now) (value_at (P.function best) (value_of to.now))
        → BestTo P.Shape s way.now (end piece.now) (value_of to.now) (value_at (P.function result) (value_of to.now)) }
    ensures base { (result ≡ best) ⊎ (IsTrue (P.moves result) → IsTrue (P.moves piece.now.shape)
        × (P.base result ≡ P.base piece.now.shape -ℤ way.now.over.high)) }
{
    let upto = Cut { time: *to, side: 0 };
    let gone = left(way, &piece.until);
    if !upto.precedes(&gone) {
        return best;
    }
    better_at(way.side, best, at_high(&way.over, &piece.shape), to)
}

/// The shape at hand, if it goes on as the piece, which comes next.
#[inline(always)]
fn continued<'a, P: Shape>(hand: &'a Option<P>, met: &Cut, piece: &Piece<P>) -> Option<&'a P>
    requires { IsWithin (2 ^ 34) (value_of met.now.time) }
    ensures some { IfSome result (λ p. (hand.now ≡ Some p.now) × GoesOnAs P.Shape p.now (place met.now) piece.now) }
    ensures none { result ≡ None → (p : P) → hand.now ≡ Some p → ¬ GoesOnAs P.Shape p (place met.now) piece.now }
{
    let Some(shape) = hand else {
        return None;
    };
    if goes_on(shape, met, piece) {
        return Some(shape);
    }
    None
}

/// Whether the shape goes on as the piece, which comes next.
fn goes_on<P: Shape>(shape: &P, met: &Cut, piece: &Piece<P>) -> bool
    requires { IsWithin (2 ^ 34) (value_of met.now.time) }
    ensures on { IsTrue result → GoesOnAs P.Shape shape.now (place met.now) piece.now }
    ensures not { result ≡ false → ¬ GoesOnAs P.Shape shape.now (place met.now) piece.now }
{
    match met.time.cmp(&piece.until.time) {
        Ordering::Equal => match P::cmp_at(shape, &piece.shape, &met.time) {
            Ordering::Equal => true,
            _ => false,
        },
        _ => P::same(shape, &piece.shape),
    }
}

/// The piece at hand goes on from where it was met up to: it counts further, if it is not climbed.
fn lengthen<P: Shape>(
    way: &Way,
    trend: Ordering,
    met: &Cut,
    piece: &Piece<P>,
    window: &mut Sliding<P>,
) -> Result<(), Memory>
    requires further { (s : Chain P) × GoesFurther P.Shape s way.now met.now piece.now trend window.old }
    ensures taken { (s : Chain P) → GoesFurther P.Shape s way.now met.now piece.now trend window.old
        → OnOk result (IsTaken P.Shape s way.now piece.now trend window.new) }
    ensures out { window.new.out ≡ window.old.out }
{
    // For the proof alone: up to where it was met.
    let _ = met;
    match trend {
        Ordering::Greater => Ok(()),
        _ => {
            let until = left(way, &piece.until);
            let slope = at_low(&way.over, &piece.shape);
            let at = window.out.until_in_place();
            slide(way.side, at, &mut window.steps, &slope, &until)
        }
    }
}

/// The piece at hand ends, if there is one: it is told up to where the window reaches past its end.
fn end_hand<P: Shape>(
    way: &Way,
    hand: &Option<P>,
    trend: Ordering,
    met: &Cut,
    window: &mut Sliding<P>,
    fault: &mut Option<WidePair<P>>,
) -> Result<(), Memory>
    requires ends { (s : Chain P) × Leaves P.Shape s way.now hand.now trend met.now window.old }
    requires none { fault.old ≡ None }
    ensures met { (s : Chain P) → Leaves P.Shape s way.now hand.now trend met.now window.old
        → OnOk result (HasMet P.Shape s way.now (place met.now) window.new) }
    ensures entered { (s : Chain P) → OnOk result (HasEntered P.Shape s way.now (place met.now) window.new) }
    ensures from { OnOk result (window.new.out.from ≡ window.old.out.from) }
    ensures upto { OnOk result (HasToldTo way.now (place met.now) window.old window.new) }
    ensures still { OnOk result (fault.new ≡ None) }
    ensures wide { (s : Chain P) (limit : Rational) → Leaves P.Shape s way.now hand.now trend met.now window.old
        → IsBelow P.Shape s way.now limit (place met.now).at
        → OnErr result (IfSome fault.new (IsCauseBelow P.Shape s way.now.over limit)) }
    ensures held { (s : Chain P) → Leaves P.Shape s way.now hand.now trend met.now window.old
        → (place met.now).at ≤ʳ add (stop window.old.out).at (whole way.now.over.high)
        → OnErr result (IfSome fault.new (IsHeldFault P.Shape s way.now (place met.now).at)) }
{
    match hand {
        Some(shape) => {
            let piece = Piece {
                until: *met,
                shape: *shape,
            };
            end_piece(way, trend, &piece, window, fault)
        }
        None => enter(way, met, window, fault),
    }
}

/// The piece at hand ends.
fn end_piece<P: Shape>(
    way: &Way,
    trend: Ordering,
    piece: &Piece<P>,
    window: &mut Sliding<P>,
    fault: &mut Option<WidePair<P>>,
) -> Result<(), Memory>
    requires ends { (s : Chain P) × EndsHand P.Shape s way.now piece.now trend window.old }
    requires none { fault.old ≡ None }
    ensures met { (s : Chain P) → EndsHand P.Shape s way.now piece.now trend window.old
        → OnOk result (HasMet P.Shape s way.now (end piece.now) window.new) }
    ensures entered { (s : Chain P) → OnOk result (HasEntered P.Shape s way.now (end piece.now) window.new) }
    ensures from { OnOk result (window.new.out.from ≡ window.old.out.from) }
    ensures upto { OnOk result (HasToldTo way.now (end piece.now) window.old window.new) }
    ensures still { OnOk result (fault.new ≡ None) }
    ensures wide { (s : Chain P) (limit : Rational) → EndsHand P.Shape s way.now piece.now trend window.old
        → IsBelow P.Shape s way.now limit (end piece.now).at
        → OnErr result (IfSome fault.new (IsCauseBelow P.Shape s way.now.over limit)) }
    ensures held { (s : Chain P) → EndsHand P.Shape s way.now piece.now trend window.old
        → (end piece.now).at ≤ʳ add (stop window.old.out).at (whole way.now.over.high)
        → OnErr result (IfSome fault.new (IsHeldFault P.Shape s way.now (end piece.now).at)) }
{
    match trend {
        Ordering::Greater => {
            if is_one(&way.over) {
                return leave(way, piece, window);
            }
            let until = left(way, &piece.until);
            rising(way, piece, &until, window, fault)
        }
        _ => enter(way, &piece.until, window, fault),
    }
}

/// The window takes the next piece up; one that gets better is climbed first.
fn take<P: Shape>(
    way: &Way,
    from: &Cut,
    piece: &Piece<P>,
    window: &mut Sliding<P>,
    fault: &mut Option<WidePair<P>>,
) -> Result<Ordering, Memory>
    requires met { (s : Chain P) × Meets P.Shape s way.now (place from.now) piece.now window.old }
    requires none { fault.old ≡ None }
    ensures taken { (s : Chain P) → Meets P.Shape s way.now (place from.now) piece.now window.old
        → IfOk result (λ trend. IsTaken P.Shape s way.now piece.now trend window.new) }
    ensures out { window.new.out ≡ window.old.out }
    ensures still { OnOk result (fault.new ≡ None) }
    ensures wide { (s : Chain P) → Meets P.Shape s way.now (place from.now) piece.now window.old
        → OnErr result (IfSome fault.new (IsHeldFault P.Shape s way.now (place from.now).at)) }
{
    if is_one(&way.over) {
        return Ok(Ordering::Greater);
    }
    let until = left(way, &piece.until);
    match trend(way.side, &piece.shape) {
        Ordering::Greater => Ok(Ordering::Greater),
        Ordering::Equal => {
            steady(way, piece, &until, window)?;
            Ok(Ordering::Equal)
        }
        Ordering::Less => {
            let gone = left(way, from);
            falling(way, from, &gone, piece, &until, window, fault)?;
            Ok(Ordering::Less)
        }
    }
}

/// Tells up to the place what the steps give.
fn rest<P: Shape>(
    way: &Way,
    upto: &Cut,
    window: &mut Sliding<P>,
    fault: &mut Option<WidePair<P>>,
) -> Result<(), Memory>
    requires rests { (s : Chain P) × (met : Place) × (reach : Place) × TellsRest P.Shape s way.now met reach (place upto.now) window.old }
    requires within { IsWithin (2 ^ 34) (value_of upto.now.time) }
    requires none { fault.old ≡ None }
    ensures told { (s : Chain P) (met reach : Place) → TellsRest P.Shape s way.now met reach (place upto.now) window.old
        → OnOk result (HasRested P.Shape s way.now met (place upto.now) window.new) }
    ensures from { OnOk result (window.new.out.from ≡ window.old.out.from) }
    ensures left { OnOk result (HasLeft window.old window.new) }
    ensures ends { OnOk result (Same (stop window.new.out) (place upto.now)) }
    ensures still { OnOk result (fault.new ≡ None) }
    ensures wide { (s : Chain P) (met reach : Place) (limit : Rational) → TellsRest P.Shape s way.now met reach (place upto.now) window.old
        → (value_of upto.now.time) ≤ʳ limit → limit ≤ʳ (stop s).at
        → OnErr result (IfSome fault.new (IsCauseBelow P.Shape s way.now.over limit)) }
    ensures narrow { value_of upto.now.time ≤ʳ (stop window.old.out).at → OnErr result (fault.new ≡ None) }
{
    window.tell(way.side, &of_none(way.side), true, upto, fault)
}

/// Tells up to the place, under the piece that is climbed.
fn climb<P: Shape>(
    way: &Way,
    piece: &Piece<P>,
    upto: &Cut,
    window: &mut Sliding<P>,
    fault: &mut Option<WidePair<P>>,
) -> Result<(), Memory>
    requires climbs { (s : Chain P) × TellsClimb P.Shape s way.now piece.now (place upto.now) window.old }
    requires within { IsWithin (2 ^ 34) (value_of upto.now.time) }
    requires none { fault.old ≡ None }
    ensures told { (s : Chain P) → TellsClimb P.Shape s way.now piece.now (place upto.now) window.old
        → OnOk result (HasClimbed P.Shape s way.now piece.now window.new) }
    ensures from { OnOk result (window.new.out.from ≡ window.old.out.from) }
    ensures ends { OnOk result (Same (stop window.new.out) (place upto.now)) }
    ensures still { OnOk result (fault.new ≡ None) }
    ensures wide { (s : Chain P) (limit : Rational) → TellsClimb P.Shape s way.now piece.now (place upto.now) window.old
        → (value_of upto.now.time) ≤ʳ limit → limit ≤ʳ (stop s).at
        → OnErr result (IfSome fault.new (IsCauseBelow P.Shape s way.now.over limit)) }
    ensures narrow { value_of upto.now.time ≤ʳ (stop window.old.out).at → OnErr result (fault.new ≡ None) }
{
    let gap = at_high(&way.over, &piece.shape);
    if is_one(&way.over) {
        return window.put(&gap, upto);
    }
    window.tell(way.side, &gap, false, upto, fault)
}
