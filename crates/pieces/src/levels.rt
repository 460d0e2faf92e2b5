//! A window over a chain of constants: which of them it sees moves on by two places, and the best of these is asked of a `RangeMax`.
ghost use Rattle.std.specs.Prelude.{◌≡◌, ◌^◌, ◌+◌, ◌<◌, ◌≤◌, [], if◌then◌else◌, length, pos, slice_get};
ghost use Rattle.std.specs.Prelude.{Some, IsTrue, IfOk, IfSome, OnOk};
ghost use Rattle.rational.specs.Rational.{IsWithin, whole};
ghost use Rattle.rational.specs.Time.{◌≤ʳ◌};
ghost use Rattle.rational.specs.Affine.{HasBoundedLevel, IsSteady};
ghost use Rattle.rational.specs.Places.{AtMost, Place};
ghost use Rattle.frac128.specs.Value.{value as value_of};
ghost use Rattle.frac128.specs.Cuts.{place};
ghost use Rattle.pieces.specs.declared.piece.Piece.{Piece as Part};
ghost use Rattle.pieces.specs.Chains.{IsLimited, Tells, begin_at, stop};
ghost use Rattle.pieces.specs.Levels.{AreLevels, AreTurned, Counts, IsBestOf, IsNextOf, IsTurned, MovesOn, TellsOn};
ghost use Rattle.pieces.specs.Over.{BasesOver};
ghost use Rattle.pieces.specs.Windows.{AreNear, BestOver, CanSlide, IsLeft, IsNonEmpty, IsReached, IsSmall};

use crate::Pieces;
use crate::next::Next;
use crate::reach::{Reach, Way, at_high, entering};
use crate::window::{left, of_none};
use frac128::{Cut, Memory, Steps};
use pl_signal::Side;
use std::cmp::Ordering;
use std::marker::Brand;
use std::sync::ledger::{Blank, Ledger};
use value_laws::{Counted, Shape};
use window_extrema::RangeMax;

/// Which pieces of a chain a window sees where it stands: those from place `low` of the list up to, but not including, place `high`.
#[derive(Clone, Copy)]
pub(crate) struct Seen {
    pub(crate) low: usize,
    pub(crate) high: usize,
    /// Up to where the window stays before the piece at `high`.
    pub(crate) comes: Cut,
    /// Up to where it sees the piece at `low`.
    pub(crate) goes: Cut,
}

/// Whether each piece is constant.
pub(crate) fn are_levels<P: Shape>(s: &Pieces<P>) -> bool
    ensures { IsTrue result → AreLevels P.Shape s.now }
{
    for i in 0..s.len() {
        match s.piece(i).shape.rises() {
            Ordering::Equal => {}
            _ => return false,
        }
    }
    true
}

/// The constant, or its negation where the least is wanted: so the best is the greatest.
pub(crate) fn turned<P: Shape>(side: Side, constant: &P) -> P
    requires steady { IsSteady (P.function constant.now) }
    requires level { HasBoundedLevel (2 ^ 31) (P.function constant.now) }
    ensures turned { IsTurned P.Shape side constant.now result }
    ensures steady { IsSteady (P.function result) }
{
    match side {
        Side::Greatest => *constant,
        Side::Least => constant.neg(),
    }
}

/// The pieces of a chain, so that the best of a range is the greatest.
fn range_of<P: Shape>(side: Side, s: &Pieces<P>) -> Result<RangeMax<P>, Memory>
    requires limited { IsLimited P.Shape s.now }
    requires levels { AreLevels P.Shape s.now }
    ensures items { IfOk result (λ r. AreTurned P.Shape side s.now.pieces r.items) }
    ensures low { IfOk result (λ r. r.low ≡ 0) }
    ensures high { IfOk result (λ r. r.high ≡ 0) }
{
    let count = s.len();
    let mut items = Vec::with_capacity(s.alloc(), count)?;
    for i in 0..count {
        let item = turned(side, &s.piece(i).shape);
        items.push(Counted::of(item))?;
    }
    RangeMax::new(s.alloc(), items)
}

/// Where the piece at a place of the list begins.
fn begin_of<P: Shape>(s: &Pieces<P>, i: usize) -> Cut
    requires { i < length s.now.pieces }
    ensures { place result ≡ begin_at s.now.from s.now.pieces i }
{
    if i == 0 {
        return s.from();
    }
    s.piece(i - 1).until
}

/// Up to where a window stays before the piece at a place of the list; on to the end of its way, where there is none.
fn coming<P: Shape>(s: &Pieces<P>, way: &Way, i: usize) -> Cut
    requires can { CanSlide P.Shape s.now way.now.over }
    requires to_within { IsWithin (2 ^ 34) (value_of way.now.to.time) }
    ensures upto { AtMost (place result) (place way.now.to) }
    ensures none { length s.now.pieces ≤ i → result ≡ way.now.to }
    ensures some { (p : Part P) → slice_get s.now.pieces i ≡ Some p
        → IsReached way.now (begin_at s.now.from s.now.pieces i) (place result) }
{
    if i >= s.len() {
        return way.to;
    }
    entering(&way.over, &begin_of(s, i)).earlier(way.to)
}

/// Up to where a window sees the piece at a place of the list; on to the end of its way, where there is none.
fn going<P: Shape>(s: &Pieces<P>, way: &Way, i: usize) -> Cut
    requires can { CanSlide P.Shape s.now way.now.over }
    requires to_within { IsWithin (2 ^ 34) (value_of way.now.to.time) }
    ensures upto { AtMost (place result) (place way.now.to) }
    ensures none { length s.now.pieces ≤ i → result ≡ way.now.to }
    ensures some { (p : Part P) → slice_get s.now.pieces i ≡ Some p → IsLeft way.now (place p.until) (place result) }
{
    if i < s.len() {
        return left(way, &s.piece(i).until);
    }
    way.to
}

/// The best of the window's pieces, as it is while the window sees it; the value of no values, where it sees none.
fn best_of<P: Shape>(s: &Pieces<P>, way: &Way, top: Option<usize>) -> P
    requires some { IfSome top (λ i. i < length s.now.pieces) }
    requires near { AreNear P.Shape s.now }
    requires small { IsSmall way.now.over }
    ensures { IsBestOf P.Shape s.now way.now top result }
{
    match top {
        Some(i) => at_high(&way.over, &s.piece(i).shape),
        None => of_none(way.side),
    }
}

/// Goes on up to a place with the best of the pieces that the window sees up to there, if that place is not reached.
///
/// # Errors
///
/// `Memory` where memory is wanting.
fn put_best<P: Shape, L: Ledger>(
    out: &mut Pieces<P>,
    s: &Pieces<P>,
    way: &Way,
    range: &mut RangeMax<P>,
    seen: &Seen,
    until: &Cut,
    steps: &mut Steps<L>,
) -> Result<(), Memory>
    requires can { CanSlide P.Shape s.now way.now.over }
    requires some { IsNonEmpty way.now.over }
    requires levels { AreLevels P.Shape s.now }
    requires ends { place way.now.to ≡ stop s.now }
    requires counts { Counts P.Shape s.now way.now (stop out.old) seen.now }
    requires turned { AreTurned P.Shape way.now.side s.now.pieces range.old.items }
    requires low { range.old.low ≤ seen.now.low }
    requires high { range.old.high ≤ seen.now.high }
    requires comes { AtMost (place until.now) (place seen.now.comes) }
    requires goes { AtMost (place until.now) (place seen.now.goes) }
    requires begins { AtMost s.now.from (stop out.old) }
    requires within { IsWithin (2 ^ 34) (stop out.old).at }
    ensures on { OnOk result (TellsOn P.Shape s.now way.now out.old until.now out.new) }
    ensures items { range.new.items ≡ range.old.items }
    ensures low { range.new.low ≤ seen.now.low }
    ensures high { range.new.high ≤ seen.now.high }
{
    if !out.until().precedes(until) {
        return Ok(());
    }
    let best = best_of(s, way, range.ask(seen.low, seen.high, steps));
    out.put(until, &best)
}

impl Seen {
    /// It sees no piece yet.
    fn begin<P: Shape>(s: &Pieces<P>, way: &Way) -> Seen
        requires can { CanSlide P.Shape s.now way.now.over }
        requires to_within { IsWithin (2 ^ 34) (value_of way.now.to.time) }
        ensures { Counts P.Shape s.now way.now s.now.from result }
    {
        Seen {
            low: 0,
            high: 0,
            comes: coming(s, way, 0),
            goes: going(s, way, 0),
        }
    }

    /// The next piece comes, if it is to come and there is one.
    fn come<P: Shape>(&self, s: &Pieces<P>, way: &Way, is: bool) -> Seen
        requires can { CanSlide P.Shape s.now way.now.over }
        requires to_within { IsWithin (2 ^ 34) (value_of way.now.to.time) }
        ensures counts { (x y : Place) → Counts P.Shape s.now way.now x self.now → AtMost x y
            → (IsTrue is → AtMost (place self.now.comes) y) → Counts P.Shape s.now way.now y result }
        ensures low { result.low ≡ self.now.low }
        ensures high { self.now.high ≤ result.high }
        ensures more { IsTrue is → self.now.high < length s.now.pieces → result.high ≡ self.now.high + 1 }
        ensures within { self.now.high ≤ length s.now.pieces → result.high ≤ length s.now.pieces }
        ensures goes { result.goes ≡ self.now.goes }
    {
        if !is || self.high >= s.len() {
            return *self;
        }
        let high = self.high + 1;
        Seen {
            low: self.low,
            high,
            comes: coming(s, way, high),
            goes: self.goes,
        }
    }

    /// The first piece goes, if it is to go.
    fn go<P: Shape>(&self, s: &Pieces<P>, way: &Way, is: bool) -> Seen
        requires can { CanSlide P.Shape s.now way.now.over }
        requires to_within { IsWithin (2 ^ 34) (value_of way.now.to.time) }
        requires more { IsTrue is → self.now.low < self.now.high }
        requires within { self.now.high ≤ length s.now.pieces }
        ensures counts { (x : Place) → Counts P.Shape s.now way.now x self.now
            → (IsTrue is → AtMost (place self.now.goes) x) → Counts P.Shape s.now way.now x result }
        ensures low { result.low ≡ (if is then self.now.low + 1 else self.now.low) }
        ensures high { result.high ≡ self.now.high }
    {
        if !is {
            return *self;
        }
        let low = self.low + 1;
        Seen {
            low,
            high: self.high,
            comes: self.comes,
            goes: going(s, way, low),
        }
    }

    /// The window moves on to the next place at which a piece comes or goes.
    fn pass<P: Shape>(&self, s: &Pieces<P>, way: &Way, next: &Next) -> Seen
        requires can { CanSlide P.Shape s.now way.now.over }
        requires some { IsNonEmpty way.now.over }
        requires to_within { IsWithin (2 ^ 34) (value_of way.now.to.time) }
        requires more { self.now.low < length s.now.pieces }
        requires counts { (x : Place) × Counts P.Shape s.now way.now x self.now }
        requires next { IsNextOf self.now next.now }
        ensures counts { (x y : Place) → Counts P.Shape s.now way.now x self.now → AtMost x y → AtMost (place next.now.until) y
            → Counts P.Shape s.now way.now y result }
        ensures on { MovesOn (length s.now.pieces) self.now result }
    {
        let came = self.come(s, way, next.left);
        came.go(s, way, next.right)
    }
}

/// At each time the best of what the window sees of a chain of constants.
///
/// # Errors
///
/// `Memory` where memory is wanting.
pub(crate) fn over_levels<P: Shape>(
    side: Side,
    s: &Pieces<P>,
    over: Reach,
) -> Result<Pieces<P>, Memory>
    requires limited { IsLimited P.Shape s.now }
    requires near { AreNear P.Shape s.now }
    requires first { whole (pos 0) ≤ʳ s.now.from.at }
    requires last { (stop s.now).at ≤ʳ whole (pos (2 ^ 32)) }
    requires small { IsSmall over }
    requires some { IsNonEmpty over }
    requires levels { AreLevels P.Shape s.now }
    ensures told { IfOk result (Tells P.Shape (BestOver P.Shape s.now over side) s.now.from (stop s.now)) }
    ensures bases { IfOk result (BasesOver P.Shape s.now over) }
{
    let way = Way {
        side,
        over,
        to: s.until(),
    };
    let mut range = range_of(side, s)?;
    let mut out = Pieces::with_room(s.alloc(), &s.from(), s.len())?;
    see_all::<P, Brand>(&mut out, s, &way, &mut range, Blank::new(1))?;
    Ok(out)
}

/// Moves the window over the chain, from where that begins to where it ends.
fn see_all<P: Shape, L: Ledger>(
    out: &mut Pieces<P>,
    s: &Pieces<P>,
    way: &Way,
    range: &mut RangeMax<P>,
    blank: Blank,
) -> Result<(), Memory>
    requires name { blank.name ≡ L.name }
    requires parts { blank.parts ≡ L.parts }
    requires share { 0 < blank.parts }
    requires can { CanSlide P.Shape s.now way.now.over }
    requires some { IsNonEmpty way.now.over }
    requires levels { AreLevels P.Shape s.now }
    requires ends { place way.now.to ≡ stop s.now }
    requires turned { AreTurned P.Shape way.now.side s.now.pieces range.old.items }
    requires low { range.old.low ≡ 0 }
    requires high { range.old.high ≡ 0 }
    requires none { out.old ≡ record { from = s.now.from; pieces = [] } }
    ensures told { OnOk result (Tells P.Shape (BestOver P.Shape s.now way.now.over way.now.side) s.now.from (stop s.now) out.new) }
    ensures bases { OnOk result (BasesOver P.Shape s.now way.now.over out.new) }
{
    let mut steps = Steps::<L>::new(blank);
    let mut seen = Seen::begin(s, way);
    while seen.low < s.len() {
        let next = Next::of(&seen.comes, &seen.goes);
        put_best(out, s, way, range, &seen, &next.until, &mut steps)?;
        seen = seen.pass(s, way, &next);
    }
    put_best(out, s, way, range, &seen, &way.to, &mut steps)
}
