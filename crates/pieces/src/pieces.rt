//! Chains of pieces, and how they grow.
ghost use Rattle.std.specs.Prelude.{◌≡◌, ◌≢◌, ◌<◌, ◌≤◌, ◌+◌, ◌^◌, ◌++◌, ◌∷◌, [], ◌↔◌, List, length, slice_get, Some, false, IsTrue, IfOk, OnOk, OnErr, vec_len, vec_capacity};
ghost use Rattle.rational.specs.Rational.{IsWithin, ◌≈◌};
ghost use Rattle.rational.specs.Affine.{AreSame};
ghost use Rattle.rational.specs.Places.{Before};
ghost use Rattle.frac128.specs.Value.{value};
ghost use Rattle.frac128.specs.Cuts.{place};
ghost use Rattle.pieces.specs.declared.piece.Piece.{Piece};
ghost use Rattle.pieces.specs.Chains.{Chain, CanBeLeftOut, IsNormal, begin_at, stop};
ghost use Rattle.pieces.specs.Building.{GoesOn, IsNew};

use crate::Piece;
use frac128::{Cut, Memory};
use std::alloc::Global;
use std::cmp::Ordering;
use std::marker::Model;
use value_laws::Shape;

/// A value at each time from a place on until the last piece ends.
///
/// The ends of its pieces rise strictly, no two neighbours are one function, and no piece of one time could be left out. Contracts
/// see it as the chain of its pieces; `IsWorth` says what it is worth at a time.
#[derive(Drop)]
pub struct Pieces<P: Shape> {
    pub(crate) alloc: Global,
    pub(crate) from: Cut,
    pub(crate) items: Vec<Piece<P>>,
}

impl<P: Shape> Model for Pieces<P> {
    ghost use Rattle.frac128.specs.Cuts.{place};
    ghost use Rattle.pieces.specs.Chains.{Chain, IsNormal};

    ghost Value = { Chain P };

    ghost view = { λ s. record { from = place s.from; pieces = s.items.items } };

    ghost invariant = { λ s. IsNormal P.Shape (record { from = place s.from; pieces = s.items.items }) };
}

impl<P: Shape> Pieces<P> {
    /// No piece yet, from a place on.
    pub fn start(alloc: Global, from: &Cut) -> Pieces<P>
        ensures { result ≡ record { from = place from.now; pieces = [] } }
    {
        Pieces {
            alloc,
            from: *from,
            items: Vec::new(alloc),
        }
    }

    /// No piece yet. It asks at once for the memory of as many as `room` says; no clause speaks of how much there is.
    ///
    /// # Errors
    ///
    /// `Memory` where memory is wanting.
    pub fn with_room(alloc: Global, from: &Cut, room: usize) -> Result<Pieces<P>, Memory>
        ensures { IfOk result (λ r. r ≡ record { from = place from.now; pieces = [] }) }
    {
        let items = Vec::with_capacity(alloc, room)?;
        Ok(Pieces {
            alloc,
            from: *from,
            items,
        })
    }

    /// It begins anew where it ends, with no piece.
    pub fn restart(&mut self)
        ensures { self.new ≡ record { from = stop self.old; pieces = [] } }
    {
        self.from = self.until();
        self.items.clear();
    }

    /// The number of pieces.
    pub fn len(&self) -> usize
        ensures value { result ≡ length self.now.pieces }
        ensures normal { IsNormal P.Shape self.now }
    {
        self.items.len()
    }

    /// The allocator that the chain keeps, for what is built from it.
    pub fn alloc(&self) -> Global {
        self.alloc
    }

    /// The same chain again, in memory of its own.
    ///
    /// # Errors
    ///
    /// `Memory` where memory is wanting.
    pub fn copy(&self) -> Result<Pieces<P>, Memory>
        ensures { IfOk result (λ r. r ≡ self.now) }
    {
        let mut items = Vec::with_capacity(self.alloc, self.items.len())?;
        items.extend_from_slice(&self.items)?;
        Ok(Pieces {
            alloc: self.alloc,
            from: self.from,
            items,
        })
    }

    /// Where the first piece begins.
    pub fn from(&self) -> Cut
        ensures { place result ≡ self.now.from }
    {
        self.from
    }

    /// A piece by its place in the list.
    pub fn piece(&self, i: usize) -> &Piece<P>
        requires { i < length self.now.pieces }
        ensures { slice_get self.now.pieces i ≡ Some result.now }
    {
        &self.items[i]
    }

    /// Where a piece begins, by its place in the list.
    #[inline(always)]
    pub(crate) fn begin(&self, i: usize) -> &Cut
        requires { i < length self.now.pieces }
        ensures { place result.now ≡ begin_at self.now.from self.now.pieces i }
    {
        if i == 0 {
            return &self.from;
        }
        &self.items[i - 1].until
    }

    /// Where the last piece ends; where the first is to begin, as long as there is none.
    #[inline(always)]
    pub fn until(&self) -> Cut
        ensures value { place result ≡ stop self.now }
        ensures normal { IsNormal P.Shape self.now }
    {
        // For the proof alone: that the chain is normal.
        let _ = &self.alloc;
        *self.until_in_place()
    }

    /// The same by reference, so that only what is read of the place is loaded.
    #[inline(always)]
    pub(crate) fn until_in_place(&self) -> &Cut
        ensures { place result.now ≡ stop self.now }
    {
        let count = self.items.len();
        if count == 0 {
            return &self.from;
        }
        &self.items[count - 1].until
    }

    /// Goes on with a shape that neither lets the last piece go on nor makes it needless. Without memory for it the chain stays as it was.
    ///
    /// # Errors
    ///
    /// `Memory` where memory is wanting.
    #[inline(always)]
    pub(crate) fn append(&mut self, until: &Cut, shape: &P) -> Result<(), Memory>
        requires later { Before (stop self.old) (place until.now) }
        requires new { IsNew P.Shape self.old.pieces shape.now }
        ensures { OnOk result (self.new ≡ record {
          from = self.old.from;
          pieces = self.old.pieces ++ record { until = until.now; shape = shape.now } ∷ [];
        }) }
    {
        self.items.reserve(1)?;
        self.items.push_reserved(Piece {
            until: *until,
            shape: *shape,
        });
        Ok(())
    }

    /// Goes on with a shape up to a place. Without memory for it the chain stays as it was.
    ///
    /// A shape of the last piece's function lets that piece go on. A last piece of one time that is no longer needed, since the
    /// piece before it and the shape are of one function and it lies on that, leaves.
    ///
    /// # Errors
    ///
    /// `Memory` where memory is wanting.
    #[inline(always)]
    pub fn put(&mut self, until: &Cut, shape: &P) -> Result<(), Memory>
        requires limited { IsWithin (2 ^ 34) (stop self.old).at }
        requires later { Before (stop self.old) (place until.now) }
        ensures ok { OnOk result (GoesOn P.Shape self.old until.now shape.now self.new) }
        ensures err { OnErr result (self.new ≡ self.old) }
    {
        self.items.reserve(1)?;
        go_on(&self.from, &mut self.items, until, shape);
        Ok(())
    }
}

/// Goes on with a shape up to a place. There is room for one more piece.
#[inline(always)]
pub(crate) fn go_on<P: Shape>(from: &Cut, items: &mut Vec<Piece<P>>, until: &Cut, shape: &P)
    requires normal { IsNormal P.Shape (record { from = place from.now; pieces = items.old.items }) }
    requires room { vec_len items.old < vec_capacity items.old }
    requires limited { IsWithin (2 ^ 34) (stop (record { from = place from.now; pieces = items.old.items })).at }
    requires later { Before (stop (record { from = place from.now; pieces = items.old.items })) (place until.now) }
    ensures on { GoesOn P.Shape (record { from = place from.now; pieces = items.old.items }) until.now shape.now
        (record { from = place from.now; pieces = items.new.items }) }
    ensures one_more { vec_len items.new ≤ vec_len items.old + 1 }
    ensures room { vec_capacity items.new ≡ vec_capacity items.old }
{
    // For the proof alone: the pieces begin there.
    let _ = from;
    if is_same_as_last(items, shape) {
        lengthen(items, until);
        return;
    }
    if can_leave(items, shape) {
        leave_last(items);
        lengthen(items, until);
        return;
    }
    items.push_reserved(Piece {
        until: *until,
        shape: *shape,
    });
}

/// Whether there is a last piece, and it is of the shape's function.
#[inline(always)]
fn is_same_as_last<P: Shape>(items: &Vec<Piece<P>>, shape: &P) -> bool
    ensures some { IsTrue result → 0 < length items.now.items }
    ensures same { (front : List (Piece P)) (last : Piece P) → items.now.items ≡ front ++ last ∷ []
        → IsTrue result ↔ AreSame (P.function last.shape) (P.function shape.now) }
{
    let count = items.len();
    if count == 0 {
        return false;
    }
    P::same(&items[count - 1].shape, shape)
}

/// Whether the last piece is of one time alone, and is needless in front of the shape.
#[inline(always)]
fn can_leave<P: Shape>(items: &Vec<Piece<P>>, shape: &P) -> bool
    requires limited { (front : List (Piece P)) (last : Piece P) → items.now.items ≡ front ++ last ∷ [] → IsWithin (2 ^ 34) (value last.until.time) }
    ensures some { IsTrue result → 1 < length items.now.items }
    ensures left_out { (front : List (Piece P)) (p q : Piece P) → items.now.items ≡ front ++ p ∷ q ∷ []
        → IsTrue result ↔ CanBeLeftOut P.Shape p q shape.now }
{
    let count = items.len();
    if count < 2 {
        return false;
    }
    lies_on(&items[count - 2], &items[count - 1], shape)
}

/// Whether the last piece is of one time alone, the shape is of the function of the piece before, and the last piece lies on that.
#[inline(always)]
fn lies_on<P: Shape>(before: &Piece<P>, last: &Piece<P>, shape: &P) -> bool
    requires limited { IsWithin (2 ^ 34) (value last.now.until.time) }
    ensures { IsTrue result ↔ CanBeLeftOut P.Shape before.now last.now shape.now }
{
    match before.until.time.cmp(&last.until.time) {
        Ordering::Equal => is_between(before, last, shape),
        _ => false,
    }
}

/// The same, where the last piece is of one time.
#[inline(never)]
fn is_between<P: Shape>(before: &Piece<P>, last: &Piece<P>, shape: &P) -> bool
    requires limited { IsWithin (2 ^ 34) (value last.now.until.time) }
    requires instant { value before.now.until.time ≈ value last.now.until.time }
    ensures { IsTrue result ↔ CanBeLeftOut P.Shape before.now last.now shape.now }
{
    if P::same(&before.shape, shape) {
        return match P::cmp_at(&before.shape, &last.shape, &last.until.time) {
            Ordering::Equal => true,
            _ => false,
        };
    }
    false
}

/// Takes the last piece away.
fn leave_last<P: Shape>(items: &mut Vec<Piece<P>>)
    requires { 1 < length items.old.items }
    ensures left { (front : List (Piece P)) (p q : Piece P) → items.old.items ≡ front ++ p ∷ q ∷ [] → items.new.items ≡ front ++ p ∷ [] }
    ensures some { 0 < length items.new.items }
    ensures fewer { vec_len items.new ≤ vec_len items.old }
    ensures room { vec_capacity items.new ≡ vec_capacity items.old }
{
    let _ = items.pop();
}

/// Lets the last piece end at the place.
#[inline(always)]
fn lengthen<P: Shape>(items: &mut Vec<Piece<P>>, until: &Cut)
    requires { 0 < length items.old.items }
    ensures longer { (front : List (Piece P)) (last : Piece P) → items.old.items ≡ front ++ last ∷ []
        → items.new.items ≡ front ++ record { until = until.now; shape = last.shape } ∷ [] }
    ensures len { vec_len items.new ≡ vec_len items.old }
    ensures room { vec_capacity items.new ≡ vec_capacity items.old }
{
    let last = items.len() - 1;
    items[last].until = *until;
}
