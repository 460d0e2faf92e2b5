//! The end of a stretch that goes onto an edge line by line.
ghost use Rattle.std.specs.Prelude.{◌≡◌, ◌<◌, ◌^◌, ◌↔◌, [], ◌∷◌, if◌then◌else◌, IfSome, IsSomeAnd, IsTrue, MatchResult, None, OnErr, OnOk, length};
ghost use Rattle.rational.specs.Rational.{IsWithin};
ghost use Rattle.rational.specs.Time.{◌<ʳ◌};
ghost use Rattle.rational.specs.Extended.{value_at, ◌≈ᵉ◌};
ghost use Rattle.rational.specs.Affine.{AreSame, HasBoundedLevel};
ghost use Rattle.frac128.specs.Value.{value};
ghost use Rattle.value_laws.specs.Kinds.{margin_shape};
ghost use Rattle.value_laws.specs.Margins.{margin_function};
ghost use Rattle.pl_signal.specs.Joining.{IsAllOver, IsGapFault, IsTurn, TurnsOver};
ghost use Rattle.pl_signal.specs.declared.joining.Side.{Side as Wanted};
ghost use Rattle.pl_signal.specs.declared.faults.OpFault.TheVariants as F;
ghost use Rattle.online_robust.specs.Putting.{lines_of, HasPut};
ghost use Rattle.online_robust.specs.Tails.{HasGoneOn, HasJoined, knot_of, lines_left};

use crate::edges::Edges;
use crate::line::Reached;
use crate::put::{put_pair, put_point};
use frac128::{Frac, Memory};
use pl_signal::{Side, WidePair, crossing_kept, favour};
use std::cmp::Ordering;
use value_laws::{Margin, Shape};

/// A gap from a time on.
#[derive(Clone, Copy)]
pub(crate) struct Open {
    pub(crate) from: Frac,
    pub(crate) piece: Margin,
}

/// Up to where a stretch was told, and the last gap before that. The gap is not on the edge yet, since what comes next may be of one function
/// with it.
#[derive(Clone, Copy)]
pub(crate) struct Tail {
    pub(crate) gap: Option<Open>,
    pub(crate) end: Reached,
}

/// Whether the first of the two is taken at each time between `from` and `to`, or the second. Where they cross there, `Err` says
/// whether the first is taken before, and the second after.
#[inline(always)]
fn takes_first(side: Side, p: &Margin, q: &Margin, from: &Frac, to: &Frac) -> Result<bool, bool>
    requires from_within { IsWithin (2 ^ 34) (value from.now) }
    requires to_within { IsWithin (2 ^ 34) (value to.now) }
    ensures { MatchResult result
        (λ first. IsAllOver margin_shape side p.now q.now (value from.now) (value to.now) (if first then p.now else q.now))
        (IsTurn margin_shape side p.now q.now (value from.now) (value to.now)) }
{
    match favour(side, p, q, from) {
        Ordering::Less => match favour(side, p, q, to) {
            Ordering::Greater => Err(true),
            _ => Ok(true),
        },
        Ordering::Equal => match favour(side, p, q, to) {
            Ordering::Greater => Ok(false),
            _ => Ok(true),
        },
        Ordering::Greater => match favour(side, p, q, to) {
            Ordering::Less => Err(false),
            _ => Ok(false),
        },
    }
}

/// Puts the point at which a stretch begins, or not.
#[inline(always)]
pub(crate) fn put_start(
    edges: &mut Edges,
    node: u32,
    start: &Reached,
    with_first: bool,
) -> Result<(), Memory>
    requires { node < length edges.old.edges }
    ensures { OnOk result (HasPut node (lines_of with_first (knot_of start.now ∷ [])) edges.old edges.new) }
{
    if with_first {
        return put_point(edges, node, start.at, start.value);
    }
    Ok(())
}

impl Tail {
    /// Whether the last gap, the point that ends it and what comes next are of one function.
    #[inline(always)]
    fn is_of(&self, piece: &Margin) -> bool
        requires { IsWithin (2 ^ 34) (value self.now.end.at) }
        ensures { IsTrue result ↔ IsSomeAnd self.now.gap (λ g.
            (value_at (margin_function g.piece) (value self.now.end.at) ≈ᵉ value_at (margin_function self.now.end.value) (value self.now.end.at))
            × AreSame (margin_function g.piece) (margin_function piece.now)) }
    {
        match &self.gap {
            Some(gap) => {
                Margin::same(&gap.piece, piece)
                    && Margin::cmp_at(&gap.piece, &self.end.value, &self.end.at).is_eq()
            }
            None => false,
        }
    }

    /// Puts the last gap and the point that ends it.
    #[inline(always)]
    pub(crate) fn put(&self, edges: &mut Edges, node: u32) -> Result<(), Memory>
        requires { node < length edges.old.edges }
        ensures { OnOk result (HasPut node (lines_left self.now.gap self.now.end) edges.old edges.new) }
    {
        match &self.gap {
            Some(gap) => put_pair(
                edges,
                node,
                &gap.from,
                &gap.piece,
                &self.end.at,
                &self.end.value,
            ),
            None => Ok(()),
        }
    }

    /// Goes on with a margin up to a time, and with the value there.
    ///
    /// # Errors
    ///
    /// `Memory` where there is no memory.
    #[inline(always)]
    pub(crate) fn go_on(
        &mut self,
        edges: &mut Edges,
        node: u32,
        piece: &Margin,
        to: &Frac,
        point: &Margin,
    ) -> Result<(), Memory>
        requires edge { node < length edges.old.edges }
        requires within { IsWithin (2 ^ 34) (value self.old.end.at) }
        requires later { value self.old.end.at <ʳ value to.now }
        ensures { OnOk result (HasGoneOn piece.now to.now point.now node self.old edges.old self.new edges.new) }
    {
        if self.is_of(piece) {
            self.end = Reached {
                at: *to,
                value: *point,
            };
            return Ok(());
        }
        self.put(edges, node)?;
        self.gap = Some(Open {
            from: self.end.at,
            piece: *piece,
        });
        self.end = Reached {
            at: *to,
            value: *point,
        };
        Ok(())
    }

    /// Goes on with two margins that cross, with the one up to there and with the other behind it; `first` says whether p is taken before, and
    /// q after.
    ///
    /// # Errors
    ///
    /// `Memory` where the two cross at a time that needs a denominator of 2^60 or more, and where there is no memory.
    #[inline(never)]
    fn go_across(
        &mut self,
        edges: &mut Edges,
        node: u32,
        p: &Margin,
        q: &Margin,
        first: bool,
        to: &Frac,
        point: &Margin,
        fault: &mut Option<WidePair<Margin>>,
    ) -> Result<(), Memory>
        requires edge { node < length edges.old.edges }
        requires order { value self.old.end.at <ʳ value to.now }
        requires from_within { IsWithin (2 ^ 34) (value self.old.end.at) }
        requires to_within { IsWithin (2 ^ 34) (value to.now) }
        requires first { HasBoundedLevel (2 ^ 31) (margin_function p.now) }
        requires second { HasBoundedLevel (2 ^ 31) (margin_function q.now) }
        requires turned { TurnsOver (margin_function p.now) (margin_function q.now) (value self.old.end.at) (value to.now) }
        requires unset { fault.old ≡ None }
        ensures joined { (side : Wanted) → IsTurn margin_shape side p.now q.now (value self.old.end.at) (value to.now) first
            → OnOk result (HasJoined side p.now q.now to.now point.now node self.old edges.old self.new edges.new) }
        ensures still { OnOk result (fault.new ≡ None) }
        ensures wide { OnErr result (IfSome fault.new (λ pair. IsGapFault margin_shape p.now q.now self.old.end.at to.now (F.Wide pair))) }
    {
        let middle = crossing_kept(p, q, &self.end.at, to, fault)?;
        if first {
            self.go_on(edges, node, p, &middle, p)?;
            return self.go_on(edges, node, q, to, point);
        }
        self.go_on(edges, node, q, &middle, q)?;
        self.go_on(edges, node, p, to, point)
    }

    /// Goes on with the least of two margins at each time, or the greatest, up to a time, and with the value there.
    ///
    /// # Errors
    ///
    /// As `go_across`.
    #[inline(always)]
    pub(crate) fn join(
        &mut self,
        edges: &mut Edges,
        node: u32,
        side: Side,
        p: &Margin,
        q: &Margin,
        to: &Frac,
        point: &Margin,
        fault: &mut Option<WidePair<Margin>>,
    ) -> Result<(), Memory>
        requires edge { node < length edges.old.edges }
        requires order { value self.old.end.at <ʳ value to.now }
        requires from_within { IsWithin (2 ^ 34) (value self.old.end.at) }
        requires to_within { IsWithin (2 ^ 34) (value to.now) }
        requires first { HasBoundedLevel (2 ^ 31) (margin_function p.now) }
        requires second { HasBoundedLevel (2 ^ 31) (margin_function q.now) }
        requires unset { fault.old ≡ None }
        ensures joined { OnOk result (HasJoined side p.now q.now to.now point.now node self.old edges.old self.new edges.new) }
        ensures still { OnOk result (fault.new ≡ None) }
        ensures wide { OnErr result (IfSome fault.new (λ pair. IsGapFault margin_shape p.now q.now self.old.end.at to.now (F.Wide pair))) }
    {
        match takes_first(side, p, q, &self.end.at, to) {
            Ok(true) => self.go_on(edges, node, p, to, point),
            Ok(false) => self.go_on(edges, node, q, to, point),
            Err(first) => self.go_across(edges, node, p, q, first, to, point, fault),
        }
    }
}
