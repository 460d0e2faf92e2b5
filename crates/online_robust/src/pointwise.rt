//! Negation and the connectives over a stretch.
ghost use Rattle.std.specs.Prelude.{◌≡◌, ◌≢◌, ◌<◌, ◌≤◌, ◌^◌, true, IsSome, IsTrue, length, OnOk, Some, OnErr, None};
ghost use Rattle.rational.specs.Rational.{Rational, ◌≈◌, ◌<ʳ◌};
ghost use Rattle.rational.specs.Extended.{value_at, ◌≈ᵉ◌};
ghost use Rattle.rational.specs.Affine.{HasBoundedLevel};
ghost use Rattle.value_laws.specs.Margins.{is_ramp, margin_base, margin_function};
ghost use Rattle.frac128.specs.Value.{value};
ghost use Rattle.stl_syntax.specs.SupInf.{Robustness};
ghost use Rattle.online_robust.specs.Held.{held_at};
ghost use Rattle.online_robust.specs.Lines.{end_of, margin_of};
ghost use Rattle.online_robust.specs.declared.line.MarginLine.{MarginLine as Line};
ghost use Rattle.online_robust.specs.Told.{IsTick};
ghost use Rattle.online_robust.specs.ReadLines.{HasReached, IsAhead, IsThere, LosesAt, LosesAtBoth, value_turned};
ghost use Rattle.online_robust.specs.Couples.{CanJoin, CanNegate, Couple, GoesOnJoined, GoesOnNegated, IsCoupleFault, IsJoinedTo, IsNegatedTo};
ghost use Rattle.online_robust.specs.Couples.{TellsJoined, TellsNegated};
ghost use Rattle.online_robust.specs.Couples.{IsReadTo, Source, both_of, left_of, right_of, turns_left, turns_left_of};
ghost use Rattle.online_robust.specs.Refusing.{told_by};
ghost use Rattle.online_robust.specs.Tails.{HasTurned, IsGivenOut};

use crate::edges::Edges;
use crate::line::{MarginLine, Reached};
use crate::tail::{Tail, put_start};
use frac128::{Frac, Memory};
use pl_signal::{Side, WidePair, chosen_in_place, earlier};
use std::cmp::Ordering;
use value_laws::{Margin, Shape};

/// A negation, and up to where it was told.
#[derive(Clone, Copy)]
pub(crate) struct Not {
    pub(crate) of: u32,
    pub(crate) last: Option<Reached>,
}

/// A connective: the least or the greatest of its inputs, the left one negated before; and up to where it was told.
#[derive(Clone, Copy)]
pub(crate) struct Two {
    pub(crate) left: u32,
    pub(crate) right: u32,
    pub(crate) side: Side,
    pub(crate) turned: bool,
    pub(crate) last: Option<Reached>,
}

/// The margin of an input at the time, which lies in its first gap, or at the end of it; the gap has this end and this margin. What
/// ends by the time is taken.
#[inline(always)]
fn up_to(edges: &mut Edges, of: u32, end: &Frac, shape: &Margin, t: &Frac) -> Margin
    requires of { of < length edges.old.edges }
    requires read { (x : Source) × (gap : Line) × (end.now ≡ end_of gap) × (shape.now ≡ margin_of gap)
        × IsReadTo x gap (value t.now) (held_at edges.old of) }
    ensures there { (x : Source) (gap : Line) → end.now ≡ end_of gap → shape.now ≡ margin_of gap
        → IsReadTo x gap (value t.now) (held_at edges.old of) → IsThere (Robustness x.formula x.trace) x.reach (value t.now) result }
    ensures ahead { (x : Source) (gap : Line) → end.now ≡ end_of gap → shape.now ≡ margin_of gap
        → IsReadTo x gap (value t.now) (held_at edges.old of)
        → IsAhead (Robustness x.formula x.trace) x.reach (value t.now) x.to (held_at edges.new of) }
    ensures lost { LosesAt (value t.now) of edges.old edges.new }
    ensures fewer { (value end.now ≈ value t.now → length (held_at edges.new of) < length (held_at edges.old of)) }
    ensures no_more { length (held_at edges.new of) ≤ length (held_at edges.old of) }
{
    match end.cmp(t) {
        Ordering::Equal => {
            edges.skip(of);
            let Some(point) = edges.take(of) else {
                unreachable!()
            };
            point.margin()
        }
        _ => *shape,
    }
}

impl Not {
    /// Where it was told before, or the point at the start, which is taken from the input.
    fn begin(&self, edges: &mut Edges) -> Reached
        requires { (x : Couple) × CanNegate x self.now edges.old }
        ensures reached { (x : Couple) → CanNegate x self.now edges.old → HasReached (left_of x true) x.reach x.from (Some result) }
        ensures negated { (x : Couple) → CanNegate x self.now edges.old → IsNegatedTo x self.now edges.new (value result.at) }
        ensures lost { LosesAt (value result.at) self.now.of edges.old edges.new }
    {
        if let Some(reached) = self.last {
            return reached;
        }
        let Some(point) = edges.take(self.of) else {
            unreachable!()
        };
        Reached {
            at: point.end(),
            value: point.margin().neg(),
        }
    }

    /// Goes on over a gap of the input and the point behind it.
    fn turn(&self, edges: &mut Edges, node: u32, tail: &mut Tail) -> Result<(), Memory>
        requires can { (x : Couple) × IsNegatedTo x self.now edges.old (value tail.old.end.at) × (value tail.old.end.at <ʳ x.to) }
        requires edge { node < length edges.old.edges }
        requires apart { node ≢ self.now.of }
        ensures turned { OnOk result (HasTurned self.now.of self.now.of node
            (GoesOnNegated self.now edges.old (value tail.old.end.at) (value tail.new.end.at)) tail.old edges.old tail.new edges.new) }
        ensures reached { (x : Couple) → IsNegatedTo x self.now edges.old (value tail.old.end.at) → value tail.old.end.at <ʳ x.to
            → OnOk result (HasReached (left_of x true) x.reach (value tail.new.end.at) (Some tail.new.end)) }
        ensures negated { (x : Couple) → IsNegatedTo x self.now edges.old (value tail.old.end.at) → value tail.old.end.at <ʳ x.to
            → OnOk result (IsNegatedTo x self.now edges.new (value tail.new.end.at)) }
        ensures nearer { OnOk result (turns_left_of self.now edges.new < turns_left_of self.now edges.old) }
    {
        let Some(gap) = edges.take(self.of) else {
            unreachable!()
        };
        let Some(point) = edges.take(self.of) else {
            unreachable!()
        };
        let at = point.end();
        let value = point.margin().neg();
        tail.go_on(edges, node, &gap.margin().neg(), &at, &value)
    }

    /// Puts the negated margins from where they were told before, or from the start, on up to a time onto the node's edge.
    ///
    /// # Errors
    ///
    /// `Memory` where there is no memory. It is of no use then.
    pub(crate) fn sweep(
        &mut self,
        edges: &mut Edges,
        node: u32,
        to: &Frac,
        with_first: bool,
    ) -> Result<(), Memory>
        requires can { (x : Couple) × CanNegate x self.old edges.old × (value to.now ≈ x.to) }
        requires edge { node < length edges.old.edges }
        requires apart { node ≢ self.old.of }
        ensures out { OnOk result (IsGivenOut (value to.now) self.old.of self.old.of node with_first
            (TellsNegated self.old edges.old (value to.now)) edges.old edges.new) }
        ensures reached { (x : Couple) → CanNegate x self.old edges.old → value to.now ≈ x.to
            → OnOk result (HasReached (left_of x true) x.reach x.to self.new.last) }
        ensures some { OnOk result (IsSome self.new.last) }
        ensures kept { self.new ≡ record self.old { last = self.new.last } }
    {
        let start = self.begin(edges);
        put_start(edges, node, &start, with_first)?;
        let mut tail = Tail {
            gap: None,
            end: start,
        };
        while let Ordering::Less = tail.end.at.cmp(to) {
            self.turn(edges, node, &mut tail)?;
        }
        tail.put(edges, node)?;
        self.last = Some(tail.end);
        Ok(())
    }
}

impl Two {
    /// The left input's margin, as it counts.
    #[inline(always)]
    fn left_of(&self, shape: &Margin) -> Margin
        requires { HasBoundedLevel (2 ^ 31) (margin_function shape.now) }
        ensures value { (t : Rational) → value_at (margin_function result) t ≈ᵉ value_turned self.now.turned (value_at (margin_function shape.now) t) }
        ensures base { IsTrue (is_ramp result) → IsTrue (is_ramp shape.now) × (margin_base result ≡ margin_base shape.now) }
    {
        if self.turned { shape.neg() } else { *shape }
    }

    /// The margin of the connective of two margins at the time.
    #[inline(always)]
    fn of_both(&self, p: &Margin, q: &Margin, t: &Frac) -> Margin
        requires { (x : Couple) × (IsThere (Robustness x.left x.trace) x.reach (value t.now) p.now)
            × (IsThere (right_of x) x.reach (value t.now) q.now) × IsTick (value t.now) }
        ensures { (x : Couple) → IsThere (Robustness x.left x.trace) x.reach (value t.now) p.now
            → IsThere (right_of x) x.reach (value t.now) q.now
            → IsThere (both_of x self.now) x.reach (value t.now) result }
    {
        *chosen_in_place(self.side, &self.left_of(p), q, t)
    }

    /// Where it was told before, or the point at the start, which is taken from both inputs.
    fn begin(&self, edges: &mut Edges) -> Reached
        requires { (x : Couple) × CanJoin x self.now edges.old }
        ensures reached { (x : Couple) → CanJoin x self.now edges.old → HasReached (both_of x self.now) x.reach x.from (Some result) }
        ensures joined { (x : Couple) → CanJoin x self.now edges.old → IsJoinedTo x self.now edges.new (value result.at) }
        ensures lost { LosesAtBoth (value result.at) self.now.left self.now.right edges.old edges.new }
    {
        if let Some(reached) = self.last {
            return reached;
        }
        let Some(p) = edges.ahead(self.left) else {
            unreachable!()
        };
        let at = p.end();
        let x = p.margin();
        edges.skip(self.left);
        let Some(q) = edges.ahead(self.right) else {
            unreachable!()
        };
        let y = q.margin();
        edges.skip(self.right);
        let value = self.of_both(&x, &y, &at);
        Reached { at, value }
    }

    /// Goes on to the next time at which a gap of an input ends, or to the end of the stretch.
    fn turn(
        &self,
        edges: &mut Edges,
        node: u32,
        tail: &mut Tail,
        to: &Frac,
        fault: &mut Option<WidePair<Margin>>,
    ) -> Result<(), Memory>
        requires order { value tail.old.end.at <ʳ value to.now }
        requires joined { (x : Couple) × IsJoinedTo x self.now edges.old (value tail.old.end.at) × (value to.now ≈ x.to) }
        requires edge { node < length edges.old.edges }
        requires apart { (node ≢ self.now.left) × (node ≢ self.now.right) }
        requires unset { fault.old ≡ None }
        ensures turned { OnOk result (HasTurned self.now.left self.now.right node
            (GoesOnJoined self.now edges.old (value tail.old.end.at) (value tail.new.end.at) (value to.now)) tail.old edges.old tail.new edges.new) }
        ensures reached { (x : Couple) → IsJoinedTo x self.now edges.old (value tail.old.end.at) → value to.now ≈ x.to
            → OnOk result (HasReached (both_of x self.now) x.reach (value tail.new.end.at) (Some tail.new.end)) }
        ensures joined { (x : Couple) → IsJoinedTo x self.now edges.old (value tail.old.end.at) → value to.now ≈ x.to
            → OnOk result (IsJoinedTo x self.now edges.new (value tail.new.end.at)) }
        ensures nearer { OnOk result
            (turns_left self.now edges.new (value tail.new.end.at) (value to.now) < turns_left self.now edges.old (value tail.old.end.at) (value to.now)) }
        ensures still { OnOk result (fault.new ≡ None) }
        ensures wide { (x : Couple) → IsJoinedTo x self.now edges.old (value tail.old.end.at) → value to.now ≈ x.to
            → OnErr result (IsCoupleFault x self.now (told_by fault.new)) }
    {
        let Some(p) = edges.ahead(self.left) else {
            unreachable!()
        };
        let p_end = p.end();
        let p_shape = p.margin();
        let Some(q) = edges.ahead(self.right) else {
            unreachable!()
        };
        let q_end = q.end();
        let q_shape = q.margin();
        let t = earlier(&earlier(&p_end, &q_end), to);
        let x = up_to(edges, self.left, &p_end, &p_shape, &t);
        let y = up_to(edges, self.right, &q_end, &q_shape, &t);
        let value = self.of_both(&x, &y, &t);
        tail.join(
            edges,
            node,
            self.side,
            &self.left_of(&p_shape),
            &q_shape,
            &t,
            &value,
            fault,
        )
    }

    /// Puts the margins from where they were told before, or from the start, on up to a time onto the node's edge.
    ///
    /// # Errors
    ///
    /// `Wide` for a crossing of two parts of the inputs; `Memory` where there is no memory. It is of no use then.
    pub(crate) fn sweep(
        &mut self,
        edges: &mut Edges,
        node: u32,
        to: &Frac,
        with_first: bool,
        fault: &mut Option<WidePair<Margin>>,
    ) -> Result<(), Memory>
        requires can { (x : Couple) × CanJoin x self.old edges.old × (value to.now ≈ x.to) }
        requires edge { node < length edges.old.edges }
        requires apart { (node ≢ self.old.left) × (node ≢ self.old.right) }
        requires unset { fault.old ≡ None }
        ensures out { OnOk result (IsGivenOut (value to.now) self.old.left self.old.right node with_first
            (TellsJoined self.old edges.old (value to.now)) edges.old edges.new) }
        ensures reached { (x : Couple) → CanJoin x self.old edges.old → value to.now ≈ x.to
            → OnOk result (HasReached (both_of x self.old) x.reach x.to self.new.last) }
        ensures some { OnOk result (IsSome self.new.last) }
        ensures kept { self.new ≡ record self.old { last = self.new.last } }
        ensures still { OnOk result (fault.new ≡ None) }
        ensures wide { (x : Couple) → CanJoin x self.old edges.old → value to.now ≈ x.to → OnErr result (IsCoupleFault x self.old (told_by fault.new)) }
    {
        let start = self.begin(edges);
        put_start(edges, node, &start, with_first)?;
        let mut tail = Tail {
            gap: None,
            end: start,
        };
        while let Ordering::Less = tail.end.at.cmp(to) {
            self.turn(edges, node, &mut tail, to, fault)?;
        }
        tail.put(edges, node)?;
        self.last = Some(tail.end);
        Ok(())
    }
}
