//! The operator of a node: what it keeps in mind of its inputs, and how it goes on.
ghost use Rattle.std.specs.Prelude.{◌≡◌, ◌<◌, length, OnOk, None, OnErr};
ghost use Rattle.online_nodes.specs.StreamedWide.{IsUnstreamed};
ghost use Rattle.online_robust.specs.Slides.{slide_of};
ghost use Rattle.online_robust.specs.Operators.{two_by, window_by};
ghost use Rattle.online_robust.specs.declared.operator.Operator.TheVariants as Op;
ghost use Rattle.online_robust.specs.Steps.{Step, Belongs, BelongsAt, GivesOut, IsFirstOperator, IsStreamedFault};
ghost use Rattle.online_robust.specs.Refusing.{told_by};

use crate::edges::Edges;
use crate::pointwise::{Not, Two};
use crate::slide::{Slide, Window};
use frac128::{Frac, Memory};
use pl_signal::{Side, WidePair};
use std::alloc::Global;
use stl_syntax::{Asks, Join, Node, Offsets, View};
use value_laws::Margin;

/// What a node that has inputs does.
#[derive(Drop)]
pub(crate) enum Operator {
    Not(Not),
    Two(Two),
    Slide(Slide),
}

/// A negation before anything was told.
fn negation(of: u32) -> Operator
    ensures { result ≡ Op.Not (record { of = of; last = None }) }
{
    Operator::Not(Not { of, last: None })
}

/// A connective before anything was told.
fn two(join: Join, left: u32, right: u32) -> Operator
    ensures { result ≡ Op.Two (two_by join left right) }
{
    let (side, turned) = match join {
        Join::And => (Side::Least, false),
        Join::Or => (Side::Greatest, false),
        Join::Implies => (Side::Greatest, true),
    };
    Operator::Two(Two {
        left,
        right,
        side,
        turned,
        last: None,
    })
}

/// A window before anything was told: its low end lies before any time where it has none.
fn over(asks: Asks, window: &Offsets, of: u32) -> Operator
    ensures { result ≡ Op.Slide (slide_of (window_by asks window.now of)) }
{
    let side = match asks {
        Asks::Any => Side::Greatest,
        Asks::Each => Side::Least,
    };
    let (low, low_in) = match window.low {
        Some(low) => (low, window.low_in),
        None => (-4_294_967_296, true),
    };
    Operator::Slide(Slide::new(Window {
        of,
        side,
        low,
        high: window.high,
        low_in,
        high_in: window.high_in,
    }))
}

/// A negation goes on to a number.
fn sweep_not(
    not: &mut Not,
    edges: &mut Edges,
    node: u32,
    to: u32,
    with_first: bool,
) -> Result<(), Memory>
    requires can { BelongsAt node (Op.Not not.old) edges.old to }
    requires edge { node < length edges.old.edges }
    ensures { OnOk result (GivesOut node with_first (Op.Not not.old) to edges.old (Op.Not not.new) edges.new) }
{
    let end = Frac::of(i64::from(to));
    not.sweep(edges, node, &end, with_first)?;
    Ok(())
}

/// A connective goes on to a number.
fn sweep_two(
    two: &mut Two,
    edges: &mut Edges,
    node: u32,
    to: u32,
    with_first: bool,
    fault: &mut Option<WidePair<Margin>>,
) -> Result<(), Memory>
    requires can { BelongsAt node (Op.Two two.old) edges.old to }
    requires edge { node < length edges.old.edges }
    requires unset { fault.old ≡ None }
    ensures out { OnOk result (GivesOut node with_first (Op.Two two.old) to edges.old (Op.Two two.new) edges.new) }
    ensures still { OnOk result (fault.new ≡ None) }
    ensures wide { (t : Step) → Belongs t (Op.Two two.old) edges.old to → OnErr result (IsStreamedFault t (told_by fault.new)) }
{
    let end = Frac::of(i64::from(to));
    two.sweep(edges, node, &end, with_first, fault)?;
    Ok(())
}

impl Operator {
    /// The operator of a node before it gave out anything; none at a constant and at an atom.
    pub(crate) fn new(node: &Node) -> Option<Operator>
        requires streamed { ¬ IsUnstreamed node.now }
        ensures { IsFirstOperator node.now result }
    {
        match node.view() {
            View::Const(_) => None,
            View::Atom => None,
            View::Not(of) => Some(negation(of)),
            View::Two(join, left, right) => Some(two(join, left, right)),
            View::Over(asks, window, of) => Some(over(asks, &window, of)),
            View::Reach(..) => unreachable!(),
        }
    }

    /// Puts the margins of its node from where it stood, or from the start, on up to a number onto the node's edge.
    ///
    /// # Errors
    ///
    /// `Wide` where functions in play need a denominator of 2^60 or more; `Memory` where there is no memory. The operator and its edges
    /// are given up then.
    pub(crate) fn sweep(
        &mut self,
        alloc: Global,
        edges: &mut Edges,
        node: u32,
        to: u32,
        with_first: bool,
        fault: &mut Option<WidePair<Margin>>,
    ) -> Result<(), Memory>
        requires can { BelongsAt node self.old edges.old to }
        requires edge { node < length edges.old.edges }
        requires unset { fault.old ≡ None }
        ensures out { OnOk result (GivesOut node with_first self.old to edges.old self.new edges.new) }
        ensures still { OnOk result (fault.new ≡ None) }
        ensures wide { (t : Step) → Belongs t self.old edges.old to → OnErr result (IsStreamedFault t (told_by fault.new)) }
    {
        match self {
            Operator::Not(not) => sweep_not(not, edges, node, to, with_first),
            Operator::Two(two) => sweep_two(two, edges, node, to, with_first, fault),
            Operator::Slide(slide) => slide.sweep(alloc, edges, node, to, with_first, fault),
        }
    }
}
