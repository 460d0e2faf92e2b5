//! A node of the network: by how much it lags behind the rows, and what it does.
ghost use Rattle.std.specs.Prelude.{◌≡◌, ◌<◌, ◌≤◌, ◌≤ℤ◌, ◌<ℤ◌, pos, length, OnOk, OnErr, IsTrue, ◌↔◌, MatchOption, Some};
ghost use Rattle.std.specs.Prelude.{None, false, true};
ghost use Rattle.stl_syntax.specs.Trace.{Header};
ghost use Rattle.stl_syntax.specs.declared.node.Node.{Node as ANode};
ghost use Rattle.online_nodes.specs.StreamedWide.{IsUnstreamed};
ghost use Rattle.online_robust.specs.Steps.{IsLeaf};
ghost use Rattle.online_robust.specs.Moving.{Move, CanGiveOut, CanGoTo, CanMoveByRow, CanMoveByEnd, HasMoved, IsFaultOf};
ghost use Rattle.online_robust.specs.Firsts.{IsFirstWork};
ghost use Rattle.online_robust.specs.declared.station.Work.TheVariants as W;
ghost use Rattle.online_robust.specs.Refusing.{told_by};

use crate::edges::Edges;
use crate::operator::Operator;
use crate::put::{put_atom, put_const};
use atom_lines::Bound;
use frac128::Memory;
use pl_signal::WidePair;
use std::alloc::Global;
use stl_syntax::Node;
use trace_reader::Row;
use value_laws::Margin;

/// What a node does.
#[derive(Drop)]
pub(crate) enum Work {
    Const(bool),
    Atom,
    Operator(Operator),
}

/// A node.
#[derive(Drop)]
pub(crate) struct Station {
    /// Its horizon, in ticks.
    pub(crate) ahead: u32,
    pub(crate) work: Work,
}

/// What a leaf does.
fn leaf_of(node: &Node) -> Work
    requires { IsLeaf node.now }
    ensures { IsFirstWork node.now result }
{
    match node {
        Node::Const(holds) => Work::Const(*holds),
        _ => Work::Atom,
    }
}

/// What a node does, before any row.
pub(crate) fn work_of(node: &Node) -> Work
    requires streamed { ¬ IsUnstreamed node.now }
    ensures { IsFirstWork node.now result }
{
    match Operator::new(node) {
        Some(operator) => Work::Operator(operator),
        None => leaf_of(node),
    }
}

/// The number, if it is not below the start.
pub(crate) fn from_start(number: i64, start: u32) -> Option<u32>
    requires { number ≤ℤ pos 4294967295 }
    ensures { MatchOption result (number <ℤ pos start) (λ f. (number ≡ pos f) × (start ≤ f)) }
{
    if number < i64::from(start) {
        return None;
    }
    Some(number as u32)
}

/// Whether it is this number.
fn is_at(before: Option<i64>, number: i64) -> bool
    ensures { IsTrue result ↔ (before ≡ Some number) }
{
    match before {
        Some(g) => g == number,
        None => false,
    }
}

/// Whether anything was given out up to the number noted last.
fn was_shown(number: Option<i64>, start: u32) -> bool
    ensures { MatchOption number (result ≡ false) (λ g. (result ≡ false → g <ℤ pos start) × (result ≡ true → pos start ≤ℤ g)) }
{
    match number {
        Some(g) => i64::from(start) <= g,
        None => false,
    }
}

/// An operator gives out its margins from the number at which it stood, or from the start, on up to another.
fn give_out(
    alloc: Global,
    edges: &mut Edges,
    operator: &mut Operator,
    node: u32,
    to: u32,
    with_first: bool,
    fault: &mut Option<WidePair<Margin>>,
) -> Result<(), Memory>
    requires can { (m : Move) × CanGiveOut m node operator.old edges.old to with_first }
    requires unset { fault.old ≡ None }
    ensures moved { (m : Move) → CanGiveOut m node operator.old edges.old to with_first
        → OnOk result (HasMoved m (W.Operator operator.new) edges.old edges.new) }
    ensures still { OnOk result (fault.new ≡ None) }
    ensures fault { (m : Move) → CanGiveOut m node operator.old edges.old to with_first → OnErr result (IsFaultOf m (told_by fault.new)) }
{
    operator.sweep(alloc, edges, node, to, with_first, fault)?;
    edges.reach(node, i64::from(to));
    Ok(())
}

/// An operator goes on to a number: where that is not below the start, and above the number at which it stood, it gives out its margins
/// in between.
fn go_on(
    alloc: Global,
    edges: &mut Edges,
    operator: &mut Operator,
    node: u32,
    number: i64,
    fault: &mut Option<WidePair<Margin>>,
) -> Result<(), Memory>
    requires can { (m : Move) × CanGoTo m node operator.old edges.old number }
    requires unset { fault.old ≡ None }
    ensures moved { (m : Move) → CanGoTo m node operator.old edges.old number
        → OnOk result (HasMoved m (W.Operator operator.new) edges.old edges.new) }
    ensures still { OnOk result (fault.new ≡ None) }
    ensures fault { (m : Move) → CanGoTo m node operator.old edges.old number → OnErr result (IsFaultOf m (told_by fault.new)) }
{
    let before = edges.number(node);
    let Some(start) = edges.start() else {
        unreachable!()
    };
    let Some(to) = from_start(number, start) else {
        edges.reach(node, number);
        return Ok(());
    };
    if is_at(before, number) {
        return Ok(());
    }
    give_out(
        alloc,
        edges,
        operator,
        node,
        to,
        !was_shown(before, start),
        fault,
    )
}

impl Station {
    /// The node goes on by a row, after the one before.
    ///
    /// # Errors
    ///
    /// `Wide` where functions in play need a denominator of 2^60 or more; `Memory` where there is no memory.
    pub(crate) fn take_row(
        &mut self,
        alloc: Global,
        edges: &mut Edges,
        node: u32,
        bound: &Bound,
        before: &Option<Row>,
        row: &Row,
        fault: &mut Option<WidePair<Margin>>,
    ) -> Result<(), Memory>
        requires can { (m : Move) × CanMoveByRow m node self.old edges.old bound.now before.now row.now }
        requires unset { fault.old ≡ None }
        ensures ahead { self.new.ahead ≡ self.old.ahead }
        ensures moved { (m : Move) → CanMoveByRow m node self.old edges.old bound.now before.now row.now
            → OnOk result (HasMoved m self.new.work edges.old edges.new) }
        ensures still { OnOk result (fault.new ≡ None) }
        ensures fault { (m : Move) → CanMoveByRow m node self.old edges.old bound.now before.now row.now → OnErr result (IsFaultOf m (told_by fault.new)) }
    {
        let now = i64::from(row.time());
        match &mut self.work {
            Work::Const(holds) => {
                put_const(edges, node, *holds, before, row)?;
                edges.reach(node, now);
                Ok(())
            }
            Work::Atom => {
                put_atom(edges, node, bound, before, row)?;
                edges.reach(node, now);
                Ok(())
            }
            Work::Operator(operator) => {
                go_on(
                    alloc,
                    edges,
                    operator,
                    node,
                    now - i64::from(self.ahead),
                    fault,
                )
            }
        }
    }

    /// The node goes on by the end of the rows, of which the last stands at `now`.
    ///
    /// # Errors
    ///
    /// `Wide` where functions in play need a denominator of 2^60 or more; `Memory` where there is no memory.
    pub(crate) fn take_end(
        &mut self,
        alloc: Global,
        edges: &mut Edges,
        node: u32,
        now: u32,
        fault: &mut Option<WidePair<Margin>>,
    ) -> Result<(), Memory>
        requires can { (m : Move) × CanMoveByEnd m node self.old edges.old now }
        requires unset { fault.old ≡ None }
        ensures ahead { self.new.ahead ≡ self.old.ahead }
        ensures moved { (m : Move) → CanMoveByEnd m node self.old edges.old now → OnOk result (HasMoved m self.new.work edges.old edges.new) }
        ensures still { OnOk result (fault.new ≡ None) }
        ensures fault { (m : Move) → CanMoveByEnd m node self.old edges.old now → OnErr result (IsFaultOf m (told_by fault.new)) }
    {
        match &mut self.work {
            Work::Const(_) => Ok(()),
            Work::Atom => Ok(()),
            Work::Operator(operator) => go_on(alloc, edges, operator, node, i64::from(now), fault),
        }
    }
}
