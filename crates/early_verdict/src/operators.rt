//! One entry over the sets of an operator, by those of its children.
ghost use Rattle.std.specs.Prelude.{◌≡◌, ◌<◌, ◌^◌, OnOk, Option, Some, slice_get, pos, true, length, unsigned_abs, ◌≤◌};
ghost use lib.IntN.{neg_ℤ};
ghost use Rattle.stl_syntax.specs.Formula.{HasChildrenBelow};
ghost use Rattle.early_verdict.specs.Looking.{IsAhead, IsBehind};
ghost use Rattle.early_verdict.specs.Fitting.{AreSetsTidy, HasStepped};
ghost use Rattle.early_verdict.specs.Happening.{SetsCanTake};
ghost use Rattle.early_verdict.specs.Standing.{AllTidy, GoesBy, IsOperator, LooksAhead, LooksBehind};

use crate::connectives::{
    step_conjunction, step_constant, step_disjunction, step_implication, step_negation,
};
use crate::entry::Entry;
use crate::looks::{step_always, step_eventually, step_historically, step_once};
use crate::runs::{step_since, step_until};
use crate::sets::Sets;
use frac128::Memory;
use growing_sets::Window;
use stl_syntax::Node;

/// The window of an operator that looks ahead.
fn ahead(low: u32, high: u32, low_in: bool, high_in: bool) -> Window
    ensures { IsAhead result low high low_in high_in }
{
    Window {
        low: Some(i64::from(low)),
        high: i64::from(high),
        low_in,
        high_in,
    }
}

/// The offset of a time that lies `ticks` behind.
pub(crate) fn ticks_before(ticks: u32) -> i64
    ensures value { result ≡ neg_ℤ (pos ticks) }
    ensures near { unsigned_abs result ≤ 2 ^ 32 }
{
    -i64::from(ticks)
}

/// The window of an operator that looks behind.
fn behind(low: u32, high: Option<u32>, low_in: bool, high_in: bool) -> Window
    ensures { IsBehind result low high low_in high_in }
{
    let Some(most) = high else {
        return Window {
            low: None,
            high: ticks_before(low),
            low_in: high_in,
            high_in: low_in,
        };
    };
    Window {
        low: Some(ticks_before(most)),
        high: ticks_before(low),
        low_in: high_in,
        high_in: low_in,
    }
}

/// The sets of a node below.
fn at(below: &[Sets], place: u32) -> &Sets
    requires within { place < length below.now }
    requires tidy { AllTidy below.now }
    ensures at { slice_get below.now place ≡ Some result.now }
    ensures tidy { AreSetsTidy result.now }
{
    &below[place as usize]
}

/// Steps the sets of an operator whose one operand is looked at ahead.
fn step_ahead(own: &mut Sets, node: &Node, below: &[Sets], entry: &Entry) -> Result<(), Memory>
    requires own { SetsCanTake entry.now own.old }
    requires below { AllTidy below.now }
    requires children { HasChildrenBelow (length below.now) node.now }
    requires operator { LooksAhead node.now }
    ensures stepped { OnOk result (HasStepped own.old own.new) }
    ensures fits { OnOk result (GoesBy node.now entry.now below.now own.old own.new) }
{
    match node {
        Node::Eventually {
            of,
            low,
            high,
            low_in,
            high_in,
        } => {
            let w = ahead(*low, *high, *low_in, *high_in);
            step_eventually(own, at(below, *of), &w, entry)
        }
        Node::Always {
            of,
            low,
            high,
            low_in,
            high_in,
        } => {
            let w = ahead(*low, *high, *low_in, *high_in);
            step_always(own, at(below, *of), &w, entry)
        }
        _ => unreachable!(),
    }
}

/// Steps the sets of an operator whose one operand is looked at behind.
fn step_behind(own: &mut Sets, node: &Node, below: &[Sets], entry: &Entry) -> Result<(), Memory>
    requires own { SetsCanTake entry.now own.old }
    requires below { AllTidy below.now }
    requires children { HasChildrenBelow (length below.now) node.now }
    requires operator { LooksBehind node.now }
    ensures stepped { OnOk result (HasStepped own.old own.new) }
    ensures fits { OnOk result (GoesBy node.now entry.now below.now own.old own.new) }
{
    match node {
        Node::Once {
            of,
            low,
            high,
            low_in,
            high_in,
        } => {
            let w = behind(*low, *high, *low_in, *high_in);
            step_once(own, at(below, *of), &w, entry)
        }
        Node::Historically {
            of,
            low,
            high,
            low_in,
            high_in,
        } => {
            let w = behind(*low, *high, *low_in, *high_in);
            step_historically(own, at(below, *of), &w, entry)
        }
        _ => unreachable!(),
    }
}

/// Steps the sets of an operator from those of its children.
pub(crate) fn step_operator(
    own: &mut Sets,
    node: &Node,
    below: &[Sets],
    entry: &Entry,
) -> Result<(), Memory>
    requires own { SetsCanTake entry.now own.old }
    requires below { AllTidy below.now }
    requires children { HasChildrenBelow (length below.now) node.now }
    requires operator { IsOperator node.now }
    ensures stepped { OnOk result (HasStepped own.old own.new) }
    ensures fits { OnOk result (GoesBy node.now entry.now below.now own.old own.new) }
{
    match node {
        Node::Const(holds) => step_constant(own, *holds, entry),
        Node::Atom(_) => unreachable!(),
        Node::Not(of) => step_negation(own, at(below, *of)),
        Node::And(left, right) => step_conjunction(own, at(below, *left), at(below, *right)),
        Node::Or(left, right) => step_disjunction(own, at(below, *left), at(below, *right)),
        Node::Implies(left, right) => step_implication(own, at(below, *left), at(below, *right)),
        Node::Until {
            left,
            right,
            low,
            high,
        } => {
            let w = ahead(*low, *high, true, true);
            let up_to = ahead(0, *low, true, true);
            step_until(own, at(below, *left), at(below, *right), &w, &up_to, entry)
        }
        Node::Since {
            left,
            right,
            low,
            high,
        } => {
            let w = behind(*low, *high, true, true);
            let down_to = behind(0, Some(*low), true, true);
            step_since(
                own,
                at(below, *left),
                at(below, *right),
                &w,
                &down_to,
                entry,
            )
        }
        Node::Eventually { .. } | Node::Always { .. } => step_ahead(own, node, below, entry),
        Node::Once { .. } | Node::Historically { .. } => step_behind(own, node, below, entry),
    }
}
