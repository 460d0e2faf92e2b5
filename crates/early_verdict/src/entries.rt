//! Rows and the end of the input, as they come to the sets of all nodes.
ghost use Rattle.std.specs.Prelude.{◌≡◌, ◌<◌, ◌≤◌, ◌++◌, ◌∷◌, ◌↔◌, [], ℕ, List, Option, length, pos, slice_get, IfOk, IsTrue, OnOk, Some, None, true, false};
ghost use Rattle.stl_syntax.specs.Trace.{Header, Row as ARow};
ghost use Rattle.stl_syntax.specs.Formula.{root};
ghost use Rattle.rational.specs.Rational.{whole};
ghost use Rattle.growing_sets.specs.Spans.{AreTidy, IsOn};
ghost use Rattle.early_verdict.specs.Happening.{Happens, IsEntry};
ghost use Rattle.stl_syntax.specs.declared.node.Node.{Node as ANode};
ghost use Rattle.early_verdict.specs.Standing.{AllEmpty, AllTidy, LeafIsBound, own_of};
ghost use Rattle.early_verdict.specs.Living.{ComesOn};
ghost use Rattle.early_verdict.specs.Deciding.{IsOpen, IsTruthAtStart, IsVerdict, SetsAre, last_after, last_of, trace_of};
ghost use Rattle.early_verdict.specs.BlockRows.{own_row, previous_row};

use crate::atoms::{after_tick, before_tick};
use crate::block_row::BlockRow;
use crate::entry::Entry;
use crate::making::{all_sets, shown_of};
use crate::net::step_all;
use crate::sets::{Net, Sets};
use atom_lines::Bound;
use frac128::Memory;
use growing_sets::Grown;
use std::alloc::Global;
use stl_syntax::Formula;
use trace_reader::Trace;

/// The first row of a trace.
fn first_entry(time: u32) -> Entry
    ensures entry { IsEntry result }
    ensures first { result.first ≡ true }
    ensures open { result.ended ≡ false }
    ensures happens { (header : Header) (x : ARow) → time ≡ x.time → Happens result None (trace_of header (x ∷ [])) }
{
    let start = before_tick(time);
    let sure = after_tick(time);
    Entry {
        start,
        before: start,
        sure,
        first: true,
        ended: false,
    }
}

/// A row after another, of a trace that starts there.
fn next_entry(start: u32, last: u32, time: u32) -> Entry
    requires { last < time }
    ensures entry { IsEntry result }
    ensures first { result.first ≡ false }
    ensures open { result.ended ≡ false }
    ensures happens { (header : Header) (r : ARow) (rows : List ARow) (x : ARow) → start ≡ r.time → last ≡ (last_after r rows).time → time ≡ x.time
        → Happens result (Some (trace_of header (r ∷ rows))) (trace_of header (r ∷ (rows ++ x ∷ []))) }
{
    let start = before_tick(start);
    let before = after_tick(last);
    let sure = after_tick(time);
    Entry {
        start,
        before,
        sure,
        first: false,
        ended: false,
    }
}

/// The end of a trace that starts there, after its last row.
fn end_entry(start: u32, last: u32) -> Entry
    ensures entry { IsEntry result }
    ensures first { result.first ≡ false }
    ensures ended { result.ended ≡ true }
    ensures happens { (header : Header) (r : ARow) (rows : List ARow) → start ≡ r.time → last ≡ (last_after r rows).time
        → Happens result (Some (trace_of header (r ∷ rows))) (trace_of header (r ∷ rows)) }
{
    let start = before_tick(start);
    let sure = after_tick(last);
    Entry {
        start,
        before: sure,
        sure,
        first: false,
        ended: true,
    }
}

/// The sets of all nodes once an entry has come.
fn step_sets(
    net: &mut Net,
    formula: &Formula,
    bound: &Bound,
    next: &BlockRow,
    entry: &Entry,
) -> Result<(), Memory>
    requires count { length formula.now.nodes ≤ length net.old.live.items }
    requires shown_count { length net.old.shown.items ≡ length formula.now.nodes }
    requires tidy { AllTidy (own_of formula.now.nodes net.old) }
    requires shown_tidy { AllTidy net.old.shown.items }
    requires entry { IsEntry entry.now }
    requires none { entry.now.first ≡ true → AllEmpty (own_of formula.now.nodes net.old) }
    requires atoms { (i : ℕ) (n : ANode) → slice_get formula.now.nodes i ≡ Some n → LeafIsBound bound.now i n }
    requires columns { length next.now.block.now.header.columns ≡ bound.now.width }
    ensures { OnOk result (ComesOn formula.now.nodes bound.now entry.now (previous_row next.now) (own_row next.now)
        (own_of formula.now.nodes net.old) (own_of formula.now.nodes net.new) net.old.shown.items net.new.shown.items) }
{
    step_all(&mut net.live, &mut net.shown, formula, bound, next, entry)?;
    Ok(())
}

/// The sets after the first row, of nothing before.
fn take_first(
    alloc: Global,
    net: &mut Net,
    formula: &Formula,
    bound: &Bound,
    next: &BlockRow,
) -> Result<(), Memory>
    requires open { (header : Header) × IsOpen formula.now bound.now header [] 0 None (own_of formula.now.nodes net.old) net.old.shown.items }
    requires columns { length next.now.block.now.header.columns ≡ bound.now.width }
    requires first { next.now.at ≡ 0 }
    ensures { OnOk result ((header : Header) → IsOpen formula.now bound.now header [] 0 None (own_of formula.now.nodes net.old) net.old.shown.items
        → SetsAre formula.now.nodes header (own_row next.now).time (own_of formula.now.nodes net.new) net.new.shown.items (own_row next.now ∷ [])) }
{
    let live = all_sets(alloc, formula, next.time())?;
    let shown = shown_of(alloc, &live)?;
    *net = Net {
        live,
        shown,
        rows: 0,
    };
    let entry = first_entry(next.time());
    step_sets(net, formula, bound, next, &entry)?;
    Ok(())
}

/// The sets after a row that follows others.
fn take_next(
    net: &mut Net,
    formula: &Formula,
    bound: &Bound,
    begin: u32,
    next: &BlockRow,
) -> Result<(), Memory>
    requires open { (header : Header) × (r : ARow) × (rows : List ARow)
        × IsOpen formula.now bound.now header (r ∷ rows) begin (previous_row next.now) (own_of formula.now.nodes net.old) net.old.shown.items }
    requires columns { length next.now.block.now.header.columns ≡ bound.now.width }
    requires after { 0 < next.now.at }
    ensures { OnOk result ((header : Header) (r : ARow) (rows : List ARow)
        → IsOpen formula.now bound.now header (r ∷ rows) begin (previous_row next.now) (own_of formula.now.nodes net.old) net.old.shown.items
        → SetsAre formula.now.nodes header begin (own_of formula.now.nodes net.new) net.new.shown.items (r ∷ (rows ++ own_row next.now ∷ []))) }
{
    let entry = next_entry(begin, next.time_before(), next.time());
    step_sets(net, formula, bound, next, &entry)?;
    Ok(())
}

/// The sets after a row, and the time of the first one.
pub(crate) fn take_row(
    alloc: Global,
    net: &mut Net,
    formula: &Formula,
    bound: &Bound,
    begin: u32,
    next: &BlockRow,
) -> Result<u32, Memory>
    requires open { (header : Header) × (rows : List ARow)
        × IsOpen formula.now bound.now header rows begin (previous_row next.now) (own_of formula.now.nodes net.old) net.old.shown.items }
    requires columns { length next.now.block.now.header.columns ≡ bound.now.width }
    ensures { IfOk result (λ start. (header : Header) (rows : List ARow)
        → IsOpen formula.now bound.now header rows begin (previous_row next.now) (own_of formula.now.nodes net.old) net.old.shown.items
        → SetsAre formula.now.nodes header start (own_of formula.now.nodes net.new) net.new.shown.items (rows ++ own_row next.now ∷ [])) }
{
    if next.is_first() {
        take_first(alloc, net, formula, bound, next)?;
        return Ok(next.time());
    }
    take_next(net, formula, bound, begin, next)?;
    Ok(begin)
}

/// Whether the tick is one of the set's times.
fn has_tick(set: &Grown, tick: u32) -> bool
    requires { AreTidy set.now.spans.items }
    ensures { IsTrue result ↔ IsOn set.now.spans.items (whole (pos tick)) }
{
    set.has(i64::from(tick))
}

/// What the sets of the root say of the start.
pub(crate) fn root_verdict(sets: &[Sets], start: u32) -> Option<bool>
    requires some { 0 < length sets.now }
    requires tidy { AllTidy sets.now }
    ensures { IsVerdict sets.now start result }
{
    let root = &sets[sets.len() - 1];
    if has_tick(&root.yes, start) {
        return Some(true);
    }
    if has_tick(&root.no, start) {
        return Some(false);
    }
    None
}

/// The truth at the start, once the input has ended after the last row of the block.
pub(crate) fn end_sets(
    net: &mut Net,
    formula: &Formula,
    bound: &Bound,
    begin: u32,
    block: &Trace,
) -> Result<bool, Memory>
    requires open { (header : Header) × (r : ARow) × (rows : List ARow)
        × IsOpen formula.now bound.now header (r ∷ rows) begin (last_of block.now.rows) (own_of formula.now.nodes net.old) net.old.shown.items }
    requires columns { length block.now.header.columns ≡ bound.now.width }
    ensures { IfOk result (λ holds. (header : Header) (r : ARow) (rows : List ARow)
        → IsOpen formula.now bound.now header (r ∷ rows) begin (last_of block.now.rows) (own_of formula.now.nodes net.old) net.old.shown.items
        → IsTruthAtStart (root formula.now.nodes) (trace_of header (r ∷ rows)) holds) }
{
    let last = BlockRow::new(block, block.rows() - 1);
    let entry = end_entry(begin, last.time());
    step_sets(net, formula, bound, &last, &entry)?;
    match root_verdict(&net.shown, begin) {
        Some(holds) => Ok(holds),
        None => unreachable!(),
    }
}
