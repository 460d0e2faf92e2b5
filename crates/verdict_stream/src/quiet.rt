//! Rows that come alone and at which no atom turns: what is known of the rows before, so that such a row is answered without a step.
ghost use Rattle.std.specs.Prelude.{◌≡◌, ◌⊎◌, ◌+◌, ◌*◌, ◌<◌, ◌≤◌, Bool, Some, None, length};
ghost use Rattle.stl_syntax.specs.Formula.{horizon, root};
ghost use Rattle.bounds.specs.Turns.{far as far_of, looks_back};
ghost use Rattle.verdict_stream.specs.Quieting.{own_back as back_of_node, IsLastTruth, HasLearned};

use stl_syntax::{Formula, Node};

/// How many rows are answered without a step at most before the network takes them, so that they do not grow with the trace.
const MOST_QUIET: usize = 63;

/// What is known of the rows so far for the next one: since when no atom turned, and the truth that was told last.
#[derive(Drop)]
pub struct Quiet {
    /// How many rows were answered that the network has not taken.
    pub(crate) rows: usize,
    /// How many bytes their text has.
    pub(crate) bytes: usize,
    /// A time behind which no atom turned, where `told` is known.
    pub(crate) calm: u32,
    /// How far back and ahead the formula looks at most, in ticks.
    pub(crate) reach: u64,
    /// The truth at the last time that was answered, where it is known.
    pub(crate) told: Option<bool>,
}

/// The greater of two bounds of a window behind; with no end, the one that it has.
fn far(low: u32, high: Option<u32>) -> u64
    ensures is { result ≡ far_of low high }
    ensures small { result ≤ 4294967295 }
{
    match high {
        Some(high) => u64::from(low.max(high)),
        None => u64::from(low),
    }
}

/// How far behind the window of a node lies.
fn own_back(node: &Node) -> u64
    ensures is { result ≡ back_of_node node.now }
    ensures small { result ≤ 4294967295 }
{
    match node {
        Node::Since { low, high, .. } => far(*low, *high),
        Node::Once { low, high, .. } => far(*low, *high),
        Node::Historically { low, high, .. } => far(*low, *high),
        _ => 0,
    }
}

/// How far back a formula looks at most: the bounds of all its windows behind.
fn back_of(formula: &Formula) -> u64
    ensures covers { looks_back (root formula.now.nodes) ≤ result }
    ensures small { result ≤ 256 * 4294967295 }
{
    let mut back = 0;
    for i in 0..formula.len() {
        back += own_back(formula.node(i));
    }
    back
}

/// The truth of the last of some lines of verdicts, where there is one: the letter before the last of its word.
fn last_truth(lines: &[u8]) -> Option<bool>
    ensures some { (holds : Bool) → result ≡ Some holds → IsLastTruth lines.now holds }
    ensures none { result ≡ None → length lines.now < 3 }
{
    if lines.len() < 3 {
        return None;
    }
    Some(lines[lines.len() - 3] == b'u')
}

impl Quiet {
    /// Of no rows.
    pub(crate) fn new(formula: &Formula) -> Quiet
        ensures rows { result.rows ≡ 0 }
        ensures bytes { result.bytes ≡ 0 }
        ensures told { result.told ≡ None }
        ensures reach { looks_back (root formula.now.nodes) + horizon (root formula.now.nodes) ≤ result.reach }
    {
        Quiet {
            rows: 0,
            bytes: 0,
            calm: 0,
            reach: back_of(formula) + formula.horizon(),
            told: None,
        }
    }

    /// The truth that one row more goes on with, behind the last row, at time `last`, if no atom turns at it.
    #[inline(always)]
    pub(crate) fn goes_on(&self, last: u32) -> Option<bool>
        ensures told { (holds : Bool) → result ≡ Some holds → self.now.told ≡ Some holds }
        ensures calm { (holds : Bool) → result ≡ Some holds → self.now.calm + self.now.reach < last }
        ensures few { (holds : Bool) → result ≡ Some holds → self.now.rows < 64 }
        ensures none { result ≡ None → (63 ≤ self.now.rows) ⊎ (last ≤ self.now.calm + self.now.reach) ⊎ (self.now.told ≡ None) }
    {
        if self.rows >= MOST_QUIET {
            return None;
        }
        if u64::from(last.saturating_sub(self.calm)) <= self.reach {
            return None;
        }
        self.told
    }

    /// Learns what a row at time `time` tells, which no row came with: `even` where no atom turned at it, and the lines of its answer.
    #[inline(always)]
    pub(crate) fn learn(&mut self, even: bool, time: u32, lines: &[u8])
        ensures { HasLearned self.old self.new even time lines.now }
    {
        if !even || self.told.is_none() {
            self.calm = time;
        }
        self.told = last_truth(lines);
    }
}
