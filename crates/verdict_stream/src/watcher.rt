//! A network of operators that follows rows, and the lines of the verdicts that its root gives out.
ghost use Rattle.std.specs.Prelude.{IsTrue, ◌≡◌, ◌+◌, ◌-◌, ◌++◌, ◌<◌, ◌≤◌, ℕ, List, [], length, map, drop, true, false, IfOk, OnOk};
ghost use Rattle.stl_syntax.specs.Trace.{Header, IsTrace, Row as Values};
ghost use Rattle.atom_lines.specs.Binding.{IsBound};
ghost use Rattle.stl_syntax.specs.Texts.{IsVerdictLine};
ghost use Rattle.online_nodes.specs.Network.{Event, node_is_atom};
ghost use Rattle.online_nodes.specs.Driven.{most_rows, steps_of};
ghost use Rattle.online_net.specs.Nets.{Stands};
ghost use Rattle.online_net.specs.Stretches.{rows_between};
ghost use Rattle.answer_lines.specs.Appended.{Grew};
ghost use Rattle.verdict_stream.specs.Pendings.{IsTextOfRow, IsTextOfRows, ArePassed};
ghost use Rattle.trace_stream.specs.Streams.{verdicts};
ghost use Rattle.trace_stream.specs.Cases.{Takes, with_row};
ghost use Rattle.trace_stream.specs.Kept.{with_rows};
ghost use Rattle.trace_stream.specs.Following.{Follows, HasOpen, IsOpen, IsOpenOn, IsFollowedOn, IsFollowedOut};
ghost use Rattle.verdict_stream.specs.Quieting.{AtomsAreSteady, IsLineAfter};
ghost use Rattle.verdict_stream.specs.Watching.{IsWatched, Watches, IsOwing, IsToldBefore, IsLastAt};
ghost use Rattle.verdict_stream.specs.Watching.{Pass, CanTake, HasGivenAll, HasTakenAll, IsUnmoved, kept_truth};
ghost use Rattle.trace_stream.specs.declared.case.Case.{Case as Of};

use crate::pending::Pending;
use answer_lines::{VerdictLines, put_start};
use atom_lines::Bound;
use frac128::Memory;
use online_net::{Net, span_after};
use std::alloc::Global;
use stl_syntax::{Formula, Node, Text, Verdict};
use trace_reader::{Row, Trace};

/// How many rows come at most before every node steps, so that what the edges hold does not grow with a piece.
const MOST_ROWS: usize = 64;

/// The network of a formula in the ticks of a trace, and the truth at the start once the first verdict was taken.
#[derive(Drop)]
pub struct Network {
    net: Net,
    formula: Formula,
    start: Option<bool>,
}

/// A network, the times of the rows that it took and that are not answered yet, and what of its verdicts is not written yet.
///
/// A step of a node costs much the same for one row and for many. So the nodes step once for the rows of a piece, or for 64 of them, and what
/// the root then gives out is cut where the answer of each row ends. A root that is an atom gives out its verdicts at each row without a step.
#[derive(Drop)]
pub struct Watcher {
    network: Network,
    /// How far ahead the formula looks.
    horizon: u64,
    times: Vec<u32>,
    pending: Pending,
    /// Lines that are not appended to the text yet; none between calls.
    lines: VerdictLines,
}

/// Whether the root of a formula is an atom.
fn is_atom(formula: &Formula) -> bool
    ensures { result ≡ node_is_atom formula.now.nodes (length formula.now.nodes - 1) }
{
    matches!(formula.node(formula.len() - 1), Node::Atom(_))
}

/// Keeps the times of the rows of a block behind row `at`, up to row `to`.
///
/// # Errors
/// Want of memory.
#[inline(always)]
fn keep_times(times: &mut Vec<u32>, block: &Trace, at: usize, to: usize) -> Result<(), Memory>
    requires order { at ≤ to }
    requires within { to < length block.now.rows }
    ensures { IfOk result (λ _. times.new.items ≡ times.old.items ++ map (λ (r : Values). r.time) (rows_between block.now at to)) }
{
    for r in at..to {
        let Ok(()) = times.push(block.time(r + 1)) else {
            return Err(Memory);
        };
    }
    Ok(())
}

impl Network {
    /// A step of every node in rising order, children before the nodes that read them. An atom is never ready.
    ///
    /// # Errors
    /// Want of memory.
    #[inline(never)]
    fn step_each(&mut self) -> Result<(), Memory>
        requires { length self.old.net.operators ≡ length self.old.formula.nodes }
        ensures stands { (header : Header) (events : List Event) → Stands self.old.formula.nodes header self.old.net events
            → IfOk result (λ _. Stands self.old.formula.nodes header self.new.net (events ++ steps_of 0 self.old.formula.nodes)) }
        ensures formula { self.new.formula ≡ self.old.formula }
        ensures start { self.new.start ≡ self.old.start }
    {
        for node in 0..self.formula.len() {
            let Ok(_) = self.net.step(node) else {
                return Err(Memory);
            };
        }
        Ok(())
    }

    /// A step of every node, which for a formula that is an atom alone is none.
    ///
    /// # Errors
    /// Want of memory.
    #[inline(always)]
    fn step_all(&mut self) -> Result<(), Memory>
        requires { length self.old.net.operators ≡ length self.old.formula.nodes }
        ensures stands { (header : Header) (events : List Event) → Stands self.old.formula.nodes header self.old.net events
            → IfOk result (λ _. Stands self.old.formula.nodes header self.new.net (events ++ steps_of 0 self.old.formula.nodes)) }
        ensures formula { self.new.formula ≡ self.old.formula }
        ensures start { self.new.start ≡ self.old.start }
    {
        if self.formula.len() > 1 {
            return self.step_each();
        }
        if is_atom(&self.formula) {
            return Ok(());
        }
        self.step_each()
    }

    /// Keeps the truth of the first verdict.
    fn keep(&mut self, holds: bool)
        ensures start { self.new.start ≡ kept_truth self.old.start holds }
        ensures net { self.new.net ≡ self.old.net }
        ensures formula { self.new.formula ≡ self.old.formula }
    {
        if self.start.is_none() {
            self.start = Some(holds);
        }
    }

    /// Adds the line of a verdict, and keeps the first one's truth.
    ///
    /// # Errors
    /// Want of memory.
    #[inline(always)]
    fn put(
        &mut self,
        verdict: &Verdict,
        lines: &mut VerdictLines,
        text: &mut Text,
    ) -> Result<(), Memory>
        ensures line { IfOk result (λ _. Grew (IsVerdictLine self.old.formula.scale verdict.now) (text.old ++ lines.old) (text.new ++ lines.new)) }
        ensures start { self.new.start ≡ kept_truth self.old.start verdict.now.holds }
        ensures net { self.new.net ≡ self.old.net }
        ensures formula { self.new.formula ≡ self.old.formula }
    {
        self.keep(verdict.holds);
        lines.put(text, verdict, self.formula.scale())
    }

    /// Takes what the root gave out until nothing is left, and keeps it for its lines.
    ///
    /// # Errors
    /// Want of memory.
    fn give_all(&mut self, pending: &mut Pending) -> Result<(), Memory>
        requires { (p : Pass) × CanTake p self.old }
        ensures given { (p : Pass) → CanTake p self.old → IfOk result (λ _. HasGivenAll p self.new pending.old pending.new) }
        ensures formula { self.new.formula ≡ self.old.formula }
    {
        while let Some(verdict) = self.net.take() {
            self.keep(verdict.holds);
            pending.push(verdict)?;
        }
        Ok(())
    }

    /// Takes what the root gave out until nothing is left, and adds its lines.
    ///
    /// # Errors
    /// Want of memory.
    #[inline(always)]
    fn take_all(&mut self, lines: &mut VerdictLines, text: &mut Text) -> Result<(), Memory>
        requires can { (p : Pass) × CanTake p self.old }
        requires none { lines.old ≡ [] }
        ensures taken { (p : Pass) → CanTake p self.old → IfOk result (λ _. HasTakenAll p self.new text.old text.new) }
        ensures none { OnOk result (lines.new ≡ []) }
        ensures formula { self.new.formula ≡ self.old.formula }
    {
        while let Some(verdict) = self.net.take() {
            self.put(&verdict, lines, text)?;
        }
        lines.hand_over(text)?;
        Ok(())
    }
}

impl Watcher {
    /// The watcher of a case without rows.
    ///
    /// # Errors
    /// Want of memory.
    pub(crate) fn new(alloc: Global, formula: Formula, bound: Bound) -> Result<Watcher, Memory>
        requires { (header : Header) × IsBound bound formula header }
        ensures { (c : Of) → c.formula ≡ formula → IsBound bound formula c.trace.header → c.trace.rows ≡ []
            → IfOk result (λ w. IsWatched false w c) }
    {
        let net = Net::joining(alloc, &formula, bound)?;
        let lines = VerdictLines::new(alloc)?;
        let horizon = formula.horizon();
        Ok(Watcher {
            network: Network {
                net,
                formula,
                start: None,
            },
            horizon,
            times: Vec::new(alloc),
            pending: Pending::new(alloc),
            lines,
        })
    }

    /// Makes the text that is owed, where no row more can come before the nodes step.
    ///
    /// # Errors
    /// Want of memory.
    #[inline(always)]
    fn make_room(&mut self, text: &mut Text) -> Result<(), Memory>
        requires { (c : Of) × (made : List ℕ) × IsOpen (Watches false self.old) (IsOwing self.old) verdicts c made }
        ensures open { (c : Of) (made : List ℕ) → IsOpen (Watches false self.old) (IsOwing self.old) verdicts c made
            → IfOk result (λ _. IsOpenOn (Watches false self.new) (IsOwing self.new) verdicts c text.old text.new made) }
        ensures room { OnOk result (length self.new.times.items < most_rows) }
    {
        if self.times.len() < MOST_ROWS {
            return Ok(());
        }
        self.make_owed(text)
    }

    /// Makes the text that is owed. What the root gives out for one row is that of the row, and need not be cut.
    ///
    /// # Errors
    /// Want of memory.
    pub(crate) fn make_owed(&mut self, text: &mut Text) -> Result<(), Memory>
        requires { (c : Of) × (made : List ℕ) × IsOpen (Watches false self.old) (IsOwing self.old) verdicts c made }
        ensures { (c : Of) (made : List ℕ) → IsOpen (Watches false self.old) (IsOwing self.old) verdicts c made
            → IfOk result (λ _. IsFollowedOn (Watches false self.new) verdicts c text.old text.new made) }
    {
        if self.times.is_empty() {
            return Ok(());
        }
        if self.times.len() == 1 {
            self.network.step_all()?;
            self.network.take_all(&mut self.lines, text)?;
            self.times.clear();
            return Ok(());
        }
        self.make_behind(0, text)
    }

    /// Makes the text that is owed for the rows behind the first `told` of those for which it is owed: these have theirs.
    ///
    /// # Errors
    /// Want of memory.
    pub(crate) fn make_behind(&mut self, told: usize, text: &mut Text) -> Result<(), Memory>
        requires some { told < length self.old.times.items }
        requires owing { (c : Of) × (made : List ℕ) × IsOwing self.old c made }
        ensures { (c : Of) (made first : List ℕ) → IsOwing self.old c made → IsToldBefore (length self.old.times.items - told) c first
            → IfOk result (λ _. IsFollowedOn (Watches false self.new) verdicts c text.old text.new first) }
    {
        self.network.step_all()?;
        self.network.give_all(&mut self.pending)?;
        self.pass_rows(told);
        self.put_rows(told, text)?;
        self.times.clear();
        self.pending.clear();
        Ok(())
    }

    /// Takes the next row. A root that is an atom answers it at once; else its answer is owed.
    ///
    /// # Errors
    /// Want of memory.
    fn take_row(&mut self, row: &Row, text: &mut Text) -> Result<(), Memory>
        requires room { length self.old.times.items < most_rows }
        requires open { HasOpen (Watches false self.old) (IsOwing self.old) verdicts row.now }
        ensures { (c : Of) (made : List ℕ) → IsOpen (Watches false self.old) (IsOwing self.old) verdicts c made → Takes row.now c.trace
            → IfOk result (λ _. IsOpenOn (Watches false self.new) (IsOwing self.new) verdicts (with_row row.now c) text.old text.new made) }
    {
        let Ok(()) = self.network.net.feed(row) else {
            return Err(Memory);
        };
        if is_atom(&self.network.formula) {
            self.network.step_all()?;
            self.network.take_all(&mut self.lines, text)?;
            return Ok(());
        }
        match self.times.push(row.time()) {
            Ok(()) => Ok(()),
            Err(_) => Err(Memory),
        }
    }

    /// Takes the next row, and before it makes the text that is owed where no row more can come before the nodes step.
    ///
    /// # Errors
    /// Want of memory.
    pub(crate) fn take_next(&mut self, row: &Row, text: &mut Text) -> Result<(), Memory>
        requires { HasOpen (Watches false self.old) (IsOwing self.old) verdicts row.now }
        ensures { (c : Of) (made : List ℕ) → IsOpen (Watches false self.old) (IsOwing self.old) verdicts c made → Takes row.now c.trace
            → IfOk result (λ _. IsOpenOn (Watches false self.new) (IsOwing self.new) verdicts (with_row row.now c) text.old text.new made) }
    {
        self.make_room(text)?;
        self.take_row(row, text)
    }

    /// Takes rows of a block behind row `at`, the last one that was taken, as many as may come before the nodes step, and answers which row
    /// is the last of them. A root that is an atom answers them at once; else their answer is owed.
    ///
    /// # Errors
    /// Want of memory.
    fn take_slice(&mut self, block: &Trace, at: usize, text: &mut Text) -> Result<usize, Memory>
        requires room { length self.old.times.items < most_rows }
        requires within { at + 1 < length block.now.rows }
        requires open { (c : Of) × (made : List ℕ) × IsOpen (Watches false self.old) (IsOwing self.old) verdicts c made × IsLastAt block.now at c.trace }
        ensures open { (c : Of) (made : List ℕ) → IsOpen (Watches false self.old) (IsOwing self.old) verdicts c made → IsLastAt block.now at c.trace
            → IfOk result (λ to. IsOpenOn (Watches false self.new) (IsOwing self.new) verdicts (with_rows (rows_between block.now at to) c)
            text.old text.new made) }
        ensures later { IfOk result (λ to. (at < to) × (to < length block.now.rows)) }
    {
        let room = MOST_ROWS - self.times.len();
        let to = at + room.min(block.rows() - 1 - at);
        let Ok(()) = self.network.net.feed_rows(block, at, to) else {
            return Err(Memory);
        };
        if is_atom(&self.network.formula) {
            self.network.step_all()?;
            self.network.take_all(&mut self.lines, text)?;
            return Ok(to);
        }
        keep_times(&mut self.times, block, at, to)?;
        Ok(to)
    }

    /// Takes the rows of a block behind its first one, which is the last that was taken, and makes the text that is owed where no row more
    /// can come before the nodes step.
    ///
    /// # Errors
    /// Want of memory.
    pub(crate) fn take_block(&mut self, block: &Trace, text: &mut Text) -> Result<(), Memory>
        requires some { 0 < length block.now.rows }
        requires open { (c : Of) × (made : List ℕ) × IsOpen (Watches false self.old) (IsOwing self.old) verdicts c made × IsLastAt block.now 0 c.trace }
        ensures { (c : Of) (made : List ℕ) → IsOpen (Watches false self.old) (IsOwing self.old) verdicts c made → IsLastAt block.now 0 c.trace
            → IfOk result (λ _. IsOpenOn (Watches false self.new) (IsOwing self.new) verdicts (with_rows (drop 1 block.now.rows) c)
            text.old text.new made) }
    {
        let last = block.rows() - 1;
        let mut at = 0;
        while at < last {
            self.make_room(text)?;
            at = self.take_slice(block, at, text)?;
        }
        Ok(())
    }

    /// Whether each atom has one truth from row `at` of a block on, up to row `to`.
    #[inline(always)]
    pub(crate) fn stays(&self, block: &Trace, at: usize, to: usize) -> bool
        requires columns { length block.now.header.columns ≡ self.now.network.net.bound.width }
        requires order { at < to }
        requires within { to < length block.now.rows }
        ensures { IsTrue result → AtomsAreSteady self.now.network.net block.now at to }
    {
        self.network.net.stays(block, at, to)
    }

    /// Whether the text of so many rows is owed.
    #[inline(always)]
    pub(crate) fn owes(&self, rows: usize) -> bool
        ensures { IsTrue result → length self.now.times.items ≡ rows }
    {
        self.times.len() == rows
    }

    /// Whether the text of no row is owed.
    #[inline(always)]
    pub(crate) fn owes_none(&self) -> bool
        ensures { IsTrue result → self.now.times.items ≡ [] }
    {
        self.times.is_empty()
    }

    /// Adds the line of a verdict that goes from what a row at time `first` answers to what one at time `second` does.
    ///
    /// # Errors
    /// Want of memory.
    #[inline(always)]
    pub(crate) fn put_after(
        &mut self,
        first: u32,
        second: u32,
        holds: bool,
        text: &mut Text,
    ) -> Result<(), Memory>
        requires from { self.old.horizon ≤ first }
        requires rises { first < second }
        requires none { self.old.lines ≡ [] }
        ensures line { IfOk result (λ _. Grew
            (IsLineAfter self.old.network.formula.scale (first - self.old.horizon) (second - self.old.horizon) holds) text.old text.new) }
        ensures unmoved { OnOk result (IsUnmoved self.old self.new) }
    {
        let from = u64::from(first) - self.horizon;
        let to = u64::from(second) - self.horizon;
        let on = span_after(from as u32, to as u32);
        let scale = self.network.formula.scale();
        self.lines.put(text, &Verdict { on, holds }, scale)?;
        self.lines.hand_over(text)?;
        Ok(())
    }

    /// Takes the end, adds to the text what is left, and answers the truth at the start.
    ///
    /// # Errors
    /// Want of memory.
    pub(crate) fn take_end(&mut self, text: &mut Text) -> Result<bool, Memory>
        requires { (c : Of) × (made : List ℕ) × Follows (Watches false self.old) verdicts c made × IsTrace c.trace }
        ensures { (c : Of) (made : List ℕ) → Follows (Watches false self.old) verdicts c made → IsTrace c.trace
            → IfOk result (λ holds. IsFollowedOut (Watches true self.new) verdicts c text.old text.new made holds) }
    {
        let Ok(()) = self.network.net.close() else {
            return Err(Memory);
        };
        self.network.step_all()?;
        self.network.take_all(&mut self.lines, text)?;
        let Some(holds) = self.network.start else {
            unreachable!()
        };
        put_start(text, holds)?;
        Ok(holds)
    }

    /// Adds the lines of what a row at this time answers, of what was given out.
    ///
    /// # Errors
    /// Want of memory.
    fn put_row(&mut self, time: u32, text: &mut Text) -> Result<(), Memory>
        ensures lines { IfOk result (λ _. Grew (λ grown.
            IsTextOfRow self.old.network.formula.scale self.old.horizon time self.old.pending grown self.new.pending)
            (text.old ++ self.old.lines) (text.new ++ self.new.lines)) }
        ensures network { self.new.network ≡ self.old.network }
        ensures horizon { self.new.horizon ≡ self.old.horizon }
        ensures times { self.new.times.items ≡ self.old.times.items }
    {
        let time = u64::from(time);
        if time < self.horizon {
            return Ok(());
        }
        let front = (time - self.horizon) as u32;
        let scale = self.network.formula.scale();
        self.pending.put_up_to(front, scale, &mut self.lines, text)
    }

    /// Lets go of what the first `told` rows answer, of what was given out.
    fn pass_rows(&mut self, told: usize)
        requires { told ≤ length self.old.times.items }
        ensures pending { ArePassed self.old.horizon told self.old.times.items self.old.pending self.new.pending }
        ensures network { self.new.network ≡ self.old.network }
        ensures horizon { self.new.horizon ≡ self.old.horizon }
        ensures times { self.new.times.items ≡ self.old.times.items }
        ensures lines { self.new.lines ≡ self.old.lines }
    {
        if told == 0 {
            return;
        }
        let time = u64::from(self.times[told - 1]);
        if time < self.horizon {
            return;
        }
        self.pending.let_go_up_to((time - self.horizon) as u32);
    }

    /// Adds the lines of what was given out, from those of what row `first` answers on, cut where the answer of each row ends.
    ///
    /// # Errors
    /// Want of memory.
    fn put_rows(&mut self, first: usize, text: &mut Text) -> Result<(), Memory>
        requires { self.old.lines ≡ [] }
        ensures lines { IfOk result (λ _. Grew (λ grown. IsTextOfRows self.old.network.formula.scale self.old.horizon
            (drop first self.old.times.items) self.old.pending grown self.new.pending) text.old text.new) }
        ensures network { self.new.network ≡ self.old.network }
        ensures horizon { self.new.horizon ≡ self.old.horizon }
        ensures none { OnOk result (self.new.lines ≡ []) }
    {
        for i in first..self.times.len() {
            let time = self.times[i];
            self.put_row(time, text)?;
        }
        self.lines.hand_over(text)?;
        Ok(())
    }
}
