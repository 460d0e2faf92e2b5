//! The verdicts of a formula as the rows of a trace come.
ghost use Rattle.std.specs.Prelude.{◌≡◌, ◌<◌, ◌≤◌, ◌+◌, ◌++◌, ◌∷◌, [], ℕ, List, length, IfOk, OnOk, IsTrue};
ghost use Rattle.stl_syntax.specs.Trace.{Trace as Recorded, Row as Values};
ghost use Rattle.trace_stream.specs.Streams.{verdicts};
ghost use Rattle.trace_stream.specs.Cases.{Takes};
ghost use Rattle.trace_stream.specs.Following.{Follows, IsFollowedOn, IsOpen, IsOpenOn};
ghost use Rattle.trace_stream.specs.Kept.{with_rows};
ghost use Rattle.trace_stream.specs.declared.case.Case.{Case as Of};
ghost use Rattle.verdict_stream.specs.Quieting.{Knows};
ghost use Rattle.verdict_stream.specs.Watching.{last_alone, KeepsLast, WatchesRows, WatchesOwing, WatchesEnd, IsBehind};
ghost use Rattle.verdict_stream.specs.Watching.{HasAnswered, HasStepped, HasCaughtUp, HasMore, HasSettled};

use crate::quiet::Quiet;
use crate::watcher::Watcher;
use frac128::Memory;
use std::alloc::Global;
use stl_syntax::Text;
use trace_reader::{Row, Rows, Trace};
use trace_stream::{Case, Follow, FollowFault};

/// What follows the rows of a trace for its verdicts: a watcher, and the last row that it took, behind which rows are read by blocks. Before
/// the first row there is none.
///
/// A row that comes alone, and at which no atom turns, is answered from the truth that was told last, and waits in the block: the watcher takes
/// it with those behind it, once a row comes at which an atom turns, or several at once, or the end.
#[derive(Drop)]
pub struct Verdicts {
    watcher: Watcher,
    block: Trace,
    quiet: Quiet,
    /// The text that the watcher made when it took quiet rows and could not leave out that of these rows.
    again: Text,
}

/// Keeps a row as the last one.
///
/// # Errors
/// Want of memory.
fn keep_row(block: &mut Trace, row: &Row) -> Result<(), Memory>
    requires { (t : Recorded) × KeepsLast block.old t × Takes row.now t }
    ensures { (t : Recorded) → KeepsLast block.old t → Takes row.now t
        → IfOk result (λ _. KeepsLast block.new (record t { rows = t.rows ++ row.now ∷ [] })) }
{
    block.push(row)?;
    block.keep_last();
    Ok(())
}

impl Verdicts {
    /// Whether the watcher owes the text of all rows of the block behind its first one, and there are more of them than the quiet ones.
    #[inline(always)]
    fn owes_more(&self) -> bool
        ensures { IsTrue result → (length self.now.watcher.times.items + 1 ≡ length self.now.block.rows)
            × (self.now.quiet.rows < length self.now.watcher.times.items) }
    {
        if self.block.rows().saturating_sub(self.quiet.rows) >= 2 {
            return self.watcher.owes(self.block.rows() - 1);
        }
        false
    }

    /// Leaves the last row alone in the block, and no row quiet: the watcher took them all.
    #[inline(always)]
    fn keep_last(&mut self)
        ensures block { self.new.block ≡ last_alone self.old.block }
        ensures quiet { self.new.quiet ≡ record self.old.quiet { rows = 0; bytes = 0 } }
        ensures watcher { self.new.watcher ≡ self.old.watcher }
    {
        self.block.keep_last();
        self.quiet.rows = 0;
        self.quiet.bytes = 0;
    }

    /// Lets the watcher take the rows of the block, and adds to the text what they answer beyond the quiet ones.
    ///
    /// # Errors
    /// Want of memory.
    #[inline(never)]
    fn catch_up(&mut self, text: &mut Text) -> Result<(), Memory>
        requires { (c : Of) × (made : List ℕ) × (more : List Values) × IsBehind self.old c made more }
        ensures { (c : Of) (made : List ℕ) (more : List Values) → IsBehind self.old c made more
            → IfOk result (λ _. HasCaughtUp self.old.quiet self.new (with_rows more c) made text.old text.new) }
    {
        self.again.clear();
        self.watcher.take_block(&self.block, &mut self.again)?;
        if self.owes_more() {
            self.watcher.make_behind(self.quiet.rows, text)?;
            self.keep_last();
            return Ok(());
        }
        self.watcher.make_owed(&mut self.again)?;
        text.push(&self.again.bytes()[self.quiet.bytes..])?;
        self.keep_last();
        Ok(())
    }

    /// Answers the last row of the block, at time `second`, with this truth, behind the row at time `first`.
    ///
    /// # Errors
    /// Want of memory.
    #[inline(always)]
    fn answer(
        &mut self,
        first: u32,
        second: u32,
        holds: bool,
        text: &mut Text,
    ) -> Result<(), Memory>
        requires from { self.old.watcher.horizon ≤ first }
        requires rises { first < second }
        requires none { self.old.watcher.lines ≡ [] }
        requires few { self.old.quiet.rows < 64 }
        ensures { IfOk result (λ _. HasAnswered self.old self.new first second holds text.old text.new) }
    {
        let before = text.bytes().len();
        self.watcher.put_after(first, second, holds, text)?;
        let Some(bytes) = self.quiet.bytes.checked_add(text.bytes().len() - before) else {
            return Err(Memory);
        };
        self.quiet.bytes = bytes;
        self.quiet.rows += 1;
        Ok(())
    }

    /// Lets the watcher take the last row of the block, which came alone, at time `second`; `even` where no atom turns at it.
    ///
    /// # Errors
    /// Want of memory.
    #[inline(always)]
    fn step_alone(&mut self, even: bool, second: u32, text: &mut Text) -> Result<(), Memory>
        requires { (c : Of) × (made : List ℕ) × (r : Values) × IsBehind self.old c made (r ∷ []) }
        ensures { (c : Of) (made : List ℕ) (r : Values) → IsBehind self.old c made (r ∷ [])
            → IfOk result (λ _. HasStepped self.old.quiet self.new even second (with_rows (r ∷ []) c) made text.old text.new) }
    {
        let before = text.bytes().len();
        self.catch_up(text)?;
        self.quiet.learn(even, second, &text.bytes()[before..]);
        Ok(())
    }

    /// Whether one row came, by itself, and no text is owed: `whole` where the piece had no bytes more.
    #[inline(always)]
    fn came_alone(&self, whole: bool) -> bool
        ensures { IsTrue result → (c : Of) (made : List ℕ) (more : List Values) → HasMore self.now c made more
            → (r : Values) × (more ≡ r ∷ []) × IsBehind self.now c made (r ∷ []) }
    {
        if whole {
            if self.block.rows().saturating_sub(self.quiet.rows) == 2 {
                return self.watcher.owes_none();
            }
        }
        false
    }

    /// Takes the last row of the block, which came alone.
    ///
    /// # Errors
    /// Want of memory.
    #[inline(always)]
    fn take_alone(&mut self, text: &mut Text) -> Result<(), Memory>
        requires { (c : Of) × (made : List ℕ) × (r : Values) × IsBehind self.old c made (r ∷ []) × Knows self.old.quiet c }
        ensures { (c : Of) (made : List ℕ) (r : Values) → IsBehind self.old c made (r ∷ []) → Knows self.old.quiet c
            → IfOk result (λ _. IsFollowedOn (WatchesRows self.new) verdicts (with_rows (r ∷ []) c) text.old text.new made) }
    {
        let last = self.block.rows() - 1;
        let first = self.block.time(last - 1);
        let second = self.block.time(last);
        let even = self.watcher.stays(&self.block, last - 1, last);
        if even {
            if let Some(holds) = self.quiet.goes_on(first) {
                return self.answer(first, second, holds, text);
            }
        }
        self.step_alone(even, second, text)
    }

    /// Takes the rows of the block behind its first one, which did not come alone.
    ///
    /// # Errors
    /// Want of memory.
    #[inline(always)]
    fn take_together(&mut self, text: &mut Text) -> Result<(), Memory>
        requires { (c : Of) × (made : List ℕ) × (more : List Values) × HasMore self.old c made more × Knows self.old.quiet c }
        ensures { (c : Of) (made : List ℕ) (more : List Values) → HasMore self.old c made more → Knows self.old.quiet c
            → IfOk result (λ _. IsOpenOn (WatchesRows self.new) (WatchesOwing self.new) verdicts (with_rows more c) text.old text.new made) }
    {
        if self.quiet.rows > 0 {
            self.catch_up(text)?;
            self.quiet.told = None;
            return Ok(());
        }
        self.watcher.take_block(&self.block, text)?;
        self.block.keep_last();
        self.quiet.told = None;
        Ok(())
    }

    /// Lets the watcher take the quiet rows, if there are some. It adds nothing to the text.
    ///
    /// # Errors
    /// Want of memory.
    #[inline(always)]
    fn settle(&mut self, text: &mut Text) -> Result<(), Memory>
        requires { (c : Of) × (made : List ℕ) × IsOpen (WatchesRows self.old) (WatchesOwing self.old) verdicts c made }
        ensures rows { (c : Of) (made : List ℕ) → Follows (WatchesRows self.old) verdicts c made
            → IfOk result (λ _. HasSettled self.new c made text.old text.new) }
        ensures owing { (c : Of) (made : List ℕ) → WatchesOwing self.old c made
            → IfOk result (λ _. (text.new ≡ text.old) × WatchesOwing self.new c made) }
    {
        if self.quiet.rows > 0 {
            self.catch_up(text)?;
            return Ok(());
        }
        Ok(())
    }
}

impl Follow for Verdicts {
    ghost kind = { verdicts };

    ghost stands = { WatchesRows };

    ghost owes = { WatchesOwing };

    ghost ended = { WatchesEnd };

    fn begin(alloc: Global, case: Case) -> Result<Verdicts, Memory> {
        let Case {
            formula,
            bound,
            trace,
        } = case;
        let quiet = Quiet::new(&formula);
        let watcher = Watcher::new(alloc, formula, bound)?;
        Ok(Verdicts {
            watcher,
            block: trace,
            quiet,
            again: Text::new(alloc),
        })
    }

    fn row(&mut self, row: &Row, text: &mut Text) -> Result<(), FollowFault> {
        let Ok(()) = self.settle(text) else {
            return Err(FollowFault::Memory);
        };
        self.quiet.told = None;
        let Ok(()) = self.watcher.take_next(row, text) else {
            return Err(FollowFault::Memory);
        };
        match keep_row(&mut self.block, row) {
            Ok(()) => Ok(()),
            Err(_) => Err(FollowFault::Memory),
        }
    }

    fn take_rows(
        &mut self,
        rows: &mut Rows,
        piece: &[u8],
        text: &mut Text,
    ) -> Result<usize, Memory> {
        if self.block.rows() == 0 {
            return Ok(0);
        }
        let bytes = rows.take_rows(piece, &mut self.block)?;
        if self.came_alone(bytes == piece.len()) {
            self.take_alone(text)?;
            return Ok(bytes);
        }
        self.take_together(text)?;
        Ok(bytes)
    }

    fn flush(&mut self, text: &mut Text) -> Result<(), Memory> {
        if self.quiet.rows > 0 {
            return Ok(());
        }
        self.watcher.make_owed(text)
    }

    fn end(&mut self, text: &mut Text) -> Result<bool, FollowFault> {
        let Ok(()) = self.settle(text) else {
            return Err(FollowFault::Memory);
        };
        match self.watcher.take_end(text) {
            Ok(start) => Ok(start),
            Err(_) => Err(FollowFault::Memory),
        }
    }
}
