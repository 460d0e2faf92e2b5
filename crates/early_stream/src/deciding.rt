//! `early`: the verdict at the start, at the first row that settles it.
ghost use Rattle.std.specs.Prelude.{◌≡◌, ◌≤◌, ◌++◌, codes, true, false, MatchOption, OnOk};
ghost use Rattle.stl_syntax.specs.Texts.{newline, start_line};
ghost use Rattle.answer_lines.specs.Appended.{Grew};
ghost use Rattle.early_stream.specs.EarlyLines.{AreDecidedLines};

use answer_lines::{put_decided, put_start};
use early_verdict::{Decided, Early};
use frac128::Memory;
use std::alloc::Global;
use stl_syntax::{Scale, Text};
use trace_reader::{Row, Rows};
use trace_stream::{Case, Follow, FollowFault};

/// What follows the rows of a trace for its early verdict, with the ticks in which its times are written.
#[derive(Drop)]
pub struct Deciding {
    early: Early,
    scale: Scale,
    ghost digits: { scale.time ≤ 6 },
}

/// Adds the line of the row that decided, and that of the verdict.
///
/// # Errors
/// Want of memory.
fn put_verdict(text: &mut Text, decided: Decided, scale: Scale) -> Result<(), Memory>
    requires { scale.time ≤ 6 }
    ensures { OnOk result (Grew (AreDecidedLines scale decided.at decided.holds) text.old text.new) }
{
    put_decided(text, decided.at, scale)?;
    put_start(text, decided.holds)?;
    Ok(())
}

/// Adds the lines of the row that decided, where it did.
///
/// # Errors
/// Want of memory.
fn put_answer(text: &mut Text, answer: Option<Decided>, scale: Scale) -> Result<(), Memory>
    requires { scale.time ≤ 6 }
    ensures { OnOk result (MatchOption answer (text.new ≡ text.old) (λ d. Grew (AreDecidedLines scale d.at d.holds) text.old text.new)) }
{
    let Some(decided) = answer else {
        return Ok(());
    };
    put_verdict(text, decided, scale)
}

/// Adds the line of a verdict that no row decided, and that of the verdict.
///
/// # Errors
/// Want of memory.
fn put_end(text: &mut Text, holds: bool) -> Result<(), Memory>
    ensures { OnOk result (text.new ≡ text.old ++ (codes "decided at end" ++ newline ++ start_line holds)) }
{
    text.push(b"decided at end\n")?;
    put_start(text, holds)?;
    Ok(())
}

/// Adds the lines of the end, where no row has decided.
///
/// # Errors
/// Want of memory.
fn put_rest(text: &mut Text, decided: Option<Decided>, holds: bool) -> Result<(), Memory>
    ensures { OnOk result (MatchOption decided (text.new ≡ text.old ++ (codes "decided at end" ++ newline ++ start_line holds)) (λ d. text.new ≡ text.old)) }
{
    if decided.is_some() {
        return Ok(());
    }
    put_end(text, holds)
}

impl Deciding {
    ghost use Rattle.std.specs.Prelude.{ℕ, List, IfOk};
    ghost use Rattle.stl_syntax.specs.Trace.{IsTrace};
    ghost use Rattle.trace_stream.specs.Cases.{Takes, with_row};
    ghost use Rattle.trace_stream.specs.Following.{Follows, HasFollowed, IsFollowedOn, IsFollowedOut};
    ghost use Rattle.trace_stream.specs.Streams.{early};
    ghost use Rattle.trace_stream.specs.declared.case.Case.{Case as Of};
    ghost use Rattle.early_stream.specs.Deciding.{IsDeciding};

    /// The early verdict that followed the rows, for what a run leaves to its caller.
    pub fn into_early(self) -> Early
        ensures { result ≡ self.early }
    {
        let Deciding {
            early,
            scale: _scale,
        } = self;
        early
    }

    /// Takes the next row, and adds to the text what it answers.
    ///
    /// # Errors
    /// Want of memory.
    fn take_row(&mut self, row: &Row, text: &mut Text) -> Result<(), Memory>
        requires { HasFollowed (λ case text. IsDeciding false self.old case) early row.now }
        ensures { (c : Of) (made : List ℕ) → Follows (λ case text. IsDeciding false self.old case) early c made → Takes row.now c.trace
            → IfOk result (λ _. IsFollowedOn (λ case text. IsDeciding false self.new case) early (with_row row.now c) text.old text.new made) }
    {
        let Ok(answer) = self.early.feed(row) else {
            return Err(Memory);
        };
        put_answer(text, answer, self.scale)?;
        Ok(())
    }

    /// Takes the end, adds to the text what is left, and answers the truth at the start.
    ///
    /// # Errors
    /// Want of memory.
    fn take_end(&mut self, text: &mut Text) -> Result<bool, Memory>
        requires { (c : Of) × (made : List ℕ) × Follows (λ case text. IsDeciding false self.old case) early c made × IsTrace c.trace }
        ensures { (c : Of) (made : List ℕ) → Follows (λ case text. IsDeciding false self.old case) early c made → IsTrace c.trace
            → IfOk result (λ holds. IsFollowedOut (λ case text. IsDeciding true self.new case) early c text.old text.new made holds) }
    {
        let decided = self.early.decided();
        let Ok(holds) = self.early.end() else {
            return Err(Memory);
        };
        put_rest(text, decided, holds)?;
        Ok(holds)
    }
}

impl Follow for Deciding {
    ghost use Rattle.trace_stream.specs.Streams.{early};
    ghost use Rattle.early_stream.specs.Deciding.{IsDeciding};

    ghost kind = { early };

    ghost stands = { λ s c made. IsDeciding false s c };

    ghost owes = { λ s c made. ⊥ };

    ghost ended = { λ s c made. IsDeciding true s c };

    fn begin(alloc: Global, case: Case) -> Result<Deciding, Memory> {
        let Case {
            formula,
            bound,
            trace,
        } = case;
        let Ok(header) = trace.header().copy() else {
            return Err(Memory);
        };
        let scale = formula.scale();
        let early = Early::new(alloc, formula, bound, header);
        Ok(Deciding { early, scale })
    }

    fn row(&mut self, row: &Row, text: &mut Text) -> Result<(), FollowFault> {
        match self.take_row(row, text) {
            Ok(()) => Ok(()),
            Err(_) => Err(FollowFault::Memory),
        }
    }

    fn take_rows(
        &mut self,
        rows: &mut Rows,
        piece: &[u8],
        text: &mut Text,
    ) -> Result<usize, Memory> {
        let Ok(taken) = self.early.take_rows(rows, piece) else {
            return Err(Memory);
        };
        put_answer(text, taken.decided, self.scale)?;
        Ok(taken.bytes)
    }

    fn flush(&mut self, _text: &mut Text) -> Result<(), Memory> {
        Ok(())
    }

    fn end(&mut self, text: &mut Text) -> Result<bool, FollowFault> {
        match self.take_end(text) {
            Ok(holds) => Ok(holds),
            Err(_) => Err(FollowFault::Memory),
        }
    }
}
