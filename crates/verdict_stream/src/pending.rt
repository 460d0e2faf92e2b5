//! Verdicts whose lines are not made yet, and that are cut where the answer of a row ends.
ghost use Rattle.std.specs.Prelude.{◌≡◌, ◌↔◌, ◌++◌, ◌∷◌, [], ◌≤◌, List, IsTrue, IfOk};
ghost use Rattle.frac128.specs.Spans.{interval};
ghost use Rattle.rational.specs.Places.{Before, begins, ends};
ghost use Rattle.answer_lines.specs.Appended.{Grew};
ghost use Rattle.stl_syntax.specs.declared.items.Verdict.{Verdict as AVerdict};
ghost use Rattle.verdict_stream.specs.Pendings.{just_after, GoesBeyond, IsNextUpTo, IsCut, IsPartBefore, IsPartAfter, AreUpTo, IsTextUpTo};

use answer_lines::VerdictLines;
use frac128::{Cut, Frac, Memory, Span};
use std::alloc::Global;
use std::collections::VecDeque;
use std::marker::Model;
use stl_syntax::{Scale, Text, Verdict};

/// Verdicts in the order of time. The first of them may be what is left of one.
#[derive(Drop)]
pub struct Pending {
    verdicts: VecDeque<Verdict>,
}

impl Model for Pending {
    ghost use Rattle.std.specs.Prelude.{List};
    ghost use Rattle.stl_syntax.specs.declared.items.Verdict.{Verdict as AVerdict};

    ghost Value = { List AVerdict };

    ghost view = { λ p. p.verdicts.items };
}

/// Whether a verdict begins by the time `front`.
#[inline(always)]
fn begins_by(verdict: &Verdict, front: u32) -> bool
    ensures { IsTrue result ↔ Before (begins (interval verdict.now.on)) (just_after front) }
{
    Cut::begin(&verdict.on).precedes(&Cut::after_whole(i64::from(front)))
}

/// Whether a verdict goes on beyond the time `front`.
#[inline(always)]
fn goes_beyond(verdict: &Verdict, front: u32) -> bool
    ensures { IsTrue result ↔ Before (just_after front) (ends (interval verdict.now.on)) }
{
    Cut::after_whole(i64::from(front)).precedes(&Cut::end(&verdict.on))
}

/// What of a verdict lies up to the time `front`.
#[inline(always)]
fn part_before(verdict: &Verdict, front: u32) -> Verdict
    requires { Before (begins (interval verdict.now.on)) (just_after front) }
    ensures { IsPartBefore front verdict.now result }
{
    Verdict {
        on: Span {
            from: verdict.on.from,
            from_in: verdict.on.from_in,
            to: Frac::of(i64::from(front)),
            to_in: true,
        },
        holds: verdict.holds,
    }
}

/// Leaves of a verdict what lies after the time `front`.
#[inline(always)]
fn leave_after(verdict: &mut Verdict, front: u32)
    requires { Before (just_after front) (ends (interval verdict.old.on)) }
    ensures { IsPartAfter front verdict.old verdict.new }
{
    verdict.on.from = Frac::of(i64::from(front));
    verdict.on.from_in = false;
}

impl Pending {
    /// No verdicts yet; it takes no memory.
    pub fn new(alloc: Global) -> Pending
        ensures { result ≡ [] }
    {
        Pending {
            verdicts: VecDeque::new(alloc),
        }
    }

    /// A verdict more, behind the others.
    ///
    /// # Errors
    /// Want of memory.
    pub fn push(&mut self, verdict: Verdict) -> Result<(), Memory>
        ensures { IfOk result (λ _. self.new ≡ self.old ++ verdict ∷ []) }
    {
        match self.verdicts.push_back(verdict) {
            Ok(()) => Ok(()),
            Err(_) => Err(Memory),
        }
    }

    /// Lets go of all verdicts. Their memory stays for those that come.
    pub fn clear(&mut self)
        ensures { self.new ≡ [] }
    {
        self.verdicts.clear();
    }

    /// The next verdict, if it ends by the time `front`.
    #[inline(always)]
    fn next(&mut self, front: u32) -> Option<Verdict>
        ensures { IsNextUpTo front self.old result self.new }
    {
        let Some(first) = self.verdicts.front() else {
            return None;
        };
        if goes_beyond(first, front) {
            return None;
        }
        self.verdicts.pop_front()
    }

    /// What of the next verdict, which goes on beyond the time `front`, lies up to it. What lies after it is left.
    fn cut(&mut self, front: u32) -> Option<Verdict>
        requires { GoesBeyond front self.old }
        ensures { IsCut front self.old result self.new }
    {
        let Some(_) = self.verdicts.front() else {
            return None;
        };
        let first = &mut self.verdicts[0];
        if !begins_by(first, front) {
            return None;
        }
        let part = part_before(first, front);
        leave_after(first, front);
        Some(part)
    }

    /// Lets go of what lies up to the time `front`. What lies after it is left.
    pub(crate) fn let_go_up_to(&mut self, front: u32)
        ensures { (some : List AVerdict) × AreUpTo front self.old some self.new }
    {
        while let Some(_verdict) = self.next(front) {}
        let _part = self.cut(front);
    }

    /// Adds the lines of what lies up to the time `front`. What lies after it is left.
    ///
    /// # Errors
    /// Want of memory.
    pub fn put_up_to(
        &mut self,
        front: u32,
        scale: Scale,
        lines: &mut VerdictLines,
        text: &mut Text,
    ) -> Result<(), Memory>
        requires { scale.time ≤ 6 }
        ensures { IfOk result (λ _. Grew (λ grown. IsTextUpTo scale front self.old grown self.new)
            (text.old ++ lines.old) (text.new ++ lines.new)) }
    {
        while let Some(verdict) = self.next(front) {
            lines.put(text, &verdict, scale)?;
        }
        match self.cut(front) {
            Some(part) => lines.put(text, &part, scale),
            None => Ok(()),
        }
    }
}
