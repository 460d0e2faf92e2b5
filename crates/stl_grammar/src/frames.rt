//! What is open while a formula is read: parentheses, operators that wait for an operand, bounds.
ghost use Rattle.std.specs.Prelude.{◌≡◌, ◌≤◌, ◌<◌, ◌∷◌, [], length, IfOk, MatchOption};
ghost use Rattle.stl_grammar.specs.FormulaRefusals.{has_paren as holds_paren};
ghost use Rattle.stl_grammar.specs.Machine.{pending_of};
ghost use Rattle.stl_grammar.specs.Refusing.{ranks_of, marks_in, parens_in};
ghost use Rattle.stl_grammar.specs.Parsing.{operator_rank, top_rank, rank as frame_rank};

use crate::draft::{Frame, Operator};
use std::alloc::{AllocError, Global};
use std::marker::Model;

/// What is open, the last first.
#[derive(Drop)]
pub(crate) struct Frames {
    frames: Vec<Frame>,
    pending: usize,
    parens: usize,
}

impl Model for Frames {
    ghost use Rattle.std.specs.Prelude.{List, reverse};
    ghost use Rattle.stl_grammar.specs.declared.draft.Frame.{Frame};
    ghost use Rattle.stl_grammar.specs.Refusing.{AreCounted};

    ghost Value = { List Frame };

    ghost view = { λ f. reverse f.frames.items };

    ghost invariant = { λ f. AreCounted f.pending f.parens (reverse f.frames.items) };
}

/// How tightly an operator binds: one with a bound beside an operand with 4, one before its operand with 5.
fn operator_rank(operator: Operator) -> u8
    ensures { result ≡ operator_rank operator }
{
    match operator {
        Operator::Not => 5,
        Operator::Connective(connective) => connective.rank(),
        Operator::Timed(of, _) => { if of.is_beside() { 4 } else { 5 } }
    }
}

/// How tightly what is open binds what follows it: a parenthesis not at all.
fn rank(frame: Frame) -> u8
    ensures { result ≡ frame_rank frame }
{
    match frame {
        Frame::Paren => 0,
        Frame::Operator { operator, .. } => operator_rank(operator),
    }
}

/// How many of what is open may be at most 64: one, but none for `and`, `or`, `until` and `since`.
fn marks(frame: Frame) -> usize
    ensures { result ≡ marks_in frame }
{
    let rank = rank(frame);
    if rank >= 2 && rank <= 4 { 0 } else { 1 }
}

/// How many of what is open are parentheses.
fn parens(frame: Frame) -> usize
    ensures { result ≡ parens_in frame }
{
    match frame {
        Frame::Paren => 1,
        _ => 0,
    }
}

impl Frames {
    pub(crate) fn new(alloc: Global) -> Frames
        ensures { result ≡ [] }
    {
        Frames {
            frames: Vec::new(alloc),
            pending: 0,
            parens: 0,
        }
    }

    pub(crate) fn push(&mut self, frame: Frame) -> Result<(), AllocError>
        ensures { IfOk result (λ _. self.new ≡ frame ∷ self.old) }
    {
        self.frames.push(frame)?;
        prove!(self.frames.len() > 0);
        self.pending += marks(frame);
        self.parens += parens(frame);
        Ok(())
    }

    /// How many are pending: parentheses, one-operand operators and `implies`.
    pub(crate) fn pending(&self) -> usize
        ensures { result ≡ length (pending_of (ranks_of self.now)) }
    {
        self.pending
    }

    /// Whether a parenthesis is open.
    pub(crate) fn has_paren(&self) -> bool
        ensures { result ≡ holds_paren (pending_of (ranks_of self.now)) }
    {
        self.parens > 0
    }

    /// How tightly the last one binds.
    pub(crate) fn top_rank(&self) -> u8
        ensures { result ≡ top_rank self.now }
    {
        match self.frames.last() {
            Some(frame) => rank(*frame),
            None => 0,
        }
    }

    /// Takes the last one away.
    pub(crate) fn pop(&mut self) -> Option<Frame>
        ensures { MatchOption result ((self.old ≡ []) × (self.new ≡ [])) (λ f. self.old ≡ f ∷ self.new) }
    {
        let frame = self.frames.pop()?;
        self.pending -= marks(frame);
        self.parens -= parens(frame);
        Some(frame)
    }

    /// Takes the last one away, where it binds at least so tightly.
    pub(crate) fn pop_from(&mut self, least: u8) -> Option<Frame>
        requires { 0 < least }
        ensures { MatchOption result ((top_rank self.old < least) × (self.new ≡ self.old))
            (λ f. (self.old ≡ f ∷ self.new) × (least ≤ frame_rank f)) }
    {
        if rank(*self.frames.last()?) < least {
            return None;
        }
        self.pop()
    }
}
