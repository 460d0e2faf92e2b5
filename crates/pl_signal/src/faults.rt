//! Why an operator on signals has no answer.
ghost use Rattle.std.specs.Prelude.{◌≡◌, ◌≤◌, ◌^◌, None, Ok, IfOk, IsErrAnd, OnErr, OnOk};
ghost use Rattle.std.specs.Int.RustNames.{unsigned_abs};
ghost use Rattle.pl_signal.specs.Faults.{HasBoundedLevels, IsNegatedPair, CanMirror, IsKept, IsMirroredPair, OfPair, IsPairwise};

use frac128::{Frac, Memory};
use value_laws::Shape;

/// What needs a denominator of 2^60 or more, and that denominator.
#[derive(Clone, Copy, Debug)]
pub enum WidePair<P> {
    /// The crossing of `p` and `q` between the times `from` and `to`.
    Cross {
        p: P,
        q: P,
        from: Frac,
        to: Frac,
        den: u128,
    },
    /// The value of `p` at the time `at`.
    Value {
        p: P,
        at: Frac,
        den: u128,
    },
}

/// Why an operator has no answer.
#[derive(Clone, Copy, Debug)]
pub enum OpFault<P> {
    /// Want of memory.
    Memory,
    /// A function in play needs a denominator that is not stored.
    Wide(WidePair<P>),
}

impl<P> From<Memory> for OpFault<P> {
    ghost use Rattle.std.specs.Prelude.{◌≡◌};
    ghost use Rattle.pl_signal.specs.declared.faults.OpFault.TheVariants as F;

    ghost from_gives = { λ _ e. e ≡ F.Memory };

    fn from(_: Memory) -> OpFault<P> {
        OpFault::Memory
    }
}

/// What was refused: the pair that was kept, or want of memory where none was.
pub fn fault_of<P: Shape>(kept: Option<WidePair<P>>) -> OpFault<P>
    ensures { IsKept result kept }
{
    match kept {
        Some(pair) => OpFault::Wide(pair),
        None => OpFault::Memory,
    }
}

/// Keeps in `fault` what was refused, and tells only that something was, so that the answer is small.
///
/// # Errors
///
/// `Memory` where memory was wanting, or where a pair was refused, which is then in `fault`: `fault_of` tells them apart.
#[inline(always)]
pub fn keep<T, P: Shape>(
    done: Result<T, OpFault<P>>,
    fault: &mut Option<WidePair<P>>,
) -> Result<T, Memory>
    requires { fault.old ≡ None }
    ensures ok { IfOk result (λ x. done ≡ Ok x) }
    ensures still { OnOk result (fault.new ≡ None) }
    ensures fault { OnErr result (IsErrAnd done (λ e. IsKept e fault.new)) }
{
    match done {
        Ok(x) => Ok(x),
        Err(OpFault::Memory) => Err(Memory),
        Err(OpFault::Wide(pair)) => {
            *fault = Some(pair);
            Err(Memory)
        }
    }
}

impl<P: Shape> WidePair<P> {
    /// The pair of the negated shapes, at the same times.
    pub fn negated(&self) -> WidePair<P>
        requires { HasBoundedLevels P.Shape self.now }
        ensures { IsNegatedPair P.Shape self.now result }
    {
        match *self {
            WidePair::Cross {
                p,
                q,
                from,
                to,
                den,
            } => WidePair::Cross {
                p: p.neg(),
                q: q.neg(),
                from,
                to,
                den,
            },
            WidePair::Value { p, at, den } => WidePair::Value {
                p: p.neg(),
                at,
                den,
            },
        }
    }

    /// The pair with time mirrored: its shapes are at `t` what they were at `about - t`, and so are its times.
    pub fn mirrored(&self, about: i64) -> WidePair<P>
        requires about { unsigned_abs about ≤ 2 ^ 34 }
        requires pair { CanMirror P.Shape about self.now }
        ensures { IsMirroredPair P.Shape about self.now result }
    {
        match *self {
            WidePair::Cross {
                p,
                q,
                from,
                to,
                den,
            } => WidePair::Cross {
                p: p.mirror(about),
                q: q.mirror(about),
                from: to.mirror(about),
                to: from.mirror(about),
                den,
            },
            WidePair::Value { p, at, den } => WidePair::Value {
                p: p.mirror(about),
                at: at.mirror(about),
                den,
            },
        }
    }
}

impl<P: Shape> OpFault<P> {
    /// The fault of the negated shapes.
    pub fn negated(&self) -> OpFault<P>
        requires { OfPair (HasBoundedLevels P.Shape) self.now }
        ensures { IsPairwise (IsNegatedPair P.Shape) self.now result }
    {
        match *self {
            OpFault::Memory => OpFault::Memory,
            OpFault::Wide(pair) => OpFault::Wide(pair.negated()),
        }
    }

    /// The fault with time mirrored about `about`.
    pub fn mirrored(&self, about: i64) -> OpFault<P>
        requires about { unsigned_abs about ≤ 2 ^ 34 }
        requires pair { OfPair (CanMirror P.Shape about) self.now }
        ensures { IsPairwise (IsMirroredPair P.Shape about) self.now result }
    {
        match *self {
            OpFault::Memory => OpFault::Memory,
            OpFault::Wide(pair) => OpFault::Wide(pair.mirrored(about)),
        }
    }
}
