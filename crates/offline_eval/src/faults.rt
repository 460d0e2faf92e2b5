//! Why an evaluation has no answer.
use frac128::Memory;
use pl_signal::WidePair;

/// A pair that needs a denominator which is not stored, and the node, by its place in post-order, at which it is in play.
#[derive(Clone, Copy, Debug)]
pub struct WideCause<P> {
    pub node: u32,
    pub pair: WidePair<P>,
}

/// Why an evaluation has no answer.
#[derive(Clone, Copy, Debug)]
pub enum EvalFault<P> {
    /// Want of memory.
    Memory,
    /// A function in play at a node needs a denominator that is not stored.
    Wide(WideCause<P>),
}

impl<P> From<Memory> for EvalFault<P> {
    ghost use Rattle.std.specs.Prelude.{◌≡◌};
    ghost use Rattle.offline_eval.specs.declared.faults.EvalFault.TheVariants as F;

    ghost from_gives = { λ _ e. e ≡ F.Memory };

    fn from(_: Memory) -> EvalFault<P> {
        EvalFault::Memory
    }
}
