//! The signals of a formula's atoms.
ghost use Rattle.std.specs.Prelude.{◌≡◌, ◌<◌, ◌∷◌, ◌++◌, [], length, OnOk, OnErr};

use frac128::Memory;
use pl_signal::Signal;
use std::alloc::Global;
use std::collections::VecDeque;
use std::marker::Model;
use value_laws::Shape;

/// One signal for each atom of a formula, in post-order. Contracts see it as the list of the signals.
#[derive(Drop)]
pub struct Atoms<P: Shape> {
    signals: VecDeque<Signal<P>>,
}

impl<P: Shape> Model for Atoms<P> {
    ghost use Rattle.std.specs.Prelude.{List};
    ghost use Rattle.pl_signal.specs.declared.knot.Knot.{Knot};

    ghost Value = { List (List (Knot P)) };

    ghost view = { λ s. s.signals.items };
}

impl<P: Shape> Atoms<P> {
    /// No signals yet; it takes no memory.
    pub fn new(alloc: Global) -> Atoms<P>
        ensures { result ≡ [] }
    {
        Atoms {
            signals: VecDeque::new(alloc),
        }
    }

    /// The signal of the next atom in post-order. Without memory for it nothing changes.
    ///
    /// # Errors
    ///
    /// `Memory` where memory is wanting; the signals stay as they were.
    pub fn add(&mut self, signal: Signal<P>) -> Result<(), Memory>
        ensures ok { OnOk result (self.new ≡ self.old ++ signal ∷ []) }
        ensures err { OnErr result (self.new ≡ self.old) }
    {
        if self.signals.push_back(signal).is_err() {
            return Err(Memory);
        }
        Ok(())
    }
    /// Takes out the first signal.
    pub(crate) fn take(&mut self) -> Signal<P>
        requires { 0 < length self.old }
        ensures { self.old ≡ result ∷ self.new }
    {
        match self.signals.pop_front() {
            Some(signal) => signal,
            None => unreachable!(),
        }
    }
}
