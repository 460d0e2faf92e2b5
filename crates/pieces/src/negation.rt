//! Negation.
ghost use Rattle.std.specs.Prelude.{◌≡◌, IfOk};
ghost use Rattle.pieces.specs.Chains.{IsLimited, IsWorth, Tells, stop};
ghost use Rattle.pieces.specs.Negating.{AreLevel, AreOpposite, BasesFrom, Negated};

use crate::{Piece, Pieces};
use frac128::Memory;
use value_laws::Shape;

impl<P: Shape> Pieces<P> {
    /// Turns the chain into the one that is minus it at each time, where it stands: it takes no memory. Its moving shapes have the bases
    /// of moving shapes of the chain before.
    pub fn negate(&mut self)
        requires { IsLimited P.Shape self.old }
        ensures worth { Tells P.Shape (Negated (IsWorth P.Shape self.old)) self.old.from (stop self.old) self.new }
        ensures bases { BasesFrom P.Shape (λ b. b) self.old self.new }
    {
        negate_each(&mut self.items);
    }

    /// The chain that is minus this one at each time. Its moving shapes have the bases of moving shapes of this one.
    ///
    /// # Errors
    ///
    /// `Memory` where memory is wanting.
    pub fn negated(&self) -> Result<Pieces<P>, Memory>
        requires { IsLimited P.Shape self.now }
        ensures worth { IfOk result (Tells P.Shape (Negated (IsWorth P.Shape self.now)) self.now.from (stop self.now)) }
        ensures bases { IfOk result (BasesFrom P.Shape (λ b. b) self.now) }
    {
        let mut built = self.copy()?;
        built.negate();
        Ok(built)
    }
}

/// Negates the shape of each piece.
fn negate_each<P: Shape>(items: &mut Vec<Piece<P>>)
    requires { AreLevel P.Shape items.old.items }
    ensures { AreOpposite P.Shape items.old.items items.new.items }
{
    for i in 0..items.len() {
        let negated = items[i].shape.neg();
        items[i].shape = negated;
    }
}
