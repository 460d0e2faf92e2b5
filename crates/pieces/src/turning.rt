//! Chains with time running back.
ghost use Rattle.std.specs.Prelude.{◌≡◌, ◌<◌, ◌^◌, ◌-ℤ◌, pos, length, IfOk};
ghost use Rattle.rational.specs.Rational.{IsWithin};
ghost use Rattle.rational.specs.Places.{Same};
ghost use Rattle.frac128.specs.Value.{value};
ghost use Rattle.frac128.specs.Cuts.{place};
ghost use Rattle.pieces.specs.Chains.{IsLimited, IsWorth, Tells, begin_at, stop};
ghost use Rattle.pieces.specs.Negating.{BasesFrom};
ghost use Rattle.pieces.specs.Turning.{RunBack, turned};

use crate::Pieces;
use frac128::{Cut, Memory};
use value_laws::Shape;

/// The chain that is at each time what this one is at minus that time. Its moving shapes have minus the bases of moving shapes of it.
///
/// # Errors
///
/// `Memory` where memory is wanting.
pub(crate) fn run_back<P: Shape>(chain: &Pieces<P>) -> Result<Pieces<P>, Memory>
    requires { IsLimited P.Shape chain.now }
    ensures worth { IfOk result (Tells P.Shape (RunBack (IsWorth P.Shape chain.now)) (turned (stop chain.now)) (turned chain.now.from)) }
    ensures bases { IfOk result (BasesFrom P.Shape (λ b. pos 0 -ℤ b) chain.now) }
{
    let mut i = chain.len();
    let mut built = Pieces::with_room(chain.alloc(), &turn(&chain.until()), i)?;
    while i > 0 {
        i -= 1;
        let piece = chain.piece(i);
        let until = turn(chain.begin(i));
        let shape = piece.shape.mirror(0);
        built.append(&until, &shape)?;
    }
    Ok(built)
}

/// The place at minus the time, on the other side of it.
fn turn(c: &Cut) -> Cut
    requires { IsWithin (2 ^ 34) (value c.now.time) }
    ensures { Same (place result) (turned (place c.now)) }
{
    let time = c.time.mirror(0);
    if c.side == 0 {
        return Cut { time, side: 1 };
    }
    Cut { time, side: 0 }
}
