//! The least and the greatest of two shapes over an open gap.
ghost use Rattle.std.specs.Prelude.{◌≡◌, ◌≢◌, ◌⊎◌, ◌^◌, if◌then◌else◌, Err, IfOk, IfSome, MatchResult, None, OnErr, OnOk};
ghost use Rattle.rational.specs.Rational.{IsWithin};
ghost use Rattle.rational.specs.Time.{◌<ʳ◌};
ghost use Rattle.rational.specs.Extended.{value_at};
ghost use Rattle.rational.specs.Affine.{HasBoundedLevel, MeetAlone};
ghost use Rattle.frac128.specs.Value.{value};
ghost use Rattle.pl_signal.specs.declared.faults.OpFault.TheVariants as F;
ghost use Rattle.pl_signal.specs.Joining.{IsAllOver, IsChosen, IsFavour, IsGapFault, IsTurn, TurnsOver};

use crate::{OpFault, WidePair};
use frac128::{Frac, Memory};
use std::cmp::Ordering;
use value_laws::Shape;

/// Which of two values is wanted at a time.
#[derive(Clone, Copy)]
pub enum Side {
    /// The least of the two.
    Least,
    /// The greatest of the two.
    Greatest,
}

/// The order of the two at `t`, turned over where the greatest is wanted: `Less` where the first is to be taken.
pub fn favour<P: Shape>(side: Side, p: &P, q: &P, t: &Frac) -> Ordering
    requires { IsWithin (2 ^ 34) (value t.now) }
    ensures { IsFavour side result (value_at (P.function p.now) (value t.now)) (value_at (P.function q.now) (value t.now)) }
{
    match side {
        Side::Least => P::cmp_at(p, q, t),
        Side::Greatest => P::cmp_at(q, p, t),
    }
}

/// The one of the two that is taken at `t`.
pub fn chosen<P: Shape>(side: Side, p: &P, q: &P, t: &Frac) -> P
    requires { IsWithin (2 ^ 34) (value t.now) }
    ensures one { (result ≡ p.now) ⊎ (result ≡ q.now) }
    ensures value { IsChosen side (value_at (P.function p.now) (value t.now)) (value_at (P.function q.now) (value t.now))
        (value_at (P.function result) (value t.now)) }
{
    *chosen_in_place(side, p, q, t)
}

/// The one of the two that is taken at `t`, by reference.
#[inline(always)]
pub fn chosen_in_place<'a, P: Shape>(side: Side, p: &'a P, q: &'a P, t: &Frac) -> &'a P
    requires { IsWithin (2 ^ 34) (value t.now) }
    ensures one { (result.now ≡ p.now) ⊎ (result.now ≡ q.now) }
    ensures value { IsChosen side (value_at (P.function p.now) (value t.now)) (value_at (P.function q.now) (value t.now))
        (value_at (P.function result.now) (value t.now)) }
{
    match favour(side, p, q, t) {
        Ordering::Greater => q,
        _ => p,
    }
}

/// The time at which the two cross between `from` and `to`, where their order turns over between them.
///
/// It is refused as `Wide` exactly where that time needs a denominator of 2^60 or more.
///
/// # Errors
///
/// `Wide` where its time needs a denominator of 2^60 or more.
pub fn crossing<P: Shape>(p: &P, q: &P, from: &Frac, to: &Frac) -> Result<Frac, OpFault<P>>
    requires order { value from.now <ʳ value to.now }
    requires from_within { IsWithin (2 ^ 34) (value from.now) }
    requires to_within { IsWithin (2 ^ 34) (value to.now) }
    requires first { HasBoundedLevel (2 ^ 31) (P.function p.now) }
    requires second { HasBoundedLevel (2 ^ 31) (P.function q.now) }
    requires turned { TurnsOver (P.function p.now) (P.function q.now) (value from.now) (value to.now) }
    ensures met { MatchResult result
        (λ t. MeetAlone (P.function p.now) (P.function q.now) (value from.now) (value to.now) (value t))
        (IsGapFault P.Shape p.now q.now from.now to.now) }
    ensures memory { result ≢ Err F.Memory }
{
    match P::cross(p, q, from, to) {
        Ok(Some(t)) => Ok(t),
        Ok(None) => unreachable!(),
        Err(wide) => Err(OpFault::Wide(WidePair::Cross {
            p: *p,
            q: *q,
            from: *from,
            to: *to,
            den: wide.den,
        })),
    }
}

/// The time at which the two cross, as `crossing` tells it; what is refused is put into `fault`, so that the answer is small. Nothing is
/// put there for want of memory.
///
/// # Errors
///
/// `Memory` where the time needs a denominator of 2^60 or more.
#[inline(always)]
pub fn crossing_kept<P: Shape>(
    p: &P,
    q: &P,
    from: &Frac,
    to: &Frac,
    fault: &mut Option<WidePair<P>>,
) -> Result<Frac, Memory>
    requires order { value from.now <ʳ value to.now }
    requires from_within { IsWithin (2 ^ 34) (value from.now) }
    requires to_within { IsWithin (2 ^ 34) (value to.now) }
    requires first { HasBoundedLevel (2 ^ 31) (P.function p.now) }
    requires second { HasBoundedLevel (2 ^ 31) (P.function q.now) }
    requires turned { TurnsOver (P.function p.now) (P.function q.now) (value from.now) (value to.now) }
    requires none { fault.old ≡ None }
    ensures met { IfOk result (λ t. MeetAlone (P.function p.now) (P.function q.now) (value from.now) (value to.now) (value t)) }
    ensures still { OnOk result (fault.new ≡ None) }
    ensures wide { OnErr result (IfSome fault.new (λ pair. IsGapFault P.Shape p.now q.now from.now to.now (F.Wide pair))) }
{
    match P::cross(p, q, from, to) {
        Ok(Some(middle)) => Ok(middle),
        Ok(None) => unreachable!(),
        Err(wide) => {
            *fault = Some(WidePair::Cross {
                p: *p,
                q: *q,
                from: *from,
                to: *to,
                den: wide.den,
            });
            Err(Memory)
        }
    }
}

/// Whether the first of the two is taken at each time between `from` and `to`, or the second. Where they cross there, `Err` says
/// whether the first is taken before, and the second after.
#[inline(always)]
pub(crate) fn takes_first<P: Shape>(
    side: Side,
    p: &P,
    q: &P,
    from: &Frac,
    to: &Frac,
) -> Result<bool, bool>
    requires from_within { IsWithin (2 ^ 34) (value from.now) }
    requires to_within { IsWithin (2 ^ 34) (value to.now) }
    ensures { MatchResult result
        (λ first. IsAllOver P.Shape side p.now q.now (value from.now) (value to.now) (if first then p.now else q.now))
        (IsTurn P.Shape side p.now q.now (value from.now) (value to.now)) }
{
    match favour(side, p, q, from) {
        Ordering::Less => match favour(side, p, q, to) {
            Ordering::Greater => Err(true),
            _ => Ok(true),
        },
        Ordering::Equal => match favour(side, p, q, to) {
            Ordering::Greater => Ok(false),
            _ => Ok(true),
        },
        Ordering::Greater => match favour(side, p, q, to) {
            Ordering::Less => Err(false),
            _ => Ok(false),
        },
    }
}
