//! Sets made turn by turn, within a domain.
ghost use Rattle.std.specs.Prelude.{◌⊎◌, ◌≡◌, ◌↔◌, IfOk, IsTrue, OnOk};
ghost use Rattle.rational.specs.Places.{After, AtMost, Before, Upto};
ghost use Rattle.time_sets.specs.Turns.{place};
ghost use Rattle.time_sets.specs.Making.{Adds, CanAdd, CanTurn, Ends, Grown, Turns};

use crate::domain::Domain;
use crate::times::Times;
use crate::turn::Turn;
use frac128::Memory;

/// Whether a place that comes after the turns so far lies behind the begin of the domain, in which they lie. Where there is a turn it does.
#[inline(always)]
fn is_behind_begin(made: &Times, on: &Domain, at: &Turn) -> bool
    requires { CanTurn on.now at.now made.now }
    ensures { IsTrue result ↔ Before (place on.now.from) (place at.now) }
{
    if made.turns.len() > 0 {
        return true;
    }
    on.from.precedes(at)
}

/// Adds a turn that comes after the others, as far as it lies in the domain.
#[inline(always)]
fn put(made: &mut Times, on: &Domain, at: Turn) -> Result<(), Memory>
    requires { CanTurn on.now at made.old }
    ensures { OnOk result (Turns on.now at made.old made.new) }
{
    if !is_behind_begin(made, on, &at) {
        made.starts = !made.starts;
        return Ok(());
    }
    if at.precedes(&on.to) {
        made.push(at)?;
    }
    Ok(())
}

/// Adds the stretch from `begin` to `end`, if it has a time, and answers where the last stretch ends now. That end is not put yet, since
/// the next stretch may go on from there.
#[inline(always)]
pub(crate) fn add(
    made: &mut Times,
    on: &Domain,
    last: Option<Turn>,
    begin: Turn,
    end: Turn,
) -> Result<Option<Turn>, Memory>
    requires { CanAdd on.now last (After (place begin)) made.old }
    ensures { IfOk result (λ e. Adds on.now last e (After (place begin)) (λ t. After (place begin) t × Upto (place end) t) made.old made.new) }
{
    if !begin.precedes(&end) {
        return Ok(last);
    }
    match last {
        None => {
            put(made, on, begin)?;
            Ok(Some(end))
        }
        Some(was) => {
            if !was.precedes(&begin) {
                return Ok(Some(*later(&was, &end)));
            }
            put(made, on, was)?;
            put(made, on, begin)?;
            Ok(Some(end))
        }
    }
}

/// The set, whose last stretch ends at `last` if there is one.
#[inline(always)]
pub(crate) fn finish(made: Times, on: &Domain, last: Option<Turn>) -> Result<Times, Memory>
    requires { Grown on.now last made }
    ensures { IfOk result (Ends on.now last made) }
{
    let mut made = made;
    if let Some(end) = last {
        put(&mut made, on, end)?;
        return Ok(made);
    }
    Ok(made)
}

/// The later of two places.
#[inline(always)]
pub(crate) fn later<'a>(a: &'a Turn, b: &'a Turn) -> &'a Turn
    ensures one { (result.now ≡ a.now) ⊎ (result.now ≡ b.now) }
    ensures first { AtMost (place a.now) (place result.now) }
    ensures second { AtMost (place b.now) (place result.now) }
{
    if a.precedes(b) { b } else { a }
}

/// The earlier of two places.
#[inline(always)]
pub(crate) fn earlier<'a>(a: &'a Turn, b: &'a Turn) -> &'a Turn
    ensures one { (result.now ≡ a.now) ⊎ (result.now ≡ b.now) }
    ensures first { AtMost (place result.now) (place a.now) }
    ensures second { AtMost (place result.now) (place b.now) }
{
    if b.precedes(a) { b } else { a }
}
