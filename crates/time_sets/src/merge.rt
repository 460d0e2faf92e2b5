//! Two sets in one pass over both lists of turns.
ghost use Rattle.std.specs.Prelude.{◌≡◌, ◌⊎◌, [], true, false, not, drop, IfOk, MatchOption};
ghost use Rattle.rational.specs.Time.{Rational};
ghost use Rattle.time_sets.specs.Sets.{Rise, has};
ghost use Rattle.time_sets.specs.Windows.{IsOf};
ghost use Rattle.time_sets.specs.declared.domain.Domain.{Domain};
ghost use Rattle.time_sets.specs.Merging.{Leads, flipped, joined};

use crate::times::Times;
use crate::turn::Turn;
use frac128::Memory;
use std::alloc::Global;
use std::cmp::Ordering;

/// The next place at which one of two sets turns, and which of them do so there.
#[derive(Clone, Copy)]
struct Next<'a> {
    at: &'a Turn,
    left: bool,
    right: bool,
}

/// The conjunction of two truths where `all` says so, and else the disjunction.
#[inline(always)]
fn join(all: bool, a: bool, b: bool) -> bool
    ensures { result ≡ joined all a b }
{
    if all { a && b } else { a || b }
}

/// The truth after a place at which it turns or does not.
#[inline(always)]
fn flip(turns: bool, holds: bool) -> bool
    ensures { result ≡ flipped turns holds }
{
    if turns { !holds } else { holds }
}

/// The first of what is left of two lists of turns.
#[inline(always)]
fn first_of<'a>(p: &'a [Turn], i: usize, q: &'a [Turn], k: usize) -> Option<Next<'a>>
    ensures { MatchOption result
        ((drop i p.now ≡ []) × (drop k q.now ≡ []))
        (λ n. ((n.left ≡ true) ⊎ (n.right ≡ true)) × Leads n.left n.at.now (drop i p.now) × Leads n.right n.at.now (drop k q.now)) }
{
    if i >= p.len() {
        if k >= q.len() {
            return None;
        }
        return Some(Next {
            at: &q[k],
            left: false,
            right: true,
        });
    }
    if k >= q.len() {
        return Some(Next {
            at: &p[i],
            left: true,
            right: false,
        });
    }
    match p[i].cmp(&q[k]) {
        Ordering::Less => Some(Next {
            at: &p[i],
            left: true,
            right: false,
        }),
        Ordering::Equal => Some(Next {
            at: &p[i],
            left: true,
            right: true,
        }),
        Ordering::Greater => Some(Next {
            at: &q[k],
            left: false,
            right: true,
        }),
    }
}

/// The times that are in both sets, or in one of them.
#[inline(always)]
pub(crate) fn merged(alloc: Global, all: bool, p: &Times, q: &Times) -> Result<Times, Memory>
    requires first { Rise p.now.turns.items }
    requires second { Rise q.now.turns.items }
    ensures times { IfOk result (λ r. (t : Rational) → has r t ≡ joined all (has p.now t) (has q.now t)) }
    ensures rise { IfOk result (λ r. Rise r.turns.items) }
    ensures of { IfOk result (λ r. (on : Domain) → IsOf on p.now → IsOf on q.now → IsOf on r) }
{
    let mut turns = Vec::with_capacity(alloc, p.turns.len().saturating_add(q.turns.len()))?;
    let mut left = p.starts;
    let mut right = q.starts;
    let starts = join(all, left, right);
    let mut now = starts;
    let mut i = 0;
    let mut k = 0;
    let ps: &[Turn] = &p.turns;
    let qs: &[Turn] = &q.turns;
    while let Some(next) = first_of(ps, i, qs, k) {
        i += usize::from(next.left);
        k += usize::from(next.right);
        left = flip(next.left, left);
        right = flip(next.right, right);
        let holds = join(all, left, right);
        if holds != now {
            turns.push(*next.at)?;
        }
        now = holds;
    }
    Ok(Times { starts, turns })
}
