//! The two ends of the queue.
ghost use Rattle.std.specs.Prelude.{◌≡◌, ℕ, ◌+◌, ◌<◌, ◌≤◌, ◌∷◌, ◌++◌, [], drop, length};
ghost use Rattle.std.specs.VecDeque.{deque_capacity};
ghost use Rattle.window_extrema.specs.Stairs.{AreStairs, AreStairsTo, from_place, spread};

use frac128::Steps;
use std::cmp::Ordering;
use std::collections::VecDeque;
use std::sync::ledger::Ledger;
use value_laws::{Counted, Shape};

/// Drops the places at the end of the queue whose items are no greater than the one at `place`, up to which the queue spreads. It answers how many
/// places before that one are passed over then.
pub(crate) fn drop_smaller<P: Shape, L: Ledger>(
    items: &VecDeque<Counted<P>>,
    queue: &mut VecDeque<usize>,
    place: usize,
    steps: &mut Steps<L>,
) -> usize
    requires within { place < length items.now.items }
    requires spread { spread queue.old.items ≤ place }
    ensures stairs { (low : ℕ)
        → AreStairsTo P.function items.now.items place low place queue.old.items
        → AreStairs P.function items.now.items low (place + 1) (queue.new.items ++ result ∷ []) }
    ensures room { deque_capacity queue.new ≡ deque_capacity queue.old }
    ensures fewer { length queue.new.items ≤ length queue.old.items }
    ensures cost { steps.new + length queue.new.items ≤ steps.old + length queue.old.items + 1 }
{
    let item = &items[place];
    let mut passed = 0;
    while let Some(&before) = queue.back() {
        match items[place - passed - 1].cmp(item, steps) {
            Ordering::Greater => return passed,
            _ => {
                let _ = queue.pop_back();
                passed += before + 1;
            }
        }
    }
    passed
}

/// Drops the places at the front of the queue that lie among the first `count` of those that it spreads over.
pub(crate) fn drop_earlier(queue: &mut VecDeque<usize>, count: usize)
    ensures kept { queue.new.items ≡ from_place count queue.old.items }
    ensures room { deque_capacity queue.new ≡ deque_capacity queue.old }
    ensures fewer { length queue.new.items ≤ length queue.old.items }
{
    let mut left = count;
    while left > 0 {
        let Some(&passed) = queue.front() else {
            return;
        };
        if left <= passed {
            queue[0] = passed - left;
            return;
        }
        let _ = queue.pop_front();
        left -= passed + 1;
    }
}

/// Lets the first items go.
pub(crate) fn let_go<P: Shape>(items: &mut VecDeque<Counted<P>>, count: usize)
    ensures { items.new.items ≡ drop count items.old.items }
{
    for _ in 0..count {
        let _ = items.pop_front();
    }
}
