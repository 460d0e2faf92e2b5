//! The lines of the stretches of one truth.
ghost use Rattle.std.specs.Prelude.{◌≡◌};
ghost use Rattle.rational.specs.Time.{◌≈◌};
ghost use Rattle.rational.specs.Places.{Before};
ghost use Rattle.frac128.specs.Value.{value};
ghost use Rattle.time_sets.specs.Turns.{place};
ghost use Rattle.time_sets.specs.Windows.{IsDomain, IsOf};
ghost use Rattle.verdict_sets.specs.Telling.{IsVerdictOf, IsFirstTruth};

use answer_lines::{LineRoom, LinesLeft};
use frac128::{Frac, Span};
use stl_syntax::{Scale, Verdict};
use time_sets::Span as Stretch;
use truth_sets::Judged;

/// The answer of `check`: the truth at the start, and the lines that are left to write.
#[derive(Drop)]
pub struct Told {
    /// Whether the formula holds at the start.
    pub holds: bool,
    judged: Judged,
    scale: Scale,
    /// How many stretches have their lines.
    next: usize,
    /// The time at which the next stretch begins.
    from: Frac,
}

/// The verdict of a stretch of one truth, which begins at the time `from`.
#[inline(always)]
fn verdict_of(from: Frac, stretch: &Stretch) -> Verdict
    requires order { Before (place stretch.now.from) (place stretch.now.to) }
    requires from { value from ≈ (place stretch.now.from).at }
    ensures is { IsVerdictOf stretch.now result }
    ensures from { result.on.from ≡ from }
{
    Verdict {
        on: Span {
            from,
            from_in: !stretch.from.is_after(),
            to: stretch.to.time(),
            to_in: stretch.to.is_after(),
        },
        holds: stretch.holds,
    }
}

impl LinesLeft for Told {
    ghost use Rattle.std.specs.Prelude.{◌+◌, ◌-◌, length};
    ghost use Rattle.verdict_sets.specs.Telling.{AreLeft, IsToldTo};

    ghost can_go_on = { IsToldTo };

    ghost is_left = { AreLeft };

    ghost count = { λ t. length t.judged.times.turns.items + 1 - t.next };

    fn put_some(&mut self, room: &mut LineRoom) -> bool {
        let mut from = self.from;
        let mut next = self.next;
        let mut last = None;
        while room.has_room() {
            let Some(stretch) = self.judged.times.span(&self.judged.on, next) else {
                room.put_start(self.holds);
                return false;
            };
            let verdict = verdict_of(from, &stretch);
            let text = room.put_verdict(&verdict, self.scale, last);
            last = Some(text);
            from = verdict.on.to;
            next += 1;
        }
        self.from = from;
        self.next = next;
        true
    }
}

/// The truth of the first stretch.
fn first_truth(judged: &Judged) -> bool
    requires domain { IsDomain judged.now.on }
    requires own { IsOf judged.now.on judged.now.times }
    ensures { IsFirstTruth judged.now result }
{
    match judged.times.span(&judged.on, 0) {
        Some(stretch) => stretch.holds,
        None => unreachable!(),
    }
}

/// The answer that the root's set tells, with times in units of the scale. No line of it is written yet.
pub(crate) fn told_by(scale: Scale, judged: Judged) -> Told
    requires domain { IsDomain judged.on }
    requires own { IsOf judged.on judged.times }
    ensures judged { result.judged ≡ judged }
    ensures scale { result.scale ≡ scale }
    ensures none { result.next ≡ 0 }
    ensures from { value result.from ≈ (place judged.on.from).at }
    ensures first { IsFirstTruth judged result.holds }
{
    let holds = first_truth(&judged);
    let from = judged.on.from.time();
    Told {
        holds,
        judged,
        scale,
        next: 0,
        from,
    }
}
