//! The truth of atoms.
ghost use Rattle.std.specs.Prelude.{◌≡◌, ◌↔◌, ◌≤◌, ◌^◌, pos, IsTrue};
ghost use Rattle.rational.specs.Rational.{◌≈◌, whole};
ghost use Rattle.rational.specs.Line.{at};
ghost use Rattle.frac128.specs.Value.{value, denominator};
ghost use Rattle.stl_syntax.specs.Truth.{compares};
ghost use Rattle.atom_lines.specs.Gaps.{along, AreOfSign, IsEven, Passes};
ghost use Rattle.atom_lines.specs.Pieces.{TellsGap};
ghost use Rattle.atom_lines.specs.Signs.{least_sum};

use crate::gap::Gap;
use frac128::Frac;
use stl_syntax::Rel;
use value_laws::Truth;

/// An atom's truth on the open gap between two rows.
#[derive(Clone, Copy)]
pub enum TruthPiece {
    /// One truth on the whole gap.
    Whole(Truth),
    /// The truth turns over at the time `at`, which lies inside the gap: it is `before` up to that time, `point` at it, and `after`
    /// from it on.
    Split {
        before: Truth,
        at: Frac,
        point: Truth,
        after: Truth,
    },
}

/// Whether a comparison holds above the constant.
#[inline(always)]
fn holds_above(rel: Rel) -> bool
    ensures { result ≡ compares rel (whole (pos 1)) }
{
    match rel {
        Rel::AtLeast => true,
        Rel::Above => true,
        Rel::AtMost => false,
        Rel::Below => false,
    }
}

/// The least sum above the constant from which on a comparison is what it is above the constant; below that it is the other.
#[inline(always)]
fn least_of(rel: Rel) -> i64
    ensures { result ≡ least_sum rel }
{
    match rel {
        Rel::AtLeast => 0,
        Rel::Above => 1,
        Rel::AtMost => 1,
        Rel::Below => 0,
    }
}

/// The truth of a comparison whose sum lies `value` above its constant.
#[inline(always)]
pub(crate) fn truth_at(rel: Rel, value: i64) -> Truth
    ensures { result.holds ≡ compares rel (whole value) }
{
    let above = holds_above(rel);
    if value >= least_of(rel) {
        return Truth::of(above);
    }
    Truth::of(!above)
}

/// The time inside the gap at which a sum that changes its sign is 0.
#[inline(always)]
pub(crate) fn crossing(gap: Gap) -> Frac
    requires { Passes gap }
    ensures zero { at (along gap) (value result) ≈ whole (pos 0) }
    ensures small { denominator result ≤ 2 ^ 31 }
{
    let before = gap.from.unsigned_abs();
    let rise = before + gap.to.unsigned_abs();
    // What is left of the first time fits in 63 bits, so that nothing here needs 128.
    let past = before * u64::from(gap.second - gap.first);
    let whole = i64::from(gap.first) + (past / rise) as i64;
    Frac::mixed(whole, past % rise, rise)
}

/// Whether the sum has opposite signs at the two ends.
pub(crate) fn changes_sign(gap: &Gap) -> bool
    ensures { IsTrue result ↔ Passes gap.now }
{
    gap.from < 0 && gap.to > 0 || gap.from > 0 && gap.to < 0
}

/// The truth of a comparison on the open gap.
#[inline(always)]
pub(crate) fn truth_between(rel: Rel, gap: &Gap) -> TruthPiece
    ensures { TellsGap (whole (pos gap.now.first)) (whole (pos gap.now.second)) (λ t. compares rel (at (along gap.now) t)) result }
{
    if changes_sign(gap) {
        return TruthPiece::Split {
            before: truth_at(rel, gap.from),
            at: crossing(*gap),
            point: truth_at(rel, 0),
            after: truth_at(rel, gap.to),
        };
    }
    TruthPiece::Whole(truth_at(rel, gap.from + gap.to))
}

/// Whether the sum lies on one side of the constant over the gap, and at its ends.
pub(crate) fn keeps_sign(gap: &Gap, next: i64) -> bool
    ensures { IsTrue result → AreOfSign gap.now next }
{
    if gap.from > 0 {
        return gap.to > 0 && next > 0;
    }
    gap.from < 0 && gap.to < 0 && next < 0
}

/// Whether a comparison is the same at both ends of the gap, and at the row behind it, where the sum lies `next` above the constant.
#[inline(always)]
pub(crate) fn keeps_truth(rel: Rel, gap: &Gap, next: i64) -> bool
    ensures { IsTrue result → IsEven rel gap.now next }
{
    let holds = truth_at(rel, gap.from).holds();
    if truth_at(rel, gap.to).holds() != holds {
        return false;
    }
    truth_at(rel, next).holds() == holds
}

/// The truth of a comparison on the open gap, and at its end, where the sum lies `next` above the constant.
#[inline(always)]
pub(crate) fn truth_onward(rel: Rel, gap: &Gap, next: i64) -> (TruthPiece, Truth)
    ensures tells { TellsGap (whole (pos gap.now.first)) (whole (pos gap.now.second)) (λ t. compares rel (at (along gap.now) t)) result.0 }
    ensures point { result.1.holds ≡ compares rel (whole next) }
{
    let last = truth_at(rel, next);
    if keeps_sign(gap, next) {
        return (TruthPiece::Whole(last), last);
    }
    (truth_between(rel, gap), last)
}
