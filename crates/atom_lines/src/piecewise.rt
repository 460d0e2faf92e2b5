//! How a signal of an atom grows by a row.
ghost use Rattle.std.specs.Prelude.{◌≡◌, ◌≤◌, ◌^◌, pos, OnOk, IsTrue};
ghost use Rattle.std.specs.Int.RustNames.{unsigned_abs};
ghost use Rattle.rational.specs.Rational.{Rational, IsWithin, whole};
ghost use Rattle.rational.specs.Time.{◌≤ʳ◌};
ghost use Rattle.rational.specs.Extended.{value_at, ◌≈ᵉ◌};
ghost use Rattle.pl_signal.specs.Knots.{stop, IsSignal};
ghost use Rattle.atom_lines.specs.Gaps.{Passes};
ghost use Rattle.atom_lines.specs.Growing.{CatchesUp, GoesAlong, IsRowBase};
ghost use Rattle.atom_lines.specs.How.{How, by_truth, worth};

use crate::gap::Gap;
use crate::margin::{margin_at, margin_between};
use crate::truth::{changes_sign, crossing, keeps_sign, truth_at};
use frac128::{Frac, Memory};
use pl_signal::Builder;
use std::cmp::Ordering;
use stl_syntax::Rel;
use value_laws::{Margin, Shape, Truth};

/// A shape in which an atom is read, at rows and on the gaps between them.
pub(crate) trait Piecewise: Shape {
    /// How it is read.
    ghost read_as: { How };

    /// What a comparison is worth whose sum lies `value` above its constant.
    fn point(rel: Rel, value: i64) -> Self
        requires { unsigned_abs value ≤ 2 ^ 31 }
        ensures worth { (t : Rational) → value_at (Self.function result) t ≈ᵉ worth read_as rel (whole value) }
        ensures base { IsRowBase (Self.base result) };

    /// Goes on over a gap, at whose end the sum lies `next` above the constant. Where the signal ends before the gap, the atom is
    /// worth up to there what it is at the first row; and where it stays so up to the second row, the signal is left as it is.
    fn go_on(signal: &mut Builder<Self>, rel: Rel, gap: &Gap, next: i64) -> Result<(), Memory>
        requires next { unsigned_abs next ≤ 2 ^ 31 }
        requires signal { IsSignal Self.Shape signal.old }
        requires limited { IsWithin (2 ^ 34) (stop signal.old) }
        requires late { stop signal.old ≤ʳ whole (pos gap.now.first) }
        ensures { OnOk result (GoesAlong Self.Shape read_as rel gap.now next signal.old signal.new) };
}

impl Piecewise for Truth {
    ghost use Rattle.atom_lines.specs.How.{by_truth};

    ghost read_as = { by_truth };

    fn point(rel: Rel, value: i64) -> Truth {
        truth_at(rel, value)
    }

    fn go_on(signal: &mut Builder<Truth>, rel: Rel, gap: &Gap, next: i64) -> Result<(), Memory> {
        if keeps_sign(gap, next) {
            return Ok(());
        }
        if changes_sign(gap) {
            return turn_over(signal, rel, gap, next);
        }
        stay_over(signal, rel, gap, next)
    }
}

impl Piecewise for Margin {
    ghost use Rattle.atom_lines.specs.How.{by_margin};

    ghost read_as = { by_margin };

    fn point(rel: Rel, value: i64) -> Margin {
        margin_at(rel, value)
    }

    fn go_on(signal: &mut Builder<Margin>, rel: Rel, gap: &Gap, next: i64) -> Result<(), Memory> {
        if stays(gap, next) {
            return Ok(());
        }
        let end = Frac::of(i64::from(gap.second));
        catch_up(signal, &margin_at(rel, gap.from), gap.first)?;
        signal.step(margin_between(rel, gap), end, margin_at(rel, next))
    }
}

/// Goes on over a gap in which the truth turns over.
fn turn_over(signal: &mut Builder<Truth>, rel: Rel, gap: &Gap, next: i64) -> Result<(), Memory>
    requires passes { Passes gap.now }
    requires limited { IsWithin (2 ^ 34) (stop signal.old) }
    requires late { stop signal.old ≤ʳ whole (pos gap.now.first) }
    ensures { OnOk result (GoesAlong ⟦<Truth as Shape>⟧ by_truth rel gap.now next signal.old signal.new) }
{
    let at = crossing(*gap);
    let end = Frac::of(i64::from(gap.second));
    let before = truth_at(rel, gap.from);
    let point = truth_at(rel, 0);
    signal.go_along(&before, &at, &point)?;
    if next == gap.to {
        return Ok(());
    }
    let after = truth_at(rel, gap.to);
    let last = truth_at(rel, next);
    signal.go_along(&after, &end, &last)
}

/// Goes on over a gap with one truth.
fn stay_over(signal: &mut Builder<Truth>, rel: Rel, gap: &Gap, next: i64) -> Result<(), Memory>
    requires stays { ¬ Passes gap.now }
    requires limited { IsWithin (2 ^ 34) (stop signal.old) }
    requires late { stop signal.old ≤ʳ whole (pos gap.now.first) }
    ensures { OnOk result (GoesAlong ⟦<Truth as Shape>⟧ by_truth rel gap.now next signal.old signal.new) }
{
    let end = Frac::of(i64::from(gap.second));
    let before = truth_at(rel, gap.from);
    let after = truth_at(rel, gap.from + gap.to);
    let last = truth_at(rel, next);
    if before.holds() == after.holds() {
        return signal.go_along(&after, &end, &last);
    }
    catch_up(signal, &before, gap.first)?;
    signal.go_along(&after, &end, &last)
}

/// Whether the sum stays the same over the gap, and at its ends.
fn stays(gap: &Gap, next: i64) -> bool
    ensures from { IsTrue result → gap.now.to ≡ gap.now.from }
    ensures next { IsTrue result → next ≡ gap.now.from }
{
    gap.from == gap.to && gap.from == next
}

/// Goes on with one shape up to the time, where the signal ends before it.
pub(crate) fn catch_up<P: Shape>(signal: &mut Builder<P>, steady: &P, to: u32) -> Result<(), Memory>
    requires limited { IsWithin (2 ^ 34) (stop signal.old) }
    requires late { stop signal.old ≤ʳ whole (pos to) }
    ensures { OnOk result (CatchesUp P.Shape steady.now to signal.old signal.new) }
{
    let end = Frac::of(i64::from(to));
    match signal.stop().cmp(&end) {
        Ordering::Less => signal.go_along(steady, &end, steady),
        _ => Ok(()),
    }
}
