//! The margins of atoms.
ghost use Rattle.std.specs.Prelude.{◌≡◌, ◌≤◌, ◌^◌, pos, ℤ, IsTrue, false, neg_ℤ};
ghost use Rattle.std.specs.Int.RustNames.{unsigned_abs};
ghost use Rattle.rational.specs.Rational.{Rational, ◌≈◌, whole};
ghost use Rattle.rational.specs.Line.{at};
ghost use Rattle.rational.specs.Extended.{value_at, ◌≈ᵉ◌, finite};
ghost use Rattle.value_laws.specs.Margins.{margin_function, margin_base, is_ramp};
ghost use Rattle.stl_syntax.specs.SupInf.{margin};
ghost use Rattle.atom_lines.specs.Gaps.{along};
ghost use Rattle.atom_lines.specs.Signs.{signed};

use crate::gap::Gap;
use frac128::{Frac, Ramp};
use stl_syntax::Rel;
use value_laws::Margin;

/// By how far a comparison holds whose sum lies `value` above its constant.
fn signed_value(rel: Rel, value: i64) -> i64
    requires { unsigned_abs value ≤ 2 ^ 31 }
    ensures { result ≡ signed rel value }
{
    match rel {
        Rel::AtLeast | Rel::Above => value,
        Rel::AtMost | Rel::Below => -value,
    }
}

/// The margin of a comparison whose sum lies `value` above its constant.
pub(crate) fn margin_at(rel: Rel, value: i64) -> Margin
    requires { unsigned_abs value ≤ 2 ^ 31 }
    ensures worth { (t : Rational) → value_at (margin_function result) t ≈ᵉ finite (margin rel (whole value)) }
    ensures level { is_ramp result ≡ false }
{
    Margin::Fixed(Frac::of(signed_value(rel, value)))
}

/// The margin of a comparison on the gap.
pub(crate) fn margin_between(rel: Rel, gap: &Gap) -> Margin
    ensures worth { (t : Rational) → value_at (margin_function result) t ≈ᵉ finite (margin rel (at (along gap.now) t)) }
    ensures base { IsTrue (is_ramp result) → margin_base result ≡ pos gap.now.first }
{
    let from = signed_value(rel, gap.from);
    let to = signed_value(rel, gap.to);
    if from == to {
        return Margin::Fixed(Frac::of(from));
    }
    Margin::Ramp(Ramp::make(
        i64::from(gap.first),
        from,
        to - from,
        gap.second - gap.first,
    ))
}
