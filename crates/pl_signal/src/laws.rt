//! The laws of signals. Each is the contract of a call that does nothing, so that the gate proves it for every kind of value.
ghost use Rattle.std.specs.Prelude.{◌≡◌, ◌⊎◌, ◌↔◌, ◌+◌, ◌^◌, ℕ, List, Some, slice_get};
ghost use Rattle.rational.specs.Time.{Rational, Within, Interval, IsIn, ◌<ʳ◌, ◌≤ʳ◌, ◌≈◌};
ghost use Rattle.rational.specs.Rational.{IsWithin};
ghost use Rattle.rational.specs.Extended.{Affine, Extended, value_at, ◌≈ᵉ◌};
ghost use Rattle.rational.specs.Affine.{AreSame, IsBounded};
ghost use Rattle.rational.specs.InPlay.{IsBreakpoint, IsLeftLimit, IsPart, IsRightLimit};
ghost use Rattle.rational.specs.Windows.{IsInfOver, IsSupOver};
ghost use Rattle.rational.specs.Knots.{AreNeeded, Reads, Spans};
ghost use Rattle.pl_signal.specs.declared.knot.Knot.{Knot};
ghost use Rattle.pl_signal.specs.Knots.{IsSignal, IsWorth, start, stop, time};
ghost use Rattle.pl_signal.specs.Limits.{IsLimited};
ghost use Rattle.pl_signal.specs.Plain.{knots_of};

use value_laws::Shape;

/// A signal is worth one value at each time of its domain, and nothing outside.
pub fn one_value<P: Shape>()
    ensures one { (knots : List (Knot P)) (t : Rational) (v w : Extended) → IsSignal P.Shape knots
        → IsWorth P.Shape knots t v → IsWorth P.Shape knots t w → v ≈ᵉ w }
    ensures some { (knots : List (Knot P)) (t : Rational) → IsSignal P.Shape knots
        → Within (start knots) (stop knots) t → (v : Extended) × IsWorth P.Shape knots t v }
    ensures within { (knots : List (Knot P)) (t : Rational) (v : Extended) → IsSignal P.Shape knots
        → IsWorth P.Shape knots t v → Within (start knots) (stop knots) t }
    ensures alike { (knots : List (Knot P)) (t u : Rational) (v w : Extended) → t ≈ u → v ≈ᵉ w
        → IsWorth P.Shape knots t v → IsWorth P.Shape knots u w }
{}

/// A signal read by the places of its knots: at a knot it is worth what the knot's point is, and on the gap behind it what the
/// shape after it is.
pub fn by_places<P: Shape>()
    ensures at { (knots : List (Knot P)) (i : ℕ) (k : Knot P) (t : Rational) → slice_get knots i ≡ Some k → t ≈ time k
        → IsWorth P.Shape knots t (value_at (P.function k.point) t) }
    ensures between { (knots : List (Knot P)) (i : ℕ) (k n : Knot P) (t : Rational) → slice_get knots i ≡ Some k
        → slice_get knots (i + 1) ≡ Some n → time k <ʳ t → t <ʳ time n
        → IsWorth P.Shape knots t (value_at (P.function k.after) t) }
    ensures rising { (knots : List (Knot P)) (i : ℕ) (k n : Knot P) → IsSignal P.Shape knots → slice_get knots i ≡ Some k
        → slice_get knots (i + 1) ≡ Some n → time k <ʳ time n }
    ensures found { (knots : List (Knot P)) (t : Rational) → IsSignal P.Shape knots → Within (start knots) (stop knots) t
        → ((i : ℕ) × (k : Knot P) × (slice_get knots i ≡ Some k) × (t ≈ time k))
        ⊎ ((i : ℕ) × (k n : Knot P) × (slice_get knots i ≡ Some k) × (slice_get knots (i + 1) ≡ Some n) × (time k <ʳ t) × (t <ʳ time n)) }
{}

/// One-sided limits. On the gap behind a knot, and at both of its ends, the limits are the values of the shape after the knot.
/// From each side there is one limit at a time.
pub fn limits<P: Shape>()
    ensures left { (knots : List (Knot P)) (i : ℕ) (k n : Knot P) (t : Rational) → slice_get knots i ≡ Some k
        → slice_get knots (i + 1) ≡ Some n → time k <ʳ t → t ≤ʳ time n
        → IsLeftLimit (IsWorth P.Shape knots) t (value_at (P.function k.after) t) }
    ensures right { (knots : List (Knot P)) (i : ℕ) (k n : Knot P) (t : Rational) → slice_get knots i ≡ Some k
        → slice_get knots (i + 1) ≡ Some n → time k ≤ʳ t → t <ʳ time n
        → IsRightLimit (IsWorth P.Shape knots) t (value_at (P.function k.after) t) }
    ensures one_left { (knots : List (Knot P)) (t : Rational) (v w : Extended) → IsSignal P.Shape knots
        → IsLeftLimit (IsWorth P.Shape knots) t v → IsLeftLimit (IsWorth P.Shape knots) t w → v ≈ᵉ w }
    ensures one_right { (knots : List (Knot P)) (t : Rational) (v w : Extended) → IsSignal P.Shape knots
        → IsRightLimit (IsWorth P.Shape knots) t v → IsRightLimit (IsWorth P.Shape knots) t w → v ≈ᵉ w }
{}

/// Where a signal is affine. Each of its knots is a breakpoint, and on the gap behind a knot the shape after the knot is the part
/// about each time. About a time there is one part.
pub fn parts<P: Shape>()
    ensures breakpoint { (knots : List (Knot P)) (i : ℕ) (k : Knot P) → IsSignal P.Shape knots → slice_get knots i ≡ Some k
        → IsBreakpoint (IsWorth P.Shape knots) (start knots) (stop knots) (time k) }
    ensures part { (knots : List (Knot P)) (i : ℕ) (k n : Knot P) (t : Rational) → slice_get knots i ≡ Some k
        → slice_get knots (i + 1) ≡ Some n → time k <ʳ t → t <ʳ time n
        → IsPart (IsWorth P.Shape knots) t (P.function k.after) }
    ensures one { (knots : List (Knot P)) (t : Rational) (f g : Affine) → IsSignal P.Shape knots
        → IsPart (IsWorth P.Shape knots) t f → IsPart (IsWorth P.Shape knots) t g → AreSame f g }
{}

/// A signal is limited where it begins and ends within 2^34 and each of its values is infinite or within 2^31, and only there:
/// its one-sided limits need no words of their own.
pub fn limited<P: Shape>()
    ensures limited { (knots : List (Knot P)) → IsSignal P.Shape knots
        → IsWithin (2 ^ 34) (start knots) → IsWithin (2 ^ 34) (stop knots)
        → ((t : Rational) (v : Extended) → IsWorth P.Shape knots t v → IsBounded (2 ^ 31) v) → IsLimited P.Shape knots }
    ensures times { (knots : List (Knot P)) → IsSignal P.Shape knots → IsLimited P.Shape knots
        → IsWithin (2 ^ 34) (start knots) × IsWithin (2 ^ 34) (stop knots) }
    ensures values { (knots : List (Knot P)) (t : Rational) (v : Extended) → IsLimited P.Shape knots
        → IsWorth P.Shape knots t v → IsBounded (2 ^ 31) v }
{}

/// A signal has a Sup and an Inf over every interval, closed, half-open or open, empty or not.
pub fn sup_and_inf<P: Shape>()
    ensures sup { (knots : List (Knot P)) (on : Interval)
        → (r : Extended) × IsSupOver P.lowest (IsIn on) (IsWorth P.Shape knots) r }
    ensures inf { (knots : List (Knot P)) (on : Interval)
        → (r : Extended) × IsInfOver P.highest (IsIn on) (IsWorth P.Shape knots) r }
{}

/// A signal says the same as the plain list of its knots, with no shape in it: the list rises from where the signal begins to where
/// it ends, read at a time it gives what the signal is worth there and nothing else, and no knot of it can be left out.
pub fn as_plain_knots<P: Shape>()
    ensures spans { (knots : List (Knot P)) → IsSignal P.Shape knots → Spans (start knots) (stop knots) (knots_of P.Shape knots) }
    ensures reads { (knots : List (Knot P)) (t : Rational) (v : Extended) → IsSignal P.Shape knots
        → Reads (knots_of P.Shape knots) t v ↔ IsWorth P.Shape knots t v }
    ensures needed { (knots : List (Knot P)) → IsSignal P.Shape knots → AreNeeded (knots_of P.Shape knots) }
{}
