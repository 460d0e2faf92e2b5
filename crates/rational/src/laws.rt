//! The main laws of the numbers: the clauses of functions that do nothing.
ghost use Rattle.std.specs.Prelude.{◌≡◌, ◌⊎◌, ◌<◌, ◌↔◌, ℕ, ℤ, Bool, IsTrue, pos};
ghost use Rattle.rational.specs.Rational.{Rational, add, middle, multiply, negate, ratio, subtract, whole, ◌<ʳ◌, ◌≈◌, ◌≤ʳ◌};
ghost use Rattle.rational.specs.Line.{AreParallel, CrossAt, Falls, Level, Line, MeetAt, Rises, at, gap_line, ramp_line, through};
ghost use Rattle.rational.specs.Time.{HasDenominator, Interval, IsIn, gap, later, shifted, times};
ghost use Rattle.rational.specs.Extended.{Extended, IsGreatest, IsInf, IsLeast, IsSup, Passes, affine, finite, infinity, minus_infinity, ◌<ᵉ◌, ◌≈ᵉ◌, ◌≤ᵉ◌};
ghost use Rattle.rational.specs.Windows.{IsInfOver, IsSupOver};

/// The numbers are totally and densely ordered.
pub fn order()
    ensures total { (a b : Rational) → (a <ʳ b) ⊎ (a ≈ b) ⊎ (b <ʳ a) }
    ensures not_both { (a b : Rational) → a ≤ʳ b → ¬ (b <ʳ a) }
    ensures antisymmetric { (a b : Rational) → a ≤ʳ b → b ≤ʳ a → a ≈ b }
    ensures transitive { (a b c : Rational) → a ≤ʳ b → b ≤ʳ c → a ≤ʳ c }
    ensures strictly_transitive { (a b c : Rational) → a <ʳ b → b ≤ʳ c → a <ʳ c }
    ensures dense { (a b : Rational) → a <ʳ b → (a <ʳ middle a b) × (middle a b <ʳ b) }
{}

/// What is said of a number does not depend on the pair that it is written by.
pub fn pairs()
    ensures same_again { (a b c : Rational) → a ≈ b → b ≈ c → a ≈ c }
    ensures order { (a b c d : Rational) → a ≈ b → c ≈ d → a ≤ʳ c → b ≤ʳ d }
    ensures sum { (a b c d : Rational) → a ≈ b → c ≈ d → add a c ≈ add b d }
    ensures product { (a b c d : Rational) → a ≈ b → c ≈ d → multiply a c ≈ multiply b d }
    ensures negative { (a b : Rational) → a ≈ b → negate a ≈ negate b }
    ensures value { (f : Line) (t u : Rational) → t ≈ u → at f t ≈ at f u }
    ensures moved { (t u : Rational) (k : ℤ) → t ≈ u → shifted t k ≈ shifted u k }
    ensures later { (t u : Rational) (k : ℕ) → t ≈ u → later t k ≈ later u k }
    ensures multiple { (t u : Rational) (k : ℤ) → t ≈ u → times k t ≈ times k u }
    ensures interval { (on : Interval) (t u : Rational) → t ≈ u → IsIn on t → IsIn on u }
{}

/// Each number has one denominator in lowest terms.
pub fn lowest_terms()
    ensures one { (a : Rational) → (d : ℕ) × HasDenominator a d }
    ensures no_other { (a b : Rational) (d e : ℕ) → a ≈ b → HasDenominator a d → HasDenominator b e → d ≡ e }
{}

/// Sums and products are those of a field, with the order.
pub fn field()
    ensures sums { (a b c : Rational) → (add a b ≈ add b a) × (add (add a b) c ≈ add a (add b c)) }
    ensures zero { (a : Rational) → (add a (whole (pos 0)) ≈ a) × (add a (negate a) ≈ whole (pos 0)) }
    ensures products { (a b c : Rational) → (multiply a b ≈ multiply b a) × (multiply (multiply a b) c ≈ multiply a (multiply b c)) }
    ensures one { (a : Rational) → multiply a (whole (pos 1)) ≈ a }
    ensures inverse { (a : Rational) → whole (pos 0) <ʳ a → (b : Rational) × (multiply a b ≈ whole (pos 1)) }
    ensures distributes { (a b c : Rational) → multiply a (add b c) ≈ add (multiply a b) (multiply a c) }
    ensures sums_in_order { (a b c d : Rational) → a ≤ʳ b → c ≤ʳ d → add a c ≤ʳ add b d }
    ensures products_in_order { (a b c : Rational) → whole (pos 0) <ʳ c → a <ʳ b → multiply c a <ʳ multiply c b }
    ensures negatives_in_order { (a b : Rational) → a ≤ʳ b → negate b ≤ʳ negate a }
{}

/// A line rises, falls or is level, and two points have one line.
pub fn lines()
    ensures slope { (f : Line) → Rises f ⊎ Level f ⊎ Falls f }
    ensures rising { (f : Line) (t u : Rational) → Rises f → t <ʳ u → at f t <ʳ at f u }
    ensures falling { (f : Line) (t u : Rational) → Falls f → t <ʳ u → at f u <ʳ at f t }
    ensures constant { (f : Line) (t u : Rational) → Level f → at f t ≈ at f u }
    ensures two_points { (l r : Rational) (p : l <ʳ r) (v w : Rational) → (at (through l r p v w) l ≈ v) × (at (through l r p v w) r ≈ w) }
    ensures one_line { (f g : Line) (l r t : Rational) → l <ʳ r → at f l ≈ at g l → at f r ≈ at g r → at f t ≈ at g t }
    ensures ramp { (t0 v0 rise : ℤ) (run : ℕ) (p : 0 < run) (t : Rational)
        → at (ramp_line t0 v0 rise run p) t ≈ add (whole v0) (multiply (ratio rise run p) (subtract t (whole t0))) }
    ensures difference { (f g : Line) (t : Rational) → at (gap_line f g) t ≈ subtract (at f t) (at g t) }
{}

/// Two lines meet at most once, or are parallel; between two times they cross exactly where their order turns over.
pub fn meetings()
    ensures once { (f g : Line) (t : Rational) → ¬ (AreParallel f g) → at f t ≈ at g t → MeetAt f g t }
    ensures parallels { (f g : Line) (t u : Rational) → AreParallel f g → at f t ≈ at g t → at f u ≈ at g u }
    ensures crossed { (f g : Line) (l r t : Rational) → l <ʳ r → at f l <ʳ at g l → at g r <ʳ at f r → MeetAt f g t → CrossAt f g l r t }
    ensures not_crossed { (f g : Line) (l r t : Rational) → l <ʳ r → at f l ≤ʳ at g l → at f r ≤ʳ at g r → ¬ (CrossAt f g l r t) }
{}

/// A set of values has at most one Sup and one Inf.
pub fn one_sup()
    ensures sup { (P : Extended → Bool) (lowest r s : Extended) → IsSup lowest (λ v. IsTrue (P v)) r → IsSup lowest (λ v. IsTrue (P v)) s → r ≈ᵉ s }
    ensures inf { (P : Extended → Bool) (highest r s : Extended) → IsInf highest (λ v. IsTrue (P v)) r → IsInf highest (λ v. IsTrue (P v)) s → r ≈ᵉ s }
{}

/// Over an open gap a line has the greater of its values at the ends for its Sup, and the lesser for its Inf, though it
/// reaches neither unless it is level.
pub fn sup_of_a_line()
    ensures sup { (f : Line) (l r : Rational) (s : Extended) → l <ʳ r → IsGreatest (finite (at f l)) (finite (at f r)) s
        → IsSupOver minus_infinity (IsIn (gap l r)) (Passes (affine f)) s }
    ensures inf { (f : Line) (l r : Rational) (s : Extended) → l <ʳ r → IsLeast (finite (at f l)) (finite (at f r)) s
        → IsInfOver infinity (IsIn (gap l r)) (Passes (affine f)) s }
    ensures sup_not_reached { (f : Line) (l u r : Rational) (s : Extended) → ¬ (Level f) → IsIn (gap l r) u
        → IsGreatest (finite (at f l)) (finite (at f r)) s → finite (at f u) <ᵉ s }
    ensures inf_not_reached { (f : Line) (l u r : Rational) (s : Extended) → ¬ (Level f) → IsIn (gap l r) u
        → IsLeast (finite (at f l)) (finite (at f r)) s → s <ᵉ finite (at f u) }
{}
