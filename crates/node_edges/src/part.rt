//! What lies on an edge.
ghost use Rattle.std.specs.Prelude.{◌↔◌, IsTrue};
ghost use Rattle.rational.specs.Rational.{Rational, ◌≤ʳ◌};
ghost use Rattle.frac128.specs.Value.{value};
ghost use Rattle.node_edges.specs.Verdicts.{GoesOn, IsJoined};

use frac128::Frac;
use std::cmp::Ordering;
use stl_syntax::Verdict;

/// What a node gives out, part by part, each of which ends at some time.
///
/// A part may go on from the one before, so that both can be told as one. Of a kind of which none does, an edge joins nothing.
pub trait Part: Copy {
    /// When it ends.
    ghost end: { Self → Rational };

    /// Whether the second goes on from the first.
    ghost follows: { Self → Self → Type 0 };

    /// Whether the third is the first two, of which the second goes on from the first, as one.
    ghost joined: { Self → Self → Self → Type 0 };

    /// Whether it ends by the time.
    fn ends_by(&self, time: &Frac) -> bool
        ensures { IsTrue result ↔ end self.now ≤ʳ value time.now };

    /// Whether the next one goes on from it.
    fn goes_on(&self, next: &Self) -> bool
        ensures { IsTrue result ↔ follows self.now next.now };

    /// Takes up the next one, which goes on from it.
    fn lengthen(&mut self, next: &Self)
        requires { follows self.old next.now }
        ensures { joined self.old next.now self.new };
}

impl Part for Verdict {
    ghost end = { λ v. value v.on.to };

    ghost follows = { GoesOn };

    ghost joined = { IsJoined };

    #[inline(always)]
    fn ends_by(&self, time: &Frac) -> bool {
        match self.on.to.cmp(time) {
            Ordering::Less => true,
            Ordering::Equal => true,
            Ordering::Greater => false,
        }
    }

    #[inline(always)]
    fn goes_on(&self, next: &Verdict) -> bool {
        self.holds == next.holds && self.on.to_in != next.on.from_in && self.on.to == next.on.from
    }

    #[inline(always)]
    fn lengthen(&mut self, next: &Verdict) {
        self.on.to = next.on.to;
        self.on.to_in = next.on.to_in;
    }
}
