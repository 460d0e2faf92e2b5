//! The parts of a margin over time: points, and the open gaps between them.
ghost use Rattle.std.specs.Prelude.{◌≡◌, ◌^◌};
ghost use Rattle.frac128.specs.Value.{value};
ghost use Rattle.rational.specs.Affine.{HasBoundedLevel};
ghost use Rattle.value_laws.specs.Margins.{margin_function};
ghost use Rattle.online_robust.specs.Lines.{end_of, margin_of, IsNegated, IsPointAgain};

use frac128::Frac;
use node_edges::Part;
use std::cmp::Ordering;
use value_laws::{Margin, Shape};

/// A point with its value, or an open gap with its margin.
#[derive(Clone, Copy, Debug)]
pub enum MarginLine {
    /// At the time the margin is what `value` is there.
    Point { at: Frac, value: Margin },
    /// Between the times the margin is `piece`.
    Gap { from: Frac, to: Frac, piece: Margin },
}

/// The margin of a node at the time up to which it was told.
#[derive(Clone, Copy)]
pub(crate) struct Reached {
    pub(crate) at: Frac,
    pub(crate) value: Margin,
}

impl MarginLine {
    /// The time of a point, and where a gap ends.
    pub(crate) fn end(&self) -> Frac
        ensures { result ≡ end_of self.now }
    {
        match self {
            MarginLine::Point { at, value: _ } => *at,
            MarginLine::Gap {
                from: _,
                to,
                piece: _,
            } => *to,
        }
    }

    /// The margin of the part.
    pub(crate) fn margin(&self) -> Margin
        ensures { result ≡ margin_of self.now }
    {
        match self {
            MarginLine::Point { at: _, value } => *value,
            MarginLine::Gap {
                from: _,
                to: _,
                piece,
            } => *piece,
        }
    }

    /// The part with the negated margin.
    pub(crate) fn neg(&self) -> MarginLine
        requires { HasBoundedLevel (2 ^ 31) (margin_function (margin_of self.now)) }
        ensures { IsNegated self.now result }
    {
        match self {
            MarginLine::Point { at, value } => MarginLine::Point {
                at: *at,
                value: value.neg(),
            },
            MarginLine::Gap { from, to, piece } => MarginLine::Gap {
                from: *from,
                to: *to,
                piece: piece.neg(),
            },
        }
    }
}

/// A point that is told again goes on from the first, and stands for both. No edge of margins joins, so none is.
impl Part for MarginLine {
    ghost end = { λ x. value (end_of x) };

    ghost follows = { IsPointAgain };

    ghost joined = { λ _ second both. both ≡ second };

    #[inline(always)]
    fn ends_by(&self, time: &Frac) -> bool {
        match self.end().cmp(time) {
            Ordering::Less => true,
            Ordering::Equal => true,
            Ordering::Greater => false,
        }
    }

    #[inline(always)]
    fn goes_on(&self, next: &MarginLine) -> bool {
        match (self, next) {
            (
                MarginLine::Point { at, value: _ },
                MarginLine::Point {
                    at: again,
                    value: _,
                },
            ) => at == again,
            _ => false,
        }
    }

    #[inline(always)]
    fn lengthen(&mut self, next: &MarginLine) {
        *self = *next;
    }
}
