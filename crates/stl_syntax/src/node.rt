//! The nodes of a formula.
ghost use Rattle.std.specs.Prelude.{◌≡◌, ◌≤◌, ◌*◌, false, option_map};
ghost use Rattle.stl_syntax.specs.Limits.{own_reach, reach_of_bound};
ghost use Rattle.stl_syntax.specs.Scaling.{scaled_node, has_large_constant};
ghost use Rattle.stl_syntax.specs.WellFormed.{IsLeafInLimits, HasBounds, IsInOrder};

use crate::Atom;
use std::alloc::AllocError;

/// A node of a formula; its children are named by their places in post-order.
#[derive(Drop)]
pub enum Node {
    Const(bool),
    Atom(Atom),
    Not(u32),
    And(u32, u32),
    Or(u32, u32),
    Implies(u32, u32),
    Until {
        left: u32,
        right: u32,
        low: u32,
        high: u32,
    },
    Eventually {
        of: u32,
        low: u32,
        high: u32,
        low_in: bool,
        high_in: bool,
    },
    Always {
        of: u32,
        low: u32,
        high: u32,
        low_in: bool,
        high_in: bool,
    },
    Since {
        left: u32,
        right: u32,
        low: u32,
        high: Option<u32>,
    },
    Once {
        of: u32,
        low: u32,
        high: Option<u32>,
        low_in: bool,
        high_in: bool,
    },
    Historically {
        of: u32,
        low: u32,
        high: Option<u32>,
        low_in: bool,
        high_in: bool,
    },
}

impl Clone for Node {
    ghost is_clone = { λ x y. y ≡ x };

    #[rattlefmt::skip]
    fn clone(&self) -> Result<Node, AllocError> {
        Ok(match *self {
            Node::Const(holds) => Node::Const(holds),
            Node::Atom(ref atom) => Node::Atom(atom.clone()?),
            Node::Not(of) => Node::Not(of),
            Node::And(left, right) => Node::And(left, right),
            Node::Or(left, right) => Node::Or(left, right),
            Node::Implies(left, right) => Node::Implies(left, right),
            Node::Until { left, right, low, high } => Node::Until { left, right, low, high },
            Node::Eventually { of, low, high, low_in, high_in } => Node::Eventually { of, low, high, low_in, high_in },
            Node::Always { of, low, high, low_in, high_in } => Node::Always { of, low, high, low_in, high_in },
            Node::Since { left, right, low, high } => Node::Since { left, right, low, high },
            Node::Once { of, low, high, low_in, high_in } => Node::Once { of, low, high, low_in, high_in },
            Node::Historically { of, low, high, low_in, high_in } => Node::Historically { of, low, high, low_in, high_in },
        })
    }
}

impl Node {
    /// An atom keeps its limits, so its node does.
    pub(crate) fn keeps_limits(&self)
        ensures { IsLeafInLimits self.now }
    {
        if let Node::Atom(atom) = self {
            let _ = atom.terms();
        }
    }

    /// What the node adds to the reach of its formula: its upper bound, or the lower one where the upper one is infinite.
    pub(crate) fn own_reach(&self) -> u32
        ensures { result ≡ own_reach self.now }
    {
        match self {
            Node::Const(_)
            | Node::Atom(_)
            | Node::Not(_)
            | Node::And(..)
            | Node::Or(..)
            | Node::Implies(..) => 0,
            Node::Until { high, .. } | Node::Eventually { high, .. } | Node::Always { high, .. } =>
                *high,
            Node::Since { low, high, .. }
            | Node::Once { low, high, .. }
            | Node::Historically { low, high, .. } => high.unwrap_or(*low),
        }
    }

    /// Whether a constant, times `value`, passes its limit.
    pub(crate) fn has_large_constant(&self, value: u32) -> bool
        ensures { result ≡ has_large_constant value self.now }
    {
        match self {
            Node::Atom(atom) => u64::from(atom.limit().unsigned_abs()) * u64::from(value)
                > 1_073_741_824,
            _ => false,
        }
    }

    /// Multiplies the bounds by `time` and a constant by `value`.
    pub(crate) fn scale(&mut self, time: u32, value: u32)
        requires bounds { HasBounds self.old }
        requires constant { has_large_constant value self.old ≡ false }
        requires reach { time * own_reach self.old ≤ 4294967295 }
        ensures { self.new ≡ scaled_node time value self.old }
    {
        match self {
            Node::Atom(atom) => atom.scale(value),
            Node::Until { low, high, .. } => scale_bounds(low, high, time),
            Node::Eventually { low, high, .. } => scale_bounds(low, high, time),
            Node::Always { low, high, .. } => scale_bounds(low, high, time),
            Node::Since { low, high, .. } => scale_past_bounds(low, high, time),
            Node::Once { low, high, .. } => scale_past_bounds(low, high, time),
            Node::Historically { low, high, .. } => scale_past_bounds(low, high, time),
            _ => {}
        }
    }
}

/// Multiplies both bounds by `time`.
fn scale_bounds(low: &mut u32, high: &mut u32, time: u32)
    requires bounds { low.old ≤ high.old }
    requires reach { time * high.old ≤ 4294967295 }
    ensures low { low.new ≡ time * low.old }
    ensures high { high.new ≡ time * high.old }
{
    *low *= time;
    *high *= time;
}

/// Multiplies the lower bound, and the upper one where it is finite, by `time`.
fn scale_past_bounds(low: &mut u32, high: &mut Option<u32>, time: u32)
    requires bounds { IsInOrder low.old high.old }
    requires reach { time * reach_of_bound low.old high.old ≤ 4294967295 }
    ensures low { low.new ≡ time * low.old }
    ensures high { high.new ≡ option_map (λ b. time * b) high.old }
{
    if let Some(high) = high {
        *high *= time;
    }
    *low *= time;
}
