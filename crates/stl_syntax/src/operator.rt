//! What a node shows of itself: its word, its window and its operands, and its view, that is what it does with these.
ghost use Rattle.std.specs.Prelude.{◌≡◌, ◌++◌, option_to_list};
ghost use Rattle.stl_syntax.specs.PostOrder.{children};
ghost use Rattle.stl_syntax.specs.Printing.{word_of, window_of, operands_of, are_two};
ghost use Rattle.stl_syntax.specs.Views.{IsNear, IsNearView, ahead, behind, first_of, second_of, view_of};

use crate::Node;

/// The window of a temporal operator, from a lower bound to an upper one or without an end.
#[derive(Clone, Copy)]
pub(crate) struct Window {
    pub(crate) low: u32,
    pub(crate) high: Option<u32>,
    pub(crate) low_in: bool,
    pub(crate) high_in: bool,
}

/// The places of a node's operands.
#[derive(Clone, Copy)]
pub(crate) enum Operands {
    Nothing,
    One(u32),
    Two(u32, u32),
}

/// How a connective joins its operands.
#[derive(Clone, Copy)]
pub enum Join {
    And,
    Or,
    Implies,
}

/// Of which times in its window an operator asks that its operand holds there.
#[derive(Clone, Copy)]
pub enum Asks {
    Any,
    Each,
}

/// Which way an operator with a window has two operands.
#[derive(Clone, Copy)]
pub enum Way {
    Until,
    Since,
}

/// From a time a window goes from `low` to `high` ticks after it, each end in or out; without `low` it has no beginning. Behind, these are
/// at or below 0.
#[derive(Clone, Copy)]
pub struct Offsets {
    pub low: Option<i64>,
    pub high: i64,
    pub low_in: bool,
    pub high_in: bool,
}

/// What a node does with its operands, which are named by their places.
#[derive(Clone, Copy)]
pub enum View {
    Const(bool),
    Atom,
    Not(u32),
    Two(Join, u32, u32),
    /// What one operand is at the times of a window.
    Over(Asks, Offsets, u32),
    /// That the second operand holds at some time of a window, and the first one up to there.
    Reach(Way, Offsets, u32, u32),
}

/// The offsets of a window ahead.
fn ahead(low: u32, high: u32, low_in: bool, high_in: bool) -> Offsets
    ensures offsets { result ≡ ahead low high low_in high_in }
    ensures near { IsNear result }
{
    Offsets {
        low: Some(i64::from(low)),
        high: i64::from(high),
        low_in,
        high_in,
    }
}

/// The offsets of a window behind.
fn behind(low: u32, high: Option<u32>, low_in: bool, high_in: bool) -> Offsets
    ensures offsets { result ≡ behind low high low_in high_in }
    ensures near { IsNear result }
{
    let far_end = match high {
        Some(high) => Some(-i64::from(high)),
        None => None,
    };
    Offsets {
        low: far_end,
        high: -i64::from(low),
        low_in: high_in,
        high_in: low_in,
    }
}

impl View {
    /// The places of the first and the second operand.
    fn inputs(self) -> (Option<u32>, Option<u32>)
        ensures first { result.0 ≡ first_of self }
        ensures second { result.1 ≡ second_of self }
    {
        match self {
            View::Const(_) | View::Atom => (None, None),
            View::Not(of) | View::Over(_, _, of) => (Some(of), None),
            View::Two(_, left, right) | View::Reach(_, _, left, right) => (Some(left), Some(right)),
        }
    }
}

impl Node {
    /// What the node does with its operands, whichever operator it is.
    #[rattlefmt::skip]
    pub fn view(&self) -> View
        ensures view { result ≡ view_of self.now }
        ensures near { IsNearView result }
    {
        match *self {
            Node::Const(holds) => View::Const(holds),
            Node::Atom(_) => View::Atom,
            Node::Not(of) => View::Not(of),
            Node::And(left, right) => View::Two(Join::And, left, right),
            Node::Or(left, right) => View::Two(Join::Or, left, right),
            Node::Implies(left, right) => View::Two(Join::Implies, left, right),
            Node::Until { left, right, low, high } => View::Reach(Way::Until, ahead(low, high, true, true), left, right),
            Node::Eventually { of, low, high, low_in, high_in } => View::Over(Asks::Any, ahead(low, high, low_in, high_in), of),
            Node::Always { of, low, high, low_in, high_in } => View::Over(Asks::Each, ahead(low, high, low_in, high_in), of),
            Node::Since { left, right, low, high } => View::Reach(Way::Since, behind(low, high, true, true), left, right),
            Node::Once { of, low, high, low_in, high_in } => View::Over(Asks::Any, behind(low, high, low_in, high_in), of),
            Node::Historically { of, low, high, low_in, high_in } => View::Over(Asks::Each, behind(low, high, low_in, high_in), of),
        }
    }

    /// The places of the first and the second operand, where the node has them.
    pub fn inputs(&self) -> (Option<u32>, Option<u32>)
        ensures first { result.0 ≡ first_of (view_of self.now) }
        ensures second { result.1 ≡ second_of (view_of self.now) }
        ensures all { option_to_list result.0 ++ option_to_list result.1 ≡ children self.now }
    {
        self.view().inputs()
    }

    /// The word of the node's operator, or of its constant.
    pub(crate) fn word(&self) -> &'static [u8]
        ensures { result.now ≡ word_of self.now }
    {
        match self {
            Node::Const(true) => b"true",
            Node::Const(false) => b"false",
            Node::Atom(_) => b"",
            Node::Not(_) => b"not",
            Node::And(..) => b"and",
            Node::Or(..) => b"or",
            Node::Implies(..) => b"implies",
            Node::Until { .. } => b"until",
            Node::Eventually { .. } => b"eventually",
            Node::Always { .. } => b"always",
            Node::Since { .. } => b"since",
            Node::Once { .. } => b"once",
            Node::Historically { .. } => b"historically",
        }
    }

    /// The operands, the left one first.
    pub(crate) fn operands(&self) -> Operands
        ensures { result ≡ operands_of self.now }
    {
        match self {
            Node::Const(_) | Node::Atom(_) => Operands::Nothing,
            Node::Not(of)
            | Node::Eventually { of, .. }
            | Node::Always { of, .. }
            | Node::Once { of, .. }
            | Node::Historically { of, .. } => Operands::One(*of),
            Node::And(left, right)
            | Node::Or(left, right)
            | Node::Implies(left, right)
            | Node::Until { left, right, .. }
            | Node::Since { left, right, .. } => Operands::Two(*left, *right),
        }
    }

    /// Whether the node has two operands.
    pub(crate) fn has_two_operands(&self) -> bool
        ensures { result ≡ are_two (operands_of self.now) }
    {
        matches!(self.operands(), Operands::Two(..))
    }

    /// The window of a temporal operator; that of until and since is closed.
    pub(crate) fn window(&self) -> Option<Window>
        ensures { result ≡ window_of self.now }
    {
        let (low, high, low_in, high_in) = match self {
            Node::Until { low, high, .. } => (*low, Some(*high), true, true),
            Node::Eventually {
                low,
                high,
                low_in,
                high_in,
                ..
            }
            | Node::Always {
                low,
                high,
                low_in,
                high_in,
                ..
            } => (*low, Some(*high), *low_in, *high_in),
            Node::Since { low, high, .. } => (*low, *high, true, true),
            Node::Once {
                low,
                high,
                low_in,
                high_in,
                ..
            }
            | Node::Historically {
                low,
                high,
                low_in,
                high_in,
                ..
            } => (*low, *high, *low_in, *high_in),
            _ => return None,
        };
        Some(Window {
            low,
            high,
            low_in,
            high_in,
        })
    }
}
