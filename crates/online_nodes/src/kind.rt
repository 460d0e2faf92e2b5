//! What an operator does, by its node.

ghost use Rattle.std.specs.Prelude.{◌≡◌, ◌≤ℤ◌, ◌+◌, ◌*◌, ◌<◌, ◌^◌, ◌-◌, min, length, negsuc, pos, IfSome, Some};
ghost use Rattle.online_nodes.specs.Network.{least, moved_by, same_front};
ghost use Rattle.online_nodes.specs.Held.{Held, held_at, number_at};
ghost use Rattle.stl_syntax.specs.Views.{IsNear as IsNearBy, IsNearView};
ghost use Rattle.online_nodes.specs.Operators.{kind_by, kind_of, reach_by, seeks_of, window_by};
ghost use Rattle.online_nodes.specs.Kinds.{allowed_by, all_stand_at, held_in, keeps_marks, open_by, inputs_of, AreInputs, AreNear};

use crate::edges::Edges;
use crate::join::Inputs;
use crate::since::Since;
use crate::until::Until;
use crate::window::Window;
use stl_syntax::{Asks, Join, Node, Offsets, View, Way};

/// What an operator does with its inputs.
#[derive(Clone, Copy)]
pub(crate) enum Kind {
    Const(bool),
    Not(u32),
    Join(Join, Inputs),
    Over(Window),
    Until(Until),
    Since(Since),
}

/// Later than every row: so long counts what a window that has no beginning found.
pub(crate) const FOR_EVER: i64 = 8_589_934_592;

/// The window of an operator that looks at its operand over these offsets, for a time at which it holds or fails, as `seeks` says.
fn window_of(of: u32, w: &Offsets, seeks: bool) -> Window
    requires { IsNearBy w.now }
    ensures { result ≡ window_by of w.now seeks }
{
    let end_by = match w.low {
        Some(low) => -low,
        None => FOR_EVER,
    };
    Window {
        of,
        begin_by: -w.high,
        begin_in: w.high_in,
        end_by,
        end_in: w.low_in,
        seeks,
    }
}

/// Which truth of its operand a window seeks.
fn seeks_of(asks: Asks) -> bool
    ensures { result ≡ seeks_of asks }
{
    match asks {
        Asks::Any => true,
        Asks::Each => false,
    }
}

/// What the operator of an until or a since does.
fn kind_of_reach(way: Way, window: Window, right: u32) -> Kind
    ensures { result ≡ reach_by way window right }
{
    match way {
        Way::Until => Kind::Until(Until { window, right }),
        Way::Since => Kind::Since(Since { window, right }),
    }
}

/// What the operator of a view does. Atoms have none; theirs says false.
fn kind_of_view(view: View) -> Kind
    requires { IsNearView view }
    ensures { result ≡ kind_by view }
{
    match view {
        View::Const(holds) => Kind::Const(holds),
        View::Atom => Kind::Const(false),
        View::Not(of) => Kind::Not(of),
        View::Two(join, left, right) => Kind::Join(join, Inputs { left, right }),
        View::Over(asks, w, of) => Kind::Over(window_of(of, &w, seeks_of(asks))),
        View::Reach(way, w, left, right) => kind_of_reach(way, window_of(left, &w, true), right),
    }
}

/// What the operator of a node does.
pub(crate) fn kind_of_node(node: &Node) -> Kind
    ensures { result ≡ kind_of node.now }
{
    kind_of_view(node.view())
}

/// The lesser of two numbers; nothing where one is nothing.
pub(crate) fn least_of(f: Option<i64>, g: Option<i64>) -> Option<i64>
    ensures { result ≡ least f g }
{
    let f = f?;
    let g = g?;
    if g < f { Some(g) } else { Some(f) }
}

/// The number moved by `by`.
pub(crate) fn moved(f: Option<i64>, by: i64) -> Option<i64>
    requires far { IfSome f (λ n. (negsuc 1099511627775 ≤ℤ n) × (n ≤ℤ pos 1099511627776)) }
    requires low { negsuc 1099511627775 ≤ℤ by }
    requires high { by ≤ℤ pos 1099511627776 }
    ensures { result ≡ moved_by by f }
{
    let f = f?;
    Some(f + by)
}

/// Whether both are nothing, or one number.
pub(crate) fn is_same(f: Option<i64>, g: Option<i64>) -> bool
    ensures { result ≡ same_front f g }
{
    match (f, g) {
        (Some(f), Some(g)) => f == g,
        (None, None) => true,
        _ => false,
    }
}

/// Whether a number is the last row's time.
fn stands_at(f: Option<i64>, now: u32) -> bool
    ensures { result ≡ same_front f (Some (pos now)) }
{
    is_same(f, Some(i64::from(now)))
}

impl Kind {
    /// Whether something is kept in mind of the inputs between steps: for windows, until and since.
    #[inline(always)]
    pub(crate) fn keeps_marks(&self) -> bool
        ensures { result ≡ keeps_marks self.now }
    {
        match self {
            Kind::Const(_) | Kind::Not(_) | Kind::Join(_, _) => false,
            Kind::Over(_) | Kind::Until(_) | Kind::Since(_) => true,
        }
    }

    /// Whether all inputs stand at the last row's time.
    fn all_stand_at(self, edges: &Edges, now: u32) -> bool
        requires { AreInputs self (length edges.now.edges) }
        ensures { result ≡ all_stand_at edges.now now (inputs_of self) }
    {
        match self {
            Kind::Const(_) => true,
            Kind::Not(of) => stands_at(edges.number(of), now),
            Kind::Over(window) => stands_at(edges.number(window.of), now),
            Kind::Join(_, inputs) => {
                stands_at(edges.number(inputs.left), now)
                    && stands_at(edges.number(inputs.right), now)
            }
            Kind::Until(until) => {
                stands_at(edges.number(until.window.of), now)
                    && stands_at(edges.number(until.right), now)
            }
            Kind::Since(since) => {
                stands_at(edges.number(since.window.of), now)
                    && stands_at(edges.number(since.right), now)
            }
        }
    }

    /// The number that the node may have before the end is known.
    fn open_number(self, edges: &Edges, now: u32) -> Option<i64>
        requires inputs { AreInputs self (length edges.now.edges) }
        requires near { AreNear self edges.now }
        ensures { result ≡ open_by self edges.now now }
    {
        let last = Some(i64::from(now));
        match self {
            Kind::Const(_) => last,
            Kind::Not(of) => edges.number(of),
            Kind::Join(_, inputs) => {
                least_of(edges.number(inputs.left), edges.number(inputs.right))
            }
            Kind::Over(window) => {
                least_of(moved(edges.number(window.of), window.begin_by), last)
            }
            Kind::Until(until) => {
                let both = least_of(edges.number(until.window.of), edges.number(until.right));
                moved(both, until.window.begin_by)
            }
            Kind::Since(since) => {
                let right = moved(edges.number(since.right), since.window.begin_by);
                least_of(edges.number(since.window.of), right)
            }
        }
    }

    /// The number that the node may have.
    pub(crate) fn allowed(self, edges: &Edges, now: u32, ended: bool) -> Option<i64>
        requires inputs { AreInputs self (length edges.now.edges) }
        requires near { AreNear self edges.now }
        ensures { result ≡ allowed_by self edges.now now ended }
    {
        if ended && self.all_stand_at(edges, now) {
            return Some(i64::from(now));
        }
        self.open_number(edges, now)
    }

    /// Room for all that a step can put: twice what the inputs hold, plus 2, as far as it can be counted.
    pub(crate) fn room(self, edges: &Edges) -> usize
        requires { AreInputs self (length edges.now.edges) }
        ensures { result ≡ min (2 * held_in edges.now (inputs_of self) + 2) (2 ^ 64 - 1) }
    {
        let held = match self {
            Kind::Const(_) => 0,
            Kind::Not(of) => edges.held(of),
            Kind::Over(window) => edges.held(window.of),
            Kind::Join(_, inputs) => both_held(edges, inputs.left, inputs.right),
            Kind::Until(until) => both_held(edges, until.window.of, until.right),
            Kind::Since(since) => both_held(edges, since.window.of, since.right),
        };
        held.saturating_mul(2).saturating_add(2)
    }
}

/// How many verdicts two edges hold, as far as they can be counted.
fn both_held(edges: &Edges, left: u32, right: u32) -> usize
    requires left { left < length edges.now.edges }
    requires right { right < length edges.now.edges }
    ensures { result ≡ min (length (held_at edges.now left) + length (held_at edges.now right)) (2 ^ 64 - 1) }
{
    edges.held(left).saturating_add(edges.held(right))
}
