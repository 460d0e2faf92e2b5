//! Which formulas have a network of margins.
ghost use Rattle.std.specs.Prelude.{◌≡◌, ℕ, slice_get, MatchBool, MatchOption, Some};
ghost use Rattle.stl_syntax.specs.declared.node.Node.{Node as ANode};
ghost use Rattle.online_nodes.specs.StreamedWide.{IsFirstUnstreamed, IsUnstreamed};

use stl_syntax::{Formula, Node, View};

/// Whether the node has an operator of margins, or needs none: all but until and since.
fn is_streamed(node: &Node) -> bool
    ensures { MatchBool result (¬ IsUnstreamed node.now) (IsUnstreamed node.now) }
{
    match node.view() {
        View::Reach(..) => false,
        _ => true,
    }
}

/// The first node for which there is no operator of margins, an until or a since.
pub fn first_unstreamed(formula: &Formula) -> Option<u32>
    ensures { MatchOption result ((i : ℕ) (n : ANode) → slice_get formula.now.nodes i ≡ Some n → ¬ IsUnstreamed n) (IsFirstUnstreamed formula.now.nodes) }
{
    for i in 0..formula.len() {
        let streamed = is_streamed(formula.node(i));
        if !streamed {
            return Some(i);
        }
    }
    None
}
