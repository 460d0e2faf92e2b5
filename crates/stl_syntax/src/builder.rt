//! Formulas from nodes in post-order, one after another.
ghost use Rattle.std.specs.Prelude.{◌≡◌, ◌<◌, ◌≤◌, ◌++◌, ◌∷◌, [], ℕ, List, length, IfOk, OnErr};
ghost use Rattle.stl_syntax.specs.Limits.{reach};
ghost use Rattle.stl_syntax.specs.PostOrder.{children, unused, MayFollow};
ghost use Rattle.stl_syntax.specs.WellFormed.{HasBounds, HasOneRoot, IsScale};

use crate::{Formula, Node, Scale};
use frac128::Memory;
use std::alloc::Global;
use std::marker::Model;

/// The nodes of a formula that is being built, in post-order.
#[derive(Drop)]
pub struct FormulaBuilder {
    nodes: Vec<Node>,
}

impl Model for FormulaBuilder {
    ghost use Rattle.std.specs.Prelude.{List};
    ghost use Rattle.stl_syntax.specs.WellFormed.{AreWellFormed};
    ghost use Rattle.stl_syntax.specs.declared.node.Node.{Node};

    ghost Value = { List Node };

    ghost view = { λ b. b.nodes.items };

    ghost invariant = { λ b. AreWellFormed b.nodes.items };
}

impl FormulaBuilder {
    /// No nodes yet; it takes no memory.
    pub fn new(alloc: Global) -> FormulaBuilder
        ensures nodes { result ≡ [] }
        ensures unused { unused result ≡ [] }
    {
        FormulaBuilder {
            nodes: Vec::new(alloc),
        }
    }

    /// Appends the node and answers its place; without memory for it the nodes stay as they were.
    ///
    /// The node's children are the last places that are not used yet, the left one before the right one; then its own place
    /// is the last one.
    ///
    /// # Errors
    ///
    /// `Memory` where memory is wanting; the nodes stay as they were.
    pub fn add(&mut self, node: Node) -> Result<u32, Memory>
        requires few { length self.old < 256 }
        requires children { MayFollow self.old node }
        requires bounds { HasBounds node }
        requires reach { reach (self.old ++ node ∷ []) ≤ 4294967295 }
        ensures place { IfOk result (λ i. i ≡ length self.old) }
        ensures added { IfOk result (λ _. self.new ≡ self.old ++ node ∷ []) }
        ensures unused { IfOk result (λ i. (others : List ℕ)
            → unused self.old ≡ others ++ children node → unused self.new ≡ others ++ i ∷ []) }
        ensures err { OnErr result (self.new ≡ self.old) }
    {
        let place = self.nodes.len() as u32;
        node.keeps_limits();
        self.nodes.push(node)?;
        Ok(place)
    }

    /// The formula of these nodes, with its numbers in ticks of `scale`.
    pub fn finish(self, scale: Scale) -> Formula
        requires root { HasOneRoot self }
        requires scale { IsScale scale }
        ensures nodes { result.nodes ≡ self }
        ensures scale { result.scale ≡ scale }
    {
        let FormulaBuilder { nodes } = self;
        Formula::of(nodes, scale)
    }
}
