//! A formula: its nodes in post-order, the root last, and its scale.
ghost use Rattle.std.specs.Prelude.{◌≡◌, ◌<◌, ◌≤◌, ◌^◌, length, slice_get, Some, IfOk};

use crate::horizon::last_horizon;
use crate::{Node, Scale};
use frac128::Memory;
use std::marker::Model;

/// A formula of signal temporal logic: 1 to 256 nodes in post-order, each but the last, the root, used once as a child.
///
/// Its numbers are ticks of its scale, and all are within the limits of the language.
#[derive(Clone, Drop)]
pub struct Formula {
    nodes: Vec<Node>,
    scale: Scale,
}

impl Model for Formula {
    ghost use Rattle.stl_syntax.specs.Formula.{Formula};
    ghost use Rattle.stl_syntax.specs.WellFormed.{IsWellFormed};

    ghost Value = { Formula };

    ghost view = { λ f. record { nodes = f.nodes.items; scale = f.scale } };

    ghost invariant = { λ f. IsWellFormed (record { nodes = f.nodes.items; scale = f.scale }) };
}

impl Formula {
    ghost use Rattle.stl_syntax.specs.Formula.{root, subformula, tree_of, horizon, HasChildrenBelow};
    ghost use Rattle.stl_syntax.specs.Limits.{reach};
    ghost use Rattle.stl_syntax.specs.WellFormed.{AreWellFormed, HasBounds, HasOneRoot, IsScale, IsWellFormed};

    pub(crate) fn of(nodes: Vec<Node>, scale: Scale) -> Formula
        requires some { 0 < length nodes.items }
        requires nodes { AreWellFormed nodes.items }
        requires root { HasOneRoot nodes.items }
        requires scale { IsScale scale }
        ensures nodes { result.nodes ≡ nodes.items }
        ensures scale { result.scale ≡ scale }
    {
        Formula { nodes, scale }
    }

    /// The formula once more.
    ///
    /// # Errors
    /// Want of memory.
    pub fn copied(&self) -> Result<Formula, Memory>
        ensures { IfOk result (λ f. f ≡ self.now) }
    {
        Ok(self.clone()?)
    }

    /// The nodes in post-order.
    pub(crate) fn nodes(&self) -> &Vec<Node>
        ensures nodes { result.now.items ≡ self.now.nodes }
        ensures well_formed { IsWellFormed self.now }
    {
        &self.nodes
    }

    /// How many nodes the formula has.
    pub fn len(&self) -> u32
        ensures count { result ≡ length self.now.nodes }
        ensures well_formed { IsWellFormed self.now }
    {
        self.nodes.len() as u32
    }

    /// The node at place `i` in post-order; its children stand before it.
    pub fn node(&self, i: u32) -> &Node
        requires { i < length self.now.nodes }
        ensures node { slice_get self.now.nodes i ≡ Some result.now }
        ensures below { HasChildrenBelow i result.now }
        ensures subformula { subformula self.now.nodes i ≡ tree_of (subformula self.now.nodes) i result.now }
        ensures bounds { HasBounds result.now }
        ensures horizon { horizon (subformula self.now.nodes i) ≤ reach self.now.nodes }
    {
        &self.nodes[i as usize]
    }

    /// The ticks in which the formula's numbers are counted.
    pub fn scale(&self) -> Scale
        ensures scale { result ≡ self.now.scale }
        ensures digits { IsScale result }
    {
        self.scale
    }

    /// How far after a time, in ticks, a trace must reach before the truth at that time is known.
    pub fn horizon(&self) -> u64
        ensures horizon { result ≡ horizon (root self.now.nodes) }
        ensures small { result < 2 ^ 32 }
    {
        last_horizon(&self.nodes)
    }
}
