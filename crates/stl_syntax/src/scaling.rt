//! A formula in smaller ticks.
ghost use Rattle.std.specs.Prelude.{◌≡◌, ◌⊎◌, ◌<◌, ◌≤◌, ◌*◌, ◌-◌, ◌^◌, false, length, map, position, sum_by, All, IfSome, IfOk, IfErr, Err};
ghost use Rattle.stl_syntax.specs.Binding.{IsUnitFault};
ghost use Rattle.stl_syntax.specs.Limits.{own_reach, reach};
ghost use Rattle.stl_syntax.specs.Scaling.{scaled, scaled_node, has_large_constant};
ghost use Rattle.stl_syntax.specs.WellFormed.{HasBounds, IsScale};
ghost use Rattle.stl_syntax.specs.declared.scale.UnitFault.{UnitFault};

use crate::{Formula, Node, Scale, UnitFault};
use std::alloc::AllocError;

/// The longest reach of a formula, in ticks.
const LONGEST_REACH: u64 = 4_294_967_295;

impl Formula {
    /// The same formula with its numbers in ticks of `to`, which has at least as many digits as its own scale.
    ///
    /// It is refused where a number passes its limit in the new ticks: at the first node with such a constant, or else where
    /// the reach does.
    ///
    /// # Errors
    ///
    /// `Constant` at the first node whose constant passes its limit in the new ticks; `Reach` where none does and the bounds
    /// sum to more than a horizon may have; `Memory` where memory is wanting.
    pub fn scaled(&self, to: Scale) -> Result<Formula, UnitFault>
        requires time { self.now.scale.time ≤ to.time }
        requires value { self.now.scale.value ≤ to.value }
        requires scale { IsScale to }
        ensures ok { IfOk result (λ f. f ≡ scaled self.now to) }
        ensures fault { IfErr result (λ e. (e ≡ UnitFault.Memory) ⊎ IsUnitFault self.now to e) }
        ensures refused { (e : UnitFault) → IsUnitFault self.now to e → (result ≡ Err e) ⊎ (result ≡ Err UnitFault.Memory) }
    {
        let nodes = self.nodes();
        let time = ticks_in_tick(self.scale().time, to.time);
        let value = ticks_in_tick(self.scale().value, to.value);
        if let Some(place) = first_large_constant(nodes, value) {
            return Err(UnitFault::Constant { node: place as u32 });
        }
        let sum = total_reach(nodes) * u64::from(time);
        if sum > LONGEST_REACH {
            return Err(UnitFault::Reach { sum });
        }
        match scaled_nodes(nodes, time, value) {
            Ok(nodes) => Ok(Formula::of(nodes, to)),
            Err(_) => Err(UnitFault::Memory),
        }
    }
}

/// How many ticks of the scale with the digits `to` a tick of that with the digits `from` has.
fn ticks_in_tick(from: u8, to: u8) -> u32
    requires fewer { from ≤ to }
    requires few { to ≤ 6 }
    ensures count { result ≡ 10 ^ (to - from) }
    ensures most { result ≤ 1000000 }
{
    10u32.pow(u32::from(to - from))
}

/// The place of the first constant that passes its limit when it is multiplied by `value`.
fn first_large_constant(nodes: &[Node], value: u32) -> Option<usize>
    ensures place { result ≡ position (has_large_constant value) nodes.now }
    ensures within { IfSome result (λ i. i < length nodes.now) }
{
    nodes.iter().position(|node| node.has_large_constant(value))
}

/// The reach of the nodes.
fn total_reach(nodes: &[Node]) -> u64
    requires { reach nodes.now ≤ 4294967295 }
    ensures { result ≡ reach nodes.now }
{
    nodes.iter().map(|node| u64::from(node.own_reach())).sum()
}

/// The nodes with their bounds times `time` and their constants times `value`.
fn scaled_nodes(nodes: &Vec<Node>, time: u32, value: u32) -> Result<Vec<Node>, AllocError>
    requires bounds { All HasBounds nodes.now.items }
    requires constants { All (λ n. has_large_constant value n ≡ false) nodes.now.items }
    requires reach { time * reach nodes.now.items ≤ 4294967295 }
    ensures { IfOk result (λ v. v.items ≡ map (scaled_node time value) nodes.now.items) }
{
    let mut scaled = copied(nodes)?;
    scale_nodes(&mut scaled, time, value);
    Ok(scaled)
}

/// A copy of the nodes.
fn copied(nodes: &Vec<Node>) -> Result<Vec<Node>, AllocError>
    ensures { IfOk result (λ v. v.items ≡ nodes.now.items) }
{
    nodes.clone()
}

/// Multiplies the bounds by `time` and the constants by `value`.
fn scale_nodes(nodes: &mut [Node], time: u32, value: u32)
    requires bounds { All HasBounds nodes.old }
    requires constants { All (λ n. has_large_constant value n ≡ false) nodes.old }
    requires reach { time * reach nodes.old ≤ 4294967295 }
    ensures { nodes.new ≡ map (scaled_node time value) nodes.old }
{
    for node in nodes.iter_mut() {
        node.scale(time, value);
    }
}
