//! Which certainty of each node helps the formula to be certainly false, and which node stands above it.
ghost use Rattle.std.specs.Prelude.{◌≡◌, ◌≢◌, ◌<◌, ℕ, length, Some, IfOk, IfSome};
ghost use Rattle.stl_syntax.specs.Cells.{IsChild};
ghost use Rattle.stl_syntax.specs.Formula.{HasChildrenBelow};
ghost use Rattle.stl_syntax.specs.Views.{first_of, second_of, view_of};
ghost use Rattle.implicants.specs.Signs.{AreApart, AreSigned, AreSigns, first_sign, sign_at};

use crate::keeping::all_false;
use frac128::Memory;
use std::alloc::Global;
use stl_syntax::{Formula, Join, Node, View};

/// The sign of the first operand of a node that has this one.
fn first_sign(view: View, sign: bool) -> bool
    ensures { result ≡ first_sign view sign }
{
    match view {
        View::Not(_) | View::Two(Join::Implies, _, _) => !sign,
        _ => sign,
    }
}

/// Puts the sign of the node at the place, where there is one.
fn put_sign(place: Option<u32>, sign: bool, signs: &mut Vec<bool>)
    requires { IfSome place (λ p. p < length signs.old.items) }
    ensures count { length signs.new.items ≡ length signs.old.items }
    ensures put { IfSome place (λ p. sign_at signs.new.items p ≡ sign) }
    ensures others { (k : ℕ) → place ≢ Some k → sign_at signs.new.items k ≡ sign_at signs.old.items k }
{
    if let Some(p) = place {
        signs[p as usize] = sign;
    }
}

/// Puts the signs of the operands of a node that has this one.
fn put_signs(node: &Node, sign: bool, signs: &mut Vec<bool>)
    requires below { HasChildrenBelow (length signs.old.items) node.now }
    requires apart { AreApart (first_of (view_of node.now)) (second_of (view_of node.now)) }
    ensures count { length signs.new.items ≡ length signs.old.items }
    ensures signed { AreSigned signs.new.items node.now sign }
    ensures others { (k : ℕ) → ¬ IsChild node.now k → sign_at signs.new.items k ≡ sign_at signs.old.items k }
{
    let (first, second) = node.inputs();
    put_sign(first, first_sign(node.view(), sign), signs);
    put_sign(second, sign, signs);
}

/// The sign of each node: whether it helps the formula to be certainly false that the node is certainly true, or certainly false.
pub(crate) fn signs_of(alloc: Global, formula: &Formula) -> Result<Vec<bool>, Memory>
    ensures { IfOk result (λ signs. AreSigns formula.now.nodes signs.items) }
{
    let count = formula.len();
    let mut signs = all_false(alloc, count as usize)?;
    let mut j = count;
    while j > 0 {
        j -= 1;
        let sign = signs[j as usize];
        put_signs(formula.node(j), sign, &mut signs);
    }
    Ok(signs)
}

/// Puts a place, where it is one.
fn put_above(above: &mut Vec<u32>, p: Option<u32>, j: u32) {
    if let Some(p) = p {
        if (p as usize) < above.len() {
            above[p as usize] = j;
        }
    }
}

/// The place above each node. Nothing is claimed of it: it is looked at anew where it is used.
pub(crate) fn places_above(alloc: Global, formula: &Formula) -> Result<Vec<u32>, Memory> {
    let count = formula.len();
    let Ok(mut above) = vec![in alloc; 0; count as usize] else {
        return Err(Memory);
    };
    for j in 0..count {
        let (left, right) = formula.node(j).inputs();
        put_above(&mut above, left, j);
        put_above(&mut above, right, j);
    }
    Ok(above)
}
