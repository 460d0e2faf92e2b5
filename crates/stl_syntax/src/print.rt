//! The text of a formula.
ghost use Rattle.std.specs.Prelude.{◌≡◌, ◌<◌, ◌≤◌, ◌++◌, List, drop, length, nat_abs, OnOk, IfOk, codes};
ghost use Rattle.stl_syntax.specs.Formula.{subformula};
ghost use Rattle.stl_syntax.specs.Print.{IsPrintedFormula, relation_text, scaled_text, opening, closing, has_two};
ghost use Rattle.stl_syntax.specs.Printing.{minus_text, sign_text, later_terms, sum_text, constant_text, atom_text, upper_text};
ghost use Rattle.stl_syntax.specs.Printing.{bound_text, window_text, operator_text, leaf_text, in_parens, printed};
ghost use Rattle.stl_syntax.specs.PostOrder.{IsPostOrder};
ghost use Rattle.stl_syntax.specs.WellFormed.{IsScale};

use crate::decimals::put_decimal;
use crate::operator::{Operands, Window};
use crate::{Atom, Formula, Node, Rel, Scale, Term, Text};
use frac128::Memory;
use itoa::Buffer;

impl Formula {
    /// The formula's text, with the fewest parentheses and digits: where the grammar accepts it, it stands for this formula.
    ///
    /// # Errors
    ///
    /// `Memory` where memory is wanting.
    pub fn print(&self) -> Result<Text, Memory>
        ensures { IfOk result (IsPrintedFormula self.now) }
    {
        let nodes = self.nodes();
        let mut text = Text::new(*nodes.allocator());
        put_node(&mut text, nodes, self.scale(), nodes.len() - 1)?;
        Ok(text)
    }
}

/// Appends the node at a place with its operands.
#[cycle(print)]
fn put_node(text: &mut Text, nodes: &[Node], scale: Scale, place: usize) -> Result<(), Memory>
    requires place { place < length nodes.now }
    requires nodes { IsPostOrder nodes.now }
    requires scale { IsScale scale }
    ensures { OnOk result (text.new ≡ text.old ++ printed scale (subformula nodes.now place)) }
{
    let node = &nodes[place];
    match node.operands() {
        Operands::Nothing => put_leaf(text, scale, node),
        Operands::One(of) => {
            put_operator(text, scale, node)?;
            text.push(b" ")?;
            put_operand(text, nodes, scale, of as usize)
        }
        Operands::Two(left, right) => {
            put_operand(text, nodes, scale, left as usize)?;
            text.push(b" ")?;
            put_operator(text, scale, node)?;
            text.push(b" ")?;
            put_operand(text, nodes, scale, right as usize)
        }
    }
}

/// Appends the node at a place, in parentheses where it has two operands itself.
#[cycle(print)]
fn put_operand(text: &mut Text, nodes: &[Node], scale: Scale, place: usize) -> Result<(), Memory>
    requires place { place < length nodes.now }
    requires nodes { IsPostOrder nodes.now }
    requires scale { IsScale scale }
    ensures { OnOk result (text.new ≡ text.old ++ in_parens (has_two (subformula nodes.now place)) (printed scale (subformula nodes.now place))) }
{
    if !nodes[place].has_two_operands() {
        return put_node(text, nodes, scale, place);
    }
    text.push(b"(")?;
    put_node(text, nodes, scale, place)?;
    text.push(b")")
}

/// Appends a constant or an atom.
fn put_leaf(text: &mut Text, scale: Scale, node: &Node) -> Result<(), Memory>
    requires { IsScale scale }
    ensures { OnOk result (text.new ≡ text.old ++ leaf_text scale node.now) }
{
    match node {
        Node::Atom(atom) => put_atom(text, scale, atom),
        _ => text.push(node.word()),
    }
}

/// Appends the word of an operator with its window.
fn put_operator(text: &mut Text, scale: Scale, node: &Node) -> Result<(), Memory>
    requires { IsScale scale }
    ensures { OnOk result (text.new ≡ text.old ++ operator_text scale node.now) }
{
    text.push(node.word())?;
    match node.window() {
        Some(window) => put_window(text, scale, window),
        None => Ok(()),
    }
}

/// Appends a window with its brackets, which are reversed at an open end; nothing where it is all that is past.
fn put_window(text: &mut Text, scale: Scale, window: Window) -> Result<(), Memory>
    requires { IsScale scale }
    ensures { OnOk result (text.new ≡ text.old ++ window_text scale (Some window)) }
{
    if window.high.is_none() && window.low == 0 && window.low_in {
        return Ok(());
    }
    text.push(if window.low_in { b"[" } else { b"]" })?;
    put_decimal(text, window.low, scale.time)?;
    text.push(b",")?;
    put_upper(text, scale, window.high)?;
    text.push(if window.high_in { b"]" } else { b"[" })
}

/// Appends the upper number of a window, or `inf` where there is none.
fn put_upper(text: &mut Text, scale: Scale, high: Option<u32>) -> Result<(), Memory>
    requires { IsScale scale }
    ensures { OnOk result (text.new ≡ text.old ++ upper_text scale high) }
{
    match high {
        Some(high) => put_decimal(text, high, scale.time),
        None => text.push(b"inf"),
    }
}

/// Appends a sum of terms, compared with a constant.
pub(crate) fn put_atom(text: &mut Text, scale: Scale, atom: &Atom) -> Result<(), Memory>
    requires { IsScale scale }
    ensures { OnOk result (text.new ≡ text.old ++ atom_text scale atom.now) }
{
    let _ = atom.terms();
    put_sum(text, atom)?;
    text.push(b" ")?;
    text.push(symbol(atom.rel()))?;
    text.push(b" ")?;
    text.push(minus(atom.limit()))?;
    put_decimal(text, atom.limit().unsigned_abs(), scale.value)
}

/// Appends the terms of an atom, the first with a minus where it is negative, each later one after its sign.
fn put_sum(text: &mut Text, atom: &Atom) -> Result<(), Memory>
    requires { 0 < length atom.now.terms }
    ensures { OnOk result (text.new ≡ text.old ++ sum_text atom.now.terms) }
{
    let first = atom.term(0);
    text.push(minus(first.coef()))?;
    put_term(text, first)?;
    put_later_terms(text, atom)
}

/// Appends the terms after the first.
fn put_later_terms(text: &mut Text, atom: &Atom) -> Result<(), Memory>
    requires { 0 < length atom.now.terms }
    ensures { OnOk result (text.new ≡ text.old ++ later_terms (drop 1 atom.now.terms)) }
{
    for i in 1..atom.terms() {
        let term = atom.term(i);
        text.push(sign(term.coef()))?;
        put_term(text, term)?;
    }
    Ok(())
}

/// Appends the size of a coefficient, unless it is 1, and the column.
fn put_term(text: &mut Text, term: &Term) -> Result<(), Memory>
    ensures { OnOk result (text.new ≡ text.old ++ scaled_text (nat_abs term.now.coef) term.now.name) }
{
    let size = term.coef().unsigned_abs();
    if size != 1 {
        text.push(Buffer::new().format(size).as_bytes())?;
        text.push(b"*")?;
    }
    text.push(term.name().as_str().as_bytes())
}

/// A minus for a negative number.
fn minus(number: i32) -> &'static [u8]
    ensures { result.now ≡ minus_text number }
{
    if number < 0 { b"-" } else { b"" }
}

/// The sign of a number between two terms.
fn sign(number: i32) -> &'static [u8]
    ensures { result.now ≡ sign_text number }
{
    if number < 0 { b" - " } else { b" + " }
}

/// The symbol of a comparison.
fn symbol(rel: Rel) -> &'static [u8]
    ensures { result.now ≡ relation_text rel }
{
    match rel {
        Rel::AtLeast => b">=",
        Rel::Above => b">",
        Rel::AtMost => b"<=",
        Rel::Below => b"<",
    }
}
