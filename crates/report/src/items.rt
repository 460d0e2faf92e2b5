//! The lines of the items of an explanation.
ghost use Rattle.std.specs.Prelude.{◌≡◌, ◌<◌, ◌≤◌, ◌++◌, All, codes, drop, length, slice_get, Some, IfOk, MatchBool, MatchOption, OnOk, OnErr};
ghost use Rattle.stl_syntax.specs.Print.{IsAtomText};
ghost use Rattle.stl_syntax.specs.Texts.{bool_text};
ghost use Rattle.stl_syntax.specs.declared.atom.Atom.{Atom as Compared};
ghost use Rattle.stl_syntax.specs.declared.node.Node.TheVariants.{Atom as Leaf};
ghost use Rattle.answer_lines.specs.Appended.{Grew, GrewInPart};
ghost use Rattle.report.specs.ItemLines.{IsOfAtom, IsItemLine, AreItemsText, IsLonger, IsFirstLine};
ghost use Rattle.report.specs.Report.{Join};

use answer_lines::put_span;
use frac128::{Memory, Span};
use stl_syntax::{Formula, Item, Items, Node, Scale, Text};

/// Whether two neighbours are written as one: items of one occurrence with one truth, the second of which begins where the first ends.
fn joins(line: &Item, next: &Item) -> bool
    ensures { MatchBool result (Join line.now next.now) (¬ Join line.now next.now) }
{
    if line.node != next.node || line.holds != next.holds {
        return false;
    }
    line.on.to_in != next.on.from_in && line.on.to.cmp(&next.on.from).is_eq()
}

/// The one item that two neighbours make. None exactly where they do not join.
fn joined(line: &Item, next: &Item) -> Option<Item>
    ensures { MatchOption result (¬ Join line.now next.now)
        (λ longer. Join line.now next.now × IsLonger line.now next.now longer) }
{
    if !joins(line, next) {
        return None;
    }
    let on = Span {
        from: line.on.from,
        from_in: line.on.from_in,
        to: next.on.to,
        to_in: next.on.to_in,
    };
    Some(Item {
        node: line.node,
        on,
        holds: line.holds,
    })
}

/// The line that begins with the item at place `i`, and the place behind its last item.
pub(crate) fn line_from(items: &Items, i: usize) -> (Item, usize)
    requires { i < length items.now }
    ensures on { i < result.1 }
    ensures within { result.1 ≤ length items.now }
    ensures line { IsFirstLine (drop i items.now) (drop result.1 items.now) result.0 }
{
    let count = items.len();
    let mut line = items.item(i);
    for k in i + 1..count {
        match joined(&line, &items.item(k)) {
            Some(longer) => line = longer,
            None => return (line, k),
        }
    }
    (line, count)
}

/// The text of the atom at a node.
pub(crate) fn atom_text(formula: &Formula, node: u32) -> Result<Text, Memory>
    requires { (a : Compared) × (slice_get formula.now.nodes node ≡ Some (Leaf a)) }
    ensures { IfOk result (λ t. (a : Compared) → slice_get formula.now.nodes node ≡ Some (Leaf a) → IsAtomText formula.now.scale a t) }
{
    match formula.node(node) {
        Node::Atom(atom) => atom.print(formula.scale()),
        _ => unreachable!(),
    }
}

/// What stands between an atom and the span on which it has this truth.
fn truth_on(holds: bool) -> &'static [u8]
    ensures { result.now ≡ codes " " ++ bool_text holds ++ codes " on " }
{
    if holds { b" true on " } else { b" false on " }
}

/// Appends the line of an item.
fn put_item(text: &mut Text, formula: &Formula, item: &Item, scale: Scale) -> Result<(), Memory>
    requires digits { scale.time ≤ 6 }
    requires atom { IsOfAtom formula.now item.now }
    ensures ok { OnOk result (Grew (IsItemLine scale formula.now item.now) text.old text.new) }
    ensures err { OnErr result (GrewInPart (IsItemLine scale formula.now item.now) text.old text.new) }
{
    let name = atom_text(formula, item.node)?;
    text.push(name.bytes())?;
    text.push(truth_on(item.holds))?;
    put_span(text, &item.on, scale)?;
    text.push(b"\n")
}

/// Appends the lines of the items of an explanation: the atom, its truth, and the span on which it has it, with times in units of
/// the scale. Neighbours of one occurrence and one truth that touch are one line. The atoms are those of the formula, whose own
/// scale says what its constants mean; the nodes of the items are its nodes.
///
/// # Errors
/// Want of memory. The text then has a first part of the lines.
pub fn put_items(
    text: &mut Text,
    formula: &Formula,
    items: &Items,
    scale: Scale,
) -> Result<(), Memory>
    requires digits { scale.time ≤ 6 }
    requires atoms { All (IsOfAtom formula.now) items.now }
    ensures ok { OnOk result (Grew (AreItemsText scale formula.now items.now) text.old text.new) }
    ensures err { OnErr result (GrewInPart (AreItemsText scale formula.now items.now) text.old text.new) }
{
    let mut i = 0;
    while i < items.len() {
        let (line, end) = line_from(items, i);
        put_item(text, formula, &line, scale)?;
        i = end;
    }
    Ok(())
}
