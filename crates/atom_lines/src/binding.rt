//! How a formula's names are bound to a header's columns.
ghost use Rattle.std.specs.Prelude.{◌≡◌, ◌<◌, ◌∷◌, [], ℕ, length, All, IfOk, IfErr, MatchOption, MatchResult, slice_index_or};
ghost use Rattle.stl_syntax.specs.Trace.{Column};
ghost use Rattle.stl_syntax.specs.Binding.{HasColumn, HasColumns};
ghost use Rattle.atom_lines.specs.Binding.{IsBound, IsColumn, IsAtomBinding};
ghost use Rattle.atom_lines.specs.Faults.{IsBindFault, IsFaultAt, IsNodeFault, IsNodeBinding, LacksColumn};
ghost use Rattle.atom_lines.specs.Sums.{IsAtomSound, IsNodeSound};

use crate::bound::Bound;
use crate::bound_atom::{BoundAtom, BoundTerm};
use std::alloc::Global;
use stl_syntax::{Atom, Formula, Node};
use trace_reader::Header;

/// Why a formula is not bound.
#[derive(Clone, Copy, Debug, PartialEq, Eq)]
pub enum BindFault {
    /// The first term, in post-order, whose name is no column: the node of its atom, and its place in it.
    UnknownColumn { atom: u32, term: u32 },
    /// Want of memory.
    Memory,
}

/// The place of the first column of that name.
fn column_of(header: &Header, name: &str) -> Option<usize>
    ensures { MatchOption result
        (LacksColumn header.now.columns name.now)
        (λ c. (d : Column) → IsColumn header.now.columns name.now c (slice_index_or header.now.columns c d).step) }
{
    for i in 0..header.columns() {
        if header.name(i) == name {
            return Some(i);
        }
    }
    None
}

/// The atom at a node, with columns in place of names.
fn bind_atom(alloc: Global, header: &Header, node: u32, atom: &Atom) -> Result<BoundAtom, BindFault>
    ensures ok { IfOk result (IsAtomBinding header.now.columns atom.now) }
    ensures sound { IfOk result (IsAtomSound (length header.now.columns)) }
    ensures named { IfOk result (λ _. All (HasColumn header.now.columns) atom.now.terms) }
    ensures err { IfErr result (IsNodeFault header.now.columns node atom.now) }
{
    let mut terms = Vec::new(alloc);
    for i in 0..atom.terms() {
        let term = atom.term(i);
        let Some(column) = column_of(header, term.name().as_str()) else {
            return Err(BindFault::UnknownColumn {
                atom: node,
                term: i as u32,
            });
        };
        let bound = BoundTerm {
            coef: term.coef(),
            column,
            step: header.step(column),
        };
        if terms.push(bound).is_err() {
            return Err(BindFault::Memory);
        }
    }
    Ok(BoundAtom {
        terms,
        rel: atom.rel(),
        limit: atom.limit(),
    })
}

/// What the node's place holds in a binding.
fn bind_node(
    alloc: Global,
    header: &Header,
    place: u32,
    node: &Node,
) -> Result<Option<BoundAtom>, BindFault>
    ensures ok { IfOk result (IsNodeBinding header.now.columns node.now) }
    ensures sound { IfOk result (IsNodeSound (length header.now.columns)) }
    ensures named { IfOk result (λ _. HasColumns header.now.columns node.now) }
    ensures err { IfErr result (IsFaultAt header.now.columns place node.now) }
{
    match node {
        Node::Atom(atom) => match bind_atom(alloc, header, place, atom) {
            Ok(atom) => Ok(Some(atom)),
            Err(fault) => Err(fault),
        },
        _ => Ok(None),
    }
}

/// Binds the names of a formula to the columns of a header.
///
/// It is refused exactly where a term names no column, by the first such term in post-order.
///
/// # Errors
///
/// `UnknownColumn` at the first term, in post-order, that names no column of the header; `Memory` where memory is wanting.
pub fn bind(alloc: Global, formula: &Formula, header: &Header) -> Result<Bound, BindFault>
    ensures ok { IfOk result (λ b. IsBound b formula.now header.now) }
    ensures named { IfOk result (λ _. All (HasColumns header.now.columns) formula.now.nodes) }
    ensures err { IfErr result (IsBindFault header.now.columns formula.now) }
{
    let mut atoms = Vec::new(alloc);
    for i in 0..formula.len() {
        let atom = match bind_node(alloc, header, i, formula.node(i)) {
            Ok(atom) => atom,
            Err(fault) => return Err(fault),
        };
        if atoms.push(atom).is_err() {
            return Err(BindFault::Memory);
        }
    }
    Ok(Bound::of(header.columns(), atoms))
}
