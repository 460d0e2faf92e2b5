//! A formula's atoms over the columns of a header.
ghost use Rattle.std.specs.Prelude.{◌≡◌, ◌<◌, slice_get, Some};

use crate::bound_atom::BoundAtom;
use std::marker::Model;

/// A formula's atoms with a header's columns in place of names, so that rows are read without looking for a name.
#[derive(Drop)]
pub struct Bound {
    width: usize,
    atoms: Vec<Option<BoundAtom>>,
}

impl Model for Bound {
    ghost use Rattle.std.specs.Prelude.{All};
    ghost use Rattle.atom_lines.specs.Binding.{Binding};
    ghost use Rattle.atom_lines.specs.Sums.{IsNodeSound};

    ghost Value = { Binding };

    ghost view = { λ b. record { width = b.width; atoms = b.atoms.items } };

    ghost invariant = { λ b. All (IsNodeSound b.width) b.atoms.items };
}

impl Bound {
    ghost use Rattle.std.specs.Prelude.{All};
    ghost use Rattle.atom_lines.specs.Binding.{IsAtomNode};
    ghost use Rattle.atom_lines.specs.Sums.{IsAtomSound, IsNodeSound};

    pub(crate) fn of(width: usize, atoms: Vec<Option<BoundAtom>>) -> Bound
        requires { All (IsNodeSound width) atoms.items }
        ensures { result ≡ record { width = width; atoms = atoms.items } }
    {
        Bound { width, atoms }
    }

    /// The atom at a node.
    pub(crate) fn atom(&self, node: u32) -> &BoundAtom
        requires { IsAtomNode self.now node }
        ensures at { slice_get self.now.atoms node ≡ Some (Some result.now) }
        ensures sound { IsAtomSound self.now.width result.now }
    {
        match &self.atoms[node as usize] {
            Some(atom) => atom,
            None => unreachable!(),
        }
    }
}
