//! Verdicts, and the items and lists of an explanation.
ghost use Rattle.std.specs.Prelude.{◌≡◌, ◌<◌, ◌++◌, ◌∷◌, [], length, OnOk, OnErr, slice_get, Some};

use frac128::{Memory, Span};
use std::alloc::Global;
use std::marker::Model;

/// A stretch of time on which a node has one truth.
#[derive(Clone, Copy, Debug, PartialEq, Eq)]
pub struct Verdict {
    pub on: Span,
    pub holds: bool,
}

/// An atom occurrence by its node, a stretch of time, and its truth there.
#[derive(Clone, Copy, Debug, PartialEq, Eq)]
pub struct Item {
    pub node: u32,
    pub on: Span,
    pub holds: bool,
}

/// The items of an explanation.
#[derive(Drop)]
pub struct Items {
    list: Vec<Item>,
}

impl Model for Items {
    ghost use Rattle.std.specs.Prelude.{List};
    ghost use Rattle.stl_syntax.specs.declared.items.Item.{Item};

    ghost Value = { List Item };

    ghost view = { λ t. t.list.items };
}

impl Items {
    /// No items yet; it takes no memory.
    pub fn new(alloc: Global) -> Items
        ensures { result ≡ [] }
    {
        Items {
            list: Vec::new(alloc),
        }
    }

    /// Appends the item; without memory for it the list stays as it was.
    ///
    /// # Errors
    ///
    /// `Memory` where memory is wanting; the items stay as they were.
    pub fn push(&mut self, item: Item) -> Result<(), Memory>
        ensures ok { OnOk result (self.new ≡ self.old ++ item ∷ []) }
        ensures err { OnErr result (self.new ≡ self.old) }
    {
        self.list.push(item)?;
        Ok(())
    }

    /// How many items there are.
    pub fn len(&self) -> usize
        ensures { result ≡ length self.now }
    {
        self.list.len()
    }

    /// The item at place `i`.
    pub fn item(&self, i: usize) -> Item
        requires { i < length self.now }
        ensures { slice_get self.now i ≡ Some result }
    {
        self.list[i]
    }
}
