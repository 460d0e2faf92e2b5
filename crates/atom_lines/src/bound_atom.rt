//! Terms and atoms with columns in place of names.
use stl_syntax::Rel;

/// A column by its place, whether its values are steps, and by what it is multiplied.
#[derive(Clone, Copy)]
pub(crate) struct BoundTerm {
    pub(crate) coef: i32,
    pub(crate) column: usize,
    pub(crate) step: bool,
}

/// A sum of terms, compared with a constant in ticks.
#[derive(Drop)]
pub(crate) struct BoundAtom {
    pub(crate) terms: Vec<BoundTerm>,
    pub(crate) rel: Rel,
    pub(crate) limit: i32,
}
