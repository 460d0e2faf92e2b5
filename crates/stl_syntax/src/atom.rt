//! Atoms: a sum of signals compared with a constant, within the limits of both.
ghost use Rattle.std.specs.Prelude.{◌≡◌, ◌<◌, ◌≤◌, ◌*◌, nat_abs, length, All, IfOk, IsTrue, slice_get, Some};
ghost use Rattle.stl_syntax.specs.Names.{is_name};
ghost use Rattle.stl_syntax.specs.WellFormed.{IsTermInLimits};

use crate::print::put_atom;
use crate::{Name, Rel, Scale, Text};
use frac128::Memory;
use std::alloc::{AllocError, Global};
use std::marker::Model;

/// A column times a whole number, its coefficient.
#[derive(Drop)]
pub struct Term {
    coef: i32,
    name: Name,
}

impl Model for Term {
    ghost use Rattle.stl_syntax.specs.Atoms.{LinearTerm};

    ghost Value = { LinearTerm };

    ghost use Rattle.stl_syntax.specs.WellFormed.{IsTermInLimits};

    ghost view = { λ t. record { coef = t.coef; name = t.name } };

    ghost invariant = { λ t. IsTermInLimits (record { coef = t.coef; name = t.name }) };
}

impl Term {
    ghost use Rattle.stl_syntax.specs.WellFormed.{IsTermInLimits};

    /// The column `name` times `coef`, a whole number from -16 to 16.
    ///
    /// A name is a letter or `_`, and then letters, digits, `_` and points, but no word of the grammar.
    ///
    /// # Errors
    ///
    /// `Memory` where memory is wanting.
    pub fn make(alloc: Global, coef: i32, name: &str) -> Result<Term, Memory>
        requires coef { nat_abs coef ≤ 16 }
        requires name { IsTrue (is_name name.now) }
        ensures coef { IfOk result (λ t. t.coef ≡ coef) }
        ensures name { IfOk result (λ t. t.name ≡ name.now) }
    {
        Ok(Term {
            coef,
            name: Name::make(alloc, name)?,
        })
    }

    /// By what the column is multiplied.
    pub fn coef(&self) -> i32
        ensures coef { result ≡ self.now.coef }
        ensures limits { IsTermInLimits self.now }
    {
        self.coef
    }

    /// The name of the column.
    pub fn name(&self) -> &Name
        ensures { result.now ≡ self.now.name }
    {
        &self.name
    }
}

impl Clone for Term {
    ghost is_clone = { λ x y. y ≡ x };

    fn clone(&self) -> Result<Term, AllocError> {
        Ok(Term {
            coef: self.coef,
            name: self.name.clone()?,
        })
    }
}

/// A sum of terms, compared with a constant in ticks.
#[derive(Drop)]
pub struct Atom {
    terms: Vec<Term>,
    rel: Rel,
    limit: i32,
}

impl Model for Atom {
    ghost use Rattle.stl_syntax.specs.Atoms.{LinearAtom};

    ghost Value = { LinearAtom };

    ghost use Rattle.stl_syntax.specs.WellFormed.{IsAtomInLimits};

    ghost view = { λ a. record { terms = a.terms.items; rel = a.rel; limit = a.limit } };

    ghost invariant = { λ a. IsAtomInLimits (record { terms = a.terms.items; rel = a.rel; limit = a.limit }) };
}

/// The comparison of the sum of one to four terms with the constant `limit`, in ticks.
pub fn make_atom(terms: Vec<Term>, rel: Rel, limit: i32) -> Atom
    requires some { 0 < length terms.items }
    requires few { length terms.items ≤ 4 }
    requires limit { nat_abs limit ≤ 1073741824 }
    ensures terms { result.terms ≡ terms.items }
    ensures rel { result.rel ≡ rel }
    ensures limit { result.limit ≡ limit }
{
    keep_limits(&terms);
    Atom { terms, rel, limit }
}

/// Each term keeps its limits, so the atom does.
fn keep_limits(terms: &[Term])
    ensures { All IsTermInLimits terms.now }
{
    for term in terms {
        let _ = term.coef();
    }
}

impl Atom {
    ghost use Rattle.stl_syntax.specs.WellFormed.{IsAtomInLimits, IsScale};
    ghost use Rattle.stl_syntax.specs.Scaling.{scaled_atom};
    ghost use Rattle.stl_syntax.specs.Print.{IsAtomText};

    /// How many terms the sum has.
    pub fn terms(&self) -> usize
        ensures count { result ≡ length self.now.terms }
        ensures limits { IsAtomInLimits self.now }
    {
        self.terms.len()
    }

    /// The term at place `i` of the sum.
    pub fn term(&self, i: usize) -> &Term
        requires { i < length self.now.terms }
        ensures { slice_get self.now.terms i ≡ Some result.now }
    {
        &self.terms[i]
    }

    /// Multiplies the constant by `value`.
    pub(crate) fn scale(&mut self, value: u32)
        requires { nat_abs self.old.limit * value ≤ 1073741824 }
        ensures { self.new ≡ scaled_atom value self.old }
    {
        self.limit = (i64::from(self.limit) * i64::from(value)) as i32;
    }

    /// The atom's text, with the fewest digits, as a formula of this scale prints it: `scale` says what a tick of the constant is.
    ///
    /// # Errors
    ///
    /// `Memory` where memory is wanting.
    pub fn print(&self, scale: Scale) -> Result<Text, Memory>
        requires { IsScale scale }
        ensures { IfOk result (IsAtomText scale self.now) }
    {
        let mut text = Text::new(*self.terms.allocator());
        put_atom(&mut text, scale, self)?;
        Ok(text)
    }

    /// How the sum is compared with the constant.
    pub fn rel(&self) -> Rel
        ensures { result ≡ self.now.rel }
    {
        self.rel
    }

    /// The constant, in ticks.
    pub fn limit(&self) -> i32
        ensures { result ≡ self.now.limit }
    {
        self.limit
    }
}

impl Clone for Atom {
    ghost is_clone = { λ x y. y ≡ x };

    fn clone(&self) -> Result<Atom, AllocError> {
        Ok(Atom {
            terms: self.terms.clone()?,
            rel: self.rel,
            limit: self.limit,
        })
    }
}
