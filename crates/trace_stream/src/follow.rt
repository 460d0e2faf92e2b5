//! What a stream makes of a trace's rows as they come.
ghost use Rattle.std.specs.Prelude.{◌≡◌, ◌≤◌, ◌++◌, ℕ, List, [], length, take, false, true, IfOk, IfErr, MatchResult};
ghost use Rattle.stl_syntax.specs.Formula.{Formula as Parsed};
ghost use Rattle.stl_syntax.specs.Trace.{IsTrace};
ghost use Rattle.trace_reader.specs.Taken.{HasTraceSoFar};
ghost use Rattle.trace_stream.specs.Cases.{IsCase, Takes, with_row};
ghost use Rattle.trace_stream.specs.Streams.{Stream as Kind, HasStream};
ghost use Rattle.trace_stream.specs.Following.{Follows, HasOpen, IsOpen, IsOpenBy, IsOpenOn, IsFollowedOn, IsFollowedOut, IsFollowFault, IsUnwritten};
ghost use Rattle.trace_stream.specs.declared.case.Case.{Case as Of};

use crate::case::Case;
use frac128::Memory;
use std::alloc::Global;
use stl_syntax::Text;
use trace_reader::{Row, Rows};

/// Why rows are not followed on.
#[derive(Clone, Copy, Debug)]
pub enum FollowFault {
    /// There was too little memory.
    Memory,
    /// The robustness at node `node` needs this denominator, of 2^60 or more.
    Wide { node: u32, den: u128 },
}

/// What follows the rows of a trace, and tells of each in the text of a stream.
pub trait Follow: Drop {
    /// Which stream it is.
    ghost kind: { Kind };

    /// It stands for the rows of a case so far, for which this text was made.
    ghost stands: { Self → Of → List ℕ → Type 0 };

    /// It stands for the rows of a case so far, of which this text was made for the first; the text of the others is owed.
    ghost owes: { Self → Of → List ℕ → Type 0 };

    /// It stands for all the rows of a case, and their end, for which this text was made.
    ghost ended: { Self → Of → List ℕ → Type 0 };

    /// What follows a case without rows, whose formula has a stream.
    ///
    /// # Errors
    /// Want of memory.
    fn begin(alloc: Global, case: Case) -> Result<Self, Memory>
        requires case { (f : Parsed) × IsCase f case }
        requires none { case.trace.rows ≡ [] }
        requires streamed { HasStream kind case.formula }
        ensures { IfOk result (λ x. Follows (stands x) kind case []) };

    /// Takes the next row. What it answers is added to the text now, or by `flush`.
    ///
    /// # Errors
    /// Of a stream of margins, a denominator of 2^60 or more, by what the rows have settled; the text is as before then, and whole. Want
    /// of memory.
    fn row(&mut self, row: &Row, text: &mut Text) -> Result<(), FollowFault>
        requires { HasOpen (stands self.old) (owes self.old) kind row.now }
        ensures followed { (c : Of) (made : List ℕ) → IsOpen (stands self.old) (owes self.old) kind c made → Takes row.now c.trace
            → IfOk result (λ _. IsOpenOn (stands self.new) (owes self.new) kind (with_row row.now c) text.old text.new made) }
        ensures fault { (c : Of) (made : List ℕ) → IsOpen (stands self.old) (owes self.old) kind c made → Takes row.now c.trace
            → IfErr result (IsFollowFault kind (with_row row.now c) false) }
        ensures unwritten { IfErr result (IsUnwritten text.old text.new) }
        ensures owing { (c : Of) (made : List ℕ) → owes self.old c made → IfErr result (λ e. e ≡ FollowFault.Memory) };

    /// Takes rows that the piece begins with, and answers how many bytes they are: as `Rows::take_rows`, so it may take none. What they
    /// answer is added to the text now, or by `flush`.
    ///
    /// # Errors
    /// Want of memory.
    fn take_rows(&mut self, rows: &mut Rows, piece: &[u8], text: &mut Text) -> Result<usize, Memory>
        requires { (c : Of) × (made : List ℕ) × IsOpen (stands self.old) (owes self.old) kind c made × HasTraceSoFar rows.old c.trace }
        ensures within { IfOk result (λ n. n ≤ length piece.now) }
        ensures taken { IfOk result (λ n. (c : Of) (made : List ℕ) → IsOpen (stands self.old) (owes self.old) kind c made
            → HasTraceSoFar rows.old c.trace
            → IsOpenBy (stands self.new) (owes self.new) kind rows.old rows.new c (take n piece.now) text.old text.new made) }
        ensures kept { (rows.new.limits ≡ rows.old.limits) × (rows.new.least ≡ rows.old.least) × (rows.new.heading ≡ rows.old.heading) };

    /// Adds to the text what the rows answer and what it does not have yet.
    ///
    /// # Errors
    /// Want of memory.
    fn flush(&mut self, text: &mut Text) -> Result<(), Memory>
        requires { (c : Of) × (made : List ℕ) × IsOpen (stands self.old) (owes self.old) kind c made }
        ensures { (c : Of) (made : List ℕ) → IsOpen (stands self.old) (owes self.old) kind c made
            → IfOk result (λ _. IsFollowedOn (stands self.new) kind c text.old text.new made) };

    /// Takes the end, adds to the text what is left, and answers the verdict of the status.
    ///
    /// # Errors
    /// As `row`.
    fn end(&mut self, text: &mut Text) -> Result<bool, FollowFault>
        requires { (c : Of) × (made : List ℕ) × Follows (stands self.old) kind c made × IsTrace c.trace }
        ensures followed { (c : Of) (made : List ℕ) → Follows (stands self.old) kind c made → IsTrace c.trace
            → IfOk result (λ holds. IsFollowedOut (ended self.new) kind c text.old text.new made holds) }
        ensures fault { (c : Of) (made : List ℕ) → Follows (stands self.old) kind c made → IsTrace c.trace
            → IfErr result (IsFollowFault kind c true) }
        ensures unwritten { IfErr result (IsUnwritten text.old text.new) };
}
