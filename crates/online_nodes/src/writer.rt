//! The list of a stretch, written verdict by verdict onto an edge.

ghost use Rattle.std.specs.Prelude.{◌≡◌, ◌<◌, length, IfOk, OnOk, OnErr, None};
ghost use Rattle.frac128.specs.Spans.{interval};
ghost use Rattle.rational.specs.Places.{AtMost, Before, Same, begins, ends};
ghost use Rattle.frac128.specs.Cuts.{place};
ghost use Rattle.online_nodes.specs.Written.{HasAnswer, HasFinished, HasSaidBoth, HasWritten, IsSound, IsPutBack, Reaches, waiting};

use crate::edges::Edges;
use frac128::{Cut, Memory, Span};
use stl_syntax::Verdict;

/// Writes the verdicts of a stretch onto an edge. Each call says the verdict from where the last one ended; neighbours that
/// agree become one span. A call may say more than the stretch: what lies beyond its end is left out.
#[derive(Clone, Copy)]
pub struct Out {
    edge: u32,
    from: Cut,
    at: Cut,
    to: Cut,
    holds: Option<bool>,
}

impl Out {
    /// Nothing was said yet of the stretch between the two places.
    #[inline(always)]
    pub fn new(edge: u32, from: Cut, to: Cut) -> Out
        ensures { result ≡ record { edge = edge; from = from; at = from; to = to; holds = None } }
    {
        Out {
            edge,
            from,
            at: from,
            to,
            holds: None,
        }
    }

    /// Where the stretch ends.
    #[inline(always)]
    pub fn end(&self) -> Cut
        ensures { result ≡ self.now.to }
    {
        self.to
    }

    /// The span that ends where the writer stands.
    #[inline(always)]
    fn span(self) -> Span
        requires { Before (place self.from) (place self.at) }
        ensures begin { Same (place self.from) (begins (interval result)) }
        ensures end { Same (place self.at) (ends (interval result)) }
    {
        Span {
            from: self.from.time,
            from_in: self.from.side == 0,
            to: self.at.time,
            to_in: self.at.side != 0,
        }
    }

    /// Puts that span onto the edge.
    #[inline(always)]
    fn write(self, edges: &mut Edges, holds: bool) -> Result<(), Memory>
        requires edge { self.edge < length edges.old.edges }
        requires some { Before (place self.from) (place self.at) }
        ensures put { OnOk result (IsPutBack edges.old edges.new self holds) }
        ensures memory { OnErr result (edges.old.spare ≡ 0) }
    {
        let on = self.span();
        edges.put(self.edge, Verdict { on, holds })?;
        Ok(())
    }

    /// Puts that span onto the edge where the truth turns over.
    #[inline(always)]
    fn write_turn(self, edges: &mut Edges, holds: bool) -> Result<(), Memory>
        requires edge { self.edge < length edges.old.edges }
        requires some { Before (place self.from) (place self.at) }
        ensures put { OnOk result (IsPutBack edges.old edges.new self holds) }
        ensures memory { OnErr result (edges.old.spare ≡ 0) }
    {
        let on = self.span();
        edges.put_seldom(self.edge, Verdict { on, holds })?;
        Ok(())
    }

    /// The verdict up to a later place.
    #[inline(always)]
    fn go_on(self, edges: &mut Edges, holds: bool, cut: Cut) -> Result<Out, Memory>
        requires edge { self.edge < length edges.old.edges }
        requires sound { IsSound self }
        requires later { Before (place self.at) (place cut) }
        ensures written { IfOk result (λ out. HasWritten edges.old edges.new self holds cut out) }
        ensures memory { OnErr result (edges.old.spare ≡ 0) }
    {
        let next = Out {
            edge: self.edge,
            from: self.from,
            at: cut,
            to: self.to,
            holds: Some(holds),
        };
        let Some(before) = self.holds else {
            return Ok(next);
        };
        if before == holds {
            return Ok(next);
        }
        self.write_turn(edges, before)?;
        Ok(Out {
            edge: self.edge,
            from: self.at,
            at: cut,
            to: self.to,
            holds: Some(holds),
        })
    }

    /// The verdict up to that place, or up to the end of the stretch, where that comes earlier. A place that was passed already
    /// says nothing.
    ///
    /// # Errors
    ///
    /// `Memory` where there is no memory, which never comes with a spare of 1.
    #[inline(always)]
    pub fn upto(self, edges: &mut Edges, holds: bool, cut: Cut) -> Result<Out, Memory>
        requires edge { self.edge < length edges.old.edges }
        requires inside { AtMost (place self.at) (place self.to) }
        requires sound { IsSound self }
        ensures said { IfOk result (λ out. HasAnswer edges.old edges.new self holds out) }
        ensures reaches { IfOk result (λ out. Reaches self cut out) }
        ensures memory { OnErr result (edges.old.spare ≡ 0) }
    {
        let end = cut.earlier(self.to);
        if !self.at.precedes(&end) {
            return Ok(self);
        }
        let out = self.go_on(edges, holds, end)?;
        Ok(out)
    }

    /// As `upto`, up to a place that does not lie beyond the end of the stretch.
    ///
    /// # Errors
    ///
    /// As `upto`.
    #[inline(always)]
    pub(crate) fn upto_within(self, edges: &mut Edges, holds: bool, cut: Cut) -> Result<Out, Memory>
        requires edge { self.edge < length edges.old.edges }
        requires inside { AtMost (place self.at) (place self.to) }
        requires sound { IsSound self }
        requires within { AtMost (place cut) (place self.to) }
        ensures said { IfOk result (λ out. HasAnswer edges.old edges.new self holds out) }
        ensures reaches { IfOk result (λ out. Reaches self cut out) }
        ensures memory { OnErr result (edges.old.spare ≡ 0) }
    {
        if !self.at.precedes(&cut) {
            return Ok(self);
        }
        let out = self.go_on(edges, holds, cut)?;
        Ok(out)
    }

    /// One verdict up to a place, and the other one from there up to a later place, each as far as `upto` says it.
    ///
    /// # Errors
    ///
    /// `Memory` where there is no memory, which never comes with a spare of 2.
    #[inline(always)]
    pub(crate) fn turn(
        self,
        edges: &mut Edges,
        holds: bool,
        middle: Cut,
        cut: Cut,
    ) -> Result<Out, Memory>
        requires edge { self.edge < length edges.old.edges }
        requires inside { AtMost (place self.at) (place self.to) }
        requires sound { IsSound self }
        ensures said { IfOk result (λ out. HasSaidBoth edges.old edges.new self holds middle cut out) }
        ensures memory { OnErr result (edges.old.spare < 2) }
    {
        let first = self.upto(edges, holds, middle)?;
        let second = first.upto(edges, !holds, cut)?;
        Ok(second)
    }

    /// Puts the last span.
    ///
    /// # Errors
    ///
    /// `Memory` where there is no memory, which never comes with a spare of 1.
    #[inline(always)]
    pub fn finish(self, edges: &mut Edges) -> Result<(), Memory>
        requires edge { self.edge < length edges.old.edges }
        requires sound { IsSound self }
        ensures finished { OnOk result (HasFinished edges.old edges.new self) }
        ensures waits { OnErr result (waiting self.holds ≡ 1) }
        ensures memory { OnErr result (edges.old.spare ≡ 0) }
    {
        let Some(holds) = self.holds else {
            return Ok(());
        };
        self.write(edges, holds)?;
        Ok(())
    }
}
