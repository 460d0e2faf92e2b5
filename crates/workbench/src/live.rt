//! A trace that is read as its bytes come, as a stream: the text that its rows make is written.
ghost use Rattle.trace_stream.specs.Following.{IsAtRest, IsDone};
ghost use Rattle.workbench.specs.Requests.{stream};

use crate::fault::{Stop, outcome_from};
use crate::kept::Kept;
use crate::leave::Leave;
use crate::stream::Push;
use io_edge::Sink;
use stl_syntax::Formula;
use trace_stream::Live;
use written_streams::write_made;

impl<F: Leave> Push for Live<F> {
    ghost request = { λ s. stream F.kind s.formula };

    ghost stands = { λ s bytes text. IsAtRest F.stands F.kind s bytes text };

    ghost done = { λ s bytes text. IsDone F.ended F.kind s bytes text };

    fn push<K: Sink>(&mut self, piece: &[u8], out: &mut K) -> Result<(), Stop> {
        let fed = self.feed(piece);
        let written = write_made(self, fed, out);
        outcome_from(written)
    }

    fn end<K: Sink>(&mut self, out: &mut K) -> Result<bool, Stop> {
        let finished = self.finish();
        let written = write_made(self, finished, out);
        outcome_from(written)
    }

    fn formula(&self) -> &Formula {
        Live::formula(self)
    }

    fn into_kept(self) -> Kept {
        F::leave(self)
    }
}
