//! A stream: each piece is answered before the next is read.
ghost use Rattle.std.specs.Prelude.{◌≡◌, ◌≢◌, ◌≤◌, ℕ, List, [], ◌++◌, true, false, Err};
ghost use Rattle.io_edge.specs.Causes.{Rose, after_end};
ghost use Rattle.io_edge.specs.Calls.{drained, filled};
ghost use Rattle.workbench.specs.Requests.{Request};
ghost use Rattle.workbench.specs.Keeping.{Holds};
ghost use Rattle.workbench.specs.Pushing.{IsPushed, IsPush, IsFinished, IsStreamEnd, IsStreamedFor};

use crate::fault::Stop;
use crate::kept::Kept;
use io_edge::{Sink, Source};
use stl_syntax::Formula;

/// A command that answers its input as the bytes come.
pub(crate) trait Push: Drop {
    /// What is asked for.
    ghost request: { Self → Request };

    /// It stands for these bytes, for which this text was written.
    ghost stands: { Self → List ℕ → List ℕ → Type 0 };

    /// It stands for these bytes and their end, for which this text was written.
    ghost done: { Self → List ℕ → List ℕ → Type 0 };

    /// Takes a piece, and writes what it answers.
    fn push<K: Sink>(&mut self, piece: &[u8], out: &mut K) -> Result<(), Stop>
        requires { (bytes text : List ℕ) × IsPushed (stands self.old) (request self.old) bytes text }
        ensures pushed { (bytes text : List ℕ) → IsPushed (stands self.old) (request self.old) bytes text
            → IsPush (request self.old) (K.written out.old) (K.written out.new) (bytes ++ piece.now) false text
            (λ _. IsPushed (stands self.new) (request self.old) (bytes ++ piece.now)) result }
        ensures same { request self.new ≡ request self.old }
        ensures cause { result ≡ Err Stop.Unwritten → Rose (K.faults out.old) (K.faults out.new) }
        ensures still { result ≢ Err Stop.Unwritten → K.faults out.new ≡ K.faults out.old }
        ensures later { K.faults out.old ≤ K.faults out.new };

    /// Writes what is left, and answers the truth at the start.
    fn end<K: Sink>(&mut self, out: &mut K) -> Result<bool, Stop>
        requires { (bytes text : List ℕ) × IsPushed (stands self.old) (request self.old) bytes text }
        ensures ended { (bytes text : List ℕ) → IsPushed (stands self.old) (request self.old) bytes text
            → IsPush (request self.old) (K.written out.old) (K.written out.new) bytes true text (IsFinished (done self.new) (request self.old) bytes) result }
        ensures same { request self.new ≡ request self.old }
        ensures cause { result ≡ Err Stop.Unwritten → Rose (K.faults out.old) (K.faults out.new) }
        ensures still { result ≢ Err Stop.Unwritten → K.faults out.new ≡ K.faults out.old }
        ensures later { K.faults out.old ≤ K.faults out.new };

    /// The formula by which it answers.
    fn formula(&self) -> &Formula
        ensures { IsStreamedFor (request self.now) result.now };

    /// What it leaves to the caller of a run, after the end.
    fn into_kept(self) -> Kept
        requires { (bytes text : List ℕ) × done self bytes text }
        ensures { (bytes text : List ℕ) → done self bytes text → Holds (request self) bytes result };
}

/// Reads the source to its end, and answers each piece, of at most 4,096 bytes, before the next is read.
pub(crate) fn stream<P: Push, S: Source, K: Sink>(
    pusher: &mut P,
    input: &mut S,
    out: &mut K,
) -> Result<bool, Stop>
    requires { IsPushed (P.stands pusher.old) (P.request pusher.old) [] [] }
    ensures ending { IsStreamEnd (P.done pusher.new) (P.request pusher.old)
        (drained S.left S.ended S.ends S.gave S.asked S.faults input.old input.new) (filled K.written K.faults out.old out.new) result }
    ensures same { P.request pusher.new ≡ P.request pusher.old }
    ensures ends { S.ends input.new ≡ after_end (S.ended input.new) (S.ends input.old) }
    ensures read_due { result ≢ Err Stop.Unread → S.faults input.new ≡ S.faults input.old }
    ensures write_due { result ≢ Err Stop.Unwritten → K.faults out.new ≡ K.faults out.old }
    ensures input_later { S.faults input.old ≤ S.faults input.new }
    ensures out_later { K.faults out.old ≤ K.faults out.new }
{
    let mut buffer = [0u8; 4096];
    for _reads in 0..u64::MAX {
        let Ok(count) = input.read(&mut buffer) else {
            return Err(Stop::Unread);
        };
        if count == 0 {
            return pusher.end(out);
        }
        pusher.push(&buffer[..count], out)?;
    }
    unreachable!()
}
