//! What a run of a stream leaves.
ghost use Rattle.std.specs.Prelude.{ℕ, List, true};
ghost use Rattle.trace_stream.specs.Following.{IsDone};
ghost use Rattle.workbench.specs.Requests.{stream};
ghost use Rattle.workbench.specs.Keeping.{Holds};

use crate::kept::Kept;
use early_stream::Deciding;
use margin_stream::Margins;
use trace_stream::{Follow, Live};
use verdict_stream::Verdicts;
use written_streams::Watch;

/// What follows the rows of a stream, and is left to the caller of a run.
pub(crate) trait Leave: Follow {
    /// What a reader leaves that has read a trace to its end.
    fn leave(live: Live<Self>) -> Kept
        requires { (bytes text : List ℕ) × IsDone Self.ended Self.kind live bytes text }
        ensures { (bytes text : List ℕ) → IsDone Self.ended Self.kind live bytes text → Holds (stream Self.kind live.formula) bytes result };
}

impl Leave for Verdicts {
    ghost use Rattle.trace_stream.specs.Streams.{verdicts};
    ghost use Rattle.verdict_stream.specs.Watching.{WatchesEnd};

    fn leave(live: Live<Verdicts>) -> Kept
        requires { (bytes text : List ℕ) × IsDone WatchesEnd verdicts live bytes text }
        ensures { (bytes text : List ℕ) → IsDone WatchesEnd verdicts live bytes text → Holds (stream verdicts live.formula) bytes result }
    {
        Kept::Watch(Watch::ended(live))
    }
}

impl Leave for Deciding {
    ghost use Rattle.trace_stream.specs.Streams.{early};
    ghost use Rattle.early_stream.specs.Deciding.{IsDeciding};

    fn leave(live: Live<Deciding>) -> Kept
        requires { (bytes text : List ℕ) × IsDone (λ x c made. IsDeciding true x c) early live bytes text }
        ensures { (bytes text : List ℕ) → IsDone (λ x c made. IsDeciding true x c) early live bytes text → Holds (stream early live.formula) bytes result }
    {
        let Some(deciding) = live.into_follower() else {
            unreachable!();
        };
        Kept::Early(deciding.into_early())
    }
}

impl Leave for Margins {
    ghost use Rattle.trace_stream.specs.Streams.{margins as streamed};
    ghost use Rattle.margin_stream.specs.Margining.{IsMargined};

    fn leave(live: Live<Margins>) -> Kept
        requires { (bytes text : List ℕ) × IsDone (λ x c made. IsMargined true x c made) streamed live bytes text }
        ensures { (bytes text : List ℕ) → IsDone (λ x c made. IsMargined true x c made) streamed live bytes text
            → Holds (stream streamed live.formula) bytes result }
    {
        let Some(margins) = live.into_follower() else {
            unreachable!();
        };
        Kept::Margins(margins.into_net())
    }
}
