//! The program itself: the one call, for words that may be wanting.
ghost use Rattle.std.specs.Prelude.{◌≡◌, ◌≢◌, ◌⊎◌, ◌≤◌, map, string_bytes, MatchOption};
ghost use Rattle.io_edge.specs.Calls.{drained, filled};
ghost use Rattle.workbench.specs.Requests.{AreHeld, AskToGenerate};
ghost use Rattle.workbench.specs.Keeping.{HasRun};
ghost use Rattle.workbench.specs.declared.kept.Kept.{Kept as Left};

use crate::kept::Kept;
use crate::top::run;
use io_edge::{Sink, Source};
use std::alloc::Global;

/// Does what `run` does for the words, and lets go of what that leaves.
fn run_alone<S: Source, K: Sink, E: Sink>(
    alloc: Global,
    words: &[String],
    input: &mut S,
    out: &mut K,
    err: &mut E,
) -> u8
    ensures ran { (left : Left) × HasRun (map string_bytes words.now) (drained S.left S.ended S.ends S.gave S.asked S.faults input.old input.new)
        (filled K.written K.faults out.old out.new) (filled E.written E.faults err.old err.new) Kept.Nothing left result }
    ensures read_due { result ≢ 5 → S.faults input.new ≡ S.faults input.old }
    ensures write_due { result ≢ 6 → K.faults out.new ≡ K.faults out.old }
    ensures unread { (result ≡ 2) ⊎ (result ≡ 3) ⊎ AskToGenerate (map string_bytes words.now) → input.new ≡ input.old }
    ensures nothing { 2 ≤ result → result ≢ 6 → (result ≤ 3) ⊎ AreHeld (map string_bytes words.now) → out.new ≡ out.old }
    ensures quiet { result ≤ 1 → err.new ≡ err.old }
    ensures input_later { S.faults input.old ≤ S.faults input.new }
    ensures out_later { K.faults out.old ≤ K.faults out.new }
    ensures err_later { E.faults err.old ≤ E.faults err.new }
{
    let mut kept = Kept::Nothing;
    run(alloc, words, input, out, err, &mut kept)
}

/// Does what `run` does for the words, lets go of what that leaves, and answers the status with which the program ends. Where there was
/// too little memory to take the words, they are None: the status is 7, nothing is read, and nothing is written, not even a line.
pub fn program<S: Source, K: Sink, E: Sink>(
    alloc: Global,
    words: Option<Vec<String>>,
    input: &mut S,
    out: &mut K,
    err: &mut E,
) -> u8
    // What the words ask for came to an end with this status, and with these bytes, this text and this line, and left this; or there were
    // none.
    ensures ran { MatchOption words (result ≡ 7)
        (λ ws. (left : Left) × HasRun (map string_bytes ws.items) (drained S.left S.ended S.ends S.gave S.asked S.faults input.old input.new)
        (filled K.written K.faults out.old out.new) (filled E.written E.faults err.old err.new) Kept.Nothing left result) }

    // A device that failed is said.
    ensures read_due { result ≢ 5 → S.faults input.new ≡ S.faults input.old }
    ensures write_due { result ≢ 6 → K.faults out.new ≡ K.faults out.old }

    // What was not touched, also of devices that do not tell their bytes.
    ensures unread { MatchOption words (input.new ≡ input.old) (λ _. (result ≡ 2) ⊎ (result ≡ 3) → input.new ≡ input.old) }
    ensures nothing { MatchOption words (out.new ≡ out.old)
        (λ ws. 2 ≤ result → result ≢ 6 → (result ≤ 3) ⊎ AreHeld (map string_bytes ws.items) → out.new ≡ out.old) }
    ensures quiet { MatchOption words (err.new ≡ err.old) (λ _. result ≤ 1 → err.new ≡ err.old) }

    // Counts of faults never fall.
    ensures input_later { S.faults input.old ≤ S.faults input.new }
    ensures out_later { K.faults out.old ≤ K.faults out.new }
    ensures err_later { E.faults err.old ≤ E.faults err.new }
{
    match words {
        Some(words) => run_alone(alloc, &words, input, out, err),
        None => 7,
    }
}
