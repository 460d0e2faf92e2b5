//! The one call: it does all that the program does.
ghost use Rattle.std.specs.Prelude.{◌≡◌, ◌≢◌, ◌⊎◌, ◌≤◌, ℕ, List, [], map, string_bytes, MatchResult, length, ◌<◌, true, Err, IfOk, IsErr};
ghost use Rattle.io_edge.specs.Causes.{Rose, after_end};
ghost use Rattle.io_edge.specs.Calls.{drained, filled};
ghost use Rattle.command_line.specs.Saying.{IsSaid};
ghost use Rattle.stl_grammar.specs.FormulaRefusals.{IsFormulaOf};
ghost use Rattle.trace_stream.specs.Cases.{IsCase};
ghost use Rattle.answer_lines.specs.Lines.{line_text};
ghost use Rattle.workbench.specs.Requests.{Request, AreHeld, AskToGenerate, Asks, IsAsked, is_streamed};
ghost use Rattle.command_line.specs.Commands.{on_formula, generate as of_workload};
ghost use Rattle.command_line.specs.Commands as word;
ghost use Rattle.workbench.specs.Calm.{IsCalm, IsUntouched};
ghost use Rattle.workbench.specs.Keeping.{HasRun};
ghost use Rattle.workbench.specs.Pushing.{IsPushed};
ghost use Rattle.command_line.specs.Words.{command_of, verb_of};
ghost use Rattle.whole_answers.specs.Judging.{IsAnswerOf, IsUnanswered};
ghost use Rattle.workbench.specs.Wholes.{IsWrittenWith, IsWholeEnd, IsEndLine};
ghost use Rattle.workbench.specs.Wholes.{IsStopLine, HasFaultFor, EndsSoundly, status_of, status_of_stop};

use crate::check::judge;
use crate::fault::{Stop, stop_for};
use crate::kept::Kept;
use crate::many::Many;
use crate::stream::{Push, stream};
use answer_lines::{Line, LineRoom, LinesLeft};
use command_line::{
    Command, Mode, asked, no_form_line, no_memory_line, not_streamed_line, read_fault_line, refuse,
    say, too_many_cells_line, wide_line, workload_of, write_all, write_fault_line, write_left,
};
use early_stream::Deciding;
use explained_answers::{give_reasons, give_report};
use frac128::Memory;
use io_edge::{Sink, Source};
use margin_stream::Margins;
use online_robust::first_unstreamed;
use session_mux::input_fault_line;
use std::alloc::Global;
use stl_grammar::parse;
use stl_syntax::Formula;
use trace_reader::Limits;
use trace_stream::{Case, Live, fault_line};
use verdict_stream::Verdicts;
use whole_answers::{Answer, NoAnswer, measure, read_trace, tabulate};
use workload_summary::generate;

/// The limits of a trace that is held whole.
pub(crate) const LIMITS: Limits = Limits {
    rows: 1_000_000,
    lines: 8_589_934_592,
};

/// The limits of a trace that is answered row by row.
const STREAM_LIMITS: Limits = Limits {
    rows: 4_294_967_296,
    lines: 8_589_934_592,
};

/// Writes the text of an answer that was made whole, and answers the truth at the start.
pub(crate) fn write_answer<K: Sink>(out: &mut K, answer: &Answer) -> Result<bool, Stop>
    ensures written { IsWrittenWith answer.now.holds answer.now.text (K.written out.old) (K.written out.new) result }
    ensures cause { result ≡ Err Stop.Unwritten → Rose (K.faults out.old) (K.faults out.new) }
    ensures still { result ≢ Err Stop.Unwritten → K.faults out.new ≡ K.faults out.old }
    ensures later { K.faults out.old ≤ K.faults out.new }
{
    match write_all(out, answer.text.bytes()) {
        Ok(()) => Ok(answer.holds),
        Err(_) => Err(Stop::Unwritten),
    }
}

/// Writes the answer whose lines are left, and made while they are written.
pub(crate) fn write_lines<L: LinesLeft, K: Sink>(
    out: &mut K,
    holds: bool,
    left: &mut L,
    room: &mut LineRoom,
) -> Result<bool, Stop>
    requires { L.can_go_on left.old }
    ensures written { (text : List ℕ) × L.is_left left.old text × IsWrittenWith holds text (K.written out.old) (K.written out.new) result }
    ensures cause { result ≡ Err Stop.Unwritten → Rose (K.faults out.old) (K.faults out.new) }
    ensures still { result ≢ Err Stop.Unwritten → K.faults out.new ≡ K.faults out.old }
    ensures later { K.faults out.old ≤ K.faults out.new }
{
    match write_left(out, left, room) {
        Ok(()) => Ok(holds),
        Err(_) => Err(Stop::Unwritten),
    }
}

/// The answer of a command that holds the trace, which has a row, or why there is none.
fn answer(
    alloc: Global,
    command: Command,
    formula: &Formula,
    case: &Case,
) -> Result<Answer, NoAnswer>
    requires holds { command ≢ Command.Check }
    requires case { IsCase formula.now case.now }
    requires some { 0 < length case.now.trace.rows }
    ensures { MatchResult result
        (λ a. IsAnswerOf (command_of command) formula.now case.now.trace a.holds a.text)
        (IsUnanswered (command_of command) formula.now case.now.trace) }
{
    match command {
        Command::Check => unreachable!(),
        Command::Robust => measure(alloc, case),
        Command::Explain => give_reasons(alloc, formula, case),
        Command::Json => give_report(alloc, formula, case),
        Command::Table => tabulate(alloc, case),
    }
}

/// Reads the whole trace, answers and writes.
fn whole<S: Source, K: Sink>(
    alloc: Global,
    command: Command,
    formula: &Formula,
    input: &mut S,
    out: &mut K,
) -> Result<bool, Stop>
    ensures ending { IsWholeEnd (command_of command) formula.now (drained S.left S.ended S.ends S.gave S.asked S.faults input.old input.new)
        (filled K.written K.faults out.old out.new) result }
    ensures read { result ≡ Err Stop.Unread → Rose (S.faults input.old) (S.faults input.new) }
    ensures write { result ≡ Err Stop.Unwritten → Rose (K.faults out.old) (K.faults out.new) }
    ensures read_due { result ≢ Err Stop.Unread → S.faults input.new ≡ S.faults input.old }
    ensures write_due { result ≢ Err Stop.Unwritten → K.faults out.new ≡ K.faults out.old }
    ensures input_later { S.faults input.old ≤ S.faults input.new }
    ensures out_later { K.faults out.old ≤ K.faults out.new }
    ensures ends { result ≢ Err Stop.NoMemory → S.ends input.new ≡ after_end (S.ended input.new) (S.ends input.old) }
    ensures nothing { IsErr result → result ≢ Err Stop.Unwritten → out.new ≡ out.old }
{
    if let Command::Check = command {
        return judge(alloc, formula, input, out);
    }
    let case = match read_trace::<S, Case>(input, formula, LIMITS, alloc) {
        Ok(case) => case,
        Err(reason) => return Err(stop_for(reason)),
    };
    match answer(alloc, command, formula, &case) {
        Ok(answer) => write_answer(out, &answer),
        Err(reason) => Err(stop_for(reason)),
    }
}

/// The line of a reason to stop.
fn stop_line(formula: &Formula, stop: Stop) -> Line<'_>
    requires { HasFaultFor formula.now stop }
    ensures { IsStopLine formula.now stop (line_text result) }
{
    match stop {
        Stop::Fault(fault) => fault_line(formula, fault),
        Stop::Input(fault) => input_fault_line(fault),
        Stop::Unread => read_fault_line(),
        Stop::Unwritten => write_fault_line(),
        Stop::NoMemory => no_memory_line(),
        Stop::Wide { node, den } => wide_line(node, den),
        Stop::TooMany { count } => too_many_cells_line(count),
    }
}

/// The status of a reason to stop.
fn stop_status(stop: Stop) -> u8
    ensures { result ≡ status_of_stop stop }
{
    match stop {
        Stop::Fault(_) | Stop::Input(_) => 4,
        Stop::Unread => 5,
        Stop::Unwritten => 6,
        Stop::NoMemory => 7,
        Stop::Wide { .. } => 8,
        Stop::TooMany { .. } => 9,
    }
}

/// The status of an ending; a reason to stop is said.
fn finish<E: Sink>(err: &mut E, formula: &Formula, ending: Result<bool, Stop>) -> u8
    requires { EndsSoundly formula.now ending }
    ensures status { result ≡ status_of ending }
    ensures said { (line : List ℕ) × IsEndLine formula.now ending line
        × IsSaid (E.written err.old) (E.written err.new) (E.faults err.old) (E.faults err.new) line }
    ensures quiet { result ≤ 1 → err.new ≡ err.old }
    ensures later { E.faults err.old ≤ E.faults err.new }
{
    match ending {
        Ok(true) => 0,
        Ok(false) => 1,
        Err(stop) => {
            say(err, &stop_line(formula, stop));
            stop_status(stop)
        }
    }
}

/// Reads a stream to its end, tells how that came, and leaves what answered it; or says that there was no room for it.
fn streamed<P: Push, S: Source, K: Sink, E: Sink>(
    begun: Result<P, Memory>,
    input: &mut S,
    out: &mut K,
    err: &mut E,
    kept: &mut Kept,
) -> u8
    requires { IfOk begun (λ p. IsPushed (P.stands p) (P.request p) [] []) }
    ensures ran { (words : List (List ℕ)) (request : Request) → Asks words request → is_streamed request ≡ true → IfOk begun (λ p. P.request p ≡ request)
        → HasRun words (drained S.left S.ended S.ends S.gave S.asked S.faults input.old input.new)
        (filled K.written K.faults out.old out.new) (filled E.written E.faults err.old err.new) kept.old kept.new result }
    ensures known { ¬ ((result ≡ 2) ⊎ (result ≡ 3)) }
    ensures unkept { 2 ≤ result → kept.new ≡ kept.old }
    ensures calm { IsCalm (drained S.left S.ended S.ends S.gave S.asked S.faults input.old input.new) (filled K.written K.faults out.old out.new)
        (filled E.written E.faults err.old err.new) (err.new ≡ err.old) result }
{
    let mut pusher = match begun {
        Ok(pusher) => pusher,
        Err(_) => {
            say(err, &no_memory_line());
            return 7;
        }
    };
    let ending = stream(&mut pusher, input, out);
    let status = finish(err, pusher.formula(), ending);
    if ending.is_err() {
        return status;
    }
    *kept = pusher.into_kept();
    status
}

/// Writes the margins as the rows come, where they are streamed.
fn margins_of_rows<S: Source, K: Sink, E: Sink>(
    alloc: Global,
    formula: Formula,
    input: &mut S,
    out: &mut K,
    err: &mut E,
    kept: &mut Kept,
) -> u8
    ensures ran { (words : List (List ℕ)) (text : List ℕ) → IsAsked words (on_formula word.rwatch text) → IsFormulaOf text formula
        → HasRun words (drained S.left S.ended S.ends S.gave S.asked S.faults input.old input.new)
        (filled K.written K.faults out.old out.new) (filled E.written E.faults err.old err.new) kept.old kept.new result }
    ensures untouched { (words : List (List ℕ)) (text : List ℕ) → IsAsked words (on_formula word.rwatch text)
        → ((number rows : ℕ) → ¬ IsAsked words (of_workload number rows))
        → IsUntouched words (input.new ≡ input.old) (out.new ≡ out.old) (kept.new ≡ kept.old) result }
    ensures calm { IsCalm (drained S.left S.ended S.ends S.gave S.asked S.faults input.old input.new) (filled K.written K.faults out.old out.new)
        (filled E.written E.faults err.old err.new) (err.new ≡ err.old) result }
{
    if let Some(node) = first_unstreamed(&formula) {
        say(err, &not_streamed_line(node));
        return 3;
    }
    let live = Live::<Margins>::new(alloc, formula, STREAM_LIMITS);
    streamed(live, input, out, err, kept)
}

/// Answers by a formula, in the way that was asked for.
fn by_mode<S: Source, K: Sink, E: Sink>(
    alloc: Global,
    mode: Mode,
    formula: Formula,
    input: &mut S,
    out: &mut K,
    err: &mut E,
    kept: &mut Kept,
) -> u8
    ensures ran { (words : List (List ℕ)) (text : List ℕ) → IsAsked words (on_formula (verb_of mode) text) → IsFormulaOf text formula
        → HasRun words (drained S.left S.ended S.ends S.gave S.asked S.faults input.old input.new)
        (filled K.written K.faults out.old out.new) (filled E.written E.faults err.old err.new) kept.old kept.new result }
    ensures untouched { (words : List (List ℕ)) (text : List ℕ) → IsAsked words (on_formula (verb_of mode) text)
        → ((number rows : ℕ) → ¬ IsAsked words (of_workload number rows))
        → IsUntouched words (input.new ≡ input.old) (out.new ≡ out.old) (kept.new ≡ kept.old) result }
    ensures calm { IsCalm (drained S.left S.ended S.ends S.gave S.asked S.faults input.old input.new) (filled K.written K.faults out.old out.new)
        (filled E.written E.faults err.old err.new) (err.new ≡ err.old) result }
{
    match mode {
        Mode::Whole(command) => {
            let ending = whole(alloc, command, &formula, input, out);
            finish(err, &formula, ending)
        }
        Mode::Watch => {
            let live = Live::<Verdicts>::new(alloc, formula, STREAM_LIMITS);
            streamed(live, input, out, err, kept)
        }
        Mode::Early => {
            let live = Live::<Deciding>::new(alloc, formula, LIMITS);
            streamed(live, input, out, err, kept)
        }
        Mode::Mux => streamed(Many::new(alloc, formula), input, out, err, kept),
        Mode::Margins => margins_of_rows(alloc, formula, input, out, err, kept),
    }
}

/// Does what the words ask for, or tells why there is nothing to be done.
fn by_words<S: Source, K: Sink, E: Sink>(
    alloc: Global,
    words: &[String],
    input: &mut S,
    out: &mut K,
    err: &mut E,
    kept: &mut Kept,
) -> u8
    ensures ran { HasRun (map string_bytes words.now) (drained S.left S.ended S.ends S.gave S.asked S.faults input.old input.new)
        (filled K.written K.faults out.old out.new) (filled E.written E.faults err.old err.new) kept.old kept.new result }
    ensures untouched { IsUntouched (map string_bytes words.now) (input.new ≡ input.old) (out.new ≡ out.old) (kept.new ≡ kept.old) result }
    ensures calm { IsCalm (drained S.left S.ended S.ends S.gave S.asked S.faults input.old input.new) (filled K.written K.faults out.old out.new)
        (filled E.written E.faults err.old err.new) (err.new ≡ err.old) result }
{
    if let Some(workload) = workload_of(words) {
        return generate(alloc, workload, out, err);
    }
    let Some(asked) = asked(words) else {
        say(err, &no_form_line());
        return 2;
    };
    match parse(alloc, asked.text) {
        Ok(formula) => by_mode(alloc, asked.mode, formula, input, out, err, kept),
        Err(fault) => refuse(err, fault),
    }
}

/// Does all that the program does for its words, and answers the status with which it ends.
///
/// - 0 and 1: `out` got the whole text of the command. The input was read to its end, but for `gen`, which reads
///   none. After `watch`, `kept` is its watch, after `early` what decided, after `mux`, whose status is 0, its sessions, and after
///   `rwatch`, whose status is 0 as well, the network of margins.
/// - 2: the words are of no form.
/// - 3: the formula is refused; by `rwatch` one with until or since.
/// - 4: the bytes that were read have a first fault: of the trace, a column of the formula that the header lacks, or numbers of
///   the formula that do not fit in the header's ticks. For `mux`, of the input's lines.
/// - 5: `input` failed.
/// - 6: `out` failed, after a first part of the text.
/// - 7: memory was wanting.
/// - 8: the robustness needs too large a denominator.
/// - 9: an explanation would have too many cells.
///
/// From 2 on `err` gets one line; a fault of `err` changes no status. The words are judged first, then the formula, then the bytes
/// in their order. `watch`, `early` and `rwatch` write what each row answers before more is read, and `mux` what each line does, also
/// what comes before a fault. On each other status and command `kept` stays as it was.
pub fn run<S: Source, K: Sink, E: Sink>(
    alloc: Global,
    words: &[String],
    input: &mut S,
    out: &mut K,
    err: &mut E,
    kept: &mut Kept,
) -> u8
    // What the words ask for came to an end with this status, and with these bytes, this text and this line; and what it left.
    ensures ran { HasRun (map string_bytes words.now) (drained S.left S.ended S.ends S.gave S.asked S.faults input.old input.new)
        (filled K.written K.faults out.old out.new) (filled E.written E.faults err.old err.new) kept.old kept.new result }

    // A device that failed is said.
    ensures read_due { result ≢ 5 → S.faults input.new ≡ S.faults input.old }
    ensures write_due { result ≢ 6 → K.faults out.new ≡ K.faults out.old }

    // What was not touched, also of devices that do not tell their bytes.
    ensures unread { (result ≡ 2) ⊎ (result ≡ 3) ⊎ AskToGenerate (map string_bytes words.now) → input.new ≡ input.old }
    ensures nothing { 2 ≤ result → result ≢ 6 → (result ≤ 3) ⊎ AreHeld (map string_bytes words.now) → out.new ≡ out.old }
    ensures quiet { result ≤ 1 → err.new ≡ err.old }
    ensures unkept { (2 ≤ result) ⊎ AreHeld (map string_bytes words.now) → kept.new ≡ kept.old }

    // Counts of faults never fall.
    ensures input_later { S.faults input.old ≤ S.faults input.new }
    ensures out_later { K.faults out.old ≤ K.faults out.new }
    ensures err_later { E.faults err.old ≤ E.faults err.new }
{
    by_words(alloc, words, input, out, err, kept)
}
