//! Reading the trace of a formula from a source.
ghost use Rattle.std.specs.Prelude.{◌≡◌, ◌≢◌, ◌^◌, ◌≤◌, [], MatchResult, MatchOption, Err};
ghost use Rattle.io_edge.specs.Causes.{Rose, after_end};
ghost use Rattle.trace_stream.specs.Kept.{IsKeptAs};
ghost use Rattle.whole_answers.specs.FromSource.{IsReadAs, IsStop};

use crate::no_answer::{NoAnswer, outcome_from, reason_from};
use io_edge::Source;
use std::alloc::Global;
use stl_syntax::Formula;
use trace_reader::Limits;
use trace_stream::{CaseReader, Keep};

/// Reads the source to its end.
fn read_all<S: Source, K: Keep>(
    reading: &mut CaseReader<K>,
    input: &mut S,
    alloc: Global,
    formula: &Formula,
) -> Result<(), NoAnswer>
    requires lines { reading.old.rows.limits.lines ≤ 2 ^ 33 }
    requires empty { IsKeptAs K.stands formula.now reading.old.rows reading.old.kept [] }
    ensures read { MatchResult result
        (λ _. MatchOption reading.new.kept ⊥
        (IsReadAs K.stands reading.old.rows.limits formula.now (S.left input.old) (S.left input.new) (S.ended input.new)))
        (λ stop. IsStop reading.old.rows.limits formula.now (S.left input.old) (S.left input.new) (S.ended input.new) stop) }
    ensures later { S.faults input.old ≤ S.faults input.new }
    ensures unread { result ≡ Err NoAnswer.Unread → Rose (S.faults input.old) (S.faults input.new) }
    ensures still { result ≢ Err NoAnswer.Unread → S.faults input.new ≡ S.faults input.old }
    ensures ends { S.ends input.new ≡ after_end (S.ended input.new) (S.ends input.old) }
{
    let mut buffer = [0u8; 4096];
    for _reads in 0..u64::MAX {
        let Ok(count) = input.read(&mut buffer) else {
            return Err(NoAnswer::Unread);
        };
        if count == 0 {
            return outcome_from(reading.finish(alloc, formula));
        }
        if let Err(stop) = reading.feed(alloc, &buffer[..count], formula) {
            return Err(reason_from(stop));
        }
    }
    unreachable!()
}

/// Reads the trace of a formula, in pieces of at most 4,096 bytes, and answers what was kept of it.
///
/// # Errors
/// The bytes have a fault for the formula, the source failed, or memory was wanting.
pub fn read_trace<S: Source, K: Keep>(
    input: &mut S,
    formula: &Formula,
    limits: Limits,
    alloc: Global,
) -> Result<K, NoAnswer>
    requires rows { limits.rows ≤ 2 ^ 32 }
    requires lines { limits.lines ≤ 2 ^ 33 }
    ensures read { MatchResult result
        (λ kept. IsReadAs K.stands limits formula.now (S.left input.old) (S.left input.new) (S.ended input.new) kept)
        (λ stop. IsStop limits formula.now (S.left input.old) (S.left input.new) (S.ended input.new) stop) }
    ensures later { S.faults input.old ≤ S.faults input.new }
    ensures unread { result ≡ Err NoAnswer.Unread → Rose (S.faults input.old) (S.faults input.new) }
    ensures still { result ≢ Err NoAnswer.Unread → S.faults input.new ≡ S.faults input.old }
    ensures ends { result ≢ Err NoAnswer.NoMemory → S.ends input.new ≡ after_end (S.ended input.new) (S.ends input.old) }
{
    let Ok(mut reading) = CaseReader::new(alloc, formula, limits) else {
        return Err(NoAnswer::NoMemory);
    };
    read_all(&mut reading, input, alloc, formula)?;
    match reading.into_kept() {
        Some(kept) => Ok(kept),
        None => unreachable!(),
    }
}
