//! The whole program's one call, run over sources and sinks in memory: what is asked, how the devices behave, and what is to come of it.
//! It keeps nothing of a run: a crate that lets go of a `Kept` proves the drop of each of its parts again.
//! The crates of tests of the program share it.
#![tactic(auto)]

use io_edge::{MemSink, MemSource};
use std::alloc::{AllocError, Global};
use std::test::Fail;
use workbench::program;

/// What is asked, what is read, and what is to be written.
#[derive(Clone, Copy)]
pub struct Case<'a> {
    pub words: &'a [&'a str],
    pub input: &'a str,
    pub out: &'a str,
    pub err: &'a str,
    pub status: u8,
}

/// How a run's devices behave: the room of the output, most bytes a call, and the call of each that fails, 0 for none.
#[derive(Clone, Copy)]
pub struct Devices {
    pub room: usize,
    pub read_most: usize,
    pub write_most: usize,
    pub read_fails: u64,
    pub write_fails: u64,
    pub tell_fails: u64,
}

/// How a run ended: its status, and what its two sinks got.
#[derive(Drop)]
pub struct Ended {
    pub status: u8,
    pub out: MemSink,
    pub err: MemSink,
}

/// Pieces of this size, and no fault.
pub fn pieces(most: usize) -> Devices {
    Devices {
        room: 4096,
        read_most: most,
        write_most: most,
        read_fails: 0,
        write_fails: 0,
        tell_fails: 0,
    }
}

/// The words of a request.
pub fn strings(alloc: Global, words: &[&str]) -> Result<Vec<String>, AllocError> {
    let mut all = Vec::new(alloc);
    for word in words {
        all.push(String::from_str(alloc, word)?)?;
    }
    Ok(all)
}

/// A sink with so much room, that takes at most so many bytes a call, and of which one call fails.
pub fn sink(alloc: Global, room: usize, most: usize, fails: u64) -> Result<MemSink, Fail> {
    let fails = Vec::from_slice(alloc, &[fails])?;
    match MemSink::new(alloc, room, most.max(1), fails) {
        Ok(sink) => Ok(sink),
        Err(memory) => Err(Fail::from(memory)),
    }
}

/// An input of these bytes that gives at most so many a call, and of which one call fails.
pub fn source(alloc: Global, bytes: &[u8], most: usize, fails: u64) -> Result<MemSource, Fail> {
    let fails = Vec::from_slice(alloc, &[fails])?;
    let bytes = Vec::from_slice(alloc, bytes)?;
    Ok(MemSource::new(bytes, most.max(1), fails))
}

/// The status of a run, of which nothing is kept.
pub fn status_of(
    alloc: Global,
    words: Vec<String>,
    input: &mut MemSource,
    out: &mut MemSink,
    err: &mut MemSink,
) -> u8 {
    program(alloc, Some(words), input, out, err)
}

/// Runs the words over the input.
pub fn runs(alloc: Global, case: Case<'_>, devices: Devices) -> Result<Ended, Fail> {
    let words = strings(alloc, case.words)?;
    let mut input = source(
        alloc,
        case.input.as_bytes(),
        devices.read_most,
        devices.read_fails,
    )?;
    let mut out = sink(alloc, devices.room, devices.write_most, devices.write_fails)?;
    let mut err = sink(alloc, 4096, devices.write_most, devices.tell_fails)?;
    let status = status_of(alloc, words, &mut input, &mut out, &mut err);
    Ok(Ended { status, out, err })
}

/// Whether the run writes the first bytes of what is expected, so many or all, and answers the status and its line.
pub fn agrees_so_far(
    alloc: Global,
    case: Case<'_>,
    devices: Devices,
    written: usize,
) -> Result<bool, Fail> {
    let end = runs(alloc, case, devices)?;
    let out = case.out.as_bytes();
    let first = &out[..written.min(out.len())];
    Ok(
        end.status == case.status
            && end.out.written() == first
            && end.err.written() == case.err.as_bytes(),
    )
}

/// Whether the run writes what is expected, and answers the status.
pub fn agrees(alloc: Global, case: Case<'_>, devices: Devices) -> Result<bool, Fail> {
    agrees_so_far(alloc, case, devices, case.out.len())
}

/// Whether it does so for pieces of each size up to `most`, and for all bytes at once.
pub fn agrees_however_cut(alloc: Global, case: Case<'_>, most: usize) -> Result<bool, Fail> {
    for size in 1..=most {
        if !agrees(alloc, case, pieces(size))? {
            return Ok(false);
        }
    }
    agrees(alloc, case, pieces(4096))
}

/// A formula and an input, what is written and told, and the status.
pub type Asked<'a> = (&'a str, &'a str, &'a str, &'a str, u8);

/// How many rows stand before the first that the command answers otherwise, all of the table where there is none: for pieces of each
/// size up to 64, and for all bytes at once.
pub fn rows_answered(alloc: Global, command: &str, table: &[Asked<'_>]) -> Result<usize, Fail> {
    for (i, (formula, input, out, err, status)) in table.iter().enumerate() {
        let words: &[&str] = &[command, formula];
        let case = Case {
            words,
            input,
            out,
            err,
            status: *status,
        };
        if !agrees_however_cut(alloc, case, input.len().min(64))? {
            return Ok(i);
        }
    }
    Ok(table.len())
}

/// The first bytes of a text.
pub fn first_bytes(alloc: Global, text: &str, count: usize) -> Result<String, Fail> {
    let mut front = String::new(alloc);
    for (i, c) in text.chars().enumerate() {
        if i < count {
            front.push(c)?;
        }
    }
    Ok(front)
}
