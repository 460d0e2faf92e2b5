//! The program: the words after its name, over standard input, output and error.
#![tactic(auto)]

use io_edge::{ReadEdge, WriteEdge};
use std::process::ExitCode;
use std::{env, io};

/// The words after the program's name.
fn words(rt: &HostRuntime) -> io::Result<Vec<String>> {
    let words = env::args(rt)?.skip(1).collect(rt.alloc())?;
    Ok(words)
}

fn main(rt: HostRuntime) -> ExitCode {
    let words = words(&rt).ok();
    let mut input = ReadEdge::new(rt.stdin());
    let mut out = WriteEdge::new(rt.stdout());
    let mut err = WriteEdge::new(rt.stderr());
    ExitCode::from(workbench::program(rt.alloc(), words, &mut input, &mut out, &mut err))
}
