//! Writing.
ghost use Rattle.std.specs.Prelude.{◌++◌, ℕ, List, Option};
ghost use Rattle.io_edge.specs.Causes.{HasCause};
ghost use Rattle.command_line.specs.Writing.{IsWritten};

use answer_lines::{LineRoom, LinesLeft};
use io_edge::{Failed, Sink};

/// Writes all of the text.
///
/// # Errors
/// The sink failed, and its count rose. A part of the text was written before, and not all of it.
pub fn write_all<K: Sink>(sink: &mut K, text: &[u8]) -> Result<(), Failed>
    ensures written { IsWritten (K.written sink.old) (K.written sink.new) result text.now }
    ensures cause { HasCause (K.faults sink.old) (K.faults sink.new) result }
{
    let mut at = 0;
    while at < text.len() {
        at += sink.write(&text[at..])?;
    }
    Ok(())
}

/// Writes the next piece of a text, unless the sink failed before.
///
/// # Errors
/// The sink failed in this piece, or in one before it.
fn write_on<K: Sink>(sink: &mut K, so_far: Result<(), Failed>, piece: &[u8]) -> Result<(), Failed>
    ensures written { (before : Option (List ℕ)) (text : List ℕ) → IsWritten before (K.written sink.old) so_far text
        → IsWritten before (K.written sink.new) result (text ++ piece.now) }
    ensures cause { (before : ℕ) → HasCause before (K.faults sink.old) so_far → HasCause before (K.faults sink.new) result }
{
    match so_far {
        Ok(()) => write_all(sink, piece),
        Err(failed) => Err(failed),
    }
}

/// Writes the lines that are left, a room of them at a time. Where the sink fails they are made to their end all the same, since what was
/// written is a part of the text that they come to.
///
/// # Errors
/// The sink failed, and its count rose. A part of the text was written before, and not all of it.
pub fn write_left<L: LinesLeft, K: Sink>(
    sink: &mut K,
    left: &mut L,
    room: &mut LineRoom,
) -> Result<(), Failed>
    requires { L.can_go_on left.old }
    ensures written { (text : List ℕ) × L.is_left left.old text × IsWritten (K.written sink.old) (K.written sink.new) result text }
    ensures cause { HasCause (K.faults sink.old) (K.faults sink.new) result }
{
    let mut so_far = Ok(());
    loop {
        room.clear();
        let more = left.put_some(room);
        so_far = write_on(sink, so_far, room.bytes());
        if !more {
            return so_far;
        }
    }
}
