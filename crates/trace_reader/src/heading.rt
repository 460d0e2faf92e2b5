//! Reads the header of a trace.
ghost use Rattle.std.specs.Prelude.{◌≡◌, ◌≢◌, ◌≤◌, ◌<◌, ◌++◌, [], List, ℕ, Bool, MatchOption, MatchResult, length, Some, option_copied, bytes_eq, codes};
ghost use Rattle.trace_reader.specs.TraceText.{IsMode, IsDigits, IsTimeField, IsHeading, scale_of};
ghost use Rattle.trace_reader.specs.TraceRefusals.{name_part, TimeFault, ColumnFault, HeaderFault};
ghost use Rattle.trace_reader.specs.LineParts.{fields_of};
ghost use Rattle.trace_reader.specs.Headings.{AreNames, IsColumnMore, IsHeadingRead};
ghost use Rattle.trace_reader.specs.declared.refusal.TraceKind.{TraceKind as Kind};

use crate::TraceKind;
use crate::field::{count_fields, cut_field};
use crate::name::is_name;
use crate::room::{Heading, HeadingRoom};
use memchr::memchr;
use stl_syntax::Scale;

/// A header field up to its first colon, and the rest of it.
fn cut_name(field: &[u8]) -> (&[u8], &[u8])
    ensures name { result.0.now ≡ name_part field.now }
    ensures whole { field.now ≡ result.0.now ++ result.1.now }
{
    match memchr(b':', field) {
        Some(at) => (&field[..at], &field[at..]),
        None => (field, &field[field.len()..]),
    }
}

/// Whether the name is that of the first field.
fn is_time(name: &[u8]) -> bool
    ensures { result ≡ bytes_eq name.now (codes "time") }
{
    name == b"time".as_slice()
}

/// How many decimals a header field allows, by what it ends with.
fn read_digits(text: &[u8]) -> Option<u8>
    ensures { MatchOption result ((n : ℕ) → ¬ IsDigits text.now n) (λ n. IsDigits text.now n × (n ≤ 6)) }
{
    let Some((colon, rest)) = text.split_first() else {
        return Some(0);
    };
    let (digit, others) = rest.split_first()?;
    if *colon != b':' || !others.is_empty() || *digit < b'0' || *digit > b'6' {
        return None;
    }
    Some(*digit - b'0')
}

/// Whether a column is one of steps, and how many decimals it allows, by what follows its name.
fn read_mode(text: &[u8]) -> Option<(bool, u8)>
    ensures { MatchOption result
        ((m d : List ℕ) (s : Bool) (n : ℕ) → IsMode m s → IsDigits d n → text.now ≢ m ++ d)
        (λ p. (m : List ℕ) × (d : List ℕ) × (text.now ≡ m ++ d) × IsMode m p.0 × IsDigits d p.1 × (p.1 ≤ 6)) }
{
    if let Some(rest) = text.strip_prefix(b":ramp") {
        return Some((false, read_digits(rest)?));
    }
    if let Some(rest) = text.strip_prefix(b":step") {
        return Some((true, read_digits(rest)?));
    }
    Some((false, read_digits(text)?))
}

/// How many decimals the first field of a header allows.
fn read_time_field(field: &[u8]) -> Result<u8, TraceKind>
    ensures { MatchResult result
        (λ n. IsTimeField field.now n × (n ≤ 6) × ((k : Kind) → ¬ TimeFault field.now k))
        (TimeFault field.now) }
{
    let (name, rest) = cut_name(field);
    if !is_time(name) {
        return Err(TraceKind::BadName { field: 1 });
    }
    match read_digits(rest) {
        Some(digits) => Ok(digits),
        None => Err(TraceKind::BadMode { field: 1 }),
    }
}

/// Adds the column of a further header field.
fn read_column(room: &mut HeadingRoom, place: u32, field: &[u8]) -> Result<(), TraceKind>
    requires { length room.old.columns < 64 }
    ensures { MatchResult result
        (λ _. IsColumnMore field.now room.old room.new)
        (λ e. (earlier : List (List ℕ)) → AreNames earlier room.old.columns → ColumnFault place earlier field.now e) }
{
    let (name, rest) = cut_name(field);
    if !is_name(name) {
        return Err(TraceKind::BadName { field: place });
    }
    let Some((step, digits)) = read_mode(rest) else {
        return Err(TraceKind::BadMode { field: place });
    };
    if is_time(name) || room.has(name) {
        return Err(TraceKind::SameName { field: place });
    }
    room.add(name, step, digits);
    Ok(())
}

/// Reads the fields of a header, in ticks that have their decimals and those of `least`.
///
/// # Errors
/// The first fault of the fields.
pub(crate) fn read_heading(
    mut room: HeadingRoom,
    least: Scale,
    text: &[u8],
) -> Result<Heading, TraceKind>
    requires room { room ≡ record { columns = []; digits = [] } }
    requires size { length text.now ≤ 4096 }
    requires least { (least.time ≤ 6) × (least.value ≤ 6) }
    ensures { MatchResult result
        (IsHeadingRead least (fields_of (Some text.now)))
        (HeaderFault (fields_of (Some text.now))) }
{
    let count = count_fields(text);
    if count > 65 {
        return Err(TraceKind::TooManyColumns { count: count - 1 });
    }
    let (first, mut left) = cut_field(text);
    let time = read_time_field(first)?;
    for place in 2..count + 1 {
        let Some(text) = left else { unreachable!() };
        let (field, rest) = cut_field(text);
        read_column(&mut room, place, field)?;
        left = rest;
    }
    Ok(room.heading(time, least))
}
