//! The generated trace: rows of numbers that look random, the same for the same number.
ghost use Rattle.std.specs.Prelude.{◌≡◌, ◌≤◌, ◌++◌, ◌∷◌, [], IfOk, OnOk};
ghost use Rattle.workload.specs.Generated.{next_state as state_after, state_value as value_of, row_line, generated_bytes};

use frac128::Memory;
use itoa::Buffer;
use std::alloc::Global;
use stl_syntax::Text;

/// The state after a state.
fn next_state(state: u64) -> u64
    ensures { result ≡ state_after state }
{
    state
        .wrapping_mul(6_364_136_223_846_793_005)
        .wrapping_add(1_442_695_040_888_963_407)
}

/// The value of a state: its top 21 bits, about 0.
fn state_value(state: u64) -> i32
    ensures { result ≡ value_of state }
{
    (state >> 43) as i32 - 1_048_576
}

/// Appends the line of a row with one value in both columns.
fn put_row(text: &mut Text, time: u32, value: i32) -> Result<(), Memory>
    ensures { OnOk result (text.new ≡ text.old ++ row_line (record { time = time; values = value ∷ value ∷ [] })) }
{
    text.push(Buffer::new().format(time).as_bytes())?;
    let mut buffer = Buffer::new();
    let value = buffer.format(value).as_bytes();
    text.push(b",")?;
    text.push(value)?;
    text.push(b",")?;
    text.push(value)?;
    text.push(b"\n")
}

/// The bytes of the trace that `gen` judges for a number and so many rows: one row every 4 ticks, with one value in a ramp column `x`
/// and a step column `s`.
///
/// # Errors
/// Want of memory.
pub fn gen_trace(alloc: Global, number: u64, rows: u32) -> Result<Text, Memory>
    requires some { 1 ≤ rows }
    requires few { rows ≤ 200000 }
    ensures { IfOk result (λ text. text ≡ generated_bytes number rows) }
{
    let mut text = Text::new(alloc);
    text.push(b"time,x,s:step\n")?;
    let mut state = number;
    for row in 0..rows {
        state = next_state(state);
        put_row(&mut text, row * 4, state_value(state))?;
    }
    Ok(text)
}
