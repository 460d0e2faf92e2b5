//! The one call of this crate: a text's formula, or its first refusal.
ghost use Rattle.std.specs.Prelude.{◌≡◌, ◌⊎◌, IfOk, IfErr};
ghost use Rattle.stl_syntax.specs.Characters.{is_blank as is_blank_byte, all};
ghost use Rattle.stl_grammar.specs.FormulaRefusals.{IsFormulaOf, IsFormulaFault, IsLateFault};
ghost use Rattle.stl_grammar.specs.ReadText.{IsRead, IsParsed};

use crate::build::build;
use crate::chars::is_blank;
use crate::digits::{time_decimals, value_decimals};
use crate::fault::FormulaFault;
use crate::reader::{ReadText, read};
use std::alloc::Global;
use stl_syntax::{Formula, Scale};

/// The most bytes of a formula's text.
const LONGEST_TEXT: usize = 8192;

/// Whether the text has only blanks.
fn is_empty(text: &[u8]) -> bool
    ensures { result ≡ all is_blank_byte text.now }
{
    for c in text {
        if !is_blank(*c) {
            return false;
        }
    }
    true
}

/// The formula of the text, with its numbers in ticks of the fewest digits that hold them; or else the text's first refusal, with
/// its place in bytes from 0.
///
/// The text and its refusals are this project's profile of signal temporal logic (Maler and Nickovic 2004).
///
/// # Errors
///
/// The first refusal of the text, with its place, exactly where it has one; `Memory` where memory is wanting.
pub fn parse(alloc: Global, text: &str) -> Result<Formula, FormulaFault>
    ensures ok { IfOk result (λ f. IsFormulaOf text.now f) }
    ensures fault { IfErr result (λ r. (r ≡ FormulaFault.Memory) ⊎ IsFormulaFault text.now r) }
{
    let bytes = text.as_bytes();
    if bytes.len() > LONGEST_TEXT {
        return Err(FormulaFault::TooLong {
            len: bytes.len() as u64,
        });
    }
    if is_empty(bytes) {
        return Err(FormulaFault::Empty);
    }
    match read(alloc, bytes) {
        Ok(reading) => finish(alloc, bytes, reading),
        Err(fault) => Err(fault),
    }
}

/// The formula of a text that was read.
fn finish(alloc: Global, text: &[u8], reading: ReadText) -> Result<Formula, FormulaFault>
    requires read { IsRead text.now reading.parser reading.tokens.items }
    ensures ok { IfOk result (λ f. IsParsed text.now f) }
    ensures fault { IfErr result (λ r. (r ≡ FormulaFault.Memory) ⊎ IsLateFault text.now r) }
{
    let ReadText { parser, tokens } = reading;
    let scale = Scale {
        time: time_decimals(&tokens),
        value: value_decimals(&tokens),
    };
    let Ok(drafts) = parser.finish() else {
        return Err(FormulaFault::Memory);
    };
    build(alloc, drafts, scale)
}
