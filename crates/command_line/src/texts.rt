//! The lines for the error stream: one for each way in which a command can stop.
ghost use Rattle.std.specs.Prelude.{◌≡◌, ◌++◌, codes, decimal};
ghost use Rattle.stl_syntax.specs.Texts.{newline};
ghost use Rattle.command_line.specs.ErrTexts.{formula_fault_text, not_streamed_text, what_text, wide_text, too_many_cells_text};
ghost use Rattle.command_line.specs.ErrTexts.{out_of_memory, read_fault, write_fault};
ghost use Rattle.command_line.specs.Words.{usage_line};
ghost use Rattle.answer_lines.specs.Lines.{line_text};

use answer_lines::{Detail, Line};
use stl_grammar::{FormulaFault, What};

/// The line where memory was wanting.
const NO_MEMORY: &[u8] = b"out of memory\n";

/// The line where the words are of no form.
const USAGE: &[u8] =
    b"usage: check F | watch F | robust F | explain F | json F | table F | gen NUMBER ROWS | early F | mux F | rwatch F\n";

/// The line where memory was wanting.
pub fn no_memory_line() -> Line<'static>
    ensures { line_text result ≡ out_of_memory }
{
    Line::plain(NO_MEMORY)
}

/// The line where the input failed.
pub fn read_fault_line() -> Line<'static>
    ensures { line_text result ≡ read_fault }
{
    Line::plain(b"read fault\n")
}

/// The line where the output failed.
pub fn write_fault_line() -> Line<'static>
    ensures { line_text result ≡ write_fault }
{
    Line::plain(b"write fault\n")
}

/// The line where the words are of no form: it names those that are built.
pub fn no_form_line() -> Line<'static>
    ensures { line_text result ≡ usage_line }
{
    Line::plain(USAGE)
}

/// A line about a place of the formula.
fn at_place(place: u32, message: &'static [u8]) -> Line<'static>
    ensures { line_text result ≡ codes "formula at " ++ (decimal place ++ message.now) }
{
    Line::numbered(b"formula at ", u64::from(place), message)
}

/// What is expected, as the end of a line.
fn expected(what: What) -> &'static [u8]
    ensures { result.now ≡ codes ": expected " ++ what_text what ++ newline }
{
    match what {
        What::Operand => b": expected an operand\n",
        What::Number => b": expected a number\n",
        What::Comma => b": expected a comma\n",
        What::Bracket => b": expected a closing bracket\n",
        What::Star => b": expected a star\n",
        What::Name => b": expected a name\n",
        What::Term => b": expected a term\n",
        What::Relation => b": expected a relation\n",
        What::Constant => b": expected a constant\n",
        What::Paren => b": expected a closing parenthesis\n",
        What::End => b": expected a connective or the end\n",
    }
}

/// The line of a formula's refusal.
pub(crate) fn formula_line(fault: FormulaFault) -> Line<'static>
    ensures { line_text result ≡ formula_fault_text fault }
{
    match fault {
        FormulaFault::Empty => Line::plain(b"formula: empty\n"),
        FormulaFault::BadByte { at } => at_place(at, b": bad byte\n"),
        FormulaFault::Expected { at, what } => at_place(at, expected(what)),
        FormulaFault::BadNumber { at } => at_place(at, b": number too large\n"),
        FormulaFault::BoundOrder { at } => at_place(at, b": bounds out of order\n"),
        FormulaFault::UnboundedFuture { at } => at_place(at, b": unbounded future\n"),
        FormulaFault::TooManyTerms { at } => at_place(at, b": more than 4 terms\n"),
        FormulaFault::TooLong { len } => Line::numbered(b"formula: ", len, b" bytes\n"),
        FormulaFault::TooDeep { at } => at_place(at, b": nested deeper than 64\n"),
        FormulaFault::TooManyNodes { at } => at_place(at, b": more than 256 nodes\n"),
        FormulaFault::ReachTooLarge { sum } => {
            Line::numbered(b"formula: bounds sum to ", sum, b"\n")
        }
        FormulaFault::ConstantTooLarge { node } => Line::numbered(
            b"formula: node ",
            u64::from(node),
            b": constant too large\n",
        ),
        FormulaFault::Memory => Line::plain(NO_MEMORY),
    }
}

/// The line of a node for which margins are not streamed.
pub fn not_streamed_line(node: u32) -> Line<'static>
    ensures { line_text result ≡ not_streamed_text node }
{
    Line::numbered(b"formula: node ", u64::from(node), b" not streamed\n")
}

/// The line of a node that needs too large a denominator.
pub fn wide_line(node: u32, den: u128) -> Line<'static>
    ensures { line_text result ≡ wide_text node den }
{
    Line {
        head: b"wide: node ",
        number: Some(u64::from(node)),
        middle: b" needs denominator ",
        detail: Detail::Large(den),
        tail: b"\n",
    }
}

/// The line of an explanation with too many cells.
pub fn too_many_cells_line(count: u64) -> Line<'static>
    ensures { line_text result ≡ too_many_cells_text count }
{
    Line::numbered(b"too many cells: ", count, b"\n")
}
