//! Texts of formulas and their refusals, with answers by hand.

use super::checks::expect;
use std::process::Abort;
use std::test::Fail;
use stl_grammar::*;
use stl_syntax::Scale;

/// A text that stands for a formula, the text that the formula prints, and the digits of time and of value.
type Accepted<'a> = (&'a str, &'a str, u8, u8);

/// Compares what is read of a text.
fn compare<R: Abort + AllocGlobal>(
    rt: &R,
    text: &str,
    want: &str,
    scale: Scale,
) -> Result<(), Fail> {
    match parse(rt.alloc(), text) {
        Ok(formula) => {
            let print = formula.print()?;
            let holds = print.bytes() == want.as_bytes() && formula.scale() == scale;
            expect(rt, holds, text);
        }
        Err(_) => expect(rt, false, text),
    }
    Ok(())
}

/// Compares what is read of each text.
fn compare_all<R: Abort + AllocGlobal>(rt: &R, table: &[Accepted]) -> Result<(), Fail> {
    for (text, want, time, value) in table {
        let scale = Scale {
            time: *time,
            value: *value,
        };
        compare(rt, text, want, scale)?;
    }
    Ok(())
}

/// Compares the refusal of a text.
fn refuse<R: Abort + AllocGlobal>(rt: &R, text: &str, want: FormulaFault) {
    match parse(rt.alloc(), text) {
        Ok(_) => expect(rt, false, text),
        Err(fault) => expect(rt, fault == want, text),
    }
}

/// Atoms.
const ATOMS: [Accepted; 18] = [
    ("true", "true", 0, 0),
    (" \t\r\nfalse\n", "false", 0, 0),
    ("x >= 5", "x >= 5", 0, 0),
    ("x>5", "x > 5", 0, 0),
    ("x<=5", "x <= 5", 0, 0),
    ("x <5", "x < 5", 0, 0),
    ("x >= 007", "x >= 7", 0, 0),
    ("x >= -1073741824", "x >= -1073741824", 0, 0),
    ("x >= +1073741824", "x >= 1073741824", 0, 0),
    ("x >= 1.5", "x >= 1.5", 0, 1),
    ("x >= -1.50", "x >= -1.5", 0, 1),
    ("x >= 0.50000000", "x >= 0.5", 0, 1),
    ("x >= 1.000000", "x >= 1", 0, 0),
    ("- x + y > 1", "-x + y > 1", 0, 0),
    (
        "+3*x - 0*y + 16*z_1.a < 0",
        "3*x + 0*y + 16*z_1.a < 0",
        0,
        0,
    ),
    ("1.0*x - 01*x >= 0", "x - x >= 0", 0, 0),
    ("16*x >= 1073741824", "16*x >= 1073741824", 0, 0),
    ("x + x + x + x >= 0", "x + x + x + x >= 0", 0, 0),
];

/// Formulas of operators.
const OPERATORS: [Accepted; 24] = [
    ("not_a >= 1", "not_a >= 1", 0, 0),
    ("infinite >= 1", "infinite >= 1", 0, 0),
    ("not true", "not true", 0, 0),
    ("not(true)", "not true", 0, 0),
    ("not true and false", "not true and false", 0, 0),
    ("true or true and false", "true or (true and false)", 0, 0),
    ("true and true or false", "(true and true) or false", 0, 0),
    ("true or false or true", "(true or false) or true", 0, 0),
    ("true and false and true", "(true and false) and true", 0, 0),
    (
        "true implies false implies true",
        "true implies (false implies true)",
        0,
        0,
    ),
    (
        "(true implies false) implies true",
        "(true implies false) implies true",
        0,
        0,
    ),
    (
        "true until[1,2] false and true",
        "(true until[1,2] false) and true",
        0,
        0,
    ),
    (
        "not true since not false or true",
        "(not true since not false) or true",
        0,
        0,
    ),
    ("eventually[0,2] x >= 5", "eventually[0,2] x >= 5", 0, 0),
    (
        "eventually ] 0 , 2 ] x >= 5",
        "eventually]0,2] x >= 5",
        0,
        0,
    ),
    ("always[0,2[ true", "always[0,2[ true", 0, 0),
    ("eventually]2,2] x >= 5", "eventually]2,2] x >= 5", 0, 0),
    (
        "eventually[0,4294967295] true",
        "eventually[0,4294967295] true",
        0,
        0,
    ),
    ("once x >= 5", "once x >= 5", 0, 0),
    ("once[0,inf[ true", "once true", 0, 0),
    (
        "once[4294967295,inf] true",
        "once[4294967295,inf] true",
        0,
        0,
    ),
    (
        "historically]0,1[ true since[2,inf] true",
        "historically]0,1[ true since[2,inf] true",
        0,
        0,
    ),
    (
        "true since once[1,2.50] true",
        "true since once[1,2.5] true",
        1,
        0,
    ),
    (
        "always[0,1.5] (brake >= 1 implies eventually[0,0.199] speed <= 10)",
        "always[0,1.5] (brake >= 1 implies eventually[0,0.199] speed <= 10)",
        3,
        0,
    ),
];

#[test]
fn reads_formulas(rt: HostRuntime) -> Result<(), Fail> {
    compare_all(&rt, &ATOMS)?;
    compare_all(&rt, &OPERATORS)
}

/// Texts, where each goes wrong, and what was expected there.
const UNEXPECTED: [(&str, u32, What); 24] = [
    ("x >=", 4, What::Constant),
    ("x >= - y", 7, What::Constant),
    ("not", 3, What::Operand),
    ("true and and", 9, What::Operand),
    ("once ) true", 5, What::Operand),
    ("once 5 ] 1", 7, What::Star),
    ("()", 1, What::Operand),
    ("2 x >= 0", 2, What::Star),
    ("2* >= 0", 3, What::Name),
    ("2*inf >= 0", 2, What::Name),
    ("x + >= 0", 4, What::Term),
    ("x 5", 2, What::Relation),
    ("eventually[x,2] true", 11, What::Number),
    ("eventually[1,x] true", 13, What::Number),
    ("eventually[1 2] true", 13, What::Comma),
    ("eventually[1,2 true", 15, What::Bracket),
    ("true until[1,2[ true", 14, What::Bracket),
    ("true since]1,2] true", 10, What::Operand),
    ("(true", 5, What::Paren),
    ("(true true", 6, What::Paren),
    ("true true", 5, What::End),
    ("true )", 5, What::End),
    ("true since true since true", 16, What::End),
    ("x >= 1 eventually ]0,1] true", 7, What::End),
];

/// Texts and their refusals.
const REFUSED: [(&str, FormulaFault); 33] = [
    ("", FormulaFault::Empty),
    (" \t\r\n", FormulaFault::Empty),
    ("#", FormulaFault::BadByte { at: 0 }),
    ("x > = 1", FormulaFault::BadByte { at: 4 }),
    ("x >= 1.", FormulaFault::BadByte { at: 6 }),
    ("x >= .5", FormulaFault::BadByte { at: 5 }),
    ("xä >= 5", FormulaFault::BadByte { at: 1 }),
    ("17*x >= 0", FormulaFault::BadNumber { at: 0 }),
    ("17 x", FormulaFault::BadNumber { at: 0 }),
    ("1.5 x", FormulaFault::BadNumber { at: 0 }),
    ("x - 1.5*x >= 0", FormulaFault::BadNumber { at: 4 }),
    ("x >= 1073741825", FormulaFault::BadNumber { at: 5 }),
    ("x >= -1073741825", FormulaFault::BadNumber { at: 6 }),
    ("x >= 0.0000001", FormulaFault::BadNumber { at: 5 }),
    (
        "x >= 99999999999999999999999999",
        FormulaFault::BadNumber { at: 5 },
    ),
    (
        "x 99999999999999999999999999",
        FormulaFault::Expected {
            at: 2,
            what: What::Relation,
        },
    ),
    (
        "eventually[0,4294967296] true",
        FormulaFault::BadNumber { at: 13 },
    ),
    (
        "eventually[0.0000001,1] true",
        FormulaFault::BadNumber { at: 11 },
    ),
    (
        "eventually[3,2] x >= 1",
        FormulaFault::BoundOrder { at: 13 },
    ),
    ("once[0.3,0.29] true", FormulaFault::BoundOrder { at: 9 }),
    ("eventually x >= 1", FormulaFault::UnboundedFuture { at: 0 }),
    ("until", FormulaFault::UnboundedFuture { at: 0 }),
    ("x >= 1 eventually", FormulaFault::UnboundedFuture { at: 7 }),
    (
        "x + eventually >= 1",
        FormulaFault::UnboundedFuture { at: 4 },
    ),
    (
        "true until]0,2] x >= 5",
        FormulaFault::UnboundedFuture { at: 5 },
    ),
    (
        "eventually[0,inf] true",
        FormulaFault::UnboundedFuture { at: 13 },
    ),
    (
        "true until[0,inf] true",
        FormulaFault::UnboundedFuture { at: 13 },
    ),
    (
        "x + x + x + x + x >= 0",
        FormulaFault::TooManyTerms { at: 14 },
    ),
    (
        "once[4294967295,inf] once[1,inf] true",
        FormulaFault::ReachTooLarge { sum: 4294967296 },
    ),
    (
        "eventually[0,4294967295] always[0,1] x >= 0",
        FormulaFault::ReachTooLarge { sum: 4294967296 },
    ),
    (
        "eventually[0,4294967295] once[0,0.1] x >= 0",
        FormulaFault::ReachTooLarge { sum: 42949672951 },
    ),
    (
        "x >= 0.5 and x >= 1073741824",
        FormulaFault::ConstantTooLarge { node: 1 },
    ),
    (
        "not x >= -107374182.4 and not x >= 0.01",
        FormulaFault::ConstantTooLarge { node: 0 },
    ),
];

#[test]
fn tells_the_first_refusal(rt: HostRuntime) {
    for (text, at, what) in UNEXPECTED {
        refuse(&rt, text, FormulaFault::Expected { at, what });
    }
    for (text, fault) in REFUSED {
        refuse(&rt, text, fault);
    }
}
