//! How far ahead formulas look, with answers by hand.
use super::checks::expect;
use std::test::Fail;
use stl_grammar::parse;

/// A formula, and its horizon.
const HORIZONS: [(&str, u64); 18] = [
    ("true", 0),
    ("x >= 5", 0),
    ("eventually[0,20] x >= 5", 20),
    ("always]5,100] x >= 5", 100),
    ("always]5,100] eventually[0,20] x >= 5", 120),
    ("not eventually[0,20] x >= 5", 20),
    ("eventually[0,20] x >= 5 and always]5,100] x >= 5", 100),
    ("always]5,100] x >= 5 or eventually[0,20] x >= 5", 100),
    ("eventually[0,20] x >= 5 implies always]5,100] x >= 5", 100),
    (
        "eventually[0,20] x >= 5 until[3,7] always]5,100] x >= 5",
        107,
    ),
    (
        "always]5,100] x >= 5 until[7,7] eventually[0,20] x >= 5",
        107,
    ),
    (
        "eventually[0,20] x >= 5 since[30,inf] always]5,100] x >= 5",
        70,
    ),
    (
        "eventually[0,20] x >= 5 since[90,95] always]5,100] x >= 5",
        20,
    ),
    (
        "eventually[0,20] x >= 5 since[0,95] always]5,100] x >= 5",
        100,
    ),
    ("once[30,inf] always]5,100] x >= 5", 70),
    ("once[30,40] eventually[0,20] x >= 5", 0),
    ("historically]1,2[ always]5,100] x >= 5", 99),
    ("eventually[0,4294967295] x >= 5", 4294967295),
];

#[test]
fn measures_horizons(rt: HostRuntime) -> Result<(), Fail> {
    for (text, want) in HORIZONS {
        match parse(rt.alloc(), text) {
            Ok(formula) => expect(&rt, formula.horizon() == want, text),
            Err(_) => expect(&rt, false, text),
        }
    }
    Ok(())
}
