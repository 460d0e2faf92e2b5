//! `gen`: what is written for a number and so many rows, from outside.
use crate::expecting::expect;
use program_cases::{Case, agrees, pieces};
use std::test::Fail;

/// A number, how many rows, and the summary.
const SUMMARIES: [(&str, &str, &str); 6] = [
    ("0", "1", "rows 1\ncheck 1\nwatch 1\nstart false\n"),
    ("3", "5", "rows 5\ncheck 1\nwatch 2\nstart true\n"),
    ("3", "100", "rows 100\ncheck 16\nwatch 112\nstart true\n"),
    (
        "0003",
        "0100",
        "rows 100\ncheck 16\nwatch 112\nstart true\n",
    ),
    (
        "18446744073709551615",
        "1",
        "rows 1\ncheck 1\nwatch 1\nstart true\n",
    ),
    (
        "7",
        "20000",
        "rows 20000\ncheck 2554\nwatch 22550\nstart true\n",
    ),
];

#[test]
fn a_workload_is_counted(rt: HostRuntime) -> Result<(), Fail> {
    let alloc = rt.alloc();
    for (i, (number, rows, out)) in SUMMARIES.iter().enumerate() {
        let case = Case {
            words: &["gen", number, rows],
            input: "not read",
            out,
            err: "",
            status: 0,
        };
        expect(&rt, agrees(alloc, case, pieces(4096))?, "gen", i);
    }
    Ok(())
}
