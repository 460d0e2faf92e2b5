//! The generated trace: tables of its bytes from outside.
use super::checks::expect;
use std::test::Fail;
use workload::gen_trace;

/// Numbers, how many rows, and the bytes.
const TRACES: [(u64, u32, &str); 3] = [
    (0, 1, "time,x,s:step\n0,-884561,-884561\n"),
    (
        7,
        4,
        "time,x,s:step\n0,-14235,-14235\n4,955587,955587\n8,852651,852651\n12,-476586,-476586\n",
    ),
    (
        u64::MAX,
        2,
        "time,x,s:step\n0,489072,489072\n4,406826,406826\n",
    ),
];

#[test]
fn a_number_makes_a_trace(rt: HostRuntime) -> Result<(), Fail> {
    let alloc = rt.alloc();
    for (number, rows, bytes) in TRACES {
        assert!(rt; rows >= 1 && rows <= 200_000);
        let text = gen_trace(alloc, number, rows)?;
        expect(&rt, text.bytes() == bytes.as_bytes(), bytes);
    }
    Ok(())
}
