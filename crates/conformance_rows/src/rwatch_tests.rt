//! `rwatch` as a whole: tables of answers from outside, for every cut.
use crate::expecting::{expect, expect_each};
use program_cases::{Asked, Case, Devices, agrees_so_far, pieces};
use std::test::Fail;

const RISE: &str = "time,x\n0,0\n10,10\n";

const TRIANGLE: &str = "time,x\n0,0\n5,5\n10,0\n";

const VALLEY: &str = "time,x\n0,6\n3,0\n9,6\n";

/// What is told of `eventually[0,3] x >= 0` on it: the first line by the second row, the others by the third.
const AHEAD: &str = "[0] 6\n(0,2) 6 -> 2\n[2] 2\n(2,6) 2 -> 6\n[6] 6\n(6,9) 6 -> 6\n[9] 6\n";

/// Formulas and inputs, what is written and told, and the status: those that are not streamed are refused.
const MARGINS: [Asked<'static>; 11] = [
    ("eventually[0,3] x >= 0", VALLEY, AHEAD, "", 0),
    ("x >= 5", RISE, "[0] -5\n(0,10) -5 -> 5\n[10] 5\n", "", 0),
    (
        "not x >= 5",
        RISE,
        "[0] 5\n(0,10) 5 -> -5\n[10] -5\n",
        "",
        0,
    ),
    (
        "x >= 5 and x <= 8",
        RISE,
        "[0] -5\n(0,13/2) -5 -> 3/2\n[13/2] 3/2\n(13/2,10) 3/2 -> -2\n[10] -2\n",
        "",
        0,
    ),
    (
        "eventually[0,10] x >= 5",
        TRIANGLE,
        "[0] 0\n(0,5) 0 -> 0\n[5] 0\n(5,10) 0 -> -5\n[10] -5\n",
        "",
        0,
    ),
    (
        "once[0,4] x >= 5",
        RISE,
        "[0] -5\n(0,10) -5 -> 5\n[10] 5\n",
        "",
        0,
    ),
    (
        "historically x >= 5",
        RISE,
        "[0] -5\n(0,10) -5 -> -5\n[10] -5\n",
        "",
        0,
    ),
    (
        "true until[0,1] x >= 0",
        RISE,
        "",
        "formula: node 2 not streamed\n",
        3,
    ),
    (
        "x >= 5 until[0,1] x <= 3",
        RISE,
        "",
        "formula: node 2 not streamed\n",
        3,
    ),
    (
        "not (x >= 5 since x <= 3)",
        RISE,
        "",
        "formula: node 2 not streamed\n",
        3,
    ),
    ("x >=", RISE, "", "formula at 4: expected a constant\n", 3),
];

/// Windows of all kinds, worked out by another program: with open ends, of one instant, empty, without a far bound, and in one another.
const WINDOWS: [Asked<'static>; 17] = [
    (
        "eventually[2,3] (once]2,5] (x <= 1))",
        "time,x\n2,2\n5,-2\n9,1\n12,4\n14,4\n16,-1\n",
        "[2] 1/3\n(2,4) 1/3 -> 3\n[4] 3\n(4,6) 3 -> 3\n[6] 3\n(6,8) 3 -> 3\n[8] 3\n(8,9) 3 -> 9/4\n[9] 9/4\n(9,11) 9/4 -> 3/4\n[11] 3/4\n(11,12) 3/4 -> 0\n[12] 0\n(12,13) 0 -> -1\n[13] -1\n(13,14) -1 -> -2\n[14] -2\n(14,16) -inf -> -inf\n[16] -inf\n",
        "",
        0,
    ),
    (
        "historically[2,5] (eventually]2,5] (x <= -1))",
        "time,x\n0,1\n3,6\n8,-2\n9,-4\n",
        "[0] inf\n(0,2) inf -> inf\n[2] -19/5\n(2,5) -19/5 -> -19/5\n[5] -19/5\n(5,6) -19/5 -> -11/5\n[6] -11/5\n(6,8) -11/5 -> 1\n[8] 1\n(8,9) 1 -> 3\n[9] -inf\n",
        "",
        0,
    ),
    (
        "((historically]2,3[ (x >= -1)) and (always]0,3[ (x >= -3)))",
        "time,x\n2,0\n4,3\n7,0\n8,7\n12,-2\n14,-2\n",
        "[2] 3\n(2,14/5) 3 -> 21/5\n[14/5] 21/5\n(14/5,4) 21/5 -> 3\n[4] 3\n(4,5) 1 -> 1\n[5] 1\n(5,19/3) 1 -> 3\n[19/3] 3\n(19/3,7) 3 -> 3\n[7] 3\n(7,9) 3 -> 1\n[9] 1\n(9,11) 1 -> 1\n[11] 1\n(11,118/9) 1 -> 1\n[118/9] 1\n(118/9,14) 1 -> -1\n[14] -1\n",
        "",
        0,
    ),
    (
        "once[2,3] (always]4,6[ (x >= 0))",
        "time,x\n3,-4\n4,-2\n8,-3\n11,-1\n",
        "[3] -inf\n(3,4) -inf -> -inf\n[4] -inf\n(4,5) -inf -> -inf\n[5] -3\n(5,6) -3 -> -3\n[6] -3\n(6,7) -3 -> -7/3\n[7] -7/3\n(7,9) -7/3 -> -1\n[9] inf\n(9,11) inf -> inf\n[11] inf\n",
        "",
        0,
    ),
    (
        "eventually[4,6[ (historically[0,3] (eventually[3,3] (x >= 6)))",
        "time,x\n3,8\n8,7\n13,6\n14,4\n",
        "[3] 3/5\n(3,4) 3/5 -> 2/5\n[4] 2/5\n(4,5) 2/5 -> 1/5\n[5] 1/5\n(5,6) 1/5 -> 0\n[6] 0\n(6,7) 0 -> -2\n[7] -2\n(7,14) -inf -> -inf\n[14] -inf\n",
        "",
        0,
    ),
    (
        "((historically[3,4] (not (x <= 0))) and (once]0,5[ (((x <= 1) and (x >= -2)))))",
        "time,x\n1,-3\n6,5\n11,7\n15,2\n17,2\n21,4\n",
        "[1] -inf\n(1,41/16) -1 -> 3/2\n[41/16] 3/2\n(41/16,4) 3/2 -> 3/2\n[4] -3\n(4,5) -3 -> -3\n[5] -3\n(5,6) -3 -> -7/5\n[6] -7/5\n(6,123/16) -7/5 -> 13/10\n[123/16] 13/10\n(123/16,11) 13/10 -> -4\n[11] -4\n(11,403/33) -4 -> -148/33\n[403/33] -148/33\n(403/33,15) -148/33 -> -1\n[15] -1\n(15,17) -1 -> -1\n[17] -1\n(17,21) -1 -> -1\n[21] -1\n",
        "",
        0,
    ),
    (
        "always[3,8] (historically[2,5] (eventually[0,1] (x >= -1)))",
        "time,x\n1,4\n6,6\n7,1\n8,-3\n10,-1\n13,1\n",
        "[1] 2\n(1,9/5) 2 -> -6/5\n[9/5] -6/5\n(9/5,2) -6/5 -> -6/5\n[2] -6/5\n(2,5) -6/5 -> -6/5\n[5] -6/5\n(5,49/5) -6/5 -> -6/5\n[49/5] -6/5\n(49/5,10) -6/5 -> -1\n[10] -1\n(10,13) inf -> inf\n[13] inf\n",
        "",
        0,
    ),
    (
        "historically]2,3[ (eventually[1,2] (((x <= 3) or (x >= 3))))",
        "time,x\n0,-1\n4,2\n6,0\n",
        "[0] inf\n(0,2) inf -> inf\n[2] inf\n(2,4) 13/4 -> 7/4\n[4] 7/4\n(4,31/7) 7/4 -> 10/7\n[31/7] 10/7\n(31/7,38/7) 10/7 -> 10/7\n[38/7] 10/7\n(38/7,6) 10/7 -> 2\n[6] 2\n",
        "",
        0,
    ),
    (
        "once[3,3] (x <= -2)",
        "time,x\n0,4\n1,-3\n6,2\n10,-3\n13,0\n",
        "[0] -inf\n(0,1) -inf -> -inf\n[1] -inf\n(1,3) -inf -> -inf\n[3] -6\n(3,4) -6 -> 1\n[4] 1\n(4,6) 1 -> -1\n[6] -1\n(6,9) -1 -> -4\n[9] -4\n(9,10) -4 -> -11/4\n[10] -11/4\n(10,13) -11/4 -> 1\n[13] 1\n",
        "",
        0,
    ),
    (
        "((not (x >= -1)) implies (historically[2,inf[ (x <= 4)))",
        "time,x\n3,6\n4,6\n7,5\n11,4\n12,0\n",
        "[3] inf\n(3,4) inf -> inf\n[4] inf\n(4,5) inf -> inf\n[5] 20/3\n(5,7) 20/3 -> 6\n[7] 6\n(7,11) 6 -> 5\n[11] 5\n(11,12) 5 -> 1\n[12] 1\n",
        "",
        0,
    ),
    (
        "always[2,4[ (historically[2,3[ (eventually]1,4] (x >= 3)))",
        "time,x\n1,7\n3,5\n8,8\n13,6\n",
        "[1] 16/5\n(1,2) 16/5 -> 16/5\n[2] 16/5\n(2,5) 16/5 -> 5\n[5] 5\n(5,7) 5 -> 21/5\n[7] 21/5\n(7,9) 21/5 -> 17/5\n[9] 17/5\n(9,11) 17/5 -> 17/5\n[11] 17/5\n(11,13) inf -> inf\n[13] inf\n",
        "",
        0,
    ),
    (
        "not (historically]2,2[ (always]3,3[ (x <= -1)))",
        "time,x\n2,7\n4,-3\n9,0\n12,0\n17,-4\n",
        "[2] -inf\n(2,3) -inf -> -inf\n[3] -inf\n(3,8) -inf -> -inf\n[8] -inf\n(8,11) -inf -> -inf\n[11] -inf\n(11,16) -inf -> -inf\n[16] -inf\n(16,17) -inf -> -inf\n[17] -inf\n",
        "",
        0,
    ),
    (
        "historically]2,inf[ (((not (x <= 2)) and (x <= -1)))",
        "time,x\n0,-2\n3,5\n7,6\n11,3\n",
        "[0] inf\n(0,2) inf -> inf\n[2] inf\n(2,3) -4 -> -4\n[3] -4\n(3,29/7) -4 -> -4\n[29/7] -4\n(29/7,5) -4 -> -6\n[5] -6\n(5,7) -6 -> -13/2\n[7] -13/2\n(7,9) -13/2 -> -7\n[9] -7\n(9,11) -7 -> -7\n[11] -7\n",
        "",
        0,
    ),
    (
        "((historically]1,6] (x >= -3)) or (once]2,inf[ (x >= 3)))",
        "time,x\n0,-3\n1,6\n6,-2\n7,-1\n11,2\n14,2\n",
        "[0] inf\n(0,1) inf -> inf\n[1] inf\n(1,8/3) 0 -> 0\n[8/3] 0\n(8/3,3) 0 -> 3\n[3] 3\n(3,6) 3 -> 3\n[6] 3\n(6,7) 3 -> 3\n[7] 3\n(7,11) 3 -> 3\n[11] 3\n(11,14) 3 -> 3\n[14] 3\n",
        "",
        0,
    ),
    (
        "always[1,2] (((x >= -2) and (once[4,5] (x <= 6))))",
        "time,x\n3,3\n4,6\n7,5\n11,-1\n12,-1\n13,4\n",
        "[3] -inf\n(3,5) -inf -> -inf\n[5] -inf\n(5,6) -inf -> -inf\n[6] 3\n(6,69/10) 3 -> 3/10\n[69/10] 3/10\n(69/10,79/10) 3/10 -> 3/10\n[79/10] 3/10\n(79/10,9) 3/10 -> 2/3\n[9] 2/3\n(9,10) 2/3 -> 1\n[10] 1\n(10,11) 1 -> 1\n[11] 1\n(11,80/7) 1 -> 22/7\n[80/7] 22/7\n(80/7,12) 22/7 -> 4\n[12] 4\n(12,13) inf -> inf\n[13] inf\n",
        "",
        0,
    ),
    (
        "once]4,7[ (once[0,1] (always]3,4[ (x >= 1)))",
        "time,x\n3,7\n8,2\n13,7\n16,4\n21,2\n",
        "[3] -inf\n(3,7) -inf -> -inf\n[7] -inf\n(7,8) 2 -> 2\n[8] 2\n(8,10) 2 -> 2\n[10] 2\n(10,13) 2 -> 5\n[13] 5\n(13,27/2) 5 -> 11/2\n[27/2] 11/2\n(27/2,16) 11/2 -> 11/2\n[16] 11/2\n(16,35/2) 11/2 -> 11/2\n[35/2] 11/2\n(35/2,20) 11/2 -> 3\n[20] 3\n(20,21) 3 -> 13/5\n[21] 13/5\n",
        "",
        0,
    ),
    (
        "((historically[0,1] (x >= 2)) implies (historically[1,1] (x <= 6)))",
        "time,x\n3,-1\n6,1\n8,3\n12,-1\n14,1\n19,6\n",
        "[3] inf\n(3,4) inf -> inf\n[4] 7\n(4,6) 7 -> 17/3\n[6] 17/3\n(6,7) 17/3 -> 5\n[7] 5\n(7,8) 5 -> 4\n[8] 4\n(8,9) 4 -> 3\n[9] 3\n(9,12) 3 -> 6\n[12] 6\n(12,13) 6 -> 7\n[13] 7\n(13,14) 7 -> 6\n[14] 6\n(14,19) 6 -> 1\n[19] 1\n",
        "",
        0,
    ),
];

/// Margins that need too large a denominator once some rows have come; what the rows before answered is told.
const WIDE: [Asked<'static>; 4] = [
    (
        "(always[0,1000] eventually[0,1048575] x >= 0) and y >= 0",
        "time,x,y\n0,1048576,-1\n1048575,0,1048575\n2097152,1048575,0\n",
        "",
        "wide: node 4 needs denominator 2305841909703114752\n",
        8,
    ),
    (
        "(always[0,1000] eventually[0,1048575] x >= 0) and y >= 0",
        "time,x,y\n0,1048576,-1\n2000000,1048576,-1\n3048575,0,1048575\n4097152,1048575,0\n",
        "[0] -1\n(0,950425) -1 -> -1\n[950425] -1\n(950425,1999000) -1 -> -1\n[1999000] -1\n",
        "wide: node 4 needs denominator 2305841909703114752\n",
        8,
    ),
    (
        "historically[143890,648306] (once[133258,447862[ (-7*z <= -950))",
        "time,z\n2,-8728724\n5,1883929\n8,-8475573\n9,-3230139\n967651,7113481\n967652,-2091660\n",
        "[2] inf\n(2,5) inf -> inf\n[5] inf\n(5,8) inf -> inf\n[8] inf\n(8,9) inf -> inf\n[9] inf\n",
        "wide: node 2 needs denominator 4432693022285052793\n",
        8,
    ),
    (
        "always]199999978,499999945[ (2*x - q <= 5 implies (historically[199999978,399999956] (x + q > 0 or q < 2)))",
        "time,x,q\n0,11184011,-11184000\n209715203,-16776009,-9320003\n314572805,14912011,-7455999\n419430408,-11184006,-9319999\n734003212,1,-14912007\n1153433617,-1863995,3728005\n1363148821,-9319999,-3727998\n",
        "[0] 404491106846477/52428801\n(0,258055442606921/17708014) 404491106846477/52428801 -> 66015490172018/8854007\n[258055442606921/17708014] 66015490172018/8854007\n(258055442606921/17708014,234003267) 66015490172018/8854007 -> 66015490172018/8854007\n[234003267] 66015490172018/8854007\n",
        "wide: node 6 needs denominator 16394750197353269613877\n",
        8,
    ),
];

#[test]
fn margins_are_told_however_the_bytes_are_cut(rt: HostRuntime) -> Result<(), Fail> {
    expect_each(&rt, rt.alloc(), "rwatch", &MARGINS)?;
    expect_each(&rt, rt.alloc(), "rwatch", &WINDOWS)?;
    expect_each(&rt, rt.alloc(), "rwatch", &WIDE)
}

/// How many bytes of `VALLEY` were read, and how many `rwatch` has written by then.
const WRITTEN_BY: [(u64, usize); 6] = [(0, 0), (11, 0), (14, 0), (15, 6), (18, 6), (19, 44)];

#[test]
fn lines_are_told_before_more_is_read(rt: HostRuntime) -> Result<(), Fail> {
    let alloc = rt.alloc();
    for (bytes, written) in WRITTEN_BY {
        let case = Case {
            words: &["rwatch", "eventually[0,3] x >= 0"],
            input: VALLEY,
            out: AHEAD,
            err: "read fault\n",
            status: 5,
        };
        let devices = Devices {
            read_fails: bytes + 1,
            ..pieces(1)
        };
        expect(
            &rt,
            agrees_so_far(alloc, case, devices, written)?,
            "rwatch",
            written,
        );
    }
    Ok(())
}
