//! Operators by themselves, over a table: what each row and the end make the network of one operator tell, and up to where its node is
//! answered then.
ghost use Rattle.std.specs.Prelude.{◌≡◌, length, option_map};
ghost use Rattle.stl_syntax.specs.Trace.{Row as ARow};

use super::given::{WHOLE, expect, parsed};
use atom_lines::bind;
use online_net::Net;
use report::put_verdict;
use std::alloc::Global;
use std::process::Abort;
use std::test::Fail;
use stl_syntax::{Formula, Text};
use trace_reader::{Event, Header, Limits, Row, Rows};

/// A network, how many nodes it has, how many columns its rows have, and the time of the last one.
#[derive(Drop)]
struct Stream {
    net: Net,
    nodes: u32,
    width: usize,
    last: Option<u32>,
    ghost counted: { length net.operators ≡ nodes },
    ghost bound: { net.bound.width ≡ width },
    ghost stood: { option_map (λ (r : ARow). r.time) net.last ≡ last },
}

/// What is told once a row came, or the end: the lines of the verdicts, and the front.
type Told = (&'static str, Option<u32>);

/// No row yet.
fn begin(
    rt: &impl Abort,
    alloc: Global,
    formula: &Formula,
    header: &Header,
) -> Result<Stream, Fail> {
    let Ok(bound) = bind(alloc, formula, header) else {
        panic!(rt; "not bound");
    };
    let net = Net::new(alloc, formula, bound)?;
    Ok(Stream {
        net,
        nodes: formula.len(),
        width: header.columns(),
        last: None,
    })
}

impl Stream {
    /// One row more.
    fn feed(&mut self, rt: &impl Abort, row: &Row) {
        assert!(rt; row.columns() == self.width);
        if let Some(last) = self.last {
            assert!(rt; last < row.time());
        }
        match self.net.feed(row) {
            Ok(()) => self.last = Some(row.time()),
            Err(_) => panic!(rt; "feed"),
        }
    }

    /// The end.
    fn close(&mut self, rt: &impl Abort) {
        assert!(rt; self.last.is_some());
        match self.net.close() {
            Ok(()) => {}
            Err(_) => panic!(rt; "close"),
        }
    }

    /// A step of a node.
    fn step(&mut self, rt: &impl Abort, node: u32) {
        assert!(rt; node < self.nodes);
        assert!(rt; self.net.step(node).is_ok());
    }

    /// A step of each node, in order.
    fn step_all(&mut self, rt: &impl Abort) {
        for node in 0..self.nodes {
            self.step(rt, node);
        }
    }

    /// The lines of what the root has told.
    fn take(&mut self, rt: &impl Abort, alloc: Global) -> Text {
        let mut said = Text::new(alloc);
        expect(rt, said.push(b"> ").is_ok(), "memory");
        for _ in 0..100 {
            let Some(v) = self.net.take() else {
                break;
            };
            expect(rt, put_verdict(&mut said, &v, WHOLE).is_ok(), "memory");
        }
        said
    }

    /// Steps each node, and compares what the root told, and its front, with what is wanted.
    fn expect_told(&mut self, rt: &impl Abort, alloc: Global, want: Option<Told>) {
        self.step_all(rt);
        let said = self.take(rt, alloc);
        let Some((lines, place)) = want else {
            panic!(rt; "no row is wanted");
        };
        expect(rt, said.bytes() == lines.as_bytes(), lines);
        assert!(rt; self.nodes > 0);
        expect(rt, self.net.front(self.nodes - 1) == place, lines);
    }
}

const LIMITS: Limits = Limits {
    rows: 100,
    lines: 100,
};

/// The network of a formula over the rows of a text: after each row, and after the end, it tells what is wanted.
fn expect_told(
    rt: &impl Abort,
    alloc: Global,
    formula: &str,
    text: &str,
    want: &[Told],
) -> Result<(), Fail> {
    let formula = parsed(rt, alloc, formula);
    let mut reader = Rows::new(alloc, LIMITS, WHOLE)?;
    let mut stream: Option<Stream> = None;
    let mut rest = text.as_bytes();
    let mut came: usize = 0;
    for _ in 0..100 {
        if rest.is_empty() {
            break;
        }
        let Ok(took) = reader.push(rest) else {
            panic!(rt; "refused");
        };
        match took.event {
            Event::Nothing => {}
            Event::Header => stream = Some(begin(rt, alloc, &formula, reader.header())?),
            Event::Row => match &mut stream {
                Some(stream) => {
                    stream.feed(rt, reader.row());
                    stream.expect_told(rt, alloc, want.get(came).copied());
                    came = came.wrapping_add(1);
                }
                None => panic!(rt; "no header"),
            },
        }
        rest = &rest[took.bytes..];
    }
    let Some(stream) = &mut stream else {
        panic!(rt; "no header");
    };
    stream.close(rt);
    stream.expect_told(rt, alloc, want.get(came).copied());
    Ok(())
}

/// `p >= 1` holds on [1,2).
const SHORT: &str = "time,p:step\n0,0\n1,1\n2,0\n5,0\n";

/// `p >= 1` holds on [0,3) and on [5,9].
const TWICE: &str = "time,p:step\n0,1\n3,0\n5,1\n9,1\n";

/// `p >= 1` holds on [0,3), and `q >= 1` on [2,4).
const ACROSS: &str = "time,p:step,q:step\n0,1,0\n2,1,1\n3,0,1\n4,0,0\n";

/// `p >= 1` holds on [0,3) and on [4,6], and `q >= 1` on [0,1).
const BROKEN: &str = "time,p:step,q:step\n0,1,1\n1,1,0\n3,0,0\n4,1,0\n6,1,0\n";

/// A formula, a trace, and what is told after each row and after the end.
type Worked = (&'static str, &'static str, &'static [Told]);

const WORKED: [Worked; 10] = [
    (
        "true",
        "time,p\n0,0\n3,1\n",
        &[
            ("> [0,0] true\n", Some(0)),
            ("> (0,3] true\n", Some(3)),
            ("> ", Some(3)),
        ],
    ),
    (
        "p >= 1 and q >= 1",
        ACROSS,
        &[
            ("> [0,0] false\n", Some(0)),
            ("> (0,2) false\n[2,2] true\n", Some(2)),
            ("> (2,3) true\n[3,3] false\n", Some(3)),
            ("> (3,4] false\n", Some(4)),
            ("> ", Some(4)),
        ],
    ),
    (
        "p >= 1 implies q >= 1",
        ACROSS,
        &[
            ("> [0,0] false\n", Some(0)),
            ("> (0,2) false\n[2,2] true\n", Some(2)),
            ("> (2,3] true\n", Some(3)),
            ("> (3,4] true\n", Some(4)),
            ("> ", Some(4)),
        ],
    ),
    (
        "eventually[0,2] p >= 1",
        SHORT,
        &[
            ("> ", None),
            ("> ", None),
            ("> [0,0] true\n", Some(0)),
            ("> (0,2) true\n[2,3] false\n", Some(3)),
            ("> (3,5] false\n", Some(5)),
        ],
    ),
    (
        "always]0,1[ p >= 1",
        TWICE,
        &[
            ("> ", None),
            ("> [0,2] true\n", Some(2)),
            ("> (2,4] false\n", Some(4)),
            ("> (4,5) false\n[5,8] true\n", Some(8)),
            ("> (8,9] true\n", Some(9)),
        ],
    ),
    (
        "once[1,2] p >= 1",
        SHORT,
        &[
            ("> [0,0] false\n", Some(0)),
            ("> (0,1] false\n", Some(1)),
            ("> (1,2) false\n[2,2] true\n", Some(2)),
            ("> (2,4) true\n[4,5] false\n", Some(5)),
            ("> ", Some(5)),
        ],
    ),
    (
        "historically[1,inf] p >= 1",
        TWICE,
        &[
            ("> [0,0] true\n", Some(0)),
            ("> (0,3] true\n", Some(3)),
            ("> (3,4) true\n[4,5] false\n", Some(5)),
            ("> (5,9] false\n", Some(9)),
            ("> ", Some(9)),
        ],
    ),
    // the left side fails before the right one holds
    (
        "p >= 1 until[0,2] q >= 1",
        "time,p:step,q:step\n0,1,0\n1,0,0\n2,1,1\n4,1,1\n",
        &[
            ("> ", None),
            ("> ", None),
            ("> [0,0] false\n", Some(0)),
            ("> (0,2) false\n[2,2] true\n", Some(2)),
            ("> (2,4] true\n", Some(4)),
        ],
    ),
    // that the left side failed is kept in mind
    (
        "p >= 1 since q >= 1",
        BROKEN,
        &[
            ("> [0,0] true\n", Some(0)),
            ("> (0,1] true\n", Some(1)),
            ("> (1,3) true\n[3,3] false\n", Some(3)),
            ("> (3,4] false\n", Some(4)),
            ("> (4,6] false\n", Some(6)),
            ("> ", Some(6)),
        ],
    ),
    (
        "eventually[0,2] p >= 1",
        "time,p:step\n10,1\n11,0\n12,0\n",
        &[
            ("> ", None),
            ("> ", None),
            ("> [10,10] true\n", Some(10)),
            ("> (10,11) true\n[11,12] false\n", Some(12)),
        ],
    ),
];

#[test]
fn each_operator_by_itself_tells_what_the_rows_decide(rt: HostRuntime) -> Result<(), Fail> {
    for (formula, text, want) in WORKED {
        expect_told(&rt, rt.alloc(), formula, text, want)?;
    }
    Ok(())
}
