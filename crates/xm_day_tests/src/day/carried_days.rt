//! Days that open with what earlier days left, and hand on what they leave.
ghost use Rattle.std.specs.Prelude.{◌≤◌, length};
ghost use Rattle.xm_files.specs.declared.order_files.TheConstants.{MAX_FILES};

use super::workers::{APART, APART_STATEMENT, TWO};
use super::{Answer, BAD_HEADER, CASCADE_STATEMENT, FAILURES, READ_FAILED};
use crate::files::fixtures::{
    BAD_WIDTHS, CASCADE, Failure, HEADER, NO_SECURITY, OneByteReader, SEGMENT, ShortWriter,
};
use std::alloc::Global;
use std::io::{ErrorKind, Read, Write};
use std::process::Abort;
use std::sync::Wait;
use std::thread::Threads;
use xm_config::{MAX_WORKERS, OpenFault};
use xm_day::{DayFault, carry_alone, carry_day};
use xm_files::{FileCause, FileFault};
use xm_name_index::Storage;
use xm_segment::NoGate;

/// A carry file without an entry.
const NONE: &str = carried!("");

/// What the day of `CASCADE` leaves.
pub(super) const CASCADE_LEFT: &str = carried!("XYZ,BBB,2,sell,limit,9.8500,,5,gtc,free\n");

/// What earlier days left for the day of `NEXT`: an order that goes on, a stop that the reference has reached and whose last day it
/// is, and an order that is over.
const LEFT: &str = carried!(
    "XYZ,BBB,2,sell,limit,9.8500,,5,gtc,free
XYZ,AAA,4,sell,stop-market,,9.9000,3,20260106,free
XYZ,AAA,5,buy,limit,9.0000,,2,20260105,free
"
);

/// The segment file of the day behind that of `CASCADE`.
const NEXT: &str = "date = 20260106
members = [\"AAA\", \"BBB\"]

[[security]]
name = \"XYZ\"
tick = 100
reference = \"9.85\"
dynamic = 20
static = 50
wide = 40
journal = 100
";

const NEXT_STATEMENT: &str = "DAY 20260106
SECURITY XYZ pre-trading
REFERENCES 9.8500 9.8500
ORDER BBB 2 sell 9.8500 5 gtc free
ORDER AAA 4 sell market 3 20260106 free
TOTAL 0 0.0000
MEMBER AAA 0.0000
MEMBER BBB 0.0000
ROWS 0 0
";

/// Runs a day of three files. A clause sees nothing of it.
fn run_carried(
    alloc: Global,
    segment: &mut impl Read,
    carry: &mut impl Read,
    orders: &mut [impl Read],
    out: &mut impl Write,
    keep: &mut impl Write,
) -> Answer
    requires { length orders.old ≤ MAX_FILES }
{
    let storage = Storage::with_fixed_seed(alloc);
    let report = carry_alone(storage, segment, carry, orders, out, keep)?;
    Ok((report.accepted, report.refused))
}

/// The texts of three files.
#[derive(Clone, Copy)]
struct Texts {
    segment: &'static str,
    carry: &'static str,
    orders: &'static str,
}

const FIRST_DAY: Texts = Texts {
    segment: SEGMENT,
    carry: NONE,
    orders: CASCADE,
};

const NEXT_DAY: Texts = Texts {
    segment: NEXT,
    carry: LEFT,
    orders: HEADER,
};

/// Compares what a day answers, its statement, and its carry file.
fn leaves(
    rt: &(impl Abort + AllocGlobal),
    texts: Texts,
    expected: Answer,
    statement: &str,
    left: &str,
) {
    let (mut segment, mut carry) = (texts.segment.as_bytes(), texts.carry.as_bytes());
    let mut orders = [texts.orders.as_bytes()];
    let (mut out, mut keep) = (Vec::new(rt.alloc()), Vec::new(rt.alloc()));
    let answer = run_carried(
        rt.alloc(),
        &mut segment,
        &mut carry,
        &mut orders,
        &mut out,
        &mut keep,
    );
    assert!(rt; answer == expected, "{statement}");
    assert!(rt; out.as_slice() == statement.as_bytes(), "{statement}");
    assert!(rt; keep.as_slice() == left.as_bytes(), "{left}");
}

#[test]
fn a_day_leaves_what_is_valid_beyond_it(rt: HostRuntime) {
    leaves(&rt, FIRST_DAY, Ok((11, 1)), CASCADE_STATEMENT, CASCADE_LEFT);
}

#[test]
fn a_day_opens_with_what_is_still_valid(rt: HostRuntime) {
    leaves(&rt, NEXT_DAY, Ok((0, 0)), NEXT_STATEMENT, CASCADE_LEFT);
}

/// The fault of the first record of a file that isn't its header.
const AT_HEADER: FileFault = FileFault {
    line: 1,
    cause: FileCause::BadHeader,
};

/// Files with faults, and the fault that is told: that of the segment file before that of the carry file, this before that of the
/// order file, and this before that of the opening.
const FAULTS: [(Texts, DayFault); 4] = [
    (
        Texts {
            segment: "date",
            carry: "",
            orders: "",
        },
        DayFault::Segment(FileFault {
            line: 0,
            cause: FileCause::Syntax,
        }),
    ),
    (
        Texts {
            segment: NO_SECURITY,
            carry: HEADER,
            orders: "",
        },
        DayFault::Carry(AT_HEADER),
    ),
    (
        Texts {
            segment: BAD_WIDTHS,
            carry: LEFT,
            orders: "",
        },
        BAD_HEADER,
    ),
    (
        Texts {
            segment: BAD_WIDTHS,
            carry: LEFT,
            orders: HEADER,
        },
        DayFault::Open(OpenFault::BadWidths),
    ),
];

#[test]
fn the_first_fault_of_three_files(rt: HostRuntime) {
    for (texts, fault) in FAULTS {
        leaves(&rt, texts, Err(fault), "", "");
    }
}

/// Compares what the next day answers whose files are read byte by byte, of which the carry file fails so.
fn ends_slowly(
    rt: &(impl Abort + AllocGlobal),
    failure: Failure,
    expected: Answer,
    statement: &str,
    left: &str,
) {
    let mut segment = OneByteReader::new(NEXT, None);
    let mut carry = OneByteReader::new(LEFT, failure);
    let mut orders = [OneByteReader::new(HEADER, None)];
    let (mut out, mut keep) = (Vec::new(rt.alloc()), Vec::new(rt.alloc()));
    let answer = run_carried(
        rt.alloc(),
        &mut segment,
        &mut carry,
        &mut orders,
        &mut out,
        &mut keep,
    );
    assert!(rt; answer == expected && out.as_slice() == statement.as_bytes());
    assert!(rt; keep.as_slice() == left.as_bytes());
}

/// Compares the fault of a carry file that fails at this call.
fn carry_fails(rt: &(impl Abort + AllocGlobal), call: usize) {
    let fault = DayFault::Carry(READ_FAILED);
    ends_slowly(rt, Some((call, ErrorKind::BrokenPipe)), Err(fault), "", "");
}

#[test]
fn carry_files_that_are_slow_or_fail(rt: HostRuntime) {
    ends_slowly(&rt, None, Ok((0, 0)), NEXT_STATEMENT, CASCADE_LEFT);
    for call in 0..LEFT.len() + 1 {
        carry_fails(&rt, call);
    }
}

/// Compares what the two writers of the day of `CASCADE` hold that have room for so much, after which they fail.
fn fails_after(
    rt: &(impl Abort + AllocGlobal),
    start: &[u8],
    left: &[u8],
    failure: Option<ErrorKind>,
) {
    let mut out = ShortWriter::new(rt.alloc(), start.len(), failure);
    let mut keep = ShortWriter::new(rt.alloc(), left.len(), failure);
    let (mut segment, mut carry) = (SEGMENT.as_bytes(), NONE.as_bytes());
    let mut orders = [CASCADE.as_bytes()];
    let answer = run_carried(
        rt.alloc(),
        &mut segment,
        &mut carry,
        &mut orders,
        &mut out,
        &mut keep,
    );
    assert!(rt; answer == Err(DayFault::WriteFailed));
    assert!(rt; out.bytes.as_slice() == start);
    assert!(rt; keep.bytes.as_slice() == left);
}

/// Compares what writers hold that fail so after each number of bytes of the statement.
fn fails_in_the_statement(
    rt: &(impl Abort + AllocGlobal),
    statement: &[u8],
    failure: Option<ErrorKind>,
) {
    for room in 0..statement.len() {
        fails_after(rt, &statement[..room], &[], failure);
    }
}

/// The same of what is left, behind the whole statement.
fn fails_in_what_is_left(rt: &(impl Abort + AllocGlobal), left: &[u8], failure: Option<ErrorKind>) {
    for room in 0..left.len() {
        fails_after(rt, CASCADE_STATEMENT.as_bytes(), &left[..room], failure);
    }
}

#[test]
fn writers_that_fail_after_each_byte_of_either_text(rt: HostRuntime) {
    for failure in FAILURES {
        fails_in_the_statement(&rt, CASCADE_STATEMENT.as_bytes(), failure);
        fails_in_what_is_left(&rt, CASCADE_LEFT.as_bytes(), failure);
    }
}

/// What the day of `APART` leaves, of which each member has an order.
const APART_LEFT: &str = carried!(
    "A,M0,6,sell,limit,10.2000,,5,gtc,free
B,M1,6,buy,limit,9.9000,,7,gtc,free
"
);

/// The texts of that day.
const APART_DAY: Texts = Texts {
    segment: TWO,
    carry: NONE,
    orders: APART,
};

/// Compares what a day that so many workers share answers, its statement, and its carry file.
fn leaves_shared(
    rt: &(impl Abort + AllocGlobal + Threads + Wait + Sync),
    workers: u32,
    texts: Texts,
    expected: Answer,
    statement: &str,
    left: &str,
) {
    assert!(rt; 1 <= workers && workers <= MAX_WORKERS);
    let storage = Storage::with_fixed_seed(rt.alloc());
    let (mut out, mut keep) = (Vec::new(rt.alloc()), Vec::new(rt.alloc()));
    let answer = carry_day(
        rt,
        storage,
        &mut texts.segment.as_bytes(),
        &mut texts.carry.as_bytes(),
        &mut [texts.orders.as_bytes()],
        &mut out,
        &mut keep,
        workers,
        &NoGate,
    );
    let counts = answer.map(|report| (report.accepted, report.refused));
    assert!(rt; counts == expected, "{workers}");
    assert!(rt; out.as_slice() == statement.as_bytes(), "{workers}");
    assert!(rt; keep.as_slice() == left.as_bytes(), "{workers}");
}

#[test]
fn days_that_workers_share(rt: HostRuntime) {
    for workers in [1, 2, 3, MAX_WORKERS] {
        leaves_shared(
            &rt,
            workers,
            NEXT_DAY,
            Ok((0, 0)),
            NEXT_STATEMENT,
            CASCADE_LEFT,
        );
        leaves_shared(
            &rt,
            workers,
            APART_DAY,
            Ok((27, 1)),
            APART_STATEMENT,
            APART_LEFT,
        );
        for (texts, fault) in FAULTS {
            leaves_shared(&rt, workers, texts, Err(fault), "", "");
        }
    }
}
