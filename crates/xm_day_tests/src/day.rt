mod carried_days;
mod chain;
mod drawn;
mod growths;
mod several_files;
mod threads;
mod workers;

ghost use Rattle.std.specs.Prelude.{◌≤◌, length};
ghost use Rattle.xm_files.specs.declared.order_files.TheConstants.{MAX_FILES};

use crate::files::fixtures::{
    CASCADE, ERROR_KINDS, Failure, NO_SECURITY, ORDERS, OneByteReader, SEGMENT, ShortWriter,
};
use crate::memory::want_of_memory;
use std::alloc::Global;
use std::io::{ErrorKind, Read, Write};
use std::process::Abort;
use xm_config::OpenFault;
use xm_day::{DayFault, run_alone};
use xm_files::{FileCause, FileFault, OrdersFault};
use xm_name_index::Storage;

const STATEMENT: &str = "DAY 20260105
SECURITY XYZ opening-call
REFERENCES 10.0000 10.0000
ORDER BBB 1 sell 10.1000 5 day free
ORDER AAA 2 buy 9.9500 7 day free
TOTAL 0 0.0000
MEMBER AAA 0.0000
MEMBER BBB 0.0000
";

/// The statement of the day of `ORDERS`, with this many refused rows.
fn written(rt: &(impl Abort + AllocGlobal), refused: u64) -> String {
    (format!(in rt.alloc(); "{STATEMENT}ROWS 5 {refused}\n")).expect(rt, "memory")
}

/// What a day answers: the counts of its accepted and of its refused rows, or its fault.
type Answer = Result<(u64, u64), DayFault>;

/// Runs a day. A clause sees nothing of it.
fn run_day(
    alloc: Global,
    segment: &mut impl Read,
    orders: &mut [impl Read],
    out: &mut impl Write,
) -> Answer
    requires { length orders.old ≤ MAX_FILES }
{
    let storage = Storage::with_fixed_seed(alloc);
    let report = run_alone(storage, segment, orders, out)?;
    Ok((report.accepted, report.refused))
}

/// Compares what a day answers, and what it writes.
fn ends(
    rt: &(impl Abort + AllocGlobal),
    name: &str,
    segment: &mut impl Read,
    orders: &mut [impl Read],
    expected: Answer,
    statement: &str,
)
    requires { length orders.old ≤ MAX_FILES }
{
    let mut out = Vec::new(rt.alloc());
    let answer = run_day(rt.alloc(), segment, orders, &mut out);
    let is_written = out.as_slice() == statement.as_bytes();
    assert!(rt; answer == expected && is_written, "{name}");
}

/// Compares the fault of the day of two texts, which writes nothing.
fn has_fault(
    rt: &(impl Abort + AllocGlobal),
    name: &str,
    segment: &str,
    orders: &str,
    fault: DayFault,
) {
    let (mut segment, mut orders) = (segment.as_bytes(), [orders.as_bytes()]);
    ends(rt, name, &mut segment, &mut orders, Err(fault), "");
}

/// Compares what the day of `ORDERS` answers whose files are read byte by byte, and what it writes.
fn ends_slowly(
    rt: &(impl Abort + AllocGlobal),
    segment: Failure,
    orders: Failure,
    expected: Answer,
    statement: &str,
) {
    let name = "read byte by byte";
    let mut segment = OneByteReader::new(SEGMENT, segment);
    let mut orders = [OneByteReader::new(ORDERS, orders)];
    ends(rt, name, &mut segment, &mut orders, expected, statement);
}

/// The statement of the day of `CASCADE`, as `examples/cascade.statement`.
const CASCADE_STATEMENT: &str = "DAY 20260105
SECURITY XYZ ended
REFERENCES 9.8500 10.0000
TRADE 4 continuous 10.0000 10 AAA 1 BBB 3
TRADE 4 continuous 9.9000 20 AAA 2 BBB 3
TRADE 5 continuous 9.8500 25 AAA 3 BBB 1
TRADE 6 continuous 9.8500 5 AAA 3 BBB 2
ORDER BBB 2 sell 9.8500 5 gtc free
NET AAA 60 -593.5000
NET BBB -60 593.5000
TOTAL 60 593.5000
MEMBER AAA -593.5000
MEMBER BBB 593.5000
ROWS 11 1
";

/// The cancellation of an order that isn't there.
const CANCELLATION: &str = "cancel,AAA,9,XYZ,,,,,,,,\n";

/// How many cancellations come after `ORDERS`: none, and the rows of many batches.
const CANCELLATIONS: [u32; 7] = [0, 506, 507, 508, 1019, 1020, 3000];

/// `ORDERS`, and so many cancellations behind them.
fn with_cancellations(rt: &(impl Abort + AllocGlobal), times: u32) -> String {
    let mut orders = String::from_str(rt.alloc(), ORDERS).expect(rt, "memory");
    for _ in 0..times {
        orders.push_str(CANCELLATION).expect(rt, "memory");
    }
    orders
}

/// Compares the statement of the day of `ORDERS` with so many cancellations after it, each of which is refused.
fn are_counted(rt: &(impl Abort + AllocGlobal), times: u32) {
    let refused = u64::from(times);
    let (orders, statement) = (with_cancellations(rt, times), written(rt, refused));
    let (mut segment, mut orders) = (SEGMENT.as_bytes(), [orders.as_bytes()]);
    ends(
        rt,
        "many batches",
        &mut segment,
        &mut orders,
        Ok((5, refused)),
        statement.as_str(),
    );
}

#[test]
fn rows_of_many_batches_are_counted(rt: HostRuntime) {
    for times in CANCELLATIONS {
        are_counted(&rt, times);
    }
}

const LATE_FAULT: DayFault = DayFault::Orders(OrdersFault {
    file: 1,
    fault: FileFault {
        line: 2007,
        cause: FileCause::BadField,
    },
});

#[test]
fn a_fault_in_a_later_batch(rt: HostRuntime) {
    let mut orders = with_cancellations(&rt, 2000);
    orders
        .push_str("cancel,AAA,x,XYZ,,,,,,,,\n")
        .expect(&rt, "memory");
    let orders = orders.as_str();
    has_fault(&rt, "a late fault", SEGMENT, orders, LATE_FAULT);
    has_fault(&rt, "no security", NO_SECURITY, orders, LATE_FAULT);
}

const BAD_HEADER: DayFault = DayFault::Orders(OrdersFault {
    file: 1,
    fault: FileFault {
        line: 1,
        cause: FileCause::BadHeader,
    },
});

/// Compares what a writer with this room holds, which then fails.
fn fails_after(
    rt: &(impl Abort + AllocGlobal),
    orders: &str,
    start: &[u8],
    failure: Option<ErrorKind>,
) {
    let mut out = ShortWriter::new(rt.alloc(), start.len(), failure);
    let (mut segment, mut orders) = (SEGMENT.as_bytes(), [orders.as_bytes()]);
    let answer = run_day(rt.alloc(), &mut segment, &mut orders, &mut out);
    assert!(rt; answer == Err(DayFault::WriteFailed));
    assert!(rt; out.bytes.as_slice() == start);
}

/// Compares what writers hold that fail so after each number of bytes that is less than the statement's.
fn fails_at_each_byte(
    rt: &(impl Abort + AllocGlobal),
    orders: &str,
    statement: &[u8],
    failure: Option<ErrorKind>,
) {
    for room in 0..statement.len() {
        fails_after(rt, orders, &statement[..room], failure);
    }
}

/// How a writer fails: it takes no byte, or answers one of these errors.
const FAILURES: [Option<ErrorKind>; 3] = [
    None,
    Some(ErrorKind::BrokenPipe),
    Some(ErrorKind::Interrupted),
];

#[test]
fn failing_writers(rt: HostRuntime) {
    let statement = written(&rt, 0);
    for failure in FAILURES {
        fails_at_each_byte(&rt, ORDERS, statement.as_bytes(), failure);
        fails_at_each_byte(&rt, CASCADE, CASCADE_STATEMENT.as_bytes(), failure);
    }
}

#[test]
fn writers_that_fail_with_each_kind_of_error(rt: HostRuntime) {
    let statement = CASCADE_STATEMENT.as_bytes();
    for kind in ERROR_KINDS {
        fails_after(&rt, CASCADE, &[], Some(kind));
        fails_after(&rt, CASCADE, &statement[..100], Some(kind));
    }
}

const READ_FAILED: FileFault = FileFault {
    line: 0,
    cause: FileCause::ReadFailed,
};

#[test]
fn slow_readers(rt: HostRuntime) {
    let statement = written(&rt, 0);
    ends_slowly(&rt, None, None, Ok((5, 0)), statement.as_str());
}

/// Compares the fault of a segment file that fails so at this call.
fn segment_fails(rt: &(impl Abort + AllocGlobal), call: usize, kind: ErrorKind) {
    let fault = DayFault::Segment(READ_FAILED);
    ends_slowly(rt, Some((call, kind)), None, Err(fault), "");
}

/// Compares the fault of an order file that fails so at this call.
fn orders_fail(rt: &(impl Abort + AllocGlobal), call: usize, kind: ErrorKind) {
    let fault = DayFault::Orders(OrdersFault {
        file: 1,
        fault: READ_FAILED,
    });
    ends_slowly(rt, None, Some((call, kind)), Err(fault), "");
}

#[test]
fn failing_readers(rt: HostRuntime) {
    for kind in [ErrorKind::BrokenPipe, ErrorKind::Interrupted] {
        for call in 0..SEGMENT.len() + 1 {
            segment_fails(&rt, call, kind);
        }
        for call in 0..ORDERS.len() + 1 {
            orders_fail(&rt, call, kind);
        }
    }
}

#[test]
fn readers_that_fail_with_each_kind_of_error(rt: HostRuntime) {
    for kind in ERROR_KINDS {
        segment_fails(&rt, 0, kind);
        segment_fails(&rt, 40, kind);
        orders_fail(&rt, 0, kind);
        orders_fail(&rt, 40, kind);
    }
}

const BAD_FIELD: FileFault = FileFault {
    line: 3,
    cause: FileCause::BadField,
};

const IN_THE_FIRST_FILE: DayFault = DayFault::Orders(OrdersFault {
    file: 1,
    fault: BAD_FIELD,
});

const IN_THE_SECOND_FILE: DayFault = DayFault::Orders(OrdersFault {
    file: 2,
    fault: BAD_FIELD,
});

const TEXTS: [(DayFault, &str); 6] = [
    (
        DayFault::Segment(BAD_FIELD),
        "segment file, line 3: BadField",
    ),
    (DayFault::Carry(BAD_FIELD), "carry file, line 3: BadField"),
    (IN_THE_FIRST_FILE, "order file, line 3: BadField"),
    (IN_THE_SECOND_FILE, "order file 2, line 3: BadField"),
    (DayFault::Open(OpenFault::NoSecurity), "no security"),
    (DayFault::WriteFailed, "write failed"),
];

/// Compares the text of a fault.
fn has_text(rt: &(impl Abort + AllocGlobal), fault: DayFault, text: &str) {
    let written = (format!(in rt.alloc(); "{fault}")).expect(rt, "memory");
    assert!(rt; written.as_str() == text, "{text}");
}

#[test]
fn fault_texts(rt: HostRuntime) {
    for (fault, text) in TEXTS {
        has_text(&rt, fault, text);
    }
    has_text(
        &rt,
        DayFault::OutOfMemory(want_of_memory(&rt)),
        "out of memory",
    );
}
