//! Days in several order files: what they give doesn't hang on how their rows are taken, and their faults have the number of the file.
use super::Answer;
use super::threads::{NONE, tell};
use super::workers::{APART_STATEMENT, LATE_FAULT, ONE_EACH, TWO, shared};
use crate::files::fixtures::{HEADER, NO_SECURITY, SECOND_HEADER};
use std::process::Abort;
use std::sync::Wait;
use std::thread::Threads;
use xm_config::OpenFault;
use xm_day::DayFault;
use xm_files::{FileCause, FileFault, OrdersFault};
use xm_segment::NoGate;

/// The rows of `APART` cut inside two of its rounds, the second part in version 2.
const FIRST: &str = orders!(
    "open,,,*,,,,,,,,
enter,M0,1,A,sell,limit,10.10,,5,,,
enter,M1,1,B,sell,limit,10.10,,5,,,
uncross,,,*,,,,,,,,
enter,M1,2,A,buy,limit,10.10,,2,,,
"
);

const SECOND: &str = second_orders!(
    "enter,M0,2,B,buy,limit,10.10,,3,,,,
enter,M1,3,A,sell,stop-market,,10.00,4,,,,\"a text, told\"
enter,M0,3,B,sell,stop-market,,10.00,4,,,,
intraday,,,*,,,,,,,,,
enter,M0,4,A,buy,limit,10.00,,10,,,,
enter,M1,4,B,buy,limit,10.00,,10,,,,
"
);

const THIRD: &str = orders!(
    "enter,M0,5,A,sell,limit,10.00,,4,,,
enter,M1,5,B,sell,limit,10.00,,4,,,
uncross,,,*,,,,,,,,
enter,M0,6,A,sell,limit,10.20,,7,gtc,,
enter,M1,6,B,buy,limit,9.90,,7,gtc,,
cancel,M0,9,A,,,,,,,,
close,,,*,,,,,,,,
change,M0,6,A,,,,,5,,,
uncross,,,*,,,,,,,,
end,,,*,,,,,,,,"
);

/// A row of version 1 behind a header of version 2.
const OF_ANOTHER_VERSION: &str = second_orders!("open,,,*,,,,,,,,\n");

/// A day in several order files, with what it answers and its statement.
#[derive(Clone, Copy)]
struct Parted {
    name: &'static str,
    segment: &'static str,
    files: &'static [&'static str],
    answer: Answer,
    statement: &'static str,
}

/// A day of `TWO` that has the rows of `APART`.
macro_rules! apart {
    ($name:expr, $($file:expr),+) => {
        Parted {
            name: $name,
            segment: TWO,
            files: &[$($file),+],
            answer: Ok((27, 1)),
            statement: APART_STATEMENT,
        }
    };
}

/// A day that has a fault of the order file with this number, and no statement.
macro_rules! at_fault {
    ($name:expr, $segment:expr, $file:expr, $line:expr, $cause:expr, $($text:expr),+) => {
        Parted {
            name: $name,
            segment: $segment,
            files: &[$($text),+],
            answer: Err(DayFault::Orders(OrdersFault {
                file: $file,
                fault: FileFault {
                    line: $line,
                    cause: $cause,
                },
            })),
            statement: "",
        }
    };
}

const DAYS: [Parted; 9] = [
    apart!("three files", FIRST, SECOND, THIRD),
    apart!(
        "headers alone",
        HEADER,
        FIRST,
        SECOND_HEADER,
        SECOND,
        THIRD,
        HEADER
    ),
    at_fault!(
        "a late fault",
        TWO,
        3,
        6,
        FileCause::BadField,
        ONE_EACH,
        HEADER,
        LATE_FAULT
    ),
    at_fault!(
        "no header behind rows",
        TWO,
        2,
        1,
        FileCause::BadHeader,
        ONE_EACH,
        "",
        LATE_FAULT
    ),
    at_fault!(
        "the version of the file before",
        TWO,
        2,
        2,
        FileCause::Syntax,
        ONE_EACH,
        OF_ANOTHER_VERSION
    ),
    at_fault!(
        "the fault of the earlier file",
        TWO,
        1,
        6,
        FileCause::BadField,
        LATE_FAULT,
        ""
    ),
    at_fault!(
        "a fault before the opening",
        NO_SECURITY,
        2,
        1,
        FileCause::BadHeader,
        HEADER,
        ""
    ),
    Parted {
        name: "an opening that fails",
        segment: NO_SECURITY,
        files: &[HEADER, SECOND_HEADER],
        answer: Err(DayFault::Open(OpenFault::NoSecurity)),
        statement: "",
    },
    Parted {
        name: "a file that is given twice",
        segment: TWO,
        files: &[ONE_EACH, ONE_EACH],
        answer: Ok((2, 2)),
        statement: "DAY 20260105
SECURITY A pre-trading
REFERENCES 10.0000 10.0000
ORDER M0 1 buy 9.9000 5 day free
TOTAL 0 0.0000
SECURITY B pre-trading
REFERENCES 10.0000 10.0000
ORDER M1 1 buy 9.9000 5 day free
TOTAL 0 0.0000
MEMBER M0 0.0000
MEMBER M1 0.0000
ROWS 2 2
",
    },
];

/// Compares what a day gives on so many threads, and by so many workers.
fn gives<R: Abort + AllocGlobal + Threads + Wait + Sync>(rt: &R, day: &Parted, number: u32) {
    let (name, segment, files) = (day.name, day.segment, day.files);
    let statement = day.statement.as_bytes();
    let told = tell(rt, number, segment, NONE.as_bytes(), files);
    let is_told = told.answer == day.answer && told.statement.as_slice() == statement;
    assert!(rt; is_told, "{name}, on {number} threads");
    let mut out = Vec::new(rt.alloc());
    let answer = shared(rt, segment, files, &mut out, number, &NoGate);
    let is_shared = answer == day.answer && out.as_slice() == statement;
    assert!(rt; is_shared, "{name}, by {number} workers");
}

#[test]
fn days_in_several_files(rt: HostRuntime) {
    let days = DAYS;
    for day in &days {
        for number in [1, 2, 3, 64] {
            gives(&rt, day, number);
        }
    }
}
