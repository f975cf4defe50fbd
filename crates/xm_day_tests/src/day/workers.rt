//! Days that several workers share. What these tests find doesn't hang on the schedule.
use super::{Answer, BAD_HEADER, CASCADE_STATEMENT};
use crate::files::fixtures::{
    CASCADE, HEADER, NO_SECURITY, ORDERS, SEGMENT, ShortWriter, bytes_of,
};
use std::io::Write;
use std::process::Abort;
use std::sync::Wait;
use std::sync::atomic::{AtomicU64, Ordering};
use std::thread::{self, Threads};
use xm_config::{MAX_WORKERS, OpenFault};
use xm_day::{DayFault, run_day};
use xm_files::{FileCause, FileFault, MAX_FILES, OrdersFault};
use xm_name_index::Storage;
use xm_segment::{Gate, NoGate};

/// How often a worker looks for another one before its test fails.
const TURNS: u64 = 100_000_000;

/// A segment of two securities and two members.
pub(super) const TWO: &str = securities!("\"M0\", \"M1\"", "A" => 20, "B" => 20);

/// Each of two members enters an order on a security of its own.
pub(super) const ONE_EACH: &str = orders!(
    "enter,M0,1,A,buy,limit,9.90,,5,,,
enter,M1,1,B,buy,limit,9.90,,5,,,
"
);

/// A segment of eight securities and eight members.
const EIGHT: &str = securities!(
    "\"M0\", \"M1\", \"M2\", \"M3\", \"M4\", \"M5\", \"M6\", \"M7\"",
    "A" => 20,
    "B" => 20,
    "C" => 20,
    "D" => 20,
    "E" => 20,
    "F" => 20,
    "G" => 20,
    "H" => 20
);

/// Each of eight members enters an order on a security of its own.
const EIGHT_EACH: &str = orders!(
    "enter,M0,1,A,buy,limit,9.90,,5,,,
enter,M1,1,B,buy,limit,9.90,,5,,,
enter,M2,1,C,buy,limit,9.90,,5,,,
enter,M3,1,D,buy,limit,9.90,,5,,,
enter,M4,1,E,buy,limit,9.90,,5,,,
enter,M5,1,F,buy,limit,9.90,,5,,,
enter,M6,1,G,buy,limit,9.90,,5,,,
enter,M7,1,H,buy,limit,9.90,,5,,,
"
);

/// A day of `TWO` in which no security has rows of two members in one round. The first round has phase rows alone, and the
/// fifth rows of one member alone; in the others both members trade or rest, each on the security that the other one leaves.
pub(super) const APART: &str = orders!(
    "open,,,*,,,,,,,,
enter,M0,1,A,sell,limit,10.10,,5,,,
enter,M1,1,B,sell,limit,10.10,,5,,,
uncross,,,*,,,,,,,,
enter,M1,2,A,buy,limit,10.10,,2,,,
enter,M0,2,B,buy,limit,10.10,,3,,,
enter,M1,3,A,sell,stop-market,,10.00,4,,,
enter,M0,3,B,sell,stop-market,,10.00,4,,,
intraday,,,*,,,,,,,,
enter,M0,4,A,buy,limit,10.00,,10,,,
enter,M1,4,B,buy,limit,10.00,,10,,,
enter,M0,5,A,sell,limit,10.00,,4,,,
enter,M1,5,B,sell,limit,10.00,,4,,,
uncross,,,*,,,,,,,,
enter,M0,6,A,sell,limit,10.20,,7,gtc,,
enter,M1,6,B,buy,limit,9.90,,7,gtc,,
cancel,M0,9,A,,,,,,,,
close,,,*,,,,,,,,
change,M0,6,A,,,,,5,,,
uncross,,,*,,,,,,,,
end,,,*,,,,,,,,
"
);

/// The statement of that day, worked out by hand.
pub(super) const APART_STATEMENT: &str = "DAY 20260105
SECURITY A ended
REFERENCES 10.0000 10.0000
TRADE 1 continuous 10.1000 2 M1 2 M0 1
TRADE 2 intraday-call 10.0000 4 M0 4 M0 5
TRADE 3 continuous 10.0000 4 M0 4 M1 3
ORDER M0 6 sell 10.2000 5 gtc free
NET M0 2 -19.8000
NET M1 -2 19.8000
TOTAL 10 100.2000
SECURITY B ended
REFERENCES 10.0000 10.0000
TRADE 1 continuous 10.1000 3 M0 2 M1 1
TRADE 2 intraday-call 10.0000 4 M1 4 M1 5
TRADE 3 continuous 10.0000 4 M1 4 M0 3
ORDER M1 6 buy 9.9000 7 gtc free
NET M0 -1 9.7000
NET M1 1 -9.7000
TOTAL 11 110.3000
MEMBER M0 -10.1000
MEMBER M1 10.1000
ROWS 27 1
";

/// The statement of the day of `ORDERS`.
pub(super) const ORDERS_STATEMENT: &str = "DAY 20260105
SECURITY XYZ opening-call
REFERENCES 10.0000 10.0000
ORDER BBB 1 sell 10.1000 5 day free
ORDER AAA 2 buy 9.9500 7 day free
TOTAL 0 0.0000
MEMBER AAA 0.0000
MEMBER BBB 0.0000
ROWS 5 0
";

/// A record that is none of an order file, behind rounds that are taken.
pub(super) const LATE_FAULT: &str = orders!(
    "open,,,*,,,,,,,,
enter,M0,1,A,sell,limit,10.10,,5,,,
enter,M1,1,B,sell,limit,10.10,,5,,,
uncross,,,*,,,,,,,,
walk,,,*,,,,,,,,
"
);

/// What a day writes.
#[derive(Clone, Copy)]
enum Written {
    All(&'static str),
    /// A text with this end, before which it hangs on the schedule.
    End(&'static str),
}

/// A day that so many workers share.
#[derive(Clone, Copy)]
struct SharedDay {
    name: &'static str,
    workers: u32,
    segment: &'static str,
    orders: &'static str,
    /// How many bytes its writer takes.
    room: usize,
    answer: Answer,
    written: Written,
}

/// A day that accepts and refuses so many rows, and has this statement.
macro_rules! stated {
    ($name:expr, $workers:expr, $segment:expr, $orders:expr, $counts:expr, $statement:expr) => {
        SharedDay {
            name: $name,
            workers: $workers,
            segment: $segment,
            orders: $orders,
            room: usize::MAX,
            answer: Ok($counts),
            written: Written::All($statement),
        }
    };
}

/// A day of two workers that has this fault, and writes nothing.
macro_rules! faulty {
    ($name:expr, $segment:expr, $orders:expr, $fault:expr) => {
        SharedDay {
            name: $name,
            workers: 2,
            segment: $segment,
            orders: $orders,
            room: usize::MAX,
            answer: Err($fault),
            written: Written::All(""),
        }
    };
}

const DAYS: [SharedDay; 13] = [
    stated!(
        "a cascade by one",
        1,
        SEGMENT,
        CASCADE,
        (11, 1),
        CASCADE_STATEMENT
    ),
    SharedDay {
        name: "a cascade by 64",
        workers: 64,
        segment: SEGMENT,
        orders: CASCADE,
        room: usize::MAX,
        answer: Ok((11, 1)),
        written: Written::End("\nROWS 11 1\n"),
    },
    stated!(
        "orders by one",
        1,
        SEGMENT,
        ORDERS,
        (5, 0),
        ORDERS_STATEMENT
    ),
    stated!(
        "orders by two",
        2,
        SEGMENT,
        ORDERS,
        (5, 0),
        ORDERS_STATEMENT
    ),
    stated!(
        "orders by 64",
        64,
        SEGMENT,
        ORDERS,
        (5, 0),
        ORDERS_STATEMENT
    ),
    stated!("apart by one", 1, TWO, APART, (27, 1), APART_STATEMENT),
    stated!("apart by two", 2, TWO, APART, (27, 1), APART_STATEMENT),
    stated!("apart by 64", 64, TWO, APART, (27, 1), APART_STATEMENT),
    faulty!(
        "a bad segment",
        "date = -1\n",
        "",
        DayFault::Segment(FileFault {
            line: 0,
            cause: FileCause::MissingKey
        })
    ),
    faulty!("no header", NO_SECURITY, "", BAD_HEADER),
    faulty!(
        "no security",
        NO_SECURITY,
        HEADER,
        DayFault::Open(OpenFault::NoSecurity)
    ),
    faulty!(
        "a late fault",
        TWO,
        LATE_FAULT,
        DayFault::Orders(OrdersFault {
            file: 1,
            fault: FileFault {
                line: 6,
                cause: FileCause::BadField
            }
        })
    ),
    SharedDay {
        name: "a writer that fails",
        workers: 2,
        segment: TWO,
        orders: APART,
        room: 10,
        answer: Err(DayFault::WriteFailed),
        written: Written::All("DAY 202601"),
    },
];

/// Runs the day of a segment file and these order files by so many workers. A clause sees nothing of it.
pub(super) fn shared<R: Abort + AllocGlobal + Threads + Wait + Sync, G: Gate + Sync>(
    rt: &R,
    segment: &str,
    files: &[&str],
    out: &mut impl Write,
    workers: u32,
    gate: &G,
) -> Answer {
    let storage = Storage::with_fixed_seed(rt.alloc());
    let (mut segment, mut files) = (segment.as_bytes(), bytes_of(rt, files));
    let orders = files.as_mut_slice();
    assert!(rt; 1 <= workers && workers <= MAX_WORKERS && orders.len() <= MAX_FILES);
    let report = run_day(rt, storage, &mut segment, orders, out, workers, gate)?;
    Ok((report.accepted, report.refused))
}

/// Compares what a day answers, and what it writes.
fn ends<R: Abort + AllocGlobal + Threads + Wait + Sync>(rt: &R, day: &SharedDay) {
    let mut out = ShortWriter::new(rt.alloc(), day.room, None);
    let (files, workers) = ([day.orders], day.workers);
    let answer = shared(rt, day.segment, &files, &mut out, workers, &NoGate);
    let bytes = out.bytes.as_slice();
    let is_written = match day.written {
        Written::All(text) => bytes == text.as_bytes(),
        Written::End(text) => bytes.ends_with(text.as_bytes()),
    };
    assert!(rt; answer == day.answer && is_written, "{}", day.name);
}

#[test]
fn ends_of_shared_days(rt: HostRuntime) {
    let days = DAYS;
    for day in &days {
        ends(&rt, day);
    }
}

/// Workers order among themselves by a count, and note where one of them waits in vain.
#[derive(Drop)]
struct Meeting {
    count: AtomicU64,
    missed: AtomicU64,
}

impl Meeting {
    fn new() -> Meeting {
        Meeting {
            count: AtomicU64::new(0),
            missed: AtomicU64::new(0),
        }
    }

    /// Waits until the count is this high, or a worker has looked for it in vain so often.
    fn wait_for(&self, goal: u64) {
        for _ in 0..TURNS {
            if self.count.load(Ordering::SeqCst) >= goal || self.missed.load(Ordering::SeqCst) > 0 {
                return;
            }
            thread::yield_now();
        }
        self.missed.store(1, Ordering::SeqCst);
    }
}

/// Runs the day of two texts, a row for each worker, which is accepted, and sees that each worker was met and none waited in vain.
fn meet<R: Abort + AllocGlobal + Threads + Wait + Sync, G: Gate + Sync>(
    rt: &R,
    segment: &str,
    orders: &str,
    workers: u32,
    gate: &G,
    meeting: &Meeting,
) {
    let mut out = Vec::new(rt.alloc());
    let answer = shared(rt, segment, &[orders], &mut out, workers, gate);
    assert!(rt; meeting.missed.load(Ordering::SeqCst) == 0);
    assert!(rt; meeting.count.load(Ordering::SeqCst) == u64::from(workers));
    assert!(rt; answer == Ok((u64::from(workers), 0)));
}

/// Holds worker 0 inside the lock of its security until worker 1, which waits for that, was answered on another one.
#[derive(Drop)]
struct Overlap {
    meeting: Meeting,
}

impl Gate for Overlap {
    fn outside(&self, worker: u32, answered: u64) {
        match (worker, answered) {
            (1, 0) => self.meeting.wait_for(1),
            (1, 1) => self.meeting.count.store(2, Ordering::SeqCst),
            _ => {}
        }
    }

    fn inside(&self, worker: u32, _security: u32) {
        if worker == 0 {
            self.meeting.count.store(1, Ordering::SeqCst);
            self.meeting.wait_for(2);
        }
    }
}

#[test]
fn work_on_two_securities_overlaps(rt: HostRuntime) {
    let gate = Overlap {
        meeting: Meeting::new(),
    };
    meet(&rt, TWO, ONE_EACH, 2, &gate, &gate.meeting);
}

/// Keeps each worker inside its lock until eight are inside at once.
#[derive(Drop)]
struct AllInside {
    meeting: Meeting,
}

impl Gate for AllInside {
    fn outside(&self, _worker: u32, _answered: u64) {}

    fn inside(&self, _worker: u32, _security: u32) {
        self.meeting.count.fetch_add(1, Ordering::SeqCst);
        self.meeting.wait_for(8);
    }
}

#[test]
fn eight_workers_inside_at_once(rt: HostRuntime) {
    let gate = AllInside {
        meeting: Meeting::new(),
    };
    meet(&rt, EIGHT, EIGHT_EACH, 8, &gate, &gate.meeting);
}
