//! Days on several threads, which give what one thread gives, byte for byte. What these tests find doesn't hang on the schedule.
use super::drawn::{Draw, add, add_rows, order_file, segment_file};
use super::workers::{APART, TWO};
use super::{Answer, FAILURES, READ_FAILED};
use crate::files::fixtures::{
    CASCADE, HEADER, OneByteReader, SECOND_HEADER, SEGMENT, ShortWriter, bytes_of,
};
use std::io::{ErrorKind, Read};
use std::process::Abort;
use std::thread::Threads;
use xm_day::{
    AskedTexts, Completeness, DayFault, DayTexts, HandsOn, StatementText, day_texts,
    open_carried_files, send_statement, take_on_threads,
};
use xm_files::{FileCause, FileFault, MAX_FILES, OrdersFault};
use xm_name_index::Storage;

/// On how many threads a day is run, beside the run by one.
const THREADS: u32 = 3;

/// All texts beside a statement.
const ALL: AskedTexts = AskedTexts {
    answers: true,
    trades: true,
    events: true,
    depth: true,
};

/// A carry file without an entry.
pub(super) const NONE: &str = carried!("");

/// What a day answers, and its texts.
#[derive(Drop)]
pub(super) struct Told {
    pub(super) answer: Answer,
    completeness: Option<Completeness>,
    pub(super) statement: Vec<u8>,
    answers: Vec<u8>,
    trades: Vec<u8>,
    events: Vec<u8>,
    depth: Vec<u8>,
    left: Vec<u8>,
}

impl Told {
    fn is(&self, other: &Told) -> bool {
        self.answer == other.answer
            && self.completeness == other.completeness
            && self.statement == other.statement
            && self.answers == other.answers
            && self.trades == other.trades
            && self.events == other.events
            && self.depth == other.depth
            && self.left == other.left
    }
}

/// A day that ended so.
fn told_of(rt: &(impl Abort + AllocGlobal), ended: Result<DayTexts, DayFault>) -> Told {
    match ended {
        Ok(day) => {
            let DayTexts {
                statement,
                answers,
                trades,
                events,
                depth,
                carry,
                report,
                completeness,
            } = day;
            Told {
                answer: Ok((report.accepted, report.refused)),
                completeness: Some(completeness),
                statement: written(rt, &statement),
                answers,
                trades,
                events,
                depth,
                left: carry,
            }
        }
        Err(fault) => Told {
            answer: Err(fault),
            completeness: None,
            statement: Vec::new(rt.alloc()),
            answers: Vec::new(rt.alloc()),
            trades: Vec::new(rt.alloc()),
            events: Vec::new(rt.alloc()),
            depth: Vec::new(rt.alloc()),
            left: Vec::new(rt.alloc()),
        },
    }
}

/// The bytes of a statement.
fn written(rt: &(impl Abort + AllocGlobal), statement: &StatementText) -> Vec<u8> {
    let mut out = Vec::new(rt.alloc());
    send_statement(statement, &mut out).expect(rt, "memory");
    out
}

/// The texts of a day on so many threads. A clause sees nothing of them.
fn made<T: Abort + AllocGlobal + Threads + Sync, R: Read>(
    rt: &T,
    threads: u32,
    segment: &str,
    carry: &[u8],
    orders: &mut [R],
    asked: AskedTexts,
) -> Result<DayTexts, DayFault> {
    assert!(rt; 1 <= threads && orders.len() <= MAX_FILES);
    let storage = Storage::with_fixed_seed(rt.alloc());
    let (mut segment, mut carry) = (segment.as_bytes(), carry);
    let (config, names) = open_carried_files(storage, &mut segment, &mut carry)?;
    let taken = take_on_threads(rt, threads, storage, &config, &names, orders, asked);
    day_texts(rt.alloc(), &names, taken, HandsOn::WhatIsLeft)
}

/// What the day of a segment file, a carry file and these order files gives on so many threads.
pub(super) fn tell(
    rt: &(impl Abort + AllocGlobal + Threads + Sync),
    threads: u32,
    segment: &str,
    carry: &[u8],
    files: &[&str],
) -> Told {
    let mut files = bytes_of(rt, files);
    let orders = files.as_mut_slice();
    told_of(rt, made(rt, threads, segment, carry, orders, ALL))
}

/// Compares what such a day gives on several threads with what it gives on one, and gives it.
fn agrees(
    rt: &(impl Abort + AllocGlobal + Threads + Sync),
    name: &str,
    segment: &str,
    carry: &[u8],
    files: &[&str],
) -> Told {
    let alone = tell(rt, 1, segment, carry, files);
    let day = tell(rt, THREADS, segment, carry, files);
    assert!(rt; day.is(&alone), "{name}");
    alone
}

/// The rows of long days are read in several rounds and parts. The second day opens with what the first one left.
#[test]
fn long_drawn_days_in_a_row(rt: HostRuntime) {
    let mut draw = Draw { state: 20_260_106 };
    let first = segment_file(&rt, "20260105", 5);
    let second = segment_file(&rt, "20260106", 5);
    let orders = order_file(&rt, &mut draw, 5, 80_000);
    let (segment, carry) = (first.as_str(), NONE.as_bytes());
    let day = agrees(&rt, "a drawn day", segment, carry, &[orders.as_str()]);
    let (accepted, refused) = day.answer.expect(&rt, "a day without a fault");
    assert!(rt; accepted > 0 && refused > 0 && day.left.len() > NONE.len());
    let orders = order_file(&rt, &mut draw, 5, 600);
    let (segment, carry) = (second.as_str(), day.left.as_slice());
    let next = agrees(&rt, "the day behind it", segment, carry, &[orders.as_str()]);
    assert!(rt; next.answer.is_ok());
}

/// Two long files, each of which is read in several rounds and parts, and one without a row between them give the statement of their rows
/// in one file, and leave the same.
#[test]
fn long_files_of_one_day(rt: HostRuntime) {
    let mut draw = Draw { state: 20_260_107 };
    let segment = segment_file(&rt, "20260105", 5);
    let mut whole = String::from_str(rt.alloc(), SECOND_HEADER).expect(&rt, "memory");
    add_rows(&rt, &mut draw, &mut whole, 5, 0, 30_000);
    let first = String::from_str(rt.alloc(), whole.as_str()).expect(&rt, "memory");
    let mut third = String::from_str(rt.alloc(), SECOND_HEADER).expect(&rt, "memory");
    add_rows(&rt, &mut draw, &mut third, 5, 30_000, 60_000);
    let (_, rows) = third.as_str().split_once('\n').expect(&rt, "a header");
    add(&rt, &mut whole, rows);
    let files = [first.as_str(), HEADER, third.as_str()];
    let (segment, carry) = (segment.as_str(), NONE.as_bytes());
    let day = agrees(&rt, "a day in three files", segment, carry, &files);
    let uncut = tell(&rt, 1, segment, carry, &[whole.as_str()]);
    assert!(rt; day.answer.is_ok() && day.answer == uncut.answer);
    assert!(rt; day.statement == uncut.statement && day.left == uncut.left);
}

/// What is put between the rows of a file: its name, its text, and the cause of the fault that its first record then has, if any.
const PUTS: [(&str, &str, Option<FileCause>); 14] = [
    (
        "a bad number",
        "cancel,M0,x,S0,,,,,,,,,\n",
        Some(FileCause::BadField),
    ),
    (
        "an unknown command",
        "walk,M0,1,S0,,,,,,,,,\n",
        Some(FileCause::BadField),
    ),
    (
        "a field that must be empty",
        "cancel,M0,1,S0,buy,,,,,,,,\n",
        Some(FileCause::BadField),
    ),
    (
        "a field too many",
        "cancel,M0,1,S0,,,,,,,,,,\n",
        Some(FileCause::Syntax),
    ),
    (
        "a field too few",
        "cancel,M0,1,S0,,,,,,,,\n",
        Some(FileCause::Syntax),
    ),
    (
        "commas alone",
        ",,,,,,,,,,,,,,,,,,,,\n",
        Some(FileCause::Syntax),
    ),
    (
        "a quote that is never closed",
        "cancel,M0,\"1,S0,,,,,,,,,\n",
        Some(FileCause::Syntax),
    ),
    (
        "a bad number in quotes, behind lines in quotes",
        "cancel,M0,\"x\n\ny\",S0,,,,,,,,,\n",
        Some(FileCause::BadField),
    ),
    (
        "a text of several lines",
        "cancel,M0,1,S0,,,,,,,,,\"one\n\ncancel,M0,x,S0\r\nthe \"\"third\"\"\n\"\n",
        None,
    ),
    (
        "carriage returns",
        "cancel,M0,1,S0,,,,,,,,,\r\ncancel,M0,2,S0,,,,,,,,,\rcancel,M0,3,S0,,,,,,,,,\r",
        None,
    ),
    ("blank lines", "\n\n\r\n\r\r\n\n", None),
    (
        "unknown names",
        "cancel,NOBODY,1,NOWHERE,,,,,,,,,\nopen,,,NOWHERE,,,,,,,,,\n",
        None,
    ),
    ("rows of all securities", "open,,,*,,,,,,,,,\n", None),
    ("no row", "", None),
];

/// Adds so many cancellations, each of an order that isn't there, from this number on.
fn add_cancellations(rt: &(impl Abort + AllocGlobal), orders: &mut String, from: u32, to: u32) {
    for number in from..to {
        let security = number & 3;
        let row = format!(in rt.alloc(); "cancel,M1,{number},S{security},,,,,,,,,\n");
        add(rt, orders, row.expect(rt, "memory").as_str());
    }
}

/// The order file of so many rows, with a text before the row with this number.
fn file_with(rt: &(impl Abort + AllocGlobal), rows: u32, place: u32, text: &str) -> String {
    let mut orders = String::from_str(rt.alloc(), SECOND_HEADER).expect(rt, "memory");
    add_cancellations(rt, &mut orders, 0, place);
    add(rt, &mut orders, text);
    add_cancellations(rt, &mut orders, place, rows);
    orders
}

/// How many rows a file has that is longer than a MiB, and is read in several parts and rounds.
const ROWS: u32 = 40_000;

/// Where a text is put into it: at its begin, behind the first round, and at its end.
const PLACES: [u32; 3] = [0, 33_000, ROWS];

/// The fault of the order file with this number.
fn orders_fault(file: u32, fault: FileFault) -> DayFault {
    DayFault::Orders(OrdersFault { file, fault })
}

/// Compares a day in whose order file such a text was put before the row with this number: its fault, or that it has none.
fn put_agrees(
    rt: &(impl Abort + AllocGlobal + Threads + Sync),
    segment: &str,
    place: u32,
    put: &(&str, &str, Option<FileCause>),
) {
    let (name, text, cause) = put;
    let orders = file_with(rt, ROWS, place, text);
    let day = agrees(rt, name, segment, NONE.as_bytes(), &[orders.as_str()]);
    match cause {
        Some(cause) => {
            let line = place.wrapping_add(2);
            let cause = *cause;
            assert!(rt;
                day.answer == Err(orders_fault(1, FileFault { line, cause })),
                "{name}"
            );
        }
        None => assert!(rt; day.answer.is_ok(), "{name}"),
    }
}

#[test]
fn faults_and_odd_rows_anywhere_in_a_long_file(rt: HostRuntime) {
    let segment = segment_file(&rt, "20260105", 4);
    let puts = PUTS;
    for place in PLACES {
        for put in &puts {
            put_agrees(&rt, segment.as_str(), place, put);
        }
    }
}

/// How many rows of a phase of eight securities are 1,000,000 rows.
const MOST_ROWS: u32 = 125_000;

const TOO_MANY_ROWS: FileFault = FileFault {
    line: 125_002,
    cause: FileCause::TooManyRows,
};

#[test]
fn rows_of_all_securities_beyond_the_most_rows(rt: HostRuntime) {
    let segment = segment_file(&rt, "20260105", 8);
    let mut orders = String::from_str(rt.alloc(), SECOND_HEADER).expect(&rt, "memory");
    for _ in 0..MOST_ROWS {
        add(&rt, &mut orders, "open,,,*,,,,,,,,,\n");
    }
    add(&rt, &mut orders, "open,,,S0,,,,,,,,,\nwalk\n");
    let mut orders = [orders.as_bytes()];
    let (segment, carry) = (segment.as_str(), NONE.as_bytes());
    let nothing = AskedTexts::nothing();
    let day = made(&rt, THREADS, segment, carry, &mut orders, nothing);
    assert!(rt; told_of(&rt, day).answer == Err(orders_fault(1, TOO_MANY_ROWS)));
}

/// Each of two order files fails at each call in turn, one byte being read a call.
#[test]
fn readers_that_fail(rt: HostRuntime) {
    for call in 0..CASCADE.len() + 1 {
        for file in [1, 2] {
            let failure = Some((call, ErrorKind::BrokenPipe));
            let (first, second) = if file == 1 {
                (failure, None)
            } else {
                (None, failure)
            };
            let mut orders = [
                OneByteReader::new(CASCADE, first),
                OneByteReader::new(CASCADE, second),
            ];
            let day = made(&rt, THREADS, SEGMENT, NONE.as_bytes(), &mut orders, ALL);
            assert!(rt; told_of(&rt, day).answer == Err(orders_fault(file, READ_FAILED)));
        }
    }
}

/// Compares what a writer with this room holds, which then fails, behind the statement of a day on several threads.
fn fails_after(
    rt: &(impl Abort + AllocGlobal + Threads + Sync),
    segment: &str,
    orders: &str,
    statement: &[u8],
    room: usize,
) {
    for failure in FAILURES {
        let mut out = ShortWriter::new(rt.alloc(), room, failure);
        let mut orders = [orders.as_bytes()];
        let day = made(rt, THREADS, segment, NONE.as_bytes(), &mut orders, ALL);
        let day = day.expect(rt, "a day");
        assert!(rt; send_statement(&day.statement, &mut out) == Err(DayFault::WriteFailed));
        assert!(rt; out.bytes.as_slice() == statement.get(..room).unwrap_or(b""));
    }
}

#[test]
fn writers_that_fail(rt: HostRuntime) {
    for (segment, orders) in [(SEGMENT, CASCADE), (TWO, APART)] {
        let alone = tell(&rt, 1, segment, NONE.as_bytes(), &[orders]);
        let statement = alone.statement.as_slice();
        for room in (0..statement.len()).step_by(41) {
            fails_after(&rt, segment, orders, statement, room);
        }
    }
}
