//! The fault lines, and the reads and writes that fail.

/// A command line that prints on standard output alone.
macro_rules! prints {
    ($printed:expr, $($word:expr),*) => {
        End {
            words: &[b"xetra-day", $($word),*],
            status: 0,
            printed: $printed,
            complained: Printed::Nothing,
            written: Printed::Nothing,
        }
    };
}

/// A command line that ends with this status and prints on standard error alone.
macro_rules! complains {
    ($status:expr, $complained:expr, $($word:expr),*) => {
        End {
            words: &[b"xetra-day", $($word),*],
            status: $status,
            printed: Printed::Nothing,
            complained: $complained,
            written: Printed::Nothing,
        }
    };
}

/// A mistake in the words of `run`, which its usage is told behind.
macro_rules! mistakes_run {
    ($message:expr) => {
        Printed::Text(concat!(
            "error: ",
            $message,
            "\n\nUsage: xetra-day run [OPTIONS] <SEGMENT> <ORDERS>...\n\nFor more information, try '--help'.\n"
        ))
    };
}

/// A mistake in the words of `carry`, which its two forms are told behind.
macro_rules! mistakes_carry {
    ($message:expr) => {
        Printed::Text(concat!(
            "error: ",
            $message,
            "\n\nUsage: xetra-day carry [OPTIONS] <SEGMENT> <IN> <ORDERS>... --out <OUT>\n       xetra-day carry [OPTIONS] <SEGMENT> <IN> <ORDERS> <OUT>\n\nFor more information, try '--help'.\n"
        ))
    };
}

/// A mistake in the words of `auction`, which its usage is told behind.
macro_rules! mistakes_auction {
    ($message:expr) => {
        Printed::Text(concat!(
            "error: ",
            $message,
            "\n\nUsage: xetra-day auction [OPTIONS] --security <NAME> <SEGMENT> <ORDERS>...\n\nFor more information, try '--help'.\n"
        ))
    };
}

/// A mistake in the words of `explain`, which its usage is told behind.
macro_rules! mistakes_explain {
    ($message:expr) => {
        Printed::Text(concat!(
            "error: ",
            $message,
            "\n\nUsage: xetra-day explain [OPTIONS] <SEGMENT> <ORDERS>...\n\nFor more information, try '--help'.\n"
        ))
    };
}

mod auctions;
mod cascades;
mod ends;
mod explanations;
mod help;
mod runtime;
mod words;

ghost use Rattle.std.specs.Prelude.{◌≤◌, length};
ghost use Rattle.xm_files.specs.declared.order_files.TheConstants.{MAX_FILES};

use crate::files::fixtures::{CASCADE, HEADER, SEGMENT};
use crate::memory::want_of_memory;
use std::alloc::Global;
use std::fs::File;
use std::io::{Read, Write};
use std::process::Abort;
use std::sync::Wait;
use std::thread::Threads;
use std::{fs, io};
use xm_config::OpenFault;
use xm_day::{AskedTexts, Completeness, DayFault};
use xm_files::{FileCause, FileFault, OrdersFault};
use xm_name_index::Storage;
use xm_program::{
    Concurrency, Count, Input, Output, TextFiles, carry_over, check, fault_line, open_input, run,
};

/// A fault of a file, in this line.
macro_rules! at {
    ($line:expr, $cause:expr) => {
        FileFault {
            line: $line,
            cause: $cause,
        }
    };
}

/// Faults of a file that no case shows, each with the end of its line.
const FILE_FAULTS: [(FileFault, &str); 5] = [
    (at!(0, FileCause::ReadFailed), "line 0: ReadFailed\n"),
    (at!(0, FileCause::TooLong), "line 0: TooLong\n"),
    (at!(10, FileCause::BadValue), "line 10: BadValue\n"),
    (
        at!(1_000_002, FileCause::TooManyRows),
        "line 1000002: TooManyRows\n",
    ),
    (
        at!(4_294_967_295, FileCause::BadField),
        "line 4294967295: BadField\n",
    ),
];

/// Compares the line by which the program tells of a fault.
fn has_line(rt: &impl Abort, fault: DayFault, expected: &str) {
    assert!(rt;
        fault_line(fault).as_slice() == expected.as_bytes(),
        "{expected}"
    );
}

/// A fault of the order file with this number.
fn orders_fault(file: u32, fault: FileFault) -> DayFault {
    DayFault::Orders(OrdersFault { file, fault })
}

/// Compares the lines by which the program tells of a fault in each file.
fn has_lines(rt: &(impl Abort + AllocGlobal), fault: &FileFault, end: &str) {
    let line = (format!(in rt.alloc(); "xetra-day: segment: {end}")).expect(rt, "memory");
    has_line(rt, DayFault::Segment(*fault), line.as_str());
    let line = (format!(in rt.alloc(); "xetra-day: carry: {end}")).expect(rt, "memory");
    has_line(rt, DayFault::Carry(*fault), line.as_str());
    let line = (format!(in rt.alloc(); "xetra-day: orders: {end}")).expect(rt, "memory");
    has_line(rt, orders_fault(1, *fault), line.as_str());
    let line = (format!(in rt.alloc(); "xetra-day: orders 256: {end}")).expect(rt, "memory");
    has_line(rt, orders_fault(256, *fault), line.as_str());
}

#[test]
fn lines_of_faults_that_no_case_shows(rt: HostRuntime) {
    for (fault, end) in FILE_FAULTS {
        has_lines(&rt, &fault, end);
    }
    let memory = want_of_memory(&rt);
    let file = at!(0, FileCause::OutOfMemory(memory));
    has_lines(&rt, &file, "line 0: OutOfMemory\n");
    let open = DayFault::Open(OpenFault::OutOfMemory(memory));
    has_line(&rt, open, "xetra-day: open: OutOfMemory\n");
    has_line(
        &rt,
        DayFault::OutOfMemory(memory),
        "xetra-day: out of memory\n",
    );
    has_line(&rt, DayFault::WriteFailed, "xetra-day: write failed\n");
}

/// A writer that takes each byte and fails when it is flushed.
#[derive(Drop)]
struct Unflushed;

impl Write for Unflushed {
    fn write(&mut self, bytes: &[u8]) -> io::Result<usize> {
        Ok(bytes.len())
    }

    fn flush(&mut self) -> io::Result<()> {
        Err(io::Error::from(io::ErrorKind::StorageFull))
    }
}

/// Runs the day of a segment file and an order file by so many workers. A clause sees nothing of it.
fn run_day(
    rt: &(impl Abort + AllocGlobal + Threads + Wait + Sync),
    segment: &mut impl Read,
    orders: &mut [impl Read],
    workers: u32,
    out: &mut impl Write,
) -> Result<Completeness, DayFault>
    requires { length orders.old ≤ MAX_FILES }
{
    let storage = Storage::with_fixed_seed(rt.alloc());
    let workers = Concurrency::Workers(Count::new(workers).expect(rt, "a number of workers"));
    let asked = AskedTexts::nothing();
    let mut files: TextFiles<File> = TextFiles {
        answers: Output::Unasked,
        trades: Output::Unasked,
        events: Output::Unasked,
        depth: Output::Unasked,
        carry: Output::Unasked,
    };
    run(
        rt, storage, segment, orders, workers, asked, out, &mut files,
    )
}

/// All texts beside a statement.
const ALL: AskedTexts = AskedTexts {
    answers: true,
    trades: true,
    events: true,
    depth: true,
};

/// A text that is kept, and fails when it is flushed, if it is to.
#[derive(Drop)]
struct Kept {
    text: Vec<u8>,
    fails: bool,
}

impl Write for Kept {
    fn write(&mut self, bytes: &[u8]) -> io::Result<usize> {
        self.text.write(bytes)
    }

    fn flush(&mut self) -> io::Result<()> {
        if self.fails {
            Err(io::Error::from(io::ErrorKind::StorageFull))
        } else {
            Ok(())
        }
    }
}

fn make_kept(alloc: Global, fails: bool) -> Output<Kept> {
    Output::Made(Kept {
        text: Vec::new(alloc),
        fails,
    })
}

/// Whether a text was kept there.
fn has_text(output: &Output<Kept>) -> bool {
    match output {
        Output::Made(kept) => !kept.text.is_empty(),
        Output::Unasked => false,
    }
}

/// Files for the texts beside a statement, of which the one at this place fails.
fn kept_files(alloc: Global, fails: Option<u32>) -> TextFiles<Kept> {
    TextFiles {
        answers: make_kept(alloc, fails == Some(0)),
        trades: make_kept(alloc, fails == Some(1)),
        events: make_kept(alloc, fails == Some(2)),
        depth: make_kept(alloc, fails == Some(3)),
        carry: make_kept(alloc, fails == Some(4)),
    }
}

/// A carry file without an entry.
const NONE_LEFT: &str = carried!("");

/// Runs the day of two texts, which opens with nothing that earlier days left, and writes its statement, the texts that are asked for,
/// and what it leaves. A clause sees nothing of it.
fn tell_day(
    rt: &(impl Abort + AllocGlobal + Threads + Wait + Sync),
    out: &mut impl Write,
    asked: AskedTexts,
    files: &mut TextFiles<Kept>,
) -> Result<Completeness, DayFault> {
    let storage = Storage::with_fixed_seed(rt.alloc());
    let (mut segment, mut orders) = (SEGMENT.as_bytes(), [CASCADE.as_bytes()]);
    let mut carried = NONE_LEFT.as_bytes();
    carry_over(
        rt,
        storage,
        &mut segment,
        &mut carried,
        &mut orders,
        Concurrency::Threads(None),
        asked,
        out,
        files,
    )
}

/// Checks a segment file. A clause sees nothing of it.
fn check_file(
    alloc: Global,
    segment: &mut impl Read,
    out: &mut impl Write,
) -> Result<(), DayFault> {
    check(Storage::with_fixed_seed(alloc), segment, out)
}

/// Compares the fault of the day of two files, which writes nothing.
fn has_fault(
    rt: &(impl Abort + AllocGlobal + Threads + Wait + Sync),
    segment: &mut impl Read,
    orders: &mut [impl Read],
    fault: DayFault,
)
    requires { length orders.old ≤ MAX_FILES }
{
    let mut out = Vec::new(rt.alloc());
    let answer = run_day(rt, segment, orders, 1, &mut out);
    assert!(rt; answer == Err(fault) && out.is_empty());
}

const READ_FAILED: FileFault = at!(0, FileCause::ReadFailed);

#[test]
fn unopened_files_fail_in_turn(rt: HostRuntime) {
    let mut missing = open_input(|path| fs::open(&rt, path), "no/such/file");
    assert!(rt; missing.read(&mut [0; 8]).is_err());
    let mut orders: [Input<File>; 1] = [Input::Unopened];
    let fault = DayFault::Segment(READ_FAILED);
    has_fault(&rt, &mut missing, &mut orders, fault);
    let fault = orders_fault(1, READ_FAILED);
    has_fault(&rt, &mut SEGMENT.as_bytes(), &mut orders, fault);
}

/// Runs the day of two texts by so many workers, and answers its statement.
fn statement_of(
    rt: &(impl Abort + AllocGlobal + Threads + Wait + Sync),
    segment: &str,
    orders: &str,
    workers: u32,
) -> Vec<u8> {
    let mut out = Vec::new(rt.alloc());
    let (mut segment, mut orders) = (segment.as_bytes(), [orders.as_bytes()]);
    run_day(rt, &mut segment, &mut orders, workers, &mut out).expect(rt, "a statement");
    out
}

#[test]
fn an_unflushed_statement_is_not_written(rt: HostRuntime) {
    let (mut segment, mut orders) = (SEGMENT.as_bytes(), [HEADER.as_bytes()]);
    assert!(rt; !statement_of(&rt, SEGMENT, HEADER, 1).is_empty());
    let answer = run_day(&rt, &mut segment, &mut orders, 1, &mut Unflushed);
    assert!(rt; answer == Err(DayFault::WriteFailed));
}

#[test]
fn an_unflushed_line_is_not_written(rt: HostRuntime) {
    let answer = check_file(rt.alloc(), &mut SEGMENT.as_bytes(), &mut Unflushed);
    assert!(rt; answer == Err(DayFault::WriteFailed));
}

/// What isn't asked for isn't written: each write to it would fail.
#[test]
fn one_text_of_a_day(rt: HostRuntime) {
    let mut out = Vec::new(rt.alloc());
    let asked = AskedTexts {
        answers: false,
        trades: false,
        events: false,
        depth: true,
    };
    let mut files = TextFiles {
        answers: Output::Unasked,
        trades: Output::Unasked,
        events: Output::Unasked,
        depth: make_kept(rt.alloc(), false),
        carry: make_kept(rt.alloc(), false),
    };
    assert!(rt; tell_day(&rt, &mut out, asked, &mut files) == Ok(Completeness::Incomplete));
    assert!(rt; has_text(&files.depth));
}

#[test]
fn texts_go_out_one_behind_the_other(rt: HostRuntime) {
    let failed = Err(DayFault::WriteFailed);
    let mut files = kept_files(rt.alloc(), None);
    assert!(rt; tell_day(&rt, &mut Unflushed, ALL, &mut files) == failed);
    assert!(rt; !has_text(&files.answers) && !has_text(&files.carry));
    let mut out = Vec::new(rt.alloc());
    let mut files = kept_files(rt.alloc(), Some(0));
    assert!(rt; tell_day(&rt, &mut out, ALL, &mut files) == failed);
    assert!(rt; out == statement_of(&rt, SEGMENT, CASCADE, 1));
    assert!(rt; !has_text(&files.trades) && !has_text(&files.depth));
    let mut files = kept_files(rt.alloc(), Some(1));
    assert!(rt; tell_day(&rt, &mut out, ALL, &mut files) == failed);
    assert!(rt; has_text(&files.answers) && !has_text(&files.events));
    let mut files = kept_files(rt.alloc(), Some(2));
    assert!(rt; tell_day(&rt, &mut out, ALL, &mut files) == failed);
    assert!(rt; has_text(&files.trades) && !has_text(&files.depth));
    let mut files = kept_files(rt.alloc(), Some(3));
    assert!(rt; tell_day(&rt, &mut out, ALL, &mut files) == failed);
    assert!(rt; has_text(&files.events) && !has_text(&files.carry));
    let mut files = kept_files(rt.alloc(), Some(4));
    assert!(rt; tell_day(&rt, &mut out, ALL, &mut files) == failed);
    assert!(rt; has_text(&files.depth));
}
