//! The ends of the program: what it prints on each stream, and its status.

use super::runtime::{Call, Stream};
use crate::files::fixtures::{BAD_WIDTHS, HEADER, NO_SECURITY, SEGMENT};
use std::process::{Abort, ExitCode};
use std::sync::{Mutex, Wait};
use std::thread::Threads;
use xm_program::run_program;

const STATEMENT: &str = "DAY 20260105
SECURITY XYZ pre-trading
REFERENCES 10.0000 10.0000
TOTAL 0 0.0000
MEMBER AAA 0.0000
MEMBER BBB 0.0000
ROWS 0 0
";

const BAD_ROW: &str = orders!("walk,,,,,,,,,,,\n");

/// The phases of a day, which ends.
const ENDED: &str = orders!(
    "open,,,*,,,,,,,,\nuncross,,,*,,,,,,,,\nclose,,,*,,,,,,,,\nuncross,,,*,,,,,,,,\nend,,,*,,,,,,,,\n"
);

/// The same, with a cancellation behind it, which is refused.
const ENDED_BEFORE: &str = orders!(
    "open,,,*,,,,,,,,\nuncross,,,*,,,,,,,,\nclose,,,*,,,,,,,,\nuncross,,,*,,,,,,,,\nend,,,*,,,,,,,,\ncancel,AAA,1,XYZ,,,,,,,,\n"
);

/// A carry file without an entry.
const NONE_LEFT: &str = carried!("");

const FILES: &[(&str, &str)] = &[
    ("day.toml", SEGMENT),
    ("day.csv", HEADER),
    ("bad.csv", BAD_ROW),
    ("ended.csv", ENDED),
    ("before.csv", ENDED_BEFORE),
    ("wide.toml", BAD_WIDTHS),
    ("empty.toml", NO_SECURITY),
    ("in.csv", NONE_LEFT),
    (" spaced.toml\t", SEGMENT),
    ("\n spaced.csv ", HEADER),
];

/// What a call prints on a stream.
#[derive(Clone, Copy)]
pub enum Printed {
    Nothing,
    Text(&'static str),
    /// A text that begins and ends so, and has its beginning once.
    Between(&'static str, &'static str),
}

impl Printed {
    pub fn is(self, text: &str) -> bool {
        match self {
            Printed::Nothing => text.is_empty(),
            Printed::Text(whole) => text == whole,
            Printed::Between(start, end) => match text.split_once(start) {
                Some((before, rest)) => {
                    before.is_empty() && !rest.contains(start) && rest.ends_with(end)
                }
                None => false,
            },
        }
    }
}

/// A command line with its status, and what is then on standard output, on standard error, and in the file that it made.
#[derive(Clone, Copy)]
pub struct End {
    pub words: &'static [&'static [u8]],
    pub status: u8,
    pub printed: Printed,
    pub complained: Printed,
    pub written: Printed,
}

/// Whether the program ends so, what it writes to the file that it makes aside.
fn has_told<'a>(
    rt: &'a (impl Abort + AllocGlobal + Threads + Wait + Sync),
    output: Stream,
    end: &End,
    made: &'a Mutex<String>,
) -> bool {
    let mut call = Call::new(rt, end.words, FILES, made, output);
    let status = run_program(&call);
    status == ExitCode::from(end.status)
        && end.printed.is(call.printed.get_mut().as_str())
        && end.complained.is(call.complained.get_mut().as_str())
}

/// Compares how the program ends.
fn is_end(rt: &(impl Abort + AllocGlobal + Threads + Wait + Sync), output: Stream, end: &End) {
    let mut made = Mutex::new(String::new(rt.alloc()));
    let has_told = has_told(rt, output, end, &made);
    assert!(rt;
        has_told && end.written.is(made.get_mut().as_str()),
        "of {:?}",
        end.words
    );
}

pub fn are_ends(
    rt: &(impl Abort + AllocGlobal + Threads + Wait + Sync),
    output: Stream,
    ends: &[End],
) {
    for end in ends {
        is_end(rt, output, end);
    }
}

pub const UNREAD_SEGMENT: Printed = Printed::Text("xetra-day: segment: line 0: ReadFailed\n");

const UNREAD_ORDERS: Printed = Printed::Text("xetra-day: orders: line 0: ReadFailed\n");

pub const BAD_SECOND_FILE: Printed = Printed::Text("xetra-day: orders 2: line 2: BadField\n");

const STATEMENTS: [End; 7] = [
    prints!(Printed::Text(STATEMENT), b"run", b"day.toml", b"day.csv"),
    prints!(
        Printed::Text(STATEMENT),
        b"run",
        b"day.toml",
        b"day.csv",
        b"\n spaced.csv ",
        b"day.csv"
    ),
    prints!(
        Printed::Text(STATEMENT),
        b"run",
        b"day.toml",
        b"day.csv",
        b"--workers=2",
        b"day.csv"
    ),
    prints!(
        Printed::Text(STATEMENT),
        b"run",
        b"day.toml",
        b"day.csv",
        b"--workers",
        b"1"
    ),
    prints!(
        Printed::Text(STATEMENT),
        b"run",
        b"--workers=64",
        b"day.toml",
        b"day.csv"
    ),
    prints!(
        Printed::Text(STATEMENT),
        b"run",
        b"day.toml",
        b"day.csv",
        b"--threads",
        b"64"
    ),
    prints!(
        Printed::Text(STATEMENT),
        b"run",
        b" spaced.toml\t",
        b"\n spaced.csv "
    ),
];

/// A strict command line that ends with this status, whose statement ends so.
macro_rules! judged {
    ($status:expr, $end:expr, $($word:expr),*) => {
        End {
            words: &[b"xetra-day", $($word),*, b"--strict"],
            status: $status,
            printed: Printed::Between("DAY 20260105\nSECURITY XYZ ", $end),
            complained: Printed::Nothing,
            written: Printed::Nothing,
        }
    };
}

/// A strict day is done only where each row was accepted and each security has ended.
const STRICT: [End; 7] = [
    judged!(0, "ROWS 5 0\n", b"run", b"day.toml", b"ended.csv"),
    judged!(
        0,
        "ROWS 5 0\n",
        b"run",
        b"day.toml",
        b"ended.csv",
        b"day.csv",
        b"--threads=2"
    ),
    judged!(4, "ROWS 5 1\n", b"run", b"day.toml", b"before.csv"),
    judged!(
        4,
        "ROWS 5 1\n",
        b"run",
        b"day.toml",
        b"before.csv",
        b"--workers=2"
    ),
    judged!(4, "ROWS 0 0\n", b"run", b"day.toml", b"day.csv"),
    complains!(
        1,
        Printed::Text("xetra-day: orders: line 2: BadField\n"),
        b"run",
        b"--strict",
        b"day.toml",
        b"bad.csv"
    ),
    prints!(
        Printed::Between("DAY 20260105\nSECURITY XYZ ", "ROWS 5 1\n"),
        b"run",
        b"day.toml",
        b"before.csv"
    ),
];

/// The answers to the rows of a file that has none.
const ANSWERS: &str =
    "record,security,answer,version,phase,first_trade,trades,quantity,money,rest,best_buy,buy_quantity,best_sell,sell_quantity,last,auction,indicative,indicative_quantity,text\n";

/// The levels behind them.
const DEPTH: &str = "record,security,side,rank,limit,quantity\n";

/// A command line that prints the statement, and writes a text beside it to a file.
macro_rules! writes {
    ($text:expr, $($word:expr),*) => {
        End {
            words: &[b"xetra-day", $($word),*],
            status: 0,
            printed: Printed::Text(STATEMENT),
            complained: Printed::Nothing,
            written: Printed::Text($text),
        }
    };
}

/// Texts that go out one behind the other, each to its own file.
const BOTH_WRITTEN: [End; 2] = [
    End {
        words: &[
            b"xetra-day",
            b"run",
            b"day.toml",
            b"day.csv",
            b"--answers=answers.csv",
            b"--depth=other.csv",
        ],
        status: 0,
        printed: Printed::Text(STATEMENT),
        complained: Printed::Nothing,
        written: Printed::Between(
            ANSWERS,
            "other.csv: record,security,side,rank,limit,quantity\n",
        ),
    },
    End {
        words: &[
            b"xetra-day",
            b"carry",
            b"day.toml",
            b"in.csv",
            b"day.csv",
            b"answers.csv",
            b"--trades=other.csv",
        ],
        status: 0,
        printed: Printed::Text(STATEMENT),
        complained: Printed::Nothing,
        written: Printed::Between(
            "other.csv: record,security,sweep,kind,price,quantity,buyer,buy_reference,seller,sell_reference,text\n",
            NONE_LEFT,
        ),
    },
];

const WRITTEN: [End; 5] = [
    writes!(
        ANSWERS,
        b"run",
        b"day.toml",
        b"day.csv",
        b"day.csv",
        b"--threads=2",
        b"--answers",
        b"answers.csv"
    ),
    writes!(
        ANSWERS,
        b"run",
        b"day.toml",
        b"day.csv",
        b"--answers",
        b"answers.csv"
    ),
    writes!(
        DEPTH,
        b"run",
        b"day.toml",
        b"day.csv",
        b"--depth",
        b"answers.csv"
    ),
    writes!(
        ANSWERS,
        b"run",
        b"--answers=answers.csv",
        b"--workers=1",
        b"day.toml",
        b"day.csv"
    ),
    writes!(
        DEPTH,
        b"run",
        b"--depth=answers.csv",
        b"--threads=3",
        b"day.toml",
        b"day.csv"
    ),
];

/// What is told where the answers can't be written as the words ask.
pub const CANNOT_TELL: Printed = mistakes_run!(
    "--answers, --trades, --events and --depth go with one worker, and with a file each: standard output has the statement"
);

/// The same of a day that hands on what it leaves.
pub const CANNOT_TELL_CARRIED: Printed = mistakes_carry!(
    "--answers, --trades, --events and --depth go with one worker, and with a file each: standard output has the statement"
);

/// Runs that write no answers: the order file is at fault, the file is one that is read, or it can't be made, and mistakes.
const UNANSWERED: [End; 11] = [
    complains!(
        1,
        BAD_SECOND_FILE,
        b"run",
        b"day.toml",
        b"day.csv",
        b"bad.csv",
        b"--answers",
        b"answers.csv"
    ),
    complains!(
        1,
        UNWRITTEN,
        b"run",
        b"day.toml",
        b"day.csv",
        b"bad.csv",
        b"--answers",
        b"bad.csv"
    ),
    complains!(
        1,
        Printed::Text("xetra-day: orders: line 2: BadField\n"),
        b"run",
        b"day.toml",
        b"bad.csv",
        b"--answers",
        b"answers.csv"
    ),
    complains!(
        1,
        UNWRITTEN,
        b"run",
        b"day.toml",
        b"day.csv",
        b"--answers",
        b"day.toml"
    ),
    complains!(
        1,
        UNWRITTEN,
        b"run",
        b"day.toml",
        b"day.csv",
        b"--answers",
        b"day.csv"
    ),
    complains!(
        1,
        UNWRITTEN,
        b"run",
        b"day.toml",
        b"day.csv",
        b"--depth",
        b"day.toml"
    ),
    complains!(
        1,
        UNWRITTEN,
        b"run",
        b"day.toml",
        b"day.csv",
        b"--trades",
        b"day.csv"
    ),
    complains!(
        1,
        UNWRITTEN,
        b"run",
        b"day.toml",
        b"answers.csv",
        b"--answers",
        b"answers.csv"
    ),
    complains!(
        1,
        UNWRITTEN,
        b"run",
        b"day.toml",
        b"day.csv",
        b"--answers",
        b"none/answers.csv"
    ),
    complains!(
        2,
        CANNOT_TELL,
        b"run",
        b"day.toml",
        b"day.csv",
        b"--answers",
        b"-"
    ),
    complains!(
        2,
        CANNOT_TELL,
        b"run",
        b"day.toml",
        b"day.csv",
        b"--workers",
        b"2",
        b"--answers",
        b"answers.csv"
    ),
];

/// What is told where several workers would each have several threads.
pub const CANNOT_SHARE: Printed = mistakes_run!(
    "--threads goes with one worker: each of several takes its rows on a thread of its own"
);

/// The same of a day that hands on what it leaves.
pub const CANNOT_SHARE_CARRIED: Printed = mistakes_carry!(
    "--threads goes with one worker: each of several takes its rows on a thread of its own"
);

/// What is told where what is left would go to standard output.
pub const CANNOT_KEEP: Printed = mistakes_carry!(
    "OUT is a file: standard output has the statement"
);

/// Days that hand on what they leave, to the file that is made, and such as don't: a file is at fault, what they leave would go to
/// one that is read or can't be made, and a mistake.
const CARRIED: [End; 16] = [
    writes!(
        NONE_LEFT,
        b"carry",
        b"day.toml",
        b"in.csv",
        b"day.csv",
        b"day.csv",
        b"--out",
        b"answers.csv"
    ),
    complains!(
        1,
        BAD_SECOND_FILE,
        b"carry",
        b"wide.toml",
        b"in.csv",
        b"day.csv",
        b"bad.csv",
        b"--out=answers.csv"
    ),
    complains!(
        1,
        UNWRITTEN,
        b"carry",
        b"day.toml",
        b"in.csv",
        b"day.csv",
        b"bad.csv",
        b"--out=bad.csv"
    ),
    writes!(
        NONE_LEFT,
        b"carry",
        b"day.toml",
        b"in.csv",
        b"day.csv",
        b"answers.csv"
    ),
    writes!(
        NONE_LEFT,
        b"carry",
        b"day.toml",
        b"in.csv",
        b"day.csv",
        b"answers.csv",
        b"--workers=2"
    ),
    writes!(
        NONE_LEFT,
        b"carry",
        b"day.toml",
        b"in.csv",
        b"day.csv",
        b"answers.csv",
        b"--threads=2"
    ),
    complains!(
        2,
        CANNOT_SHARE_CARRIED,
        b"carry",
        b"day.toml",
        b"in.csv",
        b"day.csv",
        b"answers.csv",
        b"--threads=2",
        b"--workers=2"
    ),
    complains!(
        1,
        UNREAD_SEGMENT,
        b"carry",
        b"none.toml",
        b"none.csv",
        b"none.csv",
        b"answers.csv"
    ),
    complains!(
        1,
        Printed::Text("xetra-day: carry: line 0: ReadFailed\n"),
        b"carry",
        b"day.toml",
        b"none.csv",
        b"none.csv",
        b"answers.csv"
    ),
    complains!(
        1,
        Printed::Text("xetra-day: carry: line 1: BadHeader\n"),
        b"carry",
        b"wide.toml",
        b"day.csv",
        b"bad.csv",
        b"answers.csv"
    ),
    complains!(
        1,
        Printed::Text("xetra-day: orders: line 2: BadField\n"),
        b"carry",
        b"wide.toml",
        b"in.csv",
        b"bad.csv",
        b"answers.csv"
    ),
    complains!(
        1,
        UNWRITTEN,
        b"carry",
        b"day.toml",
        b"in.csv",
        b"day.csv",
        b"day.csv"
    ),
    complains!(
        1,
        UNWRITTEN,
        b"carry",
        b"day.toml",
        b"in.csv",
        b"day.csv",
        b"in.csv"
    ),
    complains!(
        1,
        UNWRITTEN,
        b"carry",
        b"day.toml",
        b"in.csv",
        b"day.csv",
        b"day.toml"
    ),
    complains!(
        1,
        UNWRITTEN,
        b"carry",
        b"day.toml",
        b"in.csv",
        b"day.csv",
        b"none/left.csv"
    ),
    complains!(
        2,
        CANNOT_KEEP,
        b"carry",
        b"day.toml",
        b"in.csv",
        b"day.csv",
        b"-"
    ),
];

const CHECKED: [End; 2] = [
    prints!(
        Printed::Text("OK 1 securities 2 members\n"),
        b"check",
        b"day.toml"
    ),
    prints!(
        Printed::Text("OK 1 securities 2 members\n"),
        b"check",
        b" spaced.toml\t"
    ),
];

const FAULTS: [End; 13] = [
    complains!(1, UNREAD_SEGMENT, b"check", b"none.toml"),
    complains!(
        1,
        Printed::Text("xetra-day: segment: line 0: Syntax\n"),
        b"check",
        b"day.csv"
    ),
    complains!(
        1,
        Printed::Text("xetra-day: open: BadWidths\n"),
        b"check",
        b"wide.toml"
    ),
    complains!(
        1,
        Printed::Text("xetra-day: open: NoSecurity\n"),
        b"check",
        b"empty.toml"
    ),
    complains!(1, UNREAD_SEGMENT, b"run", b"day.toml ", b"day.csv"),
    complains!(1, UNREAD_ORDERS, b"run", b"day.toml", b" day.csv"),
    complains!(1, UNREAD_SEGMENT, b"run", b"none.toml", b"none.csv"),
    complains!(1, UNREAD_ORDERS, b"run", b"day.toml", b"none.csv"),
    complains!(
        1,
        Printed::Text("xetra-day: orders 3: line 0: ReadFailed\n"),
        b"run",
        b"day.toml",
        b"day.csv",
        b"day.csv",
        b"none.csv"
    ),
    complains!(
        1,
        Printed::Text("xetra-day: orders: line 2: BadField\n"),
        b"run",
        b"day.toml",
        b"bad.csv",
        b"none.csv"
    ),
    complains!(
        1,
        BAD_SECOND_FILE,
        b"run",
        b"wide.toml",
        b"day.csv",
        b"bad.csv",
        b"--threads=2"
    ),
    complains!(
        1,
        Printed::Text("xetra-day: orders: line 2: BadField\n"),
        b"run",
        b"day.toml",
        b"bad.csv"
    ),
    complains!(
        1,
        Printed::Text("xetra-day: open: BadWidths\n"),
        b"run",
        b"wide.toml",
        b"day.csv"
    ),
];

/// What is told of a command that is one letter from `run`.
const IS_NEAR_RUN: Printed = Printed::Text(
    "error: unrecognized subcommand 'rn'\n\n  tip: a similar subcommand exists: 'run'\n\nUsage: xetra-day <COMMAND>\n\nFor more information, try '--help'.\n",
);

const MISTAKES: [End; 7] = [
    complains!(
        2,
        Printed::Text(
            "error: invalid value '65' for '--workers <N>': 65 is not in 1..=64\n\nFor more information, try '--help'.\n",
        ),
        b"run",
        b"day.toml",
        b"day.csv",
        b"--workers",
        b"65"
    ),
    complains!(
        2,
        Printed::Text(
            "error: the following required arguments were not provided:\n  <ORDERS>...\n\nUsage: xetra-day run <SEGMENT> <ORDERS>...\n\nFor more information, try '--help'.\n",
        ),
        b"run",
        b"day.toml"
    ),
    complains!(
        2,
        Printed::Text(
            "error: unrecognized subcommand 'walk'\n\nUsage: xetra-day <COMMAND>\n\nFor more information, try '--help'.\n",
        ),
        b"walk"
    ),
    complains!(2, IS_NEAR_RUN, b"rn", b"day.toml", b"day.csv"),
    complains!(
        2,
        Printed::Text(
            "error: unrecognized subcommand 'cehck'\n\n  tip: a similar subcommand exists: 'check'\n\nUsage: xetra-day <COMMAND>\n\nFor more information, try '--help'.\n",
        ),
        b"cehck"
    ),
    complains!(
        2,
        Printed::Text(
            "error: unrecognized subcommand 'rn'\n\nUsage: xetra-day <COMMAND>\n\nFor more information, try '--help'.\n",
        ),
        b"help",
        b"rn"
    ),
    complains!(
        2,
        Printed::Text(
            "error: a word of the command line is not UTF-8 text\n\nUsage: xetra-day <COMMAND>\n\nFor more information, try '--help'.\n",
        ),
        b"run",
        b"\xff",
        b"day.csv"
    ),
];

#[test]
fn ends_of_runs(rt: HostRuntime) {
    are_ends(&rt, Stream::Kept, &STATEMENTS);
    are_ends(&rt, Stream::Kept, &STRICT);
    are_ends(&rt, Stream::Kept, &WRITTEN);
    are_ends(&rt, Stream::Kept, &BOTH_WRITTEN);
    are_ends(&rt, Stream::Kept, &UNANSWERED);
    are_ends(&rt, Stream::Kept, &CARRIED);
    are_ends(&rt, Stream::Kept, &CHECKED);
    are_ends(&rt, Stream::Kept, &FAULTS);
    are_ends(&rt, Stream::Kept, &MISTAKES);
}

const UNWRITTEN: Printed = Printed::Text("xetra-day: write failed\n");

const REFUSED: [End; 6] = [
    complains!(1, UNWRITTEN, b"check", b"day.toml"),
    complains!(1, UNWRITTEN, b"run", b"day.toml", b"day.csv"),
    complains!(
        1,
        UNWRITTEN,
        b"run",
        b"day.toml",
        b"day.csv",
        b"--answers",
        b"answers.csv"
    ),
    complains!(
        1,
        UNWRITTEN,
        b"carry",
        b"day.toml",
        b"in.csv",
        b"day.csv",
        b"answers.csv"
    ),
    complains!(1, UNWRITTEN, b"--help"),
    complains!(1, UNWRITTEN, b"--version"),
];

#[test]
fn refused_output(rt: HostRuntime) {
    are_ends(&rt, Stream::Refused, &REFUSED);
}

#[test]
fn a_run_draws_its_seed(rt: HostRuntime) {
    let made = Mutex::new(String::new(rt.alloc()));
    let mut call = Call::new(&rt, STATEMENTS[0].words, FILES, &made, Stream::Kept);
    assert!(rt; run_program(&call) == ExitCode::SUCCESS);
    assert!(rt; *call.draws.get_mut() == 2);
}
