//! What the words of command lines are answered.

use super::ends::{
    CANNOT_KEEP, CANNOT_SHARE, CANNOT_SHARE_CARRIED, CANNOT_TELL, CANNOT_TELL_CARRIED, Printed,
};
use std::process::Abort;
use xm_config::MAX_WORKERS;
use xm_program::{
    AuctionRequest, Concurrency, Count, DayRequest, ExplanationRequest, Failure, Form, Request,
    Strictness, TextPaths, read_words,
};

/// Adds words to a command line.
fn add_words(rt: &(impl Abort + AllocGlobal), line: &mut Vec<String>, words: &[&str]) {
    for word in words {
        let word = String::from_str(rt.alloc(), word).expect(rt, "memory");
        line.push(word).ok().expect(rt, "memory");
    }
}

/// A command line of these words, after the program's name.
fn command_line(rt: &(impl Abort + AllocGlobal), words: &[&str]) -> Vec<String> {
    let mut line = Vec::new(rt.alloc());
    add_words(rt, &mut line, &["target/xetra_day"]);
    add_words(rt, &mut line, words);
    line
}

/// How rows are taken, as a word and a number: 0 for as many threads as the program chooses.
fn taken(concurrency: Concurrency) -> (&'static str, u32) {
    if let Concurrency::Workers(workers) = concurrency {
        return ("by", workers.get());
    }
    for number in 0..=MAX_WORKERS {
        if concurrency == Concurrency::Threads(Count::new(number)) {
            return ("on", number);
        }
    }
    ("on", MAX_WORKERS + 1)
}

/// Paths, one behind the other, as a text.
fn listed(rt: &(impl Abort + AllocGlobal), paths: &[&str]) -> String {
    let mut list = String::new(rt.alloc());
    for path in paths {
        if !list.as_str().is_empty() {
            list.push_str(", ").expect(rt, "memory");
        }
        list.push_str(*path).expect(rt, "memory");
    }
    list
}

/// What a command line asks for, as a text.
fn day_asked(rt: &(impl Abort + AllocGlobal), request: &DayRequest<'_>) -> String {
    let alloc = rt.alloc();
    let orders = listed(rt, request.orders.as_slice());
    let segment = request.segment;
    let (how, number) = taken(request.concurrency);
    let judged = match request.strictness {
        Strictness::Strict => "strictly ",
        Strictness::Lenient => "",
    };
    let day = match &request.carrying {
        None => format!(in alloc; "{judged}run {segment} and {orders} {how} {number}"),
        Some(carrying) => {
            let (from, to) = (carrying.from, carrying.to);
            format!(in alloc; "{judged}carry {segment}, {from} and {orders} to {to} {how} {number}")
        }
    };
    day.expect(rt, "memory")
}

/// Where the texts beside a statement go, as a text.
fn texts_asked(rt: &(impl Abort + AllocGlobal), texts: &TextPaths<'_>) -> String {
    let answers = texts.answers.unwrap_or("nowhere");
    let trades = texts.trades.unwrap_or("nowhere");
    let events = texts.events.unwrap_or("nowhere");
    let depth = texts.depth.unwrap_or("nowhere");
    let told = format!(in rt.alloc();
        "answers to {answers}, trades to {trades}, events to {events}, levels to {depth}"
    );
    told.expect(rt, "memory")
}

/// What calls a command line asks for, as a text.
fn calls_asked(rt: &(impl Abort + AllocGlobal), request: &AuctionRequest<'_>) -> String {
    let orders = listed(rt, request.orders.as_slice());
    let (security, segment) = (request.security, request.segment);
    let form = match request.form {
        Form::Plain => "plain",
        Form::Csv => "csv",
    };
    let asked = match request.at {
        None => format!(in rt.alloc(); "auction of {security} in {segment} and {orders}, {form}"),
        Some(record) => {
            format!(in rt.alloc();
                "auction of {security} at {record} in {segment} and {orders}, {form}"
            )
        }
    };
    asked.expect(rt, "memory")
}

/// The files that a command line asks to be explained, as a text.
fn explanation_asked(rt: &(impl Abort + AllocGlobal), request: &ExplanationRequest<'_>) -> String {
    let orders = listed(rt, request.orders.as_slice());
    let (segment, carried) = (request.segment, request.carried.unwrap_or("nothing"));
    let asked = format!(in rt.alloc(); "explain {segment} and {orders} behind {carried}");
    asked.expect(rt, "memory")
}

/// What a command line is answered with, as a text that tells which answer it is.
fn answer_to(rt: &(impl Abort + AllocGlobal), line: &[String]) -> String {
    let alloc = rt.alloc();
    let answer = read_words(alloc, line);
    let text = match &answer {
        Ok(Request::Day(request)) => {
            let (day, texts) = (day_asked(rt, request), texts_asked(rt, &request.texts));
            format!(in alloc; "{day}, {texts}")
        }
        Ok(Request::Check { segment }) => format!(in alloc; "check {segment}"),
        Ok(Request::Auction(request)) => {
            let asked = calls_asked(rt, request);
            format!(in alloc; "{asked}")
        }
        Ok(Request::Explanation(request)) => {
            let asked = explanation_asked(rt, request);
            format!(in alloc; "{asked}")
        }
        Ok(Request::Help(text)) => format!(in alloc; "help {text}"),
        Err(Failure::Day(fault)) => format!(in alloc; "fault {fault}"),
        Err(Failure::Words(text)) => format!(in alloc; "{text}"),
    };
    text.expect(rt, "memory")
}

/// The words of a command line, without the program's name, with what they are answered.
type Answered = (&'static [&'static str], Printed);

/// A day of which nothing is told beside its statement.
macro_rules! untold {
    ($day:expr) => {
        Printed::Text(concat!(
            $day,
            ", answers to nowhere, trades to nowhere, events to nowhere, levels to nowhere"
        ))
    };
}

const RUNS: [Answered; 29] = [
    (
        &["run", "--strict", "day.toml", "day.csv"],
        untold!("strictly run day.toml and day.csv on 0"),
    ),
    (
        &["run", "day.toml", "day.csv", "--strict", "--strict"],
        mistakes_run!("the argument '--strict' cannot be used multiple times"),
    ),
    (
        &["run", "day.toml", "day.csv", "--strict=no"],
        Printed::Text(
            "error: unexpected value 'no' for '--strict' found; no more were expected\n\nUsage: xetra-day run --strict <SEGMENT> <ORDERS>...\n\nFor more information, try '--help'.\n",
        ),
    ),
    (
        &["run", "day.toml", "day.csv"],
        untold!("run day.toml and day.csv on 0"),
    ),
    (
        &["run", "--", "-s", "--orders"],
        untold!("run -s and --orders on 0"),
    ),
    (&["run", "a day", ""], untold!("run a day and  on 0")),
    (
        &["run", "day.toml", "b.csv", "a.csv", "b.csv"],
        untold!("run day.toml and b.csv, a.csv, b.csv on 0"),
    ),
    (
        &["run", "--", "day.toml", "-s", "-"],
        untold!("run day.toml and -s, - on 0"),
    ),
    (
        &["run", "day.toml", "a.csv", "--threads=2", "b.csv"],
        untold!("run day.toml and a.csv, b.csv on 2"),
    ),
    (
        &["run", "--workers", "2", "day.toml", "a.csv", "b.csv"],
        untold!("run day.toml and a.csv, b.csv by 2"),
    ),
    (
        &["run", "day.toml", "a.csv", "b.csv", "--answers", "-"],
        CANNOT_TELL,
    ),
    (
        &["run", "day.toml", "day.csv", "--workers", "1"],
        untold!("run day.toml and day.csv on 0"),
    ),
    (
        &["run", "--workers", "64", "day.toml", "day.csv"],
        untold!("run day.toml and day.csv by 64"),
    ),
    (
        &["run", "day.toml", "--workers=+08", "day.csv"],
        untold!("run day.toml and day.csv by 8"),
    ),
    (
        &["run", "day.toml", "day.csv", "--threads", "1"],
        untold!("run day.toml and day.csv on 1"),
    ),
    (
        &["run", "day.toml", "day.csv", "--threads", "64"],
        untold!("run day.toml and day.csv on 64"),
    ),
    (
        &["run", "--threads=+02", "day.toml", "--workers=1", "day.csv"],
        untold!("run day.toml and day.csv on 2"),
    ),
    (
        &["run", "day.toml", "day.csv", "--workers=3", "--threads=1"],
        untold!("run day.toml and day.csv by 3"),
    ),
    (
        &["run", "day.toml", "day.csv", "--workers=2", "--threads=2"],
        CANNOT_SHARE,
    ),
    (
        &["run", "day.toml", "day.csv", "--answers", "a file"],
        Printed::Text(
            "run day.toml and day.csv on 0, answers to a file, trades to nowhere, events to nowhere, levels to nowhere",
        ),
    ),
    (
        &[
            "run",
            "day.toml",
            "--threads=3",
            "day.csv",
            "--answers",
            "a file",
        ],
        Printed::Text(
            "run day.toml and day.csv on 3, answers to a file, trades to nowhere, events to nowhere, levels to nowhere",
        ),
    ),
    (&["run", "--answers=-", "day.toml", "day.csv"], CANNOT_TELL),
    (
        &["run", "day.toml", "day.csv", "--depth", "a", "--answers=b"],
        Printed::Text(
            "run day.toml and day.csv on 0, answers to b, trades to nowhere, events to nowhere, levels to a",
        ),
    ),
    (
        &["run", "day.toml", "day.csv", "--depth=a", "--threads=4"],
        Printed::Text(
            "run day.toml and day.csv on 4, answers to nowhere, trades to nowhere, events to nowhere, levels to a",
        ),
    ),
    (
        &["run", "day.toml", "day.csv", "--trades=c", "--threads=4"],
        Printed::Text(
            "run day.toml and day.csv on 4, answers to nowhere, trades to c, events to nowhere, levels to nowhere",
        ),
    ),
    (
        &["run", "day.toml", "day.csv", "--depth=a", "--answers=a"],
        CANNOT_TELL,
    ),
    (
        &["run", "day.toml", "day.csv", "--trades=a", "--answers=a"],
        CANNOT_TELL,
    ),
    (
        &[
            "run",
            "day.toml",
            "day.csv",
            "--depth",
            "a",
            "--workers",
            "2",
        ],
        CANNOT_TELL,
    ),
    (
        &[
            "run",
            "day.toml",
            "day.csv",
            "--depth=a",
            "--workers=2",
            "--threads=2",
        ],
        CANNOT_SHARE,
    ),
];

const AUCTIONS: [Answered; 7] = [
    (
        &["auction", "day.toml", "day.csv", "--security", "XYZ"],
        Printed::Text("auction of XYZ in day.toml and day.csv, plain"),
    ),
    (
        &[
            "auction",
            "--csv",
            "day.toml",
            "a.csv",
            "b.csv",
            "--security=XYZ",
            "--record=12",
        ],
        Printed::Text("auction of XYZ at 12 in day.toml and a.csv, b.csv, csv"),
    ),
    (
        &[
            "auction",
            "day.toml",
            "day.csv",
            "--security",
            "",
            "--record",
            "4294967295",
        ],
        Printed::Text("auction of  at 4294967295 in day.toml and day.csv, plain"),
    ),
    (
        &[
            "auction",
            "day.toml",
            "day.csv",
            "--security",
            "XYZ",
            "--record",
            "4294967296",
        ],
        mistakes_auction!("--record N has the number of a record: digits alone"),
    ),
    (
        &[
            "auction",
            "day.toml",
            "day.csv",
            "--security",
            "XYZ",
            "--record",
            "+1",
        ],
        mistakes_auction!("--record N has the number of a record: digits alone"),
    ),
    (
        &[
            "auction",
            "day.toml",
            "day.csv",
            "--security=XYZ",
            "--security=XYZ",
        ],
        mistakes_auction!("the argument '--security <NAME>' cannot be used multiple times"),
    ),
    (
        &["auctoin", "day.toml"],
        Printed::Text(
            "error: unrecognized subcommand 'auctoin'\n\n  tip: a similar subcommand exists: 'auction'\n\nUsage: xetra-day <COMMAND>\n\nFor more information, try '--help'.\n",
        ),
    ),
];

const EXPLANATIONS: [Answered; 5] = [
    (
        &["explain", "day.toml", "day.csv"],
        Printed::Text("explain day.toml and day.csv behind nothing"),
    ),
    (
        &["explain", "--carry=in.csv", "day.toml", "a.csv", "b.csv"],
        Printed::Text("explain day.toml and a.csv, b.csv behind in.csv"),
    ),
    (
        &["explain", "day.toml"],
        Printed::Text(
            "error: the following required arguments were not provided:\n  <ORDERS>...\n\nUsage: xetra-day explain <SEGMENT> <ORDERS>...\n\nFor more information, try '--help'.\n",
        ),
    ),
    (
        &["explain", "day.toml", "day.csv", "--carry=a", "--carry=a"],
        mistakes_explain!("the argument '--carry <IN>' cannot be used multiple times"),
    ),
    (
        &["explane", "day.toml"],
        Printed::Text(
            "error: unrecognized subcommand 'explane'\n\n  tip: a similar subcommand exists: 'explain'\n\nUsage: xetra-day <COMMAND>\n\nFor more information, try '--help'.\n",
        ),
    ),
];

const CARRIES: [Answered; 19] = [
    (
        &[
            "carry", "day.toml", "in.csv", "day.csv", "out.csv", "--strict",
        ],
        untold!("strictly carry day.toml, in.csv and day.csv to out.csv on 0"),
    ),
    (
        &["carry", "day.toml", "in.csv", "day.csv", "out.csv"],
        untold!("carry day.toml, in.csv and day.csv to out.csv on 0"),
    ),
    (
        &["carry", "day.toml", "in.csv", "day.csv", "--out", "out.csv"],
        untold!("carry day.toml, in.csv and day.csv to out.csv on 0"),
    ),
    (
        &[
            "carry",
            "--out=out.csv",
            "day.toml",
            "in.csv",
            "b.csv",
            "a.csv",
            "b.csv",
        ],
        untold!("carry day.toml, in.csv and b.csv, a.csv, b.csv to out.csv on 0"),
    ),
    (
        &[
            "carry",
            "day.toml",
            "in.csv",
            "a.csv",
            "--out=out.csv",
            "b.csv",
            "--workers=2",
        ],
        untold!("carry day.toml, in.csv and a.csv, b.csv to out.csv by 2"),
    ),
    (
        &["carry", "day.toml", "in.csv", "day.csv"],
        mistakes_carry!(
            "OUT is missing, the carry file of the next day: it stands behind the order file, or behind --out"
        ),
    ),
    (
        &["carry", "day.toml", "in.csv", "a.csv", "b.csv", "out.csv"],
        mistakes_carry!("several order files go with --out OUT"),
    ),
    (
        &["carry", "day.toml", "in.csv", "--out", "out.csv"],
        mistakes_carry!("the following required arguments were not provided:\n  <ORDERS>..."),
    ),
    (
        &["carry", "day.toml", "in.csv", "a.csv", "--out=b", "--out=b"],
        mistakes_carry!("the argument '--out <OUT>' cannot be used multiple times"),
    ),
    (
        &["carry", "day.toml", "in.csv", "a.csv", "b.csv", "--out=-"],
        CANNOT_KEEP,
    ),
    (
        &[
            "carry",
            "day.toml",
            "in.csv",
            "a.csv",
            "b.csv",
            "--out=c",
            "--depth=c",
        ],
        CANNOT_TELL_CARRIED,
    ),
    (
        &[
            "carry",
            "day.toml",
            "in.csv",
            "a.csv",
            "b.csv",
            "--out=c",
            "--threads=2",
            "--workers=2",
        ],
        CANNOT_SHARE_CARRIED,
    ),
    (
        &[
            "carry",
            "--workers",
            "64",
            "day.toml",
            "a file",
            "day.csv",
            "a file",
        ],
        untold!("carry day.toml, a file and day.csv to a file by 64"),
    ),
    (
        &[
            "carry",
            "day.toml",
            "in.csv",
            "day.csv",
            "out.csv",
            "--threads",
            "8",
        ],
        untold!("carry day.toml, in.csv and day.csv to out.csv on 8"),
    ),
    (
        &[
            "carry",
            "day.toml",
            "in.csv",
            "day.csv",
            "out.csv",
            "--answers=a",
            "--trades=b",
            "--events=d",
            "--depth=c",
            "--threads=4",
        ],
        Printed::Text(
            "carry day.toml, in.csv and day.csv to out.csv on 4, answers to a, trades to b, events to d, levels to c",
        ),
    ),
    (
        &[
            "carry",
            "day.toml",
            "in.csv",
            "day.csv",
            "out.csv",
            "--trades=out.csv",
        ],
        CANNOT_TELL_CARRIED,
    ),
    (
        &["carry", "day.toml", "in.csv", "day.csv", "-"],
        CANNOT_KEEP,
    ),
    (
        &["carry", "day.toml", "in.csv", "day.csv", "-", "--threads=8"],
        CANNOT_KEEP,
    ),
    (
        &[
            "carry",
            "day.toml",
            "in.csv",
            "day.csv",
            "out.csv",
            "--threads=8",
            "--workers=8",
        ],
        CANNOT_SHARE_CARRIED,
    ),
];

const CHECKS: [Answered; 2] = [
    (&["check", "day.toml"], Printed::Text("check day.toml")),
    (&["check", "--", "-s"], Printed::Text("check -s")),
];

/// Numbers of workers and of threads that aren't taken.
const NUMBERS: [Answered; 8] = [
    (
        &["run", "day.toml", "day.csv", "--threads", "0"],
        Printed::Text(
            "error: invalid value '0' for '--threads <N>': 0 is not in 1..=64\n\nFor more information, try '--help'.\n",
        ),
    ),
    (
        &["run", "day.toml", "day.csv", "--threads=65"],
        Printed::Text(
            "error: invalid value '65' for '--threads <N>': 65 is not in 1..=64\n\nFor more information, try '--help'.\n",
        ),
    ),
    (
        &["run", "day.toml", "day.csv", "--workers", "0"],
        Printed::Text(
            "error: invalid value '0' for '--workers <N>': 0 is not in 1..=64\n\nFor more information, try '--help'.\n",
        ),
    ),
    (
        &["run", "day.toml", "day.csv", "--workers", "65"],
        Printed::Text(
            "error: invalid value '65' for '--workers <N>': 65 is not in 1..=64\n\nFor more information, try '--help'.\n",
        ),
    ),
    (
        &["run", "day.toml", "day.csv", "--workers=-1"],
        Printed::Text(
            "error: invalid value '-1' for '--workers <N>': -1 is not in 1..=64\n\nFor more information, try '--help'.\n",
        ),
    ),
    (
        &["run", "day.toml", "day.csv", "--workers", "abc"],
        Printed::Text(
            "error: invalid value 'abc' for '--workers <N>': invalid digit found in string\n\nFor more information, try '--help'.\n",
        ),
    ),
    (
        &["run", "day.toml", "day.csv", "--workers"],
        Printed::Text(
            "error: a value is required for '--workers <N>' but none was supplied\n\nFor more information, try '--help'.\n",
        ),
    ),
    (
        &[
            "run",
            "day.toml",
            "day.csv",
            "--workers",
            "2",
            "--workers",
            "2",
        ],
        mistakes_run!("the argument '--workers <N>' cannot be used multiple times"),
    ),
];

const MISTAKES: [Answered; 6] = [
    (
        &["check"],
        Printed::Text(
            "error: the following required arguments were not provided:\n  <SEGMENT>\n\nUsage: xetra-day check <SEGMENT>\n\nFor more information, try '--help'.\n",
        ),
    ),
    (
        &["check", "day.toml", "--workers", "1"],
        Printed::Text(
            "error: unexpected argument '--workers' found\n\n  tip: to pass '--workers' as a value, use '-- --workers'\n\nUsage: xetra-day check <SEGMENT>\n\nFor more information, try '--help'.\n",
        ),
    ),
    (
        &["run"],
        Printed::Text(
            "error: the following required arguments were not provided:\n  <SEGMENT>\n  <ORDERS>...\n\nUsage: xetra-day run <SEGMENT> <ORDERS>...\n\nFor more information, try '--help'.\n",
        ),
    ),
    (
        &["run", "day.toml"],
        Printed::Text(
            "error: the following required arguments were not provided:\n  <ORDERS>...\n\nUsage: xetra-day run <SEGMENT> <ORDERS>...\n\nFor more information, try '--help'.\n",
        ),
    ),
    (
        &["run", "-s", "day.csv"],
        mistakes_run!(
            "unexpected argument '-s' found\n\n  tip: to pass '-s' as a value, use '-- -s'"
        ),
    ),
    (
        &["walk", "day.toml", "day.csv"],
        Printed::Text(
            "error: unrecognized subcommand 'walk'\n\nUsage: xetra-day <COMMAND>\n\nFor more information, try '--help'.\n",
        ),
    ),
];

/// The words that ask for help, and none, with how the help begins.
const HELP: [Answered; 7] = [
    (
        &["check", "--help"],
        Printed::Between("help Checks a segment file", ""),
    ),
    (&["--help"], WHOLE_HELP),
    (&["-h"], WHOLE_HELP),
    (&["help"], WHOLE_HELP),
    (&["run", "--help"], RUN_HELP),
    (&["help", "run"], RUN_HELP),
    (&[], Printed::Between("Replays a trading day", "")),
];

const WHOLE_HELP: Printed = Printed::Between("help Replays a trading day", "");

const RUN_HELP: Printed = Printed::Between("help Runs the day of its files", "");

/// A command line with many order files: the words before them, how many they are, the words behind them, with what it is answered.
type ManyFiles = (
    &'static [&'static str],
    u32,
    &'static [&'static str],
    Printed,
);

/// Their names are the numbers from 1 on.
const MANY: [ManyFiles; 7] = [
    (
        &["run", "day.toml"],
        256,
        &[],
        Printed::Between(
            "run day.toml and 1, 2, 3, 4, 5, 6, 7, 8, 9, 10, 11, ",
            ", 254, 255, 256 on 0, answers to nowhere, trades to nowhere, events to nowhere, levels to nowhere",
        ),
    ),
    (
        &["run", "day.toml"],
        257,
        &[],
        mistakes_run!("unexpected value '257' for '<ORDERS>...' found; no more were expected"),
    ),
    (
        &["run", "day.toml"],
        256,
        &["--threads=2", "day.csv"],
        mistakes_run!("a day has at most 256 order files"),
    ),
    (
        &["carry", "day.toml", "in.csv"],
        256,
        &["--out=out.csv"],
        Printed::Between(
            "carry day.toml, in.csv and 1, 2, 3, 4, 5, 6, 7, 8, 9, 10, 11, ",
            ", 254, 255, 256 to out.csv on 0, answers to nowhere, trades to nowhere, events to nowhere, levels to nowhere",
        ),
    ),
    (
        &["carry", "day.toml", "in.csv"],
        257,
        &["--out=out.csv"],
        mistakes_carry!("a day has at most 256 order files"),
    ),
    (
        &["carry", "day.toml", "in.csv"],
        257,
        &[],
        mistakes_carry!("several order files go with --out OUT"),
    ),
    (
        &["carry", "day.toml", "in.csv"],
        258,
        &["--out=out.csv"],
        mistakes_carry!("unexpected value '258' for '<ORDERS>...' found; no more were expected"),
    ),
];

/// Compares what a command line of these words is answered.
fn is_answered(rt: &(impl Abort + AllocGlobal), line: &[String], answer: Printed) {
    let text = answer_to(rt, line);
    assert!(rt; answer.is(text.as_str()), "{text}");
}

fn are_answered(rt: &(impl Abort + AllocGlobal), answers: &[Answered]) {
    for (words, answer) in answers {
        is_answered(rt, command_line(rt, words).as_slice(), *answer);
    }
}

/// Compares what a command line with many order files is answered.
fn are_many_answered(rt: &(impl Abort + AllocGlobal), many: &ManyFiles) {
    let (before, files, behind, answer) = many;
    let mut line = command_line(rt, before);
    for number in 1..=*files {
        let word = (format!(in rt.alloc(); "{number}")).expect(rt, "memory");
        line.push(word).ok().expect(rt, "memory");
    }
    add_words(rt, &mut line, behind);
    is_answered(rt, line.as_slice(), *answer);
}

#[test]
fn words_of_command_lines(rt: HostRuntime) {
    are_answered(&rt, &RUNS);
    are_answered(&rt, &CARRIES);
    are_answered(&rt, &AUCTIONS);
    are_answered(&rt, &EXPLANATIONS);
    are_answered(&rt, &CHECKS);
    are_answered(&rt, &NUMBERS);
    are_answered(&rt, &MISTAKES);
    are_answered(&rt, &HELP);
    let many = MANY;
    for line in &many {
        are_many_answered(&rt, line);
    }
}
