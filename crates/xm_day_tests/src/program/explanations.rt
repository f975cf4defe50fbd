//! What is wrong with files, as the program tells it.

use super::ends::{End, Printed, are_ends};
use super::runtime::Stream;
use std::process::Abort;

/// A command line that ends with this status, and explains so.
macro_rules! explains {
    ($status:expr, $printed:expr, $($word:expr),*) => {
        End {
            words: &[b"xetra-day", b"explain", $($word),*],
            status: $status,
            printed: Printed::Text($printed),
            complained: Printed::Nothing,
            written: Printed::Nothing,
        }
    };
}

const EXPLANATIONS: [End; 9] = [
    explains!(
        0,
        "no mistake: 5 rows accepted, 0 refused\n",
        b"day.toml",
        b"ended.csv"
    ),
    explains!(
        0,
        "no mistake: 5 rows accepted, 0 refused\n",
        b"day.toml",
        b"ended.csv",
        b"day.csv",
        b"--carry=in.csv"
    ),
    explains!(
        4,
        "no mistake: 0 rows accepted, 0 refused\nsecurity XYZ has not ended: pre-trading since the day began\n",
        b"day.toml",
        b"day.csv"
    ),
    explains!(
        4,
        "no mistake: 5 rows accepted, 1 refused\nbefore.csv: line 7 (record 7): refused as day-ended: the day of the security has ended; rows refused so: 1\n",
        b"day.toml",
        b"before.csv"
    ),
    explains!(
        1,
        "bad.csv: line 2 (record 2), column command: \"walk\" is no command; the commands are enter, change, cancel, cancel-all, open, intraday, close, uncross and end\n",
        b"day.toml",
        b"day.csv",
        b"bad.csv"
    ),
    explains!(
        1,
        "empty.toml: the segment has no security: each begins with a line [[security]], and has the keys name, tick, reference, dynamic, static, wide and journal\n",
        b"empty.toml",
        b"day.csv"
    ),
    explains!(
        1,
        "no.csv: entity not found\n",
        b"day.toml",
        b"ended.csv",
        b"no.csv"
    ),
    explains!(
        1,
        "no.toml: entity not found\nno.csv: entity not found\n",
        b"no.toml",
        b"day.csv",
        b"no.csv"
    ),
    explains!(
        1,
        "no.csv: entity not found\nbad.csv: line 2 (record 2), column command: \"walk\" is no command; the commands are enter, change, cancel, cancel-all, open, intraday, close, uncross and end\n",
        b"day.toml",
        b"bad.csv",
        b"--carry=no.csv"
    ),
];

#[test]
fn mistakes_and_what_is_unsaid(rt: HostRuntime) {
    are_ends(&rt, Stream::Kept, &EXPLANATIONS);
}
