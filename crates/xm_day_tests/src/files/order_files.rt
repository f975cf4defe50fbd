use super::fault;
use super::fixtures::{
    CASCADE, HEADER, NO_SECURITY, ORDERS, OneByteReader, SECOND, SEGMENT, replaced,
};
use std::alloc::Global;
use std::io::{ErrorKind, Read};
use std::process::Abort;
use std::test::Fail;
use xm_config::Row;
use xm_files::{FileCause, FileFault, MAX_ROWS, read_rows, read_segment};
use xm_rules::{Command, Condition, Kind, Restriction, Side, Validity};

/// The rows of an order file for the members and the securities of a segment file, or the fault of either. A clause sees nothing
/// of it.
pub(super) fn read(
    alloc: Global,
    segment: &str,
    orders: &mut impl Read,
) -> Result<Vec<Row>, FileFault> {
    let mut reader = segment.as_bytes();
    let (config, names) = read_segment(alloc, &mut reader)?;
    read_rows(alloc, orders, &names, &config)
}

/// What `read` answers.
pub(super) fn rows_of(
    alloc: Global,
    segment: &str,
    orders: &mut impl Read,
) -> Result<Result<Vec<Row>, FileFault>, Fail> {
    Ok(read(alloc, segment, orders))
}

/// Compares the fault of an order file.
pub(super) fn has_fault(
    rt: &(impl Abort + AllocGlobal),
    orders: &mut impl Read,
    line: u32,
    cause: FileCause,
) {
    let answer = read(rt.alloc(), SEGMENT, orders).err();
    assert!(rt; answer == fault(line, cause), "in place of {cause:?}");
}

/// Compares the rows of an order file.
fn rows_are(
    rt: &(impl Abort + AllocGlobal),
    segment: &str,
    orders: &mut impl Read,
    expected: &[Row],
) {
    let rows = read(rt.alloc(), segment, orders).expect(rt, "rows");
    assert!(rt; rows.as_slice() == expected);
}

/// How many lines end in a text.
fn lines_in(text: &[u8]) -> u32 {
    let mut lines = 0u32;
    for byte in text {
        if *byte == b'\n' {
            lines = lines.saturating_add(1);
        }
    }
    lines
}

/// What an order file answers that is cut off before this byte: the number of its rows, or its fault.
fn answer_of_prefix(prefix: &[u8], next: Option<u8>) -> Result<usize, FileFault> {
    let lines = lines_in(prefix);
    if prefix.len() + 1 < HEADER.len() {
        Err(FileFault {
            line: 1,
            cause: FileCause::BadHeader,
        })
    } else if prefix.last() == Some(&b'\n') {
        Ok(lines.saturating_sub(1) as usize)
    } else if next == Some(b'\n') {
        Ok(lines as usize)
    } else {
        Err(FileFault {
            line: lines.saturating_add(1),
            cause: FileCause::Syntax,
        })
    }
}

/// The number of the rows of an order file for a segment file, or its fault.
pub(super) fn count_of(alloc: Global, segment: &str, orders: &[u8]) -> Result<usize, FileFault> {
    let mut reader = orders;
    Ok(read(alloc, segment, &mut reader)?.len())
}

/// Compares the answer to each proper prefix of an order file.
fn prefixes_of(rt: &(impl Abort + AllocGlobal), text: &[u8]) {
    for end in 0..text.len() {
        let prefix = &text[..end];
        let answer = answer_of_prefix(prefix, text.get(end).copied());
        assert!(rt; count_of(rt.alloc(), SEGMENT, prefix) == answer, "{end}");
    }
}

#[test]
fn prefixes_of_order_files(rt: HostRuntime) {
    prefixes_of(&rt, ORDERS.as_bytes());
    prefixes_of(&rt, CASCADE.as_bytes());
}

/// Records of twelve fields, of which each has a bad one.
pub(super) const BAD_FIELDS: [&str; 46] = [
    "\u{feff}open,,,*,,,,,,,,",
    "leave,AAA,1,XYZ,,,,,,,,",
    ",,,*,,,,,,,,",
    "enter,,1,XYZ,buy,limit,10.00,,10,,,",
    "enter,AAA,,XYZ,buy,limit,10.00,,10,,,",
    "enter,AAA,4294967296,XYZ,buy,limit,10.00,,10,,,",
    "enter,AAA,00000000001,XYZ,buy,limit,10.00,,10,,,",
    "enter,AAA,1,,buy,limit,10.00,,10,,,",
    "enter,AAA,1,XYZ,up,limit,10.00,,10,,,",
    "enter,AAA,1,XYZ,buy,,10.00,,10,,,",
    "enter,AAA,1,XYZ,buy,market,10.00,,10,,,",
    "enter,AAA,1,XYZ,buy,market,,10.00,10,,,",
    "enter,AAA,1,XYZ,buy,limit,,,10,,,",
    "enter,AAA,1,XYZ,buy,limit,10.,,10,,,",
    "enter,AAA,1,XYZ,buy,limit,.5,,10,,,",
    "enter,AAA,1,XYZ,buy,limit,00000000000010.00,,10,,,",
    "enter,AAA,1,ABC,buy,limit,+1,,10,,,",
    "enter,AAA,1,XYZ,buy,limit,10.00,1,10,,,",
    "enter,AAA,1,XYZ,sell,stop,,9.90,10,,,",
    "enter,AAA,1,XYZ,sell,stop-market,,,10,,,",
    "enter,AAA,1,XYZ,sell,stop-market,9.90,9.90,10,,,",
    "enter,AAA,1,XYZ,sell,stop-market,,9.,10,,,",
    "enter,AAA,1,XYZ,sell,stop-limit,9.90,,10,,,",
    "enter,AAA,1,XYZ,sell,stop-limit,,9.90,10,,,",
    "enter,AAA,1,XYZ,sell,stop-limit,9.90,-1,10,,,",
    "enter,AAA,1,XYZ,buy,limit,10.00,,,,,",
    "enter,AAA,1,XYZ,buy,limit,10.00,,4294967296,,,",
    "enter,AAA,1,XYZ,buy,limit,10.00,,00000000001,,,",
    "enter,AAA,1,XYZ,buy,limit,10.00,,-1,,,",
    "enter,AAA,1,XYZ,buy,limit,10.00,,10,Day,,",
    "enter,AAA,1,XYZ,buy,limit,10.00,,10,2026010,,",
    "enter,AAA,1,XYZ,buy,limit,10.00,,10,020260105,,",
    "enter,AAA,1,XYZ,buy,limit,10.00,,10,2026-1-5,,",
    "enter,AAA,1,XYZ,buy,limit,10.00,,10,,auction,",
    "enter,AAA,1,XYZ,buy,limit,10.00,,10,,,gfd",
    "change,AAA,1,XYZ,,,,,,,,",
    "change,AAA,1,XYZ,buy,,,,5,,,",
    "change,AAA,1,XYZ,,,,,5,day,,",
    "change,AAA,1,XYZ,,,ten,,5,,,",
    "cancel,AAA,1,XYZ,buy,,,,,,,",
    "cancel,AAA,1,,,,,,,,,",
    "cancel-all,AAA,1,XYZ,,,,,,,,",
    "cancel-all,,,XYZ,,,,,,,,",
    "open,AAA,,*,,,,,,,,",
    "uncross,,,*,,,,,5,,,",
    "end,,,,,,,,,,,",
];

/// Records that have another number of fields than the header.
const OTHER_LENGTHS: [&str; 2] = ["open,,,*,,,,,,,", "open,,,*,,,,,,,,,"];

/// Compares the fault of an order file with a record after a good one and before one of another length, with something before
/// it and the good one.
fn is_damaged(rt: &(impl Abort + AllocGlobal), record: &str, before: &str, cause: FileCause) {
    let text = format!(in rt.alloc();
        "{HEADER}{before}cancel,AAA,1,XYZ,,,,,,,,\n{before}{record}\n?\n"
    );
    has_fault(rt, &mut text.expect(rt, record).as_bytes(), 3, cause);
}

/// Compares the faults of records, with blank lines before them and without.
fn are_damaged(rt: &(impl Abort + AllocGlobal), records: &[&str], cause: &FileCause) {
    for record in records {
        is_damaged(rt, record, "", *cause);
        is_damaged(rt, record, "\n", *cause);
    }
}

#[test]
fn damaged_records(rt: HostRuntime) {
    are_damaged(&rt, &BAD_FIELDS, &FileCause::BadField);
    are_damaged(&rt, &OTHER_LENGTHS, &FileCause::Syntax);
}

/// A header and records, which needn't be text.
fn file_of(rt: &(impl Abort + AllocGlobal), records: &[u8]) -> Vec<u8> {
    let mut text = HEADER.as_bytes().to_vec(rt.alloc()).expect(rt, "memory");
    text.extend_from_slice(records).expect(rt, "memory");
    text
}

/// Records of which the answers show no more than that a name is unknown.
const UNKNOWN: &[u8] = b"enter,aaa,1,*,buy,limit,0.0001,,4294967295,,,
cancel,A\xffA,1,XYZ,,,,,,,,
";

/// The rows of `UNKNOWN`.
const UNKNOWN_ROWS: [Row; 2] = [
    Row {
        line: 2,
        security: 1,
        command: Command::Enter {
            member: 2,
            reference: 1,
            side: Side::Buy,
            kind: Kind::Limit(1),
            quantity: u32::MAX,
            validity: Validity::Day,
            restriction: Restriction::Free,
            condition: Condition::Plain,
        },
    },
    Row {
        line: 3,
        security: 0,
        command: Command::Cancel {
            member: 2,
            reference: 1,
        },
    },
];

#[test]
fn rows_that_no_answer_shows(rt: HostRuntime) {
    let unknown = file_of(&rt, UNKNOWN);
    rows_are(&rt, SEGMENT, &mut unknown.as_slice(), &UNKNOWN_ROWS);
    let opening = file_of(&rt, b"open,,,*,,,,,,,,");
    rows_are(&rt, NO_SECURITY, &mut opening.as_slice(), &[]);
}

/// A segment of eight securities.
fn eight_securities(rt: &(impl Abort + AllocGlobal)) -> String {
    let mut segment = String::from_str(rt.alloc(), "date = 0\nmembers = []\n").expect(rt, "memory");
    for name in ["A", "B", "C", "D", "E", "F", "G", "H"] {
        let security = replaced(rt.alloc(), SECOND, "UVW", name).expect(rt, name);
        segment.push_str(security.as_str()).expect(rt, "memory");
    }
    segment
}

/// An order file that opens all securities 125,000 times.
fn many_openings(rt: &(impl Abort + AllocGlobal)) -> String {
    let mut orders = String::from_str(rt.alloc(), HEADER).expect(rt, "memory");
    for _ in 0..125_000 {
        orders.push_str("open,,,*,,,,,,,,\n").expect(rt, "memory");
    }
    orders
}

/// Compares the number of rows of an order file, or its fault.
fn has_count(
    rt: &(impl Abort + AllocGlobal),
    segment: &str,
    orders: &str,
    expected: Result<usize, FileFault>,
) {
    assert!(rt; count_of(rt.alloc(), segment, orders.as_bytes()) == expected);
}

#[test]
fn more_than_a_million_rows(rt: HostRuntime) {
    let segment = eight_securities(&rt);
    let mut orders = many_openings(&rt);
    has_count(&rt, segment.as_str(), orders.as_str(), Ok(MAX_ROWS));
    orders.push_str("open,,,A,,,,,,,,\n").expect(&rt, "memory");
    has_count(&rt, segment.as_str(), orders.as_str(), Err(TOO_MANY_ROWS));
}

const TOO_MANY_ROWS: FileFault = FileFault {
    line: 125_002,
    cause: FileCause::TooManyRows,
};

#[test]
fn a_slow_reader(rt: HostRuntime) {
    let rows = read(rt.alloc(), SEGMENT, &mut ORDERS.as_bytes()).expect(&rt, "rows");
    let mut slow = OneByteReader::new(ORDERS, None);
    rows_are(&rt, SEGMENT, &mut slow, rows.as_slice());
}

/// Compares the fault of `ORDERS`, of which this call fails.
fn fails_at(rt: &(impl Abort + AllocGlobal), call: usize, kind: ErrorKind) {
    let mut reader = OneByteReader::new(ORDERS, Some((call, kind)));
    has_fault(rt, &mut reader, 0, FileCause::ReadFailed);
}

#[test]
fn failing_readers(rt: HostRuntime) {
    for kind in [ErrorKind::BrokenPipe, ErrorKind::Interrupted] {
        for call in 0..ORDERS.len() + 1 {
            fails_at(&rt, call, kind);
        }
    }
}
