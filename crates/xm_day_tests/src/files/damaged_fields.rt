//! Each field of each kind of record, with texts that it can't have.
use super::fixtures::{HEADER, SECOND_HEADER, SEGMENT};
use super::order_files::count_of;
use std::process::Abort;
use xm_files::{FileCause, FileFault};

/// Good records, and a letter for each of their columns: `r` where the field is required, `o` where it may be empty, and
/// `-` where it must be.
const FORMS: [(&str, &[u8]); 12] = [
    (
        "enter,AAA,1,XYZ,buy,market,,,10,day,free,plain",
        b"rrrrrr--rooo",
    ),
    (
        "enter,AAA,1,XYZ,buy,limit,10.00,,10,day,free,plain",
        b"rrrrrrr-rooo",
    ),
    (
        "enter,AAA,1,XYZ,buy,stop-market,,10.10,10,day,free,plain",
        b"rrrrrr-rrooo",
    ),
    (
        "enter,AAA,1,XYZ,buy,stop-limit,10.20,10.10,10,day,free,plain",
        b"rrrrrrrrrooo",
    ),
    ("change,AAA,1,XYZ,,,10.00,,5,,,", b"rrrr--o-r---"),
    ("cancel,AAA,1,XYZ,,,,,,,,", b"rrrr--------"),
    ("cancel-all,AAA,,XYZ,,,,,,,,", b"rr-r--------"),
    ("open,,,XYZ,,,,,,,,", b"r--r--------"),
    ("intraday,,,XYZ,,,,,,,,", b"r--r--------"),
    ("close,,,XYZ,,,,,,,,", b"r--r--------"),
    ("uncross,,,XYZ,,,,,,,,", b"r--r--------"),
    ("end,,,XYZ,,,,,,,,", b"r--r--------"),
];

/// Texts that are lawful in no column but those of names, where each but the empty one is an unknown name.
const TEXTS: [&[u8]; 5] = [b"", b"?", b" ", b"-1", b"\xff"];

/// Whether a column of this letter may have this text of `TEXTS`: those of names are the second and the fourth.
fn is_lawful(letter: u8, column: usize, text: &[u8]) -> bool {
    if text.is_empty() {
        letter != b'r'
    } else {
        letter == b'r' && (column == 1 || column == 3)
    }
}

/// The headers of both formats, and what stands behind the columns of the first in a record of each.
const FORMATS: [(&str, &[u8]); 2] = [(HEADER, b""), (SECOND_HEADER, b",a text")];

/// An order file with one record, in which a column has this text.
fn with_field(
    rt: &(impl Abort + AllocGlobal),
    format: (&str, &[u8]),
    record: &str,
    column: usize,
    text: &[u8],
) -> Vec<u8> {
    let (header, behind) = format;
    let mut bytes = header.as_bytes().to_vec(rt.alloc()).expect(rt, "memory");
    for (place, field) in record.split(',').enumerate() {
        if place > 0 {
            bytes.extend_from_slice(b",").expect(rt, "memory");
        }
        let field = if place == column {
            text
        } else {
            field.as_bytes()
        };
        bytes.extend_from_slice(field).expect(rt, "memory");
    }
    bytes.extend_from_slice(behind).expect(rt, "memory");
    bytes
}

const BAD_FIELD: FileFault = FileFault {
    line: 2,
    cause: FileCause::BadField,
};

/// Compares what a record answers in each format with a text in a column of this letter.
fn field_is_checked(
    rt: &(impl Abort + AllocGlobal),
    record: &str,
    column: usize,
    letter: u8,
    text: &[u8],
) {
    let expected = if is_lawful(letter, column, text) {
        Ok(1)
    } else {
        Err(BAD_FIELD)
    };
    for format in FORMATS {
        let bytes = with_field(rt, format, record, column, text);
        let answer = count_of(rt.alloc(), SEGMENT, bytes.as_slice());
        assert!(rt; answer == expected, "{record}, {column}");
    }
}

/// Compares what a record answers with each of `TEXTS` in each of its columns.
fn record_is_checked(rt: &(impl Abort + AllocGlobal), record: &str, letters: &[u8]) {
    for (column, letter) in letters.iter().enumerate() {
        for text in TEXTS {
            field_is_checked(rt, record, column, *letter, text);
        }
    }
}

#[test]
fn each_field_of_each_record(rt: HostRuntime) {
    for (record, letters) in FORMS {
        record_is_checked(&rt, record, letters);
    }
}
