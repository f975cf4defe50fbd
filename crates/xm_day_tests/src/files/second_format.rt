//! Order files of the second format, each record of which has a free text.
use super::fixtures::{CASCADE, HEADER, ORDERS, SECOND_HEADER, SEGMENT};
use super::order_files::{BAD_FIELDS, count_of, has_fault, read};
use std::process::Abort;
use xm_files::{FileCause, FileFault};

/// Texts that a record may have, as they are written: none, words, bytes that are no UTF-8, and in quotes a comma, quotes and
/// line ends.
const TEXTS: [&[u8]; 7] = [
    b"",
    b"as agreed by phone",
    b"\x00\xc3\xff\xfe",
    b"\"a, b\"",
    b"\"say \"\"go\"\"\"",
    b"\"two\nlines\r\n\"",
    b"a \"word\" in quotes",
];

/// What an order file of the first format says, in one of the second, each record of which has this text.
fn with_texts(rt: &(impl Abort + AllocGlobal), orders: &str, text: &[u8]) -> Vec<u8> {
    let mut bytes = SECOND_HEADER
        .as_bytes()
        .to_vec(rt.alloc())
        .expect(rt, "memory");
    for byte in orders.as_bytes().iter().skip(HEADER.len()) {
        if *byte == b'\n' {
            bytes.extend_from_slice(b",").expect(rt, "memory");
            bytes.extend_from_slice(text).expect(rt, "memory");
        }
        bytes.extend_from_slice(&[*byte]).expect(rt, "memory");
    }
    bytes
}

/// Compares the rows of an order file of the first format with those of the same in the second, with this text in each record.
fn has_the_same_rows(rt: &(impl Abort + AllocGlobal), orders: &str, text: &[u8]) {
    let rows = read(rt.alloc(), SEGMENT, &mut orders.as_bytes()).expect(rt, "rows");
    let second = with_texts(rt, orders, text);
    let others = read(rt.alloc(), SEGMENT, &mut second.as_slice()).expect(rt, "rows with texts");
    assert!(rt; rows.as_slice() == others.as_slice(), "{text:?}");
}

#[test]
fn texts_say_nothing(rt: HostRuntime) {
    for text in TEXTS {
        has_the_same_rows(&rt, ORDERS, text);
        has_the_same_rows(&rt, CASCADE, text);
    }
}

/// Letters of one, two and four bytes and a byte that is no letter, each with how many of them make 64 bytes.
const PIECES: [(&[u8], usize); 4] = [
    (b"a", 64),
    (b"\xc3\xa4", 32),
    (b"\xf0\x9f\x93\x88", 16),
    (b"\xff", 64),
];

/// An order file of two records, the first of which has a text of so many pieces, with something before them and behind.
fn with_pieces(
    rt: &(impl Abort + AllocGlobal),
    piece: &[u8],
    count: usize,
    around: (&[u8], &[u8]),
) -> Vec<u8> {
    let mut bytes = SECOND_HEADER
        .as_bytes()
        .to_vec(rt.alloc())
        .expect(rt, "memory");
    let (before, behind) = around;
    bytes
        .extend_from_slice(b"open,,,XYZ,,,,,,,,,")
        .expect(rt, "memory");
    bytes.extend_from_slice(before).expect(rt, "memory");
    for _ in 0..count {
        bytes.extend_from_slice(piece).expect(rt, "memory");
    }
    bytes.extend_from_slice(behind).expect(rt, "memory");
    bytes
        .extend_from_slice(b"\nuncross,,,XYZ,,,,,,,,,a text that isn't looked at any further\n")
        .expect(rt, "memory");
    bytes
}

const TOO_LONG: FileFault = FileFault {
    line: 2,
    cause: FileCause::BadField,
};

/// Compares what texts of 64 bytes and of 65 answer.
fn is_longest(rt: &(impl Abort + AllocGlobal), piece: &[u8], count: usize) {
    for around in AROUND {
        let longest = with_pieces(rt, piece, count, around);
        assert!(rt;
            count_of(rt.alloc(), SEGMENT, longest.as_slice()) == Ok(2),
            "{piece:?}"
        );
    }
    for around in AROUND_MORE {
        let longer = with_pieces(rt, piece, count, around);
        assert!(rt;
            count_of(rt.alloc(), SEGMENT, longer.as_slice()) == Err(TOO_LONG),
            "{piece:?}"
        );
    }
}

/// Nothing, and quotes.
const AROUND: [(&[u8], &[u8]); 2] = [(b"", b""), (b"\"", b"\"")];

/// The same with a byte more.
const AROUND_MORE: [(&[u8], &[u8]); 2] = [(b"", b"a"), (b"\"a", b"\"")];

#[test]
fn texts_of_64_bytes(rt: HostRuntime) {
    for (piece, count) in PIECES {
        is_longest(&rt, piece, count);
    }
}

/// Compares the fault of a record after a good one.
fn is_damaged(rt: &(impl Abort + AllocGlobal), record: &str, before: &str, cause: FileCause) {
    let text = format!(in rt.alloc();
        "{SECOND_HEADER}{before}cancel,AAA,1,XYZ,,,,,,,,,a text\n{before}{record}\n?\n"
    );
    has_fault(rt, &mut text.expect(rt, record).as_bytes(), 3, cause);
}

/// Records with another number of fields than the header, and so few that those of the first format are among them.
const OTHER_LENGTHS: [&str; 3] = ["open,,,*,,,,,,,,", "open,,,*,,,,,,,,,,", "open"];

#[test]
fn damaged_records_with_texts(rt: HostRuntime) {
    for record in BAD_FIELDS {
        let record = format!(in rt.alloc(); "{record},a text").expect(&rt, record);
        is_damaged(&rt, record.as_str(), "", FileCause::BadField);
        is_damaged(&rt, record.as_str(), "\n", FileCause::BadField);
    }
    for record in OTHER_LENGTHS {
        is_damaged(&rt, record, "", FileCause::Syntax);
        is_damaged(&rt, record, "\n", FileCause::Syntax);
    }
}

/// First records that are no header.
const NO_HEADERS: [&str; 5] = [
    "command,member,reference,security,side,kind,limit,trigger,quantity,validity,restriction,condition,Text",
    "command,member,reference,security,side,kind,limit,trigger,quantity,validity,restriction,condition,",
    "command,member,reference,security,side,kind,limit,trigger,quantity,validity,restriction,condition,text,text",
    "command,member,reference,security,side,kind,limit,trigger,quantity,validity,restriction,text,condition",
    "command,member,reference,security,side,kind,limit,trigger,quantity,validity,restriction,text",
];

/// Other ways to write the header.
const SAME_HEADERS: [&str; 3] = [
    "\u{feff}command,member,reference,security,side,kind,limit,trigger,quantity,validity,restriction,condition,text",
    "command,member,reference,security,side,kind,limit,trigger,quantity,validity,restriction,condition,\"text\"",
    "\r\n\ncommand,member,reference,security,side,kind,limit,trigger,quantity,validity,restriction,condition,text\r",
];

/// An order file with this first record and one more.
fn under(rt: &(impl Abort + AllocGlobal), header: &str) -> String {
    (format!(in rt.alloc(); "{header}\nopen,,,*,,,,,,,,,a text\n")).expect(rt, header)
}

#[test]
fn headers_with_a_text(rt: HostRuntime) {
    for header in NO_HEADERS {
        let orders = under(&rt, header);
        has_fault(&rt, &mut orders.as_bytes(), 1, FileCause::BadHeader);
    }
    for header in SAME_HEADERS {
        let orders = under(&rt, header);
        assert!(rt;
            count_of(rt.alloc(), SEGMENT, orders.as_bytes()) == Ok(1),
            "{header}"
        );
    }
}
