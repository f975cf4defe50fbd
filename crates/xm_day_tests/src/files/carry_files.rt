//! Carry files: the orders and stops that a day begins with.
use super::fault;
use super::fixtures::{Filler, NO_SECURITY, OneByteReader, SECOND, SEGMENT};
use std::alloc::Global;
use std::io::{ErrorKind, Read};
use std::process::Abort;
use xm_config::SegmentConfig;
use xm_files::FileCause::{
    BadField, BadHeader, DuplicateName, ReadFailed, Syntax, TooLong, TooManyRows,
};
use xm_files::{FileCause, FileFault, MAX_BYTES, read_carry, read_segment};
use xm_name_index::Storage;
use xm_rules::{MAX_CARRIED, Order, OrderKind, Restriction, Side, Stop, Validity};
use xm_ticks::Price;

/// A carry file without an entry.
const HEADER: &str = carried!("");

/// An order or a stop of each kind, in two securities.
const ENTRIES: &str = carried!(
    "XYZ,BBB,2,sell,limit,9.8500,,5,gtc,free
UVW,AAA,2,buy,market,,,1000000,20260104,opening
XYZ,AAA,4,sell,stop-market,,9.9000,3,20260106,free
XYZ,AAA,2,buy,limit,0.01,,0000000001,00000000,auctions
UVW,BBB,4294967295,buy,stop-limit,100,0.0001,7,99999999,free
XYZ,AAA,0,sell,limit,10000,,1,gtc,closing
"
);

/// The settings of a segment file with what a carry file lists, or the fault of either. A clause sees nothing of it.
fn read(alloc: Global, segment: &str, carry: &mut impl Read) -> Result<SegmentConfig, FileFault> {
    let mut reader = segment.as_bytes();
    let (config, names) = read_segment(alloc, &mut reader)?;
    read_carry(Storage::with_fixed_seed(alloc), carry, &names, config)
}

/// Compares the fault of a carry file.
fn has_fault(rt: &(impl Abort + AllocGlobal), carry: &mut impl Read, line: u32, cause: FileCause) {
    let answer = read(rt.alloc(), SEGMENT, carry).err();
    assert!(rt;
        answer == fault(line, cause),
        "in place of {line} {cause:?}"
    );
}

/// An order without a limit and a restriction, of one unit, valid till it is cancelled.
const PLAIN: Order = Order {
    member: 0,
    reference: 0,
    kind: OrderKind::Market,
    rest: 1,
    validity: Validity::TillCancelled,
    side: Side::Sell,
    restriction: Restriction::Free,
};

/// A limit of so many ticks.
fn limit(rt: &(impl Abort + AllocGlobal), ticks: u32) -> OrderKind {
    OrderKind::Limit(Price::new(ticks).expect(rt, "a price"))
}

/// The segment file of two securities.
fn two_securities(rt: &(impl Abort + AllocGlobal)) -> String {
    let mut segment = String::from_str(rt.alloc(), SEGMENT).expect(rt, "memory");
    segment.push_str(SECOND).expect(rt, "memory");
    segment
}

/// Compares the orders and stops of a security.
fn lists_are(
    rt: &(impl Abort + AllocGlobal),
    config: &SegmentConfig,
    security: usize,
    orders: &[Order],
    stops: &[Stop],
) {
    let settings = config
        .securities
        .as_slice()
        .get(security)
        .expect(rt, "a security");
    assert!(rt; settings.carried.orders() == orders, "{security}");
    assert!(rt; settings.carried.stops() == stops, "{security}");
}

/// The orders of the first security in `ENTRIES`.
fn first_orders(rt: &(impl Abort + AllocGlobal)) -> [Order; 3] {
    [
        Order {
            member: 1,
            reference: 2,
            kind: limit(rt, 985),
            rest: 5,
            ..PLAIN
        },
        Order {
            reference: 2,
            kind: limit(rt, 1),
            validity: Validity::TillDate(0),
            side: Side::Buy,
            restriction: Restriction::AuctionsOnly,
            ..PLAIN
        },
        Order {
            kind: limit(rt, 1_000_000),
            restriction: Restriction::ClosingOnly,
            ..PLAIN
        },
    ]
}

/// The stop of the first security in `ENTRIES`.
const FIRST_STOP: Stop = Stop {
    member: 0,
    reference: 4,
    side: Side::Sell,
    trigger: 990,
    becomes: OrderKind::Market,
    quantity: 3,
    validity: Validity::TillDate(20_260_106),
};

/// The order of the second security in `ENTRIES`.
const SECOND_ORDER: Order = Order {
    reference: 2,
    rest: 1_000_000,
    validity: Validity::TillDate(20_260_104),
    side: Side::Buy,
    restriction: Restriction::OpeningOnly,
    ..PLAIN
};

/// The stop of the second security in `ENTRIES`.
fn second_stop(rt: &(impl Abort + AllocGlobal)) -> Stop {
    Stop {
        member: 1,
        reference: u32::MAX,
        side: Side::Buy,
        trigger: 1,
        becomes: limit(rt, 1_000_000),
        quantity: 7,
        validity: Validity::TillDate(99_999_999),
    }
}

/// Compares what `ENTRIES` lists, read by this reader.
fn lists_each_kind(rt: &(impl Abort + AllocGlobal), carry: &mut impl Read) {
    let segment = two_securities(rt);
    let config = read(rt.alloc(), segment.as_str(), carry).expect(rt, "settings");
    lists_are(rt, &config, 0, &first_orders(rt), &[FIRST_STOP]);
    lists_are(rt, &config, 1, &[SECOND_ORDER], &[second_stop(rt)]);
}

#[test]
fn a_record_of_each_kind(rt: HostRuntime) {
    lists_each_kind(&rt, &mut ENTRIES.as_bytes());
    lists_each_kind(&rt, &mut OneByteReader::new(ENTRIES, None));
}

/// `ENTRIES` with a text in place of another, and something before it.
fn written_otherwise(
    rt: &(impl Abort + AllocGlobal),
    old: &str,
    new: &str,
    before: &str,
) -> String {
    let mut text = String::from_str(rt.alloc(), before).expect(rt, "memory");
    for piece in ENTRIES.split(old) {
        text.push_str(piece).expect(rt, "memory");
        text.push_str(new).expect(rt, "memory");
    }
    text
}

// With carriage returns; with blank lines behind a byte order mark; with words in quotes.
#[test]
fn other_writings(rt: HostRuntime) {
    let writings = [
        ("\n", "\r\n", ""),
        ("\n", "\n\n", "\u{feff}"),
        ("gtc", "\"gtc\"", "\n"),
    ];
    for (old, new, before) in writings {
        let text = written_otherwise(&rt, old, new, before);
        let whole = text.as_str().strip_suffix(new).expect(&rt, "an end");
        lists_each_kind(&rt, &mut whole.as_bytes());
    }
}

/// How many orders and stops a carry file lists for the first security of a segment file, or its fault.
fn count_of(alloc: Global, segment: &str, carry: &str) -> Result<usize, FileFault> {
    let config = read(alloc, segment, &mut carry.as_bytes())?;
    match config.securities.as_slice().first() {
        Some(settings) => Ok(
            settings
                .carried
                .orders()
                .len()
                .saturating_add(settings.carried.stops().len()),
        ),
        None => Ok(0),
    }
}

#[test]
fn a_header_alone(rt: HostRuntime) {
    let segment = two_securities(&rt);
    let config = read(rt.alloc(), segment.as_str(), &mut HEADER.as_bytes()).expect(&rt, "settings");
    lists_are(&rt, &config, 0, &[], &[]);
    lists_are(&rt, &config, 1, &[], &[]);
    assert!(rt; count_of(rt.alloc(), NO_SECURITY, HEADER) == Ok(0));
}

/// A stop and an order of one security.
const TWO_ENTRIES: &str = carried!(
    "XYZ,BBB,2,sell,limit,9.8500,,5,gtc,free
XYZ,AAA,4,sell,stop-market,,9.9000,3,20260106,free
"
);

/// How often a byte stands in a text.
fn count_in(text: &str, byte: u8) -> u32 {
    let mut count = 0u32;
    for other in text.as_bytes() {
        if *other == byte {
            count = count.saturating_add(1);
        }
    }
    count
}

/// What a carry file answers that is cut off before this byte: the number of its entries, or its fault.
fn answer_of_prefix(prefix: &str, next: Option<u8>) -> Result<usize, FileFault> {
    let lines = count_in(prefix, b'\n');
    let line = lines.saturating_add(1);
    let record = match prefix.rsplit_once('\n') {
        Some((_, record)) => record,
        None => "",
    };
    if prefix.len() + 1 < HEADER.len() {
        Err(FileFault {
            line: 1,
            cause: BadHeader,
        })
    } else if prefix.ends_with('\n') {
        Ok(lines.saturating_sub(1) as usize)
    } else if next == Some(b'\n') {
        Ok(lines as usize)
    } else if count_in(record, b',') == 9 {
        Err(FileFault {
            line,
            cause: BadField,
        })
    } else {
        Err(FileFault {
            line,
            cause: Syntax,
        })
    }
}

#[test]
fn prefixes_of_a_carry_file(rt: HostRuntime) {
    for end in 0..TWO_ENTRIES.len() {
        let prefix = TWO_ENTRIES.get(..end).expect(&rt, "ASCII");
        let answer = answer_of_prefix(prefix, TWO_ENTRIES.as_bytes().get(end).copied());
        assert!(rt; count_of(rt.alloc(), SEGMENT, prefix) == answer, "{end}");
    }
}

/// Records of ten fields, of which each has a bad one.
const BAD_FIELDS: [&str; 55] = [
    "\u{feff}XYZ,AAA,1,buy,limit,9.80,,5,gtc,free",
    ",AAA,1,buy,limit,9.80,,5,gtc,free",
    "UVW,AAA,1,buy,limit,9.80,,5,gtc,free",
    "*,AAA,1,buy,limit,9.80,,5,gtc,free",
    "xyz,AAA,1,buy,limit,9.80,,5,gtc,free",
    "XYZ,,1,buy,limit,9.80,,5,gtc,free",
    "XYZ,CCC,1,buy,limit,9.80,,5,gtc,free",
    "XYZ,*,1,buy,limit,9.80,,5,gtc,free",
    "XYZ,AAA,,buy,limit,9.80,,5,gtc,free",
    "XYZ,AAA,4294967296,buy,limit,9.80,,5,gtc,free",
    "XYZ,AAA,00000000001,buy,limit,9.80,,5,gtc,free",
    "XYZ,AAA,-1,buy,limit,9.80,,5,gtc,free",
    "XYZ,AAA,1,,limit,9.80,,5,gtc,free",
    "XYZ,AAA,1,Buy,limit,9.80,,5,gtc,free",
    "XYZ,AAA,1,buy,,9.80,,5,gtc,free",
    "XYZ,AAA,1,buy,stop,9.80,9.90,5,gtc,free",
    "XYZ,AAA,1,buy,market,9.80,,5,gtc,free",
    "XYZ,AAA,1,buy,market,,9.90,5,gtc,free",
    "XYZ,AAA,1,buy,limit,,,5,gtc,free",
    "XYZ,AAA,1,buy,limit,9.80,9.90,5,gtc,free",
    "XYZ,AAA,1,buy,limit,9.,,5,gtc,free",
    "XYZ,AAA,1,buy,limit,9.80000,,5,gtc,free",
    "XYZ,AAA,1,buy,limit,9.805,,5,gtc,free",
    "XYZ,AAA,1,buy,limit,0,,5,gtc,free",
    "XYZ,AAA,1,buy,limit,10000.01,,5,gtc,free",
    "XYZ,AAA,1,buy,limit,000000000000009.8,,5,gtc,free",
    "XYZ,AAA,1,buy,stop-market,,,5,gtc,free",
    "XYZ,AAA,1,buy,stop-market,9.80,9.90,5,gtc,free",
    "XYZ,AAA,1,buy,stop-market,,9.,5,gtc,free",
    "XYZ,AAA,1,buy,stop-market,,9.905,5,gtc,free",
    "XYZ,AAA,1,buy,stop-market,,0,5,gtc,free",
    "XYZ,AAA,1,buy,stop-limit,9.80,,5,gtc,free",
    "XYZ,AAA,1,buy,stop-limit,,9.90,5,gtc,free",
    "XYZ,AAA,1,buy,stop-limit,9.805,9.90,5,gtc,free",
    "XYZ,AAA,1,buy,stop-limit,9.80,9.905,5,gtc,free",
    "XYZ,AAA,1,buy,stop-limit,9.80000,9.90,5,gtc,free",
    "XYZ,AAA,1,buy,stop-limit,9.80,10000.01,5,gtc,free",
    "XYZ,AAA,1,buy,limit,9.80,,,gtc,free",
    "XYZ,AAA,1,buy,limit,9.80,,0,gtc,free",
    "XYZ,AAA,1,buy,limit,9.80,,1000001,gtc,free",
    "XYZ,AAA,1,buy,limit,9.80,,4294967297,gtc,free",
    "XYZ,AAA,1,buy,limit,9.80,,00000000005,gtc,free",
    "XYZ,AAA,1,buy,limit,9.80,,5,,free",
    "XYZ,AAA,1,buy,limit,9.80,,5,day,free",
    "XYZ,AAA,1,buy,limit,9.80,,5,GTC,free",
    "XYZ,AAA,1,buy,limit,9.80,,5,2026010,free",
    "XYZ,AAA,1,buy,limit,9.80,,5,020260105,free",
    "XYZ,AAA,1,buy,limit,9.80,,5,2026-1-5,free",
    "XYZ,AAA,1,buy,limit,9.80,,5,gtc,",
    "XYZ,AAA,1,buy,limit,9.80,,5,gtc,auction",
    "XYZ,AAA,1,buy,stop-market,,9.90,5,gtc,",
    "XYZ,AAA,1,buy,stop-market,,9.90,5,gtc,opening",
    "XYZ,AAA,1,buy,stop-limit,9.80,9.90,5,gtc,auctions",
    "XYZ,AAA,1,buy,stop-limit,9.80,9.90,5,gtc,closing",
    "\"XYZ\",BBB,2,sell,limit,9.85,,0,gtc,free",
];

/// Records that have another number of fields than the header.
const OTHER_LENGTHS: [&str; 4] = [
    "XYZ,AAA,1,buy,limit,9.80,,5,gtc",
    "XYZ,AAA,1,buy,limit,9.80,,5,gtc,free,",
    "XYZ,AAA,1,buy,limit,9.80,,5,gtc,free,,,,,,,,\"",
    "?",
];

/// Records with a name that the record before them has.
const USED_NAMES: [&str; 3] = [
    "XYZ,BBB,2,sell,limit,9.8500,,5,gtc,free",
    "XYZ,BBB,0000000002,buy,stop-market,,9.9000,3,20260106,free",
    "XYZ,BBB,2,buy,market,,,1,20200101,opening",
];

/// Compares the fault of a carry file with a record after a good one and before one of another length, with something before
/// it and the good one.
fn is_damaged(rt: &(impl Abort + AllocGlobal), record: &str, before: &str, cause: FileCause) {
    let text = format!(in rt.alloc();
        "{HEADER}{before}XYZ,BBB,2,sell,limit,9.8500,,5,20260104,free\n{before}{record}\n?\n"
    );
    has_fault(rt, &mut text.expect(rt, record).as_bytes(), 3, cause);
}

/// Compares the faults of records, with blank lines before them and without.
fn are_damaged(rt: &(impl Abort + AllocGlobal), records: &[&str], cause: &FileCause) {
    for record in records {
        is_damaged(rt, record, "", *cause);
        is_damaged(rt, record, "\n", *cause);
    }
}

#[test]
fn damaged_records_of_carry_files(rt: HostRuntime) {
    are_damaged(&rt, &BAD_FIELDS, &BadField);
    are_damaged(&rt, &OTHER_LENGTHS, &Syntax);
    are_damaged(&rt, &USED_NAMES, &DuplicateName);
}

/// First records that are no header of a carry file.
const OTHER_HEADERS: [&str; 6] = [
    "",
    "\n",
    orders!(""),
    "security,member,reference,side,kind,limit,trigger,quantity,validity\n",
    "security,member,reference,side,kind,limit,trigger,quantity,validity,restriction,condition\n",
    "XYZ,BBB,2,sell,limit,9.8500,,5,gtc,free\n",
];

#[test]
fn other_headers_of_carry_files(rt: HostRuntime) {
    for text in &OTHER_HEADERS {
        has_fault(&rt, &mut text.as_bytes(), 1, BadHeader);
    }
}

/// One name in two securities.
const NAMES_OF_TWO: &str = carried!(
    "XYZ,BBB,2,sell,limit,9.8500,,5,gtc,free
UVW,BBB,2,sell,limit,9.8500,,5,gtc,free
XYZ,AAA,2,sell,limit,9.8500,,5,gtc,free
"
);

#[test]
fn a_name_in_each_security(rt: HostRuntime) {
    let segment = two_securities(&rt);
    assert!(rt; count_of(rt.alloc(), segment.as_str(), NAMES_OF_TWO) == Ok(2));
}

/// A carry file of as many orders as a security takes, the first of which expired.
fn many_orders(rt: &(impl Abort + AllocGlobal)) -> String {
    let mut carry = String::from_str(rt.alloc(), HEADER).expect(rt, "memory");
    carry
        .push_str("XYZ,AAA,0,buy,limit,9.80,,5,20200101,free\n")
        .expect(rt, "memory");
    for reference in 1..MAX_CARRIED {
        let record = format!(in rt.alloc(); "XYZ,BBB,{reference},sell,market,,,5,gtc,free\n");
        carry
            .push_str(record.expect(rt, "memory").as_str())
            .expect(rt, "memory");
    }
    carry
}

/// Compares the answer to a carry file with one record more.
fn has_answer_with(
    rt: &(impl Abort + AllocGlobal),
    carry: &str,
    record: &str,
    answer: Result<usize, FileFault>,
) {
    let segment = two_securities(rt);
    let text = format!(in rt.alloc(); "{carry}{record}\n").expect(rt, "memory");
    assert!(rt;
        count_of(rt.alloc(), segment.as_str(), text.as_str()) == answer,
        "{record}"
    );
}

/// A fault of the record that comes behind as many as a security takes.
fn last_fault(cause: FileCause) -> Result<usize, FileFault> {
    Err(FileFault {
        line: MAX_CARRIED as u32 + 2,
        cause,
    })
}

#[test]
fn as_many_entries_as_a_security_takes(rt: HostRuntime) {
    let carry = many_orders(&rt);
    let other = "UVW,AAA,0,buy,market,,,5,gtc,free";
    has_answer_with(&rt, carry.as_str(), other, Ok(MAX_CARRIED));
}

#[test]
fn more_entries_than_a_security_takes(rt: HostRuntime) {
    let carry = many_orders(&rt);
    let stop = "XYZ,AAA,1,buy,stop-market,,1,5,20200101,free";
    has_answer_with(&rt, carry.as_str(), stop, last_fault(TooManyRows));
}

#[test]
fn a_used_name_behind_as_many_entries_as_a_security_takes(rt: HostRuntime) {
    let carry = many_orders(&rt);
    let used = "XYZ,AAA,0,buy,market,,,5,gtc,free";
    has_answer_with(&rt, carry.as_str(), used, last_fault(DuplicateName));
}

/// Compares the fault of `ENTRIES`, of which this call fails.
fn fails_at(rt: &(impl Abort + AllocGlobal), call: usize, kind: ErrorKind) {
    let mut reader = OneByteReader::new(ENTRIES, Some((call, kind)));
    has_fault(rt, &mut reader, 0, ReadFailed);
}

#[test]
fn failing_readers_of_carry_files(rt: HostRuntime) {
    for kind in [ErrorKind::BrokenPipe, ErrorKind::Interrupted] {
        for call in 0..ENTRIES.len() + 1 {
            fails_at(&rt, call, kind);
        }
    }
}

#[test]
fn long_carry_files(rt: HostRuntime) {
    has_fault(
        &rt,
        &mut Filler {
            byte: 255,
            left: MAX_BYTES,
        },
        1,
        BadHeader,
    );
    has_fault(
        &rt,
        &mut Filler {
            byte: 255,
            left: MAX_BYTES + 1,
        },
        0,
        TooLong,
    );
}
