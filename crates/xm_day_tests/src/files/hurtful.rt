//! Files that are made to hurt, and what they answer. How long the built program takes over such files at the limit of bytes,
//! `dev/hostile/run files` sees.
ghost use Rattle.std.specs.Prelude.{◌≤◌, length};
ghost use Rattle.xm_files.specs.declared.order_files.TheConstants.{MAX_FILES};

use super::fixtures::{Filler, HEADER, SECOND, replaced};
use super::{order_files, segment_files};
use std::alloc::Global;
use std::io::{Read, Write};
use std::process::Abort;
use xm_config::Row;
use xm_day::{DayFault, run_alone};
use xm_files::FileCause::{self, BadField, BadHeader, DuplicateName, MissingKey, Syntax, TooLong};
use xm_files::MAX_BYTES;
use xm_name_index::Storage;

/// Files of one byte over and over: the byte, how often, and the faults that are told of it, as an order file and as a segment
/// file.
const FILLS: [(u8, usize, u32, FileCause, FileCause); 9] = [
    (255, MAX_BYTES, 1, BadHeader, Syntax),
    (255, MAX_BYTES + 1, 0, TooLong, TooLong),
    (b'A', FILL, 1, BadHeader, Syntax),
    (b'"', FILL, 1, BadHeader, Syntax),
    (b',', FILL, 1, BadHeader, Syntax),
    (b'\n', FILL, 1, BadHeader, MissingKey),
    (b'\r', FILL, 1, BadHeader, Syntax),
    (b'#', FILL, 1, BadHeader, MissingKey),
    (0, FILL, 1, BadHeader, Syntax),
];

/// The length of those whose length has no meaning.
const FILL: usize = 1 << 20;

/// Compares the faults of a file of one byte.
fn fills_have_faults(
    rt: &(impl Abort + AllocGlobal),
    byte: u8,
    left: usize,
    line: u32,
    orders: FileCause,
    segment: FileCause,
) {
    order_files::has_fault(rt, &mut Filler { byte, left }, line, orders);
    segment_files::has_fault(rt, &mut Filler { byte, left }, 0, segment);
}

#[test]
fn files_of_one_byte(rt: HostRuntime) {
    for (byte, left, line, orders, segment) in &FILLS {
        fills_have_faults(&rt, *byte, *left, *line, *orders, *segment);
    }
}

/// What order files begin with whose next field has quotes, and the fault that is told of each: the record of that field has more
/// fields than columns, but one that has as many.
const QUOTED_FIELDS: [(&str, u32, FileCause); 6] = [
    (",,,,,,,,,,,,,", 1, BadHeader),
    ("\u{feff},,,,,,,,,,,,,", 1, BadHeader),
    (orders!(",,,,,,,,,,,,,"), 2, Syntax),
    (orders!("open,,,*,,,,,,,,,"), 2, Syntax),
    (orders!("open,,,*,,,,,,,,"), 2, BadField),
    (orders!("open,,,*,,,,,,,,\n,,,,,,,,,,,,,"), 3, Syntax),
];

/// A field in quotes, over two lines.
const QUOTED: &str =
    "\"AAAAAAAAAAAAAAAAAAAAAAAAAAAAAAAAAAAAAAAA\n,BBBBBBBBBBBBBBBBBBBBBBBBBBBBBBBBBBBBBBBB\"\"\"\n";

/// Compares the fault of an order file that begins so, with a field in quotes behind it.
fn quoted_has_fault(rt: &(impl Abort + AllocGlobal), begin: &str, line: u32, cause: FileCause) {
    let text = format!(in rt.alloc(); "{begin}{QUOTED}").expect(rt, begin);
    order_files::has_fault(rt, &mut text.as_bytes(), line, cause);
}

#[test]
fn fields_in_quotes_behind_many(rt: HostRuntime) {
    for (begin, line, cause) in &QUOTED_FIELDS {
        quoted_has_fault(&rt, begin, *line, *cause);
    }
}

/// More names than a segment has members or securities.
const MANY: u32 = 1000;

/// A segment of many securities, each with a name of its own.
fn many_securities(rt: &(impl Abort + AllocGlobal)) -> String {
    let mut segment = String::from_str(rt.alloc(), "date = 0\nmembers = []\n").expect(rt, "memory");
    for number in 0..MANY {
        let name = (format!(in rt.alloc(); "S{number}")).expect(rt, "memory");
        let security = replaced(rt.alloc(), SECOND, "UVW", name.as_str()).expect(rt, "a name");
        segment.push_str(security.as_str()).expect(rt, "memory");
    }
    segment
}

#[test]
fn many_securities_are_read_to_the_last(rt: HostRuntime) {
    let mut segment = many_securities(&rt);
    let count = order_files::count_of(rt.alloc(), segment.as_str(), PHASE.as_bytes());
    assert!(rt; count == Ok(MANY as usize));
    let last = replaced(rt.alloc(), SECOND, "UVW", "S0").expect(&rt, "a name");
    segment.push_str(last.as_str()).expect(&rt, "memory");
    segment_files::text_has_fault(&rt, segment.as_str(), MANY + 1, DuplicateName);
}

/// A row of each security.
const PHASE: &str = orders!("open,,,*,,,,,,,,\n");

/// A segment of many members, whose names share a place among the hints, and an order file with a row of each of them.
fn many_members(rt: &(impl Abort + AllocGlobal)) -> (String, String) {
    let mut segment = String::from_str(rt.alloc(), "date = 0\nmembers = [").expect(rt, "memory");
    let mut orders = String::from_str(rt.alloc(), HEADER).expect(rt, "memory");
    for number in 10_000..10_000 + MANY {
        let name = (format!(in rt.alloc(); "\"{number}AAAAAAA\", ")).expect(rt, "memory");
        let row = (format!(in rt.alloc(); "cancel,{number}AAAAAAA,1,UVW,,,,,,,,\n"));
        segment.push_str(name.as_str()).expect(rt, "memory");
        orders
            .push_str(row.expect(rt, "memory").as_str())
            .expect(rt, "memory");
    }
    segment.push_str("]\n").expect(rt, "memory");
    segment.push_str(SECOND).expect(rt, "memory");
    (segment, orders)
}

/// Sees that each row is of the member whose place it has.
fn each_has_its_row(rt: &impl Abort, rows: &[Row]) {
    assert!(rt; rows.len() == MANY as usize);
    for (row, member) in rows.iter().zip(0..) {
        assert!(rt; row.command.member() == Some(member));
    }
}

#[test]
fn members_that_share_a_hint_are_all_found(rt: HostRuntime) {
    let (segment, orders) = many_members(&rt);
    let rows = order_files::read(rt.alloc(), segment.as_str(), &mut orders.as_bytes());
    each_has_its_row(&rt, rows.expect(&rt, "rows").as_slice());
}

/// A segment of one security.
const ONE: &str = securities!("\"AAA\", \"BBB\"", "XYZ" => 20);

/// A day whose rows come again and again behind others, and the counts of its accepted and of its refused rows.
struct Repeated {
    name: &'static str,
    begin: &'static str,
    turn: &'static str,
    turns: u32,
    counts: (u64, u64),
}

/// An order and a stop of each of these references, and their cancellations.
macro_rules! entered_and_cancelled {
    ($($reference:literal)+) => {
        concat!(
            $(
                "enter,AAA,",
                $reference,
                ",XYZ,buy,limit,9.90,,1,,,\nenter,BBB,",
                $reference,
                ",XYZ,sell,stop-market,,9.80,1,,,\n",
            )+
            $(
                "cancel,AAA,",
                $reference,
                ",XYZ,,,,,,,,\ncancel,BBB,",
                $reference,
                ",XYZ,,,,,,,,\n",
            )+
        )
    };
}

/// The phases up to continuous trading.
const TRADING: &str = "open,,,*,,,,,,,,\nuncross,,,*,,,,,,,,\n";

const DAYS: [Repeated; 7] = [
    Repeated {
        name: "all orders of a member cancelled",
        begin: "",
        turn: "enter,AAA,1,XYZ,buy,limit,9.90,,1,,,
enter,AAA,2,XYZ,sell,limit,10.10,,1,,,
cancel-all,AAA,,XYZ,,,,,,,,
",
        turns: 200,
        counts: (600, 0),
    },
    Repeated {
        name: "stops at one trigger",
        begin: TRADING,
        turn: "enter,BBB,1,XYZ,buy,stop-market,,10.01,1,,,
enter,BBB,2,XYZ,buy,stop-market,,10.01,1,,,
enter,AAA,1,XYZ,sell,limit,10.01,,3,,,
enter,BBB,3,XYZ,buy,limit,10.01,,1,,,
enter,AAA,1,XYZ,sell,limit,10.00,,1,,,
enter,BBB,1,XYZ,buy,limit,10.00,,1,,,
",
        turns: 100,
        counts: (602, 0),
    },
    Repeated {
        name: "calls that are interrupted and lose their price",
        begin: concat!(
            "open,,,*,,,,,,,,\nuncross,,,*,,,,,,,,\n",
            "enter,AAA,1,XYZ,buy,limit,5.00,,1,,,\nenter,AAA,2,XYZ,buy,limit,5.01,,1,,,\n"
        ),
        turn: "intraday,,,*,,,,,,,,
enter,BBB,1,XYZ,sell,limit,5.00,,2,,,
uncross,,,*,,,,,,,,
cancel,BBB,1,XYZ,,,,,,,,
uncross,,,*,,,,,,,,
",
        turns: 60,
        counts: (304, 0),
    },
    Repeated {
        name: "fill-or-kill orders of more than there is",
        begin: concat!(
            "open,,,*,,,,,,,,\nuncross,,,*,,,,,,,,\n",
            "enter,AAA,1,XYZ,sell,limit,10.00,,1,,,\nenter,AAA,2,XYZ,sell,limit,10.01,,1,,,\n"
        ),
        turn: "enter,BBB,1,XYZ,buy,limit,10.01,,3,,,fok\n",
        turns: 900,
        counts: (904, 0),
    },
    Repeated {
        name: "refused rows of the phases",
        begin: TRADING,
        turn: "open,,,*,,,,,,,,\n",
        turns: 2000,
        counts: (2, 2000),
    },
    Repeated {
        name: "levels far from each other",
        begin: "enter,BBB,1,XYZ,buy,limit,0.01,,1,,,\n",
        turn: "enter,AAA,1,XYZ,buy,limit,10000.00,,1,,,\ncancel,AAA,1,XYZ,,,,,,,,\n",
        turns: 400,
        counts: (801, 0),
    },
    Repeated {
        name: "references that share a bucket by the fixed seed",
        begin: "",
        turn: entered_and_cancelled!(0 29263 195704 532828 537457 1059851 1566817 1803028 2006492 2075656),
        turns: 20,
        counts: (800, 0),
    },
];

/// The order file of such a day.
fn text_of(rt: &(impl Abort + AllocGlobal), day: &Repeated) -> String {
    let mut text = String::from_str(rt.alloc(), HEADER).expect(rt, "memory");
    text.push_str(day.begin).expect(rt, "memory");
    for _ in 0..day.turns {
        text.push_str(day.turn).expect(rt, "memory");
    }
    text
}

/// The counts of a day. A clause sees nothing of it.
fn run(
    alloc: Global,
    segment: &mut impl Read,
    orders: &mut [impl Read],
    out: &mut impl Write,
) -> Result<(u64, u64), DayFault>
    requires { length orders.old ≤ MAX_FILES }
{
    let storage = Storage::with_fixed_seed(alloc);
    let report = run_alone(storage, segment, orders, out)?;
    Ok((report.accepted, report.refused))
}

/// Compares the counts of such a day.
fn has_counts(rt: &(impl Abort + AllocGlobal), day: &Repeated) {
    let text = text_of(rt, day);
    let (mut segment, mut orders) = (ONE.as_bytes(), [text.as_bytes()]);
    let mut out = Vec::new(rt.alloc());
    let answer = run(rt.alloc(), &mut segment, &mut orders, &mut out);
    assert!(rt; answer == Ok(day.counts), "{}", day.name);
}

#[test]
fn repeated_rows_are_all_counted(rt: HostRuntime) {
    for day in &DAYS {
        has_counts(&rt, day);
    }
}
