//! Five days in a row, whose commands are drawn. Each opens with what the day before left.
use super::drawn::{Draw, RESTRICTIONS, SIDES, VALIDITIES, add, kind};
use crate::files::fixtures::HEADER;
use std::process::Abort;
use xm_day::carry_alone;
use xm_name_index::Storage;

/// The dates of the later days. Between some of them lie days on which orders end.
const LATER: [&str; 4] = ["20260106", "20260108", "20260109", "20260112"];

/// A carry file without an entry.
const NONE: &str = carried!("");

const NAMES: [&str; 2] = ["XYZ", "UVW"];

/// How many orders and stops are entered behind each phase.
const ENTRIES: u32 = 60;

const MEMBERS: [&str; 8] = ["AAA", "BBB", "CCC", "DDD", "AAA", "BBB", "CCC", "DDD"];

const SECURITIES: [&str; 8] = ["XYZ", "UVW", "XYZ", "UVW", "XYZ", "UVW", "XYZ", "UVW"];

/// Adds the row of an order or a stop.
fn add_entry(
    rt: &(impl Abort + AllocGlobal),
    draw: &mut Draw,
    orders: &mut String,
    reference: u32,
) {
    let (member, security) = (draw.word(rt, &MEMBERS), draw.word(rt, &SECURITIES));
    let (side, kind) = (draw.word(rt, &SIDES), kind(rt, draw));
    let (quantity, validity) = (draw.octal(), draw.word(rt, &VALIDITIES));
    let restriction = draw.word(rt, &RESTRICTIONS);
    let row = format!(in rt.alloc();
        "enter,{member},{reference},{security},{side},{kind},{quantity},{validity},{restriction},\n"
    );
    add(rt, orders, row.expect(rt, "memory").as_str());
}

/// Adds the row of a phase of all securities.
fn add_phase(rt: &(impl Abort + AllocGlobal), orders: &mut String, phase: &str) {
    let row = format!(in rt.alloc(); "{phase},,,*,,,,,,,,\n");
    add(rt, orders, row.expect(rt, "memory").as_str());
}

/// The phases of a day. Behind each of them members enter orders and stops.
const PHASES: [&str; 6] = ["open", "uncross", "intraday", "uncross", "close", "uncross"];

/// The order file of a day, whose references begin with this number.
fn order_file(rt: &(impl Abort + AllocGlobal), draw: &mut Draw, first: u32) -> String {
    let mut orders = String::from_str(rt.alloc(), HEADER).expect(rt, "memory");
    let mut reference = first;
    for phase in PHASES {
        add_phase(rt, &mut orders, phase);
        for _ in 0..ENTRIES {
            add_entry(rt, draw, &mut orders, reference);
            reference = reference.wrapping_add(1);
        }
    }
    add_phase(rt, &mut orders, "end");
    orders
}

/// The segment file of a day, with these reference prices.
fn segment_file(rt: &(impl Abort + AllocGlobal), date: &str, references: [&str; 2]) -> String {
    let top = format!(in rt.alloc();
        "date = {date}\nmembers = [\"AAA\", \"BBB\", \"CCC\", \"DDD\"]\n"
    );
    let mut segment = top.expect(rt, "memory");
    for (name, reference) in NAMES.iter().zip(references) {
        let security = format!(in rt.alloc();
            "[[security]]\nname = \"{name}\"\ntick = 100\nreference = \"{reference}\"\n"
        );
        add(rt, &mut segment, security.expect(rt, "memory").as_str());
        add(
            rt,
            &mut segment,
            "dynamic = 60\nstatic = 90\nwide = 120\njournal = 10000\n",
        );
    }
    segment
}

/// What a day wrote.
#[derive(Drop)]
struct Written {
    statement: Vec<u8>,
    left: Vec<u8>,
}

/// Runs a day.
fn run(rt: &(impl Abort + AllocGlobal), segment: &str, carry: &[u8], orders: &str) -> Written {
    let storage = Storage::with_fixed_seed(rt.alloc());
    let (mut statement, mut left) = (Vec::new(rt.alloc()), Vec::new(rt.alloc()));
    let (mut segment, mut carry, mut orders) = (segment.as_bytes(), carry, [orders.as_bytes()]);
    let report = carry_alone(
        storage,
        &mut segment,
        &mut carry,
        &mut orders,
        &mut statement,
        &mut left,
    );
    assert!(rt; report.is_ok());
    Written { statement, left }
}

/// The text of what was written.
fn text<'a>(rt: &impl Abort, bytes: &'a [u8]) -> &'a str {
    str::from_utf8(bytes).ok().expect(rt, "a text")
}

/// The prices of the last trades, as a statement tells them.
fn last_prices<'a>(rt: &impl Abort, statement: &'a str) -> [&'a str; 2] {
    let mut prices = [""; 2];
    let mut place = 0usize;
    for line in statement.lines() {
        if let Some(references) = line.strip_prefix("REFERENCES ") {
            let price = prices.get_mut(place).expect(rt, "a security");
            *price = references.split(' ').next().expect(rt, "a price");
            place = place.wrapping_add(1);
        }
    }
    prices
}

/// Whether a line of a statement tells of an order or a stop.
fn is_entry(line: &str) -> bool {
    line.starts_with("ORDER ") || line.starts_with("STOP ")
}

/// Whether a line tells of an order or a stop that is valid on this date.
fn is_valid(rt: &impl Abort, line: &str, date: u32) -> bool {
    let place = if line.starts_with("STOP ") { 7 } else { 6 };
    match line.split(' ').nth(place).expect(rt, "a validity") {
        "gtc" => true,
        "day" => false,
        last => last.parse::<u32>().ok().expect(rt, "a date") >= date,
    }
}

/// The lines of the orders and stops of a statement that are valid on this date, and how many there are.
fn entries(rt: &(impl Abort + AllocGlobal), statement: &str, date: u32) -> (String, usize) {
    let mut lines = String::new(rt.alloc());
    let mut count = 0usize;
    for line in statement.lines() {
        if is_entry(line) && is_valid(rt, line, date) {
            add(rt, &mut lines, line);
            add(rt, &mut lines, "\n");
            count = count.wrapping_add(1);
        }
    }
    (lines, count)
}

/// Compares what the day of a segment file opens with, before any row, and what is left of the day before: the same, less what has
/// expired. So many entries have.
fn opens_with(
    rt: &(impl Abort + AllocGlobal),
    segment: &str,
    date: &str,
    before: &Written,
) -> usize {
    let opened = run(rt, segment, before.left.as_slice(), HEADER);
    let today = date.parse::<u32>().ok().expect(rt, "a date");
    let (_, all) = entries(rt, text(rt, before.statement.as_slice()), 0);
    let (valid, count) = entries(rt, text(rt, before.statement.as_slice()), today);
    let (begun, _) = entries(rt, text(rt, opened.statement.as_slice()), today);
    assert!(rt; count > 0 && begun.as_str() == valid.as_str(), "{date}");
    all.wrapping_sub(count)
}

/// A day that begins with what the one before it left, with the prices of its last trades as references, and takes these orders.
fn next_day(
    rt: &(impl Abort + AllocGlobal),
    date: &str,
    before: &Written,
    orders: &str,
) -> (Written, usize) {
    let prices = last_prices(rt, text(rt, before.statement.as_slice()));
    let segment = segment_file(rt, date, prices);
    let expired = opens_with(rt, segment.as_str(), date, before);
    (
        run(rt, segment.as_str(), before.left.as_slice(), orders),
        expired,
    )
}

#[test]
fn five_days_in_a_row(rt: HostRuntime) {
    let mut draw = Draw { state: 20_260_105 };
    let segment = segment_file(&rt, "20260105", ["10.00"; 2]);
    let orders = order_file(&rt, &mut draw, 0);
    let mut day = run(&rt, segment.as_str(), NONE.as_bytes(), orders.as_str());
    let (mut expired, mut first) = (0usize, 0u32);
    for date in LATER {
        first = first.wrapping_add(10_000);
        let orders = order_file(&rt, &mut draw, first);
        let (next, ended) = next_day(&rt, date, &day, orders.as_str());
        expired = expired.wrapping_add(ended);
        day = next;
    }
    assert!(rt; expired > 0);
}
