//! A day of cascades that eight workers share, run a hundred times: whatever their order, the lines of each statement agree.
use super::statement_of;
use crate::files::fixtures::{HEADER, replaced};
use std::process::Abort;
use std::sync::Wait;
use std::thread::Threads;

const RUNS: u32 = 100;

const WORKERS: u32 = 8;

const MEMBERS: usize = 8;

/// How many securities `SEGMENT` has. The cascades of the last one are cut off by interruptions.
const SECURITIES: usize = 4;

const SEGMENT: &str = securities!(
    "\"M0\", \"M1\", \"M2\", \"M3\", \"M4\", \"M5\", \"M6\", \"M7\"",
    "S0" => 100,
    "S1" => 100,
    "S2" => 100,
    "S3" => 20
);

/// What is entered with a price: an order with that limit, or a stop with that trigger, which becomes a market order.
#[derive(Clone, Copy)]
enum Kind {
    Order,
    Stop,
}

/// What each member enters on each security in a turn.
#[derive(Clone, Copy)]
struct Turn {
    reference: u32,
    side: &'static str,
    kind: Kind,
    /// The lowest of its eleven prices, in cents. Each member has another one.
    lowest: usize,
    quantity: u32,
}

macro_rules! order {
    ($reference:expr, $side:expr, $lowest:expr, $quantity:expr) => {
        Turn {
            reference: $reference,
            side: $side,
            kind: Kind::Order,
            lowest: $lowest,
            quantity: $quantity,
        }
    };
}

macro_rules! stop {
    ($reference:expr, $side:expr, $lowest:expr) => {
        Turn {
            reference: $reference,
            side: $side,
            kind: Kind::Stop,
            lowest: $lowest,
            quantity: 5,
        }
    };
}

/// The lowest reference of a stop.
const STOPS: i64 = 100;

/// Before trading: orders of which no two meet around the reference 10.00, and stops on either side.
const CALL: [Turn; 4] = [
    order!(1, "buy", 988, 5),
    order!(2, "sell", 1002, 5),
    stop!(101, "sell", 988),
    stop!(102, "buy", 1002),
];

/// In trading: larger orders, down, up and down again. Each member begins with the first of them, so whoever comes first on a
/// security takes the best four of eight orders, and reaches a stop whose trigger is among their prices.
const TRADING: [Turn; 5] = [
    order!(3, "sell", 970, 20),
    stop!(103, "sell", 965),
    order!(4, "buy", 1012, 40),
    stop!(104, "buy", 1017),
    order!(5, "sell", 970, 40),
];

/// An order file, and how many rows it stands for.
#[derive(Drop)]
struct Orders {
    text: String,
    rows: i64,
}

/// Adds the row of a phase of all securities.
fn add_phase(rt: &(impl Abort + AllocGlobal), orders: &mut Orders, phase: &str) {
    let row = (format!(in rt.alloc(); "{phase},,,*,,,,,,,,\n")).expect(rt, "memory");
    orders.text.push_str(row.as_str()).expect(rt, "memory");
    orders.rows = orders.rows.wrapping_add(SECURITIES as i64);
}

/// Adds what a member enters on a security in a turn.
fn add_entry(
    rt: &(impl Abort + AllocGlobal),
    orders: &mut Orders,
    turn: &Turn,
    member: usize,
    security: usize,
) {
    let step = member
        .wrapping_mul(7)
        .wrapping_add(security.wrapping_mul(5))
        % 11;
    let price = turn.lowest.wrapping_add(step);
    let (euros, cents) = (price / 100, price % 100);
    let (before, after) = match turn.kind {
        Kind::Order => ("limit,", ","),
        Kind::Stop => ("stop-market,,", ""),
    };
    let (reference, side, quantity) = (turn.reference, turn.side, turn.quantity);
    let row = format!(in rt.alloc();
        "enter,M{member},{reference},S{security},{side},{before}{euros}.{cents:02}{after},{quantity},,,\n"
    );
    orders
        .text
        .push_str(row.expect(rt, "memory").as_str())
        .expect(rt, "memory");
    orders.rows = orders.rows.wrapping_add(1);
}

/// Adds what all members enter in these turns. Each begins with a security of its own.
fn add_turns(rt: &(impl Abort + AllocGlobal), orders: &mut Orders, turns: &[Turn]) {
    for turn in turns {
        for place in 0..SECURITIES {
            for member in 0..MEMBERS {
                let security = place.wrapping_add(member) % SECURITIES;
                add_entry(rt, orders, turn, member, security);
            }
        }
    }
}

/// The order file of the day.
fn order_file(rt: &(impl Abort + AllocGlobal)) -> Orders {
    let mut orders = Orders {
        text: String::from_str(rt.alloc(), HEADER).expect(rt, "memory"),
        rows: 0,
    };
    add_phase(rt, &mut orders, "open");
    add_turns(rt, &mut orders, &CALL);
    add_phase(rt, &mut orders, "uncross");
    add_turns(rt, &mut orders, &TRADING);
    add_phase(rt, &mut orders, "close");
    add_phase(rt, &mut orders, "uncross");
    add_phase(rt, &mut orders, "end");
    orders
}

/// A word of a line, counted from 0.
fn word<'a>(rt: &impl Abort, line: &'a str, place: usize) -> &'a str {
    line.split(' ').nth(place).expect(rt, "a word")
}

/// A number in a line.
fn number(rt: &impl Abort, line: &str, place: usize) -> i64 {
    let number = word(rt, line, place).parse::<i64>();
    number.ok().expect(rt, "a number")
}

/// Money in a line, in ten-thousandths of a euro: it has four decimals.
fn money(rt: &(impl Abort + AllocGlobal), line: &str, place: usize) -> i64 {
    let text = word(rt, line, place);
    let (_, decimals) = text.split_once('.').expect(rt, "a point");
    assert!(rt; decimals.len() == 4, "{text}");
    let digits = replaced(rt.alloc(), text, ".", "").expect(rt, "memory");
    digits.as_str().parse::<i64>().ok().expect(rt, "money")
}

/// The index of a member that a line names.
fn member(rt: &impl Abort, line: &str, place: usize) -> usize {
    let name = word(rt, line, place);
    let digits = name.strip_prefix('M').expect(rt, "a member");
    let index = digits.parse::<usize>().ok().expect(rt, "a number");
    assert!(rt; index < MEMBERS);
    index
}

/// A trade of a statement. Its money is in ten-thousandths of a euro.
#[derive(Clone, Copy)]
struct Trade {
    buyer: usize,
    seller: usize,
    quantity: i64,
    money: i64,
    /// Whether a stop was one of its orders.
    is_of_stop: bool,
}

/// The trade that a line tells of.
fn trade_in(rt: &(impl Abort + AllocGlobal), line: &str) -> Trade {
    let quantity = number(rt, line, 4);
    Trade {
        buyer: member(rt, line, 5),
        seller: member(rt, line, 7),
        quantity,
        money: money(rt, line, 3).wrapping_mul(quantity),
        is_of_stop: number(rt, line, 6) >= STOPS || number(rt, line, 8) >= STOPS,
    }
}

/// Units and money, in ten-thousandths of a euro.
#[derive(Clone, Copy, PartialEq, Eq)]
struct Sum {
    units: i64,
    money: i64,
}

const NOTHING: Sum = Sum { units: 0, money: 0 };

impl Sum {
    fn with(self, units: i64, money: i64) -> Sum {
        Sum {
            units: self.units.wrapping_add(units),
            money: self.money.wrapping_add(money),
        }
    }
}

/// What the lines of a security come to.
#[derive(Clone, Copy)]
struct Block {
    /// What each member with a trade bought less what it sold, and received less what it paid, until a line tells it.
    untold: [Option<Sum>; MEMBERS],
    /// The sum of what lines told of members.
    told: Sum,
    /// The sum of the trades.
    total: Sum,
    has_stop: bool,
}

const NO_LINES: Block = Block {
    untold: [None; MEMBERS],
    told: NOTHING,
    total: NOTHING,
    has_stop: false,
};

impl Block {
    /// Counts a trade.
    fn trade(&mut self, rt: &impl Abort, trade: &Trade) {
        let Trade {
            quantity,
            money,
            ..
        } = *trade;
        self.count(rt, trade.buyer, quantity, money.wrapping_neg());
        self.count(rt, trade.seller, quantity.wrapping_neg(), money);
        self.total = self.total.with(quantity, money);
        self.has_stop = self.has_stop || trade.is_of_stop;
    }

    fn count(&mut self, rt: &impl Abort, member: usize, units: i64, money: i64) {
        let sum = self.untold.get_mut(member).expect(rt, "a member");
        *sum = Some(sum.unwrap_or(NOTHING).with(units, money));
    }

    /// Compares the net position that a line tells of a member, once.
    fn net(&mut self, rt: &(impl Abort + AllocGlobal), line: &str) {
        let (units, money) = (number(rt, line, 2), money(rt, line, 3));
        let member = member(rt, line, 1);
        let sum = self.untold.get_mut(member).expect(rt, "a member");
        assert!(rt; *sum == Some(Sum { units, money }), "{line}");
        *sum = None;
        self.told = self.told.with(units, money);
    }

    /// Compares the total that a line tells, after which nothing is untold.
    fn total(&self, rt: &(impl Abort + AllocGlobal), line: &str) {
        let (units, money) = (number(rt, line, 1), money(rt, line, 2));
        assert!(rt; self.total == Sum { units, money }, "{line}");
        assert!(rt; self.told == NOTHING && self.untold == [None; MEMBERS]);
        assert!(rt; self.has_stop);
    }
}

/// Compares the lines of a statement among themselves, and its rows.
fn agree(rt: &(impl Abort + AllocGlobal), statement: &str, rows: i64) {
    let mut block = NO_LINES;
    let (mut totals, mut counted) = (0usize, 0);
    for line in statement.lines() {
        match word(rt, line, 0) {
            "SECURITY" => block = NO_LINES,
            "TRADE" => block.trade(rt, &trade_in(rt, line)),
            "NET" => block.net(rt, line),
            "TOTAL" => {
                block.total(rt, line);
                totals = totals.wrapping_add(1);
            }
            "ROWS" => counted = number(rt, line, 1).wrapping_add(number(rt, line, 2)),
            _ => {}
        }
    }
    assert!(rt; totals == SECURITIES && counted == rows);
}

/// Runs the day, and compares the lines of its statement.
fn run_once(rt: &(impl Abort + AllocGlobal + Threads + Wait + Sync), orders: &Orders) {
    let statement = statement_of(rt, SEGMENT, orders.text.as_str(), WORKERS);
    let text = str::from_utf8(statement.as_slice())
        .ok()
        .expect(rt, "a text");
    agree(rt, text, orders.rows);
}

#[test]
fn a_hundred_days_of_cascades(rt: HostRuntime) {
    let orders = order_file(&rt);
    for _ in 0..RUNS {
        run_once(&rt, &orders);
    }
}
