//! A cascade of hundreds of stops: what it trades and leaves.
use super::day::{Day, Made, is_made};
use std::alloc::Allocator;
use std::process::Abort;
use xm_rules::{Command, Condition, Kind, Phase, Reply, Restriction, Side, Trade, Validity};

/// The opening, and two buys.
const BUYS: [Command; 4] = [
    Command::StartOpening,
    Command::Uncross,
    buy!(0, 1, 1000, 1),
    buy!(0, 2, 990, 300),
];

/// A sell that trades at 1000 and at 990, and so reaches each stop at 990.
pub const SELL: Command = sell!(1, 999, 990, 2);

/// A day with the two buys, and with so many sell stops of one unit at 990.
pub fn filled<A: Allocator + Copy>(rt: &impl Abort, alloc: A, stops: u32) -> Day<A> {
    let mut day = Day::open(rt, alloc, 1000);
    day.accept(rt, &BUYS);
    for reference in 0..stops {
        let stop = stop!(Sell, 1, reference + 1, Kind::StopMarket(990), 1);
        day.accept(rt, &[stop]);
    }
    day
}

/// The trade of this number, from 0 on: the sell makes two, and each stop after it one.
fn made(number: u32) -> Made {
    match number {
        0 => (3, 1000, 1, (0, 1), (1, 999)),
        1 => (3, 990, 1, (0, 2), (1, 999)),
        _ => {
            let stop = number.wrapping_sub(1);
            (u64::from(stop.wrapping_add(3)), 990, 1, (0, 2), (1, stop))
        }
    }
}

/// Compares the trades with those of their numbers.
fn are_numbered(rt: &impl Abort, trades: &[Trade]) {
    let mut number: u32 = 0;
    for trade in trades {
        assert!(rt; is_made(trade, made(number)), "at {number}");
        number = number.wrapping_add(1);
    }
}

/// The reply to the sell that reaches three hundred stops: the last of them finds no buy.
const REPLY: Reply = Reply {
    version: 305,
    first_trade: 0,
    trades: 301,
    quantity: 301,
    money: 298_000,
    phase: Phase::Continuous,
};

#[test]
fn three_hundred_stops(rt: HostRuntime) {
    let mut day = filled(&rt, rt.alloc(), 300);
    assert!(rt; day.apply(&rt, SELL) == Ok(REPLY));
    are_numbered(&rt, day.trades());
    day.has_left(&rt, &[(Side::Sell, 1, 300, 0, 1)], &[]);
}
