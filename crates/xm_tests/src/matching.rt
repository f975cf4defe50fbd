//! Sweeps of continuous trading on worked examples.
use crate::auction::{enter, order};
use crate::book::entries::Entries;
use std::alloc::Allocator;
use std::process::Abort;
use xm_book::Trades;
use xm_match::Swept;
use xm_rules::{Side, Trade, TradeKind};
use xm_ticks::Price;

/// The orders of a side, each by its limit, if it has one, and its units, with references from 1 on; an incoming order of the
/// other side, and what becomes of it where the last price is 1,000 ticks: each trade by its price, its units and the
/// reference of the resting order.
struct Example {
    side: Side,
    resting: &'static [(Option<u32>, u32)],
    limit: Option<u32>,
    units: u32,
    trades: &'static [(u32, u32, u32)],
    rest: u32,
    // The price in ticks that interrupts trading, if one does.
    interruption: Option<u32>,
    fillable: bool,
}

const EXAMPLES: [Example; 11] = [
    // The best limit first, then the earlier.
    Example {
        side: Side::Sell,
        resting: &[(Some(1000), 5), (Some(999), 1), (Some(1000), 5)],
        limit: Some(1000),
        units: 8,
        trades: &[(999, 1, 2), (1000, 5, 1), (1000, 2, 3)],
        rest: 0,
        interruption: None,
        fillable: true,
    },
    // A market order at the best limit of its side, which is better than the reference.
    Example {
        side: Side::Sell,
        resting: &[(Some(985), 5), (None, 10)],
        limit: Some(1010),
        units: 12,
        trades: &[(985, 10, 2), (985, 2, 1)],
        rest: 0,
        interruption: None,
        fillable: true,
    },
    Example {
        side: Side::Buy,
        resting: &[(Some(1015), 5), (None, 10)],
        limit: Some(990),
        units: 12,
        trades: &[(1015, 10, 2), (1015, 2, 1)],
        rest: 0,
        interruption: None,
        fillable: true,
    },
    // A market order at the reference, and at the incoming limit.
    Example {
        side: Side::Buy,
        resting: &[(Some(995), 5), (None, 10)],
        limit: Some(990),
        units: 10,
        trades: &[(1000, 10, 2)],
        rest: 0,
        interruption: None,
        fillable: true,
    },
    Example {
        side: Side::Buy,
        resting: &[(Some(995), 5), (None, 10)],
        limit: Some(1010),
        units: 12,
        trades: &[(1010, 10, 2)],
        rest: 2,
        interruption: None,
        fillable: false,
    },
    // Units are left where the next order is met outside a range: it lies around the price before the first fill.
    Example {
        side: Side::Sell,
        resting: &[(Some(1020), 5), (Some(1021), 5)],
        limit: Some(1030),
        units: 8,
        trades: &[(1020, 5, 1)],
        rest: 3,
        interruption: Some(1021),
        fillable: false,
    },
    // None is left there.
    Example {
        side: Side::Sell,
        resting: &[(Some(1020), 5), (Some(1021), 5)],
        limit: None,
        units: 5,
        trades: &[(1020, 5, 1)],
        rest: 0,
        interruption: None,
        fillable: true,
    },
    // Market orders, and levels of several orders each, the last of which is outside a range.
    Example {
        side: Side::Sell,
        resting: &[
            (Some(1010), 2),
            (None, 3),
            (Some(1005), 4),
            (Some(1021), 5),
            (Some(1005), 1),
            (None, 2),
            (Some(1010), 2),
            (Some(1021), 5),
        ],
        limit: Some(1030),
        units: 14,
        trades: &[
            (1000, 3, 2),
            (1000, 2, 6),
            (1005, 4, 3),
            (1005, 1, 5),
            (1010, 2, 1),
            (1010, 2, 7),
        ],
        rest: 0,
        interruption: None,
        fillable: true,
    },
    // A unit more than they have.
    Example {
        side: Side::Buy,
        resting: &[
            (Some(990), 2),
            (None, 3),
            (Some(995), 4),
            (Some(979), 5),
            (Some(995), 1),
            (None, 2),
            (Some(990), 2),
            (Some(979), 5),
        ],
        limit: Some(970),
        units: 15,
        trades: &[
            (1000, 3, 2),
            (1000, 2, 6),
            (995, 4, 3),
            (995, 1, 5),
            (990, 2, 1),
            (990, 2, 7),
        ],
        rest: 1,
        interruption: Some(979),
        fillable: false,
    },
    // Market orders that are met outside a range, at the best limit of their side: the order inside is behind them.
    Example {
        side: Side::Buy,
        resting: &[(Some(1021), 5), (None, 10), (Some(1005), 5)],
        limit: Some(1000),
        units: 5,
        trades: &[],
        rest: 5,
        interruption: Some(1021),
        fillable: false,
    },
    // No order is met.
    Example {
        side: Side::Sell,
        resting: &[(Some(1005), 5)],
        limit: Some(1000),
        units: 5,
        trades: &[],
        rest: 5,
        interruption: None,
        fillable: false,
    },
];

/// The reference of the incoming order.
const INCOMING: u32 = 100;

/// Whether a trade has this price, these units and this reference of the resting order.
fn is_trade(trade: &Trade, resting: Side, expected: &(u32, u32, u32)) -> bool {
    let (price, quantity, reference) = *expected;
    let references = match resting {
        Side::Buy => (trade.buy_ref, trade.sell_ref),
        Side::Sell => (trade.sell_ref, trade.buy_ref),
    };
    trade.price.get() == price
        && trade.quantity == quantity
        && references == (reference, INCOMING)
        && trade.sweep == 1
        && trade.kind == TradeKind::Continuous
}

fn are_trades(example: &Example, made: &[Trade]) -> bool {
    if made.len() != example.trades.len() {
        return false;
    }
    for (trade, expected) in made.iter().zip(example.trades) {
        if !is_trade(trade, example.side, expected) {
            return false;
        }
    }
    true
}

/// Executes the incoming order of an example, and compares what becomes of it.
fn run<A: Allocator + Copy>(rt: &impl Abort, alloc: A, example: &Example) {
    let mut book = Entries::new(alloc);
    enter(rt, &mut book, example.side, 1, example.resting);
    let incoming = order(
        example.side.opposite(),
        INCOMING,
        example.limit,
        example.units,
    );
    let last = Price::new(1000).expect(rt, "a price in range");
    assert!(rt; book.fillable(&incoming, last) == example.fillable);
    let mut trades = Trades::new(alloc);
    let found = book.sweep(&incoming, last, &mut trades);
    let expected = Swept {
        filled: example.units.wrapping_sub(example.rest),
        rest: example.rest,
        interruption: example.interruption.and_then(Price::new),
    };
    assert!(rt; found == Ok(expected));
    assert!(rt; are_trades(example, trades.as_slice()));
}

#[test]
fn sweeps(rt: HostRuntime) {
    for example in &EXAMPLES {
        run(&rt, rt.alloc(), example);
    }
}
