//! The price and the allotment of a call on worked examples.
use crate::book::entries::Entries;
use std::alloc::Allocator;
use std::process::Abort;
use xm_book::Trades;
use xm_rules::{
    Auction, CallStage, Order, OrderKind, Phase, Restriction, Side, Trade, TradeKind, Validity,
};
use xm_ticks::Price;

/// The orders of a call, each by its limit, if it has one, and its units; and what it gives at a reference.
struct Example {
    buys: &'static [(Option<u32>, u32)],
    sells: &'static [(Option<u32>, u32)],
    prices: &'static [(u32, Option<(u32, u64)>)],
}

const EXAMPLES: [Example; 9] = [
    // Two buys meet two sells.
    Example {
        buys: &[(Some(102), 30), (Some(101), 40)],
        sells: &[(Some(100), 20), (Some(101), 30)],
        prices: &[(1000, Some((101, 50)))],
    },
    // A surplus of buys, and one of sells.
    Example {
        buys: &[(Some(103), 50)],
        sells: &[(Some(100), 30)],
        prices: &[(1000, Some((103, 30))), (1, Some((103, 30)))],
    },
    Example {
        buys: &[(Some(103), 30)],
        sells: &[(Some(100), 50)],
        prices: &[(1000, Some((100, 30))), (1, Some((100, 30)))],
    },
    // A surplus of buys at one limit and an equal one of sells at another.
    Example {
        buys: &[(Some(100), 10), (Some(90), 5)],
        sells: &[(Some(90), 10), (Some(100), 5)],
        prices: &[
            (95, Some((95, 10))),
            (105, Some((100, 10))),
            (80, Some((90, 10))),
        ],
    },
    // No surplus at two limits.
    Example {
        buys: &[(Some(100), 10)],
        sells: &[(Some(90), 10)],
        prices: &[
            (95, Some((95, 10))),
            (105, Some((100, 10))),
            (80, Some((90, 10))),
        ],
    },
    // A surplus of buys at the lower limit, which is less than that of sells at the higher one.
    Example {
        buys: &[(Some(100), 10), (Some(90), 3)],
        sells: &[(Some(90), 10), (Some(100), 5)],
        prices: &[(95, Some((90, 10)))],
    },
    // Market orders alone, on both sides and on one.
    Example {
        buys: &[(None, 10)],
        sells: &[(None, 4)],
        prices: &[(1000, Some((1000, 4)))],
    },
    // A market order meets a limit.
    Example {
        buys: &[(None, 10)],
        sells: &[(Some(1005), 3)],
        prices: &[(1000, Some((1005, 3)))],
    },
    // Limits that don't cross.
    Example {
        buys: &[(Some(99), 10)],
        sells: &[(Some(100), 10)],
        prices: &[(1000, None)],
    },
];

/// A free order of the first member, which is valid for the day.
pub fn order(side: Side, reference: u32, limit: Option<u32>, rest: u32) -> Order {
    let kind = match limit.and_then(Price::new) {
        None => OrderKind::Market,
        Some(price) => OrderKind::Limit(price),
    };
    Order {
        member: 0,
        reference,
        side,
        kind,
        rest,
        validity: Validity::Day,
        restriction: Restriction::Free,
    }
}

/// Puts in the orders of a side, with references from this one on.
pub fn enter<A: Allocator + Copy>(
    rt: &impl Abort,
    book: &mut Entries<A>,
    side: Side,
    first: u32,
    orders: &[(Option<u32>, u32)],
) {
    let mut reference = first;
    for (limit, rest) in orders {
        let entered = order(side, reference, *limit, *rest);
        assert!(rt; matches!(book.enter(entered), Ok(true)));
        reference = reference.wrapping_add(1);
    }
}

/// The price, in ticks, and the volume of the opening call of a book at a reference.
fn price_at<A: Allocator + Copy>(
    rt: &impl Abort,
    book: &Entries<A>,
    reference: u32,
) -> Option<(u32, u64)> {
    let opening = Phase::Call(Auction::Opening, CallStage::Ordinary);
    let last = Price::new(reference).expect(rt, "a price in range");
    match book.auction_price(opening, last) {
        None => None,
        Some((price, volume)) => Some((price.get(), volume)),
    }
}

#[test]
fn prices_of_calls(rt: HostRuntime) {
    for example in &EXAMPLES {
        let mut book = Entries::new(rt.alloc());
        enter(&rt, &mut book, Side::Buy, 1, example.buys);
        enter(&rt, &mut book, Side::Sell, 100, example.sells);
        for (reference, found) in example.prices {
            assert!(&rt; price_at(&rt, &book, *reference) == *found);
        }
    }
}

/// A trade of the call: its units, and the references of the buy and of the sell.
fn is_trade(trade: &Trade, quantity: u32, buy: u32, sell: u32) -> bool {
    trade.quantity == quantity
        && trade.buy_ref == buy
        && trade.sell_ref == sell
        && trade.sweep == 1
        && trade.price.get() == 101
        && trade.kind == TradeKind::Auction(Auction::Opening, CallStage::Ordinary)
}

/// Whether these are the trades of the first example.
fn are_trades(made: &[Trade]) -> bool {
    made.len() == 3
        && is_trade(&made[0], 20, 1, 100)
        && is_trade(&made[1], 10, 1, 101)
        && is_trade(&made[2], 20, 2, 101)
}

#[test]
fn trades_of_a_call(rt: HostRuntime) {
    let example = &EXAMPLES[0];
    let mut book = Entries::new(rt.alloc());
    enter(&rt, &mut book, Side::Buy, 1, example.buys);
    enter(&rt, &mut book, Side::Sell, 100, example.sells);
    let mut trades = Trades::new(rt.alloc());
    let last = Price::new(1000).expect(&rt, "a price in range");
    let found = book.uncross(Auction::Opening, CallStage::Ordinary, last, &mut trades);
    assert!(rt; matches!(found, Ok(Some(_))));
    assert!(rt; are_trades(trades.as_slice()));
    let left = book.orders().expect(&rt, "memory");
    assert!(rt; left.as_slice() == [order(Side::Buy, 2, Some(101), 20)].as_slice());
}
