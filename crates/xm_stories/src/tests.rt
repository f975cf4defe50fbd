//! A story on its happy path.
use crate::around::{After, Before, Touched};
use crate::stories::seen_story;
use std::alloc::Global;
use std::process::Abort;
use std::test::Fail;
use xm_events::{Deletion, Entry, Event, Fill, PriceRange};
use xm_rules::{
    Auction, CallStage, Command, Condition, Kind, Order, OrderKind, Phase, Restriction, Side, Stop,
    Trade, TradeKind, Validity, Widths,
};
use xm_ticks::Price;

fn price(rt: &impl Abort, ticks: u32) -> Price {
    Price::new(ticks).expect(rt, "a price in range")
}

/// The first member's immediate order, of which so much is left.
fn order(rt: &impl Abort, rest: u32) -> Order {
    Order {
        member: 0,
        reference: 1,
        kind: OrderKind::Limit(price(rt, 1000)),
        rest,
        validity: Validity::Day,
        side: Side::Buy,
        restriction: Restriction::Free,
    }
}

fn stop() -> Stop {
    Stop {
        member: 2,
        reference: 9,
        side: Side::Sell,
        trigger: 1000,
        becomes: OrderKind::Market,
        quantity: 3,
        validity: Validity::Day,
    }
}

fn trade(
    rt: &impl Abort,
    sweep: u64,
    ticks: u32,
    quantity: u32,
    buy_ref: u32,
    seller: u32,
) -> Trade {
    Trade {
        sweep,
        kind: TradeKind::Continuous,
        price: price(rt, ticks),
        quantity,
        buyer: 0,
        buy_ref,
        seller,
        sell_ref: 9,
    }
}

fn fill(
    rt: &impl Abort,
    side: Side,
    ticks: u32,
    quantity: u32,
    member: u32,
    reference: u32,
) -> Event {
    Event::Filled(Fill {
        member,
        reference,
        side,
        kind: TradeKind::Continuous,
        price: price(rt, ticks),
        quantity,
        rest: 0,
    })
}

#[test]
fn an_immediate_order_triggers_a_stop_that_interrupts_trading(rt: HostRuntime) {
    let before: Before<Global> = Before {
        phase: Phase::Continuous,
        sweeps: 4,
        widths: Widths {
            dynamic: 20,
            statics: 50,
            wide: 40,
        },
        last: price(&rt, 990),
        touched: Touched::Nothing,
    };
    let after = After {
        phase: Phase::Call(Auction::Interruption, CallStage::Interrupted),
        sweeps: 6,
        interruption: Some(price(&rt, 950)),
    };
    let command = Command::Enter {
        member: 0,
        reference: 1,
        side: Side::Buy,
        kind: Kind::Limit(1000),
        quantity: 15,
        validity: Validity::Day,
        restriction: Restriction::Free,
        condition: Condition::Ioc,
    };
    let trades = [trade(&rt, 5, 1000, 10, 1, 1), trade(&rt, 6, 985, 3, 7, 2)];
    let told = [
        Event::Accepted(Entry::Order(order(&rt, 15))),
        fill(&rt, Side::Buy, 1000, 10, 0, 1),
        fill(&rt, Side::Sell, 1000, 10, 1, 9),
        Event::Deleted(Entry::Order(order(&rt, 5)), Deletion::ImmediateOrCancel),
        Event::Triggered(stop()),
        fill(&rt, Side::Buy, 985, 3, 0, 7),
        fill(&rt, Side::Sell, 985, 3, 2, 9),
        Event::Interrupted(price(&rt, 950), PriceRange::Dynamic),
        Event::Began(Phase::Call(Auction::Interruption, CallStage::Interrupted)),
    ];
    let events = seen_story(rt.alloc(), &command, &before, &after, &trades, &[stop()]);
    let events = events.expect(&rt, "memory");
    assert!(rt; events.len() == told.len());
    for (event, wanted) in events.iter().zip(&told) {
        assert!(rt; event == wanted);
    }
}
