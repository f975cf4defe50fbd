pub mod entries;
mod growths;
mod levels;
mod priority;
mod time_order;
mod trades;

use entries::Entries;
use std::alloc::Allocator;
use std::process::Abort;
use xm_rules::{Auction, CallStage, Order, OrderKind, Phase, Restriction, Side, Validity};
use xm_ticks::Price;

const OPENING: Phase = Phase::Call(Auction::Opening, CallStage::Ordinary);

const INTRADAY: Phase = Phase::Call(Auction::Intraday, CallStage::Extended);

const CLOSING: Phase = Phase::Call(Auction::Closing, CallStage::Interrupted);

const INTERRUPTION: Phase = Phase::Call(Auction::Interruption, CallStage::Interrupted);

fn limit(rt: &impl Abort, price: u32) -> OrderKind {
    OrderKind::Limit(Price::new(price).expect(rt, "a price in range"))
}

/// A free order of member 0.
fn order(side: Side, reference: u32, kind: OrderKind) -> Order {
    Order {
        member: 0,
        reference,
        side,
        kind,
        rest: 10,
        validity: Validity::Day,
        restriction: Restriction::Free,
    }
}

/// Puts in an order that the book can take.
fn enter<A: Allocator + Copy>(rt: &impl Abort, book: &mut Entries<A>, order: Order) {
    assert!(rt; matches!(book.enter(order), Ok(true)));
}

/// Compares an answer with the order that is expected.
fn found(rt: &impl Abort, answer: Option<Order>, expected: Order) {
    assert!(rt; answer == Some(expected));
}

/// Compares the references of the active orders of a side, by priority.
fn compare_walk<A: Allocator + Copy>(
    rt: &impl Abort,
    book: &Entries<A>,
    side: Side,
    phase: Phase,
    references: &[u32],
) {
    let mut next = book.best(side, phase);
    for reference in references {
        match next {
            None => panic!(rt; "no order in place of {reference}"),
            Some(order) => {
                assert!(rt; order.reference == *reference);
                next = book.next_after(side, phase, order);
            }
        }
    }
    assert!(rt; next.is_none());
}
