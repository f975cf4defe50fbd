//! Held stops: which are reached at a last price, and in what order they come in.
mod growths;
mod held;

use held::Held;
use std::alloc::Allocator;
use std::process::Abort;
use xm_rules::{OrderKind, Side, Stop, Validity};
use xm_ticks::Price;

/// The stops of a side by their triggers, with references from 1 on, and last prices, one after the other: each with the
/// references of the stops that come in then, and how many are pending still.
struct Example {
    side: Side,
    triggers: &'static [u32],
    prices: &'static [(u32, &'static [u32], usize)],
}

const EXAMPLES: [Example; 6] = [
    // A sell stop at its trigger and below.
    Example {
        side: Side::Sell,
        triggers: &[990, 985, 990, 991],
        prices: &[
            (992, &[], 0),
            (990, &[1, 3, 4], 0),
            (986, &[], 0),
            (985, &[2], 0),
        ],
    },
    // A buy stop at its trigger and above.
    Example {
        side: Side::Buy,
        triggers: &[1010, 1015, 1010, 1009],
        prices: &[
            (1008, &[], 0),
            (1010, &[1, 3, 4], 0),
            (1014, &[], 0),
            (1015, &[2], 0),
        ],
    },
    // Triggers at both ends of the range of prices.
    Example {
        side: Side::Buy,
        triggers: &[1, 1_000_000],
        prices: &[(999_999, &[1], 0), (1_000_000, &[2], 0)],
    },
    Example {
        side: Side::Sell,
        triggers: &[1, 1_000_000],
        prices: &[(1_000_000, &[2], 0), (2, &[], 0), (1, &[1], 0)],
    },
    // In order of entry, not of trigger.
    Example {
        side: Side::Sell,
        triggers: &[985, 995, 980, 990, 970],
        prices: &[(980, &[1, 2, 3, 4], 0)],
    },
    // Those that are reached later stand behind the pending ones, which stay pending though the price turns.
    Example {
        side: Side::Sell,
        triggers: &[980, 990, 985, 990],
        prices: &[(990, &[2], 1), (1000, &[], 1), (980, &[4, 1, 3], 0)],
    },
];

fn price(rt: &impl Abort, ticks: u32) -> Price {
    Price::new(ticks).expect(rt, "a price in range")
}

/// A stop of member 0 for ten units, valid to the end of the day, that becomes a market order.
fn stop(side: Side, reference: u32, trigger: u32) -> Stop {
    Stop {
        member: 0,
        reference,
        side,
        trigger,
        becomes: OrderKind::Market,
        quantity: 10,
        validity: Validity::Day,
    }
}

/// Enters the stops of an example.
fn enter<A: Allocator + Copy>(rt: &impl Abort, stops: &mut Held<A>, example: &Example) {
    let mut reference: u32 = 0;
    for trigger in example.triggers {
        reference = reference.wrapping_add(1);
        assert!(rt; stops.enter(stop(example.side, reference, *trigger)) == Ok(true));
    }
}

/// The stops of an example with these references come in, in this order.
fn come_in<A: Allocator + Copy>(rt: &impl Abort, stops: &mut Held<A>, references: &[u32]) {
    for reference in references {
        match stops.pop() {
            None => panic!(rt; "no stop in place of {reference}"),
            Some(stop) => assert!(rt; stop.reference == *reference),
        }
    }
}

#[test]
fn reached_stops(rt: HostRuntime) {
    for example in &EXAMPLES {
        let mut stops = Held::new(rt.alloc());
        enter(&rt, &mut stops, example);
        for (last, references, pending) in example.prices {
            assert!(rt; stops.take_reached(price(&rt, *last)).is_ok());
            come_in(&rt, &mut stops, references);
            assert!(rt; stops.pending_len() == *pending);
        }
    }
}
