//! The walk over the active orders of a side, from the best one on.
use super::entries::Entries;
use super::{CLOSING, INTERRUPTION, INTRADAY, OPENING, compare_walk, enter};
use crate::auction::order;
use std::alloc::Allocator;
use std::process::Abort;
use xm_rules::{Order, Phase, Restriction, Side};
use xm_ticks::Price;

/// The orders of a side, each by its limit, if it has one, and its restriction, with references from 1 on; and what phases
/// show of them: the references by priority, and the best limit.
struct Example {
    side: Side,
    orders: &'static [(Option<u32>, Restriction)],
    shown: &'static [(Phase, &'static [u32], Option<u32>)],
}

const EXAMPLES: [Example; 2] = [
    Example {
        side: Side::Buy,
        orders: &[
            (Some(100), Restriction::Free),
            (None, Restriction::ClosingOnly),
            (Some(101), Restriction::Free),
            (Some(100), Restriction::AuctionsOnly),
            (None, Restriction::Free),
            (Some(102), Restriction::OpeningOnly),
            (Some(101), Restriction::Free),
            (None, Restriction::Free),
        ],
        shown: &[
            (Phase::PreTrading, &[], None),
            (OPENING, &[5, 8, 6, 3, 7, 1, 4], Some(102)),
            (INTRADAY, &[5, 8, 3, 7, 1, 4], Some(101)),
            (INTERRUPTION, &[5, 8, 3, 7, 1, 4], Some(101)),
            (CLOSING, &[2, 5, 8, 3, 7, 1, 4], Some(101)),
            (Phase::Continuous, &[5, 8, 3, 7, 1], Some(101)),
            (Phase::PostTrading, &[], None),
        ],
    },
    Example {
        side: Side::Sell,
        orders: &[
            (Some(105), Restriction::Free),
            (Some(102), Restriction::ClosingOnly),
            (Some(104), Restriction::Free),
            (None, Restriction::OpeningOnly),
            (Some(104), Restriction::AuctionsOnly),
            (Some(103), Restriction::Free),
            (None, Restriction::Free),
        ],
        shown: &[
            (Phase::PreTrading, &[], None),
            (OPENING, &[4, 7, 6, 3, 5, 1], Some(103)),
            (INTRADAY, &[7, 6, 3, 5, 1], Some(103)),
            (INTERRUPTION, &[7, 6, 3, 5, 1], Some(103)),
            (CLOSING, &[7, 2, 6, 3, 5, 1], Some(102)),
            (Phase::Continuous, &[7, 6, 3, 1], Some(103)),
            (Phase::Ended, &[], None),
        ],
    },
];

/// A book of the orders of an example.
fn filled<A: Allocator + Copy>(rt: &impl Abort, alloc: A, example: &Example) -> Entries<A> {
    let mut book = Entries::new(alloc);
    let mut reference: u32 = 0;
    for (limit, restriction) in example.orders {
        reference = reference.wrapping_add(1);
        let entered = Order {
            restriction: *restriction,
            ..order(example.side, reference, *limit, 10)
        };
        enter(rt, &mut book, entered);
    }
    book
}

/// Compares what phases show of a side, and that they show nothing of the other one.
fn compare<A: Allocator + Copy>(rt: &impl Abort, book: &Entries<A>, example: &Example) {
    for (phase, references, best_limit) in example.shown {
        compare_walk(rt, book, example.side, *phase, references);
        let best = book.best_limit(example.side, *phase);
        assert!(rt; best == best_limit.and_then(Price::new));
        compare_walk(rt, book, example.side.opposite(), *phase, &[]);
        assert!(rt; book.best_limit(example.side.opposite(), *phase).is_none());
    }
}

#[test]
fn orders_by_priority(rt: HostRuntime) {
    for example in &EXAMPLES {
        compare(&rt, &filled(&rt, rt.alloc(), example), example);
    }
}
