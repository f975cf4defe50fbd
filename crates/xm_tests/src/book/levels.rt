//! The levels of a side, and its market orders.
use super::entries::Entries;
use super::{CLOSING, OPENING, enter};
use crate::auction::order;
use std::alloc::Allocator;
use std::process::Abort;
use xm_rules::{Order, Phase, Restriction, Side};
use xm_ticks::Price;

/// A limit or none, the restriction, and the rest.
const BUYS: [(Option<u32>, Restriction, u32); 4] = [
    (Some(100), Restriction::Free, 5),
    (Some(100), Restriction::AuctionsOnly, 7),
    (Some(99), Restriction::Free, 3),
    (None, Restriction::Free, 4),
];

/// What a phase shows: the sum of market orders, then the levels from the best one on.
const SHOWN: [(Phase, u64, &[(u32, u64)]); 5] = [
    (Phase::PreTrading, 0, &[]),
    (OPENING, 4, &[(100, 12), (99, 3)]),
    (CLOSING, 4, &[(100, 12), (99, 3)]),
    (Phase::Continuous, 4, &[(100, 5), (99, 3)]),
    (Phase::PostTrading, 0, &[]),
];

#[test]
fn a_level_counts_its_active_orders_alone(rt: HostRuntime) {
    let mut book = Entries::new(rt.alloc());
    let mut reference: u32 = 0;
    for (limit, restriction, rest) in &BUYS {
        reference = reference.wrapping_add(1);
        let entered = Order {
            restriction: *restriction,
            ..order(Side::Buy, reference, *limit, *rest)
        };
        enter(&rt, &mut book, entered);
    }
    for (phase, market, levels) in &SHOWN {
        assert!(&rt; book.market_sum(Side::Buy, *phase) == *market);
        assert!(&rt; book.market_sum(Side::Sell, *phase) == 0);
        compare_levels(&rt, &book, *phase, levels);
    }
}

/// Compares the levels of the buy side with these, from the best one on.
fn compare_levels<A: Allocator + Copy>(
    rt: &impl Abort,
    book: &Entries<A>,
    phase: Phase,
    levels: &[(u32, u64)],
) {
    // No price is 0, so the first is the best of all.
    let mut after = 0;
    for (price, units) in levels {
        match book.level_after(Side::Buy, phase, &Price::new(after)) {
            None => panic!(rt; "no level at {price}"),
            Some((limit, sum)) => {
                assert!(rt; limit.get() == *price);
                assert!(rt; sum == *units);
            }
        }
        after = *price;
    }
    assert!(rt;
        book.level_after(Side::Buy, phase, &Price::new(after))
            .is_none()
    );
}
