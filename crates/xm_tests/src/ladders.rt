//! A ladder's limits, as levels come and go.
use std::alloc::Allocator;
use std::process::Abort;
use xm_failing_alloc::Refusing;
use xm_ladders::{Ladder, Ladders, Level};
use xm_queues::Ends;
use xm_rules::{OrderKind, Restriction, Side};
use xm_ticks::Price;

/// A ladder under test, whose calls promise nothing.
#[derive(Drop)]
struct Steps<A: Allocator + Copy> {
    ladder: Ladder<A>,
}

impl<A: Allocator + Copy> Steps<A> {
    fn new(alloc: A) -> Steps<A> {
        Steps {
            ladder: Ladder::new(alloc),
        }
    }

    /// Reserves a kind, where memory allows, and puts in a level of one order of so many units.
    fn put(&mut self, kind: &OrderKind, units: u32) -> bool {
        if self.ladder.reserve(*kind, 1).is_err() {
            return false;
        }
        let level = Level {
            ends: Ends::new(),
            orders: 1,
            units: u64::from(units),
        };
        self.ladder.put(*kind, level);
        true
    }

    /// Leaves the level of a kind without an order.
    fn clear(&mut self, kind: &OrderKind) -> bool {
        if self.ladder.reserve(*kind, 0).is_err() {
            return false;
        }
        self.ladder.clear(*kind);
        true
    }

    fn units(&self, kind: &OrderKind) -> u64 {
        match self.ladder.level(*kind) {
            Some(level) => level.units,
            None => 0,
        }
    }

    /// The limits of a side from the best on, in ticks: the first and the second.
    fn best_two(&self, side: Side) -> (u32, u32) {
        match self.ladder.best_limit(side) {
            None => (0, 0),
            Some(best) => match self.ladder.next_limit(side, best) {
                None => (best.get(), 0),
                Some(next) => (best.get(), next.get()),
            },
        }
    }
}

fn limit(rt: &impl Abort, ticks: u32) -> OrderKind {
    OrderKind::Limit(Price::new(ticks).expect(rt, "a price in range"))
}

#[test]
fn limits_from_the_best_on(rt: HostRuntime) {
    let mut steps = Steps::new(rt.alloc());
    for ticks in [100u32, 98, 1_000_000] {
        assert!(rt; steps.put(&limit(&rt, ticks), ticks));
    }
    assert!(rt; steps.put(&OrderKind::Market, 7));
    assert!(rt; steps.best_two(Side::Buy) == (1_000_000, 100));
    assert!(rt; steps.best_two(Side::Sell) == (98, 100));
    for ticks in [1_000_000u32, 99] {
        assert!(rt; steps.clear(&limit(&rt, ticks)));
        assert!(rt; steps.units(&limit(&rt, ticks)) == 0);
    }
    assert!(rt; steps.best_two(Side::Buy) == (100, 98));
    assert!(rt; steps.units(&limit(&rt, 100)) == 100);
    assert!(rt; steps.units(&OrderKind::Market) == 7);
}

/// Puts in a level at each of some limits, each again where a growth is refused, and counts the refusals.
fn fill<A: Allocator + Copy>(rt: &impl Abort, alloc: A) -> u32 {
    let mut steps = Steps::new(alloc);
    let mut refused: u32 = 0;
    for ticks in [5u32, 5_000, 500_000] {
        let kind = limit(rt, ticks);
        if !steps.put(&kind, 3) {
            assert!(rt; steps.units(&kind) == 0);
            refused = refused.wrapping_add(1);
            assert!(rt; steps.put(&kind, 3));
        }
        assert!(rt; steps.units(&kind) == 3);
    }
    refused
}

#[test]
fn each_growth_of_a_ladder_is_refused(rt: HostRuntime) {
    let mut refused: u32 = 0;
    for nth in 1..30u64 {
        let alloc = Refusing::new(rt.alloc(), nth);
        let count = fill(&rt, &alloc);
        assert!(rt; (count == 1) == alloc.has_refused());
        refused = refused.wrapping_add(count);
    }
    assert!(rt; refused >= 8);
}

#[test]
fn ladders_of_two_sides(rt: HostRuntime) {
    let mut ladders = Ladders::new(rt.alloc());
    let level = Level {
        ends: Ends::new(),
        orders: 1,
        units: 9,
    };
    ladders
        .of_mut(Side::Sell)
        .of_mut(Restriction::AuctionsOnly)
        .put(OrderKind::Market, level);
    let found = ladders
        .of(Side::Sell)
        .of(Restriction::AuctionsOnly)
        .level(OrderKind::Market);
    match found {
        Some(level) => assert!(rt; level.units == 9),
        None => assert!(rt; false),
    }
}
