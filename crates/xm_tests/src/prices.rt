//! The set of prices and the map from prices at the ends of words, of pages and of all, and between.
use std::alloc::Allocator;
use std::process::Abort;
use xm_failing_alloc::Refusing;
use xm_price_maps::{PRICES, PriceMap, PriceSet};

/// Prices in rising order, the lowest and the highest among them.
const EDGES: [u32; 12] = [
    0, 63, 64, 1_023, 1_024, 4_095, 4_096, 16_383, 16_384, 262_144, 1_048_512, 1_048_575,
];

/// The prices of a test, each with itself as its value. What its calls answer is for a test to
/// compare, so they promise nothing.
#[derive(Drop)]
struct Levels<A: Allocator + Copy> {
    used: PriceSet<A>,
    values: PriceMap<u32, A>,
}

impl<A: Allocator + Copy> Levels<A> {
    fn new(alloc: A) -> Levels<A> {
        Levels {
            used: PriceSet::new(alloc),
            values: PriceMap::new(alloc),
        }
    }

    /// Puts in a price, where memory allows, and answers whether it did.
    fn put(&mut self, price: u32) -> bool {
        if price >= PRICES {
            return false;
        }
        if self.used.reserve(price).is_err() || self.values.reserve(price).is_err() {
            return false;
        }
        self.used.insert(price);
        self.values.insert(price, price).is_none()
    }

    /// Takes out the value of a price, where it has room.
    fn take(&mut self, price: u32) -> Option<u32> {
        if price >= PRICES || !self.used.has_room(price) || !self.values.has_room(price) {
            return None;
        }
        self.used.remove(price);
        self.values.remove(price)
    }

    /// What the readers answer of a price: its value, the next price above it and below it, and the ends of all.
    fn shown(&self, price: u32) -> [Option<u32>; 5] {
        if price >= PRICES {
            return [None; 5];
        }
        let value = if self.used.contains(price) {
            self.values.get(price)
        } else {
            None
        };
        let (above, below) = (self.used.next_above(price), self.used.next_below(price));
        [value, above, below, self.used.first(), self.used.last()]
    }
}

/// Puts in a price, with memory where it is refused at first, and answers whether it was.
fn put_again<A: Allocator + Copy>(rt: &impl Abort, levels: &mut Levels<A>, price: u32) -> bool {
    let before = levels.shown(price);
    if levels.put(price) {
        return false;
    }
    assert!(rt; levels.shown(price) == before);
    assert!(rt; levels.put(price));
    true
}

/// Compares what is shown of all prices, the one after the other.
fn compare<A: Allocator + Copy>(rt: &impl Abort, levels: &Levels<A>) {
    let (mut below, mut next) = (None, EDGES.first().copied());
    for price in EDGES {
        assert!(rt; next == Some(price));
        let [value, above, lower, first, last] = levels.shown(price);
        assert!(rt; value == Some(price) && lower == below);
        assert!(rt; first == EDGES.first().copied() && last == EDGES.last().copied());
        below = Some(price);
        next = above;
    }
    assert!(rt; next.is_none());
}

/// Puts in all prices and takes them out, and answers how often memory was refused.
fn fill<A: Allocator + Copy>(rt: &impl Abort, alloc: A) -> u32 {
    let mut levels = Levels::new(alloc);
    let mut refused: u32 = 0;
    for price in EDGES {
        if put_again(rt, &mut levels, price) {
            refused = refused.wrapping_add(1);
        }
    }
    compare(rt, &levels);
    for price in EDGES {
        assert!(rt; levels.take(price) == Some(price));
        assert!(rt; levels.take(price).is_none());
    }
    assert!(rt; levels.shown(0) == [None; 5]);
    refused
}

#[test]
fn every_growth_is_refused_once(rt: HostRuntime) {
    assert!(rt; fill(&rt, rt.alloc()) == 0);
    let mut refused: u32 = 0;
    for nth in 1..60u64 {
        let alloc = Refusing::new(rt.alloc(), nth);
        let count = fill(&rt, &alloc);
        assert!(rt; (count == 1) == alloc.has_refused());
        refused = refused.wrapping_add(count);
    }
    // The set makes all its pages, two of upper words and one each for four prices; the map makes
    // all its pages, and one each for eight prices.
    assert!(rt; refused == 16);
}
