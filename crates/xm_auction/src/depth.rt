//! The curve of a side, from its best limit on.
ghost use Rattle.std.specs.Prelude.{◌≡◌, ◌+◌, ◌≤◌, ◌<◌, ℕ, Some, None, Contains, true, false, IfSome, IfNone};
ghost use Rattle.xm_auction.specs.Depths.{depth_at, level_reached, reaches_price};
ghost use Rattle.xm_auction.specs.Narrowing.{IsDepthWithin, units_within};
ghost use Rattle.xm_price_maps.specs.declared.marks.TheConstants.{PRICES};
ghost use Rattle.xm_rules.specs.Auction.{accepting, candidates};

use std::alloc::Allocator;
use xm_book::Book;
use xm_rules::{Phase, Side};
use xm_ticks::Price;

/// The market orders of a side and its orders down to a limit, where there is one: their units, and the
/// level that comes next.
#[derive(Clone, Copy)]
pub struct Depth {
    pub side: Side,
    pub limit: Option<Price>,
    pub units: u64,
    pub next: Option<(Price, u64)>,
}

impl Depth {
    /// The market orders alone.
    pub fn of_market<A: Allocator + Copy>(book: &Book<A>, side: Side, phase: Phase) -> Depth
        ensures { result ≡ depth_at phase side None book.now.orders }
    {
        Depth {
            side,
            limit: None,
            units: book.market_sum(side, phase),
            next: book.level_after(side, phase, None),
        }
    }

    /// The market orders and those with a limit within a bound, whose units are known.
    pub fn within<A: Allocator + Copy>(
        book: &Book<A>,
        phase: Phase,
        side: Side,
        bound: u32,
        units: u64,
    ) -> Depth
        requires bound { bound + 1 < PRICES }
        requires units { units ≡ units_within phase side bound book.now.orders }
        ensures { IsDepthWithin phase book.now.orders side bound result }
    {
        match book.worst_within(side, phase, bound) {
            None => Depth::of_market(book, side, phase),
            Some(price) => Depth {
                side,
                limit: Some(price),
                units,
                next: book.level_after(side, phase, Some(price)),
            },
        }
    }

    /// With the next level.
    pub fn with_level<A: Allocator + Copy>(
        &self,
        book: &Book<A>,
        phase: Phase,
        level: (Price, u64),
    ) -> Depth
        requires depth { self.now ≡ depth_at phase self.now.side self.now.limit book.now.orders }
        requires next { self.now.next ≡ Some level }
        ensures { result ≡ depth_at phase self.now.side (Some level.0) book.now.orders }
    {
        // The rests of a book are in range, and so their sum is.
        let _ = book.len();
        Depth {
            side: self.side,
            limit: Some(level.0),
            units: self.units + level.1,
            next: book.level_after(self.side, phase, Some(level.0)),
        }
    }

    /// Whether the limit reaches a price.
    pub fn reaches_price(&self, price: Price) -> bool
        ensures { result ≡ reaches_price self.now.side self.now.limit price }
    {
        match self.limit {
            None => true,
            Some(limit) => self.side.reaches(limit.get(), price.get()),
        }
    }

    /// The next level, where the limit of another depth reaches it.
    pub fn next_reached(&self, from: &Depth) -> Option<(Price, u64)>
        ensures { result ≡ level_reached from.now self.now.next }
    {
        match self.next {
            None => None,
            Some(level) => {
                if from.reaches_price(level.0) {
                    Some(level)
                } else {
                    None
                }
            }
        }
    }

    /// With the fewest levels more that make so many units, or nothing where all make fewer.
    pub fn to_units<A: Allocator + Copy>(
        &self,
        book: &Book<A>,
        phase: Phase,
        units: u64,
    ) -> Option<Depth>
        requires depth { self.now ≡ depth_at phase self.now.side self.now.limit book.now.orders }
        requires limit { IfSome self.now.limit (Contains (candidates phase book.now.orders)) }
        ensures depth { IfSome result (λ d. d ≡ depth_at phase self.now.side d.limit book.now.orders) }
        ensures limit { IfSome result (λ d. IfSome d.limit (Contains (candidates phase book.now.orders))) }
        ensures enough { IfSome result (λ d. units ≤ d.units) }
        ensures before { IfSome result (λ d. (x : ℕ) → reaches_price self.now.side d.limit x ≡ false → reaches_price self.now.side self.now.limit x ≡ true → accepting phase book.now.orders self.now.side x < units) }
        ensures none { IfNone result ((x : ℕ) → accepting phase book.now.orders self.now.side x < units) }
    {
        let mut depth = *self;
        while depth.units < units {
            let level = depth.next?;
            depth = depth.with_level(book, phase, level);
        }
        Some(depth)
    }
}
