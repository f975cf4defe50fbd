//! The units of a side within a bound, by sums over groups of prices.
ghost use Rattle.std.specs.Prelude.{◌≡◌, ◌+◌, ◌*◌, ◌<◌, ℕ, List, None, IfSome};
ghost use Rattle.xm_auction.specs.Depths.{depth_at};
ghost use Rattle.xm_auction.specs.Narrowing.{IsBeforeBest, IsBound, IsDepthWithin, IsNarrowed, IsNext, IsNextBound, IsNextWider};
ghost use Rattle.xm_price_maps.specs.Sums.{groups_of, places_of};
ghost use Rattle.xm_price_maps.specs.declared.sums.GroupWidth.TheVariants.{Middle};
ghost use Rattle.xm_price_maps.specs.declared.sums.GroupWidth.{GroupWidth};
ghost use Rattle.xm_rules.specs.declared.orders.Order.{Order};
ghost use Rattle.xm_rules.specs.declared.phases.Phase.{Phase};
ghost use Rattle.xm_ticks.specs.declared.numbers.TheConstants.{MAX_PRICE};

use crate::depth::Depth;
use std::alloc::Allocator;
use xm_book::Book;
use xm_price_maps::GroupWidth;
use xm_rules::{Phase, Side};
use xm_ticks::MAX_PRICE;

/// How many groups of the next narrower width a group has.
const GROUPS_IN_WIDER: u32 = 16;

/// A bound of a side between two groups of prices, as the number of the group above it, with the units of the market
/// orders and of the limits within it: those above it on the buy side, those not above it on the sell side.
#[derive(Clone, Copy)]
pub struct Bound {
    pub group: u32,
    pub units: u64,
}

/// Of the best limit of a side, whose market orders are given, how many prices are below it; of the worst that there
/// can be where no order has a limit.
fn prices_below(market: &Depth) -> u32
    ensures best { IfSome market.now.next (λ level. result + 1 ≡ level.0) }
    ensures high { result < MAX_PRICE }
{
    match market.next {
        Some(level) => level.0.get() - 1,
        None => match market.side {
            Side::Buy => 0,
            Side::Sell => MAX_PRICE - 1,
        },
    }
}

impl Bound {
    /// The last one before the best limit of a side, whose market orders are given.
    pub fn before_best(market: &Depth, width: GroupWidth) -> Bound
        ensures units { result.units ≡ market.now.units }
        ensures bound { (phase : Phase) (orders : List Order) → market.now ≡ depth_at phase market.now.side None orders → IsBeforeBest phase orders market.now.side width result }
    {
        let group = prices_below(market) / width.places();
        Bound {
            group: match market.side {
                Side::Buy => group + 1,
                Side::Sell => group,
            },
            units: market.units,
        }
    }

    /// The same between groups of the next narrower width; the last one before the best limit, where market orders alone
    /// lie within it.
    pub fn narrow(&self, market: &Depth, width: GroupWidth) -> Bound
        requires { self.now.group < groups_of Middle }
        ensures { (phase : Phase) (orders : List Order) (wider : GroupWidth) → IsNextWider wider width → market.now ≡ depth_at phase market.now.side None orders → IsBound phase orders market.now.side wider self.now → IsNarrowed phase orders market.now.side wider width self.now result }
    {
        if self.units == market.units {
            return Bound::before_best(market, width);
        }
        Bound {
            group: self.group * GROUPS_IN_WIDER,
            units: self.units,
        }
    }

    /// The number of the bound after the next group, where there is one.
    fn next(&self, side: Side, width: GroupWidth) -> Option<u32>
        requires { self.now.group < groups_of width }
        ensures next { IfSome result (IsNextBound side self.now.group) }
        ensures high { IfSome result (λ g. g < groups_of width) }
    {
        match side {
            Side::Buy => self.group.checked_sub(1),
            Side::Sell => {
                if self.group * width.places() < MAX_PRICE {
                    Some(self.group + 1)
                } else {
                    None
                }
            }
        }
    }

    /// With the next group, where there is one.
    pub fn with_group<A: Allocator + Copy>(
        &self,
        book: &Book<A>,
        phase: Phase,
        side: Side,
        width: GroupWidth,
    ) -> Option<Bound>
        requires { IsBound phase book.now.orders side width self.now }
        ensures { IfSome result (IsNext phase book.now.orders side width self.now) }
    {
        // The rests of a book are in range, and so their sum is.
        let _ = book.len();
        let group = self.next(side, width)?;
        let units = book.units_between(side, phase, width, group.min(self.group));
        Some(Bound {
            group,
            units: self.units + units,
        })
    }

    /// What a side, whose market orders are given, has within it.
    pub fn depth<A: Allocator + Copy>(
        &self,
        book: &Book<A>,
        phase: Phase,
        width: GroupWidth,
        market: &Depth,
    ) -> Depth
        requires market { market.now ≡ depth_at phase market.now.side None book.now.orders }
        requires bound { IsBound phase book.now.orders market.now.side width self.now }
        ensures { IsDepthWithin phase book.now.orders market.now.side (self.now.group * places_of width) result }
    {
        if self.units == market.units {
            return *market;
        }
        let bound = self.group * width.places();
        Depth::within(book, phase, market.side, bound, self.units)
    }
}
