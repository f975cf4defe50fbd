//! The price of a call.
ghost use Rattle.std.specs.Prelude.{◌≡◌, List, Some};
ghost use Rattle.xm_auction.specs.Covered.{best_covered};
ghost use Rattle.xm_auction.specs.Prices.{IsPriceOfCall, executed};
ghost use Rattle.xm_rules.specs.Auction.{auction_price};
ghost use Rattle.xm_rules.specs.declared.orders.Order.{Order};
ghost use Rattle.xm_rules.specs.declared.orders.Side.TheVariants.{Buy, Sell};
ghost use Rattle.xm_rules.specs.declared.phases.Phase.{Phase};

use crate::covered::Covered;
use crate::depth::Depth;
use crate::narrowing::near_crossing;
use std::alloc::Allocator;
use xm_book::Book;
use xm_rules::{Phase, Side};
use xm_ticks::Price;

/// The price of a call in this phase, in ticks, with the units that are executed at it, where any can be. The reference
/// is the last price. It takes no memory, and looks at few levels, however many cross.
pub fn auction_price<A: Allocator + Copy>(
    book: &Book<A>,
    phase: Phase,
    reference: Price,
) -> Option<(Price, u64)>
    ensures { result ≡ auction_price phase book.now.orders reference }
{
    let demand = Depth::of_market(book, Side::Buy, phase);
    let supply = Depth::of_market(book, Side::Sell, phase);
    let start = near_crossing(book, phase, &demand, &supply);
    let buys = Covered::best_from(book, phase, &start.0, &start.1);
    let sells = Covered::best_from(book, phase, &start.1, &start.0);
    match found_price(buys, sells, reference) {
        Some(found) => executed(found),
        None => executed((reference, demand.units.min(supply.units))),
    }
}

/// A price with its volume, where there is any.
fn executed(found: (Price, u64)) -> Option<(Price, u64)>
    ensures { result ≡ executed found }
{
    if found.1 == 0 { None } else { Some(found) }
}

/// The best candidate with its volume, or the price between two; nothing where there is no candidate.
fn found_price(
    buys: Option<Covered>,
    sells: Option<Covered>,
    reference: Price,
) -> Option<(Price, u64)>
    ensures { (phase : Phase) (orders : List Order) → buys ≡ best_covered phase orders Buy → sells ≡ best_covered phase orders Sell
        → IsPriceOfCall phase orders reference result }
{
    match buys {
        None => match sells {
            None => None,
            Some(sell) => Some((sell.price, sell.volume)),
        },
        Some(buy) => match sells {
            None => Some((buy.price, buy.volume)),
            Some(sell) => Some(price_between(&buy, &sell, reference)),
        },
    }
}

/// The better of the two; the reference kept between them where they are as good as each other, or where no
/// side has a surplus, as they are then the highest and the lowest candidate without one.
fn price_between(buy: &Covered, sell: &Covered, reference: Price) -> (Price, u64)
    ensures { (phase : Phase) (orders : List Order) → Some buy.now ≡ best_covered phase orders Buy → Some sell.now ≡ best_covered phase orders Sell
        → IsPriceOfCall phase orders reference (Some result) }
{
    if sell.price.get() <= buy.price.get() {
        return (reference.kept_between(sell.price, buy.price), buy.volume);
    }
    if buy.is_preferred(sell) {
        (buy.price, buy.volume)
    } else if sell.is_preferred(buy) {
        (sell.price, sell.volume)
    } else {
        (reference.kept_between(buy.price, sell.price), buy.volume)
    }
}
