//! The allotment of a call: its volume goes, at its price, to the orders that are first in priority.
ghost use Rattle.std.specs.Prelude.{◌≡◌, ◌+◌, ◌-◌, ◌++◌, ◌<◌, ◌≤◌, Some, length};
ghost use Rattle.xm_auction.specs.Allotment.{UsesUpOrders, trade_of_two, uncrossing_of};
ghost use Rattle.xm_book.specs.Queues.{best_order};
ghost use Rattle.xm_rules.specs.Allotment.{auction_trades, orders_after_call};
ghost use Rattle.xm_rules.specs.Auction.{volume as executable};
ghost use Rattle.xm_rules.specs.declared.phases.Phase.TheVariants.{Call};

use std::alloc::Allocator;
use xm_book::{Book, Trades};
use xm_rules::{Auction, CallStage, Order, Phase, Side, Trade, TradeKind};
use xm_ticks::Price;

/// Allots the volume of a call, in units, at its price: the best buys trade with the best sells, until the volume is
/// reached. The volume is no more than what can be executed at the price, and there is room for as many trades as there
/// are orders. Each trade but the last uses up an order at least. The trades bear the number of the sweep. It takes no
/// memory.
pub fn allocate<A: Allocator + Copy, B: Allocator>(
    book: &mut Book<A>,
    auction: Auction,
    stage: CallStage,
    sweep: u64,
    price: Price,
    volume: u64,
    trades: &mut Trades<B>,
)
    requires volume { volume ≤ executable (Call auction stage) book.old.orders price }
    requires room { length book.old.orders ≤ trades.old.room }
    ensures orders { book.new ≡ record book.old { orders = orders_after_call (uncrossing_of auction stage book.old.orders price volume) } }
    ensures trades { trades.new.trades ≡ trades.old.trades ++ auction_trades sweep (uncrossing_of auction stage book.old.orders price volume) }
    ensures room { trades.new.room + length (auction_trades sweep (uncrossing_of auction stage book.old.orders price volume)) ≡ trades.old.room }
    ensures used { UsesUpOrders sweep (uncrossing_of auction stage book.old.orders price volume) }
{
    let _ = book.len(); // What every book keeps is known of one whose length is asked.
    let phase = Phase::Call(auction, stage);
    let kind = TradeKind::Auction(auction, stage);
    let mut best_buy = best_of(book, Side::Buy, phase);
    let mut best_sell = best_of(book, Side::Sell, phase);
    let mut left = volume;
    while 0 < left {
        let buy = best_buy.unwrap();
        let sell = best_sell.unwrap();
        let trade = trade_of(sweep, kind, price, left, &buy, &sell);
        book.fill(&buy, trade.quantity);
        book.fill(&sell, trade.quantity);
        best_buy = best_left(book, Side::Buy, phase, &buy, trade.quantity);
        best_sell = best_left(book, Side::Sell, phase, &sell, trade.quantity);
        left -= u64::from(trade.quantity);
        trades.push(trade);
    }
}

/// The trade between a buy and a sell, in what both have and no more than so many units.
fn trade_of(
    sweep: u64,
    kind: TradeKind,
    price: Price,
    units: u64,
    buy: &Order,
    sell: &Order,
) -> Trade
    ensures { result ≡ trade_of_two (record { sweep = sweep; kind = kind; price = price }) units buy.now sell.now }
{
    let quantity = u64::from(buy.rest.min(sell.rest)).min(units) as u32;
    Trade::trade_between(sweep, kind, price, quantity, Side::Buy, buy, sell)
}

/// The best active order of a side.
fn best_of<A: Allocator + Copy>(book: &Book<A>, side: Side, phase: Phase) -> Option<Order>
    ensures { result ≡ best_order phase side book.now.orders }
{
    book.best(side, phase).copied()
}

/// The best active order of a side after a trade of so many units of the one that was the best. One with units left is
/// still the best, and needs no look at the book.
fn best_left<A: Allocator + Copy>(
    book: &Book<A>,
    side: Side,
    phase: Phase,
    order: &Order,
    units: u32,
) -> Option<Order>
    requires { units < order.now.rest → best_order phase side book.now.orders ≡ Some (record order.now { rest = order.now.rest - units }) }
    ensures { result ≡ best_order phase side book.now.orders }
{
    if units < order.rest {
        let mut left = *order;
        left.rest -= units;
        Some(left)
    } else {
        best_of(book, side, phase)
    }
}
