//! The sweep of continuous trading: an incoming order takes the orders of the other side, the best first.
ghost use Rattle.std.specs.Prelude.{◌≡◌, ◌+◌, ◌++◌, ◌≤◌, length};
ghost use Rattle.xm_match.specs.Meeting.{EachUsesUp, sweep_over, trade_up_to};
ghost use Rattle.xm_events.specs.Story.{interruption};
ghost use Rattle.xm_rules.specs.Sweep.{filled, orders_after_sweep, rest_after, sweep_trades};
ghost use Rattle.xm_ticks.specs.declared.ranges.TheConstants.{MAX_WIDTH};

use crate::meeting::{Next, meets_any, next_met};
use crate::terms::Terms;
use std::alloc::Allocator;
use xm_book::{Book, Trades};
use xm_rules::{Order, Trade, TradeKind, Widths};
use xm_ticks::Price;

/// What a sweep came to.
#[derive(Clone, Copy, PartialEq, Eq, Debug)]
pub struct Swept {
    /// The units that were executed.
    pub filled: u32,
    /// The units of the incoming order that are left.
    pub rest: u32,
    /// The price that interrupts trading, if one does: units are left, and the next order is met at it, outside a range.
    pub interruption: Option<Price>,
}

/// Executes an incoming order against the other side of a book, in order of priority, as long as the next order is met at a
/// price inside both ranges. The ranges are those around the references, the price of the last trade and that of the last
/// auction trade, before the first fill; their widths are in thousandths, at most `MAX_WIDTH`. There is room for as many trades as
/// there are orders. The trades bear the number of the sweep. It takes no memory.
pub fn sweep<A: Allocator + Copy, B: Allocator>(
    book: &mut Book<A>,
    incoming: &Order,
    number: u64,
    ref1: Price,
    ref2: Price,
    widths: &Widths,
    trades: &mut Trades<B>,
) -> Swept
    requires dynamic { widths.now.dynamic ≤ MAX_WIDTH }
    requires statics { widths.now.statics ≤ MAX_WIDTH }
    requires room { length book.old.orders ≤ trades.old.room }
    ensures orders { book.new ≡ record book.old { orders = orders_after_sweep (sweep_over book.old.orders incoming.now ref1 ref2 widths.now) } }
    ensures trades { trades.new.trades ≡ trades.old.trades ++ sweep_trades number (sweep_over book.old.orders incoming.now ref1 ref2 widths.now) }
    ensures room { trades.new.room + length (sweep_trades number (sweep_over book.old.orders incoming.now ref1 ref2 widths.now)) ≡ trades.old.room }
    ensures used_up { EachUsesUp number (sweep_over book.old.orders incoming.now ref1 ref2 widths.now) }
    ensures filled { result.filled ≡ filled (sweep_over book.old.orders incoming.now ref1 ref2 widths.now) }
    ensures rest { result.rest ≡ rest_after (sweep_over book.old.orders incoming.now ref1 ref2 widths.now) }
    ensures interruption { result.interruption ≡ interruption (sweep_over book.old.orders incoming.now ref1 ref2 widths.now) }
{
    let _ = book.len(); // What every book keeps is known of one whose length is asked.
    if meets_any(book, incoming) {
        return sweep_met(book, incoming, number, ref1, ref2, widths, trades);
    }
    Swept {
        filled: 0,
        rest: incoming.rest,
        interruption: None,
    }
}

/// The same as `sweep`, trade by trade.
fn sweep_met<A: Allocator + Copy, B: Allocator>(
    book: &mut Book<A>,
    incoming: &Order,
    number: u64,
    ref1: Price,
    ref2: Price,
    widths: &Widths,
    trades: &mut Trades<B>,
) -> Swept
    requires dynamic { widths.now.dynamic ≤ MAX_WIDTH }
    requires statics { widths.now.statics ≤ MAX_WIDTH }
    requires room { length book.old.orders ≤ trades.old.room }
    ensures orders { book.new ≡ record book.old { orders = orders_after_sweep (sweep_over book.old.orders incoming.now ref1 ref2 widths.now) } }
    ensures trades { trades.new.trades ≡ trades.old.trades ++ sweep_trades number (sweep_over book.old.orders incoming.now ref1 ref2 widths.now) }
    ensures room { trades.new.room + length (sweep_trades number (sweep_over book.old.orders incoming.now ref1 ref2 widths.now)) ≡ trades.old.room }
    ensures used_up { EachUsesUp number (sweep_over book.old.orders incoming.now ref1 ref2 widths.now) }
    ensures filled { result.filled ≡ filled (sweep_over book.old.orders incoming.now ref1 ref2 widths.now) }
    ensures rest { result.rest ≡ rest_after (sweep_over book.old.orders incoming.now ref1 ref2 widths.now) }
    ensures interruption { result.interruption ≡ interruption (sweep_over book.old.orders incoming.now ref1 ref2 widths.now) }
{
    let _ = book.len(); // What every book keeps is known of one whose length is asked.
    let terms = Terms::new(book, incoming, ref1, ref2, widths);
    let mut rest = incoming.rest;
    let mut next = next_met(book, &terms, rest);
    while let Next::Inside(order) = next {
        let trade = trade_up_to(&order, &terms, number, rest);
        book.fill(&order, trade.quantity);
        rest -= trade.quantity;
        trades.push(trade);
        next = next_met(book, &terms, rest);
    }
    Swept {
        filled: incoming.rest - rest,
        rest,
        interruption: next.price_outside(),
    }
}

/// The trade with an order that is met, in what it has and no more than so many units.
fn trade_up_to(order: &Order, terms: &Terms, number: u64, units: u32) -> Trade
    ensures { result ≡ trade_up_to number terms.now units order.now }
{
    Trade::trade_between(
        number,
        TradeKind::Continuous,
        terms.price_of_kind(order.kind),
        order.rest.min(units),
        terms.incoming.side,
        &terms.incoming,
        order,
    )
}
