//! The list of trades.
use std::alloc::Allocator;
use std::process::Abort;
use xm_book::Trades;
use xm_failing_alloc::Refusing;
use xm_memory::OutOfMemory;
use xm_rules::{Auction, CallStage, Trade, TradeKind};
use xm_ticks::Price;

fn trade(rt: &impl Abort, kind: TradeKind, ticks: u32) -> Trade {
    Trade {
        sweep: 1,
        kind,
        price: Price::new(ticks).expect(rt, "a price in range"),
        quantity: 5,
        buyer: 0,
        buy_ref: 1,
        seller: 1,
        sell_ref: 1,
    }
}

/// Adds a trade, in room that is reserved for it.
fn add<A: Allocator>(trades: &mut Trades<A>, trade: Trade) -> Result<(), OutOfMemory> {
    trades.reserve(1)?;
    trades.push(trade);
    Ok(())
}

/// Whether these two are the trades of a list.
fn are(list: &[Trade], first: &Trade, second: &Trade) -> bool {
    list.len() == 2 && list[0] == *first && list[1] == *second
}

#[test]
fn trades_in_the_order_in_which_they_are_made(rt: HostRuntime) {
    let opening = TradeKind::Auction(Auction::Opening, CallStage::Ordinary);
    let first = trade(&rt, opening, 990);
    let second = trade(&rt, TradeKind::Continuous, 1010);
    let alloc = Refusing::new(rt.alloc(), 1);
    let mut trades = Trades::new(&alloc);
    assert!(rt; add(&mut trades, first).is_err() && alloc.has_refused());
    assert!(rt; trades.as_slice().is_empty());
    assert!(rt; add(&mut trades, first).is_ok() && add(&mut trades, second).is_ok());
    assert!(rt; are(trades.as_slice(), &first, &second));
}
