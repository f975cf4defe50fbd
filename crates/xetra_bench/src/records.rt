//! What drawn commands did, and a sum of all that their desks answered and showed.

use crate::draws::FACTOR;
use crate::loads::{LoadFault, Loaded};
use xm_rules::{Auction, Command, Order, Phase, Quote, Refusal, Reply, Stop, Trade};
use xm_ticks::Price;

/// Whether continuous trading was interrupted, and its call has not ended.
pub fn is_interruption(phase: Phase) -> bool {
    matches!(phase, Phase::Call(Auction::Interruption, _))
}

/// The numbers of commands and of what they left, and a sum in which each figure counts by its place.
#[derive(Drop)]
pub struct Record {
    pub sum: u64,
    pub accepted: u64,
    pub refused: u64,
    pub interruptions: u64,
    pub trades: u64,
    pub orders: u64,
    pub stops: u64,
    /// Whether memory sufficed to see all.
    pub is_whole: bool,
}

impl Record {
    /// Gives a command, and counts what it did: its reply or its refusal, and the quote after it.
    pub fn give(&mut self, loaded: &mut Loaded, command: &Command) {
        let was_continuous = loaded.phase().is_continuous();
        match loaded.apply(command) {
            Ok(reply) => self.add_reply(&reply),
            Err(refusal) => {
                self.refused = self.refused.wrapping_add(1);
                self.add(&[refusal.place() as u64]);
            }
        }
        let quote = loaded.quote();
        if was_continuous && is_interruption(quote.phase) {
            self.interruptions = self.interruptions.wrapping_add(1);
        }
        self.add_quote(&quote);
    }

    fn add(&mut self, figures: &[u64]) {
        for figure in figures {
            self.sum = self.sum.wrapping_mul(FACTOR).wrapping_add(*figure);
        }
    }

    fn add_phase(&mut self, phase: Phase) {
        match phase {
            Phase::PreTrading => self.add(&[0]),
            Phase::Call(auction, stage) => self.add(&[1, auction as u64, stage as u64]),
            Phase::Continuous => self.add(&[2]),
            Phase::PostTrading => self.add(&[3]),
            Phase::Ended => self.add(&[4]),
        }
    }

    fn add_reply(&mut self, reply: &Reply) {
        self.accepted = self.accepted.wrapping_add(1);
        let (version, first_trade, trades) = (reply.version, reply.first_trade, reply.trades);
        self.add(&[version, first_trade, trades, reply.quantity, reply.money]);
        self.add_phase(reply.phase);
    }

    fn add_quote(&mut self, quote: &Quote) {
        self.add(&[quote.version]);
        self.add_phase(quote.phase);
        let (best_buy, best_sell) = (ticks(quote.best_buy), ticks(quote.best_sell));
        let (ref1, ref2) = (u64::from(quote.ref1.get()), u64::from(quote.ref2.get()));
        self.add(&[best_buy, best_sell, ref1, ref2, quote.quantity]);
    }

    /// Adds the trades of a day, and the orders and the stops that are left.
    pub fn add_left(&mut self, loaded: &Loaded) {
        self.add_trades(loaded.trades());
        match loaded.orders() {
            Ok(orders) => self.add_orders(orders.as_slice()),
            Err(LoadFault) => self.is_whole = false,
        }
        match loaded.stops() {
            Ok(stops) => self.add_stops(stops.as_slice()),
            Err(LoadFault) => self.is_whole = false,
        }
    }

    /// The number of held stops.
    pub fn held(&mut self, loaded: &Loaded) -> u64 {
        match loaded.stops() {
            Ok(stops) => stops.len() as u64,
            Err(LoadFault) => {
                self.is_whole = false;
                0
            }
        }
    }

    fn add_trades(&mut self, trades: &[Trade]) {
        for trade in trades {
            let (price, quantity) = (u64::from(trade.price.get()), u64::from(trade.quantity));
            let (buyer, buy_ref) = (u64::from(trade.buyer), u64::from(trade.buy_ref));
            let (seller, sell_ref) = (u64::from(trade.seller), u64::from(trade.sell_ref));
            self.add(&[
                trade.sweep,
                price,
                quantity,
                buyer,
                buy_ref,
                seller,
                sell_ref,
            ]);
            self.trades = self.trades.wrapping_add(1);
        }
    }

    fn add_orders(&mut self, orders: &[Order]) {
        for order in orders {
            let (member, reference) = (u64::from(order.member), u64::from(order.reference));
            self.add(&[member, reference, u64::from(order.rest)]);
            self.orders = self.orders.wrapping_add(1);
        }
    }

    fn add_stops(&mut self, stops: &[Stop]) {
        for stop in stops {
            let (member, reference) = (u64::from(stop.member), u64::from(stop.reference));
            let (trigger, quantity) = (u64::from(stop.trigger), u64::from(stop.quantity));
            self.add(&[member, reference, trigger, quantity]);
            self.stops = self.stops.wrapping_add(1);
        }
    }
}

/// A price in ticks, or 0 where there is none.
fn ticks(price: Option<Price>) -> u64 {
    match price {
        None => 0,
        Some(price) => u64::from(price.get()),
    }
}
