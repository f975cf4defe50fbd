//! Events of the life of an order, and of the phases of a security.

use xm_rules::{Order, Phase, Side, Stop, TradeKind};
use xm_ticks::Price;

/// An order, or a stop that is held apart from the book.
#[derive(Clone, Copy, PartialEq, Eq, Debug)]
pub enum Entry {
    Order(Order),
    Stop(Stop),
}

/// One side of a trade: what it takes of the order on this side.
#[derive(Clone, Copy, PartialEq, Eq, Debug)]
pub struct Fill {
    /// The index of the member.
    pub member: u32,
    pub reference: u32,
    pub side: Side,
    /// Where the trade was made.
    pub kind: TradeKind,
    pub price: Price,
    /// The units of the trade.
    pub quantity: u32,
    /// The units of the order that are left behind this trade.
    pub rest: u32,
}

/// Why the market deletes what is left of an order or a stop.
#[derive(Clone, Copy, PartialEq, Eq, Debug)]
pub enum Deletion {
    /// An immediate-or-cancel order was executed as far as it could be.
    ImmediateOrCancel,
    /// A fill-or-kill order couldn't be executed whole.
    FillOrKill,
    /// It isn't valid beyond the day that ended.
    EndOfDay,
}

/// A range that a price was outside of.
#[derive(Clone, Copy, PartialEq, Eq, Debug)]
pub enum PriceRange {
    /// Around the last price.
    Dynamic,
    /// Around the last auction price.
    Static,
    /// Around the last price, for the end of an interrupted call.
    Wide,
}

/// What happened.
#[derive(Clone, Copy, PartialEq, Eq, Debug)]
pub enum Event {
    /// An order came in, or a stop is held, with all its units.
    Accepted(Entry),
    /// An order has another quantity, or another limit; this is the order from then on, before it trades.
    Changed(Order),
    /// A trade took units of an order.
    Filled(Fill),
    /// A stop was reached, and comes in as an order.
    Triggered(Stop),
    /// Its member deleted an order or a stop, of which this was left.
    Cancelled(Entry),
    /// The market deleted an order or a stop, of which this was left.
    Deleted(Entry, Deletion),
    /// Trading was interrupted, or a call goes on, since this price was outside a range.
    Interrupted(Price, PriceRange),
    /// A phase began.
    Began(Phase),
}
