//! Orders, stops and trades.
ghost use Rattle.std.specs.Prelude.{◌≡◌, ◌&&◌, IsTrue, Some};
ghost use Rattle.xm_rules.specs.Active.{is_active};
ghost use Rattle.xm_rules.specs.Commands.{is_over, outlasts};
ghost use Rattle.xm_rules.specs.Opening.{is_carriable, is_carriable_stop, is_lasting, is_still_valid};
ghost use Rattle.xm_rules.specs.Orders.{accepts, limit_of, meets, trade_between};
ghost use Rattle.xm_rules.specs.Refusals.{is_given_in_range, is_limit_for_market};
ghost use Rattle.xm_rules.specs.Settling.{is_free, is_reached, order_of_stop};
ghost use Rattle.xm_rules.specs.Sides.{better, opposite, reaches};
ghost use Rattle.xm_rules.specs.Step.{changed_kind, changed_order, keeps_priority, same_limit};
ghost use Rattle.xm_rules.specs.Sums.{money_of};

use crate::commands::is_in_range;
use crate::phases::{Auction, CallStage, Phase};
use xm_ticks::Price;

/// A side of the book.
#[derive(Clone, Copy, PartialEq, Eq, Hash, Debug)]
pub enum Side {
    Buy,
    Sell,
}

impl Side {
    /// The other side.
    pub fn opposite(self) -> Side
        ensures { result ≡ opposite self }
    {
        match self {
            Side::Buy => Side::Sell,
            Side::Sell => Side::Buy,
        }
    }

    /// Whether a price in ticks is as high as another on the buy side, as low on the sell side.
    pub fn reaches(self, price: u32, other: u32) -> bool
        ensures { result ≡ reaches self price other }
    {
        match self {
            Side::Buy => other <= price,
            Side::Sell => price <= other,
        }
    }

    /// The better of two prices: the higher on the buy side, the lower on the sell side.
    pub fn better(self, price: Price, other: Price) -> Price
        ensures { result ≡ better self price other }
    {
        if self.reaches(price.get(), other.get()) {
            price
        } else {
            other
        }
    }
}

/// Whether an order has a limit.
#[derive(Clone, Copy, PartialEq, Eq, Hash, Debug)]
pub enum OrderKind {
    Market,
    Limit(Price),
}

impl OrderKind {
    /// Whether its limit, if it has one, is in range, as that of each typed order is.
    fn has_limit_in_range(self) -> bool
        ensures { result ≡ is_given_in_range (limit_of self) }
    {
        match self {
            OrderKind::Market => true,
            OrderKind::Limit(limit) => is_in_range(limit.get()),
        }
    }

    /// The limit, where there is one.
    pub fn limit(self) -> Option<Price>
        ensures { result ≡ limit_of self }
    {
        match self {
            OrderKind::Market => None,
            OrderKind::Limit(limit) => Some(limit),
        }
    }

    /// Whether an order of this kind on a side accepts a price.
    pub fn accepts(self, side: Side, price: Price) -> bool
        ensures { result ≡ accepts side self price }
    {
        match self {
            OrderKind::Market => true,
            OrderKind::Limit(limit) => side.reaches(limit.get(), price.get()),
        }
    }

    /// Whether an order of this kind on a side meets one of another kind on the other side.
    pub fn meets(self, side: Side, other: OrderKind) -> bool
        ensures { result ≡ meets side self other }
    {
        match other {
            OrderKind::Market => true,
            OrderKind::Limit(limit) => self.accepts(side, limit),
        }
    }

    /// Whether a change that gives this limit, or none, leaves the limit as it is.
    pub fn same_limit(self, given: Option<u32>) -> bool
        ensures { result ≡ same_limit given self }
    {
        match given {
            None => true,
            Some(price) => match self {
                OrderKind::Market => false,
                OrderKind::Limit(limit) => price == limit.get(),
            },
        }
    }

    /// The kind after a change that gives this limit, which is in range, or none.
    pub fn changed_kind(self, given: Option<u32>) -> OrderKind
        requires { IsTrue (is_given_in_range given) }
        ensures { result ≡ changed_kind given self }
    {
        match given {
            None => self,
            Some(price) => OrderKind::Limit(Price::new(price).unwrap()),
        }
    }
}

/// How long an order or a stop is valid. A date is compared as a number; no calendar is checked.
#[derive(Clone, Copy, PartialEq, Eq, Hash, Debug)]
pub enum Validity {
    Day,
    /// To the end of this date.
    TillDate(u32),
    TillCancelled,
}

impl Validity {
    /// Whether it ended before today.
    pub fn is_over(self, today: u32) -> bool
        ensures { result ≡ is_over today self }
    {
        match self {
            Validity::TillDate(date) => date < today,
            Validity::Day | Validity::TillCancelled => false,
        }
    }

    /// Whether it goes on after the end of today.
    pub fn outlasts(self, today: u32) -> bool
        ensures { result ≡ outlasts today self }
    {
        match self {
            Validity::Day => false,
            Validity::TillDate(date) => today < date,
            Validity::TillCancelled => true,
        }
    }

    /// Whether it goes on after the day of the entry.
    pub fn is_lasting(self) -> bool
        ensures { result ≡ is_lasting self }
    {
        match self {
            Validity::Day => false,
            Validity::TillDate(_) | Validity::TillCancelled => true,
        }
    }

    /// Whether what was entered on an earlier day is still valid today.
    pub fn is_still_valid(self, today: u32) -> bool
        ensures { result ≡ is_still_valid today self }
    {
        match self {
            Validity::Day => false,
            Validity::TillDate(date) => today <= date,
            Validity::TillCancelled => true,
        }
    }
}

/// In which phases of trading an order takes part.
#[derive(Clone, Copy, PartialEq, Eq, Hash, Debug)]
pub enum Restriction {
    Free,
    OpeningOnly,
    AuctionsOnly,
    ClosingOnly,
}

impl Restriction {
    /// Whether there is none.
    pub fn is_free(self) -> bool
        ensures { result ≡ is_free self }
    {
        self == Restriction::Free
    }

    /// Whether an order of this restriction is active in a phase.
    pub fn is_active(self, phase: Phase) -> bool
        ensures { result ≡ is_active phase self }
    {
        match phase {
            Phase::Call(auction, _) => match self {
                Restriction::Free | Restriction::AuctionsOnly => true,
                Restriction::OpeningOnly => auction == Auction::Opening,
                Restriction::ClosingOnly => auction == Auction::Closing,
            },
            Phase::Continuous => self.is_free(),
            Phase::PreTrading | Phase::PostTrading | Phase::Ended => false,
        }
    }
}

/// A live order of the book. Its name is its member and the member's own reference.
#[derive(Clone, Copy, PartialEq, Eq, Hash, Debug)]
pub struct Order {
    /// The index of the member.
    pub member: u32,
    pub reference: u32,
    pub kind: OrderKind,
    /// The units that are not executed yet.
    pub rest: u32,
    pub validity: Validity,
    // One byte each, and last, so that an order takes 32 bytes and not 36.
    pub side: Side,
    pub restriction: Restriction,
}

impl Order {
    /// Whether earlier days may have left it: its member is known, its units and its limit are in range, and it is valid beyond
    /// the day of its entry.
    pub fn is_carriable(&self, members: u32) -> bool
        ensures { result ≡ is_carriable members self.now }
    {
        self.member < members
            && is_in_range(self.rest)
            && self.kind.has_limit_in_range()
            && self.validity.is_lasting()
    }

    /// Whether it keeps its position in time under a change to this quantity, and to this limit if
    /// one is given: the limit stays, and the quantity doesn't rise.
    pub fn keeps_priority(&self, quantity: u32, limit: Option<u32>) -> bool
        ensures { result ≡ keeps_priority quantity limit self.now }
    {
        self.kind.same_limit(limit) && quantity <= self.rest
    }

    /// Whether a change that gives this limit, or none, would give one to a market order.
    pub fn is_limit_for_market(&self, limit: Option<u32>) -> bool
        ensures { result ≡ is_limit_for_market limit (Some self.now) }
    {
        limit.is_some() && self.kind == OrderKind::Market
    }

    /// The order that comes in again after such a change, whose limit is in range.
    pub fn changed_order(&self, quantity: u32, limit: Option<u32>) -> Order
        requires { IsTrue (is_given_in_range limit) }
        ensures { result ≡ changed_order quantity limit self.now }
    {
        Order {
            kind: self.kind.changed_kind(limit),
            rest: quantity,
            ..*self
        }
    }
}

/// A stop that is held apart from the book until the reference price reaches its trigger.
#[derive(Clone, Copy, PartialEq, Eq, Hash, Debug)]
pub struct Stop {
    /// The index of the member.
    pub member: u32,
    pub reference: u32,
    pub side: Side,
    /// The trigger in ticks.
    pub trigger: u32,
    /// The kind of the free order that it becomes.
    pub becomes: OrderKind,
    /// The quantity in units.
    pub quantity: u32,
    pub validity: Validity,
}

impl Stop {
    /// Whether earlier days may have left it: its trigger is in range, and they may have left the order that it becomes.
    pub fn is_carriable_stop(&self, members: u32) -> bool
        ensures { result ≡ is_carriable_stop members self.now }
    {
        is_in_range(self.trigger) && self.order_of_stop().is_carriable(members)
    }

    /// Whether the last price has reached its trigger.
    pub fn is_reached(&self, last: Price) -> bool
        ensures { result ≡ is_reached last self.now }
    {
        self.side.reaches(last.get(), self.trigger)
    }

    /// The free order that it becomes.
    pub fn order_of_stop(&self) -> Order
        ensures { result ≡ order_of_stop self.now }
    {
        Order {
            member: self.member,
            reference: self.reference,
            side: self.side,
            kind: self.becomes,
            rest: self.quantity,
            validity: self.validity,
            restriction: Restriction::Free,
        }
    }
}

/// Where a trade was made: in continuous trading, or at the end of a call.
#[derive(Clone, Copy, PartialEq, Eq, Hash, Debug)]
pub enum TradeKind {
    Continuous,
    Auction(Auction, CallStage),
}

/// A trade between a buy order and a sell order, each named by its member and reference.
#[derive(Clone, Copy, PartialEq, Eq, Hash, Debug)]
pub struct Trade {
    /// The number of the sweep or of the price determination that made it, from 1 in each security.
    pub sweep: u64,
    pub kind: TradeKind,
    pub price: Price,
    /// The quantity in units.
    pub quantity: u32,
    /// The index of the member that bought.
    pub buyer: u32,
    pub buy_ref: u32,
    /// The index of the member that sold.
    pub seller: u32,
    pub sell_ref: u32,
}

impl Trade {
    /// The trade between an order of this side and one of the other, of so many units.
    pub fn trade_between(
        sweep: u64,
        kind: TradeKind,
        price: Price,
        quantity: u32,
        side: Side,
        order: &Order,
        other: &Order,
    ) -> Trade
        ensures { result ≡ trade_between sweep kind price quantity side order.now other.now }
    {
        let (buy, sell) = match side {
            Side::Buy => (order, other),
            Side::Sell => (other, order),
        };
        Trade {
            sweep,
            kind,
            price,
            quantity,
            buyer: buy.member,
            buy_ref: buy.reference,
            seller: sell.member,
            sell_ref: sell.reference,
        }
    }
    /// The money that it moves, in ticks times units.
    pub fn money_of(&self) -> u64
        ensures { result ≡ money_of self.now }
    {
        u64::from(self.price.get()) * u64::from(self.quantity)
    }
}
