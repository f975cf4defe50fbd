//! The commands of a trading day. Their numbers are raw: a refusal says which is out of range.
ghost use Rattle.std.specs.Prelude.{◌≡◌, IsTrue};
ghost use Rattle.xm_rules.specs.Commands.{has_prices_in_range, is_bad_combination, is_book_or_cancel, is_for_trading, is_in_range, is_limit, is_stop, member_of, order_kind, trigger_of};
ghost use Rattle.xm_rules.specs.Refusals.{is_allowed, is_given_in_range};

use crate::orders::{OrderKind, Restriction, Side, Validity};
use crate::phases::Phase;
use xm_ticks::Price;

/// The most units of a quantity, and the most ticks of a price.
pub const MAX_NUMBER: u32 = 1_000_000;

/// Whether a quantity in units, or a price in ticks, is in its range, 1 to `MAX_NUMBER`.
pub fn is_in_range(number: u32) -> bool
    ensures { result ≡ is_in_range number }
{
    1 <= number && number <= MAX_NUMBER
}

/// Whether the limit that a change gives, if it gives one, is in range.
pub fn is_given_in_range(limit: Option<u32>) -> bool
    ensures { result ≡ is_given_in_range limit }
{
    match limit {
        None => true,
        Some(price) => is_in_range(price),
    }
}

/// The kind of an order or a stop that is entered, with prices in ticks.
#[derive(Clone, Copy, PartialEq, Eq, Hash, Debug)]
pub enum Kind {
    Market,
    Limit(u32),
    /// A stop with this trigger that becomes a market order.
    StopMarket(u32),
    /// A stop that becomes a limit order.
    StopLimit { trigger: u32, limit: u32 },
}

impl Kind {
    /// Whether it is a stop.
    pub fn is_stop(&self) -> bool
        ensures { result ≡ is_stop (trigger_of self.now) }
    {
        match self {
            Kind::Market | Kind::Limit(_) => false,
            Kind::StopMarket(_) | Kind::StopLimit { .. } => true,
        }
    }

    /// Whether it is a limit order, and no stop.
    pub fn is_limit(&self) -> bool
        ensures { result ≡ is_limit self.now }
    {
        match self {
            Kind::Limit(_) => true,
            Kind::Market | Kind::StopMarket(_) | Kind::StopLimit { .. } => false,
        }
    }

    /// The trigger of a stop, in ticks.
    pub fn trigger_of(self) -> Option<u32>
        ensures { result ≡ trigger_of self }
    {
        match self {
            Kind::Market | Kind::Limit(_) => None,
            Kind::StopMarket(trigger) | Kind::StopLimit { trigger, limit: _ } => Some(trigger),
        }
    }

    /// Whether each price that it gives is in range.
    pub fn has_prices_in_range(self) -> bool
        ensures { result ≡ has_prices_in_range self }
    {
        match self {
            Kind::Market => true,
            Kind::Limit(price) | Kind::StopMarket(price) => is_in_range(price),
            Kind::StopLimit { trigger, limit } => is_in_range(trigger) && is_in_range(limit),
        }
    }

    /// The kind of the order that is entered, or that a stop becomes. Its prices are in range.
    pub fn order_kind(self) -> OrderKind
        requires { IsTrue (has_prices_in_range self) }
        ensures { result ≡ order_kind self }
    {
        match self {
            Kind::Market | Kind::StopMarket(_) => OrderKind::Market,
            Kind::Limit(limit) | Kind::StopLimit { trigger: _, limit } => {
                OrderKind::Limit(Price::new(limit).unwrap())
            }
        }
    }
}

/// What an order asks for as it comes in.
#[derive(Clone, Copy, PartialEq, Eq, Hash, Debug)]
pub enum Condition {
    /// Nothing: what isn't executed at once joins the book.
    Plain,
    /// Immediate or cancel: what isn't executed at once is deleted.
    Ioc,
    /// Fill or kill: the order is executed whole or not at all.
    Fok,
    /// Book or cancel: the order joins the book, and isn't executed at once.
    Boc,
}

impl Condition {
    /// Whether an order on this condition comes in only in continuous trading: each but the plain one.
    pub fn is_for_trading(self) -> bool
        ensures { result ≡ is_for_trading self }
    {
        match self {
            Condition::Plain => false,
            Condition::Ioc | Condition::Fok | Condition::Boc => true,
        }
    }

    /// Whether an order on this condition may not be executed as it comes in.
    pub fn is_book_or_cancel(self) -> bool
        ensures { result ≡ is_book_or_cancel self }
    {
        match self {
            Condition::Plain | Condition::Ioc | Condition::Fok => false,
            Condition::Boc => true,
        }
    }

    /// Whether an entry of this kind and restriction can't have the condition: of a condition, a trigger and a restriction
    /// it has one at most, and a book-or-cancel order has a limit.
    pub fn is_bad_combination(self, kind: Kind, restriction: Restriction) -> bool
        ensures { result ≡ is_bad_combination self kind restriction }
    {
        let restricted = !restriction.is_free();
        match self {
            Condition::Plain => kind.is_stop() && restricted,
            Condition::Ioc | Condition::Fok => kind.is_stop() || restricted,
            Condition::Boc => !kind.is_limit() || restricted,
        }
    }
}

/// A command of a member or of the phases. Members are named by their index, quantities are in
/// units and prices in ticks.
#[derive(Clone, Copy, PartialEq, Eq, Hash, Debug)]
pub enum Command {
    /// Enters an order or a stop.
    Enter {
        member: u32,
        reference: u32,
        side: Side,
        kind: Kind,
        quantity: u32,
        validity: Validity,
        restriction: Restriction,
        condition: Condition,
    },
    /// Gives an order a new remaining quantity, and a new limit where there is one.
    Change {
        member: u32,
        reference: u32,
        quantity: u32,
        limit: Option<u32>,
    },
    /// Deletes an order or a stop.
    Cancel {
        member: u32,
        reference: u32,
    },
    /// Deletes all orders and stops of the member.
    CancelAll {
        member: u32,
    },
    /// Leads from pre-trading to the opening call.
    StartOpening,
    /// Leads from continuous trading to the intraday call.
    StartIntraday,
    /// Leads from continuous trading to the closing call.
    StartClosing,
    /// Ends a call with the trades at its price, or leads it to its next stage where that price is
    /// outside the ranges.
    Uncross,
    /// Ends the day, after post-trading. Orders and stops that are not valid beyond it are deleted.
    EndDay,
}

impl Command {
    /// The index of the member that gives the command; a command of the phases has none.
    pub fn member(&self) -> Option<u32>
        ensures { result ≡ member_of self.now }
    {
        match self {
            Command::Enter { member, .. }
            | Command::Change { member, .. }
            | Command::Cancel { member, .. }
            | Command::CancelAll { member } => Some(*member),
            Command::StartOpening
            | Command::StartIntraday
            | Command::StartClosing
            | Command::Uncross
            | Command::EndDay => None,
        }
    }

    /// Whether a command of the phases is allowed in this one. None of a member is.
    pub fn is_allowed(&self, phase: Phase) -> bool
        ensures { result ≡ is_allowed phase self.now }
    {
        match self {
            Command::StartOpening => phase == Phase::PreTrading,
            Command::StartIntraday | Command::StartClosing => phase.is_continuous(),
            Command::Uncross => matches!(phase, Phase::Call(_, _)),
            Command::EndDay => phase == Phase::PostTrading,
            _ => false,
        }
    }
}
