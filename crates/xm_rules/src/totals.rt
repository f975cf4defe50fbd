//! Sums over trades, and their last price.
ghost use Rattle.std.specs.Prelude.{◌≡◌, ◌<◌, ◌^◌};
ghost use Rattle.xm_rules.specs.State.{last_price};
ghost use Rattle.xm_rules.specs.Sums.{total_money, total_quantity};

use crate::orders::Trade;
use xm_ticks::Price;

/// The most units that a security trades in a day, of which no lawful journal has more.
pub const MAX_TRADED_QUANTITY: u64 = 1_100_000_000_000;

/// The most money that it trades, in ticks times units.
pub const MAX_TRADED_MONEY: u64 = 1_100_000_000_000_000_000;

/// The quantity of all trades, in units.
pub fn total_quantity(trades: &[Trade]) -> u64
    requires { total_quantity trades.now < 2 ^ 64 }
    ensures { result ≡ total_quantity trades.now }
{
    let mut total = 0;
    for trade in trades {
        total += u64::from(trade.quantity);
    }
    total
}

/// The money of all trades, in ticks times units.
pub fn total_money(trades: &[Trade]) -> u64
    requires { total_money trades.now < 2 ^ 64 }
    ensures { result ≡ total_money trades.now }
{
    let mut total = 0;
    for trade in trades {
        total += trade.money_of();
    }
    total
}

/// The price of the last of these trades, or another price where there is none.
pub fn last_price(trades: &[Trade], before: Price) -> Price
    ensures { result ≡ last_price before trades.now }
{
    match trades.last() {
        None => before,
        Some(trade) => trade.price,
    }
}
