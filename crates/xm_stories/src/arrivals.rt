//! Orders that come in: their trades, and the interruption that they led to.
ghost use Rattle.std.specs.Prelude.{◌≡◌, ◌++◌, ◌+◌, ◌-◌, ◌<◌, ◌≤◌, ◌^◌, OnOk, length, map};
ghost use Rattle.xm_events.specs.Life.{bare_fill, both_sides};
ghost use Rattle.xm_events.specs.SeenStory.{arrival, arrivals, bare_fills, numbered_so};
ghost use Rattle.xm_events.specs.Story.{interrupted_events, range_left, range_left_at};
ghost use Rattle.xm_events.specs.declared.events.Event.TheVariants.{Filled};
ghost use Rattle.xm_rules.specs.Sums.{total_quantity};
ghost use Rattle.xm_stories.specs.Around.{outcome_in};
ghost use Rattle.xm_ticks.specs.declared.ranges.TheConstants.{MAX_WIDTH};

use crate::around::Between;
use std::alloc::Allocator;
use xm_events::{Event, Fill, PriceRange};
use xm_memory::OutOfMemory;
use xm_rules::{Auction, CallStage, Phase, Side, Stop, Trade, Widths, last_price};
use xm_ticks::{Price, inside};

/// One side of a trade, whatever is left of its order.
fn bare_fill(side: Side, trade: &Trade) -> Fill
    ensures { result ≡ bare_fill side trade.now }
{
    let (member, reference) = match side {
        Side::Buy => (trade.buyer, trade.buy_ref),
        Side::Sell => (trade.seller, trade.sell_ref),
    };
    Fill {
        member,
        reference,
        side,
        kind: trade.kind,
        price: trade.price,
        quantity: trade.quantity,
        rest: 0,
    }
}

/// Adds both sides of a trade.
fn push_both<A: Allocator>(events: &mut Vec<Event, A>, trade: &Trade) -> Result<(), OutOfMemory>
    ensures { OnOk result (events.new.items ≡ events.old.items ++ map (λ f. Filled f) (both_sides trade.now)) }
{
    events.push(Event::Filled(bare_fill(Side::Buy, trade)))?;
    events.push(Event::Filled(bare_fill(Side::Sell, trade)))?;
    Ok(())
}

/// Adds both sides of each of these trades.
pub(crate) fn push_fills<A: Allocator>(
    events: &mut Vec<Event, A>,
    trades: &[Trade],
) -> Result<(), OutOfMemory>
    ensures { OnOk result (events.new.items ≡ events.old.items ++ bare_fills trades.now) }
{
    for trade in trades {
        push_both(events, trade)?;
    }
    Ok(())
}

/// How many trades at the front are of the sweep, or the call, of this number.
pub(crate) fn numbered_so(number: u64, trades: &[Trade]) -> usize
    ensures count { result ≡ numbered_so number trades.now }
    ensures within { result ≤ length trades.now }
{
    for (index, trade) in trades.iter().enumerate() {
        if trade.sweep != number {
            return index;
        }
    }
    trades.len()
}

/// What is left of so many units behind these trades.
pub(crate) fn rest_behind(units: u32, trades: &[Trade]) -> u32
    ensures { result ≡ units - total_quantity trades.now }
{
    let mut rest = units;
    for trade in trades {
        rest = rest.saturating_sub(trade.quantity);
    }
    rest
}

/// The range that a price of continuous trading left. It doesn't depend on the last auction price.
fn range_left(widths: Widths, last: Price, price: Price) -> PriceRange
    requires { widths.dynamic ≤ MAX_WIDTH }
    ensures { result ≡ range_left (record { ref1 = last; ref2 = last; widths = widths }) price }
{
    if inside(price, last, widths.dynamic) {
        PriceRange::Static
    } else {
        PriceRange::Dynamic
    }
}

/// The range that the price of a call left at this stage.
pub(crate) fn range_left_at(
    stage: CallStage,
    widths: Widths,
    last: Price,
    price: Price,
) -> PriceRange
    requires { widths.dynamic ≤ MAX_WIDTH }
    ensures { result ≡ range_left_at stage (record { ref1 = last; ref2 = last; widths = widths }) price }
{
    match stage {
        CallStage::Ordinary => range_left(widths, last, price),
        CallStage::Interrupted | CallStage::Extended => PriceRange::Wide,
    }
}

/// Adds that a price interrupted trading, where one did.
fn push_interruption<A: Allocator>(
    events: &mut Vec<Event, A>,
    widths: Widths,
    last: Price,
    interruption: Option<Price>,
) -> Result<(), OutOfMemory>
    requires { widths.dynamic ≤ MAX_WIDTH }
    ensures { OnOk result (events.new.items ≡ events.old.items ++ interrupted_events (record { ref1 = last; ref2 = last; widths = widths }) interruption) }
{
    let Some(price) = interruption else {
        return Ok(());
    };
    events.push(Event::Interrupted(price, range_left(widths, last, price)))?;
    events.push(Event::Began(Phase::Call(Auction::Interruption, CallStage::Interrupted)))?;
    Ok(())
}

/// Adds what an order tells that comes in at this last price: the trades of this number, and the interruption where it is the last one.
pub(crate) fn push_arrival<A: Allocator>(
    events: &mut Vec<Event, A>,
    between: &Between,
    number: u64,
    last: Price,
    trades: &[Trade],
) -> Result<(), OutOfMemory>
    requires { between.now.widths.dynamic ≤ MAX_WIDTH }
    ensures { OnOk result (events.new.items ≡ events.old.items ++ arrival (outcome_in between.now) number last trades.now) }
{
    push_fills(events, &trades[..numbered_so(number, trades)])?;
    if number == between.sweeps_after {
        push_interruption(events, between.widths, last, between.interruption)?;
    }
    Ok(())
}

/// Adds what these stops tell, which come in one after the other, from this number on.
pub(crate) fn push_arrivals<A: Allocator>(
    events: &mut Vec<Event, A>,
    between: &Between,
    number: u64,
    last: Price,
    trades: &[Trade],
    stops: &[Stop],
) -> Result<(), OutOfMemory>
    requires widths { between.now.widths.dynamic ≤ MAX_WIDTH }
    requires numbers { number + length stops.now < 2 ^ 64 }
    ensures { OnOk result (events.new.items ≡ events.old.items ++ arrivals (outcome_in between.now) number last trades.now stops.now) }
{
    let mut number = number;
    let mut last = last;
    let mut trades = trades;
    for stop in stops {
        events.push(Event::Triggered(*stop))?;
        push_arrival(events, between, number, last, trades)?;
        let (own, behind) = trades.split_at(numbered_so(number, trades));
        last = last_price(own, last);
        trades = behind;
        number += 1;
    }
    Ok(())
}
