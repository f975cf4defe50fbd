//! Entries and changes.
ghost use Rattle.std.specs.Prelude.{◌≡◌, ◌++◌, ◌+◌, ◌<◌, ◌≤◌, ◌^◌, IsTrue, OnOk, Some};
ghost use Rattle.xm_events.specs.SeenStory.{arrival_under, own_arrival, seen_change, seen_entry};
ghost use Rattle.xm_events.specs.Story.{killed_events};
ghost use Rattle.xm_rules.specs.Refusals.{is_given_in_range};
ghost use Rattle.xm_rules.specs.Step.{stop_of};
ghost use Rattle.xm_stories.specs.Around.{outcome_in};
ghost use Rattle.xm_ticks.specs.declared.ranges.TheConstants.{MAX_WIDTH};

use crate::around::Between;
use crate::arrivals::{numbered_so, push_arrival, rest_behind};
use std::alloc::Allocator;
use xm_events::{Deletion, Entry, Event};
use xm_memory::OutOfMemory;
use xm_rules::{Condition, Order, Stop, Trade};

/// Adds what the command's own order tells that comes in: it takes the next number.
fn push_own_arrival<A: Allocator>(
    events: &mut Vec<Event, A>,
    between: &Between,
    trades: &[Trade],
) -> Result<(), OutOfMemory>
    requires widths { between.now.widths.dynamic ≤ MAX_WIDTH }
    requires numbers { between.now.sweeps + 1 < 2 ^ 64 }
    ensures { OnOk result (events.new.items ≡ events.old.items ++ own_arrival (outcome_in between.now) between.now.sweeps between.now.last trades.now) }
{
    push_arrival(events, between, between.sweeps + 1, between.last, trades)
}

/// Adds that what is left of an immediate order is deleted.
fn push_killed<A: Allocator>(
    events: &mut Vec<Event, A>,
    rest: u32,
    order: &Order,
) -> Result<(), OutOfMemory>
    ensures { OnOk result (events.new.items ≡ events.old.items ++ killed_events rest order.now) }
{
    if rest > 0 {
        let left = Order { rest, ..*order };
        events.push(Event::Deleted(Entry::Order(left), Deletion::ImmediateOrCancel))?;
    }
    Ok(())
}

/// Adds what an order tells that comes in under a condition.
fn push_arrival_under<A: Allocator>(
    events: &mut Vec<Event, A>,
    between: &Between,
    condition: Condition,
    order: &Order,
    trades: &[Trade],
) -> Result<(), OutOfMemory>
    requires widths { between.now.widths.dynamic ≤ MAX_WIDTH }
    requires numbers { between.now.sweeps + 1 < 2 ^ 64 }
    ensures { OnOk result (events.new.items ≡ events.old.items ++ arrival_under condition (outcome_in between.now) between.now.sweeps between.now.last order.now trades.now) }
{
    match condition {
        Condition::Plain | Condition::Boc => push_own_arrival(events, between, trades),
        Condition::Ioc => {
            push_own_arrival(events, between, trades)?;
            let own = &trades[..numbered_so(between.sweeps + 1, trades)];
            push_killed(events, rest_behind(order.rest, own), order)
        }
        Condition::Fok => {
            if between.sweeps_after == between.sweeps {
                events.push(Event::Deleted(Entry::Order(*order), Deletion::FillOrKill))?;
                return Ok(());
            }
            push_own_arrival(events, between, trades)
        }
    }
}

/// The stop of a trigger that an order is entered as.
fn stop_of(trigger: u32, order: &Order) -> Stop
    ensures { result ≡ stop_of trigger order.now }
{
    Stop {
        member: order.member,
        reference: order.reference,
        side: order.side,
        trigger,
        becomes: order.kind,
        quantity: order.rest,
        validity: order.validity,
    }
}

/// Adds what an entry tells.
pub(crate) fn push_entry<A: Allocator>(
    events: &mut Vec<Event, A>,
    between: &Between,
    condition: Condition,
    trigger: Option<u32>,
    order: &Order,
    trades: &[Trade],
) -> Result<(), OutOfMemory>
    requires widths { between.now.widths.dynamic ≤ MAX_WIDTH }
    requires numbers { between.now.sweeps + 1 < 2 ^ 64 }
    ensures { OnOk result (events.new.items ≡ events.old.items ++ seen_entry (outcome_in between.now) between.now.sweeps between.now.last condition trigger order.now trades.now) }
{
    match trigger {
        None => {
            events.push(Event::Accepted(Entry::Order(*order)))?;
            push_arrival_under(events, between, condition, order, trades)
        }
        Some(trigger) => {
            events.push(Event::Accepted(Entry::Stop(stop_of(trigger, order))))?;
            Ok(())
        }
    }
}

/// Adds what a change of this order tells.
pub(crate) fn push_change<A: Allocator>(
    events: &mut Vec<Event, A>,
    between: &Between,
    quantity: u32,
    limit: Option<u32>,
    order: &Order,
    trades: &[Trade],
) -> Result<(), OutOfMemory>
    requires widths { between.now.widths.dynamic ≤ MAX_WIDTH }
    requires numbers { between.now.sweeps + 1 < 2 ^ 64 }
    requires limit { IsTrue (is_given_in_range limit) }
    ensures { OnOk result (events.new.items ≡ events.old.items ++ seen_change (outcome_in between.now) between.now.sweeps between.now.last quantity limit (Some order.now) trades.now) }
{
    if order.keeps_priority(quantity, limit) {
        let reduced = Order {
            rest: quantity,
            ..*order
        };
        events.push(Event::Changed(reduced))?;
        return Ok(());
    }
    events.push(Event::Changed(order.changed_order(quantity, limit)))?;
    push_own_arrival(events, between, trades)
}
