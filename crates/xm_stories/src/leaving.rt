//! Orders and stops that leave.
ghost use Rattle.std.specs.Prelude.{◌≡◌, ◌++◌, OnOk, map};
ghost use Rattle.xm_events.specs.Story.{leave_events};
ghost use Rattle.xm_events.specs.declared.events.Entry.TheVariants as entry;
ghost use Rattle.xm_rules.specs.declared.orders.Order.{Order};
ghost use Rattle.xm_rules.specs.declared.orders.Stop.{Stop};
ghost use Rattle.xm_stories.specs.Around.{gone_for};

use std::alloc::Allocator;
use xm_events::{Deletion, Entry, Event};
use xm_memory::OutOfMemory;
use xm_rules::{Order, Stop};

/// What leaves by its member, or by the market for this reason.
fn gone_for(reason: Option<Deletion>, gone: Entry) -> Event
    ensures { result ≡ gone_for reason gone }
{
    match reason {
        None => Event::Cancelled(gone),
        Some(reason) => Event::Deleted(gone, reason),
    }
}

/// Adds that these orders leave so.
fn push_orders<A: Allocator>(
    events: &mut Vec<Event, A>,
    reason: Option<Deletion>,
    orders: &[Order],
) -> Result<(), OutOfMemory>
    ensures { OnOk result (events.new.items ≡ events.old.items ++ map (λ (o : Order). gone_for reason (entry.Order o)) orders.now) }
{
    for order in orders {
        events.push(gone_for(reason, Entry::Order(*order)))?;
    }
    Ok(())
}

/// Adds that these stops leave so.
fn push_stops<A: Allocator>(
    events: &mut Vec<Event, A>,
    reason: Option<Deletion>,
    stops: &[Stop],
) -> Result<(), OutOfMemory>
    ensures { OnOk result (events.new.items ≡ events.old.items ++ map (λ (stop : Stop). gone_for reason (entry.Stop stop)) stops.now) }
{
    for stop in stops {
        events.push(gone_for(reason, Entry::Stop(*stop)))?;
    }
    Ok(())
}

/// Adds that these orders leave so, and then these stops.
pub(crate) fn push_leaving<A: Allocator>(
    events: &mut Vec<Event, A>,
    reason: Option<Deletion>,
    orders: &[Order],
    stops: &[Stop],
) -> Result<(), OutOfMemory>
    ensures { OnOk result (events.new.items ≡ events.old.items ++ leave_events (gone_for reason) orders.now stops.now) }
{
    push_orders(events, reason, orders)?;
    push_stops(events, reason, stops)
}
