//! The end of a call.
ghost use Rattle.std.specs.Prelude.{◌≡◌, ◌++◌, ◌+◌, ◌<◌, ◌≤◌, ◌^◌, OnOk};
ghost use Rattle.xm_events.specs.SeenStory.{seen_uncross, untraded};
ghost use Rattle.xm_stories.specs.Around.{outcome_in};
ghost use Rattle.xm_ticks.specs.declared.ranges.TheConstants.{MAX_WIDTH};

use crate::around::Between;
use crate::arrivals::{numbered_so, push_fills, range_left_at};
use std::alloc::Allocator;
use xm_events::Event;
use xm_memory::OutOfMemory;
use xm_rules::{Auction, CallStage, Phase, Trade};

/// Adds that a call doesn't trade: it ends without a price, or goes on in this phase.
fn push_untraded<A: Allocator>(
    events: &mut Vec<Event, A>,
    between: &Between,
    auction: Auction,
    stage: CallStage,
    phase: Phase,
) -> Result<(), OutOfMemory>
    requires { between.now.widths.dynamic ≤ MAX_WIDTH }
    ensures { OnOk result (events.new.items ≡ events.old.items ++ untraded (record { ref1 = between.now.last; ref2 = between.now.last; widths = between.now.widths }) auction stage between.now.interruption phase) }
{
    match between.interruption {
        None => events.push(Event::Began(auction.next_phase()))?,
        Some(price) => {
            let range = range_left_at(stage, between.widths, between.last, price);
            events.push(Event::Interrupted(price, range))?;
            events.push(Event::Began(phase))?;
        }
    }
    Ok(())
}

/// Adds what the end of a call tells, behind which this phase stands: the call trades where it takes the next number.
pub(crate) fn push_uncross<A: Allocator>(
    events: &mut Vec<Event, A>,
    between: &Between,
    call: Phase,
    trades: &[Trade],
    phase: Phase,
) -> Result<(), OutOfMemory>
    requires widths { between.now.widths.dynamic ≤ MAX_WIDTH }
    requires numbers { between.now.sweeps + 1 < 2 ^ 64 }
    ensures { OnOk result (events.new.items ≡ events.old.items ++ seen_uncross (outcome_in between.now) between.now.sweeps (record { ref1 = between.now.last; ref2 = between.now.last; widths = between.now.widths }) call trades.now phase) }
{
    let Phase::Call(auction, stage) = call else {
        return Ok(());
    };
    if between.sweeps_after == between.sweeps {
        return push_untraded(events, between, auction, stage, phase);
    }
    push_fills(events, &trades[..numbered_so(between.sweeps + 1, trades)])?;
    events.push(Event::Began(auction.next_phase()))?;
    Ok(())
}
