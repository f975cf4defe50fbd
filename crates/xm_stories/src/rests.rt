//! What each fill leaves of its order.
ghost use Rattle.std.specs.Prelude.{◌≡◌, ℕ, ◌+◌, ◌<◌, ◌^◌, List, OnOk, length, sum_by};
ghost use Rattle.xm_events.specs.Life.{taken, with_rest_before, with_rests};
ghost use Rattle.xm_events.specs.declared.events.Event.{Event};
ghost use Rattle.xm_stories.specs.TakenUnits.{UnitsFit, units_under};

use crate::sums::TakenUnits;
use std::alloc::Allocator;
use xm_events::{Event, Fill};
use xm_memory::OutOfMemory;
use xm_name_index::Storage;

/// What is left in the end of the order, or the stop, of each name.
pub trait Left {
    ghost use Rattle.std.specs.Prelude.{◌≡◌, ℕ};

    /// The units of a member and reference; none where there is no such order or stop.
    ghost units: { Self → ℕ → ℕ → ℕ };

    /// The units of a member and reference.
    fn left(&self, member: u32, reference: u32) -> u32
        ensures { result ≡ units self.now member reference };
}

/// An event, where so much is taken by the events behind it: a fill tells what those take of its order, and what is left of it.
fn with_rest<L: Left, A: Allocator>(left: &L, behind: &TakenUnits<A>, event: &Event) -> Event
    requires { (m r : ℕ) → units_under behind.now m r + L.units left.now m r < 2 ^ 32 }
    ensures { (events : List Event) → ((m r : ℕ) → units_under behind.now m r ≡ sum_by (taken m r) events) → result ≡ with_rest_before (L.units left.now) event.now events }
{
    match event {
        Event::Filled(fill) => {
            let taken = behind.units_under(fill.member, fill.reference);
            let rest = taken + left.left(fill.member, fill.reference);
            Event::Filled(Fill { rest, ..*fill })
        }
        _ => *event,
    }
}

/// Gives each fill of these events what is left of its order: what the events behind it take, and what is left in the end. Each event is
/// looked at once, from the last to the first. The storage is that of the sums by name, one for each order that the events take of.
pub fn with_rests<L: Left, A: Allocator + Copy>(
    storage: Storage<A>,
    left: &L,
    events: &mut [Event],
) -> Result<(), OutOfMemory>
    requires { UnitsFit (L.units left.now) events.old }
    ensures { OnOk result (events.new ≡ with_rests (L.units left.now) events.old) }
{
    let mut behind = TakenUnits::new(storage);
    let mut index = events.len();
    while index > 0 {
        index -= 1;
        let event = events[index];
        events[index] = with_rest(left, &behind, &event);
        behind.take(&event)?;
    }
    Ok(())
}
