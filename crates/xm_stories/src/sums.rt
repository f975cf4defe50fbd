//! The units that events take of orders and stops, by their names.
ghost use Rattle.std.specs.Prelude.{◌≡◌, ℕ, ◌+◌, ◌<◌, ◌^◌, OnOk};
ghost use Rattle.xm_events.specs.Life.{entry_units, taken, units_if};
ghost use Rattle.xm_stories.specs.TakenUnits.{units_under};

use indexmap::IndexMap;
use std::alloc::Allocator;
use std::marker::Model;
use xm_events::{Entry, Event};
use xm_memory::OutOfMemory;
use xm_name_index::{Seed, Storage};

/// The units that events take of each order and stop. A clause sees them by names.
#[derive(Drop)]
pub(crate) struct TakenUnits<A: Allocator> {
    units: IndexMap<(u32, u32), u32, Seed, A>,
}

impl<A: Allocator> Model for TakenUnits<A> {
    ghost use Rattle.std.specs.Prelude.{ℕ, List};

    ghost Value = { List ((ℕ × ℕ) × ℕ) };

    ghost view = { λ t. t.units.entries };
}

impl<A: Allocator + Copy> TakenUnits<A> {
    /// Those of no event.
    pub fn new(storage: Storage<A>) -> TakenUnits<A>
        ensures { (member reference : ℕ) → units_under result member reference ≡ 0 }
    {
        TakenUnits {
            units: IndexMap::with_hasher(storage.alloc, storage.seed),
        }
    }
}

impl<A: Allocator> TakenUnits<A> {
    /// The units of a name.
    pub fn units_under(&self, member: u32, reference: u32) -> u32
        ensures { result ≡ units_under self.now member reference }
    {
        self.units.get(&(member, reference)).copied().unwrap_or(0)
    }

    /// Adds units of a name.
    fn add(&mut self, member: u32, reference: u32, units: u32) -> Result<(), OutOfMemory>
        requires { units_under self.old member reference + units < 2 ^ 32 }
        ensures { OnOk result ((m r : ℕ) → units_under self.new m r ≡ units_if m r member reference units + units_under self.old m r) }
    {
        let sum = self.units_under(member, reference) + units;
        self.units.insert((member, reference), sum)?;
        Ok(())
    }

    /// Adds those of an order, or a stop, that is deleted.
    fn add_entry(&mut self, entry: &Entry) -> Result<(), OutOfMemory>
        requires { (m r : ℕ) → entry_units m r entry.now + units_under self.old m r < 2 ^ 32 }
        ensures { OnOk result ((m r : ℕ) → units_under self.new m r ≡ entry_units m r entry.now + units_under self.old m r) }
    {
        match entry {
            Entry::Order(order) => self.add(order.member, order.reference, order.rest),
            Entry::Stop(stop) => self.add(stop.member, stop.reference, stop.quantity),
        }
    }

    /// Adds what an event takes.
    pub fn take(&mut self, event: &Event) -> Result<(), OutOfMemory>
        requires { (m r : ℕ) → taken m r event.now + units_under self.old m r < 2 ^ 32 }
        ensures { OnOk result ((m r : ℕ) → units_under self.new m r ≡ taken m r event.now + units_under self.old m r) }
    {
        match event {
            Event::Filled(fill) => self.add(fill.member, fill.reference, fill.quantity),
            Event::Cancelled(gone) | Event::Deleted(gone, _) => self.add_entry(gone),
            _ => Ok(()),
        }
    }
}
