//! Held and pending stops that a test fills.
ghost use Rattle.xm_stops.specs.HeldStops.{is_held};
ghost use Rattle.std.specs.Prelude.{◌≡◌, ◌≤◌, false};
ghost use Rattle.xm_ticks.specs.declared.numbers.TheConstants.{MAX_PRICE};

use std::alloc::Allocator;
use xm_memory::OutOfMemory;
use xm_name_index::Storage;
use xm_rules::Stop;
use xm_stops::{Pending, Stops};
use xm_ticks::{MAX_PRICE, Price};

/// Held and pending stops. What its calls answer is for a test to compare, so they promise nothing.
#[derive(Drop)]
pub struct Held<A: Allocator + Copy> {
    stops: Stops<A>,
    pending: Pending<A>,
}

impl<A: Allocator + Copy> Held<A> {
    pub fn new(alloc: A) -> Held<A> {
        Held {
            stops: Stops::new(Storage::with_fixed_seed(alloc)),
            pending: Pending::new(alloc),
        }
    }

    pub fn len(&self) -> usize {
        self.stops.len()
    }

    pub fn pending_len(&self) -> usize {
        self.pending.len()
    }

    pub fn list(&self) -> Result<Vec<Stop, A>, OutOfMemory> {
        self.stops.list()
    }

    pub fn of_member(&self, member: u32) -> Result<Vec<Stop, A>, OutOfMemory> {
        self.stops.of_member(member)
    }

    /// Enters a stop, if its trigger is in range and no other has its name, and answers whether it did.
    pub fn enter(&mut self, stop: Stop) -> Result<bool, OutOfMemory> {
        let known = self.stops.find(stop.member, stop.reference).is_some();
        if known || MAX_PRICE < stop.trigger {
            return Ok(false);
        }
        join(&mut self.stops, stop)?;
        Ok(true)
    }

    /// Makes room among the pending stops for all that are held, and takes the reached ones.
    pub fn take_reached(&mut self, last: Price) -> Result<(), OutOfMemory> {
        self.pending.reserve(self.stops.len())?;
        self.stops.take_reached(last, &mut self.pending);
        Ok(())
    }

    pub fn pop(&mut self) -> Option<Stop> {
        self.pending.pop()
    }
}

fn join<A: Allocator + Copy>(stops: &mut Stops<A>, stop: Stop) -> Result<(), OutOfMemory>
    requires name { is_held stop.member stop.reference stops.old.stops ≡ false }
    requires trigger { stop.trigger ≤ MAX_PRICE }
{
    stops.reserve_one(&stop)?;
    stops.add(stop);
    Ok(())
}
