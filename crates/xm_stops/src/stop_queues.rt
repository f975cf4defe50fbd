//! The held stops in their queues.
ghost use Rattle.xm_stops.specs.Listing.{stop_owner, stop_reference};
ghost use Rattle.std.specs.Prelude.{◌≡◌, ℕ, All, ◌+◌, ◌++◌, ◌∷◌, [], ◌<◌, ◌≤◌, Contains, IfNone, IfOk, IfSome, IsSome, None, OnErr, OnOk, Some, filter, length, map, option_copied, true};
ghost use Rattle.std.specs.List.{list_all};
ghost use Rattle.xm_queues.specs.Keys.{AreDistinct};
ghost use Rattle.xm_slots.specs.Listing.{is_below, is_other_key, keys_in, listed_entry, rises};
ghost use Rattle.xm_slots.specs.Naming.{AreNamesOf, is_owned};
ghost use Rattle.xm_slots.specs.declared.listing.Listed.{Listed};
ghost use Rattle.xm_rules.specs.declared.orders.Stop.{Stop};
ghost use Rattle.xm_stops.specs.Queued.{IsReachedAt, IsReachedOn, has_reached, has_reached_on};
ghost use Rattle.xm_ticks.specs.declared.numbers.TheConstants.{MAX_PRICE};

use crate::trigger_queues::TriggerQueues;
use std::alloc::Allocator;
use std::marker::Model;
use xm_memory::{OutOfMemory, count_within};
use xm_queues::Queues;
use xm_rules::{Side, Stop};
use xm_slots::{Entry, Listed, Listing, Slots, hold};
use xm_ticks::Price;

/// The held stops under their keys, each in the queue of its side and trigger.
#[derive(Drop)]
pub struct StopQueues<A: Allocator + Copy> {
    entries: Slots<Stop, A>,
    links: Queues<A>,
    triggers: TriggerQueues<A>,
    // The stop for which there is room in the other parts.
    ready: Option<Stop>,
    // The number of the next entry.
    adds: u64,
    // The stops in order of entry.
    listing: Listing<Stop>,
}

impl<A: Allocator + Copy> Model for StopQueues<A> {
    ghost use Rattle.xm_stops.specs.Queued.{AreStopsKept, QueuedStops};

    ghost Value = { QueuedStops };

    ghost view = { λ q. record { stops = q.listing; ready = q.ready; adds = q.adds } };

    ghost invariant = { λ q. AreStopsKept q.listing q.ready q.adds q.entries q.links q.triggers };
}

impl<A: Allocator + Copy> StopQueues<A> {
    /// No stop, and no room, which takes no memory.
    pub fn new(alloc: A) -> StopQueues<A>
        ensures { result ≡ record { stops = []; ready = None; adds = 0 } }
    {
        StopQueues {
            entries: Slots::new(alloc),
            links: Queues::new(alloc),
            triggers: TriggerQueues::new(alloc),
            ready: None,
            adds: 0,
            listing: Listing::new(),
        }
    }

    /// How many stops there are. Their numbers rise, and their triggers are prices.
    pub fn len(&self) -> usize
        ensures len { result ≡ length self.now.stops }
        ensures within { result ≤ 4294967295 }
        ensures rise { rises 0 self.now.stops self.now.adds ≡ true }
        ensures triggers { All (λ (x : Listed Stop). x.item.trigger ≤ MAX_PRICE) self.now.stops }
    {
        self.entries.len()
    }

    /// The stop for which there is room.
    pub fn ready(&self) -> Option<Stop>
        ensures { result ≡ self.now.ready }
    {
        self.ready
    }

    /// The stop under a key, with the number of its entry.
    pub fn get(&self, key: usize) -> Option<&Entry<Stop>>
        ensures there { (x : Listed Stop) → Contains self.now.stops x → x.key ≡ key → option_copied result ≡ Some (listed_entry x) }
        ensures held { IsSome (option_copied result) → Contains (keys_in self.now.stops) key }
    {
        self.entries.get(key)
    }

    /// A bound above each key.
    pub fn key_limit(&self) -> usize
        ensures { list_all (is_below result) self.now.stops ≡ true }
    {
        let _ = &self.listing;
        self.entries.key_limit()
    }

    /// Makes room for this stop.
    pub fn reserve(&mut self, stop: &Stop) -> Result<(), OutOfMemory>
        requires { stop.now.trigger ≤ MAX_PRICE }
        ensures ok { OnOk result (self.new ≡ record self.old { ready = Some stop.now }) }
        ensures err { OnErr result (self.new ≡ self.old) }
    {
        count_within(self.adds, u64::MAX - 1)?;
        let stops = self.entries.len() + 1;
        hold(&mut self.links, &mut self.entries, stops)?;
        self.triggers.reserve(stop.side, stop.trigger)?;
        self.ready = Some(*stop);
        Ok(())
    }

    /// The stop for which there is room joins its queue last, and the answer is its key.
    pub fn push(&mut self, stop: &Stop) -> usize
        requires { self.old.ready ≡ Some stop.now }
        ensures { self.new ≡ record { stops = self.old.stops ++ record { key = result; time = self.old.adds; item = stop.now } ∷ []; ready = None; adds = self.old.adds + 1 } }
    {
        let (side, trigger) = (stop.side, stop.trigger);
        let time = self.adds;
        let key = self.entries.insert(Entry { item: *stop, time });
        let mut ends = self.triggers.queue(side, trigger);
        self.links.push_back(&mut ends, key);
        self.triggers.put(side, trigger, ends);
        self.listing.join(&Listed {
            key,
            time,
            item: *stop,
        });
        self.ready = None;
        self.adds += 1;
        key
    }

    /// The stop of a key leaves.
    pub fn take(&mut self, key: usize) -> Entry<Stop>
        requires { Contains (keys_in self.old.stops) key }
        ensures entry { (x : Listed Stop) → Contains self.old.stops x → x.key ≡ key → result ≡ listed_entry x }
        ensures left { self.new ≡ record self.old { stops = filter (is_other_key key) self.old.stops } }
        ensures distinct { AreDistinct (keys_in self.old.stops) }
    {
        let entry = *self.entries.entry(key);
        let Stop { side, trigger, .. } = entry.item;
        self.entries.vacate(key);
        let mut ends = self.triggers.queue(side, trigger);
        self.links.unlink(&mut ends, key);
        self.triggers.set(side, trigger, ends);
        self.listing.leave(key);
        entry
    }
}

impl<A: Allocator + Copy> StopQueues<A> {
    /// The stops in order of entry, each with the number of its entry, or `OutOfMemory` where the answer can't be held.
    pub fn in_time(&self) -> Result<Vec<Entry<Stop>, A>, OutOfMemory>
        ensures { IfOk result (λ entries. entries.items ≡ map listed_entry self.now.stops) }
    {
        let mut entries = self.entries.entries()?;
        entries.sort_unstable_by_key(|entry| entry.time);
        Ok(entries)
    }

    /// Those that have these names: all of one member.
    pub fn named_in_time(&self, names: &[(u32, usize)]) -> Result<Vec<Entry<Stop>, A>, OutOfMemory>
        ensures { IfOk result (λ entries. (member : ℕ) → AreNamesOf stop_owner stop_reference member self.now.stops names.now → entries.items ≡ filter (is_owned stop_owner stop_reference member) (map listed_entry self.now.stops)) }
    {
        let mut entries = self.entries.entries_under(names)?;
        entries.sort_unstable_by_key(|entry| entry.time);
        Ok(entries)
    }

    /// The key of some stop that the last price has reached. It asks the nearest trigger of each side alone.
    #[inline(always)]
    pub fn reached(&self, last: Price) -> Option<usize>
        ensures some { IfSome result (IsReachedAt last self.now.stops) }
        ensures none { IfNone result (filter (has_reached last) self.now.stops ≡ []) }
    {
        match self.reached_on(Side::Buy, last) {
            Some(key) => Some(key),
            None => self.reached_on(Side::Sell, last),
        }
    }

    /// The key of some stop of a side that the last price has reached.
    #[inline(always)]
    fn reached_on(&self, side: Side, last: Price) -> Option<usize>
        ensures some { IfSome result (IsReachedOn side last self.now.stops) }
        ensures none { IfNone result (filter (has_reached_on side last) self.now.stops ≡ []) }
    {
        let table = self.triggers.of(side);
        let trigger = table.nearest(side)?;
        if !side.reaches(last.get(), trigger) {
            return None;
        }
        table.get(trigger)?.front()
    }
}
