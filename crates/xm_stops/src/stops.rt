//! The held stops of one security, and the pending ones.
ghost use Rattle.xm_stops.specs.Listing.{stop_owner, stop_reference};
ghost use Rattle.xm_slots.specs.Naming.{have_own_names};
ghost use Rattle.std.specs.Prelude.{◌≡◌, All, ◌+◌, ◌<◌, ◌≤◌, ◌^◌, ◌==◌, ◌++◌, ◌∷◌, [], IsTrue, filter, map, length, find, false, None, Some, option_copied, IfNone, IfOk, IfSome, OnErr, OnOk, drop, max, not, slice_get, option_to_list};
ghost use Rattle.std.specs.Option.{option_map};
ghost use Rattle.xm_rules.specs.Commands.{outlasts};
ghost use Rattle.xm_rules.specs.Orders.{is_stop_named, removed_stop, without_stops_of};
ghost use Rattle.xm_rules.specs.Settling.{is_reached};
ghost use Rattle.xm_rules.specs.declared.orders.Stop.{Stop};
ghost use Rattle.xm_slots.specs.declared.entry.Entry.{Entry};
ghost use Rattle.xm_stops.specs.HeldStops.{is_held, joined_by};
ghost use Rattle.xm_ticks.specs.declared.numbers.TheConstants.{MAX_PRICE};

use crate::entry_queue::EntryQueue;
use crate::stop_queues::StopQueues;
use crate::taking::{Reason, take_leaving};
use std::alloc::Allocator;
use std::marker::Model;
use xm_memory::OutOfMemory;
use xm_name_index::{Names, Storage};
use xm_rules::Stop;
use xm_slots::Entry;
use xm_ticks::Price;

/// The held stops of one security. A clause sees them in order of entry, with the stop for which there is room.
pub struct Stops<A: Allocator + Copy> {
    queues: StopQueues<A>,
    names: Names<A>,
}

// In a function of its own, so that whoever drops stops proves one call.
impl<A: Allocator + Copy> Drop for Stops<A> {
    fn drop(self) {
        let Stops {
            queues: _queues,
            names: _names,
        } = self;
    }
}

impl<A: Allocator + Copy> Model for Stops<A> {
    ghost use Rattle.std.specs.Prelude.{map};
    ghost use Rattle.xm_stops.specs.HeldStops.{HeldStops};
    ghost use Rattle.xm_stops.specs.Indexed.{AreStopsIndexed};
    ghost use Rattle.xm_slots.specs.Listing.{listed_item};

    ghost Value = { HeldStops };

    ghost view = { λ s. record { stops = map listed_item s.queues.stops; ready = s.queues.ready } };

    ghost invariant = { λ s. AreStopsIndexed s.queues s.names };
}

/// The stop of an entry.
fn stop_of(found: Option<&Entry<Stop>>) -> Option<&Stop>
    ensures { option_copied result ≡ option_map (λ e. e.item) (option_copied found.entry) }
{
    match found {
        Some(entry) => Some(&entry.item),
        None => None,
    }
}

/// The stops of entries.
fn items_of<A: Allocator + Copy>(entries: &Vec<Entry<Stop>, A>) -> Result<Vec<Stop, A>, OutOfMemory>
    ensures { IfOk result (λ stops. stops.items ≡ map (λ (e : Entry Stop). e.item) entries.now.items) }
{
    let alloc = *entries.allocator();
    let stops = entries.iter().map(|entry| entry.item).collect(alloc)?;
    Ok(stops)
}

impl<A: Allocator + Copy> Stops<A> {
    /// No stop, which takes no memory.
    pub fn new(storage: Storage<A>) -> Stops<A>
        ensures { result ≡ record { stops = []; ready = None } }
    {
        Stops {
            queues: StopQueues::new(storage.alloc),
            names: Names::new(storage),
        }
    }

    /// The stops in order of entry, or `OutOfMemory` where the answer can't be held.
    pub fn list(&self) -> Result<Vec<Stop, A>, OutOfMemory>
        ensures { IfOk result (λ stops. stops.items ≡ self.now.stops) }
    {
        let entries = self.queues.in_time()?;
        items_of(&entries)
    }

    /// A member's stops in order of entry, or `OutOfMemory` where the answer can't be held. The cost grows with their number alone.
    pub fn of_member(&self, member: u32) -> Result<Vec<Stop, A>, OutOfMemory>
        ensures { IfOk result (λ stops. stops.items ≡ filter (λ (s : Stop). s.member == member) self.now.stops) }
    {
        let names = self.names.of_member(member)?;
        let entries = self.queues.named_in_time(&names)?;
        items_of(&entries)
    }

    /// How many stops there are. No two have one name, and each trigger is a price.
    pub fn len(&self) -> usize
        ensures len { result ≡ length self.now.stops }
        ensures within { result ≤ 4294967295 }
        ensures names { IsTrue (have_own_names stop_owner stop_reference self.now.stops) }
        ensures triggers { All (λ (s : Stop). s.trigger ≤ MAX_PRICE) self.now.stops }
    {
        self.queues.len()
    }

    /// Makes the room that this stop takes, so that its `add` can't fail, in place of the room for another one. Where a
    /// growth is refused, the answer is `OutOfMemory` and nothing changes.
    pub fn reserve_one(&mut self, stop: &Stop) -> Result<(), OutOfMemory>
        requires { stop.now.trigger ≤ MAX_PRICE }
        ensures ok { OnOk result (self.new ≡ record self.old { ready = Some stop.now }) }
        ensures err { OnErr result (self.new ≡ self.old) }
    {
        let before = self.queues.ready();
        self.names.reserve(stop.member)?;
        if let Err(refused) = self.queues.reserve(stop) {
            self.names.release(stop.member);
            return Err(refused);
        }
        if let Some(other) = before {
            self.names.release(other.member);
        }
        Ok(())
    }

    /// Puts the stop for which there is room behind the others. No stop has its name.
    pub fn add(&mut self, stop: Stop)
        requires room { self.old.ready ≡ Some stop }
        requires name { is_held stop.member stop.reference self.old.stops ≡ false }
        ensures { self.new ≡ record { stops = self.old.stops ++ stop ∷ []; ready = None } }
    {
        let key = self.queues.push(&stop);
        self.names.insert(stop.member, stop.reference, key);
    }

    /// Takes the stop of this name out.
    pub fn remove(&mut self, member: u32, reference: u32) -> Option<Stop>
        ensures found { result ≡ find (is_stop_named member reference) self.old.stops }
        ensures left { self.new ≡ record self.old { stops = removed_stop member reference self.old.stops } }
    {
        match self.names.remove(member, reference) {
            None => None,
            Some(key) => Some(self.queues.take(key).item),
        }
    }

    /// Takes some stop of a member out and answers it, or nothing where the member has none, at a cost that doesn't grow with
    /// their number. Whoever takes all of a member's stops out asks again until there is none, and can let go with each what
    /// is kept for it elsewhere, as a place in the book.
    pub fn remove_any(&mut self, member: u32) -> Option<Stop>
        ensures found { IfSome result (λ (s : Stop). find (is_stop_named member s.reference) self.old.stops ≡ Some s) }
        ensures removed { IfSome result (λ (s : Stop). self.new ≡ record self.old { stops = removed_stop member s.reference self.old.stops }) }
        ensures fewer { IfSome result (λ s. length self.new.stops + 1 ≡ length self.old.stops) }
        ensures none { IfNone result (without_stops_of member self.old.stops ≡ self.old.stops) }
        ensures kept { IfNone result (self.new ≡ self.old) }
        ensures left { without_stops_of member self.new.stops ≡ without_stops_of member self.old.stops }
    {
        match self.names.pop(member) {
            None => None,
            Some((_reference, key)) => Some(self.queues.take(key).item),
        }
    }

    /// The stop of this name.
    pub fn find(&self, member: u32, reference: u32) -> Option<&Stop>
        ensures { option_copied result ≡ find (is_stop_named member reference) self.now.stops }
    {
        let key = self.names.get(member, reference)?;
        stop_of(self.queues.get(key))
    }

    /// The stops that the last price has reached leave in order of entry, and become pending behind those that are. There
    /// is room among the pending ones for all that are held. It costs what is reached: where none is, it asks the nearest
    /// trigger of each side.
    pub fn take_reached(&mut self, last: Price, pending: &mut Pending<A>)
        requires { length self.old.stops ≤ pending.old.room }
        ensures held { self.new ≡ record self.old { stops = filter (λ (s : Stop). not (is_reached last s)) self.old.stops } }
        ensures pending { pending.new ≡ joined_by (filter (is_reached last) self.old.stops) pending.old }
    {
        match self.queues.reached(last) {
            None => {}
            Some(_key) => take_leaving(
                &mut self.queues,
                &mut self.names,
                Reason::Reached(last),
                &mut pending.entries,
            ),
        }
    }

    /// The stops that aren't valid beyond this day leave in order of entry, and stand behind the pending ones, as at the end
    /// of the day. There is room among the pending ones for all that are held. It costs one pass over the keys.
    pub fn take_expired(&mut self, today: u32, pending: &mut Pending<A>)
        requires { length self.old.stops ≤ pending.old.room }
        ensures held { self.new ≡ record self.old { stops = filter (λ (s : Stop). outlasts today s.validity) self.old.stops } }
        ensures pending { pending.new ≡ joined_by (filter (λ (s : Stop). not (outlasts today s.validity)) self.old.stops) pending.old }
    {
        take_leaving(
            &mut self.queues,
            &mut self.names,
            Reason::Expired(today),
            &mut pending.entries,
        );
    }
}

/// The stops that were reached and wait to come in, the first of which comes in first, and those that a day has ended for,
/// which wait to be given up. `reserve` makes room, and nothing else takes memory.
#[derive(Drop)]
pub struct Pending<A: Allocator> {
    entries: EntryQueue<A>,
}

impl<A: Allocator> Model for Pending<A> {
    ghost use Rattle.std.specs.Prelude.{map};
    ghost use Rattle.xm_stops.specs.HeldStops.{PendingStops};
    ghost use Rattle.xm_stops.specs.Pending.{stop_of_entry};

    ghost Value = { PendingStops };

    ghost view = { λ p. record { stops = map stop_of_entry p.entries.entries; gone = map stop_of_entry p.entries.gone; room = p.entries.room } };
}

impl<A: Allocator> Pending<A> {
    /// No stop and no room, which takes no memory.
    pub fn new(alloc: A) -> Pending<A>
        ensures { result ≡ record { stops = []; gone = []; room = 0 } }
    {
        Pending {
            entries: EntryQueue::new(alloc),
        }
    }

    /// How many stops are pending.
    pub fn len(&self) -> usize
        ensures len { result ≡ length self.now.stops }
        ensures within { result + self.now.room < 2 ^ 64 }
    {
        self.entries.len()
    }

    /// Makes room for so many more, where there is less. Where a growth is refused, the answer is `OutOfMemory` and nothing
    /// changes.
    pub fn reserve(&mut self, more: usize) -> Result<(), OutOfMemory>
        ensures ok { OnOk result (self.new ≡ record self.old { room = max self.old.room more }) }
        ensures err { OnErr result (self.new ≡ self.old) }
    {
        self.entries.reserve(more)?;
        Ok(())
    }

    /// The first stop leaves. What there is room for stays as it is.
    pub fn pop(&mut self) -> Option<Stop>
        ensures first { result ≡ slice_get self.old.stops 0 }
        ensures rest { self.new ≡ record self.old { stops = drop 1 self.old.stops; gone = self.old.gone ++ option_to_list result } }
    {
        let entry = self.entries.pop()?;
        Some(entry.item)
    }

    /// Forgets the stops that have left. None is pending.
    #[inline(always)]
    pub fn forget(&mut self)
        requires { self.old.stops ≡ [] }
        ensures { self.new ≡ record self.old { gone = [] } }
    {
        self.entries.forget();
    }
}

impl<A: Allocator + Copy> Pending<A> {
    /// The stops that have left since these were last forgotten, or `OutOfMemory` where the answer can't be held.
    pub fn gone(&self) -> Result<Vec<Stop, A>, OutOfMemory>
        ensures { IfOk result (λ stops. stops.items ≡ self.now.gone) }
    {
        self.entries.gone()
    }
}
