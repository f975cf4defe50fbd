//! Held stops leave and stand behind the pending ones.
ghost use Rattle.std.specs.Prelude.{◌≡◌, ℕ, ◌+◌, ◌-◌, ◌<◌, ◌≤◌, ◌++◌, ◌∷◌, [], Contains, IsTrue, false, filter, length, true};
ghost use Rattle.xm_queues.specs.Keys.{AreDistinct};
ghost use Rattle.xm_stops.specs.Drained.{IsDrained};
ghost use Rattle.xm_stops.specs.Indexed.{AreStopsIndexed};
ghost use Rattle.xm_rules.specs.declared.orders.Stop.{Stop};
ghost use Rattle.xm_slots.specs.Listing.{is_other_key, keys_in, listed_entry, stays};
ghost use Rattle.xm_stops.specs.Pending.{entries_that};
ghost use Rattle.xm_stops.specs.Queued.{IsPassedAt};
ghost use Rattle.xm_stops.specs.Reasons.{is_leaving};
ghost use Rattle.xm_slots.specs.declared.listing.Listed.{Listed};
ghost use Rattle.xm_stops.specs.declared.taking.Reason.TheVariants.{Expired, Reached};

use crate::entry_queue::EntryQueue;
use crate::stop_queues::StopQueues;
use std::alloc::Allocator;
use xm_name_index::Names;
use xm_ticks::Price;

/// Why stops leave.
#[derive(Clone, Copy)]
pub enum Reason {
    /// The last price has reached them.
    Reached(Price),
    /// They aren't valid beyond this day.
    Expired(u32),
}

/// Takes the stops out that leave for a reason, with their names, and puts them behind the pending ones in order of entry.
pub fn take_leaving<A: Allocator + Copy>(
    queues: &mut StopQueues<A>,
    names: &mut Names<A>,
    reason: Reason,
    pending: &mut EntryQueue<A>,
)
    requires indexed { AreStopsIndexed queues.old names.old }
    requires room { length queues.old.stops ≤ pending.old.room }
    ensures indexed { AreStopsIndexed queues.new names.new }
    ensures held { queues.new ≡ record queues.old { stops = filter (stays (is_leaving reason)) queues.old.stops } }
    ensures pending { pending.new.entries ≡ pending.old.entries ++ entries_that (is_leaving reason) queues.old.stops }
    ensures room_left { pending.new.room ≡ pending.old.room - length (entries_that (is_leaving reason) queues.old.stops) }
    ensures gone { pending.new.gone ≡ pending.old.gone }
{
    let _ = queues.len(); // What every queue keeps is known of one whose length is asked.
    let waiting = pending.len();
    drain(queues, names, reason, pending);
    pending.sort_behind(waiting);
}

/// Takes the stops out that leave for a reason, with their names, in some order.
fn drain<A: Allocator + Copy>(
    queues: &mut StopQueues<A>,
    names: &mut Names<A>,
    reason: Reason,
    pending: &mut EntryQueue<A>,
)
    requires indexed { AreStopsIndexed queues.old names.old }
    requires room { length queues.old.stops ≤ pending.old.room }
    ensures indexed { AreStopsIndexed queues.new names.new }
    ensures drained { IsDrained (is_leaving reason) queues.old queues.new pending.old pending.new }
    ensures all { filter (is_leaving reason) queues.new.stops ≡ [] }
{
    match reason {
        Reason::Reached(last) => drain_reached(queues, names, last, pending),
        Reason::Expired(today) => drain_expired(queues, names, today, pending),
    }
}

/// Takes the stops out that the last price has reached, trigger by trigger.
fn drain_reached<A: Allocator + Copy>(
    queues: &mut StopQueues<A>,
    names: &mut Names<A>,
    last: Price,
    pending: &mut EntryQueue<A>,
)
    requires indexed { AreStopsIndexed queues.old names.old }
    requires room { length queues.old.stops ≤ pending.old.room }
    ensures indexed { AreStopsIndexed queues.new names.new }
    ensures drained { IsDrained (is_leaving (Reached last)) queues.old queues.new pending.old pending.new }
    ensures all { filter (is_leaving (Reached last)) queues.new.stops ≡ [] }
{
    while let Some(key) = queues.reached(last) {
        take_at(queues, names, key, pending);
    }
}

/// Takes the stops out that aren't valid beyond a day, in one pass over the keys.
fn drain_expired<A: Allocator + Copy>(
    queues: &mut StopQueues<A>,
    names: &mut Names<A>,
    today: u32,
    pending: &mut EntryQueue<A>,
)
    requires indexed { AreStopsIndexed queues.old names.old }
    requires room { length queues.old.stops ≤ pending.old.room }
    ensures indexed { AreStopsIndexed queues.new names.new }
    ensures drained { IsDrained (is_leaving (Expired today)) queues.old queues.new pending.old pending.new }
    ensures all { filter (is_leaving (Expired today)) queues.new.stops ≡ [] }
{
    for key in 0..queues.key_limit() {
        if has_expired(queues, key, today) {
            take_at(queues, names, key, pending);
        }
    }
}

/// Whether a key has a stop that isn't valid beyond a day.
fn has_expired<A: Allocator + Copy>(queues: &StopQueues<A>, key: usize, today: u32) -> bool
    ensures expired { IsTrue result → IsPassedAt (is_leaving (Expired today)) queues.now.stops key }
    ensures valid { result ≡ false → (x : Listed Stop) → Contains queues.now.stops x → x.key ≡ key → stays (is_leaving (Expired today)) x ≡ true }
{
    match queues.get(key) {
        Some(entry) => !entry.item.validity.outlasts(today),
        None => false,
    }
}

/// The stop of a key leaves, with its name, and stands behind the pending ones.
#[inline(always)]
fn take_at<A: Allocator + Copy>(
    queues: &mut StopQueues<A>,
    names: &mut Names<A>,
    key: usize,
    pending: &mut EntryQueue<A>,
)
    requires indexed { AreStopsIndexed queues.old names.old }
    requires there { Contains (keys_in queues.old.stops) key }
    requires room { 0 < pending.old.room }
    ensures indexed { AreStopsIndexed queues.new names.new }
    ensures left { queues.new ≡ record queues.old { stops = filter (is_other_key key) queues.old.stops } }
    ensures distinct { AreDistinct (keys_in queues.old.stops) }
    ensures pending { (x : Listed Stop) → Contains queues.old.stops x → x.key ≡ key → pending.new ≡ record pending.old { entries = pending.old.entries ++ listed_entry x ∷ []; room = pending.old.room - 1 } }
{
    let entry = queues.take(key);
    names.remove(entry.item.member, entry.item.reference);
    pending.push(entry);
}
