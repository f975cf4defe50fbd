//! The queues of both sides, by trigger.
ghost use Rattle.std.specs.Prelude.{◌≡◌, if◌then◌else◌, ℕ, ◌≤◌, IsSome, None, OnOk, Some, false};
ghost use Rattle.std.specs.Borrow.{sem};
ghost use Rattle.xm_rules.specs.declared.orders.Side.{Side};
ghost use Rattle.xm_stops.specs.Triggers.{HasQueueRoom, HasTrigger, IsQueueFound, IsQueueSet, is_same_place, queue_of, table_of};
ghost use Rattle.xm_ticks.specs.declared.numbers.TheConstants.{MAX_PRICE};

use crate::trigger_table::TriggerTable;
use std::alloc::Allocator;
use xm_memory::OutOfMemory;
use xm_queues::Ends;
use xm_rules::Side;

/// The queues of each side, by trigger.
#[derive(Drop)]
pub struct TriggerQueues<A: Allocator + Copy> {
    buys: TriggerTable<A>,
    sells: TriggerTable<A>,
}

impl<A: Allocator + Copy> TriggerQueues<A> {
    ghost use Rattle.xm_stops.specs.Lends.{lends_table};

    /// No queue, which takes no memory.
    pub fn new(alloc: A) -> TriggerQueues<A>
        ensures { (s : Side) (p : ℕ) → queue_of result s p ≡ None }
    {
        TriggerQueues {
            buys: TriggerTable::new(alloc),
            sells: TriggerTable::new(alloc),
        }
    }

    /// The table of a side.
    #[inline(always)]
    pub fn of(&self, side: Side) -> &TriggerTable<A>
        ensures { result.now ≡ table_of side self.now }
    {
        match side {
            Side::Buy => &self.buys,
            Side::Sell => &self.sells,
        }
    }

    /// The table of a side, to change.
    #[inline(always)]
    fn of_mut(&mut self, side: Side) -> &mut TriggerTable<A>
        ensures* writes_back { sem 𝓛 (lends_table A.row A.Allocator self.entry side result) }
        ensures value { result.now ≡ table_of side self.old }
    {
        match side {
            Side::Buy => &mut self.buys,
            Side::Sell => &mut self.sells,
        }
    }

    /// Makes all the room that a stop of this side and trigger needs.
    pub fn reserve(&mut self, side: Side, trigger: u32) -> Result<(), OutOfMemory>
        requires { trigger ≤ MAX_PRICE }
        ensures trigger { OnOk result (HasTrigger self.new side trigger) }
        ensures room { OnOk result (HasQueueRoom self.new side) }
        ensures triggers_kept { (s : Side) (p : ℕ) → HasTrigger self.old s p → HasTrigger self.new s p }
        ensures room_kept { (s : Side) → HasQueueRoom self.old s → HasQueueRoom self.new s }
        ensures same { (s : Side) (p : ℕ) → queue_of self.new s p ≡ queue_of self.old s p }
    {
        self.of_mut(side).reserve(trigger)
    }

    /// The queue of a side and trigger, or an empty one.
    #[inline(always)]
    pub fn queue(&self, side: Side, trigger: u32) -> Ends
        requires { trigger ≤ MAX_PRICE }
        ensures { IsQueueFound (queue_of self.now side trigger) result }
    {
        self.of(side).queue(trigger)
    }

    /// Gives a side and trigger a queue with a stop.
    #[inline(always)]
    pub fn put(&mut self, side: Side, trigger: u32, ends: Ends)
        requires in_range { trigger ≤ MAX_PRICE }
        requires trigger { HasTrigger self.old side trigger }
        requires room { queue_of self.old side trigger ≡ None → HasQueueRoom self.old side }
        ensures queues { (s : Side) (p : ℕ) → queue_of self.new s p ≡ (if is_same_place s p side trigger then Some ends else queue_of self.old s p) }
        ensures triggers_kept { (s : Side) (p : ℕ) → HasTrigger self.old s p → HasTrigger self.new s p }
        ensures room_kept { IsSome (queue_of self.old side trigger) → (s : Side) → HasQueueRoom self.old s → HasQueueRoom self.new s }
    {
        self.of_mut(side).put(trigger, ends);
    }

    /// Sets the queue of a side and trigger, which had one. Where it is empty now, it goes, and its room stays.
    #[inline(always)]
    pub fn set(&mut self, side: Side, trigger: u32, ends: Ends)
        requires in_range { trigger ≤ MAX_PRICE }
        requires trigger { HasTrigger self.old side trigger }
        requires there { IsSome (queue_of self.old side trigger) }
        ensures set { IsQueueSet (queue_of self.new side trigger) ends }
        ensures others { (s : Side) (p : ℕ) → is_same_place s p side trigger ≡ false → queue_of self.new s p ≡ queue_of self.old s p }
        ensures triggers_kept { (s : Side) (p : ℕ) → HasTrigger self.old s p → HasTrigger self.new s p }
        ensures room_kept { (s : Side) → HasQueueRoom self.old s → HasQueueRoom self.new s }
    {
        let table = self.of_mut(side);
        match ends.front() {
            Some(_key) => table.put(trigger, ends),
            None => table.remove(trigger),
        }
    }
}
