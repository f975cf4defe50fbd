//! The triggers of one side that are in use.
ghost use Rattle.std.specs.Prelude.{◌≡◌, ◌==◌, if◌then◌else◌, ℕ, ◌+◌, ◌≤◌, IfNone, IfSome, IsSome, None, Some, OnOk};
ghost use Rattle.xm_price_maps.specs.Levels.{HasPrice, HasLevelRoom, level_at};
ghost use Rattle.xm_stops.specs.Triggers.{IsQueueFound, IsNearest};
ghost use Rattle.xm_ticks.specs.declared.numbers.TheConstants.{MAX_PRICE};

use std::alloc::Allocator;
use std::marker::Model;
use xm_memory::OutOfMemory;
use xm_price_maps::Levels;
use xm_queues::Ends;
use xm_rules::Side;

/// The queue of each trigger that a stop of one side has. `reserve` makes room, and nothing else takes memory.
pub struct TriggerTable<A: Allocator + Copy> {
    queues: Levels<Ends, A>,
}

// In a function of its own, so that whoever drops a table proves one call.
impl<A: Allocator + Copy> Drop for TriggerTable<A> {
    fn drop(self) {
        let TriggerTable { queues: _queues } = self;
    }
}

impl<A: Allocator + Copy> Model for TriggerTable<A> {
    ghost use Rattle.xm_price_maps.specs.Levels.{LevelsView};
    ghost use Rattle.xm_queues.specs.declared.queues.Ends.{Ends};

    ghost Value = { LevelsView Ends };

    ghost view = { λ t. t.queues };
}

impl<A: Allocator + Copy> TriggerTable<A> {
    /// No trigger, which takes no memory.
    pub fn new(alloc: A) -> TriggerTable<A>
        ensures { (p : ℕ) → level_at result p ≡ None }
    {
        TriggerTable {
            queues: Levels::new(alloc),
        }
    }

    /// Makes all the room that a trigger needs, which stays, and room for one queue more.
    pub fn reserve(&mut self, trigger: u32) -> Result<(), OutOfMemory>
        requires { trigger ≤ MAX_PRICE }
        ensures price { OnOk result (HasPrice self.new trigger) }
        ensures room { OnOk result (HasLevelRoom self.new 1) }
        ensures prices_kept { (p : ℕ) → HasPrice self.old p → HasPrice self.new p }
        ensures room_kept { (n : ℕ) → HasLevelRoom self.old n → HasLevelRoom self.new n }
        ensures same { (p : ℕ) → level_at self.new p ≡ level_at self.old p }
    {
        self.queues.reserve(trigger, 1)
    }

    /// The queue of a trigger.
    #[inline(always)]
    pub fn get(&self, trigger: u32) -> Option<Ends>
        requires { trigger ≤ MAX_PRICE }
        ensures { result ≡ level_at self.now trigger }
    {
        self.queues.get(trigger)
    }

    /// The queue of a trigger, or an empty one.
    #[inline(always)]
    pub fn queue(&self, trigger: u32) -> Ends
        requires { trigger ≤ MAX_PRICE }
        ensures { IsQueueFound (level_at self.now trigger) result }
    {
        match self.queues.get(trigger) {
            Some(ends) => ends,
            None => Ends::new(),
        }
    }

    /// Gives a trigger this queue. A trigger that had none takes room.
    #[inline(always)]
    pub fn put(&mut self, trigger: u32, ends: Ends)
        requires in_range { trigger ≤ MAX_PRICE }
        requires price { HasPrice self.old trigger }
        requires room { level_at self.old trigger ≡ None → HasLevelRoom self.old 1 }
        ensures queues { (p : ℕ) → level_at self.new p ≡ (if p == trigger then Some ends else level_at self.old p) }
        ensures prices_kept { (p : ℕ) → HasPrice self.old p → HasPrice self.new p }
        ensures room_kept { IsSome (level_at self.old trigger) → (n : ℕ) → HasLevelRoom self.old n → HasLevelRoom self.new n }
    {
        self.queues.put(trigger, ends);
    }

    /// Takes the queue of a trigger away. Its room stays.
    pub fn remove(&mut self, trigger: u32)
        requires in_range { trigger ≤ MAX_PRICE }
        requires price { HasPrice self.old trigger }
        ensures queues { (p : ℕ) → level_at self.new p ≡ (if p == trigger then None else level_at self.old p) }
        ensures prices_kept { (p : ℕ) → HasPrice self.old p → HasPrice self.new p }
        ensures room_kept { (n : ℕ) → HasLevelRoom self.old n → HasLevelRoom self.new n }
    {
        self.queues.remove(trigger);
    }

    /// The trigger of the stops of this side that the last price reaches first: the lowest of buys, the highest of sells.
    #[inline(always)]
    pub fn nearest(&self, side: Side) -> Option<u32>
        ensures some { IfSome result (IsNearest side self.now) }
        ensures none { IfNone result ((p : ℕ) → level_at self.now p ≡ None) }
    {
        match side {
            Side::Buy => self.queues.first(),
            Side::Sell => self.queues.last(),
        }
    }
}
