//! The book of one security.
ghost use Rattle.std.specs.Prelude.{◌≡◌, ◌+◌, ◌++◌, ◌∷◌, ◌*◌, ◌<◌, ◌≤◌, ◌==◌, ◌^◌, [], Contains, IsTrue, filter, map, length, find, false, option_copied, IfOk, IfSome, OnErr, OnOk};
ghost use Rattle.std.specs.Option.{option_map};
ghost use Rattle.xm_book.specs.declared.places.TheConstants.{MAX_PLACES};
ghost use Rattle.xm_book.specs.Curves.{units_between, worst_within};
ghost use Rattle.xm_book.specs.Places.{SamePlaces, place_of};
ghost use Rattle.xm_book.specs.Queues.{best_order, level_after, market_sum, next_order, taken_from};
ghost use Rattle.xm_book.specs.TimeList.{IsBook, Reserves, is_known, is_reserved};
ghost use Rattle.xm_price_maps.specs.Sums.{groups_of, places_of};
ghost use Rattle.xm_price_maps.specs.declared.marks.TheConstants.{PRICES};
ghost use Rattle.xm_rules.specs.Active.{active, limits};
ghost use Rattle.xm_rules.specs.Commands.{is_in_range, outlasts};
ghost use Rattle.xm_rules.specs.declared.orders.Order.{Order};
ghost use Rattle.xm_slots.specs.declared.entry.Entry.{Entry};
ghost use Rattle.xm_rules.specs.Orders.{is_named, removed, with_rest, without_member};
ghost use Rattle.xm_rules.specs.Sides.{best};

use crate::expiry::drop_expired;
use crate::order_queues::OrderQueues;
use crate::places::Place;
use std::alloc::Allocator;
use std::marker::Model;
use xm_memory::OutOfMemory;
use xm_name_index::{Names, Storage};
use xm_price_maps::GroupWidth;
use xm_rules::{Order, OrderKind, Phase, Side};
use xm_slots::Entry;
use xm_ticks::Price;

/// The live orders of one security. A clause sees them in time order, with the places that are
/// reserved and the number of adds so far.
pub struct Book<A: Allocator + Copy> {
    queues: OrderQueues<A>,
    names: Names<A>,
}

// In a function of its own, so that whoever drops a book proves one call.
impl<A: Allocator + Copy> Drop for Book<A> {
    fn drop(self) {
        let Book {
            queues: _queues,
            names: _names,
        } = self;
    }
}

impl<A: Allocator + Copy> Model for Book<A> {
    ghost use Rattle.std.specs.Prelude.{map};
    ghost use Rattle.xm_book.specs.Indexed.{AreOrdersIndexed};
    ghost use Rattle.xm_book.specs.TimeList.{TimeList};
    ghost use Rattle.xm_slots.specs.Listing.{listed_item};

    ghost Value = { TimeList };

    ghost view = { λ b. record { orders = map listed_item b.queues.orders; reserved = b.queues.reserved; adds = b.queues.adds } };

    ghost invariant = { λ b. AreOrdersIndexed b.queues b.names };
}

/// The order of an entry.
fn order_of(found: Option<&Entry<Order>>) -> Option<&Order>
    ensures { option_copied result ≡ option_map (λ e. e.item) (option_copied found.entry) }
{
    match found {
        Some(entry) => Some(&entry.item),
        None => None,
    }
}

/// The orders of entries.
fn items_of<A: Allocator + Copy>(
    entries: &Vec<Entry<Order>, A>,
) -> Result<Vec<Order, A>, OutOfMemory>
    ensures { IfOk result (λ orders. orders.items ≡ map (λ (e : Entry Order). e.item) entries.now.items) }
{
    let alloc = *entries.allocator();
    let orders = entries.iter().map(|entry| entry.item).collect(alloc)?;
    Ok(orders)
}

impl<A: Allocator + Copy> Book<A> {
    /// A book with no order, which takes no memory.
    pub fn new(storage: Storage<A>) -> Book<A>
        ensures { result ≡ record { orders = []; reserved = []; adds = 0 } }
    {
        Book {
            queues: OrderQueues::new(storage.alloc),
            names: Names::new(storage),
        }
    }

    /// The orders in time order, or `OutOfMemory` where the answer can't be held.
    pub fn orders(&self) -> Result<Vec<Order, A>, OutOfMemory>
        ensures { IfOk result (λ orders. orders.items ≡ self.now.orders) }
    {
        let entries = self.queues.in_time()?;
        items_of(&entries)
    }

    /// A member's orders in time order, or `OutOfMemory` where the answer can't be held. The cost grows with their number alone.
    pub fn of_member(&self, member: u32) -> Result<Vec<Order, A>, OutOfMemory>
        ensures { IfOk result (λ orders. orders.items ≡ filter (λ (o : Order). o.member == member) self.now.orders) }
    {
        let names = self.names.of_member(member)?;
        let entries = self.queues.named_in_time(&names)?;
        items_of(&entries)
    }

    /// How many orders there are.
    pub fn len(&self) -> usize
        ensures len { result ≡ length self.now.orders }
        ensures book { IsBook self.now }
    {
        self.queues.len()
    }

    /// Reserves what an order of this place takes, so that its `add` can't fail. Before it, orders and reserved places
    /// together are below `MAX_PLACES`. Where a growth is refused, the answer is `OutOfMemory` and nothing changes.
    #[inline(always)]
    pub fn reserve_for(&mut self, place: &Place) -> Result<(), OutOfMemory>
        requires { length self.old.orders + length self.old.reserved < MAX_PLACES }
        ensures ok { OnOk result (Reserves place.now self.old self.new) }
        ensures err { OnErr result (self.new ≡ self.old) }
    {
        self.names.reserve(place.member)?;
        match self.queues.reserve(place) {
            Ok(()) => Ok(()),
            Err(refused) => {
                self.names.release(place.member);
                Err(refused)
            }
        }
    }

    /// Gives up a reserved place.
    pub fn release(&mut self, place: &Place)
        requires { IsTrue (is_reserved place.now self.old) }
        ensures { Reserves place.now self.new self.old }
    {
        self.queues.release(place);
        self.names.release(place.member);
    }

    /// Puts an order into its reserved place, the last in time. No live order has its name, its rest is 1 to 1,000,000
    /// units, and there were fewer than 2^63 adds before.
    pub fn add(&mut self, order: Order)
        requires reserved { IsTrue (is_reserved (place_of order) self.old) }
        requires name { is_known order.member order.reference self.old ≡ false }
        requires rest { IsTrue (is_in_range order.rest) }
        requires adds { self.old.adds < 2 ^ 63 }
        ensures orders { self.new.orders ≡ self.old.orders ++ order ∷ [] }
        ensures adds { self.new.adds ≡ self.old.adds + 1 }
        ensures used { SamePlaces self.old.reserved (place_of order ∷ self.new.reserved) }
    {
        let key = self.queues.push(&order);
        self.names.insert(order.member, order.reference, key);
    }

    /// Takes the order of this name out of the book.
    pub fn remove(&mut self, member: u32, reference: u32) -> Option<Order>
        ensures found { result ≡ find (is_named member reference) self.old.orders }
        ensures left { self.new ≡ record self.old { orders = removed member reference self.old.orders } }
    {
        match self.names.remove(member, reference) {
            None => None,
            Some(key) => Some(self.queues.take(key)),
        }
    }

    /// Takes all orders of a member out of the book, at a cost that grows with their number alone.
    pub fn remove_all(&mut self, member: u32)
        ensures { self.new ≡ record self.old { orders = without_member member self.old.orders } }
    {
        while self.remove_any(member) {}
    }

    /// Takes some order of a member out of the book, or answers `false` where it has none.
    fn remove_any(&mut self, member: u32) -> bool
        ensures none { result ≡ false → self.new ≡ record self.old { orders = without_member member self.old.orders } }
        ensures some { IsTrue result → length self.new.orders < length self.old.orders }
        ensures left { without_member member self.new.orders ≡ without_member member self.old.orders }
        ensures rest { self.new ≡ record self.old { orders = self.new.orders } }
    {
        match self.names.pop(member) {
            None => false,
            Some((_reference, key)) => {
                self.queues.take(key);
                true
            }
        }
    }

    /// Takes the orders that aren't valid beyond this day out of the book, in one pass over it.
    pub fn remove_expired(&mut self, today: u32)
        ensures { self.new ≡ record self.old { orders = filter (λ (o : Order). outlasts today o.validity) self.old.orders } }
    {
        drop_expired(&mut self.queues, &mut self.names, today);
    }

    /// Gives the order of this name a rest, in units, that is at least 1 and no higher than the present one. It keeps its
    /// place in time. Where no order has the name, the answer is `false` and nothing changes.
    pub fn reduce(&mut self, member: u32, reference: u32, rest: u32) -> bool
        requires { IfSome (find (is_named member reference) self.old.orders) (λ o. (1 ≤ rest) × (rest ≤ o.rest)) }
        ensures known { result ≡ is_known member reference self.old }
        ensures reduced { self.new ≡ record self.old { orders = with_rest member reference rest self.old.orders } }
        ensures unknown { result ≡ false → self.new ≡ self.old }
    {
        match self.names.get(member, reference) {
            None => false,
            Some(key) => {
                self.queues.reduce(key, rest);
                true
            }
        }
    }

    /// Takes units from an order of the book, which has as many. An order that has none left is gone, and another keeps its
    /// place in time.
    pub fn fill(&mut self, order: &Order, units: u32)
        requires there { Contains self.old.orders order.now }
        requires some { 1 ≤ units }
        requires within { units ≤ order.now.rest }
        ensures { self.new ≡ record self.old { orders = taken_from order.now units self.old.orders } }
    {
        let _ = self.len(); // What every book keeps is known of one whose length is asked.
        if units == order.rest {
            self.remove(order.member, order.reference);
        } else {
            self.reduce(order.member, order.reference, order.rest - units);
        }
    }

    /// The order of this name.
    pub fn find(&self, member: u32, reference: u32) -> Option<&Order>
        ensures { option_copied result ≡ find (is_named member reference) self.now.orders }
    {
        let key = self.names.get(member, reference)?;
        order_of(self.queues.get(key))
    }
}

/// What is asked of the active orders of a side.
impl<A: Allocator + Copy> Book<A> {
    /// The best active order of a side in priority.
    #[inline(always)]
    pub fn best(&self, side: Side, phase: Phase) -> Option<&Order>
        ensures { option_copied result ≡ best_order phase side self.now.orders }
    {
        order_of(self.queues.first(side, phase))
    }

    /// The kind of the best active order of a side in priority.
    #[inline(always)]
    pub fn best_kind(&self, side: Side, phase: Phase) -> Option<OrderKind>
        ensures { result ≡ option_map (λ (o : Order). o.kind) (best_order phase side self.now.orders) }
    {
        self.queues.first_kind(side, phase)
    }

    /// The active order of a side that is next in priority after the order of this name; nothing where no active order
    /// of the side has it.
    pub fn next_after(&self, side: Side, phase: Phase, order: &Order) -> Option<&Order>
        ensures { option_copied result ≡ next_order phase side order.now.member order.now.reference self.now.orders }
    {
        let key = self.names.get(order.member, order.reference)?;
        order_of(self.queues.next_after(side, phase, key))
    }

    /// The best limit of the active orders of a side.
    #[inline(always)]
    pub fn best_limit(&self, side: Side, phase: Phase) -> Option<Price>
        ensures { result ≡ best side (limits (active phase side self.now.orders)) }
    {
        self.queues.limit_after(side, phase, &None)
    }

    /// The units that rest in the active market orders of a side.
    pub fn market_sum(&self, side: Side, phase: Phase) -> u64
        ensures { result ≡ market_sum phase side self.now.orders }
    {
        self.queues.units_at(side, phase, &OrderKind::Market)
    }

    /// The best limit of the active orders of a side that is worse than this one, or the best of all where there is none,
    /// with the units that rest at it.
    pub fn level_after(
        &self,
        side: Side,
        phase: Phase,
        after: Option<Price>,
    ) -> Option<(Price, u64)>
        ensures { result ≡ level_after phase side after self.now.orders }
    {
        let limit = self.queues.limit_after(side, phase, &after)?;
        let units = self.queues.units_at(side, phase, &OrderKind::Limit(limit));
        Some((limit, units))
    }

    /// The units of a side's active orders with a limit in a group of prices: one of those above `group * places`, as many as a
    /// group of this width has places.
    pub fn units_between(&self, side: Side, phase: Phase, width: GroupWidth, group: u32) -> u64
        requires { group < groups_of width }
        ensures { result ≡ units_between phase side (group * places_of width) (places_of width) self.now.orders }
    {
        self.queues.units_between(side, phase, width, group)
    }

    /// The worst limit of a side's active orders that lies within a bound: above it on the buy side, not above it on the sell
    /// side.
    pub fn worst_within(&self, side: Side, phase: Phase, bound: u32) -> Option<Price>
        requires { bound + 1 < PRICES }
        ensures { result ≡ worst_within phase side bound self.now.orders }
    {
        self.queues.worst_within(side, phase, bound)
    }
}
