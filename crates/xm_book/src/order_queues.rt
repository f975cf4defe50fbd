//! The orders of a book in their queues.
ghost use Rattle.std.specs.Prelude.{◌≡◌, ℕ, ◌+◌, ◌++◌, ◌*◌, ◌∷◌, [], ◌<◌, ◌≤◌, ◌^◌, ◌&&◌, Contains, IfOk, IfSome, IsSome, IsTrue, OnErr, OnOk, Some, filter, length, map, option_copied, sum_by, true};
ghost use Rattle.std.specs.List.{list_all, list_any};
ghost use Rattle.std.specs.Option.{option_map};
ghost use Rattle.xm_slots.specs.Listing.{is_below, listed_item, is_other_key, keys_in, listed_entry, rises};
ghost use Rattle.xm_book.specs.declared.places.TheConstants.{MAX_PLACES};
ghost use Rattle.xm_ticks.specs.declared.numbers.TheConstants.{MAX_QUANTITY};
ghost use Rattle.xm_book.specs.Fronts.{IsBestOf, IsFirstOf, IsKindOfFirst, better_of_two, earlier_of_two, goes_ahead, has_kind, has_kind_later, has_limit_in, has_worse, is_any, is_earlier, is_in, is_on, lies_within};
ghost use Rattle.xm_book.specs.Listing.{order_owner, order_reference, reduced_at};
ghost use Rattle.xm_book.specs.Places.{place_of, same_place};
ghost use Rattle.xm_book.specs.Curves.{units_between};
ghost use Rattle.xm_book.specs.Queued.{units_in};
ghost use Rattle.xm_book.specs.Queues.{units_at};
ghost use Rattle.xm_book.specs.Reserved.{Gains};
ghost use Rattle.xm_slots.specs.Naming.{AreNamesOf, is_owned};
ghost use Rattle.xm_slots.specs.declared.listing.Listed.{Listed};
ghost use Rattle.xm_price_maps.specs.Sums.{groups_of, places_of};
ghost use Rattle.xm_price_maps.specs.declared.marks.TheConstants.{PRICES};
ghost use Rattle.xm_queues.specs.Keys.{AreDistinct};
ghost use Rattle.xm_rules.specs.Active.{active, is_active};
ghost use Rattle.xm_rules.specs.Commands.{is_in_range};
ghost use Rattle.xm_rules.specs.Sides.{opposite};
ghost use Rattle.xm_rules.specs.declared.orders.OrderKind.TheVariants.{Limit};

use crate::items::OrderItems;
use crate::levels::{join_level, leave_level, level_for, put_level, reserve_level};
use crate::places::{Place, Places};
use std::alloc::Allocator;
use std::marker::Model;
use xm_ladders::Ladders;
use xm_memory::OutOfMemory;
use xm_price_maps::GroupWidth;
use xm_queues::Queues;
use xm_rules::{Order, OrderKind, Phase, Restriction, Side};
use xm_slots::{Entry, Listed, Listing, Slots, hold};
use xm_ticks::Price;

/// The orders of a book under their keys, each in the queue of its side, restriction and limit.
#[derive(Drop)]
pub struct OrderQueues<A: Allocator + Copy> {
    entries: Slots<Order, A>,
    links: Queues<A>,
    ladders: Ladders<A>,
    // For each there is room for one more order in the other parts.
    places: Places,
    // The number of the next add.
    adds: u64,
    // The orders in time order.
    listing: Listing<Order>,
}

impl<A: Allocator + Copy> Model for OrderQueues<A> {
    ghost use Rattle.xm_book.specs.Queued.{AreOrdersKept, QueuedOrders};

    ghost Value = { QueuedOrders };

    ghost view = { λ q. record { orders = q.listing; reserved = q.places; adds = q.adds } };

    ghost invariant = { λ q. AreOrdersKept q.listing q.places q.adds q.entries q.links q.ladders };
}

impl<A: Allocator + Copy> OrderQueues<A> {
    /// No order, and no room, which takes no memory.
    pub fn new(alloc: A) -> OrderQueues<A>
        ensures { result ≡ record { orders = []; reserved = []; adds = 0 } }
    {
        OrderQueues {
            entries: Slots::new(alloc),
            links: Queues::new(alloc),
            ladders: Ladders::new(alloc),
            places: Places::new(),
            adds: 0,
            listing: Listing::new(),
        }
    }

    /// How many orders there are.
    pub fn len(&self) -> usize
        ensures { result ≡ length self.now.orders }
    {
        self.entries.len()
    }

    /// The order under a key, with the number of its add.
    pub fn get(&self, key: usize) -> Option<&Entry<Order>>
        ensures there { (x : Listed Order) → Contains self.now.orders x → x.key ≡ key → option_copied result ≡ Some (listed_entry x) }
        ensures held { IfSome (option_copied result) (Contains (map listed_entry self.now.orders)) }
        ensures key { IsSome (option_copied result) → Contains (keys_in self.now.orders) key }
    {
        self.entries.get(key)
    }

    /// A bound above each key.
    pub fn key_limit(&self) -> usize
        ensures { list_all (is_below result) self.now.orders ≡ true }
    {
        let _ = &self.listing;
        self.entries.key_limit()
    }

    /// Reserves a place.
    #[inline(always)]
    pub fn reserve(&mut self, place: &Place) -> Result<(), OutOfMemory>
        requires { length self.old.orders + length self.old.reserved < MAX_PLACES }
        ensures place { OnOk result (Gains place.now self.old.reserved self.new.reserved) }
        ensures rest { self.new ≡ record self.old { reserved = self.new.reserved } }
        ensures err { OnErr result (self.new ≡ self.old) }
    {
        let orders = self.entries.len() + self.places.len() + 1;
        hold(&mut self.links, &mut self.entries, orders)?;
        reserve_level(&mut self.ladders, place, self.places.len() + 1)?;
        self.places.add(place);
        Ok(())
    }

    /// Gives up a reserved place.
    pub fn release(&mut self, place: &Place)
        requires { IsTrue (list_any (same_place place.now) self.old.reserved) }
        ensures place { Gains place.now self.new.reserved self.old.reserved }
        ensures rest { self.new ≡ record self.old { reserved = self.new.reserved } }
    {
        self.places.release(place);
    }

    /// An order joins its queue last, in its reserved place, and the answer is its key.
    pub fn push(&mut self, order: &Order) -> usize
        requires reserved { IsTrue (list_any (same_place (place_of order.now)) self.old.reserved) }
        requires rest { IsTrue (is_in_range order.now.rest) }
        requires adds { self.old.adds < 2 ^ 63 }
        ensures orders { self.new.orders ≡ self.old.orders ++ record { key = result; time = self.old.adds; item = order.now } ∷ [] }
        ensures used { Gains (place_of order.now) self.new.reserved self.old.reserved }
        ensures adds { self.new.adds ≡ self.old.adds + 1 }
    {
        let time = self.adds;
        let key = self.entries.insert(Entry { item: *order, time });
        let mut ends = join_level(&mut self.ladders, &self.links, order, key).ends;
        self.links.push_back(&mut ends, key);
        self.listing.join(&Listed {
            key,
            time,
            item: *order,
        });
        self.places.release(&Place::of(order));
        self.adds += 1;
        key
    }

    /// The order of a key leaves.
    #[inline(always)]
    pub fn take(&mut self, key: usize) -> Order
        requires { Contains (keys_in self.old.orders) key }
        ensures order { (x : Listed Order) → Contains self.old.orders x → x.key ≡ key → result ≡ x.item }
        ensures left { self.new ≡ record self.old { orders = filter (is_other_key key) self.old.orders } }
        ensures distinct { AreDistinct (keys_in self.old.orders) }
    {
        let entry = self.entries.entry(key);
        let mut ends = leave_level(&mut self.ladders, &self.links, &entry.item, key).ends;
        self.links.unlink(&mut ends, key);
        let order = entry.item;
        self.entries.vacate(key);
        self.listing.leave(key);
        order
    }

    /// Gives the order of a key a rest that is at least 1 and no higher than the present one. It keeps its place.
    pub fn reduce(&mut self, key: usize, rest: u32)
        requires there { Contains (keys_in self.old.orders) key }
        requires rest { AreDistinct (keys_in self.old.orders) → (x : Listed Order) → Contains self.old.orders x → x.key ≡ key → (1 ≤ rest) × (rest ≤ x.item.rest) }
        ensures reduced { self.new ≡ record self.old { orders = map (reduced_at key rest) self.old.orders } }
        ensures distinct { AreDistinct (keys_in self.old.orders) }
    {
        let entry = self.entries.entry(key);
        let mut level = level_for(&self.ladders, &entry.item);
        level.units -= u64::from(entry.item.rest - rest);
        put_level(&mut self.ladders, &entry.item, level);
        let time = entry.time;
        let item = Order { rest, ..entry.item };
        self.entries.reduce_to::<OrderItems>(key, rest);
        self.listing.replace(&Listed { key, time, item });
    }
}

impl<A: Allocator + Copy> OrderQueues<A> {
    /// The orders in time order, each with the number of its add, or `OutOfMemory` where the answer can't be held.
    pub fn in_time(&self) -> Result<Vec<Entry<Order>, A>, OutOfMemory>
        ensures { IfOk result (λ entries. entries.items ≡ map listed_entry self.now.orders) }
    {
        let mut entries = self.entries.entries()?;
        entries.sort_unstable_by_key(|entry| entry.time);
        Ok(entries)
    }

    /// Those that have these names: all of one member.
    pub fn named_in_time(&self, names: &[(u32, usize)]) -> Result<Vec<Entry<Order>, A>, OutOfMemory>
        ensures { IfOk result (λ entries. (member : ℕ) → AreNamesOf order_owner order_reference member self.now.orders names.now → entries.items ≡ filter (is_owned order_owner order_reference member) (map listed_entry self.now.orders)) }
    {
        let mut entries = self.entries.entries_under(names)?;
        entries.sort_unstable_by_key(|entry| entry.time);
        Ok(entries)
    }
}

/// The earlier of two entries.
fn earlier_of_two<'a>(
    first: Option<&'a Entry<Order>>,
    second: Option<&'a Entry<Order>>,
) -> Option<&'a Entry<Order>>
    ensures { option_copied result ≡ earlier_of_two (option_copied first.entry) (option_copied second.entry) }
{
    match first {
        None => second,
        Some(a) => match second {
            None => Some(a),
            Some(b) => { if b.time < a.time { Some(b) } else { Some(a) } }
        },
    }
}

/// The better of two limits, where there are two.
fn better_of_two(side: Side, first: Option<Price>, second: Option<Price>) -> Option<Price>
    ensures { result ≡ better_of_two side first second }
{
    match first {
        None => second,
        Some(p) => match second {
            None => Some(p),
            Some(q) => Some(side.better(p, q)),
        },
    }
}

/// The kind of the orders at a limit, if there is one.
#[inline(always)]
fn limited(limit: Option<Price>) -> Option<OrderKind>
    ensures { result ≡ option_map Limit limit }
{
    match limit {
        None => None,
        Some(limit) => Some(OrderKind::Limit(limit)),
    }
}

/// What is asked by level and by priority. In continuous trading the free orders alone are active, so one ladder is
/// asked, without a call; in a call of an auction each answer is put together from those of the four restrictions, since
/// the orders of each stand in a ladder of their own.
impl<A: Allocator + Copy> OrderQueues<A> {
    /// The units that rest in the active orders of a side and kind.
    pub fn units_at(&self, side: Side, phase: Phase, kind: &OrderKind) -> u64
        ensures { result ≡ units_at kind.now (active phase side (map listed_item self.now.orders)) }
    {
        if phase.is_continuous() {
            return self.units_in(side, phase, Restriction::Free, kind);
        }
        self.units_of_all(side, phase, kind)
    }

    /// The same, put together from the answers of all restrictions.
    fn units_of_all(&self, side: Side, phase: Phase, kind: &OrderKind) -> u64
        ensures { result ≡ units_at kind.now (active phase side (map listed_item self.now.orders)) }
    {
        let free = self.units_in(side, phase, Restriction::Free, kind);
        let opening = self.units_in(side, phase, Restriction::OpeningOnly, kind);
        let auctions = self.units_in(side, phase, Restriction::AuctionsOnly, kind);
        let closing = self.units_in(side, phase, Restriction::ClosingOnly, kind);
        free + opening + auctions + closing
    }

    /// The best limit of the active orders of a side that is worse than this one, or the best of all.
    #[inline(always)]
    pub fn limit_after(&self, side: Side, phase: Phase, after: &Option<Price>) -> Option<Price>
        ensures { IsBestOf side (is_on phase side (has_worse side after.now)) self.now.orders result }
    {
        if phase.is_continuous() {
            return self.limit_in(side, phase, Restriction::Free, after);
        }
        self.limit_of_all(side, phase, after)
    }

    /// The same, put together from the answers of all restrictions.
    fn limit_of_all(&self, side: Side, phase: Phase, after: &Option<Price>) -> Option<Price>
        ensures { IsBestOf side (is_on phase side (has_worse side after.now)) self.now.orders result }
    {
        let free = self.limit_in(side, phase, Restriction::Free, after);
        let opening = self.limit_in(side, phase, Restriction::OpeningOnly, after);
        let auctions = self.limit_in(side, phase, Restriction::AuctionsOnly, after);
        let closing = self.limit_in(side, phase, Restriction::ClosingOnly, after);
        let early = better_of_two(side, free, opening);
        let late = better_of_two(side, auctions, closing);
        better_of_two(side, early, late)
    }

    /// The units of the active orders of a side with a limit in a group.
    pub fn units_between(&self, side: Side, phase: Phase, width: GroupWidth, group: u32) -> u64
        requires { group < groups_of width }
        ensures { result ≡ units_between phase side (group * places_of width) (places_of width) (map listed_item self.now.orders) }
    {
        let free = self.units_between_in(side, phase, Restriction::Free, width, group);
        let opening = self.units_between_in(side, phase, Restriction::OpeningOnly, width, group);
        let auctions = self.units_between_in(side, phase, Restriction::AuctionsOnly, width, group);
        let closing = self.units_between_in(side, phase, Restriction::ClosingOnly, width, group);
        free + opening + auctions + closing
    }

    /// The worst limit of the active orders of a side that lies within a bound.
    pub fn worst_within(&self, side: Side, phase: Phase, bound: u32) -> Option<Price>
        requires { bound + 1 < PRICES }
        ensures { IsBestOf (opposite side) (is_on phase side (lies_within side bound)) self.now.orders result }
    {
        let free = self.worst_in(side, phase, Restriction::Free, bound);
        let opening = self.worst_in(side, phase, Restriction::OpeningOnly, bound);
        let auctions = self.worst_in(side, phase, Restriction::AuctionsOnly, bound);
        let closing = self.worst_in(side, phase, Restriction::ClosingOnly, bound);
        let early = better_of_two(side.opposite(), free, opening);
        let late = better_of_two(side.opposite(), auctions, closing);
        better_of_two(side.opposite(), early, late)
    }

    /// The best active order of a side in priority.
    #[inline(always)]
    pub fn first(&self, side: Side, phase: Phase) -> Option<&Entry<Order>>
        ensures first { IsFirstOf (goes_ahead side) (is_on phase side is_any) self.now.orders (option_copied result) }
        ensures rise { rises 0 self.now.orders self.now.adds ≡ true }
    {
        let _ = &self.listing;
        match self.front(side, phase, &OrderKind::Market) {
            Some(entry) => Some(entry),
            None => self.first_limited(side, phase, &None),
        }
    }

    /// The kind of the best active order of a side in priority. An order that has a limit isn't read.
    #[inline(always)]
    pub fn first_kind(&self, side: Side, phase: Phase) -> Option<OrderKind>
        ensures kind { IsKindOfFirst (goes_ahead side) (is_on phase side is_any) self.now.orders result }
        ensures rise { rises 0 self.now.orders self.now.adds ≡ true }
    {
        let _ = &self.listing;
        match self.front(side, phase, &OrderKind::Market) {
            Some(_entry) => Some(OrderKind::Market),
            None => limited(self.limit_after(side, phase, &None)),
        }
    }

    /// The active order of a side that is next in priority after the order of a key; nothing where that order isn't an
    /// active one of the side.
    pub fn next_after(&self, side: Side, phase: Phase, key: usize) -> Option<&Entry<Order>>
        requires { Contains (keys_in self.now.orders) key }
        ensures next { (x : Listed Order) → Contains self.now.orders x → x.key ≡ key
            → IsFirstOf (goes_ahead side) (λ y. is_on phase side is_any x && is_on phase side (goes_ahead side x) y) self.now.orders (option_copied result) }
        ensures rise { rises 0 self.now.orders self.now.adds ≡ true }
    {
        let entry = self.entries.get(key)?;
        if entry.item.side != side || !entry.item.restriction.is_active(phase) {
            return None;
        }
        match self.later(phase, key, entry) {
            Some(later) => Some(later),
            None => self.first_limited(side, phase, &entry.item.kind.limit()),
        }
    }

    /// The units that rest in the orders of one restriction, where it is active.
    fn units_in(&self, side: Side, phase: Phase, restriction: Restriction, kind: &OrderKind) -> u64
        ensures units { result ≡ sum_by (λ (x : Listed Order). x.item.rest) (filter (is_in phase side restriction (has_kind kind.now)) self.now.orders) }
        ensures few { result ≤ MAX_QUANTITY * MAX_PLACES }
    {
        if !restriction.is_active(phase) {
            return 0;
        }
        match self.ladders.of(side).of(restriction).level(*kind) {
            None => 0,
            Some(level) => level.units,
        }
    }

    /// The units of the orders of one restriction with a limit in a group, where it is active.
    fn units_between_in(
        &self,
        side: Side,
        phase: Phase,
        restriction: Restriction,
        width: GroupWidth,
        group: u32,
    ) -> u64
        requires { group < groups_of width }
        ensures units { result ≡ units_in (filter (is_in phase side restriction (has_limit_in (group * places_of width) (places_of width))) self.now.orders) }
        ensures few { result ≤ MAX_QUANTITY * MAX_PLACES }
    {
        let _ = &self.listing;
        if restriction.is_active(phase) {
            self.ladders
                .of(side)
                .of(restriction)
                .units_between(width, group)
        } else {
            0
        }
    }

    /// The worst limit of the orders of one restriction that lies within a bound, where it is active.
    fn worst_in(
        &self,
        side: Side,
        phase: Phase,
        restriction: Restriction,
        bound: u32,
    ) -> Option<Price>
        requires { bound + 1 < PRICES }
        ensures { IsBestOf (opposite side) (is_in phase side restriction (lies_within side bound)) self.now.orders result }
    {
        let _ = &self.listing;
        if !restriction.is_active(phase) {
            return None;
        }
        self.ladders
            .of(side)
            .of(restriction)
            .worst_within(side, bound)
    }

    /// The best limit of the orders of one restriction, where it is active, that is worse than this one.
    #[inline(always)]
    fn limit_in(
        &self,
        side: Side,
        phase: Phase,
        restriction: Restriction,
        after: &Option<Price>,
    ) -> Option<Price>
        ensures { IsBestOf side (is_in phase side restriction (has_worse side after.now)) self.now.orders result }
    {
        if !restriction.is_active(phase) {
            return None;
        }
        let ladder = self.ladders.of(side).of(restriction);
        match after {
            None => ladder.best_limit(side),
            Some(limit) => ladder.next_limit(side, *limit),
        }
    }

    /// The earliest active order of a side and kind.
    #[inline(always)]
    fn front(&self, side: Side, phase: Phase, kind: &OrderKind) -> Option<&Entry<Order>>
        ensures { IsFirstOf is_earlier (is_on phase side (has_kind kind.now)) self.now.orders (option_copied result) }
    {
        if phase.is_continuous() {
            return self.front_in(side, phase, Restriction::Free, kind);
        }
        self.front_of_all(side, phase, kind)
    }

    /// The same, put together from the answers of all restrictions.
    fn front_of_all(&self, side: Side, phase: Phase, kind: &OrderKind) -> Option<&Entry<Order>>
        ensures { IsFirstOf is_earlier (is_on phase side (has_kind kind.now)) self.now.orders (option_copied result) }
    {
        let free = self.front_in(side, phase, Restriction::Free, kind);
        let opening = self.front_in(side, phase, Restriction::OpeningOnly, kind);
        let auctions = self.front_in(side, phase, Restriction::AuctionsOnly, kind);
        let closing = self.front_in(side, phase, Restriction::ClosingOnly, kind);
        let early = earlier_of_two(free, opening);
        let late = earlier_of_two(auctions, closing);
        earlier_of_two(early, late)
    }

    /// The earliest order of one restriction, where it is active, on a side and of a kind.
    #[inline(always)]
    fn front_in(
        &self,
        side: Side,
        phase: Phase,
        restriction: Restriction,
        kind: &OrderKind,
    ) -> Option<&Entry<Order>>
        ensures { IsFirstOf is_earlier (is_in phase side restriction (has_kind kind.now)) self.now.orders (option_copied result) }
    {
        if !restriction.is_active(phase) {
            return None;
        }
        let level = self.ladders.of(side).of(restriction).level(*kind)?;
        let key = level.ends.front()?;
        self.entries.get(key)
    }

    /// The best active order of a side whose limit is worse than this one, or the best that has a limit.
    #[inline(always)]
    fn first_limited(
        &self,
        side: Side,
        phase: Phase,
        after: &Option<Price>,
    ) -> Option<&Entry<Order>>
        ensures { IsFirstOf (goes_ahead side) (is_on phase side (has_worse side after.now)) self.now.orders (option_copied result) }
    {
        let limit = self.limit_after(side, phase, after)?;
        self.front(side, phase, &OrderKind::Limit(limit))
    }

    /// The earliest active order of the side and kind of an order that is later than it.
    fn later(&self, phase: Phase, key: usize, entry: &Entry<Order>) -> Option<&Entry<Order>>
        requires { (x : Listed Order) × Contains self.now.orders x × (x.key ≡ key) × (entry.now ≡ listed_entry x) }
        ensures { IsFirstOf is_earlier (is_on phase entry.now.item.side (has_kind_later entry.now.item.kind entry.now.time)) self.now.orders (option_copied result) }
    {
        let free = self.later_in(phase, Restriction::Free, key, entry);
        if phase.is_continuous() {
            return free;
        }
        let opening = self.later_in(phase, Restriction::OpeningOnly, key, entry);
        let auctions = self.later_in(phase, Restriction::AuctionsOnly, key, entry);
        let closing = self.later_in(phase, Restriction::ClosingOnly, key, entry);
        let early = earlier_of_two(free, opening);
        let late = earlier_of_two(auctions, closing);
        earlier_of_two(early, late)
    }

    /// The same among the orders of one restriction, where it is active. In the order's own queue it is the next. In
    /// another, which is asked in calls alone, it is looked for from the front on.
    fn later_in(
        &self,
        phase: Phase,
        restriction: Restriction,
        key: usize,
        entry: &Entry<Order>,
    ) -> Option<&Entry<Order>>
        requires { (x : Listed Order) × Contains self.now.orders x × (x.key ≡ key) × (entry.now ≡ listed_entry x) }
        ensures { IsFirstOf is_earlier (is_in phase entry.now.item.side restriction (has_kind_later entry.now.item.kind entry.now.time)) self.now.orders (option_copied result) }
    {
        if !restriction.is_active(phase) {
            return None;
        }
        if restriction == entry.item.restriction {
            let next = self.links.next(key)?;
            return self.entries.get(next);
        }
        self.first_later(phase, restriction, entry)
    }

    /// The earliest order of a restriction, which is active, that is later than an order, of the same side and kind.
    fn first_later(
        &self,
        phase: Phase,
        restriction: Restriction,
        entry: &Entry<Order>,
    ) -> Option<&Entry<Order>>
        requires { is_active phase restriction ≡ true }
        ensures { IsFirstOf is_earlier (is_in phase entry.now.item.side restriction (has_kind_later entry.now.item.kind entry.now.time)) self.now.orders (option_copied result) }
    {
        let level = self
            .ladders
            .of(entry.item.side)
            .of(restriction)
            .level(entry.item.kind)?;
        let mut key = level.ends.front();
        for _step in 0..level.orders {
            let at = key?;
            let other = self.entries.get(at)?;
            if entry.time < other.time {
                return Some(other);
            }
            key = self.links.next(at);
        }
        None
    }
}
