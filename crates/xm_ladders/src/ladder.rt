//! The levels of one side and restriction.
ghost use Rattle.std.specs.Prelude.{◌≡◌, if◌then◌else◌, ℕ, ◌+◌, ◌*◌, ◌<◌, ◌≤◌, IfNone, IfSome, IsSome, None, Some, OnOk, true, false};
ghost use Rattle.xm_ladders.specs.Ladder.{HasKind, HasLevels, IsBestLimit, IsCleared, IsNextLimit, IsWorstWithin, is_within, level_of, limit_level, units_above, units_of};
ghost use Rattle.xm_price_maps.specs.Sums.{groups_of, places_of};
ghost use Rattle.xm_price_maps.specs.declared.marks.TheConstants.{PRICES};
ghost use Rattle.xm_rules.specs.Orders.{same_kind};
ghost use Rattle.xm_rules.specs.Sides.{reaches};
ghost use Rattle.xm_rules.specs.declared.orders.OrderKind.{OrderKind};

use crate::level::{Level, MAX_LEVEL_UNITS};
use std::alloc::Allocator;
use std::marker::Model;
use xm_memory::OutOfMemory;
use xm_price_maps::{GroupWidth, Levels, PriceSums};
use xm_rules::{OrderKind, Side};
use xm_ticks::Price;

/// The market orders of one side and restriction, a level for each limit that has an order, and the units of the levels
/// in each group of limits. `reserve` makes room, and nothing else takes memory.
pub struct Ladder<A: Allocator + Copy> {
    market: Level,
    limits: Levels<Level, A>,
    sums: PriceSums<A>,
}

// In a function of its own, so that whoever drops a ladder proves one call.
impl<A: Allocator + Copy> Drop for Ladder<A> {
    fn drop(self) {
        let Ladder {
            market: _,
            limits: _limits,
            sums: _sums,
        } = self;
    }
}

impl<A: Allocator + Copy> Model for Ladder<A> {
    ghost use Rattle.xm_ladders.specs.Ladder.{HasOrders, IsSummed, LadderView};

    ghost Value = { LadderView };

    ghost view = { λ l. record { market = l.market; limits = l.limits; sums = l.sums } };

    ghost invariant = { λ l. record {
      orders : HasOrders l.limits;
      summed : IsSummed l.limits l.sums;
    } };
}

impl<A: Allocator + Copy> Ladder<A> {
    /// A ladder without an order, which has taken no memory.
    pub fn new(alloc: A) -> Ladder<A>
        ensures { (kind : OrderKind) → IsCleared (level_of result kind) }
    {
        Ladder {
            market: Level::empty(),
            limits: Levels::new(alloc),
            sums: PriceSums::new(alloc),
        }
    }

    /// Makes all the room that orders of a kind need, which stays, and room for so many levels more.
    pub fn reserve(&mut self, kind: OrderKind, levels: usize) -> Result<(), OutOfMemory>
        ensures kind { OnOk result (HasKind self.new kind) }
        ensures room { OnOk result (HasLevels self.new kind levels) }
        ensures kinds_kept { (k : OrderKind) → HasKind self.old k → HasKind self.new k }
        ensures room_kept { (k : OrderKind) (n : ℕ) → HasLevels self.old k n → HasLevels self.new k n }
        ensures same { (k : OrderKind) → level_of self.new k ≡ level_of self.old k }
    {
        match kind {
            OrderKind::Market => Ok(()),
            OrderKind::Limit(limit) => {
                self.sums.reserve(place_of(limit))?;
                self.limits.reserve(limit.get(), levels)
            }
        }
    }

    /// The level of orders of a kind.
    #[inline(always)]
    pub fn level(&self, kind: OrderKind) -> Option<Level>
        ensures { result ≡ level_of self.now kind }
    {
        match kind {
            OrderKind::Market => Some(self.market),
            OrderKind::Limit(limit) => self.limits.get(limit.get()),
        }
    }

    /// Puts a level with an order in place of the one that was there. One that is new takes room.
    #[inline(always)]
    pub fn put(&mut self, kind: OrderKind, level: Level)
        requires kind { HasKind self.old kind }
        requires orders { 0 < level.orders }
        requires units { level.units ≤ MAX_LEVEL_UNITS }
        requires room { level_of self.old kind ≡ None → HasLevels self.old kind 1 }
        ensures levels { (k : OrderKind) → level_of self.new k ≡ (if same_kind k kind then Some level else level_of self.old k) }
        ensures kinds_kept { (k : OrderKind) → HasKind self.old k → HasKind self.new k }
        ensures room_used { (k : OrderKind) (n : ℕ) → HasLevels self.old k (n + 1) → HasLevels self.new k n }
        ensures room_kept { IsSome (level_of self.old kind) → (k : OrderKind) (n : ℕ) → HasLevels self.old k n → HasLevels self.new k n }
    {
        match kind {
            OrderKind::Market => self.market = level,
            OrderKind::Limit(limit) => {
                let before = units_of(self.limits.get(limit.get()));
                let units = level.units;
                self.limits.put(limit.get(), level);
                self.sums.replace(place_of(limit), before, units);
            }
        }
    }

    /// Leaves a level without an order.
    #[inline(always)]
    pub fn clear(&mut self, kind: OrderKind)
        requires { HasKind self.old kind }
        ensures cleared { IsCleared (level_of self.new kind) }
        ensures others { (k : OrderKind) → same_kind k kind ≡ false → level_of self.new k ≡ level_of self.old k }
        ensures kinds_kept { (k : OrderKind) → HasKind self.old k → HasKind self.new k }
        ensures room_kept { (k : OrderKind) (n : ℕ) → HasLevels self.old k n → HasLevels self.new k n }
    {
        match kind {
            OrderKind::Market => self.market = Level::empty(),
            OrderKind::Limit(limit) => {
                let before = units_of(self.limits.get(limit.get()));
                self.limits.remove(limit.get());
                self.sums.replace(place_of(limit), before, 0);
            }
        }
    }

    /// The best limit that has an order: the highest on the buy side, the lowest on the sell side.
    #[inline(always)]
    pub fn best_limit(&self, side: Side) -> Option<Price>
        ensures some { IfSome result (IsBestLimit side self.now) }
        ensures none { IfNone result ((p : ℕ) → limit_level self.now p ≡ None) }
    {
        let price = match side {
            Side::Buy => self.limits.last(),
            Side::Sell => self.limits.first(),
        };
        Price::new(price?)
    }

    /// The best limit that is worse than another and has an order.
    pub fn next_limit(&self, side: Side, after: Price) -> Option<Price>
        ensures some { IfSome result (IsNextLimit side after self.now) }
        ensures none { IfNone result ((p : ℕ) → reaches side p after ≡ false → limit_level self.now p ≡ None) }
    {
        let price = match side {
            Side::Buy => self.limits.next_below(after.get()),
            Side::Sell => self.limits.next_above(after.get()),
        };
        Price::new(price?)
    }

    /// The worst limit that has an order and lies within a bound: above it on the buy side, not above it on the sell side.
    pub fn worst_within(&self, side: Side, bound: u32) -> Option<Price>
        requires { bound + 1 < PRICES }
        ensures some { IfSome result (IsWorstWithin side bound self.now) }
        ensures none { IfNone result ((p : ℕ) → is_within side bound p ≡ true → limit_level self.now p ≡ None) }
    {
        let price = match side {
            Side::Buy => self.limits.next_above(bound),
            Side::Sell => self.limits.next_below(bound + 1),
        };
        Price::new(price?)
    }

    /// The units of the levels of a group of limits.
    pub fn units_between(&self, width: GroupWidth, group: u32) -> u64
        requires { group < groups_of width }
        ensures { result ≡ units_above self.now.limits (group * places_of width) (places_of width) }
    {
        let _ = &self.market;
        self.sums.get(width, group)
    }
}

/// The units of a level, where there is one.
#[inline(always)]
fn units_of(level: Option<Level>) -> u64
    ensures { result ≡ units_of level }
{
    match level {
        None => 0,
        Some(level) => level.units,
    }
}

/// The place under which the units of a limit are summed.
#[inline(always)]
fn place_of(limit: Price) -> u32
    ensures { result + 1 ≡ limit }
{
    limit.get() - 1
}
