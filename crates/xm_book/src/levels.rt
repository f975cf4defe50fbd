//! The level of an order.
ghost use Rattle.std.specs.Prelude.{◌≡◌, if◌then◌else◌, ℕ, ◌+◌, ◌<◌, ◌≤◌, ◌^◌, ◌&&◌, IsSome, IsTrue, None, OnOk, Some, false};
ghost use Rattle.xm_book.specs.Levels.{IsLevelFound, IsLevelSet, at_level, level_for, level_joined, level_left};
ghost use Rattle.xm_book.specs.Queued.{HasKindOf, is_limit_kind};
ghost use Rattle.xm_ladders.specs.Ladder.{HasKind, HasLevels, IsCleared, level_of};
ghost use Rattle.xm_ladders.specs.Ladders.{ladder_on, level_on, side_of};
ghost use Rattle.xm_ladders.specs.declared.level.Level.{Level};
ghost use Rattle.xm_queues.specs.Queue.{HasKey, key_limit};
ghost use Rattle.xm_rules.specs.Orders.{same_restriction};
ghost use Rattle.xm_rules.specs.Sides.{same_side};
ghost use Rattle.xm_rules.specs.declared.orders.OrderKind.{OrderKind};
ghost use Rattle.xm_rules.specs.declared.orders.Restriction.{Restriction};
ghost use Rattle.xm_rules.specs.declared.orders.Side.{Side};

use crate::places::Place;
use std::alloc::Allocator;
use xm_ladders::{Ladder, Ladders, Level, MAX_LEVEL_UNITS};
use xm_memory::OutOfMemory;
use xm_queues::Queues;
use xm_rules::{Order, OrderKind};

/// The level in which an order stands or is to stand.
#[inline(always)]
pub fn level_for<A: Allocator + Copy>(ladders: &Ladders<A>, order: &Order) -> Level
    ensures { IsLevelFound (level_for order.now ladders.now) result }
{
    level_of_kind(ladders.of(order.side).of(order.restriction), order.kind)
}

/// The level of orders of a kind.
#[inline(always)]
fn level_of_kind<A: Allocator + Copy>(ladder: &Ladder<A>, kind: OrderKind) -> Level
    ensures { IsLevelFound (level_of ladder.now kind) result }
{
    match ladder.level(kind) {
        Some(level) => level,
        None => Level::empty(),
    }
}

/// A level once an order has joined it under this key, the last.
#[inline(always)]
fn level_joined<A: Allocator>(links: &Queues<A>, level: &Level, order: &Order, key: usize) -> Level
    requires key { key < key_limit links.now }
    requires orders { level.now.orders + 1 < 2 ^ 32 }
    requires units { level.now.units + order.now.rest < 2 ^ 64 }
    ensures { result ≡ level_joined level.now order.now key }
{
    Level {
        ends: links.ends_with(&level.ends, key),
        orders: level.orders + 1,
        units: level.units + u64::from(order.rest),
    }
}

/// A level once the order under this key has left it.
#[inline(always)]
fn level_left<A: Allocator>(links: &Queues<A>, level: &Level, order: &Order, key: usize) -> Level
    requires key { HasKey links.now level.now.ends key }
    requires orders { 1 ≤ level.now.orders }
    requires units { order.now.rest ≤ level.now.units }
    ensures { result ≡ level_left links.now level.now order.now key }
{
    Level {
        ends: links.ends_without(&level.ends, key),
        orders: level.orders - 1,
        units: level.units - u64::from(order.rest),
    }
}

/// Puts a level with an order where this order stands or is to stand.
#[inline(always)]
pub fn put_level<A: Allocator + Copy>(ladders: &mut Ladders<A>, order: &Order, level: Level)
    requires kind { HasKind (ladder_on order.now.restriction (side_of order.now.side ladders.old)) order.now.kind }
    requires orders { 0 < level.orders }
    requires units { level.units ≤ MAX_LEVEL_UNITS }
    requires room { level_for order.now ladders.old ≡ None → HasLevels (ladder_on order.now.restriction (side_of order.now.side ladders.old)) order.now.kind 1 }
    ensures levels { (s : Side) (r : Restriction) (k : OrderKind) → level_on (side_of s ladders.new) r k ≡ (if at_level s r k order.now then Some level else level_on (side_of s ladders.old) r k) }
    ensures kinds_kept { (s : Side) (r : Restriction) (k : OrderKind) → HasKind (ladder_on r (side_of s ladders.old)) k → HasKind (ladder_on r (side_of s ladders.new)) k }
    ensures room_used { (s : Side) (r : Restriction) (k : OrderKind) (n : ℕ) → HasLevels (ladder_on r (side_of s ladders.old)) k (n + 1) → HasLevels (ladder_on r (side_of s ladders.new)) k n }
    ensures room_kept { IsSome (level_for order.now ladders.old) → (s : Side) (r : Restriction) (k : OrderKind) (n : ℕ) → HasLevels (ladder_on r (side_of s ladders.old)) k n → HasLevels (ladder_on r (side_of s ladders.new)) k n }
    ensures other_ladder { (s : Side) (r : Restriction) → (same_side s order.now.side && same_restriction r order.now.restriction) ≡ false → ladder_on r (side_of s ladders.new) ≡ ladder_on r (side_of s ladders.old) }
{
    ladders
        .of_mut(order.side)
        .of_mut(order.restriction)
        .put(order.kind, level);
}

/// An order joins the level in which it is to stand, under this key, the last. Gives the level before. The level is written
/// where it was read: the links of its queue follow it.
#[inline(always)]
pub fn join_level<A: Allocator + Copy>(
    ladders: &mut Ladders<A>,
    links: &Queues<A>,
    order: &Order,
    key: usize,
) -> Level
    requires key { key < key_limit links.now }
    requires orders { (level : Level) → IsLevelFound (level_for order.now ladders.old) level → level.orders + 1 < 2 ^ 32 }
    requires units { (level : Level) → IsLevelFound (level_for order.now ladders.old) level → level.units + order.now.rest ≤ MAX_LEVEL_UNITS }
    requires kind { HasKind (ladder_on order.now.restriction (side_of order.now.side ladders.old)) order.now.kind }
    requires room { level_for order.now ladders.old ≡ None → HasLevels (ladder_on order.now.restriction (side_of order.now.side ladders.old)) order.now.kind 1 }
    ensures found { IsLevelFound (level_for order.now ladders.old) result }
    ensures levels { (s : Side) (r : Restriction) (k : OrderKind) → level_on (side_of s ladders.new) r k ≡ (if at_level s r k order.now then Some (level_joined result order.now key) else level_on (side_of s ladders.old) r k) }
    ensures kinds_kept { (s : Side) (r : Restriction) (k : OrderKind) → HasKind (ladder_on r (side_of s ladders.old)) k → HasKind (ladder_on r (side_of s ladders.new)) k }
    ensures room_used { (s : Side) (r : Restriction) (k : OrderKind) (n : ℕ) → HasLevels (ladder_on r (side_of s ladders.old)) k (n + 1) → HasLevels (ladder_on r (side_of s ladders.new)) k n }
    ensures room_kept { IsSome (level_for order.now ladders.old) → (s : Side) (r : Restriction) (k : OrderKind) (n : ℕ) → HasLevels (ladder_on r (side_of s ladders.old)) k n → HasLevels (ladder_on r (side_of s ladders.new)) k n }
    ensures other_ladder { (s : Side) (r : Restriction) → (same_side s order.now.side && same_restriction r order.now.restriction) ≡ false → ladder_on r (side_of s ladders.new) ≡ ladder_on r (side_of s ladders.old) }
{
    let ladder = ladders.of_mut(order.side).of_mut(order.restriction);
    // Each arm writes, so that the compiler knows in each whether the level is there.
    match ladder.level(order.kind) {
        Some(before) => {
            ladder.put(order.kind, level_joined(links, &before, order, key));
            before
        }
        None => {
            let before = Level::empty();
            ladder.put(order.kind, level_joined(links, &before, order, key));
            before
        }
    }
}

/// The order under this key leaves its level, which is cleared where it was the only one. Gives the level before. The level is
/// written where it was read: the links of its queue follow it.
#[inline(always)]
pub fn leave_level<A: Allocator + Copy>(
    ladders: &mut Ladders<A>,
    links: &Queues<A>,
    order: &Order,
    key: usize,
) -> Level
    requires key { (level : Level) → IsLevelFound (level_for order.now ladders.old) level → HasKey links.now level.ends key }
    requires orders { (level : Level) → IsLevelFound (level_for order.now ladders.old) level → 1 ≤ level.orders }
    requires units { (level : Level) → IsLevelFound (level_for order.now ladders.old) level → order.now.rest ≤ level.units }
    requires few { (level : Level) → IsLevelFound (level_for order.now ladders.old) level → level.units ≤ MAX_LEVEL_UNITS }
    requires kind { HasKind (ladder_on order.now.restriction (side_of order.now.side ladders.old)) order.now.kind }
    requires there { IsSome (level_for order.now ladders.old) }
    ensures found { IsLevelFound (level_for order.now ladders.old) result }
    ensures set { IsLevelSet (level_for order.now ladders.new) (level_left links.now result order.now key) }
    ensures others { (s : Side) (r : Restriction) (k : OrderKind) → at_level s r k order.now ≡ false → level_on (side_of s ladders.new) r k ≡ level_on (side_of s ladders.old) r k }
    ensures kinds_kept { (s : Side) (r : Restriction) (k : OrderKind) → HasKind (ladder_on r (side_of s ladders.old)) k → HasKind (ladder_on r (side_of s ladders.new)) k }
    ensures room_kept { (s : Side) (r : Restriction) (k : OrderKind) (n : ℕ) → HasLevels (ladder_on r (side_of s ladders.old)) k n → HasLevels (ladder_on r (side_of s ladders.new)) k n }
{
    let ladder = ladders.of_mut(order.side).of_mut(order.restriction);
    let before = ladder.level(order.kind).unwrap();
    let left = level_left(links, &before, order, key);
    if left.orders == 0 {
        ladder.clear(order.kind);
    } else {
        ladder.put(order.kind, left);
    }
    before
}

/// Makes room for orders of a place's kind in its ladder, and for so many levels more.
#[inline(always)]
pub fn reserve_level<A: Allocator + Copy>(
    ladders: &mut Ladders<A>,
    place: &Place,
    levels: usize,
) -> Result<(), OutOfMemory>
    ensures kind { OnOk result (HasKindOf ladders.new place.now) }
    ensures room { OnOk result ((k : OrderKind) → IsTrue (is_limit_kind place.now.kind) → HasLevels (ladder_on place.now.restriction (side_of place.now.side ladders.new)) k levels) }
    ensures kinds_kept { (s : Side) (r : Restriction) (k : OrderKind) → HasKind (ladder_on r (side_of s ladders.old)) k → HasKind (ladder_on r (side_of s ladders.new)) k }
    ensures room_kept { (s : Side) (r : Restriction) (k : OrderKind) (n : ℕ) → HasLevels (ladder_on r (side_of s ladders.old)) k n → HasLevels (ladder_on r (side_of s ladders.new)) k n }
    ensures same { (s : Side) (r : Restriction) (k : OrderKind) → level_on (side_of s ladders.new) r k ≡ level_on (side_of s ladders.old) r k }
{
    ladders
        .of_mut(place.side)
        .of_mut(place.restriction)
        .reserve(place.kind, levels)
}
