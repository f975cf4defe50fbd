//! Levels by price.
ghost use Rattle.std.specs.Prelude.{◌≡◌, ◌==◌, if◌then◌else◌, ℕ, ◌+◌, ◌<◌, IfNone, IfSome, IsSome, None, Some, OnOk};
ghost use Rattle.xm_price_maps.specs.Map.{value_at};
ghost use Rattle.xm_price_maps.specs.Levels.{HasPrice, HasLevelRoom, IsFirstLevel, IsLastLevel, IsLevelAbove, IsLevelBelow, level_at};

use crate::bounded::BoundedSet;
use crate::map::PriceMap;
use crate::marks::PRICES;
use slab::Slab;
use std::alloc::Allocator;
use std::marker::Model;
use xm_memory::OutOfMemory;

/// A level and its price.
#[derive(Clone, Copy)]
struct Priced<L> {
    price: u32,
    level: L,
}

/// Levels by price, of which the first, the last and the next are found in constant time.
/// `reserve` makes room, and nothing else takes memory.
#[derive(Drop)]
pub struct Levels<L, A: Allocator + Copy> {
    prices: BoundedSet<A>,
    keys: PriceMap<usize, A>,
    levels: Slab<Priced<L>, A>,
}

impl<L, A: Allocator + Copy> Model for Levels<L, A> {
    ghost use Rattle.xm_price_maps.specs.Map.{value_at};
    ghost use Rattle.xm_price_maps.specs.Levels.{IsLaidOut, LevelsView};

    ghost Value = { LevelsView L };

    ghost view = { λ l. record { prices = l.prices; keys = l.keys; slab = l.levels } };

    ghost invariant = { λ l. IsLaidOut l.prices l.keys l.levels };
}

impl<L: Copy, A: Allocator + Copy> Levels<L, A> {
    /// No level, which has taken no memory.
    pub fn new(alloc: A) -> Levels<L, A>
        ensures { (p : ℕ) → level_at result p ≡ None }
    {
        Levels {
            prices: BoundedSet::new(alloc),
            keys: PriceMap::new(alloc),
            levels: Slab::new(alloc),
        }
    }

    /// Makes all the room that a price needs, which stays, and room for so many levels more.
    pub fn reserve(&mut self, price: u32, levels: usize) -> Result<(), OutOfMemory>
        requires { price < PRICES }
        ensures price { OnOk result (HasPrice self.new price) }
        ensures room { OnOk result (HasLevelRoom self.new levels) }
        ensures prices_kept { (p : ℕ) → HasPrice self.old p → HasPrice self.new p }
        ensures room_kept { (n : ℕ) → HasLevelRoom self.old n → HasLevelRoom self.new n }
        ensures same { (p : ℕ) → level_at self.new p ≡ level_at self.old p }
    {
        self.prices.reserve(price)?;
        self.keys.reserve(price)?;
        self.levels.reserve(levels)?;
        Ok(())
    }

    /// The level of a price.
    #[inline(always)]
    pub fn get(&self, price: u32) -> Option<L>
        requires { price < PRICES }
        ensures { result ≡ level_at self.now price }
    {
        let key = self.keys.get(price)?;
        let priced = self.levels[key];
        Some(priced.level)
    }

    /// Puts a level under a price that has room, in place of the one that was there. One that is new takes room.
    #[inline(always)]
    pub fn put(&mut self, price: u32, level: L)
        requires in_range { price < PRICES }
        requires price { HasPrice self.old price }
        requires room { level_at self.old price ≡ None → HasLevelRoom self.old 1 }
        ensures levels { (p : ℕ) → level_at self.new p ≡ (if p == price then Some level else level_at self.old p) }
        ensures prices_kept { (p : ℕ) → HasPrice self.old p → HasPrice self.new p }
        ensures room_used { (n : ℕ) → HasLevelRoom self.old (n + 1) → HasLevelRoom self.new n }
        ensures room_kept { IsSome (level_at self.old price) → (n : ℕ) → HasLevelRoom self.old n → HasLevelRoom self.new n }
    {
        match self.keys.get(price) {
            Some(key) => self.overwrite(price, key, level),
            None => {
                // What is passed on lies in memory, and the one above goes to its level from registers.
                let first = level;
                self.begin(price, first);
            }
        }
    }

    /// Puts another level under the key of a price. The level alone is written, so that it goes there from registers.
    #[inline(always)]
    fn overwrite(&mut self, price: u32, key: usize, level: L)
        requires { value_at self.old.keys price ≡ Some key }
        ensures levels { (p : ℕ) → level_at self.new p ≡ (if p == price then Some level else level_at self.old p) }
        ensures prices_kept { (p : ℕ) → HasPrice self.old p → HasPrice self.new p }
        ensures room_kept { (n : ℕ) → HasLevelRoom self.old n → HasLevelRoom self.new n }
    {
        self.levels[key].level = level;
    }

    fn begin(&mut self, price: u32, level: L)
        requires in_range { price < PRICES }
        requires price { HasPrice self.old price }
        requires absent { value_at self.old.keys price ≡ None }
        requires room { HasLevelRoom self.old 1 }
        ensures levels { (p : ℕ) → level_at self.new p ≡ (if p == price then Some level else level_at self.old p) }
        ensures prices_kept { (p : ℕ) → HasPrice self.old p → HasPrice self.new p }
        ensures room_used { (n : ℕ) → HasLevelRoom self.old (n + 1) → HasLevelRoom self.new n }
    {
        let key = self.levels.insert_reserved(Priced { price, level });
        self.keys.insert(price, key);
        self.prices.insert(price);
    }

    /// Takes the level of a price away. Its room stays.
    pub fn remove(&mut self, price: u32)
        requires in_range { price < PRICES }
        requires price { HasPrice self.old price }
        ensures levels { (p : ℕ) → level_at self.new p ≡ (if p == price then None else level_at self.old p) }
        ensures prices_kept { (p : ℕ) → HasPrice self.old p → HasPrice self.new p }
        ensures room_kept { (n : ℕ) → HasLevelRoom self.old n → HasLevelRoom self.new n }
    {
        match self.keys.get(price) {
            Some(key) => self.end(price, key),
            None => {}
        }
    }

    fn end(&mut self, price: u32, key: usize)
        requires in_range { price < PRICES }
        requires price { HasPrice self.old price }
        requires there { value_at self.old.keys price ≡ Some key }
        ensures levels { (p : ℕ) → level_at self.new p ≡ (if p == price then None else level_at self.old p) }
        ensures prices_kept { (p : ℕ) → HasPrice self.old p → HasPrice self.new p }
        ensures room_kept { (n : ℕ) → HasLevelRoom self.old n → HasLevelRoom self.new n }
    {
        self.levels.remove(key);
        self.keys.remove(price);
        self.prices.remove(price);
    }

    /// The price of the first level.
    pub fn first(&self) -> Option<u32>
        ensures some { IfSome result (IsFirstLevel self.now) }
        ensures none { IfNone result ((p : ℕ) → level_at self.now p ≡ None) }
    {
        self.prices.first()
    }

    /// The price of the last level.
    pub fn last(&self) -> Option<u32>
        ensures some { IfSome result (IsLastLevel self.now) }
        ensures none { IfNone result ((p : ℕ) → level_at self.now p ≡ None) }
    {
        self.prices.last()
    }

    /// The price of the first level above a price.
    pub fn next_above(&self, price: u32) -> Option<u32>
        requires { price < PRICES }
        ensures some { IfSome result (IsLevelAbove self.now price) }
        ensures none { IfNone result ((p : ℕ) → price < p → level_at self.now p ≡ None) }
    {
        self.prices.next_above(price)
    }

    /// The price of the last level below a price.
    pub fn next_below(&self, price: u32) -> Option<u32>
        requires { price < PRICES }
        ensures some { IfSome result (IsLevelBelow self.now price) }
        ensures none { IfNone result ((p : ℕ) → p < price → level_at self.now p ≡ None) }
    {
        self.prices.next_below(price)
    }
}
