//! The map.
ghost use Rattle.std.specs.Prelude.{◌≡◌, ◌==◌, if◌then◌else◌, ℕ, ◌<◌, None, Some, OnOk, OnErr, Ok, IsTrue, IsFalse};
ghost use Rattle.xm_price_maps.specs.Map.{value_at, HasValueRoom};

use crate::marks::PRICES;
use crate::page::{Page, absent_pages, is_made, slot_at};
use std::alloc::Allocator;
use std::marker::Model;
use xm_memory::OutOfMemory;

/// How many slots a page has. A map that is used at one price takes one page and what says where
/// each page is, which is 24 bytes a page: as many pages as slots make both together least where a
/// slot takes 24 bytes, and little more from 8 to 64.
const PAGE_SLOTS: usize = 1024;

/// How many pages there are.
const PAGES: usize = 1024;

/// A map from prices. `reserve` makes room for a price, which stays for ever; nothing else takes memory.
#[derive(Drop)]
pub struct PriceMap<V, A: Allocator + Copy> {
    alloc: A,
    pages: Vec<Page<Option<V>, A>, A>,
}

impl<V, A: Allocator + Copy> Model for PriceMap<V, A> {
    ghost use Rattle.std.specs.Prelude.{List, Option};
    ghost use Rattle.xm_price_maps.specs.Map.{IsMapShaped};

    ghost Value = { List (List (Option V)) };

    ghost view = { λ m. m.pages.items };

    ghost invariant = { λ m. IsMapShaped m.pages.items };
}

impl<V: Copy, A: Allocator + Copy> PriceMap<V, A> {
    /// The empty map, which has room for no price and has taken no memory.
    pub fn new(alloc: A) -> PriceMap<V, A>
        ensures { (p : ℕ) → value_at result p ≡ None }
    {
        PriceMap {
            alloc,
            pages: Vec::new(alloc),
        }
    }

    /// Whether a price has room.
    pub fn has_room(&self, price: u32) -> bool
        requires { price < PRICES }
        ensures some { IsTrue result → HasValueRoom self.now price }
        ensures none { IsFalse result → HasValueRoom self.now price → ⊥ }
    {
        is_made(&self.pages, price as usize / PAGE_SLOTS)
    }

    /// Makes all the room that a price needs, if it has none yet.
    #[inline(always)]
    pub fn reserve(&mut self, price: u32) -> Result<(), OutOfMemory>
        requires { price < PRICES }
        ensures room { OnOk result (HasValueRoom self.new price) }
        ensures kept { (p : ℕ) → HasValueRoom self.old p → HasValueRoom self.new p }
        ensures same { (p : ℕ) → value_at self.new p ≡ value_at self.old p }
        ensures free { HasValueRoom self.old price → result ≡ Ok tt }
        ensures err { OnErr result (self.new ≡ self.old) }
    {
        if self.has_room(price) {
            return Ok(());
        }
        self.make_room(price)
    }

    /// The value under a price.
    #[inline(always)]
    pub fn get(&self, price: u32) -> Option<V>
        requires { price < PRICES }
        ensures { result ≡ value_at self.now price }
    {
        let place = price as usize;
        slot_at(&self.pages, place / PAGE_SLOTS, place % PAGE_SLOTS, None)
    }

    /// Puts a value under a price that has room, and gives the one that was there.
    pub fn insert(&mut self, price: u32, value: V) -> Option<V>
        requires in_range { price < PRICES }
        requires room { HasValueRoom self.old price }
        ensures value { result ≡ value_at self.old price }
        ensures values { (p : ℕ) → value_at self.new p ≡ (if p == price then Some value else value_at self.old p) }
        ensures kept { (p : ℕ) → HasValueRoom self.old p → HasValueRoom self.new p }
    {
        self.replace(price, Some(value))
    }

    /// Takes the value from under a price that has room, which stays.
    pub fn remove(&mut self, price: u32) -> Option<V>
        requires in_range { price < PRICES }
        requires room { HasValueRoom self.old price }
        ensures value { result ≡ value_at self.old price }
        ensures values { (p : ℕ) → value_at self.new p ≡ (if p == price then None else value_at self.old p) }
        ensures kept { (p : ℕ) → HasValueRoom self.old p → HasValueRoom self.new p }
    {
        self.replace(price, None)
    }

    /// Puts a value or none under a price that has room, and gives what was there.
    fn replace(&mut self, price: u32, value: Option<V>) -> Option<V>
        requires in_range { price < PRICES }
        requires room { HasValueRoom self.old price }
        ensures value { result ≡ value_at self.old price }
        ensures values { (p : ℕ) → value_at self.new p ≡ (if p == price then value else value_at self.old p) }
        ensures kept { (p : ℕ) → HasValueRoom self.old p → HasValueRoom self.new p }
    {
        let place = price as usize;
        self.pages[place / PAGE_SLOTS].replace(place % PAGE_SLOTS, value)
    }

    /// Makes the page of a price that has none, and all pages where this is the first.
    #[inline(never)]
    fn make_room(&mut self, price: u32) -> Result<(), OutOfMemory>
        requires in_range { price < PRICES }
        requires none { HasValueRoom self.old price → ⊥ }
        ensures room { OnOk result (HasValueRoom self.new price) }
        ensures kept { (p : ℕ) → HasValueRoom self.old p → HasValueRoom self.new p }
        ensures same { (p : ℕ) → value_at self.new p ≡ value_at self.old p }
        ensures err { OnErr result (self.new ≡ self.old) }
    {
        let i = price as usize / PAGE_SLOTS;
        let page = Page::filled(self.alloc, PAGE_SLOTS, None)?;
        if self.pages.is_empty() {
            let mut pages = absent_pages(self.alloc, PAGES)?;
            pages[i] = page;
            self.pages = pages;
            return Ok(());
        }
        self.pages[i] = page;
        Ok(())
    }
}
