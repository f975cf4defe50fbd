//! The set.
ghost use Rattle.std.specs.Prelude.{◌≡◌, ◌==◌, if◌then◌else◌, ℕ, ◌<◌, ◌≤◌, IfNone, IfSome, OnErr, OnOk, Ok, IsTrue, IsFalse, true, false};
ghost use Rattle.xm_price_maps.specs.Marks.{bit_of};
ghost use Rattle.xm_price_maps.specs.Set.{has, HasRoom, IsFirstPrice, IsLastPrice, IsNextAbove, IsNextBelow};

use crate::marks::{Mark, PRICES, place_above, place_below, put_mark};
use crate::page::{Page, is_made};
use crate::words::{PAGE_WORDS, unused_pages, word};
use std::alloc::Allocator;
use std::marker::Model;
use xm_memory::OutOfMemory;

/// How many prices a page has a bit for.
const PAGE_PRICES: usize = 64 * PAGE_WORDS;

/// A set of prices. `reserve` makes room for a price, which stays for ever; nothing else takes memory.
#[derive(Drop)]
pub struct PriceSet<A: Allocator + Copy> {
    alloc: A,
    pages: Vec<Page<u64, A>, A>,
}

impl<A: Allocator + Copy> Model for PriceSet<A> {
    ghost use Rattle.xm_price_maps.specs.Marks.{AreMarksSound};
    ghost use Rattle.xm_price_maps.specs.Set.{Prices};
    ghost use Rattle.xm_price_maps.specs.Words.{IsShaped};

    ghost Value = { Prices };

    ghost view = { λ s. record { pages = s.pages.items } };

    ghost invariant = { λ s. record {
      sound : AreMarksSound s.pages.items;
      shaped : IsShaped s.pages.items;
    } };
}

impl<A: Allocator + Copy> PriceSet<A> {
    /// The empty set, which has room for no price and has taken no memory.
    pub fn new(alloc: A) -> PriceSet<A>
        ensures { (n : ℕ) → has result n ≡ false }
    {
        PriceSet {
            alloc,
            pages: Vec::new(alloc),
        }
    }

    /// Whether a price has room.
    pub fn has_room(&self, price: u32) -> bool
        requires { price < PRICES }
        ensures some { IsTrue result → HasRoom self.now price }
        ensures none { IsFalse result → HasRoom self.now price → ⊥ }
    {
        is_made(&self.pages, price as usize / PAGE_PRICES)
    }

    /// Makes all the room that a price needs, if it has none yet.
    #[inline(always)]
    pub fn reserve(&mut self, price: u32) -> Result<(), OutOfMemory>
        requires { price < PRICES }
        ensures room { OnOk result (HasRoom self.new price) }
        ensures kept { (n : ℕ) → HasRoom self.old n → HasRoom self.new n }
        ensures same { (n : ℕ) → has self.new n ≡ has self.old n }
        ensures free { HasRoom self.old price → result ≡ Ok tt }
        ensures err { OnErr result (self.new ≡ self.old) }
    {
        if self.has_room(price) {
            return Ok(());
        }
        self.make_room(price)
    }

    /// Whether a price is a member.
    pub fn contains(&self, price: u32) -> bool
        requires { price < PRICES }
        ensures { result ≡ has self.now price }
    {
        let place = price as usize;
        word(&self.pages, place / 64) >> (place % 64) & 1 == 1
    }

    /// Puts in a price that has room.
    pub fn insert(&mut self, price: u32)
        requires in_range { price < PRICES }
        requires room { HasRoom self.old price }
        ensures members { (n : ℕ) → has self.new n ≡ (if n == price then true else has self.old n) }
        ensures kept { (n : ℕ) → HasRoom self.old n → HasRoom self.new n }
    {
        self.put(price, Mark::Set);
    }

    /// Takes out a price that has room, which stays.
    pub fn remove(&mut self, price: u32)
        requires in_range { price < PRICES }
        requires room { HasRoom self.old price }
        ensures members { (n : ℕ) → has self.new n ≡ (if n == price then false else has self.old n) }
        ensures kept { (n : ℕ) → HasRoom self.old n → HasRoom self.new n }
    {
        self.put(price, Mark::Clear);
    }

    /// The first member above a price.
    pub fn next_above(&self, price: u32) -> Option<u32>
        requires { price < PRICES }
        ensures some { IfSome result (IsNextAbove self.now price) }
        ensures none { IfNone result ((n : ℕ) → price < n → has self.now n ≡ false) }
    {
        match place_above(&self.pages, price as usize) {
            Some(place) => Some(place as u32),
            None => None,
        }
    }

    /// The last member below a price.
    pub fn next_below(&self, price: u32) -> Option<u32>
        requires { price < PRICES }
        ensures some { IfSome result (IsNextBelow self.now price) }
        ensures none { IfNone result ((n : ℕ) → n < price → has self.now n ≡ false) }
    {
        match place_below(&self.pages, price as usize) {
            Some(place) => Some(place as u32),
            None => None,
        }
    }

    /// The first member.
    pub fn first(&self) -> Option<u32>
        ensures some { IfSome result (IsFirstPrice self.now) }
        ensures none { IfNone result ((n : ℕ) → has self.now n ≡ false) }
    {
        if self.contains(0) {
            Some(0)
        } else {
            self.next_above(0)
        }
    }

    /// The last member.
    pub fn last(&self) -> Option<u32>
        ensures some { IfSome result (IsLastPrice self.now) }
        ensures none { IfNone result ((n : ℕ) → has self.now n ≡ false) }
    {
        if self.contains(PRICES - 1) {
            Some(PRICES - 1)
        } else {
            self.next_below(PRICES - 1)
        }
    }

    /// Puts in a price that has room, or takes it out.
    fn put(&mut self, price: u32, mark: Mark)
        requires in_range { price < PRICES }
        requires room { HasRoom self.old price }
        ensures members { (n : ℕ) → has self.new n ≡ (if n == price then bit_of mark == 1 else has self.old n) }
        ensures kept { (n : ℕ) → HasRoom self.old n → HasRoom self.new n }
    {
        put_mark(&mut self.pages, price as usize, mark);
    }

    /// Makes the page of a price that has none, and all pages where this is the first.
    #[inline(never)]
    fn make_room(&mut self, price: u32) -> Result<(), OutOfMemory>
        requires in_range { price < PRICES }
        requires none { HasRoom self.old price → ⊥ }
        ensures room { OnOk result (HasRoom self.new price) }
        ensures kept { (n : ℕ) → HasRoom self.old n → HasRoom self.new n }
        ensures same { (n : ℕ) → has self.new n ≡ has self.old n }
        ensures err { OnErr result (self.new ≡ self.old) }
    {
        let i = price as usize / PAGE_PRICES;
        let page = Page::filled(self.alloc, PAGE_WORDS, 0)?;
        if self.pages.is_empty() {
            let mut pages = unused_pages(self.alloc)?;
            pages[i] = page;
            self.pages = pages;
            return Ok(());
        }
        self.pages[i] = page;
        Ok(())
    }
}
