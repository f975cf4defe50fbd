//! Sums by groups of places.
ghost use Rattle.std.specs.Prelude.{◌≡◌, ◌==◌, if◌then◌else◌, ℕ, ◌+◌, ◌-◌, ◌*◌, ◌/◌, ◌^◌, ◌<◌, ◌≤◌, IfOk, IsFalse, IsTrue, OnErr, OnOk, length, slice_index_or, slice_set};
ghost use Rattle.xm_price_maps.specs.Slots.{page_at, slot_at, SameShape};
ghost use Rattle.xm_price_maps.specs.Sums.{HasSumRoom, HasSumSlots, IsSumShaped, groups_of, places_of, group_sum};

use crate::marks::PRICES;
use crate::page::{Page, absent_pages, is_made, slot_at};
use std::alloc::Allocator;
use std::marker::Model;
use xm_memory::OutOfMemory;

/// How many places a narrow group has.
const NARROW_PLACES: usize = 16;

/// How many places a middle group has.
const MIDDLE_PLACES: usize = 256;

/// How many places a wide group has. One page has the narrow and the middle groups of all of them.
const WIDE_PLACES: usize = 4_096;

/// How many narrow groups a page has, which come first.
const PAGE_NARROW: usize = 256;

/// How many middle groups a page has.
const PAGE_MIDDLE: usize = 16;

/// How many sums a page has.
const PAGE_SUMS: usize = 272;

/// How many wide groups there are, with a page each. Their own sums fill the page after those.
const WIDE_GROUPS: usize = 256;

/// How many pages there are.
const PAGES: usize = 257;

/// How many places a group has.
#[derive(Clone, Copy)]
pub enum GroupWidth {
    /// 16 places.
    Narrow,
    /// 256 places.
    Middle,
    /// 4,096 places.
    Wide,
}

impl GroupWidth {
    /// How many places a group of this width has.
    pub fn places(self) -> u32
        ensures { result ≡ places_of self }
    {
        match self {
            GroupWidth::Narrow => NARROW_PLACES as u32,
            GroupWidth::Middle => MIDDLE_PLACES as u32,
            GroupWidth::Wide => WIDE_PLACES as u32,
        }
    }
}

/// Sums of numbers under places, in groups of three widths. `reserve` makes room for a place, which stays for ever;
/// nothing else takes memory.
#[derive(Drop)]
pub struct PriceSums<A: Allocator + Copy> {
    alloc: A,
    pages: Vec<Page<u64, A>, A>,
}

impl<A: Allocator + Copy> Model for PriceSums<A> {
    ghost use Rattle.std.specs.Prelude.{List, ℕ};
    ghost use Rattle.xm_price_maps.specs.Sums.{IsSumShaped};

    ghost Value = { List (List ℕ) };

    ghost view = { λ s. s.pages.items };

    ghost invariant = { λ s. IsSumShaped s.pages.items };
}

/// The pages of sums that have room for no place yet.
fn unused_sums<A: Allocator + Copy>(alloc: A) -> Result<Vec<Page<u64, A>, A>, OutOfMemory>
    ensures shaped { IfOk result (λ pages. IsSumShaped pages.items) }
    ensures count { IfOk result (λ pages. length pages.items ≡ PAGES) }
    ensures clear { IfOk result (λ pages. (i k : ℕ) → slot_at 0 pages.items i k ≡ 0) }
    ensures absent { IfOk result (λ pages. (i : ℕ) → i < WIDE_GROUPS → length (page_at pages.items i) ≡ 0) }
{
    let mut pages = absent_pages(alloc, PAGES)?;
    pages[WIDE_GROUPS] = Page::filled(alloc, WIDE_GROUPS, 0)?;
    Ok(pages)
}

/// In a slot of a page, which is there, a number of a sum becomes another one.
#[inline(always)]
fn put_sum<A: Allocator>(page: &mut Page<u64, A>, k: usize, old: u64, new: u64)
    requires slot { k < length page.old }
    requires there { old ≤ slice_index_or page.old k 0 }
    requires fits { slice_index_or page.old k 0 + new < 2 ^ 64 }
    ensures { page.new ≡ slice_set page.old k ((slice_index_or page.old k 0 - old) + new) }
{
    let sum = page.known(k);
    page.replace(k, sum - old + new);
}

/// A number under a place becomes another one in the sum of each of its groups.
#[inline(always)]
fn put_sums<A: Allocator>(pages: &mut [Page<u64, A>], place: usize, old: u64, new: u64)
    requires in_range { place < PRICES }
    requires slots { HasSumSlots pages.old place }
    requires there { (width : GroupWidth) → old ≤ group_sum pages.old width (place / places_of width) }
    requires fits { (width : GroupWidth) → group_sum pages.old width (place / places_of width) + new < 2 ^ 64 }
    ensures sums { (width : GroupWidth) (group : ℕ) → group < groups_of width → group_sum pages.new width group ≡ (if group == place / places_of width then (group_sum pages.old width group - old) + new else group_sum pages.old width group) }
    ensures shape { SameShape pages.old pages.new }
{
    let wide = place / WIDE_PLACES;
    let middle = place / MIDDLE_PLACES % PAGE_MIDDLE;
    let narrow = place / NARROW_PLACES % PAGE_NARROW;
    let page = &mut pages[wide];
    put_sum(page, narrow, old, new);
    put_sum(page, PAGE_NARROW + middle, old, new);
    put_sum(&mut pages[WIDE_GROUPS], wide, old, new);
}

impl<A: Allocator + Copy> PriceSums<A> {
    /// Sums of nothing, which have taken no memory.
    pub fn new(alloc: A) -> PriceSums<A>
        ensures { (width : GroupWidth) (group : ℕ) → group_sum result width group ≡ 0 }
    {
        PriceSums {
            alloc,
            pages: Vec::new(alloc),
        }
    }

    /// Whether a place has room.
    fn has_room(&self, place: u32) -> bool
        requires { place < PRICES }
        ensures some { IsTrue result → HasSumRoom self.now place }
        ensures none { IsFalse result → HasSumRoom self.now place → ⊥ }
    {
        is_made(&self.pages, place as usize / WIDE_PLACES)
    }

    /// Makes all the room that a place needs, if it has none yet.
    #[inline(always)]
    pub fn reserve(&mut self, place: u32) -> Result<(), OutOfMemory>
        requires { place < PRICES }
        ensures room { OnOk result (HasSumRoom self.new place) }
        ensures kept { (p : ℕ) → HasSumRoom self.old p → HasSumRoom self.new p }
        ensures same { (width : GroupWidth) (group : ℕ) → group < groups_of width → group_sum self.new width group ≡ group_sum self.old width group }
        ensures err { OnErr result (self.new ≡ self.old) }
    {
        if self.has_room(place) {
            return Ok(());
        }
        self.make_room(place)
    }

    /// The sum of a group.
    #[inline(always)]
    pub fn get(&self, width: GroupWidth, group: u32) -> u64
        requires { group < groups_of width }
        ensures { result ≡ group_sum self.now width group }
    {
        let group = group as usize;
        match width {
            GroupWidth::Narrow => slot_at(&self.pages, group / PAGE_NARROW, group % PAGE_NARROW, 0),
            GroupWidth::Middle => slot_at(
                &self.pages,
                group / PAGE_MIDDLE,
                PAGE_NARROW + group % PAGE_MIDDLE,
                0,
            ),
            GroupWidth::Wide => slot_at(&self.pages, WIDE_GROUPS, group, 0),
        }
    }

    /// A number under a place becomes another one, which its three groups' sums follow.
    #[inline(always)]
    pub fn replace(&mut self, place: u32, old: u64, new: u64)
        requires in_range { place < PRICES }
        requires room { HasSumRoom self.old place }
        requires there { (width : GroupWidth) → old ≤ group_sum self.old width (place / places_of width) }
        requires fits { (width : GroupWidth) → group_sum self.old width (place / places_of width) + new < 2 ^ 64 }
        ensures sums { (width : GroupWidth) (group : ℕ) → group < groups_of width → group_sum self.new width group ≡ (if group == place / places_of width then (group_sum self.old width group - old) + new else group_sum self.old width group) }
        ensures kept { (p : ℕ) → HasSumRoom self.old p → HasSumRoom self.new p }
    {
        put_sums(&mut self.pages, place as usize, old, new);
    }

    /// Makes the page of a place that has none, and all pages where this is the first.
    #[inline(never)]
    fn make_room(&mut self, place: u32) -> Result<(), OutOfMemory>
        requires in_range { place < PRICES }
        requires none { HasSumRoom self.old place → ⊥ }
        ensures room { OnOk result (HasSumRoom self.new place) }
        ensures kept { (p : ℕ) → HasSumRoom self.old p → HasSumRoom self.new p }
        ensures same { (width : GroupWidth) (group : ℕ) → group_sum self.new width group ≡ group_sum self.old width group }
        ensures err { OnErr result (self.new ≡ self.old) }
    {
        let i = place as usize / WIDE_PLACES;
        let page = Page::filled(self.alloc, PAGE_SUMS, 0)?;
        if self.pages.is_empty() {
            let mut pages = unused_sums(self.alloc)?;
            pages[i] = page;
            self.pages = pages;
            return Ok(());
        }
        self.pages[i] = page;
        Ok(())
    }
}
