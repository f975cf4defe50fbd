//! Slots that are made together.
ghost use Rattle.std.specs.Prelude.{◌≡◌, ◌==◌, ℕ, ◌<◌, [], IfOk, IsFalse, IsTrue, length, replicate, slice_index_or, slice_set};
ghost use Rattle.xm_price_maps.specs.Slots.{page_at, slot_at};

use std::alloc::Allocator;
use std::marker::Model;
use std::mem;
use xm_memory::OutOfMemory;

/// A page of slots, or an absent one, which has none and has taken no memory.
#[derive(Drop)]
pub struct Page<T, A: Allocator> {
    slots: Vec<T, A>,
}

impl<T, A: Allocator> Model for Page<T, A> {
    ghost use Rattle.std.specs.Prelude.{List};

    ghost Value = { List T };

    ghost view = { λ p. p.slots.items };
}

impl<T, A: Allocator> Page<T, A> {
    /// A page without slots.
    pub fn absent(alloc: A) -> Page<T, A>
        ensures { result ≡ [] }
    {
        Page {
            slots: Vec::new(alloc),
        }
    }

    /// Whether the page has no slots.
    pub fn is_absent(&self) -> bool
        ensures { result ≡ (length self.now == 0) }
    {
        self.slots.is_empty()
    }
}

impl<T: Copy, A: Allocator> Page<T, A> {
    /// A page of `len` slots that have this value.
    pub fn filled(alloc: A, len: usize, value: T) -> Result<Page<T, A>, OutOfMemory>
        ensures { IfOk result (λ p. p ≡ replicate len value) }
    {
        let mut slots = Vec::with_capacity(alloc, len)?;
        for _i in 0..len {
            slots.push_reserved(value);
        }
        Ok(Page { slots })
    }

    /// What a slot has, or `none` where there is no such slot.
    #[inline(always)]
    pub fn slot(&self, k: usize, none: T) -> T
        ensures { result ≡ slice_index_or self.now k none }
    {
        match self.slots.get(k) {
            None => none,
            Some(value) => *value,
        }
    }

    /// What a slot that is there has.
    #[inline(always)]
    pub fn known(&self, k: usize) -> T
        requires { k < length self.now }
        ensures { (none : T) → result ≡ slice_index_or self.now k none }
    {
        self.slots[k]
    }

    /// Puts a value into a slot, and gives the one that was there.
    #[inline(always)]
    pub fn replace(&mut self, k: usize, value: T) -> T
        requires { k < length self.old }
        ensures value { (none : T) → result ≡ slice_index_or self.old k none }
        ensures values { self.new ≡ slice_set self.old k value }
    {
        mem::replace(&mut self.slots[k], value)
    }
}

/// This many absent pages.
pub fn absent_pages<T: Drop, A: Allocator + Copy>(
    alloc: A,
    count: usize,
) -> Result<Vec<Page<T, A>, A>, OutOfMemory>
    ensures { IfOk result (λ pages. pages.items ≡ replicate count []) }
{
    let mut pages = Vec::with_capacity(alloc, count)?;
    for _i in 0..count {
        pages.push_reserved(Page::absent(alloc));
    }
    Ok(pages)
}

/// What slot `k` of page `i` has, or `none` where there is no such slot.
#[inline(always)]
pub fn slot_at<T: Copy, A: Allocator>(pages: &[Page<T, A>], i: usize, k: usize, none: T) -> T
    ensures { result ≡ slot_at none pages.now i k }
{
    match pages.get(i) {
        None => none,
        Some(page) => page.slot(k, none),
    }
}

/// Whether page `i` is there.
pub fn is_made<T, A: Allocator>(pages: &[Page<T, A>], i: usize) -> bool
    ensures made { IsTrue result → 0 < length (page_at pages.now i) }
    ensures absent { IsFalse result → length (page_at pages.now i) ≡ 0 }
{
    match pages.get(i) {
        None => false,
        Some(page) => !page.is_absent(),
    }
}
