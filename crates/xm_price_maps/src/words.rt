//! The words of a set, in pages that are made as they are needed.
ghost use Rattle.std.specs.Prelude.{◌≡◌, ◌≢◌, ◌↔◌, ℕ, ◌/◌, ◌<◌, IfOk, IsTrue, IsFalse, length};
ghost use Rattle.xm_price_maps.specs.Marks.{IsPut, bit_of};
ghost use Rattle.std.specs.Int.{bit_at};
ghost use Rattle.xm_price_maps.specs.Slots.{page_at};
ghost use Rattle.xm_price_maps.specs.Words.{HasWord, IsShaped, word};
ghost use Rattle.xm_price_maps.specs.declared.words.TheConstants.{LOWER_PAGES, PAGES};

use crate::marks::Mark;
use crate::page::{Page, absent_pages, slot_at};
use std::alloc::Allocator;
use xm_memory::OutOfMemory;

/// How many words a page has: one bit each for 16,384 prices, in 2 KB.
pub const PAGE_WORDS: usize = 256;

/// How many pages the words with a bit for each price take.
const LOWER_PAGES: usize = 64;

/// How many pages there are: the words above the lower ones fill one, and begin another.
const PAGES: usize = 66;

/// How many words the last page has.
const LAST_PAGE_WORDS: usize = 5;

/// The pages of a set that has room for no price yet.
pub fn unused_pages<A: Allocator + Copy>(alloc: A) -> Result<Vec<Page<u64, A>, A>, OutOfMemory>
    ensures shaped { IfOk result (λ pages. IsShaped pages.items) }
    ensures count { IfOk result (λ pages. length pages.items ≡ PAGES) }
    ensures clear { IfOk result (λ pages. (w : ℕ) → word pages.items w ≡ 0) }
    ensures absent { IfOk result (λ pages. (i : ℕ) → i < LOWER_PAGES → length (page_at pages.items i) ≡ 0) }
{
    let mut pages = absent_pages(alloc, PAGES)?;
    pages[LOWER_PAGES] = Page::filled(alloc, PAGE_WORDS, 0)?;
    pages[LOWER_PAGES + 1] = Page::filled(alloc, LAST_PAGE_WORDS, 0)?;
    Ok(pages)
}

/// A word, which is 0 where its page is absent.
#[inline(always)]
pub fn word<A: Allocator>(pages: &[Page<u64, A>], w: usize) -> u64
    ensures { result ≡ word pages.now w }
{
    slot_at(pages, w / PAGE_WORDS, w % PAGE_WORDS, 0)
}

/// Changes a bit of a word whose page is there, and says whether the word has had its first bit by
/// it or lost its last one.
#[inline(always)]
pub fn put_bit<A: Allocator>(pages: &mut [Page<u64, A>], place: usize, mark: Mark) -> bool
    requires { HasWord pages.old (place / 64) }
    ensures put { IsPut pages.old pages.new place (bit_of mark) }
    ensures turned { IsTrue result → 0 < word pages.new (place / 64) → word pages.old (place / 64) ≡ 0 }
    ensures stayed { IsFalse result → (word pages.old (place / 64) ≡ 0) ↔ (word pages.new (place / 64) ≡ 0) }
{
    let w = place / 64;
    let page = &mut pages[w / PAGE_WORDS];
    let old = page.slot(w % PAGE_WORDS, 0);
    let new = changed(old, place % 64, mark);
    page.replace(w % PAGE_WORDS, new);
    (old == 0) != (new == 0)
}

/// A word with one bit changed.
#[inline(always)]
fn changed(word: u64, k: usize, mark: Mark) -> u64
    requires { k < 64 }
    ensures marked { bit_at result k ≡ bit_of mark }
    ensures same { (i : ℕ) → i < 64 → i ≢ k → bit_at result i ≡ bit_at word i }
    ensures empty { bit_of mark ≡ 0 → word ≡ 0 → result ≡ 0 }
{
    match mark {
        Mark::Clear => word & !(1 << k),
        Mark::Set => word | 1 << k,
    }
}
