//! The tree of words: the lower words have a bit for each price, and each further bit says whether a
//! word has a bit.
ghost use Rattle.std.specs.Prelude.{◌≡◌, ℕ, ◌+◌, ◌/◌, ◌<◌, ◌≤◌, IfNone, IfSome};
ghost use Rattle.xm_price_maps.specs.declared.marks.TheConstants.{PLACES};
ghost use Rattle.xm_price_maps.specs.Marks.{mark, bit_of, IsAbove, IsBelow, IsClearAbove, IsClearBelow, AreMarksSound, IsMarkReady, IsChanged};

use crate::bits::{bit_above, bit_below, first_bit, last_bit};
use crate::page::Page;
use crate::words::{put_bit, word};
use std::alloc::Allocator;

/// Prices are the numbers below this one.
pub const PRICES: u32 = 1_048_576;

/// The place that stands for word 0: place `UPPER + w` stands for word `w`. The places of the prices' words begin here.
const UPPER: usize = 1_048_576;

/// The first place that stands for a word of those places, and so the end of their level.
const THIRD_LEVEL: usize = 1_064_960;

/// The first place that stands for a word of the third level.
const FOURTH_LEVEL: usize = 1_065_216;

/// Places are the numbers below this one. The last ones are of the word that no place stands for.
const PLACES: usize = 1_065_220;

/// How many words have the bits of the prices. The words of the places above come after them.
const LOWER_WORDS: usize = 16_384;

/// The word that no place stands for, which is the last one.
const ROOT: usize = 16_644;

/// What a place is to have.
#[derive(Clone, Copy)]
pub enum Mark {
    Clear,
    Set,
}

/// The first marked place above `place`.
pub fn place_above<A: Allocator>(pages: &[Page<u64, A>], place: usize) -> Option<usize>
    requires sound { AreMarksSound pages.now }
    requires place { place < PLACES }
    ensures some { IfSome result (IsAbove pages.now place) }
    ensures none { IfNone result (IsClearAbove pages.now place) }
{
    let w = place / 64;
    if let Some(b) = bit_above(word(pages, w), place % 64) {
        return Some(w * 64 + b);
    }
    if w == ROOT {
        return None;
    }
    match place_above(pages, UPPER + w) {
        None => None,
        Some(up) => Some((up - UPPER) * 64 + first_bit(word(pages, up - UPPER))),
    }
}

/// The last marked place below `place`.
pub fn place_below<A: Allocator>(pages: &[Page<u64, A>], place: usize) -> Option<usize>
    requires sound { AreMarksSound pages.now }
    requires place { place < PLACES }
    ensures some { IfSome result (IsBelow pages.now place) }
    ensures none { IfNone result (IsClearBelow pages.now place) }
{
    let w = place / 64;
    if let Some(b) = bit_below(word(pages, w), place % 64) {
        return Some(w * 64 + b);
    }
    if w == ROOT {
        return None;
    }
    match place_below(pages, UPPER + w) {
        None => None,
        Some(up) => Some((up - UPPER) * 64 + last_bit(word(pages, up - UPPER))),
    }
}

/// Changes the bit of a place, and those of the places that stand for its word, as far as needed.
pub fn put_mark<A: Allocator>(pages: &mut [Page<u64, A>], place: usize, mark: Mark)
    requires ready { IsMarkReady pages.old place (bit_of mark) }
    requires place { place < PLACES }
    ensures { IsChanged pages.old pages.new place (bit_of mark) }
{
    let w = place / 64;
    if put_bit(pages, place, mark) && w != ROOT {
        put_mark(pages, UPPER + w, mark);
    }
}
