//! A set that knows its ends.
ghost use Rattle.std.specs.Prelude.{◌≡◌, ◌==◌, if◌then◌else◌, ℕ, ◌<◌, IfNone, IfSome, OnErr, OnOk, Ok, true, false};
ghost use Rattle.xm_price_maps.specs.Ends.{higher_of, is_at, lower_of};
ghost use Rattle.xm_price_maps.specs.Set.{has, HasRoom, IsFirstPrice, IsLastPrice, IsNextAbove, IsNextBelow};

use crate::marks::PRICES;
use crate::set::PriceSet;
use std::alloc::Allocator;
use std::marker::Model;
use xm_memory::OutOfMemory;

/// A set of prices that keeps its first and its last one at hand: both are asked far more often than they change.
#[derive(Drop)]
pub struct BoundedSet<A: Allocator + Copy> {
    prices: PriceSet<A>,
    first: Option<u32>,
    last: Option<u32>,
}

impl<A: Allocator + Copy> Model for BoundedSet<A> {
    ghost use Rattle.xm_price_maps.specs.Ends.{IsFirstPriceOf, IsLastPriceOf};
    ghost use Rattle.xm_price_maps.specs.Set.{Prices};

    ghost Value = { Prices };

    ghost view = { λ s. s.prices };

    ghost invariant = { λ s. record {
      first : IsFirstPriceOf s.prices s.first;
      last : IsLastPriceOf s.prices s.last;
    } };
}

/// The lower one of a price and the first one, where there is one.
fn lower_of(first: Option<u32>, price: u32) -> u32
    ensures { result ≡ lower_of first price }
{
    match first {
        None => price,
        Some(first) => { if price < first { price } else { first } }
    }
}

/// The higher one of a price and the last one, where there is one.
fn higher_of(last: Option<u32>, price: u32) -> u32
    ensures { result ≡ higher_of last price }
{
    match last {
        None => price,
        Some(last) => { if last < price { price } else { last } }
    }
}

/// Whether a price is this end.
fn is_at(end: Option<u32>, price: u32) -> bool
    ensures { result ≡ is_at end price }
{
    match end {
        None => false,
        Some(end) => end == price,
    }
}

impl<A: Allocator + Copy> BoundedSet<A> {
    /// The empty set, which has room for no price and has taken no memory.
    pub fn new(alloc: A) -> BoundedSet<A>
        ensures { (n : ℕ) → has result n ≡ false }
    {
        BoundedSet {
            prices: PriceSet::new(alloc),
            first: None,
            last: None,
        }
    }

    /// Makes all the room that a price needs, if it has none yet.
    #[inline(always)]
    pub fn reserve(&mut self, price: u32) -> Result<(), OutOfMemory>
        requires { price < PRICES }
        ensures room { OnOk result (HasRoom self.new price) }
        ensures kept { (n : ℕ) → HasRoom self.old n → HasRoom self.new n }
        ensures same { (n : ℕ) → has self.new n ≡ has self.old n }
        ensures free { HasRoom self.old price → result ≡ Ok tt }
        ensures err { OnErr result (self.new ≡ self.old) }
    {
        self.prices.reserve(price)
    }

    /// Puts in a price that has room.
    pub fn insert(&mut self, price: u32)
        requires in_range { price < PRICES }
        requires room { HasRoom self.old price }
        ensures members { (n : ℕ) → has self.new n ≡ (if n == price then true else has self.old n) }
        ensures kept { (n : ℕ) → HasRoom self.old n → HasRoom self.new n }
    {
        self.prices.insert(price);
        self.first = Some(lower_of(self.first, price));
        self.last = Some(higher_of(self.last, price));
    }

    /// Takes out a price that has room, which stays.
    pub fn remove(&mut self, price: u32)
        requires in_range { price < PRICES }
        requires room { HasRoom self.old price }
        ensures members { (n : ℕ) → has self.new n ≡ (if n == price then false else has self.old n) }
        ensures kept { (n : ℕ) → HasRoom self.old n → HasRoom self.new n }
    {
        self.prices.remove(price);
        if is_at(self.first, price) {
            self.first = self.prices.next_above(price);
        }
        if is_at(self.last, price) {
            self.last = self.prices.next_below(price);
        }
    }

    /// The first member above a price. Where the last one isn't, no word is read.
    pub fn next_above(&self, price: u32) -> Option<u32>
        requires { price < PRICES }
        ensures some { IfSome result (IsNextAbove self.now price) }
        ensures none { IfNone result ((n : ℕ) → price < n → has self.now n ≡ false) }
    {
        match self.last {
            Some(last) if price < last => self.prices.next_above(price),
            _ => None,
        }
    }

    /// The last member below a price. Where the first one isn't, no word is read.
    pub fn next_below(&self, price: u32) -> Option<u32>
        requires { price < PRICES }
        ensures some { IfSome result (IsNextBelow self.now price) }
        ensures none { IfNone result ((n : ℕ) → n < price → has self.now n ≡ false) }
    {
        match self.first {
            Some(first) if first < price => self.prices.next_below(price),
            _ => None,
        }
    }

    /// The first member.
    #[inline(always)]
    pub fn first(&self) -> Option<u32>
        ensures some { IfSome result (IsFirstPrice self.now) }
        ensures none { IfNone result ((n : ℕ) → has self.now n ≡ false) }
    {
        self.first
    }

    /// The last member.
    #[inline(always)]
    pub fn last(&self) -> Option<u32>
        ensures some { IfSome result (IsLastPrice self.now) }
        ensures none { IfNone result ((n : ℕ) → has self.now n ≡ false) }
    {
        self.last
    }
}
