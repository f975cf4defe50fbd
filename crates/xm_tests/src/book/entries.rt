//! A book that a test fills.
ghost use Rattle.xm_book.specs.declared.places.TheConstants.{MAX_PLACES};
ghost use Rattle.std.specs.Prelude.{◌≡◌, ◌+◌, ◌<◌, ◌^◌, [], IsTrue, OnErr, OnOk, length};
ghost use Rattle.xm_book.specs.Places.{SamePlaces};
ghost use Rattle.xm_rules.specs.Commands.{is_in_range};

use std::alloc::Allocator;
use std::marker::Model;
use xm_auction::{allocate, auction_price};
use xm_book::{Book, Place, Trades};
use xm_match::{Swept, fillable, sweep};
use xm_memory::OutOfMemory;
use xm_name_index::Storage;
use xm_rules::{Auction, CallStage, Order, Phase, Side, Widths};
use xm_ticks::Price;

/// The widths of the ranges at which a test's sweeps are made: around 1,000 ticks a dynamic range of 20 to each side, inside a
/// static one of 50.
const WIDTHS: Widths = Widths {
    dynamic: 20,
    statics: 50,
    wide: 60,
};

/// A book with no reserved place, which takes up to 1,000,000 orders in all. What its calls answer
/// is for a test to compare, so they promise nothing.
#[derive(Drop)]
pub struct Entries<A: Allocator + Copy> {
    book: Book<A>,
    entered: u64,
}

impl<A: Allocator + Copy> Model for Entries<A> {
    ghost use Rattle.std.specs.Prelude.{◌≡◌, ◌≤◌, List, []};
    ghost use Rattle.xm_rules.specs.declared.orders.Order.{Order};

    ghost Value = { List Order };

    ghost view = { λ e. e.book.orders };

    ghost invariant = { λ e. record {
      unreserved : e.book.reserved ≡ [];
      adds : e.book.adds ≤ e.entered;
      few : e.entered ≤ 1000000;
    } };
}

impl<A: Allocator + Copy> Entries<A> {
    pub fn new(alloc: A) -> Entries<A> {
        Entries {
            book: Book::new(Storage::with_fixed_seed(alloc)),
            entered: 0,
        }
    }

    pub fn orders(&self) -> Result<Vec<Order, A>, OutOfMemory> {
        self.book.orders()
    }

    pub fn of_member(&self, member: u32) -> Result<Vec<Order, A>, OutOfMemory> {
        self.book.of_member(member)
    }

    pub fn len(&self) -> usize {
        self.book.len()
    }

    pub fn find(&self, member: u32, reference: u32) -> Option<Order> {
        self.book.find(member, reference).copied()
    }

    pub fn best(&self, side: Side, phase: Phase) -> Option<Order> {
        self.book.best(side, phase).copied()
    }

    pub fn next_after(&self, side: Side, phase: Phase, order: Order) -> Option<Order> {
        self.book.next_after(side, phase, &order).copied()
    }

    pub fn best_limit(&self, side: Side, phase: Phase) -> Option<Price> {
        self.book.best_limit(side, phase)
    }

    pub fn market_sum(&self, side: Side, phase: Phase) -> u64 {
        self.book.market_sum(side, phase)
    }

    pub fn level_after(
        &self,
        side: Side,
        phase: Phase,
        after: &Option<Price>,
    ) -> Option<(Price, u64)> {
        self.book.level_after(side, phase, *after)
    }

    pub fn auction_price(&self, phase: Phase, reference: Price) -> Option<(Price, u64)> {
        auction_price(&self.book, phase, reference)
    }

    /// Allots the volume of a call at its price, where it has one, and answers both. The trades bear the number 1.
    pub fn uncross<B: Allocator>(
        &mut self,
        auction: Auction,
        stage: CallStage,
        reference: Price,
        trades: &mut Trades<B>,
    ) -> Result<Option<(Price, u64)>, OutOfMemory> {
        match auction_price(&self.book, Phase::Call(auction, stage), reference) {
            None => Ok(None),
            Some((price, volume)) => {
                trades.reserve(self.book.len())?;
                allocate(&mut self.book, auction, stage, 1, price, volume, trades);
                Ok(Some((price, volume)))
            }
        }
    }

    /// Executes an incoming order, where both references are the same. The trades bear the number 1.
    pub fn sweep<B: Allocator>(
        &mut self,
        incoming: &Order,
        reference: Price,
        trades: &mut Trades<B>,
    ) -> Result<Swept, OutOfMemory> {
        trades.reserve(self.book.len())?;
        Ok(sweep(
            &mut self.book,
            incoming,
            1,
            reference,
            reference,
            &WIDTHS,
            trades,
        ))
    }

    pub fn fillable(&self, incoming: &Order, reference: Price) -> bool {
        fillable(&self.book, incoming, reference, reference, &WIDTHS)
    }

    pub fn remove_expired(&mut self, today: u32) {
        self.book.remove_expired(today)
    }

    /// Puts in an order, and answers whether the book can take it: not one of a known name, nor one
    /// with a rest out of range.
    pub fn enter(&mut self, order: Order) -> Result<bool, OutOfMemory> {
        if self.find(order.member, order.reference).is_some() {
            return Ok(false);
        }
        self.put(order)
    }

    /// Puts in an order in place of the one of its name, which stays until room is reserved, and
    /// answers whether there is one.
    pub fn replace(&mut self, order: Order) -> Result<bool, OutOfMemory> {
        if self.find(order.member, order.reference).is_none() {
            return Ok(false);
        }
        self.put(order)
    }

    fn put(&mut self, order: Order) -> Result<bool, OutOfMemory> {
        let full = self.book.len() >= 1_000_000 || self.entered >= 1_000_000;
        if full || !is_in_range(order.rest) {
            return Ok(false);
        }
        exchange(&mut self.book, order)?;
        self.entered += 1;
        Ok(true)
    }

    /// Reserves the place of an order twice, and gives it up twice.
    pub fn reserve_twice(&mut self, order: Order) -> Result<(), OutOfMemory> {
        if self.book.len() >= 1_000_000 {
            return Ok(());
        }
        reserve_twice(&mut self.book, &Place::of(&order))
    }

    pub fn remove(&mut self, member: u32, reference: u32) -> Option<Order> {
        self.book.remove(member, reference)
    }

    pub fn remove_all(&mut self, member: u32) {
        self.book.remove_all(member)
    }

    /// Gives an order a new rest, and answers whether the book can: the order is known, and the rest
    /// is in range and doesn't rise.
    pub fn reduce(&mut self, member: u32, reference: u32, rest: u32) -> bool {
        let present = match self.book.find(member, reference) {
            None => return false,
            Some(order) => order.rest,
        };
        1 <= rest && rest <= present && self.book.reduce(member, reference, rest)
    }
}

fn is_in_range(rest: u32) -> bool
    ensures { result ≡ is_in_range rest }
{
    1 <= rest && rest <= 1_000_000
}

/// An order comes in, in place of the one of its name if there is one.
fn exchange<A: Allocator + Copy>(book: &mut Book<A>, order: Order) -> Result<(), OutOfMemory>
    requires rest { IsTrue (is_in_range order.rest) }
    requires few { length book.old.orders < 1999999 }
    requires adds { book.old.adds < 2 ^ 63 }
    requires unreserved { book.old.reserved ≡ [] }
    ensures ok { OnOk result (book.new.adds ≡ book.old.adds + 1) }
    ensures err { OnErr result (book.new ≡ book.old) }
    ensures unreserved { book.new.reserved ≡ [] }
{
    book.reserve_for(&Place::of(&order))?;
    book.remove(order.member, order.reference);
    book.add(order);
    Ok(())
}

/// Reserves a place and gives it up.
fn reserve_and_release<A: Allocator + Copy>(
    book: &mut Book<A>,
    place: &Place,
) -> Result<(), OutOfMemory>
    requires { length book.old.orders + length book.old.reserved < MAX_PLACES }
    ensures rest { book.new ≡ record book.old { reserved = book.new.reserved } }
    ensures places { SamePlaces book.new.reserved book.old.reserved }
{
    book.reserve_for(place)?;
    book.release(place);
    Ok(())
}

/// Reserves a place, and meanwhile once more.
fn reserve_twice<A: Allocator + Copy>(book: &mut Book<A>, place: &Place) -> Result<(), OutOfMemory>
    requires few { length book.old.orders < 1999999 }
    requires unreserved { book.old.reserved ≡ [] }
    ensures adds { book.new.adds ≡ book.old.adds }
    ensures unreserved { book.new.reserved ≡ [] }
{
    book.reserve_for(place)?;
    let second = reserve_and_release(book, place);
    book.release(place);
    second
}
