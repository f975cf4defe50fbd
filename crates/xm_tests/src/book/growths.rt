//! Growths of a book and of its trades that are refused.
use super::entries::Entries;
use super::{OPENING, limit, order};
use std::alloc::Allocator;
use std::marker::Model;
use std::process::Abort;
use xm_book::Trades;
use xm_failing_alloc::{Counted, Refusing, Tried, refuse_all};
use xm_memory::OutOfMemory;
use xm_rules::{Order, OrderKind, Restriction, Side};

#[derive(Clone, Copy)]
enum Call {
    /// `Book::reserve_for`, for an order that comes in.
    Enter,
    /// The same for one that comes in place of another.
    Replace,
    Orders,
    OfMember,
    /// `Trades::reserve`, for so many.
    Reserve(usize),
    /// `Trades::make_room`, for so many.
    MakeRoom(usize),
}

/// Calls, each after so many orders. The first order lets each of the five parts of a book grow. A list first asks for room for
/// its whole answer, and grows as it goes where it can't have that.
const CALLS: [Counted<(u32, Call)>; 12] = [
    ((0, Call::Enter), 24, 0),
    ((1, Call::Enter), 15, 0),
    ((2, Call::Enter), 5, 0),
    ((4, Call::Enter), 3, 0),
    ((7, Call::Enter), 0, 0),
    ((8, Call::Enter), 3, 0),
    ((8, Call::Replace), 3, 0),
    ((0, Call::Orders), 0, 0),
    ((8, Call::Orders), 2, 1),
    ((8, Call::OfMember), 2, 1),
    ((8, Call::Reserve(100)), 1, 0),
    ((8, Call::MakeRoom(100)), 1, 0),
];

/// Orders of three members on both sides.
fn numbered(rt: &impl Abort, reference: u32) -> Order {
    let (side, restriction) = if reference % 2 == 0 {
        (Side::Buy, Restriction::Free)
    } else {
        (Side::Sell, Restriction::AuctionsOnly)
    };
    Order {
        member: reference % 3,
        restriction,
        ..order(side, reference, limit(rt, 100 + reference % 4))
    }
}

/// The order that comes in place of the first one.
fn changed(rt: &impl Abort) -> Order {
    Order {
        kind: OrderKind::Market,
        ..numbered(rt, 0)
    }
}

/// A book and its trades, with what was listed last. A clause sees nothing of it.
struct Filled<A: Allocator + Copy> {
    book: Entries<A>,
    trades: Trades<A>,
    orders: Vec<Order, A>,
    own: Vec<Order, A>,
}

impl<A: Allocator + Copy> Drop for Filled<A> {
    fn drop(self) {
        let Filled {
            book: _book,
            trades: _trades,
            orders: _orders,
            own: _own,
        } = self;
    }
}

impl<A: Allocator + Copy> Model for Filled<A> {
    ghost Value = { Unit };

    ghost view = { λ _. tt };
}

impl<A: Allocator + Copy, R: Abort + AllocGlobal> Tried<A, R> for Filled<A> {
    type Call = (u32, Call);

    fn before(rt: &R, alloc: A, (orders, _): &(u32, Call)) -> Filled<A> {
        let mut book = Entries::new(alloc);
        for reference in 0..*orders {
            assert!(rt; book.enter(numbered(rt, reference)) == Ok(true));
        }
        Filled {
            book,
            trades: Trades::new(alloc),
            orders: Vec::new(alloc),
            own: Vec::new(alloc),
        }
    }

    fn make(&mut self, rt: &R, (orders, call): &(u32, Call)) -> Result<(), OutOfMemory> {
        match *call {
            Call::Enter => assert!(rt; self.book.enter(numbered(rt, *orders))?),
            Call::Replace => assert!(rt; self.book.replace(changed(rt))?),
            Call::Orders => self.orders = self.book.orders()?,
            Call::OfMember => self.own = self.book.of_member(0)?,
            Call::Reserve(trades) => self.trades.reserve(trades)?,
            Call::MakeRoom(trades) => self.trades.make_room(trades)?,
        }
        Ok(())
    }

    fn shows_as(&self, rt: &R, like: &Filled<A>) -> bool {
        let (orders, others) = (self.book.orders(), like.book.orders());
        orders.expect(rt, "memory").as_slice() == others.expect(rt, "memory").as_slice()
            && self.book.len() == like.book.len()
            && self.book.best(Side::Buy, OPENING) == like.book.best(Side::Buy, OPENING)
            && self.book.best(Side::Sell, OPENING) == like.book.best(Side::Sell, OPENING)
            && self.trades.as_slice() == like.trades.as_slice()
            && self.orders.as_slice() == like.orders.as_slice()
            && self.own.as_slice() == like.own.as_slice()
    }
}

#[test]
fn each_growth_refused_in_turn(rt: HostRuntime) {
    let alloc = Refusing::new(rt.alloc(), 0);
    let other = refuse_all::<_, Filled<_>, _>(&rt, &alloc, &CALLS);
    assert!(rt; other.is_none(), "{other:?}");
}
