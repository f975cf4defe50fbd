//! Growths of held and pending stops that are refused.
use super::held::Held;
use super::{price, stop};
use std::alloc::Allocator;
use std::marker::Model;
use std::process::Abort;
use xm_failing_alloc::{Counted, Refusing, Tried, refuse_all};
use xm_memory::OutOfMemory;
use xm_rules::{Side, Stop};

#[derive(Clone, Copy)]
enum Call {
    /// `Stops::reserve_one`, for a stop that comes in.
    Enter,
    List,
    OfMember,
    /// `Pending::reserve`, for all that are held, before those are taken that are reached.
    TakeReached,
}

/// Calls, each after so many stops. The first stop lets each part of the held stops grow. A list first asks for room for its
/// whole answer, and grows as it goes where it can't have that.
const CALLS: [Counted<(u32, Call)>; 9] = [
    ((0, Call::Enter), 21, 0),
    ((1, Call::Enter), 12, 0),
    ((2, Call::Enter), 6, 0),
    ((4, Call::Enter), 3, 0),
    ((8, Call::Enter), 3, 0),
    ((0, Call::List), 0, 0),
    ((8, Call::List), 2, 1),
    ((8, Call::OfMember), 2, 1),
    ((8, Call::TakeReached), 1, 0),
];

/// Stops of three members on both sides, at triggers on several pages.
fn numbered(reference: u32) -> Stop {
    let side = if reference % 2 == 0 {
        Side::Buy
    } else {
        Side::Sell
    };
    Stop {
        member: reference % 3,
        ..stop(side, reference, 100 + reference % 4 * 5000)
    }
}

/// Stops, with what was listed last. A clause sees nothing of it.
struct Filled<A: Allocator + Copy> {
    stops: Held<A>,
    listed: Vec<Stop, A>,
    own: Vec<Stop, A>,
}

impl<A: Allocator + Copy> Drop for Filled<A> {
    fn drop(self) {
        let Filled {
            stops: _stops,
            listed: _listed,
            own: _own,
        } = self;
    }
}

impl<A: Allocator + Copy> Model for Filled<A> {
    ghost Value = { Unit };

    ghost view = { λ _. tt };
}

impl<A: Allocator + Copy, R: Abort + AllocGlobal> Tried<A, R> for Filled<A> {
    type Call = (u32, Call);

    fn before(rt: &R, alloc: A, (held, _): &(u32, Call)) -> Filled<A> {
        let mut stops = Held::new(alloc);
        for reference in 0..*held {
            assert!(rt; stops.enter(numbered(reference)) == Ok(true));
        }
        Filled {
            stops,
            listed: Vec::new(alloc),
            own: Vec::new(alloc),
        }
    }

    fn make(&mut self, rt: &R, (held, call): &(u32, Call)) -> Result<(), OutOfMemory> {
        match *call {
            Call::Enter => assert!(rt; self.stops.enter(numbered(*held))?),
            Call::List => self.listed = self.stops.list()?,
            Call::OfMember => self.own = self.stops.of_member(1)?,
            Call::TakeReached => self.stops.take_reached(price(rt, 1))?,
        }
        Ok(())
    }

    fn shows_as(&self, rt: &R, like: &Filled<A>) -> bool {
        let (stops, others) = (self.stops.list(), like.stops.list());
        stops.expect(rt, "memory").as_slice() == others.expect(rt, "memory").as_slice()
            && self.stops.len() == like.stops.len()
            && self.stops.pending_len() == like.stops.pending_len()
            && self.listed.as_slice() == like.listed.as_slice()
            && self.own.as_slice() == like.own.as_slice()
    }
}

#[test]
fn each_growth_refused_in_turn(rt: HostRuntime) {
    let alloc = Refusing::new(rt.alloc(), 0);
    let other = refuse_all::<_, Filled<_>, _>(&rt, &alloc, &CALLS);
    assert!(rt; other.is_none(), "{other:?}");
}
