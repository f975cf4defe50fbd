//! Growths that are refused where something opens.
use crate::board::{Seen, read, settings};
use std::alloc::Allocator;
use std::marker::Model;
use std::process::Abort;
use xm_failing_alloc::{Counted, Refusing, Tried, refuse_all};
use xm_memory::OutOfMemory;
use xm_positions::Positions;

#[derive(Clone, Copy)]
enum Call {
    /// `Positions::new`, for so many members.
    Positions(u32),
    /// `OpenedBoard::new` and `Board::open`, for two watches.
    Board,
}

const CALLS: [Counted<Call>; 4] = [
    (Call::Positions(0), 0, 0),
    (Call::Positions(3), 1, 0),
    (Call::Positions(1000), 1, 0),
    (Call::Board, 3, 0),
];

/// What has opened, and what was read of it. A clause sees nothing of it.
struct Opened<A: Allocator + Copy> {
    alloc: A,
    positions: Option<Positions<A>>,
    seen: Option<Seen>,
}

impl<A: Allocator + Copy> Drop for Opened<A> {
    fn drop(self) {
        let Opened {
            alloc: _,
            positions: _positions,
            seen: _,
        } = self;
    }
}

impl<A: Allocator + Copy> Model for Opened<A> {
    ghost Value = { Unit };

    ghost view = { λ _. tt };
}

/// What is shown of the positions of a member that is there, and of one that isn't.
fn shown<A: Allocator>(positions: &Option<Positions<A>>) -> Option<(Option<i64>, Option<i64>)> {
    match positions {
        Some(positions) => Some((positions.net(0), positions.cash(1000))),
        None => None,
    }
}

impl<A: Allocator + Copy, R: Abort + AllocGlobal> Tried<A, R> for Opened<A> {
    type Call = Call;

    fn before(_rt: &R, alloc: A, _call: &Call) -> Opened<A> {
        Opened {
            alloc,
            positions: None,
            seen: None,
        }
    }

    fn make(&mut self, rt: &R, call: &Call) -> Result<(), OutOfMemory> {
        match *call {
            Call::Positions(members) => self.positions = Some(Positions::new(self.alloc, members)?),
            Call::Board => self.seen = read(self.alloc, &settings(rt))?,
        }
        Ok(())
    }

    fn shows_as(&self, _rt: &R, like: &Opened<A>) -> bool {
        shown(&self.positions) == shown(&like.positions) && self.seen == like.seen
    }
}

#[test]
fn each_growth_refused_in_turn(rt: HostRuntime) {
    let alloc = Refusing::new(rt.alloc(), 0);
    let other = refuse_all::<_, Opened<_>, _>(&rt, &alloc, &CALLS);
    assert!(rt; other.is_none(), "{other:?}");
}
