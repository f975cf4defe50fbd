//! Growths of a desk that are refused.
use super::carried::{HELD, LEFT, carrying};
use super::cascades::{SELL, filled};
use super::day::Day;
use super::settings;
use std::alloc::Allocator;
use std::marker::Model;
use std::process::Abort;
use xm_config::{OpenFault, Securities, SecurityConfig, SegmentConfig};
use xm_desk::open_desks;
use xm_failing_alloc::{Counted, Refusing, Tried, refuse_all};
use xm_memory::OutOfMemory;
use xm_name_index::Storage;
use xm_rules::{
    Carried, Command, Condition, DeskSettings, Kind, Order, Refusal, Restriction, Side, Stop,
    Validity,
};

/// A day of all kinds of commands.
const DAY: [Command; 17] = [
    buy!(0, 1, 1000, 10),
    Command::StartOpening,
    buy!(1, 1, 1010, 5),
    cancel!(0, 1),
    buy!(0, 2, 990, 7),
    change!(1, 1, 6, None),
    sell!(0, 3, 1020, 1),
    change!(0, 2, 7, Some(985)),
    Command::CancelAll { member: 0 },
    buy!(0, 2, 990, 7),
    sell!(0, 4, 1005, 4),
    Command::Uncross,
    sell!(0, 5, 995, 3),
    sell!(0, 6, 996, 3),
    buy!(1, 2, 1000, 9),
    change!(0, 2, 8, None),
    sell!(0, 7, 990, 6),
];

/// A sell that comes and goes leaves the room that another one needs.
const GONE: [Command; 2] = [sell!(1, 998, 1010, 1), cancel!(1, 998)];

/// What a call comes after.
#[derive(Clone, Copy)]
enum Before {
    /// So many commands of the day.
    Commands(usize),
    /// The same, where room was made first for all of the day.
    Ahead(usize),
    /// So many stops that the sell reaches.
    Stops(u32),
    /// The same, where the sell and the journal have their room.
    Room(u32),
    /// So many stops that the sell has reached.
    Reached(u32),
}

#[derive(Clone, Copy)]
enum Call {
    /// `open_desks`, for so many securities.
    OpenDesks(usize),
    /// `Desk::open`, in place of the desk that there is.
    Open,
    /// The same, with what earlier days left.
    OpenCarrying,
    /// `Desk::reserve`, for so many commands.
    Reserve(usize),
    /// `Desk::apply`.
    Apply(Command),
    /// The same, with the command of the day at this index.
    Next(usize),
    Orders,
    Stops,
    /// `Desk::orders_of`, of the first member.
    OrdersOf,
    /// `Desk::stops_of`, of the second one.
    StopsOf,
    Triggered,
}

const STOP: Command = stop!(Sell, 1, 1, Kind::StopMarket(990), 1);

/// A sell stop with a limit and a buy stop, at prices that no other order has.
const STOP_LIMIT: Command = stop!(
    Sell,
    1,
    2,
    Kind::StopLimit {
        trigger: 5,
        limit: 700_000
    },
    1
);

const BUY_STOP: Command = stop!(Buy, 0, 3, Kind::StopMarket(900_000), 1);

/// A book-or-cancel order at a price far from all others.
const BOOK_OR_CANCEL: Command = boc!(Sell, 1, 9, 700_000, 1);

/// The next command of the day.
macro_rules! next {
    ($before:ident, $commands:expr) => {
        (Before::$before($commands), Call::Next($commands))
    };
}

/// Where room was made ahead, commands ask for no more than their orders' places; where a sell and the journal have their room, a
/// cascade of any length asks for nothing. A list first asks for room for its whole answer, and grows as it goes where it can't
/// have that.
const CALLS: [Counted<(Before, Call)>; 53] = [
    ((Before::Commands(1), Call::OpenDesks(1)), 2, 0),
    ((Before::Commands(1), Call::OpenDesks(8)), 12, 0),
    ((Before::Commands(1), Call::Open), 1, 0),
    ((Before::Commands(1), Call::OpenCarrying), 66, 0),
    (next!(Commands, 0), 26, 0),
    (next!(Commands, 1), 0, 0),
    (next!(Commands, 2), 5, 0),
    (next!(Commands, 3), 0, 0),
    (next!(Commands, 4), 1, 0),
    (next!(Commands, 5), 0, 0),
    (next!(Commands, 6), 10, 0),
    (next!(Commands, 7), 0, 0),
    (next!(Commands, 8), 1, 0),
    (next!(Commands, 9), 0, 0),
    (next!(Commands, 10), 0, 0),
    (next!(Commands, 11), 0, 0),
    (next!(Commands, 12), 0, 0),
    (next!(Commands, 13), 1, 0),
    (next!(Commands, 14), 0, 0),
    (next!(Commands, 15), 0, 0),
    (next!(Commands, 16), 1, 0),
    ((Before::Commands(0), Call::Reserve(DAY.len())), 2, 0),
    ((Before::Commands(17), Call::Reserve(DAY.len())), 2, 0),
    (next!(Ahead, 0), 24, 0),
    (next!(Ahead, 1), 0, 0),
    (next!(Ahead, 2), 5, 0),
    (next!(Ahead, 3), 0, 0),
    (next!(Ahead, 4), 0, 0),
    (next!(Ahead, 5), 0, 0),
    (next!(Ahead, 6), 10, 0),
    (next!(Ahead, 7), 0, 0),
    (next!(Ahead, 8), 0, 0),
    (next!(Ahead, 9), 0, 0),
    (next!(Ahead, 10), 0, 0),
    (next!(Ahead, 11), 0, 0),
    (next!(Ahead, 12), 0, 0),
    (next!(Ahead, 13), 0, 0),
    (next!(Ahead, 14), 0, 0),
    (next!(Ahead, 15), 0, 0),
    (next!(Ahead, 16), 0, 0),
    ((Before::Commands(12), Call::Apply(BOOK_OR_CANCEL)), 3, 0),
    ((Before::Commands(17), Call::Orders), 1, 1),
    ((Before::Commands(11), Call::Orders), 1, 1),
    ((Before::Stops(8), Call::Stops), 2, 1),
    ((Before::Commands(11), Call::OrdersOf), 2, 1),
    ((Before::Stops(8), Call::StopsOf), 4, 1),
    ((Before::Reached(8), Call::Triggered), 0, 1),
    ((Before::Stops(0), Call::Apply(STOP)), 28, 0),
    ((Before::Stops(1), Call::Apply(STOP_LIMIT)), 10, 0),
    ((Before::Stops(1), Call::Apply(BUY_STOP)), 12, 0),
    ((Before::Stops(60), Call::Apply(SELL)), 11, 0),
    ((Before::Stops(300), Call::Apply(SELL)), 10, 0),
    ((Before::Room(300), Call::Apply(SELL)), 0, 0),
];

/// A desk, with what was listed last and how many desks a segment opened. A clause sees nothing of it.
struct Opened<A: Allocator + Copy> {
    alloc: A,
    day: Day<A>,
    orders: Vec<Order, A>,
    stops: Vec<Stop, A>,
    desks: usize,
}

impl<A: Allocator + Copy> Drop for Opened<A> {
    fn drop(self) {
        let Opened {
            alloc: _,
            day: _day,
            orders: _orders,
            stops: _stops,
            desks: _,
        } = self;
    }
}

impl<A: Allocator + Copy> Model for Opened<A> {
    ghost Value = { Unit };

    ghost view = { λ _. tt };
}

/// The want of memory at which an opening ended.
fn wanting(rt: &impl Abort, fault: &OpenFault) -> OutOfMemory {
    match fault {
        OpenFault::OutOfMemory(error) => *error,
        _ => panic!(rt; "another fault"),
    }
}

/// The want of memory for which a command was refused.
fn lacking(rt: &impl Abort, refusal: &Refusal) -> OutOfMemory {
    match refusal {
        Refusal::OutOfMemory(error) => *error,
        _ => panic!(rt; "another refusal"),
    }
}

/// The settings of a segment of so many securities.
fn segment(rt: &(impl Abort + AllocGlobal), securities: usize) -> SegmentConfig {
    let settings = settings(rt, 100);
    let mut all = Vec::new(rt.alloc());
    for _ in 0..securities {
        let security = SecurityConfig {
            tick: settings.tick,
            reference: settings.reference,
            widths: settings.widths,
            limit: settings.limit,
            carried: Carried::none(),
        };
        all.push(security).ok().expect(rt, "memory");
    }
    SegmentConfig {
        today: settings.today,
        members: settings.members,
        securities: Securities::new(all),
    }
}

/// A day with its first commands, for so many of which room was made first.
fn day_of<A: Allocator + Copy>(rt: &impl Abort, alloc: A, ahead: usize, commands: usize) -> Day<A> {
    let mut day = Day::open(rt, alloc, 100);
    assert!(rt; day.reserve(ahead).is_ok());
    for command in DAY.as_slice().iter().take(commands) {
        day.accept(rt, &[*command]);
    }
    day
}

/// What stands before a call.
fn standing<A: Allocator + Copy>(rt: &impl Abort, alloc: A, before: Before) -> Day<A> {
    match before {
        Before::Commands(commands) => day_of(rt, alloc, 0, commands),
        Before::Ahead(commands) => day_of(rt, alloc, DAY.len(), commands),
        Before::Stops(stops) => filled(rt, alloc, stops),
        Before::Room(stops) => {
            let mut day = filled(rt, alloc, stops);
            day.accept(rt, &GONE);
            day
        }
        Before::Reached(stops) => {
            let mut day = filled(rt, alloc, stops);
            day.accept(rt, &[SELL]);
            day
        }
    }
}

impl<A: Allocator + Copy> Opened<A> {
    fn open_desks(&mut self, rt: &impl Abort, config: &SegmentConfig) -> Result<(), OutOfMemory> {
        match open_desks(Storage::with_fixed_seed(self.alloc), config) {
            Ok(desks) => {
                self.desks = desks.len();
                Ok(())
            }
            Err(fault) => Err(wanting(rt, &fault)),
        }
    }

    fn open(&mut self, rt: &impl Abort, settings: DeskSettings) -> Result<(), OutOfMemory> {
        match Day::opened(self.alloc, settings) {
            Ok(day) => {
                self.day = day;
                Ok(())
            }
            Err(fault) => Err(wanting(rt, &fault)),
        }
    }

    fn apply(&mut self, rt: &impl Abort, command: Command) -> Result<(), OutOfMemory> {
        match self.day.apply(rt, command) {
            Ok(_reply) => Ok(()),
            Err(refusal) => Err(lacking(rt, &refusal)),
        }
    }
}

impl<A: Allocator + Copy, R: Abort + AllocGlobal> Tried<A, R> for Opened<A> {
    type Call = (Before, Call);

    fn before(rt: &R, alloc: A, (before, _): &(Before, Call)) -> Opened<A> {
        Opened {
            alloc,
            day: standing(rt, alloc, *before),
            orders: Vec::new(alloc),
            stops: Vec::new(alloc),
            desks: 0,
        }
    }

    fn make(&mut self, rt: &R, (_, call): &(Before, Call)) -> Result<(), OutOfMemory> {
        match *call {
            Call::OpenDesks(securities) => self.open_desks(rt, &segment(rt, securities)),
            Call::Open => self.open(rt, settings(rt, 100)),
            Call::OpenCarrying => self.open(rt, carrying(rt, &LEFT, &HELD)),
            Call::Reserve(commands) => self.day.reserve(commands),
            Call::Apply(command) => self.apply(rt, command),
            Call::Next(index) => {
                let command = DAY.as_slice().get(index).expect(rt, "a command");
                self.apply(rt, *command)
            }
            Call::Orders => {
                self.orders = self.day.orders()?;
                Ok(())
            }
            Call::Stops => {
                self.stops = self.day.stops()?;
                Ok(())
            }
            Call::OrdersOf => {
                self.orders = self.day.orders_of(0)?;
                Ok(())
            }
            Call::StopsOf => {
                self.stops = self.day.stops_of(1)?;
                Ok(())
            }
            Call::Triggered => {
                self.stops = self.day.triggered()?;
                Ok(())
            }
        }
    }

    fn shows_as(&self, rt: &R, like: &Opened<A>) -> bool {
        self.day.shows_as(rt, &like.day)
            && self.orders.as_slice() == like.orders.as_slice()
            && self.stops.as_slice() == like.stops.as_slice()
            && self.desks == like.desks
    }
}

#[test]
fn each_growth_refused_in_turn(rt: HostRuntime) {
    let alloc = Refusing::new(rt.alloc(), 0);
    let other = refuse_all::<_, Opened<_>, _>(&rt, &alloc, &CALLS);
    assert!(rt; other.is_none(), "{other:?}");
}

#[test]
fn room_is_made_for_no_more_commands_than_a_journal_takes(rt: HostRuntime) {
    let mut day = Day::open(&rt, rt.alloc(), 100);
    assert!(&rt; day.reserve(usize::MAX).is_ok());
}
