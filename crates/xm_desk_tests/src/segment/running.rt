//! A segment under test.
ghost use Rattle.xm_segment.specs.Names.{NamesSegment};

use std::alloc::Global;
use std::marker::{Brand, Model};
use std::process::Abort;
use std::sync::Wait;
use xm_config::{OpenFault, Securities, SecurityConfig, SegmentConfig};
use xm_desk::Desk;
use xm_memory::OutOfMemory;
use xm_name_index::Storage;
use xm_rules::{Carried, Command, Phase, Quote, Refusal, Reply, Widths};
use xm_segment::{GatherFault, Gathered, Naming, Opened, Seat, Segment, WatchRow};
use xm_ticks::{JournalLimit, Price, TickSize};

/// The version, the number of trades with their units and money, and the phase of a reply.
pub type Replied = (u64, u64, u64, u64, Phase);

/// A command of a worker on a security, with its answer.
pub type Given = (usize, u32, Command, Result<Replied, Refusal>);

/// What a desk leaves: the units and the money that it traded, the last price and the last auction price in ticks, and how
/// many orders and stops are left.
pub type Left = (u64, u64, u32, u32, usize, usize);

/// What is shown of a security: version, phase, best limits and references in ticks, and traded units.
pub type Shown = (u64, Phase, Option<u32>, Option<u32>, u32, u32, u64);

/// A segment, and what comes of what its workers give.
#[derive(Clone, Copy)]
pub struct Case {
    pub workers: u32,
    /// How many commands of members each journal takes.
    pub limit: u32,
    /// What is shown of the first security then.
    pub shown: Shown,
    /// What each security leaves; so many there are.
    pub left: &'static [Left],
}

/// How much is asked of a segment that opens: securities, members, workers and watchers, and the widths of each range.
#[derive(Clone, Copy)]
pub struct Size {
    pub securities: usize,
    pub members: u32,
    pub workers: u32,
    pub watchers: u32,
    pub widths: [u32; 3],
}

/// The settings of a segment whose securities are alike.
fn config(rt: &(impl Abort + AllocGlobal), size: &Size, limit: u32) -> SegmentConfig {
    let mut securities = Vec::new(rt.alloc());
    for _ in 0..size.securities {
        let added = securities.push(security(rt, size, limit));
        added.ok().expect(rt, "memory");
    }
    SegmentConfig {
        today: 20260105,
        members: size.members,
        securities: Securities::new(securities),
    }
}

/// The settings of each of its securities.
fn security(rt: &impl Abort, size: &Size, limit: u32) -> SecurityConfig {
    let [dynamic, statics, wide] = size.widths;
    SecurityConfig {
        tick: TickSize::new(100).expect(rt, "a tick"),
        reference: Price::new(1000).expect(rt, "a price"),
        widths: Widths {
            dynamic,
            statics,
            wide,
        },
        limit: JournalLimit::new(limit).expect(rt, "a limit"),
        carried: Carried::none(),
    }
}

/// The fault of a segment of this size that opens.
pub fn opening_fault<R: Wait + Abort + AllocGlobal>(rt: &R, size: &Size) -> Option<OpenFault> {
    let config = config(rt, size, 100);
    opened(rt.alloc(), &config, size.workers, size.watchers).err()
}

/// The segment of these settings, before a type names it.
fn opened(
    alloc: Global,
    config: &SegmentConfig,
    workers: u32,
    watchers: u32,
) -> Result<Opened, OpenFault> {
    Opened::new(Storage::with_fixed_seed(alloc), config, workers, watchers)
}

/// A segment of one security, before a type names it. A member for each worker, and a journal that takes so many commands of
/// members.
pub fn one_security(
    rt: &(impl Abort + AllocGlobal),
    workers: u32,
    watchers: u32,
    limit: u32,
) -> Opened {
    let size = Size {
        securities: 1,
        members: workers,
        workers,
        watchers,
        widths: [20, 50, 40],
    };
    let config = config(rt, &size, limit);
    let opened = opened(rt.alloc(), &config, workers, watchers);
    opened.ok().expect(rt, "a segment")
}

/// Runs what workers give, and compares what comes of it.
pub fn run<R: Wait + Abort + AllocGlobal>(rt: &R, case: &Case, given: &[Given]) {
    let size = Size {
        securities: case.left.len(),
        members: 2,
        workers: case.workers,
        watchers: 1,
        widths: [20, 50, 40],
    };
    let config = config(rt, &size, case.limit);
    let opened = opened(rt.alloc(), &config, case.workers, 1);
    run_named::<Brand, R>(rt, opened.ok().expect(rt, "a segment"), case, given);
}

fn run_named<S: Naming, R: Wait + Abort + AllocGlobal>(
    rt: &R,
    opened: Opened,
    case: &Case,
    given: &[Given],
)
    requires { NamesSegment S.settings S.ledgers S.boards S.workers opened }
{
    let running = Running::<S>::open(rt.alloc(), opened);
    let mut running = running.ok().expect(rt, "memory");
    running.give_all(rt, given);
    running.is_shown(rt, case.shown);
    let ended = running.gathered(rt, rt.alloc());
    ended.leaves(rt, case.left);
}

/// A segment that is open, with its seats and its watcher's row. A clause sees nothing of it.
struct Running<S: Naming> {
    segment: Segment<S>,
    seats: Vec<Seat<S>>,
    rows: Vec<WatchRow<S>>,
}

impl<S: Naming> Drop for Running<S> {
    fn drop(self) {
        let Running {
            segment: _segment,
            seats: _seats,
            rows: _rows,
        } = self;
    }
}

impl<S: Naming> Model for Running<S> {
    ghost Value = { Unit };

    ghost view = { λ _. tt };
}

impl<S: Naming> Running<S> {
    fn open(alloc: Global, opened: Opened) -> Result<Running<S>, OutOfMemory>
        requires { NamesSegment S.settings S.ledgers S.boards S.workers opened }
    {
        let (segment, seats, rows) = Segment::<S>::open(alloc, opened)?;
        Ok(Running {
            segment,
            seats,
            rows,
        })
    }

    /// Gives each command, and compares its answer.
    fn give_all<R: Wait + Abort>(&mut self, rt: &R, given: &[Given]) {
        for (worker, security, command, expected) in given {
            let answer = self.give(rt, *worker, *security, command);
            assert!(rt; replied(answer) == *expected, "at {command:?}");
        }
    }

    fn give<R: Wait + Abort>(
        &mut self,
        rt: &R,
        worker: usize,
        security: u32,
        command: &Command,
    ) -> Result<Reply, Refusal> {
        let seat = self.seats.get_mut(worker).expect(rt, "a seat");
        self.segment.submit(rt, seat, security, command)
    }

    /// Compares what is shown of the first security, by the row of the first seat and by the watcher's. Nothing is shown of a
    /// security that isn't there.
    fn is_shown<R: Wait + Abort>(&mut self, rt: &R, expected: Shown) {
        let row = self.rows.get_mut(0).expect(rt, "a row");
        let watched = self.segment.quote(row, 0).expect(rt, "a quote");
        assert!(rt; shown(&watched) == expected);
        assert!(rt; self.segment.quote(row, 8).is_none());
        let seat = self.seats.get_mut(0).expect(rt, "a seat");
        let seen = self.segment.quote(seat.row(), 0);
        assert!(rt; seen == Some(watched));
    }

    /// Gathers the segment.
    fn gathered<R: Abort>(self, rt: &R, alloc: Global) -> Ended {
        let (segment, seats, mut rows) = self.parts();
        gathered(rt, alloc, segment, seats, &mut rows)
    }

    fn parts(self) -> (Segment<S>, Vec<Seat<S>>, Vec<WatchRow<S>>) {
        let Running {
            segment,
            seats,
            rows,
        } = self;
        (segment, seats, rows)
    }
}

/// Gathers a segment, once without its last seat, when all is handed back in its order, and then with all.
pub fn gathered<S: Naming, R: Abort>(
    rt: &R,
    alloc: Global,
    segment: Segment<S>,
    mut seats: Vec<Seat<S>>,
    rows: &mut Vec<WatchRow<S>>,
) -> Ended {
    let last = seats.pop().expect(rt, "a seat");
    let given = seats.len();
    let (segment, mut seats, fault) = missing(rt, alloc, segment, seats, rows);
    assert!(rt; fault == GatherFault::MissingSeat);
    assert!(rt; seats.len() == given);
    seats.push(last).ok().expect(rt, "memory");
    are_in_order(rt, seats.as_slice());
    gathered_whole(rt, alloc, segment, seats, rows)
}

/// What is handed back where a seat is missing.
fn missing<S: Naming, R: Abort>(
    rt: &R,
    alloc: Global,
    segment: Segment<S>,
    seats: Vec<Seat<S>>,
    rows: &mut Vec<WatchRow<S>>,
) -> (Segment<S>, Vec<Seat<S>>, GatherFault) {
    segment
        .gather(alloc, seats, rows.as_mut_slice())
        .err()
        .expect(rt, "a seat is missing")
}

/// The seats are those of the workers from number 0 on.
fn are_in_order<S: Naming, R: Abort>(rt: &R, seats: &[Seat<S>]) {
    for (place, seat) in seats.iter().enumerate() {
        assert!(rt; seat.number() as usize == place, "at {place}");
    }
}

/// What a segment comes to whose seats are all there.
fn gathered_whole<S: Naming, R: Abort>(
    rt: &R,
    alloc: Global,
    segment: Segment<S>,
    seats: Vec<Seat<S>>,
    rows: &mut Vec<WatchRow<S>>,
) -> Ended {
    let gathered = segment
        .gather(alloc, seats, rows.as_mut_slice())
        .ok()
        .expect(rt, "all seats are there");
    Ended { gathered }
}

/// A segment that was gathered. A clause sees nothing of it.
pub struct Ended {
    gathered: Gathered,
}

impl Drop for Ended {
    fn drop(self) {
        let Ended {
            gathered: _gathered,
        } = self;
    }
}

impl Model for Ended {
    ghost Value = { Unit };

    ghost view = { λ _. tt };
}

impl Ended {
    /// Compares what is left of each security, and the sums over all.
    pub fn leaves<R: Abort>(&self, rt: &R, expected: &[Left]) {
        assert!(rt; self.gathered.desks.len() == expected.len());
        let mut quantity: u128 = 0;
        let mut money: u128 = 0;
        for (index, left) in expected.iter().enumerate() {
            assert!(rt; self.left(rt, index) == *left, "security {index}");
            quantity = quantity.wrapping_add(u128::from(left.0));
            money = money.wrapping_add(u128::from(left.1) * 100);
        }
        assert!(rt; u128::from(self.gathered.quantity) == quantity);
        assert!(rt; self.gathered.money == money);
    }

    /// The desk of the security with this index.
    pub fn desk<'d, R: Abort>(&'d self, rt: &R, index: usize) -> &'d Desk<Global> {
        self.gathered.desks.get(index).expect(rt, "a desk")
    }

    fn left<R: Abort>(&self, rt: &R, index: usize) -> Left {
        let desk = self.desk(rt, index);
        let totals = self.gathered.totals.get(index).expect(rt, "totals");
        let orders = desk.orders().ok().expect(rt, "memory").len();
        let stops = desk.stops().ok().expect(rt, "memory").len();
        (
            totals.quantity,
            totals.money,
            desk.ref1().get(),
            desk.ref2().get(),
            orders,
            stops,
        )
    }
}

/// What the tables have of an answer.
fn replied(answer: Result<Reply, Refusal>) -> Result<Replied, Refusal> {
    match answer {
        Ok(r) => Ok((r.version, r.trades, r.quantity, r.money, r.phase)),
        Err(refusal) => Err(refusal),
    }
}

/// What the tables have of a quote.
fn shown(quote: &Quote) -> Shown {
    (
        quote.version,
        quote.phase,
        ticks(quote.best_buy),
        ticks(quote.best_sell),
        quote.ref1.get(),
        quote.ref2.get(),
        quote.quantity,
    )
}

fn ticks(limit: Option<Price>) -> Option<u32> {
    match limit {
        Some(limit) => Some(limit.get()),
        None => None,
    }
}
