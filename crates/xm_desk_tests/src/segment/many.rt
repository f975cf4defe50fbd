//! Orders of many workers on one security, each worker on a thread of its own. What these tests compare is the same in every
//! interleaving.
ghost use Rattle.xm_segment.specs.Names.{NamesSegment};

use super::running::{Left, gathered, one_security};
use std::alloc::Global;
use std::marker::Brand;
use std::process::Abort;
use std::sync::Wait;
use std::thread::{self, Threads};
use xm_config::Row;
use xm_desk::Desk;
use xm_rules::{Command, Condition, Kind, Restriction, Side, Validity};
use xm_segment::{MAX_ROWS, Naming, NoGate, Opened, Seat, Segment, WorkerReport};

/// The most workers of a segment.
const WORKERS: usize = 64;

/// Where a report counts the orders that are refused since the journal is full.
const JOURNAL_FULL: usize = 12;

/// Where it counts the book-or-cancel orders that would execute.
const WOULD_EXECUTE: usize = 14;

/// Which orders come.
#[derive(Clone, Copy)]
enum Orders {
    /// All buy at 990.
    Bids,
    /// Workers with even numbers buy what the others sell, at 1000.
    Crossing,
    /// Each worker first sells at 1010, and then buys there, book or cancel.
    BookOrCancel,
}

impl Orders {
    /// The order of a worker with this reference.
    fn order(self, worker: u32, reference: u32) -> Command {
        match self {
            Orders::Bids => buy!(worker, reference, 990, 1),
            Orders::Crossing if worker % 2 == 0 => buy!(worker, reference, 1000, 1),
            Orders::Crossing => sell!(worker, reference, 1000, 1),
            Orders::BookOrCancel if reference == 0 => boc!(Sell, worker, reference, 1010, 1),
            Orders::BookOrCancel => boc!(Buy, worker, reference, 1010, 1),
        }
    }
}

/// Orders that as many workers as members enter, and what comes of them.
#[derive(Clone, Copy)]
struct Load {
    workers: u32,
    orders: Orders,
    /// How many orders each worker enters.
    each: u32,
    /// How many commands of members the journal takes.
    limit: u32,
    /// The phase commands before the orders.
    before: &'static [Command],
    /// The phase command after them, with its version.
    after: (Command, u64),
    /// How many orders are accepted, and how many are refused.
    counts: (u64, u64),
    /// Where the reports count those that are refused.
    place: usize,
    left: Left,
}

/// Each worker bids once before the opening.
const ONE_EACH: Load = Load {
    workers: 64,
    orders: Orders::Bids,
    each: 1,
    limit: 100,
    before: &[],
    after: (Command::StartOpening, 65),
    counts: (64, 0),
    place: JOURNAL_FULL,
    left: (0, 0, 1000, 1000, 64, 0),
};

const LOADS: [Load; 5] = [
    Load {
        workers: 2,
        after: (Command::StartOpening, 3),
        counts: (2, 0),
        left: (0, 0, 1000, 1000, 2, 0),
        ..ONE_EACH
    },
    ONE_EACH,
    Load {
        each: 100,
        limit: 1000,
        after: (Command::StartOpening, 1001),
        counts: (1000, 5400),
        left: (0, 0, 1000, 1000, 1000, 0),
        ..ONE_EACH
    },
    Load {
        orders: Orders::Crossing,
        each: 100,
        limit: 10_000,
        before: &[Command::StartOpening, Command::Uncross],
        after: (Command::StartIntraday, 6403),
        counts: (6400, 0),
        left: (3200, 3_200_000, 1000, 1000, 0, 0),
        ..ONE_EACH
    },
    Load {
        orders: Orders::BookOrCancel,
        each: 100,
        limit: 10_000,
        before: &[Command::StartOpening, Command::Uncross],
        after: (Command::StartIntraday, 67),
        counts: (64, 6336),
        place: WOULD_EXECUTE,
        ..ONE_EACH
    },
];

/// Has the orders of a load entered, and compares what comes of them.
fn run<R: AllocGlobal + Threads + Wait + Abort + Sync>(rt: &R, load: &Load) {
    let opened = one_security(rt, load.workers, 1, load.limit);
    run_named::<Brand, R>(rt, opened, load);
}

fn run_named<S: Naming + Send + Sync, R: AllocGlobal + Threads + Wait + Abort + Sync>(
    rt: &R,
    opened: Opened,
    load: &Load,
)
    requires { NamesSegment S.settings S.ledgers S.boards S.workers opened }
{
    let opened = Segment::<S>::open(rt.alloc(), opened);
    let (segment, mut seats, mut rows) = opened.ok().expect(rt, "memory");
    for command in load.before {
        give(rt, &segment, &mut seats, command);
    }
    let (mut seats, reports) = entered(rt, &segment, seats, load);
    let (after, version) = load.after;
    assert!(rt; give(rt, &segment, &mut seats, &after) == version);
    let ended = gathered(rt, rt.alloc(), segment, seats, &mut rows);
    ended.leaves(rt, &[load.left]);
    let found = found(rt, ended.desk(rt, 0), load.orders);
    add_up(rt, load, reports.as_slice(), &found);
}

/// Has the last seat's worker give a command that is accepted, and answers its version.
fn give<S: Naming, R: Wait + Abort>(
    rt: &R,
    segment: &Segment<S>,
    seats: &mut Vec<Seat<S>>,
    command: &Command,
) -> u64 {
    let seat = seats.last_mut().expect(rt, "a seat");
    let answer = segment.submit(rt, seat, 0, command);
    answer.ok().expect(rt, "an accepted command").version
}

/// Has each worker enter its orders, on a thread of its own. It answers the seats, and the report of each.
fn entered<S: Naming + Send + Sync, R: AllocGlobal + Threads + Wait + Abort + Sync>(
    rt: &R,
    segment: &Segment<S>,
    seats: Vec<Seat<S>>,
    load: &Load,
) -> (Vec<Seat<S>>, Vec<WorkerReport>) {
    let (mut back, mut reports) = (Vec::new(rt.alloc()), Vec::new(rt.alloc()));
    let entered = thread::map_vec(rt, seats, &|seat| enter(rt, segment, seat, load));
    for (seat, report) in entered.ok().expect(rt, "threads") {
        back.push(seat).ok().expect(rt, "memory");
        reports.push(report).ok().expect(rt, "memory");
    }
    (back, reports)
}

/// Enters the orders of a seat's worker.
fn enter<S: Naming, R: AllocGlobal + Wait + Abort>(
    rt: &R,
    segment: &Segment<S>,
    mut seat: Seat<S>,
    load: &Load,
) -> (Seat<S>, WorkerReport) {
    let rows = rows(rt, seat.number(), load);
    assert!(rt; rows.len() <= MAX_ROWS);
    let report = segment.work(rt, &mut seat, rows.as_slice(), &NoGate);
    (seat, report)
}

/// The orders of a worker.
fn rows<R: AllocGlobal + Abort>(rt: &R, worker: u32, load: &Load) -> Vec<Row> {
    let mut rows = Vec::new(rt.alloc());
    for reference in 0..load.each {
        let row = Row {
            line: 2,
            security: 0,
            command: load.orders.order(worker, reference),
        };
        rows.push(row).ok().expect(rt, "memory");
    }
    rows
}

/// How many orders of each worker a desk took, each of one unit: those that it entered first traded, or rest, in the order in which it
/// entered them.
fn found<R: Abort>(rt: &R, desk: &Desk<Global>, orders: Orders) -> [u32; WORKERS] {
    let mut found = [0; WORKERS];
    for trade in desk.trades() {
        find(
            rt,
            &mut found,
            orders,
            Side::Buy,
            (trade.buyer, trade.buy_ref),
        );
        find(
            rt,
            &mut found,
            orders,
            Side::Sell,
            (trade.seller, trade.sell_ref),
        );
    }
    for order in desk.orders().expect(rt, "memory").as_slice() {
        find(
            rt,
            &mut found,
            orders,
            order.side,
            (order.member, order.reference),
        );
    }
    found
}

/// Finds the next order of a worker, by its member and its reference, on this side.
fn find<R: Abort>(
    rt: &R,
    found: &mut [u32; WORKERS],
    orders: Orders,
    on: Side,
    (member, reference): (u32, u32),
) {
    let next = found.get_mut(member as usize).expect(rt, "a member");
    assert!(rt; reference == *next);
    let entered = orders.order(member, reference);
    assert!(rt; matches!(entered, Command::Enter { side, .. } if side == on));
    *next = next.wrapping_add(1);
}

/// The workers' reports have what their desk took, and add up to what is expected of a load.
fn add_up<R: Abort>(rt: &R, load: &Load, reports: &[WorkerReport], found: &[u32; WORKERS]) {
    let (mut accepted, mut refused, mut quantity) = (0u64, 0u64, 0u64);
    for (worker, report) in reports.iter().enumerate() {
        let own = found.get(worker).expect(rt, "a worker");
        assert!(rt; report.accepted == u64::from(*own));
        accepted = accepted.wrapping_add(report.accepted);
        refused = refused.wrapping_add(*report.refused.get(load.place).expect(rt, "a place"));
        quantity = quantity.wrapping_add(report.quantity);
    }
    assert!(rt; (accepted, refused) == load.counts);
    assert!(rt; quantity == load.left.0);
}

#[test]
fn orders_of_many_workers(rt: HostRuntime) {
    let loads = LOADS;
    for load in &loads {
        run(&rt, load);
    }
}
