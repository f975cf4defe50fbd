//! Workers and watchers of one security, each on a thread of its own. What these tests find doesn't hang on the schedule.
ghost use Rattle.xm_segment.specs.Names.{NamesSegment};

use super::running::one_security;
use std::alloc::Global;
use std::marker::{Brand, Model};
use std::process::Abort;
use std::sync::Wait;
use std::thread::{self, Threads};
use xm_desk::Desk;
use xm_name_index::Storage;
use xm_rules::{Command, Condition, Kind, Quote, Restriction, Side, Validity};
use xm_segment::{Gathered, Naming, Opened, Seat, Segment, WatchRow};

/// How many workers enter orders while as many watchers read.
const CROWD: u32 = 4;

/// How many orders each worker enters.
const ORDERS: u32 = 25_000;

/// How many quotes a watcher reads at most.
const LOOKS: u32 = 10_000_000;

/// The version after all orders. The first two are those of the opening.
const LAST: u64 = 2 + CROWD as u64 * ORDERS as u64;

/// The order of a worker with this reference. Workers with even numbers buy what the others sell.
fn order(worker: u32, reference: u32) -> Command {
    let side = if worker % 2 == 0 {
        Side::Buy
    } else {
        Side::Sell
    };
    limited!(side, worker, reference, 1000, 1 + reference % 3)
}

/// A worker with what it got: its accepted commands with their versions, and quotes by its own row. A clause sees nothing of it.
struct Writer<S: Naming> {
    seat: Seat<S>,
    accepted: Vec<(u64, Command)>,
    quotes: Vec<Quote>,
}

impl<S: Naming> Drop for Writer<S> {
    fn drop(self) {
        let Writer {
            seat: _seat,
            accepted: _accepted,
            quotes: _quotes,
        } = self;
    }
}

impl<S: Naming> Model for Writer<S> {
    ghost Value = { Unit };

    ghost view = { λ _. tt };
}

impl<S: Naming> Writer<S> {
    /// Enters all its orders, and reads a quote after every hundredth.
    fn write<R: Wait + Abort>(mut self, rt: &R, segment: &Segment<S>) -> Writer<S> {
        let worker = self.seat.number();
        for reference in 0..ORDERS {
            self.submit(rt, segment, &order(worker, reference));
            if reference % 100 == 0 {
                self.look(rt, segment);
            }
        }
        self
    }

    fn into_parts(self) -> (Seat<S>, Vec<(u64, Command)>, Vec<Quote>) {
        let Writer {
            seat,
            accepted,
            quotes,
        } = self;
        (seat, accepted, quotes)
    }

    /// Submits a command.
    fn submit<R: Wait + Abort>(&mut self, rt: &R, segment: &Segment<S>, command: &Command) {
        let answer = segment.submit(rt, &mut self.seat, 0, command);
        let version = answer.ok().expect(rt, "an accepted command").version;
        let noted = self.accepted.push((version, *command));
        noted.ok().expect(rt, "memory");
    }

    /// Reads a quote, which has all that the worker was answered.
    fn look<R: Abort>(&mut self, rt: &R, segment: &Segment<S>) {
        let quote = segment.quote(self.seat.row(), 0).expect(rt, "a quote");
        let (version, _command) = self.accepted.last().expect(rt, "an answer");
        assert!(rt; *version <= quote.version);
        self.quotes.push(quote).ok().expect(rt, "memory");
    }
}

/// A watcher with the quotes that it got. A clause sees nothing of it.
struct Reader<S: Naming> {
    row: WatchRow<S>,
    quotes: Vec<Quote>,
}

impl<S: Naming> Drop for Reader<S> {
    fn drop(self) {
        let Reader {
            row: _row,
            quotes: _quotes,
        } = self;
    }
}

impl<S: Naming> Model for Reader<S> {
    ghost Value = { Unit };

    ghost view = { λ _. tt };
}

impl<S: Naming> Reader<S> {
    /// Reads until all orders are seen, and keeps each quote that is news.
    fn read<R: Abort>(mut self, rt: &R, segment: &Segment<S>) -> Reader<S> {
        for _look in 0..LOOKS {
            if self.look(rt, segment) == LAST {
                break;
            }
        }
        self
    }

    fn into_parts(self) -> (WatchRow<S>, Vec<Quote>) {
        let Reader { row, quotes } = self;
        (row, quotes)
    }

    /// Reads a quote, and answers its version.
    fn look<R: Abort>(&mut self, rt: &R, segment: &Segment<S>) -> u64 {
        let quote = segment.quote(&mut self.row, 0).expect(rt, "a quote");
        let before = match self.quotes.last() {
            Some(last) => last.version,
            None => 0,
        };
        let version = quote.version;
        assert!(rt; before <= version);
        if before == version {
            return version;
        }
        self.quotes.push(quote).ok().expect(rt, "memory");
        version
    }
}

/// What a crowd comes to: the segment, gathered, and what each of its members got. A clause sees nothing of it.
struct Crowd {
    gathered: Gathered,
    accepted: Vec<Vec<(u64, Command)>>,
    quotes: Vec<Vec<Quote>>,
}

impl Drop for Crowd {
    fn drop(self) {
        let Crowd {
            gathered: _gathered,
            accepted: _accepted,
            quotes: _quotes,
        } = self;
    }
}

impl Model for Crowd {
    ghost Value = { Unit };

    ghost view = { λ _. tt };
}

impl Crowd {
    /// The commands at the versions that their workers were answered give what the desk holds, and each quote is that of their replay
    /// at its version.
    fn is_one_history<R: AllocGlobal + Abort>(&self, rt: &R) {
        let desk = self.gathered.desks.get(0).expect(rt, "a desk");
        let replayed = replayed(rt, desk, self.history(rt).as_slice());
        for quotes in self.quotes.as_slice() {
            for quote in quotes.as_slice() {
                let at = replayed.get(quote.version as usize).expect(rt, "a version");
                assert!(rt; *at == *quote, "at {}", quote.version);
            }
        }
    }

    /// The accepted commands of all workers, of which each has a version of its own, and each version one.
    fn history<R: AllocGlobal + Abort>(&self, rt: &R) -> Vec<Command> {
        let mut by_version = Vec::new(rt.alloc());
        for _version in 0..LAST {
            by_version.push(None).ok().expect(rt, "memory");
        }
        for accepted in self.accepted.as_slice() {
            for (version, command) in accepted.as_slice() {
                let before = version.checked_sub(1).expect(rt, "a version of a command");
                let place = by_version.get_mut(before as usize).expect(rt, "a version");
                assert!(rt; place.is_none(), "at {version}");
                *place = Some(*command);
            }
        }
        let mut history = Vec::new(rt.alloc());
        for command in by_version {
            let command = command.expect(rt, "a command of each version");
            history.push(command).ok().expect(rt, "memory");
        }
        history
    }
}

/// The quote of each version of a history, whose replay shows what a desk shows.
fn replayed<R: AllocGlobal + Abort>(
    rt: &R,
    desk: &Desk<Global>,
    history: &[Command],
) -> Vec<Quote> {
    let storage = Storage::with_fixed_seed(rt.alloc());
    let settings = desk.settings().copied().expect(rt, "memory");
    let mut again: Desk<Global> = Desk::open(storage, settings).ok().expect(rt, "a desk");
    let mut quotes = Vec::new(rt.alloc());
    quotes.push(again.quote()).ok().expect(rt, "memory");
    for command in history {
        again.apply(command).ok().expect(rt, "a lawful command");
        quotes.push(again.quote()).ok().expect(rt, "memory");
    }
    let (orders, others) = (desk.orders(), again.orders());
    assert!(rt; orders.expect(rt, "memory").as_slice() == others.expect(rt, "memory").as_slice());
    assert!(rt; desk.trades() == again.trades());
    quotes
}

/// A writer for each seat, and then the opening of the day, by the first.
fn writers<S: Naming, R: AllocGlobal + Wait + Abort>(
    rt: &R,
    segment: &Segment<S>,
    seats: Vec<Seat<S>>,
) -> Vec<Writer<S>> {
    let mut writers = Vec::new(rt.alloc());
    for seat in seats {
        let writer = Writer {
            seat,
            accepted: Vec::new(rt.alloc()),
            quotes: Vec::new(rt.alloc()),
        };
        writers.push(writer).ok().expect(rt, "memory");
    }
    let first = writers.get_mut(0).expect(rt, "a writer");
    first.submit(rt, segment, &Command::StartOpening);
    first.submit(rt, segment, &Command::Uncross);
    writers
}

/// A reader for each row.
fn readers<S: Naming, R: AllocGlobal + Abort>(rt: &R, rows: Vec<WatchRow<S>>) -> Vec<Reader<S>> {
    let mut readers = Vec::new(rt.alloc());
    for row in rows {
        let quotes = Vec::new(rt.alloc());
        let added = readers.push(Reader { row, quotes });
        added.ok().expect(rt, "memory");
    }
    readers
}

/// Has all writers write while all readers read, each on a thread of its own.
fn write_beside<S: Naming + Send + Sync, R: AllocGlobal + Threads + Wait + Abort + Sync>(
    rt: &R,
    segment: &Segment<S>,
    writers: Vec<Writer<S>>,
    readers: Vec<Reader<S>>,
) -> (Vec<Writer<S>>, Vec<Reader<S>>) {
    let (wrote, read) = thread::join(
        rt,
        || thread::map_vec(rt, writers, &|writer| writer.write(rt, segment)),
        || thread::map_vec(rt, readers, &|reader| reader.read(rt, segment)),
    );
    (
        wrote.ok().expect(rt, "threads"),
        read.ok().expect(rt, "threads"),
    )
}

/// Gathers the segment of a crowd. A watcher that reads once more has seen all that was written.
fn gathered<S: Naming, R: AllocGlobal + Wait + Abort>(
    rt: &R,
    segment: Segment<S>,
    writers: Vec<Writer<S>>,
    readers: Vec<Reader<S>>,
) -> Crowd {
    let (mut accepted, mut quotes) = (Vec::new(rt.alloc()), Vec::new(rt.alloc()));
    let (mut seats, mut rows) = (Vec::new(rt.alloc()), Vec::new(rt.alloc()));
    for reader in readers {
        let mut reader = reader;
        assert!(rt; reader.look(rt, &segment) == LAST);
        let (row, read) = reader.into_parts();
        rows.push(row).ok().expect(rt, "memory");
        quotes.push(read).ok().expect(rt, "memory");
    }
    for writer in writers {
        let (seat, own, read) = writer.into_parts();
        seats.push(seat).ok().expect(rt, "memory");
        accepted.push(own).ok().expect(rt, "memory");
        quotes.push(read).ok().expect(rt, "memory");
    }
    let gathered = segment.gather(rt.alloc(), seats, rows.as_mut_slice());
    Crowd {
        gathered: gathered.ok().expect(rt, "all seats"),
        accepted,
        quotes,
    }
}

fn crowd_named<S: Naming + Send + Sync, R: AllocGlobal + Threads + Wait + Abort + Sync>(
    rt: &R,
    opened: Opened,
) -> Crowd
    requires { NamesSegment S.settings S.ledgers S.boards S.workers opened }
{
    let opened = Segment::<S>::open(rt.alloc(), opened);
    let (segment, seats, rows) = opened.ok().expect(rt, "memory");
    let writers = writers(rt, &segment, seats);
    let readers = readers(rt, rows);
    let (writers, readers) = write_beside(rt, &segment, writers, readers);
    gathered(rt, segment, writers, readers)
}

/// Runs a crowd on a security of its own.
fn written_beside<R: AllocGlobal + Threads + Wait + Abort + Sync>(rt: &R) -> Crowd {
    let opened = one_security(rt, CROWD, CROWD, 1_000_000);
    crowd_named::<Brand, R>(rt, opened)
}

#[test]
fn quotes_beside_writers_are_of_one_history(rt: HostRuntime) {
    written_beside(&rt).is_one_history(&rt);
}
