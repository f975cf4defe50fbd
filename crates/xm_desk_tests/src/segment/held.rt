//! A quote that is read while a worker is held inside the lock of its security.
ghost use Rattle.xm_segment.specs.Names.{NamesSegment};

use super::running::one_security;
use std::marker::Brand;
use std::process::Abort;
use std::sync::Wait;
use std::sync::atomic::{AtomicU64, Ordering};
use std::thread::{self, Threads};
use xm_config::Row;
use xm_rules::{Command, Quote};
use xm_segment::{Gate, Naming, Opened, Seat, Segment, WatchRow};

/// How often a thread looks for the other one before its test fails.
const TURNS: u64 = 100_000_000;

/// Holds the worker inside the lock until a quote was read.
#[derive(Drop)]
struct Held {
    inside: AtomicU64,
    shown: AtomicU64,
    waited: AtomicU64,
}

/// Waits until the other thread has set this, and answers whether it has.
fn is_set(flag: &AtomicU64) -> bool {
    for _turn in 0..TURNS {
        if flag.load(Ordering::SeqCst) != 0 {
            return true;
        }
    }
    false
}

impl Gate for Held {
    fn outside(&self, _worker: u32, _answered: u64) {}

    fn inside(&self, _worker: u32, _security: u32) {
        self.inside.store(1, Ordering::SeqCst);
        if is_set(&self.shown) {
            self.waited.store(1, Ordering::SeqCst);
        }
    }
}

/// Reads a quote once the worker is inside, and answers its version.
fn look<S: Naming>(gate: &Held, segment: &Segment<S>, row: &mut WatchRow<S>) -> Option<u64> {
    if !is_set(&gate.inside) {
        return None;
    }
    let quote = segment.quote(row, 0);
    gate.shown.store(1, Ordering::SeqCst);
    version(quote)
}

fn version(quote: Option<Quote>) -> Option<u64> {
    match quote {
        Some(quote) => Some(quote.version),
        None => None,
    }
}

/// Has a worker take a row on one thread, and a watcher read on another. It answers the version that was read.
fn look_beside<S: Naming + Send + Sync, R: AllocGlobal + Threads + Wait + Abort + Sync>(
    rt: &R,
    gate: &Held,
    segment: &Segment<S>,
    seat: &mut Seat<S>,
    row: &mut WatchRow<S>,
) -> Option<u64> {
    let rows = [Row {
        line: 2,
        security: 0,
        command: Command::StartOpening,
    }];
    let (_report, version) = thread::join(
        rt,
        || segment.work(rt, seat, &rows, gate),
        || look(gate, segment, row),
    );
    version
}

fn held_named<S: Naming + Send + Sync, R: AllocGlobal + Threads + Wait + Abort + Sync>(
    rt: &R,
    gate: &Held,
    opened: Opened,
) -> Option<u64>
    requires { NamesSegment S.settings S.ledgers S.boards S.workers opened }
{
    let opened = Segment::<S>::open(rt.alloc(), opened);
    let (segment, mut seats, mut rows) = opened.ok().expect(rt, "memory");
    let seat = seats.get_mut(0).expect(rt, "a seat");
    let row = rows.get_mut(0).expect(rt, "a row");
    look_beside(rt, gate, &segment, seat, row)
}

/// The version that is read of a security while a worker is inside its lock.
fn quote_while_held<R: AllocGlobal + Threads + Wait + Abort + Sync>(
    rt: &R,
    gate: &Held,
) -> Option<u64> {
    let opened = one_security(rt, 1, 1, 100);
    held_named::<Brand, R>(rt, gate, opened)
}

#[test]
fn a_quote_while_the_lock_is_held(rt: HostRuntime) {
    let gate = Held {
        inside: AtomicU64::new(0),
        shown: AtomicU64::new(0),
        waited: AtomicU64::new(0),
    };
    let version = quote_while_held(&rt, &gate).expect(&rt, "a quote");
    assert!(rt; version == 0);
    assert!(rt; gate.waited.load(Ordering::SeqCst) == 1);
}
