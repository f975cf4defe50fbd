//! What a worker calls of its gate.
ghost use Rattle.xm_segment.specs.Names.{NamesSegment};

use super::running::one_security;
use std::marker::Brand;
use std::process::Abort;
use std::sync::Wait;
use std::sync::atomic::{AtomicU64, Ordering};
use xm_config::Row;
use xm_rules::Command;
use xm_segment::{Gate, Naming, Opened, Segment};

/// The worker whose calls are noted.
const WORKER: u32 = 1;

/// A row of the one security that is accepted, one of an unknown one, and one that is refused.
const ROWS: [Row; 3] = [
    Row {
        line: 2,
        security: 0,
        command: Command::StartOpening,
    },
    Row {
        line: 3,
        security: 1,
        command: Command::Uncross,
    },
    Row {
        line: 4,
        security: 0,
        command: Command::StartOpening,
    },
];

/// The calls that these rows lead to, each as a digit to the base of 16.
const CALLS: u64 = 0x1_8_2_3_8_4;

/// Notes each call as a digit: outside the locks 1 and how many rows were answered, inside that of a security 8 and its index, and 15
/// for another worker.
#[derive(Drop)]
struct Noted {
    calls: AtomicU64,
}

impl Noted {
    fn note(&self, worker: u32, digit: u64) {
        let before = self.calls.load(Ordering::SeqCst).wrapping_mul(16);
        let digit = if worker == WORKER { digit } else { 15 };
        self.calls
            .store(before.wrapping_add(digit), Ordering::SeqCst);
    }
}

impl Gate for Noted {
    fn outside(&self, worker: u32, answered: u64) {
        self.note(worker, answered.wrapping_add(1));
    }

    fn inside(&self, worker: u32, security: u32) {
        self.note(worker, u64::from(security).wrapping_add(8));
    }
}

/// Has the worker take no rows and then these, and compares what it called.
fn work_named<S: Naming, R: AllocGlobal + Wait + Abort>(rt: &R, gate: &Noted, opened: Opened)
    requires { NamesSegment S.settings S.ledgers S.boards S.workers opened }
{
    let opened = Segment::<S>::open(rt.alloc(), opened);
    let (segment, mut seats, _rows) = opened.ok().expect(rt, "memory");
    let seat = seats.get_mut(WORKER as usize).expect(rt, "a seat");
    let none = segment.work(rt, seat, &[], gate);
    assert!(rt; gate.calls.load(Ordering::SeqCst) == 0);
    let report = segment.work(rt, seat, &ROWS, gate);
    assert!(rt; gate.calls.load(Ordering::SeqCst) == CALLS);
    assert!(rt; none.accepted == 0 && report.accepted == 1);
}

/// Opens a security for two workers, of which the second works.
fn work<R: AllocGlobal + Wait + Abort>(rt: &R, gate: &Noted) {
    let opened = one_security(rt, 2, 1, 100);
    work_named::<Brand, R>(rt, gate, opened);
}

#[test]
fn calls_of_a_gate(rt: HostRuntime) {
    let gate = Noted {
        calls: AtomicU64::new(0),
    };
    work(&rt, &gate);
}
