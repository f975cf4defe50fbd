//! A worker's rows, taken one after another.
ghost use Rattle.std.specs.Prelude.{◌≡◌, ◌+◌, ◌*◌, ◌<◌, ◌≤◌, List, None, Result, length, sum};
ghost use Rattle.xm_rules.specs.declared.replies.Refusal.{Refusal};
ghost use Rattle.xm_rules.specs.declared.replies.Reply.{Reply};
ghost use Rattle.xm_rules.specs.declared.totals.TheConstants.{MAX_TRADED_QUANTITY};
ghost use Rattle.xm_segment.specs.Ledgers.{FitLanes, accepted_in, quantity_in};
ghost use Rattle.xm_segment.specs.Reports.{HasRoomIn, no_report, report_of, wanting_in, with_answer_in};
ghost use Rattle.xm_segment.specs.Seats.{IsTaken, WereAnswered, lacks_memory};
ghost use Rattle.xm_config.specs.declared.opening.TheConstants.{MAX_SECURITIES};
ghost use Rattle.xm_segment.specs.declared.working.TheConstants.{MAX_ROWS};

use crate::gate::Gate;
use crate::naming::Naming;
use crate::seat::Seat;
use crate::segment::Segment;
use std::sync::Wait;
use xm_config::Row;
use xm_memory::OutOfMemory;
use xm_rules::{REFUSALS, Refusal, Reply};

/// The most rows that a worker takes at once.
pub const MAX_ROWS: usize = 1_000_000;

/// What a worker's rows came to.
#[derive(Clone, Copy, PartialEq, Eq, Debug)]
pub struct WorkerReport {
    /// How many were accepted.
    pub accepted: u64,
    /// How many were refused, by the place of the refusal among all, in the order in which `Refusal` has them: that of an
    /// unknown security is 0, that of want of memory 13, and that of a book-or-cancel order that would execute 14.
    pub refused: [u64; REFUSALS],
    /// What the accepted ones traded, in units.
    pub quantity: u64,
    /// The want of memory at which they ended, if they did: that of the last one that was refused.
    pub wanting: Option<OutOfMemory>,
}

impl WorkerReport {
    /// The report of no rows.
    fn new() -> WorkerReport
        ensures { result ≡ no_report }
    {
        WorkerReport {
            accepted: 0,
            refused: [0; REFUSALS],
            quantity: 0,
            wanting: None,
        }
    }

    /// Counts an answer.
    fn count(&mut self, answer: &Result<Reply, Refusal>)
        requires room { HasRoomIn self.old answer.now }
        ensures { self.new ≡ with_answer_in self.old answer.now }
    {
        match answer {
            Ok(reply) => {
                self.accepted += 1;
                self.quantity += reply.quantity;
            }
            Err(refusal) => {
                self.refused[refusal.place()] += 1;
                self.wanting = wanting_in(refusal);
            }
        }
    }
}

/// The want of memory that a refusal is, if it is one.
fn wanting_in(refusal: &Refusal) -> Option<OutOfMemory>
    ensures { result ≡ wanting_in refusal.now }
{
    match refusal {
        Refusal::OutOfMemory(error) => Some(*error),
        _ => None,
    }
}

/// Whether an answer is want of memory.
fn lacks_memory(answer: &Result<Reply, Refusal>) -> bool
    ensures { result ≡ lacks_memory answer.now }
{
    match answer {
        Err(Refusal::OutOfMemory(_)) => true,
        _ => false,
    }
}

impl<S: Naming> Segment<S> {
    /// Takes a worker's rows in their order, each under the lock of its security, until all are taken or memory was wanting
    /// for one.
    ///
    /// Each row that was taken has an answer, as `submit` gives it, and the report counts them.
    pub fn work<R: Wait, G: Gate>(
        &self,
        rt: &R,
        seat: &mut Seat<S>,
        rows: &[Row],
        gate: &G,
    ) -> WorkerReport
        requires { length rows.now ≤ MAX_ROWS }
        ensures answers { (answers : List (Result Reply Refusal)) × WereAnswered S.settings seat.old rows.now answers seat.new × (result ≡ report_of answers) }
        ensures accepted { accepted_in seat.new.sums ≡ accepted_in seat.old.sums + result.accepted }
        ensures quantity { quantity_in seat.new.sums ≡ quantity_in seat.old.sums + result.quantity }
        ensures all { result.wanting ≡ None → result.accepted + sum result.refused ≡ length rows.now }
    {
        let mut report = WorkerReport::new();
        if rows.is_empty() {
            return report;
        }
        let worker = seat.number();
        gate.outside(worker, 0);
        let mut answered = 0;
        for row in rows {
            let answer = self.answer(rt, gate, seat, row);
            report.count(&answer);
            answered += 1;
            gate.outside(worker, answered);
            if lacks_memory(&answer) {
                return report;
            }
        }
        report
    }

    /// Takes a row of a worker.
    fn answer<R: Wait, G: Gate>(
        &self,
        rt: &R,
        gate: &G,
        seat: &mut Seat<S>,
        row: &Row,
    ) -> Result<Reply, Refusal>
        ensures fit { FitLanes S.settings seat.old.sums }
        ensures taken { IsTaken S.settings row.now.security row.now.command result seat.old seat.new }
        ensures within { quantity_in seat.new.sums ≤ MAX_SECURITIES * MAX_TRADED_QUANTITY }
    {
        let _ = seat.number(); // What every seat keeps is known before and after.
        let answer = self.take(rt, gate, seat, row.security, &row.command);
        let _ = seat.number();
        answer
    }
}
