//! A worker of a day.
ghost use Rattle.std.specs.Prelude.{◌≡◌, ◌+◌, ◌≤◌, OnOk, length};
ghost use Rattle.xm_workers.specs.Workers.{HasRoomBehind, HasWorked, taken_in};
ghost use Rattle.xm_segment.specs.Ledgers.{accepted_in};

use std::alloc::Global;
use std::marker::Model;
use std::sync::Wait;
use xm_config::Row;
use xm_memory::OutOfMemory;
use xm_replay::DayReport;
use xm_segment::{Gate, Naming, Seat, Segment};

/// A worker's seat, and how many of its rows were accepted and refused so far. The ledgers that the seat has a share of count
/// the accepted ones.
#[derive(Drop)]
pub(crate) struct Worker<S: Naming> {
    seat: Seat<S>,
    report: DayReport,
}

impl<S: Naming> Model for Worker<S> {
    ghost use Rattle.std.specs.Prelude.{◌≡◌};
    ghost use Rattle.xm_workers.specs.Workers.{WorkerView};
    ghost use Rattle.xm_segment.specs.Ledgers.{accepted_in};

    ghost Value = { WorkerView };

    ghost view = { λ w. record { seat = w.seat; report = w.report } };

    ghost invariant = { λ w. accepted_in w.seat.sums ≡ w.report.accepted };
}

impl<S: Naming> Worker<S> {
    /// A worker whose seat has counted nothing.
    pub(crate) fn new(seat: Seat<S>) -> Worker<S>
        requires { accepted_in seat.sums ≡ 0 }
        ensures { result ≡ record { seat = seat; report = record { accepted = 0; refused = 0 } } }
    {
        Worker {
            seat,
            report: DayReport {
                accepted: 0,
                refused: 0,
            },
        }
    }

    /// Takes rows in their order, and counts them. Where memory was wanting, those after that row are left.
    pub(crate) fn work<R: Wait, G: Gate>(
        &mut self,
        rt: &R,
        gate: &G,
        segment: &Segment<S>,
        rows: &[Row],
    ) -> Result<(), OutOfMemory>
        requires { HasRoomBehind (taken_in self.old.report) (length rows.now) }
        ensures { OnOk result (HasWorked S.settings rows.now self.old self.new) }
    {
        let report = segment.work(rt, &mut self.seat, rows, gate);
        self.report.accepted += report.accepted;
        if let Some(error) = report.wanting {
            return Err(error);
        }
        self.report.refused += report.refused.iter().sum::<u64>();
        Ok(())
    }

    /// The seat, and what was counted.
    pub(crate) fn into_parts(self) -> (Seat<S>, DayReport)
        ensures seat { result.0 ≡ self.seat }
        ensures report { result.1 ≡ self.report }
        ensures accepted { accepted_in self.seat.sums ≡ self.report.accepted }
    {
        let Worker { seat, report } = self;
        (seat, report)
    }
}
