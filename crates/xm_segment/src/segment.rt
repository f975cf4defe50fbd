//! The securities of a segment, each behind its own lock.
ghost use Rattle.std.specs.Prelude.{◌≡◌, ◌≤◌, length, slice_get};
ghost use Rattle.xm_segment.specs.Answers.{IsAnsweredOn};
ghost use Rattle.xm_segment.specs.Ledgers.{AreWithinDay, nothing_counted, with_answer_on};
ghost use Rattle.xm_segment.specs.Seats.{IsRead, IsTaken};
ghost use Rattle.xm_config.specs.declared.opening.TheConstants.{MAX_SECURITIES};

use crate::gate::{Gate, NoGate};
use crate::lane::Lane;
use crate::naming::Naming;
use crate::seat::{Seat, WatchRow};
use crate::share_row::ShareRow;
use std::marker::Model;
use std::sync::{Mutex, Wait};
use xm_rules::{Command, Quote, Refusal, Reply};

/// The lanes of a segment, one for each index of a security; the first, as many as there are securities, are in use.
#[derive(Drop)]
pub(crate) struct Lanes<S: Naming> {
    pub(crate) l0: Lane<S, 0>,
    pub(crate) l1: Lane<S, 1>,
    pub(crate) l2: Lane<S, 2>,
    pub(crate) l3: Lane<S, 3>,
    pub(crate) l4: Lane<S, 4>,
    pub(crate) l5: Lane<S, 5>,
    pub(crate) l6: Lane<S, 6>,
    pub(crate) l7: Lane<S, 7>,
}

/// A segment that workers and watchers share.
pub struct Segment<S: Naming> {
    pub(crate) lanes: Lanes<S>,
    pub(crate) own: OwnShares<S>,
    pub(crate) workers: u32,
}

// In a function of its own, so that whoever drops one proves one call.
impl<S: Naming> Drop for Segment<S> {
    fn drop(self) {
        let Segment {
            lanes: _lanes,
            own: _own,
            workers: _,
        } = self;
    }
}

impl<S: Naming> Model for Segment<S> {
    ghost use Rattle.std.specs.Prelude.{◌≡◌, ◌≤◌, length};
    ghost use Rattle.xm_config.specs.declared.opening.TheConstants.{MAX_SECURITIES};

    ghost Value = { Unit {0} };

    ghost view = { λ _. tt };

    ghost invariant = { λ s. record {
      workers : S.workers ≡ s.workers;
      few : length S.settings ≤ MAX_SECURITIES;
    } };
}

impl<S: Naming> Segment<S> {
    /// Its lanes, and the shares that it kept.
    pub(crate) fn into_parts(self) -> (Lanes<S>, ShareRow<S>)
        ensures own { result.1 ≡ record { parts = 1; sums = nothing_counted } }
        ensures few { length S.settings ≤ MAX_SECURITIES }
    {
        let Segment {
            lanes,
            own,
            workers: _,
        } = self;
        (lanes, own.into_row())
    }

    /// Takes a command on the security with this index. It may wait while another worker has that security in hand.
    ///
    /// An accepted command raises the seat's three shares of the security by one, its reply's quantity and its money; it is
    /// published with the number of the seat's row, and the row's watch has it as its own. A refused one changes nothing, but the
    /// watch has seen what it was refused at. The refusals are those of `Desk::apply`, and `UnknownSecurity`.
    pub fn submit<R: Wait>(
        &self,
        rt: &R,
        seat: &mut Seat<S>,
        security: u32,
        command: &Command,
    ) -> Result<Reply, Refusal>
        ensures { IsTaken S.settings security command.now result seat.old seat.new }
    {
        self.take(rt, &NoGate, seat, security, command)
    }

    /// Takes a command, and calls the gate once its lock is held.
    pub(crate) fn take<R: Wait, G: Gate>(
        &self,
        rt: &R,
        gate: &G,
        seat: &mut Seat<S>,
        security: u32,
        command: &Command,
    ) -> Result<Reply, Refusal>
        ensures { IsTaken S.settings security command.now result seat.old seat.new }
    {
        let worker = seat.number;
        self.count(
            rt,
            gate,
            worker,
            &mut seat.shares,
            &mut seat.row,
            security,
            command,
        )
    }

    /// Takes a command in the lane with this index, counts it in a worker's shares, and tells its row of watches.
    fn count<R: Wait, G: Gate>(
        &self,
        rt: &R,
        gate: &G,
        worker: u32,
        shares: &mut ShareRow<S>,
        row: &mut WatchRow<S>,
        lane: u32,
        command: &Command,
    ) -> Result<Reply, Refusal>
        requires { shares.old.parts ≡ 1 }
        ensures shares { shares.new ≡ record { parts = 1; sums = with_answer_on lane shares.old.sums result } }
        ensures within { AreWithinDay shares.old.sums → AreWithinDay shares.new.sums }
        ensures number { row.new.number ≡ row.old.number }
        ensures watches { IsAnsweredOn lane (slice_get S.settings lane) command.now result row.old.watches row.new.watches }
    {
        let _ = self.workers; // There are at most eight securities.
        let lanes = &self.lanes;
        match lane {
            0 => lanes.l0.submit(rt, gate, worker, lane, &mut shares.s0, &mut row.w0, command),
            1 => lanes.l1.submit(rt, gate, worker, lane, &mut shares.s1, &mut row.w1, command),
            2 => lanes.l2.submit(rt, gate, worker, lane, &mut shares.s2, &mut row.w2, command),
            3 => lanes.l3.submit(rt, gate, worker, lane, &mut shares.s3, &mut row.w3, command),
            4 => lanes.l4.submit(rt, gate, worker, lane, &mut shares.s4, &mut row.w4, command),
            5 => lanes.l5.submit(rt, gate, worker, lane, &mut shares.s5, &mut row.w5, command),
            6 => lanes.l6.submit(rt, gate, worker, lane, &mut shares.s6, &mut row.w6, command),
            7 => lanes.l7.submit(rt, gate, worker, lane, &mut shares.s7, &mut row.w7, command),
            _ => Err(Refusal::UnknownSecurity),
        }
    }

    /// What is shown of the security with this index; nothing of one that the segment doesn't have. It takes no lock and no
    /// memory.
    ///
    /// It is the quote of a lawful journal that begins with all that the row's watch had seen, and which it has seen then. Where
    /// the security's quote was written during each of 32 attempts to read it, that is what the watch had seen before.
    pub fn quote(&self, row: &mut WatchRow<S>, security: u32) -> Option<Quote>
        ensures { IsRead S.settings security result row.old row.new }
    {
        let _ = self.workers; // There are at most eight securities.
        match security {
            0 => self.lanes.l0.quote(&mut row.w0),
            1 => self.lanes.l1.quote(&mut row.w1),
            2 => self.lanes.l2.quote(&mut row.w2),
            3 => self.lanes.l3.quote(&mut row.w3),
            4 => self.lanes.l4.quote(&mut row.w4),
            5 => self.lanes.l5.quote(&mut row.w5),
            6 => self.lanes.l6.quote(&mut row.w6),
            7 => self.lanes.l7.quote(&mut row.w7),
            _ => None,
        }
    }
}

/// The part of each ledger that the segment keeps for itself, in which nothing is counted: with it the shares of no worker
/// at all have all parts. It lies behind a lock of its own, which nobody takes, since shares can't be read side by side.
#[derive(Drop)]
pub(crate) struct OwnShares<S: Naming> {
    lock: Mutex<OwnRow<S>>,
}

impl<S: Naming> OwnShares<S> {
    /// Keeps a part of each ledger.
    pub(crate) fn new(row: ShareRow<S>) -> OwnShares<S>
        requires { row ≡ record { parts = 1; sums = nothing_counted } }
    {
        OwnShares {
            lock: Mutex::new(OwnRow { row }),
        }
    }

    /// Gives it back.
    pub(crate) fn into_row(self) -> ShareRow<S>
        ensures { result ≡ record { parts = 1; sums = nothing_counted } }
    {
        let OwnShares { lock } = self;
        let OwnRow { row } = lock.into_inner();
        row
    }
}

/// One part of each ledger, in which nothing is counted.
#[derive(Drop)]
struct OwnRow<S: Naming> {
    row: ShareRow<S>,
}

impl<S: Naming> Model for OwnRow<S> {
    ghost use Rattle.std.specs.Prelude.{◌≡◌};
    ghost use Rattle.xm_segment.specs.Ledgers.{AreWithinDay, nothing_counted, with_answer_on};

    ghost Value = { Unit {0} };

    ghost view = { λ _. tt };

    ghost invariant = { λ o. o.row ≡ record { parts = 1; sums = nothing_counted } };
}
