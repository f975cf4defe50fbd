//! The end of a day that workers shared: their seats come back, and each desk leaves its lock.
ghost use Rattle.std.specs.Prelude.{ℕ, ◌≡◌, ◌≢◌, ◌+◌, ◌<◌, ◌≤◌, List, [], IfErr, IfOk, OnErr, OnOk, Some, length, map, slice_get, take};
ghost use Rattle.xm_board.specs.Journals.{unnumbered};
ghost use Rattle.xm_segment.specs.Gathering.{AreGathered, EachGathered, IsOneHistory, WereTold, all_sums};
ghost use Rattle.xm_segment.specs.Ledgers.{FitLanes, Sums, nothing_counted};
ghost use Rattle.xm_segment.specs.Room.{HasGathered};
ghost use Rattle.xm_segment.specs.Seats.{SeatView};
ghost use Rattle.xm_segment.specs.Unlocked.{ArePartsIn, FillLanes, journals_in, told_by, with_desk};
ghost use Rattle.xm_segment.specs.Watches.{RowView};
ghost use Rattle.xm_segment.specs.declared.gathered.GatherFault.TheVariants as GatherFault;
ghost use Rattle.xm_config.specs.declared.opening.TheConstants.{MAX_SECURITIES};

use crate::gathered::{GatherFault, Gathered};
use crate::ledgers::Shares;
use crate::naming::Naming;
use crate::seat::{Seat, WatchRow};
use crate::segment::Segment;
use crate::share_row::ShareRow;
use crate::unlocked::{UnlockedLane, UnlockedLanes};
use std::alloc::Global;
use xm_config::MAX_SECURITIES;
use xm_memory::OutOfMemory;

impl<S: Naming> Segment<S> {
    /// Gathers a segment: takes all seats back, and each desk from behind its lock. What the seats' accepted commands counted
    /// is what the desks' journals have: their commands, and the quantity and the money of their trades. What the rows of all seats
    /// and these watchers' rows had seen, and what is their own, is part of one history, which is the desks'. These watchers'
    /// rows have seen all of it then.
    ///
    /// `MissingSeat`: there are fewer seats than workers. `OutOfMemory`: a growth was refused. Then the segment and the seats
    /// are handed back, in their order, and the rows are as they were.
    pub fn gather(
        self,
        alloc: Global,
        seats: Vec<Seat<S>>,
        rows: &mut [WatchRow<S>],
    ) -> Result<Gathered, (Segment<S>, Vec<Seat<S>>, GatherFault)>
        ensures gathered { IfOk result (λ g. AreGathered S.settings (all_sums seats.items) g.desks.items) }
        ensures history { IfOk result (λ g. IsOneHistory g.desks.items seats.items rows.old) }
        ensures told { IfOk result (λ g. WereTold g.desks.items seats.items rows.old rows.new) }
        ensures seats { OnOk result (S.workers ≤ length seats.items) }
        ensures missing { IfErr result (λ e. e.2 ≡ GatherFault.MissingSeat → length seats.items < S.workers) }
        ensures memory { IfErr result (λ e. e.2 ≢ GatherFault.MissingSeat → S.workers ≤ length seats.items) }
        ensures back { IfErr result (λ e. e.1.items ≡ seats.items) }
        ensures untouched { OnErr result (rows.new ≡ rows.old) }
    {
        if seats.len() < self.workers as usize {
            return Err((self, seats, GatherFault::MissingSeat));
        }
        match Gathered::new(alloc) {
            Ok(gathered) => Ok(gathered.with_lanes(self, seats, rows)),
            Err(error) => Err((self, seats, GatherFault::OutOfMemory(error))),
        }
    }
}

impl Gathered {
    /// Nothing gathered yet, with room for the securities of a segment.
    fn new(alloc: Global) -> Result<Gathered, OutOfMemory>
        ensures { IfOk result (λ g. HasGathered 0 g × (g.desks.items ≡ [])) }
    {
        Ok(Gathered {
            desks: Vec::with_capacity(alloc, MAX_SECURITIES)?,
            totals: Vec::with_capacity(alloc, MAX_SECURITIES)?,
            quantity: 0,
            money: 0,
        })
    }

    /// What a segment came to whose seats are all there.
    fn with_lanes<S: Naming>(
        self,
        segment: Segment<S>,
        seats: Vec<Seat<S>>,
        rows: &mut [WatchRow<S>],
    ) -> Gathered
        requires room { HasGathered 0 self }
        requires none { self.desks.items ≡ [] }
        requires seats { S.workers ≤ length seats.items }
        ensures all { AreGathered S.settings (all_sums seats.items) result.desks.items }
        ensures history { IsOneHistory result.desks.items seats.items rows.old }
        ensures told { WereTold result.desks.items seats.items rows.old rows.new }
    {
        let (lanes, own) = segment.into_parts();
        let mut lanes = UnlockedLanes::of(lanes);
        let shares = merged(&mut lanes, own, seats);
        tell_all(&mut lanes, rows);
        self.with_desks(lanes, shares)
    }

    /// The desks of all lanes, of which all shares came back.
    fn with_desks<S: Naming>(self, lanes: UnlockedLanes<S>, shares: ShareRow<S>) -> Gathered
        requires few { length S.settings ≤ MAX_SECURITIES }
        requires room { HasGathered 0 self }
        requires none { self.desks.items ≡ [] }
        requires parts { shares.parts ≡ S.workers + 1 }
        ensures each { EachGathered S.settings shares.sums result.desks.items }
        ensures desks { result.desks.items ≡ map unnumbered (journals_in lanes) }
        ensures filled { FillLanes 0 S.settings lanes }
    {
        let UnlockedLanes {
            u0,
            u1,
            u2,
            u3,
            u4,
            u5,
            u6,
            u7,
        } = lanes;
        let ShareRow {
            s0,
            s1,
            s2,
            s3,
            s4,
            s5,
            s6,
            s7,
        } = shares;
        let mut gathered = self;
        gathered.put(u0, s0);
        gathered.put(u1, s1);
        gathered.put(u2, s2);
        gathered.put(u3, s3);
        gathered.put(u4, s4);
        gathered.put(u5, s5);
        gathered.put(u6, s6);
        gathered.put(u7, s7);
        gathered
    }

    /// Puts the desk of a lane behind those before it, where the segment has that many.
    fn put<S: Naming, const K: usize>(&mut self, lane: UnlockedLane<S, K>, shares: Shares<S, K>)
        requires eight { K < 8 }
        requires parts { shares.parts ≡ S.workers + 1 }
        requires room { HasGathered K self.old }
        ensures room { HasGathered (K + 1) self.new }
        ensures each { (counted : List Sums) → slice_get counted K ≡ Some shares.sums → EachGathered (take K S.settings) counted self.old.desks.items
            → EachGathered (take (K + 1) S.settings) counted self.new.desks.items }
        ensures desks { self.new.desks.items ≡ with_desk self.old.desks.items lane }
    {
        let Some(desk) = lane.close(shares) else {
            return;
        };
        let totals = desk.totals();
        let tick = desk.settings().tick;
        self.quantity += totals.quantity;
        self.money += u128::from(totals.money) * u128::from(tick.get());
        self.totals.push_reserved(totals);
        self.desks.push_reserved(desk);
    }
}

/// The shares that a segment kept, with those of all seats, whose rows are told what their lanes have published.
fn merged<S: Naming>(
    lanes: &mut UnlockedLanes<S>,
    own: ShareRow<S>,
    seats: Vec<Seat<S>>,
) -> ShareRow<S>
    requires own { own ≡ record { parts = 1; sums = nothing_counted } }
    requires seats { S.workers ≤ length seats.items }
    requires few { length S.settings ≤ MAX_SECURITIES }
    ensures all { result ≡ record { parts = S.workers + 1; sums = all_sums seats.items } }
    ensures fit { FitLanes S.settings (all_sums seats.items) }
    ensures lanes { lanes.new ≡ lanes.old }
    ensures parts { (i : ℕ) (seat : SeatView) → slice_get seats.items i ≡ Some seat → ArePartsIn lanes.old seat.row.watches }
{
    let mut all = own;
    for seat in seats {
        let (shares, mut row) = seat.into_parts();
        lanes.tell(&mut row);
        all.merge(shares);
    }
    all
}

/// Tells rows what their lanes have published.
fn tell_all<S: Naming>(lanes: &mut UnlockedLanes<S>, rows: &mut [WatchRow<S>])
    ensures lanes { lanes.new ≡ lanes.old }
    ensures parts { (i : ℕ) (row : RowView) → slice_get rows.old i ≡ Some row → ArePartsIn lanes.old row.watches }
    ensures told { rows.new ≡ map (told_by lanes.old) rows.old }
{
    for row in rows.iter_mut() {
        lanes.tell(row);
    }
}
