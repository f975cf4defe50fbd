//! The lanes of a segment that has no locks any more.
ghost use Rattle.std.specs.Prelude.{◌≡◌, ◌+◌, ℕ, is_some, option_map, slice_get};
ghost use Rattle.xm_board.specs.Journals.{unnumbered};
ghost use Rattle.xm_segment.specs.Gathering.{IsClosed};
ghost use Rattle.xm_segment.specs.Unlocked.{ArePartsIn, IsPartIn, told_by, watch_told};
ghost use Rattle.xm_segment.specs.Watches.{IsWatch};

use crate::lane::Lane;
use crate::ledgers::Shares;
use crate::locked::{Locked, QuoteBoard, QuoteWatch};
use crate::naming::Naming;
use crate::seat::WatchRow;
use crate::segment::Lanes;
use std::alloc::Global;
use std::marker::Model;
use xm_desk::Desk;

/// A lane whose lock was taken away, if the segment has its security. A clause sees the journal that is published.
#[derive(Drop)]
pub(crate) struct UnlockedLane<S: Naming, const K: usize> {
    held: Option<Held<S, K>>,
}

/// What stood behind the lock, and the board beside it.
#[derive(Drop)]
struct Held<S: Naming, const K: usize> {
    locked: Locked<S, K>,
    board: QuoteBoard<S, K>,
}

impl<S: Naming, const K: usize> Model for UnlockedLane<S, K> {
    ghost use Rattle.std.specs.Prelude.{◌≡◌, Option, is_some, option_map, slice_get};
    ghost use Rattle.xm_board.specs.declared.journal.NumberedJournal.{NumberedJournal};

    ghost Value = { Option NumberedJournal };

    ghost view = { λ u. option_map (λ h. h.locked) u.held };

    ghost invariant = { λ u. is_some u.held ≡ is_some (slice_get S.settings K) };
}

impl<S: Naming, const K: usize> UnlockedLane<S, K> {
    /// The lane without its lock.
    fn of(lane: Lane<S, K>) -> UnlockedLane<S, K>
        ensures { is_some result ≡ is_some (slice_get S.settings K) }
    {
        let held = match lane.into_open() {
            Some(open) => Some(Held {
                locked: open.lock.into_inner(),
                board: open.board,
            }),
            None => None,
        };
        UnlockedLane { held }
    }

    /// Tells a watch of all that was published, which it then has seen. What it had seen begins the journal, and its own entries
    /// stand there.
    fn tell(&mut self, watch: &mut Option<QuoteWatch<S, K>>)
        requires { (number : ℕ) × IsWatch number (slice_get S.settings K) watch.old }
        ensures same { self.new ≡ self.old }
        ensures part { IsPartIn self.old watch.old }
        ensures told { watch.new ≡ watch_told self.old watch.old }
        ensures watch { (number : ℕ) → IsWatch number (slice_get S.settings K) watch.old → IsWatch number (slice_get S.settings K) watch.new }
    {
        let Some(held) = &mut self.held else {
            return;
        };
        let Some(watch) = watch else {
            return;
        };
        held.locked.tell(&held.board, watch);
    }

    /// The desk, if there is one, where shares with all parts of the ledgers came back.
    pub(crate) fn close(self, shares: Shares<S, K>) -> Option<Desk<Global>>
        requires { shares.parts ≡ S.workers + 1 }
        ensures closed { IsClosed (slice_get S.settings K) shares.sums result }
        ensures same { option_map unnumbered self ≡ result }
    {
        let UnlockedLane { held } = self;
        let mut shares = shares;
        match held {
            Some(held) => Some(held.locked.close(&mut shares)),
            None => None,
        }
    }
}

/// All lanes. A clause sees the journal that each has published.
#[derive(Drop)]
pub(crate) struct UnlockedLanes<S: Naming> {
    pub(crate) u0: UnlockedLane<S, 0>,
    pub(crate) u1: UnlockedLane<S, 1>,
    pub(crate) u2: UnlockedLane<S, 2>,
    pub(crate) u3: UnlockedLane<S, 3>,
    pub(crate) u4: UnlockedLane<S, 4>,
    pub(crate) u5: UnlockedLane<S, 5>,
    pub(crate) u6: UnlockedLane<S, 6>,
    pub(crate) u7: UnlockedLane<S, 7>,
}

impl<S: Naming> Model for UnlockedLanes<S> {
    ghost use Rattle.std.specs.Prelude.{List, [], ◌∷◌, Option};
    ghost use Rattle.xm_board.specs.declared.journal.NumberedJournal.{NumberedJournal};
    ghost use Rattle.xm_segment.specs.Unlocked.{FillLanes};

    ghost Value = { List (Option NumberedJournal) };

    ghost view = { λ u. u.u0 ∷ u.u1 ∷ u.u2 ∷ u.u3 ∷ u.u4 ∷ u.u5 ∷ u.u6 ∷ u.u7 ∷ [] };

    ghost invariant = { λ u. FillLanes 0 S.settings (u.u0 ∷ u.u1 ∷ u.u2 ∷ u.u3 ∷ u.u4 ∷ u.u5 ∷ u.u6 ∷ u.u7 ∷ []) };
}

impl<S: Naming> UnlockedLanes<S> {
    /// The lanes without their locks.
    pub(crate) fn of(lanes: Lanes<S>) -> UnlockedLanes<S> {
        let Lanes {
            l0,
            l1,
            l2,
            l3,
            l4,
            l5,
            l6,
            l7,
        } = lanes;
        UnlockedLanes {
            u0: UnlockedLane::of(l0),
            u1: UnlockedLane::of(l1),
            u2: UnlockedLane::of(l2),
            u3: UnlockedLane::of(l3),
            u4: UnlockedLane::of(l4),
            u5: UnlockedLane::of(l5),
            u6: UnlockedLane::of(l6),
            u7: UnlockedLane::of(l7),
        }
    }

    /// Tells a row of watches of all that was published, which each then has seen. What it had seen begins its lane's journal, and
    /// its own entries stand there.
    pub(crate) fn tell(&mut self, row: &mut WatchRow<S>)
        ensures same { self.new ≡ self.old }
        ensures parts { ArePartsIn self.old row.old.watches }
        ensures told { row.new ≡ told_by self.old row.old }
    {
        self.u0.tell(&mut row.w0);
        self.u1.tell(&mut row.w1);
        self.u2.tell(&mut row.w2);
        self.u3.tell(&mut row.w3);
        self.u4.tell(&mut row.w4);
        self.u5.tell(&mut row.w5);
        self.u6.tell(&mut row.w6);
        self.u7.tell(&mut row.w7);
    }
}
