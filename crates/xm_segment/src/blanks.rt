//! The ledgers of a segment, before it has them.
ghost use Rattle.std.specs.Prelude.{◌≡◌, ◌+◌};
ghost use Rattle.xm_segment.specs.Ledgers.{nothing_counted};
ghost use Rattle.xm_segment.specs.Names.{HaveParts, ledger_names};

use crate::ledgers::{Books, LaneBlanks};
use crate::naming::Naming;
use crate::share_row::ShareRow;
use std::marker::Model;

/// The ledgers of a segment. A clause sees those of each of eight lanes.
pub(crate) struct Blanks {
    b0: LaneBlanks,
    b1: LaneBlanks,
    b2: LaneBlanks,
    b3: LaneBlanks,
    b4: LaneBlanks,
    b5: LaneBlanks,
    b6: LaneBlanks,
    b7: LaneBlanks,
}

// In a function of its own, so that whoever drops them proves one call.
impl Drop for Blanks {
    fn drop(self) {
        let Blanks {
            b0: _b0,
            b1: _b1,
            b2: _b2,
            b3: _b3,
            b4: _b4,
            b5: _b5,
            b6: _b6,
            b7: _b7,
        } = self;
    }
}

impl Model for Blanks {
    ghost use Rattle.std.specs.Prelude.{List, [], ◌∷◌};
    ghost use Rattle.xm_segment.specs.Ledgers.{BlankLedgers};

    ghost Value = { List BlankLedgers };

    ghost view = { λ b. b.b0 ∷ b.b1 ∷ b.b2 ∷ b.b3 ∷ b.b4 ∷ b.b5 ∷ b.b6 ∷ b.b7 ∷ [] };
}

impl Blanks {
    /// The ledgers of a segment for so many workers: a part for each, and one that the segment keeps.
    pub(crate) fn new(workers: u32) -> Blanks
        ensures { HaveParts (workers + 1) result }
    {
        let parts = u64::from(workers) + 1;
        Blanks {
            b0: LaneBlanks::new(parts),
            b1: LaneBlanks::new(parts),
            b2: LaneBlanks::new(parts),
            b3: LaneBlanks::new(parts),
            b4: LaneBlanks::new(parts),
            b5: LaneBlanks::new(parts),
            b6: LaneBlanks::new(parts),
            b7: LaneBlanks::new(parts),
        }
    }

    /// The books of all lanes, and shares with all their parts.
    pub(crate) fn open<S: Naming>(self) -> (BookRow<S>, ShareRow<S>)
        requires names { S.ledgers ≡ ledger_names self }
        requires parts { HaveParts (S.workers + 1) self }
        ensures books { result.0 ≡ nothing_counted }
        ensures shares { result.1 ≡ record { parts = S.workers + 1; sums = nothing_counted } }
    {
        let Blanks {
            b0,
            b1,
            b2,
            b3,
            b4,
            b5,
            b6,
            b7,
        } = self;
        let (k0, s0) = b0.open::<S, 0>();
        let (k1, s1) = b1.open::<S, 1>();
        let (k2, s2) = b2.open::<S, 2>();
        let (k3, s3) = b3.open::<S, 3>();
        let (k4, s4) = b4.open::<S, 4>();
        let (k5, s5) = b5.open::<S, 5>();
        let (k6, s6) = b6.open::<S, 6>();
        let (k7, s7) = b7.open::<S, 7>();
        let books = BookRow {
            k0,
            k1,
            k2,
            k3,
            k4,
            k5,
            k6,
            k7,
        };
        let shares = ShareRow {
            s0,
            s1,
            s2,
            s3,
            s4,
            s5,
            s6,
            s7,
        };
        (books, shares)
    }
}

/// The books of all lanes. A clause sees their sums.
#[derive(Drop)]
pub(crate) struct BookRow<S: Naming> {
    pub(crate) k0: Books<S, 0>,
    pub(crate) k1: Books<S, 1>,
    pub(crate) k2: Books<S, 2>,
    pub(crate) k3: Books<S, 3>,
    pub(crate) k4: Books<S, 4>,
    pub(crate) k5: Books<S, 5>,
    pub(crate) k6: Books<S, 6>,
    pub(crate) k7: Books<S, 7>,
}

impl<S: Naming> Model for BookRow<S> {
    ghost use Rattle.std.specs.Prelude.{List, [], ◌∷◌};
    ghost use Rattle.xm_segment.specs.Ledgers.{Sums};

    ghost Value = { List Sums };

    ghost view = { λ b. b.k0 ∷ b.k1 ∷ b.k2 ∷ b.k3 ∷ b.k4 ∷ b.k5 ∷ b.k6 ∷ b.k7 ∷ [] };
}
