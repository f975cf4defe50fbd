//! What a worker, and a watcher, has of a segment.
ghost use Rattle.std.specs.Prelude.{◌≡◌, ◌≤◌, All, length};
ghost use Rattle.std.specs.Borrow.{sem};
ghost use Rattle.xm_segment.specs.Ledgers.{AreWithinDay, FitLanes, nothing_counted};
ghost use Rattle.xm_segment.specs.Watches.{AreWatches, HasOwn};
ghost use Rattle.xm_config.specs.declared.opening.TheConstants.{MAX_SECURITIES};

use crate::locked::QuoteWatch;
use crate::naming::Naming;
use crate::share_row::ShareRow;
use std::marker::Model;

/// What watches the securities of a segment: a watch of the board of each. A clause sees its number, and what each watch knows.
/// Those of the workers' rows are theirs as they open, and those of the watchers follow.
pub struct WatchRow<S: Naming> {
    pub(crate) number: u32,
    pub(crate) w0: Option<QuoteWatch<S, 0>>,
    pub(crate) w1: Option<QuoteWatch<S, 1>>,
    pub(crate) w2: Option<QuoteWatch<S, 2>>,
    pub(crate) w3: Option<QuoteWatch<S, 3>>,
    pub(crate) w4: Option<QuoteWatch<S, 4>>,
    pub(crate) w5: Option<QuoteWatch<S, 5>>,
    pub(crate) w6: Option<QuoteWatch<S, 6>>,
    pub(crate) w7: Option<QuoteWatch<S, 7>>,
}

// In a function of its own, so that whoever drops one proves one call.
impl<S: Naming> Drop for WatchRow<S> {
    fn drop(self) {
        let WatchRow {
            number: _,
            w0: _w0,
            w1: _w1,
            w2: _w2,
            w3: _w3,
            w4: _w4,
            w5: _w5,
            w6: _w6,
            w7: _w7,
        } = self;
    }
}

impl<S: Naming> Model for WatchRow<S> {
    ghost use Rattle.std.specs.Prelude.{[], ◌∷◌};
    ghost use Rattle.xm_segment.specs.Watches.{AreWatchesFrom, RowView};

    ghost Value = { RowView };

    ghost view = { λ r. record { number = r.number; watches = r.w0 ∷ r.w1 ∷ r.w2 ∷ r.w3 ∷ r.w4 ∷ r.w5 ∷ r.w6 ∷ r.w7 ∷ [] } };

    ghost invariant = { λ r. AreWatchesFrom 0 S.settings r.number (r.w0 ∷ r.w1 ∷ r.w2 ∷ r.w3 ∷ r.w4 ∷ r.w5 ∷ r.w6 ∷ r.w7 ∷ []) };
}

impl<S: Naming> WatchRow<S> {
    /// Its number, which is that of each of its watches. What is a watch's own stands in what it has seen.
    pub fn number(&self) -> u32
        ensures number { result ≡ self.now.number }
        ensures watches { AreWatches S.settings self.now }
        ensures own { All HasOwn self.now.watches }
    {
        find_own(&self.w0);
        find_own(&self.w1);
        find_own(&self.w2);
        find_own(&self.w3);
        find_own(&self.w4);
        find_own(&self.w5);
        find_own(&self.w6);
        find_own(&self.w7);
        self.number
    }
}

/// Finds that the own entries of a watch stand in what it has seen, if there is one.
fn find_own<S: Naming, const K: usize>(watch: &Option<QuoteWatch<S, K>>)
    ensures { HasOwn watch.now }
{
    if let Some(watch) = watch {
        let _ = watch.number();
    }
}

/// A worker's seat: its share of the ledgers of each security, and a row of watches. A clause sees the worker's number, for each
/// of eight lanes what the worker's accepted commands counted there, and the row.
pub struct Seat<S: Naming> {
    pub(crate) number: u32,
    pub(crate) shares: ShareRow<S>,
    pub(crate) row: WatchRow<S>,
}

// In a function of its own, so that whoever drops one proves one call.
impl<S: Naming> Drop for Seat<S> {
    fn drop(self) {
        let Seat {
            number: _,
            shares: _shares,
            row: _row,
        } = self;
    }
}

impl<S: Naming> Model for Seat<S> {
    ghost use Rattle.std.specs.Prelude.{◌≡◌, length};
    ghost use Rattle.xm_segment.specs.Ledgers.{AreWithinDay, FitLanes};
    ghost use Rattle.xm_segment.specs.Seats.{SeatView};
    ghost use Rattle.xm_config.specs.declared.opening.TheConstants.{MAX_SECURITIES};

    ghost Value = { SeatView };

    ghost view = { λ s. record { number = s.number; sums = s.shares.sums; row = s.row } };

    ghost invariant = { λ s. record {
      parts : s.shares.parts ≡ 1;
      within : AreWithinDay s.shares.sums;
      fit : FitLanes S.settings s.shares.sums;
      lanes : length s.shares.sums ≡ MAX_SECURITIES;
    } };
}

impl<S: Naming> Seat<S> {
    ghost use Rattle.xm_segment.specs.Lends.{lends_row};

    /// The seat of the worker with this number, which has one part of each ledger, in which nothing is counted.
    pub(crate) fn new(number: u32, shares: ShareRow<S>, row: WatchRow<S>) -> Seat<S>
        requires shares { shares ≡ record { parts = 1; sums = nothing_counted } }
        requires few { length S.settings ≤ MAX_SECURITIES }
        ensures { result ≡ record { number = number; sums = nothing_counted; row = row } }
    {
        Seat {
            number,
            shares,
            row,
        }
    }

    /// The worker's number.
    pub fn number(&self) -> u32
        ensures number { result ≡ self.now.number }
        ensures fit { FitLanes S.settings self.now.sums }
        ensures within { AreWithinDay self.now.sums }
        ensures lanes { length self.now.sums ≡ MAX_SECURITIES }
    {
        self.number
    }

    /// The seat's row of watches.
    pub fn row(&mut self) -> &mut WatchRow<S>
        ensures* writes_back { sem 𝓛 (lends_row S.row S.Naming self.entry result) }
    {
        &mut self.row
    }

    /// Its shares, and its row of watches.
    pub(crate) fn into_parts(self) -> (ShareRow<S>, WatchRow<S>)
        ensures shares { result.0 ≡ record { parts = 1; sums = self.sums } }
        ensures row { result.1 ≡ self.row }
        ensures fit { FitLanes S.settings self.sums }
    {
        let Seat {
            number: _,
            shares,
            row,
        } = self;
        (shares, row)
    }
}
