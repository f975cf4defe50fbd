//! A segment as it opens for workers and watchers.
ghost use Rattle.std.specs.Prelude.{ℕ, ◌≡◌, ◌≢◌, ◌+◌, ◌≤◌, [], Err, IfErr, IfOk, None, OnOk, Some, length, map, option_map, slice_get, take};
ghost use Rattle.std.specs.Vec.{vec_capacity};
ghost use Rattle.xm_rules.specs.Step.{Journal};
ghost use Rattle.xm_segment.specs.Boards.{AreColumnsFrom, AreFreshFrom, AreLeft, IsColumn, IsFresh};
ghost use Rattle.xm_segment.specs.Ledgers.{no_sums, nothing_counted};
ghost use Rattle.xm_segment.specs.Names.{NamesSegment};
ghost use Rattle.xm_config.specs.Opening.{fresh_journal, opening_fault, settings_of};
ghost use Rattle.xm_segment.specs.Seats.{AreRows, AreSeats};
ghost use Rattle.xm_config.specs.declared.opening.TheConstants.{MAX_SECURITIES};

use crate::blanks::{Blanks, BookRow};
use crate::lane::{Lane, OpenLane};
use crate::ledgers::Books;
use crate::locked::{Locked, QuoteWatch};
use crate::named::{Columns, NamedBoard, NamedBoards, named_boards, rows_of};
use crate::naming::Naming;
use crate::seat::{Seat, WatchRow};
use crate::segment::{Lanes, OwnShares, Segment};
use crate::share_row::ShareRow;
use std::alloc::Global;
use std::marker::Model;
use std::sync::Mutex;
use xm_config::{OpenFault, SegmentConfig};
use xm_desk::{Desk, desks_of};
use xm_memory::OutOfMemory;
use xm_name_index::Storage;

/// A segment that is opened, and which no type names yet: its desks, its boards and its ledgers. Whoever opens it picks its type by
/// their names. A clause sees the settings of its securities, the boards, the ledgers, and for how many workers and watchers it is.
pub struct Opened {
    desks: Vec<Box<Desk<Global>>>,
    boards: Vec<xm_board::OpenedBoard<Global>>,
    blanks: Blanks,
    workers: u32,
    watchers: u32,
}

// In a function of its own, so that whoever drops one proves one call.
impl Drop for Opened {
    fn drop(self) {
        let Opened {
            desks: _desks,
            boards: _boards,
            blanks: _blanks,
            workers: _,
            watchers: _,
        } = self;
    }
}

impl Model for Opened {
    ghost use Rattle.std.specs.Prelude.{◌≡◌, ◌+◌, ◌≤◌, length, map};
    ghost use Rattle.xm_segment.specs.Names.{HaveParts, UnnamedSegment};
    ghost use Rattle.xm_config.specs.Opening.{fresh_journal};
    ghost use Rattle.xm_config.specs.declared.opening.TheConstants.{MAX_SECURITIES, MAX_WORKERS};

    ghost Value = { UnnamedSegment };

    ghost view = { λ o. record { settings = map (λ board. board.settings) o.boards.items; boards = o.boards.items; ledgers = o.blanks; workers = o.workers; watchers = o.watchers } };

    ghost invariant = { λ o. record {
      desks : map (λ desk. desk.value) o.desks.items ≡ map (λ board. fresh_journal board.settings) o.boards.items;
      parts : HaveParts (o.workers + 1) o.blanks;
      few : length o.boards.items ≤ MAX_SECURITIES;
      few_workers : o.workers ≤ MAX_WORKERS;
      few_watchers : o.watchers ≤ MAX_WORKERS;
    } };
}

impl Opened {
    /// Opens a segment for so many workers and watchers.
    ///
    /// The fault is the first of these: no security; more than `MAX_SECURITIES` of them, `MAX_MEMBERS` members,
    /// `MAX_WORKERS` workers or as many watchers; widths of a security that aren't lawful; orders or stops of one that earlier
    /// days can't have left. It is `OutOfMemory` where a growth was refused.
    pub fn new(
        storage: Storage<Global>,
        config: &SegmentConfig,
        workers: u32,
        watchers: u32,
    ) -> Result<Opened, OpenFault>
        ensures settings { IfOk result (λ o. o.settings ≡ map (settings_of config.now) config.now.securities) }
        ensures workers { IfOk result (λ o. o.workers ≡ workers) }
        ensures watchers { IfOk result (λ o. o.watchers ≡ watchers) }
        ensures sound { OnOk result (opening_fault config.now workers watchers ≡ None) }
        ensures refused { IfErr result (λ fault. fault ≢ OpenFault.OutOfMemory tt → opening_fault config.now workers watchers ≡ Some fault) }
        ensures memory { result ≡ Err (OpenFault.OutOfMemory tt) → opening_fault config.now workers watchers ≡ None }
    {
        if let Some(fault) = config.opening_fault(workers, watchers) {
            return Err(fault);
        }
        let desks = desks_of(storage, config)?;
        let boards = boards_of(storage.alloc, desks.as_slice())?;
        let desks = boxed(storage.alloc, desks)?;
        Ok(Opened {
            desks,
            boards,
            blanks: Blanks::new(workers),
            workers,
            watchers,
        })
    }
}

/// The same desks, each in a place of its own.
fn boxed(alloc: Global, desks: Vec<Desk<Global>>) -> Result<Vec<Box<Desk<Global>>>, OutOfMemory>
    ensures { IfOk result (λ boxes. map (λ desk. desk.value) boxes.items ≡ desks.items) }
{
    let mut boxes = Vec::with_capacity(alloc, desks.len())?;
    for desk in desks {
        let place = Box::new(alloc, desk)?;
        boxes.push_reserved(place);
    }
    Ok(boxes)
}

/// A board for each desk that has taken no command.
fn boards_of(
    alloc: Global,
    desks: &[Desk<Global>],
) -> Result<Vec<xm_board::OpenedBoard<Global>>, OutOfMemory>
    requires { (i : ℕ) (desk : Journal) → slice_get desks.now i ≡ Some desk → desk.commands ≡ [] }
    ensures { IfOk result (λ boards. map (λ board. board.settings) boards.items ≡ map (λ desk. desk.settings) desks.now) }
{
    let mut boards = Vec::with_capacity(alloc, desks.len())?;
    for desk in desks {
        let board = xm_board::OpenedBoard::new(alloc, desk.settings(), &desk.quote())?;
        boards.push_reserved(board);
    }
    Ok(boards)
}

impl<S: Naming> Segment<S> {
    /// The segment under its name, with a seat for each worker, with the numbers from 0 on, and a row for each watcher, with the
    /// numbers after those. Nothing is counted, seen or own. It fails where a growth is refused.
    pub fn open(
        alloc: Global,
        opened: Opened,
    ) -> Result<(Segment<S>, Vec<Seat<S>>, Vec<WatchRow<S>>), OutOfMemory>
        requires { NamesSegment S.settings S.ledgers S.boards S.workers opened }
        ensures seats { IfOk result (λ o. AreSeats S.settings opened.workers o.1.items) }
        ensures rows { IfOk result (λ o. AreRows S.settings opened.workers opened.watchers o.2.items) }
    {
        let all = opened.workers + opened.watchers;
        let seats = Vec::with_capacity(alloc, opened.workers as usize)?;
        let rows = Vec::with_capacity(alloc, opened.watchers as usize)?;
        let waiting = Vec::with_capacity(alloc, all as usize)?;
        opened.named(alloc, all, seats, rows, waiting)
    }
}

impl Opened {
    /// The segment under its name. There is room for its seats, its watchers' rows, and the rows of both.
    fn named<S: Naming>(
        self,
        alloc: Global,
        all: u32,
        seats: Vec<Seat<S>>,
        rows: Vec<WatchRow<S>>,
        waiting: Vec<WatchRow<S>>,
    ) -> Result<(Segment<S>, Vec<Seat<S>>, Vec<WatchRow<S>>), OutOfMemory>
        requires named { NamesSegment S.settings S.ledgers S.boards S.workers self }
        requires all { all ≡ self.workers + self.watchers }
        requires seats { (seats.items ≡ []) × (self.workers ≤ vec_capacity seats) }
        requires rows { (rows.items ≡ []) × (self.watchers ≤ vec_capacity rows) }
        requires waiting { (waiting.items ≡ []) × (all ≤ vec_capacity waiting) }
        ensures seats { IfOk result (λ o. AreSeats S.settings self.workers o.1.items) }
        ensures rows { IfOk result (λ o. AreRows S.settings self.workers self.watchers o.2.items) }
    {
        let Opened {
            desks,
            boards,
            blanks,
            workers,
            watchers: _,
        } = self;
        let named = named_boards(alloc, boards, all)?;
        let (books, mut shares) = blanks.open::<S>();
        let (lanes, columns) = lanes_of(desks, books, named);
        let mut waiting = rows_of(waiting, columns, all);
        let seats = seated(seats, &mut shares, &mut waiting, workers);
        let own = OwnShares::new(shares);
        let segment = Segment {
            lanes,
            own,
            workers,
        };
        Ok((segment, seats, ordered(rows, waiting)))
    }
}

/// The lanes of these desks and boards, and the watches of each.
fn lanes_of<S: Naming>(
    mut desks: Vec<Box<Desk<Global>>>,
    books: BookRow<S>,
    named: NamedBoards<S>,
) -> (Lanes<S>, Columns<S>)
    requires few { length S.settings ≤ MAX_SECURITIES }
    requires desks { map (λ desk. desk.value) desks.items ≡ map fresh_journal S.settings }
    requires books { books ≡ nothing_counted }
    requires boards { (rows : ℕ) × AreFreshFrom 0 S.settings rows named }
    ensures { (rows : ℕ) → AreFreshFrom 0 S.settings rows named → AreColumnsFrom 0 S.settings rows result.1 }
{
    let NamedBoards {
        n0,
        n1,
        n2,
        n3,
        n4,
        n5,
        n6,
        n7,
    } = named;
    let BookRow {
        k0,
        k1,
        k2,
        k3,
        k4,
        k5,
        k6,
        k7,
    } = books;
    let (l7, c7) = last_lane(&mut desks, k7, n7);
    let (l6, c6) = last_lane(&mut desks, k6, n6);
    let (l5, c5) = last_lane(&mut desks, k5, n5);
    let (l4, c4) = last_lane(&mut desks, k4, n4);
    let (l3, c3) = last_lane(&mut desks, k3, n3);
    let (l2, c2) = last_lane(&mut desks, k2, n2);
    let (l1, c1) = last_lane(&mut desks, k1, n1);
    let (l0, c0) = last_lane(&mut desks, k0, n0);
    let lanes = Lanes {
        l0,
        l1,
        l2,
        l3,
        l4,
        l5,
        l6,
        l7,
    };
    let columns = Columns {
        c0,
        c1,
        c2,
        c3,
        c4,
        c5,
        c6,
        c7,
    };
    (lanes, columns)
}

/// The lane with this index, for which the last desk is taken where the segment has that many, and the watches of its board.
fn last_lane<S: Naming, const K: usize>(
    desks: &mut Vec<Box<Desk<Global>>>,
    books: Books<S, K>,
    named: Option<NamedBoard<S, K>>,
) -> (Lane<S, K>, Option<Vec<QuoteWatch<S, K>>>)
    requires desks { map (λ desk. desk.value) desks.old.items ≡ map fresh_journal (take (K + 1) S.settings) }
    requires books { books ≡ no_sums }
    requires board { (rows : ℕ) × IsFresh rows (slice_get S.settings K) named }
    ensures left { map (λ desk. desk.value) desks.new.items ≡ map fresh_journal (take K S.settings) }
    ensures column { (rows : ℕ) → IsFresh rows (slice_get S.settings K) named → IsColumn rows (slice_get S.settings K) (option_map (λ v. v.items) result.1) }
{
    let Some(named) = named else {
        return (Lane { open: None }, None);
    };
    let Some(desk) = desks.pop() else {
        return (Lane { open: None }, None);
    };
    let (board, pen, watches) = named.into_parts();
    let lock = Mutex::new(Locked::new(desk, books, pen));
    let open = Some(OpenLane { lock, board });
    (Lane { open }, Some(watches))
}

/// A seat for each worker, with a part of the shares and the row of its number.
fn seated<S: Naming>(
    mut seats: Vec<Seat<S>>,
    shares: &mut ShareRow<S>,
    rows: &mut Vec<WatchRow<S>>,
    workers: u32,
) -> Vec<Seat<S>>
    requires none { seats.items ≡ [] }
    requires room { workers ≤ vec_capacity seats }
    requires few { length S.settings ≤ MAX_SECURITIES }
    requires shares { shares.old ≡ record { parts = workers + 1; sums = nothing_counted } }
    requires rows { AreLeft S.settings (length rows.old.items) 0 rows.old.items }
    requires enough { workers ≤ length rows.old.items }
    ensures seats { AreSeats S.settings workers result.items }
    ensures own { shares.new ≡ record { parts = 1; sums = nothing_counted } }
    ensures left { AreLeft S.settings (length rows.old.items) workers rows.new.items }
{
    for number in 0..workers {
        let Some(row) = rows.pop() else {
            unreachable!();
        };
        seats.push_reserved(Seat::new(number, shares.cut(), row));
    }
    seats
}

/// The watchers' rows, the least number first.
fn ordered<S: Naming>(mut rows: Vec<WatchRow<S>>, mut left: Vec<WatchRow<S>>) -> Vec<WatchRow<S>>
    requires none { rows.items ≡ [] }
    requires room { length left.items ≤ vec_capacity rows }
    requires left { AreLeft S.settings (S.workers + length left.items) S.workers left.items }
    ensures { AreRows S.settings S.workers (length left.items) result.items }
{
    while let Some(row) = left.pop() {
        rows.push_reserved(row);
    }
    rows
}
