//! The boards of a segment, as they get their names.
ghost use Rattle.std.specs.Prelude.{◌≡◌, ◌+◌, ◌≤◌, [], IfOk, length, option_map, slice_get, take};
ghost use Rattle.std.specs.Vec.{vec_capacity};
ghost use Rattle.xm_segment.specs.Boards.{AreBoards, AreColumnsFrom, AreFreshFrom, AreLeft, IsColumn, IsFresh};
ghost use Rattle.xm_segment.specs.Watches.{fresh_row, fresh_watch};
ghost use Rattle.xm_config.specs.declared.opening.TheConstants.{MAX_SECURITIES};

use crate::locked::{QuoteBoard, QuoteWatch};
use crate::naming::{Naming, Quotes};
use crate::seat::WatchRow;
use std::alloc::Global;
use std::marker::Model;
use xm_board::{Board, Pen};
use xm_memory::OutOfMemory;

/// The board of a security under its name, with its pen, and a watch for each row.
pub(crate) struct NamedBoard<S: Naming, const K: usize> {
    pub(crate) board: QuoteBoard<S, K>,
    pub(crate) pen: Pen<Quotes<S, K>>,
    pub(crate) watches: Vec<QuoteWatch<S, K>>,
}

impl<S: Naming, const K: usize> Drop for NamedBoard<S, K> {
    fn drop(self) {
        let NamedBoard {
            board: _board,
            pen: _pen,
            watches: _watches,
        } = self;
    }
}

impl<S: Naming, const K: usize> Model for NamedBoard<S, K> {
    ghost use Rattle.xm_segment.specs.Boards.{NamedView};

    ghost Value = { NamedView };

    ghost view = { λ b. record { published = b.pen; watches = b.watches.items } };
}

impl<S: Naming, const K: usize> NamedBoard<S, K> {
    /// The board, its pen and its watches.
    pub(crate) fn into_parts(self) -> (QuoteBoard<S, K>, Pen<Quotes<S, K>>, Vec<QuoteWatch<S, K>>)
        ensures pen { result.1 ≡ self.published }
        ensures watches { result.2.items ≡ self.watches }
    {
        let NamedBoard {
            board,
            pen,
            watches,
        } = self;
        (board, pen, watches)
    }
}

/// The boards of all lanes.
#[derive(Drop)]
pub(crate) struct NamedBoards<S: Naming> {
    pub(crate) n0: Option<NamedBoard<S, 0>>,
    pub(crate) n1: Option<NamedBoard<S, 1>>,
    pub(crate) n2: Option<NamedBoard<S, 2>>,
    pub(crate) n3: Option<NamedBoard<S, 3>>,
    pub(crate) n4: Option<NamedBoard<S, 4>>,
    pub(crate) n5: Option<NamedBoard<S, 5>>,
    pub(crate) n6: Option<NamedBoard<S, 6>>,
    pub(crate) n7: Option<NamedBoard<S, 7>>,
}

impl<S: Naming> Model for NamedBoards<S> {
    ghost use Rattle.std.specs.Prelude.{List, [], ◌∷◌, Option};
    ghost use Rattle.xm_segment.specs.Boards.{NamedView};

    ghost Value = { List (Option NamedView) };

    ghost view = { λ n. n.n0 ∷ n.n1 ∷ n.n2 ∷ n.n3 ∷ n.n4 ∷ n.n5 ∷ n.n6 ∷ n.n7 ∷ [] };
}

/// Gives each board its name, and as many watches as there are rows.
pub(crate) fn named_boards<S: Naming>(
    alloc: Global,
    mut boards: Vec<xm_board::OpenedBoard<Global>>,
    rows: u32,
) -> Result<NamedBoards<S>, OutOfMemory>
    requires few { length S.settings ≤ MAX_SECURITIES }
    requires boards { AreBoards S.settings S.boards boards.items }
    ensures { IfOk result (λ named. AreFreshFrom 0 S.settings rows named) }
{
    let n7 = last_board(alloc, &mut boards, rows)?;
    let n6 = last_board(alloc, &mut boards, rows)?;
    let n5 = last_board(alloc, &mut boards, rows)?;
    let n4 = last_board(alloc, &mut boards, rows)?;
    let n3 = last_board(alloc, &mut boards, rows)?;
    let n2 = last_board(alloc, &mut boards, rows)?;
    let n1 = last_board(alloc, &mut boards, rows)?;
    let n0 = last_board(alloc, &mut boards, rows)?;
    Ok(NamedBoards {
        n0,
        n1,
        n2,
        n3,
        n4,
        n5,
        n6,
        n7,
    })
}

/// The board of the lane with this index, for which the last one is taken where there are more than its index.
fn last_board<S: Naming, const K: usize>(
    alloc: Global,
    boards: &mut Vec<xm_board::OpenedBoard<Global>>,
    rows: u32,
) -> Result<Option<NamedBoard<S, K>>, OutOfMemory>
    requires { AreBoards (take (K + 1) S.settings) S.boards boards.old.items }
    ensures left { AreBoards (take K S.settings) S.boards boards.new.items }
    ensures fresh { IfOk result (λ board. IsFresh rows (slice_get S.settings K) board) }
{
    if boards.len() <= K {
        return Ok(None);
    }
    let Some(opened) = boards.pop() else {
        return Ok(None);
    };
    let (board, pen, watches) = Board::open(alloc, opened, rows)?;
    Ok(Some(NamedBoard {
        board,
        pen,
        watches,
    }))
}

/// The watches of all lanes, which become rows.
#[derive(Drop)]
pub(crate) struct Columns<S: Naming> {
    pub(crate) c0: Option<Vec<QuoteWatch<S, 0>>>,
    pub(crate) c1: Option<Vec<QuoteWatch<S, 1>>>,
    pub(crate) c2: Option<Vec<QuoteWatch<S, 2>>>,
    pub(crate) c3: Option<Vec<QuoteWatch<S, 3>>>,
    pub(crate) c4: Option<Vec<QuoteWatch<S, 4>>>,
    pub(crate) c5: Option<Vec<QuoteWatch<S, 5>>>,
    pub(crate) c6: Option<Vec<QuoteWatch<S, 6>>>,
    pub(crate) c7: Option<Vec<QuoteWatch<S, 7>>>,
}

impl<S: Naming> Model for Columns<S> {
    ghost use Rattle.std.specs.Prelude.{List, [], ◌∷◌, Option, option_map};
    ghost use Rattle.xm_board.specs.declared.watch.Known.{Known};

    ghost Value = { List (Option (List Known)) };

    ghost view = { λ c. option_map (λ v. v.items) c.c0 ∷ option_map (λ v. v.items) c.c1 ∷ option_map (λ v. v.items) c.c2 ∷ option_map (λ v. v.items) c.c3 ∷ option_map (λ v. v.items) c.c4 ∷ option_map (λ v. v.items) c.c5 ∷ option_map (λ v. v.items) c.c6 ∷ option_map (λ v. v.items) c.c7 ∷ [] };
}

impl<S: Naming> Columns<S> {
    /// The row with the greatest number that is left, which is this.
    fn last_row(&mut self, number: u32) -> WatchRow<S>
        requires { AreColumnsFrom 0 S.settings (number + 1) self.old }
        ensures left { AreColumnsFrom 0 S.settings number self.new }
        ensures row { result ≡ fresh_row S.settings number }
    {
        WatchRow {
            number,
            w0: last_watch(&mut self.c0, number),
            w1: last_watch(&mut self.c1, number),
            w2: last_watch(&mut self.c2, number),
            w3: last_watch(&mut self.c3, number),
            w4: last_watch(&mut self.c4, number),
            w5: last_watch(&mut self.c5, number),
            w6: last_watch(&mut self.c6, number),
            w7: last_watch(&mut self.c7, number),
        }
    }
}

/// The watch with the greatest number that is left of a lane, which is this; there is none where the segment doesn't have its
/// security.
fn last_watch<S: Naming, const K: usize>(
    column: &mut Option<Vec<QuoteWatch<S, K>>>,
    number: u32,
) -> Option<QuoteWatch<S, K>>
    requires { IsColumn (number + 1) (slice_get S.settings K) (option_map (λ v. v.items) column.old) }
    ensures left { IsColumn number (slice_get S.settings K) (option_map (λ v. v.items) column.new) }
    ensures watch { result ≡ fresh_watch number (slice_get S.settings K) }
{
    match column {
        Some(watches) => watches.pop(),
        None => None,
    }
}

/// The rows of so many numbers, the greatest first.
pub(crate) fn rows_of<S: Naming>(
    mut rows: Vec<WatchRow<S>>,
    mut columns: Columns<S>,
    count: u32,
) -> Vec<WatchRow<S>>
    requires none { rows.items ≡ [] }
    requires room { count ≤ vec_capacity rows }
    requires columns { AreColumnsFrom 0 S.settings count columns }
    ensures { AreLeft S.settings count 0 result.items }
{
    for taken in 0..count {
        rows.push_reserved(columns.last_row(count - 1 - taken));
    }
    rows
}
