//! A board that is opened, before a type names it.
ghost use Rattle.std.specs.Prelude.{◌≡◌, IfOk, true};
ghost use Rattle.xm_board.specs.Journals.{opening_of, quote_of};
ghost use Rattle.xm_rules.specs.Opening.{are_carriable};

use crate::journal::Entry;
use crate::rule::BoardRule;
use crate::seats::View;
use crate::words::opening_words;
use atomic_table::{Seat, Table};
use std::alloc::Allocator;
use std::marker::Model;
use xm_memory::OutOfMemory;
use xm_rules::{DeskSettings, Quote};

/// The words of a board: the sequence, the seven of the quote, and unused ones.
pub(crate) type QuoteTable<A> = Table<Entry, View, DeskSettings, BoardRule, A>;

/// What the pen and each watch have at the table.
pub(crate) type BoardSeat = Seat<Entry, View>;

/// A board whose memory is there, and which no type names yet. A clause sees which table it is, and the settings.
#[derive(Drop)]
pub struct OpenedBoard<A: Allocator> {
    pub(crate) table: QuoteTable<A>,
    pub(crate) seat: BoardSeat,
    pub(crate) quote: Quote,
}

impl<A: Allocator> Model for OpenedBoard<A> {
    ghost use Rattle.std.specs.Prelude.{◌≡◌, ◌+◌, ◌≤◌};
    ghost use Rattle.xm_board.specs.Journals.{opening_of, quote_of};
    ghost use Rattle.xm_board.specs.Opened.{Unnamed};
    ghost use Rattle.xm_board.specs.Published.{IsPublished};
    ghost use Rattle.xm_board.specs.Rule.{opening_pen};
    ghost use Rattle.xm_board.specs.declared.words.TheConstants.{QUOTE_WORDS};

    ghost Value = { Unnamed };

    ghost view = { λ o. record { table = o.table.shared.table_id; settings = o.table.shared.key } };

    ghost invariant = { λ o. (QUOTE_WORDS + 1 ≤ o.table.shared.table_id.words) × (o.seat.table_id ≡ o.table.shared.table_id) × (o.seat.me.0 ≡ opening_pen o.table.shared.key) × (o.quote ≡ quote_of (opening_of o.table.shared.key)) × IsPublished (opening_of o.table.shared.key) };
}

impl<A: Allocator> OpenedBoard<A> {
    /// A board for these settings, whose carried orders and stops a security takes, with the quote of their opening state. It fails where the memory is refused.
    pub fn new(
        alloc: A,
        settings: &DeskSettings,
        quote: &Quote,
    ) -> Result<OpenedBoard<A>, OutOfMemory>
        requires carried { are_carriable settings.now ≡ true }
        requires quote { quote.now ≡ quote_of (opening_of settings.now) }
        ensures { IfOk result (λ o. o.settings ≡ settings.now) }
    {
        // A read limit is in its range.
        let _ = settings.limit.get();
        let words = opening_words(quote);
        let (table, seat) = Table::of_words(alloc, &words, settings)?;
        Ok(OpenedBoard {
            table,
            seat,
            quote: *quote,
        })
    }
}
