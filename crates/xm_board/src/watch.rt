//! The readers of a board.
ghost use Rattle.std.specs.Prelude.{◌≡◌};
ghost use Rattle.xm_board.specs.Journals.{quote_of, Begins, HasOwnEntries, IsLawful};

use crate::board::Board;
use crate::journal::{Entry, NumberedJournal};
use crate::naming::BoardNaming;
use crate::opened::BoardSeat;
use crate::rule::{CheckSequence, ReadSequence};
use crate::words::quote_from;
use crossbeam_utils::Backoff;
use std::alloc::Allocator;
use std::collections::LinkedList;
use std::marker::{Model, PhantomData};
use xm_rules::Quote;

/// How often a read is tried while the pen writes. Beside a pen that never rests, one read in a thousand or two fails so often.
const ATTEMPTS: u32 = 32;

/// What a watch knows. Only clauses speak of it: no value of it is made.
pub struct Known {
    /// Its place in the list of the watches.
    pub number: u32,
    /// The journal that it has seen.
    pub seen: NumberedJournal,
    /// The entries that are its own, each with its version, which is its place in the journal counted from 1.
    pub own_entries: LinkedList<(u64, Entry)>,
}

/// A reader of a board. A clause sees what it knows.
#[derive(Drop)]
pub struct Watch<N: BoardNaming> {
    pub(crate) seat: BoardSeat,
    /// The quote of what it has seen.
    pub(crate) last: Quote,
    pub(crate) number: u32,
    pub(crate) of: PhantomData<N>,
}

impl<N: BoardNaming> Model for Watch<N> {
    ghost use Rattle.std.specs.Prelude.{◌≡◌};
    ghost use Rattle.xm_board.specs.declared.watch.Known.{Known};

    ghost Value = { Known };

    ghost use Rattle.xm_board.specs.Journals.{quote_of, Own};
    ghost use Rattle.xm_board.specs.Published.{IsPublished};
    ghost use Rattle.xm_board.specs.declared.seats.Role.TheVariants.{Watch as watch_role};

    ghost view = { λ w. record { number = w.number; seen = w.seat.me.0.seen; own_entries = w.seat.me.0.own_entries } };

    ghost invariant = { λ w. (w.seat.table_id ≡ N.table) × (w.seat.me.0.role ≡ watch_role) × (w.seat.me.0.number ≡ w.number) × (w.last ≡ quote_of w.seat.me.0.seen) × IsPublished w.seat.me.0.seen × Own w.number w.seat.me.0.seen.entries 0 w.seat.me.0.own_entries };
}

impl<N: BoardNaming> Watch<N> {
    /// Its place in the list of the watches, for good. What it has seen is lawful, and its own entries stand there.
    pub fn number(&self) -> u32
        ensures number { result ≡ self.now.number }
        ensures lawful { IsLawful self.now.seen }
        ensures own { HasOwnEntries self.now }
    {
        self.number
    }

    /// Whether the words were read while the pen wrote none of them, and its quote is now theirs.
    fn attempt<A: Allocator>(&mut self, board: &Board<N, A>) -> bool
        ensures later { Begins self.old.seen self.new.seen }
        ensures own { (self.new.own_entries ≡ self.old.own_entries) × (self.new.number ≡ self.old.number) }
    {
        let shared = &board.table.shared;
        let sequence = shared.load::<ReadSequence>(&mut self.seat, 0);
        if sequence % 2 != 0 {
            return false;
        }
        let words = board.read_words(&mut self.seat);
        if shared.load::<CheckSequence>(&mut self.seat, 0) != sequence {
            return false;
        }
        self.last = quote_from(&words);
        true
    }

    /// The quote of a lawful journal that begins with all that was seen, which is then seen. It takes no lock and no memory.
    /// Where the pen wrote during each of 32 attempts, it is the quote of what was seen before.
    pub fn read<A: Allocator>(&mut self, board: &Board<N, A>) -> Quote
        ensures quote { result ≡ quote_of self.new.seen }
        ensures lawful { IsLawful self.new.seen }
        ensures later { Begins self.old.seen self.new.seen }
        ensures own { (self.new.own_entries ≡ self.old.own_entries) × (self.new.number ≡ self.old.number) }
    {
        let backoff = Backoff::new();
        for _ in 0..ATTEMPTS {
            if self.attempt(board) {
                break;
            }
            backoff.spin();
        }
        self.last
    }
}
