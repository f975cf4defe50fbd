//! The board: how it is opened, written, and told of.
ghost use Rattle.std.specs.Prelude.{◌≡◌, ◌*◌, ◌<◌, ◌^◌, ◌++◌, ℕ, [], true, length, slice_get, Some, IfOk, if◌then◌else◌};
ghost use Rattle.xm_board.specs.Journals.{Begins, IsLawful, entry_of, grown, known_by, last_number, last_own, opening_of, quote_of, version_of};
ghost use Rattle.xm_board.specs.Published.{IsPublished, words_of};
ghost use Rattle.xm_board.specs.Rule.{AreReadWords, asking, shared_as, shared_seen, with_next_number, with_seen};
ghost use Rattle.xm_board.specs.declared.seats.Role.TheVariants.{Pen as pen_role, Watch as watch_role};
ghost use Rattle.xm_board.specs.declared.seats.Stage.TheVariants.{Idle, Reading};
ghost use Rattle.xm_board.specs.declared.words.TheConstants.{QUOTE_WORDS};

use crate::journal::Entry;
use crate::naming::BoardNaming;
use crate::opened::{BoardSeat, OpenedBoard, QuoteTable};
use crate::pen::Pen;
use crate::rule::{
    AskSeen, BeginWrite, CompareSeen, EndWrite, MakeWatch, ReadWord, ShareLast, ShareSeen,
    TakeSeen, WriteWord,
};
use crate::watch::Watch;
use crate::words::{QUOTE_WORDS, words_from};
use std::alloc::Allocator;
use std::marker::{Model, PhantomData};
use xm_memory::OutOfMemory;
use xm_rules::{Command, Quote};

/// The quote of one security, in words that all threads share.
#[derive(Drop)]
pub struct Board<N: BoardNaming, A: Allocator> {
    pub(crate) table: QuoteTable<A>,
    of: PhantomData<N>,
}

// A model, and no ghost field: a struct above may then hold a board whose name it gives by a generic `impl`.
impl<N: BoardNaming, A: Allocator> Model for Board<N, A> {
    ghost use Rattle.std.specs.Prelude.{◌≡◌, ◌+◌, ◌≤◌};
    ghost use Rattle.xm_board.specs.declared.words.TheConstants.{QUOTE_WORDS};

    ghost Value = { Unit {0} };

    ghost view = { λ _. tt };

    ghost invariant = { λ b. (b.table.shared.table_id ≡ N.table) × (QUOTE_WORDS + 1 ≤ b.table.shared.table_id.words) };
}

impl<N: BoardNaming, A: Allocator> Board<N, A> {
    /// The board under its name, with its one pen and as many watches as asked, each with its place in the list as its number.
    /// Nothing is published, seen or own. It fails where the memory of the list is refused.
    pub fn open(
        alloc: A,
        opened: OpenedBoard<A>,
        watches: u32,
    ) -> Result<(Board<N, A>, Pen<N>, Vec<Watch<N>, A>), OutOfMemory>
        requires named { opened.table ≡ N.table }
        ensures pen { IfOk result (λ o. o.1 ≡ opening_of opened.settings) }
        ensures count { IfOk result (λ o. length o.2.items ≡ watches) }
        ensures watches { IfOk result (λ o. (k : ℕ) (w : _) → slice_get o.2.items k ≡ Some w → w ≡ known_by k (opening_of opened.settings) []) }
    {
        let mut row = Vec::with_capacity(alloc, watches as usize)?;
        let OpenedBoard {
            table,
            mut seat,
            quote,
        } = opened;
        let board = Board {
            table,
            of: PhantomData,
        };
        for number in 0..watches {
            row.push_reserved(board.make_watch(&mut seat, number, &quote));
        }
        let pen = Pen {
            seat,
            last: quote,
            of: PhantomData,
        };
        Ok((board, pen, row))
    }

    /// The next watch. It has seen what the pen has.
    fn make_watch(&self, seat: &mut BoardSeat, number: u32, quote: &Quote) -> Watch<N>
        requires seat { (seat.old.table_id ≡ N.table) × (seat.old.me.0.role ≡ pen_role) × (seat.old.me.0.number ≡ number) }
        requires quote { quote.now ≡ quote_of seat.old.me.0.seen }
        requires published { IsPublished seat.old.me.0.seen }
        ensures seat { (seat.new.table_id ≡ seat.old.table_id) × (seat.new.me.0 ≡ with_next_number seat.old.me.0) }
        ensures watch { result ≡ known_by number seat.old.me.0.seen [] }
    {
        let seat = self.table.shared.split_seat::<MakeWatch>(seat);
        Watch {
            seat,
            last: *quote,
            number,
            of: PhantomData,
        }
    }

    /// What the pen has seen, to be joined to what a watch has; with `own` also its last entry.
    fn share(&self, seat: &mut BoardSeat, own: bool) -> BoardSeat
        requires { (seat.old.table_id ≡ N.table) × (seat.old.me.0.role ≡ pen_role) }
        ensures same { (seat.new.table_id ≡ seat.old.table_id) × (seat.new.id ≡ seat.old.id) × (seat.new.me.0 ≡ seat.old.me.0) }
        ensures shared { (result.table_id ≡ seat.old.table_id) × (result.me ≡ (shared_as own seat.old.me.0, [])) }
    {
        if own {
            self.table.shared.split_seat::<ShareLast>(seat)
        } else {
            self.table.shared.split_seat::<ShareSeen>(seat)
        }
    }

    /// Finds that the watch has seen a beginning of the pen's journal. The pen is asked, and looks at the sequence once.
    fn compare(&self, pen: &mut BoardSeat, watch: &mut BoardSeat)
        requires pen { (pen.old.table_id ≡ N.table) × (pen.old.me.0.role ≡ pen_role) }
        requires watch { (watch.old.table_id ≡ N.table) × (watch.old.me.0.role ≡ watch_role) }
        ensures pen { (pen.new.table_id ≡ pen.old.table_id) × (pen.new.me.0 ≡ asking pen.old.me.0 (shared_seen watch.old.me.0)) }
        ensures watch { (watch.new.table_id ≡ watch.old.table_id) × (watch.new.me.0 ≡ watch.old.me.0) }
        ensures begins { Begins watch.old.me.0.seen pen.old.me.0.seen }
    {
        let asked = self.table.shared.split_seat::<ShareSeen>(watch);
        self.table.shared.join_seat::<AskSeen>(pen, asked);
        self.table.shared.load::<CompareSeen>(pen, 0);
    }

    /// Tells a watch of all that the pen has published. With `own` the last entry joins the watch's own entries: it is for that
    /// watch, which had not seen it. It takes no lock and no memory.
    pub fn tell(&self, pen: &mut Pen<N>, watch: &mut Watch<N>, own: bool)
        requires own { own ≡ true → (version_of watch.old.seen < version_of pen.old) × (last_number pen.old ≡ watch.old.number) }
        ensures pen { pen.new ≡ pen.old }
        ensures before { Begins watch.old.seen pen.old }
        ensures watch { watch.new ≡ known_by watch.old.number pen.old (watch.old.own_entries ++ (if own then last_own pen.old else [])) }
    {
        self.compare(&mut pen.seat, &mut watch.seat);
        let told = self.share(&mut pen.seat, own);
        self.table
            .shared
            .join_seat::<TakeSeen>(&mut watch.seat, told);
        watch.last = pen.last;
    }

    /// The words of the quote as they are read, which are those of one journal where the sequence hasn't changed since.
    pub(crate) fn read_words(&self, seat: &mut BoardSeat) -> [u64; QUOTE_WORDS]
        requires seat { (seat.old.table_id ≡ N.table) × (seat.old.me.0.role ≡ watch_role) }
        requires reads { (first : _) × (last : _) × (seat.old.me.0.stage ≡ Reading first last) }
        ensures same { (seat.new.table_id ≡ seat.old.table_id) × (seat.new.me.0.role ≡ watch_role) }
        ensures count { length result ≡ QUOTE_WORDS }
        ensures words { AreReadWords words_of QUOTE_WORDS result seat.old.me.0 seat.new.me.0 }
    {
        let mut words = [0u64; QUOTE_WORDS];
        for i in 0..QUOTE_WORDS {
            words[i] = self.table.shared.load::<ReadWord>(seat, i + 1);
        }
        words
    }

    /// Writes the words of the journal with one entry more. The sequence is odd while they are written.
    fn write(&self, seat: &mut BoardSeat, sequence: u64, entry: &Entry, words: &[u64; QUOTE_WORDS])
        requires seat { (seat.old.table_id ≡ N.table) × (seat.old.me.0.role ≡ pen_role) × (seat.old.me.0.stage ≡ Idle) }
        requires sequence { (sequence ≡ 2 * version_of seat.old.me.0.seen) × (sequence < 2 ^ 63) }
        requires published { IsPublished (grown seat.old.me.0.seen entry.now) }
        requires words { words.now ≡ words_of (grown seat.old.me.0.seen entry.now) }
        ensures same { seat.new.table_id ≡ seat.old.table_id }
        ensures grown { seat.new.me.0 ≡ with_seen seat.old.me.0 (grown seat.old.me.0.seen entry.now) seat.old.me.0.own_entries }
    {
        let shared = &self.table.shared;
        shared.compare_exchange_with::<BeginWrite>(seat, 0, sequence, sequence + 1, entry);
        for i in 0..QUOTE_WORDS {
            shared.store::<WriteWord>(seat, i + 1, words[i]);
        }
        shared.store::<EndWrite>(seat, 0, sequence + 2);
    }

    /// Publishes a command that keeps the journal lawful, with the number of the watch that it is for, and the quote of the state
    /// after it. It takes no lock and no memory.
    pub fn publish(&self, pen: &mut Pen<N>, number: u32, command: &Command, quote: &Quote)
        requires lawful { IsLawful (grown pen.old (entry_of number command.now)) }
        requires quote { quote.now ≡ quote_of (grown pen.old (entry_of number command.now)) }
        ensures { pen.new ≡ grown pen.old (entry_of number command.now) }
    {
        let entry = Entry {
            number,
            command: *command,
        };
        let words = words_from(quote);
        let sequence = pen.last.version * 2;
        self.write(&mut pen.seat, sequence, &entry, &words);
        pen.last = *quote;
    }
}
