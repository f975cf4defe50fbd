//! What stands behind the lock of a security.
ghost use Rattle.std.specs.Prelude.{◌≡◌, ◌+◌, ◌<◌, ◌≤◌, ◌++◌, ◌∷◌, [], OnErr, OnOk, Some, slice_get, true};
ghost use Rattle.xm_board.specs.Journals.{Begins, IsLawful, entry_of, grown, known_by, opening_of, unnumbered, version_of};
ghost use Rattle.xm_rules.specs.Step.{is_lawful, replay};
ghost use Rattle.xm_rules.specs.declared.totals.TheConstants.{MAX_TRADED_QUANTITY};
ghost use Rattle.xm_segment.specs.Answers.{IsAnswer, with_answered};
ghost use Rattle.xm_segment.specs.Gathering.{IsPart};
ghost use Rattle.xm_segment.specs.Ledgers.{no_sums, ledger_sums, with_answer};

use crate::ledgers::{Books, Shares};
use crate::naming::{Naming, Quotes};
use std::alloc::Global;
use std::marker::Model;
use xm_board::{Board, BoardNaming, Pen, Watch};
use xm_desk::Desk;
use xm_rules::{Command, Refusal, Reply};

/// The board of the security with this index.
pub type QuoteBoard<S, const K: usize> = Board<Quotes<S, K>, Global>;

/// A reader of that board.
pub type QuoteWatch<S, const K: usize> = Watch<Quotes<S, K>>;

/// What stands behind the lock of the security with this index: its desk, the books of its three ledgers, and the pen of its
/// board. A clause sees the journal that is published, each command with the number of the watch that it is for. Without the
/// numbers it is the desk's, which is lawful. It began with the settings of this security, and the books tell how many commands
/// it has, and the quantity and the money of its trades. A desk is large, and lies in a place of its own, so that what holds eight
/// of these is small where it is handed on.
#[derive(Drop)]
pub struct Locked<S: Naming, const K: usize> {
    desk: Box<Desk<Global>>,
    books: Books<S, K>,
    pen: Pen<Quotes<S, K>>,
}

impl<S: Naming, const K: usize> Model for Locked<S, K> {
    ghost use Rattle.std.specs.Prelude.{◌≡◌, Some, slice_get};
    ghost use Rattle.xm_board.specs.Journals.{unnumbered};
    ghost use Rattle.xm_board.specs.declared.journal.NumberedJournal.{NumberedJournal};
    ghost use Rattle.xm_segment.specs.Ledgers.{ledger_sums};

    ghost Value = { NumberedJournal };

    ghost view = { λ l. l.pen };

    ghost invariant = { λ l. record {
      opened : slice_get S.settings K ≡ Some l.pen.settings;
      published : unnumbered l.pen ≡ l.desk.value;
      counted : l.books ≡ ledger_sums l.desk.value;
    } };
}

impl<S: Naming, const K: usize> Locked<S, K> {
    /// A desk that has taken no command, books that have counted none, and a pen that has published none.
    pub(crate) fn new(
        desk: Box<Desk<Global>>,
        books: Books<S, K>,
        pen: Pen<Quotes<S, K>>,
    ) -> Locked<S, K>
        requires opened { slice_get S.settings K ≡ Some desk.value.settings }
        requires fresh { desk.value.commands ≡ [] }
        requires nothing { books ≡ no_sums }
        requires unwritten { pen ≡ opening_of desk.value.settings }
        ensures { result ≡ pen }
    {
        Locked { desk, books, pen }
    }

    /// Takes a command of the worker that has this watch, which then knows all that stands here: an accepted command is published
    /// with its number, and is its own. It raises the shares by one, its reply's quantity and its money. A refused one changes
    /// nothing.
    pub fn submit(
        &mut self,
        board: &QuoteBoard<S, K>,
        shares: &mut Shares<S, K>,
        watch: &mut QuoteWatch<S, K>,
        command: &Command,
    ) -> Result<Reply, Refusal>
        requires { 0 < shares.old.parts }
        ensures opened { slice_get S.settings K ≡ Some self.old.settings }
        ensures lawful { IsLawful self.old }
        ensures later { Begins watch.old.seen self.old }
        ensures answer { IsAnswer (replay (unnumbered self.old)) command.now result }
        ensures watch { watch.new ≡ with_answered watch.old self.old command.now result }
        ensures accepted { OnOk result (self.new ≡ grown self.old (entry_of watch.old.number command.now)) }
        ensures refused { OnErr result (self.new ≡ self.old) }
        ensures shares { shares.new ≡ record shares.old { sums = with_answer shares.old.sums result } }
        ensures within { OnOk result (shares.new.sums.quantity ≤ MAX_TRADED_QUANTITY) }
    {
        board.tell(&mut self.pen, watch, false);
        let reply = match take(&mut self.desk, command) {
            Ok(reply) => reply,
            Err(refusal) => return Err(refusal),
        };
        publish(board, &self.desk, &mut self.pen, watch, command);
        self.books.count(shares, &reply);
        Ok(reply)
    }

    /// Tells a watch of all that was published. What it had seen begins the journal, and its own entries stand there.
    pub(crate) fn tell(&mut self, board: &QuoteBoard<S, K>, watch: &mut QuoteWatch<S, K>)
        ensures same { self.new ≡ self.old }
        ensures part { IsPart watch.old self.old }
        ensures watch { watch.new ≡ known_by watch.old.number self.old watch.old.own_entries }
    {
        board.tell(&mut self.pen, watch, false);
        let _ = watch.number(); // Its own entries stand in what it has seen.
    }

    /// The desk, where shares with all parts of the ledgers came back: they count what its journal has.
    pub(crate) fn close(self, shares: &mut Shares<S, K>) -> Desk<Global>
        requires { shares.old.parts ≡ S.workers + 1 }
        ensures opened { slice_get S.settings K ≡ Some result.settings }
        ensures lawful { is_lawful result ≡ true }
        ensures same { unnumbered self ≡ result }
        ensures counted { shares.old.sums ≡ ledger_sums result }
    {
        let Locked {
            desk,
            mut books,
            pen: _pen,
        } = self;
        books.audit(shares);
        let _ = desk.accepted();
        Box::into_inner(desk)
    }
}

/// Has a desk take a command, and answers its reply. It is one function for all lanes, since it is long.
#[inline(never)]
fn take(desk: &mut Desk<Global>, command: &Command) -> Result<Reply, Refusal>
    ensures lawful { is_lawful desk.old ≡ true }
    ensures answer { IsAnswer (replay desk.old) command.now result }
    ensures accepted { OnOk result (desk.new ≡ record desk.old { commands = desk.old.commands ++ command.now ∷ [] }) }
    ensures refused { OnErr result (desk.new ≡ desk.old) }
    ensures counted { ledger_sums desk.new ≡ with_answer (ledger_sums desk.old) result }
    ensures within { (ledger_sums desk.new).quantity ≤ MAX_TRADED_QUANTITY }
{
    let _ = desk.accepted(); // It is lawful.
    let answer = desk.apply(command);
    let _ = desk.totals(); // They are within the limits of a day.
    answer
}

/// Publishes the command that a desk took last, with the number of a watch that has seen all before it. It is then the last of the
/// watch's own entries.
fn publish<N: BoardNaming>(
    board: &Board<N, Global>,
    desk: &Desk<Global>,
    pen: &mut Pen<N>,
    watch: &mut Watch<N>,
    command: &Command,
)
    requires took { unnumbered (grown pen.old (entry_of watch.old.number command.now)) ≡ desk.now }
    requires told { watch.old.seen ≡ pen.old }
    ensures pen { pen.new ≡ grown pen.old (entry_of watch.old.number command.now) }
    ensures watch { watch.new ≡ known_by watch.old.number pen.new (watch.old.own_entries ++ (version_of pen.old + 1, entry_of watch.old.number command.now) ∷ []) }
{
    let _ = desk.accepted(); // It is lawful.
    let quote = desk.quote();
    board.publish(pen, watch.number(), command, &quote);
    board.tell(pen, watch, true);
}
