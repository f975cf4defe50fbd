//! The one writer of a board.
use crate::naming::BoardNaming;
use crate::opened::BoardSeat;
use std::marker::{Model, PhantomData};
use xm_rules::Quote;

/// The one writer of a board. A clause sees it as the journal that it has published.
#[derive(Drop)]
pub struct Pen<N: BoardNaming> {
    pub(crate) seat: BoardSeat,
    /// The quote that it published last.
    pub(crate) last: Quote,
    pub(crate) of: PhantomData<N>,
}

impl<N: BoardNaming> Model for Pen<N> {
    ghost use Rattle.std.specs.Prelude.{◌≡◌};
    ghost use Rattle.xm_board.specs.declared.journal.NumberedJournal.{NumberedJournal};

    ghost Value = { NumberedJournal };

    ghost use Rattle.xm_board.specs.Journals.{quote_of};
    ghost use Rattle.xm_board.specs.Published.{IsPublished};
    ghost use Rattle.xm_board.specs.declared.seats.Role.TheVariants.{Pen as pen_role};
    ghost use Rattle.xm_board.specs.declared.seats.Stage.TheVariants.{Idle};

    ghost view = { λ p. p.seat.me.0.seen };

    ghost invariant = { λ p. (p.seat.table_id ≡ N.table) × (p.seat.me.0.role ≡ pen_role) × (p.seat.me.0.stage ≡ Idle) × (p.last ≡ quote_of p.seat.me.0.seen) × IsPublished p.seat.me.0.seen };
}
